//! What the indices of a class's pool and its methods' names and descriptors say (JVM Specification
//! 4.4, 4.6, 5.4.3).

ghost use Rattle.std.specs.Prelude.{◌≡◌};
ghost use Rattle.std.specs.Option.{option_map};
ghost use Rattle.const_pool.specs.Members.{reference_view};
ghost use Rattle.const_pool.specs.References.{named_field, named_method};
ghost use Rattle.jvm_model.specs.Codes.Lines.{named_interface_method};
ghost use Rattle.jvm_model.specs.Basis.Methods.{is_member, method_named};
ghost use Rattle.jvm_model.specs.Basis.Programs.{initializer_name};
ghost use Rattle.jvm_model.specs.Instructions.Rules.{is_reference};

use const_pool::{ClassFile, Const, Member, MemberRef, Pool};

/// Whether a method is a static initializer (2.9).
pub fn is_initializer(pool: &Pool, member: &Member) -> bool
    ensures { result ≡ is_member pool.now initializer_name member.now }
{
    pool.is_bytes(member.name, b"<clinit>") && pool.is_bytes(member.descriptor, b"()V")
}

/// The position of a class's static initializer, where it has one.
pub fn initializer_in(class: &ClassFile) -> Option<usize>
    ensures { result ≡ method_named class.now initializer_name }
{
    for (at, method) in class.methods.as_slice().iter().enumerate() {
        if is_initializer(&class.pool, method) {
            return Some(at);
        }
    }
    None
}

/// Whether a member is the one with this class, this name and this descriptor.
pub fn is_reference(member: &MemberRef<'_>, class: &[u8], name: &[u8], descriptor: &[u8]) -> bool
    ensures { result ≡ is_reference class.now name.now descriptor.now (reference_view member.now) }
{
    member.class.is_bytes(class)
        && member.name.is_bytes(name)
        && member.descriptor.is_bytes(descriptor)
}

/// What a Fieldref names.
pub fn field_at(pool: &Pool, index: u16) -> Option<MemberRef<'_>>
    ensures { option_map reference_view result ≡ named_field pool.now index }
{
    match pool.get(index)? {
        Const::Field(_, _) => pool.member(index).ok(),
        _ => None,
    }
}

/// What a Methodref names.
pub fn method_at(pool: &Pool, index: u16) -> Option<MemberRef<'_>>
    ensures { option_map reference_view result ≡ named_method pool.now index }
{
    match pool.get(index)? {
        Const::Method(_, _) => pool.member(index).ok(),
        _ => None,
    }
}

/// What an InterfaceMethodref names.
pub fn interface_method_at(pool: &Pool, index: u16) -> Option<MemberRef<'_>>
    ensures { option_map reference_view result ≡ named_interface_method pool.now index }
{
    match pool.get(index)? {
        Const::InterfaceMethod(_, _) => pool.member(index).ok(),
        _ => None,
    }
}
