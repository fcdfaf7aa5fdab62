//! The fields that an instruction names (JVM Specification 5.4.3.2).

ghost use Rattle.std.specs.Prelude.{◌≡◌};
ghost use Rattle.const_pool.specs.References.{name_type_of};
ghost use Rattle.class_linker.specs.Linkers.{IsLoaded};
ghost use Rattle.jvm_model.specs.Instructions.FieldRules.{is_static_field};
ghost use Rattle.jvm_model.specs.Classes.Lookup.{resolved_field};
ghost use Rattle.jvm_model.specs.Instructions.SymbolicReference.{member_found};
ghost use Rattle.member_selection.specs.Answers.{place_found};
ghost use Rattle.member_selection.specs.Members.{at_place};
ghost use Rattle.member_selection.specs.Objects.{IsUsable};
ghost use Rattle.member_selection.specs.Resolved.{field_found};

use crate::declared_member::DeclaredMember;
use crate::outcome::AbruptCompletion;
use crate::resolution::exception_numbered;
use base_classes::STATIC;
use class_linker::{Linker, Resolved};
use jf_bytes::Text16;
use jvm_model::{Exception, MemberName, has_flag};

/// Whether the field is static.
pub fn is_static_field(linker: &Linker, m: DeclaredMember) -> bool
    ensures { result ≡ is_static_field linker.now.program (at_place m) }
{
    let Some(file) = linker.index().file(m.class) else {
        return false;
    };
    match file.fields.get(m.position as usize) {
        Some(field) => has_flag(field.access, STATIC),
        None => false,
    }
}

/// The field of a class with this name and descriptor, static or not.
fn field_in(
    linker: &Linker,
    class: u32,
    name: &Text16,
    descriptor: &Text16,
) -> Result<DeclaredMember, AbruptCompletion>
    requires { IsLoaded linker.now class }
    ensures { place_found result ≡ member_found
        (resolved_field linker.now.program class (name_type_of name.now descriptor.now)) }
{
    match linker.resolve_field(class, name, descriptor) {
        Resolved::Found(class, position) => Ok(DeclaredMember { class, position }),
        Resolved::Throws(number) => Err(AbruptCompletion::Raises(exception_numbered(number), None)),
    }
}

/// The field of a class that a name stands for, static or not.
fn resolved_field(
    linker: &Linker,
    class: u32,
    member: &MemberName,
) -> Result<DeclaredMember, AbruptCompletion>
    requires { IsLoaded linker.now class }
    ensures { place_found result
        ≡ member_found (resolved_field linker.now.program class member.now.member) }
{
    field_in(linker, class, member.name(), member.descriptor())
}

/// The field that a name stands for, once its class was resolved: a static one where one is asked
/// for, and else one that is not.
pub fn field_found(
    linker: &Linker,
    kind: u32,
    is_static: bool,
    member: &MemberName,
) -> Result<DeclaredMember, AbruptCompletion>
    requires { IsUsable linker.now kind }
    ensures { place_found result
        ≡ field_found linker.now.program kind is_static member.now }
{
    let m = match resolved_field(linker, linker.index().class_of_kind(kind), member) {
        Ok(m) => m,
        Err(completion) => return Err(completion),
    };
    if is_static_field(linker, m) == is_static {
        Ok(m)
    } else {
        Err(AbruptCompletion::Raises(Exception::IncompatibleClassChange, None))
    }
}
