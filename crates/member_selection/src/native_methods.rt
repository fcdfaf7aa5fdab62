//! Which native method of a built-in class a method is, by its number.

ghost use Rattle.std.specs.Prelude.{◌≡◌, IfSome, IsSome, slice_get};
ghost use Rattle.std.specs.Option.{option_and_then, option_map};
ghost use Rattle.base_classes.specs.Natives.{native_methods, native_number};
ghost use Rattle.const_pool.specs.Members.{reference_view};
ghost use Rattle.jvm_model.specs.Instructions.InvocationRules.{method_reference};
ghost use Rattle.member_selection.specs.Members.{at_place};

use crate::declared_member::DeclaredMember;
use base_classes::native_of;
use const_pool::MemberRef;
use jvm_model::Program;

/// The name of the class that declares a method, and its name and descriptor.
fn method_reference(program: &Program, m: DeclaredMember) -> Option<MemberRef<'_>>
    ensures { option_map reference_view result ≡ method_reference program.now (at_place m) }
{
    let file = program.classes.get(m.class as usize)?;
    let Ok(class) = file.pool.class_name(file.this_class) else {
        return None;
    };
    let method = file.methods.get(m.position as usize)?;
    let Ok(name) = file.pool.text(method.name) else {
        return None;
    };
    let Ok(descriptor) = file.pool.text(method.descriptor) else {
        return None;
    };
    Some(MemberRef {
        class,
        name,
        descriptor,
    })
}

/// The number of a native method of a built-in class.
pub fn native_at(program: &Program, m: DeclaredMember) -> Option<u16>
    ensures number { result
        ≡ option_and_then native_number (method_reference program.now (at_place m)) }
    ensures stands { IfSome result (λ n. IsSome (slice_get native_methods n)) }
{
    let method = method_reference(program, m)?;
    native_of(method.class, method.name, method.descriptor)
}
