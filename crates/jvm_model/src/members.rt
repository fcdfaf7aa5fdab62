//! What a class file says of a member (JVM Specification 4.5, 4.6, 4.7.3).

ghost use Rattle.std.specs.Prelude.{◌≡◌};
ghost use Rattle.std.specs.Option.{option_copied};
ghost use Rattle.jvm_model.specs.Basis.Methods.{code_of, has_flag};

use const_pool::{Attribute, CodeAttribute, Member};

/// Whether a flag of a class or of a member is set.
pub fn has_flag(access: u16, flag: u16) -> bool
    ensures { result ≡ has_flag flag access }
{
    access & flag != 0
}

/// A method's Code, where it has one.
pub fn code_of(method: &Member) -> Option<&CodeAttribute>
    ensures { option_copied result ≡ code_of method.now }
{
    for attribute in method.attributes.as_slice() {
        if let Attribute::Code(_, code) = attribute {
            return Some(code);
        }
    }
    None
}
