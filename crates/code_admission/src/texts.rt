//! Names and descriptors (JVM Specification 4.2, 4.3) as tests.

ghost use Rattle.std.specs.Prelude.{◌≡◌, IfOk};
ghost use Rattle.jvm_model.specs.Classes.Kinds.{is_array_name};
ghost use Rattle.code_admission.specs.Texts.{dimensions_of, is_class_name, is_field_text};
ghost use Rattle.code_admission.specs.Texts.{field_kind, method_kinds};

use const_pool::{DescriptorError, Kind, Shape, parse_field, parse_method};
use jf_bytes::{NoMemory, Text16};
use std::alloc::Global;

/// `[`, of which a descriptor has one a dimension.
const BRACKET: u16 = 91;

/// How many `[` stand in front.
pub fn dimensions_of(name: &Text16) -> usize
    ensures { result ≡ dimensions_of name.now }
{
    let units = name.units();
    let mut count = 0;
    while count < units.len() {
        if units[count] != BRACKET {
            return count;
        }
        count += 1;
    }
    count
}

/// Whether the name is that of an array class.
pub fn is_array_name(name: &Text16) -> bool
    ensures { result ≡ is_array_name name.now }
{
    match name.units().first() {
        Some(unit) => *unit == BRACKET,
        None => false,
    }
}

/// What a field descriptor stands for; None where the text is none.
pub fn field_kind(text: &Text16) -> Option<Kind>
    ensures { result ≡ field_kind text.now }
{
    parse_field(text).ok()
}

/// Whether the text is a field descriptor.
pub fn is_field_text(text: &Text16) -> bool
    ensures { result ≡ is_field_text text.now }
{
    field_kind(text).is_some()
}

/// What a method descriptor stands for; None where the text is none.
pub fn method_kinds(alloc: Global, text: &Text16) -> Result<Option<Shape>, NoMemory>
    ensures { IfOk result (λ shape. shape ≡ method_kinds text.now) }
{
    match parse_method(alloc, text) {
        Ok(shape) => Ok(Some(shape)),
        Err(DescriptorError::BadDescriptor(_)) => Ok(None),
        Err(DescriptorError::NoMemory) => Err(NoMemory),
    }
}

/// Whether code may refer to a class by this name.
pub fn is_class_name(name: &Text16) -> bool
    ensures { result ≡ is_class_name name.now }
{
    !is_array_name(name) || is_field_text(name)
}
