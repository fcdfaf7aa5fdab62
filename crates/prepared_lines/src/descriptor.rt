//! What a method takes and gives, by its descriptor (JVM Specification 4.3.3).

ghost use Rattle.std.specs.Prelude.{◌≡◌, ◌↔◌, Some, IfOk};
ghost use Rattle.const_pool.specs.Descriptors.{IsMethod};
ghost use Rattle.const_pool.specs.declared.descriptor.Shape.{Shape as TheShape};
ghost use Rattle.jvm_model.specs.Basis.Descriptors.{shape_of};

use const_pool::{DescriptorError, Shape, parse_method};
use jf_bytes::{NoMemory, Text16};
use std::alloc::Global;

/// The shape that a method descriptor spells, and none for another text: what is read of a text is
/// what the grammar of descriptors says of it.
pub fn shape_of(alloc: Global, descriptor: &Text16) -> Result<Option<Shape>, NoMemory>
    ensures shape { IfOk result (λ shape. shape ≡ shape_of descriptor.now) }
    ensures grammar { (s : TheShape) →
        (shape_of descriptor.now ≡ Some s) ↔ IsMethod descriptor.now s }
{
    match parse_method(alloc, descriptor) {
        Ok(shape) => Ok(Some(shape)),
        Err(DescriptorError::BadDescriptor(_)) => Ok(None),
        Err(DescriptorError::NoMemory) => Err(NoMemory),
    }
}
