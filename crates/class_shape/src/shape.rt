//! Whether a class has the shape of another.

ghost use Rattle.std.specs.Prelude.{◌≡◌, ◌≢◌, ◌↔◌, ℕ, None, Some, IfSome, IsNone};
ghost use Rattle.const_pool.specs.ClassFile.{IsClassFile};
ghost use Rattle.class_shape.specs.ClassShapes.{HasSameShape, IsShapeFault, heading_of};
ghost use Rattle.class_shape.specs.Comparing.{number_of};
ghost use Rattle.class_shape.specs.Swaps.{IsSomeImage};

use crate::comparing::{other_field, other_method, same_heading};
use const_pool::ClassFile;

/// What is told where the difference is in no field and no method. No member of a class file has this position.
pub const OF_HEADING: u16 = 65535;

/// The number that is told of two classes.
pub(crate) fn number_of(original: &ClassFile, image: &ClassFile) -> Option<u16>
    requires { IsClassFile image.now }
    ensures { result ≡ number_of original.now image.now }
{
    if !same_heading(original, image) {
        return Some(OF_HEADING);
    }
    match other_field(original, image) {
        Some(at) => Some(at),
        None => other_method(original, image),
    }
}

/// Where a class has not the shape of another, which is tried in this order: `OF_HEADING` where the flags, the names of
/// class, superclass or interfaces or the counts of fields or methods differ; else the position of the first field that
/// differs in flags, name or descriptor; else that of the first such method. Names are compared as texts, each by its
/// own class's pool.
pub fn shape_fault(original: &ClassFile, image: &ClassFile) -> Option<u16>
    requires { IsClassFile image.now }
    ensures same { IsNone result ↔ HasSameShape original.now image.now }
    ensures number { IfSome result (IsShapeFault original.now image.now) }
    ensures only { (told : ℕ) → IsShapeFault original.now image.now told → result ≡ Some told }
    // So the number of a heading is told of no member.
    ensures heading { result ≡ Some OF_HEADING → heading_of original.now ≢ heading_of image.now }
    // No image of a class is refused.
    ensures image { IsClassFile original.now → IsSomeImage original.now image.now → result ≡ None }
{
    number_of(original, image)
}
