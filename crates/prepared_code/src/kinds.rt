//! Which objects can be elements of an array (JVM Specification 4.10.1.2, 6.5), by the numbers of
//! kinds.

ghost use Rattle.std.specs.Prelude.{◌≡◌};
ghost use Rattle.heap_objects.specs.Heaps.{kind_at};
ghost use Rattle.jvm_model.specs.Instructions.ObjectRules.{fits_array, is_element};
ghost use Rattle.member_selection.specs.Objects.{AreLoaded};

use base_classes::FIRST_ARRAY;
use class_linker::Linker;
use heap_objects::{Datum, Heap};
use member_selection::is_instance;

/// Whether an object can be an element of an array.
fn is_element(linker: &Linker, heap: &Heap, object: u32, array: u32) -> bool
    requires { AreLoaded linker.now heap.now }
    ensures { result ≡ is_element linker.now.program
        (kind_at object heap.now) (kind_at array heap.now) }
{
    match heap.kind(array) {
        Some(kind) => is_instance(linker, heap, object, kind.saturating_sub(FIRST_ARRAY)),
        None => false,
    }
}

/// Whether an array can have this element: null, what is no reference, or an object of the class
/// of its elements.
pub fn fits_array(linker: &Linker, heap: &Heap, datum: Datum, array: u32) -> bool
    requires { AreLoaded linker.now heap.now }
    ensures { result ≡ fits_array linker.now.program datum array heap.now }
{
    match datum {
        Datum::Ref(object) => object == 0 || is_element(linker, heap, object, array),
        Datum::Int(_) | Datum::Long(_) => true,
    }
}
