//! The classes of objects (JVM Specification 6.5, instanceof).

ghost use Rattle.std.specs.Prelude.{◌≡◌, IfSome, Some};
ghost use Rattle.heap_objects.specs.Heaps.{kind_at};
ghost use Rattle.jvm_model.specs.Instructions.SymbolicReference.{is_below_kind};
ghost use Rattle.member_selection.specs.Objects.{AreLoaded, IsUsable};

use class_linker::Linker;
use heap_objects::Heap;

/// The kind of an object, where there is one. Its class is loaded.
pub fn kind_of_object(linker: &Linker, heap: &Heap, object: u32) -> Option<u32>
    requires { AreLoaded linker.now heap.now }
    ensures found { result ≡ kind_at object heap.now }
    ensures usable { IfSome result (λ kind. IsUsable linker.now kind) }
{
    heap.kind(object)
}

/// Whether an object is of this kind, or of one below it.
pub fn is_instance(linker: &Linker, heap: &Heap, object: u32, kind: u32) -> bool
    requires { AreLoaded linker.now heap.now }
    ensures { result ≡ is_below_kind linker.now.program (kind_at object heap.now) (Some kind) }
{
    match kind_of_object(linker, heap, object) {
        Some(lower) => linker.subtype(lower, kind),
        None => false,
    }
}
