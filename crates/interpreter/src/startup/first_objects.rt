//! The objects that the machine makes before the start (JVM Specification 2.10, 5.2).

ghost use Rattle.std.specs.Prelude.{◌≡◌, ◌≤◌, ◌+◌, length, IfOk, OnOk};
ghost use Rattle.heap_objects.specs.Heaps.{with_instance};
ghost use Rattle.jvm_model.specs.Basis.SharedState.{heap_before};

use class_linker::Linker;
use heap_objects::{Datum, Heap, HeapError};
use jf_bytes::NoMemory;
use std::alloc::Global;
use symbolic_references::kind_for;

/// Makes an object that there is room for.
fn make(heap: &mut Heap, kind: u32, fields: &[Datum]) -> Result<(), NoMemory>
    requires { heap.old.used + (1 + length fields.now) ≤ heap.old.limit }
    ensures { OnOk result (heap.new ≡ with_instance kind fields.now heap.old) }
{
    match heap.instance(kind, fields) {
        Ok(_) => Ok(()),
        // There is room.
        Err(HeapError::HeapFull) => unreachable!(),
        Err(HeapError::NoMemory) => Err(NoMemory),
    }
}

/// Objects 1 to 4: the OutOfMemoryError that the machine throws, System.in, System.out and
/// System.err.
pub fn heap_before(alloc: Global, linker: &Linker) -> Result<Heap, NoMemory>
    requires { 1024 ≤ linker.now.program.heap }
    ensures { IfOk result (λ heap. heap ≡ heap_before linker.now.program) }
{
    let index = linker.index();
    let error = kind_for(alloc, index, b"java/lang/OutOfMemoryError")?;
    let input = kind_for(alloc, index, b"java/io/InputStream")?;
    let print = kind_for(alloc, index, b"java/io/PrintStream")?;
    let mut heap = Heap::new(alloc, linker.program().heap);
    make(&mut heap, error, &[Datum::Ref(0), Datum::Ref(0)])?;
    make(&mut heap, input, &[])?;
    make(&mut heap, print, &[])?;
    make(&mut heap, print, &[])?;
    Ok(heap)
}
