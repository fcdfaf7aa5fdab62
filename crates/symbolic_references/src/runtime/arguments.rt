//! The arguments of `main` (JVM Specification 5.2): an array of strings.

ghost use Rattle.std.specs.Prelude.{◌≡◌, ◌<◌, ◌≤◌, ◌+◌, ◌^◌, ◌==◌, false, length, OnOk};
ghost use Rattle.class_linker.specs.Linkers.{LinkerView};
ghost use Rattle.jvm_model.specs.declared.program.Program.{Program};
ghost use Rattle.jvm_model.specs.Basis.SharedState.{arguments_cost, kind_for, string, texts_cost};
ghost use Rattle.jvm_model.specs.Basis.SharedState.{with_arguments, with_text_in, with_texts};
ghost use Rattle.member_selection.specs.Objects.{AreLoaded, IsUsable};
ghost use Rattle.symbolic_references.specs.Runtimes.{with_heap};

use crate::runtime::Runtime;
use base_classes::FIRST_ARRAY;
use heap_objects::{Datum, Heap, HeapError};
use jf_bytes::{NoMemory, Text16};

/// A text goes into an element of an array. There is room for it.
#[tactic(auto, using(member_selection::proofs::ObjectLemmas::objects_with, member_selection::proofs::ObjectLemmas::objects_slot))]
fn put_text(kind: u32, array: u32, at: u32, units: &[u16], heap: &mut Heap) -> Result<(), NoMemory>
    requires array { (array == 0) ≡ false }
    requires room { heap.old.used + (1 + length units.now) ≤ heap.old.limit }
    ensures heap { OnOk result (heap.new ≡ with_text_in kind array at units.now heap.old) }
    ensures loaded { (l : LinkerView) → IsUsable l kind → AreLoaded l heap.old
        → AreLoaded l heap.new }
{
    match heap.text(kind, units) {
        Ok(text) => {
            heap.put(array, at, Datum::Ref(text));
            Ok(())
        }
        Err(HeapError::HeapFull) => unreachable!(),
        Err(HeapError::NoMemory) => Err(NoMemory),
    }
}

/// The texts of the arguments of `main` go into their array. There is room for them.
fn put_texts(kind: u32, args: &[Text16], array: u32, heap: &mut Heap) -> Result<(), NoMemory>
    requires array { (array == 0) ≡ false }
    requires short { length args.now < 2 ^ 32 }
    requires room { heap.old.used + texts_cost args.now ≤ heap.old.limit }
    ensures heap { (p : Program) → kind ≡ kind_for p string → OnOk result (heap.new
        ≡ with_texts p array 0 args.now heap.old) }
    ensures loaded { (l : LinkerView) → IsUsable l kind → AreLoaded l heap.old
        → AreLoaded l heap.new }
{
    for (at, arg) in args.iter().enumerate() {
        put_text(kind, array, at as u32, arg.units(), heap)?;
    }
    Ok(())
}

/// The array of these arguments, and then their texts. There is room for them.
#[tactic(auto, using(member_selection::proofs::KindLemmas::over, member_selection::proofs::ObjectLemmas::objects_with))]
fn make_arguments(kind: u32, args: &[Text16], heap: &mut Heap) -> Result<(), NoMemory>
    requires kind { kind + 16777216 < 2 ^ 32 }
    requires short { length args.now < 2 ^ 32 }
    requires room { heap.old.used + arguments_cost args.now ≤ heap.old.limit }
    ensures heap { (p : Program) → kind ≡ kind_for p string → p.args ≡ args.now
        → OnOk result (heap.new ≡ with_arguments p heap.old) }
    ensures loaded { (l : LinkerView) → IsUsable l kind → AreLoaded l heap.old
        → AreLoaded l heap.new }
{
    match heap.array(FIRST_ARRAY + kind, Datum::Ref(0), args.len() as u32) {
        Ok(array) => put_texts(kind, args, array, heap),
        Err(HeapError::HeapFull) => unreachable!(),
        Err(HeapError::NoMemory) => Err(NoMemory),
    }
}

impl Runtime {
    /// Makes the array of the arguments of `main`, and then their texts. There is room for them.
    pub fn make_arguments(&mut self) -> Result<(), NoMemory>
        requires { self.old.shared.heap.used + arguments_cost self.old.world.program.args
            ≤ self.old.shared.heap.limit }
        ensures runtime { OnOk result (self.new
            ≡ with_heap (with_arguments self.old.world.program self.old.shared.heap) self.old) }
        ensures world { self.new.world ≡ self.old.world }
        ensures same_loaded { self.new.shared.loaded ≡ self.old.shared.loaded }
    {
        let kind = self.string_kind();
        // there is room for them, so there are fewer than 2^32
        let _limit = self.heap.limit();
        let program = self.linker.program();
        make_arguments(kind, program.args.as_slice(), &mut self.heap)
    }
}
