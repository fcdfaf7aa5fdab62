//! Exceptions that the machine makes, strings of constants, elements of arrays, and how far classes
//! are initialized (JVM Specification
//! 2.10, 5.1, 5.5).

ghost use Rattle.std.specs.Prelude.{◌≡◌, ◌≤◌, ◌+◌, length, IfOk, None, OnOk, Some};
ghost use Rattle.class_linker.specs.Linkers.{LinkerView};
ghost use Rattle.heap_objects.specs.Changes.{changed_if};
ghost use Rattle.heap_objects.specs.Heaps.{has_slot_at, next_number, with_slot_at, with_text};
ghost use Rattle.heap_objects.specs.declared.datum.Datum.TheVariants.{Ref};
ghost use Rattle.jvm_model.specs.Basis.SharedState.{exception_raised, made_with, phase_of, with_phase};
ghost use Rattle.jvm_model.specs.Instructions.Exceptions.{exception_name};
ghost use Rattle.jvm_model.specs.Instructions.ConstantRules.{pushes_string};
ghost use Rattle.symbolic_references.specs.MadeObjects.{heap_made, heap_with_both, reference_made, reference_of_both};
ghost use Rattle.symbolic_references.specs.MadeObjects.{with_both};
ghost use Rattle.member_selection.specs.Objects.{AreLoaded, IsUsable};
ghost use Rattle.member_selection.specs.Outcomes.{Asks, HaveOperands};
ghost use Rattle.symbolic_references.specs.Leaving.{Sets};
ghost use Rattle.symbolic_references.specs.Runtimes.{with_heap, with_shared};

use crate::runtime::Runtime;
use crate::runtime::creation::RESERVED;
use frame_stack::Frames;
use heap_objects::{Datum, Heap, HeapError, Value};
use jf_bytes::{NoMemory, Text16};
use jvm_model::{Exception, Phase};
use member_selection::{AbruptCompletion, Outcome};

/// Makes an exception of this kind without a message, with this cause, and gives its number. The
/// class of each object stays loaded.
#[tactic(auto, using(member_selection::proofs::ObjectLemmas::objects_with))]
fn make(heap: &mut Heap, kind: u32, cause: u32) -> Result<u32, NoMemory>
    ensures heap { OnOk result (heap.new ≡ heap_made kind cause heap.old) }
    ensures number { IfOk result (λ r. r ≡ reference_made heap.old) }
    ensures loaded { (l : LinkerView) → IsUsable l kind → AreLoaded l heap.old
        → AreLoaded l heap.new }
{
    match heap.instance(kind, &[Datum::Ref(0), Datum::Ref(cause)]) {
        Ok(number) => Ok(number),
        Err(HeapError::HeapFull) => Ok(RESERVED),
        Err(HeapError::NoMemory) => Err(NoMemory),
    }
}

/// Makes the text of a message and then the exception. There is room for both.
#[tactic(auto, using(member_selection::proofs::ObjectLemmas::objects_with))]
fn make_both(heap: &mut Heap, string: u32, kind: u32, message: &[u16]) -> Result<u32, NoMemory>
    requires room { heap.old.used + (1 + length message.now + 3) ≤ heap.old.limit }
    ensures heap { OnOk result (heap.new ≡ with_both string kind message.now heap.old) }
    ensures number { IfOk result (λ r. r ≡ next_number (with_text string message.now heap.old)) }
    ensures loaded { (l : LinkerView) → IsUsable l string → IsUsable l kind → AreLoaded l heap.old
        → AreLoaded l heap.new }
{
    let text = match heap.text(string, message) {
        Ok(number) => number,
        Err(HeapError::HeapFull) => unreachable!(),
        Err(HeapError::NoMemory) => return Err(NoMemory),
    };
    match heap.instance(kind, &[Datum::Ref(text), Datum::Ref(0)]) {
        Ok(number) => Ok(number),
        Err(HeapError::HeapFull) => unreachable!(),
        Err(HeapError::NoMemory) => Err(NoMemory),
    }
}

/// Makes an exception of this kind behind its message, and gives its number.
fn make_with(heap: &mut Heap, string: u32, kind: u32, message: &[u16]) -> Result<u32, NoMemory>
    ensures heap { OnOk result (heap.new ≡ heap_with_both string kind message.now heap.old) }
    ensures number { IfOk result (λ r. r ≡ reference_of_both string message.now heap.old) }
    ensures loaded { (l : LinkerView) → IsUsable l string → IsUsable l kind → AreLoaded l heap.old
        → AreLoaded l heap.new }
{
    if !heap.has_room(1 + message.len() + 3) {
        return Ok(RESERVED);
    }
    make_both(heap, string, kind, message)
}

impl Runtime {
    /// Makes an exception that the machine raises, without a message and with this cause, and gives
    /// its number; object 1 where it does not fit.
    pub fn make_exception(&mut self, exception: Exception, cause: u32) -> Result<u32, NoMemory>
        ensures number { let name = exception_name exception in IfOk result (λ r. r
            ≡ (made_with self.old.world self.old.shared name None (Ref cause)).reference) }
        ensures runtime { let name = exception_name exception in OnOk result (self.new ≡ with_shared
            (made_with self.old.world self.old.shared name None (Ref cause)).shared self.old) }
        ensures world { self.new.world ≡ self.old.world }
        ensures same_loaded { self.new.shared.loaded ≡ self.old.shared.loaded }
    {
        let kind = self.kind_of(exception)?;
        make(&mut self.heap, kind, cause)
    }

    /// The same behind its message.
    pub fn make_exception_with(
        &mut self,
        exception: Exception,
        message: &[u16],
    ) -> Result<u32, NoMemory>
        ensures number { let name = exception_name exception in IfOk result (λ r. r
            ≡ (exception_raised self.old.world self.old.shared name (Some message.now)).reference) }
        ensures runtime { let name = exception_name exception in OnOk result (self.new ≡ with_shared
            (exception_raised self.old.world self.old.shared name
            (Some message.now)).shared self.old) }
        ensures world { self.new.world ≡ self.old.world }
        ensures same_loaded { self.new.shared.loaded ≡ self.old.shared.loaded }
    {
        let kind = self.kind_of(exception)?;
        let string = self.string_kind();
        make_with(&mut self.heap, string, kind, message)
    }

    /// ldc of a String: the one of these units, which is made where there is none yet.
    pub fn push_string(&mut self, frames: &Frames, units: &Text16) -> Result<Outcome, NoMemory>
        ensures answer { Asks result
            (pushes_string self.old.world.program units.now self.old.shared) frames.now }
        ensures runtime { Sets result self.new
            (pushes_string self.old.world.program units.now self.old.shared) frames.now self.old }
        ensures world { self.new.world ≡ self.old.world }
        ensures same_loaded { self.new.shared.loaded ≡ self.old.shared.loaded }
        ensures enough { HaveOperands result frames.now }
    {
        let kind = self.string_kind();
        match self.heap.intern(kind, units.units()) {
            Ok(number) => Ok(Outcome::Goes(0, Some(Value::Ref(number)))),
            Err(HeapError::HeapFull) => Ok(Outcome::Abrupt(AbruptCompletion::Throws(RESERVED))),
            Err(HeapError::NoMemory) => Err(NoMemory),
        }
    }

    /// Puts a value into an element of an array. False, with nothing changed, where there is no
    /// such element.
    #[inline(always)]
    pub fn store_at(&mut self, array: u32, slot: u32, value: Datum) -> bool
        ensures answer { result ≡ has_slot_at array slot self.old.shared.heap }
        ensures runtime { self.new ≡ with_heap
            (changed_if result (with_slot_at array slot value) self.old.shared.heap) self.old }
    {
        self.heap.put(array, slot, value)
    }

    /// How far a class is initialized.
    pub fn phase(&self, class: u32) -> Option<Phase>
        ensures { result ≡ phase_of self.now.shared class }
    {
        self.phases.at(class as usize)
    }

    /// Gives a class this phase.
    pub fn set_phase(&mut self, class: u32, phase: Phase)
        ensures { self.new ≡ with_shared (with_phase self.old.shared class phase) self.old }
    {
        if (class as usize) < self.phases.len() {
            self.phases.set(class as usize, phase);
        }
    }
}
