//! anewarray (JVM Specification 6.5), where the name was resolved.

ghost use Rattle.std.specs.Prelude.{◌≡◌, ◌+◌, ◌<◌, ◌^◌};
ghost use Rattle.jvm_model.specs.Instructions.CreationRules.{array_over};
ghost use Rattle.jvm_model.specs.Instructions.ObjectRules.{makes, makes_array};
ghost use Rattle.jvm_model.specs.Basis.Values.{int_of};
ghost use Rattle.jvm_model.specs.Soundness.Sound.{IsPrimitiveArray};
ghost use Rattle.member_selection.specs.Objects.{IsUsable};
ghost use Rattle.member_selection.specs.Outcomes.{Asks, HaveOperands};
ghost use Rattle.symbolic_references.specs.Leaving.{Sets};
ghost use Rattle.symbolic_references.specs.Runtimes.{linker_in};

use crate::runtime::Runtime;
use crate::runtime::creation::RESERVED;
use base_classes::FIRST_ARRAY;
use frame_stack::Frames;
use heap_objects::{Datum, HeapError, Value};
use jf_bytes::NoMemory;
use jvm_basic::int_of;
use jvm_model::Exception;
use member_selection::{AbruptCompletion, Outcome};

impl Runtime {
    /// An array of this kind, of so many elements, where there is room for it, in place of the
    /// number.
    fn make_array(&mut self, frames: &Frames, kind: u32, count: u32) -> Result<Outcome, NoMemory>
        requires usable { IsUsable (linker_in self.old) kind }
        ensures answer { Asks result (makes_array kind count self.old.shared) frames.now }
        ensures runtime { Sets result self.new (makes_array kind count self.old.shared) frames.now
            self.old }
        ensures world { self.new.world ≡ self.old.world }
        ensures same_loaded { self.new.shared.loaded ≡ self.old.shared.loaded }
        ensures enough { HaveOperands result frames.now }
    {
        if !self.heap.has_room(1 + count as usize) {
            return Ok(Outcome::Abrupt(AbruptCompletion::Throws(RESERVED)));
        }
        match self.heap.array(kind, Datum::Int(0), count) {
            Ok(number) => Ok(Outcome::Goes(1, Some(Value::Ref(number)))),
            // There is room.
            Err(HeapError::HeapFull) => unreachable!(),
            Err(HeapError::NoMemory) => Err(NoMemory),
        }
    }

    /// The same, of as many elements as the topmost operand says.
    fn make_counted(&mut self, frames: &Frames, kind: u32) -> Result<Outcome, NoMemory>
        requires usable { IsUsable (linker_in self.old) kind }
        ensures answer { Asks result (λ l o. makes kind (int_of o) self.old.shared l o) frames.now }
        ensures runtime { Sets result self.new (λ l o. makes kind (int_of o) self.old.shared l o)
            frames.now self.old }
        ensures world { self.new.world ≡ self.old.world }
        ensures same_loaded { self.new.shared.loaded ≡ self.old.shared.loaded }
        ensures enough { HaveOperands result frames.now }
    {
        let Some(count) = int_of(frames) else {
            return Ok(Outcome::Abrupt(AbruptCompletion::Breaks));
        };
        if count < 0 {
            return Ok(Outcome::Abrupt(AbruptCompletion::Raises(
                Exception::NegativeArraySize,
                None,
            )));
        }
        self.make_array(frames, kind, count as u32)
    }

    /// newarray.
    #[tactic(auto, using(member_selection::proofs::KindLemmas::primitive))]
    pub fn make_primitives(&mut self, frames: &Frames, kind: u32) -> Result<Outcome, NoMemory>
        requires { IsPrimitiveArray kind }
        ensures answer { Asks result (λ l o. makes kind (int_of o) self.old.shared l o) frames.now }
        ensures runtime { Sets result self.new (λ l o. makes kind (int_of o) self.old.shared l o)
            frames.now self.old }
        ensures world { self.new.world ≡ self.old.world }
        ensures same_loaded { self.new.shared.loaded ≡ self.old.shared.loaded }
        ensures enough { HaveOperands result frames.now }
    {
        // It tells that java/lang/Object is loaded.
        let _heap = self.heap();
        self.make_counted(frames, kind)
    }

    /// anewarray.
    #[tactic(auto, using(member_selection::proofs::KindLemmas::over))]
    pub fn make_array_of(&mut self, frames: &Frames, kind: u32) -> Result<Outcome, NoMemory>
        requires few { kind + 16777216 < 2 ^ 32 }
        requires usable { IsUsable (linker_in self.old) kind }
        ensures answer { Asks result (λ l o. makes (array_over kind) (int_of o) self.old.shared l o)
            frames.now }
        ensures runtime { Sets result self.new
            (λ l o. makes (array_over kind) (int_of o) self.old.shared l o) frames.now self.old }
        ensures world { self.new.world ≡ self.old.world }
        ensures same_loaded { self.new.shared.loaded ≡ self.old.shared.loaded }
        ensures enough { HaveOperands result frames.now }
    {
        // It tells that java/lang/Object is loaded.
        let _heap = self.heap();
        self.make_counted(frames, FIRST_ARRAY + kind)
    }
}
