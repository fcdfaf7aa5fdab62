//! ldc of a Class (JVM Specification 5.1, 6.5), where the name was resolved.

ghost use Rattle.std.specs.Prelude.{◌≡◌, IfOk, OnErr, OnOk};
ghost use Rattle.jvm_model.specs.Instructions.ConstantRules.{pushes_object_of};
ghost use Rattle.native_effects.specs.Effects.Making.{answer_of_class, heap_after_class, made_after_class};
ghost use Rattle.member_selection.specs.Outcomes.{Asks, HaveOperands};
ghost use Rattle.symbolic_references.specs.Leaving.{Sets};
ghost use Rattle.symbolic_references.specs.Natives.{object_or_full};

use crate::runtime::Runtime;
use crate::runtime::creation::RESERVED;
use frame_stack::Frames;
use heap_objects::{Heap, HeapError, Value};
use jf_bytes::NoMemory;
use member_selection::{AbruptCompletion, Outcome};
use native_effects::Made;

/// The Class object of a kind; none where there is no room for it.
fn class_object(heap: &mut Heap, made: &mut Made, kind: u32) -> Result<Option<u32>, NoMemory>
    ensures answer { IfOk result (λ object. object_or_full object
        ≡ answer_of_class kind made.old heap.old) }
    ensures heap { OnOk result (heap.new ≡ heap_after_class kind made.old heap.old) }
    ensures made { OnOk result (made.new ≡ made_after_class kind heap.old made.old) }
    ensures kept { OnErr result (heap.new ≡ heap.old) }
{
    match made.class_object(kind, heap) {
        Ok(object) => Ok(Some(object)),
        Err(HeapError::HeapFull) => Ok(None),
        Err(HeapError::NoMemory) => Err(NoMemory),
    }
}

impl Runtime {
    /// ldc of a Class.
    pub fn push_class_object(&mut self, frames: &Frames, kind: u32) -> Result<Outcome, NoMemory>
        ensures answer { Asks result (pushes_object_of kind self.old.shared) frames.now }
        ensures runtime { Sets result self.new (pushes_object_of kind self.old.shared) frames.now
            self.old }
        ensures world { self.new.world ≡ self.old.world }
        ensures same_loaded { self.new.shared.loaded ≡ self.old.shared.loaded }
        ensures enough { HaveOperands result frames.now }
    {
        match class_object(&mut self.heap, &mut self.made, kind)? {
            Some(object) => Ok(Outcome::Goes(0, Some(Value::Ref(object)))),
            None => Ok(Outcome::Abrupt(AbruptCompletion::Throws(RESERVED))),
        }
    }
}
