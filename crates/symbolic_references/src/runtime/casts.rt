//! checkcast and instanceof (JVM Specification 6.5) of what is not null, where the name was
//! resolved.

ghost use Rattle.std.specs.Prelude.{◌≡◌, pos, Some};
ghost use Rattle.heap_objects.specs.declared.Value.TheVariants.{Int};
ghost use Rattle.jvm_model.specs.Instructions.CreationRules.{answers, casts_to, int_for};
ghost use Rattle.jvm_model.specs.Classes.Kinds.{kind_named};
ghost use Rattle.jvm_model.specs.Instructions.SymbolicReference.{is_instance};
ghost use Rattle.jvm_model.specs.Basis.Values.{ref_of};
ghost use Rattle.member_selection.specs.Known.{IsClassFound};
ghost use Rattle.member_selection.specs.Objects.{IsResolved};
ghost use Rattle.member_selection.specs.Answers.{asking_in_frame};
ghost use Rattle.member_selection.specs.Outcomes.{HasOperands, outcome_in_frame};
ghost use Rattle.symbolic_references.specs.Runtimes.{linker_in};
ghost use Rattle.frame_stack.specs.FrameLists.{top_operands};

use crate::runtime::Runtime;
use frame_stack::Frames;
use heap_objects::Value;
use jf_bytes::Text16;
use jvm_basic::ref_of;
use jvm_model::Exception;
use member_selection::{AbruptCompletion, Found, Outcome, kind_of_object};

/// An int for an answer.
fn int_for(answer: bool) -> Value
    ensures { result ≡ Int (pos (int_for answer)) }
{
    if answer { Value::Int(1) } else { Value::Int(0) }
}

impl Runtime {
    /// Whether an object is of the class, or of the array type, with this name, or of a subtype.
    /// The kind of the last object that was is kept.
    #[tactic(auto, using(crate::proofs::Slots::is_instance_named))]
    pub fn is_of(&self, name: &Text16, kind: u32, found: &mut Found, object: u32) -> bool
        requires named { kind_named self.now.world.program name.now ≡ Some kind }
        requires found { IsClassFound found.old self.now.world.program kind }
        ensures answer { result ≡ is_instance self.now.world.program self.now.shared.heap object
            name.now }
        ensures found { IsClassFound found.new self.now.world.program kind }
    {
        let Some(lower) = kind_of_object(&self.linker, &self.heap, object) else {
            return false;
        };
        if let Found::Below(last) = *found
            && last == lower
        {
            return true;
        }
        if !self.linker.subtype(lower, kind) {
            return false;
        }
        *found = Found::Below(lower);
        true
    }

    /// checkcast.
    pub fn cast(&self, frames: &Frames, name: &Text16, kind: u32, found: &mut Found) -> Outcome
        requires resolved { IsResolved (linker_in self.now) name.now kind }
        requires found { IsClassFound found.old self.now.world.program kind }
        ensures answer { outcome_in_frame result frames.now
            ≡ asking_in_frame (λ l o. casts_to self.now.world.program name.now
            (ref_of o) self.now.shared l o) frames.now }
        ensures found { IsClassFound found.new self.now.world.program kind }
        ensures enough { HasOperands result (top_operands frames.now.frames) }
    {
        let Some(object) = ref_of(frames) else {
            return Outcome::Abrupt(AbruptCompletion::Breaks);
        };
        if self.is_of(name, kind, found, object) {
            Outcome::Goes(0, None)
        } else {
            Outcome::Abrupt(AbruptCompletion::Raises(Exception::ClassCast, None))
        }
    }

    /// instanceof.
    pub fn tell_instance(
        &self,
        frames: &Frames,
        name: &Text16,
        kind: u32,
        found: &mut Found,
    ) -> Outcome
        requires resolved { IsResolved (linker_in self.now) name.now kind }
        requires found { IsClassFound found.old self.now.world.program kind }
        ensures answer { outcome_in_frame result frames.now
            ≡ asking_in_frame (λ l o. answers self.now.world.program name.now
            (ref_of o) self.now.shared l o) frames.now }
        ensures found { IsClassFound found.new self.now.world.program kind }
        ensures enough { HasOperands result (top_operands frames.now.frames) }
    {
        let Some(object) = ref_of(frames) else {
            return Outcome::Abrupt(AbruptCompletion::Breaks);
        };
        let answer = self.is_of(name, kind, found, object);
        Outcome::Goes(1, Some(int_for(answer)))
    }
}
