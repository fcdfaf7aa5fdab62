//! monitorenter and monitorexit (JVM Specification 6.5): of one thread nothing but the null check
//! is left.

ghost use Rattle.std.specs.Prelude.{◌≡◌};
ghost use Rattle.frame_stack.specs.FrameLists.{top_operands};
ghost use Rattle.jvm_model.specs.Basis.Values.{ref_of};
ghost use Rattle.jvm_model.specs.Instructions.ObjectRules.{watches};
ghost use Rattle.member_selection.specs.Answers.{asking_in_frame};
ghost use Rattle.member_selection.specs.Outcomes.{HasOperands, outcome_in_frame};

use frame_stack::Frames;
use jvm_basic::ref_of;
use jvm_model::Exception;
use member_selection::{AbruptCompletion, Outcome};

/// Takes the object off.
pub fn watch(frames: &Frames) -> Outcome
    ensures answer { outcome_in_frame result frames.now
        ≡ asking_in_frame (λ l o. watches (ref_of o) l o) frames.now }
    ensures enough { HasOperands result (top_operands frames.now.frames) }
{
    match ref_of(frames) {
        Some(0) => Outcome::Abrupt(AbruptCompletion::Raises(Exception::NullPointer, None)),
        Some(_) => Outcome::Goes(1, None),
        None => Outcome::Abrupt(AbruptCompletion::Breaks),
    }
}
