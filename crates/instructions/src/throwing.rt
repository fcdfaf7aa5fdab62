//! athrow (JVM Specification 2.10, 6.5).

ghost use Rattle.std.specs.Prelude.{◌≡◌};
ghost use Rattle.frame_stack.specs.FrameLists.{top_operands};
ghost use Rattle.jvm_model.specs.Basis.Values.{ref_of};
ghost use Rattle.jvm_model.specs.Instructions.ObjectRules.{throws};
ghost use Rattle.member_selection.specs.Answers.{asking_in_frame};
ghost use Rattle.member_selection.specs.Outcomes.{HasOperands, outcome_in_frame};

use activations::is_throwable;
use frame_stack::Frames;
use jvm_basic::ref_of;
use jvm_model::Exception;
use member_selection::{AbruptCompletion, Outcome};
use symbolic_references::Runtime;

/// Throws the object on top, which has to be a Throwable.
pub fn throw_object(runtime: &Runtime, frames: &Frames) -> Outcome
    ensures answer { outcome_in_frame result frames.now
        ≡ asking_in_frame
        (λ l o. throws runtime.now.world runtime.now.shared (ref_of o)) frames.now }
    ensures enough { HasOperands result (top_operands frames.now.frames) }
{
    let Some(object) = ref_of(frames) else {
        return Outcome::Abrupt(AbruptCompletion::Breaks);
    };
    if object == 0 {
        return Outcome::Abrupt(AbruptCompletion::Raises(Exception::NullPointer, None));
    }
    if is_throwable(runtime, object) {
        Outcome::Abrupt(AbruptCompletion::Throws(object))
    } else {
        Outcome::Abrupt(AbruptCompletion::Breaks)
    }
}
