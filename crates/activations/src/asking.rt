//! What follows from what an instruction asks for (JVM Specification 2.6, 2.10, 5.5, 6.5).

ghost use Rattle.std.specs.Prelude.{◌≡◌, IfNone, IfOk, OnOk};
ghost use Rattle.std.specs.Option.{IfSome};
ghost use Rattle.frame_stack.specs.FrameLists.{top_operands};
ghost use Rattle.jvm_model.specs.Running.Run.{starts};
ghost use Rattle.jvm_model.specs.Instructions.Exceptions.{exception_name};
ghost use Rattle.member_selection.specs.Answers.{abrupt_view};
ghost use Rattle.member_selection.specs.Outcomes.{HasOperands, outcome_in_frame};
ghost use Rattle.member_selection.specs.declared.outcome.Outcome.TheVariants.{Goes};
ghost use Rattle.activations.specs.Applied.{IsTop, acts_asked, on_parts, raised_in};
ghost use Rattle.activations.specs.TakenArguments.{TakesArguments};
ghost use Rattle.prepared_code.specs.Originals.{setup_in};
ghost use Rattle.prepared_code.specs.States.{state_in};

use crate::invoking::call;
use crate::raising::{break_off, raise, raise_with};
use heap_objects::Value;
use jf_bytes::{NoMemory, Text16};
use jvm_model::{Ending, Exception};
use member_selection::{AbruptCompletion, Outcome, apply};
use prepared_code::{Originals, Parts};
use prepared_lines::Line;

/// Throws an exception that the instruction raises, with its message.
pub fn raise_named(
    parts: &mut Parts,
    exception: Exception,
    message: Option<Text16>,
) -> Result<(), NoMemory>
    ensures state { let w = parts.old.runtime.world in OnOk result (parts.new
        ≡ raised_in w (exception_name exception) message parts.old) }
    ensures world { parts.new.runtime.world ≡ parts.old.runtime.world }
    ensures same_loaded { parts.new.runtime.shared.loaded ≡ parts.old.runtime.shared.loaded }
{
    match message {
        Some(message) => raise_with(parts, exception, message.units()),
        None => raise(parts, exception),
    }
}

/// The frame goes on with a value, if there is one, in place of so many operands, or the run ends.
fn go_on(
    originals: &Originals,
    parts: &mut Parts,
    method: u32,
    line: &Line,
    count: u16,
    value: Option<Value>,
)
    requires top { IsTop method parts.old.frames.frames }
    requires enough { HasOperands (Goes count value) (top_operands parts.old.frames.frames) }
    ensures state { let w = setup_in parts.old.runtime originals.now in
        let q = outcome_in_frame (Goes count value) parts.old.frames in
        state_in parts.new ≡ on_parts (λ s f. acts_asked w line.now s f q) parts.old }
    ensures runtime { parts.new.runtime ≡ parts.old.runtime }
{
    if apply(&mut parts.frames, count, value, line.next) {
        return;
    }
    break_off(parts, method, line.instr.at);
}

/// What is asked for in place of going on. The class that is initialized before is the answer,
/// where one is.
fn complete_abruptly(
    originals: &Originals,
    parts: &mut Parts,
    method: u32,
    line: &Line,
    completion: AbruptCompletion,
) -> Result<Option<u32>, NoMemory>
    requires top { IsTop method parts.old.frames.frames }
    ensures answer { IfOk result (λ o. o ≡ starts (abrupt_view completion)) }
    ensures state { let w = setup_in parts.old.runtime originals.now in IfOk result (λ o. IfNone o
        (state_in parts.new ≡ on_parts
        (λ s f. acts_asked w line.now s f (abrupt_view completion)) parts.old)) }
    ensures begins { IfOk result (λ o. IfSome o (λ _. parts.new ≡ parts.old)) }
    ensures world { parts.new.runtime.world ≡ parts.old.runtime.world }
    ensures same_loaded { parts.new.runtime.shared.loaded ≡ parts.old.runtime.shared.loaded }
{
    match completion {
        AbruptCompletion::Raises(exception, message) => {
            raise_named(parts, exception, message)?;
            Ok(None)
        }
        AbruptCompletion::Throws(object) => {
            parts.thrown = Some(object);
            Ok(None)
        }
        AbruptCompletion::Initializes(class) => Ok(Some(class)),
        AbruptCompletion::Exits(status) => {
            parts.ending = Some(Ending::Exited(status));
            Ok(None)
        }
        AbruptCompletion::Breaks => {
            break_off(parts, method, line.instr.at);
            Ok(None)
        }
    }
}

/// Does what an instruction of the current frame asks for. The class that is initialized before is
/// the answer, where one is.
pub fn conclude(
    originals: &Originals,
    parts: &mut Parts,
    method: u32,
    line: &Line,
    outcome: Outcome,
) -> Result<Option<u32>, NoMemory>
    requires top { IsTop method parts.old.frames.frames }
    requires enough { HasOperands outcome (top_operands parts.old.frames.frames) }
    requires takes { let f = parts.old.frames in
        TakesArguments (outcome_in_frame outcome f) (top_operands f.frames) }
    ensures answer { IfOk result (λ o. o ≡ starts (outcome_in_frame outcome parts.old.frames)) }
    ensures state { let w = setup_in parts.old.runtime originals.now in IfOk result (λ o. IfNone o
        (state_in parts.new ≡ on_parts
        (λ s f. acts_asked w line.now s f (outcome_in_frame outcome parts.old.frames)) parts.old)) }
    ensures begins { IfOk result (λ o. IfSome o (λ _. parts.new ≡ parts.old)) }
    ensures world { parts.new.runtime.world ≡ parts.old.runtime.world }
    ensures same_loaded { parts.new.runtime.shared.loaded ≡ parts.old.runtime.shared.loaded }
{
    match outcome {
        Outcome::Goes(count, value) => {
            go_on(originals, parts, method, line, count, value);
            Ok(None)
        }
        Outcome::Invokes(callee, args) => {
            call(originals, parts, method, line.instr.at, callee, args)?;
            Ok(None)
        }
        Outcome::Abrupt(completion) => complete_abruptly(
            originals, parts, method, line, completion,
        ),
    }
}
