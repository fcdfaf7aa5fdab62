//! arraylength (JVM Specification 6.5).

ghost use Rattle.std.specs.Prelude.{◌≡◌, true, false, IfOk};
ghost use Rattle.jvm_model.specs.Basis.Values.{ref_of};
ghost use Rattle.jvm_model.specs.Instructions.ObjectRules.{array_length, measures};
ghost use Rattle.member_selection.specs.Answers.{asking_in_frame};
ghost use Rattle.member_selection.specs.Outcomes.{HaveOperands, outcome_in_frame};
ghost use Rattle.instructions.specs.Elements.{IsMeasured};

use base_classes::FIRST_ARRAY;
use frame_stack::Frames;
use heap_objects::{Heap, Value};
use jf_bytes::NoMemory;
use jvm_basic::{Effect, ref_of, replace};
use jvm_model::Exception;
use member_selection::{AbruptCompletion, Outcome};
use prepared_code::Parts;
use prepared_lines::Line;
use symbolic_references::Runtime;

/// The greatest int.
const GREATEST: u32 = 2_147_483_647;

/// How many elements an array has; None for any other object.
fn array_length(heap: &Heap, object: u32) -> Option<u32>
    ensures { result ≡ array_length object heap.now }
{
    let kind = heap.kind(object)?;
    if kind < FIRST_ARRAY {
        return None;
    }
    heap.len(object)
}

/// arraylength: the number of an array's elements.
pub fn measure(runtime: &Runtime, frames: &Frames) -> Result<Outcome, NoMemory>
    ensures answer { IfOk result (λ a. outcome_in_frame a frames.now
        ≡ asking_in_frame (λ l o. measures (ref_of o) runtime.now.shared l o) frames.now) }
    ensures enough { HaveOperands result frames.now }
{
    let Some(reference) = ref_of(frames) else {
        return Ok(Outcome::Abrupt(AbruptCompletion::Breaks));
    };
    if reference == 0 {
        return Ok(Outcome::Abrupt(AbruptCompletion::Raises(Exception::NullPointer, None)));
    }
    let Some(count) = array_length(runtime.heap(), reference) else {
        return Ok(Outcome::Abrupt(AbruptCompletion::Breaks));
    };
    // An array is made with an int as its length, so that none is longer.
    if count > GREATEST {
        return Err(NoMemory);
    }
    Ok(Outcome::Goes(1, Some(Value::Int(count as i32))))
}

/// arraylength, where nothing is raised. False, with nothing changed, where the frame does not go
/// on.
pub fn pass_length(parts: &mut Parts, line: &Line) -> bool
    ensures gone { result ≡ true → IsMeasured line.now parts.old parts.new }
    ensures kept { result ≡ false → parts.new ≡ parts.old }
{
    let Some(array) = ref_of(&parts.frames) else {
        return false;
    };
    let Some(count) = array_length(parts.runtime.heap(), array) else {
        return false;
    };
    if count > GREATEST {
        return false;
    }
    let effect = replace(&mut parts.frames, Value::Int(count as i32), line.next);
    matches!(effect, Effect::Next)
}
