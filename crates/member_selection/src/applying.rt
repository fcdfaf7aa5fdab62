//! How the frame goes on behind an instruction (JVM Specification 2.6.2, 6.5).

ghost use Rattle.std.specs.Prelude.{◌≡◌, true, None, Some};
ghost use Rattle.frame_stack.specs.FrameLists.{top_operands, with_frames};
ghost use Rattle.member_selection.specs.Going.{frames_gone, has_gone, holds};
ghost use Rattle.member_selection.specs.Answers.{frames_after, goes_on};
ghost use Rattle.member_selection.specs.Outcomes.{HasOperands, outcome_in_frame};
ghost use Rattle.member_selection.specs.declared.outcome.Outcome.TheVariants.{Goes};

use crate::outcome::Outcome;
use frame_stack::Frames;
use heap_objects::Value;
use jvm_basic::{Effect, recall};

/// Whether the frame has gone on.
fn has_gone(effect: Effect) -> bool
    ensures { result ≡ has_gone effect }
{
    match effect {
        Effect::Next => true,
        Effect::Throws(_) => false,
        Effect::Bad => false,
        Effect::Other => false,
    }
}

/// With a value more.
#[tactic(auto, using(crate::proofs::Going::gone_if))]
fn put(frames: &mut Frames, value: Value, next: u16) -> bool
    ensures answer { result ≡ holds 0 (Some value) frames.old }
    ensures frames { frames.new ≡ frames_gone 0 (Some value) next frames.old }
{
    has_gone(jvm_basic::put(frames, value, next))
}

/// With a value in place of the topmost operand.
#[tactic(auto, using(crate::proofs::Going::gone_if))]
fn replace(frames: &mut Frames, value: Value, next: u16) -> bool
    ensures answer { result ≡ holds 1 (Some value) frames.old }
    ensures frames { frames.new ≡ frames_gone 1 (Some value) next frames.old }
{
    recall(frames);
    has_gone(jvm_basic::replace(frames, value, next))
}

/// With a value in place of so many topmost operands, which have room for it.
fn replace_many(frames: &mut Frames, value: Value, count: u16, next: u16) -> bool
    requires { holds count (Some value) frames.old ≡ true }
    ensures answer { result ≡ holds count (Some value) frames.old }
    ensures frames { frames.new ≡ frames_gone count (Some value) next frames.old }
{
    for _ in 0..count {
        frames.pop();
    }
    put(frames, value, next)
}

/// With a value in place of so many topmost operands. Two have room for any value.
fn replace_operands(frames: &mut Frames, value: Value, count: u16, next: u16) -> bool
    requires { HasOperands (Goes count (Some value)) (top_operands frames.old.frames) }
    ensures answer { result ≡ holds count (Some value) frames.old }
    ensures frames { frames.new ≡ frames_gone count (Some value) next frames.old }
{
    if count == 0 {
        return put(frames, value, next);
    }
    if count == 1 {
        return replace(frames, value, next);
    }
    recall(frames);
    replace_many(frames, value, count, next)
}

/// Without so many topmost operands.
#[tactic(auto, using(crate::proofs::Going::gone_if))]
fn drop_operands(frames: &mut Frames, count: u16, next: u16) -> bool
    ensures answer { result ≡ holds count None frames.old }
    ensures frames { frames.new ≡ frames_gone count None next frames.old }
{
    recall(frames);
    for _ in 0..count {
        frames.pop();
    }
    recall(frames);
    has_gone(jvm_basic::go_on(frames, next))
}

/// The frame goes on with a value, if there is one, in place of so many operands; false where it
/// could not hold them.
#[inline(always)]
pub fn apply(frames: &mut Frames, count: u16, value: Option<Value>, next: u16) -> bool
    requires { HasOperands (Goes count value) (top_operands frames.old.frames) }
    ensures answer { result ≡ holds count value frames.old }
    ensures frames { frames.new ≡ frames_gone count value next frames.old }
{
    match value {
        Some(value) => replace_operands(frames, value, count, next),
        None => drop_operands(frames, count, next),
    }
}

/// Whether the frame has gone on by what is asked for; it is as it was where it has not.
#[inline(always)]
pub fn pass_by(frames: &mut Frames, outcome: Outcome, next: u16) -> bool
    requires { HasOperands outcome (top_operands frames.old.frames) }
    ensures answer { result ≡ goes_on (outcome_in_frame outcome frames.old) frames.old.frames }
    ensures frames { frames.new ≡ with_frames
        (frames_after (outcome_in_frame outcome frames.old) next frames.old.frames) frames.old }
{
    match outcome {
        Outcome::Goes(count, value) => apply(frames, count, value, next),
        Outcome::Invokes(_, _) => false,
        Outcome::Abrupt(_) => false,
    }
}
