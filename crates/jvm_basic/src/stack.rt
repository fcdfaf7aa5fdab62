//! The stack instructions (JVM Specification 2.11.6, 6.5).

ghost use Rattle.std.specs.Prelude.{◌≡◌, ◌∷◌, ◌≤◌, [], IsTrue, length, slice_get};
ghost use Rattle.frame_stack.specs.Widths.{is_long};
ghost use Rattle.frame_stack.specs.FrameLists.{AreSound, top_operands};
ghost use Rattle.jvm_basic.specs.Outcomes.{effect_of, after};
ghost use Rattle.jvm_model.specs.Basis.Values.{has_form};
ghost use Rattle.jvm_model.specs.Basis.StackForms.{forms_of};
ghost use Rattle.jvm_basic.specs.Copies.{values_of, has_room_for, has_room_for_some, with_some};
ghost use Rattle.jvm_basic.specs.Copies.{with_inserted, inserts, copies_one, copies_two, swaps};
ghost use Rattle.jvm_basic.specs.Rules.{manages_stack};
ghost use Rattle.jvm_model.specs.declared.family.StackInstruction.TheVariants.{Pop, Pop2, Dup, DupX1};
ghost use Rattle.jvm_model.specs.declared.family.StackInstruction.TheVariants.{DupX2, Dup2, Dup2X1};
ghost use Rattle.jvm_model.specs.declared.family.StackInstruction.TheVariants.{Dup2X2, Swap};

use crate::effect::Effect;
use crate::moving::{drop_one, drop_two};
use crate::reading::recall;
use frame_stack::Frames;
use heap_objects::Value;
use jvm_model::StackInstruction;

fn is_long(value: Value) -> bool
    ensures { result ≡ is_long value }
{
    matches!(value, Value::Long(_))
}

fn long_at(longs: &[bool], index: usize) -> Option<bool>
    ensures { result ≡ slice_get longs.now index }
{
    longs.get(index).copied()
}

/// Whether the topmost operands are long where it is said, and only there.
#[tactic(auto, using(crate::proofs::Forms::fitting))]
fn fits(frames: &Frames, longs: &[bool]) -> bool
    requires few { length longs.now ≤ 4 }
    ensures form { result ≡ has_form longs.now (top_operands frames.now.frames) }
    ensures sound { AreSound frames.now.frames }
{
    recall(frames);
    for index in 0..longs.len() {
        let (Some(long), Some(value)) = (long_at(longs, index), frames.peek(index as u16)) else {
            return false;
        };
        if long != is_long(value) {
            return false;
        }
    }
    true
}

/// Whether there is room for these values more. The frames are as they were.
#[tactic(auto, using(crate::proofs::Copied::copied))]
fn has_room(frames: &mut Frames, first: Value, second: Option<Value>) -> bool
    ensures room { result ≡ has_room_for (values_of first second) frames.old }
    ensures frames { frames.new ≡ frames.old }
{
    match second {
        None => has_room_for(frames, first),
        Some(second) => {
            if !frames.push(second) {
                return false;
            }
            let fits = has_room_for(frames, first);
            frames.pop();
            fits
        }
    }
}

/// Whether there is room for a value more.
#[tactic(auto, using(crate::proofs::Tops::tops, crate::proofs::Copied::copied))]
fn has_room_for(frames: &mut Frames, value: Value) -> bool
    ensures room { result ≡ has_room_for (value ∷ []) frames.old }
    ensures frames { frames.new ≡ frames.old }
{
    if !frames.push(value) {
        return false;
    }
    frames.pop();
    true
}

/// Puts a value on top, where there is one.
#[tactic(auto, using(crate::proofs::Copied::copied))]
fn push_some(frames: &mut Frames, value: Option<Value>)
    requires fits { IsTrue (has_room_for_some value frames.old) }
    ensures { frames.new ≡ with_some value frames.old }
{
    if let Some(value) = value {
        frames.push(value);
    }
}

/// Puts these values, which have room, below so many operands.
#[tactic(auto, using(crate::proofs::Copied::copied))]
fn insert(frames: &mut Frames, under: u16, first: Value, second: Option<Value>)
    requires fits { IsTrue (has_room_for (values_of first second) frames.old) }
    ensures { frames.new ≡ with_inserted under (values_of first second) frames.old }
{
    if under == 0 {
        push_some(frames, second);
        push_some(frames, Some(first));
        return;
    }
    let value = frames.pop();
    insert(frames, under - 1, first, second);
    push_some(frames, value);
}

/// Puts these values below so many operands, where there is room.
#[tactic(auto, using(crate::proofs::Copied::copied))]
fn copy(frames: &mut Frames, under: u16, first: Value, second: Option<Value>, place: u16) -> Effect
    ensures effect { result ≡ effect_of (inserts under (values_of first second) place) frames.old }
    ensures frames { frames.new ≡ after (inserts under (values_of first second) place) frames.old }
{
    if !has_room(frames, first, second) {
        return Effect::Bad;
    }
    insert(frames, under, first, second);
    frames.go(place);
    Effect::Next
}

/// The topmost operand once more, below so many.
fn copy_one(frames: &mut Frames, under: u16, place: u16) -> Effect
    ensures effect { result ≡ effect_of (copies_one under place) frames.old }
    ensures frames { frames.new ≡ after (copies_one under place) frames.old }
{
    let Some(value) = frames.peek(0) else {
        return Effect::Bad;
    };
    copy(frames, under, value, None, place)
}

/// The two topmost operands once more, below so many.
fn copy_two(frames: &mut Frames, under: u16, place: u16) -> Effect
    ensures effect { result ≡ effect_of (copies_two under place) frames.old }
    ensures frames { frames.new ≡ after (copies_two under place) frames.old }
{
    let (Some(first), Some(second)) = (frames.peek(0), frames.peek(1)) else {
        return Effect::Bad;
    };
    copy(frames, under, first, Some(second), place)
}

/// The topmost operand below the one under it.
#[tactic(auto, using(crate::proofs::Copied::copied))]
fn swap(frames: &mut Frames, place: u16) -> Effect
    requires sound { AreSound frames.old.frames }
    ensures effect { result ≡ effect_of (swaps place) frames.old }
    ensures frames { frames.new ≡ after (swaps place) frames.old }
{
    let Some(value) = frames.pop() else {
        return Effect::Bad;
    };
    insert(frames, 1, value, None);
    frames.go(place);
    Effect::Next
}

fn pop(frames: &mut Frames, next: u16) -> Effect
    ensures effect { result ≡ effect_of (manages_stack (forms_of Pop) next) frames.old }
    ensures frames { frames.new ≡ after (manages_stack (forms_of Pop) next) frames.old }
{
    if fits(frames, &[false]) {
        return drop_one(frames, next);
    }
    Effect::Bad
}

fn pop2(frames: &mut Frames, next: u16) -> Effect
    ensures effect { result ≡ effect_of (manages_stack (forms_of Pop2) next) frames.old }
    ensures frames { frames.new ≡ after (manages_stack (forms_of Pop2) next) frames.old }
{
    if fits(frames, &[false, false]) {
        return drop_two(frames, next);
    }
    if fits(frames, &[true]) {
        return drop_one(frames, next);
    }
    Effect::Bad
}

#[tactic(auto, using(crate::proofs::ByForms::by_forms))]
fn dup(frames: &mut Frames, next: u16) -> Effect
    ensures effect { result ≡ effect_of (manages_stack (forms_of Dup) next) frames.old }
    ensures frames { frames.new ≡ after (manages_stack (forms_of Dup) next) frames.old }
{
    if fits(frames, &[false]) {
        return copy_one(frames, 1, next);
    }
    Effect::Bad
}

#[tactic(auto, using(crate::proofs::ByForms::by_forms))]
fn dup_x1(frames: &mut Frames, next: u16) -> Effect
    ensures effect { result ≡ effect_of (manages_stack (forms_of DupX1) next) frames.old }
    ensures frames { frames.new ≡ after (manages_stack (forms_of DupX1) next) frames.old }
{
    if fits(frames, &[false, false]) {
        return copy_one(frames, 2, next);
    }
    Effect::Bad
}

#[tactic(auto, using(crate::proofs::ByForms::by_forms))]
fn dup_x2(frames: &mut Frames, next: u16) -> Effect
    ensures effect { result ≡ effect_of (manages_stack (forms_of DupX2) next) frames.old }
    ensures frames { frames.new ≡ after (manages_stack (forms_of DupX2) next) frames.old }
{
    if fits(frames, &[false, false, false]) {
        return copy_one(frames, 3, next);
    }
    if fits(frames, &[false, true]) {
        return copy_one(frames, 2, next);
    }
    Effect::Bad
}

#[tactic(auto, using(crate::proofs::ByForms::by_forms))]
fn dup2(frames: &mut Frames, next: u16) -> Effect
    ensures effect { result ≡ effect_of (manages_stack (forms_of Dup2) next) frames.old }
    ensures frames { frames.new ≡ after (manages_stack (forms_of Dup2) next) frames.old }
{
    if fits(frames, &[false, false]) {
        return copy_two(frames, 2, next);
    }
    if fits(frames, &[true]) {
        return copy_one(frames, 1, next);
    }
    Effect::Bad
}

#[tactic(auto, using(crate::proofs::ByForms::by_forms))]
fn dup2_x1(frames: &mut Frames, next: u16) -> Effect
    ensures effect { result ≡ effect_of (manages_stack (forms_of Dup2X1) next) frames.old }
    ensures frames { frames.new ≡ after (manages_stack (forms_of Dup2X1) next) frames.old }
{
    if fits(frames, &[false, false, false]) {
        return copy_two(frames, 3, next);
    }
    if fits(frames, &[true, false]) {
        return copy_one(frames, 2, next);
    }
    Effect::Bad
}

#[tactic(auto, using(crate::proofs::ByForms::by_forms))]
fn dup2_x2(frames: &mut Frames, next: u16) -> Effect
    ensures effect { result ≡ effect_of (manages_stack (forms_of Dup2X2) next) frames.old }
    ensures frames { frames.new ≡ after (manages_stack (forms_of Dup2X2) next) frames.old }
{
    if fits(frames, &[false, false, false, false]) {
        return copy_two(frames, 4, next);
    }
    if fits(frames, &[true, false, false]) {
        return copy_one(frames, 3, next);
    }
    if fits(frames, &[false, false, true]) {
        return copy_two(frames, 3, next);
    }
    if fits(frames, &[true, true]) {
        return copy_one(frames, 2, next);
    }
    Effect::Bad
}

#[tactic(auto, using(crate::proofs::ByForms::by_forms))]
fn swap_shorts(frames: &mut Frames, next: u16) -> Effect
    ensures effect { result ≡ effect_of (manages_stack (forms_of Swap) next) frames.old }
    ensures frames { frames.new ≡ after (manages_stack (forms_of Swap) next) frames.old }
{
    if fits(frames, &[false, false]) {
        return swap(frames, next);
    }
    Effect::Bad
}

/// pop to swap.
pub fn manage_stack(frames: &mut Frames, op: StackInstruction, next: u16) -> Effect
    ensures effect { result ≡ effect_of (manages_stack (forms_of op) next) frames.old }
    ensures frames { frames.new ≡ after (manages_stack (forms_of op) next) frames.old }
{
    match op {
        StackInstruction::Pop => pop(frames, next),
        StackInstruction::Pop2 => pop2(frames, next),
        StackInstruction::Dup => dup(frames, next),
        StackInstruction::DupX1 => dup_x1(frames, next),
        StackInstruction::DupX2 => dup_x2(frames, next),
        StackInstruction::Dup2 => dup2(frames, next),
        StackInstruction::Dup2X1 => dup2_x1(frames, next),
        StackInstruction::Dup2X2 => dup2_x2(frames, next),
        StackInstruction::Swap => swap_shorts(frames, next),
    }
}
