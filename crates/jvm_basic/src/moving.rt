//! How a frame goes on: with a value more, with a value in place of others, with fewer operands.

ghost use Rattle.std.specs.Prelude.{◌≡◌, ◌∷◌, false, drop, Some, IsTrue};
ghost use Rattle.frame_stack.specs.FrameLists.{AreSound, top_operands};
ghost use Rattle.frame_stack.specs.Tops.{AreNarrow};
ghost use Rattle.frame_stack.specs.Widths.{is_long};
ghost use Rattle.jvm_basic.specs.Outcomes.{GoesOn, can_hold, effect_of, after};
ghost use Rattle.jvm_basic.specs.Rules.{replaces};

use crate::effect::Effect;
use frame_stack::Frames;
use heap_objects::Value;

/// The frame goes on at a place as it is.
#[tactic(auto, using(crate::proofs::Tops::tops, crate::proofs::Tops::dropped))]
#[inline(always)]
pub fn go_on(frames: &mut Frames, place: u16) -> Effect
    requires sound { AreSound frames.old.frames }
    ensures effect { result ≡ effect_of (λ l o. GoesOn l o place) frames.old }
    ensures frames { frames.new ≡ after (λ l o. GoesOn l o place) frames.old }
{
    if frames.go(place) {
        Effect::Next
    } else {
        Effect::Bad
    }
}

/// With a value more.
#[tactic(auto, using(crate::proofs::Tops::tops, crate::proofs::Tops::dropped))]
#[inline(always)]
pub fn put(frames: &mut Frames, value: Value, place: u16) -> Effect
    ensures effect { result ≡ effect_of (replaces 0 (Some value) place) frames.old }
    ensures frames { frames.new ≡ after (replaces 0 (Some value) place) frames.old }
{
    if !frames.push(value) {
        return Effect::Bad;
    }
    frames.go(place);
    Effect::Next
}

/// With a value in place of the topmost operand, where there is room for it.
#[tactic(auto, using(crate::proofs::Tops::tops, crate::proofs::Tops::dropped))]
pub fn replace(frames: &mut Frames, value: Value, place: u16) -> Effect
    requires sound { AreSound frames.old.frames }
    ensures effect { result ≡ effect_of (replaces 1 (Some value) place) frames.old }
    ensures frames { frames.new ≡ after (replaces 1 (Some value) place) frames.old }
{
    let old = frames.pop();
    if frames.push(value) {
        frames.go(place);
        return Effect::Next;
    }
    if let Some(old) = old {
        frames.push(old);
    }
    Effect::Bad
}

/// With a value in place of the two topmost operands, which have room for it.
#[tactic(auto, using(crate::proofs::Tops::tops, crate::proofs::Tops::dropped))]
pub fn replace_two(frames: &mut Frames, value: Value, place: u16) -> Effect
    requires fits { IsTrue (can_hold
        (value ∷ drop 2 (top_operands frames.old.frames)) frames.old.frames) }
    ensures effect { result ≡ effect_of (replaces 2 (Some value) place) frames.old }
    ensures frames { frames.new ≡ after (replaces 2 (Some value) place) frames.old }
{
    frames.pop();
    frames.pop();
    put(frames, value, place)
}

/// With a value of one slot in place of the two topmost operands, of which each takes one.
#[tactic(auto, using(crate::proofs::Exchanged::exchanged_is))]
#[inline(always)]
pub fn exchange_two(frames: &mut Frames, value: Value, place: u16) -> Effect
    requires fits { IsTrue (can_hold
        (value ∷ drop 2 (top_operands frames.old.frames)) frames.old.frames) }
    requires narrow { AreNarrow 2 (top_operands frames.old.frames) }
    requires one { is_long value ≡ false }
    ensures effect { result ≡ effect_of (replaces 2 (Some value) place) frames.old }
    ensures frames { frames.new ≡ after (replaces 2 (Some value) place) frames.old }
{
    frames.exchange(2, value);
    frames.go(place);
    Effect::Next
}

/// Without so many of the topmost operands, of which each takes one slot.
#[tactic(auto, using(crate::proofs::Exchanged::shrunk))]
#[inline(always)]
pub fn drop_narrow(frames: &mut Frames, count: usize, place: u16) -> Effect
    requires sound { AreSound frames.old.frames }
    requires narrow { AreNarrow count (top_operands frames.old.frames) }
    ensures effect { result ≡ effect_of (λ l o. GoesOn l (drop count o) place) frames.old }
    ensures frames { frames.new ≡ after (λ l o. GoesOn l (drop count o) place) frames.old }
{
    frames.shrink(count);
    go_on(frames, place)
}

/// Without the topmost operand.
#[tactic(auto, using(crate::proofs::Tops::tops, crate::proofs::Tops::dropped))]
pub fn drop_one(frames: &mut Frames, place: u16) -> Effect
    requires sound { AreSound frames.old.frames }
    ensures effect { result ≡ effect_of (λ l o. GoesOn l (drop 1 o) place) frames.old }
    ensures frames { frames.new ≡ after (λ l o. GoesOn l (drop 1 o) place) frames.old }
{
    frames.pop();
    go_on(frames, place)
}

/// Without the two topmost operands.
#[tactic(auto, using(crate::proofs::Tops::tops, crate::proofs::Tops::dropped))]
pub fn drop_two(frames: &mut Frames, place: u16) -> Effect
    requires sound { AreSound frames.old.frames }
    ensures effect { result ≡ effect_of (λ l o. GoesOn l (drop 2 o) place) frames.old }
    ensures frames { frames.new ≡ after (λ l o. GoesOn l (drop 2 o) place) frames.old }
{
    frames.pop();
    frames.pop();
    go_on(frames, place)
}

/// Without the three topmost operands.
#[tactic(auto, using(crate::proofs::Tops::tops, crate::proofs::Tops::dropped))]
pub fn drop_three(frames: &mut Frames, place: u16) -> Effect
    requires sound { AreSound frames.old.frames }
    ensures effect { result ≡ effect_of (λ l o. GoesOn l (drop 3 o) place) frames.old }
    ensures frames { frames.new ≡ after (λ l o. GoesOn l (drop 3 o) place) frames.old }
{
    frames.pop();
    drop_two(frames, place)
}
