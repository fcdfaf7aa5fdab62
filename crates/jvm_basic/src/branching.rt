//! Branches, switches and subroutines (JVM Specification 2.11.7, 6.5).

ghost use Rattle.std.specs.Prelude.{◌≡◌, ◌-ℤ◌, ◌∷◌, Some, length, slice_get};
ghost use Rattle.frame_stack.specs.FrameLists.{AreSound, top_operands};
ghost use Rattle.jvm_model.specs.Basis.Values.{int_of};
ghost use Rattle.jvm_basic.specs.Outcomes.{effect_of, after};
ghost use Rattle.jvm_model.specs.Codes.Lines.{target_in};
ghost use Rattle.jvm_model.specs.Instructions.LocalRules.{compares, is_same, holds, tests, target_at, target_of};
ghost use Rattle.jvm_basic.specs.Rules.{branches, goes_to, calls_subroutine};
ghost use Rattle.jvm_basic.specs.Rules.{target_chosen, switches};

use crate::effect::Effect;
use crate::moving::{drop_narrow, drop_one, go_on, put};
use crate::reading::{int_of, ints_of, recall, ref_of, refs_of};
use code_model::Arg;
use frame_stack::Frames;
use heap_objects::Value;
use jf_bytes::Seq;
use jvm_model::{Comparison, Test};

// ---- branches

#[inline(always)]
fn compares(comparison: Comparison, a: i32, b: i32) -> bool
    ensures { result ≡ compares comparison a b }
{
    match comparison {
        Comparison::Equal => a == b,
        Comparison::NotEqual => a != b,
        Comparison::Less => a < b,
        Comparison::AtLeast => a >= b,
        Comparison::Greater => a > b,
        Comparison::AtMost => a <= b,
    }
}

/// Whether they are the same, or are not.
#[inline(always)]
fn is_same(same: bool, equal: bool) -> bool
    ensures { result ≡ is_same same equal }
{
    if same { equal } else { !equal }
}

/// Whether the test holds, where the operands are of its kind.
#[inline(always)]
fn holds(frames: &Frames, test: Test) -> Option<bool>
    ensures found { result ≡ holds test (top_operands frames.now.frames) }
    ensures sound { AreSound frames.now.frames }
{
    match test {
        Test::WithZero(comparison) => {
            let n = int_of(frames)?;
            Some(compares(comparison, n, 0))
        }
        Test::OfInts(comparison) => {
            let (a, b) = ints_of(frames)?;
            Some(compares(comparison, a, b))
        }
        Test::OfReferences(same) => {
            let (a, b) = refs_of(frames)?;
            Some(is_same(same, a == b))
        }
        Test::IsNull(null) => {
            let reference = ref_of(frames)?;
            Some(is_same(null, reference == 0))
        }
    }
}

/// How many operands a test takes.
#[inline(always)]
fn tests(test: Test) -> usize
    ensures { result ≡ tests test }
{
    match test {
        Test::WithZero(_) | Test::IsNull(_) => 1,
        Test::OfInts(_) | Test::OfReferences(_) => 2,
    }
}

/// A branch to a target.
#[inline(always)]
pub fn branch_to(frames: &mut Frames, test: Test, target: u16, next: u16) -> Effect
    ensures effect { result ≡ effect_of (branches test (Some target) next) frames.old }
    ensures frames { frames.new ≡ after (branches test (Some target) next) frames.old }
{
    let Some(holds) = holds(frames, test) else {
        return Effect::Bad;
    };
    let place = if holds { target } else { next };
    drop_narrow(frames, tests(test), place)
}

/// ifeq to if_acmpne, ifnull, ifnonnull.
pub fn branch(frames: &mut Frames, test: Test, arg: &Arg, next: u16) -> Effect
    ensures effect { result ≡ effect_of (branches test (target_in arg.now) next) frames.old }
    ensures frames { frames.new ≡ after (branches test (target_in arg.now) next) frames.old }
{
    match arg {
        Arg::Target(target) => branch_to(frames, test, *target, next),
        _ => Effect::Bad,
    }
}

/// A jump to a place.
#[inline(always)]
pub fn go_to_place(frames: &mut Frames, target: u16) -> Effect
    ensures effect { result ≡ effect_of (goes_to (Some target)) frames.old }
    ensures frames { frames.new ≡ after (goes_to (Some target)) frames.old }
{
    recall(frames);
    go_on(frames, target)
}

/// goto, goto_w.
pub fn go_to(frames: &mut Frames, arg: &Arg) -> Effect
    ensures effect { result ≡ effect_of (goes_to (target_in arg.now)) frames.old }
    ensures frames { frames.new ≡ after (goes_to (target_in arg.now)) frames.old }
{
    match arg {
        Arg::Target(target) => go_to_place(frames, *target),
        _ => Effect::Bad,
    }
}

/// jsr, jsr_w.
pub fn call_subroutine(frames: &mut Frames, arg: &Arg, next: u16) -> Effect
    ensures effect { result ≡ effect_of (calls_subroutine (target_in arg.now) next) frames.old }
    ensures frames { frames.new ≡ after (calls_subroutine (target_in arg.now) next) frames.old }
{
    match arg {
        Arg::Target(target) => put(frames, Value::Addr(next), *target),
        _ => Effect::Bad,
    }
}

// ---- switches

/// The target at a number's distance from the lowest one, else the default.
#[tactic(auto, using(crate::proofs::Keys::places))]
fn target_at(default: u16, targets: &Seq<u16>, low: i32, n: i32) -> u16
    ensures { Some result
        ≡ slice_get (default ∷ targets.now) (target_at (length targets.now) (n -ℤ low)) }
{
    if n < low {
        return default;
    }
    let distance = i64::from(n) - i64::from(low);
    match targets.at(distance as usize) {
        Some(target) => target,
        None => default,
    }
}

/// The target beside the first key that is the number, else the default.
#[tactic(auto, using(crate::proofs::Keys::keys))]
fn target_of(default: u16, keys: &Seq<i32>, targets: &Seq<u16>, n: i32) -> Option<u16>
    ensures { result ≡ slice_get (default ∷ targets.now) (target_of keys.now 1 n) }
{
    for index in 0..keys.len() {
        let Some(key) = keys.at(index) else {
            return Some(default);
        };
        if key == n {
            return targets.at(index);
        }
    }
    Some(default)
}

/// Where a switch goes.
fn target_chosen(arg: &Arg, n: i32) -> Option<u16>
    ensures { result ≡ target_chosen arg.now n }
{
    match arg {
        Arg::Table(default, low, targets) => Some(target_at(*default, targets, *low, n)),
        Arg::Lookup(default, keys, targets) => target_of(*default, keys, targets, n),
        _ => None,
    }
}

/// tableswitch, lookupswitch.
pub fn switch(frames: &mut Frames, arg: &Arg) -> Effect
    ensures effect { result ≡ effect_of (switches arg.now) frames.old }
    ensures frames { frames.new ≡ after (switches arg.now) frames.old }
{
    let Some(n) = int_of(frames) else {
        return Effect::Bad;
    };
    let Some(target) = target_chosen(arg, n) else {
        return Effect::Bad;
    };
    drop_one(frames, target)
}
