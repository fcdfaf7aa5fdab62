//! Loads and stores, iinc, and ret, which reads a local too (JVM Specification 2.6.1, 6.5).

ghost use Rattle.std.specs.Prelude.{◌≡◌, Some};
ghost use Rattle.jvm_model.specs.Basis.Values.{has_kind, is_storable};
ghost use Rattle.const_pool.specs.declared.descriptor.Kind.TheVariants.{Int};
ghost use Rattle.jvm_basic.specs.Outcomes.{effect_of, after};
ghost use Rattle.jvm_model.specs.Codes.Lines.{slot_in, increment_in};
ghost use Rattle.jvm_basic.specs.Rules.{loads, stores, increments, goes_back};

use crate::effect::Effect;
use crate::moving::{drop_narrow, drop_one, go_on, put};
use crate::reading::{int_of, recall};
use code_model::Arg;
use const_pool::Kind;
use frame_stack::Frames;
use heap_objects::Value;
use int_ops::add_i32;

#[inline(always)]
fn has_kind(kind: Kind, value: Value) -> bool
    ensures { result ≡ has_kind kind value }
{
    match kind {
        Kind::Int | Kind::Bool | Kind::Byte | Kind::Char | Kind::Short => {
            matches!(value, Value::Int(_))
        }
        Kind::Long => matches!(value, Value::Long(_)),
        Kind::Ref => matches!(value, Value::Ref(_)),
        Kind::Float | Kind::Double => false,
    }
}

/// astore also takes a return address.
#[inline(always)]
fn is_storable(kind: Kind, value: Value) -> bool
    ensures { result ≡ is_storable kind value }
{
    match kind {
        Kind::Ref => matches!(value, Value::Ref(_) | Value::Addr(_)),
        _ => has_kind(kind, value),
    }
}

/// iload_0 to aload_3.
#[tactic(auto, using(crate::proofs::Slots::slots))]
#[inline(always)]
pub fn load_from(frames: &mut Frames, kind: Kind, slot: u16, next: u16) -> Effect
    ensures effect { result ≡ effect_of (loads kind (Some slot) next) frames.old }
    ensures frames { frames.new ≡ after (loads kind (Some slot) next) frames.old }
{
    let Some(value) = frames.local(slot) else {
        return Effect::Bad;
    };
    if !has_kind(kind, value) {
        return Effect::Bad;
    }
    put(frames, value, next)
}

/// iload, lload, aload.
pub fn load(frames: &mut Frames, kind: Kind, arg: &Arg, next: u16) -> Effect
    ensures effect { result ≡ effect_of (loads kind (slot_in arg.now) next) frames.old }
    ensures frames { frames.new ≡ after (loads kind (slot_in arg.now) next) frames.old }
{
    match arg {
        Arg::Local(slot) => load_from(frames, kind, *slot, next),
        _ => Effect::Bad,
    }
}

/// istore_0 to astore_3.
#[tactic(auto, using(crate::proofs::Slots::storing))]
#[inline(always)]
pub fn store_to(frames: &mut Frames, kind: Kind, slot: u16, next: u16) -> Effect
    ensures effect { result ≡ effect_of (stores kind (Some slot) next) frames.old }
    ensures frames { frames.new ≡ after (stores kind (Some slot) next) frames.old }
{
    let Some(value) = frames.peek(0) else {
        return Effect::Bad;
    };
    if !is_storable(kind, value) || !frames.set_local(slot, value) {
        return Effect::Bad;
    }
    drop_one(frames, next)
}

/// istore_0 to istore_3, and istore.
#[tactic(auto, using(crate::proofs::Slots::storing_ints))]
#[inline(always)]
pub fn store_int(frames: &mut Frames, slot: u16, next: u16) -> Effect
    ensures effect { result ≡ effect_of (stores Int (Some slot) next) frames.old }
    ensures frames { frames.new ≡ after (stores Int (Some slot) next) frames.old }
{
    let Some(n) = int_of(frames) else {
        return Effect::Bad;
    };
    if !frames.set_local(slot, Value::Int(n)) {
        return Effect::Bad;
    }
    drop_narrow(frames, 1, next)
}

/// istore, lstore, astore.
pub fn store(frames: &mut Frames, kind: Kind, arg: &Arg, next: u16) -> Effect
    ensures effect { result ≡ effect_of (stores kind (slot_in arg.now) next) frames.old }
    ensures frames { frames.new ≡ after (stores kind (slot_in arg.now) next) frames.old }
{
    match arg {
        Arg::Local(slot) => store_to(frames, kind, *slot, next),
        _ => Effect::Bad,
    }
}

/// iinc of a slot.
#[tactic(auto, using(crate::proofs::Slots::writing))]
#[inline(always)]
pub fn increment_slot(frames: &mut Frames, slot: u16, added: i16, next: u16) -> Effect
    ensures effect { result ≡ effect_of (increments (Some (slot, added)) next) frames.old }
    ensures frames { frames.new ≡ after (increments (Some (slot, added)) next) frames.old }
{
    let Some(Value::Int(n)) = frames.local(slot) else {
        return Effect::Bad;
    };
    recall(frames);
    if !frames.set_local(slot, Value::Int(add_i32(n, i32::from(added)))) {
        return Effect::Bad;
    }
    go_on(frames, next)
}

/// iinc.
pub fn increment(frames: &mut Frames, arg: &Arg, next: u16) -> Effect
    ensures effect { result ≡ effect_of (increments (increment_in arg.now) next) frames.old }
    ensures frames { frames.new ≡ after (increments (increment_in arg.now) next) frames.old }
{
    match arg {
        Arg::Inc(slot, added) => increment_slot(frames, *slot, *added, next),
        _ => Effect::Bad,
    }
}

/// ret through a slot.
#[tactic(auto, using(crate::proofs::Slots::slots, crate::proofs::Tops::tops))]
fn go_back_by(frames: &mut Frames, slot: u16) -> Effect
    ensures effect { result ≡ effect_of (goes_back (Some slot)) frames.old }
    ensures frames { frames.new ≡ after (goes_back (Some slot)) frames.old }
{
    let Some(Value::Addr(place)) = frames.local(slot) else {
        return Effect::Bad;
    };
    recall(frames);
    go_on(frames, place)
}

/// ret.
pub fn go_back(frames: &mut Frames, arg: &Arg) -> Effect
    ensures effect { result ≡ effect_of (goes_back (slot_in arg.now)) frames.old }
    ensures frames { frames.new ≡ after (goes_back (slot_in arg.now)) frames.old }
{
    match arg {
        Arg::Local(slot) => go_back_by(frames, *slot),
        _ => Effect::Bad,
    }
}
