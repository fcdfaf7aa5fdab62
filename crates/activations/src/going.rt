//! How the current frame goes on by a line (JVM Specification 6.5).

ghost use Rattle.std.specs.Prelude.{◌≡◌};
ghost use Rattle.const_pool.specs.declared.descriptor.Kind.TheVariants.{Int, Ref};
ghost use Rattle.frame_stack.specs.FrameLists.{top_operands};
ghost use Rattle.jvm_basic.specs.Outcomes.{GoesOn, effect_of, after};
ghost use Rattle.activations.specs.Going.{takes_result, resume_effect, resume_frames, top_datum};

use const_pool::Kind;
use frame_stack::Frames;
use heap_objects::{Datum, Value};
use jvm_basic::{Effect, go_on, put, recall, value_of};
use member_selection::datum_of;

/// Goes on as it is.
fn keep(frames: &mut Frames, next: u16) -> Effect
    ensures effect { result ≡ effect_of (λ l o. GoesOn l o next) frames.old }
    ensures frames { frames.new ≡ after (λ l o. GoesOn l o next) frames.old }
{
    recall(frames);
    go_on(frames, next)
}

/// The topmost operand, where it is an int.
#[inline(always)]
fn top_int(frames: &Frames) -> Option<Datum>
    ensures { result ≡ top_datum Int (top_operands frames.now.frames) }
{
    match frames.int() {
        Some(n) => Some(Datum::Int(n)),
        None => None,
    }
}

/// The topmost operand, where it is a reference.
#[inline(always)]
fn top_reference(frames: &Frames) -> Option<Datum>
    ensures { result ≡ top_datum Ref (top_operands frames.now.frames) }
{
    match frames.reference() {
        Some(r) => Some(Datum::Ref(r)),
        None => None,
    }
}

/// The topmost operand, where it is of this kind, which need not be that of an operand.
fn top_of(frames: &Frames, kind: Kind) -> Option<Datum>
    ensures { result ≡ top_datum kind (top_operands frames.now.frames) }
{
    let value = frames.peek(0)?;
    datum_of(kind, value)
}

/// The topmost operand, where it is of this kind. An int or a reference is read where it stands.
#[inline(always)]
pub fn top_datum(frames: &Frames, kind: Kind) -> Option<Datum>
    ensures { result ≡ top_datum kind (top_operands frames.now.frames) }
{
    match kind {
        Kind::Int => top_int(frames),
        Kind::Ref => top_reference(frames),
        _ => top_of(frames, kind),
    }
}

/// A caller goes on with its callee's result on top, where there is one.
fn take_result(frames: &mut Frames, datum: Option<Datum>, next: u16) -> Effect
    ensures effect { result ≡ effect_of (takes_result datum next) frames.old }
    ensures frames { frames.new ≡ after (takes_result datum next) frames.old }
{
    match datum {
        None => keep(frames, next),
        Some(datum) => put(frames, value_of(datum), next),
    }
}

/// A caller goes on with its callee's result, if control goes on behind its line.
pub fn resume(frames: &mut Frames, datum: Option<Datum>, next: Option<u16>) -> Effect
    ensures effect { result ≡ resume_effect datum next frames.old }
    ensures frames { frames.new ≡ resume_frames datum next frames.old }
{
    match next {
        None => Effect::Bad,
        Some(next) => take_result(frames, datum, next),
    }
}
