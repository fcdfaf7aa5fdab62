//! What stands on top of the operands. Each read also tells that the frames are sound.

ghost use Rattle.std.specs.Prelude.{◌≡◌};
ghost use Rattle.frame_stack.specs.FrameLists.{AreSound, top_operands};
ghost use Rattle.jvm_model.specs.Basis.Values.{int_of, long_of, ref_of};
ghost use Rattle.jvm_model.specs.Basis.Values.{ints_of, longs_of, long_and_int_of, refs_of};

use frame_stack::Frames;
use heap_objects::Value;

/// Recalls what the frames promise of themselves: a read tells it.
#[inline(always)]
pub fn recall(frames: &Frames)
    ensures { AreSound frames.now.frames }
{
    let _ = frames.int();
}

/// The int on top.
#[tactic(auto, using(crate::proofs::TopReads::top_reads))]
#[inline(always)]
pub fn int_of(frames: &Frames) -> Option<i32>
    ensures found { result ≡ int_of (top_operands frames.now.frames) }
    ensures sound { AreSound frames.now.frames }
{
    frames.int()
}

/// The long on top.
pub fn long_of(frames: &Frames) -> Option<i64>
    ensures found { result ≡ long_of (top_operands frames.now.frames) }
    ensures sound { AreSound frames.now.frames }
{
    match frames.peek(0) {
        Some(Value::Long(n)) => Some(n),
        _ => None,
    }
}

/// The reference on top.
#[tactic(auto, using(crate::proofs::TopReads::top_reads))]
#[inline(always)]
pub fn ref_of(frames: &Frames) -> Option<u32>
    ensures found { result ≡ ref_of (top_operands frames.now.frames) }
    ensures sound { AreSound frames.now.frames }
{
    frames.reference()
}

/// The two ints on top, the topmost one last.
#[tactic(auto, using(crate::proofs::TopReads::top_reads))]
#[inline(always)]
pub fn ints_of(frames: &Frames) -> Option<(i32, i32)>
    ensures found { result ≡ ints_of (top_operands frames.now.frames) }
    ensures sound { AreSound frames.now.frames }
{
    frames.ints()
}

/// The two longs on top, the topmost one last.
pub fn longs_of(frames: &Frames) -> Option<(i64, i64)>
    ensures found { result ≡ longs_of (top_operands frames.now.frames) }
    ensures sound { AreSound frames.now.frames }
{
    let Some(Value::Long(b)) = frames.peek(0) else {
        return None;
    };
    let Some(Value::Long(a)) = frames.peek(1) else {
        return None;
    };
    Some((a, b))
}

/// The long below an int on top, and that int.
pub fn long_and_int_of(frames: &Frames) -> Option<(i64, i32)>
    ensures found { result ≡ long_and_int_of (top_operands frames.now.frames) }
    ensures sound { AreSound frames.now.frames }
{
    let Some(Value::Int(n)) = frames.peek(0) else {
        return None;
    };
    let Some(Value::Long(a)) = frames.peek(1) else {
        return None;
    };
    Some((a, n))
}

/// The two references on top, the topmost one last.
#[tactic(auto, using(crate::proofs::TopReads::top_reads))]
#[inline(always)]
pub fn refs_of(frames: &Frames) -> Option<(u32, u32)>
    ensures found { result ≡ refs_of (top_operands frames.now.frames) }
    ensures sound { AreSound frames.now.frames }
{
    frames.references()
}
