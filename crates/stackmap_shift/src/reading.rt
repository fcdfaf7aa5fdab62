//! Reads the frames of a StackMapTable (JVM Specification 4.7.4).

ghost use Rattle.std.specs.Prelude.{◌≤◌, None, IfOk};
ghost use Rattle.stackmap_shift.specs.Tables.{Gives, with_rest};
ghost use Rattle.stackmap_shift.specs.Frames.{one_item_at, append_at, full_at, kind_at, frame_at, frames_at, table_at, frames_of};
ghost use Rattle.stackmap_shift.specs.Conditions.{FitsForm, FitsKind, FitsFrame, IsBehind, AreWritable};

use crate::error::FrameError;
use crate::forms::{Form, delta_of, known_form, offset_of};
use crate::frames::{Frame, FrameKind, Frames};
use crate::lists::{counted_of, many_of};
use crate::numbers::{nothing_left, u8_of, u16_of};
use crate::types::{Types, type_of};
use byte_formats::place_of;
use jf_bytes::Seq;
use std::alloc::Global;

#[tactic(auto, unfolding(crate::specs::Frames::one_item_at))]
fn one_item_of(limit: usize, bytes: &[u8]) -> Result<(FrameKind, &[u8]), FrameError>
    ensures kind { Gives with_rest result (one_item_at limit bytes.now) }
    ensures fits { IfOk result (λ x. FitsKind x.0) }
{
    let (item, rest) = type_of(limit, bytes)?;
    Ok((FrameKind::OneItem(item), rest))
}

#[tactic(auto, unfolding(crate::specs::Frames::append_at))]
fn append_of(
    alloc: Global,
    count: u8,
    limit: usize,
    bytes: &[u8],
) -> Result<(FrameKind, &[u8]), FrameError>
    requires some { 1 ≤ count }
    requires few { count ≤ 3 }
    ensures kind { Gives with_rest result (append_at count limit bytes.now) }
    ensures fits { IfOk result (λ x. FitsKind x.0) }
{
    let (locals, rest) = many_of(&Types, alloc, u16::from(count), limit, bytes)?;
    Ok((FrameKind::Append(locals), rest))
}

#[tactic(auto, unfolding(crate::specs::Frames::full_at))]
fn full_of(alloc: Global, limit: usize, bytes: &[u8]) -> Result<(FrameKind, &[u8]), FrameError>
    ensures kind { Gives with_rest result (full_at limit bytes.now) }
    ensures fits { IfOk result (λ x. FitsKind x.0) }
{
    let (locals, rest) = counted_of(&Types, alloc, limit, bytes)?;
    let (operands, rest) = counted_of(&Types, alloc, limit, rest)?;
    Ok((FrameKind::Full(locals, operands), rest))
}

/// What stands behind the delta.
#[tactic(auto, unfolding(crate::specs::Frames::kind_at))]
fn kind_of(
    alloc: Global,
    form: Form,
    limit: usize,
    bytes: &[u8],
) -> Result<(FrameKind, &[u8]), FrameError>
    requires { FitsForm form }
    ensures kind { Gives with_rest result (kind_at form limit bytes.now) }
    ensures fits { IfOk result (λ x. FitsKind x.0) }
{
    match form {
        Form::Same => Ok((FrameKind::Same, bytes)),
        Form::OneItem => one_item_of(limit, bytes),
        Form::Chop(count) => Ok((FrameKind::Chop(count), bytes)),
        Form::Append(count) => append_of(alloc, count, limit, bytes),
        Form::Full => full_of(alloc, limit, bytes),
    }
}

/// A frame behind one at the offset `before`.
#[tactic(auto, unfolding(crate::specs::Frames::frame_at))]
fn frame_of(
    alloc: Global,
    before: Option<u16>,
    limit: usize,
    bytes: &[u8],
) -> Result<(Frame, &[u8]), FrameError>
    ensures frame { Gives with_rest result (frame_at before limit bytes.now) }
    ensures fits { IfOk result (λ x. FitsFrame x.0) }
    ensures behind { IfOk result (λ x. IsBehind before x.0.at) }
{
    let start = place_of(limit, bytes);
    let (kind, rest) = u8_of(limit, bytes)?;
    let form = known_form(start, kind)?;
    let (delta, rest) = delta_of(kind, limit, rest)?;
    let at = offset_of(start, before, delta)?;
    let (kind, rest) = kind_of(alloc, form, limit, rest)?;
    Ok((Frame { at, kind }, rest))
}

/// So many frames, from the first one on.
fn frames_from(
    alloc: Global,
    count: u16,
    limit: usize,
    bytes: &[u8],
) -> Result<(Seq<Frame>, &[u8]), FrameError>
    ensures frames { Gives with_rest result (frames_at count None limit bytes.now) }
    ensures writable { IfOk result (λ x. AreWritable x.0) }
{
    let mut frames = Seq::new(alloc);
    let mut before = None;
    let mut rest = bytes;
    for _ in 0..count {
        let (frame, after) = frame_of(alloc, before, limit, rest)?;
        before = Some(frame.at);
        frames.push(frame)?;
        rest = after;
    }
    Ok((frames, rest))
}

/// The count and the frames.
#[tactic(auto, unfolding(crate::specs::Frames::table_at))]
fn table_of(alloc: Global, limit: usize, bytes: &[u8]) -> Result<(Seq<Frame>, &[u8]), FrameError>
    ensures frames { Gives with_rest result (table_at limit bytes.now) }
    ensures writable { IfOk result (λ x. AreWritable x.0) }
{
    let (count, rest) = u16_of(limit, bytes)?;
    frames_from(alloc, count, limit, rest)
}

/// Reads a StackMapTable: the contents of the attribute behind its length. A refusal tells the first byte that breaks
/// the grammar. To a user it means that the class file has a faulty method. Class indices are not looked up.
#[tactic(auto, unfolding(crate::specs::Frames::frames_of))]
pub fn read_frames(alloc: Global, bytes: &[u8]) -> Result<Frames, FrameError>
    ensures frames { Gives (λ f. f.list) result (frames_of bytes.now) }
    // So `write_frames` takes them.
    ensures writable { IfOk result (λ f. AreWritable f.list) }
{
    let limit = bytes.len();
    let (list, rest) = table_of(alloc, limit, bytes)?;
    nothing_left(limit, rest)?;
    Ok(Frames { list })
}
