//! Writes the frames of a StackMapTable (JVM Specification 4.7.4).

ghost use Rattle.std.specs.Prelude.{◌≡◌, ◌≤◌, ◌+◌, ◌++◌, None, Ok, length, All, OnOk, IfOk, IsTrue};
ghost use Rattle.stackmap_shift.specs.Frames.{frames_of};
ghost use Rattle.stackmap_shift.specs.Spelling.{u1, u2, type_bytes, types_bytes, counted_bytes, delta_of, short_or_long, kind_bytes, frame_bytes, frames_bytes, table_bytes};
ghost use Rattle.stackmap_shift.specs.Conditions.{FitsKind, FitsFrame, AreWritable, is_narrow_type, is_narrow_kind, is_narrow_frame};
ghost use Rattle.std.specs.List.{list_all};

use crate::frames::{Frame, FrameKind, Frames, VType};
use jf_bytes::{NoMemory, Seq};
use std::alloc::Global;

/// The greatest delta that a short type has in itself.
const MOST_SHORT: u16 = 63;

pub(crate) fn put_u8(out: &mut Seq<u8>, n: u8) -> Result<(), NoMemory>
    ensures { OnOk result (out.new ≡ out.old ++ u1 n) }
{
    out.push(n)?;
    Ok(())
}

pub(crate) fn put_u16(out: &mut Seq<u8>, n: u16) -> Result<(), NoMemory>
    ensures { OnOk result (out.new ≡ out.old ++ u2 n) }
{
    out.extend_from_slice(&n.to_be_bytes())?;
    Ok(())
}

/// Adds a tag and a number.
fn put_tagged(out: &mut Seq<u8>, tag: u8, n: u16) -> Result<(), NoMemory>
    ensures { OnOk result (out.new ≡ out.old ++ (u1 tag ++ u2 n)) }
{
    put_u8(out, tag)?;
    put_u16(out, n)
}

fn put_type(out: &mut Seq<u8>, item: VType) -> Result<(), NoMemory>
    ensures bytes { OnOk result (out.new ≡ out.old ++ type_bytes item) }
    ensures narrow { IsTrue (is_narrow_type item) }
{
    match item {
        VType::Top => put_u8(out, 0),
        VType::Integer => put_u8(out, 1),
        VType::Float => put_u8(out, 2),
        VType::Double => put_u8(out, 3),
        VType::Long => put_u8(out, 4),
        VType::Null => put_u8(out, 5),
        VType::UninitThis => put_u8(out, 6),
        VType::Object(index) => put_tagged(out, 7, index),
        VType::Uninit(offset) => put_tagged(out, 8, offset),
    }
}

fn put_types(out: &mut Seq<u8>, types: &[VType]) -> Result<(), NoMemory>
    ensures bytes { OnOk result (out.new ≡ out.old ++ types_bytes types.now) }
    ensures narrow { OnOk result (IsTrue (list_all is_narrow_type types.now)) }
{
    for item in types {
        put_type(out, *item)?;
    }
    Ok(())
}

/// Adds a count and the types.
fn put_counted(out: &mut Seq<u8>, types: &[VType]) -> Result<(), NoMemory>
    requires { length types.now ≤ 65535 }
    ensures bytes { OnOk result (out.new ≡ out.old ++ counted_bytes types.now) }
    ensures narrow { OnOk result (IsTrue (list_all is_narrow_type types.now)) }
{
    put_u16(out, types.len() as u16)?;
    put_types(out, types)
}

/// How far a frame is behind the one before, or from the code's start.
fn delta_of(before: Option<u16>, at: u16) -> u16
    ensures { result ≡ delta_of before at }
{
    match before {
        Some(before) => at.saturating_sub(before).saturating_sub(1),
        None => at,
    }
}

/// Adds a type with the delta in it, or the long type and the delta.
fn put_short_or_long(out: &mut Seq<u8>, short: u8, long: u8, delta: u16) -> Result<(), NoMemory>
    requires { short ≤ 64 }
    ensures { OnOk result (out.new ≡ out.old ++ short_or_long short long delta) }
{
    if delta <= MOST_SHORT {
        put_u8(out, short + delta as u8)
    } else {
        put_tagged(out, long, delta)
    }
}

fn put_one_item(out: &mut Seq<u8>, delta: u16, item: VType) -> Result<(), NoMemory>
    ensures bytes { OnOk result
        (out.new ≡ out.old ++ (short_or_long 64 247 delta ++ type_bytes item)) }
    ensures narrow { OnOk result (IsTrue (is_narrow_type item)) }
{
    put_short_or_long(out, 64, 247, delta)?;
    put_type(out, item)
}

fn put_append(out: &mut Seq<u8>, delta: u16, locals: &[VType]) -> Result<(), NoMemory>
    requires { length locals.now ≤ 3 }
    ensures bytes { OnOk result (out.new
        ≡ out.old ++ (u1 (251 + length locals.now) ++ (u2 delta ++ types_bytes locals.now))) }
    ensures narrow { OnOk result (IsTrue (list_all is_narrow_type locals.now)) }
{
    put_u8(out, 251 + locals.len() as u8)?;
    put_u16(out, delta)?;
    put_types(out, locals)
}

fn put_full(
    out: &mut Seq<u8>,
    delta: u16,
    locals: &[VType],
    operands: &[VType],
) -> Result<(), NoMemory>
    requires locals { length locals.now ≤ 65535 }
    requires operands { length operands.now ≤ 65535 }
    ensures bytes { OnOk result (out.new ≡ out.old ++ (u1 255 ++ (u2 delta ++
        (counted_bytes locals.now ++ counted_bytes operands.now)))) }
    ensures narrow_locals { OnOk result (IsTrue (list_all is_narrow_type locals.now)) }
    ensures narrow_operands { OnOk result (IsTrue (list_all is_narrow_type operands.now)) }
{
    put_u8(out, 255)?;
    put_u16(out, delta)?;
    put_counted(out, locals)?;
    put_counted(out, operands)
}

/// Adds a frame by its delta.
fn put_kind(out: &mut Seq<u8>, delta: u16, kind: &FrameKind) -> Result<(), NoMemory>
    requires { FitsKind kind.now }
    ensures bytes { OnOk result (out.new ≡ out.old ++ kind_bytes delta kind.now) }
    ensures narrow { OnOk result (IsTrue (is_narrow_kind kind.now)) }
{
    match kind {
        FrameKind::Same => put_short_or_long(out, 0, 251, delta),
        FrameKind::OneItem(item) => put_one_item(out, delta, *item),
        FrameKind::Chop(count) => put_tagged(out, 251 - *count, delta),
        FrameKind::Append(locals) => put_append(out, delta, locals.as_slice()),
        FrameKind::Full(locals, operands) => {
            put_full(out, delta, locals.as_slice(), operands.as_slice())
        }
    }
}

/// Adds a frame behind one at the offset `before`.
fn put_frame(out: &mut Seq<u8>, before: Option<u16>, frame: &Frame) -> Result<(), NoMemory>
    requires { FitsFrame frame.now }
    ensures bytes { OnOk result (out.new ≡ out.old ++ frame_bytes before frame.now) }
    ensures narrow { OnOk result (IsTrue (is_narrow_frame frame.now)) }
{
    put_kind(out, delta_of(before, frame.at), &frame.kind)
}

/// Adds the frames, from the first one on.
fn put_frames(out: &mut Seq<u8>, frames: &[Frame]) -> Result<(), NoMemory>
    requires { All FitsFrame frames.now }
    ensures bytes { OnOk result (out.new ≡ out.old ++ frames_bytes None frames.now) }
    ensures narrow { OnOk result (IsTrue (list_all is_narrow_frame frames.now)) }
{
    let mut before = None;
    for frame in frames {
        put_frame(out, before, frame)?;
        before = Some(frame.at);
    }
    Ok(())
}

/// The contents of a StackMapTable behind its length. A frame of a kind that has a short form is in it exactly where
/// its delta is at most 63. `read_frames` gives the frames back. What rewrites methods calls it.
pub fn write_frames(alloc: Global, frames: &Frames) -> Result<Vec<u8>, NoMemory>
    requires { AreWritable frames.now.list }
    ensures spelled { IfOk result (λ bytes. bytes.items ≡ table_bytes frames.now.list) }
    ensures read { IfOk result (λ bytes. frames_of bytes.items ≡ Ok frames.now.list) }
{
    let mut out = Seq::new(alloc);
    put_u16(&mut out, frames.list.len() as u16)?;
    put_frames(&mut out, frames.list.as_slice())?;
    Ok(out.into_vec())
}
