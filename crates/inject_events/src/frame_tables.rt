//! The StackMapTable of a version (JVM Specification 4.7.4): the old frames by homes, and one for the handler that is
//! added.

ghost use Rattle.std.specs.Prelude.{◌≡◌, ◌∷◌, [], None, All, IfOk};
ghost use Rattle.std.specs.List.Sorted.{IsStrictlyIncreasing};
ghost use Rattle.stackmap_shift.specs.Conditions.{FitsFrame};
ghost use Rattle.stackmap_shift.specs.Frames.{frames_of};
ghost use Rattle.stackmap_shift.specs.Spelling.{table_bytes};
ghost use Rattle.jvm_model.specs.Rewriting.ImageTables.{last_frame, is_behind, rise_from, is_writable, written_or_kept};
ghost use Rattle.inject_events.specs.Tables.{version_frames, moved_frame_table, added_table, frame_count};

use crate::settings::Setting;
use code_model::Homes;
use const_pool::Raw;
use jf_bytes::{NoMemory, Seq};
use stackmap_shift::{
    Frame, FrameError, FrameKind, Frames, VType, read_frames, shift_frames, write_frames,
};
use std::alloc::Global;

/// The frame of the added handler: no locals, and the exception.
fn last_frame(alloc: Global, handler: u16, throwable: u16) -> Result<Frame, NoMemory>
    ensures { IfOk result (λ frame. frame ≡ last_frame handler throwable) }
{
    let mut operands = Seq::new(alloc);
    operands.push(VType::Object(throwable))?;
    Ok(Frame {
        at: handler,
        kind: FrameKind::Full(Seq::new(alloc), operands),
    })
}

/// Whether a frame stands behind the one before.
fn is_behind(before: Option<u16>, at: u16) -> bool
    ensures { result ≡ is_behind before at }
{
    match before {
        Some(before) => before < at,
        None => true,
    }
}

/// Whether each frame stands behind the one before.
fn rise(frames: &[Frame]) -> bool
    ensures { result ≡ rise_from None frames.now }
{
    let mut before = None;
    for frame in frames {
        if !is_behind(before, frame.at) {
            return false;
        }
        before = Some(frame.at);
    }
    true
}

/// Whether a table can have these frames.
fn is_writable(frames: &[Frame]) -> bool
    ensures { result ≡ is_writable frames.now }
{
    frames.len() <= 65535 && rise(frames)
}

/// A table of these frames, or the old one, where a table can't have them.
fn written_or_kept(alloc: Global, bytes: &[u8], frames: &Frames) -> Result<Seq<u8>, NoMemory>
    requires { All FitsFrame frames.now.list }
    ensures { IfOk result (λ new. new ≡ written_or_kept bytes.now frames.now.list) }
{
    if is_writable(frames.list.as_slice()) {
        Ok(Seq::from_vec(write_frames(alloc, frames)?))
    } else {
        Ok(Seq::from_slice(alloc, bytes)?)
    }
}

/// The frames of a version of code that ended here.
fn version_frames(
    alloc: Global,
    setting: &Setting,
    homes: &Homes,
    end: u16,
    frames: &Frames,
) -> Result<Frames, NoMemory>
    requires rising { IsStrictlyIncreasing homes.now.from }
    requires fit { All FitsFrame frames.now.list }
    ensures frames { IfOk result
        (λ new. new.list ≡ version_frames setting.now homes.now end frames.now.list) }
    ensures fit { IfOk result (λ new. All FitsFrame new.list) }
{
    let mut moved = shift_frames(alloc, frames, homes)?;
    let last = last_frame(alloc, homes.home_of(end), setting.tail.throwable)?;
    moved.list.push(last)?;
    Ok(moved)
}

/// A StackMapTable by homes, with its last frame.
pub(crate) fn moved_frame_table(
    alloc: Global,
    setting: &Setting,
    homes: &Homes,
    end: u16,
    bytes: &[u8],
) -> Result<Seq<u8>, NoMemory>
    requires { IsStrictlyIncreasing homes.now.from }
    ensures { IfOk result (λ new. new ≡ moved_frame_table setting.now homes.now end bytes.now) }
{
    match read_frames(alloc, bytes) {
        Ok(frames) => {
            let frames = version_frames(alloc, setting, homes, end, &frames)?;
            written_or_kept(alloc, bytes, &frames)
        }
        Err(FrameError::BadFrame(_)) => Ok(Seq::from_slice(alloc, bytes)?),
        Err(FrameError::NoMemory) => Err(NoMemory),
    }
}

/// A table with the frame of the added handler alone.
fn table_of_one(alloc: Global, frame: Frame) -> Result<Seq<u8>, NoMemory>
    requires { FitsFrame frame }
    ensures { IfOk result (λ new. new ≡ table_bytes (frame ∷ [])) }
{
    let mut list = Seq::new(alloc);
    list.push(frame)?;
    Ok(Seq::from_vec(write_frames(alloc, &Frames { list })?))
}

/// The StackMapTable that is added to a Code without one.
pub(crate) fn added_table(
    alloc: Global,
    setting: &Setting,
    homes: &Homes,
    end: u16,
) -> Result<Raw, NoMemory>
    requires { IsStrictlyIncreasing homes.now.from }
    ensures { IfOk result (λ new. new ≡ added_table setting.now homes.now end) }
{
    let last = last_frame(alloc, homes.home_of(end), setting.tail.throwable)?;
    Ok(Raw {
        name: setting.tail.frames,
        bytes: table_of_one(alloc, last)?,
    })
}

/// How many frames a table has, where it is one.
pub(crate) fn frame_count(alloc: Global, bytes: &[u8]) -> Result<usize, NoMemory>
    ensures { IfOk result (λ count. count ≡ frame_count (frames_of bytes.now)) }
{
    match read_frames(alloc, bytes) {
        Ok(frames) => Ok(frames.list.len()),
        Err(FrameError::BadFrame(_)) => Ok(0),
        Err(FrameError::NoMemory) => Err(NoMemory),
    }
}
