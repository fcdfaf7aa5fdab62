//! Moves frames to where their code is laid out anew.

ghost use Rattle.std.specs.Prelude.{◌≡◌, IfOk};
ghost use Rattle.std.specs.List.Sorted.{IsStrictlyIncreasing};
ghost use Rattle.stackmap_shift.specs.Moves.{place_of, moved_type, moved_types, moved_kind, moved_frame, moved_frames};
ghost use Rattle.stackmap_shift.specs.Conditions.{AreHomes, AreWritable, EachStands};

use crate::frames::{Frame, FrameKind, Frames, VType};
use code_model::Homes;
use jf_bytes::{NoMemory, Seq};
use std::alloc::Global;

/// Where the instruction at an original offset stands itself, or 0 where none is there. It is found by halves.
fn place_of(homes: &Homes, at: u16) -> u16
    requires { IsStrictlyIncreasing homes.now.from }
    ensures { result ≡ place_of homes.now at }
{
    match homes.from.as_slice().binary_search(&at) {
        Ok(index) => homes.place.at(index).unwrap_or(0),
        Err(_) => 0,
    }
}

fn moved_type(homes: &Homes, item: VType) -> VType
    requires { IsStrictlyIncreasing homes.now.from }
    ensures { result ≡ moved_type homes.now item }
{
    match item {
        VType::Uninit(offset) => VType::Uninit(place_of(homes, offset)),
        _ => item,
    }
}

fn moved_types(alloc: Global, homes: &Homes, types: &[VType]) -> Result<Seq<VType>, NoMemory>
    requires { IsStrictlyIncreasing homes.now.from }
    ensures { IfOk result (λ moved. moved ≡ moved_types homes.now types.now) }
{
    let mut moved = Seq::with_capacity(alloc, types.len())?;
    for item in types {
        moved.push(moved_type(homes, *item))?;
    }
    Ok(moved)
}

fn moved_kind(alloc: Global, homes: &Homes, kind: &FrameKind) -> Result<FrameKind, NoMemory>
    requires { IsStrictlyIncreasing homes.now.from }
    ensures { IfOk result (λ moved. moved ≡ moved_kind homes.now kind.now) }
{
    match kind {
        FrameKind::Same => Ok(FrameKind::Same),
        FrameKind::OneItem(item) => Ok(FrameKind::OneItem(moved_type(homes, *item))),
        FrameKind::Chop(count) => Ok(FrameKind::Chop(*count)),
        FrameKind::Append(locals) => {
            let locals = moved_types(alloc, homes, locals.as_slice())?;
            Ok(FrameKind::Append(locals))
        }
        FrameKind::Full(locals, operands) => {
            let locals = moved_types(alloc, homes, locals.as_slice())?;
            let operands = moved_types(alloc, homes, operands.as_slice())?;
            Ok(FrameKind::Full(locals, operands))
        }
    }
}

fn moved_frame(alloc: Global, homes: &Homes, frame: &Frame) -> Result<Frame, NoMemory>
    requires { IsStrictlyIncreasing homes.now.from }
    ensures { IfOk result (λ moved. moved ≡ moved_frame homes.now frame.now) }
{
    let at = homes.home_of(frame.at);
    let kind = moved_kind(alloc, homes, &frame.kind)?;
    Ok(Frame { at, kind })
}

fn moved_list(alloc: Global, homes: &Homes, frames: &[Frame]) -> Result<Seq<Frame>, NoMemory>
    requires { IsStrictlyIncreasing homes.now.from }
    ensures { IfOk result (λ moved. moved ≡ moved_frames homes.now frames.now) }
{
    let mut moved = Seq::with_capacity(alloc, frames.len())?;
    for frame in frames {
        moved.push(moved_frame(alloc, homes, frame)?)?;
    }
    Ok(moved)
}

/// The frames for code that is laid out anew, with these homes. A frame moves to the home of its instruction, where
/// what goes in front of it begins; an Uninitialized goes on naming the `new` itself. An offset that starts no
/// instruction becomes 0, so the caller sees to it that there is none. All else stays.
pub fn shift_frames(alloc: Global, frames: &Frames, homes: &Homes) -> Result<Frames, NoMemory>
    requires { IsStrictlyIncreasing homes.now.from }
    ensures moved { IfOk result (λ moved. moved.list ≡ moved_frames homes.now frames.now.list) }
    // So `write_frames` takes them, and a frame that is added behind the last one.
    ensures writable { AreHomes homes.now → EachStands homes.now.from frames.now.list
        → AreWritable frames.now.list → IfOk result (λ moved. AreWritable moved.list) }
{
    let list = moved_list(alloc, homes, frames.list.as_slice())?;
    Ok(Frames { list })
}
