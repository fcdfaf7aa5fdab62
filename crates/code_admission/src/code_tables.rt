//! The tables of a Code (JVM Specification 4.7.4, 4.7.8, 4.7.9, 4.7.10).

ghost use Rattle.std.specs.Prelude.{◌≡◌, IfOk};
ghost use Rattle.std.specs.List.{list_all};
ghost use Rattle.stackmap_shift.specs.Frames.{frames_of};
ghost use Rattle.code_admission.specs.CodeTables.{fits_vtype, fits_vtypes, fits_frame_kind};
ghost use Rattle.code_admission.specs.CodeTables.{fits_frame, fits_frames, is_frame_name};
ghost use Rattle.code_admission.specs.CodeTables.{fits_table, fits_raw};

use crate::starts::Body;
use const_pool::{Pool, Raw};
use jf_bytes::NoMemory;
use stackmap_shift::{
    Frame, FrameError, FrameKind, VType, is_line_table, is_variable_table, read_frames,
};
use std::alloc::Global;

/// Whether the offset of a type, where it has one, starts an instruction.
fn fits_vtype(body: &Body, vtype: VType) -> bool
    ensures { result ≡ fits_vtype body.now vtype }
{
    match vtype {
        VType::Uninit(offset) => body.is_start(offset),
        _ => true,
    }
}

/// The same of all types.
fn fits_vtypes(body: &Body, types: &[VType]) -> bool
    ensures { result ≡ fits_vtypes body.now types.now }
{
    types.iter().all(|vtype| fits_vtype(body, *vtype))
}

/// The same of the types of a frame.
fn fits_frame_kind(body: &Body, kind: &FrameKind) -> bool
    ensures { result ≡ fits_frame_kind body.now kind.now }
{
    match kind {
        FrameKind::Same => true,
        FrameKind::OneItem(item) => fits_vtype(body, *item),
        FrameKind::Chop(_) => true,
        FrameKind::Append(locals) => fits_vtypes(body, locals.as_slice()),
        FrameKind::Full(locals, operands) => {
            fits_vtypes(body, locals.as_slice()) && fits_vtypes(body, operands.as_slice())
        }
    }
}

/// Whether a frame and its types stand at starts of instructions.
fn fits_frame(body: &Body, frame: &Frame) -> bool
    ensures { result ≡ fits_frame body.now frame.now }
{
    body.is_start(frame.at) && fits_frame_kind(body, &frame.kind)
}

/// Whether all frames do.
fn fit_frames(body: &Body, frames: &[Frame]) -> bool
    ensures { result ≡ list_all (fits_frame body.now) frames.now }
{
    frames.iter().all(|frame| fits_frame(body, frame))
}

/// Whether the bytes are a table of such frames.
fn fits_frames(alloc: Global, body: &Body, bytes: &[u8]) -> Result<bool, NoMemory>
    ensures { IfOk result (λ fits. fits ≡ fits_frames body.now (frames_of bytes.now)) }
{
    match read_frames(alloc, bytes) {
        Ok(frames) => Ok(fit_frames(body, frames.list.as_slice())),
        Err(FrameError::BadFrame(_)) => Ok(false),
        Err(FrameError::NoMemory) => Err(NoMemory),
    }
}

/// Whether an attribute with this name is a StackMapTable.
pub(crate) fn is_frame_name(pool: &Pool, name: u16) -> bool
    ensures { result ≡ is_frame_name pool.now name }
{
    pool.is_bytes(name, b"StackMapTable")
}

/// Whether an attribute of this name, if it is a table, is one of the body.
fn fits_table(
    alloc: Global,
    pool: &Pool,
    body: &Body,
    name: u16,
    bytes: &[u8],
) -> Result<bool, NoMemory>
    ensures { IfOk result (λ fits. fits ≡ fits_table pool.now body.now name bytes.now) }
{
    if pool.is_bytes(name, b"LineNumberTable") {
        is_line_table(alloc, bytes)
    } else if pool.is_bytes(name, b"LocalVariableTable") {
        is_variable_table(alloc, bytes)
    } else if pool.is_bytes(name, b"LocalVariableTypeTable") {
        is_variable_table(alloc, bytes)
    } else if is_frame_name(pool, name) {
        fits_frames(alloc, body, bytes)
    } else {
        Ok(true)
    }
}

/// Whether an attribute of a Code, if it is a table, is one of the body.
pub(crate) fn fits_raw(alloc: Global, pool: &Pool, body: &Body, raw: &Raw) -> Result<bool, NoMemory>
    ensures { IfOk result (λ fits. fits ≡ fits_raw pool.now body.now raw.now) }
{
    fits_table(alloc, pool, body, raw.name, raw.bytes.as_slice())
}
