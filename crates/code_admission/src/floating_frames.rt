//! Floats and doubles in frames (JVM Specification 4.7.4).

ghost use Rattle.std.specs.Prelude.{◌≡◌, ◌<◌, ◌^◌, length, IfOk};
ghost use Rattle.std.specs.Option.{option_and_then};
ghost use Rattle.const_pool.specs.ClassFile.{IsClassFile};
ghost use Rattle.jvm_model.specs.Basis.Methods.{code_of};
ghost use Rattle.stackmap_shift.specs.Frames.{frames_of};
ghost use Rattle.code_admission.specs.Checks.{first_from, first_in};
ghost use Rattle.code_admission.specs.FloatingFrames.{is_floating_vtype, are_floating};
ghost use Rattle.code_admission.specs.FloatingFrames.{is_floating_kind, floating_frame};
ghost use Rattle.code_admission.specs.FloatingFrames.{first_floating_frame, floating_raw, floating_tables};
ghost use Rattle.code_admission.specs.FloatingFrames.{floating_frames_of, floating_frames};

use crate::code_tables::is_frame_name;
use crate::error::{AdmitError, FloatingPointUse};
use const_pool::{ClassFile, Member, Pool, Raw};
use jf_bytes::NoMemory;
use jvm_model::code_of;
use stackmap_shift::{Frame, FrameError, FrameKind, VType, read_frames};
use std::alloc::Global;

/// Whether a type is that of a float or a double.
fn is_floating_vtype(vtype: VType) -> bool
    ensures { result ≡ is_floating_vtype vtype }
{
    matches!(vtype, VType::Float | VType::Double)
}

/// Whether one of the types is.
fn are_floating(types: &[VType]) -> bool
    ensures { result ≡ are_floating types.now }
{
    types.iter().any(|vtype| is_floating_vtype(*vtype))
}

/// Whether one of the types that a frame names is.
fn is_floating_kind(kind: &FrameKind) -> bool
    ensures { result ≡ is_floating_kind kind.now }
{
    match kind {
        FrameKind::Same => false,
        FrameKind::OneItem(item) => is_floating_vtype(*item),
        FrameKind::Chop(_) => false,
        FrameKind::Append(locals) => are_floating(locals.as_slice()),
        FrameKind::Full(locals, operands) => {
            are_floating(locals.as_slice()) || are_floating(operands.as_slice())
        }
    }
}

/// The offset of the first such frame.
fn first_floating(frames: &[Frame]) -> Option<u16>
    ensures { result ≡ first_in floating_frame frames.now }
{
    for frame in frames {
        if is_floating_kind(&frame.kind) {
            return Some(frame.at);
        }
    }
    None
}

/// The same of the frames that the bytes are.
fn first_floating_frame(alloc: Global, bytes: &[u8]) -> Result<Option<u16>, NoMemory>
    ensures { IfOk result (λ offset. offset ≡ first_floating_frame (frames_of bytes.now)) }
{
    match read_frames(alloc, bytes) {
        Ok(frames) => Ok(first_floating(frames.list.as_slice())),
        Err(FrameError::BadFrame(_)) => Ok(None),
        Err(FrameError::NoMemory) => Err(NoMemory),
    }
}

/// The same of an attribute of a Code.
fn floating_raw(alloc: Global, pool: &Pool, raw: &Raw) -> Result<Option<u16>, NoMemory>
    ensures { IfOk result (λ offset. offset ≡ floating_raw pool.now raw.now) }
{
    if is_frame_name(pool, raw.name) {
        first_floating_frame(alloc, raw.bytes.as_slice())
    } else {
        Ok(None)
    }
}

/// The same of all attributes of a Code.
fn floating_raws(alloc: Global, pool: &Pool, raws: &[Raw]) -> Result<Option<u16>, NoMemory>
    ensures { IfOk result (λ offset. offset ≡ first_in (floating_raw pool.now) raws.now) }
{
    for raw in raws {
        if let Some(offset) = floating_raw(alloc, pool, raw)? {
            return Ok(Some(offset));
        }
    }
    Ok(None)
}

/// The same of a method.
fn floating_tables(alloc: Global, pool: &Pool, method: &Member) -> Result<Option<u16>, NoMemory>
    ensures { IfOk result (λ offset.
        offset ≡ option_and_then (floating_tables pool.now) (code_of method.now)) }
{
    match code_of(method) {
        Some(code) => floating_raws(alloc, pool, code.attributes.as_slice()),
        None => Ok(None),
    }
}

/// The fault of the first frame of the methods with a float or a double.
fn frame_fault(
    alloc: Global,
    number: u32,
    pool: &Pool,
    methods: &[Member],
) -> Result<Option<AdmitError>, NoMemory>
    requires { length methods.now < 2 ^ 16 }
    ensures { IfOk result (λ fault.
        fault ≡ first_from (floating_frames_of number pool.now) 0 methods.now) }
{
    for (at, method) in methods.iter().enumerate() {
        if let Some(offset) = floating_tables(alloc, pool, method)? {
            let place = FloatingPointUse::Frame(at as u16, offset);
            return Ok(Some(AdmitError::FloatingPoint(number, place)));
        }
    }
    Ok(None)
}

/// The same of a class, where its frames count.
pub(crate) fn floating_frames(
    alloc: Global,
    number: u32,
    class: &ClassFile,
) -> Result<Option<AdmitError>, NoMemory>
    requires { IsClassFile class.now }
    ensures { IfOk result (λ fault. fault ≡ floating_frames number class.now) }
{
    if class.major == 50 {
        frame_fault(alloc, number, &class.pool, class.methods.as_slice())
    } else {
        Ok(None)
    }
}
