//! The types of frames, and where a frame stands (JVM Specification 4.7.4).

ghost use Rattle.std.specs.Prelude.{◌≡◌, IfOk, IfSome};
ghost use Rattle.stackmap_shift.specs.Tables.{Gives, with_rest};
ghost use Rattle.stackmap_shift.specs.Frames.{form_of, short_delta, delta_at, offset_behind, offset_at, known_form};
ghost use Rattle.stackmap_shift.specs.Conditions.{FitsForm, IsBehind};

use crate::error::FrameError;
use crate::numbers::u16_of;

/// What a frame has behind its delta.
#[derive(Clone, Copy, Debug)]
pub(crate) enum Form {
    Same,
    OneItem,
    Chop(u8),
    Append(u8),
    Full,
}

/// The form of a type of frames. The types 128 to 246 are none.
fn form_of(kind: u8) -> Option<Form>
    ensures form { result ≡ form_of kind }
    ensures fits { IfSome result (λ form. FitsForm form) }
{
    match kind {
        0..=63 | 251 => Some(Form::Same),
        64..=127 | 247 => Some(Form::OneItem),
        128..=246 => None,
        248..=250 => Some(Form::Chop(251 - kind)),
        252..=254 => Some(Form::Append(kind - 251)),
        255 => Some(Form::Full),
    }
}

/// The form of the type that stands at this offset.
pub(crate) fn known_form(start: usize, kind: u8) -> Result<Form, FrameError>
    ensures form { Gives (λ x. x) result (known_form start (form_of kind)) }
    ensures fits { IfOk result (λ form. FitsForm form) }
{
    match form_of(kind) {
        Some(form) => Ok(form),
        None => Err(FrameError::BadFrame(start)),
    }
}

/// The delta that a short type has in itself.
fn short_delta(kind: u8) -> Option<u16>
    ensures { result ≡ short_delta kind }
{
    if kind < 64 {
        Some(u16::from(kind))
    } else if kind < 128 {
        Some(u16::from(kind - 64))
    } else {
        None
    }
}

/// The delta of a frame of this type.
pub(crate) fn delta_of(kind: u8, limit: usize, bytes: &[u8]) -> Result<(u16, &[u8]), FrameError>
    ensures { Gives with_rest result (delta_at kind limit bytes.now) }
{
    match short_delta(kind) {
        Some(delta) => Ok((delta, bytes)),
        None => u16_of(limit, bytes),
    }
}

/// Where a frame stands behind one at the offset `before`.
fn offset_behind(before: Option<u16>, delta: u16) -> u32
    ensures { result ≡ offset_behind before delta }
{
    match before {
        Some(before) => u32::from(before) + u32::from(delta) + 1,
        None => u32::from(delta),
    }
}

/// The same, where an offset can be so great. The frame's type stands at `start`.
pub(crate) fn offset_of(start: usize, before: Option<u16>, delta: u16) -> Result<u16, FrameError>
    ensures offset { Gives (λ x. x) result (offset_at start before delta) }
    ensures behind { IfOk result (λ at. IsBehind before at) }
{
    let offset = offset_behind(before, delta);
    if offset > 65535 {
        return Err(FrameError::BadFrame(start));
    }
    Ok(offset as u16)
}
