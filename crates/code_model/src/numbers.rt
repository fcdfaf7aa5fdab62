//! Big-endian numbers of operands (JVM Specification 6.5). Each reader here and in the other modules is given the
//! offset of the instruction's opcode, where a fault is told, and the bytes that are left; it answers the bytes behind
//! its item.

ghost use Rattle.std.specs.Prelude.{◌≡◌};
ghost use Rattle.std.specs.Int.{w8, w16, w32};
ghost use Rattle.code_model.specs.Operands.{slot_width, target_reached};
ghost use Rattle.code_model.specs.Reading.{Gives, number_at, run_at, signed_at, target_at};

use crate::error::CodeError;
use byteorder::{BigEndian, ByteOrder};

/// An unsigned byte.
#[tactic(auto, unfolding(crate::specs::Reading::number_at))]
pub(crate) fn u8_of(at: u16, bytes: &[u8]) -> Result<(u8, &[u8]), CodeError>
    ensures { Gives (λ x. (x.0, x.1.now)) result (number_at at w8 bytes.now) }
{
    match bytes {
        [number, rest @ ..] => Ok((*number, rest)),
        [] => Err(CodeError::Cut(at)),
    }
}

/// An unsigned number of two bytes.
#[tactic(auto, unfolding(crate::specs::Reading::number_at))]
pub(crate) fn u16_of(at: u16, bytes: &[u8]) -> Result<(u16, &[u8]), CodeError>
    ensures { Gives (λ x. (x.0, x.1.now)) result (number_at at w16 bytes.now) }
{
    if bytes.len() < 2 {
        return Err(CodeError::Cut(at));
    }
    Ok((BigEndian::read_u16(bytes), &bytes[2..]))
}

/// An unsigned number of four bytes.
#[tactic(auto, unfolding(crate::specs::Reading::number_at))]
pub(crate) fn u32_of(at: u16, bytes: &[u8]) -> Result<(u32, &[u8]), CodeError>
    ensures { Gives (λ x. (x.0, x.1.now)) result (number_at at w32 bytes.now) }
{
    if bytes.len() < 4 {
        return Err(CodeError::Cut(at));
    }
    Ok((BigEndian::read_u32(bytes), &bytes[4..]))
}

/// So many bytes.
#[tactic(auto, unfolding(crate::specs::Reading::run_at))]
pub(crate) fn run_of(at: u16, len: usize, bytes: &[u8]) -> Result<(&[u8], &[u8]), CodeError>
    ensures { Gives (λ x. (x.0.now, x.1.now)) result (run_at at len bytes.now) }
{
    if bytes.len() < len {
        return Err(CodeError::Cut(at));
    }
    Ok(bytes.split_at(len))
}

/// A signed byte.
#[tactic(auto, unfolding(crate::specs::Reading::signed_at))]
pub(crate) fn i8_of(at: u16, bytes: &[u8]) -> Result<(i8, &[u8]), CodeError>
    ensures { Gives (λ x. (x.0, x.1.now)) result (signed_at at w8 bytes.now) }
{
    let (number, rest) = u8_of(at, bytes)?;
    Ok((number.cast_signed(), rest))
}

/// A signed number of two bytes.
#[tactic(auto, unfolding(crate::specs::Reading::signed_at))]
pub(crate) fn i16_of(at: u16, bytes: &[u8]) -> Result<(i16, &[u8]), CodeError>
    ensures { Gives (λ x. (x.0, x.1.now)) result (signed_at at w16 bytes.now) }
{
    let (number, rest) = u16_of(at, bytes)?;
    Ok((number.cast_signed(), rest))
}

/// A signed number of four bytes.
#[tactic(auto, unfolding(crate::specs::Reading::signed_at))]
pub(crate) fn i32_of(at: u16, bytes: &[u8]) -> Result<(i32, &[u8]), CodeError>
    ensures { Gives (λ x. (x.0, x.1.now)) result (signed_at at w32 bytes.now) }
{
    let (number, rest) = u32_of(at, bytes)?;
    Ok((number.cast_signed(), rest))
}

/// The slot of a local variable: one byte, or two behind wide.
pub(crate) fn slot_of(wide: bool, at: u16, bytes: &[u8]) -> Result<(u16, &[u8]), CodeError>
    ensures { Gives (λ x. (x.0, x.1.now)) result (number_at at (slot_width wide) bytes.now) }
{
    if wide {
        return u16_of(at, bytes);
    }
    let (slot, rest) = u8_of(at, bytes)?;
    Ok((u16::from(slot), rest))
}

/// What iinc adds: one byte, or two behind wide.
pub(crate) fn step_of(wide: bool, at: u16, bytes: &[u8]) -> Result<(i16, &[u8]), CodeError>
    ensures { Gives (λ x. (x.0, x.1.now)) result (signed_at at (slot_width wide) bytes.now) }
{
    if wide {
        return i16_of(at, bytes);
    }
    let (step, rest) = i8_of(at, bytes)?;
    Ok((i16::from(step), rest))
}

/// Where a branch offset leads.
fn target_reached(at: u16, distance: i32) -> u16
    ensures { result ≡ target_reached at distance }
{
    let target = i64::from(at) + i64::from(distance);
    if 0 <= target && target <= 65535 {
        target as u16
    } else {
        65535
    }
}

/// The target of a branch offset of two bytes.
#[tactic(auto, unfolding(crate::specs::Reading::target_at))]
pub(crate) fn near_target_of(at: u16, bytes: &[u8]) -> Result<(u16, &[u8]), CodeError>
    ensures { Gives (λ x. (x.0, x.1.now)) result (target_at at w16 bytes.now) }
{
    let (distance, rest) = i16_of(at, bytes)?;
    Ok((target_reached(at, i32::from(distance)), rest))
}

/// The target of a branch offset of four bytes.
#[tactic(auto, unfolding(crate::specs::Reading::target_at))]
pub(crate) fn far_target_of(at: u16, bytes: &[u8]) -> Result<(u16, &[u8]), CodeError>
    ensures { Gives (λ x. (x.0, x.1.now)) result (target_at at w32 bytes.now) }
{
    let (distance, rest) = i32_of(at, bytes)?;
    Ok((target_reached(at, distance), rest))
}
