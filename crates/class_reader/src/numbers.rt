//! Big-endian numbers and runs of bytes (JVM Specification 4). Each reader here and in the other modules is given the
//! bytes that are left and the offset at which they end, so that it can tell the place of a fault; it answers the bytes
//! after its item.

ghost use Rattle.std.specs.Prelude.{◌≤◌, length, IfOk};
ghost use Rattle.std.specs.Int.{w8, w16, w32, w64};
ghost use Rattle.class_reader.specs.Reading.{Gives, with_rest, number_at, run_at, sized_at};

use crate::error::ReadError;
use byte_formats::place_of;
use byteorder::{BigEndian, ByteOrder};

/// A u1.
#[tactic(auto, unfolding(crate::specs::Reading::number_at))]
pub(crate) fn u8_of(limit: usize, bytes: &[u8]) -> Result<(u8, &[u8]), ReadError>
    ensures { Gives with_rest result (number_at w8 limit bytes.now) }
{
    match bytes {
        [number, rest @ ..] => Ok((*number, rest)),
        [] => Err(ReadError::Truncated(place_of(limit, bytes))),
    }
}

/// A u2.
#[tactic(auto, unfolding(crate::specs::Reading::number_at))]
pub(crate) fn u16_of(limit: usize, bytes: &[u8]) -> Result<(u16, &[u8]), ReadError>
    ensures { Gives with_rest result (number_at w16 limit bytes.now) }
{
    if bytes.len() < 2 {
        return Err(ReadError::Truncated(place_of(limit, bytes)));
    }
    Ok((BigEndian::read_u16(bytes), &bytes[2..]))
}

/// A u4.
#[tactic(auto, unfolding(crate::specs::Reading::number_at))]
pub(crate) fn u32_of(limit: usize, bytes: &[u8]) -> Result<(u32, &[u8]), ReadError>
    ensures { Gives with_rest result (number_at w32 limit bytes.now) }
{
    if bytes.len() < 4 {
        return Err(ReadError::Truncated(place_of(limit, bytes)));
    }
    Ok((BigEndian::read_u32(bytes), &bytes[4..]))
}

/// Eight bytes as a number.
#[tactic(auto, unfolding(crate::specs::Reading::number_at))]
pub(crate) fn u64_of(limit: usize, bytes: &[u8]) -> Result<(u64, &[u8]), ReadError>
    ensures { Gives with_rest result (number_at w64 limit bytes.now) }
{
    if bytes.len() < 8 {
        return Err(ReadError::Truncated(place_of(limit, bytes)));
    }
    Ok((BigEndian::read_u64(bytes), &bytes[8..]))
}

/// So many bytes.
#[tactic(auto, unfolding(crate::specs::Reading::run_at))]
pub(crate) fn run_of(len: usize, limit: usize, bytes: &[u8]) -> Result<(&[u8], &[u8]), ReadError>
    ensures run { Gives (λ x. (x.0.now, x.1.now)) result (run_at len limit bytes.now) }
    ensures within { IfOk result (λ x. length x.0.now ≤ length bytes.now) }
{
    if bytes.len() < len {
        return Err(ReadError::Truncated(place_of(limit, bytes)));
    }
    Ok(bytes.split_at(len))
}

/// A u4 length, and so many bytes.
#[tactic(auto, unfolding(crate::specs::Reading::sized_at))]
pub(crate) fn sized_of(limit: usize, bytes: &[u8]) -> Result<(&[u8], &[u8]), ReadError>
    ensures { Gives (λ x. (x.0.now, x.1.now)) result (sized_at limit bytes.now) }
{
    let (len, rest) = u32_of(limit, bytes)?;
    run_of(len as usize, limit, rest)
}
