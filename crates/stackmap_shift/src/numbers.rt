//! Big-endian numbers (JVM Specification 4). Each reader here and in the other modules is given the table's length and
//! the bytes that are left of the table; it answers the bytes behind its item.

ghost use Rattle.std.specs.Int.{w8, w16};
ghost use Rattle.stackmap_shift.specs.Tables.{Gives, with_rest, number_at, nothing_left};

use crate::error::FrameError;
use byte_formats::place_of;
use byteorder::{BigEndian, ByteOrder};

/// A u1.
#[tactic(auto, unfolding(crate::specs::Tables::number_at))]
pub(crate) fn u8_of(limit: usize, bytes: &[u8]) -> Result<(u8, &[u8]), FrameError>
    ensures { Gives with_rest result (number_at w8 limit bytes.now) }
{
    match bytes {
        [number, rest @ ..] => Ok((*number, rest)),
        [] => Err(FrameError::BadFrame(limit)),
    }
}

/// A u2.
#[tactic(auto, unfolding(crate::specs::Tables::number_at))]
pub(crate) fn u16_of(limit: usize, bytes: &[u8]) -> Result<(u16, &[u8]), FrameError>
    ensures { Gives with_rest result (number_at w16 limit bytes.now) }
{
    if bytes.len() < 2 {
        return Err(FrameError::BadFrame(limit));
    }
    Ok((BigEndian::read_u16(bytes), &bytes[2..]))
}

/// Nothing, where no bytes are left over.
pub(crate) fn nothing_left(limit: usize, rest: &[u8]) -> Result<(), FrameError>
    ensures { Gives (λ x. x) result (nothing_left limit rest.now) }
{
    if !rest.is_empty() {
        return Err(FrameError::BadFrame(place_of(limit, rest)));
    }
    Ok(())
}
