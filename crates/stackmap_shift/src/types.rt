//! Verification types (JVM Specification 4.7.4).

ghost use Rattle.std.specs.Prelude.{◌≡◌};
ghost use Rattle.stackmap_shift.specs.Tables.{Gives, with_rest};
ghost use Rattle.stackmap_shift.specs.Frames.{plain_type, known_type, object_at, uninit_at, behind_tag, type_at};

use crate::error::FrameError;
use crate::frames::VType;
use crate::lists::ReadItem;
use crate::numbers::{u8_of, u16_of};
use byte_formats::place_of;

/// The type that is this tag alone.
fn plain_type(tag: u8) -> Option<VType>
    ensures { result ≡ plain_type tag }
{
    match tag {
        0 => Some(VType::Top),
        1 => Some(VType::Integer),
        2 => Some(VType::Float),
        3 => Some(VType::Double),
        4 => Some(VType::Long),
        5 => Some(VType::Null),
        6 => Some(VType::UninitThis),
        _ => None,
    }
}

/// The type that is a tag alone, which stands at `start`.
fn known_type(start: usize, tag: u8, bytes: &[u8]) -> Result<(VType, &[u8]), FrameError>
    ensures { Gives with_rest result (known_type start bytes.now (plain_type tag)) }
{
    match plain_type(tag) {
        Some(plain) => Ok((plain, bytes)),
        None => Err(FrameError::BadFrame(start)),
    }
}

#[tactic(auto, unfolding(crate::specs::Frames::object_at))]
fn object_of(limit: usize, bytes: &[u8]) -> Result<(VType, &[u8]), FrameError>
    ensures { Gives with_rest result (object_at limit bytes.now) }
{
    let (index, rest) = u16_of(limit, bytes)?;
    Ok((VType::Object(index), rest))
}

#[tactic(auto, unfolding(crate::specs::Frames::uninit_at))]
fn uninit_of(limit: usize, bytes: &[u8]) -> Result<(VType, &[u8]), FrameError>
    ensures { Gives with_rest result (uninit_at limit bytes.now) }
{
    let (offset, rest) = u16_of(limit, bytes)?;
    Ok((VType::Uninit(offset), rest))
}

/// The type of a tag that stands at `start`, with what follows the tag.
#[tactic(auto, unfolding(crate::specs::Frames::behind_tag))]
fn behind_tag(
    start: usize,
    tag: u8,
    limit: usize,
    bytes: &[u8],
) -> Result<(VType, &[u8]), FrameError>
    ensures { Gives with_rest result (behind_tag start tag limit bytes.now) }
{
    match tag {
        7 => object_of(limit, bytes),
        8 => uninit_of(limit, bytes),
        _ => known_type(start, tag, bytes),
    }
}

/// A verification type.
#[tactic(auto, unfolding(crate::specs::Frames::type_at))]
pub(crate) fn type_of(limit: usize, bytes: &[u8]) -> Result<(VType, &[u8]), FrameError>
    ensures { Gives with_rest result (type_at limit bytes.now) }
{
    let (tag, rest) = u8_of(limit, bytes)?;
    behind_tag(place_of(limit, bytes), tag, limit, rest)
}

/// Reads verification types.
#[derive(Clone, Copy)]
pub(crate) struct Types;

impl ReadItem<VType> for Types {
    ghost use Rattle.stackmap_shift.specs.Frames.{type_at};

    ghost item = { λ s. type_at };

    fn read<'a>(&self, limit: usize, bytes: &'a [u8]) -> Result<(VType, &'a [u8]), FrameError> {
        type_of(limit, bytes)
    }
}
