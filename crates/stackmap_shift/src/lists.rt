//! Items one after the other.

ghost use Rattle.std.specs.Prelude.{◌≡◌, ◌≤◌, length, IfOk};
ghost use Rattle.stackmap_shift.specs.Tables.{Gives, with_rest, many_at, counted_at};

use crate::error::FrameError;
use crate::numbers::u16_of;
use jf_bytes::Seq;
use std::alloc::Global;

/// Reads one item from the front of what is left of a table with `limit` bytes.
pub(crate) trait ReadItem<T> {
    ghost use Rattle.std.specs.Prelude.{ℕ, List};
    ghost use Rattle.stackmap_shift.specs.Tables.{Read};

    ghost item: { Self → ℕ → List ℕ → Read T };

    fn read<'a>(&self, limit: usize, bytes: &'a [u8]) -> Result<(T, &'a [u8]), FrameError>
        ensures { Gives with_rest result (item self.now limit bytes.now) };
}

/// So many items.
pub(crate) fn many_of<'a, T: Drop, R: ReadItem<T>>(
    reader: &R,
    alloc: Global,
    count: u16,
    limit: usize,
    bytes: &'a [u8],
) -> Result<(Seq<T>, &'a [u8]), FrameError>
    ensures items { Gives with_rest result (many_at (R.item reader.now limit) count bytes.now) }
    ensures many { IfOk result (λ x. length x.0 ≡ count) }
{
    let mut items = Seq::new(alloc);
    let mut rest = bytes;
    for _ in 0..count {
        let (item, after) = reader.read(limit, rest)?;
        items.push(item)?;
        rest = after;
    }
    Ok((items, rest))
}

/// The items behind their count.
#[tactic(auto, unfolding(crate::specs::Tables::counted_at))]
pub(crate) fn counted_of<'a, T: Drop, R: ReadItem<T>>(
    reader: &R,
    alloc: Global,
    limit: usize,
    bytes: &'a [u8],
) -> Result<(Seq<T>, &'a [u8]), FrameError>
    ensures items { Gives with_rest result (counted_at (R.item reader.now) limit bytes.now) }
    ensures few { IfOk result (λ x. length x.0 ≤ 65535) }
{
    let (count, rest) = u16_of(limit, bytes)?;
    many_of(reader, alloc, count, limit, rest)
}
