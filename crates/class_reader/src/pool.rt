//! The constant pool (JVM Specification 4.4).

ghost use Rattle.std.specs.Prelude.{◌≡◌, ◌<◌, ◌≤◌, ◌^◌, length, IfOk, IfErr, IfSome, OnOk, IsTrue};
ghost use Rattle.const_pool.specs.Pool.{is_wide as is_wide_of, has_gaps};
ghost use Rattle.class_reader.specs.ClassFormat.{fits_in, lowest_bad};
ghost use Rattle.class_reader.specs.Reading.{Gives, with_rest, with_entry, pool_count_at, entries_below, all_entries_at, pool_at};

use crate::constants::entry_of;
use crate::error::ReadError;
use crate::numbers::u16_of;
use crate::references::{names_class, names_name_type, names_utf8};
use const_pool::Const;
use std::alloc::Global;

/// Whether the entry takes two indices.
fn is_wide(entry: &Const) -> bool
    ensures { result ≡ is_wide_of entry.now }
{
    matches!(entry, Const::Long(_) | Const::Double(_))
}

/// The constant_pool_count, which is not 0.
#[tactic(auto, unfolding(crate::specs::Reading::tested_at))]
fn count_of(limit: usize, bytes: &[u8]) -> Result<(u16, &[u8]), ReadError>
    ensures count { Gives with_rest result (pool_count_at limit bytes.now) }
    ensures some { IfOk result (λ x. 0 < x.0) }
{
    let (count, rest) = u16_of(limit, bytes)?;
    if count == 0 {
        return Err(ReadError::BadIndex(0));
    }
    Ok((count, rest))
}

/// Adds an entry, and a gap behind it where it takes two indices of `count`.
fn push_entry(entries: &mut Vec<Const>, entry: Const, count: usize) -> Result<(), ReadError>
    requires { length entries.old.items < count }
    ensures pushed { OnOk result (entries.new.items ≡ with_entry entries.old.items entry count) }
    ensures within { OnOk result (length entries.new.items ≤ count) }
    ensures memory { IfErr result (λ e. e ≡ ReadError.NoMemory) }
{
    let has_gap = is_wide(&entry) && entries.len() + 1 < count;
    entries.push(entry)?;
    if has_gap {
        entries.push(Const::Gap)?;
    }
    Ok(())
}

/// A gap, and the entries from index 1 to `count`, exclusive.
fn entries_of(
    alloc: Global,
    count: u16,
    limit: usize,
    bytes: &[u8],
) -> Result<(Vec<Const>, &[u8]), ReadError>
    requires some { 0 < count }
    ensures entries { Gives (λ x. (x.0.items, x.1.now)) result
        (entries_below count limit bytes.now) }
    ensures within { IfOk result (λ x. length x.0.items ≤ count) }
{
    let mut entries = Vec::new(alloc);
    entries.push(Const::Gap)?;
    let mut rest = bytes;
    while entries.len() < usize::from(count) {
        let (entry, after) = entry_of(alloc, limit, rest)?;
        push_entry(&mut entries, entry, usize::from(count))?;
        rest = after;
    }
    Ok((entries, rest))
}

/// The entries of the constant pool behind their count, from index 0 on.
#[tactic(auto, unfolding(crate::specs::Reading::all_entries_at))]
fn all_entries_of(
    alloc: Global,
    limit: usize,
    bytes: &[u8],
) -> Result<(Vec<Const>, &[u8]), ReadError>
    ensures entries { Gives (λ x. (x.0.items, x.1.now)) result (all_entries_at limit bytes.now) }
    ensures within { IfOk result (λ x. length x.0.items < 2 ^ 16) }
{
    let (count, rest) = count_of(limit, bytes)?;
    entries_of(alloc, count, limit, rest)
}

/// Whether the indices in an entry name entries of the needed kinds.
fn fits(pool: &[Const], entry: &Const) -> bool
    ensures { result ≡ fits_in pool.now entry.now }
{
    match entry {
        Const::Class(name) | Const::Text(name) => names_utf8(pool, *name),
        Const::Field(class, named)
        | Const::Method(class, named)
        | Const::InterfaceMethod(class, named) => {
            names_class(pool, *class) && names_name_type(pool, *named)
        }
        Const::NameType(name, descriptor) => {
            names_utf8(pool, *name) && names_utf8(pool, *descriptor)
        }
        _ => true,
    }
}

/// The lowest entry with an index that is out of range or names another kind, or that takes two indices and stands
/// last.
fn lowest_bad_of(pool: &[Const]) -> Option<usize>
    ensures lowest { result ≡ lowest_bad pool.now }
    ensures within { IfSome result (λ index. index < length pool.now) }
{
    for (index, entry) in pool.iter().enumerate() {
        let is_last = index + 1 == pool.len();
        if !fits(pool, entry) || (is_wide(entry) && is_last) {
            return Some(index);
        }
    }
    None
}

/// The entries of the constant pool. Indices are looked at once all entries are there, since an entry may name a later
/// one.
#[tactic(auto, unfolding(crate::specs::Reading::pool_at))]
fn sound_entries_of(
    alloc: Global,
    limit: usize,
    bytes: &[u8],
) -> Result<(Vec<Const>, &[u8]), ReadError>
    ensures sound { Gives (λ x. (x.0.items, x.1.now)) result (pool_at limit bytes.now) }
    ensures within { IfOk result (λ x. length x.0.items < 2 ^ 16) }
{
    let (pool, rest) = all_entries_of(alloc, limit, bytes)?;
    match lowest_bad_of(&pool) {
        None => Ok((pool, rest)),
        Some(index) => Err(ReadError::BadIndex(index as u16)),
    }
}

/// The same, with what a `Pool` asks of its entries.
pub(crate) fn pool_of(
    alloc: Global,
    limit: usize,
    bytes: &[u8],
) -> Result<(Vec<Const>, &[u8]), ReadError>
    ensures read { Gives (λ x. (x.0.items, x.1.now)) result (pool_at limit bytes.now) }
    ensures gaps { IfOk result (λ x. IsTrue (has_gaps x.0.items)) }
    ensures count { IfOk result (λ x. length x.0.items < 2 ^ 16) }
{
    sound_entries_of(alloc, limit, bytes)
}
