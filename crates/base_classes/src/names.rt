//! The names of the built-in classes, both ways between a name and its place in their order.

ghost use Rattle.std.specs.Prelude.{◌≡◌, ◌↔◌, ℕ, Some, slice_get, IfSome, IsTrue};
ghost use Rattle.std.specs.List.{list_any};
ghost use Rattle.std.specs.Option.{option_copied};
ghost use Rattle.std.specs.Str.{bytes_eq};
ghost use Rattle.const_pool.specs.BuiltIn.{built_in_names};
ghost use Rattle.base_classes.specs.Hashes.{hash_of, finds_each};

use crate::tables::class_row;
use jf_bytes::Text16;

/// How many hashes there are.
const HASHES: u16 = 512;

/// The place of the class whose name has this hash, by hash; 255 where none has it. No two names have the same.
static SLOTS: [u8; 512] = [
    255, 9, 255, 1, 255, 255, 255, 255, 255, 255, 255, 255, 255, 255, 39, 255, 255, 255, 255, 255,
    255, 255, 255, 5, 255, 255, 8, 255, 255, 255, 255, 255, 255, 255, 255, 255, 255, 255, 33, 255,
    255, 255, 255, 255, 255, 255, 255, 255, 255, 46, 255, 255, 255, 255, 255, 255, 255, 255, 255,
    255, 255, 255, 255, 255, 255, 255, 255, 255, 255, 255, 255, 255, 255, 255, 255, 255, 255, 255,
    255, 40, 255, 4, 255, 255, 255, 255, 255, 255, 255, 255, 255, 255, 18, 255, 255, 255, 255, 255,
    255, 255, 255, 35, 255, 255, 255, 255, 255, 255, 255, 255, 255, 255, 255, 19, 255, 255, 255,
    255, 255, 255, 255, 255, 255, 255, 255, 255, 255, 255, 255, 255, 255, 255, 255, 255, 255, 255,
    255, 255, 255, 255, 255, 45, 51, 255, 255, 11, 255, 255, 255, 255, 255, 255, 255, 255, 255,
    255, 255, 255, 255, 28, 255, 255, 255, 255, 255, 255, 255, 255, 255, 255, 255, 255, 255, 255,
    255, 255, 255, 255, 255, 255, 255, 255, 255, 255, 255, 255, 255, 255, 255, 27, 49, 255, 255,
    255, 255, 255, 255, 255, 255, 255, 29, 255, 255, 255, 255, 255, 255, 255, 255, 255, 255, 255,
    255, 255, 43, 255, 255, 44, 255, 255, 15, 255, 255, 255, 41, 255, 255, 255, 255, 255, 38, 255,
    255, 255, 52, 255, 255, 255, 255, 21, 255, 255, 255, 12, 255, 255, 255, 0, 255, 255, 255, 255,
    255, 255, 255, 255, 255, 47, 255, 255, 255, 255, 255, 255, 255, 255, 255, 255, 255, 255, 255,
    255, 255, 255, 255, 255, 255, 255, 255, 23, 255, 255, 255, 2, 255, 255, 255, 255, 255, 255,
    255, 255, 255, 255, 255, 255, 255, 255, 255, 255, 255, 255, 255, 255, 255, 255, 255, 255, 255,
    255, 255, 255, 255, 255, 255, 255, 255, 255, 255, 255, 255, 13, 255, 255, 255, 255, 14, 255,
    255, 255, 10, 255, 255, 255, 255, 255, 255, 255, 255, 255, 42, 255, 255, 50, 255, 255, 255,
    255, 6, 255, 255, 255, 255, 255, 255, 255, 30, 255, 255, 255, 255, 255, 255, 255, 255, 255,
    255, 255, 255, 26, 255, 255, 255, 255, 255, 255, 255, 255, 255, 255, 255, 255, 255, 255, 255,
    255, 255, 255, 255, 255, 255, 255, 255, 255, 255, 255, 255, 255, 255, 255, 255, 255, 255, 255,
    255, 255, 255, 32, 255, 255, 255, 255, 25, 255, 255, 255, 255, 255, 255, 255, 255, 255, 255,
    255, 20, 255, 255, 255, 255, 255, 255, 255, 31, 255, 3, 36, 255, 255, 255, 255, 255, 255, 255,
    255, 255, 255, 255, 255, 255, 16, 255, 255, 255, 255, 255, 255, 255, 255, 255, 255, 255, 255,
    255, 24, 17, 255, 255, 255, 255, 255, 255, 255, 255, 255, 255, 255, 255, 255, 255, 255, 255,
    255, 255, 255, 255, 34, 255, 255, 255, 255, 255, 255, 22, 255, 255, 255, 255, 255, 255, 48,
    255, 7, 37, 255, 255, 255, 255, 255, 255, 255, 255, 255,
];

/// Whatever name a built-in class has, at its hash stands its place.
fn slots() -> &'static [u8]
    ensures { IsTrue (finds_each result.now) }
{
    &SLOTS
}

fn slot_at(slots: &[u8], hash: u16) -> Option<u8>
    ensures { result ≡ slice_get slots.now hash }
{
    slots.get(hash as usize).copied()
}

/// The hash of a name.
fn hash_of(units: &[u16]) -> u16
    ensures { result ≡ hash_of units.now }
{
    let mut hash = 0;
    for unit in units {
        hash = (hash * 19 + unit % HASHES) % HASHES;
    }
    hash
}

/// The name of the built-in class at this place of their order.
pub fn built_in_name(place: usize) -> Option<&'static str>
    ensures { option_copied result ≡ slice_get built_in_names place }
{
    let row = class_row(place)?;
    Some(row.name)
}

/// Whether the built-in class at this place has this name.
fn is_named(place: usize, name: &Text16) -> bool
    ensures { IsTrue result ↔ (slice_get built_in_names place ≡ Some name.now) }
{
    match built_in_name(place) {
        Some(text) => name.is_bytes(text.as_bytes()),
        None => false,
    }
}

/// The one place where a built-in class of this name can stand.
fn candidate(name: &Text16) -> Option<usize>
    ensures { (place : ℕ) → slice_get built_in_names place ≡ Some name.now → result ≡ Some place }
{
    let slot = slot_at(slots(), hash_of(name.units()))?;
    Some(slot as usize)
}

/// Where in their order the built-in class of this name stands. It is found by the name's hash, and takes no memory.
pub fn position_of(name: &Text16) -> Option<usize>
    ensures found { IfSome result (λ place. slice_get built_in_names place ≡ Some name.now) }
    ensures only { (place : ℕ) → slice_get built_in_names place ≡ Some name.now
        → result ≡ Some place }
{
    let place = candidate(name)?;
    if is_named(place, name) {
        Some(place)
    } else {
        None
    }
}

/// Whether a built-in class has this name, so that no class of a program may.
pub fn is_built_in(name: &Text16) -> bool
    ensures { result ≡ list_any (bytes_eq name.now) built_in_names }
{
    position_of(name).is_some()
}
