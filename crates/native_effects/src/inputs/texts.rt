//! Texts of things that are no text, and tests of texts.

ghost use Rattle.std.specs.Prelude.{◌≡◌, ◌++◌, IfOk};
ghost use Rattle.native_effects.specs.Inputs.Texts.{text_of_number, text_of_boolean, text_or_null, hash_of_text, first_difference, compared_texts, begins_with};
ghost use Rattle.std.specs.Str.{bytes_eq};

use crate::inputs::reading::{number_as_int, text_at};
use heap_objects::Heap;
use int_ops::sub_i32;
use jf_bytes::{NoMemory, Seq};
use std::alloc::Global;

/// The units of a text in ASCII.
pub fn units_of(alloc: Global, bytes: &[u8]) -> Result<Seq<u16>, NoMemory>
    ensures { IfOk result (λ units. units ≡ bytes.now) }
{
    let mut units = Seq::with_capacity(alloc, bytes.len())?;
    for byte in bytes {
        units.push(u16::from(*byte))?;
    }
    Ok(units)
}

/// An int in decimal.
pub fn text_of_int(alloc: Global, n: i32) -> Result<Seq<u16>, NoMemory>
    ensures { IfOk result (λ units. units ≡ text_of_number n) }
{
    let text = n.to_string(alloc)?;
    units_of(alloc, text.as_bytes())
}

/// A long in decimal.
pub fn text_of_long(alloc: Global, n: i64) -> Result<Seq<u16>, NoMemory>
    ensures { IfOk result (λ units. units ≡ text_of_number n) }
{
    let text = n.to_string(alloc)?;
    units_of(alloc, text.as_bytes())
}

/// `true` or `false`.
pub fn text_of_boolean(alloc: Global, b: bool) -> Result<Seq<u16>, NoMemory>
    ensures { IfOk result (λ units. units ≡ text_of_boolean b) }
{
    if b {
        units_of(alloc, "true".as_bytes())
    } else {
        units_of(alloc, "false".as_bytes())
    }
}

/// The text of a String, and `null` for null.
pub fn text_or_null(alloc: Global, object: u32, heap: &Heap) -> Result<Seq<u16>, NoMemory>
    ensures { IfOk result (λ units. units ≡ text_or_null object heap.now) }
{
    if object == 0 {
        return units_of(alloc, "null".as_bytes());
    }
    Ok(Seq::from_slice(alloc, text_at(object, heap))?)
}

/// The sum of the units with weights: 31 to the power of the units that follow.
pub fn hash_of_text(units: &[u16]) -> i32
    ensures { result ≡ hash_of_text units.now }
{
    let mut sum: u32 = 0;
    for unit in units {
        sum = sum.wrapping_mul(31).wrapping_add(u32::from(*unit));
    }
    sum.cast_signed()
}

/// The difference of the first units that differ at one place.
fn first_difference(one: &[u16], other: &[u16]) -> Option<i32>
    ensures { result ≡ first_difference one.now other.now }
{
    for i in 0..one.len() {
        if i >= other.len() {
            return None;
        }
        if one[i] != other[i] {
            return Some(i32::from(one[i]) - i32::from(other[i]));
        }
    }
    None
}

/// The difference of the first units that differ, or else of the lengths.
pub fn compared_texts(one: &[u16], other: &[u16]) -> i32
    ensures { result ≡ compared_texts one.now other.now }
{
    match first_difference(one, other) {
        Some(difference) => difference,
        None => sub_i32(number_as_int(one.len()), number_as_int(other.len())),
    }
}

/// Whether two texts have the same units.
pub fn same_units(one: &[u16], other: &[u16]) -> bool
    ensures { result ≡ bytes_eq one.now other.now }
{
    one == other
}

/// Whether one text is the other's front.
pub fn begins_with(front: &[u16], units: &[u16]) -> bool
    ensures { result ≡ begins_with front.now units.now }
{
    if front.len() > units.len() {
        return false;
    }
    same_units(&units[..front.len()], front)
}

/// The units of one text and then of the other.
pub fn units_joined(alloc: Global, one: &[u16], other: &[u16]) -> Result<Seq<u16>, NoMemory>
    ensures { IfOk result (λ units. units ≡ one.now ++ other.now) }
{
    let mut units = Seq::with_capacity(alloc, one.len() + other.len())?;
    units.extend_from_slice(one)?;
    units.extend_from_slice(other)?;
    Ok(units)
}
