//! Texts as UTF-8, and text that is in UTF-8 as UTF-16 units.

ghost use Rattle.std.specs.Prelude.{◌≡◌, ◌<◌, ◌≤◌, ◌∷◌, ◌&&◌, Some, length, drop, slice_index, true, IfOk, unwrap_or};
ghost use Rattle.std.specs.Char.Utf16.{is_high_surrogate, is_low_surrogate, surrogate_pair_char, lone_unit_char, utf16_chars};
ghost use Rattle.jf_bytes.specs.Unicode.{utf8_of, utf16_of};
ghost use Rattle.text_coding.specs.Spelling.{IsUnits};

use jf_bytes::{NoMemory, Text16};
use std::alloc::Global;

/// The unit at an index, and 0, which is no surrogate, past the end.
fn unit_at(units: &[u16], index: usize) -> u16
    ensures { result ≡ slice_index units.now index }
{
    units.get(index).copied().unwrap_or(0)
}

/// Whether the two units are the two surrogates of one character.
fn is_pair(first: u16, second: u16) -> bool
    ensures { result ≡ (is_high_surrogate first && is_low_surrogate second) }
{
    0xD800 <= first && first < 0xDC00 && 0xDC00 <= second && second < 0xE000
}

/// The character of a pair of surrogates.
fn pair_char(high: u16, low: u16) -> Option<char>
    requires { (is_high_surrogate high && is_low_surrogate low) ≡ true }
    ensures { result ≡ Some (surrogate_pair_char high low) }
{
    char::from_u32(0x1_0000 + (u32::from(high) - 0xD800) * 0x400 + (u32::from(low) - 0xDC00))
}

/// The character of a unit that is in no pair, and `None` for a surrogate.
fn lone_char(unit: u16) -> Option<char>
    ensures { result ≡ lone_unit_char unit }
{
    char::from_u32(u32::from(unit))
}

/// The character at the front, with `None` for a surrogate that has no partner, and how many units it has.
fn front_char(units: &[u16]) -> (Option<char>, usize)
    requires { 0 < length units.now }
    ensures one { 0 < result.1 }
    ensures two { result.1 ≤ 2 }
    ensures within { result.1 ≤ length units.now }
    ensures prefix { utf16_chars units.now ≡ result.0 ∷ utf16_chars (drop result.1 units.now) }
{
    let (first, second) = (unit_at(units, 0), unit_at(units, 1));
    if is_pair(first, second) {
        return (pair_char(first, second), 2);
    }
    (lone_char(first), 1)
}

/// The text in UTF-8, as programs print it. Two surrogates that are a pair are one character of four bytes, and a
/// surrogate that has no partner is `?`.
pub fn to_utf8(alloc: Global, text: &Text16) -> Result<Vec<u8>, NoMemory>
    ensures { IfOk result (λ bytes. bytes.items ≡ utf8_of text.now) }
{
    let mut rest = text.units();
    let mut shown = String::with_capacity(alloc, rest.len())?;
    while !rest.is_empty() {
        let (found, len) = front_char(rest);
        shown.push(found.unwrap_or('?'))?;
        rest = &rest[len..];
    }
    Ok(shown.into_bytes())
}

/// The text of the characters of a string, in UTF-16.
pub fn from_utf8(alloc: Global, text: &str) -> Result<Text16, NoMemory>
    ensures spelled { IfOk result (λ units. units ≡ utf16_of text.now) }
    ensures fit { IfOk result (λ units. IsUnits units) }
{
    let mut units = Vec::with_capacity(alloc, text.len())?;
    for c in text.chars() {
        units.extend_from_slice(c.encode_utf16(&mut [0; 2]))?;
    }
    Ok(Text16::new(units))
}
