//! Numbers read from texts.

ghost use Rattle.std.specs.Prelude.{◌≡◌, ◌<◌, IfOk, map};
ghost use Rattle.native_effects.specs.Inputs.Parsing.{is_digit, read_digits, up_to, magnitude, number_parsed, lower_case, is_true};

use crate::inputs::texts::{same_units, units_of};
use jf_bytes::{NoMemory, Seq};
use std::alloc::Global;

/// Whether a unit is one of the ASCII digits.
pub fn is_digit(unit: u16) -> bool
    ensures { result ≡ is_digit unit }
{
    48 <= unit && unit <= 57
}

/// The number that digits write, where it is no greater than the greatest.
fn digits_up_to(greatest: u64, units: &[u16]) -> Option<u64>
    ensures { result ≡ up_to greatest (read_digits 0 units.now) }
{
    let mut number: u64 = 0;
    for unit in units {
        if !is_digit(*unit) {
            return None;
        }
        let next = u128::from(number) * 10 + u128::from(*unit - 48);
        if next > u128::from(greatest) {
            return None;
        }
        number = next as u64;
    }
    Some(number)
}

/// The number that one or more digits write, where it is no greater than the greatest.
fn magnitude(greatest: u64, units: &[u16]) -> Option<u64>
    ensures { result ≡ magnitude greatest units.now }
{
    if units.is_empty() {
        return None;
    }
    digits_up_to(greatest, units)
}

/// The number of a text, where it is an int.
pub fn parsed_int(units: &[u16]) -> Option<i32>
    ensures { result ≡ number_parsed 31 units.now }
{
    let first = units.first()?;
    if *first == 45 {
        let number = magnitude(2147483648, &units[1..])?;
        return Some((-(number as i64)) as i32);
    }
    let number = magnitude(2147483647, units)?;
    Some(number as i32)
}

/// The number of a text, where it is a long.
pub fn parsed_long(units: &[u16]) -> Option<i64>
    ensures { result ≡ number_parsed 63 units.now }
{
    let first = units.first()?;
    if *first == 45 {
        let number = magnitude(9223372036854775808, &units[1..])?;
        return Some((-(number as i128)) as i64);
    }
    let number = magnitude(9223372036854775807, units)?;
    Some(number as i64)
}

fn lower_case(unit: u16) -> u16
    ensures { result ≡ lower_case unit }
{
    if 65 <= unit && unit <= 90 {
        unit + 32
    } else {
        unit
    }
}

/// The units with ASCII letters in lower case.
fn in_lower_case(alloc: Global, units: &[u16]) -> Result<Seq<u16>, NoMemory>
    ensures { IfOk result (λ lowered. lowered ≡ map lower_case units.now) }
{
    let mut lowered = Seq::with_capacity(alloc, units.len())?;
    for unit in units {
        lowered.push(lower_case(*unit))?;
    }
    Ok(lowered)
}

/// Whether a text is `true`, in any ASCII case.
pub fn is_true(alloc: Global, units: &[u16]) -> Result<bool, NoMemory>
    ensures { IfOk result (λ b. b ≡ is_true units.now) }
{
    let lowered = in_lower_case(alloc, units)?;
    let wanted = units_of(alloc, "true".as_bytes())?;
    Ok(same_units(lowered.as_slice(), wanted.as_slice()))
}
