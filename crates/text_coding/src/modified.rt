//! Texts as the bytes of a class file: modified UTF-8 (JVM Specification 4.4.7).

ghost use Rattle.std.specs.Prelude.{◌≡◌, ◌+◌, ◌/◌, ◌%◌, ◌<◌, ◌≤◌, ◌++◌, ℕ, List, Ok, Err, length, slice_index, IsTrue, ◌↔◌, IfOk, IfErr, OnOk};
ghost use Rattle.jf_bytes.specs.Results.{IsUnless};
ghost use Rattle.jf_bytes.specs.ModifiedUtf8.{two_bytes, three_bytes, unit_bytes, modified_utf8};
ghost use Rattle.text_coding.specs.Spelling.{IsUnits, IsSpelling, IsFirstBad, BeginsWith, IsDoubleLead, IsTripleLead};

use crate::error::TextError;
use jf_bytes::{NoMemory, Text16};
use std::alloc::Global;

/// How many bytes a unit has.
fn spelled_len(unit: u16) -> usize
    ensures { result ≡ length (unit_bytes unit) }
{
    if unit == 0 {
        2
    } else if unit < 128 {
        1
    } else if unit < 2048 {
        2
    } else {
        3
    }
}

/// The two bytes of 0 and of the units from 128 to 2047.
fn double_bytes(unit: u16) -> [u8; 2]
    requires { unit < 2048 }
    ensures { result ≡ two_bytes unit }
{
    [192 + (unit / 64) as u8, 128 + (unit % 64) as u8]
}

/// The three bytes of the units from 2048 on.
fn triple_bytes(unit: u16) -> [u8; 3]
    ensures { result ≡ three_bytes unit }
{
    [
        224 + (unit / 4096) as u8,
        128 + (unit / 64 % 64) as u8,
        128 + (unit % 64) as u8,
    ]
}

/// Appends the bytes of a unit.
fn push_unit(bytes: &mut Vec<u8>, unit: u16) -> Result<(), NoMemory>
    ensures { OnOk result (bytes.new.items ≡ bytes.old.items ++ unit_bytes unit) }
{
    if unit == 0 {
        bytes.extend_from_slice(&double_bytes(unit))?;
    } else if unit < 128 {
        bytes.push(unit as u8)?;
    } else if unit < 2048 {
        bytes.extend_from_slice(&double_bytes(unit))?;
    } else {
        bytes.extend_from_slice(&triple_bytes(unit))?;
    }
    Ok(())
}

/// The byte at an index, and 0, which no text has, past the end.
fn byte_at(bytes: &[u8], index: usize) -> u8
    ensures { result ≡ slice_index bytes.now index }
{
    bytes.get(index).copied().unwrap_or(0)
}

/// Whether the byte is neither below the one nor above the other.
fn is_between(byte: u8, least: u8, most: u8) -> bool
    ensures { IsTrue result ↔ ((least ≤ byte) × (byte ≤ most)) }
{
    least <= byte && byte <= most
}

/// The unit of two bytes at the front, or how many of them are right. The first is right.
fn double_unit(bytes: &[u8], most: u8) -> Result<u16, usize>
    requires some { 0 < length bytes.now }
    requires lead { IsDoubleLead (slice_index bytes.now 0) most }
    ensures unit { IfOk result (λ unit. BeginsWith bytes.now unit) }
    ensures bad { IfErr result (λ at. IsFirstBad bytes.now at) }
{
    let second = byte_at(bytes, 1);
    if !is_between(second, 128, most) {
        return Err(1);
    }
    Ok(u16::from(bytes[0] % 32) * 64 + u16::from(second % 64))
}

/// The unit of three bytes at the front, or how many of them are right. The first is right.
fn triple_unit(bytes: &[u8], least: u8) -> Result<u16, usize>
    requires some { 0 < length bytes.now }
    requires lead { IsTripleLead (slice_index bytes.now 0) least }
    ensures unit { IfOk result (λ unit. BeginsWith bytes.now unit) }
    ensures bad { IfErr result (λ at. IsFirstBad bytes.now at) }
{
    let second = byte_at(bytes, 1);
    if !is_between(second, least, 191) {
        return Err(1);
    }
    let third = byte_at(bytes, 2);
    if !is_between(third, 128, 191) {
        return Err(2);
    }
    Ok(u16::from(bytes[0] % 16) * 4096 + u16::from(second % 64) * 64 + u16::from(third % 64))
}

/// The unit at the front, or how many bytes of the front some text begins with.
fn front_unit(bytes: &[u8]) -> Result<u16, usize>
    requires { 0 < length bytes.now }
    ensures unit { IfOk result (λ unit. BeginsWith bytes.now unit) }
    ensures bad { IfErr result (λ at. IsFirstBad bytes.now at) }
{
    match bytes[0] {
        1..=127 => Ok(u16::from(bytes[0])),
        192 => double_unit(bytes, 128),
        194..=223 => double_unit(bytes, 191),
        224 => triple_unit(bytes, 160),
        225..=239 => triple_unit(bytes, 128),
        _ => Err(0),
    }
}

/// The text that the bytes of a Utf8 constant spell (JVM Specification 4.4.7). U+0000 is C0 80, a supplementary
/// character is two surrogates of three bytes each, and every other overlong form, the byte 0 and the bytes F0 to FF
/// are refused. The offset in `BadUtf8` counts from the first of these bytes. What is given here `to_modified` gives
/// back.
pub fn from_modified(alloc: Global, bytes: &[u8]) -> Result<Text16, TextError>
    ensures found { IfOk result (λ text. IsSpelling bytes.now text) }
    ensures only { (units : List ℕ) → IsSpelling bytes.now units
        → IsUnless result (Ok units) TextError.NoMemory }
    ensures refused { (at : ℕ) → result ≡ Err (TextError.BadUtf8 at) → IsFirstBad bytes.now at }
    ensures first_bad { (at : ℕ) → IsFirstBad bytes.now at
        → IsUnless result (Err (TextError.BadUtf8 at)) TextError.NoMemory }
{
    let mut units = Vec::with_capacity(alloc, bytes.len())?;
    let mut at = 0;
    while at < bytes.len() {
        match front_unit(&bytes[at..]) {
            Ok(unit) => {
                units.push(unit)?;
                at += spelled_len(unit);
            }
            Err(good) => return Err(TextError::BadUtf8(at + good)),
        }
    }
    Ok(Text16::new(units))
}

/// The bytes of a text as a Utf8 constant has them (JVM Specification 4.4.7). They are the only ones from which
/// `from_modified` makes this text, surrogates without a partner included.
pub fn to_modified(alloc: Global, text: &Text16) -> Result<Vec<u8>, NoMemory>
    ensures spelled { IfOk result (λ bytes. bytes.items ≡ modified_utf8 text.now) }
    ensures units { IsUnits text.now }
{
    let units = text.units();
    let mut bytes = Vec::with_capacity(alloc, units.len())?;
    for unit in units {
        push_unit(&mut bytes, *unit)?;
    }
    Ok(bytes)
}

/// A law with nothing to run: two texts with the same bytes are one text.
pub fn spelling_is_one_to_one()
    ensures { (a b : List ℕ) → IsUnits a → IsUnits b → modified_utf8 a ≡ modified_utf8 b → a ≡ b }
{}
