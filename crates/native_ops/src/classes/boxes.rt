//! What the classes of single values have in common.

ghost use Rattle.std.specs.Prelude.{◌≡◌, IfOk};
ghost use Rattle.native_ops.specs.Classes.Boxes.{small_place, char_place, box_of, gives_parsed_int, gives_parsed_long, compared_if};

use base_classes::{CLASS_CAST_EXCEPTION, NULL_POINTER_EXCEPTION, NUMBER_FORMAT_EXCEPTION};
use heap_objects::Datum;
use jf_bytes::{NoMemory, Seq};
use native_effects::{NativeEffect, gives_int, gives_long, throws};
use std::alloc::Global;

/// The place of a value among those whose box is made once.
pub fn small_place(value: i64) -> Option<u32>
    ensures { result ≡ small_place value }
{
    if value < -128 || value > 127 {
        return None;
    }
    Some((value + 128) as u32)
}

/// The place of a char among those whose box is made once.
pub fn char_place(value: u16) -> Option<u32>
    ensures { result ≡ char_place value }
{
    if value <= 127 {
        Some(u32::from(value))
    } else {
        None
    }
}

/// The box that is made once for the value at this place, or a new one.
pub fn box_of(
    alloc: Global,
    kind: u32,
    place: Option<u32>,
    value: Datum,
) -> Result<NativeEffect, NoMemory>
    ensures { IfOk result (λ e. e ≡ box_of kind place value) }
{
    if let Some(place) = place {
        return Ok(NativeEffect::GivesBox(kind, place, value));
    }
    let mut fields = Seq::new(alloc);
    fields.push(value)?;
    Ok(NativeEffect::MakesInstance(kind, fields))
}

/// The int that was read.
pub fn gives_parsed_int(number: Option<i32>) -> NativeEffect
    ensures { result ≡ gives_parsed_int number }
{
    match number {
        Some(number) => gives_int(number),
        None => throws(NUMBER_FORMAT_EXCEPTION),
    }
}

/// The long that was read.
pub fn gives_parsed_long(number: Option<i64>) -> NativeEffect
    ensures { result ≡ gives_parsed_long number }
{
    match number {
        Some(number) => gives_long(number),
        None => throws(NUMBER_FORMAT_EXCEPTION),
    }
}

/// What compareTo gives, where the argument is a box of the class.
pub fn compared_if(other: u32, same: bool, comparison: i32) -> NativeEffect
    ensures { result ≡ compared_if other same comparison }
{
    if other == 0 {
        return throws(NULL_POINTER_EXCEPTION);
    }
    if same {
        gives_int(comparison)
    } else {
        throws(CLASS_CAST_EXCEPTION)
    }
}
