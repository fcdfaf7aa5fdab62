//! java/lang/String.

ghost use Rattle.std.specs.Prelude.{◌≡◌, ◌≤◌, IfOk, IfSome, length, map, option_and_then, slice_get};
ghost use Rattle.native_effects.specs.Inputs.Objects.{text_at, size_at, chars_at};
ghost use Rattle.native_effects.specs.Inputs.Places.{place_in, range_in, range_from};
ghost use Rattle.heap_objects.specs.Cells.{char_datum};
ghost use Rattle.native_ops.specs.Classes.Strings.{init_text, init_chars, init_range, init_part, char_at, equals, compare_to, compare_to_object};
ghost use Rattle.native_ops.specs.Classes.Strings.{index_of, starts_with, concat, part_of, substring, substring_from, substring_to, to_char_array, value_of, string_effect};

use crate::methods::method::StringMethod;
use base_classes::{
    CLASS_CAST_EXCEPTION, NULL_POINTER_EXCEPTION, STRING_INDEX_OUT_OF_BOUNDS_EXCEPTION,
};
use heap_objects::{Datum, Heap};
use jf_bytes::{NoMemory, Seq};
use native_effects::{
    CHARS_KIND, NativeEffect, Printable, STRING_KIND, argument_shown, begins_with, chars_at,
    chars_between, compared_texts, counted_range, gives_boolean, gives_int, gives_reference,
    has_kind, hash_of_text, int_in, is_null_array, number_as_int, place_in, place_of_character,
    range_from, range_in, reference_in, same_units, size_at, text_at, throws, units_joined,
};
use std::alloc::Global;

/// <init>(S)V.
pub fn init_text(
    alloc: Global,
    object: u32,
    from: u32,
    heap: &Heap,
) -> Result<NativeEffect, NoMemory>
    ensures { IfOk result (λ e. e ≡ init_text object from heap.now) }
{
    if from == 0 {
        return Ok(throws(NULL_POINTER_EXCEPTION));
    }
    let units = Seq::from_slice(alloc, text_at(from, heap))?;
    Ok(NativeEffect::Replaces(object, units, None))
}

/// <init>([C)V.
fn init_chars(alloc: Global, object: u32, array: u32, heap: &Heap) -> Result<NativeEffect, NoMemory>
    ensures { IfOk result (λ e. e ≡ init_chars object array heap.now) }
{
    if array == 0 {
        return Ok(throws(NULL_POINTER_EXCEPTION));
    }
    let units = chars_at(alloc, array, heap)?;
    Ok(NativeEffect::Replaces(object, units, None))
}

/// The part of an array of char.
fn init_range(
    alloc: Global,
    object: u32,
    array: u32,
    range: Option<(usize, usize)>,
    heap: &Heap,
) -> Result<NativeEffect, NoMemory>
    requires { IfSome range (λ r. (r.0 ≤ r.1) × (r.1 ≤ size_at array heap.now)) }
    ensures { IfOk result (λ e. e ≡ init_range object (chars_at array heap.now) range) }
{
    let Some((from, to)) = range else {
        return Ok(throws(STRING_INDEX_OUT_OF_BOUNDS_EXCEPTION));
    };
    let part = chars_between(alloc, array, from, to, heap)?;
    Ok(NativeEffect::Replaces(object, part, None))
}

/// <init>([CII)V.
fn init_part(
    alloc: Global,
    object: u32,
    array: u32,
    from: i32,
    count: i32,
    heap: &Heap,
) -> Result<NativeEffect, NoMemory>
    ensures { IfOk result (λ e. e ≡ init_part object array from count heap.now) }
{
    if array == 0 {
        return Ok(throws(NULL_POINTER_EXCEPTION));
    }
    let range = counted_range(from, count, size_at(array, heap) as usize);
    init_range(alloc, object, array, range, heap)
}

/// The unit at a place.
fn unit_at(units: &[u16], place: i32) -> Option<u16>
    ensures { result ≡ option_and_then (slice_get units.now) (place_in place (length units.now)) }
{
    let place = place_in(place, units.len())?;
    units.get(place).copied()
}

/// charAt(I)C.
pub fn char_at(object: u32, place: i32, heap: &Heap) -> NativeEffect
    ensures { result ≡ char_at object place heap.now }
{
    match unit_at(text_at(object, heap), place) {
        Some(unit) => gives_int(i32::from(unit)),
        None => throws(STRING_INDEX_OUT_OF_BOUNDS_EXCEPTION),
    }
}

/// equals(O)Z.
fn equals(object: u32, other: u32, heap: &Heap) -> NativeEffect
    ensures { result ≡ equals object other heap.now }
{
    gives_boolean(
        has_kind(STRING_KIND, other, heap)
            && same_units(text_at(object, heap), text_at(other, heap)),
    )
}

/// compareTo(S)I.
fn compare_to(object: u32, other: u32, heap: &Heap) -> NativeEffect
    ensures { result ≡ compare_to object other heap.now }
{
    if other == 0 {
        return throws(NULL_POINTER_EXCEPTION);
    }
    gives_int(compared_texts(text_at(object, heap), text_at(other, heap)))
}

/// compareTo(O)I.
fn compare_to_object(object: u32, other: u32, heap: &Heap) -> NativeEffect
    ensures { result ≡ compare_to_object object other heap.now }
{
    if other == 0 {
        return throws(NULL_POINTER_EXCEPTION);
    }
    if !has_kind(STRING_KIND, other, heap) {
        return throws(CLASS_CAST_EXCEPTION);
    }
    gives_int(compared_texts(text_at(object, heap), text_at(other, heap)))
}

/// indexOf(I)I.
fn index_of(object: u32, character: i32, heap: &Heap) -> NativeEffect
    ensures { result ≡ index_of object character heap.now }
{
    match place_of_character(character, text_at(object, heap)) {
        Some(place) => gives_int(number_as_int(place)),
        None => gives_int(-1),
    }
}

/// startsWith(S)Z.
fn starts_with(object: u32, front: u32, heap: &Heap) -> NativeEffect
    ensures { result ≡ starts_with object front heap.now }
{
    if front == 0 {
        return throws(NULL_POINTER_EXCEPTION);
    }
    gives_boolean(begins_with(text_at(front, heap), text_at(object, heap)))
}

/// concat(S)S.
fn concat(alloc: Global, object: u32, other: u32, heap: &Heap) -> Result<NativeEffect, NoMemory>
    ensures { IfOk result (λ e. e ≡ concat object other heap.now) }
{
    if other == 0 {
        return Ok(throws(NULL_POINTER_EXCEPTION));
    }
    let added = text_at(other, heap);
    if added.is_empty() {
        return Ok(gives_reference(object));
    }
    Ok(NativeEffect::MakesText(units_joined(alloc, text_at(object, heap), added)?))
}

/// A part of a text, which is the text itself where it is the whole.
fn part_of(
    alloc: Global,
    object: u32,
    units: &[u16],
    range: (usize, usize),
) -> Result<NativeEffect, NoMemory>
    requires { (range.0 ≤ range.1) × (range.1 ≤ length units.now) }
    ensures { IfOk result (λ e. e ≡ part_of object units.now range) }
{
    let (from, to) = range;
    if from == 0 && to == units.len() {
        return Ok(gives_reference(object));
    }
    Ok(NativeEffect::MakesText(Seq::from_slice(alloc, &units[from..to])?))
}

/// substring(I)S and substring(II)S.
fn substring(
    alloc: Global,
    object: u32,
    units: &[u16],
    range: Option<(usize, usize)>,
) -> Result<NativeEffect, NoMemory>
    requires { IfSome range (λ r. (r.0 ≤ r.1) × (r.1 ≤ length units.now)) }
    ensures { IfOk result (λ e. e ≡ substring object units.now range) }
{
    match range {
        Some(range) => part_of(alloc, object, units, range),
        None => Ok(throws(STRING_INDEX_OUT_OF_BOUNDS_EXCEPTION)),
    }
}

/// Units as values.
fn values_of(alloc: Global, units: &[u16]) -> Result<Seq<Datum>, NoMemory>
    ensures { IfOk result (λ values. values ≡ map char_datum units.now) }
{
    let mut values = Seq::with_capacity(alloc, units.len())?;
    for unit in units {
        values.push(Datum::Int(i32::from(*unit)))?;
    }
    Ok(values)
}

/// toCharArray()[C.
fn to_char_array(alloc: Global, object: u32, heap: &Heap) -> Result<NativeEffect, NoMemory>
    ensures { IfOk result (λ e. e ≡ to_char_array object heap.now) }
{
    let values = values_of(alloc, text_at(object, heap))?;
    Ok(NativeEffect::MakesArray(CHARS_KIND, values))
}

/// valueOf.
fn value_of(
    alloc: Global,
    what: Printable,
    args: &[Datum],
    heap: &Heap,
) -> Result<NativeEffect, NoMemory>
    ensures { IfOk result (λ e. e ≡ value_of what args.now heap.now) }
{
    if is_null_array(what, 0, args) {
        return Ok(throws(NULL_POINTER_EXCEPTION));
    }
    Ok(NativeEffect::MakesText(argument_shown(alloc, what, 0, args, heap)?))
}

/// substring(I)S.
fn substring_from(
    alloc: Global,
    object: u32,
    from: i32,
    heap: &Heap,
) -> Result<NativeEffect, NoMemory>
    ensures { IfOk result (λ e. e ≡ substring_from object from heap.now) }
{
    let units = text_at(object, heap);
    substring(alloc, object, units, range_from(from, units.len()))
}

/// substring(II)S.
fn substring_to(
    alloc: Global,
    object: u32,
    from: i32,
    to: i32,
    heap: &Heap,
) -> Result<NativeEffect, NoMemory>
    ensures { IfOk result (λ e. e ≡ substring_to object from to heap.now) }
{
    let units = text_at(object, heap);
    substring(alloc, object, units, range_in(from, to, units.len()))
}

/// A text of its own with the units of an object.
pub fn own_units(alloc: Global, object: u32, heap: &Heap) -> Result<Seq<u16>, NoMemory>
    ensures { IfOk result (λ units. units ≡ text_at object heap.now) }
{
    Ok(Seq::from_slice(alloc, text_at(object, heap))?)
}

/// What a method does.
pub fn string_effect(
    alloc: Global,
    method: StringMethod,
    args: &[Datum],
    heap: &Heap,
) -> Result<NativeEffect, NoMemory>
    ensures { IfOk result (λ e. e ≡ string_effect method args.now heap.now) }
{
    let this = reference_in(args, 0);
    match method {
        StringMethod::Init => Ok(NativeEffect::Replaces(this, Seq::new(alloc), None)),
        StringMethod::InitText => init_text(alloc, this, reference_in(args, 1), heap),
        StringMethod::InitChars => init_chars(alloc, this, reference_in(args, 1), heap),
        StringMethod::InitPart => {
            let (from, count) = (int_in(args, 2), int_in(args, 3));
            init_part(alloc, this, reference_in(args, 1), from, count, heap)
        }
        StringMethod::Length => Ok(gives_int(number_as_int(size_at(this, heap) as usize))),
        StringMethod::CharAt => Ok(char_at(this, int_in(args, 1), heap)),
        StringMethod::IsEmpty => Ok(gives_boolean(size_at(this, heap) == 0)),
        StringMethod::Equals => Ok(equals(this, reference_in(args, 1), heap)),
        StringMethod::HashCode => Ok(gives_int(hash_of_text(text_at(this, heap)))),
        StringMethod::Same => Ok(gives_reference(this)),
        StringMethod::CompareTo => Ok(compare_to(this, reference_in(args, 1), heap)),
        StringMethod::CompareToObject => Ok(compare_to_object(this, reference_in(args, 1), heap)),
        StringMethod::Concat => concat(alloc, this, reference_in(args, 1), heap),
        StringMethod::SubstringFrom => substring_from(alloc, this, int_in(args, 1), heap),
        StringMethod::Substring => {
            substring_to(alloc, this, int_in(args, 1), int_in(args, 2), heap)
        }
        StringMethod::IndexOf => Ok(index_of(this, int_in(args, 1), heap)),
        StringMethod::StartsWith => Ok(starts_with(this, reference_in(args, 1), heap)),
        StringMethod::Intern => Ok(NativeEffect::Interns(own_units(alloc, this, heap)?)),
        StringMethod::ToCharArray => to_char_array(alloc, this, heap),
        StringMethod::ValueOf(what) => value_of(alloc, what, args, heap),
    }
}
