//! What rules read of objects.

ghost use Rattle.std.specs.Prelude.{◌≡◌, ◌≤◌, IfOk, slice_get};
ghost use Rattle.native_effects.specs.Inputs.Objects.{text_at, size_at, kind_or_none, has_kind, values_at, chars_at, char_in_datum, number_as_int};
ghost use Rattle.native_effects.specs.Inputs.Places.{between};
ghost use Rattle.native_effects.specs.Inputs.Objects.{int_field, long_field, reference_field};

use crate::inputs::arguments::char_of;
use heap_objects::{Datum, Heap};
use jf_bytes::{NoMemory, Seq};
use std::alloc::Global;

/// The units of a text.
pub fn text_at(object: u32, heap: &Heap) -> &[u16]
    ensures { result.now ≡ text_at object heap.now }
{
    heap.units(object).unwrap_or(&[])
}

/// How many units or elements an object has.
pub fn size_at(object: u32, heap: &Heap) -> u32
    ensures { result ≡ size_at object heap.now }
{
    heap.len(object).unwrap_or(0)
}

/// An object's kind, and 0, which is none, where there is no object.
pub fn kind_or_none(object: u32, heap: &Heap) -> u32
    ensures { result ≡ kind_or_none object heap.now }
{
    heap.kind(object).unwrap_or(0)
}

/// Whether an object is of a kind.
pub fn has_kind(kind: u32, object: u32, heap: &Heap) -> bool
    ensures { result ≡ has_kind kind object heap.now }
{
    match heap.kind(object) {
        Some(own) => own == kind,
        None => false,
    }
}

/// A number of an object, a size or a place as an int.
pub fn number_as_int(n: usize) -> i32
    ensures { result ≡ number_as_int n }
{
    ((n % 4294967296) as u32).cast_signed()
}

/// A field that is an int.
pub fn int_field(object: u32, slot: u32, heap: &Heap) -> i32
    ensures { result ≡ int_field object slot heap.now }
{
    match heap.get(object, slot) {
        Some(Datum::Int(n)) => n,
        Some(Datum::Long(_)) => 0,
        Some(Datum::Ref(_)) => 0,
        None => 0,
    }
}

/// A field that is a long.
pub fn long_field(object: u32, slot: u32, heap: &Heap) -> i64
    ensures { result ≡ long_field object slot heap.now }
{
    match heap.get(object, slot) {
        Some(Datum::Int(_)) => 0,
        Some(Datum::Long(n)) => n,
        Some(Datum::Ref(_)) => 0,
        None => 0,
    }
}

/// A field that is a reference.
pub fn reference_field(object: u32, slot: u32, heap: &Heap) -> u32
    ensures { result ≡ reference_field object slot heap.now }
{
    match heap.get(object, slot) {
        Some(Datum::Int(_)) => 0,
        Some(Datum::Long(_)) => 0,
        Some(Datum::Ref(r)) => r,
        None => 0,
    }
}

/// A field or an element.
#[tactic(auto, using(crate::proofs::ObjectLemmas::reads))]
fn value_at(object: u32, slot: u32, heap: &Heap) -> Option<Datum>
    ensures { result ≡ slice_get (values_at object heap.now) slot }
{
    heap.get(object, slot)
}

/// The values of an object's fields or elements.
pub fn values_at(alloc: Global, object: u32, heap: &Heap) -> Result<Seq<Datum>, NoMemory>
    ensures { IfOk result (λ values. values ≡ values_at object heap.now) }
{
    let size = size_at(object, heap);
    let mut values = Seq::with_capacity(alloc, size as usize)?;
    for slot in 0..size {
        let Some(value) = value_at(object, slot, heap) else {
            return Ok(values);
        };
        values.push(value)?;
    }
    Ok(values)
}

/// The values of an object's fields or elements from one place to another.
pub fn values_between(
    alloc: Global,
    object: u32,
    from: usize,
    to: usize,
    heap: &Heap,
) -> Result<Seq<Datum>, NoMemory>
    requires order { from ≤ to }
    requires within { to ≤ size_at object heap.now }
    ensures { IfOk result (λ values. values ≡ between from to (values_at object heap.now)) }
{
    let mut values = Seq::with_capacity(alloc, to - from)?;
    // Read so that it is known that the size has 32 bits, and with it each slot.
    let _size = size_at(object, heap);
    for slot in from..to {
        let Some(value) = value_at(object, slot as u32, heap) else {
            return Ok(values);
        };
        values.push(value)?;
    }
    Ok(values)
}

/// The unit that a value stands for where a char is wanted.
fn char_in_datum(value: Datum) -> u16
    ensures { result ≡ char_in_datum value }
{
    match value {
        Datum::Int(n) => char_of(n),
        Datum::Long(_) => 0,
        Datum::Ref(_) => 0,
    }
}

/// A unit in an array of char.
#[tactic(auto, using(crate::proofs::ObjectLemmas::char_is))]
fn char_at(object: u32, slot: u32, heap: &Heap) -> Option<u16>
    ensures { result ≡ slice_get (chars_at object heap.now) slot }
{
    Some(char_in_datum(value_at(object, slot, heap)?))
}

/// The units in an array of char from one place to another.
pub fn chars_between(
    alloc: Global,
    object: u32,
    from: usize,
    to: usize,
    heap: &Heap,
) -> Result<Seq<u16>, NoMemory>
    requires order { from ≤ to }
    requires within { to ≤ size_at object heap.now }
    ensures { IfOk result (λ units. units ≡ between from to (chars_at object heap.now)) }
{
    let mut units = Seq::with_capacity(alloc, to - from)?;
    // Read so that it is known that the size has 32 bits, and with it each slot.
    let _size = size_at(object, heap);
    for slot in from..to {
        let Some(unit) = char_at(object, slot as u32, heap) else {
            return Ok(units);
        };
        units.push(unit)?;
    }
    Ok(units)
}

/// The units in an array of char.
#[tactic(auto, using(crate::proofs::ObjectLemmas::chars_whole))]
pub fn chars_at(alloc: Global, object: u32, heap: &Heap) -> Result<Seq<u16>, NoMemory>
    ensures { IfOk result (λ units. units ≡ chars_at object heap.now) }
{
    let size = size_at(object, heap);
    chars_between(alloc, object, 0, size as usize, heap)
}
