//! What is made of the heap.

ghost use Rattle.std.specs.Prelude.{◌≡◌, IfOk, Some, None, is_ok, is_some, slice_get};
ghost use Rattle.heap_objects.specs.Changes.{changed_if};
ghost use Rattle.native_effects.specs.Effects.Making.{answer_of_text, heap_with_text, answer_of_instance, heap_with_instance};
ghost use Rattle.native_effects.specs.Effects.Making.{with_values, with_fields, answer_of_array, heap_with_array};
ghost use Rattle.native_effects.specs.Effects.Making.{answer_of_append, heap_with_append, answer_of_replace, heap_with_replace};
ghost use Rattle.native_effects.specs.Effects.Making.{answer_of_unit, heap_with_unit, units_resized, answer_of_resize, heap_with_resize, answer_of_intern, heap_with_interned};
ghost use Rattle.native_effects.specs.Effects.Making.{object_answer, change_answer};

use crate::effects::answer::Answer;
use crate::inputs::numbers::STRING_KIND;
use crate::inputs::reading::{size_at, text_at};
use base_classes::OUT_OF_MEMORY_ERROR;
use heap_objects::{Datum, Heap, HeapError};
use jf_bytes::{NoMemory, Seq};
use std::alloc::Global;

/// The answer where an object was made or found.
pub fn object_answer(made: Result<u32, HeapError>) -> Result<Answer, NoMemory>
    ensures answer { IfOk result (λ a. Some a ≡ object_answer made) }
    ensures done { is_ok result ≡ is_some (object_answer made) }
{
    match made {
        Ok(object) => Ok(Answer::Value(Some(Datum::Ref(object)))),
        Err(HeapError::HeapFull) => Ok(Answer::Throws(OUT_OF_MEMORY_ERROR)),
        Err(HeapError::NoMemory) => Err(NoMemory),
    }
}

/// The answer where something was changed.
fn change_answer(changed: Result<(), HeapError>, value: Option<Datum>) -> Result<Answer, NoMemory>
    ensures answer { IfOk result (λ a. Some a ≡ change_answer changed value) }
    ensures done { is_ok result ≡ is_some (change_answer changed value) }
{
    match changed {
        Ok(()) => Ok(Answer::Value(value)),
        Err(HeapError::HeapFull) => Ok(Answer::Throws(OUT_OF_MEMORY_ERROR)),
        Err(HeapError::NoMemory) => Err(NoMemory),
    }
}

/// A new String.
pub fn make_text(units: Seq<u16>, heap: &mut Heap) -> Result<Answer, NoMemory>
    ensures answer { IfOk result (λ a. a ≡ answer_of_text units heap.old) }
    ensures heap { heap.new ≡ changed_if (is_ok result) (heap_with_text units) heap.old }
{
    object_answer(heap.own_text(STRING_KIND, units))
}

/// A new instance.
pub fn make_instance(kind: u32, fields: &[Datum], heap: &mut Heap) -> Result<Answer, NoMemory>
    ensures answer { IfOk result (λ a. a ≡ answer_of_instance fields.now heap.old) }
    ensures heap { heap.new
        ≡ changed_if (is_ok result) (heap_with_instance kind fields.now) heap.old }
{
    object_answer(heap.instance(kind, fields))
}

/// A value of a list.
fn value_in(values: &[Datum], place: usize) -> Option<Datum>
    ensures { result ≡ slice_get values.now place }
{
    values.get(place).copied()
}

/// Puts values into the slots of an object from one on, as far as there are any.
pub fn put_values(object: u32, slot: usize, values: &[Datum], heap: &mut Heap)
    ensures { heap.new ≡ with_values object slot values.now heap.old }
{
    let mut next = slot;
    for place in 0..values.len() {
        let Some(value) = value_in(values, place) else {
            return;
        };
        if next >= size_at(object, heap) as usize {
            return;
        }
        let _ = heap.put(object, next as u32, value);
        next += 1;
    }
}

/// Sets the first two fields of an object.
pub fn put_fields(object: u32, first: Datum, second: Datum, heap: &mut Heap)
    ensures { heap.new ≡ with_fields object first second heap.old }
{
    let _ = heap.put(object, 0, first);
    let _ = heap.put(object, 1, second);
}

/// A new array with these values.
pub fn make_array(kind: u32, values: &[Datum], heap: &mut Heap) -> Result<Answer, NoMemory>
    ensures answer { IfOk result (λ a. a ≡ answer_of_array values.now heap.old) }
    ensures heap { heap.new
        ≡ changed_if (is_ok result) (heap_with_array kind values.now) heap.old }
{
    if !heap.has_room(1 + values.len()) {
        return Ok(Answer::Throws(OUT_OF_MEMORY_ERROR));
    }
    // A heap has fewer than 2^32 slots, so that what there is room for has fewer values.
    let _limit = heap.limit();
    let Ok(size) = u32::try_from(values.len()) else {
        unreachable!()
    };
    let made = heap.array(kind, Datum::Int(0), size);
    if let Ok(object) = made {
        put_values(object, 0, values, heap);
    }
    object_answer(made)
}

/// Adds units to a text.
pub fn append(object: u32, units: &[u16], heap: &mut Heap) -> Result<Answer, NoMemory>
    ensures answer { IfOk result (λ a. a ≡ answer_of_append object units.now heap.old) }
    ensures heap { heap.new
        ≡ changed_if (is_ok result) (heap_with_append object units.now) heap.old }
{
    if heap.units(object).is_none() {
        return Ok(Answer::Bad);
    }
    change_answer(heap.append(object, units), Some(Datum::Ref(object)))
}

/// Gives a text units in place of its own.
pub fn replace(
    object: u32,
    units: Seq<u16>,
    value: Option<Datum>,
    heap: &mut Heap,
) -> Result<Answer, NoMemory>
    ensures answer { IfOk result (λ a. a ≡ answer_of_replace object units value heap.old) }
    ensures heap { heap.new
        ≡ changed_if (is_ok result) (heap_with_replace object units) heap.old }
{
    if heap.units(object).is_none() {
        return Ok(Answer::Bad);
    }
    change_answer(heap.replace(object, units), value)
}

/// Puts a unit at a place of a text.
pub fn put_unit(object: u32, at: u32, unit: u16, heap: &mut Heap) -> Answer
    ensures answer { result ≡ answer_of_unit object at heap.old }
    ensures heap { heap.new ≡ heap_with_unit object at unit heap.old }
{
    if heap.put_unit(object, at, unit) {
        Answer::Value(None)
    } else {
        Answer::Bad
    }
}

/// The first so many units, with units of 0 behind them where there are fewer.
fn units_resized(alloc: Global, size: usize, units: &[u16]) -> Result<Seq<u16>, NoMemory>
    ensures { IfOk result (λ r. r ≡ units_resized size units.now) }
{
    let kept = size.min(units.len());
    let mut made = Seq::with_capacity(alloc, size)?;
    made.extend_from_slice(&units[..kept])?;
    for _ in kept..size {
        made.push(0)?;
    }
    Ok(made)
}

/// Cuts a text, or adds units of 0, until it has so many.
pub fn resize(alloc: Global, object: u32, size: u32, heap: &mut Heap) -> Result<Answer, NoMemory>
    ensures answer { IfOk result (λ a. a ≡ answer_of_resize object size heap.old) }
    ensures heap { heap.new ≡ changed_if (is_ok result) (heap_with_resize object size) heap.old }
{
    if heap.units(object).is_none() {
        return Ok(Answer::Bad);
    }
    if !heap.has_room(size.saturating_sub(size_at(object, heap)) as usize) {
        return Ok(Answer::Throws(OUT_OF_MEMORY_ERROR));
    }
    let units = units_resized(alloc, size as usize, text_at(object, heap))?;
    replace(object, units, None, heap)
}

/// The text that units are interned as.
pub fn intern(units: &[u16], heap: &mut Heap) -> Result<Answer, NoMemory>
    ensures answer { IfOk result (λ a. a ≡ answer_of_intern units.now heap.old) }
    ensures heap { heap.new ≡ changed_if (is_ok result) (heap_with_interned units.now) heap.old }
{
    object_answer(heap.intern(STRING_KIND, units))
}
