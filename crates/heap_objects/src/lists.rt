//! Changes of one object of a list, by its place, and a last one.

ghost use Rattle.std.specs.Prelude.{◌≡◌, ◌<◌, ◌≤◌, ◌+◌, ◌++◌, ◌∷◌, [], false, length, slice_get, is_ok};
ghost use Rattle.std.specs.Option.{option_copied, option_map_or};
ghost use Rattle.std.specs.Vec.{vec_len, vec_capacity};
ghost use Rattle.heap_objects.specs.Changes.{changed_if};
ghost use Rattle.heap_objects.specs.Objects.{has_slot, has_unit, total_cost, growth_in};
ghost use Rattle.heap_objects.specs.Objects.{with_slot_in, with_unit_in, with_units_in, with_more_units_in};

use crate::datum::Datum;
use crate::object::Object;
use jf_bytes::{NoMemory, Seq};

/// Puts an item behind the others, where there is room.
pub fn put_last<T: Drop>(items: &mut Vec<T>, item: T)
    requires { vec_len items.old < vec_capacity items.old }
    ensures { items.new.items ≡ items.old.items ++ item ∷ [] }
{
    let _ = items.push(item);
}

/// The object at a place, where there is one.
#[inline(always)]
pub fn item_at(objects: &[Object], place: usize) -> Option<&Object>
    ensures { option_copied result ≡ slice_get objects.now place }
{
    objects.get(place)
}

/// Puts a value into a slot of an object. False, with nothing changed, where there is no such object or slot.
#[inline(always)]
pub fn put_at(objects: &mut [Object], place: usize, slot: usize, value: Datum) -> bool
    ensures answer { result ≡ option_map_or (has_slot slot) (slice_get objects.old place) false }
    ensures objects { objects.new ≡ changed_if result (with_slot_in place slot value) objects.old }
    ensures cost { total_cost objects.new ≡ total_cost objects.old }
{
    if place >= objects.len() {
        return false;
    }
    objects[place].put(slot, value)
}

/// Puts a unit at a place of a text. False, with nothing changed, where there is no such text or place.
pub fn put_unit_at(objects: &mut [Object], place: usize, at: usize, unit: u16) -> bool
    ensures answer { result ≡ option_map_or (has_unit at) (slice_get objects.old place) false }
    ensures objects { objects.new
        ≡ changed_if result (with_unit_in place at unit) objects.old }
    ensures cost { total_cost objects.new ≡ total_cost objects.old }
{
    if place >= objects.len() {
        return false;
    }
    objects[place].put_unit(at, unit)
}

/// Adds units at the end of a text. An Err changes nothing.
pub fn append_at(objects: &mut [Object], place: usize, units: &[u16]) -> Result<(), NoMemory>
    requires { place < length objects.old }
    ensures objects { objects.new
        ≡ changed_if (is_ok result) (with_more_units_in place units.now) objects.old }
    ensures cost { total_cost objects.new ≤ total_cost objects.old + length units.now }
{
    objects[place].append(units)?;
    Ok(())
}

/// Gives a text other units.
pub fn replace_at(objects: &mut [Object], place: usize, units: Seq<u16>)
    requires { place < length objects.old }
    ensures objects { objects.new ≡ with_units_in place units objects.old }
    ensures cost { total_cost objects.new
        ≤ total_cost objects.old + growth_in place units objects.old }
{
    objects[place].replace(units);
}
