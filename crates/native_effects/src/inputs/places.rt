//! Places in a text or an array.

ghost use Rattle.std.specs.Prelude.{◌≡◌, ◌==◌, ◌<◌};
ghost use Rattle.std.specs.List.{position_from};
ghost use Rattle.native_effects.specs.Inputs.Places.{place_in, range_in, range_from, counted_range, pair_from, place_of_character};

/// The place, where it is one of so many.
pub fn place_in(place: i32, size: usize) -> Option<usize>
    ensures { result ≡ place_in place size }
{
    if place < 0 {
        return None;
    }
    let place = place.cast_unsigned() as usize;
    if place < size { Some(place) } else { None }
}

/// The same, as a number of 32 bits.
pub fn small_place_in(place: i32, size: usize) -> Option<u32>
    ensures { result ≡ place_in place size }
{
    if place < 0 {
        return None;
    }
    let place = place.cast_unsigned();
    if (place as usize) < size {
        Some(place)
    } else {
        None
    }
}

/// From one place to another, where both are of so many or its end, and in this order.
pub fn range_in(from: i32, to: i32, size: usize) -> Option<(usize, usize)>
    ensures { result ≡ range_in from to size }
{
    if from < 0 || to < 0 {
        return None;
    }
    let (from, to) = (from.cast_unsigned() as usize, to.cast_unsigned() as usize);
    if from <= to && to <= size {
        Some((from, to))
    } else {
        None
    }
}

/// From one place to the end.
pub fn range_from(from: i32, size: usize) -> Option<(usize, usize)>
    ensures { result ≡ range_from from size }
{
    if from < 0 {
        return None;
    }
    let from = from.cast_unsigned() as usize;
    if from <= size {
        Some((from, size))
    } else {
        None
    }
}

/// So many from one place on, where they are within so many.
pub fn counted_range(from: i32, count: i32, size: usize) -> Option<(usize, usize)>
    ensures { result ≡ counted_range from count size }
{
    if from < 0 || count < 0 {
        return None;
    }
    let from = from.cast_unsigned() as usize;
    let to = from + count.cast_unsigned() as usize;
    if to <= size { Some((from, to)) } else { None }
}

/// The place of a unit.
fn place_of_unit(unit: u16, units: &[u16]) -> Option<usize>
    ensures { result ≡ position_from (λ u. u == unit) 0 units.now }
{
    units.iter().position(|u| *u == unit)
}

/// The place of two units that stand side by side.
fn place_of_pair(first: u16, second: u16, units: &[u16]) -> Option<usize>
    ensures { result ≡ pair_from first second 0 units.now }
{
    let mut place = 0;
    while units.len() - place >= 2 {
        if units[place] == first && units[place + 1] == second {
            return Some(place);
        }
        place += 1;
    }
    None
}

/// The place of the first unit or pair of units that a number is the character of.
pub fn place_of_character(character: i32, units: &[u16]) -> Option<usize>
    ensures { result ≡ place_of_character character units.now }
{
    if character < 0 {
        return None;
    }
    let character = character.cast_unsigned();
    if character < 65536 {
        return place_of_unit(character as u16, units);
    }
    if character >= 1114112 {
        return None;
    }
    let above = character - 65536;
    place_of_pair(
        (55296 + above / 1024) as u16,
        (56320 + above % 1024) as u16,
        units,
    )
}
