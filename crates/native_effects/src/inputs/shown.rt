//! Arguments as texts.

ghost use Rattle.std.specs.Prelude.{◌≡◌, ◌∷◌, [], IfOk};
ghost use Rattle.native_effects.specs.Inputs.Shown.{is_null_array, argument_shown};

use crate::inputs::arguments::{boolean_in, char_in, int_in, long_in, reference_in};
use crate::inputs::printable::Printable;
use crate::inputs::reading::chars_at;
use crate::inputs::texts::{text_of_boolean, text_of_int, text_of_long, text_or_null};
use heap_objects::{Datum, Heap};
use jf_bytes::{NoMemory, Seq};
use std::alloc::Global;

/// Whether the argument is an array that is null, which has no text.
pub fn is_null_array(what: Printable, place: usize, args: &[Datum]) -> bool
    ensures { result ≡ is_null_array what place args.now }
{
    match what {
        Printable::Boolean => false,
        Printable::Char => false,
        Printable::Int => false,
        Printable::Long => false,
        Printable::Text => false,
        Printable::Chars => reference_in(args, place) == 0,
    }
}

/// One unit.
pub fn unit_alone(alloc: Global, unit: u16) -> Result<Seq<u16>, NoMemory>
    ensures { IfOk result (λ units. units ≡ unit ∷ []) }
{
    let mut units = Seq::new(alloc);
    units.push(unit)?;
    Ok(units)
}

/// What is made of an argument of a type.
pub fn argument_shown(
    alloc: Global,
    what: Printable,
    place: usize,
    args: &[Datum],
    heap: &Heap,
) -> Result<Seq<u16>, NoMemory>
    ensures { IfOk result (λ units. units ≡ argument_shown what place args.now heap.now) }
{
    match what {
        Printable::Boolean => text_of_boolean(alloc, boolean_in(args, place)),
        Printable::Char => unit_alone(alloc, char_in(args, place)),
        Printable::Int => text_of_int(alloc, int_in(args, place)),
        Printable::Long => text_of_long(alloc, long_in(args, place)),
        Printable::Text => text_or_null(alloc, reference_in(args, place), heap),
        Printable::Chars => chars_at(alloc, reference_in(args, place), heap),
    }
}
