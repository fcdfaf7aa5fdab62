//! What native methods read of arguments and objects, and what they may do. A rule tells an effect by what it reads;
//! effects are done in one place, so that a call that wants memory changes nothing.
#![tactic(auto)]

mod effects;
mod inputs;

pub use effects::answer::{Answer, Native};
pub use effects::carrying::carry_out;
pub use effects::effect::{
    NativeEffect, gives_boolean, gives_int, gives_long, gives_nothing, gives_reference, throws,
};
pub use effects::made::Made;
pub use inputs::arguments::{boolean_in, char_in, char_of, int_in, long_in, reference_in};
pub use inputs::kinds::{Kinds, is_instance};
pub use inputs::numbers::{
    BOOLEAN_KIND, CHARACTER_KIND, CHARS_KIND, CLONEABLE_KIND, ENUM_KIND,
    FIRST_REFERENCE_ARRAY_KIND, INTEGER_KIND, LONG_KIND, STRING_KIND, THROWABLE_KIND,
};
pub use inputs::parsing::{is_digit, is_true, parsed_int, parsed_long};
pub use inputs::places::{
    counted_range, place_in, place_of_character, range_from, range_in, small_place_in,
};
pub use inputs::printable::Printable;
pub use inputs::reading::{
    chars_at, chars_between, has_kind, int_field, kind_or_none, long_field, number_as_int,
    reference_field, size_at, text_at, values_at, values_between,
};
pub use inputs::shown::{argument_shown, is_null_array, unit_alone};
pub use inputs::texts::{
    begins_with, compared_texts, hash_of_text, same_units, text_of_boolean, text_of_int,
    text_of_long, units_joined, units_of,
};
