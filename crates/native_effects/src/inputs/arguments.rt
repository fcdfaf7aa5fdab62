//! The arguments of a native method.

ghost use Rattle.std.specs.Prelude.{◌≡◌};
ghost use Rattle.native_effects.specs.Inputs.Arguments.{int_in, long_in, reference_in, char_of, boolean_of, char_in, boolean_in};

use heap_objects::Datum;

/// The int at a place.
pub fn int_in(args: &[Datum], place: usize) -> i32
    ensures { result ≡ int_in args.now place }
{
    match args.get(place) {
        Some(Datum::Int(n)) => *n,
        Some(Datum::Long(_)) => 0,
        Some(Datum::Ref(_)) => 0,
        None => 0,
    }
}

/// The long at a place.
pub fn long_in(args: &[Datum], place: usize) -> i64
    ensures { result ≡ long_in args.now place }
{
    match args.get(place) {
        Some(Datum::Int(_)) => 0,
        Some(Datum::Long(n)) => *n,
        Some(Datum::Ref(_)) => 0,
        None => 0,
    }
}

/// The reference at a place.
pub fn reference_in(args: &[Datum], place: usize) -> u32
    ensures { result ≡ reference_in args.now place }
{
    match args.get(place) {
        Some(Datum::Int(_)) => 0,
        Some(Datum::Long(_)) => 0,
        Some(Datum::Ref(r)) => *r,
        None => 0,
    }
}

/// The unit that an int stands for where a char is wanted.
pub fn char_of(n: i32) -> u16
    ensures { result ≡ char_of n }
{
    (n.cast_unsigned() % 65536) as u16
}

/// What an int stands for where a boolean is wanted.
pub fn boolean_of(n: i32) -> bool
    ensures { result ≡ boolean_of n }
{
    n.cast_unsigned() % 2 == 1
}

/// The char at a place.
pub fn char_in(args: &[Datum], place: usize) -> u16
    ensures { result ≡ char_in args.now place }
{
    char_of(int_in(args, place))
}

/// The boolean at a place.
pub fn boolean_in(args: &[Datum], place: usize) -> bool
    ensures { result ≡ boolean_in args.now place }
{
    boolean_of(int_in(args, place))
}
