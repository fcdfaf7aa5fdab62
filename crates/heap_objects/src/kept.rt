//! What an array keeps of a value that is put into it.

ghost use Rattle.std.specs.Prelude.{◌≡◌, ◌%◌, pos, if◌then◌else◌};
ghost use Rattle.std.specs.Int.{w8, w16, w32, cast_unsigned, int_wrap};
ghost use Rattle.int_ops.specs.Arithmetic.{zero_extended};
ghost use Rattle.heap_objects.specs.Kept.{int_of, long_of, reference_of};

use crate::datum::Datum;

/// The int of a value, or 0 where it is of another sort.
pub fn int_of(value: Datum) -> i32
    ensures { result ≡ int_of value }
{
    match value {
        Datum::Int(n) => n,
        _ => 0,
    }
}

/// The long of a value, or 0 where it is of another sort.
pub fn long_of(value: Datum) -> i64
    ensures { result ≡ long_of value }
{
    match value {
        Datum::Long(n) => n,
        _ => 0,
    }
}

/// The reference of a value, or null where it is of another sort.
pub fn reference_of(value: Datum) -> u32
    ensures { result ≡ reference_of value }
{
    match value {
        Datum::Ref(object) => object,
        _ => 0,
    }
}

/// What an array of booleans keeps: the lowest bit.
pub fn lowest_bit(n: i32) -> bool
    ensures { (if result then pos 1 else pos 0) ≡ pos (cast_unsigned w32 n % 2) }
{
    n.cast_unsigned() % 2 == 1
}

/// What an array of chars keeps: the low 16 bits.
pub fn low_char(n: i32) -> u16
    ensures { pos result ≡ zero_extended w16 n }
{
    (n.cast_unsigned() & 0xffff) as u16
}

/// What an array of bytes keeps: the low 8 bits, with their sign.
#[tactic(auto, using(int_ops::proofs::Wrapping::low_parts))]
pub fn low_byte(n: i32) -> i8
    ensures { result ≡ int_wrap w8 n }
{
    ((n.cast_unsigned() & 0xff) as u8).cast_signed()
}

/// What an array of shorts keeps: the low 16 bits, with their sign.
#[tactic(auto, using(int_ops::proofs::Wrapping::low_parts))]
pub fn low_short(n: i32) -> i16
    ensures { result ≡ int_wrap w16 n }
{
    ((n.cast_unsigned() & 0xffff) as u16).cast_signed()
}
