//! Conversions between the whole-number types (JVM Specification, SE 7, 2.11.4 and chapter 6).
ghost use Rattle.std.specs.Prelude.{◌≡◌};
ghost use Rattle.std.specs.Int.{w8, w16, w32, int_wrap};
ghost use Rattle.int_ops.specs.Arithmetic.{zero_extended};

/// `i2l`, which loses nothing.
pub fn i2l(a: i32) -> i64
    ensures { result ≡ a }
{
    i64::from(a)
}

/// `l2i`: the low 32 bits, with their sign.
#[tactic(auto, using(crate::proofs::Wrapping::low_parts))]
pub fn l2i(a: i64) -> i32
    ensures { result ≡ int_wrap w32 a }
{
    ((a.cast_unsigned() & 0xffff_ffff) as u32).cast_signed()
}

/// `i2b`: the low 8 bits, with their sign.
#[tactic(auto, using(crate::proofs::Wrapping::low_parts))]
pub fn i2b(a: i32) -> i32
    ensures { result ≡ int_wrap w8 a }
{
    i32::from(((a.cast_unsigned() & 0xff) as u8).cast_signed())
}

/// `i2c`: the low 16 bits, with zeros above them.
pub fn i2c(a: i32) -> i32
    ensures { result ≡ zero_extended w16 a }
{
    i32::from((a.cast_unsigned() & 0xffff) as u16)
}

/// `i2s`: the low 16 bits, with their sign.
#[tactic(auto, using(crate::proofs::Wrapping::low_parts))]
pub fn i2s(a: i32) -> i32
    ensures { result ≡ int_wrap w16 a }
{
    i32::from(((a.cast_unsigned() & 0xffff) as u16).cast_signed())
}
