//! Laws that tie the single results together (JVM Specification, SE 7, chapter 6: `irem`, `lrem`,
//! `iushr` and `lushr`).
ghost use Rattle.std.specs.Prelude.{◌≡◌, ◌↔◌, pos, int_rem, IfSome, IsNone};
ghost use Rattle.std.specs.Int.{w32, w64, cast_unsigned, int_wrap};
ghost use Rattle.int_ops.specs.Arithmetic.{wrapped_sum, wrapped_product, wrapped_quotient, shifted_right, shifted_right_unsigned};

use crate::int::{div_i32, rem_i32, ushr_i32};
use crate::long::{div_i64, rem_i64, ushr_i64};

/// The quotient and the remainder, which give the dividend back. At `None` the instructions throw an
/// `ArithmeticException`.
#[tactic(auto, using(crate::proofs::Wrapping::divisions))]
pub fn div_rem_i32(a: i32, b: i32) -> Option<(i32, i32)>
    ensures none { IsNone result ↔ (b ≡ pos 0) }
    ensures quotient { IfSome result (λ p. p.0 ≡ wrapped_quotient w32 a b) }
    ensures remainder { IfSome result (λ p. p.1 ≡ int_rem a b) }
    ensures dividend { IfSome result (λ p. a ≡ wrapped_sum w32 (wrapped_product w32 p.0 b) p.1) }
{
    Some((div_i32(a, b)?, rem_i32(a, b)?))
}

/// The quotient and the remainder, which give the dividend back. At `None` the instructions throw an
/// `ArithmeticException`.
#[tactic(auto, using(crate::proofs::Wrapping::divisions))]
pub fn div_rem_i64(a: i64, b: i64) -> Option<(i64, i64)>
    ensures none { IsNone result ↔ (b ≡ pos 0) }
    ensures quotient { IfSome result (λ p. p.0 ≡ wrapped_quotient w64 a b) }
    ensures remainder { IfSome result (λ p. p.1 ≡ int_rem a b) }
    ensures dividend { IfSome result (λ p. a ≡ wrapped_sum w64 (wrapped_product w64 p.0 b) p.1) }
{
    Some((div_i64(a, b)?, rem_i64(a, b)?))
}

/// The unsigned shift, which is the signed one of the unsigned value.
#[tactic(auto, using(crate::proofs::Wrapping::unsigned_shifts))]
pub fn shr_unsigned_i32(a: i32, n: i32) -> i32
    ensures unsigned { result ≡ shifted_right_unsigned w32 a n }
    ensures signed { result ≡ int_wrap w32 (shifted_right w32 (pos (cast_unsigned w32 a)) n) }
{
    ushr_i32(a, n)
}

/// The unsigned shift, which is the signed one of the unsigned value.
#[tactic(auto, using(crate::proofs::Wrapping::unsigned_shifts))]
pub fn shr_unsigned_i64(a: i64, n: i32) -> i64
    ensures unsigned { result ≡ shifted_right_unsigned w64 a n }
    ensures signed { result ≡ int_wrap w64 (shifted_right w64 (pos (cast_unsigned w64 a)) n) }
{
    ushr_i64(a, n)
}
