//! Arithmetic on `long`: the instructions `ladd` to `lxor` (JVM Specification, SE 7, chapter 6).
ghost use Rattle.std.specs.Prelude.{◌≡◌, ◌↔◌, pos, negsuc, int_rem, IfSome, IsNone, Some};
ghost use Rattle.std.specs.Int.{w64, int_bit_and, int_bit_or, int_bit_xor};
ghost use Rattle.int_ops.specs.Arithmetic.{wrapped_sum, wrapped_difference, wrapped_product, wrapped_negation, wrapped_quotient, least_value, shifted_left, shifted_right, shifted_right_unsigned, comparison};

use std::cmp::Ordering;

/// `ladd`.
#[tactic(auto, using(std::proofs::lemmas::Int::wraps))]
pub fn add_i64(a: i64, b: i64) -> i64
    ensures { result ≡ wrapped_sum w64 a b }
{
    a.wrapping_add(b)
}

/// `lsub`.
#[tactic(auto, using(std::proofs::lemmas::Int::wraps))]
pub fn sub_i64(a: i64, b: i64) -> i64
    ensures { result ≡ wrapped_difference w64 a b }
{
    a.wrapping_sub(b)
}

/// `lmul`.
pub fn mul_i64(a: i64, b: i64) -> i64
    ensures { result ≡ wrapped_product w64 a b }
{
    a.wrapping_mul(b)
}

/// `land`.
pub fn and_i64(a: i64, b: i64) -> i64
    ensures { result ≡ int_bit_and w64 a b }
{
    a & b
}

/// `lor`.
pub fn or_i64(a: i64, b: i64) -> i64
    ensures { result ≡ int_bit_or w64 a b }
{
    a | b
}

/// `lxor`.
pub fn xor_i64(a: i64, b: i64) -> i64
    ensures { result ≡ int_bit_xor w64 a b }
{
    a ^ b
}

/// `lneg`. The least value is its own negation.
#[tactic(auto, using(std::proofs::lemmas::Int::wraps))]
pub fn neg_i64(a: i64) -> i64
    ensures { result ≡ wrapped_negation w64 a }
{
    a.wrapping_neg()
}

/// `ldiv`. At `None` the instruction throws an `ArithmeticException`.
#[tactic(auto, using(crate::proofs::Wrapping::quotients))]
pub fn div_i64(a: i64, b: i64) -> Option<i64>
    ensures none { IsNone result ↔ (b ≡ pos 0) }
    ensures value { IfSome result (λ q. q ≡ wrapped_quotient w64 a b) }
    ensures least { a ≡ least_value w64 → b ≡ negsuc 0 → result ≡ Some a }
{
    if b == 0 {
        None
    } else {
        Some(a.wrapping_div(b))
    }
}

/// `lrem`. At `None` the instruction throws an `ArithmeticException`.
pub fn rem_i64(a: i64, b: i64) -> Option<i64>
    ensures none { IsNone result ↔ (b ≡ pos 0) }
    ensures value { IfSome result (λ r. r ≡ int_rem a b) }
    ensures least { a ≡ least_value w64 → b ≡ negsuc 0 → result ≡ Some (pos 0) }
{
    if b == 0 {
        None
    } else {
        Some(a.wrapping_rem(b))
    }
}

/// `lshl`.
#[tactic(auto, using(crate::proofs::Wrapping::shifts))]
pub fn shl_i64(a: i64, n: i32) -> i64
    ensures { result ≡ shifted_left w64 a n }
{
    a.wrapping_shl(n.cast_unsigned())
}

/// `lshr`.
pub fn shr_i64(a: i64, n: i32) -> i64
    ensures { result ≡ shifted_right w64 a n }
{
    a.wrapping_shr(n.cast_unsigned())
}

/// `lushr`.
pub fn ushr_i64(a: i64, n: i32) -> i64
    ensures { result ≡ shifted_right_unsigned w64 a n }
{
    let bits = a.cast_unsigned();
    bits.wrapping_shr(n.cast_unsigned()).cast_signed()
}

/// `lcmp`.
pub fn cmp_i64(a: i64, b: i64) -> i32
    ensures { result ≡ comparison a b }
{
    match a.cmp(&b) {
        Ordering::Less => -1,
        Ordering::Equal => 0,
        Ordering::Greater => 1,
    }
}
