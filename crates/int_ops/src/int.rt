//! Arithmetic on `int`: the instructions `iadd` to `ixor` (JVM Specification, SE 7, chapter 6).
ghost use Rattle.std.specs.Prelude.{◌≡◌, ◌↔◌, pos, negsuc, int_rem, IfSome, IsNone, Some};
ghost use Rattle.std.specs.Int.{w32, int_bit_and, int_bit_or, int_bit_xor};
ghost use Rattle.int_ops.specs.Arithmetic.{wrapped_sum, wrapped_difference, wrapped_product, wrapped_negation, wrapped_quotient, least_value, shifted_left, shifted_right, shifted_right_unsigned};

/// `iadd`.
#[tactic(auto, using(std::proofs::lemmas::Int::wraps))]
pub fn add_i32(a: i32, b: i32) -> i32
    ensures { result ≡ wrapped_sum w32 a b }
{
    a.wrapping_add(b)
}

/// `isub`.
#[tactic(auto, using(std::proofs::lemmas::Int::wraps))]
pub fn sub_i32(a: i32, b: i32) -> i32
    ensures { result ≡ wrapped_difference w32 a b }
{
    a.wrapping_sub(b)
}

/// `imul`.
pub fn mul_i32(a: i32, b: i32) -> i32
    ensures { result ≡ wrapped_product w32 a b }
{
    a.wrapping_mul(b)
}

/// `iand`.
pub fn and_i32(a: i32, b: i32) -> i32
    ensures { result ≡ int_bit_and w32 a b }
{
    a & b
}

/// `ior`.
pub fn or_i32(a: i32, b: i32) -> i32
    ensures { result ≡ int_bit_or w32 a b }
{
    a | b
}

/// `ixor`.
pub fn xor_i32(a: i32, b: i32) -> i32
    ensures { result ≡ int_bit_xor w32 a b }
{
    a ^ b
}

/// `ineg`. The least value is its own negation.
#[tactic(auto, using(std::proofs::lemmas::Int::wraps))]
pub fn neg_i32(a: i32) -> i32
    ensures { result ≡ wrapped_negation w32 a }
{
    a.wrapping_neg()
}

/// `idiv`. At `None` the instruction throws an `ArithmeticException`.
#[tactic(auto, using(crate::proofs::Wrapping::quotients))]
pub fn div_i32(a: i32, b: i32) -> Option<i32>
    ensures none { IsNone result ↔ (b ≡ pos 0) }
    ensures value { IfSome result (λ q. q ≡ wrapped_quotient w32 a b) }
    ensures least { a ≡ least_value w32 → b ≡ negsuc 0 → result ≡ Some a }
{
    if b == 0 {
        None
    } else {
        Some(a.wrapping_div(b))
    }
}

/// `irem`. At `None` the instruction throws an `ArithmeticException`.
pub fn rem_i32(a: i32, b: i32) -> Option<i32>
    ensures none { IsNone result ↔ (b ≡ pos 0) }
    ensures value { IfSome result (λ r. r ≡ int_rem a b) }
    ensures least { a ≡ least_value w32 → b ≡ negsuc 0 → result ≡ Some (pos 0) }
{
    if b == 0 {
        None
    } else {
        Some(a.wrapping_rem(b))
    }
}

/// `ishl`.
#[tactic(auto, using(crate::proofs::Wrapping::shifts))]
pub fn shl_i32(a: i32, n: i32) -> i32
    ensures { result ≡ shifted_left w32 a n }
{
    a.wrapping_shl(n.cast_unsigned())
}

/// `ishr`.
pub fn shr_i32(a: i32, n: i32) -> i32
    ensures { result ≡ shifted_right w32 a n }
{
    a.wrapping_shr(n.cast_unsigned())
}

/// `iushr`.
pub fn ushr_i32(a: i32, n: i32) -> i32
    ensures { result ≡ shifted_right_unsigned w32 a n }
{
    let bits = a.cast_unsigned();
    bits.wrapping_shr(n.cast_unsigned()).cast_signed()
}
