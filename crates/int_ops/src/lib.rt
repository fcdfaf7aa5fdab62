//! The whole-number arithmetic of the JVM's `int` and `long` instructions (JVM Specification, SE 7,
//! 2.11.3, 2.11.4 and chapter 6). Each call is named for what it does and the type that it works on.
//! Nothing here takes memory.
#![tactic(auto)]

mod convert;
mod int;
mod laws;
mod long;

pub use convert::{i2b, i2c, i2l, i2s, l2i};
pub use int::{
    add_i32, and_i32, div_i32, mul_i32, neg_i32, or_i32, rem_i32, shl_i32, shr_i32, sub_i32,
    ushr_i32, xor_i32,
};
pub use laws::{div_rem_i32, div_rem_i64, shr_unsigned_i32, shr_unsigned_i64};
pub use long::{
    add_i64, and_i64, cmp_i64, div_i64, mul_i64, neg_i64, or_i64, rem_i64, shl_i64, shr_i64,
    sub_i64, ushr_i64, xor_i64,
};
