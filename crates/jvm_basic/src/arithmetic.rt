//! Arithmetic (JVM Specification 2.11.3, 2.11.4): the topmost operand is the second one.

ghost use Rattle.std.specs.Prelude.{◌≡◌};
ghost use Rattle.std.specs.Int.{w32, w64};
ghost use Rattle.jvm_basic.specs.Outcomes.{effect_of, after};
ghost use Rattle.jvm_model.specs.Instructions.LocalRules.{int_calculated, calculated_long, long_shifted, number_divided};
ghost use Rattle.jvm_model.specs.Instructions.LocalRules.{of_int, of_long};
ghost use Rattle.jvm_basic.specs.Rules.{compares_longs, divides_ints};
ghost use Rattle.jvm_basic.specs.Rules.{calculates, calculates_long, shifts};
ghost use Rattle.jvm_basic.specs.Rules.{divides_longs, converts_int, converts_long};

use crate::effect::Effect;
use crate::instruction::value_of;
use crate::moving::{exchange_two, replace, replace_two};
use crate::reading::{int_of, ints_of, long_and_int_of, long_of, longs_of};
use base_classes::ARITHMETIC_EXCEPTION;
use frame_stack::Frames;
use heap_objects::{Datum, Value};
use int_ops::{
    add_i32, add_i64, and_i32, and_i64, cmp_i64, div_i32, div_i64, i2b, i2c, i2l, i2s, l2i,
    mul_i32, mul_i64, neg_i32, neg_i64, or_i32, or_i64, rem_i32, rem_i64, shl_i32, shl_i64,
    shr_i32, shr_i64, sub_i32, sub_i64, ushr_i32, ushr_i64, xor_i32, xor_i64,
};
use jvm_model::{Division, IntOperator, LongOperator, LongShift, OfInt, OfLong};

// ---- results

#[inline(always)]
fn int_calculated(op: IntOperator, a: i32, b: i32) -> i32
    ensures { result ≡ int_calculated op a b }
{
    match op {
        IntOperator::Iadd => add_i32(a, b),
        IntOperator::Isub => sub_i32(a, b),
        IntOperator::Imul => mul_i32(a, b),
        IntOperator::Ishl => shl_i32(a, b),
        IntOperator::Ishr => shr_i32(a, b),
        IntOperator::Iushr => ushr_i32(a, b),
        IntOperator::Iand => and_i32(a, b),
        IntOperator::Ior => or_i32(a, b),
        IntOperator::Ixor => xor_i32(a, b),
    }
}

fn calculated_long(op: LongOperator, a: i64, b: i64) -> i64
    ensures { result ≡ calculated_long op a b }
{
    match op {
        LongOperator::Ladd => add_i64(a, b),
        LongOperator::Lsub => sub_i64(a, b),
        LongOperator::Lmul => mul_i64(a, b),
        LongOperator::Land => and_i64(a, b),
        LongOperator::Lor => or_i64(a, b),
        LongOperator::Lxor => xor_i64(a, b),
    }
}

fn long_shifted(op: LongShift, a: i64, n: i32) -> i64
    ensures { result ≡ long_shifted op a n }
{
    match op {
        LongShift::Lshl => shl_i64(a, n),
        LongShift::Lshr => shr_i64(a, n),
        LongShift::Lushr => ushr_i64(a, n),
    }
}

#[inline(always)]
fn divided_int(op: Division, a: i32, b: i32) -> Option<i32>
    ensures { result ≡ number_divided op w32 a b }
{
    match op {
        Division::Quotient => div_i32(a, b),
        Division::Remainder => rem_i32(a, b),
    }
}

fn divided_long(op: Division, a: i64, b: i64) -> Option<i64>
    ensures { result ≡ number_divided op w64 a b }
{
    match op {
        Division::Quotient => div_i64(a, b),
        Division::Remainder => rem_i64(a, b),
    }
}

fn of_int(op: OfInt, n: i32) -> Datum
    ensures { result ≡ of_int op n }
{
    match op {
        OfInt::Ineg => Datum::Int(neg_i32(n)),
        OfInt::I2l => Datum::Long(i2l(n)),
        OfInt::I2b => Datum::Int(i2b(n)),
        OfInt::I2c => Datum::Int(i2c(n)),
        OfInt::I2s => Datum::Int(i2s(n)),
    }
}

fn of_long(op: OfLong, n: i64) -> Datum
    ensures { result ≡ of_long op n }
{
    match op {
        OfLong::Lneg => Datum::Long(neg_i64(n)),
        OfLong::L2i => Datum::Int(l2i(n)),
    }
}

// ---- instructions

/// iadd to ixor.
#[tactic(auto, using(crate::proofs::Fitting::fitting, crate::proofs::TopReads::ints_narrow))]
#[inline(always)]
pub fn calculate(frames: &mut Frames, op: IntOperator, next: u16) -> Effect
    ensures effect { result ≡ effect_of (calculates op next) frames.old }
    ensures frames { frames.new ≡ after (calculates op next) frames.old }
{
    let Some((a, b)) = ints_of(frames) else {
        return Effect::Bad;
    };
    exchange_two(frames, Value::Int(int_calculated(op, a, b)), next)
}

/// ladd to lxor, but for the shifts.
#[tactic(auto, using(crate::proofs::Fitting::fitting))]
pub fn calculate_long(frames: &mut Frames, op: LongOperator, next: u16) -> Effect
    ensures effect { result ≡ effect_of (calculates_long op next) frames.old }
    ensures frames { frames.new ≡ after (calculates_long op next) frames.old }
{
    let Some((a, b)) = longs_of(frames) else {
        return Effect::Bad;
    };
    replace_two(frames, Value::Long(calculated_long(op, a, b)), next)
}

/// lshl, lshr, lushr.
#[tactic(auto, using(crate::proofs::Fitting::fitting))]
pub fn shift(frames: &mut Frames, op: LongShift, next: u16) -> Effect
    ensures effect { result ≡ effect_of (shifts op next) frames.old }
    ensures frames { frames.new ≡ after (shifts op next) frames.old }
{
    let Some((a, n)) = long_and_int_of(frames) else {
        return Effect::Bad;
    };
    replace_two(frames, Value::Long(long_shifted(op, a, n)), next)
}

/// lcmp.
#[tactic(auto, using(crate::proofs::Fitting::fitting))]
pub fn compare_longs(frames: &mut Frames, next: u16) -> Effect
    ensures effect { result ≡ effect_of (compares_longs next) frames.old }
    ensures frames { frames.new ≡ after (compares_longs next) frames.old }
{
    let Some((a, b)) = longs_of(frames) else {
        return Effect::Bad;
    };
    replace_two(frames, Value::Int(cmp_i64(a, b)), next)
}

/// idiv, irem.
#[tactic(auto, using(crate::proofs::Fitting::fitting, crate::proofs::TopReads::ints_narrow))]
pub fn divide_ints(frames: &mut Frames, op: Division, next: u16) -> Effect
    ensures effect { result ≡ effect_of (divides_ints op next) frames.old }
    ensures frames { frames.new ≡ after (divides_ints op next) frames.old }
{
    let Some((a, b)) = ints_of(frames) else {
        return Effect::Bad;
    };
    let Some(n) = divided_int(op, a, b) else {
        return Effect::Throws(ARITHMETIC_EXCEPTION);
    };
    exchange_two(frames, Value::Int(n), next)
}

/// ldiv, lrem.
#[tactic(auto, using(crate::proofs::Fitting::fitting))]
pub fn divide_longs(frames: &mut Frames, op: Division, next: u16) -> Effect
    ensures effect { result ≡ effect_of (divides_longs op next) frames.old }
    ensures frames { frames.new ≡ after (divides_longs op next) frames.old }
{
    let Some((a, b)) = longs_of(frames) else {
        return Effect::Bad;
    };
    let Some(n) = divided_long(op, a, b) else {
        return Effect::Throws(ARITHMETIC_EXCEPTION);
    };
    replace_two(frames, Value::Long(n), next)
}

/// ineg, i2l, i2b, i2c, i2s.
pub fn convert_int(frames: &mut Frames, op: OfInt, next: u16) -> Effect
    ensures effect { result ≡ effect_of (converts_int op next) frames.old }
    ensures frames { frames.new ≡ after (converts_int op next) frames.old }
{
    let Some(n) = int_of(frames) else {
        return Effect::Bad;
    };
    replace(frames, value_of(of_int(op, n)), next)
}

/// lneg, l2i.
pub fn convert_long(frames: &mut Frames, op: OfLong, next: u16) -> Effect
    ensures effect { result ≡ effect_of (converts_long op next) frames.old }
    ensures frames { frames.new ≡ after (converts_long op next) frames.old }
{
    let Some(n) = long_of(frames) else {
        return Effect::Bad;
    };
    replace(frames, value_of(of_long(op, n)), next)
}
