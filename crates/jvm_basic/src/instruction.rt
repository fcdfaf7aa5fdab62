//! One instruction within its frame.

ghost use Rattle.std.specs.Prelude.{◌≡◌, ◌≢◌, ◌↔◌, ℕ, IsTrue, Some, slice_get, codes};
ghost use Rattle.const_pool.specs.BuiltIn.{built_in_names};
ghost use Rattle.frame_stack.specs.FrameLists.{top_operands};
ghost use Rattle.jvm_basic.specs.declared.effect.Effect.TheVariants.{Next, Throws, Bad, Other};
ghost use Rattle.jvm_model.specs.Basis.Families.{family_of};
ghost use Rattle.jvm_basic.specs.Needs.{is_bad};
ghost use Rattle.jvm_basic.specs.Laws.{is_elsewhere, divides_by_zero, HasItsOperand};
ghost use Rattle.jvm_basic.specs.Outcomes.{GoesOn, effect_of, after};
ghost use Rattle.jvm_model.specs.Basis.Values.{as_value};
ghost use Rattle.jvm_basic.specs.Rules.{arithmetic_exception, does, gives, pushes_number, rule_of};

use crate::arithmetic::{
    calculate, calculate_long, compare_longs, convert_int, convert_long, divide_ints, divide_longs,
    shift,
};
use crate::branching::{branch, call_subroutine, go_to, switch};
use crate::effect::Effect;
use crate::locals::{go_back, increment, load, load_from, store, store_to};
use crate::moving::{go_on, put};
use crate::reading::recall;
use crate::stack::manage_stack;
use code_model::{Arg, Instr};
use frame_stack::Frames;
use heap_objects::{Datum, Value};
use jvm_model::{Family, family_of};

/// nop.
fn pass(frames: &mut Frames, next: u16) -> Effect
    ensures effect { result ≡ effect_of (λ l o. GoesOn l o next) frames.old }
    ensures frames { frames.new ≡ after (λ l o. GoesOn l o next) frames.old }
{
    recall(frames);
    go_on(frames, next)
}

/// ldc, ldc_w, ldc2_w.
fn put_pool_constant(frames: &mut Frames, constant: Option<Value>, next: u16) -> Effect
    ensures effect { result ≡ effect_of (gives constant next) frames.old }
    ensures frames { frames.new ≡ after (gives constant next) frames.old }
{
    match constant {
        Some(Value::Int(n)) => put(frames, Value::Int(n), next),
        Some(Value::Long(n)) => put(frames, Value::Long(n), next),
        Some(Value::Ref(reference)) => put(frames, Value::Ref(reference), next),
        Some(Value::Addr(_)) | None => Effect::Bad,
    }
}

/// The value that a datum is.
pub fn value_of(datum: Datum) -> Value
    ensures { result ≡ as_value datum }
{
    match datum {
        Datum::Int(n) => Value::Int(n),
        Datum::Long(n) => Value::Long(n),
        Datum::Ref(reference) => Value::Ref(reference),
    }
}

/// bipush, sipush.
fn put_operand(frames: &mut Frames, arg: &Arg, next: u16) -> Effect
    ensures effect { result ≡ effect_of (pushes_number arg.now next) frames.old }
    ensures frames { frames.new ≡ after (pushes_number arg.now next) frames.old }
{
    match arg {
        Arg::Value(n) => put(frames, Value::Int(*n), next),
        _ => Effect::Bad,
    }
}

/// What an instruction of a family does.
#[inline(always)]
fn do_family(
    family: Family,
    arg: &Arg,
    constant: Option<Value>,
    next: u16,
    frames: &mut Frames,
) -> Effect
    ensures effect { result ≡ effect_of (does family arg.now constant next) frames.old }
    ensures frames { frames.new ≡ after (does family arg.now constant next) frames.old }
{
    match family {
        Family::Nop => pass(frames, next),
        Family::Constant(datum) => put(frames, value_of(datum), next),
        Family::PoolConstant => put_pool_constant(frames, constant, next),
        Family::OperandConstant => put_operand(frames, arg, next),
        Family::Load(kind) => load(frames, kind, arg, next),
        Family::LoadFrom(kind, slot) => load_from(frames, kind, slot, next),
        Family::Store(kind) => store(frames, kind, arg, next),
        Family::StoreTo(kind, slot) => store_to(frames, kind, slot, next),
        Family::ManageStack(op) => manage_stack(frames, op, next),
        Family::BinaryOfInts(op) => calculate(frames, op, next),
        Family::BinaryOfLongs(op) => calculate_long(frames, op, next),
        Family::DivisionOfInts(op) => divide_ints(frames, op, next),
        Family::DivisionOfLongs(op) => divide_longs(frames, op, next),
        Family::ShiftOfLong(op) => shift(frames, op, next),
        Family::UnaryOfInt(op) => convert_int(frames, op, next),
        Family::UnaryOfLong(op) => convert_long(frames, op, next),
        Family::Lcmp => compare_longs(frames, next),
        Family::Iinc => increment(frames, arg, next),
        Family::Branch(test) => branch(frames, test, arg, next),
        Family::Goto => go_to(frames, arg),
        Family::Jsr => call_subroutine(frames, arg, next),
        Family::Ret => go_back(frames, arg),
        Family::Switch => switch(frames, arg),
        Family::Return(_) | Family::NotLocal => Effect::Other,
    }
}

/// The same as `basic`, for an instruction whose family is known: no table is looked up. It is
/// inlined: a step would spend as long on passing the family and the constant as on the rest.
#[inline(always)]
pub fn basic_by(
    family: Family,
    instr: &Instr,
    constant: Option<Value>,
    next: u16,
    frames: &mut Frames,
) -> Effect
    requires { family ≡ family_of instr.now.op }
    ensures effect { result ≡ effect_of (rule_of instr.now constant next) frames.old }
    ensures frames { frames.new ≡ after (rule_of instr.now constant next) frames.old }
{
    do_family(family, &instr.arg, constant, next, frames)
}

/// Does one instruction as far as its frame goes (JVM Specification 2.11, 6.5): the constant is that of an ldc, and
/// `next` the offset behind the instruction. An effect other than Next leaves the frames as they were.
pub fn basic(instr: &Instr, constant: Option<Value>, next: u16, frames: &mut Frames) -> Effect
    ensures effect { result ≡ effect_of (rule_of instr.now constant next) frames.old }
    ensures frames { frames.new ≡ after (rule_of instr.now constant next) frames.old }
    ensures kept { result ≢ Next → frames.new ≡ frames.old }
    ensures bad { (result ≡ Bad) ↔ IsTrue (is_bad instr.now constant next frames.old) }
    ensures other { (result ≡ Other) ↔ IsTrue (is_elsewhere instr.now.op) }
    ensures throws { (result ≡ Throws arithmetic_exception)
        ↔ IsTrue (divides_by_zero (family_of instr.now.op) (top_operands frames.old.frames)) }
    ensures operand { HasItsOperand instr.now }
    ensures named { slice_get built_in_names arithmetic_exception
        ≡ Some (codes "java/lang/ArithmeticException") }
    ensures only { (class : ℕ) → result ≡ Throws class → class ≡ arithmetic_exception }
{
    // Read by itself, so that its range is known.
    let op = instr.op;
    do_family(family_of(op), &instr.arg, constant, next, frames)
}
