//! Receivers and arguments of invocations (JVM Specification 2.6.1, 6.5).

ghost use Rattle.std.specs.Prelude.{◌≡◌, ◌<◌, ◌≤◌, ◌-◌, ◌^◌};
ghost use Rattle.std.specs.Prelude.{ℤ, true, length, is_some, slice_get, IfSome, IsTrue};
ghost use Rattle.std.specs.Option.{option_map};
ghost use Rattle.heap_objects.specs.declared.Value.TheVariants.{Int};
ghost use Rattle.frame_stack.specs.FrameLists.{top_operands};
ghost use Rattle.jvm_model.specs.Instructions.InvocationRules.{arguments_by, receiver_in, with_receiver};
ghost use Rattle.jvm_model.specs.Basis.Values.{arguments, datum_of};
ghost use Rattle.member_selection.specs.Targets.{data_in, is_reference, reference_in};

use crate::values::datum_of;
use const_pool::Kind;
use frame_stack::Frames;
use heap_objects::Value;
use jvm_model::MethodName;

/// The topmost operand. An int or a reference is read where it stands.
#[inline(always)]
#[tactic(auto, using(crate::proofs::Arguments::int_there, crate::proofs::Arguments::reference_there))]
fn top_operand(frames: &Frames) -> Option<Value>
    ensures { result ≡ slice_get (top_operands frames.now.frames) 0 }
{
    if let Some(n) = frames.int() {
        return Some(Value::Int(n));
    }
    if let Some(object) = frames.reference() {
        return Some(Value::Ref(object));
    }
    frames.peek(0)
}

/// The operand that has so many above it.
#[inline(always)]
fn operand_at(frames: &Frames, above: u16) -> Option<Value>
    ensures { result ≡ slice_get (top_operands frames.now.frames) above }
{
    if above == 0 {
        top_operand(frames)
    } else {
        frames.peek(above)
    }
}

/// Whether a parameter of this kind may have the value: boolean, byte, char and short are ints.
fn is_of_kind(kind: Kind, value: Value) -> bool
    ensures { result ≡ is_some (datum_of kind value) }
{
    datum_of(kind, value).is_some()
}

/// Whether the topmost operands are as many as the parameters, each of its kind, the first
/// parameter's the deepest.
fn are_of_kinds(params: &[Kind], frames: &Frames) -> bool
    requires { length params.now < 2 ^ 16 }
    ensures { result ≡ is_some (arguments params.now (top_operands frames.now.frames)) }
{
    let count = params.len();
    for i in 0..count {
        let Some(value) = operand_at(frames, (count - 1 - i) as u16) else {
            return false;
        };
        if !is_of_kind(params[i], value) {
            return false;
        }
    }
    true
}

/// Whether values of this kind are ints.
#[inline(always)]
fn is_int_kind(kind: Kind) -> bool
    ensures { result ≡ true → (n : ℤ) → is_some (datum_of kind (Int n)) ≡ true }
{
    matches!(
        kind,
        Kind::Int | Kind::Bool | Kind::Byte | Kind::Char | Kind::Short
    )
}

/// Whether there is one parameter, of ints, and an int on top, as there often is. False says
/// nothing.
#[inline(always)]
fn is_one_int(params: &[Kind], frames: &Frames) -> bool
    ensures { result ≡ true
        → is_some (arguments params.now (top_operands frames.now.frames)) ≡ true }
{
    if params.len() != 1 {
        return false;
    }
    if !is_int_kind(params[0]) {
        return false;
    }
    match frames.int() {
        Some(_n) => true,
        None => false,
    }
}

/// Whether the topmost operands are arguments of these kinds.
#[inline(always)]
fn are_arguments(params: &[Kind], frames: &Frames) -> bool
    requires { length params.now < 2 ^ 16 }
    ensures { result ≡ is_some (arguments params.now (top_operands frames.now.frames)) }
{
    if is_one_int(params, frames) {
        return true;
    }
    are_of_kinds(params, frames)
}

/// How many arguments a method takes, where they are there and of their kinds.
#[inline(always)]
fn count_without_receiver(params: &[Kind], frames: &Frames) -> Option<u16>
    requires { length params.now < 2 ^ 16 }
    ensures data { let o = top_operands frames.now.frames in
        option_map (λ count. data_in count o) result ≡ arguments params.now o }
    ensures within { IfSome result (λ count. count ≤ length (top_operands frames.now.frames)) }
    ensures count { IfSome result (λ count. count ≡ length params.now) }
{
    if are_arguments(params, frames) {
        Some(params.len() as u16)
    } else {
        None
    }
}

/// Whether the operand that has so many above it is a reference.
fn has_receiver(frames: &Frames, count: u16) -> bool
    ensures answer { result ≡ is_reference (slice_get (top_operands frames.now.frames) count) }
    ensures within { IsTrue result → count < length (top_operands frames.now.frames) }
{
    match operand_at(frames, count) {
        Some(Value::Ref(_)) => true,
        Some(Value::Int(_)) => false,
        Some(Value::Long(_)) => false,
        Some(Value::Addr(_)) => false,
        None => false,
    }
}

/// The same with a receiver below them.
fn count_with_receiver(params: &[Kind], frames: &Frames) -> Option<u16>
    requires { length params.now < 2 ^ 16 - 1 }
    ensures data { let o = top_operands frames.now.frames in
        option_map (λ count. data_in count o) result ≡ arguments (with_receiver true params.now) o }
    ensures within { IfSome result (λ count. count ≤ length (top_operands frames.now.frames)) }
{
    match count_without_receiver(params, frames) {
        Some(count) => {
            if has_receiver(frames, count) {
                Some(count + 1)
            } else {
                None
            }
        }
        None => None,
    }
}

/// How many operands an invocation takes, where they are there and of the kinds that the method's
/// descriptor tells: the arguments, and below those of an instance method the receiver.
pub fn argument_count(instance: bool, method: &MethodName, frames: &Frames) -> Option<u16>
    ensures data { let o = top_operands frames.now.frames in
        option_map (λ count. data_in count o) result
        ≡ arguments_by instance method.now.member o }
    ensures within { IfSome result (λ count. count ≤ length (top_operands frames.now.frames)) }
{
    match method.params() {
        Some(params) => {
            if instance {
                count_with_receiver(params.as_slice(), frames)
            } else {
                count_without_receiver(params.as_slice(), frames)
            }
        }
        None => None,
    }
}

/// The reference that has so many operands above it; 0 where it is none.
fn reference_at(frames: &Frames, above: u16) -> u32
    ensures { result ≡ reference_in (slice_get (top_operands frames.now.frames) above) }
{
    match operand_at(frames, above) {
        Some(Value::Ref(object)) => object,
        Some(Value::Int(_)) => 0,
        Some(Value::Long(_)) => 0,
        Some(Value::Addr(_)) => 0,
        None => 0,
    }
}

/// The receiver among so many operands, the deepest; 0 where it is no reference.
pub fn receiver_below(frames: &Frames, count: u16) -> u32
    requires { count ≤ length (top_operands frames.now.frames) }
    ensures { result ≡ receiver_in (data_in count (top_operands frames.now.frames)) }
{
    if count == 0 {
        0
    } else {
        reference_at(frames, count - 1)
    }
}
