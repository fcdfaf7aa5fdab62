//! Calls of native methods.

ghost use Rattle.std.specs.Prelude.{◌≡◌, ◌<◌, ◌++◌, ℕ, List, IfOk, IsSome, slice_get, true};
ghost use Rattle.std.specs.Option.{option_map};
ghost use Rattle.base_classes.specs.Natives.{native_methods};
ghost use Rattle.base_classes.specs.declared.places.TheConstants.{NATIVE_METHODS};
ghost use Rattle.native_ops.specs.Methods.Named.{reference_of};
ghost use Rattle.native_ops.specs.Methods.Rows.{rows};
ghost use Rattle.native_effects.specs.Effects.Worlds.{world};
ghost use Rattle.native_ops.specs.Methods.Calls.{method_effect, row_effect, effect_of, native_of_answer, is_done};
ghost use Rattle.native_ops.specs.Methods.Calls.{answer_by, left_by, IsAnswer};

use crate::classes::builders::builder_effect;
use crate::classes::characters::{boolean_effect, character_effect, math_effect};
use crate::classes::copying::system_effect;
use crate::classes::enums::enum_effect;
use crate::classes::integers::integer_effect;
use crate::classes::longs::long_effect;
use crate::classes::roots::{class_effect, object_effect};
use crate::classes::streams::{input_effect, print_effect};
use crate::classes::strings::string_effect;
use crate::classes::throwables::throwable_effect;
use crate::methods::fitting::fit;
use crate::methods::method::Method;
use crate::methods::rows::{Row, row_of};
use heap_objects::{Datum, Heap};
use jf_bytes::{NoMemory, Seq};
use native_effects::{Answer, Kinds, Made, Native, NativeEffect, carry_out};
use std::alloc::Global;

/// What a method does by arguments that fit.
fn method_effect<K: Kinds>(
    alloc: Global,
    method: Method,
    kinds: &K,
    args: &[Datum],
    heap: &Heap,
    made: &Made,
) -> Result<NativeEffect, NoMemory>
    ensures { IfOk result (λ e. e
        ≡ method_effect method (K.seen kinds.now) args.now heap.now made.now) }
{
    match method {
        Method::Object(own) => object_effect(alloc, own, kinds, args, heap),
        Method::Class(own) => class_effect(alloc, own, kinds, args, made),
        Method::Text(own) => string_effect(alloc, own, args, heap),
        Method::Builder(own) => builder_effect(alloc, own, args, heap),
        Method::Input(own) => Ok(input_effect(own)),
        Method::Output(own) => print_effect(alloc, own, args, heap),
        Method::System(own) => system_effect(alloc, own, kinds, args, heap),
        Method::Integer(own) => integer_effect(alloc, own, kinds, args, heap),
        Method::Long(own) => long_effect(alloc, own, kinds, args, heap),
        Method::Character(own) => character_effect(alloc, own, kinds, args, heap),
        Method::Boolean(own) => boolean_effect(alloc, own, kinds, args, heap),
        Method::Math(own) => Ok(math_effect(own, args)),
        Method::Enum(own) => Ok(enum_effect(own, kinds, args, heap)),
        Method::Throwable(own) => Ok(throwable_effect(own, args, heap)),
    }
}

/// What a method does by any arguments.
fn row_effect<K: Kinds>(
    alloc: Global,
    row: Row,
    kinds: &K,
    args: &[Datum],
    heap: &Heap,
    made: &Made,
) -> Result<NativeEffect, NoMemory>
    ensures { IfOk result (λ e. e
        ≡ row_effect row (K.seen kinds.now) args.now heap.now made.now) }
{
    if !fit(row.receiver, row.parameters, kinds, args, heap) {
        return Ok(NativeEffect::Answers(Answer::Bad));
    }
    method_effect(alloc, row.method, kinds, args, heap, made)
}

/// What the method of a number does by any arguments.
fn effect_of<K: Kinds>(
    alloc: Global,
    native: u16,
    args: &[Datum],
    kinds: &K,
    heap: &Heap,
    made: &Made,
) -> Result<NativeEffect, NoMemory>
    requires { native < NATIVE_METHODS }
    ensures { (input : List ℕ) → (read : ℕ) → IfOk result (λ e. e
        ≡ effect_of native (K.seen kinds.now) args.now (world heap.now made.now input read)) }
{
    row_effect(alloc, row_of(native), kinds, args, heap, made)
}

fn native_of_answer(answer: Answer) -> Native
    ensures value { result ≡ native_of_answer answer }
    ensures done { is_done result ≡ true }
{
    match answer {
        Answer::Value(value) => Native::Value(value),
        Answer::Throws(class) => Native::Throws(class),
        Answer::Exit(status) => Native::Exit(status),
        Answer::Bad => Native::Bad,
    }
}

/// An invocation of a native method: its number, which `native_of` gives, the arguments, the receiver
/// first where it has one, and the classes that are loaded.
#[derive(Drop)]
pub struct Invocation<'a, K> {
    pub native: u16,
    pub args: &'a [Datum],
    pub kinds: &'a K,
}

/// Calls a native method. Of the input, so many bytes were read; what is written goes behind the
/// output. What it throws is left to the caller to make. After NoMemory nothing is changed.
#[tactic(auto, using(crate::proofs::NameLemmas::numbered, crate::proofs::NameLemmas::named_at))]
pub fn call<K: Kinds>(
    alloc: Global,
    invocation: &Invocation<'_, K>,
    heap: &mut Heap,
    made: &mut Made,
    input: &[u8],
    read: &mut usize,
    output: &mut Seq<u8>,
) -> Native
    requires number { IsSome (slice_get native_methods invocation.now.native) }
    ensures limit { heap.new.limit ≡ heap.old.limit }
    ensures named { let i = invocation.now in option_map reference_of (slice_get rows i.native)
        ≡ slice_get native_methods i.native }
    ensures answer { let i = invocation.now in
        IsAnswer result (answer_by i.native (K.seen i.kinds.now) i.args.now
        (world heap.old made.old input.now read.old)) }
    ensures heap { let i = invocation.now in
        heap.new ≡ (left_by (is_done result) i.native (K.seen i.kinds.now) i.args.now
        (world heap.old made.old input.now read.old)).heap }
    ensures made { let i = invocation.now in
        made.new ≡ (left_by (is_done result) i.native (K.seen i.kinds.now) i.args.now
        (world heap.old made.old input.now read.old)).made }
    ensures read { let i = invocation.now in
        read.new ≡ (left_by (is_done result) i.native (K.seen i.kinds.now) i.args.now
        (world heap.old made.old input.now read.old)).read }
    ensures output { let i = invocation.now in
        output.new ≡ output.old
        ++ (left_by (is_done result) i.native (K.seen i.kinds.now) i.args.now
        (world heap.old made.old input.now read.old)).wrote }
{
    let Invocation {
        native,
        args,
        kinds,
    } = *invocation;
    let Ok(effect) = effect_of(alloc, native, args, kinds, heap, made) else {
        return Native::NoMemory;
    };
    match carry_out(alloc, effect, heap, made, input, read, output) {
        Ok(answer) => native_of_answer(answer),
        Err(NoMemory) => Native::NoMemory,
    }
}
