//! java/lang/StringBuilder and java/lang/StringBuffer.

ghost use Rattle.std.specs.Prelude.{◌≡◌, ◌<◌, IfOk, length};
ghost use Rattle.native_ops.specs.Classes.Builders.{init_capacity, append, set_char_at, set_length, without, delete_char_at, builder_effect};

use crate::classes::strings::{char_at, init_text, own_units};
use crate::methods::method::BuilderMethod;
use base_classes::{
    NEGATIVE_ARRAY_SIZE_EXCEPTION, NULL_POINTER_EXCEPTION, STRING_INDEX_OUT_OF_BOUNDS_EXCEPTION,
};
use heap_objects::{Datum, Heap};
use jf_bytes::{NoMemory, Seq};
use native_effects::{
    NativeEffect, Printable, argument_shown, char_in, gives_int, int_in, is_null_array,
    number_as_int, place_in, reference_in, size_at, small_place_in, text_at, throws, units_joined,
};
use std::alloc::Global;

/// <init>(I)V.
fn init_capacity(alloc: Global, object: u32, capacity: i32) -> NativeEffect
    ensures { result ≡ init_capacity object capacity }
{
    if capacity < 0 {
        return throws(NEGATIVE_ARRAY_SIZE_EXCEPTION);
    }
    NativeEffect::Replaces(object, Seq::new(alloc), None)
}

/// append, but for append(O), which has code.
fn append(
    alloc: Global,
    what: Printable,
    args: &[Datum],
    heap: &Heap,
) -> Result<NativeEffect, NoMemory>
    ensures { IfOk result (λ e. e ≡ append what args.now heap.now) }
{
    if is_null_array(what, 1, args) {
        return Ok(throws(NULL_POINTER_EXCEPTION));
    }
    let units = argument_shown(alloc, what, 1, args, heap)?;
    Ok(NativeEffect::Appends(reference_in(args, 0), units))
}

/// setCharAt(IC)V.
fn set_char_at(object: u32, place: i32, unit: u16, heap: &Heap) -> NativeEffect
    ensures { result ≡ set_char_at object place unit heap.now }
{
    match small_place_in(place, text_at(object, heap).len()) {
        Some(at) => NativeEffect::PutsUnit(object, at, unit),
        None => throws(STRING_INDEX_OUT_OF_BOUNDS_EXCEPTION),
    }
}

/// setLength(I)V.
fn set_length(object: u32, size: i32) -> NativeEffect
    ensures { result ≡ set_length object size }
{
    if size < 0 {
        return throws(STRING_INDEX_OUT_OF_BOUNDS_EXCEPTION);
    }
    NativeEffect::Resizes(object, size.cast_unsigned())
}

/// The units without the one at a place.
fn without(alloc: Global, place: usize, units: &[u16]) -> Result<Seq<u16>, NoMemory>
    requires { place < length units.now }
    ensures { IfOk result (λ left. left ≡ without place units.now) }
{
    units_joined(alloc, &units[..place], &units[place + 1..])
}

/// deleteCharAt(I).
fn delete_char_at(
    alloc: Global,
    object: u32,
    place: i32,
    heap: &Heap,
) -> Result<NativeEffect, NoMemory>
    ensures { IfOk result (λ e. e ≡ delete_char_at object place heap.now) }
{
    let units = text_at(object, heap);
    let Some(place) = place_in(place, units.len()) else {
        return Ok(throws(STRING_INDEX_OUT_OF_BOUNDS_EXCEPTION));
    };
    let left = without(alloc, place, units)?;
    Ok(NativeEffect::Replaces(object, left, Some(Datum::Ref(object))))
}

/// What a method does.
pub fn builder_effect(
    alloc: Global,
    method: BuilderMethod,
    args: &[Datum],
    heap: &Heap,
) -> Result<NativeEffect, NoMemory>
    ensures { IfOk result (λ e. e ≡ builder_effect method args.now heap.now) }
{
    let this = reference_in(args, 0);
    match method {
        BuilderMethod::Init => Ok(NativeEffect::Replaces(this, Seq::new(alloc), None)),
        BuilderMethod::InitCapacity => Ok(init_capacity(alloc, this, int_in(args, 1))),
        BuilderMethod::InitText => init_text(alloc, this, reference_in(args, 1), heap),
        BuilderMethod::Append(what) => append(alloc, what, args, heap),
        BuilderMethod::Length => Ok(gives_int(number_as_int(size_at(this, heap) as usize))),
        BuilderMethod::CharAt => Ok(char_at(this, int_in(args, 1), heap)),
        BuilderMethod::SetCharAt => {
            Ok(set_char_at(this, int_in(args, 1), char_in(args, 2), heap))
        }
        BuilderMethod::SetLength => Ok(set_length(this, int_in(args, 1))),
        BuilderMethod::DeleteCharAt => delete_char_at(alloc, this, int_in(args, 1), heap),
        BuilderMethod::ToText => Ok(NativeEffect::MakesText(own_units(alloc, this, heap)?)),
    }
}
