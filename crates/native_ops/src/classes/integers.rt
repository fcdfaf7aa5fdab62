//! java/lang/Integer.

ghost use Rattle.std.specs.Prelude.{◌≡◌, IfOk};
ghost use Rattle.native_ops.specs.Classes.Integers.{parse_int, same_integers, compare_integers, integer_effect};

use crate::classes::boxes::{box_of, compared_if, gives_parsed_int, small_place};
use crate::classes::roots::hex_of;
use crate::methods::method::IntegerMethod;
use heap_objects::{Datum, Heap};
use int_ops::cmp_i64;
use jf_bytes::NoMemory;
use native_effects::{
    INTEGER_KIND, Kinds, NativeEffect, gives_boolean, gives_int, gives_long, int_field, int_in,
    is_instance, parsed_int, reference_in, text_at, text_of_int,
};
use std::alloc::Global;

/// parseInt(S)I.
fn parse_int(object: u32, heap: &Heap) -> NativeEffect
    ensures { result ≡ parse_int object heap.now }
{
    if object == 0 {
        return gives_parsed_int(None);
    }
    gives_parsed_int(parsed_int(text_at(object, heap)))
}

/// Whether another object is a box of an int with an equal value.
fn same_integers<K: Kinds>(kinds: &K, object: u32, other: u32, heap: &Heap) -> bool
    ensures { result ≡ same_integers (K.seen kinds.now) object other heap.now }
{
    is_instance(kinds, INTEGER_KIND, other, heap)
        && int_field(object, 0, heap) == int_field(other, 0, heap)
}

/// compareTo(O)I.
fn compare_integers<K: Kinds>(kinds: &K, object: u32, other: u32, heap: &Heap) -> NativeEffect
    ensures { result ≡ compare_integers (K.seen kinds.now) object other heap.now }
{
    let comparison = cmp_i64(
        i64::from(int_field(object, 0, heap)),
        i64::from(int_field(other, 0, heap)),
    );
    compared_if(
        other,
        is_instance(kinds, INTEGER_KIND, other, heap),
        comparison,
    )
}

/// What a method does.
pub fn integer_effect<K: Kinds>(
    alloc: Global,
    method: IntegerMethod,
    kinds: &K,
    args: &[Datum],
    heap: &Heap,
) -> Result<NativeEffect, NoMemory>
    ensures { IfOk result (λ e. e ≡ integer_effect method (K.seen kinds.now) args.now heap.now) }
{
    let this = reference_in(args, 0);
    let number = int_in(args, 0);
    match method {
        IntegerMethod::ValueOf => {
            let place = small_place(i64::from(number));
            box_of(alloc, INTEGER_KIND, place, Datum::Int(number))
        }
        IntegerMethod::Parse => Ok(parse_int(this, heap)),
        IntegerMethod::TextOf => Ok(NativeEffect::MakesText(text_of_int(alloc, number)?)),
        IntegerMethod::HexOf => Ok(NativeEffect::MakesText(hex_of(alloc, number.cast_unsigned())?)),
        IntegerMethod::IntValue => Ok(gives_int(int_field(this, 0, heap))),
        IntegerMethod::LongValue => Ok(gives_long(i64::from(int_field(this, 0, heap)))),
        IntegerMethod::Equals => Ok(gives_boolean(same_integers(
            kinds,
            this,
            reference_in(args, 1),
            heap,
        ))),
        IntegerMethod::HashCode => Ok(gives_int(int_field(this, 0, heap))),
        IntegerMethod::ToText => {
            let value = int_field(this, 0, heap);
            Ok(NativeEffect::MakesText(text_of_int(alloc, value)?))
        }
        IntegerMethod::CompareTo => {
            Ok(compare_integers(kinds, this, reference_in(args, 1), heap))
        }
    }
}
