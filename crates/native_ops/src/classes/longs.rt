//! java/lang/Long.

ghost use Rattle.std.specs.Prelude.{◌≡◌, IfOk};
ghost use Rattle.native_ops.specs.Classes.Longs.{parse_long, hash_of_long, same_longs, compare_longs, long_effect};

use crate::classes::boxes::{box_of, compared_if, gives_parsed_long, small_place};
use crate::methods::method::LongMethod;
use heap_objects::{Datum, Heap};
use int_ops::{cmp_i64, l2i};
use jf_bytes::NoMemory;
use native_effects::{
    Kinds, LONG_KIND, NativeEffect, gives_boolean, gives_int, gives_long, is_instance, long_field,
    long_in, parsed_long, reference_in, text_at, text_of_long,
};
use std::alloc::Global;

/// parseLong(S)J.
fn parse_long(object: u32, heap: &Heap) -> NativeEffect
    ensures { result ≡ parse_long object heap.now }
{
    if object == 0 {
        return gives_parsed_long(None);
    }
    gives_parsed_long(parsed_long(text_at(object, heap)))
}

/// The exclusive or of the low and the high half.
fn hash_of_long(value: i64) -> i32
    ensures { result ≡ hash_of_long value }
{
    let bits = value.cast_unsigned();
    let low = (bits % 4294967296) as u32;
    let high = (bits / 4294967296) as u32;
    (low ^ high).cast_signed()
}

/// Whether another object is a box of a long with an equal value.
fn same_longs<K: Kinds>(kinds: &K, object: u32, other: u32, heap: &Heap) -> bool
    ensures { result ≡ same_longs (K.seen kinds.now) object other heap.now }
{
    is_instance(kinds, LONG_KIND, other, heap)
        && long_field(object, 0, heap) == long_field(other, 0, heap)
}

/// compareTo(O)I.
fn compare_longs<K: Kinds>(kinds: &K, object: u32, other: u32, heap: &Heap) -> NativeEffect
    ensures { result ≡ compare_longs (K.seen kinds.now) object other heap.now }
{
    let comparison = cmp_i64(long_field(object, 0, heap), long_field(other, 0, heap));
    compared_if(
        other,
        is_instance(kinds, LONG_KIND, other, heap),
        comparison,
    )
}

/// What a method does.
pub fn long_effect<K: Kinds>(
    alloc: Global,
    method: LongMethod,
    kinds: &K,
    args: &[Datum],
    heap: &Heap,
) -> Result<NativeEffect, NoMemory>
    ensures { IfOk result (λ e. e ≡ long_effect method (K.seen kinds.now) args.now heap.now) }
{
    let this = reference_in(args, 0);
    let number = long_in(args, 0);
    match method {
        LongMethod::ValueOf => box_of(alloc, LONG_KIND, small_place(number), Datum::Long(number)),
        LongMethod::Parse => Ok(parse_long(this, heap)),
        LongMethod::TextOf => Ok(NativeEffect::MakesText(text_of_long(alloc, number)?)),
        LongMethod::IntValue => Ok(gives_int(l2i(long_field(this, 0, heap)))),
        LongMethod::LongValue => Ok(gives_long(long_field(this, 0, heap))),
        LongMethod::Equals => Ok(gives_boolean(same_longs(
            kinds,
            this,
            reference_in(args, 1),
            heap,
        ))),
        LongMethod::HashCode => Ok(gives_int(hash_of_long(long_field(this, 0, heap)))),
        LongMethod::ToText => {
            let value = long_field(this, 0, heap);
            Ok(NativeEffect::MakesText(text_of_long(alloc, value)?))
        }
        LongMethod::CompareTo => Ok(compare_longs(kinds, this, reference_in(args, 1), heap)),
    }
}
