//! java/lang/Enum.

ghost use Rattle.std.specs.Prelude.{◌≡◌};
ghost use Rattle.native_ops.specs.Classes.Enums.{declaring_class, compare_constants, compare_to_constant, compare_to_any, enum_effect};

use crate::methods::method::EnumMethod;
use base_classes::{CLASS_CAST_EXCEPTION, NULL_POINTER_EXCEPTION};
use heap_objects::{Datum, Heap};
use int_ops::sub_i32;
use native_effects::{
    ENUM_KIND, Kinds, NativeEffect, gives_boolean, gives_int, gives_reference, int_field, int_in,
    is_instance, kind_or_none, number_as_int, reference_field, reference_in, throws,
};

/// The class that declares a constant, by the kind of its class.
fn declaring_class<K: Kinds>(kinds: &K, kind: u32) -> u32
    ensures { result ≡ declaring_class (K.seen kinds.now) kind }
{
    match kinds.above(kind) {
        Some(above) => { if above == ENUM_KIND { kind } else { above } }
        None => 0,
    }
}

/// The difference of the ordinals, where one class declares both.
fn compare_constants<K: Kinds>(kinds: &K, object: u32, other: u32, heap: &Heap) -> NativeEffect
    ensures { result ≡ compare_constants (K.seen kinds.now) object other heap.now }
{
    let own = declaring_class(kinds, kind_or_none(object, heap));
    if own != declaring_class(kinds, kind_or_none(other, heap)) {
        return throws(CLASS_CAST_EXCEPTION);
    }
    gives_int(sub_i32(int_field(object, 1, heap), int_field(other, 1, heap)))
}

/// compareTo(Enum)I.
fn compare_to_constant<K: Kinds>(kinds: &K, object: u32, other: u32, heap: &Heap) -> NativeEffect
    ensures { result ≡ compare_to_constant (K.seen kinds.now) object other heap.now }
{
    if other == 0 {
        return throws(NULL_POINTER_EXCEPTION);
    }
    compare_constants(kinds, object, other, heap)
}

/// compareTo(O)I.
fn compare_to_any<K: Kinds>(kinds: &K, object: u32, other: u32, heap: &Heap) -> NativeEffect
    ensures { result ≡ compare_to_any (K.seen kinds.now) object other heap.now }
{
    if other == 0 {
        return throws(NULL_POINTER_EXCEPTION);
    }
    if !is_instance(kinds, ENUM_KIND, other, heap) {
        return throws(CLASS_CAST_EXCEPTION);
    }
    compare_constants(kinds, object, other, heap)
}

/// What a method does.
pub fn enum_effect<K: Kinds>(
    method: EnumMethod,
    kinds: &K,
    args: &[Datum],
    heap: &Heap,
) -> NativeEffect
    ensures { result ≡ enum_effect method (K.seen kinds.now) args.now heap.now }
{
    let this = reference_in(args, 0);
    match method {
        EnumMethod::Init => NativeEffect::SetsFields(
            this,
            Datum::Ref(reference_in(args, 1)),
            Datum::Int(int_in(args, 2)),
        ),
        EnumMethod::Name => gives_reference(reference_field(this, 0, heap)),
        EnumMethod::TextOf => gives_reference(reference_field(this, 0, heap)),
        EnumMethod::Ordinal => gives_int(int_field(this, 1, heap)),
        EnumMethod::Equals => gives_boolean(this == reference_in(args, 1)),
        EnumMethod::HashCode => gives_int(number_as_int(this as usize)),
        EnumMethod::CompareTo => compare_to_constant(kinds, this, reference_in(args, 1), heap),
        EnumMethod::CompareToObject => compare_to_any(kinds, this, reference_in(args, 1), heap),
    }
}
