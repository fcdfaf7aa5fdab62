//! java/lang/System.

ghost use Rattle.std.specs.Prelude.{◌≡◌, ◌≤◌, ◌-◌, ◌==◌, ◌||◌, IfOk, IfSome};
ghost use Rattle.native_effects.specs.Inputs.Numbers.{first_array_kind, first_reference_array_kind};
ghost use Rattle.native_effects.specs.Inputs.Objects.{kind_or_none, size_at};
ghost use Rattle.native_ops.specs.declared.methods.method.SystemMethod.TheVariants.{Arraycopy};
ghost use Rattle.native_ops.specs.Classes.Copying.{sort_of_array, can_copy, may_store, storable, store, copy_ranges, arraycopy, system_effect};

use crate::methods::method::SystemMethod;
use base_classes::{
    ARRAY_INDEX_OUT_OF_BOUNDS_EXCEPTION, ARRAY_STORE_EXCEPTION, FIRST_ARRAY, NULL_POINTER_EXCEPTION,
};
use heap_objects::{Datum, Heap};
use jf_bytes::{NoMemory, Seq};
use native_effects::{
    Answer, FIRST_REFERENCE_ARRAY_KIND, Kinds, NativeEffect, counted_range, gives_int, int_in,
    kind_or_none, number_as_int, reference_in, size_at, throws, values_between,
};
use std::alloc::Global;

/// What arrays of a kind hold: one primitive type, told by the kind, or references.
fn sort_of_array(kind: u32) -> u32
    ensures { result ≡ sort_of_array kind }
{
    if kind < FIRST_REFERENCE_ARRAY_KIND {
        kind
    } else {
        0
    }
}

/// Whether both are arrays, of one primitive type or of references.
fn can_copy(from: u32, to: u32) -> bool
    ensures { result ≡ can_copy from to }
{
    FIRST_ARRAY <= from && FIRST_ARRAY <= to && sort_of_array(from) == sort_of_array(to)
}

/// Whether a reference is null or of a subtype of the elements' class of an array of references.
fn may_refer<K: Kinds>(kinds: &K, kind: u32, heap: &Heap, reference: u32) -> bool
    requires { first_reference_array_kind ≤ kind }
    ensures { result ≡ (reference == 0
        || (K.seen kinds.now).subtype (kind_or_none reference heap.now) (kind - first_array_kind)) }
{
    if reference == 0 {
        return true;
    }
    kinds.subtype(kind_or_none(reference, heap), kind - FIRST_ARRAY)
}

/// Whether a value may stand in an array of a kind.
fn may_store<K: Kinds>(kinds: &K, kind: u32, heap: &Heap, value: Datum) -> bool
    ensures { result ≡ may_store (K.seen kinds.now) kind heap.now value }
{
    if kind < FIRST_REFERENCE_ARRAY_KIND {
        return true;
    }
    match value {
        Datum::Int(_) => may_refer(kinds, kind, heap, 0),
        Datum::Long(_) => may_refer(kinds, kind, heap, 0),
        Datum::Ref(reference) => may_refer(kinds, kind, heap, reference),
    }
}

/// The values before the first that may not stand in an array of a kind.
fn storable<K: Kinds>(
    alloc: Global,
    kinds: &K,
    kind: u32,
    heap: &Heap,
    values: &[Datum],
) -> Result<Seq<Datum>, NoMemory>
    ensures { IfOk result (λ fitting. fitting
        ≡ storable (K.seen kinds.now) kind heap.now values.now) }
{
    let mut fitting = Seq::with_capacity(alloc, values.len())?;
    for value in values {
        if !may_store(kinds, kind, heap, *value) {
            return Ok(fitting);
        }
        fitting.push(*value)?;
    }
    Ok(fitting)
}

/// Stores values from a place on, up to the first that may not stand there.
fn store<K: Kinds>(
    alloc: Global,
    kinds: &K,
    array: u32,
    place: usize,
    values: &[Datum],
    heap: &Heap,
) -> Result<NativeEffect, NoMemory>
    ensures { IfOk result (λ e. e ≡ store (K.seen kinds.now) array place values.now heap.now) }
{
    let fitting = storable(alloc, kinds, kind_or_none(array, heap), heap, values)?;
    let answer = if fitting.len() == values.len() {
        Answer::Value(None)
    } else {
        Answer::Throws(ARRAY_STORE_EXCEPTION)
    };
    Ok(NativeEffect::Stores(array, place, fitting, answer))
}

/// Copies a range of one array to that of another.
fn copy_ranges<K: Kinds>(
    alloc: Global,
    kinds: &K,
    from: u32,
    to: u32,
    source: Option<(usize, usize)>,
    target: Option<(usize, usize)>,
    heap: &Heap,
) -> Result<NativeEffect, NoMemory>
    requires { IfSome source (λ r. (r.0 ≤ r.1) × (r.1 ≤ size_at from heap.now)) }
    ensures { IfOk result (λ e. e
        ≡ copy_ranges (K.seen kinds.now) from to source target heap.now) }
{
    let Some((start, end)) = source else {
        return Ok(throws(ARRAY_INDEX_OUT_OF_BOUNDS_EXCEPTION));
    };
    let Some((place, _)) = target else {
        return Ok(throws(ARRAY_INDEX_OUT_OF_BOUNDS_EXCEPTION));
    };
    let values = values_between(alloc, from, start, end, heap)?;
    store(alloc, kinds, to, place, values.as_slice(), heap)
}

/// arraycopy(OIOII)V.
fn arraycopy<K: Kinds>(
    alloc: Global,
    kinds: &K,
    args: &[Datum],
    heap: &Heap,
) -> Result<NativeEffect, NoMemory>
    ensures { IfOk result (λ e. e ≡ system_effect Arraycopy (K.seen kinds.now) args.now heap.now) }
{
    let (from, to) = (reference_in(args, 0), reference_in(args, 2));
    if from == 0 || to == 0 {
        return Ok(throws(NULL_POINTER_EXCEPTION));
    }
    if !can_copy(kind_or_none(from, heap), kind_or_none(to, heap)) {
        return Ok(throws(ARRAY_STORE_EXCEPTION));
    }
    let count = int_in(args, 4);
    let source = counted_range(int_in(args, 1), count, size_at(from, heap) as usize);
    let target = counted_range(int_in(args, 3), count, size_at(to, heap) as usize);
    copy_ranges(alloc, kinds, from, to, source, target, heap)
}

/// What a method does.
pub fn system_effect<K: Kinds>(
    alloc: Global,
    method: SystemMethod,
    kinds: &K,
    args: &[Datum],
    heap: &Heap,
) -> Result<NativeEffect, NoMemory>
    ensures { IfOk result (λ e. e ≡ system_effect method (K.seen kinds.now) args.now heap.now) }
{
    match method {
        SystemMethod::Exit => Ok(NativeEffect::Answers(Answer::Exit(int_in(args, 0)))),
        SystemMethod::Arraycopy => arraycopy(alloc, kinds, args, heap),
        SystemMethod::IdentityHashCode => {
            Ok(gives_int(number_as_int(reference_in(args, 0) as usize)))
        }
    }
}
