//! java/lang/Object and java/lang/Class, and the names of classes and arrays.

ghost use Rattle.std.specs.Prelude.{◌≡◌, ◌<◌, ◌++◌, IfOk, OnOk, map, replicate, codes, false, unwrap_or};
ghost use Rattle.native_effects.specs.Inputs.MadeViews.{class_of_object};
ghost use Rattle.std.specs.Fmt.{digits};
ghost use Rattle.native_ops.specs.Classes.Roots.{with_dot, class_name, letter_of, element_name, array_name, name_of_kind};
ghost use Rattle.native_ops.specs.Classes.Roots.{object_text, clone, object_effect, class_effect};

use crate::methods::method::{ClassMethod, ObjectMethod};
use base_classes::{CLONE_NOT_SUPPORTED_EXCEPTION, FIRST_ARRAY};
use heap_objects::{Datum, Heap};
use jf_bytes::{NoMemory, Seq};
use native_effects::{
    CLONEABLE_KIND, Kinds, Made, NativeEffect, gives_boolean, gives_int, gives_nothing,
    kind_or_none, number_as_int, reference_in, throws, units_of, values_at,
};
use std::alloc::Global;

fn with_dot(unit: u16) -> u16
    ensures { result ≡ with_dot unit }
{
    if unit == 47 { 46 } else { unit }
}

/// A name with dots for slashes.
fn with_dots(alloc: Global, name: &[u16]) -> Result<Seq<u16>, NoMemory>
    ensures { IfOk result (λ units. units ≡ map with_dot name.now) }
{
    let mut units = Seq::with_capacity(alloc, name.len())?;
    for unit in name {
        units.push(with_dot(*unit))?;
    }
    Ok(units)
}

/// A class's name, with dots for slashes.
fn class_name<K: Kinds>(alloc: Global, kinds: &K, class: u32) -> Result<Seq<u16>, NoMemory>
    ensures { IfOk result (λ units. units ≡ class_name (K.seen kinds.now) class) }
{
    match kinds.name(class) {
        Some(name) => with_dots(alloc, name.units()),
        None => Ok(Seq::new(alloc)),
    }
}

/// The letters of the primitive types, by their codes of newarray from 4 on.
fn letters() -> &'static [u8]
    ensures { result.now ≡ codes "ZCFDBSIJ" }
{
    "ZCFDBSIJ".as_bytes()
}

/// The letter of a primitive type in a descriptor, by the type's code of newarray.
fn letter_of(code: u32) -> u16
    ensures { result ≡ letter_of code }
{
    match letters().get(code.saturating_sub(4) as usize) {
        Some(letter) => u16::from(*letter),
        None => 63,
    }
}

/// So many units of `[`.
fn brackets(alloc: Global, dimensions: u32) -> Result<Seq<u16>, NoMemory>
    ensures { IfOk result (λ units. units ≡ replicate dimensions 91) }
{
    let mut units = Seq::new(alloc);
    for _ in 0..dimensions {
        units.push(91)?;
    }
    Ok(units)
}

/// The name of a class or of a primitive type, as a descriptor has it, behind units.
fn add_element_name<K: Kinds>(
    alloc: Global,
    kinds: &K,
    element: u32,
    units: &mut Seq<u16>,
) -> Result<(), NoMemory>
    ensures { OnOk result (units.new ≡ units.old ++ element_name (K.seen kinds.now) element) }
{
    if element < 16 {
        units.push(letter_of(element))?;
        return Ok(());
    }
    let name = class_name(alloc, kinds, element)?;
    units.push(76)?;
    units.extend_from_slice(name.as_slice())?;
    units.push(59)?;
    Ok(())
}

/// The descriptor of an array.
fn array_name<K: Kinds>(
    alloc: Global,
    kinds: &K,
    dimensions: u32,
    element: u32,
) -> Result<Seq<u16>, NoMemory>
    ensures { IfOk result (λ units. units ≡ array_name (K.seen kinds.now) dimensions element) }
{
    let mut units = brackets(alloc, dimensions)?;
    add_element_name(alloc, kinds, element, &mut units)?;
    Ok(units)
}

/// The name of a class or an array.
fn name_of_kind<K: Kinds>(alloc: Global, kinds: &K, kind: u32) -> Result<Seq<u16>, NoMemory>
    ensures { IfOk result (λ units. units ≡ name_of_kind (K.seen kinds.now) kind) }
{
    if kind < FIRST_ARRAY {
        class_name(alloc, kinds, kind)
    } else {
        array_name(alloc, kinds, kind / FIRST_ARRAY, kind % FIRST_ARRAY)
    }
}

/// A number in hexadecimal.
pub fn hex_of(alloc: Global, n: u32) -> Result<Seq<u16>, NoMemory>
    ensures { IfOk result (λ units. units ≡ digits 16 false n) }
{
    let text = format!(in alloc; "{n:x}")?;
    units_of(alloc, text.as_bytes())
}

/// The name of an object's class, `@`, and the object's number.
fn object_text<K: Kinds>(
    alloc: Global,
    kinds: &K,
    object: u32,
    heap: &Heap,
) -> Result<Seq<u16>, NoMemory>
    ensures { IfOk result (λ units. units ≡ object_text (K.seen kinds.now) object heap.now) }
{
    let mut units = name_of_kind(alloc, kinds, kind_or_none(object, heap))?;
    let number = hex_of(alloc, object)?;
    units.push(64)?;
    units.extend_from_slice(number.as_slice())?;
    Ok(units)
}

/// clone()O.
fn clone<K: Kinds>(
    alloc: Global,
    kinds: &K,
    kind: u32,
    object: u32,
    heap: &Heap,
) -> Result<NativeEffect, NoMemory>
    ensures { IfOk result (λ e. e ≡ clone (K.seen kinds.now) kind object heap.now) }
{
    if kind >= FIRST_ARRAY {
        return Ok(NativeEffect::MakesArray(kind, values_at(alloc, object, heap)?));
    }
    if !kinds.subtype(kind, CLONEABLE_KIND) {
        return Ok(throws(CLONE_NOT_SUPPORTED_EXCEPTION));
    }
    Ok(NativeEffect::MakesInstance(kind, values_at(alloc, object, heap)?))
}

/// What a method of java/lang/Object does.
pub fn object_effect<K: Kinds>(
    alloc: Global,
    method: ObjectMethod,
    kinds: &K,
    args: &[Datum],
    heap: &Heap,
) -> Result<NativeEffect, NoMemory>
    ensures { IfOk result (λ e. e ≡ object_effect method (K.seen kinds.now) args.now heap.now) }
{
    let this = reference_in(args, 0);
    match method {
        ObjectMethod::Init => Ok(gives_nothing()),
        ObjectMethod::Equals => Ok(gives_boolean(this == reference_in(args, 1))),
        ObjectMethod::HashCode => Ok(gives_int(number_as_int(this as usize))),
        ObjectMethod::ToText => Ok(NativeEffect::MakesText(object_text(alloc, kinds, this, heap)?)),
        ObjectMethod::GetClass => Ok(NativeEffect::GivesClass(kind_or_none(this, heap))),
        ObjectMethod::Clone => clone(alloc, kinds, kind_or_none(this, heap), this, heap),
    }
}

/// The name of what a Class object stands for.
fn name_of_class<K: Kinds>(
    alloc: Global,
    kinds: &K,
    object: u32,
    made: &Made,
) -> Result<Seq<u16>, NoMemory>
    ensures { IfOk result (λ units. units
        ≡ name_of_kind (K.seen kinds.now) (unwrap_or (class_of_object object made.now.classes) 0)) }
{
    name_of_kind(alloc, kinds, made.class_of(object).unwrap_or(0))
}

/// What a method of java/lang/Class does.
pub fn class_effect<K: Kinds>(
    alloc: Global,
    method: ClassMethod,
    kinds: &K,
    args: &[Datum],
    made: &Made,
) -> Result<NativeEffect, NoMemory>
    ensures { IfOk result (λ e. e ≡ class_effect method (K.seen kinds.now) args.now made.now) }
{
    match method {
        ClassMethod::GetName => Ok(NativeEffect::MakesText(name_of_class(
            alloc,
            kinds,
            reference_in(args, 0),
            made,
        )?)),
        ClassMethod::DesiredAssertionStatus => Ok(gives_int(0)),
    }
}
