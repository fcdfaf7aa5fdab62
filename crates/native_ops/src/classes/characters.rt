//! java/lang/Character, java/lang/Boolean and java/lang/Math.

ghost use Rattle.std.specs.Prelude.{◌≡◌, IfOk, pos};
ghost use Rattle.heap_objects.specs.declared.datum.Datum.TheVariants.{Int};
ghost use Rattle.native_effects.specs.declared.effects.effect.NativeEffect.TheVariants.{GivesBox};
ghost use Rattle.native_effects.specs.Inputs.Numbers.{boolean_kind};
ghost use Rattle.native_ops.specs.Classes.Characters.{is_letter, is_whitespace, char_value, same_boxes, character_effect};
ghost use Rattle.native_ops.specs.Classes.Characters.{bit_of, hash_of_boolean, boolean_value, boolean_effect};
ghost use Rattle.native_ops.specs.Classes.Characters.{absolute_int, absolute_long, math_effect};

use crate::classes::boxes::{box_of, char_place};
use crate::methods::method::{BooleanMethod, CharacterMethod, MathMethod};
use heap_objects::{Datum, Heap};
use int_ops::{neg_i32, neg_i64};
use jf_bytes::NoMemory;
use native_effects::{
    BOOLEAN_KIND, CHARACTER_KIND, Kinds, NativeEffect, boolean_in, char_in, char_of, gives_boolean,
    gives_int, gives_long, int_field, int_in, is_digit, is_instance, is_true, long_in,
    reference_in, text_at, text_of_boolean, unit_alone,
};
use std::alloc::Global;

fn is_letter(unit: u16) -> bool
    ensures { result ≡ is_letter unit }
{
    (65 <= unit && unit <= 90) || (97 <= unit && unit <= 122)
}

fn is_whitespace(unit: u16) -> bool
    ensures { result ≡ is_whitespace unit }
{
    (9 <= unit && unit <= 13) || (28 <= unit && unit <= 32)
}

/// The value in a box of a char.
fn char_value(object: u32, heap: &Heap) -> u16
    ensures { result ≡ char_value object heap.now }
{
    char_of(int_field(object, 0, heap))
}

/// Whether another object is a box of this class with an equal value.
fn same_boxes<K: Kinds>(kinds: &K, kind: u32, object: u32, other: u32, heap: &Heap) -> bool
    ensures { result ≡ same_boxes (K.seen kinds.now) kind object other heap.now }
{
    is_instance(kinds, kind, other, heap) && int_field(object, 0, heap) == int_field(other, 0, heap)
}

/// What a method of java/lang/Character does.
pub fn character_effect<K: Kinds>(
    alloc: Global,
    method: CharacterMethod,
    kinds: &K,
    args: &[Datum],
    heap: &Heap,
) -> Result<NativeEffect, NoMemory>
    ensures { IfOk result (λ e. e ≡ character_effect method (K.seen kinds.now) args.now heap.now) }
{
    let this = reference_in(args, 0);
    let unit = char_in(args, 0);
    match method {
        CharacterMethod::ValueOf => {
            let value = Datum::Int(i32::from(unit));
            box_of(alloc, CHARACTER_KIND, char_place(unit), value)
        }
        CharacterMethod::TextOf => Ok(NativeEffect::MakesText(unit_alone(alloc, unit)?)),
        CharacterMethod::IsDigit => Ok(gives_boolean(is_digit(unit))),
        CharacterMethod::IsLetter => Ok(gives_boolean(is_letter(unit))),
        CharacterMethod::IsWhitespace => Ok(gives_boolean(is_whitespace(unit))),
        CharacterMethod::CharValue => Ok(gives_int(i32::from(char_value(this, heap)))),
        CharacterMethod::Equals => {
            let other = reference_in(args, 1);
            Ok(gives_boolean(same_boxes(kinds, CHARACTER_KIND, this, other, heap)))
        }
        CharacterMethod::HashCode => Ok(gives_int(i32::from(char_value(this, heap)))),
        CharacterMethod::ToText => {
            let value = char_value(this, heap);
            Ok(NativeEffect::MakesText(unit_alone(alloc, value)?))
        }
    }
}

fn bit_of(b: bool) -> u32
    ensures { result ≡ bit_of b }
{
    if b { 1 } else { 0 }
}

fn hash_of_boolean(b: bool) -> i32
    ensures { result ≡ hash_of_boolean b }
{
    if b { 1231 } else { 1237 }
}

/// The value in a box of a boolean.
fn boolean_value(object: u32, heap: &Heap) -> bool
    ensures { result ≡ boolean_value object heap.now }
{
    int_field(object, 0, heap) != 0
}

/// The box that is made once for a boolean.
fn box_of_boolean(b: bool) -> NativeEffect
    ensures { result ≡ GivesBox boolean_kind (bit_of b) (Int (pos (bit_of b))) }
{
    let value = Datum::Int(if b { 1 } else { 0 });
    NativeEffect::GivesBox(BOOLEAN_KIND, bit_of(b), value)
}

/// What a method of java/lang/Boolean does.
pub fn boolean_effect<K: Kinds>(
    alloc: Global,
    method: BooleanMethod,
    kinds: &K,
    args: &[Datum],
    heap: &Heap,
) -> Result<NativeEffect, NoMemory>
    ensures { IfOk result (λ e. e ≡ boolean_effect method (K.seen kinds.now) args.now heap.now) }
{
    let this = reference_in(args, 0);
    match method {
        BooleanMethod::ValueOf => Ok(box_of_boolean(boolean_in(args, 0))),
        BooleanMethod::Parse => Ok(gives_boolean(is_true(alloc, text_at(this, heap))?)),
        BooleanMethod::BooleanValue => Ok(gives_boolean(boolean_value(this, heap))),
        BooleanMethod::Equals => {
            let other = reference_in(args, 1);
            Ok(gives_boolean(same_boxes(kinds, BOOLEAN_KIND, this, other, heap)))
        }
        BooleanMethod::HashCode => Ok(gives_int(hash_of_boolean(boolean_value(this, heap)))),
        BooleanMethod::ToText => {
            let value = boolean_value(this, heap);
            Ok(NativeEffect::MakesText(text_of_boolean(alloc, value)?))
        }
    }
}

fn absolute_int(n: i32) -> i32
    ensures { result ≡ absolute_int n }
{
    if n < 0 { neg_i32(n) } else { n }
}

fn absolute_long(n: i64) -> i64
    ensures { result ≡ absolute_long n }
{
    if n < 0 { neg_i64(n) } else { n }
}

/// What a method of java/lang/Math does.
pub fn math_effect(method: MathMethod, args: &[Datum]) -> NativeEffect
    ensures { result ≡ math_effect method args.now }
{
    match method {
        MathMethod::AbsInt => gives_int(absolute_int(int_in(args, 0))),
        MathMethod::MaxInt => gives_int(int_in(args, 0).max(int_in(args, 1))),
        MathMethod::MinInt => gives_int(int_in(args, 0).min(int_in(args, 1))),
        MathMethod::AbsLong => gives_long(absolute_long(long_in(args, 0))),
        MathMethod::MaxLong => gives_long(long_in(args, 0).max(long_in(args, 1))),
        MathMethod::MinLong => gives_long(long_in(args, 0).min(long_in(args, 1))),
    }
}
