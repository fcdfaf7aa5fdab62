//! What an effect does.

ghost use Rattle.std.specs.Prelude.{◌≡◌, ◌++◌, IfOk, None, is_ok};
ghost use Rattle.heap_objects.specs.Changes.{changed_if};
ghost use Rattle.native_effects.specs.Effects.Making.{answer_of_class, heap_after_class, made_after_class};
ghost use Rattle.native_effects.specs.Effects.Making.{answer_of_box, heap_after_box, made_after_box};
ghost use Rattle.native_effects.specs.Effects.Worlds.{world, answer_of, after};

use crate::effects::answer::Answer;
use crate::effects::effect::NativeEffect;
use crate::effects::made::Made;
use crate::effects::making::{
    append, intern, make_array, make_instance, make_text, object_answer, put_fields, put_unit,
    put_values, replace, resize,
};
use crate::effects::ports::{print, read_byte};
use heap_objects::{Datum, Heap};
use jf_bytes::{NoMemory, Seq};
use std::alloc::Global;

/// The Class object of a kind.
fn give_class(kind: u32, heap: &mut Heap, made: &mut Made) -> Result<Answer, NoMemory>
    ensures answer { IfOk result (λ a. a ≡ answer_of_class kind made.old heap.old) }
    ensures heap { heap.new ≡ changed_if (is_ok result) (heap_after_class kind made.old) heap.old }
    ensures made { made.new ≡ changed_if (is_ok result) (made_after_class kind heap.old) made.old }
{
    object_answer(made.class_object(kind, heap))
}

/// The object of a class that is made once for a value.
fn give_box(
    kind: u32,
    place: u32,
    value: Datum,
    heap: &mut Heap,
    made: &mut Made,
) -> Result<Answer, NoMemory>
    ensures answer { IfOk result (λ a. a ≡ answer_of_box kind place made.old heap.old) }
    ensures heap { heap.new
        ≡ changed_if (is_ok result) (heap_after_box kind place value made.old) heap.old }
    ensures made { made.new
        ≡ changed_if (is_ok result) (made_after_box kind place heap.old) made.old }
{
    object_answer(made.box_object(kind, place, value, heap))
}

/// Does what an effect says, and answers. An Err changes nothing.
pub fn carry_out(
    alloc: Global,
    effect: NativeEffect,
    heap: &mut Heap,
    made: &mut Made,
    input: &[u8],
    read: &mut usize,
    output: &mut Seq<u8>,
) -> Result<Answer, NoMemory>
    ensures answer { IfOk result (λ a. a
        ≡ answer_of effect (world heap.old made.old input.now read.old)) }
    ensures heap { heap.new ≡ (changed_if (is_ok result) (after effect)
        (world heap.old made.old input.now read.old)).heap }
    ensures made { made.new ≡ (changed_if (is_ok result) (after effect)
        (world heap.old made.old input.now read.old)).made }
    ensures read { read.new ≡ (changed_if (is_ok result) (after effect)
        (world heap.old made.old input.now read.old)).read }
    ensures output { output.new ≡ output.old ++ (changed_if (is_ok result) (after effect)
        (world heap.old made.old input.now read.old)).wrote }
{
    match effect {
        NativeEffect::Answers(answer) => Ok(answer),
        NativeEffect::MakesText(units) => make_text(units, heap),
        NativeEffect::MakesArray(kind, values) => make_array(kind, values.as_slice(), heap),
        NativeEffect::MakesInstance(kind, fields) => make_instance(kind, fields.as_slice(), heap),
        NativeEffect::Appends(object, units) => append(object, units.as_slice(), heap),
        NativeEffect::Replaces(object, units, value) => replace(object, units, value, heap),
        NativeEffect::PutsUnit(object, at, unit) => Ok(put_unit(object, at, unit, heap)),
        NativeEffect::Resizes(object, size) => resize(alloc, object, size, heap),
        NativeEffect::Interns(units) => intern(units.as_slice(), heap),
        NativeEffect::Prints(units) => print(alloc, units, output),
        NativeEffect::Reads => Ok(read_byte(input, read)),
        NativeEffect::Stores(array, place, values, answer) => {
            put_values(array, place, values.as_slice(), heap);
            Ok(answer)
        }
        NativeEffect::SetsFields(object, first, second) => {
            put_fields(object, first, second, heap);
            Ok(Answer::Value(None))
        }
        NativeEffect::GivesClass(kind) => give_class(kind, heap, made),
        NativeEffect::GivesBox(kind, place, value) => give_box(kind, place, value, heap, made),
    }
}
