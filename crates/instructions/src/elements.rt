//! Elements of arrays: iaload to saload, iastore to sastore (JVM Specification 6.5).

ghost use Rattle.std.specs.Prelude.{◌≡◌, true, false, IfOk, IfSome, IsSome, Some, nat_abs};
ghost use Rattle.std.specs.Fmt.{signed_decimal};
ghost use Rattle.const_pool.specs.declared.descriptor.Kind.TheVariants.{Int, Ref};
ghost use Rattle.std.specs.Option.{option_map};
ghost use Rattle.frame_stack.specs.FrameLists.{AreSound, top_operands};
ghost use Rattle.heap_objects.specs.Heaps.{has_slot_at};
ghost use Rattle.heap_objects.specs.Kinds.{element_of};
ghost use Rattle.jvm_basic.specs.Outcomes.{after, effect_of};
ghost use Rattle.jvm_basic.specs.Rules.{replaces};
ghost use Rattle.jvm_model.specs.Basis.Values.{as_value};
ghost use Rattle.jvm_model.specs.Instructions.ObjectRules.{Inside, access_to, index_in, array_element_of};
ghost use Rattle.jvm_model.specs.Instructions.ObjectRules.{serves, serves_object, storing_of};
ghost use Rattle.jvm_model.specs.Instructions.ObjectRules.{access_refused, loads_element};
ghost use Rattle.jvm_model.specs.Instructions.ObjectRules.{stores_element};
ghost use Rattle.jvm_model.specs.Basis.Data.{Operands};
ghost use Rattle.frame_stack.specs.FrameLists.{FramesView};
ghost use Rattle.member_selection.specs.Answers.{asking_in_frame};
ghost use Rattle.member_selection.specs.Outcomes.{Asks, HasOperands, HaveOperands, outcome_in_frame};
ghost use Rattle.symbolic_references.specs.Leaving.{Sets};
ghost use Rattle.instructions.specs.Elements.{access_of};
ghost use Rattle.instructions.specs.Elements.{IsLoaded, IsStored, drops_three, element_at};
ghost use Rattle.instructions.specs.Elements.{is_number, place_by, storing_by};

use const_pool::Kind;
use frame_stack::Frames;
use heap_objects::{Datum, ElementType, Heap, Value, element_of};
use jf_bytes::{NoMemory, Text16};
use jvm_basic::{Effect, drop_narrow, drop_three, exchange_two, recall, replace_two, value_of};
use jvm_model::Exception;
use member_selection::{AbruptCompletion, Outcome, datum_of};
use native_effects::units_of;
use prepared_code::{Parts, fits_array};
use prepared_lines::Line;
use std::alloc::Global;
use symbolic_references::Runtime;

/// Where an array and an index lead: the array is null, or the object none that the instruction
/// serves, or the index is outside, or it is that of an element.
#[derive(Clone, Copy)]
pub enum Led {
    ToNull,
    ToAnother,
    Outside,
    Inside(u32),
}

/// An array and an index.
#[derive(Clone, Copy)]
pub struct ArrayElement {
    pub array: u32,
    pub index: i32,
}

/// What is stored, and where.
#[derive(Clone, Copy)]
pub struct Storing {
    pub place: ArrayElement,
    pub datum: Datum,
}

/// Whether instructions of a kind serve arrays of these elements.
#[inline(always)]
fn serves(kind: Kind, element: ElementType) -> bool
    ensures { result ≡ serves kind element }
{
    match (kind, element) {
        (Kind::Int, ElementType::Int)
        | (Kind::Long, ElementType::Long)
        | (Kind::Ref, ElementType::Reference)
        | (Kind::Byte, ElementType::Byte | ElementType::Boolean)
        | (Kind::Char, ElementType::Char)
        | (Kind::Short, ElementType::Short) => true,
        _ => false,
    }
}

/// Whether they serve the object.
#[inline(always)]
fn serves_object(heap: &Heap, kind: Kind, object: u32) -> bool
    ensures { result ≡ serves_object kind object heap.now }
{
    match heap.kind(object) {
        Some(of_object) => serves(kind, element_of(of_object)),
        None => false,
    }
}

/// Whether an object has this slot.
#[tactic(auto, using(crate::proofs::Attempts::ElementLemmas::is_slot))]
#[inline(always)]
fn has_slot(heap: &Heap, object: u32, slot: u32) -> bool
    ensures { result ≡ has_slot_at object slot heap.now }
{
    heap.get(object, slot).is_some()
}

/// Where an index leads in an array.
#[inline(always)]
fn led_in(heap: &Heap, array: u32, index: i32) -> Led
    ensures { access_of result ≡ index_in array index heap.now }
{
    if index < 0 {
        return Led::Outside;
    }
    let slot = index as u32;
    if has_slot(heap, array, slot) {
        Led::Inside(slot)
    } else {
        Led::Outside
    }
}

/// Where an instruction of a kind is led.
#[inline(always)]
fn led_to(heap: &Heap, kind: Kind, place: &ArrayElement) -> Led
    ensures { access_of result ≡ access_to kind place.now.array place.now.index heap.now }
{
    if place.array == 0 {
        return Led::ToNull;
    }
    if serves_object(heap, kind, place.array) {
        led_in(heap, place.array, place.index)
    } else {
        Led::ToAnother
    }
}

/// A number in decimal.
fn text_of(alloc: Global, n: i32) -> Result<Text16, NoMemory>
    ensures { IfOk result (λ text. text ≡ signed_decimal n) }
{
    let text = n.to_string(alloc)?;
    Ok(Text16::new(units_of(alloc, text.as_bytes())?.into_vec()))
}

/// What an instruction asks for that is led to no element: an index outside is told.
fn outcome_without_element(alloc: Global, led: Led, index: i32) -> Result<Outcome, NoMemory>
    ensures answer { (f : FramesView) → IfOk result
        (λ a. outcome_in_frame a f ≡ access_refused (access_of led) index) }
    ensures enough { (o : Operands) → IfOk result (λ a. HasOperands a o) }
{
    match led {
        Led::ToNull => Ok(Outcome::Abrupt(AbruptCompletion::Raises(Exception::NullPointer, None))),
        Led::Outside => {
            let text = text_of(alloc, index)?;
            Ok(Outcome::Abrupt(AbruptCompletion::Raises(Exception::IndexOutside, Some(text))))
        }
        Led::ToAnother | Led::Inside(_) => Ok(Outcome::Abrupt(AbruptCompletion::Breaks)),
    }
}

/// The array and the index on top.
#[tactic(auto, using(crate::proofs::Attempts::QuickElements::place_is))]
#[inline(always)]
fn array_element_of(frames: &Frames) -> Option<ArrayElement>
    ensures { option_map place_by result ≡ array_element_of (top_operands frames.now.frames) }
{
    match frames.reference_and_int() {
        Some((array, index)) => Some(ArrayElement { array, index }),
        None => None,
    }
}

/// The array, the index and the int on top.
#[inline(always)]
fn int_storing_of(frames: &Frames) -> Option<Storing>
    ensures { option_map storing_by result ≡ storing_of Int (top_operands frames.now.frames) }
{
    let Some((index, n)) = frames.ints() else {
        return None;
    };
    match frames.peek(2) {
        Some(Value::Ref(array)) => Some(Storing {
            place: ArrayElement { array, index },
            datum: Datum::Int(n),
        }),
        _ => None,
    }
}

/// The array, the index and the value on top, which elements of a kind may have.
#[inline(always)]
fn any_storing_of(frames: &Frames, kind: Kind) -> Option<Storing>
    ensures { option_map storing_by result ≡ storing_of kind (top_operands frames.now.frames) }
{
    let value = frames.peek(0)?;
    let Some(Value::Int(index)) = frames.peek(1) else {
        return None;
    };
    let Some(Value::Ref(array)) = frames.peek(2) else {
        return None;
    };
    let datum = datum_of(kind, value)?;
    Some(Storing {
        place: ArrayElement { array, index },
        datum,
    })
}

/// The same, of ints by one read of the index and the value.
#[inline(always)]
fn storing_of(frames: &Frames, kind: Kind) -> Option<Storing>
    ensures { option_map storing_by result ≡ storing_of kind (top_operands frames.now.frames) }
{
    match kind {
        Kind::Int => int_storing_of(frames),
        _ => any_storing_of(frames, kind),
    }
}

/// The element to which an instruction of a kind is led.
#[tactic(auto, using(crate::proofs::Attempts::ElementLemmas::element_in))]
#[inline(always)]
fn element_at(heap: &Heap, kind: Kind, place: &ArrayElement) -> Option<Datum>
    ensures { let access = access_to kind place.now.array place.now.index heap.now in
        result ≡ element_at access place.now.array heap.now }
{
    if place.array == 0 {
        return None;
    }
    if !serves_object(heap, kind, place.array) {
        return None;
    }
    if place.index < 0 {
        return None;
    }
    heap.get(place.array, place.index as u32)
}

/// Loads an element of an array that instructions of this kind serve.
pub fn load_element(
    alloc: Global,
    runtime: &Runtime,
    frames: &Frames,
    kind: Kind,
) -> Result<Outcome, NoMemory>
    ensures answer { IfOk result (λ a. outcome_in_frame a frames.now ≡ asking_in_frame
        (λ l o. loads_element kind (array_element_of o) runtime.now.shared l o) frames.now) }
    ensures enough { HaveOperands result frames.now }
{
    let Some(place) = array_element_of(frames) else {
        return Ok(Outcome::Abrupt(AbruptCompletion::Breaks));
    };
    match element_at(runtime.heap(), kind, &place) {
        Some(datum) => Ok(Outcome::Goes(2, Some(value_of(datum)))),
        None => outcome_without_element(alloc, led_to(runtime.heap(), kind, &place), place.index),
    }
}

/// Stores an element of an array that instructions of this kind serve.
pub fn store_element(
    alloc: Global,
    runtime: &mut Runtime,
    frames: &Frames,
    kind: Kind,
) -> Result<Outcome, NoMemory>
    ensures answer { let w = runtime.old.world in let s = runtime.old.shared in Asks result
        (λ l o. stores_element w.program kind (storing_of kind o) s l o) frames.now }
    ensures runtime { let w = runtime.old.world in let s = runtime.old.shared in Sets result
        runtime.new (λ l o. stores_element w.program kind (storing_of kind o) s l o) frames.now
        runtime.old }
    ensures enough { HaveOperands result frames.now }
    ensures world { runtime.new.world ≡ runtime.old.world }
    ensures same_loaded { runtime.new.shared.loaded ≡ runtime.old.shared.loaded }
{
    let Some(storing) = storing_of(frames, kind) else {
        return Ok(Outcome::Abrupt(AbruptCompletion::Breaks));
    };
    let place = storing.place;
    let led = led_to(runtime.heap(), kind, &place);
    let Led::Inside(slot) = led else {
        return outcome_without_element(alloc, led, place.index);
    };
    if !fits_array(runtime.linker(), runtime.heap(), storing.datum, place.array) {
        return Ok(Outcome::Abrupt(AbruptCompletion::Raises(Exception::ArrayStore, None)));
    }
    runtime.store_at(place.array, slot, storing.datum);
    Ok(Outcome::Goes(3, None))
}

// ---- where nothing is raised

/// Whether it is a number.
#[inline(always)]
fn is_number(datum: Datum) -> bool
    ensures { result ≡ is_number datum }
{
    match datum {
        Datum::Ref(_) => false,
        Datum::Int(_) | Datum::Long(_) => true,
    }
}

/// The int to which an instruction is led, by one look-up. None does not say that there is none.
#[inline(always)]
fn int_for(heap: &Heap, array: u32, index: i32) -> Option<i32>
    ensures element { IfSome result
        (λ n. element_at (access_to Int array index heap.now) array heap.now ≡ Some (Datum.Int n)) }
    ensures slot { IfSome result
        (λ n. access_to Int array index heap.now ≡ Inside (nat_abs index)) }
{
    if index < 0 {
        return None;
    }
    heap.int_at(array, index as u32)
}

/// The reference to which an instruction is led, by one look-up. None does not say that there is
/// none.
#[inline(always)]
fn reference_for(heap: &Heap, array: u32, index: i32) -> Option<u32>
    ensures { IfSome result
        (λ r. element_at (access_to Ref array index heap.now) array heap.now ≡ Some (Datum.Ref r)) }
{
    if index < 0 {
        return None;
    }
    heap.reference_at(array, index as u32)
}

/// The element to which an instruction of a kind is led: an int or a reference by one look-up.
#[inline(always)]
fn element_for(heap: &Heap, kind: Kind, place: &ArrayElement) -> Option<Datum>
    ensures { let access = access_to kind place.now.array place.now.index heap.now in
        IfSome result (λ datum. element_at access place.now.array heap.now ≡ Some datum) }
{
    match kind {
        Kind::Int => match int_for(heap, place.array, place.index) {
            Some(n) => Some(Datum::Int(n)),
            None => None,
        },
        Kind::Ref => match reference_for(heap, place.array, place.index) {
            Some(reference) => Some(Datum::Ref(reference)),
            None => None,
        },
        _ => element_at(heap, kind, place),
    }
}

/// The slot of the int to which an instruction is led, by one look-up. None does not say that there
/// is none.
#[inline(always)]
fn int_slot(heap: &Heap, array: u32, index: i32) -> Option<u32>
    ensures { IfSome result (λ slot. access_to Int array index heap.now ≡ Inside slot) }
{
    if index < 0 {
        return None;
    }
    match int_for(heap, array, index) {
        Some(_) => Some(index as u32),
        None => None,
    }
}

/// The slot of an element, where an instruction of a kind is led to one: of an int by one look-up.
#[inline(always)]
fn slot_for(heap: &Heap, kind: Kind, place: &ArrayElement) -> Option<u32>
    ensures { let access = access_to kind place.now.array place.now.index heap.now in
        IfSome result (λ slot. access ≡ Inside slot) }
{
    match kind {
        Kind::Int => int_slot(heap, place.array, place.index),
        _ => match led_to(heap, kind, place) {
            Led::Inside(slot) => Some(slot),
            _ => None,
        },
    }
}

/// Puts an element in place of its array and the index.
#[tactic(auto, using(crate::proofs::Attempts::QuickElements::place_narrow))]
#[inline(always)]
fn put_element(frames: &mut Frames, datum: Datum, next: u16) -> Effect
    requires place { IsSome (array_element_of (top_operands frames.old.frames)) }
    ensures effect { result
        ≡ effect_of (replaces 2 (Some (as_value datum)) next) frames.old }
    ensures frames { frames.new
        ≡ after (replaces 2 (Some (as_value datum)) next) frames.old }
{
    recall(frames);
    match datum {
        Datum::Int(n) => exchange_two(frames, Value::Int(n), next),
        Datum::Ref(reference) => exchange_two(frames, Value::Ref(reference), next),
        Datum::Long(n) => replace_two(frames, Value::Long(n), next),
    }
}

/// Loads an element where nothing is raised. False, with nothing changed, where the frame does not
/// go on.
#[inline(always)]
pub fn pass_load(parts: &mut Parts, line: &Line, kind: Kind) -> bool
    ensures gone { result ≡ true → IsLoaded line.now kind parts.old parts.new }
    ensures kept { result ≡ false → parts.new ≡ parts.old }
{
    let Some(place) = array_element_of(&parts.frames) else {
        return false;
    };
    let Some(datum) = element_for(parts.runtime.heap(), kind, &place) else {
        return false;
    };
    let effect = put_element(&mut parts.frames, datum, line.next);
    matches!(effect, Effect::Next)
}

/// Takes the array, the index and the int off.
#[tactic(auto, using(crate::proofs::Attempts::QuickElements::storing_narrow))]
#[inline(always)]
fn drop_ints(frames: &mut Frames, next: u16) -> Effect
    requires sound { AreSound frames.old.frames }
    requires storing { IsSome (storing_of Int (top_operands frames.old.frames)) }
    ensures effect { result ≡ effect_of (drops_three next) frames.old }
    ensures frames { frames.new ≡ after (drops_three next) frames.old }
{
    drop_narrow(frames, 3, next)
}

/// Takes the array, the index and the value off.
#[inline(always)]
fn drop_stored(frames: &mut Frames, kind: Kind, next: u16) -> Effect
    requires sound { AreSound frames.old.frames }
    requires storing { IsSome (storing_of kind (top_operands frames.old.frames)) }
    ensures effect { result ≡ effect_of (drops_three next) frames.old }
    ensures frames { frames.new ≡ after (drops_three next) frames.old }
{
    match kind {
        Kind::Int => drop_ints(frames, next),
        _ => drop_three(frames, next),
    }
}

/// Stores a number where nothing is raised. False, with nothing changed, where the frame does not
/// go on.
#[inline(always)]
pub fn pass_store(parts: &mut Parts, line: &Line, kind: Kind) -> bool
    ensures gone { result ≡ true → IsStored line.now kind parts.old parts.new }
    ensures kept { result ≡ false → parts.new ≡ parts.old }
{
    let Some(storing) = storing_of(&parts.frames, kind) else {
        return false;
    };
    if !is_number(storing.datum) {
        return false;
    }
    let Some(slot) = slot_for(parts.runtime.heap(), kind, &storing.place) else {
        return false;
    };
    recall(&parts.frames);
    let effect = drop_stored(&mut parts.frames, kind, line.next);
    if !matches!(effect, Effect::Next) {
        return false;
    }
    parts
        .runtime
        .store_at(storing.place.array, slot, storing.datum);
    true
}
