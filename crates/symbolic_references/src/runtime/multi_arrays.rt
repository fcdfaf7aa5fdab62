//! multianewarray (JVM Specification 6.5), where the name was resolved.

ghost use Rattle.std.specs.Prelude.{◌≡◌, ◌≤◌, ◌+◌, ◌*◌, ◌/◌, length, nat_le, pos};
ghost use Rattle.std.specs.Prelude.{[], slice_get, IfOk, OnOk};
ghost use Rattle.frame_stack.specs.FrameLists.{top_operands};
ghost use Rattle.heap_objects.specs.Heaps.{next_number, with_array};
ghost use Rattle.heap_objects.specs.declared.datum.Datum.TheVariants.{Int};
ghost use Rattle.jvm_model.specs.Instructions.CreationRules.{allocates, counts_of, lengths_of, makes_arrays};
ghost use Rattle.jvm_model.specs.Instructions.CreationRules.{makes_by_counts, slots_of_arrays, with_arrays};
ghost use Rattle.member_selection.specs.Arrays.{number_capped, int_at, lengths_from};
ghost use Rattle.member_selection.specs.Objects.{AreLoaded, IsUsable};
ghost use Rattle.class_linker.specs.Linkers.{LinkerView};
ghost use Rattle.member_selection.specs.Outcomes.{Asks, HaveOperands};
ghost use Rattle.symbolic_references.specs.Leaving.{Sets};
ghost use Rattle.symbolic_references.specs.Runtimes.{linker_in};
ghost use Rattle.member_selection.specs.Arrays.{AreUsable};

use crate::runtime::Runtime;
use crate::runtime::creation::RESERVED;
use crate::runtime::fields::put_slot;
use base_classes::FIRST_ARRAY;
use frame_stack::Frames;
use heap_objects::{Datum, Heap, HeapError, Value};
use jf_bytes::{NoMemory, Seq};
use jvm_model::Exception;
use member_selection::{AbruptCompletion, Outcome};
use std::alloc::Global;

// ---- the operands

/// The int that has so many operands above it.
fn int_below(frames: &Frames, above: u16) -> Option<i32>
    ensures { result ≡ int_at (slice_get (top_operands frames.now.frames) above) }
{
    match frames.peek(above) {
        Some(Value::Int(n)) => Some(n),
        _ => None,
    }
}

/// The ints that are so many topmost operands, the lowest first.
fn counts_of(alloc: Global, frames: &Frames, dimensions: u8) -> Result<Option<Seq<i32>>, NoMemory>
    ensures { IfOk result (λ counts. counts
        ≡ counts_of dimensions (top_operands frames.now.frames)) }
{
    let mut counts = Seq::new(alloc);
    let mut left = dimensions;
    while left > 0 {
        left -= 1;
        let Some(count) = int_below(frames, left as u16) else {
            return Ok(None);
        };
        counts.push(count)?;
    }
    Ok(Some(counts))
}

/// The same numbers, where none is negative.
#[tactic(auto, using(crate::proofs::ArraysMade::lengths_read))]
fn lengths_of(alloc: Global, counts: &[i32]) -> Result<Option<Seq<u32>>, NoMemory>
    ensures { IfOk result (λ lengths. lengths ≡ lengths_of counts.now) }
{
    read_lengths(alloc, counts)
}

/// The same, one number after the other.
fn read_lengths(alloc: Global, counts: &[i32]) -> Result<Option<Seq<u32>>, NoMemory>
    ensures { IfOk result (λ lengths. lengths ≡ lengths_from [] counts.now) }
{
    let mut lengths = Seq::new(alloc);
    for count in counts {
        if *count < 0 {
            return Ok(None);
        }
        lengths.push(*count as u32)?;
    }
    Ok(Some(lengths))
}

// ---- room

/// A product, or the greatest number where it is greater.
fn times(a: usize, b: usize) -> usize
    ensures { result ≡ number_capped (a * b) }
{
    match a.checked_mul(b) {
        Some(product) => product,
        None => usize::MAX,
    }
}

/// A sum, or the greatest number where it is greater.
fn plus(a: usize, b: usize) -> usize
    ensures { result ≡ number_capped (a + b) }
{
    match a.checked_add(b) {
        Some(sum) => sum,
        None => usize::MAX,
    }
}

/// How many slots arrays of these lengths take, or the greatest number where it is greater.
fn slots_of_arrays(lengths: &[u32]) -> usize
    ensures { result ≡ number_capped (slots_of_arrays lengths.now) }
{
    let Some((first, rest)) = lengths.split_first() else {
        return 0;
    };
    let count = *first as usize;
    let parts = times(count, slots_of_arrays(rest));
    plus(1 + count, parts)
}

/// Whether there is room for arrays of these lengths.
fn has_room_for(heap: &Heap, lengths: &[u32]) -> bool
    ensures { result ≡ nat_le (heap.now.used + slots_of_arrays lengths.now) heap.now.limit }
{
    let slots = slots_of_arrays(lengths);
    // A heap has fewer than 2^32 slots, so no more than the greatest number stands for.
    if slots > heap.limit() as usize {
        return false;
    }
    heap.has_room(slots)
}

// ---- the arrays

/// The number of an array that was made, and that of the object that is made next.
#[derive(Clone, Copy)]
pub struct MadeArray {
    pub array: u32,
    pub next: u32,
}

/// An array of this kind, for which there is room. The classes of all objects stay loaded, also
/// after want of memory.
#[tactic(auto, using(member_selection::proofs::ObjectLemmas::objects_with))]
fn make_one(heap: &mut Heap, kind: u32, count: u32) -> Result<MadeArray, NoMemory>
    requires room { heap.old.used + (1 + count) ≤ heap.old.limit }
    ensures array { IfOk result (λ m. m.array ≡ next_number heap.old) }
    ensures next { IfOk result (λ m. m.next ≡ next_number heap.new) }
    ensures heap { OnOk result (heap.new ≡ with_array kind (Int (pos 0)) count heap.old) }
    ensures loaded { (l : LinkerView) → IsUsable l kind → AreLoaded l heap.old
        → AreLoaded l heap.new }
{
    let array = match heap.array(kind, Datum::Int(0), count) {
        Ok(number) => number,
        // There is room.
        Err(HeapError::HeapFull) => unreachable!(),
        Err(HeapError::NoMemory) => return Err(NoMemory),
    };
    match array.checked_add(1) {
        Some(next) => Ok(MadeArray { array, next }),
        None => Err(NoMemory),
    }
}

/// An array of this kind, and then its parts, each with all below it: depth first. There is room
/// for them all, and at least one length.
fn make_all(heap: &mut Heap, kind: u32, lengths: &[u32]) -> Result<MadeArray, NoMemory>
    requires least { 1 ≤ length lengths.now }
    requires room { heap.old.used + slots_of_arrays lengths.now ≤ heap.old.limit }
    ensures array { IfOk result (λ m. m.array ≡ next_number heap.old) }
    ensures next { IfOk result (λ m. m.next ≡ next_number heap.new) }
    ensures heap { OnOk result (heap.new ≡ with_arrays kind lengths.now heap.old) }
    ensures loaded { (l : LinkerView) → AreUsable l kind lengths.now → AreLoaded l heap.old
        → AreLoaded l heap.new }
{
    let Some((first, rest)) = lengths.split_first() else {
        unreachable!()
    };
    let count = *first;
    let made = make_one(heap, kind, count)?;
    if rest.is_empty() {
        return Ok(made);
    }
    let mut next = made.next;
    for at in 0..count {
        put_slot(heap, made.array, at, Datum::Ref(next));
        let part = make_all(heap, kind.saturating_sub(FIRST_ARRAY), rest)?;
        next = part.next;
    }
    Ok(MadeArray {
        array: made.array,
        next,
    })
}

impl Runtime {
    /// Arrays of these lengths, where there is room for them, in place of the numbers.
    #[tactic(auto, using(crate::proofs::Carried::enough_operands))]
    fn make_lengths(
        &mut self,
        frames: &Frames,
        kind: u32,
        lengths: &[u32],
        dimensions: u8,
    ) -> Result<Outcome, NoMemory>
        requires usable { IsUsable (linker_in self.old) kind }
        requires least { 1 ≤ length lengths.now }
        requires most { length lengths.now ≤ kind / 16777216 }
        requires enough { dimensions ≤ length (top_operands frames.now.frames) }
        ensures answer { Asks result (allocates (slots_of_arrays lengths.now)
            (with_arrays kind lengths.now) dimensions self.old.shared) frames.now }
        ensures runtime { Sets result self.new (allocates (slots_of_arrays lengths.now)
            (with_arrays kind lengths.now) dimensions self.old.shared) frames.now self.old }
        ensures world { self.new.world ≡ self.old.world }
        ensures same_loaded { self.new.shared.loaded ≡ self.old.shared.loaded }
        ensures enough { HaveOperands result frames.now }
    {
        if !has_room_for(&self.heap, lengths) {
            return Ok(Outcome::Abrupt(AbruptCompletion::Throws(RESERVED)));
        }
        let made = make_all(&mut self.heap, kind, lengths)?;
        Ok(Outcome::Goes(dimensions as u16, Some(Value::Ref(made.array))))
    }

    /// The same, of as many elements as the counts say.
    fn make_counts(
        &mut self,
        frames: &Frames,
        kind: u32,
        counts: &[i32],
        dimensions: u8,
    ) -> Result<Outcome, NoMemory>
        requires usable { IsUsable (linker_in self.old) kind }
        requires least { 1 ≤ length counts.now }
        requires most { length counts.now ≤ kind / 16777216 }
        requires enough { dimensions ≤ length (top_operands frames.now.frames) }
        ensures answer { Asks result
            (makes_arrays kind dimensions (lengths_of counts.now) self.old.shared) frames.now }
        ensures runtime { Sets result self.new
            (makes_arrays kind dimensions (lengths_of counts.now) self.old.shared)
            frames.now self.old }
        ensures world { self.new.world ≡ self.old.world }
        ensures same_loaded { self.new.shared.loaded ≡ self.old.shared.loaded }
        ensures enough { HaveOperands result frames.now }
    {
        let Some(lengths) = lengths_of(self.alloc, counts)? else {
            return Ok(Outcome::Abrupt(AbruptCompletion::Raises(
                Exception::NegativeArraySize,
                None,
            )));
        };
        let lengths = lengths.as_slice();
        self.make_lengths(frames, kind, lengths, dimensions)
    }

    /// multianewarray.
    pub fn make_arrays(
        &mut self,
        frames: &Frames,
        kind: u32,
        dimensions: u8,
    ) -> Result<Outcome, NoMemory>
        requires usable { IsUsable (linker_in self.old) kind }
        requires least { 1 ≤ dimensions }
        requires most { dimensions ≤ kind / 16777216 }
        ensures answer { Asks result
            (λ l o. makes_by_counts kind dimensions (counts_of dimensions o) self.old.shared l o)
            frames.now }
        ensures runtime { Sets result self.new
            (λ l o. makes_by_counts kind dimensions (counts_of dimensions o) self.old.shared l o)
            frames.now self.old }
        ensures world { self.new.world ≡ self.old.world }
        ensures same_loaded { self.new.shared.loaded ≡ self.old.shared.loaded }
        ensures enough { HaveOperands result frames.now }
    {
        let Some(counts) = counts_of(self.alloc, frames, dimensions)? else {
            return Ok(Outcome::Abrupt(AbruptCompletion::Breaks));
        };
        let counts = counts.as_slice();
        self.make_counts(frames, kind, counts, dimensions)
    }
}
