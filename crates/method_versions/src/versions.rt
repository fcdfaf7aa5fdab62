//! The table of versions.

ghost use Rattle.std.specs.Prelude.{◌≡◌, ◌<◌, ◌+◌, ◌-◌, ◌≤◌, ◌++◌, ℕ, None, Some, is_some, length, true, slice_set, if◌then◌else◌, ◌==◌, ◌&&◌, filter, not, vec_capacity, vec_len, OnOk, option_copied};
ghost use Rattle.std.specs.Prelude.{◌⊎◌, IsErr};
ghost use Rattle.std.specs.List.{list_all};
ghost use Rattle.frame_stack.specs.FrameLists.{pins_of};
ghost use Rattle.slab.specs.Slab.{slab_len};
ghost use Rattle.method_versions.specs.Tables.{IsFirst, current_of, held_at, held_in, held_for};
ghost use Rattle.method_versions.specs.Tables.{held_anew, held_but, held_with};

use frame_stack::Frames;
use jf_bytes::NoMemory;
use slab::Slab;
use std::alloc::Global;
use std::marker::Model;

/// A version of a method, with what is prepared of it.
#[derive(Debug, Drop)]
pub struct Held<T> {
    pub method: u32,
    pub prepared: T,
}

/// Versions by their numbers, and for each method the one that it begins in. A version stays while its method begins in
/// it or a frame runs it: `add` drops the former one where no frame runs it, and `release` is for frames that have
/// ended. The number of a dropped version may be given again. Only `reserve` takes memory.
#[derive(Drop)]
pub struct Versions<T> {
    // those that the table was made with, by their numbers; the numbers of the others follow
    first: Vec<Option<Held<T>>>,
    later: Slab<Held<T>>,
    current: Vec<usize>,
    // each superseded one that is held
    superseded: Vec<usize>,
}

impl<T> Model for Versions<T> {
    ghost use Rattle.std.specs.Prelude.{◌++◌, ◌+◌, ◌-◌, length, min, vec_capacity};
    ghost use Rattle.slab.specs.Slab.{slab_len};
    ghost use Rattle.method_versions.specs.Tables.{Table, table_code, spare_of, IsTable};

    ghost Value = { Table T };

    ghost coded = { table_code T.code };

    ghost view = { λ v. record {
      slots = v.first.items ++ v.later.slots;
      current = v.current.items;
      spare = spare_of (length v.first.items + v.later.capacity)
          (min (v.later.capacity - slab_len v.later)
          (vec_capacity v.superseded - length v.superseded.items));
    } };

    ghost invariant = { λ v. IsTable v.first.items v.later.slots v.current.items
        v.superseded.items };
}

impl<T> Versions<T> {
    /// A table of these versions, by their numbers. Each method begins in its own.
    pub fn of(alloc: Global, first: Vec<Option<Held<T>>>, current: Vec<usize>) -> Versions<T>
        requires { IsFirst first.items current.items }
        ensures slots { result.slots ≡ first.items }
        ensures current { result.current ≡ current.items }
    {
        Versions {
            first,
            later: Slab::new(alloc),
            current,
            superseded: Vec::new(alloc),
        }
    }

    /// Makes room for so many more versions. An Err says that memory ran out: the room is as before or larger then, or
    /// there is none, where numbers of versions would pass a u32.
    pub fn reserve(&mut self, more: usize) -> Result<(), NoMemory>
        ensures room { OnOk result (more ≤ self.new.spare) }
        ensures spare { OnOk result (self.old.spare ≤ self.new.spare) }
        ensures short { IsErr result → (self.old.spare ≤ self.new.spare) ⊎ (self.new.spare ≡ 0) }
        ensures slots { self.new.slots ≡ self.old.slots }
        ensures current { self.new.current ≡ self.old.current }
    {
        if self.later.reserve(more).is_err() {
            return Err(NoMemory);
        }
        if self.superseded.reserve(more).is_err() {
            return Err(NoMemory);
        }
        if self.first.len() > 4294967296 || self.later.capacity() > 4294967296 - self.first.len() {
            return Err(NoMemory);
        }
        Ok(())
    }

    /// The version with this number, or None where there is none.
    #[inline(always)]
    pub fn get(&self, number: usize) -> Option<&Held<T>>
        ensures { option_copied result ≡ held_at self.now number }
    {
        match self.first.get(number) {
            Some(held) => held.as_ref(),
            None => self.later.get(number - self.first.len()),
        }
    }

    /// The number of the version that a method begins in, or None where there is no such method.
    #[inline(always)]
    pub fn current(&self, method: u32) -> Option<usize>
        ensures { result ≡ current_of self.now method }
    {
        Some(*self.current.get(method as usize)?)
    }
}

/// Drops the version with a number, where there is one.
fn drop_at<T: Drop>(first: &mut Vec<Option<Held<T>>>, later: &mut Slab<Held<T>>, number: usize)
    ensures held { (other : ℕ) → held_in (first.new.items ++ later.new.slots) other
        ≡ (if other == number then None else held_in (first.old.items ++ later.old.slots) other) }
    ensures first { length first.new.items ≡ length first.old.items }
    ensures later { length later.new.slots ≡ length later.old.slots }
    ensures capacity { later.new.capacity ≡ later.old.capacity }
    ensures fewer { slab_len later.new ≤ slab_len later.old }
{
    if number < first.len() {
        first[number] = None;
    } else {
        later.try_remove(number - first.len());
    }
}

/// Puts a version in the place of the one with this number.
fn put_at<T: Drop>(
    first: &mut Vec<Option<Held<T>>>,
    later: &mut Slab<Held<T>>,
    number: usize,
    version: Held<T>,
)
    requires { is_some (held_in (first.old.items ++ later.old.slots) number) ≡ true }
    ensures held { (other : ℕ) → held_in (first.new.items ++ later.new.slots) other
        ≡ (if other == number then Some version
        else held_in (first.old.items ++ later.old.slots) other) }
    ensures first { length first.new.items ≡ length first.old.items }
    ensures later { length later.new.slots ≡ length later.old.slots }
    ensures capacity { later.new.capacity ≡ later.old.capacity }
    ensures fewer { slab_len later.new ≤ slab_len later.old }
{
    if number < first.len() {
        first[number] = Some(version);
    } else if let Some(held) = later.get_mut(number - first.len()) {
        *held = version;
    }
}

/// Drops the version with a number, where there is one and no frame runs it.
fn drop_free<T: Drop>(
    first: &mut Vec<Option<Held<T>>>,
    later: &mut Slab<Held<T>>,
    number: usize,
    frames: &Frames,
)
    ensures held { let fs = frames.now.frames in (other : ℕ) →
        held_in (first.new.items ++ later.new.slots) other
        ≡ (if other == number && pins_of number fs == 0 then None
        else held_in (first.old.items ++ later.old.slots) other) }
    ensures first { length first.new.items ≡ length first.old.items }
    ensures later { length later.new.slots ≡ length later.old.slots }
    ensures capacity { later.new.capacity ≡ later.old.capacity }
    ensures fewer { slab_len later.new ≤ slab_len later.old }
{
    if frames.pins(number) == 0 {
        drop_at(first, later, number);
    }
}

/// Drops those of these versions that no frame runs.
fn drop_unpinned<T: Drop>(
    first: &mut Vec<Option<Held<T>>>,
    later: &mut Slab<Held<T>>,
    numbers: &[usize],
    frames: &Frames,
)
    ensures held { (number : ℕ) → held_in (first.new.items ++ later.new.slots) number
        ≡ held_but numbers.now frames.now.frames (first.old.items ++ later.old.slots) number }
    ensures first { length first.new.items ≡ length first.old.items }
    ensures later { length later.new.slots ≡ length later.old.slots }
    ensures capacity { later.new.capacity ≡ later.old.capacity }
    ensures fewer { slab_len later.new ≤ slab_len later.old }
{
    for number in numbers.iter() {
        drop_free(first, later, *number, frames);
    }
}

/// Whether frames run each of these versions.
#[inline(always)]
fn are_pinned(numbers: &[usize], frames: &Frames) -> bool
    ensures { result ≡ list_all (λ n. not (pins_of n frames.now.frames == 0)) numbers.now }
{
    numbers.iter().all(|number| frames.pins(*number) != 0)
}

/// Keeps the numbers of versions that frames run.
fn keep_pinned(numbers: &mut Vec<usize>, frames: &Frames)
    ensures kept { numbers.new.items
        ≡ filter (λ n. not (pins_of n frames.now.frames == 0)) numbers.old.items }
    ensures bound { vec_len numbers.new ≤ vec_len numbers.old }
    ensures capacity { vec_capacity numbers.new ≡ vec_capacity numbers.old }
{
    numbers.retain(|number| frames.pins(*number) != 0);
}

impl<T: Drop> Versions<T> {
    /// Adds a version of a method, which begins in it from then on. Its former version is dropped where no frame runs
    /// it. Gives the number of the new one, which no version had.
    pub fn add(&mut self, method: u32, prepared: T, frames: &Frames) -> usize
        requires room { 0 < self.old.spare }
        requires method { method < length self.old.current }
        ensures vacant { held_at self.old result ≡ None }
        ensures small { result < 4294967296 }
        ensures held { (number : ℕ) → held_at self.new number ≡ held_with result
            (record { method = method; prepared = prepared }) frames.now.frames self.old number }
        ensures current { self.new.current ≡ slice_set self.old.current method result }
        ensures spare { self.old.spare ≤ self.new.spare + 1 }
    {
        let former = self.current[method as usize];
        let number = self.first.len() + self.later.insert_reserved(Held { method, prepared });
        self.current[method as usize] = number;
        if frames.pins(former) == 0 {
            drop_at(&mut self.first, &mut self.later, former);
        } else {
            self.superseded.push_reserved(former);
        }
        number
    }

    /// Replaces what is prepared of the version with this number, if there is one.
    pub fn replace(&mut self, number: usize, prepared: T)
        ensures held { (other : ℕ) → held_at self.new other
            ≡ held_anew number prepared self.old other }
        ensures current { self.new.current ≡ self.old.current }
        ensures count { length self.new.slots ≡ length self.old.slots }
        ensures spare { self.old.spare ≤ self.new.spare }
    {
        let Some(held) = self.get(number) else {
            return;
        };
        let version = Held {
            method: held.method,
            prepared,
        };
        put_at(&mut self.first, &mut self.later, number, version);
    }

    /// Drops each superseded version that no frame runs. It is a call of its own, so that a step stays small.
    #[inline(never)]
    fn release_some(&mut self, frames: &Frames)
        ensures held { (number : ℕ) → held_at self.new number
            ≡ held_for frames.now.frames self.old number }
        ensures current { self.new.current ≡ self.old.current }
        ensures count { length self.new.slots ≡ length self.old.slots }
        ensures spare { self.old.spare ≤ self.new.spare }
    {
        drop_unpinned(
            &mut self.first,
            &mut self.later,
            self.superseded.as_slice(),
            frames,
        );
        keep_pinned(&mut self.superseded, frames);
    }

    /// The same; where frames run each superseded one, as mostly, it is a test of these.
    #[inline(always)]
    pub fn release(&mut self, frames: &Frames)
        ensures held { (number : ℕ) → held_at self.new number
            ≡ held_for frames.now.frames self.old number }
        ensures current { self.new.current ≡ self.old.current }
        ensures count { length self.new.slots ≡ length self.old.slots }
        ensures spare { self.old.spare ≤ self.new.spare }
    {
        if are_pinned(self.superseded.as_slice(), frames) {
            return;
        }
        self.release_some(frames);
    }
}
