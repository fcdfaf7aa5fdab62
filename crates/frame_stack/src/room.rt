//! Slots of 16 bytes, in room that is there.

ghost use Rattle.std.specs.Prelude.{◌≡◌, ◌≤◌, ◌<◌, ◌+◌, ◌^◌, ◌++◌, [], ◌∷◌};
ghost use Rattle.std.specs.Prelude.{Some, None, OnOk, length, take, slice_get, slice_set};
ghost use Rattle.std.specs.Option.{option_flatten};
ghost use Rattle.frame_stack.specs.Rooms.{slot_shown, int_in, reference_in};
ghost use Rattle.frame_stack.specs.Widths.{slots_of, width};

use crate::width::{is_long, width};
use heap_objects::Value;
use jf_bytes::NoMemory;
use std::alloc::Global;
use std::marker::Model;

/// What stands in a slot: a value, or nothing.
#[derive(Clone, Copy)]
pub enum Slot {
    Empty,
    Int(i32),
    Long(i64),
    Reference(u32),
    Address(u16),
}

/// The value in a slot.
#[inline(always)]
fn slot_shown(slot: Slot) -> Option<Value>
    ensures { result ≡ slot_shown slot }
{
    match slot {
        Slot::Empty => None,
        Slot::Int(n) => Some(Value::Int(n)),
        Slot::Long(n) => Some(Value::Long(n)),
        Slot::Reference(n) => Some(Value::Ref(n)),
        Slot::Address(n) => Some(Value::Addr(n)),
    }
}

/// A slot with a value.
#[inline(always)]
fn slot_of(value: Value) -> Slot
    ensures { slot_shown result ≡ Some value }
{
    match value {
        Value::Int(n) => Slot::Int(n),
        Value::Long(n) => Slot::Long(n),
        Value::Ref(n) => Slot::Reference(n),
        Value::Addr(n) => Slot::Address(n),
    }
}

/// Slots up to an end. What stands behind it is room.
#[derive(Drop)]
pub struct Room {
    raw: Vec<Slot>,
    end: usize,
}

impl Model for Room {
    ghost use Rattle.std.specs.Prelude.{length, map, take};
    ghost use Rattle.frame_stack.specs.Rooms.{RoomView, AreUpTo, slot_shown};

    ghost Value = { RoomView };

    ghost view = { λ r. record {
      items = map slot_shown (take r.end r.raw.items);
      capacity = length r.raw.items;
    } };

    ghost invariant = { λ r. AreUpTo r.end r.raw.items };
}

impl Room {
    /// No slots. It takes no memory.
    pub fn new(alloc: Global) -> Room
        ensures items { result.items ≡ [] }
        ensures capacity { result.capacity ≡ 0 }
    {
        Room {
            raw: Vec::new(alloc),
            end: 0,
        }
    }

    /// How many slots there are.
    #[inline(always)]
    pub fn len(&self) -> usize
        ensures items { result ≡ length self.now.items }
        ensures fits { self.now.capacity < 2 ^ 64 }
    {
        self.end
    }

    /// What stands in a slot.
    #[inline(always)]
    pub fn at(&self, at: usize) -> Option<Value>
        requires { at < length self.now.items }
        ensures { result ≡ option_flatten (slice_get self.now.items at) }
    {
        slot_shown(self.raw[at])
    }

    /// The int in a slot.
    #[inline(always)]
    pub fn int_at(&self, at: usize) -> Option<i32>
        requires { at < length self.now.items }
        ensures { result ≡ int_in (slice_get self.now.items at) }
    {
        let slot = self.raw[at];
        match slot {
            Slot::Int(n) => Some(n),
            _ => None,
        }
    }

    /// The reference in a slot.
    #[inline(always)]
    pub fn reference_at(&self, at: usize) -> Option<u32>
        requires { at < length self.now.items }
        ensures { result ≡ reference_in (slice_get self.now.items at) }
    {
        let slot = self.raw[at];
        match slot {
            Slot::Reference(n) => Some(n),
            _ => None,
        }
    }

    /// Takes the topmost slots away.
    #[inline(always)]
    pub fn truncate(&mut self, count: usize)
        requires { count ≤ length self.old.items }
        ensures items { self.new.items ≡ take count self.old.items }
        ensures capacity { self.new.capacity ≡ self.old.capacity }
        ensures fits { self.new.capacity < 2 ^ 64 }
    {
        self.end = count;
    }

    /// Writes a slot.
    #[inline(always)]
    pub fn set(&mut self, at: usize, value: Value)
        requires { at < length self.old.items }
        ensures items { self.new.items ≡ slice_set self.old.items at (Some value) }
        ensures capacity { self.new.capacity ≡ self.old.capacity }
    {
        self.raw[at] = slot_of(value);
    }

    /// Takes away what stands in a slot.
    #[inline(always)]
    pub fn clear(&mut self, at: usize)
        requires { at < length self.old.items }
        ensures items { self.new.items ≡ slice_set self.old.items at None }
        ensures capacity { self.new.capacity ≡ self.old.capacity }
    {
        self.raw[at] = Slot::Empty;
    }

    /// Puts a slot behind the others, where there is room.
    #[inline(always)]
    pub fn push(&mut self, slot: Slot)
        requires { length self.old.items < self.old.capacity }
        ensures items { self.new.items ≡ self.old.items ++ slot_shown slot ∷ [] }
        ensures capacity { self.new.capacity ≡ self.old.capacity }
    {
        self.raw[self.end] = slot;
        self.end += 1;
    }

    /// Puts a value on top, where there is room.
    #[inline(always)]
    pub fn put(&mut self, value: Value)
        requires { length self.old.items + width value ≤ self.old.capacity }
        ensures items { self.new.items ≡ self.old.items ++ slots_of value }
        ensures capacity { self.new.capacity ≡ self.old.capacity }
    {
        self.push(slot_of(value));
        if is_long(value) {
            self.push(Slot::Empty);
        }
    }

    /// Makes room for so many slots more. An Err changes nothing.
    pub fn reserve(&mut self, more: usize) -> Result<(), NoMemory>
        ensures items { self.new.items ≡ self.old.items }
        ensures capacity { self.old.capacity ≤ self.new.capacity }
        ensures ok { OnOk result (length self.old.items + more ≤ self.new.capacity) }
    {
        let Some(needed) = self.end.checked_add(more) else {
            return Err(NoMemory);
        };
        if needed <= self.raw.len() {
            return Ok(());
        }
        self.raw.resize(needed, Slot::Empty)?;
        Ok(())
    }
}
