//! The slots of all frames, the lowest first. A long stands in its first slot, with nothing in its second.

ghost use Rattle.std.specs.Prelude.{◌≡◌, ◌≤◌, ◌<◌, ◌+◌, ◌^◌, ◌++◌};
ghost use Rattle.std.specs.Prelude.{length, take, drop, reverse, slice_get};
ghost use Rattle.frame_stack.specs.Widths.{width};
ghost use Rattle.frame_stack.specs.Cuts.{operands_of, AreOperands, end_below, filled_to};
ghost use Rattle.frame_stack.specs.FrameLists.{without_long_before, with_value};
ghost use Rattle.frame_stack.specs.Tops.{int_of, ints_of, reference_of, references_of};
ghost use Rattle.frame_stack.specs.Tops.{reference_and_int_of};
ghost use Rattle.frame_stack.specs.Rooms.{both_in};

use crate::room::{Room, Slot};
use crate::width::{is_long, width};
use heap_objects::Value;

/// The top operand of those that stand from `low` on and before `end`.
#[inline(always)]
pub fn top_value(slots: &Room, low: usize, end: usize) -> Option<Value>
    requires above { low ≤ end }
    requires within { end ≤ length slots.now.items }
    requires operands { AreOperands (reverse (drop low (take end slots.now.items))) }
    ensures { result
        ≡ slice_get (operands_of (reverse (drop low (take end slots.now.items)))) 0 }
{
    if end == low {
        return None;
    }
    match slots.at(end - 1) {
        Some(value) => Some(value),
        None => slots.at(end - 2),
    }
}

/// Both, where there are both.
#[inline(always)]
fn both<A: Copy, B: Copy>(first: Option<A>, second: Option<B>) -> Option<(A, B)>
    ensures { result ≡ both_in first second }
{
    match (first, second) {
        (Some(first), Some(second)) => Some((first, second)),
        _ => None,
    }
}

/// The int on top of the operands from `low` on.
#[inline(always)]
pub fn int_in(slots: &Room, low: usize) -> Option<i32>
    requires within { low ≤ length slots.now.items }
    requires operands { AreOperands (reverse (drop low slots.now.items)) }
    ensures { result ≡ int_of (operands_of (reverse (drop low slots.now.items))) }
{
    let count = slots.len();
    if count == low {
        return None;
    }
    slots.int_at(count - 1)
}

/// The reference on top of the operands from `low` on.
#[inline(always)]
pub fn reference_in(slots: &Room, low: usize) -> Option<u32>
    requires within { low ≤ length slots.now.items }
    requires operands { AreOperands (reverse (drop low slots.now.items)) }
    ensures { result ≡ reference_of (operands_of (reverse (drop low slots.now.items))) }
{
    let count = slots.len();
    if count == low {
        return None;
    }
    slots.reference_at(count - 1)
}

/// The two ints on top of the operands from `low` on.
#[inline(always)]
pub fn ints_in(slots: &Room, low: usize) -> Option<(i32, i32)>
    requires within { low ≤ length slots.now.items }
    requires operands { AreOperands (reverse (drop low slots.now.items)) }
    ensures { result ≡ ints_of (operands_of (reverse (drop low slots.now.items))) }
{
    let count = slots.len();
    if count - low < 2 {
        return None;
    }
    both(slots.int_at(count - 2), slots.int_at(count - 1))
}

/// The two references on top of the operands from `low` on.
#[inline(always)]
pub fn references_in(slots: &Room, low: usize) -> Option<(u32, u32)>
    requires within { low ≤ length slots.now.items }
    requires operands { AreOperands (reverse (drop low slots.now.items)) }
    ensures { result ≡ references_of (operands_of (reverse (drop low slots.now.items))) }
{
    let count = slots.len();
    if count - low < 2 {
        return None;
    }
    both(slots.reference_at(count - 2), slots.reference_at(count - 1))
}

/// The reference and the int on top of the operands from `low` on.
#[inline(always)]
pub fn reference_and_int_in(slots: &Room, low: usize) -> Option<(u32, i32)>
    requires within { low ≤ length slots.now.items }
    requires operands { AreOperands (reverse (drop low slots.now.items)) }
    ensures { result ≡ reference_and_int_of (operands_of (reverse (drop low slots.now.items))) }
{
    let count = slots.len();
    if count - low < 2 {
        return None;
    }
    both(slots.reference_at(count - 2), slots.int_at(count - 1))
}

/// Where the operands below the topmost ones end, of those from `low` on.
pub fn end_below(slots: &Room, low: usize, count: u16) -> Option<usize>
    requires within { low ≤ length slots.now.items }
    requires operands { AreOperands (reverse (drop low slots.now.items)) }
    ensures { result ≡ end_below low count slots.now.items }
{
    let mut end = slots.len();
    for _i in 0..count {
        let value = top_value(slots, low, end)?;
        end -= width(value);
    }
    Some(end)
}

/// Takes the long away whose second slot this is, of locals that stand from `base` on, where it is one.
#[inline(always)]
fn unpair(slots: &mut Room, base: usize, slot: usize)
    requires there { base + slot < length slots.old.items }
    requires fits { base + slot < 2 ^ 64 }
    ensures items { slots.new.items ≡ take base slots.old.items
        ++ without_long_before slot (drop base slots.old.items) }
    ensures capacity { slots.new.capacity ≡ slots.old.capacity }
{
    if slot == 0 {
        return;
    }
    let before = base + slot - 1;
    if let Some(value) = slots.at(before) {
        if is_long(value) {
            slots.clear(before);
        }
    }
}

/// Writes a value to a local, of locals that stand from `base` on.
#[inline(always)]
pub fn store(slots: &mut Room, base: usize, slot: usize, value: Value)
    requires there { base + slot + width value ≤ length slots.old.items }
    requires fits { base + slot + width value < 2 ^ 64 }
    ensures items { slots.new.items ≡ take base slots.old.items
        ++ with_value slot value (without_long_before slot (drop base slots.old.items)) }
    ensures capacity { slots.new.capacity ≡ slots.old.capacity }
{
    unpair(slots, base, slot);
    slots.set(base + slot, value);
    if is_long(value) {
        slots.clear(base + slot + 1);
    }
}

/// Up to so many slots, with nothing in those that are new, where there is room.
pub fn fill(slots: &mut Room, count: usize)
    requires more { length slots.old.items ≤ count }
    requires room { count ≤ slots.old.capacity }
    ensures items { slots.new.items ≡ filled_to count slots.old.items }
    ensures capacity { slots.new.capacity ≡ slots.old.capacity }
{
    for _i in slots.len()..count {
        slots.push(Slot::Empty);
    }
}
