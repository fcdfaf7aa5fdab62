//! Records of events, in room of bytes.

ghost use Rattle.std.specs.Prelude.{◌≡◌, ◌+◌, ◌-◌, ◌++◌, ◌≤◌, true, false, length};
ghost use Rattle.event_buffer.specs.Rooms.{room_of};
ghost use Rattle.event_buffer.specs.Records.{kind_number, record_of};
ghost use Rattle.event_buffer.specs.Reading.{kind_numbered};
ghost use Rattle.event_buffer.specs.Spelled.{IsNext};

use crate::numbers::{length_of_number, put_byte, put_number};
use crate::room::Room;
use jvm_model::{Event, EventKind};

#[inline(always)]
fn number_of_kind(kind: EventKind) -> u8
    ensures { result ≡ kind_number kind }
{
    match kind {
        EventKind::Root => 0,
        EventKind::Enter => 1,
        EventKind::Leave => 2,
        EventKind::Unwind => 3,
    }
}

#[inline(always)]
pub(crate) fn kind_of_number(number: u8) -> EventKind
    ensures { result ≡ kind_numbered number }
{
    match number {
        0 => EventKind::Root,
        1 => EventKind::Enter,
        2 => EventKind::Leave,
        _ => EventKind::Unwind,
    }
}

/// How many bytes the record of an event has, behind one of the clock `before`.
#[inline(always)]
pub(crate) fn length_of_record(before: u64, event: Event) -> usize
    requires later { before ≤ event.clock }
    ensures length { result ≡ length (record_of before event) }
    ensures short { result ≤ 16 }
    ensures next { IsNext before event }
{
    1 + length_of_number(event.method as u64) + length_of_number(event.clock - before)
}

/// Appends the record of an event that there is room for, behind one of the clock `before`.
#[inline(always)]
pub(crate) fn put_record(bytes: &mut Room, before: u64, event: Event)
    requires later { before ≤ event.clock }
    requires room { length bytes.old.items + length (record_of before event) ≤ bytes.old.capacity }
    ensures { bytes.new ≡ room_of (bytes.old.items ++ record_of before event) bytes.old.capacity }
{
    put_byte(bytes, number_of_kind(event.kind));
    put_number(bytes, event.method as u64);
    put_number(bytes, event.clock - before);
}

/// The same at once, where its numbers are small, as mostly, and there are three places behind the bytes that are held.
/// Says whether it did.
#[inline(always)]
pub(crate) fn put_small_record(bytes: &mut Room, before: u64, event: Event) -> bool
    requires later { before ≤ event.clock }
    ensures put { result ≡ true → bytes.new
        ≡ room_of (bytes.old.items ++ record_of before event) bytes.old.capacity }
    ensures fits { result ≡ true
        → length bytes.old.items + length (record_of before event) ≤ bytes.old.capacity }
    ensures kept { result ≡ false → bytes.new ≡ bytes.old }
    ensures next { IsNext before event }
{
    let more = event.clock - before;
    if event.method >= 128 || more >= 128 {
        return false;
    }
    bytes.push_three(number_of_kind(event.kind), event.method as u8, more as u8)
}
