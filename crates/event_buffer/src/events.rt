//! The buffer.

ghost use Rattle.std.specs.Prelude.{◌≡◌, ◌+◌, ◌-◌, ◌≤◌, ◌<◌, ◌↔◌, [], slice_get, IfOk, OnOk, OnErr, IsErr, IsOk};
ghost use Rattle.event_buffer.specs.Buffers.{empty, event_pushed, rest_of, last_clock, used_of, length_of};

use crate::numbers::take_number;
use crate::records::{kind_of_number, length_of_record, put_record, put_small_record};
use crate::room::Room;
use jf_bytes::NoMemory;
use jvm_model::Event;
use std::alloc::Global;
use std::marker::Model;

/// The record of an event does not fit behind those that are held.
#[derive(Clone, Copy, Debug, PartialEq, Eq)]
pub struct Full;

/// Events, first in and first out, in room of bytes that is made once. A clause sees the events, the clock of the one
/// that was popped last, and the capacity. A record is one byte (0 root, 1 enter, 2 leave, 3 unwind), the method, and
/// the clock less that of the event that was pushed before, both in unsigned LEB128.
#[derive(Drop)]
pub struct Events {
    bytes: Room,
    /// The clock of the event that was popped last.
    popped: u64,
    /// The clock of the event that was pushed last.
    last: u64,
}

impl Model for Events {
    ghost use Rattle.event_buffer.specs.Buffers.{Held};
    ghost use Rattle.event_buffer.specs.Reading.{events_in};
    ghost use Rattle.event_buffer.specs.Spelled.{AreRecords};

    ghost Value = { Held };

    ghost view = { λ b. record {
      events = events_in b.popped b.bytes.items;
      popped = b.popped;
      capacity = b.bytes.capacity;
    } };

    ghost invariant = { λ b. AreRecords b.popped b.last b.bytes.items };
}

impl Events {
    /// An empty buffer for so many bytes. No other call takes memory.
    pub fn new(alloc: Global, capacity: usize) -> Result<Events, NoMemory>
        ensures { IfOk result (λ events. events ≡ empty capacity) }
    {
        Ok(Events {
            bytes: Room::new(alloc, capacity)?,
            popped: 0,
            last: 0,
        })
    }

    /// Puts an event behind those that are held, where its record fits, byte after byte.
    #[inline(never)]
    fn push_bytes(&mut self, event: Event) -> Result<(), Full>
        requires later { last_clock self.old ≤ event.clock }
        ensures full { IsErr result
            ↔ (self.old.capacity - used_of self.old < length_of self.old event) }
        ensures ok { OnOk result (self.new ≡ event_pushed self.old event) }
        ensures err { OnErr result (self.new ≡ self.old) }
        ensures clock { OnOk result (last_clock self.new ≡ event.clock) }
        ensures room { self.old.events ≡ [] → 16 ≤ self.old.capacity → IsOk result }
    {
        let room = self.bytes.capacity() - self.bytes.len();
        if room < length_of_record(self.last, event) {
            return Err(Full);
        }
        put_record(&mut self.bytes, self.last, event);
        self.last = event.clock;
        Ok(())
    }

    /// Puts an event behind those that are held, where its record fits.
    #[inline(always)]
    pub fn push(&mut self, event: Event) -> Result<(), Full>
        requires later { last_clock self.old ≤ event.clock }
        ensures full { IsErr result
            ↔ (self.old.capacity - used_of self.old < length_of self.old event) }
        ensures ok { OnOk result (self.new ≡ event_pushed self.old event) }
        ensures err { OnErr result (self.new ≡ self.old) }
        ensures clock { OnOk result (last_clock self.new ≡ event.clock) }
        ensures room { self.old.events ≡ [] → 16 ≤ self.old.capacity → IsOk result }
    {
        if !put_small_record(&mut self.bytes, self.last, event) {
            return self.push_bytes(event);
        }
        self.last = event.clock;
        Ok(())
    }

    /// Takes the first event out. It is None exactly where nothing is held.
    #[inline(always)]
    pub fn pop(&mut self) -> Option<Event>
        ensures first { result ≡ slice_get self.old.events 0 }
        ensures rest { self.new ≡ rest_of self.old self.old.events }
        ensures clock { last_clock self.new ≡ last_clock self.old }
    {
        match self.bytes.pop_front() {
            None => None,
            Some(kind) => {
                let method = take_number(&mut self.bytes);
                let more = take_number(&mut self.bytes);
                self.popped += more;
                Some(Event {
                    kind: kind_of_number(kind),
                    method: method as u32,
                    clock: self.popped,
                })
            }
        }
    }

    /// How many bytes the records that are held have.
    pub fn used(&self) -> usize
        ensures used { result ≡ used_of self.now }
        ensures within { result ≤ self.now.capacity }
    {
        self.bytes.len()
    }
}
