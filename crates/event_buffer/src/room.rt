//! Bytes in room that is made once.

ghost use Rattle.std.specs.Prelude.{◌≡◌, ◌+◌, ◌++◌, ◌∷◌, [], ◌≤◌, ◌<◌, true, false, length, drop, slice_get, IfOk};
ghost use Rattle.event_buffer.specs.Rooms.{room_of};

use jf_bytes::NoMemory;
use std::alloc::Global;
use std::marker::Model;

/// Bytes, first in and first out, in one piece. A clause sees those that are held, and how many may be. Where they have
/// come to the end of the room, they are put back to its begin, which a room that is emptied now and then needs seldom.
#[derive(Drop)]
pub(crate) struct Room {
    bytes: Vec<u8>,
    from: usize,
    end: usize,
}

impl Model for Room {
    ghost use Rattle.std.specs.Prelude.{length};
    ghost use Rattle.event_buffer.specs.Rooms.{Room, AreWithin, room_of, between};

    ghost Value = { Room };

    ghost view = { λ r. room_of (between r.from r.end r.bytes.items) (length r.bytes.items) };

    ghost invariant = { λ r. AreWithin r.from r.end r.bytes.items };
}

impl Room {
    /// Room for so many bytes, which holds none.
    pub(crate) fn new(alloc: Global, capacity: usize) -> Result<Room, NoMemory>
        ensures { IfOk result (λ r. r ≡ room_of [] capacity) }
    {
        let mut bytes = Vec::new(alloc);
        bytes.resize(capacity, 0)?;
        Ok(Room {
            bytes,
            from: 0,
            end: 0,
        })
    }

    /// How many bytes are held.
    #[inline(always)]
    pub(crate) fn len(&self) -> usize
        ensures len { result ≡ length self.now.items }
        ensures within { result ≤ self.now.capacity }
    {
        self.end - self.from
    }

    /// How many bytes may be held.
    #[inline(always)]
    pub(crate) fn capacity(&self) -> usize
        ensures capacity { result ≡ self.now.capacity }
        ensures within { length self.now.items ≤ result }
    {
        let _end = self.end;
        self.bytes.len()
    }

    /// Puts a byte behind those that are held, and all of them to the begin of the room.
    #[inline(never)]
    fn push_moved(&mut self, byte: u8)
        requires { length self.old.items < self.old.capacity }
        ensures { self.new ≡ room_of (self.old.items ++ byte ∷ []) self.old.capacity }
    {
        let count = self.end - self.from;
        self.bytes.rotate_left(self.from);
        self.bytes[count] = byte;
        self.from = 0;
        self.end = count + 1;
    }

    /// Puts a byte behind those that are held.
    #[inline(always)]
    pub(crate) fn push_back(&mut self, byte: u8)
        requires { length self.old.items < self.old.capacity }
        ensures { self.new ≡ room_of (self.old.items ++ byte ∷ []) self.old.capacity }
    {
        if self.end == self.bytes.len() {
            self.push_moved(byte);
            return;
        }
        self.bytes[self.end] = byte;
        self.end += 1;
    }

    /// Puts three bytes behind those that are held, where there are three places behind them. Says whether it did.
    #[inline(always)]
    pub(crate) fn push_three(&mut self, first: u8, second: u8, third: u8) -> bool
        ensures put { result ≡ true → self.new
            ≡ room_of (self.old.items ++ first ∷ second ∷ third ∷ []) self.old.capacity }
        ensures fits { result ≡ true → length self.old.items + 3 ≤ self.old.capacity }
        ensures kept { result ≡ false → self.new ≡ self.old }
    {
        if self.bytes.len() - self.end < 3 {
            return false;
        }
        self.bytes[self.end] = first;
        self.bytes[self.end + 1] = second;
        self.bytes[self.end + 2] = third;
        self.end += 3;
        true
    }

    /// Takes the first byte out.
    #[inline(always)]
    pub(crate) fn pop_front(&mut self) -> Option<u8>
        ensures value { result ≡ slice_get self.old.items 0 }
        ensures items { self.new ≡ room_of (drop 1 self.old.items) self.old.capacity }
    {
        if self.from == self.end {
            self.from = 0;
            self.end = 0;
            return None;
        }
        let byte = self.bytes[self.from];
        self.from += 1;
        Some(byte)
    }
}
