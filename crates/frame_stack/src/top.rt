//! The top frame, with where its operands begin and may end.

ghost use Rattle.std.specs.Prelude.{◌≡◌, ◌<◌, ◌+◌, ◌^◌, Some, None, is_some};
ghost use Rattle.frame_stack.specs.Cuts.{limit, top_floor, top_limit};
ghost use Rattle.frame_stack.specs.Entries.{place_in, entry_moved, locals_in, base_in};

use crate::entry::Entry;
use std::marker::Model;

/// The top frame's entry, where there is one. The places are kept beside it, and are 0 where there is none, so that no
/// test is needed before they are compared.
#[derive(Drop)]
pub struct Top {
    live: bool,
    entry: Entry,
    floor: usize,
    limit: usize,
}

impl Model for Top {
    ghost use Rattle.std.specs.Prelude.{Option};
    ghost use Rattle.frame_stack.specs.declared.entry.Entry.{Entry};
    ghost use Rattle.frame_stack.specs.Entries.{top_in, IsTop};

    ghost Value = { Option Entry };

    ghost view = { λ t. top_in t.live t.entry };

    ghost invariant = { λ t. IsTop t.live t.entry t.floor t.limit };
}

impl Top {
    /// No frame.
    pub fn none() -> Top
        ensures { result ≡ None }
    {
        Top {
            live: false,
            entry: Entry {
                version: 0,
                method: 0,
                place: 0,
                base: 0,
                max_locals: 0,
                max_stack: 0,
            },
            floor: 0,
            limit: 0,
        }
    }

    /// A frame.
    #[inline(always)]
    pub fn some(entry: Entry) -> Top
        requires { limit entry < 2 ^ 64 }
        ensures { result ≡ Some entry }
    {
        let floor = entry.base + entry.max_locals as usize;
        let limit = floor + entry.max_stack as usize;
        Top {
            live: true,
            entry,
            floor,
            limit,
        }
    }

    /// The frame of an entry, where there is one.
    pub fn of(entry: Option<Entry>) -> Top
        requires { top_limit entry < 2 ^ 64 }
        ensures { result ≡ entry }
    {
        match entry {
            None => Top::none(),
            Some(entry) => Top::some(entry),
        }
    }

    /// The entry of the frame that there is, or None.
    #[inline(always)]
    pub fn get(&self) -> Option<Entry>
        ensures { result ≡ self.now }
    {
        if self.live { Some(self.entry) } else { None }
    }

    /// Where the operands begin.
    #[inline(always)]
    pub fn floor(&self) -> usize
        ensures { result ≡ top_floor self.now }
    {
        self.floor
    }

    /// Where the operands may end.
    #[inline(always)]
    pub fn limit(&self) -> usize
        ensures { result ≡ top_limit self.now }
    {
        self.limit
    }

    /// Where the locals begin.
    #[inline(always)]
    pub fn base(&self) -> usize
        ensures { result ≡ base_in self.now }
    {
        self.entry.base
    }

    /// How many locals there are.
    #[inline(always)]
    pub fn locals(&self) -> u16
        ensures count { result ≡ locals_in self.now }
        ensures fits { base_in self.now + locals_in self.now < 2 ^ 64 }
    {
        self.entry.max_locals
    }

    /// The place of the frame, or None where there is none.
    #[inline(always)]
    pub fn place(&self) -> Option<u16>
        ensures { result ≡ place_in self.now }
    {
        if self.live {
            Some(self.entry.place)
        } else {
            None
        }
    }

    /// Moves the frame to a place. False where there is none.
    #[inline(always)]
    pub fn go(&mut self, place: u16) -> bool
        ensures answer { result ≡ is_some self.old }
        ensures frame { self.new ≡ entry_moved place self.old }
    {
        if !self.live {
            return false;
        }
        self.entry.place = place;
        true
    }
}
