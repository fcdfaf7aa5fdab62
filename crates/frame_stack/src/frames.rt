//! The frames of a run, one for each live activation (JVM Specification 2.5.2, 2.6).

ghost use Rattle.std.specs.Prelude.{◌≡◌, ◌+◌, ◌<◌, false, length, slice_get, OnOk, OnErr, IsTrue};
ghost use Rattle.heap_objects.specs.Changes.{changed_if};
ghost use Rattle.frame_stack.specs.FrameLists.{AreSound, no_frames, with_frames, has_frame};
ghost use Rattle.frame_stack.specs.FrameLists.{top_of, place_of, version_of, pins_of, top_height, with_place};
ghost use Rattle.frame_stack.specs.FrameLists.{top_operands, can_push, with_pushed, without_operand};
ghost use Rattle.frame_stack.specs.FrameLists.{local_of, has_slot, with_written, without_frame};
ghost use Rattle.frame_stack.specs.FrameLists.{has_room, with_room, can_enter, with_new_frame};
ghost use Rattle.frame_stack.specs.FrameLists.{with_operand, without_arguments};
ghost use Rattle.frame_stack.specs.FrameLists.{caller_of, can_give, with_given};
ghost use Rattle.frame_stack.specs.Widths.{is_long};
ghost use Rattle.frame_stack.specs.Tops.{AreNarrow, int_of, ints_of, reference_of};
ghost use Rattle.frame_stack.specs.Tops.{references_of, reference_and_int_of};

use crate::counters::{count, count_down, count_up, make_counter};
use crate::entry::{Entry, last_of, put_below};
use crate::room::Room;
use crate::slots::{
    end_below, fill, int_in, ints_in, reference_and_int_in, reference_in, references_in, store,
    top_value,
};
use crate::top::Top;
use crate::width::width;
use heap_objects::Value;
use jf_bytes::NoMemory;
use std::alloc::Global;
use std::marker::Model;

/// All frames in one vector of slots, each from its base on: its locals, then its operands. A clause sees the list of
/// the frames, the top first, and the room for one more. The arguments of a call stay where the caller pushed them, and
/// are the callee's first locals. Only `reserve` takes memory: for the frame that comes, and for a counter of the
/// frames that run the top one's version.
#[derive(Drop)]
pub struct Frames {
    slots: Room,
    below: Vec<Entry>,
    top: Top,
    room: Option<usize>,
    counters: Vec<u32>,
}

impl Model for Frames {
    ghost use Rattle.std.specs.Vec.{vec_capacity};
    ghost use Rattle.frame_stack.specs.FrameLists.{FramesView};
    ghost use Rattle.frame_stack.specs.Cuts.{view_of};
    ghost use Rattle.frame_stack.specs.Pins.{AreKept};

    ghost Value = { FramesView };

    ghost view = { λ f. view_of f.top f.below.items f.slots.items f.room };

    ghost invariant = { λ f. AreKept f.top f.below.items (vec_capacity f.below)
        f.slots.items f.slots.capacity f.room f.counters.items };
}

impl Frames {
    /// No frames. It takes no memory.
    pub fn new(alloc: Global) -> Frames
        ensures { result ≡ no_frames }
    {
        Frames {
            slots: Room::new(alloc),
            below: Vec::new(alloc),
            top: Top::none(),
            room: None,
            counters: Vec::new(alloc),
        }
    }

    /// How many frames there are.
    #[inline(always)]
    pub fn depth(&self) -> u32
        ensures { result ≡ length self.now.frames }
    {
        match self.top.get() {
            None => 0,
            Some(_) => self.below.len() as u32 + 1,
        }
    }

    /// The version that the top frame runs and its method, or None where there is no frame.
    #[inline(always)]
    pub fn top(&self) -> Option<(usize, u32)>
        ensures { result ≡ top_of self.now.frames }
    {
        let entry = self.top.get()?;
        Some((entry.version, entry.method))
    }

    /// The place of the top frame in the code of its version, or None where there is no frame.
    #[inline(always)]
    pub fn place(&self) -> Option<u16>
        ensures { result ≡ place_of self.now.frames }
    {
        self.top.place()
    }

    /// How many frames run a version. No frame is looked at for it but the top one.
    pub fn pins(&self, version: usize) -> u32
        ensures { result ≡ pins_of version self.now.frames }
    {
        count(&self.counters, &self.top.get(), version)
    }

    /// Moves the top frame to a place: the `pc` of JVM Specification 2.5.1. False where there is no frame.
    #[inline(always)]
    pub fn go(&mut self, place: u16) -> bool
        ensures answer { result ≡ has_frame self.old.frames }
        ensures frames { self.new ≡ with_frames (with_place place self.old.frames) self.old }
    {
        self.top.go(place)
    }

    /// Puts an operand on top of the top frame's. False, with nothing changed, where there is no frame, or where their
    /// depth in slots would pass max_stack (2.6.2).
    #[inline(always)]
    pub fn push(&mut self, value: Value) -> bool
        ensures answer { result ≡ can_push value self.old.frames }
        ensures frames { self.new ≡ changed_if result (with_pushed value) self.old }
    {
        if self.top.limit() - self.slots.len() < width(value) {
            return false;
        }
        self.slots.put(value);
        true
    }

    /// The int on top, where it is one.
    #[inline(always)]
    pub fn int(&self) -> Option<i32>
        ensures found { result ≡ int_of (top_operands self.now.frames) }
        ensures sound { AreSound self.now.frames }
    {
        int_in(&self.slots, self.top.floor())
    }

    /// The two ints on top, the topmost one last.
    #[inline(always)]
    pub fn ints(&self) -> Option<(i32, i32)>
        ensures found { result ≡ ints_of (top_operands self.now.frames) }
        ensures sound { AreSound self.now.frames }
    {
        ints_in(&self.slots, self.top.floor())
    }

    /// The reference on top, where it is one.
    #[inline(always)]
    pub fn reference(&self) -> Option<u32>
        ensures found { result ≡ reference_of (top_operands self.now.frames) }
        ensures sound { AreSound self.now.frames }
    {
        reference_in(&self.slots, self.top.floor())
    }

    /// The two references on top, the topmost one last.
    #[inline(always)]
    pub fn references(&self) -> Option<(u32, u32)>
        ensures found { result ≡ references_of (top_operands self.now.frames) }
        ensures sound { AreSound self.now.frames }
    {
        references_in(&self.slots, self.top.floor())
    }

    /// The reference and the int above it, where these are on top.
    #[inline(always)]
    pub fn reference_and_int(&self) -> Option<(u32, i32)>
        ensures found { result ≡ reference_and_int_of (top_operands self.now.frames) }
        ensures sound { AreSound self.now.frames }
    {
        reference_and_int_in(&self.slots, self.top.floor())
    }

    /// Takes so many operands of one slot each off.
    #[inline(always)]
    pub fn shrink(&mut self, count: usize)
        requires narrow { AreNarrow count (top_operands self.old.frames) }
        ensures { self.new ≡ with_frames (without_arguments count self.old.frames) self.old }
    {
        let left = self.slots.len() - count;
        self.slots.truncate(left);
    }

    /// A value of one slot in place of so many operands of one slot each.
    #[inline(always)]
    pub fn exchange(&mut self, count: usize, value: Value)
        requires some { 0 < count }
        requires narrow { AreNarrow count (top_operands self.old.frames) }
        requires one { is_long value ≡ false }
        ensures { self.new ≡ with_frames
            (with_operand value (without_arguments count self.old.frames)) self.old }
    {
        let at = self.slots.len() - count;
        self.slots.set(at, value);
        self.slots.truncate(at + 1);
    }

    /// How deep the operands of the top frame are, in slots: a long counts two (2.6.2). None where there is no frame.
    pub fn height(&self) -> Option<u32>
        ensures { result ≡ top_height self.now.frames }
    {
        self.top.get()?;
        let height = self.slots.len() - self.top.floor();
        Some(height as u32)
    }

    /// Takes the top operand off, or gives None where there is none.
    #[inline(always)]
    pub fn pop(&mut self) -> Option<Value>
        ensures answer { result ≡ slice_get (top_operands self.old.frames) 0 }
        ensures frames { self.new ≡ with_frames (without_operand self.old.frames) self.old }
    {
        let end = self.slots.len();
        let value = top_value(&self.slots, self.top.floor(), end)?;
        self.slots.truncate(end - width(value));
        Some(value)
    }

    /// The operand that has so many above it, or None where there are too few. It walks over those above.
    pub fn peek(&self, below: u16) -> Option<Value>
        ensures found { result ≡ slice_get (top_operands self.now.frames) below }
        ensures sound { AreSound self.now.frames }
    {
        let floor = self.top.floor();
        let end = end_below(&self.slots, floor, below)?;
        top_value(&self.slots, floor, end)
    }

    /// The value of a local (2.6.1), or None where there is no such slot or nothing that can be read stands in it: it
    /// was not written, it is the second slot of a long, or it began a long whose second slot was written since.
    #[inline(always)]
    pub fn local(&self, slot: u16) -> Option<Value>
        ensures { result ≡ local_of slot self.now.frames }
    {
        if slot >= self.top.locals() {
            return None;
        }
        self.slots.at(self.top.base() + slot as usize)
    }

    /// Writes a local, a long into two slots. False, with nothing changed, where the frame has not so many.
    #[inline(always)]
    pub fn set_local(&mut self, slot: u16, value: Value) -> bool
        ensures answer { result ≡ has_slot slot value self.old.frames }
        ensures frames { self.new ≡ changed_if result (with_written slot value) self.old }
    {
        if slot as usize + width(value) > self.top.locals() as usize {
            return false;
        }
        store(&mut self.slots, self.top.base(), slot as usize, value);
        true
    }

    /// Takes the top frame off and gives its version, or None where there is no frame. The caller's operands are those
    /// that it had without the arguments.
    pub fn leave(&mut self) -> Option<usize>
        ensures answer { result ≡ version_of self.old.frames }
        ensures frames { self.new ≡ without_frame self.old }
    {
        let entry = self.top.get()?;
        self.slots.truncate(entry.base);
        let caller = self.below.pop();
        count_down(&mut self.counters, &caller);
        self.top = Top::of(caller);
        self.room = None;
        Some(entry.version)
    }

    /// The version and the place of the frame below the top one, or None where there is none.
    #[inline(always)]
    pub fn caller(&self) -> Option<(usize, u16)>
        ensures { result ≡ caller_of self.now.frames }
    {
        let Some(entry) = last_of(&self.below) else {
            return None;
        };
        Some((entry.version, entry.place))
    }

    /// Whether the frame below the top one has room for what is given.
    #[inline(always)]
    fn can_give(&self, value: Option<Value>) -> bool
        ensures { result ≡ can_give value self.now.frames }
    {
        let Some(entry) = last_of(&self.below) else {
            return false;
        };
        let Some(value) = value else {
            return true;
        };
        let height = self.top.base() - entry.base - entry.max_locals as usize;
        if entry.max_stack as usize - height < width(value) {
            return false;
        }
        true
    }

    /// Takes the top frame off. The one below it goes on at a place, with what is given on top of the operands that it
    /// had without the arguments (JVM Specification 2.6.4). False, with nothing changed, where there is none, or it has
    /// no room for that.
    #[inline(always)]
    pub fn give_back(&mut self, value: Option<Value>, place: u16) -> bool
        ensures answer { result ≡ can_give value self.old.frames }
        ensures frames { self.new ≡ changed_if result (with_given value place) self.old }
    {
        if !self.can_give(value) {
            return false;
        }
        self.leave();
        if let Some(value) = value {
            self.push(value);
        }
        self.go(place)
    }

    /// Makes room for a frame of these limits on top of the top frame's limit. The room is there until a frame begins
    /// or ends. An Err says that memory ran out, and changes nothing.
    pub fn reserve(&mut self, max_locals: u16, max_stack: u16) -> Result<(), NoMemory>
        ensures ok { OnOk result (self.new ≡ with_room (max_locals + max_stack) self.old) }
        ensures err { OnErr result (self.new ≡ self.old) }
    {
        let start = self.top.limit();
        let room = max_locals as usize + max_stack as usize;
        let Some(needed) = start.checked_add(room) else {
            return Err(NoMemory);
        };
        self.slots.reserve(needed - self.slots.len())?;
        self.below.reserve(1)?;
        make_counter(&mut self.counters, &self.top.get())?;
        self.room = Some(room);
        Ok(())
    }

    /// Begins a frame at place 0, whose first locals are the caller's `args` topmost operands, the deepest first
    /// (2.6.1), and which takes them from the caller. False, with nothing changed, where they are fewer or take more
    /// slots than max_locals. The other locals are not written.
    pub fn enter(
        &mut self,
        version: usize,
        method: u32,
        max_locals: u16,
        max_stack: u16,
        args: u16,
    ) -> bool
        requires room { IsTrue (has_room (max_locals + max_stack) self.old.room) }
        requires few { length self.old.frames < 4294967295 }
        ensures answer { result ≡ can_enter max_locals args self.old.frames }
        ensures frames { self.new ≡ changed_if result
            (with_new_frame version method max_locals max_stack args) self.old }
    {
        let Some(base) = end_below(&self.slots, self.top.floor(), args) else {
            return false;
        };
        if self.slots.len() - base > max_locals as usize {
            return false;
        }
        let caller = self.top.get();
        count_up(&mut self.counters, &caller);
        put_below(&mut self.below, caller);
        fill(&mut self.slots, base + max_locals as usize);
        self.top = Top::some(Entry {
            version,
            method,
            place: 0,
            base,
            max_locals,
            max_stack,
        });
        self.room = None;
        true
    }
}
