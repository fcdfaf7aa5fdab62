//! What is kept of a frame beside its slots.

ghost use Rattle.std.specs.Prelude.{◌≡◌, ◌<◌, ◌≤◌, reverse, slice_get};
ghost use Rattle.frame_stack.specs.Cuts.{with_below};
ghost use Rattle.std.specs.Vec.{vec_len, vec_capacity};

/// A frame's version, method and place, where its slots begin, and its limits.
#[derive(Clone, Copy, Debug)]
pub struct Entry {
    pub version: usize,
    pub method: u32,
    pub place: u16,
    pub base: usize,
    pub max_locals: u16,
    pub max_stack: u16,
}

/// Puts the top frame with those below it, where there is room.
pub fn put_below(below: &mut Vec<Entry>, top: Option<Entry>)
    requires { vec_len below.old < vec_capacity below.old }
    ensures items { below.new.items ≡ with_below top below.old.items }
    ensures room { vec_capacity below.old ≤ vec_capacity below.new }
{
    if let Some(entry) = top {
        let _ = below.push(entry);
    }
}

/// The entry of the frame below the top one.
#[tactic(auto, using(crate::proofs::Callers::last_read))]
#[inline(always)]
pub fn last_of(below: &[Entry]) -> Option<Entry>
    ensures { result ≡ slice_get (reverse below.now) 0 }
{
    below.last().copied()
}
