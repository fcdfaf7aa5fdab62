//! What a frame's own instruction comes to.

/// What `basic` did.
#[derive(Clone, Copy, Debug, PartialEq, Eq)]
pub enum Effect {
    /// The frame has moved on: to the place behind the instruction, to a target, or back from a subroutine.
    Next,
    /// The exception of the built-in class at this position is to be thrown. The frame is as it was.
    Throws(u16),
    /// The frame does not have what the instruction needs, or no room for what it gives. The frame is as it was.
    Bad,
    /// The instruction needs more than its frame, or is none. The frame is as it was.
    Other,
}
