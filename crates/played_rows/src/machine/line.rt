//! What a line of a row says.

use class_shape::SwapError;
use jf_bytes::Seq;
use jvm_machine::Turn;
use jvm_model::{Ending, Mark};

/// What a row says of the machine, in order.
#[derive(Drop)]
pub enum Line {
    /// Its next turn is this, and its clock is then this.
    Turned(Turn, u64),
    /// The same of as many steps, at most so many, as tell nothing: their last turn.
    Ran(u64, Turn, u64),
    /// The class at this position is redefined by its image for these marks.
    Installed(u32, Seq<Mark>),
    /// These bytes do not redefine the class at this position, and this is told.
    Refused(u32, Seq<u8>, SwapError),
    /// The run has ended so.
    Ended(Ending),
    /// The program has written this.
    Printed(Seq<u8>),
    /// So many activations are live.
    Lives(u32),
}

/// A line with its number in the row's file.
#[derive(Drop)]
pub struct Placed {
    pub number: usize,
    pub line: Line,
}
