//! What the linker answers.

use jf_bytes::{Seq, Text16};

/// What loading a name gave. The first number of `New` and `Already` is the kind that the name stands for: it is `New`
/// where classes were loaded for it. `New` and `Throws` list the classes that were loaded, in order. `Throws` tells the
/// error by the place of its class among the built-in ones, and of a NoClassDefFoundError the name that is no class of
/// the program.
#[derive(Drop)]
pub enum Loaded {
    New(u32, Seq<u32>),
    Already(u32),
    Throws(u16, Seq<u32>, Option<Text16>),
    NoMemory,
}

/// A member by the position of its class and its own there, or the error by the place of its class among the built-in
/// ones.
#[derive(Clone, Copy, Debug, PartialEq, Eq)]
pub enum Resolved {
    Found(u32, u16),
    Throws(u16),
}
