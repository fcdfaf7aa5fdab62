//! How a run ends.

/// How a run ended. A class is given by its position, a method by its number, with an offset in its original code.
#[derive(Clone, Copy, Debug, PartialEq, Eq)]
pub enum Ending {
    /// `main` returned.
    Returned,
    /// System.exit was called.
    Exited(i32),
    /// A throwable of this class was caught by nothing.
    Uncaught(u32),
    /// The code of this method breaks, at this offset, what a verifier would have asked of it (4.9, 4.10).
    Unverifiable(u32, u16),
}
