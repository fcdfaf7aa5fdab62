//! Why bytes are no table.

ghost use Rattle.std.specs.Prelude.{◌≡◌};
ghost use Rattle.stackmap_shift.specs.declared.error.FrameError.TheVariants.{NoMemory as out_of_memory};

use jf_bytes::NoMemory;
use std::alloc::{AllocError, AllocFailed};
use thiserror::Error;

/// What a reader answers in place of a table.
#[derive(Clone, Copy, Debug, PartialEq, Eq, Error)]
pub enum FrameError {
    /// The offset of the first byte that breaks the table's grammar, or the table's length where none does and it ends
    /// early. Of a frame that would stand above offset 65535 it is the frame's first byte.
    #[error("no table from byte {0} on")]
    BadFrame(usize),
    #[error("no memory")]
    NoMemory,
}

impl From<AllocError> for FrameError {
    ghost from_gives = { λ _ e. e ≡ out_of_memory };

    fn from(_e: AllocError) -> FrameError {
        FrameError::NoMemory
    }
}

impl<T: Drop> From<AllocFailed<T>> for FrameError {
    ghost from_gives = { λ _ e. e ≡ out_of_memory };

    fn from(_e: AllocFailed<T>) -> FrameError {
        FrameError::NoMemory
    }
}

impl From<NoMemory> for FrameError {
    ghost from_gives = { λ _ e. e ≡ out_of_memory };

    fn from(_e: NoMemory) -> FrameError {
        FrameError::NoMemory
    }
}
