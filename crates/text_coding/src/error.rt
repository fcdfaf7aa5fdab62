//! Why bytes are no text.

use std::alloc::{AllocError, AllocFailed};
use thiserror::Error;

/// Why bytes are no text in modified UTF-8.
#[derive(Clone, Copy, Debug, PartialEq, Eq, Error)]
pub enum TextError {
    /// The offset of the first byte with which no text goes on, or the count of bytes where they are only the front of
    /// a text.
    #[error("no modified UTF-8 at byte {0}")]
    BadUtf8(usize),
    /// No memory was left for the text. It is no fault of the bytes.
    #[error("out of memory")]
    NoMemory,
}

impl From<AllocError> for TextError {
    ghost use Rattle.std.specs.Prelude.{◌≡◌};
    ghost use Rattle.text_coding.specs.declared.error.TextError.TheVariants.{NoMemory};

    ghost from_gives = { λ _ e. e ≡ NoMemory };

    fn from(_error: AllocError) -> TextError {
        TextError::NoMemory
    }
}

impl<T: Drop> From<AllocFailed<T>> for TextError {
    ghost use Rattle.std.specs.Prelude.{◌≡◌};
    ghost use Rattle.text_coding.specs.declared.error.TextError.TheVariants.{NoMemory};

    ghost from_gives = { λ _ e. e ≡ NoMemory };

    fn from(_error: AllocFailed<T>) -> TextError {
        TextError::NoMemory
    }
}
