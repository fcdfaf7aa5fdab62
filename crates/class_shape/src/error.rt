//! Why a class is not redefined.

use class_reader::ReadError;
use thiserror::Error;

/// Why bytes redefine no class. Nothing was changed.
#[derive(Clone, Copy, Debug, PartialEq, Eq, Error)]
pub enum SwapError {
    /// The bytes are no class file, with their first fault.
    #[error("unreadable: {0}")]
    Unreadable(ReadError),
    /// The class of the bytes has another shape: `OF_HEADING`, or the position of the first member that is another one.
    #[error("not the same shape: {0}")]
    NotSameShape(u16),
    #[error("no memory")]
    NoMemory,
}
