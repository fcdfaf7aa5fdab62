//! Why a class is not rewritten.

ghost use Rattle.std.specs.Prelude.{◌≡◌};
ghost use Rattle.inject_events.specs.declared.error.InjectError.TheVariants as refusal;
ghost use Rattle.inject_events.specs.declared.error.NoVersion.TheVariants as reason;

use jf_bytes::NoMemory;
use std::alloc::{AllocError, AllocFailed};
use thiserror::Error;

/// Which limit of the class file format a rewritten method would pass (JVM Specification 4.1, 4.7.3, 4.7.4).
#[derive(Clone, Copy, Debug, PartialEq, Eq)]
pub enum Cause {
    /// The constant pool has no room for the tail.
    Pool,
    /// max_stack is 65535.
    Stack,
    /// The exception table is full.
    Handlers,
    /// The StackMapTable, or the Code's attributes, are full.
    Frames,
    /// The code would be longer than 65535 bytes, or the Code attribute longer than a u4 says.
    Length,
    /// A branch would not fit into two bytes.
    Branch,
}

/// What `instrument` answers in place of an image.
#[derive(Debug, Drop, Error)]
pub enum InjectError {
    /// The position of the first marked method that cannot be rewritten, and why.
    #[error("a method cannot be profiled")]
    NotProfilable(u16, Cause),
    #[error("no memory")]
    NoMemory,
}

impl From<AllocError> for InjectError {
    ghost from_gives = { λ _ e. e ≡ refusal.NoMemory };

    fn from(_error: AllocError) -> InjectError {
        InjectError::NoMemory
    }
}

impl<T: Drop> From<AllocFailed<T>> for InjectError {
    ghost from_gives = { λ _ e. e ≡ refusal.NoMemory };

    fn from(_error: AllocFailed<T>) -> InjectError {
        InjectError::NoMemory
    }
}

impl From<NoMemory> for InjectError {
    ghost from_gives = { λ _ e. e ≡ refusal.NoMemory };

    fn from(_error: NoMemory) -> InjectError {
        InjectError::NoMemory
    }
}

/// Why a method gets no version.
#[derive(Debug, Drop)]
pub enum NoVersion {
    /// It would pass this limit.
    Limit(Cause),
    NoMemory,
}

impl From<NoMemory> for NoVersion {
    ghost from_gives = { λ _ e. e ≡ reason.NoMemory };

    fn from(_error: NoMemory) -> NoVersion {
        NoVersion::NoMemory
    }
}
