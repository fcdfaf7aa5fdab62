//! What a call over a stream or a file can fail of.

use std::alloc::{AllocError, AllocFailed};
use thiserror::Error;

/// A source gave no bytes, or a sink did not take all of them. The object's count of faults tells of it.
#[derive(Clone, Copy, Debug, PartialEq, Eq)]
pub struct Failed;

/// Why a file was not fetched.
#[derive(Clone, Copy, Debug, PartialEq, Eq, Error)]
pub enum FetchError {
    /// The file is absent, or it could not be read to its end. The object's count of faults tells of it.
    #[error("the file could not be read")]
    Failed,
    /// No memory was left for the contents or for the name. It is no fault of the file.
    #[error("out of memory")]
    NoMemory,
}

impl From<AllocError> for FetchError {
    ghost use Rattle.std.specs.Prelude.{◌≡◌};
    ghost use Rattle.byte_streams.specs.declared.error.FetchError.TheVariants.{NoMemory};

    ghost from_gives = { λ _ e. e ≡ NoMemory };

    fn from(_error: AllocError) -> FetchError {
        FetchError::NoMemory
    }
}

impl<T: Drop> From<AllocFailed<T>> for FetchError {
    ghost use Rattle.std.specs.Prelude.{◌≡◌};
    ghost use Rattle.byte_streams.specs.declared.error.FetchError.TheVariants.{NoMemory};

    ghost from_gives = { λ _ e. e ≡ NoMemory };

    fn from(_error: AllocFailed<T>) -> FetchError {
        FetchError::NoMemory
    }
}

impl From<Failed> for FetchError {
    ghost use Rattle.std.specs.Prelude.{◌≡◌};
    ghost use Rattle.byte_streams.specs.declared.error.FetchError.TheVariants.{Failed as fault};

    ghost from_gives = { λ _ e. e ≡ fault };

    fn from(_failed: Failed) -> FetchError {
        FetchError::Failed
    }
}
