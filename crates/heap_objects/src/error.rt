//! Why an object is not made.

use jf_bytes::NoMemory;
use std::alloc::AllocError;
use thiserror::Error;

/// Why the heap does not give what was asked for. It is as it was before.
#[derive(Clone, Copy, Debug, PartialEq, Eq, Error)]
pub enum HeapError {
    /// The slots that were used and those that were asked for are more than the heap's limit. The machine throws its
    /// OutOfMemoryError.
    #[error("the heap is full")]
    HeapFull,
    /// No memory was left, whatever the heap's limit.
    #[error("out of memory")]
    NoMemory,
}

impl From<AllocError> for HeapError {
    ghost use Rattle.std.specs.Prelude.{◌≡◌};
    ghost use Rattle.heap_objects.specs.declared.error.HeapError.TheVariants.{NoMemory};

    ghost from_gives = { λ _ e. e ≡ NoMemory };

    fn from(_error: AllocError) -> HeapError {
        HeapError::NoMemory
    }
}

impl From<NoMemory> for HeapError {
    ghost use Rattle.std.specs.Prelude.{◌≡◌};
    ghost use Rattle.heap_objects.specs.declared.error.HeapError.TheVariants.{NoMemory as memory};

    ghost from_gives = { λ _ e. e ≡ memory };

    fn from(_error: NoMemory) -> HeapError {
        HeapError::NoMemory
    }
}
