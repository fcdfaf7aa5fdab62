//! Why bytes are not read as a class file.

ghost use Rattle.std.specs.Prelude.{◌≡◌};
ghost use Rattle.class_reader.specs.declared.error.ReadError.TheVariants.{NoMemory};

use std::alloc::{AllocError, AllocFailed};
use thiserror::Error;

/// What a reader answers in place of a class: the first fault of the bytes, read from left to right. A number is the
/// offset of what is at fault, but for that of `BadVersion`, which is the major version, and that of `BadIndex`, which
/// is an index into the constant pool.
#[derive(Clone, Copy, Debug, PartialEq, Eq, Error)]
pub enum ReadError {
    /// There are more than `MOST_BYTES` bytes.
    #[error("too long")]
    TooLong,
    /// A number, a text or the contents of an attribute do not fit into the bytes that are left.
    #[error("truncated at {0}")]
    Truncated(usize),
    /// The first four bytes are not CA FE BA BE.
    #[error("bad magic number")]
    BadMagic,
    /// The major version is below 45 or above 50.
    #[error("bad version {0}")]
    BadVersion(u16),
    /// There is no constant pool entry of this tag.
    #[error("bad tag at {0}")]
    BadTag(usize),
    /// The first byte with which a text is no modified UTF-8, or the text's end where it ends early.
    #[error("bad modified UTF-8 at {0}")]
    BadUtf8(usize),
    /// The lowest entry of the constant pool that names an entry which is not there or of another kind, or which takes
    /// two indices and stands in the last place. A constant pool count of 0 is `BadIndex(0)`.
    #[error("bad index in constant pool entry {0}")]
    BadIndex(u16),
    /// An index behind the constant pool names no entry of the kind that is needed.
    #[error("bad index at {0}")]
    BadRef(usize),
    /// The length of an attribute that is parsed is not that of its contents, or the length of a code is not 1 to
    /// 65535.
    #[error("bad length at {0}")]
    BadLength(usize),
    /// There are bytes behind the class.
    #[error("bytes behind the class from {0} on")]
    Trailing(usize),
    #[error("no memory")]
    NoMemory,
}

impl From<AllocError> for ReadError {
    ghost from_gives = { λ _ e. e ≡ NoMemory };

    fn from(_e: AllocError) -> ReadError {
        ReadError::NoMemory
    }
}

impl<T: Drop> From<AllocFailed<T>> for ReadError {
    ghost from_gives = { λ _ e. e ≡ NoMemory };

    fn from(_e: AllocFailed<T>) -> ReadError {
        ReadError::NoMemory
    }
}
