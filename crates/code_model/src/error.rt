//! Why bytes are no code.

ghost use Rattle.std.specs.Prelude.{◌≡◌};
ghost use Rattle.code_model.specs.declared.error.CodeError.TheVariants.{NoMemory as out_of_memory};

use std::alloc::{AllocError, AllocFailed};
use thiserror::Error;

/// What `decode` answers in place of a code: the first fault, with the offset of the opcode of its instruction, or of
/// the wide in front of it.
#[derive(Debug, Drop, Error)]
pub enum CodeError {
    /// The opcode stands for no instruction of a class file of version 45 to 50, or for none that may follow wide.
    #[error("no instruction at {0}")]
    BadOpcode(u16),
    /// The code ends within the instruction.
    #[error("the instruction at {0} is cut off")]
    Cut(u16),
    /// A tableswitch whose high is below its low; a lookupswitch with a negative count or with keys that do not rise.
    #[error("a faulty switch at {0}")]
    BadSwitch(u16),
    #[error("no memory")]
    NoMemory,
}

impl From<AllocError> for CodeError {
    ghost from_gives = { λ _ e. e ≡ out_of_memory };

    fn from(_e: AllocError) -> CodeError {
        CodeError::NoMemory
    }
}

impl<T: Drop> From<AllocFailed<T>> for CodeError {
    ghost from_gives = { λ _ e. e ≡ out_of_memory };

    fn from(_e: AllocFailed<T>) -> CodeError {
        CodeError::NoMemory
    }
}
