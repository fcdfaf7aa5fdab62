//! Why a program is not admitted.

ghost use Rattle.std.specs.Prelude.{◌≡◌};
ghost use Rattle.code_admission.specs.declared.error.AdmitError.TheVariants.{NoMemory as out_of_memory};

use inject_events::Cause;
use jf_bytes::NoMemory;
use std::alloc::{AllocError, AllocFailed};
use thiserror::Error;

/// A place in a class: the position of a field or of a method, and for code and for a frame the position of its method
/// and the offset of the instruction or of the frame.
#[derive(Clone, Copy, Debug, PartialEq, Eq)]
pub enum FloatingPointUse {
    Field(u16),
    Method(u16),
    Code(u16, u16),
    Frame(u16, u16),
}

/// What is wrong with the shape of a class (JVM Specification 4.1, 4.5 to 4.7).
#[derive(Clone, Copy, Debug, PartialEq, Eq)]
pub enum ShapeCause {
    Name,
    Super,
    Descriptor,
    Twice,
    Code,
    Constant,
}

/// What is wrong with a method's code (JVM Specification 4.7.3, 4.9.1).
#[derive(Clone, Copy, Debug, PartialEq, Eq)]
pub enum CodeCause {
    Opcode,
    Cut,
    Switch,
    Pool,
    Local,
    Target,
    Return,
    Operand,
    Falls,
    Handler,
    /// A table is outside its grammar, or a frame of it is for no instruction; this is told at offset 0.
    Table,
}

/// Why a program is not admitted: its first fault. The first number is the position of the class among those given; the
/// numbers of `BadCode` behind it are the position of the method and an offset in its code.
#[derive(Clone, Copy, Debug, PartialEq, Eq, Error)]
pub enum AdmitError {
    /// The class has the name of a built-in class or of the probes, or names the class of the probes.
    #[error("a reserved name")]
    ReservedName(u32),
    /// An earlier class has the same name.
    #[error("a second class of one name")]
    Duplicate(u32),
    #[error("a class of no allowed shape")]
    BadShape(u32, ShapeCause),
    #[error("a faulty code")]
    BadCode(u32, u16, u16, CodeCause),
    /// The class uses a float or a double at this place.
    #[error("floating point")]
    FloatingPoint(u32, FloatingPointUse),
    /// The method at this position can't be rewritten with probes, because it would pass this limit.
    #[error("a method cannot be profiled")]
    NotProfilable(u32, u16, Cause),
    /// There are so many methods with Code, those of the built-in classes among them.
    #[error("too many methods")]
    TooManyMethods(u32),
    /// No class has the main class's name, or it has no public static `main` with Code.
    #[error("no main method")]
    NoMain,
    /// The root of the action with this number, counted from 1, is no method with Code.
    #[error("no such root")]
    NoSuchRoot(u32),
    #[error("no memory")]
    NoMemory,
}

impl From<AllocError> for AdmitError {
    ghost from_gives = { λ _ e. e ≡ out_of_memory };

    fn from(_error: AllocError) -> AdmitError {
        AdmitError::NoMemory
    }
}

impl<T: Drop> From<AllocFailed<T>> for AdmitError {
    ghost from_gives = { λ _ e. e ≡ out_of_memory };

    fn from(_error: AllocFailed<T>) -> AdmitError {
        AdmitError::NoMemory
    }
}

impl From<NoMemory> for AdmitError {
    ghost from_gives = { λ _ e. e ≡ out_of_memory };

    fn from(_error: NoMemory) -> AdmitError {
        AdmitError::NoMemory
    }
}
