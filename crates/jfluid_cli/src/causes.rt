//! What is told of a fault for which a program is not admitted.

ghost use Rattle.std.specs.Prelude.{◌≡◌, IfOk};
ghost use Rattle.std.specs.String.{string_bytes};
ghost use Rattle.jfluid_cli.specs.Refusals.{admission_cause as cause_told, class_in as class_of, code_word as code_told};
ghost use Rattle.jfluid_cli.specs.Refusals.{place_text as place_told, shape_word as shape_told};
ghost use Rattle.jfluid_cli.specs.Refusals.{limit_word as limit_told};

use code_admission::{AdmitError, CodeCause, FloatingPointUse, ShapeCause};
use inject_events::Cause;
use std::alloc::{AllocError, Global};

/// The position of the class that has the fault, or None where it is one of what is looked at behind
/// the last class. What tells a fault of a class names its file.
pub fn class_in(fault: AdmitError) -> Option<u32>
    ensures { result ≡ class_of fault }
{
    match fault {
        AdmitError::ReservedName(class)
        | AdmitError::Duplicate(class)
        | AdmitError::BadShape(class, _)
        | AdmitError::BadCode(class, ..)
        | AdmitError::FloatingPoint(class, _)
        | AdmitError::NotProfilable(class, ..) => Some(class),
        AdmitError::TooManyMethods(_)
        | AdmitError::NoMain
        | AdmitError::NoSuchRoot(_)
        | AdmitError::NoMemory => None,
    }
}

/// The name of what is wrong with a class's shape.
fn shape_word(cause: ShapeCause) -> &'static str
    ensures { result.now ≡ shape_told cause }
{
    match cause {
        ShapeCause::Name => "Name",
        ShapeCause::Super => "Super",
        ShapeCause::Descriptor => "Descriptor",
        ShapeCause::Twice => "Twice",
        ShapeCause::Code => "Code",
        ShapeCause::Constant => "Constant",
    }
}

/// The name of what is wrong with a code.
fn code_word(cause: CodeCause) -> &'static str
    ensures { result.now ≡ code_told cause }
{
    match cause {
        CodeCause::Opcode => "Opcode",
        CodeCause::Cut => "Cut",
        CodeCause::Switch => "Switch",
        CodeCause::Pool => "Pool",
        CodeCause::Local => "Local",
        CodeCause::Target => "Target",
        CodeCause::Return => "Return",
        CodeCause::Operand => "Operand",
        CodeCause::Falls => "Falls",
        CodeCause::Handler => "Handler",
        CodeCause::Table => "Table",
    }
}

/// The name of a limit that a method with probes would pass.
fn limit_word(cause: Cause) -> &'static str
    ensures { result.now ≡ limit_told cause }
{
    match cause {
        Cause::Pool => "Pool",
        Cause::Stack => "Stack",
        Cause::Handlers => "Handlers",
        Cause::Frames => "Frames",
        Cause::Length => "Length",
        Cause::Branch => "Branch",
    }
}

/// A place, with its numbers.
fn place_text(alloc: Global, place: FloatingPointUse) -> Result<String, AllocError>
    ensures { IfOk result (λ text. string_bytes text ≡ place_told place) }
{
    match place {
        FloatingPointUse::Field(field) => format!(in alloc; "Field {field}"),
        FloatingPointUse::Method(method) => format!(in alloc; "Method {method}"),
        FloatingPointUse::Code(method, at) => format!(in alloc; "Code {method} {at}"),
        FloatingPointUse::Frame(method, at) => format!(in alloc; "Frame {method} {at}"),
    }
}

/// The fault's name and its numbers, but for the class's.
pub fn admission_cause(alloc: Global, fault: AdmitError) -> Result<String, AllocError>
    ensures { IfOk result (λ cause. string_bytes cause ≡ cause_told fault) }
{
    match fault {
        AdmitError::ReservedName(_) => String::from_str(alloc, "ReservedName"),
        AdmitError::Duplicate(_) => String::from_str(alloc, "Duplicate"),
        AdmitError::BadShape(_, cause) => {
            let word = shape_word(cause);
            format!(in alloc; "BadShape {word}")
        }
        AdmitError::BadCode(_, method, at, cause) => {
            let word = code_word(cause);
            format!(in alloc; "BadCode {method} {at} {word}")
        }
        AdmitError::FloatingPoint(_, place) => {
            let place = place_text(alloc, place)?;
            format!(in alloc; "FloatingPoint {place}")
        }
        AdmitError::NotProfilable(_, method, cause) => {
            let word = limit_word(cause);
            format!(in alloc; "NotProfilable {method} {word}")
        }
        AdmitError::TooManyMethods(count) => format!(in alloc; "TooManyMethods {count}"),
        AdmitError::NoMain => String::from_str(alloc, "NoMain"),
        AdmitError::NoSuchRoot(action) => format!(in alloc; "NoSuchRoot {action}"),
        AdmitError::NoMemory => String::from_str(alloc, "NoMemory"),
    }
}
