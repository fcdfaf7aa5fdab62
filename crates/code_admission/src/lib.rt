//! What admission asks of a class's codes (JVM Specification 4.7.3, 4.9.1), of floating point in a class, and the
//! errors of admission.
#![tactic(auto)]

mod code_tables;
mod codes;
mod error;
mod floating;
mod floating_frames;
mod starts;
mod texts;
mod uses;

pub use codes::check_codes;
pub use error::{AdmitError, CodeCause, FloatingPointUse, ShapeCause};
pub use floating::floating_fault;
pub use texts::{field_kind, is_array_name, is_field_text, method_kinds};
