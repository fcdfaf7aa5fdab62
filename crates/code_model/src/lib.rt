//! The instructions of a method's code (JVM Specification 6).
#![tactic(auto)]

mod decoding;
mod encoding;
mod error;
mod homes;
mod instr;
mod laying;
mod numbers;
mod operands;
mod sizes;
mod spelling;
mod switches;

pub use decoding::{decode, instr_at};
pub use encoding::encode;
pub use error::CodeError;
pub use homes::homes_unmoved;
pub use instr::{Arg, Code, Instr};
pub use laying::{Group, Homes, Laid, LayError, lay_out};
