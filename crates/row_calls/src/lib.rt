//! The top call over objects in memory: what a row of worked_rows gives it, and what comes of it.
#![tactic(auto)]

mod calling;
mod given;

pub use calling::{Answer, answer_to};
pub use given::{Device, Failure, NamedFile, RowInput};
