//! Generated programs: their classes are made, written and admitted. Nothing refuses one but an action that names no
//! method.
#![tactic(auto)]

mod admitting;

pub use admitting::{GeneratedProgram, admit_generated};
