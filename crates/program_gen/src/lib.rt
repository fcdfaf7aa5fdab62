//! Programs that a generator of numbers decides: a class with an entry, and classes whose methods call one another.
#![tactic(auto)]

mod coding;
mod draws;
mod entries;
mod generator;
mod making;
mod names;
mod programs;
mod rows;

pub use generator::generate;
pub use names::class_text;
pub use rows::{Choices, ClassName, ClassRow, Instruction, MemberName, MethodRow};
