//! Admission: whether a program's classes can be run, and the first reason why not.
#![tactic(auto)]

mod admission;
mod name_set;
mod profiling;
mod program;
mod shapes;
mod twins;

pub use admission::{admit, admit_class};
