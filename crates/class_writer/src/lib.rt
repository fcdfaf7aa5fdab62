//! Writes a class file (JVM Specification 4).
#![tactic(auto)]

mod attributes;
mod constants;
mod members;
mod numbers;
mod room;
mod writer;

pub use writer::{write_class, write_fitting};
