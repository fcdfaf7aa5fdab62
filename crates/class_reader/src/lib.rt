//! Reads a class file (JVM Specification 4).
#![tactic(auto)]

mod attributes;
mod code;
mod constants;
mod error;
mod heading;
mod lists;
mod members;
mod numbers;
mod pool;
mod reader;
mod references;
mod tags;

pub use error::ReadError;
pub use reader::{MOST_BYTES, read_class, read_image};
