//! What can redefine a class: a class file of the same shape (JVM Specification 4.1, 4.5, 4.6).
#![tactic(auto)]

mod comparing;
mod error;
mod shape;
mod swap;

pub use error::SwapError;
pub use shape::{OF_HEADING, shape_fault};
pub use swap::read_swap;
