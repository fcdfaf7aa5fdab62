//! Lists, stacks, texts and want of memory: what nearly every other crate of jfluid stands on.
#![tactic(auto)]

mod error;
mod seq;
mod stack;
mod text;

pub use error::NoMemory;
pub use seq::Seq;
pub use stack::Stack;
pub use text::Text16;
