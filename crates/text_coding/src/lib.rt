//! Texts as bytes and back: the modified UTF-8 of class files, and UTF-8.
#![tactic(auto)]

mod error;
mod modified;
mod unicode;

pub use error::TextError;
pub use modified::{from_modified, spelling_is_one_to_one, to_modified};
pub use unicode::{from_utf8, to_utf8};
