//! One instruction of each kind, attempted on the parts of a machine or passed at once where its
//! frame alone is concerned (JVM Specification 2.11, 6.5).
#![tactic(auto)]

mod arrays;
mod attempting;
mod elements;
mod monitors;
mod plain;
mod throwing;

pub use arrays::pass_length;
pub use attempting::{attempt, attempt_loaded};
pub use plain::{plain_to, version_now};
