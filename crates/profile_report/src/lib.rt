//! The report of a run: how it ended, what it counted, and the tree of calling contexts.
#![tactic(auto)]

mod ending;
mod facts;
mod names;
mod numbers;
mod summary;
mod tree_lines;
mod writing;

pub use facts::Facts;
pub use writing::report;
