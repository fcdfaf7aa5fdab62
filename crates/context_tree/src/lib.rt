//! The calling-context tree of a run, made from the events of probes.
#![tactic(auto)]

mod all_totals;
mod children;
mod laws;
mod node;
mod table;
mod tree;

pub use laws::{folds_to_counts, session_sees, tree_is_projection};
pub use node::Node;
pub use tree::Tree;
