//! Versions of methods by their numbers, and for each method the version that it begins in.
#![tactic(auto)]

mod versions;

pub use versions::{Held, Versions};
