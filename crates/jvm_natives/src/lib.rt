//! The classes of a run, as the native methods of the built-in classes see them.
#![tactic(auto)]

mod kinds;

pub use kinds::LinkedKinds;
