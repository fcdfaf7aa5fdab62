//! Redefines a class of a machine while it runs: the versions of its image become current for all of its methods.
#![tactic(auto)]

mod numbers;
mod redefining;

pub use class_shape::SwapError;
pub use numbers::first_number;
pub use redefining::redefine;
