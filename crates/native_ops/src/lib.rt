//! The native methods of the built-in classes. A method is a rule that reads the arguments and what is there, and tells
//! an effect; effects are done in one place, so that a call that wants memory changes nothing. What a method throws is
//! left to the caller to make.
#![tactic(auto)]

mod classes;
mod methods;

pub use methods::calls::{Invocation, call};
