//! A session: a program that is run and profiled, with selections and deselections between its steps.
#![tactic(auto)]

mod actions;
mod answer;
mod beginning;
mod depths;
mod going;
mod parts;
mod session;
mod swap;
mod swapping;

pub use answer::{ActError, Run, Shown};
pub use session::Session;
pub use swap::Swap;
