//! A machine's start and its turns: a step over versions with probes or without, at one go or in
//! parts, and several of which nothing is told (JVM Specification 2.11, 5.2).
#![tactic(auto)]

mod startup;
mod turns;

pub use startup::beginning::begin_start;
pub use startup::starting::parts_before;
pub use turns::hands::{Gone, Hand, Passed, go};
pub use turns::passing::pass_steps;
pub use turns::quickly::go_quickly;
