//! The machine of versions: it runs a program in versions of its methods, tells each step in turns,
//! and takes images of its classes between any two turns (JVM Specification 2.6, 2.11, 5.2, 5.5,
//! 6).
#![tactic(auto)]

mod advancing;
mod machine;
mod telling;
mod turn;

pub use machine::Vm;
pub use turn::Turn;
