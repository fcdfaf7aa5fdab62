//! Events as bytes in room of a bounded size: what a run tells waits here, and comes out as it was pushed.
#![tactic(auto)]

mod events;
mod numbers;
mod records;
mod room;

pub use events::{Events, Full};
