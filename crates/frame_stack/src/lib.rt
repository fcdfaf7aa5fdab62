//! The frames of a machine in one vector of slots. Contracts see a list of frames, the top first.
#![tactic(auto)]

mod counters;
mod entry;
mod frames;
mod room;
mod slots;
mod top;
mod width;

pub use frames::Frames;
