//! Frames and debug tables of a method whose code is laid out anew (JVM Specification 4.7.4, 4.7.8, 4.7.9, 4.7.10).
#![tactic(auto)]

mod debug;
mod error;
mod forms;
mod frames;
mod lists;
mod moves;
mod numbers;
mod reading;
mod types;
mod writing;

pub use debug::{is_line_table, is_variable_table, shift_lines, shift_vars};
pub use error::FrameError;
pub use frames::{Frame, FrameKind, Frames, VType};
pub use moves::shift_frames;
pub use reading::read_frames;
pub use writing::write_frames;
