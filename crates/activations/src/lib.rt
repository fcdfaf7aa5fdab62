//! How activations begin and end, and what goes on between two instructions: invocation, returns,
//! exceptions and class initialization (JVM Specification 2.6, 2.10, 5.5).
#![tactic(auto)]

mod asking;
mod catching;
mod entering;
mod going;
mod handlers;
mod initializing;
mod invoking;
mod objects;
mod raising;
mod returning;
mod settling;
mod supertypes;
mod turning;

pub use asking::{conclude, raise_named};
pub use catching::{catch_below, caught_below, thrown_object};
pub use going::top_datum;
pub use initializing::initialize;
pub use invoking::{begin_frame, may_begin};
pub use objects::{class_of, is_throwable};
pub use raising::{break_off, raise_with};
pub use returning::{end_initializer, return_by};
pub use turning::{Moved, is_marked, make_move};
