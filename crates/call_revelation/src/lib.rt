//! Which methods of a profiled run are marked, at the cost of what changes.
#![tactic(auto)]

mod book;
mod entering;
mod gains;
mod loading;
mod named;
mod ranks;
mod reveal;
mod selecting;
mod selection;
mod showing;
mod uses;

pub use reveal::Reveal;
