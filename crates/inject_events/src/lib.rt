//! Rewrites the methods of a class with probes: at their entry, before each return, and where an exception leaves them.
#![tactic(auto)]

mod classes;
mod copying;
mod error;
mod frame_tables;
mod image;
mod members;
mod methods;
mod probes;
mod rewriting;
mod settings;
mod small_codes;
mod tables;
mod versions;

pub use classes::instrument;
pub use error::{Cause, InjectError};
pub use image::Image;
pub use methods::marked_have_code;
pub use small_codes::is_surely_profilable;
