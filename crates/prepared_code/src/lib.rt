//! The code of a program as it is run: the versions of its methods by their lines, with what their
//! names came to, in one table beside the linker; and the parts that a machine has, of which a step
//! makes the next ones (JVM Specification 2.5, 2.6, 4.7.3).
#![tactic(auto)]

mod cells;
mod class_versions;
mod initializations;
mod kinds;
mod loading;
mod originals;
mod parts;
mod passage;
mod preparing;
mod rewritten;
mod versions;

pub use initializations::{
    Initialization, initialization_on, put_initialization, take_initialization,
};
pub use kinds::fits_array;
pub use loading::has_built_in_name;
pub use originals::Originals;
pub use parts::{Here, Parts, where_now};
pub use passage::{Passage, next_in};
pub use versions::{Catching, PreparedCode, Version, Versions, line_in};
