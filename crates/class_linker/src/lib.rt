//! Loading, subtypes, resolution, selection and layouts of a program's classes (JVM Specification 5.3, 5.4): the
//! definitions of jvm_model by tables that are made once.
#![tactic(auto)]

mod answers;
mod declared_method;
mod kinds;
mod linker;
mod loaded_classes;
mod loading;
mod overriding;
mod resolving;
mod selecting;
mod super_calls;
mod telling;
mod walks;

pub use answers::{Loaded, Resolved};
pub use linker::Linker;
