//! Tests of the crates of code, frames, values and events, over their public items. They stand in a crate of their own,
//! since a build of tests proves all of its crate.
#![tactic(auto)]

#[cfg(test)]
mod of_base_classes;
#[cfg(test)]
mod of_class_linker;
#[cfg(test)]
mod of_code_model;
#[cfg(test)]
mod of_event_buffer;
#[cfg(test)]
mod of_heap_objects;
#[cfg(test)]
mod of_native_ops;
