//! Tests of the crates that read, write and make class files, over their public items. They stand in a crate of their
//! own, since a build of tests proves all of its crate.
#![tactic(auto)]

#[cfg(test)]
mod of_byte_streams;
#[cfg(test)]
mod of_class_reader;
#[cfg(test)]
mod of_program_gen;
