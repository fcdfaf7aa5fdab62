//! Tests of a session between its steps, over what the top call keeps. They stand in a crate of their own, since a
//! build of tests proves all of its crate.
#![tactic(auto)]

#[cfg(test)]
mod kept;
#[cfg(test)]
mod of_acts;
#[cfg(test)]
mod of_trees;
