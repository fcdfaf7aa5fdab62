//! Tests of the crates that admit, rewrite and profile, over their public items. They stand in a crate of their own,
//! since a build of tests proves all of its crate.
#![tactic(auto)]

#[cfg(test)]
mod of_admit_check;
#[cfg(test)]
mod of_profile_report;
