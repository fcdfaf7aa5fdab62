//! What a report tells of a run besides its tree.

use jvm_model::Ending;

/// How the run ended (none: its budget was spent), how many steps it made, how often a class was swapped, and whether
/// the tree is told by its sums alone.
#[derive(Clone, Copy, Debug, PartialEq, Eq)]
pub struct Facts {
    pub ending: Option<Ending>,
    pub steps: u64,
    pub swaps: u64,
    pub summary: bool,
}
