//! What the calls of a session answer.

use context_tree::Tree;
use jvm_model::Program;

/// Why a method is not selected or deselected, or no tree is lent. Errors are tried in the order Broken, Ended,
/// AlreadySelected or NotSelected.
#[derive(Clone, Copy, Debug, PartialEq, Eq)]
pub enum ActError {
    AlreadySelected,
    NotSelected,
    /// The run has ended.
    Ended,
    /// An earlier call ran out of memory: the session does no more.
    Broken,
    /// Memory ran out in this call.
    NoMemory,
}

/// What an advance has come to.
#[derive(Clone, Copy, Debug, PartialEq, Eq)]
pub enum Run {
    /// All steps were made, and the run goes on.
    Still,
    /// The run has ended, in the last step or before.
    Ended,
    /// An earlier call ran out of memory: the session does no more.
    Broken,
    /// Memory ran out in this call.
    NoMemory,
}

/// The tree of a session, beside its program, whose numbers the tree's methods have.
#[derive(Drop)]
pub struct Shown<'a> {
    pub tree: &'a Tree,
    pub program: &'a Program,
}
