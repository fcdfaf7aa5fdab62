//! The plan of a run.

ghost use Rattle.std.specs.Prelude.{◌≡◌, IfOk};
ghost use Rattle.plan_text.specs.Plans.{IsPlanOf, plan_selecting};
ghost use Rattle.plan_text.specs.declared.plan.PlanError.TheVariants.{NoMemory as out_of_memory};

use crate::roots::read_root;
use jf_bytes::{NoMemory, Seq, Text16};
use std::alloc::{AllocError, AllocFailed, Global};
use thiserror::Error;

/// A method by its names: the class with slashes, the name, and the descriptor (JVM Specification 4.2.1, 4.3.3).
#[derive(Debug, Drop)]
pub struct RootName {
    pub class: Text16,
    pub name: Text16,
    pub descriptor: Text16,
}

/// A root is selected, or deselected, at a moment: when that many steps were made.
#[derive(Debug, Drop)]
pub struct Action {
    pub moment: u64,
    pub select: bool,
    pub root: RootName,
}

/// What a run is asked to do beside running: its main class with slashes, the arguments of `main`, the most steps, the
/// greatest number of heap slots, and the actions, whose moments do not fall. None stands where the plan is silent.
#[derive(Debug, Drop)]
pub struct Plan {
    pub main: Option<Text16>,
    pub args: Seq<Text16>,
    pub budget: Option<u64>,
    pub heap: Option<u32>,
    pub actions: Seq<Action>,
}

/// What is wrong with a line of a plan.
#[derive(Clone, Copy, Debug, PartialEq, Eq)]
pub enum LineCause {
    Utf8,
    Unknown,
    Number,
    Name,
    Root,
    Twice,
}

/// Why a plan is refused. A number is that of the line, counted from 1; it is 0 for the word of a root, which is in no
/// line.
#[derive(Debug, Drop, Error)]
pub enum PlanError {
    #[error("the text is too long")]
    TooLong,
    #[error("the line can't be read")]
    BadLine(u32, LineCause),
    #[error("the moment is below an earlier one")]
    Backwards(u32),
    #[error("the root is selected already")]
    AlreadySelected(u32),
    #[error("the root is not selected")]
    NotSelected(u32),
    #[error("too many lines of this form")]
    TooMany(u32),
    #[error("no memory")]
    NoMemory,
}

impl From<AllocError> for PlanError {
    ghost from_gives = { λ _ e. e ≡ out_of_memory };

    fn from(_error: AllocError) -> PlanError {
        PlanError::NoMemory
    }
}

impl<T: Drop> From<AllocFailed<T>> for PlanError {
    ghost from_gives = { λ _ e. e ≡ out_of_memory };

    fn from(_error: AllocFailed<T>) -> PlanError {
        PlanError::NoMemory
    }
}

impl From<NoMemory> for PlanError {
    ghost from_gives = { λ _ e. e ≡ out_of_memory };

    fn from(_error: NoMemory) -> PlanError {
        PlanError::NoMemory
    }
}

/// The root is selected before the first step, and no more.
fn selecting(alloc: Global, root: RootName) -> Result<Plan, NoMemory>
    ensures { IfOk result (λ plan. plan ≡ plan_selecting root) }
{
    let mut actions = Seq::with_capacity(alloc, 1)?;
    actions.push(Action {
        moment: 0,
        select: true,
        root,
    })?;
    Ok(Plan {
        main: None,
        args: Seq::new(alloc),
        budget: None,
        heap: None,
        actions,
    })
}

/// The plan that a word for one root stands for: this method is selected before the first step. The word is class, dot,
/// method name, descriptor, of which the last dot before the first `(` divides; the class's dots are read as slashes.
///
/// `BadLine` says that the word is no such thing, to a user that the root is misspelled.
pub fn plan_of_root(alloc: Global, root: &str) -> Result<Plan, PlanError>
    ensures { IsPlanOf root.now result }
{
    match read_root(alloc, root)? {
        Some(root) => Ok(selecting(alloc, root)?),
        None => Err(PlanError::BadLine(0, LineCause::Root)),
    }
}
