//! What the words and a plan ask for together.

ghost use Rattle.std.specs.Prelude.{◌≡◌, ◌&&◌, is_none, unwrap_or, IfOk, IfSome};
ghost use Rattle.std.specs.Option.{option_map};
ghost use Rattle.plan_text.specs.Bounds.{IsWithin};
ghost use Rattle.command_line.specs.Words.{IsSound, read_in, text};
ghost use Rattle.command_line.specs.Chosen.{IsInBounds, IsOwnPlan, run_chosen, chosen_in, either, usual_budget};

use crate::words::Words;
use jf_bytes::Text16;
use plan_text::{Action, Plan, PlanError, plan_of_root, silent};
use std::alloc::Global;

/// The most steps, where neither the words nor the plan say it.
const USUAL_BUDGET: u64 = 100_000_000;

/// The heap slots, where the plan doesn't say it.
const USUAL_HEAP: u32 = 4_194_304;

/// What is to be run, and how.
#[derive(Clone, Copy, Debug)]
pub struct Command<'a> {
    /// The main class in its internal form (JVM Specification 4.2.1).
    pub main: &'a Text16,
    /// The arguments of `main`.
    pub args: &'a [Text16],
    /// The most steps.
    pub budget: u64,
    /// The greatest number of heap slots.
    pub heap: u32,
    /// Which methods are selected and deselected, and when.
    pub actions: &'a [Action],
}

/// The main class of the words, else of the plan.
fn main_of<'a>(words: &'a Words<'_>, plan: &'a Plan) -> Option<&'a Text16>
    ensures { option_map (λ class. class.now) result
        ≡ either words.entry.now.main plan.entry.now.main }
{
    match words.main.as_ref() {
        Some(class) => Some(class),
        None => plan.main.as_ref(),
    }
}

/// The budget of the words, else of the plan, else the usual one.
fn budget_of(words: &Words<'_>, plan: &Plan) -> u64
    ensures { result ≡ unwrap_or (either words.now.budget plan.now.budget) usual_budget }
{
    words.budget.or(plan.budget).unwrap_or(USUAL_BUDGET)
}

/// The plan of words that name no plan's file: their root is selected before the first step, or the plan is silent.
///
/// The error is `plan_of_root`'s: the word names no method.
pub fn own_plan(alloc: Global, words: &Words<'_>) -> Result<Plan, PlanError>
    ensures own { IsOwnPlan (text words.now.root) result }
    ensures within { IfOk result IsWithin }
{
    match words.root {
        Some(root) => plan_of_root(alloc, root),
        None => Ok(silent(alloc)),
    }
}

/// What accepted words and the plan, which they or their root gave, ask for: main class and budget are the words', else
/// the plan's; heap, args and actions are the plan's. None where neither names a main class, which is a refusal of the
/// words.
pub fn command_of<'a>(words: &'a Words<'_>, plan: &'a Plan) -> Option<Command<'a>>
    ensures chosen { option_map chosen_in result
        ≡ run_chosen (read_in words.entry.now) plan.entry.now }
    ensures none { is_none result
        ≡ (is_none words.entry.now.main && is_none plan.entry.now.main) }
    ensures sound { IsSound (read_in words.entry.now) → IsWithin plan.entry.now
        → IfSome result (λ command. IsInBounds (chosen_in command)) }
{
    let main = main_of(words, plan)?;
    Some(Command {
        main,
        args: plan.args.as_slice(),
        budget: budget_of(words, plan),
        heap: plan.heap.unwrap_or(USUAL_HEAP),
        actions: plan.actions.as_slice(),
    })
}
