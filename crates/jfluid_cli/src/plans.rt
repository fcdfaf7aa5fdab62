//! The plan of the words: of the file that they name, of their word for a root, or the silent one.

ghost use Rattle.std.specs.Prelude.{◌≡◌, ℕ, List, [], Ok, Some, IfOk, IfErr, IsOk};
ghost use Rattle.byte_streams.specs.Streams.{IsFetched};
ghost use Rattle.plan_text.specs.Bounds.{IsWithin};
ghost use Rattle.plan_text.specs.Lines.{IsPlanRead, most_bytes};
ghost use Rattle.command_line.specs.Chosen.{IsOwnPlan};
ghost use Rattle.command_line.specs.Words.{read_in, text};
ghost use Rattle.jfluid_cli.specs.Actions.{AlternateRoots};
ghost use Rattle.jfluid_cli.specs.Asking.{IsToldPlan, IsPlanFor};
ghost use Rattle.jfluid_cli.specs.Refusals.{refusal_of};
ghost use Rattle.jfluid_cli.specs.Sinks.{files_view};
ghost use Rattle.jfluid_cli.specs.Stages.{HasFetchCause, IsFetchFault, IsOwnRefusal, IsPlanRefusal, IsTextRefusal};
ghost use Rattle.jfluid_cli.specs.Stages.{IsToldRefusal};

use crate::refusal::Refusal;
use byte_streams::{FetchError, Files};
use command_line::{Words, own_plan};
use jf_bytes::Seq;
use plan_text::{Plan, PlanError, read_plan};
use std::alloc::Global;

/// A plan's file is at most so long.
const MOST_BYTES: usize = 1_048_576;

/// Why there is no plan: for a fault of it, or for want of memory.
fn refusal_for(error: PlanError) -> Refusal
    ensures { result ≡ refusal_of error }
{
    match error {
        PlanError::TooLong => Refusal::Plan(PlanError::TooLong),
        PlanError::BadLine(number, cause) => Refusal::Plan(PlanError::BadLine(number, cause)),
        PlanError::Backwards(number) => Refusal::Plan(PlanError::Backwards(number)),
        PlanError::AlreadySelected(number) => Refusal::Plan(PlanError::AlreadySelected(number)),
        PlanError::NotSelected(number) => Refusal::Plan(PlanError::NotSelected(number)),
        PlanError::TooMany(number) => Refusal::Plan(PlanError::TooMany(number)),
        PlanError::NoMemory => Refusal::NoMemory,
    }
}

/// Reads a plan's text.
fn read_text(alloc: Global, bytes: &[u8]) -> Result<Plan, Refusal>
    ensures read { IfOk result (λ plan. IsPlanRead bytes.now (Ok plan)) }
    ensures within { IfOk result IsWithin }
    ensures refused { IfErr result (IsTextRefusal bytes.now) }
{
    match read_plan(alloc, bytes) {
        Ok(plan) => Ok(plan),
        Err(error) => Err(refusal_for(error)),
    }
}

/// Fetches a plan's file, or, of a longer one, enough to see that it is too long.
fn fetch_plan<F: Files>(alloc: Global, name: &str, files: &mut F) -> Result<Seq<u8>, Refusal>
    ensures found { IfOk result (IsFetched (F.contents files.old) name.now most_bytes) }
    ensures stay { F.contents files.new ≡ F.contents files.old }
    ensures without_fault { let old = files_view (F.faults files.old) (F.last_failed files.old) in
        let new = files_view (F.faults files.new) (F.last_failed files.new) in
        IsOk result → new ≡ old }
    ensures failed { let old = files_view (F.faults files.old) (F.last_failed files.old) in
        let new = files_view (F.faults files.new) (F.last_failed files.new) in
        IfErr result (IsFetchFault name.now Refusal.PlanNotFetched old new) }
{
    match files.fetch(alloc, name, MOST_BYTES) {
        Ok(bytes) => Ok(Seq::from_vec(bytes)),
        Err(FetchError::Failed) => Err(Refusal::PlanNotFetched),
        Err(FetchError::NoMemory) => Err(Refusal::NoMemory),
    }
}

/// Fetches the plan's file of this name, and reads it.
fn told_plan<F: Files>(alloc: Global, name: &str, files: &mut F) -> Result<Plan, Refusal>
    ensures planned { IfOk result (λ plan.
        IsToldPlan (F.contents files.old) name.now (Ok plan)) }
    ensures within { IfOk result IsWithin }
    ensures stay { F.contents files.new ≡ F.contents files.old }
    ensures without_fault { let old = files_view (F.faults files.old) (F.last_failed files.old) in
        let new = files_view (F.faults files.new) (F.last_failed files.new) in
        IsOk result → new ≡ old }
    ensures refused { IfErr result (IsToldRefusal (F.contents files.old) name.now) }
    ensures cause { let old = files_view (F.faults files.old) (F.last_failed files.old) in
        let new = files_view (F.faults files.new) (F.last_failed files.new) in
        (names : List (List ℕ)) → IfErr result (HasFetchCause (Some name.now) names old new) }
{
    let bytes = match fetch_plan(alloc, name, files) {
        Ok(bytes) => bytes,
        Err(refusal) => return Err(refusal),
    };
    match read_text(alloc, bytes.as_slice()) {
        Ok(plan) => Ok(plan),
        Err(refusal) => Err(refusal),
    }
}

/// The plan of the words that name no plan's file.
fn plan_of_root(alloc: Global, words: &Words<'_>) -> Result<Plan, Refusal>
    ensures planned { IfOk result (λ plan. IsOwnPlan (text words.now.root) (Ok plan)) }
    ensures within { IfOk result IsWithin }
    ensures refused { IfErr result (IsOwnRefusal (text words.now.root)) }
{
    match own_plan(alloc, words) {
        Ok(plan) => Ok(plan),
        Err(error) => Err(refusal_for(error)),
    }
}

/// The plan of the words.
pub fn plan_of<F: Files>(alloc: Global, words: &Words<'_>, files: &mut F) -> Result<Plan, Refusal>
    ensures planned { IfOk result (λ plan.
        IsPlanFor (F.contents files.old) (read_in words.now) (Ok plan)) }
    ensures within { IfOk result IsWithin }
    ensures alternate { IfOk result (λ plan. AlternateRoots [] plan.actions) }
    ensures stay { F.contents files.new ≡ F.contents files.old }
    ensures without_fault { let old = files_view (F.faults files.old) (F.last_failed files.old) in
        let new = files_view (F.faults files.new) (F.last_failed files.new) in
        IsOk result → new ≡ old }
    ensures refused { IfErr result (IsPlanRefusal (F.contents files.old) (read_in words.now)) }
    ensures cause { let old = files_view (F.faults files.old) (F.last_failed files.old) in
        let new = files_view (F.faults files.new) (F.last_failed files.new) in
        (names : List (List ℕ)) →
        IfErr result (HasFetchCause (text words.now.plan) names old new) }
{
    match words.plan {
        Some(name) => told_plan(alloc, name, files),
        None => plan_of_root(alloc, words),
    }
}
