//! The report of a run, and the status that goes with it.

ghost use Rattle.std.specs.Prelude.{◌≡◌, true, false, IfOk, OnOk, MatchResult};
ghost use Rattle.profile_session.specs.Answers.{Gathers};
ghost use Rattle.jfluid_cli.specs.Runs.{IsGoing, IsPlanned, SameProgram};
ghost use Rattle.jfluid_cli.specs.Calls.{IsReported};
ghost use Rattle.jfluid_cli.specs.Sinks.{IsUntold, sink_view};
ghost use Rattle.jfluid_cli.specs.Top.{status_of_ending, is_run, is_status, report_of};

use crate::refusal::{Refusal, put_bytes};
use byte_streams::Sink;
use jf_bytes::NoMemory;
use jvm_model::Ending;
use profile_report::{Facts, report};
use profile_session::{ActError, Session};
use std::alloc::Global;

/// The exit status of a run that ended so, or did not.
fn status_of_run(ending: Option<Ending>) -> u8
    ensures value { result ≡ status_of_ending ending }
    ensures run { is_run result ≡ true }
    ensures known { is_status result ≡ true }
{
    match ending {
        None => 4,
        Some(Ending::Returned) => 0,
        Some(Ending::Exited(_)) => 0,
        Some(Ending::Uncaught(_)) => 1,
        Some(Ending::Unverifiable(..)) => 10,
    }
}

/// The report of a session whose tree was gathered, with the tree or the sums over it.
fn text_of(alloc: Global, session: &Session, summary: bool) -> Result<Vec<u8>, NoMemory>
    requires going { IsGoing session.now }
    requires gathered { session.now.gathered ≡ true }
    requires planned { IsPlanned session.now }
    ensures { IfOk result (λ text. text.items ≡ report_of summary session.now) }
{
    let facts = Facts {
        ending: session.ending(),
        steps: session.clock(),
        swaps: session.swaps().len() as u64,
        summary,
    };
    let shown = session.shown();
    report(alloc, &facts, shown.tree, shown.program)
}

/// Brings the tree of a session to its clock.
pub fn gather(session: &mut Session) -> Result<(), NoMemory>
    requires whole { session.old.broken ≡ false }
    ensures ok { OnOk result (Gathers session.old session.new) }
    ensures same { SameProgram session.old session.new }
{
    match session.gather() {
        Ok(()) => Ok(()),
        Err(ActError::NoMemory) => Err(NoMemory),
        Err(ActError::AlreadySelected) => unreachable!(),
        Err(ActError::NotSelected) => unreachable!(),
        Err(ActError::Ended) => unreachable!(),
        Err(ActError::Broken) => unreachable!(),
    }
}

/// Puts the report of a session whose tree was gathered, and answers the status of its run, or 8
/// where the put failed.
pub fn give_report<P: Sink>(
    alloc: Global,
    session: &Session,
    summary: bool,
    out: &mut P,
) -> Result<u8, Refusal>
    requires going { IsGoing session.now }
    requires gathered { session.now.gathered ≡ true }
    requires planned { IsPlanned session.now }
    ensures reported { let old = sink_view (P.taken out.old) (P.faults out.old) in
        let new = sink_view (P.taken out.new) (P.faults out.new) in
        MatchResult result
        (IsReported summary session.now old new)
        (λ e. (e ≡ Refusal.NoMemory) × IsUntold old new) }
{
    let Ok(text) = text_of(alloc, session, summary) else {
        return Err(Refusal::NoMemory);
    };
    if !put_bytes(out, &text) {
        return Ok(8);
    }
    Ok(status_of_run(session.ending()))
}
