//! What is shown of a run: its images, the records of its swaps, and behind them its report.

ghost use Rattle.std.specs.Prelude.{◌≡◌, false, IfOk, MatchResult, OnOk};
ghost use Rattle.byte_streams.specs.Streams.{PutsAll, PutsPrefix};
ghost use Rattle.profile_session.specs.Answers.{Gathers};
ghost use Rattle.jfluid_cli.specs.Calls.{IsShown};
ghost use Rattle.jfluid_cli.specs.Images.{IsImaged, UnputCause, images_of, swap_record, swap_records};
ghost use Rattle.jfluid_cli.specs.Runs.{IsGoing, IsPlanned, SameProgram};
ghost use Rattle.jfluid_cli.specs.Sinks.{IsUntold, sink_view};

use crate::refusal::Refusal;
use crate::reporting::{gather, give_report};
use byte_streams::Sink;
use jf_bytes::NoMemory;
use profile_session::{Session, Swap};
use std::alloc::Global;

/// Why not all records were put.
#[derive(Clone, Copy, Debug, PartialEq, Eq)]
pub enum Unput {
    /// A put failed.
    Failed,
    NoMemory,
}

/// The record of a swap: its clock, the length of its image, which has fewer than 2^32 bytes, and
/// the image.
fn record_of(alloc: Global, swap: &Swap) -> Result<Vec<u8>, NoMemory>
    ensures { IfOk result (λ bytes. bytes.items ≡ swap_record swap.now) }
{
    let image = swap.image.as_slice();
    let length = (image.len() as u64).to_be_bytes();
    let mut bytes = Vec::new(alloc);
    bytes.extend_from_slice(&swap.clock.to_be_bytes())?;
    bytes.extend_from_slice(&length[4..])?;
    bytes.extend_from_slice(image)?;
    Ok(bytes)
}

/// Puts the record of a swap.
fn put_record<G: Sink>(alloc: Global, swap: &Swap, images: &mut G) -> Result<(), Unput>
    ensures all { let bytes = swap_record swap.now in
        OnOk result (PutsAll (G.taken images.old) (G.taken images.new) bytes) }
    ensures prefix { let bytes = swap_record swap.now in
        PutsPrefix (G.taken images.old) (G.taken images.new) bytes }
    ensures cause { UnputCause (G.faults images.old) (G.faults images.new) result }
{
    let Ok(bytes) = record_of(alloc, swap) else {
        return Err(Unput::NoMemory);
    };
    if images.put(&bytes).is_err() {
        return Err(Unput::Failed);
    }
    Ok(())
}

/// Puts the records of swaps, one by one, in their order.
fn put_records<G: Sink>(alloc: Global, swaps: &[Swap], images: &mut G) -> Result<(), Unput>
    ensures all { let bytes = swap_records swaps.now in
        OnOk result (PutsAll (G.taken images.old) (G.taken images.new) bytes) }
    ensures prefix { let bytes = swap_records swaps.now in
        PutsPrefix (G.taken images.old) (G.taken images.new) bytes }
    ensures cause { UnputCause (G.faults images.old) (G.faults images.new) result }
{
    for swap in swaps {
        put_record(alloc, swap, images)?;
    }
    Ok(())
}

/// Puts the records of a session's swaps, where they are asked for.
fn put_images<G: Sink>(
    alloc: Global,
    session: &Session,
    asked: bool,
    images: &mut G,
) -> Result<(), Unput>
    requires going { IsGoing session.now }
    ensures all { let old = sink_view (G.taken images.old) (G.faults images.old) in
        let new = sink_view (G.taken images.new) (G.faults images.new) in
        OnOk result (IsImaged asked session.now old new) }
    ensures prefix { let bytes = images_of asked session.now in
        PutsPrefix (G.taken images.old) (G.taken images.new) bytes }
    ensures cause { UnputCause (G.faults images.old) (G.faults images.new) result }
    ensures unasked { let old = sink_view (G.taken images.old) (G.faults images.old) in
        let new = sink_view (G.taken images.new) (G.faults images.new) in
        asked ≡ false → IsUntold old new }
{
    let swaps = session.swaps();
    if !asked {
        return Ok(());
    }
    put_records(alloc, swaps, images)
}

/// Puts the images of a session, where they are asked for, and then its report, by its tree or by the sums over it, and
/// answers the status of its run, or 8 where a put failed.
pub fn show<G: Sink, P: Sink>(
    alloc: Global,
    session: &mut Session,
    summary: bool,
    asked: bool,
    images: &mut G,
    report: &mut P,
) -> Result<u8, Refusal>
    requires going { IsGoing session.old }
    requires planned { IsPlanned session.old }
    ensures gathered { OnOk result (Gathers session.old session.new) }
    ensures same { SameProgram session.old session.new }
    ensures shown { let old = sink_view (P.taken report.old) (P.faults report.old) in
        let new = sink_view (P.taken report.new) (P.faults report.new) in
        let before = sink_view (G.taken images.old) (G.faults images.old) in
        let after = sink_view (G.taken images.new) (G.faults images.new) in
        MatchResult result
        (IsShown summary asked session.new before after old new)
        (λ e. (e ≡ Refusal.NoMemory) × IsUntold old new) }
    ensures prefix { let bytes = images_of asked session.new in
        PutsPrefix (G.taken images.old) (G.taken images.new) bytes }
    ensures unasked { let before = sink_view (G.taken images.old) (G.faults images.old) in
        let after = sink_view (G.taken images.new) (G.faults images.new) in
        asked ≡ false → IsUntold before after }
{
    let Ok(()) = gather(session) else {
        return Err(Refusal::NoMemory);
    };
    match put_images(alloc, session, asked, images) {
        Ok(()) => give_report(alloc, session, summary, report),
        Err(Unput::Failed) => Ok(8),
        Err(Unput::NoMemory) => Err(Refusal::NoMemory),
    }
}
