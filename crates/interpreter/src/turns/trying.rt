//! A step over versions with probes that begins with an attempt, up to the first of its changes of
//! which a probe tells.

ghost use Rattle.std.specs.Prelude.{◌≡◌, ◌&&◌, ◌==◌, false, length, true, None, is_some, not};
ghost use Rattle.std.specs.Prelude.{IfNone, IfOk, OnOk};
ghost use Rattle.std.specs.Option.{IfSome};
ghost use Rattle.jvm_model.specs.Turns.Pauses.{passed_by};
ghost use Rattle.jvm_model.specs.Running.Run.{is_going_on, is_ready, with_classes_loaded};
ghost use Rattle.jvm_model.specs.Basis.SharedState.{phase_of};
ghost use Rattle.jvm_model.specs.Turns.StepPauses.{is_nothing};
ghost use Rattle.instructions.specs.Acts.{attempts_on, goes_on_in};
ghost use Rattle.prepared_code.specs.Initializations.{initialization_on, state_of};
ghost use Rattle.prepared_code.specs.Ready.{CanRun, IsSoundIn};
ghost use Rattle.activations.specs.Turning.{loads_in, loads_none, pause_at};
ghost use Rattle.interpreter.specs.Moves.Trying.{changes_since, enters_by, leaves_in};
ghost use Rattle.interpreter.specs.Moves.Trying.{pause_behind_attempt, tried_in};
ghost use Rattle.prepared_code.specs.Originals.{AreNamesKnown, setup_in};

use crate::turns::pausing::{one_more, pause};
use crate::turns::resting::{goes_on, is_ready};
use activations::is_marked;
use frame_stack::Frames;
use instructions::{attempt, attempt_loaded};
use jf_bytes::{NoMemory, Stack};
use jvm_model::{Due, EventKind, Operation};
use prepared_code::{Initialization, Originals, Parts, where_now};
use prepared_lines::LocalAction;
use std::alloc::Global;

// ---- behind an attempt

/// The count with what was changed since there were so many frames.
#[inline(always)]
fn count(frames: &Frames, depth: u32, passed: u64) -> Result<u64, NoMemory>
    ensures { IfOk result (λ n. n ≡ passed_by passed (changes_since depth frames.now.frames)) }
{
    if frames.depth() == depth {
        return Ok(passed);
    }
    one_more(passed)
}

/// Whether a method has begun since then of which a probe tells.
#[inline(always)]
fn enters(originals: &Originals, frames: &Frames, depth: u32) -> bool
    ensures { result
        ≡ enters_by originals.now.versions (changes_since depth frames.now.frames) }
{
    if frames.depth() <= depth {
        return false;
    }
    match frames.top() {
        Some((_, method)) => is_marked(originals, originals.current(method)),
        None => false,
    }
}

/// What follows from an attempt before which there were so many frames, up to what is told next.
#[inline(always)]
fn follow(
    alloc: Global,
    originals: &Originals,
    parts: &mut Parts,
    initializing: &mut Stack<Initialization>,
    depth: u32,
    passed: &mut u64,
) -> Result<Due, NoMemory>
    ensures reaches { let s = state_of initializing.old parts.old in
        IfOk result (λ due. pause_at (state_of initializing.new parts.new) passed.new due
        ≡ pause_behind_attempt (setup_in parts.old.runtime originals.now) depth passed.old s) }
    ensures world { parts.new.runtime.world ≡ parts.old.runtime.world }
    ensures same_loaded { parts.new.runtime.shared.loaded ≡ parts.old.runtime.shared.loaded }
{
    *passed = count(&parts.frames, depth, *passed)?;
    if enters(originals, &parts.frames, depth) {
        return Ok(Due::Begins);
    }
    pause(alloc, originals, parts, initializing, passed)
}

// ---- before one, and once more

/// Whether the current frame stands at a return of which a probe tells first.
#[inline(always)]
fn leaves(originals: &Originals, frames: &Frames) -> bool
    ensures { result ≡ leaves_in originals.now.versions frames.now.frames }
{
    let Some(here) = where_now(frames) else {
        return false;
    };
    if !is_marked(originals, here.version) {
        return false;
    }
    match originals.line(here.version, here.place) {
        Some(line) => matches!(line.operation, Operation::Within(LocalAction::Return(_))),
        None => false,
    }
}

/// The same, unless it has told.
#[inline(always)]
fn tells_leave(originals: &Originals, frames: &Frames, delivered: bool) -> bool
    ensures { result ≡ (not delivered && leaves_in originals.now.versions frames.now.frames) }
{
    !delivered && leaves(originals, frames)
}

/// Whether nothing is due.
#[inline(always)]
fn is_nothing(due: Due) -> bool
    ensures { result ≡ is_nothing due }
{
    match due {
        Due::Nothing => true,
        Due::Ends(_) | Due::Begins => false,
    }
}

/// Whether the instruction is attempted once more: its class is ready, and nothing else has
/// happened.
#[inline(always)]
fn tries_again(parts: &Parts, class: u32, due: Due, same: bool) -> bool
    ensures { result ≡ (is_nothing due && same && is_ready (phase_of parts.now.runtime.shared class)
        && is_going_on parts.now.ending parts.now.thrown) }
{
    is_nothing(due)
        && same
        && is_ready(&parts.runtime, class)
        && parts.ending.is_none()
        && parts.thrown.is_none()
}

/// An attempt, of which nothing is told before, and what follows from it up to what is told next.
fn try_again(
    alloc: Global,
    originals: &mut Originals,
    parts: &mut Parts,
    initializing: &mut Stack<Initialization>,
    depth: u32,
    passed: &mut u64,
) -> Result<Due, NoMemory>
    requires known { AreNamesKnown originals.old parts.old.runtime }
    requires fit { CanRun (setup_in parts.old.runtime originals.old) }
    requires sound { IsSoundIn (setup_in parts.old.runtime originals.old)
        (state_of initializing.old parts.old) }
    requires executing { initialization_on (length parts.old.frames.frames) initializing.old
        ≡ None }
    ensures program { originals.new.program ≡ originals.old.program }
    ensures versions { originals.new.versions ≡ originals.old.versions }
    ensures world { parts.new.runtime.world ≡ parts.old.runtime.world }
    ensures known { OnOk result (AreNamesKnown originals.new parts.new.runtime) }
    ensures reaches { let w = setup_in parts.old.runtime originals.old in
        let s = state_of initializing.old parts.old in
        IfOk result (λ due. pause_at (state_of initializing.new parts.new) passed.new due
        ≡ pause_behind_attempt w depth passed.old (attempts_on w s s.stack)) }
{
    attempt(alloc, originals, parts, initializing)?;
    follow(alloc, originals, parts, initializing, depth, passed)
}

/// The same in two parts, and once more where its class is ready behind it. Where classes are still
/// to be loaded they are loaded, nothing else is done, and None is the answer.
#[inline(always)]
fn try_line(
    alloc: Global,
    originals: &mut Originals,
    parts: &mut Parts,
    initializing: &mut Stack<Initialization>,
    passed: &mut u64,
) -> Result<Option<Due>, NoMemory>
    requires known { AreNamesKnown originals.old parts.old.runtime }
    requires fit { CanRun (setup_in parts.old.runtime originals.old) }
    requires sound { IsSoundIn (setup_in parts.old.runtime originals.old)
        (state_of initializing.old parts.old) }
    requires goes { goes_on_in initializing.old parts.old ≡ true }
    ensures program { originals.new.program ≡ originals.old.program }
    ensures versions { originals.new.versions ≡ originals.old.versions }
    ensures world { parts.new.runtime.world ≡ parts.old.runtime.world }
    ensures known { OnOk result (AreNamesKnown originals.new parts.new.runtime) }
    ensures some { IfOk result (λ o. is_some o
        ≡ loads_none (setup_in parts.old.runtime originals.old)
        (state_of initializing.old parts.old)) }
    ensures reaches { let s = state_of initializing.old parts.old in IfOk result
        (λ o. IfSome o (λ due.
        pause_at (state_of initializing.new parts.new) passed.new due
        ≡ tried_in (setup_in parts.old.runtime originals.old) true passed.old s)) }
    ensures loads { let w = setup_in parts.old.runtime originals.old in
        let s = state_of initializing.old parts.old in
        IfOk result (λ o. IfNone o
        (state_of initializing.new parts.new ≡ with_classes_loaded (loads_in w s) s)) }
    ensures same { IfOk result (λ o. IfNone o (passed.new ≡ passed.old)) }
{
    let depth = parts.frames.depth();
    let before = *passed;
    let Some(awaited) = attempt_loaded(alloc, originals, parts, initializing)? else {
        return Ok(None);
    };
    let due = follow(alloc, originals, parts, initializing, depth, passed)?;
    let Some(class) = awaited else {
        return Ok(Some(due));
    };
    if !tries_again(parts, class, due, *passed == before) {
        return Ok(Some(due));
    }
    let due = try_again(alloc, originals, parts, initializing, depth, passed)?;
    Ok(Some(due))
}

// ---- where a step begins with an attempt

/// Goes on with a step from an attempt, up to what is told next, and counts the changes that are
/// behind it. `told` says that the leave probe of the current frame has told. Where classes are
/// still to be loaded they are loaded, nothing else is done, and None is the answer.
#[inline(always)]
pub fn go_by_attempt(
    alloc: Global,
    originals: &mut Originals,
    parts: &mut Parts,
    initializing: &mut Stack<Initialization>,
    delivered: bool,
    passed: &mut u64,
) -> Result<Option<Due>, NoMemory>
    requires known { AreNamesKnown originals.old parts.old.runtime }
    requires fit { CanRun (setup_in parts.old.runtime originals.old) }
    requires sound { IsSoundIn (setup_in parts.old.runtime originals.old)
        (state_of initializing.old parts.old) }
    ensures program { originals.new.program ≡ originals.old.program }
    ensures versions { originals.new.versions ≡ originals.old.versions }
    ensures world { parts.new.runtime.world ≡ parts.old.runtime.world }
    ensures known { OnOk result (AreNamesKnown originals.new parts.new.runtime) }
    ensures some { IfOk result (λ o. is_some o
        ≡ loads_none (setup_in parts.old.runtime originals.old)
        (state_of initializing.old parts.old)) }
    ensures reaches { let s = state_of initializing.old parts.old in IfOk result
        (λ o. IfSome o (λ due.
        pause_at (state_of initializing.new parts.new) passed.new due
        ≡ tried_in (setup_in parts.old.runtime originals.old) delivered passed.old s)) }
    ensures loads { let w = setup_in parts.old.runtime originals.old in
        let s = state_of initializing.old parts.old in
        IfOk result (λ o. IfNone o
        (state_of initializing.new parts.new ≡ with_classes_loaded (loads_in w s) s)) }
    ensures same { IfOk result (λ o. IfNone o (passed.new ≡ passed.old)) }
{
    if !goes_on(parts, initializing) {
        return Ok(Some(Due::Nothing));
    }
    if tells_leave(originals, &parts.frames, delivered) {
        return Ok(Some(Due::Ends(EventKind::Leave)));
    }
    try_line(alloc, originals, parts, initializing, passed)
}
