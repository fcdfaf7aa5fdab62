//! A step in hand goes on, up to what is told next.

ghost use Rattle.std.specs.Prelude.{◌≡◌, ◌||◌, true, false, ℕ, List, is_some, IfNone, IfOk, OnOk};
ghost use Rattle.std.specs.Option.{IfSome};
ghost use Rattle.jvm_model.specs.Basis.Data.{Turn};
ghost use Rattle.jvm_model.specs.Turns.Pauses.{is_end, later_of};
ghost use Rattle.jvm_model.specs.Running.Run.{starts_with, with_classes_loaded};
ghost use Rattle.jvm_model.specs.Turns.Told.{Held};
ghost use Rattle.interpreter.specs.Moves.Hands.{HasGoneOn, HasInHand, IsLeft, goes_in, todo_of};
ghost use Rattle.prepared_code.specs.Initializations.{state_of};
ghost use Rattle.prepared_code.specs.Ready.{CanRun, IsSoundIn};
ghost use Rattle.prepared_code.specs.Standing.{HasVersions};
ghost use Rattle.activations.specs.Turning.{loads_in, loads_none, pause_at};
ghost use Rattle.prepared_code.specs.Originals.{AreNamesKnown, setup_in};

use crate::turns::pausing::go_by_moves;
use crate::turns::trying::go_by_attempt;
use jf_bytes::{NoMemory, Stack};
use jvm_model::{Due, EventKind};
use prepared_code::{Initialization, Originals, Parts};
use std::alloc::Global;

/// What is in hand of a step: whether moves alone are left of it, or an attempt before them;
/// whether the probe of the end that comes next has told; and how many of the step's changes are
/// behind it.
#[derive(Clone, Copy, Debug, PartialEq, Eq)]
pub struct Hand {
    pub moves: bool,
    pub delivered: bool,
    pub passed: u64,
}

/// Where a step has stopped: what is in hand of it then, and what is due there.
#[derive(Clone, Copy, Debug, PartialEq, Eq)]
pub struct Gone {
    pub hand: Hand,
    pub due: Due,
}

/// How many steps that tell nothing were made, and where the one behind them has stopped, if a
/// probe tells of it.
#[derive(Clone, Copy, Debug, PartialEq, Eq)]
pub struct Passed {
    pub made: u64,
    pub gone: Option<Gone>,
}

/// Whether an end is due.
#[inline(always)]
fn is_end(due: Due) -> bool
    ensures { result ≡ is_end due }
{
    match due {
        Due::Ends(_) => true,
        Due::Nothing | Due::Begins => false,
    }
}

/// Whether moves alone are left there: a return whose probe has told is still to be attempted.
#[inline(always)]
fn is_by_moves(due: Due) -> bool
    ensures { todo_of result ≡ later_of due }
{
    match due {
        Due::Ends(EventKind::Leave) => false,
        Due::Ends(EventKind::Unwind | EventKind::Root | EventKind::Enter) => true,
        Due::Nothing | Due::Begins => true,
    }
}

/// Where a step has stopped, so many changes behind its begin.
#[inline(always)]
pub fn gone_to(due: Due, passed: u64) -> Gone
    ensures due { result.due ≡ due }
    ensures passed { result.hand.passed ≡ passed }
    ensures left { IsLeft result }
{
    let moves = is_by_moves(due);
    let delivered = is_end(due);
    Gone {
        hand: Hand {
            moves,
            delivered,
            passed,
        },
        due,
    }
}

/// Goes on with a step up to what is told next. Where classes are still to be loaded they are
/// loaded, nothing else is done, and None is the answer.
#[inline(always)]
pub fn go(
    alloc: Global,
    originals: &mut Originals,
    parts: &mut Parts,
    initializing: &mut Stack<Initialization>,
    hand: Hand,
) -> Result<Option<Gone>, NoMemory>
    requires known { AreNamesKnown originals.old parts.old.runtime }
    requires fit { CanRun (setup_in parts.old.runtime originals.old) }
    requires sound { hand.moves ≡ false
        → IsSoundIn (setup_in parts.old.runtime originals.old)
        (state_of initializing.old parts.old) }
    ensures program { originals.new.program ≡ originals.old.program }
    ensures versions { originals.new.versions ≡ originals.old.versions }
    ensures world { parts.new.runtime.world ≡ parts.old.runtime.world }
    ensures known { OnOk result (AreNamesKnown originals.new parts.new.runtime) }
    ensures sound { let w = setup_in parts.old.runtime originals.old in
        OnOk result (IsSoundIn w (state_of initializing.old parts.old)
        → IsSoundIn w (state_of initializing.new parts.new)) }
    // The moves of the start leave a sound state too.
    ensures starts { let w = setup_in parts.old.runtime originals.old in
        OnOk result (hand.moves ≡ true
        → hand.delivered ≡ false → state_of initializing.old parts.old ≡ starts_with w.world
        → IsSoundIn w (state_of initializing.new parts.new)) }
    ensures some { let s = state_of initializing.old parts.old in IfOk result (λ o. is_some o
        ≡ (hand.moves || loads_none (setup_in parts.old.runtime originals.old) s)) }
    ensures reaches { let s = state_of initializing.old parts.old in IfOk result
        (λ o. IfSome o (λ gone.
        pause_at (state_of initializing.new parts.new) gone.hand.passed gone.due
        ≡ goes_in (setup_in parts.old.runtime originals.old) hand s)) }
    ensures left { IfOk result (λ o. IfSome o (λ gone. IsLeft gone)) }
    ensures loads { let w = setup_in parts.old.runtime originals.old in
        let s = state_of initializing.old parts.old in
        IfOk result (λ o. IfNone o
        (state_of initializing.new parts.new ≡ with_classes_loaded (loads_in w s) s)) }
    // The rest of the same step is in hand then, at the next of its changes that is told.
    ensures hands { let w = setup_in parts.old.runtime originals.old in
        let s = state_of initializing.old parts.old in
        IfOk result (λ o. IfSome o (λ gone. (homes : ℕ → ℕ → ℕ) (turn : Turn) (live : List Held)
        → HasVersions w homes → HasInHand w homes turn hand live s
        → HasGoneOn w homes turn hand live gone (state_of initializing.new parts.new))) }
{
    let mut passed = hand.passed;
    if hand.moves {
        let due = go_by_moves(
            alloc,
            originals,
            parts,
            initializing,
            hand.delivered,
            &mut passed,
        )?;
        return Ok(Some(gone_to(due, passed)));
    }
    let gone = go_by_attempt(
        alloc,
        originals,
        parts,
        initializing,
        hand.delivered,
        &mut passed,
    )?;
    let Some(due) = gone else {
        return Ok(None);
    };
    Ok(Some(gone_to(due, passed)))
}
