//! How a step is taken up, and what it has come to.

ghost use Rattle.prepared_code.specs.Originals.{AreNamesKnown};
ghost use Rattle.std.specs.Prelude.{◌≡◌, ◌+◌, ◌^◌, ◌<◌, drop, false, true, IfOk, OnOk};
ghost use Rattle.jvm_model.specs.Basis.Data.{World};
ghost use Rattle.jvm_model.specs.Turns.InHand.{behind_load};
ghost use Rattle.jvm_model.specs.Running.Run.{main_loads, starts_with};
ghost use Rattle.jvm_model.specs.Soundness.Sound.{IsFit};
ghost use Rattle.interpreter.specs.Machine.Before.{IsAtStart};
ghost use Rattle.prepared_code.specs.Initializations.{state_of};
ghost use Rattle.jvm_machine.specs.Advances.{clock_in, left_in};
ghost use Rattle.jvm_machine.specs.Advances.{taken_hand, taken_loads, taken_state};

use crate::turn::Turn;
use class_linker::Linker;
use interpreter::{Gone, Hand, begin_start};
use jf_bytes::{NoMemory, Seq, Stack};
use jvm_model::Due;
use prepared_code::{Initialization, Originals, Parts};
use std::alloc::Global;

/// What a call of `step` has come to: classes were loaded, or something is due, or nothing more of
/// the step.
#[derive(Debug, Drop)]
pub enum Telling {
    Classes(Seq<u32>),
    Due(Due),
}

/// How many steps that tell nothing were made, and what is due where the one behind them has
/// stopped, if it has.
#[derive(Clone, Copy, Debug, PartialEq, Eq)]
pub struct Advance {
    pub made: u64,
    pub due: Option<Due>,
}

/// How many steps that tell nothing were made, and the turn behind them.
#[derive(Drop)]
pub struct Onward {
    pub made: u64,
    pub turn: Turn,
}

/// The clock rises where a step after the start begins.
#[inline(always)]
pub fn clock_in(resting: bool, started: bool, clock: u64) -> u64
    requires { clock < 2 ^ 63 }
    ensures { result ≡ clock_in resting started clock }
{
    if !resting {
        return clock;
    }
    if started { clock + 1 } else { 0 }
}

/// What is in hand, or of the next step, once the start was made.
#[inline(always)]
pub fn hand_now(resting: bool, hand: Hand) -> Hand
    ensures { (w : World) → result ≡ taken_hand w resting true hand }
{
    if !resting {
        return hand;
    }
    Hand {
        moves: false,
        delivered: false,
        passed: 0,
    }
}

/// What is in hand where a step has stopped: nothing where it is done.
#[inline(always)]
pub fn hand_left(gone: Gone) -> Hand
    ensures { result ≡ left_in gone }
{
    let mut hand = gone.hand;
    if let Due::Nothing = gone.due {
        hand.passed = 0;
    }
    hand
}

/// The classes that were loaded since there were so many.
pub fn loaded_since(alloc: Global, linker: &Linker, count: usize) -> Result<Seq<u32>, NoMemory>
    ensures { IfOk result (λ classes. classes ≡ drop count linker.now.loaded) }
{
    let Some(classes) = linker.loaded().get(count..) else {
        return Ok(Seq::new(alloc));
    };
    Ok(Seq::from_slice(alloc, classes)?)
}

/// How many changes of a step it is that classes were loaded.
fn behind_load(classes: &[u32]) -> u64
    ensures { result ≡ behind_load classes.now }
{
    if classes.is_empty() { 0 } else { 1 }
}

/// What was taken up: the classes that the start has loaded, and what is in hand then.
#[derive(Debug, Drop)]
pub struct Taken {
    pub loads: Seq<u32>,
    pub hand: Hand,
}

/// Begins the start.
fn take_start(
    alloc: Global,
    originals: &mut Originals,
    parts: &mut Parts,
    initializing: &mut Stack<Initialization>,
) -> Result<Taken, NoMemory>
    requires at_start { IsAtStart parts.old.runtime.world (state_of initializing.old parts.old) }
    requires known { AreNamesKnown originals.old parts.old.runtime }
    requires fit { IsFit parts.old.runtime.world.program }
    ensures program { originals.new.program ≡ originals.old.program }
    ensures versions { originals.new.versions ≡ originals.old.versions }
    ensures world { parts.new.runtime.world ≡ parts.old.runtime.world }
    ensures known { OnOk result (AreNamesKnown originals.new parts.new.runtime) }
    ensures loads { IfOk result (λ t. t.loads ≡ main_loads parts.old.runtime.world) }
    ensures hand { let passed = behind_load (main_loads parts.old.runtime.world) in
        IfOk result (λ t. t.hand ≡ record { moves = true; delivered = false; passed = passed }) }
    ensures state { OnOk result
        (state_of initializing.new parts.new ≡ starts_with parts.old.runtime.world) }
{
    let count = parts.runtime.linker().loaded().len();
    begin_start(alloc, originals, parts, initializing)?;
    let loads = loaded_since(alloc, parts.runtime.linker(), count)?;
    let passed = behind_load(loads.as_slice());
    Ok(Taken {
        loads,
        hand: Hand {
            moves: true,
            delivered: false,
            passed,
        },
    })
}

/// Takes up what is in hand, or begins the start, or the next step.
#[inline(always)]
pub fn take_up(
    alloc: Global,
    originals: &mut Originals,
    parts: &mut Parts,
    initializing: &mut Stack<Initialization>,
    resting: bool,
    started: bool,
    hand: Hand,
) -> Result<Taken, NoMemory>
    requires at_start { started ≡ false → resting ≡ true
        → IsAtStart parts.old.runtime.world (state_of initializing.old parts.old) }
    requires known { AreNamesKnown originals.old parts.old.runtime }
    requires fit { IsFit parts.old.runtime.world.program }
    ensures program { originals.new.program ≡ originals.old.program }
    ensures versions { originals.new.versions ≡ originals.old.versions }
    ensures world { parts.new.runtime.world ≡ parts.old.runtime.world }
    ensures known { OnOk result (AreNamesKnown originals.new parts.new.runtime) }
    ensures loads { let w = parts.old.runtime.world in
        IfOk result (λ t. t.loads ≡ taken_loads w resting started) }
    ensures hand { let w = parts.old.runtime.world in
        IfOk result (λ t. t.hand ≡ taken_hand w resting started hand) }
    ensures state { let s = state_of initializing.old parts.old in OnOk result
        (state_of initializing.new
        parts.new ≡ taken_state parts.old.runtime.world resting started s) }
{
    if !resting {
        return Ok(Taken {
            loads: Seq::new(alloc),
            hand,
        });
    }
    if !started {
        return take_start(alloc, originals, parts, initializing);
    }
    Ok(Taken {
        loads: Seq::new(alloc),
        hand: Hand {
            moves: false,
            delivered: false,
            passed: 0,
        },
    })
}
