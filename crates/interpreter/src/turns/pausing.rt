//! All moves behind an instruction over versions with probes, up to the first of which a probe
//! tells.

ghost use Rattle.std.specs.Prelude.{◌≡◌, suc, OnOk, IfOk};
ghost use Rattle.jvm_model.specs.Turns.InHand.{frame_popped};
ghost use Rattle.prepared_code.specs.Initializations.{state_of};
ghost use Rattle.activations.specs.Turning.{goes_by_moves, pause_at, paused_in};
ghost use Rattle.activations.specs.Turning.{frame_resumed, resumed_count};
ghost use Rattle.prepared_code.specs.Originals.{setup_in};

use crate::turns::resting::is_at_rest;
use activations::{Moved, make_move};
use jf_bytes::{NoMemory, Stack};
use jvm_model::{Due, EventKind};
use prepared_code::{Initialization, Originals, Parts, take_initialization};
use std::alloc::Global;

/// One change more. (More changes than fit do not come.)
pub fn one_more(passed: u64) -> Result<u64, NoMemory>
    ensures { IfOk result (λ n. n ≡ suc passed) }
{
    match passed.checked_add(1) {
        Some(passed) => Ok(passed),
        None => Err(NoMemory),
    }
}

/// Makes moves up to where none applies, or to the first of which a probe tells: what is due then.
/// It counts the changes of the step that are behind it.
fn pause_on(
    alloc: Global,
    originals: &Originals,
    parts: &mut Parts,
    initializing: &mut Stack<Initialization>,
    passed: &mut u64,
) -> Result<Due, NoMemory>
    ensures state { let s = state_of initializing.old parts.old in
        IfOk result (λ due. pause_at (state_of initializing.new parts.new) passed.new due
        ≡ paused_in (setup_in parts.old.runtime originals.now) passed.old s) }
    ensures world { parts.new.runtime.world ≡ parts.old.runtime.world }
    ensures same_loaded { parts.new.runtime.shared.loaded ≡ parts.old.runtime.shared.loaded }
{
    loop {
        match make_move(alloc, originals, parts, initializing)? {
            Moved::Nothing => return Ok(Due::Nothing),
            Moved::On => {}
            Moved::Unwound => *passed = one_more(*passed)?,
            Moved::Unwinds => return Ok(Due::Ends(EventKind::Unwind)),
            Moved::Began => {
                *passed = one_more(*passed)?;
                return Ok(Due::Nothing);
            }
            Moved::Enters => {
                *passed = one_more(*passed)?;
                return Ok(Due::Begins);
            }
        }
    }
}

/// The same; where nothing follows, as mostly, it is one test.
#[inline(always)]
pub fn pause(
    alloc: Global,
    originals: &Originals,
    parts: &mut Parts,
    initializing: &mut Stack<Initialization>,
    passed: &mut u64,
) -> Result<Due, NoMemory>
    ensures state { let s = state_of initializing.old parts.old in
        IfOk result (λ due. pause_at (state_of initializing.new parts.new) passed.new due
        ≡ paused_in (setup_in parts.old.runtime originals.now) passed.old s) }
    ensures world { parts.new.runtime.world ≡ parts.old.runtime.world }
    ensures same_loaded { parts.new.runtime.shared.loaded ≡ parts.old.runtime.shared.loaded }
{
    if is_at_rest(parts, initializing) {
        return Ok(Due::Nothing);
    }
    pause_on(alloc, originals, parts, initializing, passed)
}

// ---- where moves alone are left of a step

/// Takes off what stands on top, which behind an unwind probe is the current frame.
fn take_off(parts: &mut Parts, initializing: &mut Stack<Initialization>)
    ensures state { state_of initializing.new parts.new
        ≡ frame_popped (state_of initializing.old parts.old) }
    ensures world { parts.new.runtime.world ≡ parts.old.runtime.world }
    ensures same_loaded { parts.new.runtime.shared.loaded ≡ parts.old.runtime.shared.loaded }
{
    match take_initialization(parts, initializing) {
        Some(_) => {}
        None => {
            parts.frames.leave();
        }
    }
}

/// Behind an unwind probe that has told, the current frame is taken off, which is one change more.
fn resume(
    parts: &mut Parts,
    initializing: &mut Stack<Initialization>,
    delivered: bool,
    passed: &mut u64,
) -> Result<(), NoMemory>
    ensures state { OnOk result
        (state_of initializing.new parts.new
        ≡ frame_resumed delivered (state_of initializing.old parts.old)) }
    ensures passed { OnOk result (passed.new ≡ resumed_count delivered passed.old) }
    ensures world { parts.new.runtime.world ≡ parts.old.runtime.world }
    ensures same_loaded { parts.new.runtime.shared.loaded ≡ parts.old.runtime.shared.loaded }
{
    if !delivered {
        return Ok(());
    }
    take_off(parts, initializing);
    *passed = one_more(*passed)?;
    Ok(())
}

/// Goes on with the moves that are left of a step; where the unwind probe of the current frame has
/// told, it is taken off first.
pub fn go_by_moves(
    alloc: Global,
    originals: &Originals,
    parts: &mut Parts,
    initializing: &mut Stack<Initialization>,
    delivered: bool,
    passed: &mut u64,
) -> Result<Due, NoMemory>
    ensures state { let s = state_of initializing.old parts.old in
        IfOk result (λ due. pause_at (state_of initializing.new parts.new) passed.new due
        ≡ goes_by_moves (setup_in parts.old.runtime originals.now) delivered passed.old s) }
    ensures world { parts.new.runtime.world ≡ parts.old.runtime.world }
    ensures same_loaded { parts.new.runtime.shared.loaded ≡ parts.old.runtime.shared.loaded }
{
    resume(parts, initializing, delivered, passed)?;
    pause(alloc, originals, parts, initializing, passed)
}
