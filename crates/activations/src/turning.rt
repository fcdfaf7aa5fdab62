//! The moves behind an instruction over versions with probes, one at a time, up to the first of
//! which a probe tells.

ghost use Rattle.std.specs.Prelude.{◌≡◌, [], ◌∷◌, not, None, Some, IfOk, OnOk};
ghost use Rattle.jvm_model.specs.Rewriting.Images.{is_off};
ghost use Rattle.jvm_model.specs.Basis.Data.{Unwound};
ghost use Rattle.prepared_code.specs.Initializations.{state_of};
ghost use Rattle.prepared_code.specs.States.{here_of, state_in};
ghost use Rattle.activations.specs.Turning.{begun_as, moved_as, moved_by, moved_to};
ghost use Rattle.activations.specs.Turning.{unwind_due, unwound_by};
ghost use Rattle.prepared_code.specs.Versions.{mark_of};
ghost use Rattle.prepared_code.specs.Originals.{setup_in};

use crate::handlers::handler_for;
use crate::objects::class_of;
use crate::settling::{begin_main, go_to_handler, move_initialization};
use frame_stack::Frames;
use jf_bytes::{NoMemory, Stack};
use jvm_model::{Ending, Mark};
use prepared_code::{Here, Initialization, Originals, Parts, take_initialization, where_now};
use std::alloc::Global;

/// What one move has done.
#[derive(Clone, Copy, Debug, PartialEq, Eq)]
pub enum Moved {
    /// None applies.
    Nothing,
    /// No activation has ended or begun.
    On,
    /// The current frame was taken off, of which no probe tells.
    Unwound,
    /// The current frame is to be taken off: its unwind probe tells of it first, and nothing else
    /// is done.
    Unwinds,
    /// A method began, of which no probe tells.
    Began,
    /// A method began, and has passed its entry probe.
    Enters,
}

// ---- marks

/// Whether a version has probes.
#[inline(always)]
pub fn is_marked(originals: &Originals, version: usize) -> bool
    ensures { result ≡ not (is_off (mark_of originals.now.versions version)) }
{
    match originals.mark(version) {
        Mark::Plain | Mark::Root => true,
        Mark::Off => false,
    }
}

/// What a move has done by which a method begins, or none does.
fn method_begun(originals: &Originals, method: Option<u32>) -> Moved
    ensures { result ≡ begun_as originals.now.versions method }
{
    let Some(method) = method else {
        return Moved::On;
    };
    if is_marked(originals, originals.current(method)) {
        Moved::Enters
    } else {
        Moved::Began
    }
}

// ---- moves of frames

/// The current frame is taken off, unless a probe tells of that first.
fn unwind(originals: &Originals, frames: &mut Frames, here: Here) -> Moved
    requires { here_of frames.old.frames ≡ Some here }
    ensures answer { let fs = frames.old.frames in
        result ≡ moved_by (Unwound ∷ []) (unwind_due originals.now.versions fs) }
    ensures frames { frames.new.frames
        ≡ unwound_by (unwind_due originals.now.versions frames.old.frames) frames.old.frames }
{
    if is_marked(originals, here.version) {
        return Moved::Unwinds;
    }
    frames.leave();
    Moved::Unwound
}

/// A throw meets the current frame.
fn meet_frame(
    alloc: Global,
    originals: &Originals,
    parts: &mut Parts,
    object: u32,
    here: Here,
) -> Result<Moved, NoMemory>
    requires ending { parts.old.ending ≡ None }
    requires thrown { parts.old.thrown ≡ Some object }
    requires here { here_of parts.old.frames.frames ≡ Some here }
    ensures answer { IfOk result
        (λ m. m ≡ moved_as (setup_in parts.old.runtime originals.now) (state_in parts.old)) }
    ensures state { OnOk result (state_in parts.new
        ≡ moved_to (setup_in parts.old.runtime originals.now) (state_in parts.old)) }
    ensures world { parts.new.runtime.world ≡ parts.old.runtime.world }
    ensures same_loaded { parts.new.runtime.shared.loaded ≡ parts.old.runtime.shared.loaded }
{
    let class = class_of(&parts.runtime, object);
    match handler_for(originals, &parts.runtime, here.version, class, here.place) {
        Some(target) => {
            go_to_handler(alloc, originals, parts, object, here, target)?;
            Ok(Moved::On)
        }
        None => Ok(unwind(originals, &mut parts.frames, here)),
    }
}

/// A throw meets the current frame, or ends the run where there is none.
fn meet_throw(
    alloc: Global,
    originals: &Originals,
    parts: &mut Parts,
    object: u32,
) -> Result<Moved, NoMemory>
    requires ending { parts.old.ending ≡ None }
    requires thrown { parts.old.thrown ≡ Some object }
    ensures answer { IfOk result
        (λ m. m ≡ moved_as (setup_in parts.old.runtime originals.now) (state_in parts.old)) }
    ensures state { OnOk result (state_in parts.new
        ≡ moved_to (setup_in parts.old.runtime originals.now) (state_in parts.old)) }
    ensures world { parts.new.runtime.world ≡ parts.old.runtime.world }
    ensures same_loaded { parts.new.runtime.shared.loaded ≡ parts.old.runtime.shared.loaded }
{
    let Some(here) = where_now(&parts.frames) else {
        let class = class_of(&parts.runtime, object);
        parts.ending = Some(Ending::Uncaught(class));
        return Ok(Moved::On);
    };
    meet_frame(alloc, originals, parts, object, here)
}

/// With nothing thrown and no frame left `main` begins, or the run has returned.
fn begin_or_end(originals: &Originals, parts: &mut Parts) -> Result<Moved, NoMemory>
    requires ending { parts.old.ending ≡ None }
    requires thrown { parts.old.thrown ≡ None }
    requires none { parts.old.frames.frames ≡ [] }
    ensures answer { IfOk result
        (λ m. m ≡ moved_as (setup_in parts.old.runtime originals.now) (state_in parts.old)) }
    ensures state { OnOk result (state_in parts.new
        ≡ moved_to (setup_in parts.old.runtime originals.now) (state_in parts.old)) }
    ensures world { parts.new.runtime.world ≡ parts.old.runtime.world }
    ensures same_loaded { parts.new.runtime.shared.loaded ≡ parts.old.runtime.shared.loaded }
{
    if parts.begun {
        parts.ending = Some(Ending::Returned);
        return Ok(Moved::On);
    }
    let method = begin_main(originals, parts)?;
    Ok(method_begun(originals, method))
}

/// A move of the frames, where no initialization stands on the current one.
fn move_frame(alloc: Global, originals: &Originals, parts: &mut Parts) -> Result<Moved, NoMemory>
    ensures answer { IfOk result
        (λ m. m ≡ moved_as (setup_in parts.old.runtime originals.now) (state_in parts.old)) }
    ensures state { OnOk result (state_in parts.new
        ≡ moved_to (setup_in parts.old.runtime originals.now) (state_in parts.old)) }
    ensures world { parts.new.runtime.world ≡ parts.old.runtime.world }
    ensures same_loaded { parts.new.runtime.shared.loaded ≡ parts.old.runtime.shared.loaded }
{
    if parts.ending.is_some() {
        return Ok(Moved::Nothing);
    }
    if let Some(object) = parts.thrown {
        return meet_throw(alloc, originals, parts, object);
    }
    if where_now(&parts.frames).is_some() {
        return Ok(Moved::Nothing);
    }
    begin_or_end(originals, parts)
}

// ---- every move

/// Makes one move, but for one that takes a frame off of which a probe tells.
pub fn make_move(
    alloc: Global,
    originals: &Originals,
    parts: &mut Parts,
    initializing: &mut Stack<Initialization>,
) -> Result<Moved, NoMemory>
    ensures answer { let s = state_of initializing.old parts.old in
        IfOk result (λ m. m ≡ moved_as (setup_in parts.old.runtime originals.now) s) }
    ensures state { let s = state_of initializing.old parts.old in
        OnOk result
        (state_of initializing.new parts.new
        ≡ moved_to (setup_in parts.old.runtime originals.now) s) }
    ensures world { parts.new.runtime.world ≡ parts.old.runtime.world }
    ensures same_loaded { parts.new.runtime.shared.loaded ≡ parts.old.runtime.shared.loaded }
{
    if parts.ending.is_some() {
        return Ok(Moved::Nothing);
    }
    let Some(initialization) = take_initialization(parts, initializing) else {
        return move_frame(alloc, originals, parts);
    };
    let method = move_initialization(alloc, originals, parts, initializing, initialization)?;
    Ok(method_begun(originals, method))
}
