//! What a move behind an instruction does (JVM Specification 2.10, 5.5): a frame goes on at a
//! handler, an initialization goes on, `main` begins.

ghost use Rattle.std.specs.Prelude.{◌≡◌, [], false, map, Some, IfOk, OnOk};
ghost use Rattle.jvm_model.specs.Running.Applies.{has_room};
ghost use Rattle.jvm_model.specs.Running.Moves.{argument_array, main_or_end};
ghost use Rattle.activations.specs.Initializing.{after_initialization, initialization_begins};
ghost use Rattle.prepared_code.specs.Initializations.{state_of};
ghost use Rattle.prepared_code.specs.States.{active, here_of, state_in};
ghost use Rattle.activations.specs.Settling.{frame_emptied, fits_alone, with_alone};
ghost use Rattle.activations.specs.Settling.{caught_at, main_entries};
ghost use Rattle.activations.specs.Turning.{begun_in};
ghost use Rattle.prepared_code.specs.Versions.{listing_of};
ghost use Rattle.prepared_code.specs.Originals.{setup_in};

use crate::entering::enter;
use crate::initializing::{fail, go_on};
use crate::raising::break_at;
use frame_stack::Frames;
use heap_objects::Value;
use jf_bytes::{NoMemory, Stack};
use jvm_model::Ending;
use prepared_code::{Here, Initialization, Originals, Parts};
use std::alloc::Global;
use symbolic_references::Runtime;

/// The argument array's object.
const ARGUMENTS: u32 = 5;

// ---- a throw meets a frame

/// Takes the operands off.
fn empty(frames: &mut Frames)
    ensures { frames.new.frames ≡ frame_emptied frames.old.frames }
{
    while frames.pop().is_some() {}
}

/// Puts an object in the place of the operands. False, with nothing changed, where they have no
/// room for it.
pub fn put_alone(frames: &mut Frames, object: u32) -> bool
    ensures answer { result ≡ fits_alone frames.old.frames }
    ensures frames { frames.new.frames ≡ with_alone object frames.old.frames }
{
    frames.peek(0);
    empty(frames);
    frames.push(Value::Ref(object))
}

/// The current frame goes on at a handler, with the object that was thrown alone on its operands.
pub fn go_to_handler(
    alloc: Global,
    originals: &Originals,
    parts: &mut Parts,
    object: u32,
    here: Here,
    target: u16,
) -> Result<(), NoMemory>
    requires { here_of parts.old.frames.frames ≡ Some here }
    ensures state { OnOk result (state_in parts.new ≡
        caught_at (setup_in parts.old.runtime originals.now) object target
        parts.old.frames.frames parts.old) }
    ensures world { parts.new.runtime.world ≡ parts.old.runtime.world }
    ensures same_loaded { parts.new.runtime.shared.loaded ≡ parts.old.runtime.shared.loaded }
{
    parts.thrown = None;
    if !put_alone(&mut parts.frames, object) {
        return break_at(alloc, originals, parts, here);
    }
    parts.frames.go(target);
    Ok(())
}

// ---- nothing is left

/// The frame of `main`, which has its argument array, if it has a local for it.
fn begin_frame(
    originals: &Originals,
    runtime: &Runtime,
    frames: &mut Frames,
    main: u32,
) -> Result<bool, NoMemory>
    requires none { frames.old.frames ≡ [] }
    requires main { main ≡ runtime.now.world.program.main }
    ensures answer { IfOk result (λ b. b ≡ has_room runtime.now.world main argument_array) }
    ensures frames { IfOk result (λ b.
        map active frames.new.frames ≡ main_entries b (setup_in runtime.now originals.now)) }
{
    let max_locals = runtime.max_locals(main);
    let max_stack = runtime.max_stack(main);
    if max_locals == 0 {
        return Ok(false);
    }
    frames.reserve(max_locals, max_stack)?;
    enter(originals, frames, main, max_locals, max_stack, 0);
    frames.set_local(0, Value::Ref(ARGUMENTS));
    Ok(true)
}

/// `main` begins, or the run ends where it has no local for its argument. The answer is the method
/// that has begun.
pub fn begin_main(originals: &Originals, parts: &mut Parts) -> Result<Option<u32>, NoMemory>
    requires { parts.old.frames.frames ≡ [] }
    ensures begun { let w = setup_in parts.old.runtime originals.now in
        IfOk result (λ o. o ≡ begun_in
        (main_or_end w.world (listing_of w.versions) (state_in parts.old) false).changes) }
    ensures state { let w = setup_in parts.old.runtime originals.now in
        OnOk result (state_in parts.new ≡
        (main_or_end w.world (listing_of w.versions) (state_in parts.old) false).after) }
    ensures world { parts.new.runtime.world ≡ parts.old.runtime.world }
    ensures same_loaded { parts.new.runtime.shared.loaded ≡ parts.old.runtime.shared.loaded }
{
    let main = parts.runtime.program().main;
    if begin_frame(originals, &parts.runtime, &mut parts.frames, main)? {
        parts.begun = true;
        return Ok(Some(main));
    }
    parts.ending = Some(Ending::Unverifiable(main, 0));
    Ok(None)
}

// ---- every move

/// A throw meets the initialization of a class, or it goes on, after its initialization was taken
/// off. The answer is the method that has begun.
pub fn move_initialization(
    alloc: Global,
    originals: &Originals,
    parts: &mut Parts,
    initializing: &mut Stack<Initialization>,
    initialization: Initialization,
) -> Result<Option<u32>, NoMemory>
    ensures begun { IfOk result
        (λ o. o ≡ initialization_begins (setup_in parts.old.runtime originals.now)
        (state_of initializing.old parts.old) parts.old.thrown initialization.class
        initialization.part) }
    ensures state { OnOk result (state_of initializing.new parts.new
        ≡ after_initialization (setup_in parts.old.runtime originals.now)
        (state_of initializing.old parts.old) parts.old.thrown
        initialization.class initialization.part) }
    ensures world { parts.new.runtime.world ≡ parts.old.runtime.world }
    ensures same_loaded { parts.new.runtime.shared.loaded ≡ parts.old.runtime.shared.loaded }
{
    match parts.thrown {
        Some(object) => {
            fail(parts, initialization.class, object)?;
            Ok(None)
        }
        None => go_on(
            originals,
            parts,
            initializing,
            initialization.class,
            initialization.part,
        ),
    }
}
