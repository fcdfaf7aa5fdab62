//! An attempt of the current frame's line.

ghost use Rattle.std.specs.Prelude.{◌≡◌, ◌-◌, None, Some, true, false, is_some, length};
ghost use Rattle.std.specs.Prelude.{IfNone, IfOk, OnOk};
ghost use Rattle.std.specs.Option.{IfSome};
ghost use Rattle.jvm_model.specs.Basis.Families.{family_of};
ghost use Rattle.jvm_model.specs.Running.Run.{with_classes_loaded};
ghost use Rattle.jvm_model.specs.Soundness.Sound.{IsPrimitiveArray};
ghost use Rattle.member_selection.specs.Outcomes.{Asks, HaveOperands};
ghost use Rattle.symbolic_references.specs.Leaving.{Sets};
ghost use Rattle.activations.specs.Applied.{IsTop, run_ended};
ghost use Rattle.instructions.specs.Acts.{Becomes};
ghost use Rattle.instructions.specs.Acts.{IfNewarray, acts, acts_alone, attempts_on, sees_objects};
ghost use Rattle.instructions.specs.Acts.{BecomesBeneath, awaited_in, is_named, named_in};
ghost use Rattle.prepared_code.specs.Ready.{CanRun, IsSoundIn};
ghost use Rattle.prepared_code.specs.Initializations.{initialization_on, state_of};
ghost use Rattle.prepared_code.specs.States.{here_of};
ghost use Rattle.activations.specs.Turning.{loads_in, loads_none};
ghost use Rattle.prepared_code.specs.Versions.{line_at};
ghost use Rattle.prepared_code.specs.Originals.{AreNamesKnown, IsReady, setup_in};

use crate::arrays::measure;
use crate::elements::{load_element, store_element};
use crate::monitors::watch;
use crate::throwing::throw_object;
use activations::{break_off, conclude, end_initializer, initialize, raise_with, return_by};
use frame_stack::Frames;
use jf_bytes::{NoMemory, Stack};
use jvm_basic::{Effect, basic_by};
use jvm_model::{Exception, Operation};
use member_selection::{AbruptCompletion, Outcome};
use prepared_code::{Here, Initialization, Originals, Parts, initialization_on, where_now};
use prepared_lines::{Line, LocalAction};
use std::alloc::Global;
use symbolic_references::Runtime;

/// The message of a division by zero.
const BY_ZERO: &[u16] = &[47, 32, 98, 121, 32, 122, 101, 114, 111];

/// Ends the run here.
fn break_here(parts: &mut Parts, method: u32, own: u16) -> Result<(), NoMemory>
    ensures state { OnOk result (parts.new ≡ run_ended method own parts.old) }
    ensures world { parts.new.runtime.world ≡ parts.old.runtime.world }
    ensures same_loaded { parts.new.runtime.shared.loaded ≡ parts.old.runtime.shared.loaded }
{
    break_off(parts, method, own);
    Ok(())
}

/// What its frame does by itself.
fn act_alone(
    originals: &Originals,
    parts: &mut Parts,
    method: u32,
    line: &Line,
) -> Result<(), NoMemory>
    requires top { IsTop method parts.old.frames.frames }
    requires family { line.now.family ≡ family_of line.now.instr.op }
    ensures state { Becomes result parts.new
        (acts_alone (setup_in parts.old.runtime originals.now) line.now) parts.old }
    ensures world { parts.new.runtime.world ≡ parts.old.runtime.world }
    ensures same_loaded { parts.new.runtime.shared.loaded ≡ parts.old.runtime.shared.loaded }
{
    let effect = basic_by(
        line.family,
        &line.instr,
        line.constant,
        line.next,
        &mut parts.frames,
    );
    match effect {
        Effect::Next => Ok(()),
        Effect::Throws(_) => raise_with(parts, Exception::Arithmetic, BY_ZERO),
        Effect::Bad => break_here(parts, method, line.instr.at),
        // Does not come for such a line.
        Effect::Other => break_here(parts, method, line.instr.at),
    }
}

/// What a line asks for that sees objects; of the others nothing is asked.
fn ask(
    alloc: Global,
    runtime: &mut Runtime,
    frames: &Frames,
    line: &Line,
) -> Result<Outcome, NoMemory>
    requires arrays { IfNewarray line.now.operation IsPrimitiveArray }
    ensures answer { let w = runtime.old.world in let s = runtime.old.shared in
        Asks result (sees_objects w line.now.operation s) frames.now }
    ensures runtime { let w = runtime.old.world in let s = runtime.old.shared in
        Sets result runtime.new (sees_objects w line.now.operation s) frames.now runtime.old }
    ensures enough { HaveOperands result frames.now }
    ensures world { runtime.new.world ≡ runtime.old.world }
    ensures same_loaded { runtime.new.shared.loaded ≡ runtime.old.shared.loaded }
{
    match &line.operation {
        Operation::Athrow => Ok(throw_object(runtime, frames)),
        Operation::Monitor => Ok(watch(frames)),
        Operation::Arraylength => measure(runtime, frames),
        Operation::Newarray(kind) => runtime.make_primitives(frames, *kind),
        Operation::LoadElement(kind) => load_element(alloc, runtime, frames, *kind),
        Operation::StoreElement(kind) => store_element(alloc, runtime, frames, *kind),
        Operation::LdcString(units) => runtime.push_string(frames, units),
        // These do not come here.
        Operation::Within(_) | Operation::Named(_) => {
            Ok(Outcome::Abrupt(AbruptCompletion::Breaks))
        }
    }
}

/// Does the line of the current frame.
fn act(
    alloc: Global,
    originals: &Originals,
    parts: &mut Parts,
    method: u32,
    line: &Line,
) -> Result<(), NoMemory>
    requires top { IsTop method parts.old.frames.frames }
    requires family { line.now.family ≡ family_of line.now.instr.op }
    requires alone { is_named line.now.operation ≡ false }
    requires arrays { IfNewarray line.now.operation IsPrimitiveArray }
    ensures state { Becomes result parts.new
        (acts (setup_in parts.old.runtime originals.now) line.now) parts.old }
    ensures world { parts.new.runtime.world ≡ parts.old.runtime.world }
    ensures same_loaded { parts.new.runtime.shared.loaded ≡ parts.old.runtime.shared.loaded }
{
    match line.operation {
        Operation::Within(action) => match action {
            LocalAction::Basic => act_alone(originals, parts, method, line),
            LocalAction::Return(kind) => return_by(alloc, originals, parts, method, line, kind),
        },
        _ => {
            let outcome = ask(alloc, &mut parts.runtime, &parts.frames, line)?;
            conclude(originals, parts, method, line, outcome)?;
            Ok(())
        }
    }
}

// ---- beneath the initializations

/// Does a line of the frame of a static initializer: at its return no caller goes on.
fn act_initializer(
    alloc: Global,
    originals: &Originals,
    parts: &mut Parts,
    initializing: &Stack<Initialization>,
    method: u32,
    line: &Line,
) -> Result<(), NoMemory>
    requires top { IsTop method parts.old.frames.frames }
    requires family { line.now.family ≡ family_of line.now.instr.op }
    requires alone { is_named line.now.operation ≡ false }
    requires arrays { IfNewarray line.now.operation IsPrimitiveArray }
    requires executing { initialization_on (length parts.old.frames.frames) initializing.now
        ≡ None }
    requires beneath { is_some
        (initialization_on (length parts.old.frames.frames - 1) initializing.now) ≡ true }
    ensures state { BecomesBeneath result initializing.now parts.new
        (acts (setup_in parts.old.runtime originals.now) line.now) parts.old }
    ensures world { parts.new.runtime.world ≡ parts.old.runtime.world }
    ensures same_loaded { parts.new.runtime.shared.loaded ≡ parts.old.runtime.shared.loaded }
{
    match line.operation {
        Operation::Within(action) => match action {
            LocalAction::Return(kind) => {
                end_initializer(parts, method, line, kind);
                Ok(())
            }
            LocalAction::Basic => act(alloc, originals, parts, method, line),
        },
        _ => act(alloc, originals, parts, method, line),
    }
}

/// Does a line of the current frame, beneath the initializations.
#[inline(always)]
fn act_beneath(
    alloc: Global,
    originals: &Originals,
    parts: &mut Parts,
    initializing: &Stack<Initialization>,
    method: u32,
    line: &Line,
) -> Result<(), NoMemory>
    requires top { IsTop method parts.old.frames.frames }
    requires family { line.now.family ≡ family_of line.now.instr.op }
    requires alone { is_named line.now.operation ≡ false }
    requires arrays { IfNewarray line.now.operation IsPrimitiveArray }
    requires executing { initialization_on (length parts.old.frames.frames) initializing.now
        ≡ None }
    ensures state { BecomesBeneath result initializing.now parts.new
        (acts (setup_in parts.old.runtime originals.now) line.now) parts.old }
    ensures world { parts.new.runtime.world ≡ parts.old.runtime.world }
    ensures same_loaded { parts.new.runtime.shared.loaded ≡ parts.old.runtime.shared.loaded }
{
    if initialization_on(initializing, parts.frames.depth() - 1).is_some() {
        act_initializer(alloc, originals, parts, initializing, method, line)
    } else {
        act(alloc, originals, parts, method, line)
    }
}

/// Does the line at which the current frame stands, which names nothing; where there is none the
/// run ends.
#[inline(always)]
fn attempt_line(
    alloc: Global,
    originals: &Originals,
    parts: &mut Parts,
    initializing: &Stack<Initialization>,
    here: Here,
) -> Result<(), NoMemory>
    requires ready { IsReady originals.now here.version }
    requires fit { CanRun (setup_in parts.old.runtime originals.now) }
    requires sound { IsSoundIn (setup_in parts.old.runtime originals.now)
        (state_of initializing.now parts.old) }
    requires here { here_of parts.old.frames.frames ≡ Some here }
    requires alone { named_in (line_at originals.now.versions here.version here.place)
        ≡ false }
    requires executing { initialization_on (length parts.old.frames.frames) initializing.now
        ≡ None }
    ensures state { let w = setup_in parts.old.runtime originals.now in
        let s = state_of initializing.now parts.old in
        OnOk result (state_of initializing.now parts.new ≡ attempts_on w s s.stack) }
    ensures world { parts.new.runtime.world ≡ parts.old.runtime.world }
    ensures same_loaded { parts.new.runtime.shared.loaded ≡ parts.old.runtime.shared.loaded }
{
    let Some(line) = originals.line(here.version, here.place) else {
        break_off(parts, here.method, 0);
        return Ok(());
    };
    act_beneath(alloc, originals, parts, initializing, here.method, line)
}

// ---- instructions that name something

/// Whether a line names something.
#[inline(always)]
fn is_named(line: &Line) -> bool
    ensures { result ≡ is_named line.now.operation }
{
    match line.operation {
        Operation::Named(_) => true,
        _ => false,
    }
}

/// Whether the line at which a frame stands does.
#[inline(always)]
fn named_at(originals: &Originals, here: Here) -> bool
    requires { IsReady originals.now here.version }
    ensures { result ≡ named_in (line_at originals.now.versions here.version here.place) }
{
    match originals.line(here.version, here.place) {
        Some(line) => is_named(line),
        None => false,
    }
}

/// Attempts the line at which the current frame stands, which names something. Where a class has to
/// be initialized before, that has begun, and the class is the answer.
fn attempt_name(
    alloc: Global,
    originals: &mut Originals,
    parts: &mut Parts,
    initializing: &mut Stack<Initialization>,
    here: Here,
) -> Result<Option<u32>, NoMemory>
    requires ready { IsReady originals.old here.version }
    requires known { AreNamesKnown originals.old parts.old.runtime }
    requires fit { CanRun (setup_in parts.old.runtime originals.old) }
    requires sound { IsSoundIn (setup_in parts.old.runtime originals.old)
        (state_of initializing.old parts.old) }
    requires here { here_of parts.old.frames.frames ≡ Some here }
    requires named { named_in (line_at originals.old.versions here.version here.place)
        ≡ true }
    requires executing { initialization_on (length parts.old.frames.frames) initializing.old
        ≡ None }
    ensures program { originals.new.program ≡ originals.old.program }
    ensures versions { originals.new.versions ≡ originals.old.versions }
    ensures world { parts.new.runtime.world ≡ parts.old.runtime.world }
    ensures known { OnOk result (AreNamesKnown originals.new parts.new.runtime) }
    ensures answer { IfOk result (λ o.
        o
        ≡ awaited_in (setup_in parts.old.runtime originals.old)
        (state_of initializing.old parts.old)) }
    ensures state { let w = setup_in parts.old.runtime originals.old in
        let s = state_of initializing.old parts.old in
        OnOk result (state_of initializing.new parts.new ≡ attempts_on w s s.stack) }
{
    let outcome = originals.attempt_named(
        alloc,
        &mut parts.runtime,
        &parts.frames,
        here.version,
        here.place,
    )?;
    let Some(line) = originals.line(here.version, here.place) else {
        break_off(parts, here.method, 0);
        return Ok(None);
    };
    let awaited = conclude(originals, parts, here.method, line, outcome)?;
    let Some(class) = awaited else {
        return Ok(None);
    };
    initialize(parts, initializing, class)?;
    Ok(Some(class))
}

// ---- every instruction

/// Attempts what stands at a place of a version whose lines are made.
#[inline(always)]
fn attempt_there(
    alloc: Global,
    originals: &mut Originals,
    parts: &mut Parts,
    initializing: &mut Stack<Initialization>,
    here: Here,
) -> Result<Option<u32>, NoMemory>
    requires ready { IsReady originals.old here.version }
    requires known { AreNamesKnown originals.old parts.old.runtime }
    requires fit { CanRun (setup_in parts.old.runtime originals.old) }
    requires sound { IsSoundIn (setup_in parts.old.runtime originals.old)
        (state_of initializing.old parts.old) }
    requires here { here_of parts.old.frames.frames ≡ Some here }
    requires executing { initialization_on (length parts.old.frames.frames) initializing.old
        ≡ None }
    ensures program { originals.new.program ≡ originals.old.program }
    ensures versions { originals.new.versions ≡ originals.old.versions }
    ensures world { parts.new.runtime.world ≡ parts.old.runtime.world }
    ensures known { OnOk result (AreNamesKnown originals.new parts.new.runtime) }
    ensures answer { IfOk result (λ o.
        o
        ≡ awaited_in (setup_in parts.old.runtime originals.old)
        (state_of initializing.old parts.old)) }
    ensures state { let w = setup_in parts.old.runtime originals.old in
        let s = state_of initializing.old parts.old in
        OnOk result (state_of initializing.new parts.new ≡ attempts_on w s s.stack) }
{
    if named_at(originals, here) {
        return attempt_name(alloc, originals, parts, initializing, here);
    }
    attempt_line(alloc, originals, parts, initializing, here)?;
    Ok(None)
}

/// Attempts what stands at the current frame's place: its instruction alone, without what follows
/// from it. The classes that it names are loaded before. Where a class has to be initialized
/// before, that has begun, and the class is the answer.
pub fn attempt(
    alloc: Global,
    originals: &mut Originals,
    parts: &mut Parts,
    initializing: &mut Stack<Initialization>,
) -> Result<Option<u32>, NoMemory>
    requires known { AreNamesKnown originals.old parts.old.runtime }
    requires fit { CanRun (setup_in parts.old.runtime originals.old) }
    requires sound { IsSoundIn (setup_in parts.old.runtime originals.old)
        (state_of initializing.old parts.old) }
    requires executing { initialization_on (length parts.old.frames.frames) initializing.old
        ≡ None }
    ensures program { originals.new.program ≡ originals.old.program }
    ensures versions { originals.new.versions ≡ originals.old.versions }
    ensures world { parts.new.runtime.world ≡ parts.old.runtime.world }
    ensures known { OnOk result (AreNamesKnown originals.new parts.new.runtime) }
    ensures answer { IfOk result (λ o.
        o
        ≡ awaited_in (setup_in parts.old.runtime originals.old)
        (state_of initializing.old parts.old)) }
    ensures state { let w = setup_in parts.old.runtime originals.old in
        let s = state_of initializing.old parts.old in
        OnOk result (state_of initializing.new parts.new ≡ attempts_on w s s.stack) }
{
    let Some(here) = where_now(&parts.frames) else {
        return Ok(None);
    };
    originals.prepare(alloc, here.version)?;
    attempt_there(alloc, originals, parts, initializing, here)
}

// ---- in two parts

/// The same of a line that names something: where it loads classes nothing else is done, and None
/// is the answer.
fn attempt_name_loaded(
    alloc: Global,
    originals: &mut Originals,
    parts: &mut Parts,
    initializing: &mut Stack<Initialization>,
    here: Here,
) -> Result<Option<Option<u32>>, NoMemory>
    requires ready { IsReady originals.old here.version }
    requires known { AreNamesKnown originals.old parts.old.runtime }
    requires fit { CanRun (setup_in parts.old.runtime originals.old) }
    requires sound { IsSoundIn (setup_in parts.old.runtime originals.old)
        (state_of initializing.old parts.old) }
    requires ending { parts.old.ending ≡ None }
    requires here { here_of parts.old.frames.frames ≡ Some here }
    requires named { named_in (line_at originals.old.versions here.version here.place)
        ≡ true }
    requires executing { initialization_on (length parts.old.frames.frames) initializing.old
        ≡ None }
    ensures program { originals.new.program ≡ originals.old.program }
    ensures versions { originals.new.versions ≡ originals.old.versions }
    ensures world { parts.new.runtime.world ≡ parts.old.runtime.world }
    ensures known { OnOk result (AreNamesKnown originals.new parts.new.runtime) }
    ensures some { IfOk result (λ o. is_some o
        ≡ loads_none (setup_in parts.old.runtime originals.old)
        (state_of initializing.old parts.old)) }
    ensures answer { IfOk result (λ o. IfSome o (λ a.
        a
        ≡ awaited_in (setup_in parts.old.runtime originals.old)
        (state_of initializing.old parts.old))) }
    ensures state { let w = setup_in parts.old.runtime originals.old in
        let s = state_of initializing.old parts.old in
        IfOk result (λ o. IfSome o (λ _.
        state_of initializing.new parts.new ≡ attempts_on w s s.stack)) }
    ensures loads { let w = setup_in parts.old.runtime originals.old in
        let s = state_of initializing.old parts.old in
        IfOk result (λ o. IfNone o
        (state_of initializing.new parts.new ≡ with_classes_loaded (loads_in w s) s)) }
{
    let outcome = originals.attempt_loaded(
        alloc,
        &mut parts.runtime,
        &parts.frames,
        here.version,
        here.place,
    )?;
    let Some(outcome) = outcome else {
        return Ok(None);
    };
    let Some(line) = originals.line(here.version, here.place) else {
        break_off(parts, here.method, 0);
        return Ok(Some(None));
    };
    let awaited = conclude(originals, parts, here.method, line, outcome)?;
    let Some(class) = awaited else {
        return Ok(Some(None));
    };
    initialize(parts, initializing, class)?;
    Ok(Some(Some(class)))
}

/// The same where a version's lines are made.
#[inline(always)]
fn attempt_loaded_there(
    alloc: Global,
    originals: &mut Originals,
    parts: &mut Parts,
    initializing: &mut Stack<Initialization>,
    here: Here,
) -> Result<Option<Option<u32>>, NoMemory>
    requires ready { IsReady originals.old here.version }
    requires known { AreNamesKnown originals.old parts.old.runtime }
    requires fit { CanRun (setup_in parts.old.runtime originals.old) }
    requires sound { IsSoundIn (setup_in parts.old.runtime originals.old)
        (state_of initializing.old parts.old) }
    requires ending { parts.old.ending ≡ None }
    requires here { here_of parts.old.frames.frames ≡ Some here }
    requires executing { initialization_on (length parts.old.frames.frames) initializing.old
        ≡ None }
    ensures program { originals.new.program ≡ originals.old.program }
    ensures versions { originals.new.versions ≡ originals.old.versions }
    ensures world { parts.new.runtime.world ≡ parts.old.runtime.world }
    ensures known { OnOk result (AreNamesKnown originals.new parts.new.runtime) }
    ensures some { IfOk result (λ o. is_some o
        ≡ loads_none (setup_in parts.old.runtime originals.old)
        (state_of initializing.old parts.old)) }
    ensures answer { IfOk result (λ o. IfSome o (λ a.
        a
        ≡ awaited_in (setup_in parts.old.runtime originals.old)
        (state_of initializing.old parts.old))) }
    ensures state { let w = setup_in parts.old.runtime originals.old in
        let s = state_of initializing.old parts.old in
        IfOk result (λ o. IfSome o (λ _.
        state_of initializing.new parts.new ≡ attempts_on w s s.stack)) }
    ensures loads { let w = setup_in parts.old.runtime originals.old in
        let s = state_of initializing.old parts.old in
        IfOk result (λ o. IfNone o
        (state_of initializing.new parts.new ≡ with_classes_loaded (loads_in w s) s)) }
{
    if named_at(originals, here) {
        return attempt_name_loaded(alloc, originals, parts, initializing, here);
    }
    attempt_line(alloc, originals, parts, initializing, here)?;
    Ok(Some(None))
}

/// Attempts what stands at the current frame's place, in two parts. Where its classes are still to
/// be loaded they are loaded, nothing else is done, and None is the answer. Else it is attempted,
/// and the answer is the class that is initialized before.
pub fn attempt_loaded(
    alloc: Global,
    originals: &mut Originals,
    parts: &mut Parts,
    initializing: &mut Stack<Initialization>,
) -> Result<Option<Option<u32>>, NoMemory>
    requires known { AreNamesKnown originals.old parts.old.runtime }
    requires fit { CanRun (setup_in parts.old.runtime originals.old) }
    requires sound { IsSoundIn (setup_in parts.old.runtime originals.old)
        (state_of initializing.old parts.old) }
    requires ending { parts.old.ending ≡ None }
    requires executing { initialization_on (length parts.old.frames.frames) initializing.old
        ≡ None }
    ensures program { originals.new.program ≡ originals.old.program }
    ensures versions { originals.new.versions ≡ originals.old.versions }
    ensures world { parts.new.runtime.world ≡ parts.old.runtime.world }
    ensures known { OnOk result (AreNamesKnown originals.new parts.new.runtime) }
    ensures some { IfOk result (λ o. is_some o
        ≡ loads_none (setup_in parts.old.runtime originals.old)
        (state_of initializing.old parts.old)) }
    ensures answer { IfOk result (λ o. IfSome o (λ a.
        a
        ≡ awaited_in (setup_in parts.old.runtime originals.old)
        (state_of initializing.old parts.old))) }
    ensures state { let w = setup_in parts.old.runtime originals.old in
        let s = state_of initializing.old parts.old in
        IfOk result (λ o. IfSome o (λ _.
        state_of initializing.new parts.new ≡ attempts_on w s s.stack)) }
    ensures loads { let w = setup_in parts.old.runtime originals.old in
        let s = state_of initializing.old parts.old in
        IfOk result (λ o. IfNone o
        (state_of initializing.new parts.new ≡ with_classes_loaded (loads_in w s) s)) }
{
    let Some(here) = where_now(&parts.frames) else {
        return Ok(Some(None));
    };
    originals.prepare(alloc, here.version)?;
    attempt_loaded_there(alloc, originals, parts, initializing, here)
}
