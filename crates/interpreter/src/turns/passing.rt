//! Several steps that tell nothing: those of the current frame alone, and between them accesses of
//! fields that raise nothing, calls and returns, by what their names came to. They go on up to a
//! call into a version with probes, or a return from one.

ghost use Rattle.std.specs.Prelude.{◌≡◌, ◌≤◌, ◌<◌, true, false, length};
ghost use Rattle.std.specs.Prelude.{IfSome, Some, is_some, not};
ghost use Rattle.std.specs.Option.{option_map};
ghost use Rattle.frame_stack.specs.FrameLists.{top_operands};
ghost use Rattle.jvm_model.specs.Basis.Data.{Returns};
ghost use Rattle.jvm_model.specs.Instructions.LocalRules.{returns};
ghost use Rattle.jvm_model.specs.Basis.Values.{as_value};
ghost use Rattle.jvm_model.specs.Rewriting.Images.{is_off};
ghost use Rattle.jvm_model.specs.declared.due.Due.TheVariants as due;
ghost use Rattle.member_selection.specs.Known.{IsKnown};
ghost use Rattle.jvm_model.specs.declared.instruction.Operation.TheVariants as operation;
ghost use Rattle.prepared_lines.specs.declared.line.LocalAction.TheVariants as local_action;
ghost use Rattle.activations.specs.Arguments.{can_begin, with_begun};
ghost use Rattle.activations.specs.Invoking.{may_begin};
ghost use Rattle.prepared_code.specs.Initializations.{state_of};
ghost use Rattle.interpreter.specs.Moves.Passing.{Passes, is_method, on_frames};
ghost use Rattle.interpreter.specs.Moves.Passing.{steps_if};
ghost use Rattle.prepared_code.specs.Ready.{CanRun, IsSoundIn};
ghost use Rattle.prepared_code.specs.Runs.{IsAtInstruction, IsLineIn, RunsVersion};
ghost use Rattle.prepared_code.specs.States.{here_of};
ghost use Rattle.interpreter.specs.Moves.Quickly.{GoesBack, TriesIf, passed_there};
ghost use Rattle.interpreter.specs.Moves.Onward.{ComesTo, GoesOnward, PassesOnward};
ghost use Rattle.interpreter.specs.Moves.Onward.{begun_due, is_telling, made_if};
ghost use Rattle.method_versions.specs.Tables.{is_superseded_in};
ghost use Rattle.prepared_code.specs.Tables.{version_at};
ghost use Rattle.prepared_code.specs.Versions.{current_of, line_at, mark_of};
ghost use Rattle.prepared_code.specs.Originals.{AreNamesKnown, setup_in};
ghost use Rattle.symbolic_references.specs.Runtimes.{linker_in};

use crate::turns::hands::{Passed, gone_to};
use activations::{
    begin_frame, catch_below, caught_below, class_of, is_marked, may_begin, thrown_object,
    top_datum,
};
use const_pool::Kind;
use frame_stack::Frames;
use heap_objects::{Datum, Value};
use instructions::{pass_length, plain_to, version_now};
use jf_bytes::Stack;
use jvm_basic::{recall, value_of};
use jvm_model::{Due, EventKind, Mark, Operation, SymbolicReference};
use member_selection::{Found, Known};
use prepared_code::{
    Here, Initialization, Originals, Parts, Version, initialization_on, next_in, where_now,
};
use prepared_lines::{Line, LocalAction};
use symbolic_references::{Call, Invoked};

// ---- a call

/// What is due where a method has begun in a version, by whether that has probes.
#[inline(always)]
fn begun_due(marked: bool) -> Due
    ensures { result ≡ begun_due marked }
{
    if marked { Due::Begins } else { Due::Nothing }
}

/// A method begins on the current frame, in its current version: what is due then. None, with
/// nothing of the frames changed, where it can't.
#[inline(always)]
fn begin_call(originals: &Originals, parts: &mut Parts, call: Call) -> Option<Due>
    ensures few { is_some result ≡ true → may_begin parts.old.frames.frames ≡ true }
    ensures fits { is_some result ≡ true
        → can_begin parts.old.runtime.world call.method call.count parts.old.frames.frames ≡ true }
    ensures due { let v = originals.now.versions in IfSome result (λ due.
        due ≡ begun_due (not (is_off (mark_of v (current_of v call.method))))) }
    ensures frames { parts.new.frames.frames ≡ with_begun
        (is_some result) (setup_in parts.old.runtime originals.now) call.method call.count
        parts.old.frames.frames }
    ensures same { parts.new ≡ on_frames parts.new.frames parts.old }
{
    if !may_begin(&parts.frames) {
        return None;
    }
    let due = begun_due(is_marked(originals, originals.current(call.method)));
    match begin_frame(
        originals,
        &parts.runtime,
        &mut parts.frames,
        call.method,
        call.count,
    ) {
        Ok(true) => Some(due),
        Ok(false) => None,
        Err(_) => None,
    }
}

/// Whether a step was made, as what is due behind it.
#[inline(always)]
fn made_if(done: bool) -> Option<Due>
    ensures { result ≡ made_if done }
{
    if done { Some(Due::Nothing) } else { None }
}

/// An invocation by what its names came to.
fn pass_call(
    originals: &Originals,
    parts: &mut Parts,
    initializing: &Stack<Initialization>,
    here: Here,
    line: &Line,
    reference: &SymbolicReference,
    known: &Known,
) -> Option<Due>
    requires run { CanRun (setup_in parts.old.runtime originals.now) }
    requires sound { IsSoundIn (setup_in parts.old.runtime originals.now)
        (state_of initializing.now parts.old) }
    requires at_instruction { IsAtInstruction
        (length parts.old.frames.frames) initializing.now parts.old }
    requires here { here_of parts.old.frames.frames ≡ Some here }
    requires line { line_at originals.now.versions here.version here.place ≡ Some line.now }
    requires named { line.now.operation ≡ operation.Named reference.now }
    requires known { IsKnown (linker_in parts.old.runtime) reference.now known.now }
    ensures { GoesOnward (setup_in parts.old.runtime originals.now) initializing.now parts.old
        result parts.new }
{
    let Some(invoked) = parts.runtime.known_call(&parts.frames, reference, known) else {
        return None;
    };
    match invoked {
        Invoked::Code(call) => begin_call(originals, parts, call),
        Invoked::Native(native) => {
            made_if(
                parts
                    .runtime
                    .pass_native(&mut parts.frames, native, line.next),
            )
        }
    }
}

// ---- an access

/// An access of a field by what its names came to.
fn pass_access(
    originals: &Originals,
    parts: &mut Parts,
    initializing: &Stack<Initialization>,
    here: Here,
    line: &Line,
    reference: &SymbolicReference,
    known: &Known,
) -> bool
    requires run { CanRun (setup_in parts.old.runtime originals.now) }
    requires sound { IsSoundIn (setup_in parts.old.runtime originals.now)
        (state_of initializing.now parts.old) }
    requires at_instruction { IsAtInstruction
        (length parts.old.frames.frames) initializing.now parts.old }
    requires here { here_of parts.old.frames.frames ≡ Some here }
    requires line { line_at originals.now.versions here.version here.place ≡ Some line.now }
    requires named { line.now.operation ≡ operation.Named reference.now }
    requires known { IsKnown (linker_in parts.old.runtime) reference.now known.now }
    ensures { Passes (setup_in parts.old.runtime originals.now) initializing.now parts.old
        (steps_if result) parts.new }
{
    parts
        .runtime
        .pass_field(&mut parts.frames, reference, line.next, known)
}

/// arraylength.
fn pass_measure(
    originals: &Originals,
    parts: &mut Parts,
    initializing: &Stack<Initialization>,
    here: Here,
    line: &Line,
) -> bool
    requires run { CanRun (setup_in parts.old.runtime originals.now) }
    requires at_instruction { IsAtInstruction
        (length parts.old.frames.frames) initializing.now parts.old }
    requires here { here_of parts.old.frames.frames ≡ Some here }
    requires line { line_at originals.now.versions here.version here.place ≡ Some line.now }
    requires measures { line.now.operation ≡ operation.Arraylength }
    ensures { Passes (setup_in parts.old.runtime originals.now) initializing.now parts.old
        (steps_if result) parts.new }
{
    pass_length(parts, line)
}

// ---- a return

/// The value that a datum is, if there is one.
#[inline(always)]
pub fn value_given(datum: Option<Datum>) -> Option<Value>
    ensures { result ≡ option_map as_value datum }
{
    match datum {
        Some(datum) => Some(value_of(datum)),
        None => None,
    }
}

/// What a return gives back, where its operand is of the kind.
#[inline(always)]
pub fn result_of(frames: &Frames, kind: Option<Kind>) -> Option<Option<Datum>>
    ensures { IfSome result (λ d. returns kind (top_operands frames.now.frames) ≡ Returns d) }
{
    let Some(kind) = kind else {
        return Some(None);
    };
    let Some(datum) = top_datum(frames, kind) else {
        return None;
    };
    Some(Some(datum))
}

/// Where the caller of the current frame goes on. None where nothing does, or where an
/// initialization stands on it.
#[inline(always)]
pub fn goes_back(
    originals: &Originals,
    frames: &Frames,
    initializing: &Stack<Initialization>,
) -> Option<u16>
    ensures { IfSome result (λ next.
        GoesBack originals.now.versions initializing.now frames.now.frames next) }
{
    let depth = frames.depth();
    if depth < 2 {
        return None;
    }
    if initialization_on(initializing, depth - 1).is_some() {
        return None;
    }
    let Some((version, place)) = frames.caller() else {
        return None;
    };
    let Some(line) = originals.line(version, place) else {
        return None;
    };
    next_in(line)
}

/// The numbers of versions are below this one.
const MOST_VERSIONS: usize = 4294967296;

/// Whether its method begins in a version, of which the number is given.
#[inline(always)]
fn begins_in(originals: &Originals, version: &Version, number: usize) -> bool
    requires { version_at originals.now.versions number ≡ Some version.now }
    ensures { let v = originals.now.versions in
        result ≡ true → is_superseded_in v.slots v.current number ≡ false }
{
    if number >= MOST_VERSIONS {
        return false;
    }
    originals.current(version.method) == number
}

/// Whether a version has probes.
#[inline(always)]
fn is_probed(version: &Version) -> bool
    ensures { result ≡ not (is_off version.now.prepared.mark) }
{
    match version.prepared.mark {
        Mark::Plain | Mark::Root => true,
        Mark::Off => false,
    }
}

/// A return from a version that is its method's current one; its probe has told, if it has one.
/// False, with nothing changed, where the caller can't go on.
#[inline(always)]
pub fn leave(
    originals: &Originals,
    parts: &mut Parts,
    initializing: &Stack<Initialization>,
    here: Here,
    version: &Version,
    line: &Line,
    kind: Option<Kind>,
) -> bool
    requires run { CanRun (setup_in parts.old.runtime originals.now) }
    requires at_instruction { IsAtInstruction
        (length parts.old.frames.frames) initializing.now parts.old }
    requires here { here_of parts.old.frames.frames ≡ Some here }
    requires runs { version_at originals.now.versions here.version ≡ Some version.now }
    requires line { line_at originals.now.versions here.version here.place ≡ Some line.now }
    requires ends { line.now.operation ≡ operation.Within (local_action.Return kind) }
    ensures delivered { let w = setup_in parts.old.runtime originals.now in
        TriesIf result w initializing.now true parts.old due.Nothing parts.new }
    ensures at_instruction { result ≡ true → IsAtInstruction
        (length parts.new.frames.frames) initializing.now parts.new }
    // Where the version has no probes nothing is told of it.
    ensures silent { let w = setup_in parts.old.runtime originals.now in
        is_off (mark_of w.versions here.version) ≡ true
        → Passes w initializing.now parts.old (steps_if result) parts.new }
    ensures runtime { parts.new.runtime ≡ parts.old.runtime }
{
    if !begins_in(originals, version, here.version) {
        return false;
    }
    let Some(next) = goes_back(originals, &parts.frames, initializing) else {
        return false;
    };
    let Some(datum) = result_of(&parts.frames, kind) else {
        return false;
    };
    recall(&parts.frames);
    parts.frames.give_back(value_given(datum), next)
}

/// A return. From a version with probes nothing is done yet: its probe tells first.
fn pass_return(
    originals: &Originals,
    parts: &mut Parts,
    initializing: &Stack<Initialization>,
    here: Here,
    version: &Version,
    line: &Line,
    kind: Option<Kind>,
) -> Option<Due>
    requires run { CanRun (setup_in parts.old.runtime originals.now) }
    requires at_instruction { IsAtInstruction
        (length parts.old.frames.frames) initializing.now parts.old }
    requires here { here_of parts.old.frames.frames ≡ Some here }
    requires runs { version_at originals.now.versions here.version ≡ Some version.now }
    requires line { line_at originals.now.versions here.version here.place ≡ Some line.now }
    requires ends { line.now.operation ≡ operation.Within (local_action.Return kind) }
    ensures { GoesOnward (setup_in parts.old.runtime originals.now) initializing.now parts.old
        result parts.new }
{
    if is_probed(version) {
        return Some(Due::Ends(EventKind::Leave));
    }
    made_if(leave(originals, parts, initializing, here, version, line, kind))
}

// ---- a throw

/// An athrow that the caller of the current frame catches.
fn pass_throw(
    originals: &Originals,
    parts: &mut Parts,
    initializing: &Stack<Initialization>,
    here: Here,
    line: &Line,
) -> bool
    requires run { CanRun (setup_in parts.old.runtime originals.now) }
    requires at_instruction { IsAtInstruction
        (length parts.old.frames.frames) initializing.now parts.old }
    requires here { here_of parts.old.frames.frames ≡ Some here }
    requires line { line_at originals.now.versions here.version here.place ≡ Some line.now }
    requires throws { line.now.operation ≡ operation.Athrow }
    ensures { Passes (setup_in parts.old.runtime originals.now) initializing.now parts.old
        (steps_if result) parts.new }
{
    let Some(object) = thrown_object(&parts.runtime, &parts.frames) else {
        return false;
    };
    let class = class_of(&parts.runtime, object);
    let Some(target) = caught_below(
        originals,
        &parts.runtime,
        &parts.frames,
        initializing,
        here,
        class,
    ) else {
        return false;
    };
    catch_below(&mut parts.frames, object, target)
}

// ---- a step

/// Whether what is known is of a method.
#[inline(always)]
pub fn is_method(known: &Known) -> bool
    ensures { result ≡ is_method known.now.found }
{
    match known.found {
        Found::Fixed(_) => true,
        Found::Selected(_) => true,
        _ => false,
    }
}

/// A step by a line that names something. Nothing of the run is changed where the answer is None.
fn pass_named(
    originals: &Originals,
    parts: &mut Parts,
    initializing: &Stack<Initialization>,
    here: Here,
    line: &Line,
    reference: &SymbolicReference,
) -> Option<Due>
    requires run { CanRun (setup_in parts.old.runtime originals.now) }
    requires known { AreNamesKnown originals.now parts.old.runtime }
    requires sound { IsSoundIn (setup_in parts.old.runtime originals.now)
        (state_of initializing.now parts.old) }
    requires at_instruction { IsAtInstruction
        (length parts.old.frames.frames) initializing.now parts.old }
    requires here { here_of parts.old.frames.frames ≡ Some here }
    requires line { line_at originals.now.versions here.version here.place ≡ Some line.now }
    requires named { line.now.operation ≡ operation.Named reference.now }
    ensures { GoesOnward (setup_in parts.old.runtime originals.now) initializing.now parts.old
        result parts.new }
{
    let Some(known) = originals.known(here.version, here.place) else {
        return None;
    };
    if is_method(known) {
        return pass_call(originals, parts, initializing, here, line, reference, known);
    }
    made_if(pass_access(originals, parts, initializing, here, line, reference, known))
}

/// A step by a line at which the current frame stands, in the version that it runs, up to what a
/// probe tells of it: what is due there, and nothing where the step is made. Nothing of the run is
/// changed where the answer is None: the line does something else, or raises something, or nothing
/// is known of its names.
fn pass_line(
    originals: &Originals,
    parts: &mut Parts,
    initializing: &Stack<Initialization>,
    version: &Version,
    line: &Line,
) -> Option<Due>
    requires run { CanRun (setup_in parts.old.runtime originals.now) }
    requires known { AreNamesKnown originals.now parts.old.runtime }
    requires sound { IsSoundIn (setup_in parts.old.runtime originals.now)
        (state_of initializing.now parts.old) }
    requires at_instruction { IsAtInstruction
        (length parts.old.frames.frames) initializing.now parts.old }
    requires runs { RunsVersion (setup_in parts.old.runtime originals.now) version.now
        parts.old.frames.frames }
    requires stands { IsLineIn version.now parts.old.frames.frames line.now }
    ensures { GoesOnward (setup_in parts.old.runtime originals.now) initializing.now parts.old
        result parts.new }
{
    let Some(here) = where_now(&parts.frames) else {
        return None;
    };
    match &line.operation {
        Operation::Named(reference) => pass_named(
            originals,
            parts,
            initializing,
            here,
            line,
            reference,
        ),
        Operation::Within(action) => match action {
            LocalAction::Return(kind) => pass_return(
                originals,
                parts,
                initializing,
                here,
                version,
                line,
                *kind,
            ),
            LocalAction::Basic => None,
        },
        Operation::Athrow => made_if(pass_throw(originals, parts, initializing, here, line)),
        Operation::Arraylength => made_if(pass_measure(originals, parts, initializing, here, line)),
        _ => None,
    }
}

/// Whether a probe tells there.
#[inline(always)]
fn is_telling(due: Due) -> bool
    ensures { result ≡ is_telling due }
{
    match due {
        Due::Nothing => false,
        Due::Ends(_) | Due::Begins => true,
    }
}

/// How many of a step's changes are behind it there, where none was before.
#[inline(always)]
fn passed_there(due: Due) -> u64
    ensures { result ≡ passed_there due }
{
    match due {
        Due::Ends(_) => 0,
        Due::Nothing | Due::Begins => 1,
    }
}

/// Steps from which nothing follows, and of which nothing is told, at most so many, and up to what
/// a probe tells of the next one: what is due there, if it does. How many were made is put beside
/// it, since a record would be copied with its gaps.
fn pass_to(
    originals: &Originals,
    parts: &mut Parts,
    initializing: &Stack<Initialization>,
    most: u64,
    count: &mut u64,
) -> Option<Due>
    requires run { CanRun (setup_in parts.old.runtime originals.now) }
    requires known { AreNamesKnown originals.now parts.old.runtime }
    requires sound { IsSoundIn (setup_in parts.old.runtime originals.now)
        (state_of initializing.now parts.old) }
    requires at_instruction { IsAtInstruction
        (length parts.old.frames.frames) initializing.now parts.old }
    ensures within { count.new ≤ most }
    ensures below { IfSome result (λ due. count.new < most) }
    ensures made { let w = setup_in parts.old.runtime originals.now in
        ComesTo w initializing.now parts.old count.new result parts.new }
{
    let mut made = 0;
    while made < most {
        let Some(version) = version_now(originals, &parts.frames) else {
            *count = made;
            return None;
        };
        let mut plain = 0;
        let stop = plain_to(version, parts, most - made, &mut plain);
        made += plain;
        let Some(line) = stop else {
            *count = made;
            return None;
        };
        let Some(due) = pass_line(originals, parts, initializing, version, line) else {
            *count = made;
            return None;
        };
        if is_telling(due) {
            *count = made;
            return Some(due);
        }
        made += 1;
    }
    *count = made;
    None
}

/// Steps from which nothing follows, and of which nothing is told, at most so many: how many it has
/// made. Where the next one is within them, and a probe tells of it, it goes on to there.
#[inline(always)]
pub fn pass_steps(
    originals: &Originals,
    parts: &mut Parts,
    initializing: &Stack<Initialization>,
    most: u64,
) -> Passed
    requires run { CanRun (setup_in parts.old.runtime originals.now) }
    requires known { AreNamesKnown originals.now parts.old.runtime }
    requires sound { IsSoundIn (setup_in parts.old.runtime originals.now)
        (state_of initializing.now parts.old) }
    requires at_instruction { IsAtInstruction
        (length parts.old.frames.frames) initializing.now parts.old }
    ensures within { result.made ≤ most }
    ensures below { IfSome result.gone (λ gone. result.made < most) }
    ensures made { PassesOnward (setup_in parts.old.runtime originals.now) initializing.now
        parts.old result parts.new }
{
    let mut made = 0;
    match pass_to(originals, parts, initializing, most, &mut made) {
        Some(due) => Passed {
            made,
            gone: Some(gone_to(due, passed_there(due))),
        },
        None => Passed { made, gone: None },
    }
}
