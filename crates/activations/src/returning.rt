//! Returns (JVM Specification 2.6.4, 2.6.5).

ghost use Rattle.std.specs.Prelude.{◌≡◌, OnOk};
ghost use Rattle.frame_stack.specs.FrameLists.{top_operands};
ghost use Rattle.activations.specs.Applied.{IsTop, acts_end, acts_return, gives_back_line};
ghost use Rattle.activations.specs.Applied.{on_parts};
ghost use Rattle.activations.specs.Returning.{gives_back_by, has_result, left_by, returns_given};
ghost use Rattle.prepared_code.specs.States.{state_in};
ghost use Rattle.prepared_code.specs.Originals.{setup_in};

use crate::going::{resume, top_datum};
use crate::raising::{break_off, end_unless};
use const_pool::Kind;
use frame_stack::Frames;
use heap_objects::Datum;
use jf_bytes::NoMemory;
use prepared_code::{Originals, Parts, Passage, where_now};
use prepared_lines::Line;
use std::alloc::Global;

/// What is on top goes on behind its line, with the result.
#[inline(always)]
fn give_back_by(parts: &mut Parts, passage: Option<Passage>, datum: Option<Datum>)
    ensures state { let s = state_in parts.old in
        state_in parts.new ≡ gives_back_by s datum passage s.stack }
    ensures runtime { parts.new.runtime ≡ parts.old.runtime }
{
    let Some(caller) = where_now(&parts.frames) else {
        return;
    };
    let Some(passage) = passage else {
        return break_off(parts, caller.method, 0);
    };
    let effect = resume(&mut parts.frames, datum, passage.next);
    end_unless(parts, caller.method, passage.own, effect);
}

/// The same, where its line is looked up.
fn give_back(
    alloc: Global,
    originals: &Originals,
    parts: &mut Parts,
    datum: Option<Datum>,
) -> Result<(), NoMemory>
    ensures state { let s = state_in parts.old in OnOk result
        (state_in parts.new ≡ gives_back_line originals.now.versions s datum s.stack) }
    ensures runtime { parts.new.runtime ≡ parts.old.runtime }
{
    let Some(caller) = where_now(&parts.frames) else {
        return Ok(());
    };
    let passage = originals.passage(alloc, caller.version, caller.place)?;
    give_back_by(parts, passage, datum);
    Ok(())
}

/// The current activation ends with this result.
fn return_with(
    alloc: Global,
    originals: &Originals,
    parts: &mut Parts,
    datum: Option<Datum>,
) -> Result<(), NoMemory>
    ensures state { let s = left_by parts.old in OnOk result
        (state_in parts.new ≡ gives_back_line originals.now.versions s datum s.stack) }
    ensures runtime { parts.new.runtime ≡ parts.old.runtime }
{
    parts.frames.leave();
    give_back(alloc, originals, parts, datum)
}

/// A return of a value of this kind: where its operand is missing or of another kind, the
/// activation ends with the run.
fn return_value(
    alloc: Global,
    originals: &Originals,
    parts: &mut Parts,
    method: u32,
    own: u16,
    kind: Kind,
) -> Result<(), NoMemory>
    ensures state { OnOk result (state_in parts.new
        ≡ returns_given originals.now.versions method own kind parts.old) }
    ensures runtime { parts.new.runtime ≡ parts.old.runtime }
{
    match top_datum(&parts.frames, kind) {
        Some(datum) => return_with(alloc, originals, parts, Some(datum)),
        None => {
            parts.frames.leave();
            break_off(parts, method, own);
            Ok(())
        }
    }
}

/// A return, with a result of this kind where there is one.
pub fn return_by(
    alloc: Global,
    originals: &Originals,
    parts: &mut Parts,
    method: u32,
    line: &Line,
    kind: Option<Kind>,
) -> Result<(), NoMemory>
    requires top { IsTop method parts.old.frames.frames }
    ensures state { OnOk result (state_in parts.new
        ≡ on_parts (acts_return (setup_in parts.old.runtime originals.now) line.now kind)
        parts.old) }
    ensures runtime { parts.new.runtime ≡ parts.old.runtime }
{
    match kind {
        None => return_with(alloc, originals, parts, None),
        Some(kind) => return_value(alloc, originals, parts, method, line.instr.at, kind),
    }
}

/// Whether the topmost operand is of this kind, where there is to be one.
fn has_result(frames: &Frames, kind: Option<Kind>) -> bool
    ensures { result ≡ has_result kind (top_operands frames.now.frames) }
{
    match kind {
        None => true,
        Some(kind) => top_datum(frames, kind).is_some(),
    }
}

/// A return of a static initializer: no caller goes on. Where its operand is missing or of another
/// kind the run ends.
pub fn end_initializer(parts: &mut Parts, method: u32, line: &Line, kind: Option<Kind>)
    requires top { IsTop method parts.old.frames.frames }
    ensures state { state_in parts.new ≡ on_parts (acts_end line.now kind) parts.old }
    ensures runtime { parts.new.runtime ≡ parts.old.runtime }
{
    let found = has_result(&parts.frames, kind);
    parts.frames.leave();
    if !found {
        break_off(parts, method, line.instr.at);
    }
}
