//! Attempts of lines that name something, by what their names came to before (JVM Specification
//! 5.4.3).

ghost use Rattle.std.specs.Prelude.{◌≡◌, is_some, true, IfNone, IfOk, OnOk};
ghost use Rattle.std.specs.Option.{IfSome};
ghost use Rattle.frame_stack.specs.FrameLists.{top_operands};
ghost use Rattle.member_selection.specs.Answers.{done_on};
ghost use Rattle.member_selection.specs.Attempts.{attempts, is_loaded, loaded_for};
ghost use Rattle.member_selection.specs.Known.{IsKnown};
ghost use Rattle.member_selection.specs.Objects.{HasDimensions, HasLoadedCaller};
ghost use Rattle.member_selection.specs.Outcomes.{Asks, HasOperands, HaveOperands, outcome_by_rule, outcome_in_frame};
ghost use Rattle.symbolic_references.specs.Leaving.{Leaves};
ghost use Rattle.symbolic_references.specs.Runtimes.{after, linker_in, with_loaded};
ghost use Rattle.prepared_code.specs.Kept.{IsLater};
ghost use Rattle.prepared_code.specs.Lines.{IfNamed, IfNamedBy};
ghost use Rattle.prepared_code.specs.Originals.{AreNamesKnown, IsReady};
ghost use Rattle.prepared_code.specs.Versions.{line_at};

use crate::originals::Originals;
use crate::versions::line_there;
use frame_stack::Frames;
use jf_bytes::NoMemory;
use jvm_model::Operation;
use member_selection::{AbruptCompletion, Known, Outcome};
use prepared_lines::Line;
use std::alloc::Global;
use symbolic_references::Runtime;

/// Attempts a line that names something, and tells what its names came to; another one does
/// nothing.
#[inline(never)]
#[tactic(auto, using(crate::proofs::Lines::CellLemmas::later_same))]
fn attempt_line(
    runtime: &mut Runtime,
    line: &Line,
    frames: &Frames,
    learnt: &mut Option<Known>,
) -> Result<Outcome, NoMemory>
    requires caller { IfNamedBy line.now.operation line.now.next
        (λ n next. HasLoadedCaller (linker_in runtime.old) n) }
    requires dimensions { IfNamedBy line.now.operation line.now.next (λ n next. HasDimensions n) }
    ensures answer { let w = runtime.old.world in let s = runtime.old.shared in
        IfNamedBy line.now.operation line.now.next (λ n next.
        Asks result (attempts w n s frames.now) frames.now) }
    ensures runtime { let w = runtime.old.world in let s = runtime.old.shared in
        IfNamedBy line.now.operation line.now.next (λ n next.
        Leaves result runtime.new (attempts w n s frames.now) frames.now runtime.old) }
    ensures enough { HaveOperands result frames.now }
    ensures world { runtime.new.world ≡ runtime.old.world }
    ensures later { OnOk result (IsLater (linker_in runtime.old) (linker_in runtime.new)) }
    ensures learnt { OnOk result (IfSome learnt.new (λ k.
        IfNamedBy line.now.operation line.now.next
        (λ n next. IsKnown (linker_in runtime.new) n k))) }
{
    match &line.operation {
        Operation::Named(reference) => runtime.attempt(frames, reference, learnt),
        _ => {
            *learnt = None;
            Ok(Outcome::Abrupt(AbruptCompletion::Breaks))
        }
    }
}

/// The same in two parts: where it loads classes nothing else is done, and None is the answer.
#[inline(never)]
#[tactic(auto, using(crate::proofs::Lines::CellLemmas::later_same, crate::proofs::Lines::CellLemmas::later_more))]
fn attempt_line_loaded(
    runtime: &mut Runtime,
    line: &Line,
    frames: &Frames,
    learnt: &mut Option<Known>,
) -> Result<Option<Outcome>, NoMemory>
    requires caller { IfNamedBy line.now.operation line.now.next
        (λ n next. HasLoadedCaller (linker_in runtime.old) n) }
    requires dimensions { IfNamedBy line.now.operation line.now.next (λ n next. HasDimensions n) }
    ensures some { let w = runtime.old.world in let s = runtime.old.shared in
        IfNamedBy line.now.operation line.now.next (λ n next.
        IfOk result (λ a. is_some a ≡ is_loaded w n s frames.now)) }
    ensures answer { let w = runtime.old.world in let s = runtime.old.shared in
        IfNamedBy line.now.operation line.now.next (λ n next. IfOk result (λ a.
        IfSome a (λ a. outcome_in_frame a frames.now
        ≡ outcome_by_rule (attempts w n s frames.now) frames.now))) }
    ensures runtime { let w = runtime.old.world in let s = runtime.old.shared in
        IfNamedBy line.now.operation line.now.next (λ n next. IfOk result (λ a. IfSome a (λ _.
        runtime.new ≡ after (done_on (attempts w n s frames.now) frames.now) runtime.old))) }
    ensures loads { let p = runtime.old.world.program in let s = runtime.old.shared in
        IfNamedBy line.now.operation line.now.next (λ n next. IfOk result (λ a. IfNone a
        (runtime.new ≡ with_loaded (loaded_for p n s frames.now) runtime.old))) }
    ensures enough { IfOk result (λ a. IfSome a
        (λ a. HasOperands a (top_operands frames.now.frames))) }
    ensures world { runtime.new.world ≡ runtime.old.world }
    ensures later { OnOk result (IsLater (linker_in runtime.old) (linker_in runtime.new)) }
    ensures learnt { OnOk result (IfSome learnt.new (λ k.
        IfNamedBy line.now.operation line.now.next
        (λ n next. IsKnown (linker_in runtime.new) n k))) }
{
    match &line.operation {
        Operation::Named(reference) => runtime.attempt_loaded(frames, reference, learnt),
        _ => {
            *learnt = None;
            Ok(None)
        }
    }
}

/// Attempts a line of whose names it is known what they come to; one that names nothing does
/// nothing.
fn attempt_line_known(
    runtime: &mut Runtime,
    line: &Line,
    frames: &Frames,
    known: &mut Known,
) -> Result<Outcome, NoMemory>
    requires known { IfNamedBy line.now.operation line.now.next
        (λ n next. IsKnown (linker_in runtime.old) n known.old) }
    requires caller { IfNamedBy line.now.operation line.now.next
        (λ n next. HasLoadedCaller (linker_in runtime.old) n) }
    requires dimensions { IfNamedBy line.now.operation line.now.next (λ n next. HasDimensions n) }
    ensures answer { let w = runtime.old.world in let s = runtime.old.shared in
        IfNamedBy line.now.operation line.now.next (λ n next.
        Asks result (attempts w n s frames.now) frames.now) }
    ensures runtime { let w = runtime.old.world in let s = runtime.old.shared in
        IfNamedBy line.now.operation line.now.next (λ n next.
        Leaves result runtime.new (attempts w n s frames.now) frames.now runtime.old) }
    ensures loads { let w = runtime.old.world in let s = runtime.old.shared in
        IfNamedBy line.now.operation line.now.next (λ n next. is_loaded w n s frames.now ≡ true) }
    ensures enough { HaveOperands result frames.now }
    ensures world { runtime.new.world ≡ runtime.old.world }
    ensures same_loaded { runtime.new.shared.loaded ≡ runtime.old.shared.loaded }
    ensures known { IfNamedBy line.now.operation line.now.next
        (λ n next. IsKnown (linker_in runtime.old) n known.new) }
{
    match &line.operation {
        Operation::Named(reference) => {
            // Mostly a method that has Code is invoked.
            if let Some(call) = runtime.known_code(frames, reference, known) {
                return Ok(Outcome::Invokes(call.method, call.count));
            }
            runtime.attempt_known(frames, reference, known)
        }
        _ => Ok(Outcome::Abrupt(AbruptCompletion::Breaks)),
    }
}

/// Keeps what a line's names came to, where that is of another receiver than what was known before.
fn keep_selected(runtime: &mut Runtime, line: &Line, before: Known, known: Known)
    requires { IfNamedBy line.now.operation line.now.next
        (λ n next. IsKnown (linker_in runtime.old) n known) }
    ensures { runtime.new ≡ runtime.old }
{
    if known == before {
        return;
    }
    match &line.operation {
        Operation::Named(reference) => runtime.keep_selection(reference, &known),
        _ => {}
    }
}

impl Originals {
    /// Attempts the line at a place of a version, where it names something. Where it doesn't
    /// nothing is done. Nothing is done to the frame.
    pub fn attempt_named(
        &mut self,
        alloc: Global,
        runtime: &mut Runtime,
        frames: &Frames,
        version: usize,
        place: u16,
    ) -> Result<Outcome, NoMemory>
        requires ready { IsReady self.old version }
        requires known { AreNamesKnown self.old runtime.old }
        requires caller { IfNamed (line_at self.old.versions version place)
            (λ n next. HasLoadedCaller (linker_in runtime.old) n) }
        ensures answer { let w = runtime.old.world in let s = runtime.old.shared in
            IfNamed (line_at self.old.versions version place) (λ n next.
            Asks result (attempts w n s frames.now) frames.now) }
        ensures runtime { let w = runtime.old.world in let s = runtime.old.shared in
            IfNamed (line_at self.old.versions version place) (λ n next.
            Leaves result runtime.new (attempts w n s frames.now) frames.now runtime.old) }
        ensures enough { HaveOperands result frames.now }
        ensures known { OnOk result (AreNamesKnown self.new runtime.new) }
        ensures program { self.new.program ≡ self.old.program }
        ensures versions { self.new.versions ≡ self.old.versions }
        ensures kept { self.new.kept ≡ self.old.kept }
        ensures world { runtime.new.world ≡ runtime.old.world }
    {
        let Some(line) = line_there(&self.index, &self.versions, version, place) else {
            return Ok(Outcome::Abrupt(AbruptCompletion::Breaks));
        };
        if let Some(before) = self.cells.get(version, place) {
            let mut known = before;
            let done = attempt_line_known(runtime, line, frames, &mut known)?;
            self.cells.renew(alloc, version, place, before, known);
            keep_selected(runtime, line, before, known);
            return Ok(done);
        }
        let mut learnt = None;
        let outcome = attempt_line(runtime, line, frames, &mut learnt)?;
        self.cells.learn(alloc, version, place, learnt);
        Ok(outcome)
    }

    /// The same in two parts: where it loads classes nothing else is done, and None is the answer.
    pub fn attempt_loaded(
        &mut self,
        alloc: Global,
        runtime: &mut Runtime,
        frames: &Frames,
        version: usize,
        place: u16,
    ) -> Result<Option<Outcome>, NoMemory>
        requires ready { IsReady self.old version }
        requires known { AreNamesKnown self.old runtime.old }
        requires caller { IfNamed (line_at self.old.versions version place)
            (λ n next. HasLoadedCaller (linker_in runtime.old) n) }
        ensures some { let w = runtime.old.world in let s = runtime.old.shared in
            IfNamed (line_at self.old.versions version place) (λ n next.
            IfOk result (λ a. is_some a ≡ is_loaded w n s frames.now)) }
        ensures answer { let w = runtime.old.world in let s = runtime.old.shared in
            IfNamed (line_at self.old.versions version place) (λ n next. IfOk result (λ a.
            IfSome a (λ a. outcome_in_frame a frames.now
            ≡ outcome_by_rule (attempts w n s frames.now) frames.now))) }
        ensures runtime { let w = runtime.old.world in let s = runtime.old.shared in
            IfNamed (line_at self.old.versions version place) (λ n next. IfOk result (λ a.
            IfSome a (λ _. runtime.new
            ≡ after (done_on (attempts w n s frames.now) frames.now) runtime.old))) }
        ensures loads { let p = runtime.old.world.program in let s = runtime.old.shared in
            IfNamed (line_at self.old.versions version place) (λ n next. IfOk result
            (λ a. IfNone a (runtime.new ≡ with_loaded (loaded_for p n s frames.now) runtime.old))) }
        ensures enough { IfOk result (λ a. IfSome a
            (λ a. HasOperands a (top_operands frames.now.frames))) }
        ensures known { OnOk result (AreNamesKnown self.new runtime.new) }
        ensures program { self.new.program ≡ self.old.program }
        ensures versions { self.new.versions ≡ self.old.versions }
        ensures kept { self.new.kept ≡ self.old.kept }
        ensures world { runtime.new.world ≡ runtime.old.world }
    {
        let Some(line) = line_there(&self.index, &self.versions, version, place) else {
            return Ok(None);
        };
        if let Some(before) = self.cells.get(version, place) {
            let mut known = before;
            let done = attempt_line_known(runtime, line, frames, &mut known)?;
            self.cells.renew(alloc, version, place, before, known);
            keep_selected(runtime, line, before, known);
            return Ok(Some(done));
        }
        let mut learnt = None;
        let outcome = attempt_line_loaded(runtime, line, frames, &mut learnt)?;
        self.cells.learn(alloc, version, place, learnt);
        Ok(outcome)
    }
}
