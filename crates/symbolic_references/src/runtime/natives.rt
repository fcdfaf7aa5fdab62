//! The native methods of the built-in classes (JVM Specification 2.11.8, 6.5): native_ops does them
//! by their numbers, and the frame goes on, or not, by what they answer.

ghost use Rattle.std.specs.Prelude.{◌≡◌, ◌≤◌, ◌<◌, ◌==◌, length, drop, slice_get, false, true};
ghost use Rattle.std.specs.Prelude.{IfOk, IsSome, OnOk};
ghost use Rattle.std.specs.Option.{option_map};
ghost use Rattle.base_classes.specs.Natives.{native_methods};
ghost use Rattle.base_classes.specs.declared.places.TheConstants.{ARRAYCOPY};
ghost use Rattle.frame_stack.specs.FrameLists.{top_operands};
ghost use Rattle.jvm_basic.specs.Outcomes.{top_locals};
ghost use Rattle.jvm_model.specs.Instructions.InvocationRules.{method_reference};
ghost use Rattle.jvm_model.specs.Instructions.NativeRules.{runs_native, runs_number, thrown_by};
ghost use Rattle.jvm_model.specs.Basis.Values.{as_value};
ghost use Rattle.native_ops.specs.Methods.Calls.{IsAnswer, is_done};
ghost use Rattle.symbolic_references.specs.NativeCalls.{native_answer, native_left, with_left};
ghost use Rattle.member_selection.specs.Members.{at_place};
ghost use Rattle.symbolic_references.specs.Passing.{IfPassed, runs_native_call};
ghost use Rattle.member_selection.specs.Targets.{as_datum, data_in};
ghost use Rattle.member_selection.specs.Outcomes.{Asks, HaveOperands, outcome_in_frame};
ghost use Rattle.symbolic_references.specs.Leaving.{Leaves};
ghost use Rattle.symbolic_references.specs.Rules.{on_arguments};
ghost use Rattle.member_selection.specs.Answers.{abrupt_view, frames_after, goes_on};
ghost use Rattle.symbolic_references.specs.Natives.{outcome_by};
ghost use Rattle.frame_stack.specs.FrameLists.{with_frames};

use crate::invoked::NativeCall;
use crate::runtime::Runtime;
use crate::runtime::creation::RESERVED;
use base_classes::{ARRAYCOPY, BUILT_IN_CLASSES, OUT_OF_MEMORY_ERROR};
use frame_stack::Frames;
use heap_objects::{Datum, Value};
use jf_bytes::{NoMemory, Seq};
use jvm_basic::{recall, value_of};
use jvm_model::Exception;
use jvm_natives::LinkedKinds;
use member_selection::{AbruptCompletion, DeclaredMember, Outcome, native_at, pass_by};
use native_effects::Native;
use native_ops::{Invocation, call};
use std::alloc::Global;

// ---- its arguments

/// The datum of an operand. A return address is no argument.
fn as_datum(value: Value) -> Datum
    ensures { result ≡ as_datum value }
{
    match value {
        Value::Int(n) => Datum::Int(n),
        Value::Long(n) => Datum::Long(n),
        Value::Ref(object) => Datum::Ref(object),
        Value::Addr(_) => Datum::Long(0),
    }
}

/// So many of the topmost operands, the deepest first.
fn arguments(alloc: Global, frames: &Frames, count: u16) -> Result<Seq<Datum>, NoMemory>
    requires { count ≤ length (top_operands frames.now.frames) }
    ensures { IfOk result (λ args. args ≡ data_in count (top_operands frames.now.frames)) }
{
    let mut args = Seq::with_capacity(alloc, count as usize)?;
    let mut left = count;
    while left > 0 {
        left -= 1;
        let Some(value) = frames.peek(left) else {
            unreachable!()
        };
        args.push(as_datum(value))?;
    }
    Ok(args)
}

// ---- what it answers

/// What is asked for where the exception of the built-in class at this place is thrown. The one of
/// a heap that is full was made before the start.
fn thrown_by(place: u16) -> AbruptCompletion
    ensures { abrupt_view result ≡ thrown_by place }
{
    if place == OUT_OF_MEMORY_ERROR {
        return AbruptCompletion::Throws(RESERVED);
    }
    if place < BUILT_IN_CLASSES {
        AbruptCompletion::Raises(Exception::BuiltIn(place), None)
    } else {
        AbruptCompletion::Breaks
    }
}

/// The operand of a datum, where there is one.
fn as_operand(value: Option<Datum>) -> Option<Value>
    ensures { result ≡ option_map as_value value }
{
    match value {
        Some(datum) => Some(value_of(datum)),
        None => None,
    }
}

/// What is asked for by an answer to so many arguments.
#[tactic(auto, using(crate::proofs::Carried::enough_operands))]
fn conclude(frames: &Frames, native: Native, count: u16) -> Result<Outcome, NoMemory>
    requires { count ≤ length (top_operands frames.now.frames) }
    ensures enough { HaveOperands result frames.now }
    ensures done { OnOk result (is_done native ≡ true) }
    ensures answer { let fs = frames.now.frames in IfOk result (λ a. outcome_in_frame a frames.now
        ≡ outcome_by native (top_locals fs) (drop count (top_operands fs))) }
{
    match native {
        Native::Value(value) => Ok(Outcome::Goes(count, as_operand(value))),
        Native::Throws(place) => Ok(Outcome::Abrupt(thrown_by(place))),
        Native::Exit(status) => Ok(Outcome::Abrupt(AbruptCompletion::Exits(status))),
        Native::Bad => Ok(Outcome::Abrupt(AbruptCompletion::Breaks)),
        Native::NoMemory => Err(NoMemory),
    }
}

// ---- a call that raises nothing

/// The frame goes on by an answer to so many arguments. False, with nothing of it changed, where it
/// doesn't.
#[tactic(auto, using(crate::proofs::Carried::enough_operands))]
fn pass_answer(frames: &mut Frames, native: Native, count: u16, next: u16) -> bool
    requires { count ≤ length (top_operands frames.old.frames) }
    ensures answer { let fs = frames.old.frames in result ≡ goes_on
        (outcome_by native (top_locals fs) (drop count (top_operands fs))) fs }
    ensures frames { let fs = frames.old.frames in frames.new ≡ with_frames (frames_after
        (outcome_by native (top_locals fs) (drop count (top_operands fs))) next fs) frames.old }
{
    match native {
        Native::Value(value) => pass_by(frames, Outcome::Goes(count, as_operand(value)), next),
        Native::Throws(_) => false,
        Native::Exit(_) => false,
        Native::Bad => false,
        Native::NoMemory => false,
    }
}

// ---- a native method

impl Runtime {
    /// What a native method answers to these arguments. What it leaves is left where memory was
    /// enough, and else nothing is changed.
    fn answer_native(&mut self, number: u16, args: &[Datum]) -> Native
        requires { IsSome (slice_get native_methods number) }
        ensures answer { IsAnswer result (native_answer self.old number args.now) }
        ensures runtime { self.new
            ≡ with_left (native_left self.old number args.now result) self.old }
        ensures world { self.new.world ≡ self.old.world }
        ensures same_loaded { self.new.shared.loaded ≡ self.old.shared.loaded }
    {
        let kinds = LinkedKinds {
            linker: &self.linker,
        };
        let invocation = Invocation {
            native: number,
            args,
            kinds: &kinds,
        };
        call(
            self.alloc,
            &invocation,
            &mut self.heap,
            &mut self.made,
            self.input.as_slice(),
            &mut self.read,
            &mut self.output,
        )
    }

    /// Does a native method on these arguments, which the topmost operands are. False, with nothing
    /// changed, where the frame does not go on.
    fn pass_with(
        &mut self,
        frames: &mut Frames,
        native: NativeCall,
        args: &[Datum],
        next: u16,
    ) -> bool
        requires stands { IsSome (slice_get native_methods native.number) }
        requires within { native.count ≤ length (top_operands frames.old.frames) }
        requires some { 0 < native.count }
        requires other { (native.number == ARRAYCOPY) ≡ false }
        requires args { args.now ≡ data_in native.count (top_operands frames.old.frames) }
        ensures passed { let fs = frames.old.frames in
            let d = runs_native_call self.old.world native self.old.shared fs in
            IfPassed result d next frames.old self.old frames.new self.new }
        ensures world { self.new.world ≡ self.old.world }
        ensures same_loaded { self.new.shared.loaded ≡ self.old.shared.loaded }
    {
        recall(frames);
        let native_answer = self.answer_native(native.number, args);
        pass_answer(frames, native_answer, native.count, next)
    }

    /// Does a native method, where it raises nothing. False, with nothing changed, where anything
    /// but that the frame goes on would come. System.arraycopy stores values up to the first that
    /// may not stand there, and then throws.
    pub fn pass_native(&mut self, frames: &mut Frames, native: NativeCall, next: u16) -> bool
        requires stands { IsSome (slice_get native_methods native.number) }
        requires within { native.count ≤ length (top_operands frames.old.frames) }
        ensures passed { let fs = frames.old.frames in
            let d = runs_native_call self.old.world native self.old.shared fs in
            IfPassed result d next frames.old self.old frames.new self.new }
        ensures world { self.new.world ≡ self.old.world }
        ensures same_loaded { self.new.shared.loaded ≡ self.old.shared.loaded }
    {
        if native.count == 0 || native.number == ARRAYCOPY {
            return false;
        }
        if native.count == 1 {
            let Some(value) = frames.peek(0) else {
                unreachable!()
            };
            let args = [as_datum(value)];
            return self.pass_with(frames, native, &args, next);
        }
        if native.count == 2 {
            let Some(first) = frames.peek(1) else {
                unreachable!()
            };
            let Some(second) = frames.peek(0) else {
                unreachable!()
            };
            let args = [as_datum(first), as_datum(second)];
            return self.pass_with(frames, native, &args, next);
        }
        let Ok(args) = arguments(self.alloc, frames, native.count) else {
            return false;
        };
        self.pass_with(frames, native, args.as_slice(), next)
    }

    /// Does the native method of this number, with so many operands as its arguments.
    pub fn run_numbered(
        &mut self,
        frames: &Frames,
        number: u16,
        count: u16,
    ) -> Result<Outcome, NoMemory>
        requires stands { IsSome (slice_get native_methods number) }
        requires within { count ≤ length (top_operands frames.now.frames) }
        ensures answer { Asks result
            (on_arguments count (runs_number self.old.world number) self.old.shared) frames.now }
        ensures runtime { Leaves result self.new
            (on_arguments count (runs_number self.old.world number) self.old.shared)
            frames.now self.old }
        ensures world { self.new.world ≡ self.old.world }
        ensures same_loaded { self.new.shared.loaded ≡ self.old.shared.loaded }
        ensures enough { HaveOperands result frames.now }
    {
        let args = arguments(self.alloc, frames, count)?;
        let native = self.answer_native(number, args.as_slice());
        conclude(frames, native, count)
    }

    /// Does a native method of a built-in class, with so many operands as its arguments.
    pub fn run_native(
        &mut self,
        frames: &Frames,
        m: DeclaredMember,
        count: u16,
    ) -> Result<Outcome, NoMemory>
        requires within { count ≤ length (top_operands frames.now.frames) }
        ensures answer { let w = self.old.world in let r = method_reference w.program (at_place m) in
            Asks result (on_arguments count (runs_native w r) self.old.shared) frames.now }
        ensures runtime { let w = self.old.world in let r = method_reference w.program (at_place m) in
            Leaves result self.new (on_arguments count (runs_native w r) self.old.shared)
            frames.now self.old }
        ensures world { self.new.world ≡ self.old.world }
        ensures same_loaded { self.new.shared.loaded ≡ self.old.shared.loaded }
        ensures enough { HaveOperands result frames.now }
    {
        match native_at(self.linker.program(), m) {
            Some(number) => self.run_numbered(frames, number, count),
            None => Ok(Outcome::Abrupt(AbruptCompletion::Breaks)),
        }
    }
}
