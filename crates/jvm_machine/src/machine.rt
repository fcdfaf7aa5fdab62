//! The machine: one turn a call.

ghost use Rattle.std.specs.Prelude.{◌≡◌, ◌+◌, ◌^◌, ◌<◌, ◌≤◌, ◌&&◌, true, false, None, length};
ghost use Rattle.std.specs.Prelude.{OnErr, IfNone, IfOk, IfSome, OnOk};
ghost use Rattle.jvm_model.specs.Running.Applies.{live_in};
ghost use Rattle.jvm_model.specs.Turns.Pauses.{told_at};
ghost use Rattle.jvm_model.specs.Codes.ProgramPlaces.{HasClosedCodes};
ghost use Rattle.jvm_model.specs.Soundness.Sound.{IsFit};
ghost use Rattle.interpreter.specs.Machine.Before.{CanStart};
ghost use Rattle.prepared_code.specs.Prepared.{FitsOriginals};
ghost use Rattle.prepared_code.specs.Runs.{IsAtInstruction};
ghost use Rattle.jvm_machine.specs.declared.advancing.Telling.TheVariants as telling;
ghost use Rattle.jvm_machine.specs.Advances.{Advances, Stops, broken_in};
ghost use Rattle.jvm_machine.specs.Installs.{IsFormed, IsImageOf, with_class};
ghost use Rattle.jvm_machine.specs.Probes.{IfLeaves};
ghost use Rattle.jvm_machine.specs.Turns.{Turns, turn_by};
ghost use Rattle.jvm_machine.specs.Several.{EndsBehind, EndsUpTo, PassesUpTo};
ghost use Rattle.jvm_machine.specs.Several.{RunsOn, TurnsBehind, is_settled};
ghost use Rattle.jvm_machine.specs.View.{IsGoingOn, has_ended, is_resting, machine_made, run_state};

use crate::advancing::{
    Advance, Onward, Telling, clock_in, hand_left, hand_now, loaded_since, take_up,
};
use crate::telling::event_told;
use crate::turn::Turn;
use class_index::Index;
use class_linker::Linker;
use code_model::Homes;
use const_pool::ClassFile;
use interpreter::{Hand, go, go_quickly, parts_before, pass_steps};
use jf_bytes::{NoMemory, Seq, Stack};
use jvm_model::{Due, Ending, Event, Mark, Program};
use prepared_code::{Initialization, Originals, Parts};
use std::alloc::Global;
use std::marker::Model;
use std::rc::Rc;

/// A machine that runs versions of a program's methods. A clause sees the program, how far it has
/// come, what of the step in hand is behind it, and the marks of the versions in which methods
/// begin and of those that are live.
#[derive(Drop)]
pub struct Vm {
    alloc: Global,
    originals: Originals,
    parts: Parts,
    initializing: Stack<Initialization>,
    started: bool,
    broken: bool,
    clock: u64,
    hand: Hand,
}

impl Model for Vm {
    ghost use Rattle.prepared_code.specs.Initializations.{state_of};
    ghost use Rattle.prepared_code.specs.Originals.{setup_in};
    ghost use Rattle.jvm_machine.specs.Machine.{Keeps, state_viewed};
    ghost use Rattle.jvm_machine.specs.View.{View};

    ghost Value = { View };

    ghost view = { λ v. state_viewed (setup_in v.parts.runtime v.originals)
        (state_of v.initializing v.parts) v.started v.broken v.clock v.hand };

    ghost invariant = { λ v. Keeps v.originals v.parts.runtime v.hand v.started
        v.broken v.clock (state_of v.initializing v.parts) };
}

/// Whether a turn says no more than that a step is done.
#[inline(always)]
fn is_settled(turn: &Turn) -> bool
    ensures { result ≡ is_settled turn.now }
{
    matches!(turn, Turn::Settled)
}

/// Whether the run goes on, nothing is thrown, and no initialization stands on the current frame.
#[tactic(auto, unfolding(prepared_code::specs::Initializations::initialization_on))]
#[inline(always)]
fn is_at_instruction(parts: &Parts, initializing: &Stack<Initialization>) -> bool
    ensures { result ≡ true
        → IsAtInstruction (length parts.now.frames.frames) initializing.now parts.now }
{
    if parts.ending.is_some() || parts.thrown.is_some() {
        return false;
    }
    match initializing.peek(0) {
        Some(initialization) => parts.frames.depth() > initialization.depth,
        None => true,
    }
}

impl Vm {
    /// A machine that will run the program from its main method, in original code at first. It
    /// looks up every offset of every code once.
    pub fn new(alloc: Global, program: Program, input: Vec<u8>) -> Result<Vm, NoMemory>
        requires fits { FitsOriginals program }
        requires fit { IsFit program }
        requires closed { HasClosedCodes program }
        requires starts { CanStart program }
        ensures { IfOk result (λ vm. vm ≡ machine_made program input.items) }
    {
        let index = Index::new(alloc, program)?;
        let shared = Rc::new(alloc, index)?;
        let originals = Originals::new(alloc, shared)?;
        let parts = parts_before(alloc, &originals, Seq::from_vec(input))?;
        Ok(Vm {
            alloc,
            originals,
            parts,
            initializing: Stack::new(alloc),
            started: false,
            broken: false,
            clock: 0,
            hand: Hand {
                moves: false,
                delivered: false,
                passed: 0,
            },
        })
    }

    /// Whether there is no step in hand.
    #[inline(always)]
    pub fn is_resting(&self) -> bool
        ensures { result ≡ is_resting self.now }
    {
        self.hand.passed == 0 && !self.hand.delivered
    }

    /// Goes on to what is told next of the step, or to its end.
    #[inline(always)]
    fn advance(&mut self) -> Result<Telling, NoMemory>
        requires whole { self.old.broken ≡ false }
        requires going { IsGoingOn self.old }
        requires below { self.old.clock < 2 ^ 63 }
        ensures ok { IfOk result (λ telling. Advances self.old telling self.new) }
        ensures leaves { IfOk result (λ telling. IfLeaves telling self.new) }
        ensures held { self.new.stale ≡ false }
        ensures whole { OnOk result (self.new.broken ≡ false) }
        ensures err { OnErr result (self.new ≡ broken_in self.old self.new) }
    {
        let started = self.started;
        let resting = self.is_resting();
        self.broken = true;
        self.clock = clock_in(resting, started, self.clock);
        self.started = true;
        let taken = take_up(
            self.alloc,
            &mut self.originals,
            &mut self.parts,
            &mut self.initializing,
            resting,
            started,
            self.hand,
        )?;
        self.hand = taken.hand;
        if !taken.loads.is_empty() {
            self.broken = false;
            return Ok(Telling::Classes(taken.loads));
        }
        let count = self.parts.runtime.linker().loaded().len();
        let gone = go(
            self.alloc,
            &mut self.originals,
            &mut self.parts,
            &mut self.initializing,
            self.hand,
        )?;
        let Some(gone) = gone else {
            let classes = loaded_since(self.alloc, self.parts.runtime.linker(), count)?;
            self.hand.passed = 1;
            self.broken = false;
            return Ok(Telling::Classes(classes));
        };
        self.originals.release(&self.parts.frames);
        self.hand = hand_left(gone);
        self.broken = false;
        Ok(Telling::Due(gone.due))
    }

    /// The same where that is quickly done and takes no memory. None, with nothing changed, where
    /// it is not.
    #[inline(always)]
    fn advance_quickly(&mut self) -> Option<Due>
        requires below { self.old.clock < 2 ^ 63 }
        ensures stops { IfSome result (λ due. Stops self.old due self.new) }
        ensures leaves { IfSome result (λ due. IfLeaves (telling.Due due) self.new) }
        ensures going { IfSome result (λ due. IsGoingOn self.old) }
        ensures whole { IfSome result (λ due. self.old.broken ≡ false) }
        ensures after { IfSome result (λ due. self.new.broken ≡ false) }
        ensures none { IfNone result (self.new ≡ self.old) }
        ensures held { self.new.stale ≡ false }
    {
        if self.broken || !self.started || !is_at_instruction(&self.parts, &self.initializing) {
            return None;
        }
        let resting = self.is_resting();
        let hand = hand_now(resting, self.hand);
        let gone = go_quickly(&self.originals, &mut self.parts, &self.initializing, hand);
        let Some(gone) = gone else {
            return None;
        };
        self.clock = clock_in(resting, true, self.clock);
        self.hand = hand_left(gone);
        Some(gone.due)
    }

    /// Whether there is no step in hand, and the run has ended.
    #[inline(always)]
    fn is_over(&self) -> bool
        ensures { self.now.broken ≡ false → result ≡ (is_resting self.now && has_ended self.now) }
    {
        self.is_resting() && self.parts.ending.is_some()
    }

    /// The event of which the probe has told that the current frame stands behind.
    #[inline(always)]
    fn event(&self, due: Due) -> Option<Event>
        ensures { result ≡ told_at due self.now.clock self.now.live }
    {
        event_told(
            self.clock,
            due,
            &self.originals,
            &self.parts,
            &self.initializing,
        )
    }

    /// What this tells: an event, or that the step is done.
    #[inline(always)]
    fn turn(&self, due: Due) -> Turn
        requires whole { self.now.broken ≡ false }
        requires rests { told_at due self.now.clock self.now.live ≡ None
            → is_resting self.now ≡ true }
        ensures { let event = told_at due self.now.clock self.now.live in
            result ≡ turn_by event (has_ended self.now) }
    {
        match self.event(due) {
            Some(event) => Turn::Probe(event),
            None if self.is_over() => Turn::Ended,
            None => Turn::Settled,
        }
    }

    /// One turn, however long it takes. It is a call of its own, so that a turn that is quickly
    /// done stays small.
    #[inline(never)]
    fn step_fully(&mut self) -> Turn
        requires { self.old.clock < 2 ^ 63 }
        ensures turns { Turns self.old result self.new }
        ensures held { self.new.stale ≡ false }
    {
        if self.broken {
            return Turn::Broken;
        }
        if self.is_over() {
            return Turn::Ended;
        }
        match self.advance() {
            Ok(Telling::Classes(classes)) => Turn::Loaded(classes),
            Ok(Telling::Due(due)) => self.turn(due),
            Err(_) => Turn::NoMemory,
        }
    }

    /// Goes on with the step in hand, or begins the next one, the start first: one turn. Where it
    /// loads classes these are told first. Each probe that a frame executes tells its event in a
    /// turn of its own, an entry probe behind the instruction, the others before the activation
    /// ends; then comes Settled, or Ended, exactly where the run has ended. After want of memory
    /// the machine is broken, and does no more.
    #[inline(always)]
    pub fn step(&mut self) -> Turn
        requires { self.old.clock < 2 ^ 63 }
        ensures turns { Turns self.old result self.new }
        // No version is held but those in which methods begin and those that live activations run.
        ensures held { self.new.stale ≡ false }
    {
        match self.advance_quickly() {
            Some(due) => self.turn(due),
            None => self.step_fully(),
        }
    }

    /// Makes steps from which nothing follows, at most so many. Where the next one is within them,
    /// and a probe tells of it, it goes on to there.
    #[inline(always)]
    fn pass_onward(&mut self, most: u64) -> Advance
        requires resting { is_resting self.old ≡ true }
        requires below { self.old.clock + most < 2 ^ 63 }
        ensures passes { PassesUpTo self.old result.made result.due self.new }
        ensures within { result.made ≤ most }
    {
        if self.broken || !self.started || !is_at_instruction(&self.parts, &self.initializing) {
            return Advance { made: 0, due: None };
        }
        let passed = pass_steps(&self.originals, &mut self.parts, &self.initializing, most);
        self.clock += passed.made;
        let Some(gone) = passed.gone else {
            return Advance {
                made: passed.made,
                due: None,
            };
        };
        self.clock += 1;
        self.hand = hand_left(gone);
        Advance {
            made: passed.made,
            due: Some(gone.due),
        }
    }

    /// The same, and one turn more: what is due, or else a whole one.
    #[inline(always)]
    fn go_onward(&mut self, most: u64) -> Onward
        requires resting { is_resting self.old ≡ true }
        requires below { self.old.clock + most < 2 ^ 63 }
        ensures turns { TurnsBehind self.old result.made result.turn self.new }
        ensures within { result.made ≤ most }
    {
        let passed = self.pass_onward(most);
        match passed.due {
            Some(due) => Onward {
                made: passed.made,
                turn: self.turn(due),
            },
            None => Onward {
                made: passed.made,
                turn: self.step_fully(),
            },
        }
    }

    /// Makes steps from a state of rest, at most so many, while they tell nothing; the answer is
    /// the turn of the last one. It is a call of its own, so that `run_on`, which has it three
    /// times, stays small enough to be inlined.
    #[inline(never)]
    fn run_rested(&mut self, most: u64) -> Turn
        requires some { 0 < most }
        requires below { self.old.clock + most < 2 ^ 63 }
        requires resting { is_resting self.old ≡ true }
        ensures { RunsOn self.old most result self.new }
    {
        let mut made = 0;
        loop {
            let onward = self.go_onward(most - made - 1);
            made += onward.made + 1;
            if !is_settled(&onward.turn) {
                return onward.turn;
            }
            if made == most {
                return onward.turn;
            }
        }
    }

    /// Ends the step in hand, where that is quickly done, and makes steps as `pass_onward` does, so
    /// many with the step in hand and a last one. None, with nothing changed, where it is not, or
    /// they are too few.
    #[inline(always)]
    fn pass_behind(&mut self, most: u64) -> Option<Advance>
        requires in_hand { is_resting self.old ≡ false }
        requires below { self.old.clock + most < 2 ^ 63 }
        ensures passes { IfSome result (λ p. EndsUpTo self.old p.made p.due self.new) }
        ensures within { IfSome result (λ p. p.made + 2 ≤ most) }
        ensures none { IfNone result (self.new ≡ self.old) }
    {
        if most < 2 || self.broken || !self.started {
            return None;
        }
        if !is_at_instruction(&self.parts, &self.initializing) {
            return None;
        }
        let hand = self.hand;
        let gone = go_quickly(&self.originals, &mut self.parts, &self.initializing, hand);
        let Some(gone) = gone else {
            return None;
        };
        let behind = pass_steps(
            &self.originals,
            &mut self.parts,
            &self.initializing,
            most - 2,
        );
        self.clock += behind.made;
        let Some(next) = behind.gone else {
            self.hand = hand_left(gone);
            return Some(Advance {
                made: behind.made,
                due: None,
            });
        };
        self.clock += 1;
        self.hand = hand_left(next);
        Some(Advance {
            made: behind.made,
            due: Some(next.due),
        })
    }

    /// The same, and one turn more: what is due, or else a whole one.
    #[inline(always)]
    fn go_behind(&mut self, most: u64) -> Option<Onward>
        requires in_hand { is_resting self.old ≡ false }
        requires below { self.old.clock + most < 2 ^ 63 }
        ensures turns { IfSome result (λ o. EndsBehind self.old o.made o.turn self.new) }
        ensures within { IfSome result (λ o. o.made + 2 ≤ most) }
        ensures none { IfNone result (self.new ≡ self.old) }
    {
        let Some(passed) = self.pass_behind(most) else {
            return None;
        };
        match passed.due {
            Some(due) => Some(Onward {
                made: passed.made,
                turn: self.turn(due),
            }),
            None => Some(Onward {
                made: passed.made,
                turn: self.step_fully(),
            }),
        }
    }

    /// `run_on` where a step is in hand, by a whole turn of it. It is a call of its own, so that
    /// what is quickly done stays small.
    #[inline(never)]
    fn run_fully(&mut self, most: u64) -> Turn
        requires some { 0 < most }
        requires below { self.old.clock + most < 2 ^ 63 }
        ensures { RunsOn self.old most result self.new }
    {
        let turn = self.step_fully();
        if !is_settled(&turn) {
            return turn;
        }
        if most == 1 {
            return turn;
        }
        self.run_rested(most - 1)
    }

    /// Ends the step in hand, if there is one, and makes steps, with it at most so many, while they
    /// tell nothing; the answer is the turn of the last one.
    #[inline(always)]
    pub fn run_on(&mut self, most: u64) -> Turn
        requires some { 0 < most }
        requires below { self.old.clock + most < 2 ^ 63 }
        ensures { RunsOn self.old most result self.new }
    {
        if self.is_resting() {
            return self.run_rested(most);
        }
        let Some(onward) = self.go_behind(most) else {
            return self.run_fully(most);
        };
        if !is_settled(&onward.turn) {
            return onward.turn;
        }
        let made = onward.made + 2;
        if made == most {
            return onward.turn;
        }
        self.run_rested(most - made)
    }

    /// Makes the versions of an image current: the methods of the class begin in them from now on, also within a step
    /// in hand. Live activations stay in theirs. It takes all memory first: after want of memory nothing has changed.
    /// For each method of the class `marks` says which probes the image has in it, and `homes` where its original
    /// instructions stand there, or None for one that has its original code. The marks are for clauses alone: they are
    /// not looked at when it runs.
    pub fn install(
        &mut self,
        class: u32,
        image: ClassFile,
        marks: &[Mark],
        homes: &[Option<Homes>],
    ) -> Result<(), NoMemory>
        requires whole { self.old.broken ≡ false }
        requires formed { IsFormed self.old.program }
        requires image { IsImageOf self.old.program class marks.now image homes.now }
        requires pool { length image.pool < 2 ^ 16 }
        ensures ok { OnOk result (self.new ≡ with_class class marks.now self.old) }
        ensures err { OnErr result (self.new ≡ self.old) }
    {
        let numbers = self.parts.runtime.numbers();
        let frames = &self.parts.frames;
        self.originals
            .install(self.alloc, numbers, class, &image, homes, frames)
    }

    /// Whether the start was made.
    pub fn has_started(&self) -> bool
        ensures { result ≡ self.now.started }
    {
        self.started
    }

    /// The number of steps that were begun after the start.
    pub fn clock(&self) -> u64
        ensures { result ≡ self.now.clock }
    {
        self.clock
    }

    /// The program that it runs, as it was given.
    pub fn program(&self) -> &Program
        ensures { result.now ≡ self.now.program }
    {
        self.parts.runtime.program()
    }

    /// What links its classes: it has loaded those that the run has loaded, the step in hand
    /// included.
    pub fn linker(&self) -> &Linker
        ensures program { result.now.program ≡ self.now.program }
        ensures loaded { self.now.broken ≡ false
            → result.now.loaded ≡ (run_state self.now).shared.loaded }
    {
        self.parts.runtime.linker()
    }

    /// What the program has written, where no step is in hand.
    pub fn output(&self) -> &[u8]
        ensures { self.now.broken ≡ false → is_resting self.now ≡ true
            → result.now ≡ (run_state self.now).output }
    {
        self.parts.runtime.output()
    }

    /// How the run has ended, if it has, where no step is in hand.
    pub fn ending(&self) -> Option<Ending>
        ensures { self.now.broken ≡ false → is_resting self.now ≡ true
            → result ≡ (run_state self.now).ending }
    {
        self.parts.ending
    }

    /// The number of live activations, with that of which a probe has told that it ends.
    pub fn live(&self) -> u32
        ensures live { result ≡ length self.now.live }
        ensures rests { self.now.broken ≡ false → is_resting self.now ≡ true
            → result ≡ live_in (run_state self.now).stack }
    {
        self.parts.frames.depth()
    }
}
