//! Turns and steps of a session.

ghost use Rattle.std.specs.Prelude.{◌≡◌, ◌≢◌, ◌+◌, ◌-◌, ◌^◌, ◌<◌, ◌≤◌, true, false, MatchResult, if◌then◌else◌};
ghost use Rattle.jvm_machine.specs.declared.turn.Turn.TheVariants as Turn;
ghost use Rattle.jvm_machine.specs.View.{IsGoingOn, has_ended};
ghost use Rattle.profile_session.specs.Advances.{After, IsReady, Makes, RanFrom, Sliced, TurnedTo, ended_by};
ghost use Rattle.profile_session.specs.Parts.{IsBusy, IsSameRun, Rests};
ghost use Rattle.profile_session.specs.Standing.{next_step};
ghost use Rattle.profile_session.specs.Turned.{is_telling};

use crate::parts::Parts;
use jf_bytes::NoMemory;
use jvm_machine::Turn;

/// Whether there was memory, of a turn of a machine that was whole.
#[inline(always)]
fn is_telling(turn: &Turn) -> bool
    requires { turn.now ≢ Turn.Broken }
    ensures { result ≡ is_telling turn.now }
{
    match turn {
        Turn::Settled => true,
        Turn::Probe(_) => true,
        Turn::Loaded(_) => true,
        Turn::Ended => true,
        Turn::Broken => unreachable!(),
        Turn::NoMemory => false,
    }
}

/// What the last turn of a step says: whether the run has ended in it.
#[inline(always)]
fn ended_by(turn: &Turn) -> Option<bool>
    ensures { result ≡ ended_by turn.now }
{
    match turn {
        Turn::Settled => Some(false),
        Turn::Ended => Some(true),
        Turn::Probe(_) => None,
        Turn::Loaded(_) => None,
        Turn::Broken => None,
        Turn::NoMemory => None,
    }
}

impl Parts {
    /// The next turn of the step in hand, and what the session does behind it.
    #[inline(always)]
    fn turn(&mut self) -> Result<Turn, NoMemory>
        requires busy { IsBusy self.old }
        requires below { self.old.vm.clock < 2 ^ 63 }
        ensures { MatchResult result
            (λ turn. After self.old turn self.new)
            (λ e. IsSameRun self.old self.new) }
    {
        let turn = self.vm.step();
        if !is_telling(&turn) {
            return Err(NoMemory);
        }
        match self.hear(&turn) {
            Ok(()) => Ok(turn),
            Err(error) => Err(error),
        }
    }

    /// Steps that tell nothing, the turn behind them, and what the session does behind that; a step in hand is ended
    /// first.
    #[inline(always)]
    fn run(&mut self, most: u64) -> Result<Turn, NoMemory>
        requires ready { IsReady self.old }
        requires some { 0 < most }
        requires below { self.old.vm.clock + most < 2 ^ 63 }
        ensures { MatchResult result
            (λ turn. RanFrom self.old most turn self.new)
            (λ e. IsSameRun self.old self.new) }
    {
        let turn = self.vm.run_on(most);
        if !is_telling(&turn) {
            return Err(NoMemory);
        }
        match self.hear(&turn) {
            Ok(()) => Ok(turn),
            Err(error) => Err(error),
        }
    }

    /// Turns of the step in hand while nothing is selected and no path is open: the session may do something behind
    /// each. Says whether the run has ended where the step is done, and nothing where a path is open now.
    #[inline(never)]
    fn turn_while_idle(&mut self) -> Result<Option<bool>, NoMemory>
        requires busy { IsBusy self.old }
        requires below { self.old.vm.clock < 2 ^ 63 }
        ensures { MatchResult result
            (λ done. TurnedTo self.old done self.new)
            (λ e. IsSameRun self.old self.new) }
    {
        loop {
            if !self.is_idle() {
                return Ok(None);
            }
            let turn = self.turn()?;
            match ended_by(&turn) {
                Some(ended) => return Ok(Some(ended)),
                None => {}
            }
        }
    }

    /// The same, and quickly where something is selected or a path is open: there it does nothing.
    #[inline(always)]
    fn turn_if_idle(&mut self) -> Result<Option<bool>, NoMemory>
        requires busy { IsBusy self.old }
        requires below { self.old.vm.clock < 2 ^ 63 }
        ensures { MatchResult result
            (λ done. TurnedTo self.old done self.new)
            (λ e. IsSameRun self.old self.new) }
    {
        if !self.is_idle() {
            return Ok(None);
        }
        self.turn_while_idle()
    }

    /// One step or several, none behind the last one. Says whether the run has ended. The machine is called in one
    /// place, so that what it does becomes part of this loop.
    #[inline(always)]
    fn slice(&mut self, next: u64, last: u64) -> Result<bool, NoMemory>
        requires rests { Rests self.old }
        requires going { IsGoingOn self.old.vm }
        requires next { next ≡ next_step self.old.vm }
        requires some { next ≤ last }
        requires below { last < 2 ^ 62 }
        ensures { MatchResult result
            (λ ended. Sliced self.old (last + 1 - next) ended self.new)
            (λ e. IsSameRun self.old self.new) }
    {
        let mut most = last + 1 - next;
        loop {
            let turn = self.run(most)?;
            match ended_by(&turn) {
                Some(ended) => return Ok(ended),
                None => {}
            }
            match self.turn_if_idle()? {
                Some(ended) => return Ok(ended),
                None => {}
            }
            most = last + 1 - self.vm.clock();
        }
    }

    /// The number of the step that comes next: the start is step 0.
    fn next_number(&self) -> u64
        requires { self.now.vm.clock < 2 ^ 63 }
        ensures { let v = self.now.vm in
            result ≡ (if v.started then v.clock + 1 else 0) }
    {
        if self.vm.has_started() {
            self.vm.clock() + 1
        } else {
            0
        }
    }

    /// So many steps, or those up to the one in which the run ends; the first time the start too. Says whether the run
    /// has ended.
    pub fn make(&mut self, steps: u64) -> Result<bool, NoMemory>
        requires rests { Rests self.old }
        requires goes_on { has_ended self.old.vm ≡ false }
        requires below { self.old.vm.clock + steps < 2 ^ 62 }
        ensures { MatchResult result
            (λ ended. Makes self.old steps ended self.new)
            (λ e. IsSameRun self.old self.new) }
    {
        let last = self.vm.clock() + steps;
        let mut next = self.next_number();
        while next <= last {
            if self.slice(next, last)? {
                return Ok(true);
            }
            next = self.vm.clock() + 1;
        }
        Ok(false)
    }
}
