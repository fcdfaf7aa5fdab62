//! The session.

ghost use Rattle.std.specs.Prelude.{◌≡◌, ◌+◌, ◌≤◌, true, false, IfOk, IfErr, OnOk};
ghost use Rattle.jvm_machine.specs.View.{machine_made};
ghost use Rattle.profile_session.specs.Answers.{Accepts, Advances, Gathers, LendsNoTree};
ghost use Rattle.profile_session.specs.Answers.{RefusesAct, RefusesTree, refusal_of, run_by};
ghost use Rattle.profile_session.specs.Beginning.{CanBeProfiled};
ghost use Rattle.profile_session.specs.Sessions.{AreSwapsOf, CanActNow, IsQuiet, IsTreeOf, ending_in};
ghost use Rattle.profile_session.specs.Sessions.{entries_of, is_over, is_selected_in};
ghost use Rattle.profile_session.specs.Sessions.{mark_in_session, profiling_of, run_of, standing_of, swaps_of};
ghost use Rattle.jvm_model.specs.declared.event.Mark.TheVariants as Mark;

use crate::answer::{ActError, Run, Shown};
use crate::beginning::begin;
use crate::parts::Parts;
use crate::swap::Swap;
use jf_bytes::NoMemory;
use jvm_machine::Vm;
use jvm_model::{Act, Ending, Mark, Program};
use std::alloc::Global;
use std::marker::Model;

/// A program that is run and profiled. A clause sees its program and input, the accepted actions with their moments,
/// whether it was advanced, and the number of steps: the state of the run, what is marked, the swap list and the tree
/// follow from these, since its machine stands for the run. It sees too whether the tree was gathered behind the last
/// of its steps and actions, the live activations of the machine, each with the mark of the version that it runs, and
/// whether a version is held needlessly.
#[derive(Drop)]
pub struct Session {
    parts: Parts,
    broken: bool,
    gathered: bool,
}

impl Model for Session {
    ghost use Rattle.std.specs.Prelude.{◌≡◌, false};
    ghost use Rattle.profile_session.specs.Sessions.{Holds, Profiling, profiling_in};

    ghost Value = { Profiling };

    ghost view = { λ s. profiling_in s.broken s.gathered s.parts };

    ghost invariant = { λ s. s.broken ≡ false → Holds s.gathered s.parts };
}

/// Why a method that is selected, or is not, is refused.
fn refusal(select: bool, selected: bool) -> Option<ActError>
    ensures { result ≡ refusal_of select selected }
{
    match (select, selected) {
        (true, true) => Some(ActError::AlreadySelected),
        (false, false) => Some(ActError::NotSelected),
        _ => None,
    }
}

/// What an advance has come to.
fn run_by(ended: bool) -> Run
    ensures { result ≡ run_by ended }
{
    if ended { Run::Ended } else { Run::Still }
}

impl Session {
    /// A session on a machine that was just made: no step was made, no image installed. After an Err the machine is
    /// given up.
    pub fn new(alloc: Global, vm: Box<Vm>) -> Result<Session, NoMemory>
        requires fresh { vm.value ≡ machine_made vm.value.program vm.value.input }
        requires profilable { CanBeProfiled vm.value.program }
        ensures { IfOk result (λ session. session
            ≡ profiling_of vm.value.program vm.value.input) }
    {
        let parts = begin(alloc, vm)?;
        Ok(Session {
            parts,
            broken: false,
            gathered: false,
        })
    }

    /// The program that it runs.
    pub fn program(&self) -> &Program
        ensures { result.now ≡ self.now.program }
    {
        self.parts.vm.program()
    }

    /// How many steps were made after the start.
    pub fn clock(&self) -> u64
        ensures clock { result ≡ self.now.clock }
        ensures before_the_run { self.now.broken ≡ false → self.now.started ≡ false → result ≡ 0 }
    {
        // Read so that the invariant is known, which says of a session that is not broken what its parts are.
        let _whole = self.broken;
        self.parts.vm.clock()
    }

    /// How the run has ended. Before the first advance it has not.
    pub fn ending(&self) -> Option<Ending>
        ensures { self.now.broken ≡ false → result ≡ ending_in self.now }
    {
        // Read so that the invariant is known, which says of a session that is not broken what its parts are.
        let _whole = self.broken;
        self.parts.vm.ending()
    }

    /// What the program has written. Before the first advance it is empty.
    pub fn output(&self) -> &[u8]
        ensures { self.now.broken ≡ false → result.now ≡ (run_of self.now).output }
    {
        // Read so that the invariant is known, which says of a session that is not broken what its parts are.
        let _whole = self.broken;
        self.parts.vm.output()
    }

    /// The swaps so far, in order, each with the bytes of its image.
    pub fn swaps(&self) -> &[Swap]
        ensures list { self.now.broken ≡ false → result.now ≡ swaps_of self.now }
        ensures entries { self.now.broken ≡ false
            → AreSwapsOf self.now.program (entries_of self.now) result.now }
    {
        // Read so that the invariant is known, which says of a session that is not broken what its parts are.
        let _whole = self.broken;
        self.parts.swaps.as_slice()
    }

    /// The mark of a method at the last point so far. Of a method whose class is not loaded it is Off, and of each
    /// where that point was quiet: behind it all methods begin in their originals.
    pub fn mark(&self, method: u32) -> Mark
        ensures last { self.now.broken ≡ false → result ≡ mark_in_session self.now method }
        ensures quiet { self.now.broken ≡ false → IsQuiet (standing_of self.now)
            → result ≡ Mark.Off }
    {
        // Read so that the invariant is known, which says of a session that is not broken what its parts are.
        let _whole = self.broken;
        self.parts.reveal.mark(self.parts.vm.program(), method)
    }

    /// Whether the run has ended.
    fn is_over(&self) -> bool
        ensures { self.now.broken ≡ false → result ≡ is_over self.now }
    {
        self.ending().is_some()
    }

    /// Whether a method is selected.
    fn is_selected(&self, method: u32) -> bool
        ensures { self.now.broken ≡ false → result ≡ is_selected_in self.now method }
    {
        // Read so that the invariant is known, which says of a session that is not broken what its parts are.
        let _whole = self.broken;
        self.parts.reveal.is_selected(method)
    }

    /// Makes so many steps, or those up to the one in which the run ends. The first advance makes the start too, also
    /// with no steps. What is live runs on in the version in which it began, whatever is swapped on the way.
    pub fn advance(&mut self, steps: u64) -> Run
        requires { self.old.broken ≡ false → self.old.clock + steps ≤ 1000000000000 }
        ensures advances { Advances self.old steps result self.new }
        // No version is held but those in which methods begin and those that live activations run.
        ensures held { self.new.stale ≡ false }
    {
        if self.broken {
            return Run::Broken;
        }
        if self.is_over() {
            return Run::Ended;
        }
        self.broken = true;
        let Ok(ended) = self.parts.make(steps) else {
            return Run::NoMemory;
        };
        self.broken = false;
        self.gathered = false;
        run_by(ended)
    }

    /// Selects or deselects a method, now.
    fn act(&mut self, select: bool, method: u32) -> Result<(), ActError>
        requires { CanActNow self.old }
        ensures ok { OnOk result (Accepts self.old select method self.new) }
        ensures err { IfErr result (λ e. RefusesAct self.old select method e self.new) }
        ensures held { self.new.stale ≡ false }
    {
        if self.broken {
            return Err(ActError::Broken);
        }
        if self.is_over() {
            return Err(ActError::Ended);
        }
        if let Some(error) = refusal(select, self.is_selected(method)) {
            return Err(error);
        }
        let moment = self.parts.vm.clock();
        self.broken = true;
        let Ok(()) = self.parts.act(Act {
            moment,
            select,
            method,
        })
        else {
            return Err(ActError::NoMemory);
        };
        self.broken = false;
        self.gathered = false;
        Ok(())
    }

    /// Selects a method: the activations that begin in it from now on are roots. Before the first advance the action
    /// has moment 0. The method is said by its number in `Program::methods`. A number that no method has is accepted
    /// too: it marks nothing, and takes memory for each number up to it.
    pub fn select(&mut self, method: u32) -> Result<(), ActError>
        requires { CanActNow self.old }
        ensures ok { OnOk result (Accepts self.old true method self.new) }
        ensures err { IfErr result (λ e. RefusesAct self.old true method e self.new) }
        // No version is held but those in which methods begin and those that live activations run.
        ensures held { self.new.stale ≡ false }
    {
        self.act(true, method)
    }

    /// Deselects a method, by its number in `Program::methods`: what begins in it from now on is no root. Its live
    /// activations stay roots. A number that no method has is accepted where it was selected.
    pub fn deselect(&mut self, method: u32) -> Result<(), ActError>
        requires { CanActNow self.old }
        ensures ok { OnOk result (Accepts self.old false method self.new) }
        ensures err { IfErr result (λ e. RefusesAct self.old false method e self.new) }
        // No version is held but those in which methods begin and those that live activations run.
        ensures held { self.new.stale ≡ false }
    {
        self.act(false, method)
    }

    /// Brings the tree to the clock: it takes the events that are held back, and the steps since.
    pub fn gather(&mut self) -> Result<(), ActError>
        ensures ok { OnOk result (Gathers self.old self.new) }
        ensures err { IfErr result (λ e. RefusesTree self.old e self.new) }
        ensures held { self.new.stale ≡ false }
    {
        if self.broken {
            return Err(ActError::Broken);
        }
        self.broken = true;
        let Ok(()) = self.parts.bring() else {
            return Err(ActError::NoMemory);
        };
        self.broken = false;
        self.gathered = true;
        Ok(())
    }

    /// Lends the tree that was gathered, beside the program.
    pub fn shown(&self) -> Shown<'_>
        requires whole { self.now.broken ≡ false }
        requires gathered { self.now.gathered ≡ true }
        ensures tree { IsTreeOf self.now result.tree.now }
        ensures program { result.program.now ≡ self.now.program }
    {
        // Read so that the invariant is known, which says of a gathered tree that it is that of the run.
        let _gathered = self.gathered;
        Shown {
            tree: &self.parts.tree,
            program: self.parts.vm.program(),
        }
    }

    /// Gathers the tree and lends it, beside the program. What the session is behind it no clause can say, since it is
    /// lent: who goes on with it gathers, and then has it shown.
    pub fn tree(&mut self) -> Result<Shown<'_>, ActError>
        ensures tree { IfOk result (λ shown. IsTreeOf self.old shown.tree.now) }
        ensures program { IfOk result (λ shown. shown.program.now ≡ self.old.program) }
        ensures err { IfErr result (LendsNoTree self.old) }
    {
        match self.gather() {
            Ok(()) => Ok(self.shown()),
            Err(error) => Err(error),
        }
    }
}
