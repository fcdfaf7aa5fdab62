//! The parts of a session that move, and what it does behind each turn.

ghost use Rattle.std.specs.Prelude.{◌≡◌, length, true, IfOk, MatchResult};
ghost use Rattle.jvm_model.specs.Profiling.Points.{has_class};
ghost use Rattle.jvm_model.specs.Profiling.Revealed.{with_loaded, with_method_entered, with_none_entered};
ghost use Rattle.jvm_machine.specs.declared.turn.Turn.TheVariants as Turn;
ghost use Rattle.possible_callees.specs.Tables.{IsPrefix};
ghost use Rattle.context_tree.specs.Counts.{opens};
ghost use Rattle.profile_session.specs.Keeping.{is_idle};
ghost use Rattle.profile_session.specs.Parts.{AreFit, AreLoadable, AreShown, CanLoad, Drains, Hears, IsHearable};
ghost use Rattle.profile_session.specs.Parts.{IsSameRun};
ghost use Rattle.profile_session.specs.Parts.{IsPoint, IsShowable, IsTellable, Pushes, Shows, Takes};
ghost use Rattle.profile_session.specs.Parts.{kept_in, loaded_in, profile_in, revealed_in};
ghost use Rattle.profile_session.specs.Turned.{is_telling};

use crate::depths::{depth_after, is_opening};
use crate::swap::Swap;
use crate::swapping::swap_all;
use call_revelation::Reveal;
use context_tree::Tree;
use event_buffer::Events;
use jf_bytes::{NoMemory, Seq};
use jvm_machine::{Turn, Vm};
use jvm_model::{Act, Event};
use std::alloc::Global;

/// The machine, what is revealed, the tree with what the buffer holds, how many paths are open, the swap list and the
/// accepted actions.
#[derive(Drop)]
pub struct Parts {
    pub alloc: Global,
    pub vm: Vm,
    pub reveal: Reveal,
    pub tree: Tree,
    pub buffer: Events,
    pub depth: u64,
    pub swaps: Seq<Swap>,
    pub acts: Seq<Act>,
}

impl Parts {
    /// The classes whose marks have changed are swapped.
    pub fn show(&mut self) -> Result<(), NoMemory>
        requires fit { AreFit self.old }
        requires showable { IsShowable self.old }
        ensures { MatchResult result (λ ok. Shows self.old self.new)
            (λ e. IsSameRun self.old self.new) }
    {
        let changed = self.reveal.changed(self.alloc, self.vm.program())?;
        let classes = changed.as_slice();
        swap_all(
            self.alloc,
            &mut self.vm,
            &self.reveal,
            &mut self.swaps,
            classes,
        )?;
        self.reveal.show(self.vm.program());
        Ok(())
    }

    /// The buffer's events go to the tree.
    pub fn drain(&mut self) -> Result<(), NoMemory>
        requires fit { AreFit self.old }
        ensures { MatchResult result (λ ok. Drains self.old self.new)
            (λ e. IsSameRun self.old self.new) }
    {
        while let Some(event) = self.buffer.pop() {
            self.tree.take(&event)?;
        }
        Ok(())
    }

    /// The event goes to the buffer behind all that it held, which goes to the tree.
    fn push_behind(&mut self, event: Event) -> Result<(), NoMemory>
        requires fit { AreFit self.old }
        requires now { event.clock ≡ self.old.vm.clock }
        ensures { MatchResult result (λ ok. Pushes self.old event self.new)
            (λ e. IsSameRun self.old self.new) }
    {
        self.drain()?;
        match self.buffer.push(event) {
            Ok(()) => Ok(()),
            // A record fits where nothing is held.
            Err(_) => unreachable!(),
        }
    }

    /// The event goes to the buffer; where it does not fit, the buffer is drained first.
    #[inline(always)]
    fn push(&mut self, event: Event) -> Result<(), NoMemory>
        requires fit { AreFit self.old }
        requires now { event.clock ≡ self.old.vm.clock }
        ensures { MatchResult result (λ ok. Pushes self.old event self.new)
            (λ e. IsSameRun self.old self.new) }
    {
        match self.buffer.push(event) {
            Ok(()) => Ok(()),
            Err(_) => self.push_behind(event),
        }
    }

    /// Takes the event, and says whether it opens a path.
    #[inline(always)]
    fn take(&mut self, event: Event) -> Result<bool, NoMemory>
        requires fit { AreFit self.old }
        requires tellable { IsTellable self.old event }
        ensures takes { MatchResult result (λ opening. Takes self.old event self.new)
            (λ e. IsSameRun self.old self.new) }
        ensures opens { IfOk result (λ b. b ≡ opens (profile_in self.old).open event.kind) }
    {
        let opening = is_opening(event.kind, self.depth);
        let depth = depth_after(event.kind, self.depth);
        self.push(event)?;
        self.depth = depth;
        Ok(opening)
    }

    /// Classes were loaded.
    fn load(&mut self) -> Result<(), NoMemory>
        requires fit { AreFit self.old }
        requires shown { AreShown self.old }
        requires loadable { CanLoad self.old }
        ensures { let now = with_loaded (loaded_in self.old) (revealed_in self.old) in
            MatchResult result (λ ok. IsPoint self.old now self.new)
            (λ e. IsSameRun self.old self.new) }
    {
        self.reveal.loaded(self.alloc, self.vm.linker())?;
        self.show()?;
        Ok(())
    }

    /// These classes were loaded.
    fn load_classes(&mut self, classes: &Seq<u32>) -> Result<(), NoMemory>
        requires fit { AreFit self.old }
        requires shown { AreShown self.old }
        requires loadable { AreLoadable self.old classes.now }
        ensures { MatchResult result (λ ok. Hears self.old (Turn.Loaded classes.now) self.new)
            (λ e. IsSameRun self.old self.new) }
    {
        let _count = classes.len();
        self.load()?;
        Ok(())
    }

    /// A profiled activation of the method has begun.
    #[inline(always)]
    fn enter(&mut self, method: u32) -> Result<(), NoMemory>
        requires fit { AreFit self.old }
        requires shown { AreShown self.old }
        requires prefix { IsPrefix self.old.reveal.lineage.loaded (loaded_in self.old) }
        requires class { let r = self.old.reveal in
            has_class self.old.vm.program r.lineage.loaded method ≡ true }
        ensures { let now = with_method_entered method (revealed_in self.old) in
            MatchResult result (λ ok. IsPoint self.old now self.new)
            (λ e. IsSameRun self.old self.new) }
    {
        // Nothing changes where it was entered before, as it mostly was.
        if self.reveal.is_entered(method) {
            return Ok(());
        }
        self.reveal.entered(self.alloc, self.vm.linker(), method)?;
        self.show()?;
        Ok(())
    }

    /// Nothing is entered any more.
    pub fn quiet(&mut self) -> Result<(), NoMemory>
        requires fit { AreFit self.old }
        requires shown { AreShown self.old }
        ensures { let now = with_none_entered (revealed_in self.old) in
            MatchResult result (λ ok. IsPoint self.old now self.new)
            (λ e. IsSameRun self.old self.new) }
    {
        self.reveal.quiet()?;
        self.show()?;
        Ok(())
    }

    /// Whether nothing is selected and no path is open.
    #[inline(always)]
    pub fn is_idle(&self) -> bool
        requires { self.now.depth ≡ length (profile_in self.now).open }
        ensures { result ≡ is_idle (kept_in self.now).seen }
    {
        !self.reveal.selects() && self.depth == 0
    }

    /// A step has ended.
    #[inline(always)]
    fn end(&mut self) -> Result<(), NoMemory>
        requires fit { AreFit self.old }
        requires shown { AreShown self.old }
        ensures { MatchResult result (λ ok. Hears self.old Turn.Settled self.new)
            (λ e. IsSameRun self.old self.new) }
    {
        if !self.is_idle() {
            return Ok(());
        }
        self.quiet()?;
        Ok(())
    }

    /// An event was told.
    #[inline(always)]
    fn tell(&mut self, event: Event) -> Result<(), NoMemory>
        requires fit { AreFit self.old }
        requires shown { AreShown self.old }
        requires tellable { IsTellable self.old event }
        ensures { MatchResult result (λ ok. Hears self.old (Turn.Probe event) self.new)
            (λ e. IsSameRun self.old self.new) }
    {
        if !self.take(event)? {
            return Ok(());
        }
        self.enter(event.method)?;
        Ok(())
    }

    /// Does what a turn asks.
    #[inline(always)]
    pub fn hear(&mut self, turn: &Turn) -> Result<(), NoMemory>
        requires telling { is_telling turn.now ≡ true }
        requires hearable { IsHearable self.old turn.now }
        ensures { MatchResult result (λ ok. Hears self.old turn.now self.new)
            (λ e. IsSameRun self.old self.new) }
    {
        match turn {
            Turn::Loaded(classes) => self.load_classes(classes),
            Turn::Probe(event) => self.tell(*event),
            Turn::Settled => self.end(),
            Turn::Ended => self.end(),
            Turn::Broken => unreachable!(),
            Turn::NoMemory => unreachable!(),
        }
    }
}
