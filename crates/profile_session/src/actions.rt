//! Actions of a session, and its tree.

ghost use Rattle.std.specs.Prelude.{◌≡◌, MatchResult, OnOk, if◌then◌else◌};
ghost use Rattle.jvm_model.specs.declared.program.Program.{Program};
ghost use Rattle.call_revelation.specs.Reveals.{IsRevelation, now_of};
ghost use Rattle.jvm_model.specs.Profiling.Revealed.{with_none_entered};
ghost use Rattle.profile_session.specs.Parts.{Acts, AreFit, AreShown, Brings, IsSameRun, chosen_by};

use crate::parts::Parts;
use call_revelation::Reveal;
use jf_bytes::NoMemory;
use jvm_model::Act;
use std::alloc::Global;

/// Selects or deselects the action's method.
fn choose(alloc: Global, reveal: &mut Reveal, act: Act) -> Result<(), NoMemory>
    ensures revelation { (p : Program) → IsRevelation p reveal.old → IsRevelation p reveal.new }
    ensures now { OnOk result (now_of reveal.new ≡ chosen_by act (now_of reveal.old)) }
    ensures shown { reveal.new.shown ≡ reveal.old.shown }
{
    if act.select {
        return reveal.selected(alloc, act.method);
    }
    reveal.deselected(alloc, act.method)
}

/// Nothing is entered any more, where it is quiet.
fn settle(reveal: &mut Reveal, idle: bool) -> Result<(), NoMemory>
    ensures revelation { (p : Program) → IsRevelation p reveal.old → IsRevelation p reveal.new }
    ensures now { (p : Program) → IsRevelation p reveal.old → let now = now_of reveal.old in
        OnOk result (now_of reveal.new ≡ (if idle then with_none_entered now else now)) }
    ensures shown { reveal.new.shown ≡ reveal.old.shown }
{
    if idle {
        return reveal.quiet();
    }
    Ok(())
}

impl Parts {
    /// The action is accepted: it is a point behind which its classes are swapped.
    pub fn act(&mut self, act: Act) -> Result<(), NoMemory>
        requires fit { AreFit self.old }
        requires shown { AreShown self.old }
        ensures { MatchResult result
            (λ ok. Acts self.old act self.new)
            (λ e. IsSameRun self.old self.new) }
    {
        choose(self.alloc, &mut self.reveal, act)?;
        let idle = self.is_idle();
        settle(&mut self.reveal, idle)?;
        self.show()?;
        match self.acts.push(act) {
            Ok(()) => Ok(()),
            Err(_) => Err(NoMemory),
        }
    }

    /// The tree takes all that was told, and the steps up to the clock.
    pub fn bring(&mut self) -> Result<(), NoMemory>
        requires fit { AreFit self.old }
        ensures { MatchResult result
            (λ ok. Brings self.old self.new)
            (λ e. IsSameRun self.old self.new) }
    {
        self.drain()?;
        self.tree.credit(self.vm.clock());
        Ok(())
    }
}
