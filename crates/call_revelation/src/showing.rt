//! Which classes have a method with another mark than the one that was shown.

ghost use Rattle.std.specs.Prelude.{◌≡◌, filter_map, slice_set, IfOk};
ghost use Rattle.jvm_model.specs.Profiling.Revealed.{Revealed, changed_of, marks_of};
ghost use Rattle.jvm_model.specs.Profiling.Swaps.{same_mark};
ghost use Rattle.call_revelation.specs.Reveals.{IsRevelation, class_changed, mark_at};
ghost use Rattle.call_revelation.specs.Reveals.{mark_kept, now_of, rank_changed, with_marks};

use crate::ranks::{classes_at, put_in_order};
use crate::reveal::Reveal;
use jf_bytes::{NoMemory, Seq};
use jvm_model::{Mark, Program};
use possible_callees::{add_some, put};
use std::alloc::Global;

fn same_mark(a: Mark, b: Mark) -> bool
    ensures { result ≡ same_mark a b }
{
    match a {
        Mark::Off => matches!(b, Mark::Off),
        Mark::Plain => matches!(b, Mark::Plain),
        Mark::Root => matches!(b, Mark::Root),
    }
}

impl Reveal {
    /// The mark that was shown of a method.
    fn mark_shown(&self, method: u32) -> Mark
        ensures { result ≡ mark_at self.now.shown method }
    {
        match self.shown.at(method as usize) {
            Some(mark) => mark,
            None => Mark::Off,
        }
    }

    /// The class of a method that has another mark than the one that was shown.
    fn class_changed(&self, program: &Program, method: u32) -> Option<u32>
        ensures { result ≡ class_changed program.now self.now method }
    {
        if same_mark(self.mark_shown(method), self.mark_kept(program, method)) {
            return None;
        }
        match program.methods.at(method as usize) {
            Some(place) => Some(place.class),
            None => None,
        }
    }

    /// The place in load order of the class of a method that has another mark than the one that was shown, where it is
    /// loaded.
    fn rank_changed(&self, program: &Program, method: u32) -> Option<usize>
        ensures { result ≡ rank_changed program.now self.now method }
    {
        let class = self.class_changed(program, method)?;
        self.lineage.loaded.rank(class)
    }

    /// Those of all methods that are stale.
    fn ranks_changed(&self, alloc: Global, program: &Program) -> Result<Vec<usize>, NoMemory>
        ensures { IfOk result (λ ranks. ranks.items
            ≡ filter_map (rank_changed program.now self.now) self.now.stale) }
    {
        let mut ranks = Seq::new(alloc);
        for method in self.stale.as_slice() {
            add_some(&mut ranks, self.rank_changed(program, *method))?;
        }
        Ok(ranks.into_vec())
    }

    /// The classes whose methods have other marks than those that were shown, in load order. It takes what a sort of
    /// them takes.
    pub fn changed(&self, alloc: Global, program: &Program) -> Result<Seq<u32>, NoMemory>
        requires { IsRevelation program.now self.now }
        ensures { (before : Revealed) → self.now.shown ≡ marks_of program.now before →
            IfOk result (λ cs. cs ≡ changed_of program.now before (now_of self.now)) }
    {
        let mut ranks = self.ranks_changed(alloc, program)?;
        put_in_order(&mut ranks);
        let all = classes_at(alloc, self.lineage.loaded.as_slice(), ranks.as_slice())?;
        Ok(all)
    }

    /// Shows the mark of a method.
    fn show_one(&mut self, program: &Program, method: u32)
        ensures { self.new ≡ (record self.old {
          shown = slice_set self.old.shown method (mark_kept program.now self.old method);
        }) }
    {
        let mark = self.mark_kept(program, method);
        put(&mut self.shown, method as usize, mark);
    }

    /// Shows the marks of all methods that are stale.
    fn show_stale(&mut self, program: &Program)
        ensures { self.new ≡ (record self.old {
          shown = with_marks program.now self.old self.old.stale self.old.shown;
        }) }
    {
        for at in 0..self.stale.len() {
            let method = self.stale.as_slice()[at];
            self.show_one(program, method);
        }
    }

    /// The marks of now are those that were shown last.
    pub fn show(&mut self, program: &Program)
        requires { IsRevelation program.now self.old }
        ensures revelation { IsRevelation program.now self.new }
        ensures now { now_of self.new ≡ now_of self.old }
        ensures shown { self.new.shown ≡ marks_of program.now (now_of self.old) }
    {
        self.show_stale(program);
        self.stale.truncate(0);
    }
}
