//! Methods that are entered, and quiet points.

ghost use Rattle.std.specs.Prelude.{◌≡◌, ◌<◌, ◌∷◌, [], ℕ, false, is_some, length, true, IfOk, OnErr, OnOk};
ghost use Rattle.jvm_model.specs.declared.program.Program.{Program};
ghost use Rattle.jvm_model.specs.Classes.Load.{is_among};
ghost use Rattle.jvm_model.specs.Profiling.Revealed.{with_method_entered, with_none_entered};
ghost use Rattle.jvm_model.specs.Soundness.Sound.{HasClass};
ghost use Rattle.jvm_model.specs.Profiling.Targets.{operations_of, targets_in};
ghost use Rattle.call_revelation.specs.Books.{code_at};
ghost use Rattle.call_revelation.specs.Reveals.{IsAhead, IsGrown, IsKept, IsRevelation};
ghost use Rattle.call_revelation.specs.Flags.{flag_at};
ghost use Rattle.call_revelation.specs.Reveals.{now_of};

use crate::reveal::Reveal;
use class_index::Order;
use class_linker::Linker;
use jf_bytes::{NoMemory, Seq, Stack};
use possible_callees::{add_all_begun, add_more, put};
use std::alloc::Global;

/// No method is entered, and no flag says that it is.
fn leave_all(flags: &mut Seq<bool>, entered: &mut Stack<u32>)
    ensures none { entered.new ≡ [] }
    ensures length { length flags.new ≡ length flags.old }
    ensures off { ((m : ℕ) → flag_at flags.old m ≡ true → is_among m entered.old ≡ true) →
        (m : ℕ) → flag_at flags.new m ≡ false }
{
    while let Some(method) = entered.pop() {
        put(flags, method as usize, false);
    }
}

impl Reveal {
    /// What a method begins that was read.
    fn begun_in(&self, alloc: Global, linker: &Linker, method: u32) -> Result<Order, NoMemory>
        requires kept { IsKept linker.now.program self.now }
        requires ahead { IsAhead linker.now self.now }
        requires class { HasClass linker.now.program self.now.lineage.loaded method }
        requires read { is_some (code_at self.now.book.codes method) ≡ true }
        ensures { IfOk result (λ found. (m : ℕ) → is_among m found
            ≡ is_among m (targets_in linker.now.program self.now.lineage.loaded
            (operations_of linker.now.program method))) }
    {
        let mut found = Order::new(alloc);
        let Some(references) = self.book.references(method) else {
            return Ok(found);
        };
        let references = references.as_slice();
        add_all_begun(
            alloc,
            linker,
            &self.numbers,
            &self.lineage,
            references,
            &mut found,
        )?;
        Ok(found)
    }

    /// Keeps that a method is entered which was not.
    fn enter(&mut self, alloc: Global, linker: &Linker, method: u32) -> Result<(), NoMemory>
        requires revelation { IsRevelation linker.now.program self.old }
        requires ahead { IsAhead linker.now self.old }
        requires method { method < length linker.now.program.methods }
        requires class { HasClass linker.now.program self.old.lineage.loaded method }
        ensures grown { OnErr result (IsGrown linker.now.program self.old self.new) }
        ensures revelation { OnOk result (IsRevelation linker.now.program self.new) }
        ensures entered { OnOk result (self.new.entered ≡ method ∷ self.old.entered) }
        ensures selected { self.new.selected ≡ self.old.selected }
        ensures loaded { self.new.lineage ≡ self.old.lineage }
        ensures shown { self.new.shown ≡ self.old.shown }
    {
        self.book.read(alloc, linker, method)?;
        let lineage = &self.lineage;
        self.named
            .add_read(alloc, linker, lineage, &self.book, method)?;
        let found = self.begun_in(alloc, linker, method)?;
        add_more(&mut self.stale, found.as_slice())?;
        add_more(&mut self.targets, found.as_slice())?;
        self.entered.push(method)?;
        put(&mut self.flags, method as usize, true);
        Ok(())
    }

    /// A method is entered whose class is loaded. Where it was entered before nothing changes.
    pub fn entered(&mut self, alloc: Global, linker: &Linker, method: u32) -> Result<(), NoMemory>
        requires revelation { IsRevelation linker.now.program self.old }
        requires ahead { IsAhead linker.now self.old }
        requires method { method < length linker.now.program.methods }
        requires class { HasClass linker.now.program self.old.lineage.loaded method }
        ensures revelation { IsRevelation linker.now.program self.new }
        ensures now { OnOk result (now_of self.new ≡ with_method_entered method (now_of self.old)) }
        ensures stays { OnErr result (now_of self.new ≡ now_of self.old) }
        ensures shown { self.new.shown ≡ self.old.shown }
    {
        if self.is_entered(method) {
            return Ok(());
        }
        let loaded = self.lineage.loaded.len();
        let targets = self.targets.len();
        match self.enter(alloc, linker, method) {
            Ok(()) => Ok(()),
            Err(error) => {
                self.go_back(loaded, targets);
                Err(error)
            }
        }
    }

    /// No method is entered any more.
    pub fn quiet(&mut self) -> Result<(), NoMemory>
        ensures revelation { (p : Program) → IsRevelation p self.old → IsRevelation p self.new }
        ensures now { (p : Program) → IsRevelation p self.old →
            OnOk result (now_of self.new ≡ with_none_entered (now_of self.old)) }
        ensures stays { OnErr result (now_of self.new ≡ now_of self.old) }
        ensures shown { self.new.shown ≡ self.old.shown }
    {
        add_more(&mut self.stale, self.targets.as_slice())?;
        leave_all(&mut self.flags, &mut self.entered);
        self.targets.truncate(0);
        Ok(())
    }
}
