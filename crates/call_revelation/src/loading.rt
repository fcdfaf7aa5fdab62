//! Classes that are loaded more.

ghost use Rattle.std.specs.Prelude.{◌≡◌, ◌≤◌, ◌++◌, [], ◌∷◌, ℕ, false, drop, flat_map, length, take, true, IfOk, IfSome, OnErr, OnOk, Some};
ghost use Rattle.std.specs.List.{AllByRecursion};
ghost use Rattle.std.specs.Option.{option_copied, option_map_or};
ghost use Rattle.jvm_model.specs.Classes.Load.{is_among};
ghost use Rattle.jvm_model.specs.Profiling.Revealed.{with_loaded};
ghost use Rattle.jvm_model.specs.Profiling.Revelation.{IsLoadOrder};
ghost use Rattle.jvm_model.specs.Soundness.Sound.{HasSupertypes};
ghost use Rattle.jvm_model.specs.Profiling.Targets.{begun_by};
ghost use Rattle.class_linker.specs.Linkers.{IsLoaded};
ghost use Rattle.possible_callees.specs.Lineages.{IsLineage, LeadTo};
ghost use Rattle.possible_callees.specs.Tables.{IsPrefix};
ghost use Rattle.possible_callees.specs.Tables.{Adds, list_at};
ghost use Rattle.call_revelation.specs.Books.{Begins, called_by, called_from};
ghost use Rattle.call_revelation.specs.Books.{methods_gathered, symbolic_reference_at, of_entered};
ghost use Rattle.call_revelation.specs.CalledClasses.{AreHanded};
ghost use Rattle.call_revelation.specs.Reveals.{IsAhead, IsGrown, IsKept, IsRevelation};
ghost use Rattle.call_revelation.specs.Flags.{flag_at};
ghost use Rattle.call_revelation.specs.Reveals.{now_of};

use crate::gains::add_called;
use crate::reveal::{Reveal, own_of};
use crate::uses::Use;
use class_index::Order;
use class_linker::Linker;
use jf_bytes::NoMemory;
use jvm_model::SymbolicReference;
use possible_callees::{add_begun, add_more, direct_supertypes};
use std::alloc::Global;

/// The classes that a linker has loaded behind so many.
fn loaded_behind(linker: &Linker, count: usize) -> &[u32]
    requires { count ≤ length linker.now.loaded }
    ensures { result.now ≡ drop count linker.now.loaded }
{
    &linker.loaded()[count..]
}

impl Reveal {
    /// What an instruction names, where its method is entered.
    fn entered_reference(&self, u: Use) -> Option<&SymbolicReference>
        requires { (m : ℕ) → flag_at self.now.flags m ≡ is_among m self.now.entered }
        ensures begins { (f : Begins) → of_entered self.now.entered self.now.book.codes f u
            ≡ option_map_or (λ n. f n) (option_copied result) [] }
        ensures entered { IfSome result (λ n. is_among u.caller self.now.entered ≡ true) }
        ensures reference { IfSome result
            (λ n. symbolic_reference_at self.now.book.codes u ≡ Some n.now) }
    {
        if self.is_entered(u.caller) {
            self.book.reference(u)
        } else {
            None
        }
    }

    // ---- calls of classes above the new one

    /// What an instruction begins on the new class, where it stands in an entered method and is a call that names this
    /// class.
    fn add_call(
        &self,
        linker: &Linker,
        new: u32,
        class: u32,
        u: Use,
        found: &mut Order,
    ) -> Result<(), NoMemory>
        requires kept { IsKept linker.now.program self.now }
        requires loaded { IsLoaded linker.now class }
        requires new { IsLoaded linker.now new }
        ensures { OnOk result (Adds found.old found.new (of_entered self.now.entered
            self.now.book.codes (called_by linker.now.program new class) u)) }
    {
        match self.entered_reference(u) {
            Some(reference) => add_called(linker, &self.numbers, new, class, reference, found),
            None => Ok(()),
        }
    }

    /// The same of each of these instructions.
    fn add_calls(
        &self,
        linker: &Linker,
        new: u32,
        class: u32,
        uses: &[Use],
        found: &mut Order,
    ) -> Result<(), NoMemory>
        requires kept { IsKept linker.now.program self.now }
        requires loaded { IsLoaded linker.now class }
        requires new { IsLoaded linker.now new }
        ensures { OnOk result (Adds found.old found.new (flat_map (of_entered self.now.entered
            self.now.book.codes (called_by linker.now.program new class)) uses.now)) }
    {
        for u in uses {
            self.add_call(linker, new, class, *u, found)?;
        }
        Ok(())
    }

    /// The same of all calls that name a class, where it is loaded.
    fn add_calls_from(
        &self,
        linker: &Linker,
        new: u32,
        class: u32,
        found: &mut Order,
    ) -> Result<(), NoMemory>
        requires kept { IsKept linker.now.program self.now }
        requires ahead { IsAhead linker.now self.now }
        requires new { IsLoaded linker.now new }
        ensures { OnOk result (Adds found.old found.new (called_from linker.now.program
            self.now.lineage.loaded new self.now.entered self.now.book.codes
            self.now.book.calls.items class)) }
    {
        if self.lineage.loaded.has(class) {
            self.add_calls(linker, new, class, self.book.calls(class), found)
        } else {
            Ok(())
        }
    }

    /// The same of all calls that name one of these classes.
    fn add_calls_above(
        &self,
        linker: &Linker,
        new: u32,
        classes: &[u32],
        found: &mut Order,
    ) -> Result<(), NoMemory>
        requires kept { IsKept linker.now.program self.now }
        requires ahead { IsAhead linker.now self.now }
        requires new { IsLoaded linker.now new }
        ensures { OnOk result (Adds found.old found.new (flat_map (called_from linker.now.program
            self.now.lineage.loaded new self.now.entered self.now.book.codes
            self.now.book.calls.items) classes.now)) }
    {
        for class in classes {
            self.add_calls_from(linker, new, *class, found)?;
        }
        Ok(())
    }

    // ---- instructions that name the new one

    /// What an instruction begins, where it stands in an entered method.
    fn add_waiting(
        &self,
        alloc: Global,
        linker: &Linker,
        u: Use,
        found: &mut Order,
    ) -> Result<(), NoMemory>
        requires kept { IsKept linker.now.program self.now }
        requires ahead { IsAhead linker.now self.now }
        ensures { OnOk result (Adds found.old found.new (of_entered self.now.entered
            self.now.book.codes (begun_by linker.now.program self.now.lineage.loaded) u)) }
    {
        match self.entered_reference(u) {
            Some(reference) => {
                add_begun(
                    alloc,
                    linker,
                    &self.numbers,
                    &self.lineage,
                    reference,
                    found,
                )
            }
            None => Ok(()),
        }
    }

    /// What each of these instructions begins.
    fn add_all_waiting(
        &self,
        alloc: Global,
        linker: &Linker,
        uses: &[Use],
        found: &mut Order,
    ) -> Result<(), NoMemory>
        requires kept { IsKept linker.now.program self.now }
        requires ahead { IsAhead linker.now self.now }
        ensures { OnOk result (Adds found.old found.new (flat_map (of_entered self.now.entered
            self.now.book.codes (begun_by linker.now.program self.now.lineage.loaded)) uses.now)) }
    {
        for u in uses {
            self.add_waiting(alloc, linker, *u, found)?;
        }
        Ok(())
    }

    // ---- one class more

    /// Keeps that a class is loaded more, below these, and gathers what begins by it.
    fn gain(
        &mut self,
        alloc: Global,
        linker: &Linker,
        new: u32,
        direct: &[u32],
    ) -> Result<Order, NoMemory>
        requires kept { IsKept linker.now.program self.old }
        requires ahead { IsAhead linker.now self.old }
        requires new { IsLoaded linker.now new }
        requires fresh { is_among new self.old.lineage.loaded ≡ false }
        requires led { LeadTo linker.now.program self.old.lineage.loaded new direct.now }
        requires handed { AreHanded linker.now.program (self.old.lineage.loaded ++ new ∷ [])
            self.old.named }
        ensures same { self.new ≡ (record self.old { lineage = self.new.lineage }) }
        ensures lineage { IsLineage linker.now.program self.new.lineage }
        ensures prefix { IsPrefix self.old.lineage.loaded self.new.lineage.loaded }
        ensures handed { AreHanded linker.now.program self.new.lineage.loaded self.old.named }
        ensures loaded { OnOk result (self.new.lineage.loaded
            ≡ self.old.lineage.loaded ++ new ∷ []) }
        ensures gathered { IfOk result (λ found. (m : ℕ) → is_among m found
            ≡ is_among m (methods_gathered linker.now.program self.old.lineage.loaded new
            self.old.entered self.old.book.codes self.old.book.waiting.items
            self.old.book.calls.items
            (list_at self.old.named.above.items new))) }
    {
        let mut found = Order::new(alloc);
        self.add_calls_above(linker, new, self.named.above(new), &mut found)?;
        self.lineage.add(new, direct)?;
        self.add_all_waiting(alloc, linker, self.book.waiting(new), &mut found)?;
        Ok(found)
    }

    /// Keeps that a class is loaded more, below these, where it is known what is at or above it.
    fn load_named(
        &mut self,
        alloc: Global,
        linker: &Linker,
        new: u32,
        direct: &[u32],
    ) -> Result<(), NoMemory>
        requires revelation { IsRevelation linker.now.program self.old }
        requires ahead { IsAhead linker.now self.old }
        requires new { IsLoaded linker.now new }
        requires fresh { is_among new self.old.lineage.loaded ≡ false }
        requires above { HasSupertypes linker.now.program self.old.lineage.loaded }
        requires led { LeadTo linker.now.program self.old.lineage.loaded new direct.now }
        requires handed { AreHanded linker.now.program (self.old.lineage.loaded ++ new ∷ [])
            self.old.named }
        ensures grown { IsGrown linker.now.program self.old self.new }
        ensures loaded { OnOk result (self.new.lineage.loaded
            ≡ self.old.lineage.loaded ++ new ∷ []) }
        ensures revelation { OnOk result (IsRevelation linker.now.program self.new) }
    {
        let found = self.gain(alloc, linker, new, direct)?;
        add_more(&mut self.stale, found.as_slice())?;
        add_more(&mut self.stale, own_of(self.own.as_slice(), new))?;
        add_more(&mut self.targets, found.as_slice())?;
        Ok(())
    }

    /// Keeps that a class is loaded more.
    fn load_class(&mut self, alloc: Global, linker: &Linker, new: u32) -> Result<(), NoMemory>
        requires revelation { IsRevelation linker.now.program self.old }
        requires ahead { IsAhead linker.now self.old }
        requires new { IsLoaded linker.now new }
        requires fresh { is_among new self.old.lineage.loaded ≡ false }
        requires above { HasSupertypes linker.now.program self.old.lineage.loaded }
        requires next { HasSupertypes linker.now.program (self.old.lineage.loaded ++ new ∷ []) }
        ensures grown { IsGrown linker.now.program self.old self.new }
        ensures loaded { OnOk result (self.new.lineage.loaded
            ≡ self.old.lineage.loaded ++ new ∷ []) }
        ensures revelation { OnOk result (IsRevelation linker.now.program self.new) }
    {
        let direct = direct_supertypes(alloc, linker, new)?;
        let uppers = self.named.uppers(alloc, direct.as_slice(), new)?;
        self.named.keep(new, uppers);
        self.load_named(alloc, linker, new, direct.as_slice())
    }

    /// Keeps that these classes are loaded more.
    fn load_all(&mut self, alloc: Global, linker: &Linker, classes: &[u32]) -> Result<(), NoMemory>
        requires revelation { IsRevelation linker.now.program self.old }
        requires ahead { IsAhead linker.now self.old }
        requires new { AllByRecursion (IsLoaded linker.now) classes.now }
        requires order { IsLoadOrder linker.now.program self.old.lineage.loaded classes.now }
        ensures grown { IsGrown linker.now.program self.old self.new }
        ensures loaded { OnOk result (self.new.lineage.loaded
            ≡ self.old.lineage.loaded ++ classes.now) }
        ensures revelation { OnOk result (IsRevelation linker.now.program self.new) }
    {
        for class in classes {
            self.load_class(alloc, linker, *class)?;
        }
        Ok(())
    }

    /// The first so many of the loaded classes stay, and the first so many of the targets. Those behind are dropped.
    pub fn go_back(&mut self, loaded: usize, targets: usize)
        ensures { self.new ≡ (record self.old {
          lineage = record self.old.lineage {
            loaded = take loaded self.old.lineage.loaded;
          };
          targets = take targets self.old.targets;
        }) }
    {
        self.lineage.loaded.truncate(loaded);
        self.targets.truncate(targets);
    }

    /// The classes that the linker has loaded are loaded: those that were, and more behind them.
    pub fn loaded(&mut self, alloc: Global, linker: &Linker) -> Result<(), NoMemory>
        requires revelation { IsRevelation linker.now.program self.old }
        requires ahead { IsAhead linker.now self.old }
        requires prefix { IsPrefix self.old.lineage.loaded linker.now.loaded }
        requires order { IsLoadOrder linker.now.program [] linker.now.loaded }
        ensures revelation { IsRevelation linker.now.program self.new }
        ensures now { OnOk result (now_of self.new
            ≡ with_loaded linker.now.loaded (now_of self.old)) }
        ensures stays { OnErr result (now_of self.new ≡ now_of self.old) }
        ensures shown { self.new.shown ≡ self.old.shown }
    {
        let loaded = self.lineage.loaded.len();
        let targets = self.targets.len();
        match self.load_all(alloc, linker, loaded_behind(linker, loaded)) {
            Ok(()) => Ok(()),
            Err(error) => {
                self.go_back(loaded, targets);
                Err(error)
            }
        }
    }
}
