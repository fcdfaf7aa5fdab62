//! The classes that calls of entered methods name, and which of them are at or above a loaded class.

ghost use Rattle.std.specs.Prelude.{◌≡◌, [], if◌then◌else◌, flat_map, is_ok, is_some, replicate, slice_set, true, IfOk, OnOk, ℕ};
ghost use Rattle.std.specs.Option.{option_to_list};
ghost use Rattle.jvm_model.specs.declared.program.Program.{Program};
ghost use Rattle.jvm_model.specs.Classes.Load.{is_among};
ghost use Rattle.class_index.specs.Orders.{with_class, with_classes};
ghost use Rattle.possible_callees.specs.Lineages.{IsLineage};
ghost use Rattle.possible_callees.specs.Tables.{Adds, list_at};
ghost use Rattle.call_revelation.specs.Books.{IsBookOf, code_at};
ghost use Rattle.call_revelation.specs.CalledClasses.{AreHanded, HasCalled, called_class, own_of, uppers_of};

use crate::book::{Book, class_of, is_call};
use class_index::Order;
use class_linker::Linker;
use jf_bytes::{NoMemory, Seq};
use jvm_model::SymbolicReference;
use possible_callees::{Lineage, no_lists, note, put_list};
use std::alloc::Global;

/// The classes that calls name, and for each loaded class those of them at or above it. Where memory ran out a list has
/// more of them.
#[derive(Drop)]
pub struct Named {
    pub classes: Order,
    pub above: Vec<Seq<u32>>,
}

/// The class that an instruction names, where it selects by its receiver's class.
fn called_class(linker: &Linker, reference: &SymbolicReference) -> Option<u32>
    ensures { option_to_list result ≡ called_class linker.now.program reference.now }
{
    if is_call(reference) {
        class_of(linker, reference)
    } else {
        None
    }
}

impl Named {
    /// No call names a class.
    pub fn new(alloc: Global, classes: usize) -> Result<Named, NoMemory>
        ensures classes { IfOk result (λ v. v.classes ≡ []) }
        ensures above { IfOk result (λ v. v.above.items ≡ replicate classes []) }
    {
        let above = no_lists(alloc, classes)?;
        Ok(Named {
            classes: Order::new(alloc),
            above,
        })
    }

    // ---- a call more

    /// A call names this class. What is at or above a class stays known, also where memory runs out.
    fn add(&mut self, alloc: Global, lineage: &Lineage, class: u32) -> Result<(), NoMemory>
        ensures classes { self.new.classes
            ≡ (if is_ok result then with_class self.old.classes class else self.old.classes) }
        ensures handed { (p : Program) → IsLineage p lineage.now →
            AreHanded p lineage.now.loaded self.old → AreHanded p lineage.now.loaded self.new }
    {
        if self.classes.has(class) {
            return Ok(());
        }
        let lower = lineage.at_or_below(alloc, class)?;
        note(self.above.as_mut_slice(), lower.as_slice(), class)?;
        self.classes.add(class)?;
        Ok(())
    }

    /// The same of the class that an instruction names, where it is a call.
    fn add_called(
        &mut self,
        alloc: Global,
        linker: &Linker,
        lineage: &Lineage,
        reference: &SymbolicReference,
    ) -> Result<(), NoMemory>
        ensures classes { OnOk result (self.new.classes ≡ with_classes self.old.classes
            (called_class linker.now.program reference.now)) }
        ensures more { (class : ℕ) → is_among class self.old.classes ≡ true →
            is_among class self.new.classes ≡ true }
        ensures handed { (p : Program) → IsLineage p lineage.now →
            AreHanded p lineage.now.loaded self.old → AreHanded p lineage.now.loaded self.new }
    {
        match called_class(linker, reference) {
            Some(class) => self.add(alloc, lineage, class),
            None => Ok(()),
        }
    }

    /// The same of all these.
    fn add_all_called(
        &mut self,
        alloc: Global,
        linker: &Linker,
        lineage: &Lineage,
        references: &[SymbolicReference],
    ) -> Result<(), NoMemory>
        ensures called { OnOk result (Adds self.old.classes self.new.classes
            (flat_map (called_class linker.now.program) references.now)) }
        ensures more { (class : ℕ) → is_among class self.old.classes ≡ true →
            is_among class self.new.classes ≡ true }
        ensures handed { (p : Program) → IsLineage p lineage.now →
            AreHanded p lineage.now.loaded self.old → AreHanded p lineage.now.loaded self.new }
    {
        for reference in references {
            self.add_called(alloc, linker, lineage, reference)?;
        }
        Ok(())
    }

    /// The same of all that a method names that was read.
    pub fn add_read(
        &mut self,
        alloc: Global,
        linker: &Linker,
        lineage: &Lineage,
        book: &Book,
        method: u32,
    ) -> Result<(), NoMemory>
        requires book { IsBookOf linker.now.program book.now }
        requires read { is_some (code_at book.now.codes method) ≡ true }
        ensures called { OnOk result (HasCalled linker.now.program self.new method) }
        ensures more { (class : ℕ) → is_among class self.old.classes ≡ true →
            is_among class self.new.classes ≡ true }
        ensures handed { (p : Program) → IsLineage p lineage.now →
            AreHanded p lineage.now.loaded self.old → AreHanded p lineage.now.loaded self.new }
    {
        let Some(references) = book.references(method) else {
            return Ok(());
        };
        let references = references.as_slice();
        self.add_all_called(alloc, linker, lineage, references)
    }

    // ---- a class more

    /// The classes that calls name at or above a class.
    pub fn above(&self, class: u32) -> &[u32]
        ensures { result.now ≡ list_at self.now.above.items class }
    {
        match self.above.get(class as usize) {
            Some(classes) => classes.as_slice(),
            None => &[],
        }
    }

    /// Adds those at or above each of these classes.
    fn add_above(&self, classes: &[u32], found: &mut Order) -> Result<(), NoMemory>
        ensures { OnOk result (Adds found.old found.new
            (flat_map (list_at self.now.above.items) classes.now)) }
    {
        for class in classes {
            found.add_all(self.above(*class))?;
        }
        Ok(())
    }

    /// The class, if calls name it.
    fn own(&self, alloc: Global, class: u32) -> Result<Order, NoMemory>
        ensures { IfOk result (λ found. found ≡ own_of self.now class) }
    {
        let mut found = Order::new(alloc);
        if self.classes.has(class) {
            found.add(class)?;
            return Ok(found);
        }
        Ok(found)
    }

    /// Those at or above a class that is below these.
    pub fn uppers(&self, alloc: Global, direct: &[u32], class: u32) -> Result<Seq<u32>, NoMemory>
        ensures { IfOk result (λ uppers. (upper : ℕ) →
            is_among upper uppers ≡ is_among upper (uppers_of self.now direct.now class)) }
    {
        let mut found = self.own(alloc, class)?;
        self.add_above(direct, &mut found)?;
        let uppers = Seq::from_slice(alloc, found.as_slice())?;
        Ok(uppers)
    }

    /// Keeps that these are at or above a class.
    pub fn keep(&mut self, class: u32, uppers: Seq<u32>)
        ensures classes { self.new.classes ≡ self.old.classes }
        ensures above { self.new.above.items ≡ slice_set self.old.above.items class uppers }
    {
        put_list(self.above.as_mut_slice(), class as usize, uppers);
    }
}
