//! The loaded classes, and which of them are at or below a class.

ghost use Rattle.std.specs.Prelude.{◌≡◌, [], if◌then◌else◌, is_ok, replicate, true, IfOk, OnOk};
ghost use Rattle.jvm_model.specs.declared.program.Program.{Program};
ghost use Rattle.jvm_model.specs.Classes.Load.{is_among};
ghost use Rattle.class_index.specs.Orders.{with_class};
ghost use Rattle.possible_callees.specs.Lineages.{IsClosed, IsLineage, IsNoted, LeadTo, direct, class_noted};
ghost use Rattle.possible_callees.specs.Tables.{list_at};

use crate::growing::add_more;
use crate::load_order::LoadOrder;
use crate::tables::{add_item, no_lists};
use class_index::Order;
use class_linker::Linker;
use jf_bytes::{NoMemory, Seq};
use std::alloc::Global;

/// The loaded classes in load order, and for each class some below it, by which one comes to all that are. Where memory
/// ran out a list has more classes than are loaded.
#[derive(Drop)]
pub struct Lineage {
    pub loaded: LoadOrder,
    pub below: Vec<Seq<u32>>,
}

/// Notes a class in the lists of these.
pub fn note(lists: &mut [Seq<u32>], classes: &[u32], class: u32) -> Result<(), NoMemory>
    ensures noted { OnOk result (lists.new ≡ class_noted class lists.old classes.now) }
    ensures only { IsNoted class classes.now lists.old lists.new }
{
    for above in classes {
        add_item(lists, *above as usize, class)?;
    }
    Ok(())
}

/// The superinterfaces of a class that it names itself, and its superclass.
pub fn direct_supertypes(alloc: Global, linker: &Linker, class: u32) -> Result<Seq<u32>, NoMemory>
    ensures { IfOk result (λ classes. classes ≡ direct linker.now.program class) }
{
    let mut classes = linker.index().interfaces_of(alloc, class)?;
    if let Some(above) = linker.index().super_of(class) {
        classes.push(above)?;
    }
    Ok(classes)
}

impl Lineage {
    /// No class is loaded.
    pub fn new(alloc: Global, classes: usize) -> Result<Lineage, NoMemory>
        ensures loaded { IfOk result (λ v. v.loaded ≡ []) }
        ensures below { IfOk result (λ v. v.below.items ≡ replicate classes []) }
    {
        let loaded = LoadOrder::new(alloc, classes)?;
        let below = no_lists(alloc, classes)?;
        Ok(Lineage { loaded, below })
    }

    /// What stands in the list of a class.
    fn below(&self, class: u32) -> &[u32]
        ensures { result.now ≡ list_at self.now.below.items class }
    {
        match self.below.get(class as usize) {
            Some(classes) => classes.as_slice(),
            None => &[],
        }
    }

    /// Classes to which one comes from a class; all that are loaded and at or below it are among them.
    pub fn at_or_below(&self, alloc: Global, class: u32) -> Result<Order, NoMemory>
        ensures own { IfOk result (λ found. is_among class found ≡ true) }
        ensures closed { IfOk result (λ found. IsClosed self.now.below.items found) }
    {
        let mut found = Order::new(alloc);
        found.add(class)?;
        for at in 0..usize::MAX {
            let Some(next) = found.as_slice().get(at) else {
                return Ok(found);
            };
            let lower = self.below(*next);
            add_more(&mut found, lower)?;
        }
        Err(NoMemory)
    }

    /// A class more is loaded, below these. What is at or below a class stays known, also where memory runs out.
    pub fn add(&mut self, class: u32, above: &[u32]) -> Result<(), NoMemory>
        ensures loaded { self.new.loaded
            ≡ (if is_ok result then with_class self.old.loaded class else self.old.loaded) }
        ensures lineage { (p : Program) → LeadTo p self.old.loaded class above.now →
            IsLineage p self.old → IsLineage p self.new }
    {
        note(self.below.as_mut_slice(), above, class)?;
        self.loaded.add(class)?;
        Ok(())
    }
}
