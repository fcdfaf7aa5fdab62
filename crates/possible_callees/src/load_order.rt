//! The classes that are loaded, in load order.

ghost use Rattle.std.specs.Prelude.{◌≡◌, [], if◌then◌else◌, is_ok, length, take, IfOk};
ghost use Rattle.class_index.specs.Orders.{with_class};
ghost use Rattle.jvm_model.specs.Classes.Load.{is_among};
ghost use Rattle.possible_callees.specs.Ranks.{AreDistinct, rank_of};

use crate::tables::{items_repeated, make_room};
use jf_bytes::{NoMemory, Seq};
use std::alloc::Global;
use std::marker::Model;

/// Classes in the order in which they were loaded, each once, and for each its place there. A clause sees their list.
#[derive(Drop)]
pub struct LoadOrder {
    classes: Seq<u32>,
    ranks: Seq<usize>,
}

impl Model for LoadOrder {
    ghost use Rattle.std.specs.Prelude.{List, ℕ};
    ghost use Rattle.possible_callees.specs.Ranks.{IsRanked};

    ghost Value = { List ℕ };

    ghost view = { λ o. o.classes };

    ghost invariant = { λ o. IsRanked o.ranks o.classes };
}

impl LoadOrder {
    /// No classes, with the room for the places of so many.
    pub fn new(alloc: Global, classes: usize) -> Result<LoadOrder, NoMemory>
        ensures { IfOk result (λ order. order ≡ []) }
    {
        let ranks = items_repeated(alloc, 0, classes)?;
        Ok(LoadOrder {
            classes: Seq::new(alloc),
            ranks,
        })
    }

    pub fn len(&self) -> usize
        ensures { result ≡ length self.now }
    {
        self.classes.len()
    }

    /// The classes in their order, none of them twice.
    pub fn as_slice(&self) -> &[u32]
        ensures classes { result.now ≡ self.now }
        ensures distinct { AreDistinct self.now }
    {
        self.classes.as_slice()
    }

    /// The place of a class among them. It takes two look-ups.
    pub fn rank(&self, class: u32) -> Option<usize>
        ensures { result ≡ rank_of class self.now }
    {
        let rank = self.ranks.at(class as usize)?;
        if self.classes.at(rank)? == class {
            Some(rank)
        } else {
            None
        }
    }

    /// Whether the class is one of them.
    pub fn has(&self, class: u32) -> bool
        ensures { result ≡ is_among class self.now }
    {
        self.rank(class).is_some()
    }

    /// Adds the class, if it is none of them.
    pub fn add(&mut self, class: u32) -> Result<(), NoMemory>
        ensures { self.new ≡ (if is_ok result then with_class self.old class else self.old) }
    {
        if self.has(class) {
            return Ok(());
        }
        make_room(&mut self.ranks, class as usize, 0)?;
        let rank = self.classes.len();
        self.classes.push(class)?;
        self.ranks.set(class as usize, rank);
        Ok(())
    }

    /// Keeps at most the first `len` classes.
    pub fn truncate(&mut self, len: usize)
        ensures { self.new ≡ take len self.old }
    {
        self.classes.truncate(len);
    }
}
