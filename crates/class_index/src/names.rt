//! The names of a program's classes.

ghost use Rattle.std.specs.Prelude.{◌≡◌, [], None, if◌then◌else◌, is_ok};
ghost use Rattle.class_index.specs.Names.{position_of, with_first, with_named};

use indexmap::IndexMap;
use jf_bytes::NoMemory;
use std::alloc::Global;
use std::marker::Model;

/// Names with the positions of their classes. A look-up hashes the units.
#[derive(Drop)]
pub struct Names {
    positions: IndexMap<Vec<u16>, u32>,
}

impl Model for Names {
    ghost use Rattle.std.specs.Prelude.{map};
    ghost use Rattle.class_index.specs.Names.{Entries};

    ghost Value = { Entries };

    ghost view = { λ n. map (λ e. (e.0.items, e.1)) n.positions.entries };
}

impl Names {
    /// No names. It takes no memory.
    pub fn new(alloc: Global) -> Names
        ensures { result ≡ [] }
    {
        Names {
            positions: IndexMap::new(alloc),
        }
    }

    /// The position of the class of this name.
    pub fn find(&self, units: &[u16]) -> Option<u32>
        ensures { result ≡ position_of units.now self.now }
    {
        self.positions.get(units).copied()
    }

    fn put(&mut self, alloc: Global, units: &[u16], position: u32) -> Result<(), NoMemory>
        requires { position_of units.now self.old ≡ None }
        ensures { self.new ≡
            (if is_ok result then with_named units.now position self.old else self.old) }
    {
        let key = Vec::from_slice(alloc, units)?;
        self.positions.insert(key, position)?;
        Ok(())
    }

    /// Notes the position of a class, unless an earlier one has its name.
    pub fn add(&mut self, alloc: Global, units: &[u16], position: u32) -> Result<(), NoMemory>
        ensures { self.new ≡
            (if is_ok result then with_first units.now position self.old else self.old) }
    {
        match self.find(units) {
            Some(_) => Ok(()),
            None => self.put(alloc, units, position),
        }
    }
}
