//! The texts that were interned.

ghost use Rattle.std.specs.Prelude.{◌≡◌, [], None, is_ok};
ghost use Rattle.heap_objects.specs.Changes.{changed_if};
ghost use Rattle.heap_objects.specs.Interning.{number_of, with_number};

use indexmap::IndexMap;
use jf_bytes::NoMemory;
use std::alloc::Global;
use std::marker::Model;

/// The units of each interned text with the number of its object, in order. A look-up hashes the units. The object's
/// own units may change later; those that stand here do not.
#[derive(Drop)]
pub struct Interned {
    numbers: IndexMap<Vec<u16>, u32>,
}

impl Model for Interned {
    ghost use Rattle.std.specs.Prelude.{List, ℕ, map};

    ghost Value = { List (List ℕ × ℕ) };

    ghost view = { λ i. map (λ e. (e.0.items, e.1)) i.numbers.entries };
}

impl Interned {
    /// No texts. It takes no memory.
    pub fn new(alloc: Global) -> Interned
        ensures { result ≡ [] }
    {
        Interned {
            numbers: IndexMap::new(alloc),
        }
    }

    /// The number of the object that was made for equal units.
    pub fn find(&self, units: &[u16]) -> Option<u32>
        ensures { result ≡ number_of units.now self.now }
    {
        self.numbers.get(units).copied()
    }

    /// Notes the object that is made for units. An Err changes nothing.
    pub fn add(&mut self, alloc: Global, units: &[u16], number: u32) -> Result<(), NoMemory>
        requires { number_of units.now self.old ≡ None }
        ensures { self.new ≡ changed_if (is_ok result) (with_number units.now number) self.old }
    {
        let key = Vec::from_slice(alloc, units)?;
        self.numbers.insert(key, number)?;
        Ok(())
    }
}
