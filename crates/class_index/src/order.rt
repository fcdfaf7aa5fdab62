//! Classes in an order, each once.

ghost use Rattle.std.specs.Prelude.{◌≡◌, [], if◌then◌else◌, is_ok, length, take, OnErr, OnOk};
ghost use Rattle.std.specs.Io.{StartsWith};
ghost use Rattle.class_index.specs.Orders.{with_class, with_classes};
ghost use Rattle.jvm_model.specs.Classes.Load.{is_among};

use indexmap::IndexSet;
use jf_bytes::NoMemory;
use std::alloc::Global;
use std::marker::Model;

/// Positions of classes in the order in which they came, each once. Whether one is among them is one look-up. A clause
/// sees their list.
#[derive(Drop)]
pub struct Order {
    classes: IndexSet<u32>,
}

impl Model for Order {
    ghost use Rattle.std.specs.Prelude.{List, ℕ};

    ghost Value = { List ℕ };

    ghost view = { λ o. o.classes.keys };
}

impl Order {
    /// No classes. It takes no memory.
    pub fn new(alloc: Global) -> Order
        ensures { result ≡ [] }
    {
        Order {
            classes: IndexSet::new(alloc),
        }
    }

    pub fn len(&self) -> usize
        ensures { result ≡ length self.now }
    {
        self.classes.len()
    }

    pub fn as_slice(&self) -> &[u32]
        ensures { result.now ≡ self.now }
    {
        self.classes.as_slice()
    }

    /// Whether the class is one of them.
    pub fn has(&self, class: u32) -> bool
        ensures { result ≡ is_among class self.now }
    {
        self.classes.contains(&class)
    }

    /// Adds the class, if it is none of them.
    pub fn add(&mut self, class: u32) -> Result<(), NoMemory>
        ensures { self.new ≡ (if is_ok result then with_class self.old class else self.old) }
    {
        self.classes.insert(class)?;
        Ok(())
    }

    /// Adds those of these classes that are none of them. Where memory runs out the first of them are there.
    pub fn add_all(&mut self, classes: &[u32]) -> Result<(), NoMemory>
        ensures added { OnOk result (self.new ≡ with_classes self.old classes.now) }
        ensures begun { OnErr result (StartsWith (with_classes self.old classes.now) self.new) }
    {
        for class in classes {
            self.add(*class)?;
        }
        Ok(())
    }

    /// Keeps at most the first `len` classes.
    pub fn truncate(&mut self, len: usize)
        ensures { self.new ≡ take len self.old }
    {
        self.classes.truncate(len);
    }
}
