//! The names of the classes so far.

ghost use Rattle.std.specs.Prelude.{◌≡◌, [], OnErr, OnOk};
ghost use Rattle.std.specs.List.{list_any};
ghost use Rattle.jvm_model.specs.Basis.Descriptors.{same_text};
ghost use Rattle.admit_check.specs.Stages.{name_fault_among, with_name};

use crate::shapes::is_reserved;
use code_admission::AdmitError;
use const_pool::ClassFile;
use indexmap::IndexSet;
use jf_bytes::{NoMemory, Text16};
use std::alloc::Global;
use std::marker::Model;

/// Names, each once, in the order in which they came. A look-up hashes the units. A clause sees the list of the names.
#[derive(Drop)]
pub struct NameSet {
    names: IndexSet<Vec<u16>>,
}

impl Model for NameSet {
    ghost use Rattle.std.specs.Prelude.{List, ℕ, map};

    ghost Value = { List (List ℕ) };

    ghost view = { λ s. map (λ name. name.items) s.names.keys };
}

impl NameSet {
    /// No names. It takes no memory.
    pub fn new(alloc: Global) -> NameSet
        ensures { result ≡ [] }
    {
        NameSet {
            names: IndexSet::new(alloc),
        }
    }

    /// Whether the name is one of them.
    pub fn has(&self, name: &Text16) -> bool
        ensures { result ≡ list_any (same_text name.now) self.now }
    {
        self.names.contains(name.units())
    }

    /// Adds the name, if it is none of them.
    pub fn add(&mut self, alloc: Global, name: &Text16) -> Result<(), NoMemory>
        ensures added { OnOk result (self.new ≡ with_name self.old name.now) }
        ensures kept { OnErr result (self.new ≡ self.old) }
    {
        let units = Vec::from_slice(alloc, name.units())?;
        self.names.insert(units)?;
        Ok(())
    }
}

/// The fault of a class's name, with these names before it.
pub fn name_fault(number: u32, class: &ClassFile, names: &NameSet) -> Option<AdmitError>
    ensures { result ≡ name_fault_among names.now number class.now }
{
    if is_reserved(class) {
        return Some(AdmitError::ReservedName(number));
    }
    let name = class.pool.class_name(class.this_class).ok()?;
    if names.has(name) {
        Some(AdmitError::Duplicate(number))
    } else {
        None
    }
}
