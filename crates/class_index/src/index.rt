//! A program with its classes found by their names.

ghost use Rattle.std.specs.Prelude.{◌≡◌, ◌<◌, ◌^◌, [], length, map, IfOk, IfSome};
ghost use Rattle.std.specs.List.{AllByRecursion};
ghost use Rattle.std.specs.Option.{option_copied, option_map};
ghost use Rattle.const_pool.specs.ClassFile.{IsClassFile};
ghost use Rattle.jvm_model.specs.Basis.Programs.{class_at, class_named, super_of};
ghost use Rattle.jvm_model.specs.Classes.Lookup.{interfaces_of, is_interface};
ghost use Rattle.class_index.specs.Buckets.{table_of};
ghost use Rattle.class_index.specs.Indices.{IsLinkable, class_of_entry, interfaces_in};
ghost use Rattle.class_index.specs.Members.{HasFewMembers};
ghost use Rattle.class_index.specs.Names.{named_from};

use crate::names::Names;
use crate::table::{MemberBuckets, table_of};
use base_classes::INTERFACE;
use const_pool::ClassFile;
use jf_bytes::{NoMemory, Seq};
use jvm_model::{Program, has_flag};
use std::alloc::Global;
use std::marker::Model;

/// A program, a table of its classes' names, and for each class one of its members. A clause sees the program.
#[derive(Drop)]
pub struct Index {
    program: Program,
    names: Names,
    tables: Seq<MemberBuckets>,
}

impl Model for Index {
    ghost use Rattle.jvm_model.specs.declared.program.Program.{Program};
    ghost use Rattle.class_index.specs.Indices.{IsIndexed};

    ghost Value = { Program };

    ghost view = { λ i. i.program };

    ghost invariant = { λ i. IsIndexed i.program i.names i.tables };
}

/// The names of these classes.
fn names_of(alloc: Global, classes: &[ClassFile]) -> Result<Names, NoMemory>
    requires { length classes.now < 2 ^ 32 }
    ensures { IfOk result (λ names. names ≡ named_from 0 classes.now []) }
{
    let mut names = Names::new(alloc);
    for (at, class) in classes.iter().enumerate() {
        if let Ok(name) = class.pool.class_name(class.this_class) {
            names.add(alloc, name.units(), at as u32)?;
        }
    }
    Ok(names)
}

/// The tables of these classes' members.
fn tables_of(alloc: Global, classes: &[ClassFile]) -> Result<Seq<MemberBuckets>, NoMemory>
    requires { AllByRecursion IsClassFile classes.now }
    ensures { IfOk result (λ tables. tables ≡ map table_of classes.now) }
{
    let mut tables = Seq::with_capacity(alloc, classes.len())?;
    for class in classes {
        tables.push(table_of(alloc, class)?)?;
    }
    Ok(tables)
}

impl Index {
    /// The program with its tables.
    #[tactic(auto, using(crate::proofs::IndexLemmas::named_all))]
    pub fn new(alloc: Global, program: Program) -> Result<Index, NoMemory>
        requires { IsLinkable program }
        ensures { IfOk result (λ index. index ≡ program) }
    {
        let names = names_of(alloc, program.classes.as_slice())?;
        let tables = tables_of(alloc, program.classes.as_slice())?;
        Ok(Index {
            program,
            names,
            tables,
        })
    }

    pub fn program(&self) -> &Program
        ensures all { result.now ≡ self.now }
        ensures linkable { IsLinkable self.now }
    {
        &self.program
    }

    /// The class file at a position.
    pub fn file(&self, class: u32) -> Option<&ClassFile>
        ensures found { option_copied result ≡ class_at self.now class }
        ensures few { IfSome result (λ c. HasFewMembers c.now) }
    {
        self.program.classes.get(class as usize)
    }

    /// The table of a class's members.
    #[tactic(auto, using(crate::proofs::BucketLemmas::table_at))]
    pub fn table(&self, class: u32) -> Option<&MemberBuckets>
        ensures { option_copied result ≡ option_map table_of (class_at self.now class) }
    {
        self.tables.get(class as usize)
    }

    /// The position of the class of this name.
    pub fn class_named(&self, name: &[u16]) -> Option<u32>
        ensures { result ≡ class_named self.now name.now }
    {
        self.names.find(name)
    }

    /// The position of the class that an entry of this class file names.
    pub fn named_at(&self, file: &ClassFile, entry: u16) -> Option<u32>
        ensures { result ≡ class_of_entry self.now file.now entry }
    {
        match file.pool.class_name(entry) {
            Ok(name) => self.class_named(name.units()),
            Err(_) => None,
        }
    }

    /// The position of a class's superclass.
    pub fn super_of(&self, class: u32) -> Option<u32>
        ensures found { result ≡ super_of self.now class }
        ensures within { IfSome result (λ above. above < length self.now.classes) }
    {
        let file = self.file(class)?;
        self.named_at(file, file.super_class)
    }

    /// The positions of a class's direct superinterfaces, in order.
    #[tactic(auto, using(crate::proofs::IndexLemmas::interfaces_are))]
    pub fn interfaces_of(&self, alloc: Global, class: u32) -> Result<Seq<u32>, NoMemory>
        ensures { IfOk result (λ classes. classes ≡ interfaces_of self.now class) }
    {
        match self.file(class) {
            Some(file) => self.interfaces_in(alloc, file),
            None => Ok(Seq::new(alloc)),
        }
    }

    fn interfaces_in(&self, alloc: Global, file: &ClassFile) -> Result<Seq<u32>, NoMemory>
        ensures { IfOk result (λ classes. classes ≡ interfaces_in self.now file.now) }
    {
        let mut classes = Seq::new(alloc);
        for entry in file.interfaces.as_slice() {
            if let Some(class) = self.named_at(file, *entry) {
                classes.push(class)?;
            }
        }
        Ok(classes)
    }

    /// Whether the class is an interface.
    pub fn is_interface(&self, class: u32) -> bool
        ensures { result ≡ is_interface self.now class }
    {
        match self.file(class) {
            Some(file) => has_flag(file.access, INTERFACE),
            None => false,
        }
    }
}
