//! What is kept of a class once it is loaded.

ghost use Rattle.std.specs.Prelude.{◌≡◌, ◌++◌, [], flat_map, OnOk, IfOk};
ghost use Rattle.std.specs.Option.{option_copied};
ghost use Rattle.jvm_model.specs.Classes.Layouts.{own_kinds};
ghost use Rattle.jvm_model.specs.Classes.Load.{is_among};
ghost use Rattle.jvm_model.specs.Classes.Lookup.{superclass_of};
ghost use Rattle.class_index.specs.Orders.{with_classes};
ghost use Rattle.class_linker.specs.LoadedClasses.{AreLoadedClasses, holds_class, layout_in};
ghost use Rattle.class_linker.specs.LoadedClasses.{layout_made, loaded_class_at, loaded_class_made};
ghost use Rattle.class_linker.specs.LoadedClasses.{superclasses_in, superclasses_made};
ghost use Rattle.class_linker.specs.LoadedClasses.{superinterfaces_in, superinterfaces_made};
ghost use Rattle.class_linker.specs.LoadedClasses.{supertypes_in, supertypes_made};
ghost use Rattle.class_linker.specs.LoadedClasses.{with_interface, with_interfaces, with_supertypes};

use base_classes::STATIC;
use class_index::{Index, Order, field_kind};
use const_pool::{ClassFile, Kind};
use jf_bytes::{NoMemory, Seq};
use jvm_model::has_flag;
use std::alloc::Global;

/// The walks over the supertypes of a class, and the kinds of an object's slots.
#[derive(Drop)]
pub struct LoadedClass {
    pub superclasses: Seq<u32>,
    pub superinterfaces: Order,
    pub supertypes: Order,
    pub layout: Seq<Kind>,
}

/// The loaded classes of a program: its index, and what is kept of each, by its position.
#[derive(Clone, Copy)]
pub struct LoadedClasses<'a> {
    pub index: &'a Index,
    pub rows: &'a [Option<LoadedClass>],
    ghost of_program: { AreLoadedClasses index.now rows.now },
}

/// The row of a class, where it was loaded.
pub fn loaded_class_at(rows: &[Option<LoadedClass>], class: u32) -> Option<&LoadedClass>
    ensures { option_copied result ≡ loaded_class_at rows.now class }
{
    match rows.get(class as usize) {
        Some(row) => row.as_ref(),
        None => None,
    }
}

/// Whether a class has a row.
pub fn holds_class(rows: &[Option<LoadedClass>], class: u32) -> bool
    ensures { result ≡ holds_class rows.now class }
{
    loaded_class_at(rows, class).is_some()
}

// ---- parts, which are empty where there is no row

pub fn superclasses_in(rows: &[Option<LoadedClass>], class: u32) -> &[u32]
    ensures { result.now ≡ superclasses_in rows.now class }
{
    match loaded_class_at(rows, class) {
        Some(row) => row.superclasses.as_slice(),
        None => &[],
    }
}

pub fn superinterfaces_in(rows: &[Option<LoadedClass>], class: u32) -> &[u32]
    ensures { result.now ≡ superinterfaces_in rows.now class }
{
    match loaded_class_at(rows, class) {
        Some(row) => row.superinterfaces.as_slice(),
        None => &[],
    }
}

pub fn supertypes_in(rows: &[Option<LoadedClass>], class: u32) -> &[u32]
    ensures { result.now ≡ supertypes_in rows.now class }
{
    match loaded_class_at(rows, class) {
        Some(row) => row.supertypes.as_slice(),
        None => &[],
    }
}

pub fn layout_in(rows: &[Option<LoadedClass>], class: u32) -> &[Kind]
    ensures { result.now ≡ layout_in rows.now class }
{
    match loaded_class_at(rows, class) {
        Some(row) => row.layout.as_slice(),
        None => &[],
    }
}

/// Whether a class is among the supertypes of a class that was loaded.
pub fn has_supertype(rows: &[Option<LoadedClass>], lower: u32, upper: u32) -> bool
    ensures { result ≡ is_among upper (supertypes_in rows.now lower) }
{
    match loaded_class_at(rows, lower) {
        Some(row) => row.supertypes.has(upper),
        None => false,
    }
}

// ---- a row from the rows of what the class names

/// Adds an interface and its superinterfaces.
fn add_interface(
    order: &mut Order,
    rows: &[Option<LoadedClass>],
    class: u32,
) -> Result<(), NoMemory>
    ensures { OnOk result (order.new ≡ with_interface rows.now order.old class) }
{
    order.add(class)?;
    order.add_all(superinterfaces_in(rows, class))
}

/// Adds interfaces, each with its superinterfaces.
fn add_interfaces(
    order: &mut Order,
    rows: &[Option<LoadedClass>],
    classes: &[u32],
) -> Result<(), NoMemory>
    ensures { OnOk result (order.new ≡ with_interfaces rows.now order.old classes.now) }
{
    for class in classes {
        add_interface(order, rows, *class)?;
    }
    Ok(())
}

/// Adds classes, each with its supertypes.
fn add_supertypes(
    order: &mut Order,
    rows: &[Option<LoadedClass>],
    classes: &[u32],
) -> Result<(), NoMemory>
    ensures { OnOk result (order.new ≡ with_supertypes rows.now order.old classes.now) }
{
    for class in classes {
        order.add_all(supertypes_in(rows, *class))?;
    }
    Ok(())
}

/// Adds the kinds of a class's own instance fields.
fn add_own(kinds: &mut Seq<Kind>, file: &ClassFile) -> Result<(), NoMemory>
    ensures { OnOk result (kinds.new ≡ kinds.old ++ own_kinds file.now) }
{
    for field in file.fields.as_slice() {
        if !has_flag(field.access, STATIC) {
            kinds.push(field_kind(file, field))?;
        }
    }
    Ok(())
}

impl LoadedClasses<'_> {
    fn superclasses_made(self, alloc: Global, class: u32) -> Result<Seq<u32>, NoMemory>
        ensures { IfOk result (λ classes. classes
            ≡ superclasses_made self.entry.index.now self.entry.rows.now class) }
    {
        let mut classes = Seq::new(alloc);
        classes.push(class)?;
        if let Some(above) = self.index.super_of(class) {
            classes.extend_from_slice(superclasses_in(self.rows, above))?;
        }
        Ok(classes)
    }

    /// Adds the superinterfaces of a class's superclass.
    fn add_inherited(self, order: &mut Order, class: u32) -> Result<(), NoMemory>
        ensures { OnOk result (order.new ≡ with_classes order.old
            (flat_map (superinterfaces_in self.entry.rows.now)
            (superclass_of self.entry.index.now class))) }
    {
        match self.index.super_of(class) {
            Some(above) => order.add_all(superinterfaces_in(self.rows, above)),
            None => Ok(()),
        }
    }

    fn superinterfaces_made(self, alloc: Global, class: u32) -> Result<Order, NoMemory>
        ensures { IfOk result (λ order. order
            ≡ superinterfaces_made self.entry.index.now self.entry.rows.now class) }
    {
        let mut order = Order::new(alloc);
        let direct = self.index.interfaces_of(alloc, class)?;
        add_interfaces(&mut order, self.rows, direct.as_slice())?;
        if !self.index.is_interface(class) {
            self.add_inherited(&mut order, class)?;
        }
        Ok(order)
    }

    /// Adds the superclass with its supertypes.
    fn add_superclass(self, order: &mut Order, class: u32) -> Result<(), NoMemory>
        ensures { OnOk result (order.new ≡ with_supertypes self.entry.rows.now order.old
            (superclass_of self.entry.index.now class)) }
    {
        match self.index.super_of(class) {
            Some(above) => order.add_all(supertypes_in(self.rows, above)),
            None => Ok(()),
        }
    }

    fn supertypes_made(self, alloc: Global, class: u32) -> Result<Order, NoMemory>
        ensures { IfOk result (λ order. order
            ≡ supertypes_made self.entry.index.now self.entry.rows.now class) }
    {
        let mut order = Order::new(alloc);
        order.add(class)?;
        let direct = self.index.interfaces_of(alloc, class)?;
        add_supertypes(&mut order, self.rows, direct.as_slice())?;
        self.add_superclass(&mut order, class)?;
        Ok(order)
    }

    fn layout_made(self, alloc: Global, class: u32) -> Result<Seq<Kind>, NoMemory>
        ensures { IfOk result (λ kinds. kinds
            ≡ layout_made self.entry.index.now self.entry.rows.now class) }
    {
        let mut kinds = Seq::new(alloc);
        if let Some(above) = self.index.super_of(class) {
            kinds.extend_from_slice(layout_in(self.rows, above))?;
        }
        if let Some(file) = self.index.file(class) {
            add_own(&mut kinds, file)?;
        }
        Ok(kinds)
    }

    /// The row of a class.
    pub fn loaded_class_made(self, alloc: Global, class: u32) -> Result<LoadedClass, NoMemory>
        ensures { IfOk result (λ row. row
            ≡ loaded_class_made self.entry.index.now self.entry.rows.now class) }
    {
        Ok(LoadedClass {
            superclasses: self.superclasses_made(alloc, class)?,
            superinterfaces: self.superinterfaces_made(alloc, class)?,
            supertypes: self.supertypes_made(alloc, class)?,
            layout: self.layout_made(alloc, class)?,
        })
    }
}
