//! The constants of a class (JVM Specification 4.7.2, 5.5): the first part of its initialization.

ghost use Rattle.std.specs.Prelude.{◌≡◌, IfOk, OnOk};
ghost use Rattle.std.specs.Option.{option_map};
ghost use Rattle.const_pool.specs.References.{named_text};
ghost use Rattle.jvm_model.specs.Running.Constants.{Units};
ghost use Rattle.jvm_model.specs.Running.Constants.{constant_among, constant_at, constant_for, constant_of};
ghost use Rattle.jvm_model.specs.Running.Constants.{sets_constants, sets_field, sets_fields, sets_string};
ghost use Rattle.jvm_model.specs.Basis.SharedState.{kind_for, string};
ghost use Rattle.symbolic_references.specs.Held.{IsSetting, constant_view, field_of};
ghost use Rattle.class_linker.specs.Linkers.{LinkerView};
ghost use Rattle.jvm_model.specs.declared.program.Program.{Program};
ghost use Rattle.jvm_model.specs.declared.state.Shared.{Shared};
ghost use Rattle.member_selection.specs.Objects.{AreLoaded, IsUsable};
ghost use Rattle.symbolic_references.specs.Runtimes.{with_fields, with_shared};

use crate::held::field_narrowed;
use crate::runtime::Runtime;
use crate::runtime::creation::RESERVED;
use crate::static_fields::set_static;
use base_classes::STATIC;
use class_index::field_kind;
use const_pool::{Attribute, ClassFile, Const, Kind, Member, Pool};
use heap_objects::{Datum, Heap, HeapError};
use jf_bytes::{NoMemory, Seq, Text16};
use jvm_model::has_flag;
use std::alloc::Global;

/// A number, or the units of a String.
#[derive(Clone, Copy)]
pub enum FieldConstant<'a> {
    Number(Datum),
    Units(&'a Text16),
}

/// The index that the ConstantValue has.
fn constant_among(attributes: &[Attribute]) -> Option<u16>
    ensures { result ≡ constant_among attributes.now }
{
    for attribute in attributes {
        if let Attribute::ConstantValue(_, value) = attribute {
            return Some(*value);
        }
    }
    None
}

/// The units of a text entry.
fn units_at(pool: &Pool, index: u16) -> Option<FieldConstant<'_>>
    ensures { option_map constant_view result ≡ option_map Units (named_text pool.now index) }
{
    match pool.text(index) {
        Ok(text) => Some(FieldConstant::Units(text)),
        Err(_) => None,
    }
}

/// The constant that an entry is, for a field of this kind.
fn constant_of<'a>(pool: &'a Pool, kind: Kind, entry: &Const) -> Option<FieldConstant<'a>>
    ensures { option_map constant_view result ≡ constant_of pool.now kind entry.now }
{
    match entry {
        Const::Integer(n) => Some(FieldConstant::Number(field_narrowed(kind, Datum::Int(*n)))),
        Const::Long(n) => Some(FieldConstant::Number(Datum::Long(*n))),
        Const::Text(index) => units_at(pool, *index),
        _ => None,
    }
}

/// The constant at an index of the pool.
fn constant_at<'a>(file: &'a ClassFile, field: &Member, index: u16) -> Option<FieldConstant<'a>>
    ensures { option_map constant_view result ≡ constant_at file.now field.now index }
{
    let entry = file.pool.get(index)?;
    constant_of(&file.pool, field_kind(file, field), entry)
}

/// The constant of a field: of one that is not static the attribute is ignored.
fn constant_for<'a>(file: &'a ClassFile, field: &Member) -> Option<FieldConstant<'a>>
    ensures { option_map constant_view result ≡ constant_for file.now field.now }
{
    if !has_flag(field.access, STATIC) {
        return None;
    }
    let index = constant_among(field.attributes.as_slice())?;
    constant_at(file, field, index)
}

/// Sets a static field to a String, which is made once for equal units. Where it does not fit,
/// object 1 is thrown.
fn set_string(
    alloc: Global,
    string_kind: u32,
    class: u32,
    position: usize,
    units: &Text16,
    heap: &mut Heap,
    statics: &mut Seq<Seq<Datum>>,
) -> Result<Option<u32>, NoMemory>
    ensures set { (p : Program) (s : Shared) → string_kind ≡ kind_for p string →
        IsSetting result (with_fields heap.new statics.new s)
        (sets_string p (field_of class position) units.now (with_fields heap.old statics.old s)) }
    ensures loaded { (l : LinkerView) → IsUsable l string_kind → AreLoaded l heap.old
        → AreLoaded l heap.new }
{
    match heap.intern(string_kind, units.units()) {
        Ok(number) => {
            let text = Datum::Ref(number);
            set_static(alloc, statics, class, position, text);
            Ok(None)
        }
        Err(HeapError::HeapFull) => Ok(Some(RESERVED)),
        Err(HeapError::NoMemory) => Err(NoMemory),
    }
}

/// Sets a static field, where it has a constant.
fn set_field(
    alloc: Global,
    string_kind: u32,
    class: u32,
    position: usize,
    constant: Option<FieldConstant<'_>>,
    heap: &mut Heap,
    statics: &mut Seq<Seq<Datum>>,
) -> Result<Option<u32>, NoMemory>
    ensures set { (p : Program) (s : Shared) → string_kind ≡ kind_for p string →
        let constant_then = option_map constant_view constant.entry in
        IsSetting result (with_fields heap.new statics.new s)
        (sets_field p (field_of class position) constant_then
        (with_fields heap.old statics.old s)) }
    ensures loaded { (l : LinkerView) → IsUsable l string_kind → AreLoaded l heap.old
        → AreLoaded l heap.new }
{
    match constant {
        None => Ok(None),
        Some(FieldConstant::Number(value)) => {
            set_static(alloc, statics, class, position, value);
            Ok(None)
        }
        Some(FieldConstant::Units(units)) => {
            set_string(alloc, string_kind, class, position, units, heap, statics)
        }
    }
}

/// Sets the fields of a class file, in order, until something is thrown.
fn set_fields(
    alloc: Global,
    string_kind: u32,
    class: u32,
    file: &ClassFile,
    heap: &mut Heap,
    statics: &mut Seq<Seq<Datum>>,
) -> Result<Option<u32>, NoMemory>
    ensures set { (p : Program) (s : Shared) → string_kind ≡ kind_for p string →
        IsSetting result (with_fields heap.new statics.new s)
        (sets_fields p file.now class 0 file.now.fields (with_fields heap.old statics.old s)) }
    ensures loaded { (l : LinkerView) → IsUsable l string_kind → AreLoaded l heap.old
        → AreLoaded l heap.new }
{
    for (position, field) in file.fields.as_slice().iter().enumerate() {
        let constant = constant_for(file, field);
        let thrown = set_field(alloc, string_kind, class, position, constant, heap, statics)?;
        if thrown.is_some() {
            return Ok(thrown);
        }
    }
    Ok(None)
}

impl Runtime {
    /// Sets the static fields of a class that have a ConstantValue, in the order of the class file
    /// (4.7.2, 5.5). The answer is the object that is thrown: object 1 where a String does not fit
    /// into the heap; what was set before stays.
    pub fn set_constants(&mut self, class: u32) -> Result<Option<u32>, NoMemory>
        ensures thrown { IfOk result (λ thrown. thrown
            ≡ (sets_constants self.old.world.program class self.old.shared).thrown) }
        ensures runtime { OnOk result (self.new ≡ with_shared
            (sets_constants self.old.world.program class self.old.shared).shared self.old) }
        ensures world { self.new.world ≡ self.old.world }
        ensures same_loaded { self.new.shared.loaded ≡ self.old.shared.loaded }
    {
        let string_kind = self.string_kind();
        match self.linker.program().classes.get(class as usize) {
            Some(file) => set_fields(
                self.alloc,
                string_kind,
                class,
                file,
                &mut self.heap,
                &mut self.statics,
            ),
            None => Ok(None),
        }
    }
}
