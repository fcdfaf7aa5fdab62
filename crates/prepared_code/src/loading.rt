//! Loading classes of a program by their positions, and the built-in ones before the start (JVM
//! Specification 5.3).

ghost use Rattle.std.specs.Prelude.{◌≡◌, ◌<◌, ◌^◌, [], false, length, unwrap_or, IfOk, OnOk};
ghost use Rattle.std.specs.Option.{option_map_or};
ghost use Rattle.class_linker.specs.Linkers.{IsAnswer, load_answer, loaded_by};
ghost use Rattle.jvm_model.specs.Basis.Programs.{class_at, has_built_in_name, name_at};
ghost use Rattle.prepared_code.specs.Prepared.{built_in_then, load_built_in, main_name};

use base_classes::is_built_in;
use class_index::Index;
use class_linker::{Linker, Loaded};
use const_pool::{ClassFile, text_copy};
use jf_bytes::{NoMemory, Text16};
use jvm_model::Program;
use prepared_lines::main_class;
use std::alloc::Global;

/// Whether a class has the name of a built-in one.
pub fn has_built_in_name(class: &ClassFile) -> bool
    ensures { result ≡ has_built_in_name class.now }
{
    match class.pool.class_name(class.this_class) {
        Ok(name) => is_built_in(name),
        Err(_) => false,
    }
}

/// A copy of the name of the class at a position; the empty text where there is none.
fn name_at(alloc: Global, index: &Index, class: u32) -> Result<Text16, NoMemory>
    ensures { IfOk result (λ name. name ≡ unwrap_or (name_at index.now class) []) }
{
    match index.name_at(class) {
        Some(name) => text_copy(alloc, name),
        None => Ok(Text16::new(Vec::new(alloc))),
    }
}

/// A copy of the name of the main class; the empty text where there is none.
pub fn main_name(alloc: Global, index: &Index) -> Result<Text16, NoMemory>
    ensures { IfOk result (λ name. name ≡ main_name index.now) }
{
    name_at(alloc, index, main_class(index.program()))
}

/// Loads the class at a position by its name, with what it needs.
fn load_class(alloc: Global, linker: &mut Linker, class: u32) -> Result<Loaded, NoMemory>
    ensures answer { let name = unwrap_or (name_at linker.old.program class) [] in
        IfOk result (λ a. IsAnswer a (load_answer linker.old name)) }
    ensures loaded { let name = unwrap_or (name_at linker.old.program class) [] in
        IfOk result (λ a. linker.new ≡ loaded_by a name linker.old) }
    ensures program { linker.new.program ≡ linker.old.program }
{
    let name = name_at(alloc, linker.index(), class)?;
    Ok(linker.load(&name))
}

// ---- the built-in classes

/// Whether the class at a position has the name of a built-in one.
fn is_built_in_at(program: &Program, class: u32) -> bool
    ensures { result ≡ option_map_or has_built_in_name (class_at program.now class) false }
{
    match program.classes.get(class as usize) {
        Some(file) => has_built_in_name(file),
        None => false,
    }
}

/// Loads the class at a position, where it is a built-in one.
fn load_if_built_in(alloc: Global, linker: &mut Linker, class: u32) -> Result<(), NoMemory>
    ensures loaded { OnOk result (linker.new.loaded
        ≡ built_in_then linker.old.program class linker.old.loaded) }
    ensures program { linker.new.program ≡ linker.old.program }
{
    if !is_built_in_at(linker.program(), class) {
        return Ok(());
    }
    match load_class(alloc, linker, class)? {
        Loaded::New(..) | Loaded::Already(_) | Loaded::Throws(..) => Ok(()),
        Loaded::NoMemory => Err(NoMemory),
    }
}

/// Loads the built-in classes, in their order.
pub fn load_built_in(alloc: Global, linker: &mut Linker) -> Result<(), NoMemory>
    requires { length linker.old.program.classes < 2 ^ 32 }
    ensures loaded { let p = linker.old.program in OnOk result
        (linker.new.loaded ≡ load_built_in p p.classes linker.old.loaded) }
    ensures program { linker.new.program ≡ linker.old.program }
{
    let count = linker.program().classes.len();
    for class in 0..count {
        load_if_built_in(alloc, linker, class as u32)?;
    }
    Ok(())
}
