//! What a load answers.

ghost use Rattle.std.specs.Prelude.{◌≡◌, drop, IfOk, OnOk};
ghost use Rattle.std.specs.Option.{option_map};
ghost use Rattle.jvm_model.specs.Classes.Load.{load_of};
ghost use Rattle.class_linker.specs.Linkers.{answer_by, answer_of, loaded_as};
ghost use Rattle.class_linker.specs.Linkers.{loaded_in, stopped_by};
ghost use Rattle.class_linker.specs.States.{IsLater, IsState, fault_view};

use crate::answers::Loaded;
use crate::kinds::kind_named;
use crate::loading::{Fault, LinkerState, load_all};
use base_classes::{
    CLASS_CIRCULARITY_ERROR, INCOMPATIBLE_CLASS_CHANGE_ERROR, NO_CLASS_DEF_FOUND_ERROR,
};
use class_index::Index;
use jf_bytes::{NoMemory, Seq};
use std::alloc::Global;

/// The classes were loaded, if there are any.
fn loaded_as(alloc: Global, kind: u32, classes: &[u32]) -> Result<Loaded, NoMemory>
    ensures { IfOk result (λ l. l ≡ loaded_as kind classes.now) }
{
    if classes.is_empty() {
        return Ok(Loaded::Already(kind));
    }
    Ok(Loaded::New(kind, Seq::from_slice(alloc, classes)?))
}

/// Loading was stopped when the classes were loaded.
fn load_stopped(alloc: Global, fault: Fault, classes: &[u32]) -> Result<Loaded, NoMemory>
    ensures { IfOk result (λ l. l ≡ stopped_by (fault_view fault) classes.now) }
{
    let loaded = Seq::from_slice(alloc, classes)?;
    Ok(match fault {
        Fault::NoClass(name) => Loaded::Throws(NO_CLASS_DEF_FOUND_ERROR, loaded, Some(name)),
        Fault::Circular => Loaded::Throws(CLASS_CIRCULARITY_ERROR, loaded, None),
        Fault::Incompatible => Loaded::Throws(INCOMPATIBLE_CLASS_CHANGE_ERROR, loaded, None),
    })
}

fn fault_told(
    alloc: Global,
    fault: Option<Fault>,
    kind: u32,
    classes: &[u32],
) -> Result<Loaded, NoMemory>
    ensures { IfOk result (λ l. l ≡ answer_by (option_map fault_view fault) kind classes.now) }
{
    match fault {
        None => loaded_as(alloc, kind, classes),
        Some(fault) => load_stopped(alloc, fault, classes),
    }
}

/// The classes behind the first ones.
fn behind(classes: &[u32], before: usize) -> &[u32]
    ensures { result.now ≡ drop before classes.now }
{
    classes.get(before..).unwrap_or(&[])
}

/// Loads what a name stands for, and tells what it gave. An Err may leave more classes loaded.
pub fn answer(
    alloc: Global,
    index: &Index,
    state: &mut LinkerState,
    name: &[u16],
) -> Result<Loaded, NoMemory>
    requires { IsState index.now state.old }
    ensures state { IsState index.now state.new }
    ensures later { IsLater state.old state.new }
    ensures answer { IfOk result (λ l. l ≡ answer_of index.now state.old.loaded name.now
        (load_of index.now state.old.loaded name.now)) }
    ensures loaded { OnOk result (state.new.loaded
        ≡ loaded_in (load_of index.now state.old.loaded name.now)) }
{
    let before = state.loaded.len();
    let fault = load_all(alloc, index, state, name)?;
    let kind = kind_named(index, name);
    fault_told(alloc, fault, kind, behind(state.loaded.as_slice(), before))
}
