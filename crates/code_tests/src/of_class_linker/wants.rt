//! Want of memory: whatever allocation fails, what was loaded before stays, and what was wanted is had the next time.
//! With ample memory nothing fails here; under `rt try --test --fail-alloc N` the Nth allocation does, whichever it is.

use super::classes::{are_named, shaped_program, text};
use super::loads::{in_the_end, is_wanted, loads, shapes};
use class_linker::{Linker, Loaded};
use jf_bytes::{NoMemory, Text16};
use std::alloc::Global;
use std::test::Fail;

/// A linker for the classes of the loads.
fn linker_made(alloc: Global) -> Option<Linker> {
    let program = shaped_program(alloc, shapes())?;
    Linker::new(alloc, program).ok()
}

/// The same, made anew where memory ran out.
fn made_again(alloc: Global) -> Option<Linker> {
    match linker_made(alloc) {
        Some(linker) => Some(linker),
        None => linker_made(alloc),
    }
}

fn name_of(alloc: Global, name: &str) -> Result<Text16, NoMemory> {
    match text(alloc, name) {
        Ok(name) => Ok(name),
        Err(NoMemory) => text(alloc, name),
    }
}

/// Whether so many of the names are those of the loaded classes.
fn are_loaded(linker: &Linker, count: usize) -> bool {
    match in_the_end().get(..count) {
        Some(names) => are_named(linker, linker.loaded(), names),
        None => false,
    }
}

/// What loading the name gives, with memory. None where something was loaded or lost by want of memory.
fn class_loaded(linker: &mut Linker, name: &Text16) -> Option<Loaded> {
    let count = linker.loaded().len();
    match linker.load(name) {
        Loaded::NoMemory => {
            if are_loaded(linker, count) {
                Some(linker.load(name))
            } else {
                None
            }
        }
        given => Some(given),
    }
}

#[test]
fn loads_whatever_fails(rt: HostRuntime) -> Result<(), Fail> {
    let alloc = rt.alloc();
    let mut linker = made_again(alloc).ok_or("a linker")?;
    for (name, wanted) in loads() {
        let given = class_loaded(&mut linker, &name_of(alloc, name)?).ok_or("what was loaded")?;
        assert!(rt; is_wanted(&linker, &given, wanted), "of {name}");
    }
    assert!(rt; are_loaded(&linker, in_the_end().len()));
    Ok(())
}
