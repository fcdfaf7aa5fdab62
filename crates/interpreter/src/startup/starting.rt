//! The state before the start, in which the built-in classes are loaded and ready, and the start
//! (JVM Specification 5.2, 5.3, 5.5).

ghost use Rattle.std.specs.Prelude.{◌≡◌, ◌≤◌, [], IfOk, map, unwrap_or};
ghost use Rattle.std.specs.Option.{option_and_then};
ghost use Rattle.const_pool.specs.References.{named_text};
ghost use Rattle.jvm_model.specs.Basis.Programs.{has_name};
ghost use Rattle.jvm_model.specs.Basis.SharedState.{phase_before, shared_before, static_zeros};
ghost use Rattle.jvm_model.specs.Basis.SharedState.{system_static, system_stream, zero_for, zeros};
ghost use Rattle.jvm_model.specs.Running.Run.{before};
ghost use Rattle.jvm_model.specs.Soundness.Sound.{IsFit};
ghost use Rattle.prepared_code.specs.States.{state_in};
ghost use Rattle.prepared_code.specs.Originals.{AreNamesKnown};

use crate::startup::first_objects::heap_before;
use class_linker::Linker;
use const_pool::{ClassFile, Member, Pool};
use frame_stack::Frames;
use heap_objects::Datum;
use jf_bytes::{NoMemory, Seq, Text16};
use jvm_model::Phase;
use native_effects::Made;
use prepared_code::{Originals, Parts, has_built_in_name};
use std::alloc::Global;
use symbolic_references::{Beginning, Runtime};

/// The letters with which the descriptors of longs, objects and arrays begin.
const LONG: u16 = 74;

const CLASS: u16 = 76;

const ARRAY: u16 = 91;

/// The phase of a class before the start.
fn phase_of(class: &ClassFile) -> Phase
    ensures { result ≡ phase_before class.now }
{
    if has_built_in_name(class) {
        Phase::Ready
    } else {
        Phase::Fresh
    }
}

/// The phases of all classes.
fn phases_of(alloc: Global, classes: &[ClassFile]) -> Result<Seq<Phase>, NoMemory>
    ensures { IfOk result (λ phases. phases ≡ map phase_before classes.now) }
{
    let mut phases = Seq::with_capacity(alloc, classes.len())?;
    for class in classes {
        phases.push(phase_of(class))?;
    }
    Ok(phases)
}

/// The value that a static field of this descriptor has at first (2.3, 2.4).
fn zero_for(descriptor: &[u16]) -> Datum
    ensures { result ≡ zero_for descriptor.now }
{
    match descriptor {
        [LONG, ..] => Datum::Long(0),
        [CLASS | ARRAY, ..] => Datum::Ref(0),
        _ => Datum::Int(0),
    }
}

/// The value that a field has at first.
fn zero_in(pool: &Pool, field: &Member) -> Datum
    ensures { result ≡ zero_for (unwrap_or (named_text pool.now field.now.descriptor) []) }
{
    match pool.text(field.descriptor) {
        Ok(descriptor) => zero_for(descriptor.units()),
        Err(_) => zero_for(&[]),
    }
}

/// The first values of a class's fields.
fn zeros(alloc: Global, class: &ClassFile) -> Result<Seq<Datum>, NoMemory>
    ensures { IfOk result (λ values. values ≡ zeros class.now) }
{
    let mut values = Seq::with_capacity(alloc, class.fields.len())?;
    for field in class.fields.as_slice() {
        values.push(zero_in(&class.pool, field))?;
    }
    Ok(values)
}

/// The object that a field of java/lang/System with this name holds: 2, 3 or 4.
fn system_stream(name: &Text16) -> Option<u32>
    ensures { result ≡ system_stream name.now }
{
    if name.is_bytes(b"in") {
        Some(2)
    } else if name.is_bytes(b"out") {
        Some(3)
    } else if name.is_bytes(b"err") {
        Some(4)
    } else {
        None
    }
}

/// The stream that a field of java/lang/System holds, if it holds one.
fn stream_in(pool: &Pool, field: &Member) -> Option<u32>
    ensures { result ≡ option_and_then system_stream (named_text pool.now field.now.name) }
{
    match pool.text(field.name) {
        Ok(name) => system_stream(name),
        Err(_) => None,
    }
}

/// The first value of a field of java/lang/System.
fn system_static(class: &ClassFile, field: &Member) -> Datum
    ensures { result ≡ system_static class.now field.now }
{
    match stream_in(&class.pool, field) {
        Some(object) => Datum::Ref(object),
        None => zero_in(&class.pool, field),
    }
}

/// The first values of the fields of java/lang/System.
fn system_statics(alloc: Global, class: &ClassFile) -> Result<Seq<Datum>, NoMemory>
    ensures { IfOk result (λ values. values ≡ map (system_static class.now) class.now.fields) }
{
    let mut values = Seq::with_capacity(alloc, class.fields.len())?;
    for field in class.fields.as_slice() {
        values.push(system_static(class, field))?;
    }
    Ok(values)
}

/// Whether the name of a class is these bytes.
fn has_name(class: &ClassFile, name: &[u8]) -> bool
    ensures { result ≡ has_name name.now class.now }
{
    match class.pool.class_name(class.this_class) {
        Ok(found) => found.is_bytes(name),
        Err(_) => false,
    }
}

/// The first values of a class's static fields; every field has a place for one.
fn static_zeros(alloc: Global, class: &ClassFile) -> Result<Seq<Datum>, NoMemory>
    ensures { IfOk result (λ values. values ≡ static_zeros class.now) }
{
    if has_name(class, b"java/lang/System") {
        system_statics(alloc, class)
    } else {
        zeros(alloc, class)
    }
}

/// Those of all classes.
fn statics_of(alloc: Global, classes: &[ClassFile]) -> Result<Seq<Seq<Datum>>, NoMemory>
    ensures { IfOk result (λ statics. statics ≡ map static_zeros classes.now) }
{
    let mut statics = Seq::with_capacity(alloc, classes.len())?;
    for class in classes {
        statics.push(static_zeros(alloc, class)?)?;
    }
    Ok(statics)
}

/// What all share before the start.
fn beginning_of(alloc: Global, linker: &Linker) -> Result<Beginning, NoMemory>
    requires { 1024 ≤ linker.now.program.heap }
    ensures phases { IfOk result (λ b. b.phases ≡ (shared_before linker.now.program).phases) }
    ensures statics { IfOk result (λ b. b.statics ≡ (shared_before linker.now.program).statics) }
    ensures heap { IfOk result (λ b. b.heap ≡ (shared_before linker.now.program).heap) }
    ensures made { IfOk result (λ b. b.made ≡ (shared_before linker.now.program).made) }
{
    let classes = linker.program().classes.as_slice();
    Ok(Beginning {
        phases: phases_of(alloc, classes)?,
        statics: statics_of(alloc, classes)?,
        heap: heap_before(alloc, linker)?,
        made: Made::new(alloc),
    })
}

/// The parts before the start of a prepared program on this input.
pub fn parts_before(alloc: Global, originals: &Originals, input: Seq<u8>) -> Result<Parts, NoMemory>
    requires fit { IsFit originals.now.program }
    requires room { 1024 ≤ originals.now.program.heap }
    requires rows { originals.now.rows ≡ [] }
    ensures state { IfOk result (λ p. state_in p
        ≡ before (record { program = originals.now.program; input = input })) }
    ensures world { IfOk result (λ p. p.runtime.world
        ≡ record { program = originals.now.program; input = input }) }
    ensures known { IfOk result (λ p. AreNamesKnown originals.now p.runtime) }
{
    let linker = originals.linker_before(alloc)?;
    let tables = originals.tables_before(alloc)?;
    let beginning = beginning_of(alloc, &linker)?;
    Ok(Parts {
        frames: Frames::new(alloc),
        thrown: None,
        begun: false,
        runtime: Runtime::new(alloc, linker, tables, input, beginning),
        ending: None,
    })
}
