//! Classes that are written out: made as bytes, read, and put before the built-in ones.

ghost use Rattle.std.specs.Prelude.{IfSome};
ghost use Rattle.std.specs.List.{AllByRecursion};
ghost use Rattle.const_pool.specs.ClassFile.{IsClassFile};
ghost use Rattle.class_index.specs.Indices.{IsLinkable};

use base_classes::built_in;
use class_linker::Linker;
use class_reader::read_class;
use const_pool::ClassFile;
use jf_bytes::{NoMemory, Seq, Text16};
use jvm_model::Program;
use std::alloc::Global;
use text_coding::from_utf8;

/// A class without members: its flags, its name, its superclass's and its superinterfaces'.
pub(super) type Shape = (u16, &'static str, &'static str, &'static [&'static str]);

pub(super) const OBJECT: &str = "java/lang/Object";

/// The flags of a class, and of an interface.
pub(super) const CLASS: u16 = 0x21;

pub(super) const INTERFACE: u16 = 0x601;

// ---- a class as bytes

fn put_number(bytes: &mut Vec<u8>, number: u16) -> Result<(), NoMemory> {
    bytes.extend_from_slice(&number.to_be_bytes())?;
    Ok(())
}

fn put_count(bytes: &mut Vec<u8>, count: usize) -> Result<(), NoMemory> {
    put_number(bytes, u16::try_from(count).unwrap_or(u16::MAX))
}

/// Puts a Utf8 entry.
fn put_text(bytes: &mut Vec<u8>, text: &str) -> Result<(), NoMemory> {
    bytes.push(1)?;
    put_count(bytes, text.len())?;
    bytes.extend_from_slice(text.as_bytes())?;
    Ok(())
}

/// Puts a name, which stands at this index, and the class of that name. Gives the index behind both.
fn put_class(bytes: &mut Vec<u8>, at: u16, name: &str) -> Result<u16, NoMemory> {
    put_text(bytes, name)?;
    bytes.push(7)?;
    put_number(bytes, at)?;
    Ok(at.saturating_add(2))
}

/// Puts names and the classes of those names. Gives the index behind all of them.
fn put_classes(bytes: &mut Vec<u8>, at: u16, names: &[&str]) -> Result<u16, NoMemory> {
    let mut at = at;
    for name in names {
        at = put_class(bytes, at, name)?;
    }
    Ok(at)
}

/// Puts the indices of so many classes, from the third one of the pool on.
fn put_indices(bytes: &mut Vec<u8>, count: usize) -> Result<(), NoMemory> {
    let mut index: u16 = 6;
    put_count(bytes, count)?;
    for _ in 0..count {
        put_number(bytes, index)?;
        index = index.saturating_add(2);
    }
    Ok(())
}

/// The bytes of a class of version 49.0.
fn bytes_of(alloc: Global, shape: &Shape) -> Result<Vec<u8>, NoMemory> {
    let (access, name, above, interfaces) = shape;
    let mut pool = Vec::new(alloc);
    let at = put_classes(&mut pool, 1, &[name, above])?;
    let at = put_classes(&mut pool, at, interfaces)?;
    let mut body = Vec::new(alloc);
    for number in [*access, 2, 4] {
        put_number(&mut body, number)?;
    }
    put_indices(&mut body, interfaces.len())?;
    body.extend_from_slice(&[0, 0, 0, 0, 0, 0])?;
    let mut bytes = Vec::from_slice(alloc, b"\xCA\xFE\xBA\xBE\0\0\0\x31")?;
    put_number(&mut bytes, at)?;
    bytes.extend_from_slice(pool.as_slice())?;
    bytes.extend_from_slice(body.as_slice())?;
    Ok(bytes)
}

// ---- a program

fn class_of(alloc: Global, shape: &Shape) -> Option<ClassFile>
    ensures { IfSome result IsClassFile }
{
    let bytes = bytes_of(alloc, shape).ok()?;
    read_class(alloc, bytes.as_slice()).ok()
}

#[tactic(auto, using(crate::proofs::Lists::all_more))]
fn classes_of(alloc: Global, shapes: &[Shape]) -> Option<Vec<ClassFile>>
    ensures { IfSome result (λ classes. AllByRecursion IsClassFile classes.items) }
{
    let mut classes = Vec::new(alloc);
    for shape in shapes {
        classes.push(class_of(alloc, shape)?).ok()?;
    }
    Some(classes)
}

// ---- a linker

/// The classes, and the built-in ones behind them.
#[tactic(auto, using(crate::proofs::Lists::all_both))]
fn with_built_in(alloc: Global, own: Vec<ClassFile>) -> Option<Vec<ClassFile>>
    requires { AllByRecursion IsClassFile own.items }
    ensures { IfSome result (λ classes. AllByRecursion IsClassFile classes.items) }
{
    let mut classes = own;
    let mut more = built_in(alloc).ok()?;
    classes.append(&mut more).ok()?;
    Some(classes)
}

fn program_of(alloc: Global, own: Vec<ClassFile>) -> Option<Program>
    requires { AllByRecursion IsClassFile own.items }
    ensures { IfSome result IsLinkable }
{
    let classes = with_built_in(alloc, own)?;
    if classes.len() > 4149 {
        return None;
    }
    Some(Program {
        classes: Seq::from_vec(classes),
        methods: Seq::new(alloc),
        main: 0,
        acts: Seq::new(alloc),
        args: Seq::new(alloc),
        heap: 0,
    })
}

/// A program of these classes and the built-in ones.
pub(super) fn shaped_program(alloc: Global, shapes: &[Shape]) -> Option<Program>
    ensures { IfSome result IsLinkable }
{
    program_of(alloc, classes_of(alloc, shapes)?)
}

// ---- names

pub(super) fn text(alloc: Global, ascii: &str) -> Result<Text16, NoMemory> {
    from_utf8(alloc, ascii)
}

/// Whether the class at this position has this name.
fn is_named(linker: &Linker, class: u32, name: &str) -> bool {
    match linker.program().classes.get(class as usize) {
        Some(file) => match file.pool.class_name(file.this_class) {
            Ok(own) => own.is_bytes(name.as_bytes()),
            Err(_) => false,
        },
        None => false,
    }
}

/// Whether these are the classes of these names, in order.
pub(super) fn are_named(linker: &Linker, classes: &[u32], names: &[&str]) -> bool {
    if classes.len() != names.len() {
        return false;
    }
    for (class, name) in classes.iter().zip(names) {
        if !is_named(linker, *class, name) {
            return false;
        }
    }
    true
}
