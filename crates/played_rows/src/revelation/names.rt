//! Methods by their names, and their names: a class, a point, and a name.

ghost use Rattle.std.specs.Prelude.{◌≡◌, ◌++◌, position, IfOk, OnOk};
ghost use Rattle.std.specs.List.{flat_map};
ghost use Rattle.std.specs.Option.{option_and_then, option_copied};
ghost use Rattle.std.specs.String.{string_bytes};
ghost use Rattle.jvm_model.specs.Basis.Programs.{class_at};
ghost use Rattle.played_rows.specs.Revelation.Names.{class_shown, has_method, is_called, mark_shown, marks_shown_from, member_name};
ghost use Rattle.played_rows.specs.Revelation.Names.{method_called, method_shown, name_said, text_shown, unit_shown};

use crate::finding::LookUp;
use crate::names::{has_name, number_of};
use crate::words::split_at_first;
use const_pool::ClassFile;
use jf_bytes::{NoMemory, Text16};
use jvm_model::{Mark, MethodPlace, Program};
use std::alloc::Global;
use text_coding::from_utf8;

// ---- found

/// The name of a class, and that of a method in it.
#[derive(Drop)]
struct CalledMethod {
    class: Text16,
    name: Text16,
}

/// The class and the name that a word says.
fn name_in(alloc: Global, word: &str) -> Result<CalledMethod, NoMemory>
    ensures { IfOk result (λ n. n ≡ name_said word.now) }
{
    let (class, name) = split_at_first(word, '.');
    let class = from_utf8(alloc, class)?;
    let name = from_utf8(alloc, name)?;
    Ok(CalledMethod { class, name })
}

fn has_method(file: &ClassFile, position: u16, name: &Text16) -> bool
    ensures { result ≡ has_method name.now file.now position }
{
    match file.methods.get(position as usize) {
        Some(method) => file.pool.is_text(method.name, name),
        None => false,
    }
}

/// Whether a method has this name.
fn is_called(program: &Program, wanted: &CalledMethod, place: &MethodPlace) -> bool
    ensures { result ≡ is_called program.now wanted.now place.now }
{
    match program.classes.get(place.class as usize) {
        Some(file) => {
            has_name(file, &wanted.class) && has_method(file, place.position, &wanted.name)
        }
        None => false,
    }
}

/// Where the first method of this name stands among all.
fn place_of(program: &Program, wanted: &CalledMethod) -> Option<usize>
    ensures { result ≡ position (is_called program.now wanted.now) program.now.methods }
{
    program
        .methods
        .as_slice()
        .iter()
        .position(|place| is_called(program, wanted, place))
}

/// The number of the first method that has the name that a word says.
pub fn method_named(alloc: Global, program: &Program, word: &str) -> Result<Option<u32>, NoMemory>
    ensures { IfOk result (λ found. found ≡ method_called program.now word.now) }
{
    let wanted = name_in(alloc, word)?;
    Ok(number_of(place_of(program, &wanted)))
}

/// The methods of a program by their names.
#[derive(Drop)]
pub struct MethodNames<'a> {
    pub program: &'a Program,
}

impl<'a> LookUp for MethodNames<'a> {
    type Found = u32;

    ghost found = { λ names word. method_called names.program.now word };

    fn find(&self, alloc: Global, word: &str) -> Result<Option<u32>, NoMemory> {
        method_named(alloc, self.program, word)
    }
}

// ---- put

/// A unit as a character.
fn unit_shown(unit: u16) -> char
    ensures { result ≡ unit_shown unit }
{
    if unit < 256 {
        char::from(unit as u8)
    } else {
        '?'
    }
}

/// Puts a text.
fn put_text(out: &mut String, text: &Text16) -> Result<(), NoMemory>
    ensures { let old = string_bytes out.old in
        OnOk result (string_bytes out.new ≡ old ++ text_shown (Some text.now)) }
{
    for unit in text.units() {
        out.push(unit_shown(*unit))?;
    }
    Ok(())
}

/// Puts a text, where there is one.
fn put(out: &mut String, text: Option<&Text16>) -> Result<(), NoMemory>
    ensures { let old = string_bytes out.old in
        OnOk result (string_bytes out.new ≡ old ++ text_shown (option_copied text.entry)) }
{
    match text {
        Some(text) => put_text(out, text),
        None => Ok(()),
    }
}

/// Puts a space and the name of a class.
fn put_class(out: &mut String, program: &Program, class: u32) -> Result<(), NoMemory>
    ensures { let old = string_bytes out.old in
        OnOk result (string_bytes out.new ≡ old ++ class_shown program.now class) }
{
    out.push(' ')?;
    match program.classes.get(class as usize) {
        Some(file) => put(out, file.pool.class_name(file.this_class).ok()),
        None => Ok(()),
    }
}

/// Puts the name of the method at a position of a class.
fn put_member(out: &mut String, file: &ClassFile, position: u16) -> Result<(), NoMemory>
    ensures { let old = string_bytes out.old in
        OnOk result (string_bytes out.new ≡ old ++ text_shown (member_name file.now position)) }
{
    match file.methods.get(position as usize) {
        Some(method) => put(out, file.pool.text(method.name).ok()),
        None => Ok(()),
    }
}

/// Puts the name of the method at a position of the class at another.
fn put_name(out: &mut String, program: &Program, place: &MethodPlace) -> Result<(), NoMemory>
    ensures { let old = string_bytes out.old in
        let name = option_and_then (λ c. member_name c place.now.position)
        (class_at program.now place.now.class) in
        OnOk result (string_bytes out.new ≡ old ++ text_shown name) }
{
    match program.classes.get(place.class as usize) {
        Some(file) => put_member(out, file, place.position),
        None => Ok(()),
    }
}

/// Puts a space and the name of a method.
fn put_method(out: &mut String, program: &Program, method: usize) -> Result<(), NoMemory>
    ensures { let old = string_bytes out.old in
        OnOk result (string_bytes out.new ≡ old ++ method_shown program.now method) }
{
    let Some(place) = program.methods.at(method) else {
        return Ok(());
    };
    put_class(out, program, place.class)?;
    out.push('.')?;
    put_name(out, program, &place)
}

/// Puts the names of these classes.
pub fn put_classes(out: &mut String, program: &Program, classes: &[u32]) -> Result<(), NoMemory>
    ensures { let old = string_bytes out.old in
        let shown = flat_map (class_shown program.now) classes.now in
        OnOk result (string_bytes out.new ≡ old ++ shown) }
{
    for class in classes {
        put_class(out, program, *class)?;
    }
    Ok(())
}

/// Puts the names of these methods.
pub fn put_methods(out: &mut String, program: &Program, methods: &[u32]) -> Result<(), NoMemory>
    ensures { let old = string_bytes out.old in
        let shown = flat_map (method_shown program.now) methods.now in
        OnOk result (string_bytes out.new ≡ old ++ shown) }
{
    for method in methods {
        put_method(out, program, *method as usize)?;
    }
    Ok(())
}

/// Puts the name of a method that is marked, with a `!` behind that of a root.
fn put_mark(out: &mut String, program: &Program, method: usize, mark: Mark) -> Result<(), NoMemory>
    ensures { let old = string_bytes out.old in
        OnOk result (string_bytes out.new ≡ old ++ mark_shown program.now method mark) }
{
    match mark {
        Mark::Off => Ok(()),
        Mark::Plain => put_method(out, program, method),
        Mark::Root => {
            put_method(out, program, method)?;
            out.push('!')?;
            Ok(())
        }
    }
}

/// Puts the names of the methods that are marked, by the marks of all.
pub fn put_marks(out: &mut String, program: &Program, marks: &[Mark]) -> Result<(), NoMemory>
    ensures { let old = string_bytes out.old in
        OnOk result (string_bytes out.new ≡ old ++ marks_shown_from program.now 0 marks.now) }
{
    for (method, mark) in marks.iter().enumerate() {
        put_mark(out, program, method, *mark)?;
    }
    Ok(())
}
