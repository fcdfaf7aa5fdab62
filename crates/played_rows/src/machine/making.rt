//! Makes the machine of a row.

ghost use Rattle.std.specs.Prelude.{◌≡◌, ◌<◌, ℕ, List, [], map, Ok, IfOk, OnOk};
ghost use Rattle.std.specs.List.{AllByRecursion};
ghost use Rattle.const_pool.specs.ClassFile.{IsClassFile};
ghost use Rattle.jf_bytes.specs.Unicode.{utf16_of};
ghost use Rattle.class_reader.specs.Files.{IsFile};
ghost use Rattle.plan_text.specs.Lines.{silent_plan};
ghost use Rattle.admit_check.specs.Admission.{admission_of};
ghost use Rattle.jvm_machine.specs.View.{machine_made};
ghost use Rattle.played_rows.specs.Files.{IsFileAt};
ghost use Rattle.played_rows.specs.Machine.Making.{AddsClass, AreClasses, IsMade, main_said};
ghost use Rattle.played_rows.specs.Machine.Ready.{IsFresh};
ghost use Rattle.program_fit.specs.Runnable.{IsAdmitted};

use crate::machine::parts::{RowError, fetch_file, line_parted};
use admit_check::admit;
use byte_streams::Files;
use class_reader::{ReadError, read_class};
use code_admission::AdmitError;
use const_pool::ClassFile;
use jf_bytes::{NoMemory, Seq};
use jvm_machine::Vm;
use jvm_model::Program;
use plan_text::silent;
use std::alloc::Global;
use text_coding::from_utf8;

/// The most classes of a program.
const MOST_CLASSES: usize = 4096;

/// The class of the class file at a path.
fn read_file<F: Files>(alloc: Global, path: &str, files: &mut F) -> Result<ClassFile, RowError>
    ensures formed { IfOk result IsClassFile }
    ensures read { let told = F.contents files.old in IfOk result (λ c.
        (bytes : List ℕ) × IsFileAt told path.now bytes × IsFile bytes c) }
    ensures stay { F.contents files.new ≡ F.contents files.old }
{
    let bytes = fetch_file(alloc, path, files)?;
    match read_class(alloc, &bytes) {
        Ok(class) => Ok(class),
        Err(ReadError::NoMemory) => Err(RowError::NoMemory),
        Err(_) => Err(RowError::NotRead(String::from_str(alloc, path)?)),
    }
}

/// Adds the class of the file that a line `class FILE` names.
fn add_class<F: Files>(
    alloc: Global,
    classes: &mut Seq<ClassFile>,
    line: &str,
    files: &mut F,
) -> Result<(), RowError>
    requires { AllByRecursion IsClassFile classes.old }
    ensures formed { OnOk result (AllByRecursion IsClassFile classes.new) }
    ensures added { let told = F.contents files.old in
        OnOk result (AddsClass told line.now classes.old classes.new) }
    ensures stay { F.contents files.new ≡ F.contents files.old }
{
    let (word, path) = line_parted(line);
    if word == "class" {
        let class = match read_file(alloc, path, files) {
            Ok(class) => class,
            Err(error) => return Err(error),
        };
        let Ok(()) = classes.push(class) else {
            return Err(RowError::NoMemory);
        };
        return Ok(());
    }
    Ok(())
}

/// The classes that the lines `class FILE` of a row name.
fn read_classes<F: Files>(
    alloc: Global,
    lines: &[&str],
    files: &mut F,
) -> Result<Seq<ClassFile>, RowError>
    ensures formed { IfOk result (AllByRecursion IsClassFile) }
    ensures read { let told = F.contents files.old in
        IfOk result (AreClasses told (map (λ l. l.now) lines.now)) }
    ensures stay { F.contents files.new ≡ F.contents files.old }
{
    let mut classes = Seq::new(alloc);
    for line in lines {
        match add_class(alloc, &mut classes, line, files) {
            Ok(()) => {}
            Err(error) => return Err(error),
        }
    }
    Ok(classes)
}

/// The main class that the line `main NAME` of a row names.
fn main_of<'a>(lines: &[&'a str]) -> &'a str
    ensures { result.now ≡ main_said (map (λ l. l.now) lines.now) }
{
    for line in lines {
        let (word, name) = line_parted(line);
        if word == "main" {
            return name;
        }
    }
    ""
}

/// The program of these classes, with the main class of this name.
fn program_of(alloc: Global, classes: Seq<ClassFile>, main: &str) -> Result<Program, RowError>
    requires { AllByRecursion IsClassFile classes }
    ensures admitted { IfOk result IsAdmitted }
    ensures program { IfOk result (λ p.
        admission_of classes (utf16_of main.now) silent_plan ≡ Ok p) }
{
    let Ok(name) = from_utf8(alloc, main) else {
        return Err(RowError::NoMemory);
    };
    if classes.len() > MOST_CLASSES {
        return Err(RowError::NotAdmitted(String::from_str(alloc, main)?));
    }
    match admit(alloc, classes, &name, &silent(alloc)) {
        Ok(program) => Ok(program),
        Err(AdmitError::NoMemory) => Err(RowError::NoMemory),
        Err(_) => Err(RowError::NotAdmitted(String::from_str(alloc, main)?)),
    }
}

/// A new machine, in a place of its own.
fn machine_placed(alloc: Global, program: Program) -> Result<Box<Vm>, NoMemory>
    requires { IsAdmitted program }
    ensures fresh { IfOk result (λ vm. IsFresh vm.value) }
    ensures made { IfOk result (λ vm. vm.value ≡ machine_made program []) }
{
    Ok(Box::new(alloc, Vm::new(alloc, program, Vec::new(alloc))?)?)
}

/// The machine of a row, on no input.
pub fn make<F: Files>(alloc: Global, lines: &[&str], files: &mut F) -> Result<Box<Vm>, RowError>
    ensures fresh { IfOk result (λ vm. IsFresh vm.value) }
    ensures made { let told = F.contents files.old in
        IfOk result (λ vm. IsMade told (map (λ l. l.now) lines.now) vm.value) }
    ensures stay { F.contents files.new ≡ F.contents files.old }
{
    let classes = match read_classes(alloc, lines, files) {
        Ok(classes) => classes,
        Err(error) => return Err(error),
    };
    match program_of(alloc, classes, main_of(lines)) {
        Ok(program) => match machine_placed(alloc, program) {
            Ok(vm) => Ok(vm),
            Err(NoMemory) => Err(RowError::NoMemory),
        },
        Err(error) => Err(error),
    }
}
