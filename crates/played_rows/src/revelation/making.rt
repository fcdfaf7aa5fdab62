//! Makes the program of a row.

ghost use Rattle.std.specs.Prelude.{◌≡◌, codes, map, Ok, IfErr, IfOk};
ghost use Rattle.std.specs.List.{AllByRecursion, AllZip};
ghost use Rattle.jf_bytes.specs.Unicode.{utf16_of};
ghost use Rattle.const_pool.specs.ClassFile.{IsClassFile};
ghost use Rattle.class_reader.specs.Files.{IsFile};
ghost use Rattle.plan_text.specs.Lines.{silent_plan};
ghost use Rattle.admit_check.specs.Admission.{admission_of};
ghost use Rattle.played_rows.specs.Revelation.Judging.{AreUnadmitted, AreUnmade};
ghost use Rattle.played_rows.specs.Revelation.Judging.{IsProgramOf, IsUnread};
ghost use Rattle.program_fit.specs.Runnable.{IsAdmitted};

use crate::revelation::parts::RowError;
use admit_check::admit;
use class_reader::{ReadError, read_class};
use code_admission::AdmitError;
use const_pool::ClassFile;
use jf_bytes::Seq;
use jvm_model::Program;
use plan_text::silent;
use std::alloc::Global;
use text_coding::from_utf8;

/// The most classes of a program.
const MOST_CLASSES: usize = 4096;

/// The class of a class file.
fn read_file(alloc: Global, bytes: &[u8]) -> Result<ClassFile, RowError>
    ensures formed { IfOk result IsClassFile }
    ensures read { IfOk result (IsFile bytes.now) }
    ensures unread { IfErr result (IsUnread bytes.now) }
{
    let fault = match read_class(alloc, bytes) {
        Ok(class) => return Ok(class),
        Err(fault) => fault,
    };
    if let ReadError::NoMemory = fault {
        return Err(RowError::NoMemory);
    }
    Err(RowError::NotRead)
}

fn read_classes(alloc: Global, files: &[Vec<u8>]) -> Result<Seq<ClassFile>, RowError>
    ensures formed { IfOk result (AllByRecursion IsClassFile) }
    ensures read { IfOk result (AllZip IsFile (map (λ f. f.items) files.now)) }
    ensures unread { IfErr result (AreUnmade (map (λ f. f.items) files.now)) }
{
    let mut classes = Seq::new(alloc);
    for bytes in files {
        let class = match read_file(alloc, bytes) {
            Ok(class) => class,
            Err(error) => return Err(error),
        };
        let Ok(()) = classes.push(class) else {
            return Err(RowError::NoMemory);
        };
    }
    Ok(classes)
}

/// The program of these classes, with the main class Main.
fn program_of(alloc: Global, classes: Seq<ClassFile>) -> Result<Program, RowError>
    requires { AllByRecursion IsClassFile classes }
    ensures admitted { IfOk result IsAdmitted }
    ensures program { IfOk result (λ p.
        admission_of classes (utf16_of (codes "Main")) silent_plan ≡ Ok p) }
    ensures refused { IfErr result (AreUnadmitted classes) }
{
    let Ok(name) = from_utf8(alloc, "Main") else {
        return Err(RowError::NoMemory);
    };
    if classes.len() > MOST_CLASSES {
        return Err(RowError::NotAdmitted);
    }
    let fault = match admit(alloc, classes, &name, &silent(alloc)) {
        Ok(program) => return Ok(program),
        Err(fault) => fault,
    };
    if let AdmitError::NoMemory = fault {
        return Err(RowError::NoMemory);
    }
    Err(RowError::NotAdmitted)
}

/// The program of these class files, with the main class Main.
pub fn make(alloc: Global, files: &[Vec<u8>]) -> Result<Program, RowError>
    ensures admitted { IfOk result IsAdmitted }
    ensures program { IfOk result (IsProgramOf (map (λ f. f.items) files.now)) }
    ensures unmade { IfErr result (AreUnmade (map (λ f. f.items) files.now)) }
{
    match read_classes(alloc, files) {
        Ok(classes) => program_of(alloc, classes),
        Err(error) => Err(error),
    }
}
