//! A generated program.

ghost use Rattle.std.specs.Prelude.{◌≡◌, ◌<◌, ◌≤◌, ◌+◌, length, IfOk};
ghost use Rattle.std.specs.List.{AllByRecursion};
ghost use Rattle.const_pool.specs.ClassFile.{IsClassFile};
ghost use Rattle.program_gen.specs.Fits.{FitsClass};
ghost use Rattle.program_gen.specs.Generated.{AreNamed, HasOwnPool, HaveOwnNames, IsShortFile, classes_generated};
ghost use Rattle.program_gen.specs.Members.{HaveCodes, HaveMembers};
ghost use Rattle.program_gen.specs.Programs.{program_rows};

use crate::draws::draw_choices;
use crate::making::class_of;
use crate::programs::{main_row, numbered_row};
use const_pool::ClassFile;
use jf_bytes::NoMemory;
use std::alloc::Global;

/// The class files of the program that the seed decides.
fn classes_of(alloc: Global, seed: u32, size: u32) -> Result<Vec<ClassFile>, NoMemory>
    requires some { 1 ≤ size }
    requires most { size ≤ 200 }
    ensures classes { IfOk result (λ classes. classes.items ≡ classes_generated seed size) }
    ensures formed { IfOk result (λ classes. AllByRecursion IsClassFile classes.items) }
{
    let mut classes = Vec::new(alloc);
    classes.push(class_of(alloc, &main_row(alloc)?)?)?;
    let mut state = seed as u64;
    for number in 0..size {
        let choices = draw_choices(&mut state, number, size);
        let row = numbered_row(alloc, number, choices)?;
        classes.push(class_of(alloc, &row)?)?;
    }
    Ok(classes)
}

/// The class files of the program that the seed decides: GenMain, and `size` classes that it runs. Each is one that
/// `read_class` reads.
pub fn generate(alloc: Global, seed: u32, size: u32) -> Result<Vec<ClassFile>, NoMemory>
    requires some { 1 ≤ size }
    requires most { size ≤ 200 }
    ensures classes { IfOk result (λ classes. classes.items ≡ classes_generated seed size) }
    ensures formed { IfOk result (λ classes. AllByRecursion IsClassFile classes.items) }
    ensures count { IfOk result (λ classes. length classes.items ≡ size + 1) }
    ensures short { IfOk result (λ classes. AllByRecursion IsShortFile classes.items) }
    ensures names { IfOk result (λ classes. AreNamed (program_rows seed size) classes.items) }
    ensures members { IfOk result (λ classes. HaveMembers (program_rows seed size) classes.items) }
    ensures codes { IfOk result (λ classes. HaveCodes (program_rows seed size) classes.items) }
    ensures own_pools { IfOk result (λ classes. AllByRecursion HasOwnPool classes.items) }
    ensures fits { AllByRecursion FitsClass (program_rows seed size) }
    ensures own_names { HaveOwnNames (program_rows seed size) }
{
    classes_of(alloc, seed, size)
}
