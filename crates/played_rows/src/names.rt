//! Classes of a program by their names.

ghost use Rattle.std.specs.Prelude.{◌≡◌, IfOk, position};
ghost use Rattle.jvm_model.specs.Basis.Programs.{has_name};
ghost use Rattle.played_rows.specs.Names.{class_called, classes_called, in_32_bits};

use crate::finding::{LookUp, find_all};
use crate::words::words_in;
use const_pool::ClassFile;
use jf_bytes::{NoMemory, Seq, Text16};
use jvm_model::Program;
use std::alloc::Global;
use text_coding::from_utf8;

/// A position as the number of a class or a method.
pub fn number_of(position: Option<usize>) -> Option<u32>
    ensures { result ≡ in_32_bits position }
{
    u32::try_from(position?).ok()
}

/// Whether a class has this name.
pub fn has_name(class: &ClassFile, wanted: &Text16) -> bool
    ensures { result ≡ has_name wanted.now class.now }
{
    match class.pool.class_name(class.this_class) {
        Ok(name) => name.same(wanted),
        Err(_) => false,
    }
}

/// Where the first class with this name stands.
fn position_of(classes: &[ClassFile], wanted: &Text16) -> Option<usize>
    ensures { result ≡ position (has_name wanted.now) classes.now }
{
    classes.iter().position(|class| has_name(class, wanted))
}

/// The position of the class with this name.
pub fn class_named(alloc: Global, program: &Program, name: &str) -> Result<Option<u32>, NoMemory>
    ensures { IfOk result (λ found. found ≡ class_called program.now name.now) }
{
    let wanted = from_utf8(alloc, name)?;
    Ok(number_of(position_of(program.classes.as_slice(), &wanted)))
}

/// The classes of a program by their names.
#[derive(Drop)]
struct ClassNames<'a> {
    program: &'a Program,
}

impl<'a> LookUp for ClassNames<'a> {
    type Found = u32;

    ghost found = { λ names word. class_called names.program.now word };

    fn find(&self, alloc: Global, word: &str) -> Result<Option<u32>, NoMemory> {
        class_named(alloc, self.program, word)
    }
}

/// The positions of the classes that the words of a text name.
pub fn classes_in(
    alloc: Global,
    program: &Program,
    text: &str,
) -> Result<Option<Seq<u32>>, NoMemory>
    ensures { IfOk result (λ found. found ≡ classes_called program.now text.now) }
{
    let words = words_in(alloc, text, ' ')?;
    find_all(alloc, &ClassNames { program }, &words)
}
