//! What a frame that goes on behind its line has to know of it.

ghost use Rattle.std.specs.Prelude.{◌≡◌};
ghost use Rattle.std.specs.Option.{option_map};
ghost use Rattle.prepared_code.specs.Making.{passage_of};
ghost use Rattle.prepared_code.specs.Versions.{ArePrepared, IsPreparedLine, is_athrow, is_last_family, line_in, next_in};
ghost use Rattle.jvm_model.specs.Basis.Families.{family_of};

use crate::versions::{Version, line_in};
use jvm_model::{Family, Operation};
use prepared_lines::{Line, LocalAction};

/// Whether control never goes on behind an instruction of this family.
fn is_last(family: Family) -> bool
    ensures { result ≡ is_last_family family }
{
    match family {
        Family::Goto | Family::Switch | Family::Ret | Family::Return(_) => true,
        _ => false,
    }
}

/// Whether it is athrow.
fn is_athrow(operation: &Operation<LocalAction>) -> bool
    ensures { result ≡ is_athrow operation.now }
{
    match operation {
        Operation::Athrow => true,
        _ => false,
    }
}

/// The offset behind a line, unless control never goes on there.
pub fn next_in(line: &Line) -> Option<u16>
    requires { line.now.family ≡ family_of line.now.instr.op }
    ensures { result ≡ next_in line.now }
{
    if is_athrow(&line.operation) || is_last(line.family) {
        None
    } else {
        Some(line.next)
    }
}

/// The offset of an instruction in the original code, and the place at which control goes on behind
/// it, where it does.
#[derive(Clone, Copy, Debug, PartialEq, Eq)]
pub struct Passage {
    pub own: u16,
    pub next: Option<u16>,
}

/// That of a line.
fn passage_of(line: &Line) -> Passage
    requires { IsPreparedLine line.now }
    ensures { result ≡ passage_of line.now }
{
    Passage {
        own: line.instr.at,
        next: next_in(line),
    }
}

/// That of the line at a place of a version.
pub fn passage_in(version: &Version, place: u16) -> Option<Passage>
    requires { ArePrepared version.now }
    ensures { result ≡ option_map passage_of (line_in place version.now) }
{
    let line = line_in(version, place)?;
    Some(passage_of(line))
}
