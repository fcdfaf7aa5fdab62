//! What the lines of a row's file say.

ghost use Rattle.std.specs.Prelude.{◌≡◌, ◌++◌, map, IfOk, IfErr, OnOk};
ghost use Rattle.played_rows.specs.Machine.Reading.{AreRead, placed_at};
ghost use Rattle.played_rows.specs.Machine.Causes.{IsCause, IsSilent};

use crate::machine::line::{Line, Placed};
use crate::machine::parts::RowError;
use crate::machine::saying::line_said;
use byte_streams::Files;
use jf_bytes::{NoMemory, Seq};
use jvm_model::Program;
use std::alloc::Global;

/// Puts lines behind others, with the number of the row's line that says them.
fn place(placed: &mut Vec<Placed>, number: usize, lines: Seq<Line>) -> Result<(), NoMemory>
    ensures { OnOk result (placed.new.items ≡ placed.old.items ++ placed_at number lines) }
{
    for line in lines.into_vec() {
        placed.push(Placed { number, line })?;
    }
    Ok(())
}

/// A line that says nothing.
fn unknown(alloc: Global, line: &str) -> RowError
    ensures { IsSilent line.now result }
{
    match String::from_str(alloc, line) {
        Ok(text) => RowError::Unknown(text),
        Err(_) => RowError::NoMemory,
    }
}

/// What the lines of a row say of the machine, each with its number.
pub fn read_lines<F: Files>(
    alloc: Global,
    program: &Program,
    lines: &[&str],
    files: &mut F,
) -> Result<Vec<Placed>, RowError>
    ensures read { let told = F.contents files.old in let texts = map (λ l. l.now) lines.now in
        IfOk result (λ placed. AreRead program.now told texts placed.items) }
    ensures fails { let told = F.contents files.old in let texts = map (λ l. l.now) lines.now in
        IfErr result (IsCause program.now told texts) }
    ensures stay { F.contents files.new ≡ F.contents files.old }
{
    let mut placed = Vec::new(alloc);
    let mut next = 0u64;
    let mut number = 0usize;
    for line in lines {
        number = number.saturating_add(1);
        let said = match line_said(alloc, program, next, line, files) {
            Ok(Some(said)) => said,
            Ok(None) => return Err(unknown(alloc, line)),
            Err(error) => return Err(error),
        };
        let Ok(()) = place(&mut placed, number, said.lines) else {
            return Err(RowError::NoMemory);
        };
        next = said.next;
    }
    Ok(placed)
}
