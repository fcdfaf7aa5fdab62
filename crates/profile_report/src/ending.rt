//! How a run ended.

ghost use Rattle.std.specs.Prelude.{◌≡◌, ◌++◌, OnOk};
ghost use Rattle.profile_report.specs.Reports.{ending_text, exit_text, place_text, uncaught_text};
ghost use Rattle.profile_report.specs.Reports.{Adds, unverifiable_text};

use crate::names::{push_class, push_method};
use crate::numbers::{push_int, push_number};
use jf_bytes::NoMemory;
use jvm_model::{Ending, Program};
use std::alloc::Global;

/// Adds the exit code of System.exit.
fn push_exit(out: &mut Vec<u8>, code: i32) -> Result<(), NoMemory>
    ensures { OnOk result (out.new.items ≡ out.old.items ++ exit_text code) }
{
    out.extend_from_slice(b"exit ")?;
    push_int(out, code)
}

/// Adds the class of a throwable that was caught by nothing.
fn push_uncaught(
    alloc: Global,
    out: &mut Vec<u8>,
    program: &Program,
    number: u32,
) -> Result<(), NoMemory>
    ensures { OnOk result (out.new.items ≡ out.old.items ++ uncaught_text program.now number) }
{
    out.extend_from_slice(b"uncaught ")?;
    push_class(alloc, out, program, number)
}

/// Adds a place in the code: the method and the offset.
fn push_place(
    alloc: Global,
    out: &mut Vec<u8>,
    program: &Program,
    method: u32,
    offset: u16,
) -> Result<(), NoMemory>
    ensures { OnOk result (out.new.items ≡ out.old.items ++ place_text program.now method offset) }
{
    push_method(alloc, out, program, method)?;
    out.push(b' ')?;
    push_number(out, u64::from(offset))?;
    Ok(())
}

/// Adds the place of an unverifiable instruction.
fn push_unverifiable(
    alloc: Global,
    out: &mut Vec<u8>,
    program: &Program,
    method: u32,
    offset: u16,
) -> Result<(), NoMemory>
    ensures { let text = unverifiable_text program.now method offset in
        Adds result out.old.items out.new.items text }
{
    out.extend_from_slice(b"unverifiable ")?;
    push_place(alloc, out, program, method, offset)
}

/// Adds how a run ended, or that its budget was spent.
pub fn push_ending(
    alloc: Global,
    out: &mut Vec<u8>,
    program: &Program,
    ending: Option<Ending>,
) -> Result<(), NoMemory>
    ensures { OnOk result (out.new.items ≡ out.old.items ++ ending_text program.now ending) }
{
    match ending {
        None => out.extend_from_slice(b"budget")?,
        Some(Ending::Returned) => out.extend_from_slice(b"returned")?,
        Some(Ending::Exited(code)) => push_exit(out, code)?,
        Some(Ending::Uncaught(number)) => push_uncaught(alloc, out, program, number)?,
        Some(Ending::Unverifiable(method, offset)) => {
            push_unverifiable(alloc, out, program, method, offset)?;
        }
    }
    Ok(())
}
