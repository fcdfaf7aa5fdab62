//! The input of a run.

ghost use Rattle.std.specs.Prelude.{◌≡◌, ◌≤◌, length, IfOk, IfErr, IfSome, IsOk};
ghost use Rattle.std.specs.Io.KnownBytes.{Consumes, IsAtEnd};
ghost use Rattle.command_line.specs.Input.{most_input};
ghost use Rattle.jfluid_cli.specs.Sinks.{source_view};
ghost use Rattle.jfluid_cli.specs.Stages.{IsInputRefusal};

use crate::refusal::Refusal;
use byte_streams::Source;
use command_line::{InputError, take_input};
use jf_bytes::Seq;
use std::alloc::Global;

/// Takes the input to its end. It is taken once a program was admitted.
pub fn take<I: Source>(alloc: Global, input: &mut I) -> Result<Seq<u8>, Refusal>
    ensures all { IfOk result (λ bytes. IfSome (I.left input.old) (λ all. bytes ≡ all)) }
    ensures short { IfOk result (λ bytes. length bytes ≤ most_input) }
    ensures without_fault { IsOk result → I.faults input.new ≡ I.faults input.old }
    ensures taken { IfOk result (Consumes (I.left input.old) (I.left input.new)) }
    ensures ended { IsOk result → IsAtEnd (I.left input.new) }
    ensures refused { IfErr result (IsInputRefusal
        (source_view (I.left input.old) (I.faults input.old))
        (source_view (I.left input.new) (I.faults input.new))) }
{
    match take_input(alloc, input) {
        Ok(bytes) => Ok(bytes),
        Err(InputError::Failed) => Err(Refusal::InputFailed),
        Err(InputError::TooLong) => Err(Refusal::InputTooLong),
        Err(InputError::NoMemory) => Err(Refusal::NoMemory),
    }
}
