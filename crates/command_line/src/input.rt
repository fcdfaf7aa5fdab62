//! The input of a run, taken to its end.

ghost use Rattle.std.specs.Prelude.{◌≡◌, ◌<◌, ◌≤◌, length, take, IfOk, OnErr};
ghost use Rattle.std.specs.Io.KnownBytes.{Consumes, IsAtEnd};
ghost use Rattle.byte_streams.specs.Streams.{HasCause};
ghost use Rattle.command_line.specs.Input.{InputCause, IsInput, TakesInput};
ghost use Rattle.command_line.specs.declared.input.InputError.TheVariants.{Failed as take_failed, NoMemory as out_of_memory};

use byte_streams::{Failed, Source};
use jf_bytes::Seq;
use std::alloc::{AllocError, Global};
use thiserror::Error;

/// So many bytes input may have.
const MOST_BYTES: usize = 16_777_216;

/// How many bytes one take asks for.
const CHUNK: usize = 4096;

/// Why input was not taken to its end. The bytes that came before are lost.
#[derive(Clone, Copy, Debug, PartialEq, Eq, Error)]
pub enum InputError {
    /// A take failed. The source's count of faults tells of it.
    #[error("input failed")]
    Failed,
    /// There are more than 16,777,216 bytes.
    #[error("input too long")]
    TooLong,
    #[error("no memory")]
    NoMemory,
}

impl From<Failed> for InputError {
    ghost from_gives = { λ _ e. e ≡ take_failed };

    fn from(_error: Failed) -> InputError {
        InputError::Failed
    }
}

impl From<AllocError> for InputError {
    ghost from_gives = { λ _ e. e ≡ out_of_memory };

    fn from(_error: AllocError) -> InputError {
        InputError::NoMemory
    }
}

/// One take. It gives no bytes only where none are left.
fn take_some<I: Source>(source: &mut I, buf: &mut [u8]) -> Result<usize, Failed>
    requires { 0 < length buf.old }
    ensures within { IfOk result (λ n. n ≤ length buf.new) }
    ensures prefix { IfOk result (λ n.
        Consumes (I.left source.old) (I.left source.new) (take n buf.new)) }
    ensures end { IfOk result (λ n. n ≡ 0 → IsAtEnd (I.left source.new)) }
    ensures stays { OnErr result (I.left source.new ≡ I.left source.old) }
    ensures cause { HasCause (I.faults source.old) (I.faults source.new) result }
{
    source.take(buf)
}

/// All bytes that a source has left, where they are at most 16,777,216. At one byte more it stops, and at the first
/// take that fails. The call comes after admission, so that a program that is refused takes no input.
pub fn take_input<I: Source>(alloc: Global, source: &mut I) -> Result<Seq<u8>, InputError>
    ensures input { IsInput (I.left source.old) result }
    ensures taken { TakesInput (I.left source.old) (I.left source.new) result }
    ensures cause { InputCause (I.faults source.old) (I.faults source.new) result }
{
    let mut bytes = Seq::new(alloc);
    let mut chunk = [0u8; CHUNK];
    while bytes.len() <= MOST_BYTES {
        let room = (MOST_BYTES - bytes.len()).min(CHUNK - 1) + 1;
        let count = take_some(source, &mut chunk[..room])?;
        if count == 0 {
            return Ok(bytes);
        }
        bytes.extend_from_slice(&chunk[..count])?;
    }
    Err(InputError::TooLong)
}
