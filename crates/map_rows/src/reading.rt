//! The two files, and why one is not read.

ghost use Rattle.std.specs.Prelude.{◌≡◌, string_bytes, IfOk, IfErr, OnOk};
ghost use Rattle.byte_streams.specs.Streams.{IsToldAs};
ghost use Rattle.map_rows.specs.Files.{IsCause};

use byte_streams::{FetchError, Files};
use std::alloc::Global;

/// The greatest length of a file.
const MOST: usize = 16_777_216;

/// Why a file is not read.
#[derive(Clone, Copy)]
pub enum Cause {
    NotFetched,
    TooLong,
    /// It is not UTF-8.
    NotText,
    NoMemory,
}

/// All bytes of the file of that name.
fn read_bytes<F: Files>(alloc: Global, name: &str, files: &mut F) -> Result<Vec<u8>, Cause>
    ensures all { IfOk result (λ bytes. IsToldAs (F.contents files.old) name.now bytes.items) }
    ensures cause { IfErr result (IsCause (F.contents files.old) name.now
        (F.faults files.old) (F.faults files.new) (F.last_failed files.new)) }
    ensures read { OnOk result (F.faults files.new ≡ F.faults files.old) }
    ensures stay { F.contents files.new ≡ F.contents files.old }
{
    match files.fetch(alloc, name, MOST) {
        Ok(bytes) => {
            if bytes.len() > MOST {
                return Err(Cause::TooLong);
            }
            Ok(bytes)
        }
        Err(FetchError::Failed) => Err(Cause::NotFetched),
        Err(FetchError::NoMemory) => Err(Cause::NoMemory),
    }
}

/// The text of the file of that name.
pub fn read_text<F: Files>(alloc: Global, name: &str, files: &mut F) -> Result<String, Cause>
    ensures all { IfOk result (λ text.
        IsToldAs (F.contents files.old) name.now (string_bytes text)) }
    ensures cause { IfErr result (IsCause (F.contents files.old) name.now
        (F.faults files.old) (F.faults files.new) (F.last_failed files.new)) }
    ensures read { OnOk result (F.faults files.new ≡ F.faults files.old) }
    ensures stay { F.contents files.new ≡ F.contents files.old }
{
    let bytes = match read_bytes(alloc, name, files) {
        Ok(bytes) => bytes,
        Err(cause) => return Err(cause),
    };
    match String::from_utf8(bytes) {
        Ok(text) => Ok(text),
        Err(_) => Err(Cause::NotText),
    }
}
