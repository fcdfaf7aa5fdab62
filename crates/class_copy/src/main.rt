//! Copies class files through the reader and the writer: `class_copy FILE..` puts the bytes of each to standard output.
//! It shows on real files that nothing of a class file is lost between its bytes and its value.
#![tactic(auto)]

mod copying;

ghost use Rattle.std.specs.Prelude.{◌≡◌};
ghost use Rattle.class_copy.specs.Copies.{reason_of};

use byte_streams::{DiskFiles, StdSink};
use copying::{CopyError, copy_file};
use std::process::ExitCode;
use std::{env, io};

/// What a refusal is on standard error.
fn reason(error: CopyError) -> &'static str
    ensures { result.now ≡ reason_of error }
{
    match error {
        CopyError::NotFetched => "it could not be fetched",
        CopyError::NotRead(_) => "it is no class file",
        CopyError::NotPut => "it could not be put",
        CopyError::NoMemory => "no memory",
    }
}

/// Copies the files that the words name, up to the first that is refused, and tells that one.
fn main(rt: HostRuntime) -> io::Result<ExitCode> {
    let words: Vec<String> = env::args(&rt)?.collect(rt.alloc())?;
    let mut files = DiskFiles::new(rt.alloc(), &rt);
    let mut out = StdSink::new(rt.stdout());
    for name in words.iter().skip(1) {
        if let Err(error) = copy_file(rt.alloc(), name, &mut files, &mut out) {
            eprintln!(rt; "class_copy: {name}: {}", reason(error))?;
            return Ok(ExitCode::from(1));
        }
    }
    Ok(ExitCode::SUCCESS)
}
