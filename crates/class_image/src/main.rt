//! Rewrites class files: `class_image FILE FIRST MARKS ..` puts the image of each to standard output. FIRST is the
//! number of the class's first method with Code, and MARKS has one letter a method: O for one that stays or has no
//! Code, P for a plain one, R for a root. It shows on real files what rewriting makes.
#![tactic(auto)]

mod imaging;
mod words;

ghost use Rattle.std.specs.Prelude.{◌≡◌};
ghost use Rattle.class_image.specs.Imaging.{reason_of};

use byte_streams::{DiskFiles, StdSink};
use imaging::{ImageError, image_file};
use std::process::ExitCode;
use std::{env, io};

/// What a refusal is on standard error.
fn reason(error: ImageError) -> &'static str
    ensures { result.now ≡ reason_of error }
{
    match error {
        ImageError::NotNumbered => "FIRST is no number up to 2147418112",
        ImageError::NotMarked => "its methods cannot have these marks",
        ImageError::NotFetched => "it could not be fetched",
        ImageError::NotRead => "it is no class file",
        ImageError::NotAdmitted => "it is not admitted",
        ImageError::NotPut => "it could not be put",
        ImageError::NoMemory => "no memory",
    }
}

/// Rewrites the files that the words name, up to the first that is refused, and tells that one. A last file without
/// both its words is refused too.
fn main(rt: HostRuntime) -> io::Result<ExitCode> {
    let words: Vec<String> = env::args(&rt)?.collect(rt.alloc())?;
    let mut files = DiskFiles::new(rt.alloc(), &rt);
    let mut out = StdSink::new(rt.stdout());
    let mut left = words.get(1..).unwrap_or(&[]);
    while let [name, first, marks, rest @ ..] = left {
        if let Err(error) = image_file(rt.alloc(), name, first, marks, &mut files, &mut out) {
            eprintln!(rt; "class_image: {name}: {}", reason(error))?;
            return Ok(ExitCode::from(1));
        }
        left = rest;
    }
    if let Some(name) = left.first() {
        eprintln!(rt; "class_image: {name}: FIRST and MARKS are not both behind it")?;
        return Ok(ExitCode::from(1));
    }
    Ok(ExitCode::SUCCESS)
}
