//! Checks that each file that the page `MAP.md` names is there. Its folder has that page, and `files`,
//! the paths of the files that git keeps, a line each, with a `/` in front. It prints a line
//! for each name that is not there, and then how many they are. Its status is 0 where each is there, 1
//! where one is not, and 2 where the page or the list could not be read.
#![tactic(auto)]

mod names;
mod reading;
mod reporting;

ghost use Rattle.std.specs.Prelude.{◌≡◌};
ghost use Rattle.map_rows.specs.Files.{reason_of};

use byte_streams::DiskFiles;
use reading::Cause;
use reporting::judge;
use std::io;
use std::process::ExitCode;

/// What a cause is on standard error.
fn reason(cause: Cause) -> &'static str
    ensures { result.now ≡ reason_of cause }
{
    match cause {
        Cause::NotFetched => "it could not be fetched",
        Cause::TooLong => "it is too long",
        Cause::NotText => "it is no UTF-8",
        Cause::NoMemory => "no memory",
    }
}

/// Tells the names of files on the page that are not in the list.
fn main(rt: HostRuntime) -> io::Result<ExitCode> {
    let mut files = DiskFiles::new(rt.alloc(), &rt);
    match judge(rt.alloc(), &mut files) {
        Ok(report) => {
            print!(rt; "{}", report.text)?;
            Ok(ExitCode::from(if report.is_whole { 0 } else { 1 }))
        }
        Err(refusal) => {
            eprintln!(rt; "map_rows: {}: {}", refusal.file, reason(refusal.cause))?;
            Ok(ExitCode::from(2))
        }
    }
}
