//! What is said of the page and the list.

ghost use Rattle.std.specs.Prelude.{◌≡◌, ◌==◌, ◌++◌, length, map, string_bytes, IfErr, IfOk};
ghost use Rattle.std.specs.List.{flat_map};
ghost use Rattle.map_rows.specs.Files.{IsCause};
ghost use Rattle.map_rows.specs.Names.{missing as missing_of};
ghost use Rattle.map_rows.specs.Reporting.{IsReport, last_line, line_of, text_of};

use crate::names::missing;
use crate::reading::{Cause, read_text};
use byte_streams::Files;
use std::alloc::{AllocError, Global};

/// What is said, and whether no name is missing.
#[derive(Drop)]
pub struct Report {
    pub text: String,
    pub is_whole: bool,
}

/// The file at hand, and why there is no report.
#[derive(Clone, Copy)]
pub struct Refusal {
    pub file: &'static str,
    pub cause: Cause,
}

/// The line of a name that is not there.
fn line_of(alloc: Global, name: &str) -> Result<String, AllocError>
    ensures { IfOk result (λ line. string_bytes line ≡ line_of name.now) }
{
    format!(in alloc; "MAP.md names {name}, which is not there\n")
}

/// The lines of these names.
fn lines_of(alloc: Global, names: &[&str]) -> Result<String, AllocError>
    ensures { IfOk result (λ text.
        string_bytes text ≡ flat_map line_of (map (λ name. name.now) names.now)) }
{
    let mut text = String::new(alloc);
    for name in names {
        let line = line_of(alloc, name)?;
        text.push_str(line.as_str())?;
    }
    Ok(text)
}

/// How many names are not there.
fn last_line(alloc: Global, count: usize) -> Result<String, AllocError>
    ensures { IfOk result (λ line. string_bytes line ≡ last_line count) }
{
    if count == 0 {
        return String::from_str(alloc, "each file that MAP.md names is there\n");
    }
    format!(in alloc; "not there: {count}\n")
}

/// The text for these names.
fn text_of(alloc: Global, names: &[&str]) -> Result<String, AllocError>
    ensures { IfOk result (λ text.
        string_bytes text ≡ text_of (map (λ name. name.now) names.now)) }
{
    let mut text = lines_of(alloc, names)?;
    let last = last_line(alloc, names.len())?;
    text.push_str(last.as_str())?;
    Ok(text)
}

/// The report on a page and a list.
fn report_on(alloc: Global, list: &str, page: &str) -> Result<Report, AllocError>
    ensures text { IfOk result (λ report.
        string_bytes report.text ≡ text_of (missing_of list.now page.now)) }
    ensures whole { IfOk result (λ report.
        report.is_whole ≡ (length (missing_of list.now page.now) == 0)) }
{
    let names = missing(alloc, list, page)?;
    let text = text_of(alloc, &names)?;
    Ok(Report {
        text,
        is_whole: names.is_empty(),
    })
}

/// The report on the page and the list among these files.
pub fn judge<F: Files>(alloc: Global, files: &mut F) -> Result<Report, Refusal>
    ensures report { IfOk result (IsReport (F.contents files.old)) }
    ensures cause { IfErr result (λ refusal. IsCause (F.contents files.old) refusal.file.now
        (F.faults files.old) (F.faults files.new) (F.last_failed files.new) refusal.cause) }
{
    let page = match read_text(alloc, "MAP.md", files) {
        Ok(text) => text,
        Err(cause) => return Err(Refusal {
            file: "MAP.md",
            cause,
        }),
    };
    let list = match read_text(alloc, "files", files) {
        Ok(text) => text,
        Err(cause) => return Err(Refusal {
            file: "files",
            cause,
        }),
    };
    match report_on(alloc, list.as_str(), page.as_str()) {
        Ok(report) => Ok(report),
        Err(_) => Err(Refusal {
            file: "files",
            cause: Cause::NoMemory,
        }),
    }
}
