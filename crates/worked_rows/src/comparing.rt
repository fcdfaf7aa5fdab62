//! What came of a row beside what must come.

ghost use Rattle.std.specs.Prelude.{◌≡◌, ◌==◌, ◌≤◌, None, Ok, map, length, bytes_eq, IfOk, IfSome};
ghost use Rattle.worked_rows.specs.Answers.{IsFirstDifference, found_lines, line_number, TextDiffers, HasLines, LinesDiffer, ReportAgrees, ReportDiffers, Agrees, Differs};

use crate::expected::{Expected, ExpectedReport};
use crate::lines::lines_in;
use row_calls::Answer;
use std::alloc::{AllocError, Global};
use thiserror::Error;

/// The first of what came that is not what must come.
#[derive(Clone, Copy, Debug, Error)]
pub enum Difference {
    /// The status that came.
    #[error("the status is {0}")]
    Status(u8),
    /// The offset of the first byte of the output that differs.
    #[error("the output differs at byte {0}")]
    Output(usize),
    /// The offset of the first byte of the images that differs.
    #[error("the images differ at byte {0}")]
    Images(usize),
    /// The number of the first line of the report that differs.
    #[error("the report differs in line {0}")]
    Report(usize),
    /// The number of the first line of `report_has` that the report lacks behind the lines before it.
    #[error("the report lacks line {0} of report_has")]
    Lacks(usize),
}

/// The first place where two lists of bytes differ, which may be the end of one.
fn first_difference(wanted: &[u8], came: &[u8]) -> Option<usize>
    ensures same { result ≡ None → wanted.now ≡ came.now }
    ensures place { IfSome result (λ at. IsFirstDifference wanted.now came.now at) }
{
    for (at, byte) in wanted.iter().enumerate() {
        if at >= came.len() || came[at] != *byte {
            return Some(at);
        }
    }
    if wanted.len() < came.len() {
        return Some(wanted.len());
    }
    None
}

fn same_bytes(wanted: &[u8], came: &[u8]) -> bool
    ensures { result ≡ bytes_eq wanted.now came.now }
{
    wanted == came
}

/// How many of the wanted lines came, each behind the ones before it.
fn found_lines(wanted: &[&[u8]], came: &[&[u8]]) -> usize
    ensures { result ≡ found_lines (map (λ l. l.now) wanted.now) (map (λ l. l.now) came.now) }
{
    let mut found = 0usize;
    for line in came {
        if found < wanted.len() && same_bytes(wanted[found], line) {
            found += 1;
        }
    }
    found
}

/// The number of the line of a text in which a byte stands.
fn line_number(text: &[u8], at: usize) -> usize
    requires { at ≤ length text.now }
    ensures { result ≡ line_number text.now at }
{
    text[..at]
        .iter()
        .filter(|byte| **byte == b'\n')
        .count()
        .saturating_add(1)
}

/// How the whole report differs from the wanted text.
fn text_difference(wanted: &[u8], came: &[u8]) -> Option<Difference>
    ensures same { result ≡ None → wanted.now ≡ came.now }
    ensures place { IfSome result (λ difference. TextDiffers wanted.now came.now difference) }
{
    let at = first_difference(wanted, came)?;
    Some(Difference::Report(line_number(wanted, at)))
}

/// Which of the wanted lines the report lacks.
fn lines_difference(
    alloc: Global,
    wanted: &[u8],
    came: &[u8],
) -> Result<Option<Difference>, AllocError>
    ensures same { result ≡ Ok None → HasLines wanted.now came.now }
    ensures place { IfOk result (λ found. IfSome found (LinesDiffer wanted.now came.now)) }
{
    let wanted = lines_in(alloc, wanted)?;
    let found = found_lines(&wanted, &lines_in(alloc, came)?);
    if found == wanted.len() {
        return Ok(None);
    }
    Ok(Some(Difference::Lacks(found.saturating_add(1))))
}

/// How the report differs from what must come on it.
fn report_difference(
    alloc: Global,
    expected: &ExpectedReport,
    report: &[u8],
) -> Result<Option<Difference>, AllocError>
    ensures same { result ≡ Ok None → ReportAgrees expected.now report.now }
    ensures place { IfOk result (λ found. IfSome found (ReportDiffers expected.now report.now)) }
{
    match expected {
        ExpectedReport::Whole(text) => Ok(text_difference(text, report)),
        ExpectedReport::Lines(lines) => lines_difference(alloc, lines, report),
    }
}

/// The first of what came that is not what must come: the status, then the output, the images and
/// the report.
pub fn compare(
    alloc: Global,
    expected: &Expected,
    answer: &Answer,
) -> Result<Option<Difference>, AllocError>
    ensures same { result ≡ Ok None → Agrees expected.now answer.now }
    ensures place { IfOk result (λ found. IfSome found (Differs expected.now answer.now)) }
{
    let status = answer.status;
    let text = format!(in alloc; "{status}\n")?;
    if text.as_bytes() != expected.status.as_slice() {
        return Ok(Some(Difference::Status(status)));
    }
    if let Some(at) = first_difference(&expected.output, &answer.output) {
        return Ok(Some(Difference::Output(at)));
    }
    if let Some(at) = first_difference(&expected.images, &answer.images) {
        return Ok(Some(Difference::Images(at)));
    }
    report_difference(alloc, &expected.report, &answer.report)
}
