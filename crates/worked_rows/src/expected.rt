//! What must come of a row.

ghost use Rattle.std.specs.Prelude.{◌≡◌, IfOk, IfSome};
ghost use Rattle.worked_rows.specs.Rows.{HasExpected, HasImages, HasReport};

use crate::parts::{RowError, fetch_part};
use byte_streams::Files;
use std::alloc::Global;

/// What must come on the report.
#[derive(Drop)]
pub enum ExpectedReport {
    /// This text and nothing else: the file `report`.
    Whole(Vec<u8>),
    /// These lines, each whole and in this order, among others: the file `report_has`.
    Lines(Vec<u8>),
}

/// What must come of a row: the files `status`, `stdout`, `images`, where there is one, and `report`
/// or else `report_has`.
#[derive(Drop)]
pub struct Expected {
    /// The status in decimal digits, and a line feed.
    pub status: Vec<u8>,
    pub output: Vec<u8>,
    pub report: ExpectedReport,
    /// Without the file nothing must be put.
    pub images: Vec<u8>,
}

/// What must come on the report of a row.
fn read_report<F: Files>(
    alloc: Global,
    row: &str,
    files: &mut F,
) -> Result<ExpectedReport, RowError>
    ensures found { IfOk result (λ report. IfSome (F.contents files.old) (λ told.
        HasReport told row.now report)) }
    ensures stay { F.contents files.new ≡ F.contents files.old }
{
    match fetch_part(alloc, row, "report", files) {
        Ok(text) => Ok(ExpectedReport::Whole(text)),
        Err(RowError::Missing(_)) => {
            let lines = fetch_part(alloc, row, "report_has", files)?;
            Ok(ExpectedReport::Lines(lines))
        }
        Err(error) => Err(error),
    }
}

/// What must be put to the images of a row.
fn read_images<F: Files>(alloc: Global, row: &str, files: &mut F) -> Result<Vec<u8>, RowError>
    ensures found { IfOk result (λ images. IfSome (F.contents files.old) (λ told.
        HasImages told row.now images.items)) }
    ensures stay { F.contents files.new ≡ F.contents files.old }
{
    match fetch_part(alloc, row, "images", files) {
        Ok(images) => Ok(images),
        Err(RowError::Missing(_)) => Ok(Vec::new(alloc)),
        Err(error) => Err(error),
    }
}

/// What must come of a row. A row without a status, an output or a report can't be run.
pub fn read_expected<F: Files>(
    alloc: Global,
    row: &str,
    files: &mut F,
) -> Result<Expected, RowError>
    ensures found { IfOk result (λ expected. IfSome (F.contents files.old) (λ told.
        HasExpected told row.now expected)) }
    ensures stay { F.contents files.new ≡ F.contents files.old }
{
    let status = fetch_part(alloc, row, "status", files)?;
    let output = fetch_part(alloc, row, "stdout", files)?;
    let report = read_report(alloc, row, files)?;
    let images = read_images(alloc, row, files)?;
    Ok(Expected {
        status,
        output,
        report,
        images,
    })
}
