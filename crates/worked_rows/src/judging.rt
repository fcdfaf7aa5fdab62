//! The verdict on each row of a list.

ghost use Rattle.std.specs.Prelude.{◌≡◌, ◌<◌, ◌↔◌, Some, None, Ok, Err, map, IfOk, IfSome, IsTrue};
ghost use Rattle.std.specs.String.{string_bytes};
ghost use Rattle.byte_streams.specs.Streams.{Rose};
ghost use Rattle.worked_rows.specs.Lists.{row_names};
ghost use Rattle.worked_rows.specs.Rows.{file_at};
ghost use Rattle.worked_rows.specs.Verdicts.{HasPassed, AreTrueOf, name_of};

use crate::comparing::{Difference, compare};
use crate::expected::read_expected;
use crate::given::{read_given, runs_of};
use crate::lists::row_names;
use crate::parts::{MOST, RowError};
use byte_streams::{FetchError, Files};
use row_calls::answer_to;
use std::alloc::{AllocError, AllocFailed, Global};
use std::fmt;
use thiserror::Error;

/// Why a row did not pass.
#[derive(Drop)]
pub enum Fault {
    /// Something else came, with a front of so many bytes where the row has one.
    Differs(usize, Difference),
    /// The row can't be run.
    Broken(RowError),
}

/// What is told of a row.
#[derive(Drop)]
pub struct Verdict {
    pub name: String,
    /// How often it was to be run.
    pub runs: usize,
    pub fault: Option<Fault>,
}

impl Verdict {
    /// Whether what came is what must come.
    pub fn has_passed(&self) -> bool
        ensures { IsTrue result ↔ (self.now.fault ≡ None) }
    {
        self.fault.is_none()
    }
}

impl fmt::Display for Verdict {
    fn fmt<W: fmt::Write>(&self, f: &mut fmt::Formatter<W>) -> fmt::Result {
        let name = self.name.as_str();
        let runs = self.runs;
        match &self.fault {
            None if runs == 1 => write!(f, "{name} ok"),
            None => write!(f, "{name} ok in {runs} runs"),
            Some(Fault::Differs(_, difference)) if runs == 1 => write!(f, "{name}: {difference}"),
            Some(Fault::Differs(front, difference)) => {
                write!(f, "{name}: with {front} bytes {difference}")
            }
            Some(Fault::Broken(error)) => write!(f, "{name}: {error}"),
        }
    }
}

/// Why the rows of a list are not judged.
#[derive(Clone, Copy, Debug, Error)]
pub enum ListError {
    #[error("the list could not be fetched")]
    NotFetched,
    #[error("the list is no UTF-8")]
    NotText,
    #[error("no memory")]
    NoMemory,
}

impl From<AllocError> for ListError {
    fn from(_error: AllocError) -> ListError {
        ListError::NoMemory
    }
}

impl<T: Drop> From<AllocFailed<T>> for ListError {
    fn from(_error: AllocFailed<T>) -> ListError {
        ListError::NoMemory
    }
}

/// How what comes of a row, with a front of so many bytes, differs from what must come.
fn run_once<F: Files>(
    alloc: Global,
    row: &str,
    front: usize,
    files: &mut F,
) -> Result<Option<Difference>, RowError>
    ensures passed { result ≡ Ok None →
        IfSome (F.contents files.old) (λ told. HasPassed told row.now) }
    ensures stay { F.contents files.new ≡ F.contents files.old }
{
    let expected = read_expected(alloc, row, files)?;
    let given = read_given(alloc, row, front, files)?;
    let answer = answer_to(alloc, given)?;
    Ok(compare(alloc, &expected, &answer)?)
}

/// What came of the runs of a row.
#[derive(Clone, Copy)]
struct Ran {
    runs: usize,
    /// How many bytes the front had in the first run that differs, and how it differs.
    differs: Option<(usize, Difference)>,
}

/// Runs a row so many times, with a front of one byte more each time, up to the first that differs.
fn run_each<F: Files>(
    alloc: Global,
    row: &str,
    runs: usize,
    files: &mut F,
) -> Result<Option<(usize, Difference)>, RowError>
    requires some { 0 < runs }
    ensures passed { result ≡ Ok None →
        IfSome (F.contents files.old) (λ told. HasPassed told row.now) }
    ensures stay { F.contents files.new ≡ F.contents files.old }
{
    for front in 0..runs {
        if let Some(difference) = run_once(alloc, row, front, files)? {
            return Ok(Some((front, difference)));
        }
    }
    Ok(None)
}

/// Runs a row as often as it says.
fn run_row<F: Files>(alloc: Global, row: &str, files: &mut F) -> Result<Ran, RowError>
    ensures passed { IfOk result (λ ran. ran.differs ≡ None →
        IfSome (F.contents files.old) (λ told. HasPassed told row.now)) }
    ensures stay { F.contents files.new ≡ F.contents files.old }
{
    let runs = runs_of(alloc, row, files)?;
    let differs = run_each(alloc, row, runs, files)?;
    Ok(Ran { runs, differs })
}

/// What is told of a row that differs.
fn fault_of(differs: Option<(usize, Difference)>) -> Option<Fault>
    ensures { result ≡ None → differs ≡ None }
{
    let (front, difference) = differs?;
    Some(Fault::Differs(front, difference))
}

/// The verdict on the row of this name.
fn judge<F: Files>(alloc: Global, row: &str, files: &mut F) -> Result<Verdict, ListError>
    ensures name { IfOk result (λ verdict. string_bytes verdict.name ≡ row.now) }
    ensures passed { IfOk result (λ verdict. verdict.fault ≡ None →
        IfSome (F.contents files.old) (λ told. HasPassed told row.now)) }
    ensures stay { F.contents files.new ≡ F.contents files.old }
{
    let name = String::from_str(alloc, row)?;
    match run_row(alloc, row, files) {
        Ok(ran) => Ok(Verdict {
            name,
            runs: ran.runs,
            fault: fault_of(ran.differs),
        }),
        Err(RowError::NoMemory) => Err(ListError::NoMemory),
        Err(error) => Ok(Verdict {
            name,
            runs: 1,
            fault: Some(Fault::Broken(error)),
        }),
    }
}

/// The text of a list.
#[tactic(auto, unfolding(crate::specs::Rows::file_at))]
fn fetch_list<F: Files>(alloc: Global, list: &str, files: &mut F) -> Result<String, ListError>
    ensures found { IfOk result (λ text. IfSome (F.contents files.old) (λ told.
        file_at told list.now ≡ Some (string_bytes text))) }
    ensures stay { F.contents files.new ≡ F.contents files.old }
    ensures not_fetched { result ≡ Err ListError.NotFetched →
        Rose (F.faults files.old) (F.faults files.new) }
{
    let bytes = match files.fetch(alloc, list, MOST) {
        Ok(bytes) => bytes,
        Err(FetchError::Failed) => return Err(ListError::NotFetched),
        Err(FetchError::NoMemory) => return Err(ListError::NoMemory),
    };
    match String::from_utf8(bytes) {
        Ok(text) => Ok(text),
        Err(_) => Err(ListError::NotText),
    }
}

/// The verdicts on all rows of a list, in its order.
pub fn judge_list<F: Files>(
    alloc: Global,
    list: &str,
    files: &mut F,
) -> Result<Vec<Verdict>, ListError>
    ensures all { IfOk result (λ verdicts. IfSome (F.contents files.old) (λ told.
        IfSome (file_at told list.now) (λ text.
        map name_of verdicts.items ≡ row_names text))) }
    ensures passed { IfOk result (λ verdicts. IfSome (F.contents files.old) (λ told.
        AreTrueOf told verdicts.items)) }
{
    let text = fetch_list(alloc, list, files)?;
    let names = row_names(alloc, text.as_str())?;
    let mut verdicts = Vec::new(alloc);
    for name in &names {
        verdicts.push(judge(alloc, name, files)?)?;
    }
    Ok(verdicts)
}
