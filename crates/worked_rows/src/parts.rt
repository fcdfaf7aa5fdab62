//! The files of a row.

ghost use Rattle.std.specs.Prelude.{◌≡◌, Some, IfOk, IfSome};
ghost use Rattle.worked_rows.specs.Rows.{file_at, part_at};

use byte_streams::{FetchError, Files};
use jf_bytes::NoMemory;
use std::alloc::{AllocError, AllocFailed, Global};
use thiserror::Error;

/// The greatest length of a file of a row: no class file, output or report of a row comes near it.
pub const MOST: usize = 67_108_864;

/// Why a row can't be run.
#[derive(Debug, Drop, Error)]
pub enum RowError {
    /// A file that the row needs is not there.
    #[error("there is no file {0}")]
    Missing(String),
    /// A line of the file `given` says nothing.
    #[error("what it gives is not understood: {0}")]
    Unknown(String),
    /// What is given is no UTF-8.
    #[error("the file given is no UTF-8")]
    NotText,
    #[error("no memory")]
    NoMemory,
}

impl From<AllocError> for RowError {
    fn from(_error: AllocError) -> RowError {
        RowError::NoMemory
    }
}

impl<T: Drop> From<AllocFailed<T>> for RowError {
    fn from(_error: AllocFailed<T>) -> RowError {
        RowError::NoMemory
    }
}

impl From<NoMemory> for RowError {
    fn from(_error: NoMemory) -> RowError {
        RowError::NoMemory
    }
}

/// The contents of a file by its path.
#[tactic(auto, unfolding(crate::specs::Rows::file_at))]
pub fn fetch_file<F: Files>(alloc: Global, path: &str, files: &mut F) -> Result<Vec<u8>, RowError>
    ensures found { IfOk result (λ bytes. IfSome (F.contents files.old) (λ told.
        file_at told path.now ≡ Some bytes.items)) }
    ensures stay { F.contents files.new ≡ F.contents files.old }
{
    match files.fetch(alloc, path, MOST) {
        Ok(bytes) => Ok(bytes),
        Err(FetchError::Failed) => Err(RowError::Missing(String::from_str(alloc, path)?)),
        Err(FetchError::NoMemory) => Err(RowError::NoMemory),
    }
}

/// The contents of a file in the row's folder.
pub fn fetch_part<F: Files>(
    alloc: Global,
    row: &str,
    part: &str,
    files: &mut F,
) -> Result<Vec<u8>, RowError>
    ensures found { IfOk result (λ bytes. IfSome (F.contents files.old) (λ told.
        part_at told row.now part.now ≡ Some bytes.items)) }
    ensures stay { F.contents files.new ≡ F.contents files.old }
{
    let path = format!(in alloc; "{row}/{part}")?;
    fetch_file(alloc, path.as_str(), files)
}
