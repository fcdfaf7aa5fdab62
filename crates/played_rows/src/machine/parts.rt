//! The files of a row, and why a row is not run.

ghost use Rattle.std.specs.Prelude.{◌≡◌, IfErr, IfOk};
ghost use Rattle.std.specs.String.{string_bytes};
ghost use Rattle.played_rows.specs.Machine.Causes.{IsMissing};
ghost use Rattle.played_rows.specs.Files.{IsFileAt};
ghost use Rattle.played_rows.specs.Machine.Words.{rest_of, word_of};

use crate::words::{MOST, split_at_first};
use byte_streams::{FetchError, Files};
use jf_bytes::NoMemory;
use std::alloc::{AllocError, Global};
use std::fmt;

/// Why a row is not run.
#[derive(Drop)]
pub enum RowError {
    /// A file that the row names is not there.
    Missing(String),
    /// A file is no text.
    NotText(String),
    /// A file is no class file.
    NotRead(String),
    /// The classes with this main class are not admitted.
    NotAdmitted(String),
    /// A line says nothing.
    Unknown(String),
    NoMemory,
}

impl fmt::Display for RowError {
    fn fmt<W: fmt::Write>(&self, f: &mut fmt::Formatter<W>) -> fmt::Result {
        match self {
            RowError::Missing(path) => write!(f, "there is no file {path}"),
            RowError::NotText(path) => write!(f, "{path} is no UTF-8"),
            RowError::NotRead(path) => write!(f, "{path} is no class file"),
            RowError::NotAdmitted(main) => write!(f, "{main} is not admitted"),
            RowError::Unknown(line) => write!(f, "a line is not understood: {line}"),
            RowError::NoMemory => write!(f, "no memory"),
        }
    }
}

impl From<AllocError> for RowError {
    fn from(_error: AllocError) -> RowError {
        RowError::NoMemory
    }
}

impl From<NoMemory> for RowError {
    fn from(_error: NoMemory) -> RowError {
        RowError::NoMemory
    }
}

/// A file that could not be fetched.
fn missing(alloc: Global, path: &str) -> RowError
    ensures { IsMissing path.now result }
{
    match String::from_str(alloc, path) {
        Ok(name) => RowError::Missing(name),
        Err(_) => RowError::NoMemory,
    }
}

/// The contents of a file by its path.
pub fn fetch_file<F: Files>(alloc: Global, path: &str, files: &mut F) -> Result<Vec<u8>, RowError>
    ensures found { IfOk result (λ bytes. IsFileAt (F.contents files.old) path.now bytes.items) }
    ensures fails { IfErr result (IsMissing path.now) }
    ensures stay { F.contents files.new ≡ F.contents files.old }
{
    match files.fetch(alloc, path, MOST) {
        Ok(bytes) => Ok(bytes),
        Err(FetchError::Failed) => Err(missing(alloc, path)),
        Err(FetchError::NoMemory) => Err(RowError::NoMemory),
    }
}

/// The text of a file by its path.
pub fn fetch_text<F: Files>(alloc: Global, path: &str, files: &mut F) -> Result<String, RowError>
    ensures found { let told = F.contents files.old in
        IfOk result (λ text. IsFileAt told path.now (string_bytes text)) }
    ensures stay { F.contents files.new ≡ F.contents files.old }
{
    let bytes = fetch_file(alloc, path, files)?;
    match String::from_utf8(bytes) {
        Ok(text) => Ok(text),
        Err(_) => Err(RowError::NotText(String::from_str(alloc, path)?)),
    }
}

/// The first word of a line, and what stands behind it.
#[tactic(auto, unfolding(crate::specs::Machine::Words::word_of, crate::specs::Machine::Words::rest_of))]
pub fn line_parted(line: &str) -> (&str, &str)
    ensures word { result.0.now ≡ word_of line.now }
    ensures rest { result.1.now ≡ rest_of line.now }
{
    split_at_first(line, ' ')
}
