//! The files of the rows, and why a row is not played.

ghost use Rattle.std.specs.Prelude.{◌≡◌, map, IfErr, IfOk, OnOk};
ghost use Rattle.std.specs.String.{string_bytes};
ghost use Rattle.played_rows.specs.Revelation.Files.{AreRead, IsAdded, IsOneUnread, IsUnread, is_class_path};
ghost use Rattle.played_rows.specs.Revelation.Lines.{is_row as row_line};
ghost use Rattle.played_rows.specs.Files.{IsFileAt};

use crate::words::MOST;
use byte_streams::{FetchError, Files};
use std::alloc::Global;
use std::fmt;

/// Why a row is not played.
#[derive(Drop)]
pub enum RowError {
    /// A file that a word names is not there.
    Missing(String),
    /// A file of rows is no text.
    NotText(String),
    /// A class file is none.
    NotRead,
    /// The classes are not admitted.
    NotAdmitted,
    /// The class java/lang/Object is not loaded.
    NoRoot,
    /// A word of the row says nothing.
    Unknown,
    NoMemory,
}

impl fmt::Display for RowError {
    fn fmt<W: fmt::Write>(&self, f: &mut fmt::Formatter<W>) -> fmt::Result {
        match self {
            RowError::Missing(path) => write!(f, "there is no file {path}"),
            RowError::NotText(path) => write!(f, "{path} is no UTF-8"),
            RowError::NotRead => write!(f, "a class file is none"),
            RowError::NotAdmitted => write!(f, "the classes are not admitted"),
            RowError::NoRoot => write!(f, "java/lang/Object is not loaded"),
            RowError::Unknown => write!(f, "the row is not understood"),
            RowError::NoMemory => write!(f, "no memory"),
        }
    }
}

/// The contents of the class files, and the lines of all files of rows.
#[derive(Drop)]
pub struct Input {
    pub classes: Vec<Vec<u8>>,
    pub rows: String,
}

/// A file that could not be fetched.
fn missing(alloc: Global, path: &str) -> RowError
    ensures { IsUnread path.now result }
{
    match String::from_str(alloc, path) {
        Ok(name) => RowError::Missing(name),
        Err(_) => RowError::NoMemory,
    }
}

/// A file of rows that is no text.
fn no_text(alloc: Global, path: &str) -> RowError
    ensures { IsUnread path.now result }
{
    match String::from_str(alloc, path) {
        Ok(name) => RowError::NotText(name),
        Err(_) => RowError::NoMemory,
    }
}

fn fetch_file<F: Files>(alloc: Global, path: &str, files: &mut F) -> Result<Vec<u8>, RowError>
    ensures found { IfOk result (λ bytes. IsFileAt (F.contents files.old) path.now bytes.items) }
    ensures fails { IfErr result (IsUnread path.now) }
    ensures stay { F.contents files.new ≡ F.contents files.old }
{
    match files.fetch(alloc, path, MOST) {
        Ok(bytes) => Ok(bytes),
        Err(FetchError::Failed) => Err(missing(alloc, path)),
        Err(FetchError::NoMemory) => Err(RowError::NoMemory),
    }
}

/// Whether a file is a class file.
fn is_class_path(path: &str) -> bool
    ensures { result ≡ is_class_path path.now }
{
    path.as_bytes().ends_with(b".class")
}

/// Adds a file by its path: a class file where its name ends so, and else rows.
fn add_file<F: Files>(
    alloc: Global,
    input: &mut Input,
    path: &str,
    files: &mut F,
) -> Result<(), RowError>
    ensures added { let told = F.contents files.old in
        let old = map (λ c. c.items) input.old.classes.items in
        let new = map (λ c. c.items) input.new.classes.items in
        OnOk result (IsAdded told path.now
        old (string_bytes input.old.rows) new (string_bytes input.new.rows)) }
    ensures fails { IfErr result (IsUnread path.now) }
    ensures stay { F.contents files.new ≡ F.contents files.old }
{
    let bytes = match fetch_file(alloc, path, files) {
        Ok(bytes) => bytes,
        Err(error) => return Err(error),
    };
    if is_class_path(path) {
        let Ok(()) = input.classes.push(bytes) else {
            return Err(RowError::NoMemory);
        };
        return Ok(());
    }
    let Ok(text) = String::from_utf8(bytes) else {
        return Err(no_text(alloc, path));
    };
    let Ok(()) = input.rows.push_str(text.as_str()) else {
        return Err(RowError::NoMemory);
    };
    Ok(())
}

/// The files at these paths.
pub fn read_files<F: Files>(
    alloc: Global,
    paths: &[String],
    files: &mut F,
) -> Result<Input, RowError>
    ensures fails { let paths = map (λ path. string_bytes path) paths.now in
        IfErr result (IsOneUnread paths) }
    ensures read { let told = F.contents files.old in
        let paths = map (λ path. string_bytes path) paths.now in
        IfOk result (λ input. AreRead told paths
        (map (λ c. c.items) input.classes.items) (string_bytes input.rows)) }
{
    let mut input = Input {
        classes: Vec::new(alloc),
        rows: String::new(alloc),
    };
    for path in paths {
        match add_file(alloc, &mut input, path.as_str(), files) {
            Ok(()) => {}
            Err(error) => return Err(error),
        }
    }
    Ok(input)
}

/// Whether a line is a row, and neither empty nor a remark.
pub fn is_row(line: &str) -> bool
    ensures { result ≡ row_line line.now }
{
    match line.as_bytes().first() {
        None => false,
        Some(byte) => *byte != b'#',
    }
}
