//! What a row gives to the top call.

ghost use Rattle.std.specs.Prelude.{◌≡◌, ◌<◌, ◌∷◌, Some, codes, IfOk, IfSome};
ghost use Rattle.std.specs.String.{string_bytes};
ghost use Rattle.worked_rows.specs.Lines.{lines_in};
ghost use Rattle.worked_rows.specs.Rows.{HasWords, part_at};

use crate::lines::lines_in;
use crate::lists::lines_of;
use crate::parts::{RowError, fetch_file, fetch_part};
use byte_streams::Files;
use jf_bytes::Seq;
use row_calls::{Device, Failure, NamedFile, RowInput};
use std::alloc::{AllocError, Global};

/// What a file or the input has.
#[derive(Clone, Copy)]
enum Contents<'a> {
    /// What the file at this path has.
    Whole(&'a str),
    /// A front of what the file at this path has.
    Front(&'a str),
    /// What the file at this path has, with zeros behind it up to this length.
    Padded(&'a str, usize),
    /// That many zeros.
    Zeros(usize),
}

/// A line of the file `given`.
#[derive(Clone, Copy)]
enum Line<'a> {
    /// `file NAME PATH`, `front NAME PATH`, `padded NAME PATH LENGTH`, `zeros NAME COUNT`: what the file NAME has.
    File {
        name: &'a str,
        contents: Contents<'a>,
    },
    /// `input PATH`, `input_zeros COUNT`: what the input has.
    Input(Contents<'a>),
    /// `fails DEVICE CALL`
    Fails(Failure),
}

fn device_of(word: &str) -> Option<Device> {
    match word {
        "files" => Some(Device::Files),
        "input" => Some(Device::Input),
        "output" => Some(Device::Output),
        "report" => Some(Device::Report),
        "images" => Some(Device::Images),
        _ => None,
    }
}

/// What the contents of a file are, by the word of its line and what stands behind the file's name.
fn contents_of<'a>(word: &str, rest: &'a str) -> Option<Contents<'a>> {
    match word {
        "file" => Some(Contents::Whole(rest)),
        "front" => Some(Contents::Front(rest)),
        "padded" => {
            let (path, length) = rest.split_once(' ')?;
            Some(Contents::Padded(path, number(length)?))
        }
        "zeros" => Some(Contents::Zeros(number(rest)?)),
        _ => None,
    }
}

fn number(text: &str) -> Option<usize> {
    text.parse::<usize>().ok()
}

/// What a line of the file `given` says.
fn line_of(text: &str) -> Option<Line<'_>> {
    let (word, rest) = text.split_once(' ')?;
    match word {
        "input" => Some(Line::Input(Contents::Whole(rest))),
        "input_zeros" => Some(Line::Input(Contents::Zeros(number(rest)?))),
        "fails" => {
            let (device, call) = rest.split_once(' ')?;
            let device = device_of(device)?;
            let call = call.parse::<u64>().ok()?;
            Some(Line::Fails(Failure { device, call }))
        }
        _ => {
            let (name, rest) = rest.split_once(' ')?;
            let contents = contents_of(word, rest)?;
            Some(Line::File { name, contents })
        }
    }
}

/// The bytes of a file or of the input. A front has so many bytes.
fn bytes_of<F: Files>(
    alloc: Global,
    contents: Contents<'_>,
    front: usize,
    files: &mut F,
) -> Result<Vec<u8>, RowError>
    ensures stay { F.contents files.new ≡ F.contents files.old }
{
    match contents {
        Contents::Whole(path) => fetch_file(alloc, path, files),
        Contents::Front(path) => {
            let mut bytes = fetch_file(alloc, path, files)?;
            bytes.truncate(front);
            Ok(bytes)
        }
        Contents::Padded(path, length) => {
            let mut bytes = fetch_file(alloc, path, files)?;
            bytes.resize(length, 0)?;
            Ok(bytes)
        }
        Contents::Zeros(count) => Ok(vec![in alloc; 0; count]?),
    }
}

/// Adds what a line says to what is given so far. A front has so many bytes.
fn take_line<F: Files>(
    alloc: Global,
    text: &str,
    front: usize,
    given: &mut RowInput,
    files: &mut F,
) -> Result<(), RowError>
    ensures words { given.new.words ≡ given.old.words }
    ensures stay { F.contents files.new ≡ F.contents files.old }
{
    let Some(line) = line_of(text) else {
        return Err(RowError::Unknown(String::from_str(alloc, text)?));
    };
    match line {
        Line::File { name, contents } => {
            let contents = bytes_of(alloc, contents, front, files)?;
            let name = String::from_str(alloc, name)?;
            given.files.push(NamedFile { name, contents })?;
        }
        Line::Input(contents) => given.input = bytes_of(alloc, contents, front, files)?,
        Line::Fails(failure) => given.failures.push(failure)?,
    }
    Ok(())
}

/// The words that the lines say, behind the program's name.
fn words_of(alloc: Global, text: &[u8]) -> Result<Seq<Seq<u8>>, AllocError>
    ensures { IfOk result (λ words. words ≡ codes "jfluid" ∷ lines_in text.now) }
{
    let mut words = Seq::new(alloc);
    words.push(Seq::from_slice(alloc, "jfluid".as_bytes())?)?;
    let all = lines_in(alloc, text)?;
    for line in &all {
        words.push(Seq::from_slice(alloc, line)?)?;
    }
    Ok(words)
}

/// The text of the file `given` in the row's folder.
fn given_text<F: Files>(alloc: Global, row: &str, files: &mut F) -> Result<String, RowError>
    ensures found { IfOk result (λ text. IfSome (F.contents files.old) (λ told.
        part_at told row.now (codes "given") ≡ Some (string_bytes text))) }
    ensures stay { F.contents files.new ≡ F.contents files.old }
{
    let bytes = fetch_part(alloc, row, "given", files)?;
    match String::from_utf8(bytes) {
        Ok(text) => Ok(text),
        Err(_) => Err(RowError::NotText),
    }
}

/// The first line of a text.
fn first_line(text: &str) -> &str {
    match text.split_once('\n') {
        Some((line, _)) => line,
        None => text,
    }
}

/// How often a row is run: with each proper front of the file whose path is the first line of its file
/// `fronts`, from the empty one on, and once where it has no such file.
pub fn runs_of<F: Files>(alloc: Global, row: &str, files: &mut F) -> Result<usize, RowError>
    ensures some { IfOk result (λ runs. 0 < runs) }
    ensures stay { F.contents files.new ≡ F.contents files.old }
{
    let bytes = match fetch_part(alloc, row, "fronts", files) {
        Ok(bytes) => bytes,
        Err(RowError::Missing(_)) => return Ok(1),
        Err(error) => return Err(error),
    };
    let Ok(text) = String::from_utf8(bytes) else {
        return Err(RowError::NotText);
    };
    let whole = fetch_file(alloc, first_line(text.as_str()), files)?;
    Ok(whole.len().max(1))
}

/// What a row gives: the files `args` and `given` of its folder, where a front has so many bytes.
pub fn read_given<F: Files>(
    alloc: Global,
    row: &str,
    front: usize,
    files: &mut F,
) -> Result<RowInput, RowError>
    ensures words { IfOk result (λ given. IfSome (F.contents files.old) (λ told.
        HasWords told row.now given.words)) }
    ensures stay { F.contents files.new ≡ F.contents files.old }
{
    let args = fetch_part(alloc, row, "args", files)?;
    let mut given = RowInput {
        words: words_of(alloc, &args)?,
        files: Vec::new(alloc),
        input: Vec::new(alloc),
        failures: Vec::new(alloc),
    };
    let text = given_text(alloc, row, files)?;
    let all = lines_of(alloc, text.as_str())?;
    for line in &all {
        take_line(alloc, line, front, &mut given, files)?;
    }
    Ok(given)
}
