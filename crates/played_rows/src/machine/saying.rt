//! What a line of a row's file says.

ghost use Rattle.std.specs.Prelude.{◌≡◌, ◌++◌, IfOk, IfErr, OnOk};
ghost use Rattle.played_rows.specs.Machine.Causes.{IsMissing};
ghost use Rattle.played_rows.specs.Machine.Reading.{LineSays, Refuses, each_said, install_said, one_line, clock_behind, plain_said, refusal_said};
ghost use Rattle.played_rows.specs.Machine.Reading.{settles, so_often, tells, turn_line, turn_taken, up_to, with_ending};
ghost use Rattle.played_rows.specs.Machine.Words.{rest_of, word_of};

use crate::machine::line::Line;
use crate::machine::names::method_named;
use crate::machine::parts::{RowError, fetch_file, line_parted};
use crate::machine::telling::{OneTurn, ending_of, turn_of};
use crate::machine::words::{
    cause_of, kind_of, marks_of, number_of_32_bits, number_of_64_bits, output_of,
};
use crate::names::class_named;
use byte_streams::Files;
use class_shape::SwapError;
use jf_bytes::{NoMemory, Seq};
use jvm_machine::Turn;
use jvm_model::{Event, EventKind, Program};
use std::alloc::Global;

/// What a line says, and the clock of the step that settles next behind it.
#[derive(Drop)]
pub struct Said {
    pub lines: Seq<Line>,
    pub next: u64,
}

/// A class that is not redefined, and why.
#[derive(Drop)]
pub struct Refusal {
    pub class: u32,
    pub cause: SwapError,
}

fn one_line(alloc: Global, next: u64, line: Line) -> Result<Said, NoMemory>
    ensures { IfOk result (λ said. said ≡ one_line next line) }
{
    let mut lines = Seq::new(alloc);
    lines.push(line)?;
    Ok(Said { lines, next })
}

// ---- turns

/// The clock of the step that settles behind this turn.
fn clock_behind(told: &OneTurn) -> u64
    ensures { result ≡ clock_behind told.now.turn told.now.clock }
{
    match told.turn {
        Turn::Settled => told.clock.saturating_add(1),
        _ => told.clock,
    }
}

/// It is asked for in one step, or in so many.
fn turn_line(most: Option<u64>, told: OneTurn) -> Line
    ensures { result ≡ turn_line most told }
{
    let OneTurn { turn, clock } = told;
    match most {
        Some(most) => Line::Ran(most, turn, clock),
        None => Line::Turned(turn, clock),
    }
}

/// A turn, with the ending behind the clock of one that ended the run.
fn with_ending(
    alloc: Global,
    program: &Program,
    word: &str,
    rest: &str,
    first: Line,
    next: u64,
) -> Result<Option<Said>, NoMemory>
    ensures { IfOk result (λ said.
        said ≡ with_ending program.now word.now rest.now first next) }
{
    let mut lines = Seq::new(alloc);
    lines.push(first)?;
    if word == "ended" {
        let Some(ending) = ending_of(alloc, program, line_parted(rest).1)? else {
            return Ok(None);
        };
        lines.push(Line::Ended(ending))?;
        return Ok(Some(Said { lines, next }));
    }
    Ok(Some(Said { lines, next }))
}

/// A line of one turn, of one step or of several.
fn turn_taken(
    alloc: Global,
    program: &Program,
    most: Option<u64>,
    words: &str,
    next: u64,
) -> Result<Option<Said>, NoMemory>
    ensures { IfOk result (λ said. said ≡ turn_taken program.now most words.now next) }
{
    let (word, rest) = line_parted(words);
    let Some(told) = turn_of(alloc, program, next, word, rest)? else {
        return Ok(None);
    };
    let behind = clock_behind(&told);
    with_ending(alloc, program, word, rest, turn_line(most, told), behind)
}

/// Puts lines behind others.
fn put_behind(lines: &mut Vec<Line>, said: Seq<Line>) -> Result<(), NoMemory>
    ensures { OnOk result (lines.new.items ≡ lines.old.items ++ said) }
{
    let mut more = said.into_vec();
    lines.append(&mut more)?;
    Ok(())
}

/// The same turn so many times.
fn so_often(
    alloc: Global,
    program: &Program,
    count: u64,
    words: &str,
    next: u64,
) -> Result<Option<Said>, NoMemory>
    ensures { IfOk result (λ said.
        said ≡ so_often (turn_taken program.now None words.now) count next) }
{
    let mut lines = Vec::new(alloc);
    let mut next = next;
    let mut left = count;
    while left > 0 {
        match turn_taken(alloc, program, None, words, next)? {
            Some(said) => {
                put_behind(&mut lines, said.lines)?;
                next = said.next;
                left -= 1;
            }
            None => return Ok(None),
        }
    }
    Ok(Some(Said {
        lines: Seq::from_vec(lines),
        next,
    }))
}

/// Turns that settle, up to this clock.
fn turns_settled(alloc: Global, first: u64, last: u64) -> Result<Said, NoMemory>
    ensures { IfOk result (λ said. said ≡ up_to settles first last) }
{
    let mut lines = Seq::new(alloc);
    let end = last.saturating_add(1);
    let mut clock = first;
    while clock < end {
        lines.push(Line::Turned(Turn::Settled, clock))?;
        clock += 1;
    }
    Ok(Said { lines, next: end })
}

/// An event in each of these steps, which then settles.
fn told_and_settled(
    alloc: Global,
    kind: EventKind,
    method: u32,
    first: u64,
    last: u64,
) -> Result<Said, NoMemory>
    ensures { IfOk result (λ said. said ≡ up_to (tells kind method) first last) }
{
    let mut lines = Seq::new(alloc);
    let end = last.saturating_add(1);
    let mut clock = first;
    while clock < end {
        let event = Event {
            kind,
            method,
            clock,
        };
        lines.push(Line::Turned(Turn::Probe(event), clock))?;
        lines.push(Line::Turned(Turn::Settled, clock))?;
        clock += 1;
    }
    Ok(Said { lines, next: end })
}

/// The same: `each FIRST LAST KIND METHOD`.
fn each(alloc: Global, program: &Program, words: &str) -> Result<Option<Said>, NoMemory>
    ensures { IfOk result (λ said. said ≡ each_said program.now words.now) }
{
    let (first, rest) = line_parted(words);
    let (last, rest) = line_parted(rest);
    let (kind, word) = line_parted(rest);
    let Some(first) = number_of_64_bits(first) else {
        return Ok(None);
    };
    let Some(last) = number_of_64_bits(last) else {
        return Ok(None);
    };
    let Some(kind) = kind_of(kind) else {
        return Ok(None);
    };
    let Some(method) = method_named(alloc, program, word)? else {
        return Ok(None);
    };
    Ok(Some(told_and_settled(alloc, kind, method, first, last)?))
}

// ---- lines

/// An install: `CLASS MARKS`.
fn install(alloc: Global, program: &Program, words: &str) -> Result<Option<Line>, NoMemory>
    ensures { IfOk result (λ line. line ≡ install_said program.now words.now) }
{
    let (name, letters) = line_parted(words);
    let Some(class) = class_named(alloc, program, name)? else {
        return Ok(None);
    };
    let Some(marks) = marks_of(alloc, letters)? else {
        return Ok(None);
    };
    Ok(Some(Line::Installed(class, marks)))
}

/// What a line says that names no file.
fn plain_said(
    alloc: Global,
    program: &Program,
    next: u64,
    text: &str,
) -> Result<Option<Said>, NoMemory>
    ensures { IfOk result (λ said. said ≡ plain_said program.now next text.now) }
{
    let (word, rest) = line_parted(text);
    match word {
        "" | "#" | "class" | "main" => Ok(Some(Said {
            lines: Seq::new(alloc),
            next,
        })),
        "install" => match install(alloc, program, rest)? {
            Some(line) => Ok(Some(one_line(alloc, next, line)?)),
            None => Ok(None),
        },
        "printed" => {
            let output = output_of(alloc, rest)?;
            Ok(Some(one_line(alloc, next, Line::Printed(output))?))
        }
        "live" => match number_of_32_bits(rest) {
            Some(count) => Ok(Some(one_line(alloc, next, Line::Lives(count))?)),
            None => Ok(None),
        },
        "settled" => match number_of_64_bits(line_parted(rest).0) {
            Some(last) => Ok(Some(turns_settled(alloc, next, last)?)),
            None => Ok(None),
        },
        "run" => match number_of_64_bits(line_parted(rest).0) {
            Some(most) => turn_taken(alloc, program, Some(most), line_parted(rest).1, next),
            None => Ok(None),
        },
        "times" => match number_of_64_bits(line_parted(rest).0) {
            Some(count) => so_often(alloc, program, count, line_parted(rest).1, next),
            None => Ok(None),
        },
        "each" => each(alloc, program, rest),
        _ => turn_taken(alloc, program, None, text, next),
    }
}

/// Which class is not redefined, and why: `CLASS FILE CAUSE..`.
fn refusal_of(alloc: Global, program: &Program, words: &str) -> Result<Option<Refusal>, NoMemory>
    ensures { IfOk result (λ refusal. refusal ≡ refusal_said program.now words.now) }
{
    let (name, rest) = line_parted(words);
    let (_, cause) = line_parted(rest);
    let Some(class) = class_named(alloc, program, name)? else {
        return Ok(None);
    };
    let Some(cause) = cause_of(cause) else {
        return Ok(None);
    };
    Ok(Some(Refusal { class, cause }))
}

/// Bytes that redefine nothing: `CLASS FILE CAUSE..`.
fn bytes_refused<F: Files>(
    alloc: Global,
    program: &Program,
    next: u64,
    words: &str,
    files: &mut F,
) -> Result<Option<Said>, RowError>
    ensures says { let told = F.contents files.old in
        IfOk result (Refuses told (word_of (rest_of words.now)) next
        (refusal_said program.now words.now)) }
    ensures fails { IfErr result (IsMissing (word_of (rest_of words.now))) }
    ensures stay { F.contents files.new ≡ F.contents files.old }
{
    let refusal = match refusal_of(alloc, program, words) {
        Ok(Some(refusal)) => refusal,
        Ok(None) => return Ok(None),
        Err(NoMemory) => return Err(RowError::NoMemory),
    };
    let path = line_parted(line_parted(words).1).0;
    let bytes = match fetch_file(alloc, path, files) {
        Ok(bytes) => bytes,
        Err(error) => return Err(error),
    };
    let line = Line::Refused(refusal.class, Seq::from_vec(bytes), refusal.cause);
    match one_line(alloc, next, line) {
        Ok(said) => Ok(Some(said)),
        Err(NoMemory) => Err(RowError::NoMemory),
    }
}

/// What a line says, if it says something.
pub fn line_said<F: Files>(
    alloc: Global,
    program: &Program,
    next: u64,
    text: &str,
    files: &mut F,
) -> Result<Option<Said>, RowError>
    ensures says { IfOk result (LineSays program.now (F.contents files.old) next text.now) }
    ensures fails { IfErr result (IsMissing (word_of (rest_of (rest_of text.now)))) }
    ensures stay { F.contents files.new ≡ F.contents files.old }
{
    let (word, rest) = line_parted(text);
    if word == "refused" {
        return bytes_refused(alloc, program, next, rest, files);
    }
    match plain_said(alloc, program, next, text) {
        Ok(said) => Ok(said),
        Err(NoMemory) => Err(RowError::NoMemory),
    }
}
