//! The verdict on a row.

ghost use Rattle.std.specs.Prelude.{◌≡◌, ◌++◌, codes, map, true, false, IfErr, IfOk, OnOk};
ghost use Rattle.std.specs.List.{AllZip, filter};
ghost use Rattle.std.specs.Str.Lines.{lines};
ghost use Rattle.std.specs.String.{string_bytes};
ghost use Rattle.jvm_model.specs.Classes.Load.{load_of};
ghost use Rattle.played_rows.specs.Revelation.Judging.{AddsVerdict, IsToldOfRow, IsUnbegun};
ghost use Rattle.played_rows.specs.Revelation.Judging.{IsUnplayed, IsVerdict, root_name};
ghost use Rattle.played_rows.specs.Revelation.Lines.{is_row as row_line};
ghost use Rattle.played_rows.specs.Revelation.Rows.{Comes, first};
ghost use Rattle.played_rows.specs.Revelation.Scenes.{IsBlank};

use crate::revelation::item::{Difference, Fact, Item};
use crate::revelation::making::make;
use crate::revelation::names::{put_classes, put_marks, put_methods};
use crate::revelation::parts::{Input, RowError, is_row};
use crate::revelation::playing::play_all;
use crate::revelation::reading::read_row;
use crate::revelation::scenes::{Scene, begin, new_scene};
use crate::revelation::spent::Spent;
use crate::words::lines_of;
use jf_bytes::NoMemory;
use jvm_model::Program;
use std::alloc::{AllocError, Global};
use std::time::CpuClock;

/// What is told of a row.
#[derive(Drop)]
pub struct Verdict {
    pub line: String,
    pub has_passed: bool,
}

/// A fact in words.
fn put_fact(out: &mut String, program: &Program, fact: &Fact) -> Result<(), NoMemory> {
    match fact {
        Fact::Marks(marks) => {
            out.push_str("marked:")?;
            put_marks(out, program, marks.as_slice())
        }
        Fact::Changed(classes) => {
            out.push_str("changed:")?;
            put_classes(out, program, classes.as_slice())
        }
        Fact::Begins(_, methods) => {
            out.push_str("it begins:")?;
            put_methods(out, program, methods.as_slice())
        }
        Fact::IsSelected(_, true) => Ok(out.push_str("it is selected")?),
        Fact::IsSelected(_, false) => Ok(out.push_str("it is not selected")?),
        Fact::SelectsAny(true) => Ok(out.push_str("a method is selected")?),
        Fact::SelectsAny(false) => Ok(out.push_str("no method is selected")?),
    }
}

/// What came, in words.
fn text_of(alloc: Global, program: &Program, came: &Difference) -> Result<String, NoMemory> {
    let mut out = String::new(alloc);
    match came {
        Difference::NotLoaded => out.push_str("the class of a method is not loaded")?,
        Difference::Came(fact) => put_fact(&mut out, program, fact)?,
    }
    Ok(out)
}

/// Plays a row in a scene in which nothing is loaded.
fn run<R: CpuClock>(
    rt: &R,
    alloc: Global,
    scene: &mut Scene,
    items: &[Item],
) -> Result<Option<Difference>, RowError>
    requires { IsBlank scene.old.linker scene.old.reveal }
    ensures came { let l = scene.old.linker in
        IfOk result (Comes l.program items.now
        (first (load_of l.program l.loaded root_name).loaded)) }
    ensures unbegun { IfErr result (IsUnbegun scene.old.linker) }
{
    let Ok(began) = begin(alloc, scene) else {
        return Err(RowError::NoMemory);
    };
    if !began {
        return Err(RowError::NoRoot);
    }
    match play_all(rt, alloc, scene, items) {
        Ok(found) => Ok(found),
        Err(NoMemory) => Err(RowError::NoMemory),
    }
}

/// What came otherwise than a row says, if anything did, and what the row took of the processor.
fn judge<R: CpuClock>(
    rt: &R,
    alloc: Global,
    files: &[Vec<u8>],
    row: &str,
) -> Result<(Option<String>, Spent), RowError>
    ensures difference { let files = map (λ f. f.items) files.now in
        IfOk result (λ answer. IsToldOfRow files row.now answer.0) }
    ensures unplayed { IfErr result (IsUnplayed (map (λ f. f.items) files.now) row.now) }
{
    let program = match make(alloc, files) {
        Ok(program) => program,
        Err(error) => return Err(error),
    };
    let Ok(read) = read_row(alloc, &program, row) else {
        return Err(RowError::NoMemory);
    };
    let Some(items) = read else {
        return Err(RowError::Unknown);
    };
    let Ok(mut scene) = new_scene(alloc, program) else {
        return Err(RowError::NoMemory);
    };
    let found = match run(rt, alloc, &mut *scene, items.as_slice()) {
        Ok(found) => found,
        Err(error) => return Err(error),
    };
    match found {
        Some(came) => match text_of(alloc, scene.linker.program(), &came) {
            Ok(told) => Ok((Some(told), scene.spent)),
            Err(NoMemory) => Err(RowError::NoMemory),
        },
        None => Ok((None, scene.spent)),
    }
}

/// The verdict on a row all of which came: `ROW ok`.
fn row_passed(alloc: Global, row: &str) -> Result<Verdict, AllocError>
    ensures line { IfOk result (λ v. string_bytes v.line ≡ row.now ++ codes " ok") }
    ensures passed { IfOk result (λ v. v.has_passed ≡ true) }
{
    let line = format!(in alloc; "{row} ok")?;
    Ok(Verdict {
        line,
        has_passed: true,
    })
}

/// The verdict on another: `ROW: `, and what came in place of what it says, or why it is not played.
fn row_failed(alloc: Global, row: &str, told: String) -> Result<Verdict, AllocError>
    ensures line { IfOk result (λ v.
        string_bytes v.line ≡ row.now ++ (codes ": " ++ string_bytes told)) }
    ensures passed { IfOk result (λ v. v.has_passed ≡ false) }
{
    let line = format!(in alloc; "{row}: {told}")?;
    Ok(Verdict {
        line,
        has_passed: false,
    })
}

/// The verdict on a row where what it took is asked for.
fn took(alloc: Global, spent: Spent) -> Result<Verdict, AllocError>
    ensures { IfOk result (λ v. v.has_passed ≡ true) }
{
    let line = format!(in alloc; "{spent}")?;
    Ok(Verdict {
        line,
        has_passed: true,
    })
}

/// Why a row is not played, in words.
fn cause(alloc: Global, error: &RowError) -> Result<String, AllocError>
    ensures { IfOk result (λ told.
        error.now ≡ RowError.NoMemory → string_bytes told ≡ codes "no memory") }
{
    if let RowError::NoMemory = error {
        return String::from_str(alloc, "no memory");
    }
    format!(in alloc; "{error}")
}

/// Plays a row over the program of these class files. Where it is `timed` what it took is told.
fn judge_row<R: CpuClock>(
    rt: &R,
    alloc: Global,
    files: &[Vec<u8>],
    row: &str,
    timed: bool,
) -> Result<Verdict, AllocError>
    ensures { let files = map (λ f. f.items) files.now in
        IfOk result (IsVerdict files timed row.now) }
{
    match judge(rt, alloc, files, row) {
        Ok((difference, spent)) => {
            if timed {
                return Ok(took(alloc, spent)?);
            }
            match difference {
                None => Ok(row_passed(alloc, row)?),
                Some(told) => Ok(row_failed(alloc, row, told)?),
            }
        }
        Err(error) => {
            let told = cause(alloc, &error)?;
            Ok(row_failed(alloc, row, told)?)
        }
    }
}

/// Adds the verdict on a line, where it is a row.
fn add_verdict<R: CpuClock>(
    rt: &R,
    alloc: Global,
    verdicts: &mut Vec<Verdict>,
    files: &[Vec<u8>],
    line: &str,
    timed: bool,
) -> Result<(), AllocError>
    ensures { let files = map (λ f. f.items) files.now in
        OnOk result (AddsVerdict (IsVerdict files timed) line.now
        verdicts.old.items verdicts.new.items) }
{
    if is_row(line) {
        let verdict = judge_row(rt, alloc, files, line, timed)?;
        verdicts.push(verdict)?;
        return Ok(());
    }
    Ok(())
}

/// Plays those of these lines that are rows.
fn judge_lines<R: CpuClock>(
    rt: &R,
    alloc: Global,
    files: &[Vec<u8>],
    lines: &[&str],
    timed: bool,
) -> Result<Vec<Verdict>, AllocError>
    ensures { let files = map (λ f. f.items) files.now in
        let rows = filter row_line (map (λ l. l.now) lines.now) in
        IfOk result (λ verdicts. AllZip (IsVerdict files timed) rows verdicts.items) }
{
    let mut verdicts = Vec::new(alloc);
    for line in lines {
        add_verdict(rt, alloc, &mut verdicts, files, line, timed)?;
    }
    Ok(verdicts)
}

/// Plays all rows over the program of the class files.
pub fn judge_all<R: CpuClock>(
    rt: &R,
    alloc: Global,
    input: &Input,
    timed: bool,
) -> Result<Vec<Verdict>, AllocError>
    ensures { let files = map (λ f. f.items) input.now.classes.items in
        let rows = filter row_line (lines (string_bytes input.now.rows)) in
        IfOk result (λ verdicts. AllZip (IsVerdict files timed) rows verdicts.items) }
{
    let lines = lines_of(alloc, input.rows.as_str())?;
    judge_lines(rt, alloc, &input.classes, &lines, timed)
}
