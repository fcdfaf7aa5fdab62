//! Debug tables: LineNumberTable, LocalVariableTable and LocalVariableTypeTable (JVM Specification 4.7.8, 4.7.9,
//! 4.7.10).

ghost use Rattle.std.specs.Prelude.{◌≡◌, ◌<◌, ◌≤◌, ◌+◌, ◌++◌, ℕ, is_ok, length, map, OnOk, IfOk};
ghost use Rattle.std.specs.List.{flat_map};
ghost use Rattle.std.specs.List.Sorted.{IsStrictlyIncreasing};
ghost use Rattle.stackmap_shift.specs.Tables.{Gives, nothing_left};
ghost use Rattle.stackmap_shift.specs.DebugTables.{lines_of, variables_of, line_bytes, variable_bytes, start_at, start_for, row_home, moved_line, moved_variable, shifted_lines, shifted_variables};

use crate::error::FrameError;
use crate::lists::{ReadItem, counted_of};
use crate::numbers::{nothing_left, u16_of};
use crate::writing::put_u16;
use code_model::Homes;
use jf_bytes::{NoMemory, Seq};
use std::alloc::Global;

/// A source line, and where its code starts.
#[derive(Clone, Copy, Debug)]
pub(crate) struct Line {
    pub(crate) start: u16,
    pub(crate) number: u16,
}

/// A local variable: where it has a value, its name, its descriptor or signature, and its slot.
#[derive(Clone, Copy, Debug)]
pub(crate) struct Variable {
    pub(crate) start: u16,
    pub(crate) len: u16,
    pub(crate) name: u16,
    pub(crate) descriptor: u16,
    pub(crate) slot: u16,
}

/// Reads source lines.
#[derive(Clone, Copy)]
struct Lines;

impl ReadItem<Line> for Lines {
    ghost use Rattle.stackmap_shift.specs.DebugTables.{line_at};

    ghost item = { λ s. line_at };

    #[tactic(auto, unfolding(crate::specs::DebugTables::line_at))]
    fn read<'a>(&self, limit: usize, bytes: &'a [u8]) -> Result<(Line, &'a [u8]), FrameError> {
        let (start, rest) = u16_of(limit, bytes)?;
        let (number, rest) = u16_of(limit, rest)?;
        Ok((Line { start, number }, rest))
    }
}

/// Reads local variables.
#[derive(Clone, Copy)]
struct Variables;

impl ReadItem<Variable> for Variables {
    ghost use Rattle.stackmap_shift.specs.DebugTables.{variable_at};

    ghost item = { λ s. variable_at };

    #[tactic(auto, unfolding(crate::specs::DebugTables::variable_at))]
    fn read<'a>(&self, limit: usize, bytes: &'a [u8]) -> Result<(Variable, &'a [u8]), FrameError> {
        let (start, rest) = u16_of(limit, bytes)?;
        let (len, rest) = u16_of(limit, rest)?;
        let (name, rest) = u16_of(limit, rest)?;
        let (descriptor, rest) = u16_of(limit, rest)?;
        let (slot, rest) = u16_of(limit, rest)?;
        let variable = Variable {
            start,
            len,
            name,
            descriptor,
            slot,
        };
        Ok((variable, rest))
    }
}

#[tactic(auto, unfolding(crate::specs::DebugTables::lines_of))]
fn lines_of(alloc: Global, bytes: &[u8]) -> Result<Seq<Line>, FrameError>
    ensures lines { Gives (λ x. x) result (lines_of bytes.now) }
    ensures few { IfOk result (λ lines. length lines ≤ 65535) }
{
    let limit = bytes.len();
    let (lines, rest) = counted_of(&Lines, alloc, limit, bytes)?;
    nothing_left(limit, rest)?;
    Ok(lines)
}

#[tactic(auto, unfolding(crate::specs::DebugTables::variables_of))]
fn variables_of(alloc: Global, bytes: &[u8]) -> Result<Seq<Variable>, FrameError>
    ensures variables { Gives (λ x. x) result (variables_of bytes.now) }
    ensures few { IfOk result (λ variables. length variables ≤ 65535) }
{
    let limit = bytes.len();
    let (variables, rest) = counted_of(&Variables, alloc, limit, bytes)?;
    nothing_left(limit, rest)?;
    Ok(variables)
}

/// Whether the contents of an attribute are a LineNumberTable.
pub fn is_line_table(alloc: Global, bytes: &[u8]) -> Result<bool, NoMemory>
    ensures { IfOk result (λ is. is ≡ is_ok (lines_of bytes.now)) }
{
    match lines_of(alloc, bytes) {
        Ok(_) => Ok(true),
        Err(FrameError::BadFrame(_)) => Ok(false),
        Err(FrameError::NoMemory) => Err(NoMemory),
    }
}

/// Whether the contents of an attribute are a LocalVariableTable or a LocalVariableTypeTable.
pub fn is_variable_table(alloc: Global, bytes: &[u8]) -> Result<bool, NoMemory>
    ensures { IfOk result (λ is. is ≡ is_ok (variables_of bytes.now)) }
{
    match variables_of(alloc, bytes) {
        Ok(_) => Ok(true),
        Err(FrameError::BadFrame(_)) => Ok(false),
        Err(FrameError::NoMemory) => Err(NoMemory),
    }
}

/// The start at an index, or the last one.
fn start_at(starts: &[u16], index: usize) -> u16
    ensures { result ≡ start_at starts.now index }
{
    let last = starts.get(starts.len().saturating_sub(1)).copied();
    starts.get(index).copied().or(last).unwrap_or(0)
}

/// The least start not below an offset, or the last one.
fn start_for(starts: &[u16], at: u16) -> u16
    requires { IsStrictlyIncreasing starts.now }
    ensures { result ≡ start_for starts.now at }
{
    match starts.binary_search(&at) {
        Ok(index) => start_at(starts, index),
        Err(index) => start_at(starts, index),
    }
}

/// The last start, which serves for what is above all offsets.
fn code_end(starts: &[u16]) -> u16
    ensures { (at : ℕ) → 65535 < at → result ≡ start_for starts.now at }
{
    start_at(starts, starts.len())
}

/// Where an offset in a row comes to stand.
fn row_home(homes: &Homes, at: u16) -> u16
    requires { IsStrictlyIncreasing homes.now.from }
    ensures { result ≡ row_home homes.now at }
{
    homes.home_of(start_for(homes.from.as_slice(), at))
}

/// Where the range of a variable comes to end.
fn moved_end(homes: &Homes, variable: &Variable) -> u16
    requires { IsStrictlyIncreasing homes.now.from }
    ensures { result ≡ row_home homes.now (variable.now.start + variable.now.len) }
{
    match variable.start.checked_add(variable.len) {
        Some(end) => row_home(homes, end),
        None => homes.home_of(code_end(homes.from.as_slice())),
    }
}

fn put_line(out: &mut Seq<u8>, homes: &Homes, line: &Line) -> Result<(), NoMemory>
    requires { IsStrictlyIncreasing homes.now.from }
    ensures { OnOk result (out.new ≡ out.old ++ line_bytes (moved_line homes.now line.now)) }
{
    put_u16(out, row_home(homes, line.start))?;
    put_u16(out, line.number)
}

fn put_variable(out: &mut Seq<u8>, homes: &Homes, variable: &Variable) -> Result<(), NoMemory>
    requires { IsStrictlyIncreasing homes.now.from }
    ensures { OnOk result
        (out.new ≡ out.old ++ variable_bytes (moved_variable homes.now variable.now)) }
{
    let start = row_home(homes, variable.start);
    put_u16(out, start)?;
    put_u16(out, moved_end(homes, variable).saturating_sub(start))?;
    put_u16(out, variable.name)?;
    put_u16(out, variable.descriptor)?;
    put_u16(out, variable.slot)
}

fn put_lines(out: &mut Seq<u8>, homes: &Homes, lines: &[Line]) -> Result<(), NoMemory>
    requires { IsStrictlyIncreasing homes.now.from }
    ensures { OnOk result
        (out.new ≡ out.old ++ flat_map line_bytes (map (moved_line homes.now) lines.now)) }
{
    for line in lines {
        put_line(out, homes, line)?;
    }
    Ok(())
}

fn put_variables(out: &mut Seq<u8>, homes: &Homes, variables: &[Variable]) -> Result<(), NoMemory>
    requires { IsStrictlyIncreasing homes.now.from }
    ensures { OnOk result (out.new
        ≡ out.old ++ flat_map variable_bytes (map (moved_variable homes.now) variables.now)) }
{
    for variable in variables {
        put_variable(out, homes, variable)?;
    }
    Ok(())
}

/// A LineNumberTable for code that is laid out anew, with these homes: the contents of the attribute behind its length.
/// An offset that starts no instruction goes where the next one that does goes. Lines stay in their order. A refusal
/// tells the first byte that breaks the grammar. To a user it means that the class file has a faulty method.
#[tactic(auto, unfolding(crate::specs::DebugTables::shifted_lines))]
pub fn shift_lines(alloc: Global, bytes: &[u8], homes: &Homes) -> Result<Vec<u8>, FrameError>
    requires { IsStrictlyIncreasing homes.now.from }
    ensures { Gives (λ v. v.items) result (shifted_lines homes.now bytes.now) }
{
    let lines = lines_of(alloc, bytes)?;
    let mut out = Seq::with_capacity(alloc, bytes.len())?;
    put_u16(&mut out, lines.len() as u16)?;
    put_lines(&mut out, homes, lines.as_slice())?;
    Ok(out.into_vec())
}

/// A LocalVariableTable or a LocalVariableTypeTable, as `shift_lines` gives a LineNumberTable. A range that went on to
/// an offset goes on to that offset's home.
#[tactic(auto, unfolding(crate::specs::DebugTables::shifted_variables))]
pub fn shift_vars(alloc: Global, bytes: &[u8], homes: &Homes) -> Result<Vec<u8>, FrameError>
    requires { IsStrictlyIncreasing homes.now.from }
    ensures { Gives (λ v. v.items) result (shifted_variables homes.now bytes.now) }
{
    let variables = variables_of(alloc, bytes)?;
    let mut out = Seq::with_capacity(alloc, bytes.len())?;
    put_u16(&mut out, variables.len() as u16)?;
    put_variables(&mut out, homes, variables.as_slice())?;
    Ok(out.into_vec())
}
