//! The tables of a Code in its version (JVM Specification 4.7.3).

ghost use Rattle.std.specs.Prelude.{◌≡◌, map, IfOk};
ghost use Rattle.std.specs.List.Sorted.{IsStrictlyIncreasing};
ghost use Rattle.jvm_model.specs.Rewriting.ImageTables.{moved_lines, moved_variables};
ghost use Rattle.inject_events.specs.Tables.{table_of, moved_table, moved_raw, is_frame_table, has_frames, lacks_frames, version_tables, is_full_table, has_full_table, are_frames_full};

use crate::frame_tables::{added_table, frame_count, moved_frame_table};
use crate::settings::{Setting, Table};
use code_model::Homes;
use const_pool::Raw;
use jf_bytes::{NoMemory, Seq};
use stackmap_shift::{FrameError, shift_lines, shift_vars};
use std::alloc::Global;

/// The greatest number of attributes, and of frames in a table: each is counted by a u2.
const MOST: usize = 65535;

/// Which table an attribute with this name is.
fn table_of(setting: &Setting, name: u16) -> Table
    ensures { result ≡ table_of setting.now name }
{
    let pool = &setting.tail.pool;
    if pool.is_bytes(name, b"LineNumberTable") {
        Table::Lines
    } else if pool.is_bytes(name, b"LocalVariableTable") {
        Table::Variables
    } else if pool.is_bytes(name, b"LocalVariableTypeTable") {
        Table::Variables
    } else if setting.framed && pool.is_bytes(name, b"StackMapTable") {
        Table::Frames
    } else {
        Table::Other
    }
}

/// A LineNumberTable by homes.
fn moved_lines(alloc: Global, homes: &Homes, bytes: &[u8]) -> Result<Seq<u8>, NoMemory>
    requires { IsStrictlyIncreasing homes.now.from }
    ensures { IfOk result (λ new. new ≡ moved_lines homes.now bytes.now) }
{
    match shift_lines(alloc, bytes, homes) {
        Ok(moved) => Ok(Seq::from_vec(moved)),
        Err(FrameError::BadFrame(_)) => Ok(Seq::from_slice(alloc, bytes)?),
        Err(FrameError::NoMemory) => Err(NoMemory),
    }
}

/// A LocalVariableTable or a LocalVariableTypeTable by homes.
fn moved_variables(alloc: Global, homes: &Homes, bytes: &[u8]) -> Result<Seq<u8>, NoMemory>
    requires { IsStrictlyIncreasing homes.now.from }
    ensures { IfOk result (λ new. new ≡ moved_variables homes.now bytes.now) }
{
    match shift_vars(alloc, bytes, homes) {
        Ok(moved) => Ok(Seq::from_vec(moved)),
        Err(FrameError::BadFrame(_)) => Ok(Seq::from_slice(alloc, bytes)?),
        Err(FrameError::NoMemory) => Err(NoMemory),
    }
}

/// A table's contents in a version of code that ended here.
fn moved_table(
    alloc: Global,
    setting: &Setting,
    homes: &Homes,
    end: u16,
    table: Table,
    bytes: &[u8],
) -> Result<Seq<u8>, NoMemory>
    requires { IsStrictlyIncreasing homes.now.from }
    ensures { IfOk result (λ new. new ≡ moved_table setting.now homes.now end table bytes.now) }
{
    match table {
        Table::Lines => moved_lines(alloc, homes, bytes),
        Table::Variables => moved_variables(alloc, homes, bytes),
        Table::Frames => moved_frame_table(alloc, setting, homes, end, bytes),
        Table::Other => Ok(Seq::from_slice(alloc, bytes)?),
    }
}

/// An attribute of a Code in a version.
fn moved_raw(
    alloc: Global,
    setting: &Setting,
    homes: &Homes,
    end: u16,
    raw: &Raw,
) -> Result<Raw, NoMemory>
    requires { IsStrictlyIncreasing homes.now.from }
    ensures { IfOk result (λ new. new ≡ moved_raw setting.now homes.now end raw.now) }
{
    let table = table_of(setting, raw.name);
    Ok(Raw {
        name: raw.name,
        bytes: moved_table(alloc, setting, homes, end, table, raw.bytes.as_slice())?,
    })
}

/// The attributes of a Code in a version.
fn moved_raws(
    alloc: Global,
    setting: &Setting,
    homes: &Homes,
    end: u16,
    raws: &[Raw],
) -> Result<Seq<Raw>, NoMemory>
    requires { IsStrictlyIncreasing homes.now.from }
    ensures { IfOk result (λ new. new ≡ map (moved_raw setting.now homes.now end) raws.now) }
{
    let mut moved = Seq::new(alloc);
    for raw in raws {
        moved.push(moved_raw(alloc, setting, homes, end, raw)?)?;
    }
    Ok(moved)
}

/// Whether it is a StackMapTable that counts.
fn is_frame_table(table: Table) -> bool
    ensures { result ≡ is_frame_table table }
{
    match table {
        Table::Frames => true,
        Table::Lines | Table::Variables | Table::Other => false,
    }
}

/// Whether a StackMapTable that counts is among the attributes.
fn has_frames(setting: &Setting, raws: &[Raw]) -> bool
    ensures { result ≡ has_frames setting.now raws.now }
{
    raws.iter()
        .any(|raw| is_frame_table(table_of(setting, raw.name)))
}

/// Whether a StackMapTable is to be added.
fn lacks_frames(setting: &Setting, raws: &[Raw]) -> bool
    ensures { result ≡ lacks_frames setting.now raws.now }
{
    setting.framed && !has_frames(setting, raws)
}

/// The attributes of a Code in a version of its code, which ended here, with the StackMapTable that is added.
pub(crate) fn version_tables(
    alloc: Global,
    setting: &Setting,
    homes: &Homes,
    end: u16,
    raws: &[Raw],
) -> Result<Seq<Raw>, NoMemory>
    requires { IsStrictlyIncreasing homes.now.from }
    ensures { IfOk result (λ new. new ≡ version_tables setting.now homes.now end raws.now) }
{
    let mut tables = moved_raws(alloc, setting, homes, end, raws)?;
    if !lacks_frames(setting, raws) {
        return Ok(tables);
    }
    tables.push(added_table(alloc, setting, homes, end)?)?;
    Ok(tables)
}

/// Whether it is a StackMapTable that has no room for one frame more.
fn is_full_table(alloc: Global, setting: &Setting, raw: &Raw) -> Result<bool, NoMemory>
    ensures { IfOk result (λ full. full ≡ is_full_table setting.now raw.now) }
{
    if is_frame_table(table_of(setting, raw.name)) {
        Ok(frame_count(alloc, raw.bytes.as_slice())? == MOST)
    } else {
        Ok(false)
    }
}

/// Whether one of them is such a table.
fn has_full_table(alloc: Global, setting: &Setting, raws: &[Raw]) -> Result<bool, NoMemory>
    ensures { IfOk result (λ full. full ≡ has_full_table setting.now raws.now) }
{
    for raw in raws {
        if is_full_table(alloc, setting, raw)? {
            return Ok(true);
        }
    }
    Ok(false)
}

/// Whether frames find no room in the attributes of a Code.
pub(crate) fn are_frames_full(
    alloc: Global,
    setting: &Setting,
    raws: &[Raw],
) -> Result<bool, NoMemory>
    ensures { IfOk result (λ full. full ≡ are_frames_full setting.now raws.now) }
{
    if has_full_table(alloc, setting, raws)? {
        Ok(true)
    } else {
        Ok(lacks_frames(setting, raws) && raws.len() == MOST)
    }
}
