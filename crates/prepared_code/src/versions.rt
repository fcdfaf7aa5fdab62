//! The code that is run, prepared: versions of methods, each with what stands at its places, and
//! the version that each method begins in.

ghost use Rattle.std.specs.Prelude.{◌≡◌, ◌≤◌, false, length, true, OnErr, OnOk};
ghost use Rattle.std.specs.Option.{option_copied};
ghost use Rattle.method_versions.specs.Tables.{IsFirst, is_superseded_in};
ghost use Rattle.prepared_code.specs.Making.{HasItsLines, IsReplaced, has_lines, with_lines};
ghost use Rattle.prepared_code.specs.Tables.{Adds, AreAllCurrent, AreOfMethods, Releases, table_seen, version_at};
ghost use Rattle.prepared_code.specs.Versions.{current_of, first_of, line_at, line_in, mark_of};

use class_index::Index;
use frame_stack::Frames;
use jf_bytes::{NoMemory, Seq, Text16};
use jvm_model::Mark;
use method_versions::{Held, Versions as Table};
use prepared_lines::Line;
use std::alloc::Global;
use std::marker::Model;
use std::rc::Rc;

/// An entry of an exception table (JVM Specification 2.10, 4.7.3), by places, with the name of the
/// class that it catches.
#[derive(Drop)]
pub struct Catching {
    pub start: u16,
    pub end: u16,
    pub target: u16,
    pub catches: Option<Text16>,
}

/// The code of a version: whose probes stand in it, where it begins, the line at each of its
/// places, and its handlers. Where its lines are still to be made it has none.
#[derive(Drop)]
pub struct PreparedCode {
    pub has_lines: bool,
    pub mark: Mark,
    pub first: u16,
    pub lines: Seq<Option<Line>>,
    pub handlers: Seq<Catching>,
}

/// A version of a method.
pub type Version = Held<PreparedCode>;

/// The versions of a program's methods by their numbers, and for each method the one that it begins
/// in.
#[derive(Drop)]
pub struct Versions {
    table: Table<PreparedCode>,
}

impl Model for Versions {
    ghost use Rattle.prepared_code.specs.Tables as tables;
    ghost use Rattle.prepared_code.specs.Tables.{table_seen};

    ghost Value = { tables.Versions };

    ghost view = { λ v. table_seen v.table };
}

impl Versions {
    /// A table of these versions, by their numbers. Each method begins in its own.
    pub fn of(alloc: Global, first: Seq<Option<Version>>, current: Seq<usize>) -> Versions
        requires { IsFirst first current }
        ensures slots { result.slots ≡ first }
        ensures current { result.current ≡ current }
    {
        Versions {
            table: Table::of(alloc, first.into_vec(), current.into_vec()),
        }
    }

    /// Adds versions, in which their methods begin from then on. The former ones are dropped where
    /// no frame runs them. An `Err` changes nothing.
    pub fn add_all(&mut self, more: Seq<Version>, frames: &Frames) -> Result<(), NoMemory>
        requires { AreOfMethods (length self.old.current) more }
        ensures ok { OnOk result (Adds frames.now.frames more self.old self.new) }
        ensures err { OnErr result (self.new ≡ self.old) }
    {
        self.table.reserve(more.len())?;
        add_each(&mut self.table, more, frames);
        Ok(())
    }

    /// Replaces what is prepared of the version with this number, if there is one.
    pub fn replace(&mut self, number: usize, prepared: PreparedCode)
        ensures { IsReplaced number prepared self.old self.new }
    {
        self.table.replace(number, prepared);
    }

    /// Drops each superseded version that no frame runs.
    #[inline(always)]
    pub fn release(&mut self, frames: &Frames)
        ensures released { Releases frames.now.frames self.old self.new }
        ensures same { AreAllCurrent self.old → self.new ≡ self.old }
    {
        self.table.release(frames);
    }
}

/// Adds versions, for which there is room.
fn add_each(table: &mut Table<PreparedCode>, more: Seq<Version>, frames: &Frames)
    requires room { length more ≤ table.old.spare }
    requires methods { AreOfMethods (length table.old.current) more }
    ensures { Adds frames.now.frames more (table_seen table.old) (table_seen table.new) }
{
    for version in more.into_vec() {
        let Held { method, prepared } = version;
        table.add(method, prepared, frames);
    }
}

/// The version with this number.
#[inline(always)]
pub fn version_at(versions: &Versions, version: usize) -> Option<&Version>
    ensures { option_copied result ≡ version_at versions.now version }
{
    versions.table.get(version)
}

/// The line at a place of this version.
#[inline(always)]
pub fn line_in(version: &Version, place: u16) -> Option<&Line>
    ensures { option_copied result ≡ line_in place version.now }
{
    version.prepared.lines.get(place as usize)?.as_ref()
}

/// The line at a place of a version.
#[inline(always)]
pub fn line_at(versions: &Versions, version: usize, place: u16) -> Option<&Line>
    ensures { option_copied result ≡ line_at versions.now version place }
{
    line_in(versions.table.get(version)?, place)
}

/// Whether a version that is held has its lines.
#[inline(always)]
pub fn has_lines(versions: &Versions, version: usize) -> bool
    ensures { result ≡ has_lines versions.now version }
{
    match versions.table.get(version) {
        Some(held) => held.prepared.has_lines,
        None => true,
    }
}

/// The line at a place of a version that has its lines.
#[inline(always)]
pub fn line_there<'a>(
    index: &Rc<Index>,
    versions: &'a Versions,
    version: usize,
    place: u16,
) -> Option<&'a Line>
    requires { HasItsLines index.now.value versions.now version }
    ensures { option_copied result
        ≡ line_at (with_lines index.now.value versions.now) version place }
{
    line_at(versions, version, place)
}

/// The version in which a method begins.
#[inline(always)]
pub fn current_of(versions: &Versions, method: u32) -> usize
    ensures { result ≡ current_of versions.now method }
{
    match versions.table.current(method) {
        Some(version) => version,
        None => 4294967296 + method as usize,
    }
}

/// Whether a version is held, and its method begins in it.
#[inline(always)]
#[tactic(auto, using(crate::proofs::Tables::Superseded::is_current))]
pub fn is_current(versions: &Versions, version: usize) -> bool
    ensures { result ≡ true
        → is_superseded_in versions.now.slots versions.now.current version ≡ false }
{
    let Some(held) = versions.table.get(version) else {
        return false;
    };
    let Some(now) = versions.table.current(held.method) else {
        return false;
    };
    now == version
}

/// Whose probes a version has; one that is not held has none.
#[inline(always)]
pub fn mark_of(versions: &Versions, version: usize) -> Mark
    ensures { result ≡ mark_of versions.now version }
{
    match versions.table.get(version) {
        Some(held) => held.prepared.mark,
        None => Mark::Off,
    }
}

/// Where a version begins.
#[inline(always)]
pub fn first_of(versions: &Versions, version: usize) -> u16
    ensures { result ≡ first_of versions.now version }
{
    match versions.table.get(version) {
        Some(held) => held.prepared.first,
        None => 0,
    }
}
