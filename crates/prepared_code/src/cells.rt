//! What the names of lines came to, beside the versions: by version and place.

ghost use Rattle.std.specs.Prelude.{◌≡◌, ℕ, []};
ghost use Rattle.std.specs.Option.{option_copied};
ghost use Rattle.prepared_code.specs.Cells.{Keeps, KeepsItem, Learns, cell_at, item_at};

use jf_bytes::{NoMemory, Seq};
use member_selection::Known;
use std::alloc::Global;
use std::marker::Model;

/// What is known of the names of lines. A row is made when the first line of its version is
/// attempted.
#[derive(Drop)]
pub struct Cells {
    rows: Vec<Seq<Option<Known>>>,
}

impl Model for Cells {
    ghost use Rattle.prepared_code.specs.Cells.{Rows};

    ghost Value = { Rows };

    ghost view = { λ c. c.rows.items };
}

// ---- a row

/// Makes a row so long that a place stands in it. Nothing is known there.
fn lengthen(row: &mut Seq<Option<Known>>, place: u16) -> Result<(), NoMemory>
    ensures { (other : ℕ) → item_at row.new other ≡ item_at row.old other }
{
    let missing = (place as usize + 1).saturating_sub(row.len());
    for _ in 0..missing {
        let Ok(()) = row.push(None) else {
            return Err(NoMemory);
        };
    }
    Ok(())
}

/// Writes what is known at a place of a row that is long enough.
#[tactic(auto, using(crate::proofs::Lines::CellLemmas::item_put, crate::proofs::Lines::CellLemmas::item_same))]
fn set_item(row: &mut Seq<Option<Known>>, place: u16, known: Known)
    ensures { KeepsItem place known row.old row.new }
{
    if (place as usize) < row.len() {
        row.set(place as usize, Some(known));
    }
}

/// Keeps what is known at a place of a row, unless memory runs out.
#[tactic(auto, using(crate::proofs::Lines::CellLemmas::item_behind, crate::proofs::Lines::CellLemmas::item_kept))]
fn put_item(row: &mut Seq<Option<Known>>, place: u16, known: Known)
    ensures { KeepsItem place known row.old row.new }
{
    if lengthen(row, place).is_err() {
        return;
    }
    set_item(row, place, known);
}

// ---- rows

/// Makes a row of a version, where there is none and each version before it has one.
fn add_row(
    alloc: Global,
    rows: &mut Vec<Seq<Option<Known>>>,
    version: usize,
) -> Result<(), NoMemory>
    ensures { (other place : ℕ) → cell_at rows.new.items other place
        ≡ cell_at rows.old.items other place }
{
    if version < rows.len() {
        return Ok(());
    }
    let Ok(()) = rows.push(Seq::new(alloc)) else {
        return Err(NoMemory);
    };
    Ok(())
}

/// Makes so many rows that there is one of a version.
#[tactic(auto, using(crate::proofs::Lines::CellLemmas::cell_more))]
fn add_rows(
    alloc: Global,
    rows: &mut Vec<Seq<Option<Known>>>,
    version: usize,
) -> Result<(), NoMemory>
    ensures { (other place : ℕ) → cell_at rows.new.items other place
        ≡ cell_at rows.old.items other place }
{
    let missing = version.saturating_sub(rows.len());
    for _ in 0..missing {
        let Ok(()) = rows.push(Seq::new(alloc)) else {
            return Err(NoMemory);
        };
    }
    add_row(alloc, rows, version)
}

/// Keeps what is known at a place of a version that has a row.
#[tactic(auto, using(crate::proofs::Lines::CellLemmas::cell_put, crate::proofs::Lines::CellLemmas::keeps_same))]
fn put_cell(rows: &mut [Seq<Option<Known>>], version: usize, place: u16, known: Known)
    ensures { Keeps version place known rows.old rows.new }
{
    if version < rows.len() {
        put_item(&mut rows[version], place, known);
    }
}

impl Cells {
    /// Nothing is known.
    pub fn new(alloc: Global) -> Cells
        ensures { result ≡ [] }
    {
        Cells {
            rows: Vec::new(alloc),
        }
    }

    /// What is known at a place of a version.
    #[inline(always)]
    pub fn get(&self, version: usize, place: u16) -> Option<Known>
        ensures { result ≡ cell_at self.now version place }
    {
        self.rows.get(version)?.at(place as usize)?
    }

    /// The same, where it stands.
    #[inline(always)]
    pub fn at(&self, version: usize, place: u16) -> Option<&Known>
        ensures { option_copied result ≡ cell_at self.now version place }
    {
        self.rows.get(version)?.get(place as usize)?.as_ref()
    }

    /// Keeps what is known at a place of a version. Where memory runs out it is not kept.
    #[inline(never)]
    #[tactic(auto, using(crate::proofs::Lines::CellLemmas::cells_same, crate::proofs::Lines::CellLemmas::keeps_behind))]
    fn put(&mut self, alloc: Global, version: usize, place: u16, known: Known)
        ensures { Keeps version place known self.old self.new }
    {
        if add_rows(alloc, &mut self.rows, version).is_err() {
            return;
        }
        put_cell(&mut self.rows, version, place, known);
    }

    /// The same, if anything was learnt.
    pub fn learn(&mut self, alloc: Global, version: usize, place: u16, learnt: Option<Known>)
        ensures { Learns version place learnt self.old self.new }
    {
        if let Some(known) = learnt {
            self.put(alloc, version, place, known);
        }
    }

    /// The same, where this was known before.
    #[inline(always)]
    #[tactic(auto, using(crate::proofs::Lines::CellLemmas::keeps_same))]
    pub fn renew(&mut self, alloc: Global, version: usize, place: u16, before: Known, known: Known)
        ensures { Keeps version place known self.old self.new }
    {
        if known != before {
            self.put(alloc, version, place, known);
        }
    }
}
