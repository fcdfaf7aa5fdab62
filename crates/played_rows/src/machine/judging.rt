//! The verdict on a row.

ghost use Rattle.std.specs.Prelude.{IfOk};
ghost use Rattle.played_rows.specs.Machine.Judging.{IsJudged};

use crate::machine::making::make;
use crate::machine::parts::{RowError, fetch_text};
use crate::machine::playing::{Failure, play_all};
use crate::machine::reading::read_lines;
use crate::words::lines_of;
use byte_streams::Files;
use std::alloc::Global;

/// What of a row came otherwise, if anything did.
pub fn judge<F: Files>(alloc: Global, row: &str, files: &mut F) -> Result<Option<Failure>, RowError>
    ensures { IfOk result (IsJudged (F.contents files.old) row.now) }
{
    let text = fetch_text(alloc, row, files)?;
    let lines = lines_of(alloc, text.as_str())?;
    let mut vm = make(alloc, &lines, files)?;
    let placed = read_lines(alloc, vm.program(), &lines, files)?;
    Ok(play_all(alloc, &mut *vm, &placed)?)
}
