//! Making the Code attribute of a method (JVM Specification 4.7.3).

ghost use Rattle.std.specs.Prelude.{IfOk, map, []};
ghost use Rattle.std.specs.Option.{option_map};
ghost use Rattle.base_classes.specs.Making.{AddsAttributes, instruction_added, code_from, attributes_added, code_added};
ghost use Rattle.base_classes.specs.RowViews.{instruction_view, code_view};
ghost use Rattle.class_making.specs.Making.{AddsCode};

use crate::entries::{add_reference, add_string, add_text};
use crate::rows::{CodeRow, InstructionRow};
use class_making::{add_short, code_alone, short_of};
use const_pool::{Attribute, Const};
use jf_bytes::{NoMemory, Seq};
use op_table::LDC;
use std::alloc::Global;

/// Adds an instruction, and the entries that it names. The index of a string is a byte.
#[tactic(auto, unfolding(crate::specs::Making::instruction_added))]
fn add_instruction(
    alloc: Global,
    pool: &mut Vec<Const>,
    code: &mut Vec<u8>,
    row: &InstructionRow,
) -> Result<(), NoMemory>
    ensures { AddsCode result pool.new.items code.new.items
        (instruction_added pool.old.items code.old.items (instruction_view row.now)) }
{
    match *row {
        InstructionRow::Plain(op) => code.push(op)?,
        InstructionRow::Jump(op, target) => {
            add_short(code, op, target.saturating_sub(short_of(code.len())))?;
        }
        InstructionRow::LoadText(text) => {
            let [_, index] = add_string(alloc, pool, text)?.to_be_bytes();
            code.extend_from_slice(&[LDC, index])?;
        }
        InstructionRow::OnMember(op, member) => {
            add_short(code, op, add_reference(alloc, pool, op, &member)?)?;
        }
    }
    Ok(())
}

/// The bytes of these instructions, with the entries that they name added.
#[tactic(auto, unfolding(crate::specs::Making::code_from))]
fn add_code_bytes(
    alloc: Global,
    pool: &mut Vec<Const>,
    rows: &[InstructionRow],
) -> Result<Vec<u8>, NoMemory>
    ensures { IfOk result (λ code. AddsCode result pool.new.items code.items
        (code_from pool.old.items [] (map instruction_view rows.now))) }
{
    let mut code = Vec::new(alloc);
    for row in rows {
        add_instruction(alloc, pool, &mut code, row)?;
    }
    Ok(code)
}

/// The attributes of a method with this code.
#[tactic(auto, unfolding(crate::specs::Making::code_added))]
fn add_code(alloc: Global, pool: &mut Vec<Const>, row: &CodeRow) -> Result<Seq<Attribute>, NoMemory>
    ensures { AddsAttributes result pool.new.items (code_added pool.old.items (code_view row.now)) }
{
    let name = add_text(alloc, pool, "Code")?;
    let code = add_code_bytes(alloc, pool, row.instructions)?;
    code_alone(alloc, name, row.max_stack, row.max_locals, code)
}

/// The attributes of a member that may have a code.
#[tactic(auto, unfolding(crate::specs::Making::attributes_added))]
pub(crate) fn add_attributes(
    alloc: Global,
    pool: &mut Vec<Const>,
    code: Option<&CodeRow>,
) -> Result<Seq<Attribute>, NoMemory>
    ensures { AddsAttributes result pool.new.items
        (attributes_added pool.old.items (option_map (λ c. code_view c.now) code.entry)) }
{
    match code {
        None => Ok(Seq::new(alloc)),
        Some(row) => add_code(alloc, pool, row),
    }
}
