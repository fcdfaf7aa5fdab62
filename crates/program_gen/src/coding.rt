//! Making a method with its Code attribute (JVM Specification 4.6, 4.7.3).

ghost use Rattle.std.specs.Prelude.{IfOk, []};
ghost use Rattle.class_making.specs.Making.{AddsCode, GivesMember};
ghost use Rattle.program_gen.specs.Making.{instruction_added, code_from, method_added};

use crate::entries::{share_class, share_member, share_text};
use crate::names::{member_descriptor, member_text};
use crate::rows::{Instruction, MethodRow};
use class_making::{add_short, code_alone};
use const_pool::{Const, Member};
use jf_bytes::NoMemory;
use std::alloc::Global;

/// Adds an instruction, and the entries that it needs.
#[tactic(auto, unfolding(crate::specs::Making::instruction_added))]
fn add_instruction(
    alloc: Global,
    pool: &mut Vec<Const>,
    code: &mut Vec<u8>,
    instruction: Instruction,
) -> Result<(), NoMemory>
    ensures { AddsCode result pool.new.items code.new.items
        (instruction_added pool.old.items code.old.items instruction) }
{
    match instruction {
        Instruction::Plain(op) => code.push(op)?,
        Instruction::Byte(op, operand) => code.extend_from_slice(&[op, operand])?,
        Instruction::Short(op, operand) => add_short(code, op, operand)?,
        Instruction::OfClass(op, class) => {
            add_short(code, op, share_class(alloc, pool, class)?)?;
        }
        Instruction::OfMember(op, class, member) => {
            add_short(code, op, share_member(alloc, pool, op, class, member)?)?;
        }
    }
    Ok(())
}

/// The bytes of these instructions, with the entries that they need added.
#[tactic(auto, unfolding(crate::specs::Making::code_from))]
fn add_code_bytes(
    alloc: Global,
    pool: &mut Vec<Const>,
    instructions: &[Instruction],
) -> Result<Vec<u8>, NoMemory>
    ensures { IfOk result (λ code. AddsCode result pool.new.items code.items
        (code_from pool.old.items [] instructions.now)) }
{
    let mut code = Vec::new(alloc);
    for instruction in instructions {
        add_instruction(alloc, pool, &mut code, *instruction)?;
    }
    Ok(code)
}

/// The method that the row says.
#[tactic(auto, unfolding(crate::specs::Making::method_added))]
pub(crate) fn add_method(
    alloc: Global,
    pool: &mut Vec<Const>,
    row: &MethodRow,
) -> Result<Member, NoMemory>
    ensures { GivesMember result pool.new.items (method_added pool.old.items row.now) }
{
    let name = share_text(alloc, pool, member_text(row.name))?;
    let descriptor = share_text(alloc, pool, member_descriptor(row.name))?;
    let attribute = share_text(alloc, pool, "Code")?;
    let code = add_code_bytes(alloc, pool, row.code.as_slice())?;
    let attributes = code_alone(alloc, attribute, row.max_stack, row.max_locals, code)?;
    Ok(Member {
        access: row.access,
        name,
        descriptor,
        attributes,
    })
}
