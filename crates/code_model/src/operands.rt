//! The operands of each form, and instructions (JVM Specification 6.5).

ghost use Rattle.std.specs.Prelude.{◌≡◌};
ghost use Rattle.std.specs.Int.{w8, w16, w32};
ghost use Rattle.code_model.specs.Operands.{form_of, is_wide};
ghost use Rattle.code_model.specs.Reading.{Gives, value_at, index_at, local_at, increment_at};
ghost use Rattle.code_model.specs.Reading.{branch_at, interface_at, multi_at, array_at, operand_at};
ghost use Rattle.code_model.specs.Reading.{behind_opcode_at, behind_wide_at, read_instruction};

use crate::error::CodeError;
use crate::instr::{Arg, Instr};
use crate::numbers::{
    far_target_of, i8_of, i16_of, near_target_of, slot_of, step_of, u8_of, u16_of,
};
use crate::switches::{lookup_of, table_of};
use op_table::{Form, row, wide_row};
use std::alloc::Global;

/// The form of an opcode, by itself or behind wide.
pub(crate) fn form_of(wide: bool, op: u8) -> Form
    ensures { result ≡ form_of wide op }
{
    if wide {
        wide_row(op).form
    } else {
        row(op).form
    }
}

/// A constant in one byte.
#[tactic(auto, unfolding(crate::specs::Reading::value_at))]
fn byte_of(at: u16, bytes: &[u8]) -> Result<(Arg, &[u8]), CodeError>
    ensures { Gives (λ x. (x.0, x.1.now)) result (value_at at w8 bytes.now) }
{
    let (n, rest) = i8_of(at, bytes)?;
    Ok((Arg::Value(i32::from(n)), rest))
}

/// A constant in two bytes.
#[tactic(auto, unfolding(crate::specs::Reading::value_at))]
fn short_of(at: u16, bytes: &[u8]) -> Result<(Arg, &[u8]), CodeError>
    ensures { Gives (λ x. (x.0, x.1.now)) result (value_at at w16 bytes.now) }
{
    let (n, rest) = i16_of(at, bytes)?;
    Ok((Arg::Value(i32::from(n)), rest))
}

/// An index into the constant pool in one byte.
#[tactic(auto, unfolding(crate::specs::Reading::index_at))]
fn short_index_of(at: u16, bytes: &[u8]) -> Result<(Arg, &[u8]), CodeError>
    ensures { Gives (λ x. (x.0, x.1.now)) result (index_at at w8 bytes.now) }
{
    let (index, rest) = u8_of(at, bytes)?;
    Ok((Arg::Pool(u16::from(index)), rest))
}

/// An index into the constant pool in two bytes.
#[tactic(auto, unfolding(crate::specs::Reading::index_at))]
fn index_of(at: u16, bytes: &[u8]) -> Result<(Arg, &[u8]), CodeError>
    ensures { Gives (λ x. (x.0, x.1.now)) result (index_at at w16 bytes.now) }
{
    let (index, rest) = u16_of(at, bytes)?;
    Ok((Arg::Pool(index), rest))
}

/// A slot.
#[tactic(auto, unfolding(crate::specs::Reading::local_at))]
fn local_of(wide: bool, at: u16, bytes: &[u8]) -> Result<(Arg, &[u8]), CodeError>
    ensures { Gives (λ x. (x.0, x.1.now)) result (local_at at wide bytes.now) }
{
    let (slot, rest) = slot_of(wide, at, bytes)?;
    Ok((Arg::Local(slot), rest))
}

/// A slot, and what is added to it.
#[tactic(auto, unfolding(crate::specs::Reading::increment_at))]
fn increment_of(wide: bool, at: u16, bytes: &[u8]) -> Result<(Arg, &[u8]), CodeError>
    ensures { Gives (λ x. (x.0, x.1.now)) result (increment_at at wide bytes.now) }
{
    let (slot, rest) = slot_of(wide, at, bytes)?;
    let (step, rest) = step_of(wide, at, rest)?;
    Ok((Arg::Inc(slot, step), rest))
}

/// A branch offset of two bytes.
#[tactic(auto, unfolding(crate::specs::Reading::branch_at))]
fn near_branch_of(at: u16, bytes: &[u8]) -> Result<(Arg, &[u8]), CodeError>
    ensures { Gives (λ x. (x.0, x.1.now)) result (branch_at at w16 bytes.now) }
{
    let (target, rest) = near_target_of(at, bytes)?;
    Ok((Arg::Target(target), rest))
}

/// A branch offset of four bytes.
#[tactic(auto, unfolding(crate::specs::Reading::branch_at))]
fn far_branch_of(at: u16, bytes: &[u8]) -> Result<(Arg, &[u8]), CodeError>
    ensures { Gives (λ x. (x.0, x.1.now)) result (branch_at at w32 bytes.now) }
{
    let (target, rest) = far_target_of(at, bytes)?;
    Ok((Arg::Target(target), rest))
}

/// What stands behind invokeinterface.
#[tactic(auto, unfolding(crate::specs::Reading::interface_at))]
fn interface_of(at: u16, bytes: &[u8]) -> Result<(Arg, &[u8]), CodeError>
    ensures { Gives (λ x. (x.0, x.1.now)) result (interface_at at bytes.now) }
{
    let (index, rest) = u16_of(at, bytes)?;
    let (count, rest) = u8_of(at, rest)?;
    let (zero, rest) = u8_of(at, rest)?;
    Ok((Arg::Interface(index, count, zero), rest))
}

/// What stands behind multianewarray.
#[tactic(auto, unfolding(crate::specs::Reading::multi_at))]
fn multi_of(at: u16, bytes: &[u8]) -> Result<(Arg, &[u8]), CodeError>
    ensures { Gives (λ x. (x.0, x.1.now)) result (multi_at at bytes.now) }
{
    let (index, rest) = u16_of(at, bytes)?;
    let (dimensions, rest) = u8_of(at, rest)?;
    Ok((Arg::Multi(index, dimensions), rest))
}

/// What stands behind newarray.
#[tactic(auto, unfolding(crate::specs::Reading::array_at))]
fn array_of(at: u16, bytes: &[u8]) -> Result<(Arg, &[u8]), CodeError>
    ensures { Gives (λ x. (x.0, x.1.now)) result (array_at at bytes.now) }
{
    let (kind, rest) = u8_of(at, bytes)?;
    Ok((Arg::Array(kind), rest))
}

/// The operand of a form.
#[tactic(auto, unfolding(crate::specs::Reading::operand_at))]
fn operand_of(
    alloc: Global,
    form: Form,
    wide: bool,
    at: u16,
    bytes: &[u8],
) -> Result<(Arg, &[u8]), CodeError>
    ensures { Gives (λ x. (x.0, x.1.now)) result (operand_at form wide at bytes.now) }
{
    match form {
        Form::Plain => Ok((Arg::Plain, bytes)),
        Form::Byte => byte_of(at, bytes),
        Form::Short => short_of(at, bytes),
        Form::PoolByte => short_index_of(at, bytes),
        Form::Pool => index_of(at, bytes),
        Form::Local => local_of(wide, at, bytes),
        Form::Inc => increment_of(wide, at, bytes),
        Form::Jump => near_branch_of(at, bytes),
        Form::JumpWide => far_branch_of(at, bytes),
        Form::Table => table_of(alloc, at, bytes),
        Form::Lookup => lookup_of(alloc, at, bytes),
        Form::Interface => interface_of(at, bytes),
        Form::Multi => multi_of(at, bytes),
        Form::Array => array_of(at, bytes),
        Form::Wide | Form::Unknown => Err(CodeError::BadOpcode(at)),
    }
}

/// What stands behind an opcode.
#[tactic(auto, unfolding(crate::specs::Reading::behind_opcode_at))]
fn behind_opcode(
    alloc: Global,
    wide: bool,
    op: u8,
    at: u16,
    bytes: &[u8],
) -> Result<(Instr, &[u8]), CodeError>
    ensures { Gives (λ x. (x.0, x.1.now)) result (behind_opcode_at at wide op bytes.now) }
{
    let (arg, rest) = operand_of(alloc, form_of(wide, op), wide, at, bytes)?;
    let instr = Instr { at, op, wide, arg };
    Ok((instr, rest))
}

/// What stands behind wide.
#[tactic(auto, unfolding(crate::specs::Reading::behind_wide_at))]
fn behind_wide(alloc: Global, at: u16, bytes: &[u8]) -> Result<(Instr, &[u8]), CodeError>
    ensures { Gives (λ x. (x.0, x.1.now)) result (behind_wide_at at bytes.now) }
{
    let (op, rest) = u8_of(at, bytes)?;
    behind_opcode(alloc, true, op, at, rest)
}

/// Whether the form is that of wide.
fn is_wide(form: Form) -> bool
    ensures { result ≡ is_wide form }
{
    matches!(form, Form::Wide)
}

/// The instruction at the front of bytes that begin at this offset.
#[tactic(auto, unfolding(crate::specs::Reading::read_instruction))]
pub(crate) fn instr_of(alloc: Global, at: u16, bytes: &[u8]) -> Result<(Instr, &[u8]), CodeError>
    ensures { Gives (λ x. (x.0, x.1.now)) result (read_instruction at bytes.now) }
{
    let (op, rest) = u8_of(at, bytes)?;
    if is_wide(row(op).form) {
        behind_wide(alloc, at, rest)
    } else {
        behind_opcode(alloc, false, op, at, rest)
    }
}
