//! What an instruction names (JVM Specification 4.9.1, 6.5).

ghost use Rattle.std.specs.Prelude.{◌≡◌, ◌≤◌, IfOk, false};
ghost use Rattle.std.specs.Int.{is_in_range};
ghost use Rattle.std.specs.Option.{option_map, option_map_or};
ghost use Rattle.const_pool.specs.Pool.{entry_at};
ghost use Rattle.const_pool.specs.References.{named_class, named_field, named_method};
ghost use Rattle.const_pool.specs.Members.{reference_view};
ghost use Rattle.code_admission.specs.Texts.{is_class_name, is_field_text, is_method_text};
ghost use Rattle.code_admission.specs.Uses.{pool_use, index_of, is_loadable, is_wide_constant};
ghost use Rattle.jvm_model.specs.Codes.Lines.{named_interface_method};
ghost use Rattle.code_admission.specs.Uses.{may_name};
ghost use Rattle.code_admission.specs.Uses.{is_member_name, fits_member, fits_use, fits_pool};
ghost use Rattle.code_admission.specs.Uses.{slots_from, short_slots, plain_slots, slot_count};
ghost use Rattle.code_admission.specs.Uses.{slots_of, fits_locals};
ghost use Rattle.code_admission.specs.Uses.{is_int_kind, is_long_kind, is_float_kind, is_double_kind};
ghost use Rattle.code_admission.specs.Uses.{is_reference_kind, fits_return};
ghost use Rattle.code_admission.specs.Uses.{named_dimensions, fits_type};

use crate::texts::{dimensions_of, is_class_name, is_field_text, method_kinds};
use code_model::{Arg, Instr};
use const_pool::{Const, Kind, MemberRef, Pool};
use jf_bytes::{NoMemory, Text16};
use op_table::{
    ANEWARRAY, ARETURN, DRETURN, FRETURN, GETSTATIC, INVOKEINTERFACE, INVOKESPECIAL, INVOKESTATIC,
    INVOKEVIRTUAL, IRETURN, LDC, LDC_W, LDC2_W, LRETURN, NEW, PUTFIELD, RETURN,
};
use std::alloc::Global;

/// What an instruction with an index takes from the pool.
#[derive(Clone, Copy, Debug, PartialEq, Eq)]
pub enum PoolUse {
    /// ldc, ldc_w.
    Loadable,
    /// ldc2_w.
    Wide,
    Field,
    Method,
    InterfaceMethod,
    Class,
}

/// Neighbouring locals.
#[derive(Clone, Copy, Debug, PartialEq, Eq)]
pub struct Slots {
    pub first: u16,
    pub count: u16,
}

/// Whether the opcode is one of neighbouring ones.
fn is_among(first: u8, last: u8, op: u8) -> bool
    ensures { result ≡ is_in_range first last op }
{
    first <= op && op <= last
}

/// What an instruction of this opcode takes from the pool.
fn pool_use(op: u8) -> PoolUse
    ensures { result ≡ pool_use op }
{
    if is_among(LDC, LDC_W, op) {
        PoolUse::Loadable
    } else if op == LDC2_W {
        PoolUse::Wide
    } else if is_among(GETSTATIC, PUTFIELD, op) {
        PoolUse::Field
    } else if is_among(INVOKEVIRTUAL, INVOKESTATIC, op) {
        PoolUse::Method
    } else if op == INVOKEINTERFACE {
        PoolUse::InterfaceMethod
    } else {
        PoolUse::Class
    }
}

/// The index of the pool that an operand has.
fn index_of(arg: &Arg) -> Option<u16>
    ensures { result ≡ index_of arg.now }
{
    match arg {
        Arg::Pool(index) => Some(*index),
        Arg::Interface(index, _, _) => Some(*index),
        Arg::Multi(index, _) => Some(*index),
        _ => None,
    }
}

/// Whether ldc may load the entry.
fn is_loadable(pool: &Pool, entry: &Const) -> bool
    ensures { result ≡ is_loadable pool.now entry.now }
{
    match entry {
        Const::Integer(_) => true,
        Const::Float(_) => true,
        Const::Text(_) => true,
        Const::Class(index) => match pool.text(*index) {
            Ok(name) => is_class_name(name),
            Err(_) => false,
        },
        _ => false,
    }
}

/// Whether ldc2_w may load the entry.
fn is_wide_constant(entry: &Const) -> bool
    ensures { result ≡ is_wide_constant entry.now }
{
    matches!(entry, Const::Long(_) | Const::Double(_))
}

/// Whether an instruction of this opcode may name a member so.
fn may_name(op: u8, name: &Text16) -> bool
    ensures { result ≡ may_name op name.now }
{
    !name.is_bytes(b"<clinit>") && (op == INVOKESPECIAL || !name.is_bytes(b"<init>"))
}

/// Whether an instruction of this opcode may name the field.
fn is_field_name(op: u8, field: MemberRef<'_>) -> bool
    ensures { result ≡ is_member_name is_field_text op (reference_view field.entry) }
{
    is_class_name(field.class) && is_field_text(field.descriptor) && may_name(op, field.name)
}

/// Whether an instruction of this opcode may name the method.
fn is_method_name(alloc: Global, op: u8, method: MemberRef<'_>) -> Result<bool, NoMemory>
    ensures { IfOk result (λ right.
        right ≡ is_member_name is_method_text op (reference_view method.entry)) }
{
    if !is_class_name(method.class) {
        return Ok(false);
    }
    let shape = method_kinds(alloc, method.descriptor)?;
    Ok(shape.is_some() && may_name(op, method.name))
}

/// What a Fieldref names.
fn named_field(pool: &Pool, index: u16) -> Option<MemberRef<'_>>
    ensures { option_map reference_view result ≡ named_field pool.now index }
{
    match pool.get(index) {
        Some(Const::Field(..)) => pool.member(index).ok(),
        _ => None,
    }
}

/// What a Methodref names.
fn named_method(pool: &Pool, index: u16) -> Option<MemberRef<'_>>
    ensures { option_map reference_view result ≡ named_method pool.now index }
{
    match pool.get(index) {
        Some(Const::Method(..)) => pool.member(index).ok(),
        _ => None,
    }
}

/// What an InterfaceMethodref names.
fn named_interface_method(pool: &Pool, index: u16) -> Option<MemberRef<'_>>
    ensures { option_map reference_view result ≡ named_interface_method pool.now index }
{
    match pool.get(index) {
        Some(Const::InterfaceMethod(..)) => pool.member(index).ok(),
        _ => None,
    }
}

/// Whether an instruction of this opcode may name the field.
fn fits_field(op: u8, field: Option<MemberRef<'_>>) -> bool
    ensures { result ≡ fits_member is_field_text op (option_map reference_view field.entry) }
{
    match field {
        Some(field) => is_field_name(op, field),
        None => false,
    }
}

/// Whether an instruction of this opcode may name the method.
fn fits_method(alloc: Global, op: u8, method: Option<MemberRef<'_>>) -> Result<bool, NoMemory>
    ensures { IfOk result (λ fits.
        fits ≡ fits_member is_method_text op (option_map reference_view method.entry)) }
{
    match method {
        Some(method) => is_method_name(alloc, op, method),
        None => Ok(false),
    }
}

/// Whether the entry at an index may be loaded by ldc.
fn fits_loadable(pool: &Pool, index: u16) -> bool
    ensures { result ≡ option_map_or (is_loadable pool.now) (entry_at pool.now index) false }
{
    match pool.get(index) {
        Some(entry) => is_loadable(pool, entry),
        None => false,
    }
}

/// Whether the entry at an index may be loaded by ldc2_w.
fn fits_wide(pool: &Pool, index: u16) -> bool
    ensures { result ≡ option_map_or is_wide_constant (entry_at pool.now index) false }
{
    match pool.get(index) {
        Some(entry) => is_wide_constant(entry),
        None => false,
    }
}

/// Whether the entry at an index names a class by a name that is one.
fn fits_class(pool: &Pool, index: u16) -> bool
    ensures { result ≡ option_map_or is_class_name (named_class pool.now index) false }
{
    match pool.class_name(index) {
        Ok(name) => is_class_name(name),
        Err(_) => false,
    }
}

/// Whether an instruction of this opcode may take the entry at an index.
fn fits_use(
    alloc: Global,
    pool: &Pool,
    op: u8,
    index: u16,
    takes: PoolUse,
) -> Result<bool, NoMemory>
    ensures { IfOk result (λ fits. fits ≡ fits_use pool.now op index takes) }
{
    match takes {
        PoolUse::Loadable => Ok(fits_loadable(pool, index)),
        PoolUse::Wide => Ok(fits_wide(pool, index)),
        PoolUse::Field => Ok(fits_field(op, named_field(pool, index))),
        PoolUse::Method => fits_method(alloc, op, named_method(pool, index)),
        PoolUse::InterfaceMethod => fits_method(alloc, op, named_interface_method(pool, index)),
        PoolUse::Class => Ok(fits_class(pool, index)),
    }
}

/// Whether the instruction's index names what it takes.
pub fn fits_pool(alloc: Global, pool: &Pool, instr: &Instr) -> Result<bool, NoMemory>
    ensures { IfOk result (λ fits. fits ≡ fits_pool pool.now instr.now) }
{
    match index_of(&instr.arg) {
        Some(index) => fits_use(alloc, pool, instr.op, index, pool_use(instr.op)),
        None => Ok(true),
    }
}

/// So many locals from one on.
fn slots_from(first: u16, count: u16) -> Slots
    ensures { result ≡ slots_from first count }
{
    Slots { first, count }
}

/// The locals of an instruction whose opcode has the number in it.
fn short_slots(first: u8, op: u8) -> Slots
    requires low { first ≤ op }
    requires high { first ≤ 200 }
    ensures { result ≡ short_slots first op }
{
    let slot = u16::from((op - first) % 4);
    if is_among(first + 4, first + 7, op) {
        slots_from(slot, 2)
    } else {
        slots_from(slot, 1)
    }
}

/// The locals of an instruction without operand.
fn plain_slots(op: u8) -> Option<Slots>
    ensures { result ≡ plain_slots op }
{
    if is_among(26, 45, op) {
        Some(short_slots(26, op))
    } else if is_among(59, 78, op) {
        Some(short_slots(59, op))
    } else {
        None
    }
}

/// How many slots a local has that an instruction with its slot as operand uses.
fn slot_count(op: u8) -> u16
    ensures { result ≡ slot_count op }
{
    if op == 22 || op == 55 { 2 } else { 1 }
}

/// The locals that an instruction uses.
fn slots_of(op: u8, arg: &Arg) -> Option<Slots>
    ensures { result ≡ slots_of op arg.now }
{
    match arg {
        Arg::Plain => plain_slots(op),
        Arg::Local(slot) => Some(slots_from(*slot, slot_count(op))),
        Arg::Inc(slot, _) => Some(slots_from(*slot, 1)),
        _ => None,
    }
}

/// Whether the method has the locals that the instruction uses.
pub fn fits_locals(max_locals: u16, instr: &Instr) -> bool
    ensures { result ≡ fits_locals max_locals instr.now }
{
    match slots_of(instr.op, &instr.arg) {
        Some(slots) => u32::from(slots.first) + u32::from(slots.count) <= u32::from(max_locals),
        None => true,
    }
}

/// Whether ireturn may give it.
fn is_int_kind(given: Option<Kind>) -> bool
    ensures { result ≡ is_int_kind given }
{
    match given {
        Some(Kind::Int) => true,
        Some(Kind::Byte) => true,
        Some(Kind::Bool) => true,
        Some(Kind::Char) => true,
        Some(Kind::Short) => true,
        _ => false,
    }
}

/// Whether lreturn may give it.
fn is_long_kind(given: Option<Kind>) -> bool
    ensures { result ≡ is_long_kind given }
{
    matches!(given, Some(Kind::Long))
}

/// Whether freturn may give it.
fn is_float_kind(given: Option<Kind>) -> bool
    ensures { result ≡ is_float_kind given }
{
    matches!(given, Some(Kind::Float))
}

/// Whether dreturn may give it.
fn is_double_kind(given: Option<Kind>) -> bool
    ensures { result ≡ is_double_kind given }
{
    matches!(given, Some(Kind::Double))
}

/// Whether areturn may give it.
fn is_reference_kind(given: Option<Kind>) -> bool
    ensures { result ≡ is_reference_kind given }
{
    matches!(given, Some(Kind::Ref))
}

/// Whether a method that gives this may end by an instruction of this opcode.
pub fn fits_return(given: Option<Kind>, op: u8) -> bool
    ensures { result ≡ fits_return given op }
{
    if op == IRETURN {
        is_int_kind(given)
    } else if op == LRETURN {
        is_long_kind(given)
    } else if op == FRETURN {
        is_float_kind(given)
    } else if op == DRETURN {
        is_double_kind(given)
    } else if op == ARETURN {
        is_reference_kind(given)
    } else if op == RETURN {
        given.is_none()
    } else {
        true
    }
}

/// How many dimensions the class has that an index names.
fn named_dimensions(pool: &Pool, index: u16) -> usize
    ensures { result ≡ named_dimensions pool.now index }
{
    match pool.class_name(index) {
        Ok(name) => dimensions_of(name),
        Err(_) => 0,
    }
}

/// Whether the type is one that the instruction may have as its operand.
pub fn fits_type(pool: &Pool, op: u8, arg: &Arg) -> bool
    ensures { result ≡ fits_type pool.now op arg.now }
{
    match arg {
        Arg::Array(code) => is_among(4, 11, *code),
        Arg::Pool(index) => {
            if op == NEW {
                named_dimensions(pool, *index) == 0
            } else if op == ANEWARRAY {
                named_dimensions(pool, *index) != 255
            } else {
                true
            }
        }
        Arg::Multi(index, dimensions) => {
            *dimensions != 0 && *dimensions as usize <= named_dimensions(pool, *index)
        }
        _ => true,
    }
}
