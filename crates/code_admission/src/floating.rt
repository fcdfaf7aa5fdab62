//! Floats and doubles (JVM Specification 2.3.2), which no admitted class uses.

ghost use Rattle.std.specs.Prelude.{◌≡◌, ◌<◌, ◌^◌, length, map, IfOk};
ghost use Rattle.std.specs.Option.{option_and_then};
ghost use Rattle.const_pool.specs.ClassFile.{IsClassFile};
ghost use Rattle.const_pool.specs.Members.{reference_view};
ghost use Rattle.code_admission.specs.Checks.{first_from};
ghost use Rattle.code_admission.specs.Floating.{has_floats, describes_floats, is_floats_name};
ghost use Rattle.code_admission.specs.Floating.{names_floats, is_floating_entry, is_floating_index};
ghost use Rattle.code_admission.specs.Floating.{is_floats_class, is_floats_member};
ghost use Rattle.code_admission.specs.Floating.{is_floating_operand, is_floating_instr};
ghost use Rattle.code_admission.specs.Floating.{first_floating, floating_offset, floating_field, floating_method};
ghost use Rattle.code_admission.specs.Floating.{floating_body, floating_fault};
ghost use Rattle.code_admission.specs.Codes.{read_as, readings_of};

use crate::error::{AdmitError, FloatingPointUse};
use crate::floating_frames::floating_frames;
use crate::texts::is_array_name;
use code_model::{Arg, Code, Instr};
use const_pool::{ClassFile, Const, Member, MemberRef, Pool};
use jf_bytes::{NoMemory, Text16};
use op_table::row;
use std::alloc::Global;

/// `D`, the descriptor of a double.
const DOUBLE: u16 = 68;

/// `F`, the descriptor of a float.
const FLOAT: u16 = 70;

/// `L`, with which the name of a class begins in a descriptor, and `;`, with which it ends.
const OBJECT: u16 = 76;

const SEMICOLON: u16 = 59;

/// The codes of newarray for float and for double.
const FLOAT_ARRAY: u8 = 6;

const DOUBLE_ARRAY: u8 = 7;

/// Whether a descriptor has a float or a double.
fn has_floats(descriptor: &Text16) -> bool
    ensures { result ≡ has_floats descriptor.now }
{
    let mut within = false;
    for unit in descriptor.units() {
        if within {
            within = *unit != SEMICOLON;
        } else if *unit == FLOAT || *unit == DOUBLE {
            return true;
        } else {
            within = *unit == OBJECT;
        }
    }
    false
}

/// Whether a member's descriptor has a float or a double.
fn describes_floats(pool: &Pool, member: &Member) -> bool
    ensures { result ≡ describes_floats pool.now member.now }
{
    match pool.text(member.descriptor) {
        Ok(descriptor) => has_floats(descriptor),
        Err(_) => false,
    }
}

/// Whether the name is that of an array class of floats or doubles.
fn is_floats_name(name: &Text16) -> bool
    ensures { result ≡ is_floats_name name.now }
{
    is_array_name(name) && has_floats(name)
}

/// Whether a reference names such a class, or a member with a float or a double.
fn names_floats(reference: &MemberRef<'_>) -> bool
    ensures { result ≡ names_floats (reference_view reference.now) }
{
    is_floats_name(reference.class) || has_floats(reference.descriptor)
}

/// Whether the index names a class of floats or doubles.
fn is_floats_class(pool: &Pool, index: u16) -> bool
    ensures { result ≡ is_floats_class pool.now index }
{
    match pool.class_name(index) {
        Ok(name) => is_floats_name(name),
        Err(_) => false,
    }
}

/// Whether the index names a member with floats or doubles.
fn is_floats_member(pool: &Pool, index: u16) -> bool
    ensures { result ≡ is_floats_member pool.now index }
{
    match pool.member(index) {
        Ok(reference) => names_floats(&reference),
        Err(_) => false,
    }
}

/// Whether the entry at an index is a float or a double, or names some.
fn is_floating_entry(pool: &Pool, index: u16, entry: &Const) -> bool
    ensures { result ≡ is_floating_entry pool.now index entry.now }
{
    match entry {
        Const::Float(_) | Const::Double(_) => true,
        Const::Class(_) => is_floats_class(pool, index),
        _ => is_floats_member(pool, index),
    }
}

/// Whether the index names floats or doubles.
fn is_floating_index(pool: &Pool, index: u16) -> bool
    ensures { result ≡ is_floating_index pool.now index }
{
    match pool.get(index) {
        Some(entry) => is_floating_entry(pool, index, entry),
        None => false,
    }
}

/// Whether the operand names floats or doubles.
fn is_floating_operand(pool: &Pool, arg: &Arg) -> bool
    ensures { result ≡ is_floating_operand pool.now arg.now }
{
    match arg {
        Arg::Array(code) => *code == FLOAT_ARRAY || *code == DOUBLE_ARRAY,
        Arg::Pool(index) | Arg::Interface(index, _, _) | Arg::Multi(index, _) => {
            is_floating_index(pool, *index)
        }
        _ => false,
    }
}

/// Whether the instruction uses floats or doubles.
fn is_floating_instr(pool: &Pool, instr: &Instr) -> bool
    ensures { result ≡ is_floating_instr pool.now instr.now }
{
    row(instr.op).floating || is_floating_operand(pool, &instr.arg)
}

/// The offset of the first instruction that does.
fn first_floating(pool: &Pool, instrs: &[Instr]) -> Option<u16>
    ensures { result ≡ first_floating pool.now instrs.now }
{
    for instr in instrs {
        if is_floating_instr(pool, instr) {
            return Some(instr.at);
        }
    }
    None
}

/// The same of a code, where there is one.
fn floating_offset(pool: &Pool, code: &Option<Code>) -> Option<u16>
    ensures { result ≡ option_and_then (floating_offset pool.now) (read_as code.now) }
{
    let code = code.as_ref()?;
    first_floating(pool, code.instrs.as_slice())
}

/// The fault of the first field with a float or a double.
fn field_fault(number: u32, pool: &Pool, fields: &[Member]) -> Option<AdmitError>
    requires { length fields.now < 2 ^ 16 }
    ensures { result ≡ first_from (floating_field number pool.now) 0 fields.now }
{
    for (at, field) in fields.iter().enumerate() {
        if describes_floats(pool, field) {
            return Some(AdmitError::FloatingPoint(number, FloatingPointUse::Field(at as u16)));
        }
    }
    None
}

/// The fault of the first method whose descriptor has a float or a double.
fn method_fault(number: u32, pool: &Pool, methods: &[Member]) -> Option<AdmitError>
    requires { length methods.now < 2 ^ 16 }
    ensures { result ≡ first_from (floating_method number pool.now) 0 methods.now }
{
    for (at, method) in methods.iter().enumerate() {
        if describes_floats(pool, method) {
            return Some(AdmitError::FloatingPoint(number, FloatingPointUse::Method(at as u16)));
        }
    }
    None
}

/// The fault of the first instruction that uses floats or doubles.
fn body_fault(number: u32, pool: &Pool, codes: &[Option<Code>]) -> Option<AdmitError>
    requires { length codes.now < 2 ^ 16 }
    ensures { result ≡ first_from (floating_body number pool.now) 0 (map read_as codes.now) }
{
    for (at, code) in codes.iter().enumerate() {
        if let Some(offset) = floating_offset(pool, code) {
            return Some(AdmitError::FloatingPoint(
                number,
                FloatingPointUse::Code(at as u16, offset),
            ));
        }
    }
    None
}

/// The first float or double that the class uses, in fields, methods, code and then frames. `codes` are what its
/// methods' codes were read as.
pub fn floating_fault(
    alloc: Global,
    number: u32,
    class: &ClassFile,
    codes: &[Option<Code>],
) -> Result<Option<AdmitError>, NoMemory>
    requires formed { IsClassFile class.now }
    requires read { map read_as codes.now ≡ readings_of class.now }
    ensures { IfOk result (λ fault. fault ≡ floating_fault number class.now) }
{
    if let Some(fault) = field_fault(number, &class.pool, class.fields.as_slice()) {
        return Ok(Some(fault));
    }
    if let Some(fault) = method_fault(number, &class.pool, class.methods.as_slice()) {
        return Ok(Some(fault));
    }
    if let Some(fault) = body_fault(number, &class.pool, codes) {
        return Ok(Some(fault));
    }
    floating_frames(alloc, number, class)
}
