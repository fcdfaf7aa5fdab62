//! What an instruction does, with the names that it gives (JVM Specification 6.5).

ghost use Rattle.std.specs.Prelude.{◌≡◌, ◌<◌, ◌^◌, IfOk};
ghost use Rattle.std.specs.Int.{is_in_range};
ghost use Rattle.std.specs.Option.{option_map};
ghost use Rattle.code_model.specs.Instructions.{end_of};
ghost use Rattle.jvm_model.specs.declared.instruction.Operation.TheVariants.{Within};
ghost use Rattle.jvm_model.specs.Codes.Lines.{constant_in, local_of, number_of};
ghost use Rattle.jvm_model.specs.Codes.Lines.{pool_constant_operation, object_constant, object_constant_in};
ghost use Rattle.jvm_model.specs.Basis.Values.{as_value};
ghost use Rattle.jvm_model.specs.declared.family.Family.TheVariants.{PoolConstant};
ghost use Rattle.jvm_model.specs.Codes.Lines.{newarray_of, object_among, object_rows};
ghost use Rattle.jvm_model.specs.Codes.Lines.{other_operation, operation_of};
ghost use Rattle.jvm_model.specs.Basis.Families.{family_of};
ghost use Rattle.prepared_lines.specs.Lines.{hot_in, line_of, line_with};
ghost use Rattle.prepared_lines.specs.Lines.{local_kept, operation_kept};

use crate::line::{Line, LocalAction};
use crate::symbolic_reference::{
    array_reference, class_operation, interface_reference, named_operation, symbolic_reference_of,
    text_in,
};
use base_classes::FIRST_ARRAY;
use code_model::{Arg, Instr};
use const_pool::{ClassFile, Const, Kind, Pool};
use heap_objects::{Datum, Value};
use jf_bytes::NoMemory;
use jvm_basic::{Hot, hot_by, value_of};
use jvm_model::{Family, Operation, family_of};
use op_table::{
    AALOAD, AASTORE, ARRAYLENGTH, ATHROW, BALOAD, BASTORE, CALOAD, CASTORE, IALOAD, IASTORE,
    LALOAD, LASTORE, MONITORENTER, MONITOREXIT, NEWARRAY, SALOAD, SASTORE,
};
use std::alloc::Global;

/// The number that an entry of the pool is.
fn number_of(entry: &Const) -> Option<Datum>
    ensures { result ≡ number_of entry.now }
{
    match entry {
        Const::Integer(n) => Some(Datum::Int(*n)),
        Const::Long(n) => Some(Datum::Long(*n)),
        _ => None,
    }
}

/// The number that an operand names in the pool.
fn constant_in(pool: &Pool, arg: &Arg) -> Option<Datum>
    ensures { result ≡ constant_in pool.now arg.now }
{
    match arg {
        Arg::Pool(index) => number_of(pool.get(*index)?),
        _ => None,
    }
}

/// What an ldc does, where its constant is a number.
fn pool_number(pool: &Pool, arg: &Arg) -> Option<LocalAction>
    ensures { let constant = constant_in pool.now arg.now in
        result ≡ option_map local_kept (local_of PoolConstant arg.now constant) }
{
    match constant_in(pool, arg) {
        Some(_) => Some(LocalAction::Basic),
        None => None,
    }
}

/// What an ldc of an entry of the pool does that is a String or a Class.
fn object_constant(
    alloc: Global,
    pool: &Pool,
    entry: &Const,
) -> Result<Option<Operation<LocalAction>>, NoMemory>
    ensures { IfOk result
        (λ o. o ≡ option_map operation_kept (object_constant pool.now entry.now)) }
{
    match entry {
        Const::Text(index) => Ok(text_in(alloc, pool, *index)?.map(Operation::LdcString)),
        Const::Class(index) => Ok(class_operation(text_in(alloc, pool, *index)?)),
        _ => Ok(None),
    }
}

/// What an ldc does, where its operand names such an entry.
fn object_given(
    alloc: Global,
    pool: &Pool,
    arg: &Arg,
) -> Result<Option<Operation<LocalAction>>, NoMemory>
    ensures { IfOk result
        (λ o. o ≡ option_map operation_kept (object_constant_in pool.now arg.now)) }
{
    let Arg::Pool(index) = arg else {
        return Ok(None);
    };
    match pool.get(*index) {
        Some(entry) => object_constant(alloc, pool, entry),
        None => Ok(None),
    }
}

/// What an ldc does: it pushes a number, or else a String or a Class.
fn pool_constant_operation(
    alloc: Global,
    pool: &Pool,
    arg: &Arg,
) -> Result<Option<Operation<LocalAction>>, NoMemory>
    ensures { let constant = constant_in pool.now arg.now in
        let number = option_map Within (local_of PoolConstant arg.now constant) in
        IfOk result (λ o. o ≡ option_map operation_kept
        (pool_constant_operation number (object_constant_in pool.now arg.now))) }
{
    match pool_number(pool, arg) {
        Some(number) => Ok(Some(Operation::Within(number))),
        None => object_given(alloc, pool, arg),
    }
}

/// What an instruction of a family does that sees its frame alone.
fn local_action(family: Family, pool: &Pool, arg: &Arg) -> Option<LocalAction>
    ensures { result
        ≡ option_map local_kept (local_of family arg.now (constant_in pool.now arg.now)) }
{
    match family {
        Family::NotLocal => None,
        Family::Return(kind) => Some(LocalAction::Return(kind)),
        Family::PoolConstant => pool_number(pool, arg),
        Family::OperandConstant => match arg {
            Arg::Value(_) => Some(LocalAction::Basic),
            _ => None,
        },
        Family::Load(_) | Family::Store(_) | Family::Ret => match arg {
            Arg::Local(_) => Some(LocalAction::Basic),
            _ => None,
        },
        Family::Iinc => match arg {
            Arg::Inc(_, _) => Some(LocalAction::Basic),
            _ => None,
        },
        Family::Branch(_) | Family::Goto | Family::Jsr => match arg {
            Arg::Target(_) => Some(LocalAction::Basic),
            _ => None,
        },
        Family::Switch => match arg {
            Arg::Table(..) | Arg::Lookup(..) => Some(LocalAction::Basic),
            _ => None,
        },
        _ => Some(LocalAction::Basic),
    }
}

/// The same, as what an instruction does.
fn local_operation(family: Family, pool: &Pool, arg: &Arg) -> Option<Operation<LocalAction>>
    ensures { let local = local_of family arg.now (constant_in pool.now arg.now) in
        result ≡ option_map Within (option_map local_kept local) }
{
    Some(Operation::Within(local_action(family, pool, arg)?))
}

/// Whether newarray makes arrays of elements with this code: those of the eight primitive types.
fn is_primitive(code: u8) -> bool
    ensures { result ≡ is_in_range 4 11 code }
{
    code >= 4 && code <= 11
}

/// newarray, with the kind of its array.
fn newarray(op: u8, code: u8) -> Option<Operation<LocalAction>>
    ensures { result ≡ option_map operation_kept (newarray_of op code) }
{
    if op == NEWARRAY && is_primitive(code) {
        Some(Operation::Newarray(FIRST_ARRAY + code as u32))
    } else {
        None
    }
}

/// What an instruction without an operand does that sees objects.
fn object_operation(op: u8) -> Option<Operation<LocalAction>>
    ensures { result ≡ option_map operation_kept (object_among object_rows op) }
{
    match op {
        IALOAD => Some(Operation::LoadElement(Kind::Int)),
        LALOAD => Some(Operation::LoadElement(Kind::Long)),
        AALOAD => Some(Operation::LoadElement(Kind::Ref)),
        BALOAD => Some(Operation::LoadElement(Kind::Byte)),
        CALOAD => Some(Operation::LoadElement(Kind::Char)),
        SALOAD => Some(Operation::LoadElement(Kind::Short)),
        IASTORE => Some(Operation::StoreElement(Kind::Int)),
        LASTORE => Some(Operation::StoreElement(Kind::Long)),
        AASTORE => Some(Operation::StoreElement(Kind::Ref)),
        BASTORE => Some(Operation::StoreElement(Kind::Byte)),
        CASTORE => Some(Operation::StoreElement(Kind::Char)),
        SASTORE => Some(Operation::StoreElement(Kind::Short)),
        ARRAYLENGTH => Some(Operation::Arraylength),
        ATHROW => Some(Operation::Athrow),
        MONITORENTER | MONITOREXIT => Some(Operation::Monitor),
        _ => None,
    }
}

/// What an instruction of no family does, by the form of its operand.
fn other_operation(
    alloc: Global,
    class: &ClassFile,
    op: u8,
    arg: &Arg,
) -> Result<Option<Operation<LocalAction>>, NoMemory>
    ensures { IfOk result
        (λ o. o ≡ option_map operation_kept (other_operation class.now op arg.now)) }
{
    match arg {
        Arg::Pool(index) => Ok(named_operation(symbolic_reference_of(alloc, class, op, *index)?)),
        Arg::Interface(index, _, _) => {
            Ok(named_operation(interface_reference(alloc, class, op, *index)?))
        }
        Arg::Multi(index, dimensions) => {
            Ok(named_operation(array_reference(alloc, class, op, *index, *dimensions)?))
        }
        Arg::Array(code) => Ok(newarray(op, *code)),
        Arg::Plain => Ok(object_operation(op)),
        _ => Ok(None),
    }
}

/// What an instruction of a class does; none where it has no rule.
fn operation_of(
    alloc: Global,
    class: &ClassFile,
    family: Family,
    instr: &Instr,
) -> Result<Option<Operation<LocalAction>>, NoMemory>
    requires { family ≡ family_of instr.now.op }
    ensures { IfOk result (λ o. o ≡ option_map operation_kept (operation_of class.now instr.now)) }
{
    match family {
        Family::NotLocal => other_operation(alloc, class, instr.op, &instr.arg),
        Family::PoolConstant => pool_constant_operation(alloc, &class.pool, &instr.arg),
        family => Ok(local_operation(family, &class.pool, &instr.arg)),
    }
}

/// The number that an ldc pushes.
fn value_in(pool: &Pool, arg: &Arg) -> Option<Value>
    ensures { result ≡ option_map as_value (constant_in pool.now arg.now) }
{
    Some(value_of(constant_in(pool, arg)?))
}

/// What an instruction does, as it is run.
fn hot_in(operation: &Operation<LocalAction>, family: Family, arg: &Arg, next: u16) -> Hot
    ensures { result ≡ hot_in operation.now family arg.now next }
{
    match operation {
        Operation::Within(LocalAction::Basic) => hot_by(family, arg, next),
        Operation::LoadElement(kind) => Hot::LoadElement(*kind),
        Operation::StoreElement(kind) => Hot::StoreElement(*kind),
        _ => Hot::Cold,
    }
}

/// An instruction with its family, its constant, the offset behind it and what it does.
fn line_with(
    class: &ClassFile,
    family: Family,
    instr: Instr,
    operation: Operation<LocalAction>,
) -> Line
    requires ends { end_of instr < 2 ^ 16 }
    requires family { family ≡ family_of instr.op }
    ensures { result ≡ line_with class.now instr operation }
{
    let constant = value_in(&class.pool, &instr.arg);
    let next = instr.next_offset();
    let hot = hot_in(&operation, family, &instr.arg, next);
    Line {
        hot,
        instr,
        family,
        constant,
        next,
        operation,
    }
}

/// What stands where an instruction of a class does.
pub fn line_of(alloc: Global, class: &ClassFile, instr: Instr) -> Result<Option<Line>, NoMemory>
    requires { end_of instr < 2 ^ 16 }
    ensures { IfOk result (λ line. line ≡ line_of class.now instr) }
{
    // Read by itself, so that its range is known.
    let op = instr.op;
    let family = family_of(op);
    match operation_of(alloc, class, family, &instr)? {
        Some(operation) => Ok(Some(line_with(class, family, instr, operation))),
        None => Ok(None),
    }
}
