//! Instructions with the names that they give, as lines keep them (JVM Specification 4.4, 6.5): the
//! texts are copied once.

ghost use Rattle.std.specs.Prelude.{◌≡◌, IfOk};
ghost use Rattle.std.specs.Option.{option_and_then, option_map};
ghost use Rattle.const_pool.specs.Members.{reference_view};
ghost use Rattle.const_pool.specs.References.{named_class, named_field, named_method, named_text};
ghost use Rattle.jvm_model.specs.declared.instruction.SymbolicReference.TheVariants.{LdcClass};
ghost use Rattle.jvm_model.specs.declared.instruction.Operation.TheVariants.{Named};
ghost use Rattle.jvm_model.specs.Codes.Lines.{has_dimensions, named_by};
ghost use Rattle.jvm_model.specs.Codes.Lines.{interface_reference, array_reference};
ghost use Rattle.jvm_model.specs.Codes.Lines.{named_interface_method, symbolic_reference_of, special_of};
ghost use Rattle.jvm_model.specs.Basis.Programs.{name_of};
ghost use Rattle.jvm_model.specs.Basis.MemberNames.{descriptor_params};
ghost use Rattle.prepared_lines.specs.Lines.{operation_kept};

use crate::descriptor::shape_of;
use crate::line::LocalAction;
use crate::members::{field_at, interface_method_at, method_at};
use class_index::meaning_of;
use const_pool::{ClassFile, Kind, MemberRef, Pool, text_copy};
use jf_bytes::{NoMemory, Seq, Text16};
use jvm_model::{MemberName, MethodName, Operation, SymbolicReference};
use op_table::{
    ANEWARRAY, CHECKCAST, GETFIELD, GETSTATIC, INSTANCEOF, INVOKEINTERFACE, INVOKESPECIAL,
    INVOKESTATIC, INVOKEVIRTUAL, MULTIANEWARRAY, NEW, PUTFIELD, PUTSTATIC,
};
use std::alloc::Global;

// ---- names

/// A member with its names.
fn member_as(alloc: Global, member: &MemberRef<'_>) -> Result<MemberName, NoMemory>
    ensures { IfOk result (λ name. name ≡ reference_view member.now) }
{
    let class = text_copy(alloc, member.class)?;
    let name = text_copy(alloc, member.name)?;
    Ok(MemberName::new(class, name, text_copy(alloc, member.descriptor)?))
}

/// The kinds of the parameters that a method's descriptor tells.
fn descriptor_params(alloc: Global, descriptor: &Text16) -> Result<Option<Seq<Kind>>, NoMemory>
    ensures { IfOk result (λ params. params ≡ descriptor_params descriptor.now) }
{
    match shape_of(alloc, descriptor)? {
        Some(shape) => Ok(Some(shape.params)),
        None => Ok(None),
    }
}

/// A method with its names and the kinds of its parameters.
fn method_as(alloc: Global, method: &MemberRef<'_>) -> Result<MethodName, NoMemory>
    ensures { IfOk result (λ name. name ≡ reference_view method.now) }
{
    let params = descriptor_params(alloc, method.descriptor)?;
    Ok(MethodName::new(member_as(alloc, method)?, params))
}

/// The names of what a Fieldref names.
fn field_in(alloc: Global, pool: &Pool, index: u16) -> Result<Option<MemberName>, NoMemory>
    ensures { IfOk result (λ name. name ≡ named_field pool.now index) }
{
    match field_at(pool, index) {
        Some(field) => Ok(Some(member_as(alloc, &field)?)),
        None => Ok(None),
    }
}

/// The names of what a Methodref names.
fn method_in(alloc: Global, pool: &Pool, index: u16) -> Result<Option<MethodName>, NoMemory>
    ensures { IfOk result (λ name. name ≡ named_method pool.now index) }
{
    match method_at(pool, index) {
        Some(method) => Ok(Some(method_as(alloc, &method)?)),
        None => Ok(None),
    }
}

/// The names of what an InterfaceMethodref names.
fn interface_method_in(
    alloc: Global,
    pool: &Pool,
    index: u16,
) -> Result<Option<MethodName>, NoMemory>
    ensures { IfOk result (λ name. name ≡ named_interface_method pool.now index) }
{
    match interface_method_at(pool, index) {
        Some(method) => Ok(Some(method_as(alloc, &method)?)),
        None => Ok(None),
    }
}

/// The name of the class at an index.
pub fn class_in(alloc: Global, pool: &Pool, index: u16) -> Result<Option<Text16>, NoMemory>
    ensures { IfOk result (λ name. name ≡ named_class pool.now index) }
{
    match pool.class_name(index) {
        Ok(name) => Ok(Some(text_copy(alloc, name)?)),
        Err(_) => Ok(None),
    }
}

/// The text of the entry at an index.
pub fn text_in(alloc: Global, pool: &Pool, index: u16) -> Result<Option<Text16>, NoMemory>
    ensures { IfOk result (λ text. text ≡ named_text pool.now index) }
{
    match pool.text(index) {
        Ok(text) => Ok(Some(text_copy(alloc, text)?)),
        Err(_) => Ok(None),
    }
}

// ---- instructions

/// invokespecial in a class.
fn special_in(
    alloc: Global,
    class: &ClassFile,
    index: u16,
) -> Result<Option<SymbolicReference>, NoMemory>
    ensures { let method = named_method class.now.pool index in IfOk result (λ n. n
        ≡ option_and_then (λ caller. option_map (special_of caller) method) (name_of class.now)) }
{
    let Some(caller) = class_in(alloc, &class.pool, class.this_class)? else {
        return Ok(None);
    };
    match method_in(alloc, &class.pool, index)? {
        Some(method) => Ok(Some(SymbolicReference::Invokespecial(caller, method, false))),
        None => Ok(None),
    }
}

/// An instruction with a pool index alone.
pub fn symbolic_reference_of(
    alloc: Global,
    class: &ClassFile,
    op: u8,
    index: u16,
) -> Result<Option<SymbolicReference>, NoMemory>
    ensures { IfOk result
        (λ n. n ≡ symbolic_reference_of class.now op index) }
{
    let pool = &class.pool;
    match op {
        GETSTATIC => Ok(field_in(alloc, pool, index)?.map(SymbolicReference::Getstatic)),
        PUTSTATIC => Ok(field_in(alloc, pool, index)?.map(SymbolicReference::Putstatic)),
        GETFIELD => Ok(field_in(alloc, pool, index)?.map(SymbolicReference::Getfield)),
        PUTFIELD => Ok(field_in(alloc, pool, index)?.map(SymbolicReference::Putfield)),
        INVOKEVIRTUAL => Ok(method_in(alloc, pool, index)?.map(SymbolicReference::Invokevirtual)),
        INVOKESPECIAL => special_in(alloc, class, index),
        INVOKESTATIC => Ok(method_in(alloc, pool, index)?.map(SymbolicReference::Invokestatic)),
        NEW => Ok(class_in(alloc, pool, index)?.map(SymbolicReference::New)),
        ANEWARRAY => Ok(class_in(alloc, pool, index)?.map(SymbolicReference::Anewarray)),
        CHECKCAST => Ok(class_in(alloc, pool, index)?.map(SymbolicReference::Checkcast)),
        INSTANCEOF => Ok(class_in(alloc, pool, index)?.map(SymbolicReference::Instanceof)),
        _ => Ok(None),
    }
}

/// invokeinterface.
pub fn interface_reference(
    alloc: Global,
    class: &ClassFile,
    op: u8,
    index: u16,
) -> Result<Option<SymbolicReference>, NoMemory>
    ensures { IfOk result (λ n. n ≡ interface_reference class.now op index) }
{
    match op {
        INVOKEINTERFACE => Ok(interface_method_in(alloc, &class.pool, index)?.map(
            SymbolicReference::Invokeinterface,
        )),
        _ => Ok(None),
    }
}

/// multianewarray, with so many dimensions that are given.
pub fn array_reference(
    alloc: Global,
    class: &ClassFile,
    op: u8,
    index: u16,
    dimensions: u8,
) -> Result<Option<SymbolicReference>, NoMemory>
    ensures { IfOk result
        (λ n. n ≡ array_reference class.now op index dimensions) }
{
    if op != MULTIANEWARRAY {
        return Ok(None);
    }
    match class_in(alloc, &class.pool, index)? {
        Some(name) => Ok(Some(SymbolicReference::Multianewarray(name, dimensions))),
        None => Ok(None),
    }
}

/// ldc of a Class of this name.
pub fn class_operation(name: Option<Text16>) -> Option<Operation<LocalAction>>
    ensures { let operation = option_map (λ units. Named (LdcClass units)) name in
        result ≡ option_map operation_kept operation }
{
    Some(Operation::Named(SymbolicReference::LdcClass(name?)))
}

// ---- dimensions of array types

/// Whether an array type that is named has the dimensions that the format asks (4.9.1).
fn has_dimensions(reference: &SymbolicReference) -> bool
    ensures { result ≡ has_dimensions reference.now }
{
    match reference {
        SymbolicReference::Anewarray(name) => meaning_of(name.units()).dimensions < 255,
        SymbolicReference::Multianewarray(name, dimensions) => {
            *dimensions >= 1 && *dimensions <= meaning_of(name.units()).dimensions
        }
        _ => true,
    }
}

/// What an instruction with names does; none where it is none for its dimensions.
pub fn named_operation(reference: Option<SymbolicReference>) -> Option<Operation<LocalAction>>
    ensures { result ≡ option_map operation_kept (option_and_then named_by reference) }
{
    let reference = reference?;
    if has_dimensions(&reference) {
        Some(Operation::Named(reference))
    } else {
        None
    }
}
