//! Writes a class file from left to right (JVM Specification 4.1).

ghost use Rattle.std.specs.Prelude.{◌≡◌, ◌++◌, ℕ, List, All, IfOk, OnOk};
ghost use Rattle.const_pool.specs.Pool.{u2};
ghost use Rattle.const_pool.specs.ClassFile.{FitsCount, IsClassFile, Spells, items_counted, class_bytes};
ghost use Rattle.class_writer.specs.Fits.{FitsEntry, FitsClass};
ghost use Rattle.class_writer.specs.Parts.{head_bytes, itself_bytes, body_bytes};

use crate::attributes::push_attributes;
use crate::constants::push_pool;
use crate::members::push_members;
use crate::numbers::{push_u16, push_u32};
use crate::room::class_len;
use const_pool::ClassFile;
use jf_bytes::NoMemory;
use std::alloc::Global;

const MAGIC: u32 = 0xCAFE_BABE;

/// Appends the count of interfaces, and then the index of each.
fn push_interfaces(out: &mut Vec<u8>, interfaces: &[u16]) -> Result<(), NoMemory>
    requires { FitsCount interfaces.now }
    ensures { OnOk result (out.new.items ≡ out.old.items ++ items_counted u2 interfaces.now) }
{
    push_u16(out, interfaces.len() as u16)?;
    for index in interfaces {
        push_u16(out, *index)?;
    }
    Ok(())
}

/// Appends the magic number, the version and the constant pool.
fn push_head(alloc: Global, out: &mut Vec<u8>, class: &ClassFile) -> Result<(), NoMemory>
    requires { All FitsEntry class.now.pool }
    ensures { OnOk result (out.new.items ≡ out.old.items ++ head_bytes class.now) }
{
    push_u32(out, MAGIC)?;
    push_u16(out, class.minor)?;
    push_u16(out, class.major)?;
    push_pool(alloc, out, &class.pool)
}

/// Appends the access flags, the class itself and its superclass.
fn push_itself(out: &mut Vec<u8>, class: &ClassFile) -> Result<(), NoMemory>
    ensures { OnOk result (out.new.items ≡ out.old.items ++ itself_bytes class.now) }
{
    push_u16(out, class.access)?;
    push_u16(out, class.this_class)?;
    push_u16(out, class.super_class)
}

/// Appends the interfaces, the fields, the methods and the attributes.
fn push_body(out: &mut Vec<u8>, class: &ClassFile) -> Result<(), NoMemory>
    requires { FitsClass class.now }
    ensures { OnOk result (out.new.items ≡ out.old.items ++ body_bytes class.now) }
{
    push_interfaces(out, class.interfaces.as_slice())?;
    push_members(out, class.fields.as_slice())?;
    push_members(out, class.methods.as_slice())?;
    push_attributes(out, class.attributes.as_slice())
}

/// Appends a class file.
fn push_class(alloc: Global, out: &mut Vec<u8>, class: &ClassFile) -> Result<(), NoMemory>
    requires { FitsClass class.now }
    ensures { OnOk result (out.new.items ≡ out.old.items ++ class_bytes class.now) }
{
    push_head(alloc, out, class)?;
    push_itself(out, class)?;
    push_body(out, class)
}

/// The bytes of a class whose counts and lengths fit their fields (JVM Specification 4), whatever its indices name.
pub fn write_fitting(alloc: Global, class: &ClassFile) -> Result<Vec<u8>, NoMemory>
    requires { FitsClass class.now }
    ensures { IfOk result (λ bytes. bytes.items ≡ class_bytes class.now) }
{
    let mut bytes = Vec::with_capacity(alloc, class_len(class))?;
    push_class(alloc, &mut bytes, class)?;
    Ok(bytes)
}

/// The bytes of a class file (JVM Specification 4), from which a reader makes this class again. The bytes are written
/// into memory that is taken in one piece; beside it each text of the constant pool takes its own length for a moment.
#[tactic(auto, using(crate::proofs::Fitting::fits_class))]
pub fn write_class(alloc: Global, class: &ClassFile) -> Result<Vec<u8>, NoMemory>
    requires formed { IsClassFile class.now }
    ensures spelled { IfOk result (λ bytes. Spells bytes.items class.now) }
    ensures one_spelling { (a b : List ℕ) → Spells a class.now → Spells b class.now → a ≡ b }
{
    let mut bytes = Vec::with_capacity(alloc, class_len(class))?;
    push_class(alloc, &mut bytes, class)?;
    Ok(bytes)
}
