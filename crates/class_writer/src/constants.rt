//! The constant pool (JVM Specification 4.4).

ghost use Rattle.std.specs.Prelude.{◌≡◌, ◌<◌, ◌^◌, ◌++◌, length, All, OnOk};
ghost use Rattle.std.specs.Option.{ForSome};
ghost use Rattle.jf_bytes.specs.ModifiedUtf8.{modified_utf8};
ghost use Rattle.const_pool.specs.Pool.{u1, u2, u4, u8 as u8_bytes, entry_at, entry_bytes, pool_bytes};
ghost use Rattle.class_writer.specs.Fits.{FitsEntry};
ghost use Rattle.class_writer.specs.Parts.{bytes_at, text_bytes};

use crate::numbers::{push_u8, push_u16, push_u32, push_u64};
use const_pool::{Const, Pool};
use jf_bytes::{NoMemory, Text16};
use std::alloc::Global;
use text_coding::to_modified;

// The tags (JVM Specification 4.4, table 4.4-A).
const UTF8: u8 = 1;

const INTEGER: u8 = 3;

const FLOAT: u8 = 4;

const LONG: u8 = 5;

const DOUBLE: u8 = 6;

const CLASS: u8 = 7;

const STRING: u8 = 8;

const FIELD: u8 = 9;

const METHOD: u8 = 10;

const INTERFACE_METHOD: u8 = 11;

const NAME_TYPE: u8 = 12;

/// Appends a text behind its length.
fn push_text(alloc: Global, out: &mut Vec<u8>, text: &Text16) -> Result<(), NoMemory>
    requires { length (modified_utf8 text.now) < 2 ^ 16 }
    ensures { OnOk result (out.new.items ≡ out.old.items ++ text_bytes text.now) }
{
    let bytes = to_modified(alloc, text)?;
    push_u16(out, bytes.len() as u16)?;
    out.extend_from_slice(&bytes)?;
    Ok(())
}

/// Appends a tag and an index.
fn push_index(out: &mut Vec<u8>, tag: u8, index: u16) -> Result<(), NoMemory>
    ensures { OnOk result (out.new.items ≡ out.old.items ++ (u1 tag ++ u2 index)) }
{
    push_u8(out, tag)?;
    push_u16(out, index)
}

/// Appends a tag and two indices.
fn push_pair(out: &mut Vec<u8>, tag: u8, first: u16, second: u16) -> Result<(), NoMemory>
    ensures { OnOk result (out.new.items ≡ out.old.items ++ (u1 tag ++ (u2 first ++ u2 second))) }
{
    push_u8(out, tag)?;
    push_u16(out, first)?;
    push_u16(out, second)
}

/// Appends a tag and four bytes.
fn push_single(out: &mut Vec<u8>, tag: u8, bits: u32) -> Result<(), NoMemory>
    ensures { OnOk result (out.new.items ≡ out.old.items ++ (u1 tag ++ u4 bits)) }
{
    push_u8(out, tag)?;
    push_u32(out, bits)
}

/// Appends a tag and eight bytes.
fn push_wide(out: &mut Vec<u8>, tag: u8, bits: u64) -> Result<(), NoMemory>
    ensures { OnOk result (out.new.items ≡ out.old.items ++ (u1 tag ++ u8_bytes bits)) }
{
    push_u8(out, tag)?;
    push_u64(out, bits)
}

/// Appends an entry. A gap has no bytes.
fn push_entry(alloc: Global, out: &mut Vec<u8>, entry: &Const) -> Result<(), NoMemory>
    requires { FitsEntry entry.now }
    ensures { OnOk result (out.new.items ≡ out.old.items ++ entry_bytes entry.now) }
{
    match entry {
        Const::Gap => Ok(()),
        Const::Utf8(text) => {
            push_u8(out, UTF8)?;
            push_text(alloc, out, text)
        }
        Const::Integer(number) => push_single(out, INTEGER, number.cast_unsigned()),
        Const::Float(bits) => push_single(out, FLOAT, *bits),
        Const::Long(number) => push_wide(out, LONG, number.cast_unsigned()),
        Const::Double(bits) => push_wide(out, DOUBLE, *bits),
        Const::Class(name) => push_index(out, CLASS, *name),
        Const::Text(text) => push_index(out, STRING, *text),
        Const::Field(class, member) => push_pair(out, FIELD, *class, *member),
        Const::Method(class, member) => push_pair(out, METHOD, *class, *member),
        Const::InterfaceMethod(class, member) => {
            push_pair(out, INTERFACE_METHOD, *class, *member)
        }
        Const::NameType(name, descriptor) => push_pair(out, NAME_TYPE, *name, *descriptor),
    }
}

/// Appends the entry at an index, where it names one.
fn push_entry_at(alloc: Global, out: &mut Vec<u8>, pool: &Pool, index: u16) -> Result<(), NoMemory>
    requires { ForSome (entry_at pool.now index) FitsEntry }
    ensures { OnOk result (out.new.items ≡ out.old.items ++ bytes_at pool.now index) }
{
    match pool.get(index) {
        Some(entry) => push_entry(alloc, out, entry),
        None => Ok(()),
    }
}

/// Appends the count and the entries.
pub(crate) fn push_pool(alloc: Global, out: &mut Vec<u8>, pool: &Pool) -> Result<(), NoMemory>
    requires { All FitsEntry pool.now }
    ensures { OnOk result (out.new.items ≡ out.old.items ++ pool_bytes pool.now) }
{
    let count = pool.count();
    push_u16(out, count)?;
    for index in 0..count {
        push_entry_at(alloc, out, pool, index)?;
    }
    Ok(())
}
