//! Attributes (JVM Specification 4.7).

ghost use Rattle.std.specs.Prelude.{◌≡◌, ◌<◌, ◌++◌, All, OnOk};
ghost use Rattle.const_pool.specs.ClassFile.{FitsCount, items_counted, raw_bytes, handler_bytes, code_bytes, attribute_bytes};
ghost use Rattle.class_writer.specs.Fits.{FitsRaw, FitsCode, FitsAttribute};

use crate::numbers::{push_u16, push_u32};
use crate::room::code_len;
use const_pool::{Attribute, CodeAttribute, Handler, Raw};
use jf_bytes::NoMemory;

/// Appends an attribute that is kept as bytes.
fn push_raw(out: &mut Vec<u8>, raw: &Raw) -> Result<(), NoMemory>
    requires { FitsRaw raw.now }
    ensures { OnOk result (out.new.items ≡ out.old.items ++ raw_bytes raw.now) }
{
    push_u16(out, raw.name)?;
    push_u32(out, raw.bytes.len() as u32)?;
    out.extend_from_slice(raw.bytes.as_slice())?;
    Ok(())
}

/// Appends the count of attributes that are kept as bytes, and then each.
fn push_raws(out: &mut Vec<u8>, raws: &[Raw]) -> Result<(), NoMemory>
    requires count { FitsCount raws.now }
    requires each { All FitsRaw raws.now }
    ensures { OnOk result (out.new.items ≡ out.old.items ++ items_counted raw_bytes raws.now) }
{
    push_u16(out, raws.len() as u16)?;
    for raw in raws {
        push_raw(out, raw)?;
    }
    Ok(())
}

/// Appends an entry of an exception table.
fn push_handler(out: &mut Vec<u8>, handler: &Handler) -> Result<(), NoMemory>
    ensures { OnOk result (out.new.items ≡ out.old.items ++ handler_bytes handler.now) }
{
    push_u16(out, handler.start)?;
    push_u16(out, handler.end)?;
    push_u16(out, handler.handler)?;
    push_u16(out, handler.catch_class)
}

/// Appends the count of entries of an exception table, and then each.
fn push_handlers(out: &mut Vec<u8>, handlers: &[Handler]) -> Result<(), NoMemory>
    requires { FitsCount handlers.now }
    ensures { OnOk result
        (out.new.items ≡ out.old.items ++ items_counted handler_bytes handlers.now) }
{
    push_u16(out, handlers.len() as u16)?;
    for handler in handlers {
        push_handler(out, handler)?;
    }
    Ok(())
}

/// Appends the contents of a Code attribute.
fn push_code(out: &mut Vec<u8>, code: &CodeAttribute) -> Result<(), NoMemory>
    requires { FitsCode code.now }
    ensures { OnOk result (out.new.items ≡ out.old.items ++ code_bytes code.now) }
{
    push_u16(out, code.max_stack)?;
    push_u16(out, code.max_locals)?;
    push_u32(out, code.code.len() as u32)?;
    out.extend_from_slice(code.code.as_slice())?;
    push_handlers(out, code.handlers.as_slice())?;
    push_raws(out, code.attributes.as_slice())
}

/// Appends an attribute.
fn push_attribute(out: &mut Vec<u8>, attribute: &Attribute) -> Result<(), NoMemory>
    requires { FitsAttribute attribute.now }
    ensures { OnOk result (out.new.items ≡ out.old.items ++ attribute_bytes attribute.now) }
{
    match attribute {
        Attribute::ConstantValue(name, index) => {
            push_u16(out, *name)?;
            push_u32(out, 2)?;
            push_u16(out, *index)
        }
        Attribute::Code(name, code) => {
            push_u16(out, *name)?;
            push_u32(out, code_len(code) as u32)?;
            push_code(out, code)
        }
        Attribute::Other(raw) => push_raw(out, raw),
    }
}

/// Appends the count of attributes, and then each.
pub(crate) fn push_attributes(out: &mut Vec<u8>, attributes: &[Attribute]) -> Result<(), NoMemory>
    requires count { FitsCount attributes.now }
    requires each { All FitsAttribute attributes.now }
    ensures { OnOk result
        (out.new.items ≡ out.old.items ++ items_counted attribute_bytes attributes.now) }
{
    push_u16(out, attributes.len() as u16)?;
    for attribute in attributes {
        push_attribute(out, attribute)?;
    }
    Ok(())
}
