//! Parts of a class file, copied.

ghost use Rattle.std.specs.Prelude.{◌≡◌, IfOk};

use const_pool::{Attribute, CodeAttribute, Member, Raw};
use jf_bytes::{NoMemory, Seq};
use std::alloc::Global;

/// An attribute that is kept as bytes, copied.
pub fn copy_raw(alloc: Global, raw: &Raw) -> Result<Raw, NoMemory>
    ensures { IfOk result (λ copy. copy ≡ raw.now) }
{
    Ok(Raw {
        name: raw.name,
        bytes: Seq::from_slice(alloc, raw.bytes.as_slice())?,
    })
}

/// The attributes of a Code, copied.
pub fn copy_raws(alloc: Global, raws: &[Raw]) -> Result<Seq<Raw>, NoMemory>
    ensures { IfOk result (λ copies. copies ≡ raws.now) }
{
    let mut copies = Seq::with_capacity(alloc, raws.len())?;
    for raw in raws {
        copies.push(copy_raw(alloc, raw)?)?;
    }
    Ok(copies)
}

/// A Code attribute's contents, copied.
pub fn copy_code(alloc: Global, code: &CodeAttribute) -> Result<CodeAttribute, NoMemory>
    ensures { IfOk result (λ copy. copy ≡ code.now) }
{
    Ok(CodeAttribute {
        max_stack: code.max_stack,
        max_locals: code.max_locals,
        code: Seq::from_slice(alloc, code.code.as_slice())?,
        handlers: Seq::from_slice(alloc, code.handlers.as_slice())?,
        attributes: copy_raws(alloc, code.attributes.as_slice())?,
    })
}

/// An attribute, copied.
pub(crate) fn copy_attribute(alloc: Global, attribute: &Attribute) -> Result<Attribute, NoMemory>
    ensures { IfOk result (λ copy. copy ≡ attribute.now) }
{
    match attribute {
        Attribute::ConstantValue(name, index) => Ok(Attribute::ConstantValue(*name, *index)),
        Attribute::Code(name, code) => Ok(Attribute::Code(*name, copy_code(alloc, code)?)),
        Attribute::Other(raw) => Ok(Attribute::Other(copy_raw(alloc, raw)?)),
    }
}

/// The attributes of a class, a field or a method, copied.
pub fn copy_attributes(alloc: Global, attributes: &[Attribute]) -> Result<Seq<Attribute>, NoMemory>
    ensures { IfOk result (λ copies. copies ≡ attributes.now) }
{
    let mut copies = Seq::with_capacity(alloc, attributes.len())?;
    for attribute in attributes {
        copies.push(copy_attribute(alloc, attribute)?)?;
    }
    Ok(copies)
}

/// A field or a method, copied.
pub fn copy_member(alloc: Global, member: &Member) -> Result<Member, NoMemory>
    ensures { IfOk result (λ copy. copy ≡ member.now) }
{
    Ok(Member {
        access: member.access,
        name: member.name,
        descriptor: member.descriptor,
        attributes: copy_attributes(alloc, member.attributes.as_slice())?,
    })
}

/// The fields or the methods of a class, copied.
pub fn copy_members(alloc: Global, members: &[Member]) -> Result<Seq<Member>, NoMemory>
    ensures { IfOk result (λ copies. copies ≡ members.now) }
{
    let mut copies = Seq::with_capacity(alloc, members.len())?;
    for member in members {
        copies.push(copy_member(alloc, member)?)?;
    }
    Ok(copies)
}
