//! What stands before and behind the constant pool (JVM Specification 4.1).

ghost use Rattle.class_reader.specs.Reading.{Gives, with_rest, magic_at, major_at, body_at};
ghost use Rattle.class_reader.specs.Views.{body_view};

use crate::attributes::{ClassAttributes, FieldAttributes, MethodAttributes};
use crate::error::ReadError;
use crate::lists::counted_of;
use crate::members::{Classes, Members};
use crate::numbers::{u16_of, u32_of};
use crate::references::{class_ref_of, optional_class_of};
use const_pool::{Attribute, Const, Member};
use jf_bytes::Seq;
use std::alloc::Global;

const MAGIC: u32 = 0xCAFE_BABE;

/// The least major version, of Java 1.0.
const LEAST_MAJOR: u16 = 45;

/// The greatest major version, of Java 6.
const MOST_MAJOR: u16 = 50;

/// The magic number.
#[tactic(auto, unfolding(crate::specs::Reading::magic_at, crate::specs::Reading::tested_at))]
pub(crate) fn magic_of(limit: usize, bytes: &[u8]) -> Result<(u32, &[u8]), ReadError>
    ensures { Gives with_rest result (magic_at limit bytes.now) }
{
    let (magic, rest) = u32_of(limit, bytes)?;
    if magic != MAGIC {
        return Err(ReadError::BadMagic);
    }
    Ok((magic, rest))
}

/// The major version.
#[tactic(auto, unfolding(crate::specs::Reading::major_at, crate::specs::Reading::tested_at))]
pub(crate) fn major_of(limit: usize, bytes: &[u8]) -> Result<(u16, &[u8]), ReadError>
    ensures { Gives with_rest result (major_at limit bytes.now) }
{
    let (major, rest) = u16_of(limit, bytes)?;
    if major < LEAST_MAJOR || major > MOST_MAJOR {
        return Err(ReadError::BadVersion(major));
    }
    Ok((major, rest))
}

/// What stands behind the constant pool.
pub(crate) struct Body {
    pub(crate) access: u16,
    pub(crate) this_class: u16,
    pub(crate) super_class: u16,
    pub(crate) interfaces: Seq<u16>,
    pub(crate) fields: Seq<Member>,
    pub(crate) methods: Seq<Member>,
    pub(crate) attributes: Seq<Attribute>,
}

/// What stands behind the constant pool, up to the class's attributes.
#[tactic(auto, unfolding(crate::specs::Reading::body_at))]
pub(crate) fn body_of<'a>(
    alloc: Global,
    pool: &[Const],
    limit: usize,
    bytes: &'a [u8],
) -> Result<(Body, &'a [u8]), ReadError>
    ensures { Gives (λ x. (body_view x.0, x.1.now)) result (body_at pool.now limit bytes.now) }
{
    let (access, rest) = u16_of(limit, bytes)?;
    let (this_class, rest) = class_ref_of(pool, limit, rest)?;
    let (super_class, rest) = optional_class_of(pool, limit, rest)?;
    let (interfaces, rest) = counted_of(&Classes { pool }, alloc, limit, rest)?;
    let attributes = FieldAttributes { pool };
    let (fields, rest) = counted_of(&Members { pool, attributes }, alloc, limit, rest)?;
    let attributes = MethodAttributes { pool };
    let (methods, rest) = counted_of(&Members { pool, attributes }, alloc, limit, rest)?;
    let (attributes, rest) = counted_of(&ClassAttributes { pool }, alloc, limit, rest)?;
    let body = Body {
        access,
        this_class,
        super_class,
        interfaces,
        fields,
        methods,
        attributes,
    };
    Ok((body, rest))
}
