//! Attributes (JVM Specification 4.7).

ghost use Rattle.std.specs.Prelude.{◌≡◌};
ghost use Rattle.class_reader.specs.Reading.{Gives, with_rest, fault_within as within, enclosed_at, constant_index_at, raw_contents_at, raw_at, other_at, constant_value_at, code_at, code_attribute_at};

use crate::code::code_contents_of;
use crate::error::ReadError;
use crate::lists::ReadItem;
use crate::numbers::sized_of;
use crate::references::{constant_ref_of, names_code, names_constant_value, utf8_ref_of};
use byte_formats::place_of;
use const_pool::{Attribute, CodeAttribute, Const, Raw};
use jf_bytes::Seq;
use std::alloc::Global;

/// An attribute that is kept as bytes, behind its name.
#[tactic(auto, unfolding(crate::specs::Reading::raw_contents_at))]
fn raw_contents_of(
    alloc: Global,
    name: u16,
    limit: usize,
    bytes: &[u8],
) -> Result<(Raw, &[u8]), ReadError>
    ensures { Gives with_rest result (raw_contents_at name limit bytes.now) }
{
    let (contents, rest) = sized_of(limit, bytes)?;
    let raw = Raw {
        name,
        bytes: Seq::from_slice(alloc, contents)?,
    };
    Ok((raw, rest))
}

/// Reads attributes of a Code, which are kept as bytes.
#[derive(Clone, Copy)]
pub(crate) struct Raws<'p> {
    pub(crate) pool: &'p [Const],
}

impl ReadItem<Raw> for Raws<'_> {
    ghost use Rattle.class_reader.specs.Reading.{raw_at};

    ghost item = { λ s. raw_at s.pool.now };

    #[tactic(auto, unfolding(crate::specs::Reading::raw_at))]
    fn read<'a>(
        &self,
        alloc: Global,
        limit: usize,
        bytes: &'a [u8],
    ) -> Result<(Raw, &'a [u8]), ReadError> {
        let (name, rest) = utf8_ref_of(self.pool, limit, bytes)?;
        raw_contents_of(alloc, name, limit, rest)
    }
}

/// An attribute that is kept as bytes among those that are parsed, behind its name.
#[tactic(auto, unfolding(crate::specs::Reading::other_at))]
fn other_of(
    alloc: Global,
    name: u16,
    limit: usize,
    bytes: &[u8],
) -> Result<(Attribute, &[u8]), ReadError>
    ensures { Gives with_rest result (other_at name limit bytes.now) }
{
    let (raw, rest) = raw_contents_of(alloc, name, limit, bytes)?;
    Ok((Attribute::Other(raw), rest))
}

/// A fault in contents whose length stands at `at`: where they end early, it is their length that is at fault.
fn fault_within(at: usize, fault: ReadError) -> ReadError
    ensures { result ≡ within at fault }
{
    match fault {
        ReadError::Truncated(_) => ReadError::BadLength(at),
        other => other,
    }
}

/// The index in a ConstantValue, which must be all of its contents.
#[tactic(auto, unfolding(crate::specs::Reading::enclosed_at))]
fn whole_index_of<'a>(
    pool: &[Const],
    limit: usize,
    bytes: &'a [u8],
) -> Result<(u16, &'a [u8]), ReadError>
    ensures { Gives with_rest result (constant_index_at pool.now limit bytes.now) }
{
    let at = place_of(limit, bytes);
    let (contents, rest) = sized_of(limit, bytes)?;
    match constant_ref_of(pool, place_of(limit, rest), contents) {
        Ok((index, [])) => Ok((index, rest)),
        Ok(_) => Err(ReadError::BadLength(at)),
        Err(fault) => Err(fault_within(at, fault)),
    }
}

/// The contents of a Code, of which nothing may be left.
#[tactic(auto, unfolding(crate::specs::Reading::enclosed_at))]
fn whole_code_of<'a>(
    alloc: Global,
    pool: &[Const],
    limit: usize,
    bytes: &'a [u8],
) -> Result<(CodeAttribute, &'a [u8]), ReadError>
    ensures { Gives with_rest result (enclosed_at (code_at pool.now) limit bytes.now) }
{
    let at = place_of(limit, bytes);
    let (contents, rest) = sized_of(limit, bytes)?;
    match code_contents_of(alloc, pool, place_of(limit, rest), contents) {
        Ok((code, [])) => Ok((code, rest)),
        Ok(_) => Err(ReadError::BadLength(at)),
        Err(ReadError::NoMemory) => Err(ReadError::NoMemory),
        Err(fault) => Err(fault_within(at, fault)),
    }
}

/// A ConstantValue behind its name (JVM Specification 4.7.2).
#[tactic(auto, unfolding(crate::specs::Reading::constant_value_at))]
fn constant_value_of<'a>(
    pool: &[Const],
    name: u16,
    limit: usize,
    bytes: &'a [u8],
) -> Result<(Attribute, &'a [u8]), ReadError>
    ensures { Gives with_rest result (constant_value_at pool.now name limit bytes.now) }
{
    let (index, rest) = whole_index_of(pool, limit, bytes)?;
    Ok((Attribute::ConstantValue(name, index), rest))
}

/// A Code behind its name (JVM Specification 4.7.3).
#[tactic(auto, unfolding(crate::specs::Reading::code_attribute_at))]
fn code_attribute_of<'a>(
    alloc: Global,
    pool: &[Const],
    name: u16,
    limit: usize,
    bytes: &'a [u8],
) -> Result<(Attribute, &'a [u8]), ReadError>
    ensures { Gives with_rest result (code_attribute_at pool.now name limit bytes.now) }
{
    let (code, rest) = whole_code_of(alloc, pool, limit, bytes)?;
    Ok((Attribute::Code(name, code), rest))
}

/// Reads attributes of a field: ConstantValue is parsed.
#[derive(Clone, Copy)]
pub(crate) struct FieldAttributes<'p> {
    pub(crate) pool: &'p [Const],
}

impl ReadItem<Attribute> for FieldAttributes<'_> {
    ghost use Rattle.class_reader.specs.Reading.{field_attribute_at};

    ghost item = { λ s. field_attribute_at s.pool.now };

    #[tactic(auto, unfolding(crate::specs::Reading::field_attribute_at))]
    fn read<'a>(
        &self,
        alloc: Global,
        limit: usize,
        bytes: &'a [u8],
    ) -> Result<(Attribute, &'a [u8]), ReadError> {
        let (name, rest) = utf8_ref_of(self.pool, limit, bytes)?;
        if names_constant_value(self.pool, name) {
            constant_value_of(self.pool, name, limit, rest)
        } else {
            other_of(alloc, name, limit, rest)
        }
    }
}

/// Reads attributes of a method: Code is parsed.
#[derive(Clone, Copy)]
pub(crate) struct MethodAttributes<'p> {
    pub(crate) pool: &'p [Const],
}

impl ReadItem<Attribute> for MethodAttributes<'_> {
    ghost use Rattle.class_reader.specs.Reading.{method_attribute_at};

    ghost item = { λ s. method_attribute_at s.pool.now };

    #[tactic(auto, unfolding(crate::specs::Reading::method_attribute_at))]
    fn read<'a>(
        &self,
        alloc: Global,
        limit: usize,
        bytes: &'a [u8],
    ) -> Result<(Attribute, &'a [u8]), ReadError> {
        let (name, rest) = utf8_ref_of(self.pool, limit, bytes)?;
        if names_code(self.pool, name) {
            code_attribute_of(alloc, self.pool, name, limit, rest)
        } else {
            other_of(alloc, name, limit, rest)
        }
    }
}

/// Reads attributes of a class, which are kept as bytes.
#[derive(Clone, Copy)]
pub(crate) struct ClassAttributes<'p> {
    pub(crate) pool: &'p [Const],
}

impl ReadItem<Attribute> for ClassAttributes<'_> {
    ghost use Rattle.class_reader.specs.Reading.{class_attribute_at};

    ghost item = { λ s. class_attribute_at s.pool.now };

    #[tactic(auto, unfolding(crate::specs::Reading::class_attribute_at))]
    fn read<'a>(
        &self,
        alloc: Global,
        limit: usize,
        bytes: &'a [u8],
    ) -> Result<(Attribute, &'a [u8]), ReadError> {
        let (name, rest) = utf8_ref_of(self.pool, limit, bytes)?;
        other_of(alloc, name, limit, rest)
    }
}
