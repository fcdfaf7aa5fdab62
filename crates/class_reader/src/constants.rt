//! Entries of the constant pool (JVM Specification 4.4).

ghost use Rattle.std.specs.Prelude.{◌≡◌, ◌≤◌, ℕ, Ok, Err, length, IfOk};
ghost use Rattle.class_reader.specs.Decoding.{text_decoded};
ghost use Rattle.class_reader.specs.Reading.{Gives, with_rest, tag_at, text_at, utf8_at, contents_at, entry_at};

use crate::error::ReadError;
use crate::numbers::{run_of, u8_of, u16_of, u32_of, u64_of};
use crate::tags::{Tag, find_tag};
use byte_formats::place_of;
use const_pool::Const;
use jf_bytes::Text16;
use std::alloc::Global;
use text_coding::{TextError, from_modified};

/// A tag.
#[tactic(auto, unfolding(crate::specs::Reading::tag_at))]
fn tag_of(limit: usize, bytes: &[u8]) -> Result<(Tag, &[u8]), ReadError>
    ensures { Gives with_rest result (tag_at limit bytes.now) }
{
    let (number, rest) = u8_of(limit, bytes)?;
    match find_tag(number) {
        Some(tag) => Ok((tag, rest)),
        None => Err(ReadError::BadTag(place_of(limit, bytes))),
    }
}

/// The text that the bytes spell in modified UTF-8.
fn decode(alloc: Global, bytes: &[u8]) -> Result<Text16, TextError>
    ensures text { IfOk result (λ units. text_decoded bytes.now ≡ Ok units) }
    ensures bad { (at : ℕ) → result ≡ Err (TextError.BadUtf8 at) → text_decoded bytes.now ≡ Err at }
    ensures within { (at : ℕ) → result ≡ Err (TextError.BadUtf8 at) → at ≤ length bytes.now }
{
    from_modified(alloc, bytes)
}

/// So many bytes of a text in modified UTF-8.
#[tactic(auto, unfolding(crate::specs::Reading::text_at))]
fn text_of(
    alloc: Global,
    len: usize,
    limit: usize,
    bytes: &[u8],
) -> Result<(Text16, &[u8]), ReadError>
    ensures { Gives with_rest result (text_at len limit bytes.now) }
{
    let (text, rest) = run_of(len, limit, bytes)?;
    match decode(alloc, text) {
        Ok(units) => Ok((units, rest)),
        Err(TextError::BadUtf8(at)) => Err(ReadError::BadUtf8(place_of(limit, &bytes[at..]))),
        Err(TextError::NoMemory) => Err(ReadError::NoMemory),
    }
}

/// A text behind its length.
#[tactic(auto, unfolding(crate::specs::Reading::utf8_at))]
fn utf8_of(alloc: Global, limit: usize, bytes: &[u8]) -> Result<(Const, &[u8]), ReadError>
    ensures { Gives with_rest result (utf8_at limit bytes.now) }
{
    let (len, rest) = u16_of(limit, bytes)?;
    let (text, rest) = text_of(alloc, usize::from(len), limit, rest)?;
    Ok((Const::Utf8(text), rest))
}

/// An entry of one number.
macro_rules! single {
    ($read:ident, $limit:ident, $bytes:ident, $make:path) => {{
        let (number, rest) = $read($limit, $bytes)?;
        Ok(($make(number), rest))
    }};
}

/// An entry of two indices.
macro_rules! pair {
    ($limit:ident, $bytes:ident, $make:path) => {{
        let (first, rest) = u16_of($limit, $bytes)?;
        let (second, rest) = u16_of($limit, rest)?;
        Ok(($make(first, second), rest))
    }};
}

/// What follows a tag.
#[tactic(auto, unfolding(crate::specs::Reading::contents_at, crate::specs::Reading::single_at, crate::specs::Reading::pair_at))]
fn contents_of(
    alloc: Global,
    tag: Tag,
    limit: usize,
    bytes: &[u8],
) -> Result<(Const, &[u8]), ReadError>
    ensures { Gives with_rest result (contents_at tag limit bytes.now) }
{
    match tag {
        Tag::Utf8 => utf8_of(alloc, limit, bytes),
        Tag::Integer => {
            let (number, rest) = u32_of(limit, bytes)?;
            Ok((Const::Integer(number.cast_signed()), rest))
        }
        Tag::Float => single!(u32_of, limit, bytes, Const::Float),
        Tag::Long => {
            let (number, rest) = u64_of(limit, bytes)?;
            Ok((Const::Long(number.cast_signed()), rest))
        }
        Tag::Double => single!(u64_of, limit, bytes, Const::Double),
        Tag::Class => single!(u16_of, limit, bytes, Const::Class),
        Tag::Text => single!(u16_of, limit, bytes, Const::Text),
        Tag::Field => pair!(limit, bytes, Const::Field),
        Tag::Method => pair!(limit, bytes, Const::Method),
        Tag::InterfaceMethod => pair!(limit, bytes, Const::InterfaceMethod),
        Tag::NameType => pair!(limit, bytes, Const::NameType),
    }
}

/// An entry.
#[tactic(auto, unfolding(crate::specs::Reading::entry_at))]
pub(crate) fn entry_of(
    alloc: Global,
    limit: usize,
    bytes: &[u8],
) -> Result<(Const, &[u8]), ReadError>
    ensures { Gives with_rest result (entry_at limit bytes.now) }
{
    let (tag, rest) = tag_of(limit, bytes)?;
    contents_of(alloc, tag, limit, rest)
}
