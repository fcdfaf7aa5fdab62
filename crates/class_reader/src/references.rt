//! Indices into the constant pool, which stand behind it.

ghost use Rattle.std.specs.Prelude.{◌≡◌};
ghost use Rattle.std.specs.Option.{option_copied};
ghost use Rattle.const_pool.specs.Pool.{is_utf8, is_class, is_name_type, is_constant};
ghost use Rattle.const_pool.specs.References.{named_text};
ghost use Rattle.const_pool.specs.ClassFile.{code_name, constant_value_name};
ghost use Rattle.class_reader.specs.ClassFormat.{names, names_text};
ghost use Rattle.class_reader.specs.Reading.{Gives, with_rest, ref_at, optional_ref_at};

use crate::error::ReadError;
use crate::numbers::u16_of;
use byte_formats::place_of;
use const_pool::Const;
use jf_bytes::Text16;

/// Whether the index names a Utf8.
pub(crate) fn names_utf8(pool: &[Const], index: u16) -> bool
    ensures { result ≡ names is_utf8 pool.now index }
{
    matches!(pool.get(usize::from(index)), Some(Const::Utf8(_)))
}

/// Whether the index names a Class.
pub(crate) fn names_class(pool: &[Const], index: u16) -> bool
    ensures { result ≡ names is_class pool.now index }
{
    matches!(pool.get(usize::from(index)), Some(Const::Class(_)))
}

/// Whether the index names a NameAndType.
pub(crate) fn names_name_type(pool: &[Const], index: u16) -> bool
    ensures { result ≡ names is_name_type pool.now index }
{
    matches!(pool.get(usize::from(index)), Some(Const::NameType(_, _)))
}

/// Whether the index names what a ConstantValue may name (JVM Specification 4.7.2).
pub(crate) fn names_constant(pool: &[Const], index: u16) -> bool
    ensures { result ≡ names is_constant pool.now index }
{
    matches!(
        pool.get(usize::from(index)),
        Some(
            Const::Integer(_) | Const::Float(_) | Const::Long(_) | Const::Double(_) | Const::Text(_)
        )
    )
}

/// The index of a Utf8.
#[tactic(auto, unfolding(crate::specs::Reading::tested_at))]
pub(crate) fn utf8_ref_of<'a>(
    pool: &[Const],
    limit: usize,
    bytes: &'a [u8],
) -> Result<(u16, &'a [u8]), ReadError>
    ensures { Gives with_rest result (ref_at is_utf8 pool.now limit bytes.now) }
{
    let (index, rest) = u16_of(limit, bytes)?;
    if !names_utf8(pool, index) {
        return Err(ReadError::BadRef(place_of(limit, bytes)));
    }
    Ok((index, rest))
}

/// The index of a Class.
#[tactic(auto, unfolding(crate::specs::Reading::tested_at))]
pub(crate) fn class_ref_of<'a>(
    pool: &[Const],
    limit: usize,
    bytes: &'a [u8],
) -> Result<(u16, &'a [u8]), ReadError>
    ensures { Gives with_rest result (ref_at is_class pool.now limit bytes.now) }
{
    let (index, rest) = u16_of(limit, bytes)?;
    if !names_class(pool, index) {
        return Err(ReadError::BadRef(place_of(limit, bytes)));
    }
    Ok((index, rest))
}

/// The index of a Class, or 0.
#[tactic(auto, unfolding(crate::specs::Reading::tested_at))]
pub(crate) fn optional_class_of<'a>(
    pool: &[Const],
    limit: usize,
    bytes: &'a [u8],
) -> Result<(u16, &'a [u8]), ReadError>
    ensures { Gives with_rest result (optional_ref_at is_class pool.now limit bytes.now) }
{
    let (index, rest) = u16_of(limit, bytes)?;
    if index != 0 && !names_class(pool, index) {
        return Err(ReadError::BadRef(place_of(limit, bytes)));
    }
    Ok((index, rest))
}

/// The index of a constant.
#[tactic(auto, unfolding(crate::specs::Reading::tested_at))]
pub(crate) fn constant_ref_of<'a>(
    pool: &[Const],
    limit: usize,
    bytes: &'a [u8],
) -> Result<(u16, &'a [u8]), ReadError>
    ensures { Gives with_rest result (ref_at is_constant pool.now limit bytes.now) }
{
    let (index, rest) = u16_of(limit, bytes)?;
    if !names_constant(pool, index) {
        return Err(ReadError::BadRef(place_of(limit, bytes)));
    }
    Ok((index, rest))
}

/// The text that the index names, where it names one.
fn text_named(pool: &[Const], index: u16) -> Option<&Text16>
    ensures { option_copied result ≡ named_text pool.now index }
{
    match pool.get(usize::from(index)) {
        Some(Const::Utf8(text)) => Some(text),
        _ => None,
    }
}

/// Whether the index names the text `Code`.
pub(crate) fn names_code(pool: &[Const], index: u16) -> bool
    ensures { result ≡ names_text pool.now index code_name }
{
    match text_named(pool, index) {
        Some(text) => text.is_bytes(b"Code"),
        None => false,
    }
}

/// Whether the index names the text `ConstantValue`.
pub(crate) fn names_constant_value(pool: &[Const], index: u16) -> bool
    ensures { result ≡ names_text pool.now index constant_value_name }
{
    match text_named(pool, index) {
        Some(text) => text.is_bytes(b"ConstantValue"),
        None => false,
    }
}
