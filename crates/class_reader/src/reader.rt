//! Reads a class file from left to right (JVM Specification 4.1).

ghost use Rattle.std.specs.Prelude.{◌≡◌, ◌<◌, ◌^◌, ◌↔◌, Ok, Err, IfOk, IsTrue, length};
ghost use Rattle.const_pool.specs.declared.class.ClassFile.{ClassFile as Class};
ghost use Rattle.const_pool.specs.ClassFile.{Spells};
ghost use Rattle.class_reader.specs.declared.error.ReadError.{ReadError as Fault};
ghost use Rattle.class_reader.specs.Files.{IsFile, IsImageFault, IsFirstFault, TellsFault, HasOneAtMost, AreApart};
ghost use Rattle.jf_bytes.specs.Results.{IsUnless};
ghost use Rattle.const_pool.specs.Pool.{has_gaps};
ghost use Rattle.class_reader.specs.ClassFormat.{class as class_format, class_with};
ghost use Rattle.class_reader.specs.Views.{body_view};
ghost use Rattle.class_reader.specs.Reading.{Gives, with_rest, class_at, image_of, file_of};

use crate::error::ReadError;
use crate::heading::{Body, body_of, magic_of, major_of};
use crate::numbers::u16_of;
use crate::pool::pool_of;
use byte_formats::place_of;
use const_pool::{ClassFile, Const, Pool};
use std::alloc::Global;

/// The most bytes of a class file that is read: 4 MiB, a limit of this product. A caller that fetches a file asks for
/// so many, and sees by one byte more that it is too long.
pub const MOST_BYTES: usize = 4_194_304;

/// A class of its parts.
fn assemble(minor: u16, major: u16, pool: Vec<Const>, body: Body) -> ClassFile
    requires gaps { IsTrue (has_gaps pool.items) }
    requires count { length pool.items < 2 ^ 16 }
    ensures { result ≡ class_with minor major pool.items (body_view body) }
{
    let Body {
        access,
        this_class,
        super_class,
        interfaces,
        fields,
        methods,
        attributes,
    } = body;
    ClassFile {
        minor,
        major,
        pool: Pool::new(pool),
        access,
        this_class,
        super_class,
        interfaces,
        fields,
        methods,
        attributes,
    }
}

/// The class at the front of the bytes.
#[tactic(auto, unfolding(crate::specs::Reading::class_at))]
fn class_of(alloc: Global, limit: usize, bytes: &[u8]) -> Result<(ClassFile, &[u8]), ReadError>
    ensures { Gives with_rest result (class_at limit bytes.now) }
{
    let (_, rest) = magic_of(limit, bytes)?;
    let (minor, rest) = u16_of(limit, rest)?;
    let (major, rest) = major_of(limit, rest)?;
    let (pool, rest) = pool_of(alloc, limit, rest)?;
    let (body, rest) = body_of(alloc, &pool, limit, rest)?;
    Ok((assemble(minor, major, pool, body), rest))
}

/// The class that all of the bytes spell.
#[tactic(auto, unfolding(crate::specs::Reading::image_of))]
fn image_in(alloc: Global, bytes: &[u8]) -> Result<ClassFile, ReadError>
    ensures { Gives (λ c. c) result (image_of bytes.now) }
{
    let limit = bytes.len();
    let (class, rest) = class_of(alloc, limit, bytes)?;
    if !rest.is_empty() {
        return Err(ReadError::Trailing(place_of(limit, rest)));
    }
    Ok(class)
}

/// The same, of bytes that are not too many.
#[tactic(auto, unfolding(crate::specs::Reading::file_of))]
fn file_in(alloc: Global, bytes: &[u8]) -> Result<ClassFile, ReadError>
    ensures { Gives (λ c. c) result (file_of bytes.now) }
{
    if bytes.len() > MOST_BYTES {
        return Err(ReadError::TooLong);
    }
    image_in(alloc, bytes)
}

/// Reads a class file, of `MOST_BYTES` at most (JVM Specification 4). The bytes spell the class that is given and no
/// other, so `class_writer` gives them back from it. A refusal is the first fault from the left: what stands before its
/// place is well formed. Code and ConstantValue are parsed where they stand, in methods and in fields; every other
/// attribute is kept as bytes. Work and memory are in proportion to the bytes.
pub fn read_class(alloc: Global, bytes: &[u8]) -> Result<ClassFile, ReadError>
    ensures found { IfOk result (λ c. IsFile bytes.now c) }
    ensures only { (c : Class) → IsFile bytes.now c → IsUnless result (Ok c) ReadError.NoMemory }
    ensures refused { TellsFault result (IsFirstFault bytes.now) }
    ensures first_fault { (fault : Fault) → IsFirstFault bytes.now fault
        → IsUnless result (Err fault) ReadError.NoMemory }
    ensures one_class { HasOneAtMost (Spells bytes.now) }
    ensures one_fault { HasOneAtMost (IsFirstFault bytes.now) }
    ensures no_fault { AreApart (IsFile bytes.now) (IsFirstFault bytes.now) }
    // The format whose faults are told is that of the bytes that the writer gives.
    ensures same_format { (c : Class) → class_format.Spells bytes.now c ↔ Spells bytes.now c }
{
    file_in(alloc, bytes)
}

/// Reads a class as `read_class` does, however many its bytes are: a rewritten class may be longer than a file.
pub fn read_image(alloc: Global, bytes: &[u8]) -> Result<ClassFile, ReadError>
    ensures found { IfOk result (λ c. Spells bytes.now c) }
    ensures only { (c : Class) → Spells bytes.now c → IsUnless result (Ok c) ReadError.NoMemory }
    ensures refused { TellsFault result (IsImageFault bytes.now) }
    ensures first_fault { (fault : Fault) → IsImageFault bytes.now fault
        → IsUnless result (Err fault) ReadError.NoMemory }
    ensures one_fault { HasOneAtMost (IsImageFault bytes.now) }
    ensures no_fault { AreApart (Spells bytes.now) (IsImageFault bytes.now) }
{
    image_in(alloc, bytes)
}
