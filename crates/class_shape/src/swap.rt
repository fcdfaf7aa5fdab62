//! Reads what redefines a class.

ghost use Rattle.std.specs.Prelude.{◌≡◌, ◌≢◌, Ok, Err, IfOk, IfErr};
ghost use Rattle.jf_bytes.specs.Results.{IsUnless};
ghost use Rattle.const_pool.specs.declared.class.ClassFile.{ClassFile as Class};
ghost use Rattle.const_pool.specs.ClassFile.{IsClassFile, Spells};
ghost use Rattle.class_reader.specs.Files.{AreApart, HasOneAtMost};
ghost use Rattle.class_shape.specs.Comparing.{number_of};
ghost use Rattle.class_shape.specs.declared.error.SwapError.{SwapError as Refusal};
ghost use Rattle.class_shape.specs.Swaps.{IsSomeImage, IsSwap, IsSwapFault};
ghost use Rattle.class_shape.specs.Reading.{IsAnswered, answer_by, refusal_of};

use crate::error::SwapError;
use crate::shape::number_of;
use class_reader::{ReadError, read_image};
use const_pool::ClassFile;
use std::alloc::Global;

/// What is told of bytes that were not read.
fn refusal_of(error: ReadError) -> SwapError
    ensures { result ≡ refusal_of error }
{
    match error {
        ReadError::NoMemory => SwapError::NoMemory,
        fault => SwapError::Unreadable(fault),
    }
}

/// The class, where it has the shape of another.
fn of_shape(original: &ClassFile, image: ClassFile) -> Result<ClassFile, SwapError>
    requires { IsClassFile image }
    ensures { result ≡ answer_by (number_of original.now image) image }
{
    match number_of(original, &image) {
        Some(told) => Err(SwapError::NotSameShape(told)),
        None => Ok(image),
    }
}

/// What the bytes come to: a class of the original's shape, or what is told of them.
fn swap_in(alloc: Global, original: &ClassFile, bytes: &[u8]) -> Result<ClassFile, SwapError>
    ensures { IsAnswered original.now bytes.now result }
{
    match read_image(alloc, bytes) {
        Ok(image) => of_shape(original, image),
        Err(error) => Err(refusal_of(error)),
    }
}

/// Reads the class by which another one is redefined, however many its bytes are: the class that they spell, where it
/// has the other's shape. Bytes that spell none are refused first, by `read_image`.
pub fn read_swap(alloc: Global, original: &ClassFile, bytes: &[u8]) -> Result<ClassFile, SwapError>
    ensures found { IfOk result (IsSwap original.now bytes.now) }
    ensures only { (image : Class) → IsSwap original.now bytes.now image
        → IsUnless result (Ok image) SwapError.NoMemory }
    // Want of memory is told as such, also where reading found none.
    ensures refused { IfErr result (λ e.
        e ≢ SwapError.NoMemory → IsSwapFault original.now bytes.now e) }
    ensures first_fault { (refusal : Refusal) → IsSwapFault original.now bytes.now refusal
        → IsUnless result (Err refusal) SwapError.NoMemory }
    ensures one_image { HasOneAtMost (IsSwap original.now bytes.now) }
    ensures one_fault { HasOneAtMost (IsSwapFault original.now bytes.now) }
    ensures no_fault { AreApart (IsSwap original.now bytes.now)
        (IsSwapFault original.now bytes.now) }
    // No image of the class is refused.
    ensures image { (image : Class) → IsClassFile original.now → Spells bytes.now image
        → IsSomeImage original.now image → IsUnless result (Ok image) SwapError.NoMemory }
{
    swap_in(alloc, original, bytes)
}
