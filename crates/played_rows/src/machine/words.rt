//! What single words of a line say.

ghost use Rattle.std.specs.Prelude.{◌≡◌, IfOk};
ghost use Rattle.played_rows.specs.Machine.Words.{cause_said, fault_said, kind_said, mark_said, marks_said, number_said, output_said, status_said};

use crate::machine::parts::line_parted;
use class_reader::ReadError;
use class_shape::SwapError;
use jf_bytes::{NoMemory, Seq};
use jvm_model::{EventKind, Mark};
use std::alloc::Global;

// ---- numbers

/// The number of 16 bits that a word writes.
pub fn number_of_16_bits(word: &str) -> Option<u16>
    ensures { result ≡ number_said 16 word.now }
{
    match word.parse::<u16>() {
        Ok(number) => Some(number),
        Err(_) => None,
    }
}

/// The number of 32 bits that a word writes.
pub fn number_of_32_bits(word: &str) -> Option<u32>
    ensures { result ≡ number_said 32 word.now }
{
    match word.parse::<u32>() {
        Ok(number) => Some(number),
        Err(_) => None,
    }
}

/// The number of 64 bits that a word writes.
pub fn number_of_64_bits(word: &str) -> Option<u64>
    ensures { result ≡ number_said 64 word.now }
{
    match word.parse::<u64>() {
        Ok(number) => Some(number),
        Err(_) => None,
    }
}

/// The offset that a word writes.
fn offset_of(word: &str) -> Option<usize>
    ensures { result ≡ number_said 64 word.now }
{
    match word.parse::<usize>() {
        Ok(number) => Some(number),
        Err(_) => None,
    }
}

/// The status that a word writes.
pub fn status_of(word: &str) -> Option<i32>
    ensures { result ≡ status_said word.now }
{
    match word.parse::<i32>() {
        Ok(number) => Some(number),
        Err(_) => None,
    }
}

// ---- other words

fn mark_of(letter: u8) -> Option<Mark>
    ensures { result ≡ mark_said letter }
{
    match letter {
        b'O' => Some(Mark::Off),
        b'P' => Some(Mark::Plain),
        b'R' => Some(Mark::Root),
        _ => None,
    }
}

/// The marks that a word says, a letter a method.
pub fn marks_of(alloc: Global, word: &str) -> Result<Option<Seq<Mark>>, NoMemory>
    ensures { IfOk result (λ found. found ≡ marks_said word.now) }
{
    let mut marks = Seq::new(alloc);
    for letter in word.as_bytes() {
        match mark_of(*letter) {
            Some(mark) => marks.push(mark)?,
            None => return Ok(None),
        }
    }
    Ok(Some(marks))
}

/// The kind of event that a word says.
pub fn kind_of(word: &str) -> Option<EventKind>
    ensures { result ≡ kind_said word.now }
{
    match word {
        "root" => Some(EventKind::Root),
        "enter" => Some(EventKind::Enter),
        "leave" => Some(EventKind::Leave),
        "unwind" => Some(EventKind::Unwind),
        _ => None,
    }
}

/// Why bytes are no class file, by its words.
fn fault_of(words: &str) -> Option<ReadError>
    ensures { result ≡ fault_said words.now }
{
    let (word, rest) = line_parted(words);
    match word {
        "Truncated" => Some(ReadError::Truncated(offset_of(rest)?)),
        "BadMagic" => Some(ReadError::BadMagic),
        _ => None,
    }
}

/// Why a class is not redefined, by its words.
pub fn cause_of(words: &str) -> Option<SwapError>
    ensures { result ≡ cause_said words.now }
{
    let (word, rest) = line_parted(words);
    match word {
        "NotSameShape" => Some(SwapError::NotSameShape(number_of_16_bits(rest)?)),
        "Unreadable" => Some(SwapError::Unreadable(fault_of(rest)?)),
        _ => None,
    }
}

/// What a program has written: a line, or nothing.
pub fn output_of(alloc: Global, text: &str) -> Result<Seq<u8>, NoMemory>
    ensures { IfOk result (λ bytes. bytes ≡ output_said text.now) }
{
    let mut output = Vec::from_slice(alloc, text.as_bytes())?;
    if !text.is_empty() {
        output.push(b'\n')?;
    }
    Ok(Seq::from_vec(output))
}
