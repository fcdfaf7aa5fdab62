//! The words as the system has them: bytes, which may be no text.

ghost use Rattle.std.specs.Prelude.{◌≡◌, ◌<◌, ◌^◌, ℕ, List, Option, None, length, IfOk, IfErr, OnOk};
ghost use Rattle.std.specs.Io.{WritesAtMost};
ghost use Rattle.command_line.specs.Raw.{AreTexts, AreWords, HasRawCause, IsAnswered, IsWord, word_in};
ghost use Rattle.command_line.specs.Words.{texts};
ghost use Rattle.command_line.specs.declared.raw.RawError.TheVariants.{NoMemory as out_of_memory};

use jf_bytes::{NoMemory, Seq};
use std::alloc::{AllocError, AllocFailed, Global};
use std::env::{Env, FillError};
use thiserror::Error;

/// Why words are no texts.
#[derive(Clone, Copy, Debug, PartialEq, Eq, Error)]
pub enum RawError {
    /// A word is no UTF-8, which is a refusal of the words.
    #[error("words refused")]
    NotText,
    #[error("no memory")]
    NoMemory,
}

impl From<AllocError> for RawError {
    ghost from_gives = { λ _ e. e ≡ out_of_memory };

    fn from(_error: AllocError) -> RawError {
        RawError::NoMemory
    }
}

impl<T: Drop> From<AllocFailed<T>> for RawError {
    ghost from_gives = { λ _ e. e ≡ out_of_memory };

    fn from(_error: AllocFailed<T>) -> RawError {
        RawError::NoMemory
    }
}

// ---- the words of a process

/// The words of a process, as bytes, of which the first is the program's name.
pub trait Process {
    /// The words, where the object tells them.
    ghost words: { Self → Option (List (List ℕ)) };

    /// Copies the word of this number to the start of the room, and answers how long it is. `NotPresent` says that
    /// there is no such word, and `TooLong` that it is longer than the room.
    fn word(&self, number: usize, room: &mut [u8]) -> Result<usize, FillError>
        ensures within { WritesAtMost result room.new }
        ensures word { IsAnswered (words self.now) number (length room.new)
            (word_in room.new result) };
}

/// The words of an environment. It tells nothing of them.
#[derive(Drop)]
pub struct SystemWords<R: Env> {
    pub environment: R,
}

impl<R: Env> Process for SystemWords<R> {
    ghost words = { λ _. None };

    fn word(&self, number: usize, room: &mut [u8]) -> Result<usize, FillError> {
        self.environment.arg(number, room)
    }
}

// ---- all words

/// The room for a word that is tried first, in bytes.
const FIRST_ROOM: usize = 256;

/// A word, where there is one of this number and it fits into a room of so many bytes.
fn word_within<P: Process>(
    alloc: Global,
    process: &P,
    number: usize,
    room: usize,
) -> Result<Result<Seq<u8>, FillError>, NoMemory>
    ensures word { IfOk result (IsAnswered (P.words process.now) number room) }
    ensures room { OnOk result (room < 2 ^ 63) }
{
    let mut bytes = Vec::new(alloc);
    bytes.resize(room, 0u8)?;
    match process.word(number, bytes.as_mut_slice()) {
        Ok(count) => {
            bytes.truncate(count);
            Ok(Ok(Seq::from_vec(bytes)))
        }
        Err(error) => Ok(Err(error)),
    }
}

/// The word of this number, or None where there is none. The room for it is doubled up to where the word fits, or where
/// there is no memory for the room.
fn word_at<P: Process>(
    alloc: Global,
    process: &P,
    number: usize,
) -> Result<Option<Seq<u8>>, NoMemory>
    ensures { IfOk result (IsWord (P.words process.now) number) }
{
    let mut room = FIRST_ROOM;
    loop {
        match word_within(alloc, process, number, room)? {
            Ok(word) => return Ok(Some(word)),
            Err(FillError::NotPresent) => return Ok(None),
            Err(FillError::TooLong) => room += room,
        }
    }
}

/// All words of a process, each whole, in their order. An Err says that there was no memory for them.
#[tactic(auto, using(crate::proofs::Told::first_more, crate::proofs::Told::first_all))]
pub fn raw_words<P: Process>(alloc: Global, process: &P) -> Result<Seq<Seq<u8>>, NoMemory>
    ensures { IfOk result (AreWords (P.words process.now)) }
{
    let mut words = Seq::new(alloc);
    while let Some(word) = word_at(alloc, process, words.len())? {
        words.push(word)?;
    }
    Ok(words)
}

// ---- words as texts

/// The words as texts, for `read_words`. The top call answers `NotText` as a refusal of the words.
pub fn texts_of<'a>(alloc: Global, words: &'a [Seq<u8>]) -> Result<Vec<&'a str>, RawError>
    ensures found { IfOk result (λ found.
        AreTexts words.entry.now × (texts found.items ≡ words.entry.now)) }
    ensures refused { IfErr result (HasRawCause words.entry.now) }
{
    let mut found = Vec::new(alloc);
    for word in words {
        match str::from_utf8(word.as_slice()) {
            Ok(text) => found.push(text)?,
            Err(_) => return Err(RawError::NotText),
        }
    }
    Ok(found)
}
