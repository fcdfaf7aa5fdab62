//! The lines of a text, the words of a line, and how long a text may be.

ghost use Rattle.std.specs.Prelude.{◌≡◌, ◌++◌, ◌<◌, map, IfOk, OnOk};
ghost use Rattle.std.specs.Str.Lines.{lines};
ghost use Rattle.played_rows.specs.Words.{front_of, rest_after, word_said, words_in};

use jf_bytes::NoMemory;
use std::alloc::{AllocError, Global};

/// The greatest length of a file that a row names: none comes near it.
pub const MOST: usize = 67_108_864;

/// The lines of a text.
pub fn lines_of<'a>(alloc: Global, text: &'a str) -> Result<Vec<&'a str>, AllocError>
    ensures { IfOk result (λ all. map (λ line. line.now) all.items ≡ lines text.now) }
{
    text.lines().collect(alloc)
}

/// What stands before the first such character of a text, and behind it.
pub fn split_at_first(text: &str, separator: char) -> (&str, &str)
    requires { separator < 128 }
    ensures first { result.0.now ≡ front_of separator text.now }
    ensures rest { result.1.now ≡ rest_after separator text.now }
{
    match text.split_once(separator) {
        Some(parts) => parts,
        None => (text, ""),
    }
}

/// Adds a word that is not empty.
fn add_word<'a>(words: &mut Vec<&'a str>, word: &'a str) -> Result<(), NoMemory>
    ensures { OnOk result (map (λ w. w.now) words.new.items
        ≡ map (λ w. w.now) words.old.items ++ word_said word.entry.now) }
{
    if !word.is_empty() {
        words.push(word)?;
    }
    Ok(())
}

/// The words of a text between such characters.
pub fn words_in<'a>(alloc: Global, text: &'a str, separator: char) -> Result<Vec<&'a str>, NoMemory>
    requires { separator < 128 }
    ensures { IfOk result (λ words.
        map (λ w. w.now) words.items ≡ words_in separator text.entry.now) }
{
    let mut words = Vec::new(alloc);
    let mut rest = text;
    while let Some((word, more)) = rest.split_once(separator) {
        add_word(&mut words, word)?;
        rest = more;
    }
    add_word(&mut words, rest)?;
    Ok(words)
}
