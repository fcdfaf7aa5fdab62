//! What the words say of a class file.

ghost use Rattle.std.specs.Char.{is_ascii_digit};
ghost use Rattle.std.specs.Prelude.{◌≡◌, ◌≤◌, IfOk, IfSome};
ghost use Rattle.std.specs.List.{list_all};
ghost use Rattle.class_image.specs.Words.{is_number_word, first_said, mark_said, marks_said};

use jf_bytes::{NoMemory, Seq};
use jvm_model::Mark;
use std::alloc::Global;

/// The greatest number of a class's first method with Code that is taken.
const MOST: u64 = 2_147_418_112;

/// Whether all characters of a word are decimal digits.
fn are_digits(word: &str) -> bool
    ensures { result ≡ list_all is_ascii_digit word.now }
{
    word.as_bytes().iter().all(|byte| byte.is_ascii_digit())
}

/// Whether a word is 1 to 13 decimal digits.
fn is_number(word: &str) -> bool
    ensures { result ≡ is_number_word word.now }
{
    1 <= word.len() && word.len() <= 13 && are_digits(word)
}

/// The number that a word spells.
pub(crate) fn first_of(word: &str) -> Option<u32>
    ensures number { result ≡ first_said word.now }
    ensures most { IfSome result (λ first. first ≤ 2147418112) }
{
    if !is_number(word) {
        return None;
    }
    let Ok(number) = word.parse::<u64>() else {
        return None;
    };
    if number <= MOST {
        Some(number as u32)
    } else {
        None
    }
}

/// The mark that a letter stands for.
fn mark_of(letter: u8) -> Option<Mark>
    ensures { result ≡ mark_said letter }
{
    match letter {
        b'O' => Some(Mark::Off),
        b'P' => Some(Mark::Plain),
        b'R' => Some(Mark::Root),
        _ => None,
    }
}

/// The marks that a word stands for, or None where one of its letters stands for none.
pub(crate) fn marks_of(alloc: Global, word: &str) -> Result<Option<Seq<Mark>>, NoMemory>
    ensures { IfOk result (λ marks. marks ≡ marks_said word.now) }
{
    let mut marks = Seq::new(alloc);
    for letter in word.as_bytes() {
        match mark_of(*letter) {
            Some(mark) => marks.push(mark)?,
            None => return Ok(None),
        }
    }
    Ok(Some(marks))
}
