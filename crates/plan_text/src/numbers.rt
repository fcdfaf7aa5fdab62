//! Numbers in a plan's text.

ghost use Rattle.std.specs.Prelude.{◌≡◌, ◌≤◌, IfSome};
ghost use Rattle.std.specs.List.{list_all};
ghost use Rattle.std.specs.Char.{is_ascii_digit};
ghost use Rattle.plan_text.specs.Numbers.{is_number as is_number_word, number_of as number_said};
ghost use Rattle.plan_text.specs.Numbers.{heap_of as heap_said};

/// The least number of heap slots.
const LEAST_HEAP: u64 = 1024;

/// The greatest number of heap slots.
const GREATEST_HEAP: u64 = 67_108_864;

/// Whether all characters of a word are decimal digits.
fn are_digits(word: &str) -> bool
    ensures { result ≡ list_all is_ascii_digit word.now }
{
    word.as_bytes().iter().all(|byte| byte.is_ascii_digit())
}

/// Whether a word is 1 to 13 decimal digits.
fn is_number(word: &str) -> bool
    ensures { result ≡ is_number_word word.now }
{
    1 <= word.len() && word.len() <= 13 && are_digits(word)
}

/// The number that a word spells, where it is at most so great.
pub fn number_of(word: &str, most: u64) -> Option<u64>
    ensures value { result ≡ number_said most word.now }
    ensures small { IfSome result (λ number. number ≤ most) }
{
    if !is_number(word) {
        return None;
    }
    let Ok(number) = word.parse::<u64>() else {
        return None;
    };
    (number <= most).then_some(number)
}

/// The heap slots that a word spells.
pub fn heap_of(word: &str) -> Option<u32>
    ensures { result ≡ heap_said word.now }
{
    let slots = number_of(word, GREATEST_HEAP)?;
    if slots < LEAST_HEAP {
        return None;
    }
    Some(slots as u32)
}
