//! What the words say, and which of them are refused.

ghost use Rattle.std.specs.Prelude.{◌≡◌, ◌≤◌, codes, map, IfOk, IfSome};
ghost use Rattle.std.specs.Option.{option_map};
ghost use Rattle.clap.specs.Words.{found_of, rows_of, all_of, first_of, kind_of};
ghost use Rattle.command_line.specs.Reading.{IsAccepted, IsMatched, IsRefusal, given_in};
ghost use Rattle.command_line.specs.Words.{IsRead, IsSound, budget_said, class_said, files_in};
ghost use Rattle.command_line.specs.Words.{is_used};
ghost use Rattle.command_line.specs.Words.{read_in, said_in, text, texts};
ghost use Rattle.command_line.specs.Words.{has_bad_budget as bad_budget, has_bad_files as bad_files};
ghost use Rattle.command_line.specs.Words.{has_two_plans as two_plans, is_refused as refused};
ghost use Rattle.command_line.specs.Words.{has_bad_count as bad_count, has_half as half};
ghost use Rattle.command_line.specs.Words.{has_bad_generation as bad_generation, has_bad_seed as bad_seed};
ghost use Rattle.command_line.specs.Words.{has_bad_run as bad_run, has_bad_size as bad_size};
ghost use Rattle.command_line.specs.Words.{has_two_mains as two_mains, main_said};
ghost use Rattle.command_line.specs.Words.{generation_said, greatest_size, size_of as size_spelled};
ghost use Rattle.command_line.specs.Words.{lacks_main as no_main};
ghost use Rattle.command_line.specs.declared.words.WordsError.TheVariants.{NoMemory as out_of_memory};

use crate::described::command_described;
use clap::error::ErrorKind;
use clap::{ArgMatches, Error as ClapError};
use jf_bytes::{NoMemory, Text16};
use plan_text::{name_slashed, number_of};
use std::alloc::{AllocError, AllocFailed, Global};
use std::convert::AsStr;
use text_coding::from_utf8;
use thiserror::Error;

/// So many files a command may have.
const MOST_FILES: usize = 1024;

/// The greatest budget.
const GREATEST_BUDGET: u64 = 1_000_000_000_000;

/// The greatest seed.
const GREATEST_SEED: u64 = 2_147_483_647;

/// The greatest size of a generated program.
const GREATEST_SIZE: u64 = 200;

/// The main class of a generated program.
const GENERATED_MAIN: &str = "GenMain";

/// Of what a program is generated.
#[derive(Clone, Copy, Debug, PartialEq, Eq)]
pub struct Generation {
    /// 0 to 2,147,483,647.
    pub seed: u32,
    /// How many classes there are beside the main class, 1 to 200.
    pub size: u32,
}

/// What accepted words say. A root and a plan are never there together, one of main and plan is, and there are 1 to
/// 1,024 files, unless the program is generated: then there is none, and its main class is GenMain.
#[derive(Debug, Drop)]
pub struct Words<'a> {
    /// The main class in its internal form (JVM Specification 4.2.1).
    pub main: Option<Text16>,
    /// The word that names the method to profile.
    pub root: Option<&'a str>,
    /// The most steps.
    pub budget: Option<u64>,
    /// The name of the plan's file.
    pub plan: Option<&'a str>,
    /// Of what the program is generated, if it is.
    pub generated: Option<Generation>,
    /// Whether each image is put.
    pub images: bool,
    /// The names of the class files, in the order of the words.
    pub files: Vec<&'a str>,
}

/// Why words are not accepted.
#[derive(Debug, Drop, Error)]
pub enum WordsError {
    /// clap refuses them, or they ask for help. The text is for the user.
    #[error("{0}")]
    Clap(String),
    /// clap takes them, and a rule of the program's own refuses them.
    #[error("words refused")]
    Refused,
    #[error("no memory")]
    NoMemory,
}

impl From<AllocError> for WordsError {
    ghost from_gives = { λ _ e. e ≡ out_of_memory };

    fn from(_error: AllocError) -> WordsError {
        WordsError::NoMemory
    }
}

impl<T: Drop> From<AllocFailed<T>> for WordsError {
    ghost from_gives = { λ _ e. e ≡ out_of_memory };

    fn from(_error: AllocFailed<T>) -> WordsError {
        WordsError::NoMemory
    }
}

impl From<NoMemory> for WordsError {
    ghost from_gives = { λ _ e. e ≡ out_of_memory };

    fn from(_error: NoMemory) -> WordsError {
        WordsError::NoMemory
    }
}

/// The values that clap found, as they stand in the words.
#[derive(Debug, Drop)]
struct FoundValues<'a> {
    main: Option<&'a str>,
    root: Option<&'a str>,
    budget: Option<&'a str>,
    plan: Option<&'a str>,
    seed: Option<&'a str>,
    size: Option<&'a str>,
    images: bool,
    files: Vec<&'a str>,
}

/// What is told of clap's refusal.
fn refusal(alloc: Global, error: &ClapError) -> WordsError
    ensures { IsRefusal (kind_of error.now) result }
{
    if matches!(error.kind(), ErrorKind::OutOfMemory) {
        return WordsError::NoMemory;
    }
    match error.to_string(alloc) {
        Ok(text) => WordsError::Clap(text),
        Err(_) => WordsError::NoMemory,
    }
}

/// What clap makes of the words.
fn matches_of<'a, S: AsStr>(alloc: Global, words: &'a [S]) -> Result<ArgMatches<'a>, WordsError>
    ensures { IsMatched (map S.text words.entry.now) result }
{
    let command = command_described(alloc)?;
    match command.try_get_matches_from(words) {
        Ok(matches) => Ok(matches),
        Err(error) => Err(refusal(alloc, &error)),
    }
}

/// The value of an option.
#[tactic(auto, using(crate::proofs::Found::first_in_rows))]
fn value_of<'a>(matches: &ArgMatches<'a>, name: &str) -> Option<&'a str>
    ensures { text result ≡ first_of name.now (rows_of (found_of matches.now)) }
{
    matches.get_str(name)
}

/// Whether a flag is given. clap has the word true for it then, else the word false.
fn is_given(matches: &ArgMatches<'_>, name: &str) -> bool
    ensures { result ≡ is_used (first_of name.now (rows_of (found_of matches.now))) }
{
    match value_of(matches, name) {
        Some(value) => value == "true",
        None => false,
    }
}

/// The files, where there are any.
#[tactic(auto, using(crate::proofs::Found::all_in_rows))]
fn found_files<'m, 'a>(matches: &'m ArgMatches<'a>) -> Option<&'m [&'a str]>
    ensures { option_map (λ files. texts files.now) result
        ≡ all_of (codes "FILE") (rows_of (found_of matches.entry.now)) }
{
    matches.get_strs("FILE")
}

/// The files among the words.
fn files_of<'a>(alloc: Global, matches: &ArgMatches<'a>) -> Result<Vec<&'a str>, AllocError>
    ensures { IfOk result (λ files.
        texts files.items ≡ files_in (rows_of (found_of matches.now))) }
{
    match found_files(matches) {
        Some(files) => Vec::from_slice(alloc, files),
        None => Ok(Vec::new(alloc)),
    }
}

/// The values that clap found.
fn given_by<'a>(alloc: Global, matches: &ArgMatches<'a>) -> Result<FoundValues<'a>, AllocError>
    ensures { IfOk result (λ given. given_in given ≡ said_in (rows_of (found_of matches.now))) }
{
    let files = files_of(alloc, matches)?;
    Ok(FoundValues {
        main: value_of(matches, "main"),
        root: value_of(matches, "root"),
        budget: value_of(matches, "budget"),
        plan: value_of(matches, "plan"),
        seed: value_of(matches, "gen"),
        size: value_of(matches, "size"),
        images: is_given(matches, "images"),
        files,
    })
}

/// Whether a root and a plan are given. A root is a plan of its own.
fn has_two_plans(given: &FoundValues<'_>) -> bool
    ensures { result ≡ two_plans (given_in given.now) }
{
    given.root.is_some() && given.plan.is_some()
}

/// Whether there is no file, or too many.
fn has_bad_count(given: &FoundValues<'_>) -> bool
    ensures { result ≡ bad_count (given_in given.now) }
{
    given.files.is_empty() || given.files.len() > MOST_FILES
}

/// Whether there are files of a generated program, or else no file, or too many.
fn has_bad_files(given: &FoundValues<'_>) -> bool
    ensures { result ≡ bad_files (given_in given.now) }
{
    if given.seed.is_some() {
        !given.files.is_empty()
    } else {
        has_bad_count(given)
    }
}

/// Whether the word for the budget is no number, or too great.
fn has_bad_budget(given: &FoundValues<'_>) -> bool
    ensures { result ≡ bad_budget (given_in given.now) }
{
    match given.budget {
        Some(word) => number_of(word, GREATEST_BUDGET).is_none(),
        None => false,
    }
}

/// The main class as it is named; that of a generated program has a name of its own.
fn main_of<'a>(given: &FoundValues<'a>) -> Option<&'a str>
    ensures { text result ≡ main_said (given_in given.now) }
{
    match given.seed {
        Some(_) => Some(GENERATED_MAIN),
        None => given.main,
    }
}

/// Whether no word names a main class, and there is no plan that could.
fn lacks_main(given: &FoundValues<'_>) -> bool
    ensures { result ≡ no_main (given_in given.now) }
{
    main_of(given).is_none() && given.plan.is_none()
}

/// Whether a rule for every program refuses the words.
fn has_bad_run(given: &FoundValues<'_>) -> bool
    ensures { result ≡ bad_run (given_in given.now) }
{
    has_two_plans(given) || has_bad_files(given) || has_bad_budget(given) || lacks_main(given)
}

// ---- generated programs

/// The size that a word spells.
fn size_of(word: &str) -> Option<u64>
    ensures value { result ≡ size_spelled word.now }
    ensures small { IfSome result (λ size. size ≤ greatest_size) }
{
    let size = number_of(word, GREATEST_SIZE)?;
    if 1 <= size { Some(size) } else { None }
}

/// Whether the word for the seed is no number, or too great.
fn has_bad_seed(given: &FoundValues<'_>) -> bool
    ensures { result ≡ bad_seed (given_in given.now) }
{
    match given.seed {
        Some(word) => number_of(word, GREATEST_SEED).is_none(),
        None => false,
    }
}

/// Whether the word for the size is no number, 0, or too great.
fn has_bad_size(given: &FoundValues<'_>) -> bool
    ensures { result ≡ bad_size (given_in given.now) }
{
    match given.size {
        Some(word) => size_of(word).is_none(),
        None => false,
    }
}

/// Whether one of seed and size is given without the other.
fn has_half(given: &FoundValues<'_>) -> bool
    ensures { result ≡ half (given_in given.now) }
{
    given.seed.is_some() && given.size.is_none() || given.seed.is_none() && given.size.is_some()
}

/// Whether the main class of a generated program is named.
fn has_two_mains(given: &FoundValues<'_>) -> bool
    ensures { result ≡ two_mains (given_in given.now) }
{
    given.seed.is_some() && given.main.is_some()
}

/// Whether a rule for generated programs refuses the words.
fn has_bad_generation(given: &FoundValues<'_>) -> bool
    ensures { result ≡ bad_generation (given_in given.now) }
{
    has_half(given) || has_two_mains(given) || has_bad_seed(given) || has_bad_size(given)
}

/// Of what the words generate a program.
fn generation_of(seed: Option<&str>, size: Option<&str>) -> Option<Generation>
    ensures { result ≡ generation_said (text seed.entry) (text size.entry) }
{
    let seed = number_of(seed?, GREATEST_SEED)?;
    let size = size_of(size?)?;
    Some(Generation {
        seed: seed as u32,
        size: size as u32,
    })
}

// ---- what is read

/// Whether a rule of the program's own refuses the words.
fn is_refused(given: &FoundValues<'_>) -> bool
    ensures { result ≡ refused (given_in given.now) }
{
    has_bad_run(given) || has_bad_generation(given)
}

/// The main class that a word names, with slashes for dots.
fn class_of(alloc: Global, word: Option<&str>) -> Result<Option<Text16>, NoMemory>
    ensures { IfOk result (λ class. class ≡ class_said (text word.entry)) }
{
    let Some(word) = word else {
        return Ok(None);
    };
    let name = from_utf8(alloc, word)?;
    Ok(Some(name_slashed(alloc, name.units())?))
}

/// The budget that a word spells.
fn budget_of(word: Option<&str>) -> Option<u64>
    ensures { result ≡ budget_said (text word.entry) }
{
    number_of(word?, GREATEST_BUDGET)
}

/// What is read of words that clap takes.
#[tactic(auto, using(crate::proofs::Sound::sound))]
fn words_accepted<'a>(alloc: Global, given: FoundValues<'a>) -> Result<Words<'a>, WordsError>
    ensures answer { IsAccepted (given_in given.entry) result }
    ensures sound { IfOk result (λ words. IsSound (read_in words)) }
{
    if is_refused(&given) {
        return Err(WordsError::Refused);
    }
    let main = class_of(alloc, main_of(&given))?;
    Ok(Words {
        main,
        root: given.root,
        budget: budget_of(given.budget),
        plan: given.plan,
        generated: generation_of(given.seed, given.size),
        images: given.images,
        files: given.files,
    })
}

/// Reads the words, of which the first is the program's name: `[--main M] [--root R] [--budget N] [--plan P] [--images]
/// [--gen SEED --size N] [FILE...]`, as clap takes options with one value each, a flag, and any number of files.
///
/// Of the words that clap takes, those are refused that have `--root` and `--plan`, no file or more than 1,024, a
/// budget that is not 1 to 13 digits or is above 1,000,000,000,000, or neither `--main` nor `--plan`. With `--plan`
/// alone only the plan can name the main class, so `command_of` decides once it was read.
///
/// With `--gen` a program is generated, whose main class is GenMain. Then there is `--size`, which is not there without
/// it, and no file and no `--main`; the seed is a number of 1 to 13 digits of at most 2,147,483,647, and the size one
/// from 1 to 200.
pub fn read_words<'a, S: AsStr>(alloc: Global, words: &'a [S]) -> Result<Words<'a>, WordsError>
    ensures read { IsRead (map S.text words.entry.now) result }
    ensures sound { IfOk result (λ words. IsSound (read_in words)) }
{
    let matches = matches_of(alloc, words)?;
    let given = given_by(alloc, &matches)?;
    words_accepted(alloc, given)
}
