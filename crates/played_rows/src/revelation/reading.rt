//! Reads what a row says: `WORD.. => MARKED.. | CLASS..`.

ghost use Rattle.std.specs.Prelude.{◌≡◌, ◌++◌, map, Some, None, IfOk, if◌then◌else◌};
ghost use Rattle.std.specs.Option.{option_map};
ghost use Rattle.jf_bytes.specs.Unicode.{utf16_of};
ghost use Rattle.played_rows.specs.declared.revelation.item.Happening.TheVariants.{Loaded as class_loaded};
ghost use Rattle.played_rows.specs.declared.revelation.item.Item.TheVariants.{Happens};
ghost use Rattle.played_rows.specs.Revelation.Reading.{IsHalved, IsRead, begins_item, due_items, happening_said};
ghost use Rattle.played_rows.specs.Revelation.Reading.{marks_with, method_item, methods_called, no_marks as none_marked, verb_item};
ghost use Rattle.played_rows.specs.Revelation.Reading.{with_mark, word_item, word_items};

use crate::finding::{LookUp, find_all};
use crate::names::classes_in;
use crate::revelation::item::{Fact, Happening, Item};
use crate::revelation::names::{MethodNames, method_named};
use crate::words::{split_at_first, words_in};
use jf_bytes::{NoMemory, Seq};
use jvm_model::{Mark, Program};
use std::alloc::Global;
use text_coding::from_utf8;

/// How often `again` enters a method.
const AGAIN: u32 = 10_000_000;

// ---- what must be the case

/// No method is marked.
fn no_marks(alloc: Global, program: &Program) -> Result<Vec<Mark>, NoMemory>
    ensures { IfOk result (λ marks. marks.items ≡ none_marked program.now) }
{
    let mut marks = Vec::new(alloc);
    for _place in program.methods.as_slice() {
        marks.push(Mark::Off)?;
    }
    Ok(marks)
}

/// Marks the method that a word names, as a root where a `!` is behind its name. Whether there is
/// one.
fn mark_one(
    alloc: Global,
    marks: &mut Vec<Mark>,
    program: &Program,
    word: &str,
) -> Result<bool, NoMemory>
    ensures { IfOk result (λ is. with_mark program.now marks.old.items word.now
        ≡ if is then Some marks.new.items else None) }
{
    let (name, _) = split_at_first(word, '!');
    let mark = if name.len() == word.len() {
        Mark::Plain
    } else {
        Mark::Root
    };
    let Some(method) = method_named(alloc, program, name)? else {
        return Ok(false);
    };
    if method as usize >= marks.len() {
        return Ok(false);
    }
    marks[method as usize] = mark;
    Ok(true)
}

/// The marks of all methods, where those that these words name are marked.
fn marks_of(alloc: Global, program: &Program, words: &[&str]) -> Result<Option<Seq<Mark>>, NoMemory>
    ensures { IfOk result (λ found.
        found ≡ marks_with program.now (none_marked program.now) (map (λ w. w.now) words.now)) }
{
    let mut marks = no_marks(alloc, program)?;
    for word in words {
        let is_marked = mark_one(alloc, &mut marks, program, word)?;
        if !is_marked {
            return Ok(None);
        }
    }
    Ok(Some(Seq::from_vec(marks)))
}

// ---- what happens

/// What happens to a method.
fn happening_of(verb: &str, method: u32) -> Option<Happening>
    ensures { result ≡ happening_said verb.now method }
{
    match verb {
        "enter" => Some(Happening::Entered(method, 1)),
        "again" => Some(Happening::Entered(method, AGAIN)),
        "select" => Some(Happening::Selected(method)),
        "deselect" => Some(Happening::Deselected(method)),
        _ => None,
    }
}

/// What a verb and the name of a method say.
fn item_of(verb: &str, method: u32) -> Option<Item>
    ensures { result ≡ method_item verb.now method }
{
    match verb {
        "selected" => Some(Item::Is(Fact::IsSelected(method, true))),
        "unselected" => Some(Item::Is(Fact::IsSelected(method, false))),
        _ => Some(Item::Happens(happening_of(verb, method)?)),
    }
}

/// A class that is loaded.
fn item_loaded(alloc: Global, name: &str) -> Result<Option<Item>, NoMemory>
    ensures { IfOk result (λ item.
        item ≡ Some (Happens (class_loaded (utf16_of name.now)))) }
{
    Ok(Some(Item::Happens(Happening::Loaded(from_utf8(alloc, name)?))))
}

/// The numbers of the methods that the words of a text name, between commas.
fn methods_in(alloc: Global, program: &Program, text: &str) -> Result<Option<Seq<u32>>, NoMemory>
    ensures { IfOk result (λ found. found ≡ methods_called program.now text.now) }
{
    let words = words_in(alloc, text, ',')?;
    find_all(alloc, &MethodNames { program }, &words)
}

/// The methods that a method can begin: `begins:METHOD=METHOD,..`.
fn begins(alloc: Global, program: &Program, words: &str) -> Result<Option<Item>, NoMemory>
    ensures { IfOk result (λ item. item ≡ begins_item program.now words.now) }
{
    let (name, targets) = split_at_first(words, '=');
    let Some(method) = method_named(alloc, program, name)? else {
        return Ok(None);
    };
    match methods_in(alloc, program, targets)? {
        Some(methods) => Ok(Some(Item::Is(Fact::Begins(method, methods)))),
        None => Ok(None),
    }
}

/// What a verb says, and what stands behind its colon: a class or a method, for most of them.
fn read_verb(
    alloc: Global,
    program: &Program,
    verb: &str,
    name: &str,
) -> Result<Option<Item>, NoMemory>
    ensures { IfOk result (λ item. item ≡ verb_item program.now verb.now name.now) }
{
    match verb {
        "load" => item_loaded(alloc, name),
        "begins" => begins(alloc, program, name),
        "quiet" => Ok(Some(Item::Happens(Happening::Quiet))),
        "show" => Ok(Some(Item::Happens(Happening::Shown))),
        "any_selected" => Ok(Some(Item::Is(Fact::SelectsAny(true)))),
        "none_selected" => Ok(Some(Item::Is(Fact::SelectsAny(false)))),
        _ => match method_named(alloc, program, name)? {
            Some(method) => Ok(item_of(verb, method)),
            None => Ok(None),
        },
    }
}

fn read_word(alloc: Global, program: &Program, word: &str) -> Result<Option<Item>, NoMemory>
    ensures { IfOk result (λ item. item ≡ word_item program.now word.now) }
{
    let (verb, name) = split_at_first(word, ':');
    read_verb(alloc, program, verb, name)
}

// ---- rows

/// What the words of a row say, over a program.
#[derive(Drop)]
struct RowWords<'a> {
    program: &'a Program,
}

impl<'a> LookUp for RowWords<'a> {
    type Found = Item;

    ghost found = { λ words word. word_item words.program.now word };

    fn find(&self, alloc: Global, word: &str) -> Result<Option<Item>, NoMemory> {
        read_word(alloc, self.program, word)
    }
}

/// What the words of a text say, where each says something.
fn read_words(alloc: Global, program: &Program, words: &str) -> Result<Option<Seq<Item>>, NoMemory>
    ensures { IfOk result (λ found. found ≡ word_items program.now words.now) }
{
    let words = words_in(alloc, words, ' ')?;
    find_all(alloc, &RowWords { program }, &words)
}

/// Adds which marks there must be, and which classes must have others than those that were shown.
fn with_due(
    alloc: Global,
    program: &Program,
    items: Seq<Item>,
    due: &str,
) -> Result<Option<Seq<Item>>, NoMemory>
    ensures { IfOk result (λ found.
        found ≡ option_map (λ more. items ++ more) (due_items program.now due.now)) }
{
    let (marked, changed) = split_at_first(due, '|');
    let marked = words_in(alloc, marked, ' ')?;
    let Some(marks) = marks_of(alloc, program, &marked)? else {
        return Ok(None);
    };
    let Some(classes) = classes_in(alloc, program, changed)? else {
        return Ok(None);
    };
    let mut items = items;
    items.push(Item::Is(Fact::Marks(marks)))?;
    items.push(Item::Is(Fact::Changed(classes)))?;
    Ok(Some(items))
}

/// What stands before the first `=>` of a row, and behind it.
fn halves(row: &str) -> Option<(&str, &str)>
    ensures { IsHalved row.now (option_map (λ parts. (parts.0.now, parts.1.now)) result) }
{
    row.split_once("=>")
}

/// What a row says, where each of its words says something.
pub fn read_row(alloc: Global, program: &Program, row: &str) -> Result<Option<Seq<Item>>, NoMemory>
    ensures { IfOk result (IsRead program.now row.now) }
{
    match halves(row) {
        Some((words, due)) => match read_words(alloc, program, words)? {
            Some(items) => with_due(alloc, program, items, due),
            None => Ok(None),
        },
        None => read_words(alloc, program, row),
    }
}
