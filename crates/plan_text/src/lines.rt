//! A plan's text, line by line.

ghost use Rattle.std.specs.Prelude.{◌≡◌, ◌<◌, ◌^◌, ℕ, List, Result, map, length, nat_lt, IfOk, false};
ghost use Rattle.plan_text.specs.declared.plan.Plan.{Plan as ThePlan};
ghost use Rattle.plan_text.specs.declared.plan.PlanError.{PlanError as TheError};
ghost use Rattle.std.specs.Option.{option_map};
ghost use Rattle.std.specs.List.{slice_split, list_any};
ghost use Rattle.plan_text.specs.Lines.{UpToMemory, IsPlanRead, IsRead, IsLine, IsSaid, IsWorded};
ghost use Rattle.plan_text.specs.Lines.{IsTimed, IsActed, silent_plan, lines_in, is_feed};
ghost use Rattle.plan_text.specs.Lines.{is_silent as is_silent_line, halves as halves_of};
ghost use Rattle.plan_text.specs.Lines.{word_of as word_said, order_of as order_said};
ghost use Rattle.plan_text.specs.Lines.{without_return as less_return, line_before as line_at};
ghost use Rattle.plan_text.specs.Lines.{with_main as main_said, with_arg as arg_said};
ghost use Rattle.plan_text.specs.Lines.{with_budget as budget_said, with_heap as heap_said};
ghost use Rattle.plan_text.specs.Lines.{with_action as action_said, action_misplaced as misplaced_in};
ghost use Rattle.plan_text.specs.Lines.{selected_after, same_root as are_same};
ghost use Rattle.plan_text.specs.Numbers.{number_of as number_said, heap_of as slots_said};
ghost use Rattle.plan_text.specs.Numbers.{greatest_steps};
ghost use Rattle.plan_text.specs.Bounds.{IsWithin};

use crate::numbers::{heap_of, number_of};
use crate::plan::{Action, LineCause, Plan, PlanError, RootName};
use crate::roots::{name_slashed, read_root};
use jf_bytes::Seq;
use std::alloc::{AllocError, Global};
use text_coding::from_utf8;

/// A text of more bytes is no plan.
const MOST_BYTES: usize = 1_048_576;

/// The greatest budget, and the greatest moment.
const GREATEST_STEPS: u64 = 1_000_000_000_000;

/// So many args and so many actions a plan may have.
const MOST_SAID: usize = 256;

/// The first word of a line, which says how the rest is read.
#[derive(Clone, Copy)]
enum Word {
    Main,
    Arg,
    Budget,
    Heap,
    At,
}

fn word_of(word: &str) -> Option<Word>
    ensures { result ≡ word_said word.now }
{
    match word {
        "main" => Some(Word::Main),
        "arg" => Some(Word::Arg),
        "budget" => Some(Word::Budget),
        "heap" => Some(Word::Heap),
        "at" => Some(Word::At),
        _ => None,
    }
}

/// Whether a root is to be selected or deselected.
fn order_of(word: &str) -> Option<bool>
    ensures { result ≡ order_said word.now }
{
    match word {
        "select" => Some(true),
        "deselect" => Some(false),
        _ => None,
    }
}

/// Whether a line is empty, or a comment.
fn is_silent(line: &str) -> bool
    ensures { result ≡ is_silent_line line.now }
{
    match line.as_bytes() {
        [] => true,
        [first, ..] => *first == b'#',
    }
}

/// What stands before the first space of a line and behind it.
fn halves(line: &str) -> Option<(&str, &str)>
    ensures { option_map (λ parts. (parts.0.now, parts.1.now)) result ≡ halves_of line.now }
{
    line.split_once(' ')
}

/// The plan of no line, also of words that name no plan.
pub fn silent(alloc: Global) -> Plan
    ensures { result ≡ silent_plan }
{
    Plan {
        main: None,
        args: Seq::new(alloc),
        budget: None,
        heap: None,
        actions: Seq::new(alloc),
    }
}

/// The plan with the main class that a line names.
fn with_main(alloc: Global, plan: Plan, number: u32, name: &str) -> Result<Plan, PlanError>
    ensures { UpToMemory result (λ r. r ≡ main_said number plan name.now) }
{
    if name.is_empty() {
        return Err(PlanError::BadLine(number, LineCause::Name));
    }
    if plan.main.is_some() {
        return Err(PlanError::BadLine(number, LineCause::Twice));
    }
    let units = from_utf8(alloc, name)?;
    let mut plan = plan;
    plan.main = Some(name_slashed(alloc, units.units())?);
    Ok(plan)
}

/// The plan with one arg more.
fn with_arg(alloc: Global, plan: Plan, number: u32, text: &str) -> Result<Plan, PlanError>
    ensures { UpToMemory result (λ r. r ≡ arg_said number plan text.now) }
{
    if plan.args.len() >= MOST_SAID {
        return Err(PlanError::TooMany(number));
    }
    let mut plan = plan;
    plan.args.push(from_utf8(alloc, text)?)?;
    Ok(plan)
}

/// The plan with the budget that a line says.
fn with_budget(plan: Plan, number: u32, word: &str) -> Result<Plan, PlanError>
    ensures { result ≡ budget_said number plan (number_said greatest_steps word.now) }
{
    let Some(steps) = number_of(word, GREATEST_STEPS) else {
        return Err(PlanError::BadLine(number, LineCause::Number));
    };
    if plan.budget.is_some() {
        return Err(PlanError::BadLine(number, LineCause::Twice));
    }
    let mut plan = plan;
    plan.budget = Some(steps);
    Ok(plan)
}

/// The plan with the heap that a line says.
fn with_heap(plan: Plan, number: u32, word: &str) -> Result<Plan, PlanError>
    ensures { result ≡ heap_said number plan (slots_said word.now) }
{
    let Some(slots) = heap_of(word) else {
        return Err(PlanError::BadLine(number, LineCause::Number));
    };
    if plan.heap.is_some() {
        return Err(PlanError::BadLine(number, LineCause::Twice));
    }
    let mut plan = plan;
    plan.heap = Some(slots);
    Ok(plan)
}

fn same_root(a: &RootName, b: &RootName) -> bool
    ensures { result ≡ are_same a.now b.now }
{
    a.class.same(&b.class) && a.name.same(&b.name) && a.descriptor.same(&b.descriptor)
}

/// Whether a root is selected behind these actions.
fn is_selected(actions: &[Action], root: &RootName) -> bool
    ensures { result ≡ selected_after false root.now actions.now }
{
    let mut selected = false;
    for i in 0..actions.len() {
        if same_root(&actions[i].root, root) {
            selected = actions[i].select;
        }
    }
    selected
}

/// Whether a moment is below that of one of these actions.
fn is_backwards(actions: &[Action], moment: u64) -> bool
    ensures { result ≡ list_any (λ earlier. nat_lt moment earlier.moment) actions.now }
{
    actions.iter().any(|earlier| moment < earlier.moment)
}

/// Why an action can't follow these ones.
fn action_misplaced(actions: &[Action], number: u32, action: &Action) -> Option<PlanError>
    ensures { result ≡ misplaced_in number actions.now action.now }
{
    if is_backwards(actions, action.moment) {
        return Some(PlanError::Backwards(number));
    }
    let selected = is_selected(actions, &action.root);
    if action.select && selected {
        return Some(PlanError::AlreadySelected(number));
    }
    if !action.select && !selected {
        return Some(PlanError::NotSelected(number));
    }
    if actions.len() >= MOST_SAID {
        return Some(PlanError::TooMany(number));
    }
    None
}

/// The plan with one action more.
fn with_action(plan: Plan, number: u32, action: Action) -> Result<Plan, PlanError>
    ensures { UpToMemory result (λ r. r ≡ action_said number plan action) }
{
    if let Some(fault) = action_misplaced(plan.actions.as_slice(), number, &action) {
        return Err(fault);
    }
    let mut plan = plan;
    plan.actions.push(action)?;
    Ok(plan)
}

/// The plan with an action, for the root that a word names.
fn with_order(
    alloc: Global,
    plan: Plan,
    number: u32,
    moment: &str,
    select: bool,
    word: &str,
) -> Result<Plan, PlanError>
    ensures { let moment = number_said greatest_steps moment.now in
        UpToMemory result (IsActed number plan moment select word.now) }
{
    let Some(moment) = number_of(moment, GREATEST_STEPS) else {
        return Err(PlanError::BadLine(number, LineCause::Number));
    };
    match read_root(alloc, word)? {
        Some(root) => with_action(
            plan,
            number,
            Action {
                moment,
                select,
                root,
            },
        ),
        None => Err(PlanError::BadLine(number, LineCause::Root)),
    }
}

/// The plan with what stands behind `at` and a space.
fn with_moment(alloc: Global, plan: Plan, number: u32, rest: &str) -> Result<Plan, PlanError>
    ensures { UpToMemory result (IsTimed number plan rest.now) }
{
    let Some((moment, rest)) = halves(rest) else {
        return Err(PlanError::BadLine(number, LineCause::Unknown));
    };
    let Some((order, word)) = halves(rest) else {
        return Err(PlanError::BadLine(number, LineCause::Unknown));
    };
    match order_of(order) {
        Some(select) => with_order(alloc, plan, number, moment, select, word),
        None => Err(PlanError::BadLine(number, LineCause::Unknown)),
    }
}

/// The plan with what a word says, and what stands behind it and a space.
fn with_word(
    alloc: Global,
    plan: Plan,
    number: u32,
    word: &str,
    rest: &str,
) -> Result<Plan, PlanError>
    ensures { UpToMemory result (IsWorded number plan (word_said word.now) rest.now) }
{
    match word_of(word) {
        Some(Word::Main) => with_main(alloc, plan, number, rest),
        Some(Word::Arg) => with_arg(alloc, plan, number, rest),
        Some(Word::Budget) => with_budget(plan, number, rest),
        Some(Word::Heap) => with_heap(plan, number, rest),
        Some(Word::At) => with_moment(alloc, plan, number, rest),
        None => Err(PlanError::BadLine(number, LineCause::Unknown)),
    }
}

/// The plan with a line that is a text.
fn with_text(alloc: Global, plan: Plan, number: u32, line: &str) -> Result<Plan, PlanError>
    ensures { UpToMemory result (IsSaid number plan line.now) }
{
    if is_silent(line) {
        return Ok(plan);
    }
    if line == "arg" {
        return with_arg(alloc, plan, number, "");
    }
    match halves(line) {
        Some((word, rest)) => with_word(alloc, plan, number, word, rest),
        None => Err(PlanError::BadLine(number, LineCause::Unknown)),
    }
}

/// The plan with a line.
fn with_line(alloc: Global, plan: Plan, number: u32, line: &[u8]) -> Result<Plan, PlanError>
    ensures { UpToMemory result (IsLine number plan line.now) }
{
    match str::from_utf8(line) {
        Ok(line) => with_text(alloc, plan, number, line),
        Err(_) => Err(PlanError::BadLine(number, LineCause::Utf8)),
    }
}

/// A piece less one byte 13 at its end.
fn without_return(piece: &[u8]) -> &[u8]
    ensures { result.now ≡ less_return piece.now }
{
    if piece.is_empty() || piece[piece.len() - 1] != b'\r' {
        return piece;
    }
    &piece[..piece.len() - 1]
}

/// The line that a piece is, before these other ones.
fn line_before<'a>(piece: &'a [u8], rest: &[&[u8]]) -> &'a [u8]
    ensures { result.now ≡ line_at piece.now (map (λ p. p.now) rest.now) }
{
    if rest.is_empty() {
        piece
    } else {
        without_return(piece)
    }
}

/// The pieces of a text between its bytes 10.
fn pieces_of<'a>(alloc: Global, text: &'a [u8]) -> Result<Vec<&'a [u8]>, AllocError>
    ensures { IfOk result (λ pieces. map (λ p. p.now) pieces.items ≡ slice_split is_feed text.now) }
{
    text.split(|byte| *byte == b'\n').collect(alloc)
}

/// The plan that the lines say, up to the first fault.
fn read_pieces(alloc: Global, pieces: &[&[u8]]) -> Result<Plan, PlanError>
    requires few { length pieces.now < 2 ^ 32 }
    ensures { UpToMemory result (IsRead 1 silent_plan (lines_in (map (λ p. p.now) pieces.now))) }
{
    let mut plan = silent(alloc);
    for at in 0..pieces.len() {
        let line = line_before(pieces[at], &pieces[at + 1..]);
        plan = with_line(alloc, plan, at as u32 + 1, line)?;
    }
    Ok(plan)
}

/// The plan that a text says, or the first line with a fault. A line ends with a line feed, which the last one may
/// lack, and is empty, a comment that begins with `#`, or one of the forms `main NAME`, `arg TEXT`, `arg`, `budget N`,
/// `heap N`, `at N select ROOT` and `at N deselect ROOT`, with single spaces.
///
/// Of a line the first cause is told, in the order of `LineCause`; then that its moment is below an earlier one, then
/// that its root is selected already or is not selected, then that there are 256 args or actions before it.
pub fn read_plan(alloc: Global, bytes: &[u8]) -> Result<Plan, PlanError>
    ensures read { UpToMemory result (IsPlanRead bytes.now) }
    ensures within { IfOk result IsWithin }
{
    if bytes.len() > MOST_BYTES {
        return Err(PlanError::TooLong);
    }
    let pieces = pieces_of(alloc, bytes)?;
    read_pieces(alloc, &pieces)
}

/// A law with nothing to run: a text has one answer.
pub fn answer_is_one()
    ensures { (bytes : List ℕ) (a b : Result ThePlan TheError) →
        IsPlanRead bytes a → IsPlanRead bytes b → a ≡ b }
{}
