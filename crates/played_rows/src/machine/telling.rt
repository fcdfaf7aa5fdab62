//! What a line says of one turn of the machine, and of the ending.

ghost use Rattle.std.specs.Prelude.{◌≡◌, IfOk};
ghost use Rattle.played_rows.specs.Machine.Reading.{ending_said, event_said, turn_said, unverifiable_said};

use crate::machine::names::method_named;
use crate::machine::parts::line_parted;
use crate::machine::words::{kind_of, number_of_16_bits, number_of_64_bits, status_of};
use crate::names::{class_named, classes_in};
use jf_bytes::NoMemory;
use jvm_machine::Turn;
use jvm_model::{Ending, Event, EventKind, Program};
use std::alloc::Global;

/// A turn with its clock.
#[derive(Drop)]
pub struct OneTurn {
    pub turn: Turn,
    pub clock: u64,
}

/// The method and the offset that end a run as unverifiable, by their words.
fn unverifiable(alloc: Global, program: &Program, words: &str) -> Result<Option<Ending>, NoMemory>
    ensures { IfOk result (λ ending. ending ≡ unverifiable_said program.now words.now) }
{
    let (word, offset) = line_parted(words);
    let Some(method) = method_named(alloc, program, word)? else {
        return Ok(None);
    };
    match number_of_16_bits(offset) {
        Some(offset) => Ok(Some(Ending::Unverifiable(method, offset))),
        None => Ok(None),
    }
}

/// The ending that words say.
pub fn ending_of(alloc: Global, program: &Program, words: &str) -> Result<Option<Ending>, NoMemory>
    ensures { IfOk result (λ ending. ending ≡ ending_said program.now words.now) }
{
    let (word, rest) = line_parted(words);
    match word {
        "returned" => Ok(Some(Ending::Returned)),
        "exited" => match status_of(rest) {
            Some(status) => Ok(Some(Ending::Exited(status))),
            None => Ok(None),
        },
        "uncaught" => match class_named(alloc, program, rest)? {
            Some(class) => Ok(Some(Ending::Uncaught(class))),
            None => Ok(None),
        },
        "unverifiable" => unverifiable(alloc, program, rest),
        _ => Ok(None),
    }
}

/// The event of this kind, of the method and at the clock that words say.
fn event(
    alloc: Global,
    program: &Program,
    kind: EventKind,
    words: &str,
) -> Result<Option<OneTurn>, NoMemory>
    ensures { IfOk result (λ told. told ≡ event_said program.now kind words.now) }
{
    let (word, clock) = line_parted(words);
    let Some(method) = method_named(alloc, program, word)? else {
        return Ok(None);
    };
    let Some(clock) = number_of_64_bits(clock) else {
        return Ok(None);
    };
    let turn = Turn::Probe(Event {
        kind,
        method,
        clock,
    });
    Ok(Some(OneTurn { turn, clock }))
}

/// The turn that a line says, where it is one turn: `loaded CLASS..`, `ended CLOCK ..`, `settled CLOCK`, or an event.
pub fn turn_of(
    alloc: Global,
    program: &Program,
    next: u64,
    word: &str,
    rest: &str,
) -> Result<Option<OneTurn>, NoMemory>
    ensures { IfOk result (λ told. told ≡ turn_said program.now next word.now rest.now) }
{
    match word {
        "loaded" => match classes_in(alloc, program, rest)? {
            Some(classes) => Ok(Some(OneTurn {
                turn: Turn::Loaded(classes),
                clock: next,
            })),
            None => Ok(None),
        },
        "ended" => match number_of_64_bits(line_parted(rest).0) {
            Some(clock) => Ok(Some(OneTurn {
                turn: Turn::Ended,
                clock,
            })),
            None => Ok(None),
        },
        "settled" => match number_of_64_bits(line_parted(rest).0) {
            Some(clock) => Ok(Some(OneTurn {
                turn: Turn::Settled,
                clock,
            })),
            None => Ok(None),
        },
        _ => match kind_of(word) {
            Some(kind) => event(alloc, program, kind, rest),
            None => Ok(None),
        },
    }
}
