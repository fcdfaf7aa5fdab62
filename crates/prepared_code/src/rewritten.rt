//! The version that a method's rewritten code is.

ghost use Rattle.std.specs.Prelude.{◌≡◌, ◌<◌, ◌^◌, length, IfOk};
ghost use Rattle.std.specs.List.Sorted.{IsStrictlyIncreasing};
ghost use Rattle.code_model.specs.Layout.{found_beside};
ghost use Rattle.prepared_code.specs.Rewritten.{homed_line, homed_lines, line_for, own_handlers, own_line, placed_line};
ghost use Rattle.prepared_code.specs.Rewritten.{rewritten_version};

use crate::preparing::{code_line, handlers_of};
use crate::versions::{Catching, PreparedCode, Version};
use code_model::Homes;
use const_pool::{ClassFile, CodeAttribute};
use jf_bytes::{NoMemory, Seq};
use method_versions::Held;
use prepared_lines::{Line, entry_mark};
use std::alloc::Global;

/// What stands beside a number among numbers that rise; it is found by halves.
fn found_beside(numbers: &Seq<u16>, others: &Seq<u16>, wanted: u16) -> Option<u16>
    requires { IsStrictlyIncreasing numbers.now }
    ensures { result ≡ found_beside numbers.now others.now wanted }
{
    match numbers.as_slice().binary_search(&wanted) {
        Ok(at) => others.at(at),
        Err(_) => None,
    }
}

/// A line with its offset in the original code.
fn own_line(line: Line, own: u16) -> Line
    ensures { result ≡ own_line own line }
{
    let mut line = line;
    line.instr.at = own;
    line
}

/// The line at a place of rewritten code, with its offset in the original code.
fn line_at_place(
    alloc: Global,
    image: &ClassFile,
    code: &[u8],
    place: u16,
    own: u16,
) -> Result<Option<Line>, NoMemory>
    requires { length code.now < 2 ^ 16 }
    ensures { IfOk result (λ line. line ≡ placed_line image.now code.now place own) }
{
    match code_line(alloc, image, code, place)? {
        Some(line) => Ok(Some(own_line(line, own))),
        None => Ok(None),
    }
}

/// What goes with an offset of the original code, which has so many bytes.
fn line_for(
    alloc: Global,
    image: &ClassFile,
    code: &[u8],
    homes: &Homes,
    len: u16,
    at: u16,
) -> Result<Option<Line>, NoMemory>
    requires short { length code.now < 2 ^ 16 }
    requires starts { IsStrictlyIncreasing homes.now.from }
    ensures { IfOk result (λ line. line ≡ line_for image.now code.now homes.now len at) }
{
    if at >= len {
        return Ok(None);
    }
    match found_beside(&homes.from, &homes.place, at) {
        Some(place) => line_at_place(alloc, image, code, place, at),
        None => Ok(None),
    }
}

/// The line at a home.
fn homed_line(
    alloc: Global,
    image: &ClassFile,
    code: &[u8],
    homes: &Homes,
    len: u16,
    home: u16,
) -> Result<Option<Line>, NoMemory>
    requires short { length code.now < 2 ^ 16 }
    requires starts { IsStrictlyIncreasing homes.now.from }
    requires homes { IsStrictlyIncreasing homes.now.home }
    ensures { IfOk result (λ line. line ≡ homed_line image.now code.now homes.now len home) }
{
    match found_beside(&homes.home, &homes.from, home) {
        Some(at) => line_for(alloc, image, code, homes, len, at),
        None => Ok(None),
    }
}

/// The line at each home.
fn homed_lines(
    alloc: Global,
    image: &ClassFile,
    code: &[u8],
    homes: &Homes,
    len: u16,
) -> Result<Seq<Option<Line>>, NoMemory>
    requires short { length code.now < 2 ^ 16 }
    requires starts { IsStrictlyIncreasing homes.now.from }
    requires homes { IsStrictlyIncreasing homes.now.home }
    ensures { IfOk result (λ lines. lines ≡ homed_lines image.now code.now homes.now len) }
{
    let mut lines = Seq::with_capacity(alloc, code.len())?;
    for home in 0..code.len() as u16 {
        let line = homed_line(alloc, image, code, homes, len, home)?;
        lines.push(line)?;
    }
    Ok(lines)
}

/// All handlers but the last one.
fn own_handlers(handlers: Seq<Catching>) -> Seq<Catching>
    ensures { result ≡ own_handlers handlers }
{
    let mut own = handlers;
    let count = own.len();
    if count > 0 {
        own.truncate(count - 1);
    }
    own
}

/// Prepares the rewritten code of a method; the original code has so many bytes.
pub fn rewritten_version(
    alloc: Global,
    method: u32,
    image: &ClassFile,
    code: &CodeAttribute,
    homes: &Homes,
    len: u16,
) -> Result<Version, NoMemory>
    requires short { length code.now.code < 2 ^ 16 }
    requires starts { IsStrictlyIncreasing homes.now.from }
    requires homes { IsStrictlyIncreasing homes.now.home }
    ensures { IfOk result (λ version. version
        ≡ rewritten_version method image.now code.now homes.now len) }
{
    let mark = entry_mark(alloc, image, code.code.as_slice())?;
    let handlers = handlers_of(alloc, image, code.handlers.as_slice())?;
    let lines = homed_lines(alloc, image, code.code.as_slice(), homes, len)?;
    Ok(Held {
        method,
        prepared: PreparedCode {
            has_lines: true,
            mark,
            first: homes.home_of(0),
            lines,
            handlers: own_handlers(handlers),
        },
    })
}
