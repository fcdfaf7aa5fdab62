//! A word that names a method: class, dot, method name, descriptor.

ghost use Rattle.std.specs.Prelude.{◌≡◌, ◌<◌, length, position, IfOk, MatchOption};
ghost use Rattle.plan_text.specs.Roots.{last_dot as last_dot_of, root_at, root_in, is_open, IsRoot, IsNoRoot};
ghost use Rattle.plan_text.specs.Roots.{name_slashed as with_slashes};

use crate::plan::RootName;
use const_pool::{DescriptorError, parse_method};
use jf_bytes::{NoMemory, Text16};
use std::alloc::Global;
use text_coding::from_utf8;

/// `.`, which divides the parts of a class name, and the class from the method.
const DOT: u16 = 46;

/// `(`, with which a descriptor begins.
const OPEN: u16 = 40;

const SLASH: u16 = 47;

/// The place of the last dot.
fn last_dot(units: &[u16]) -> Option<usize>
    ensures { result ≡ last_dot_of units.now }
{
    let mut last = None;
    for i in 0..units.len() {
        if units[i] == DOT {
            last = Some(i);
        }
    }
    last
}

/// A class name in its internal form, with slashes for dots (JVM Specification 4.2.1).
pub fn name_slashed(alloc: Global, units: &[u16]) -> Result<Text16, NoMemory>
    ensures { IfOk result (λ text. text ≡ with_slashes units.now) }
{
    let slashed = units
        .iter()
        .map(|unit| if *unit == DOT { SLASH } else { *unit })
        .collect(alloc)?;
    Ok(Text16::new(slashed))
}

/// A text of its own with these units.
fn text_of(alloc: Global, units: &[u16]) -> Result<Text16, NoMemory>
    ensures { IfOk result (λ text. text ≡ units.now) }
{
    Ok(Text16::new(Vec::from_slice(alloc, units)?))
}

/// The parts of a word whose descriptor begins at `opening`, and whose last dot before it is at `dot`.
fn divide(
    alloc: Global,
    units: &[u16],
    opening: usize,
    dot: usize,
) -> Result<Option<RootName>, NoMemory>
    requires dot { dot < opening }
    requires within { opening < length units.now }
    ensures { IfOk result (λ root. root ≡ root_at units.now opening dot) }
{
    if dot == 0 || dot + 1 == opening {
        return Ok(None);
    }
    Ok(Some(RootName {
        class: name_slashed(alloc, &units[..dot])?,
        name: text_of(alloc, &units[dot + 1..opening])?,
        descriptor: text_of(alloc, &units[opening..])?,
    }))
}

/// The place of the first `(`.
fn first_opening(units: &[u16]) -> Option<usize>
    ensures { result ≡ position is_open units.now }
{
    units.iter().position(|unit| *unit == OPEN)
}

/// The parts of a word, where it has them.
fn root_of(alloc: Global, units: &[u16]) -> Result<Option<RootName>, NoMemory>
    ensures { IfOk result (λ root. root ≡ root_in units.now) }
{
    let Some(opening) = first_opening(units) else {
        return Ok(None);
    };
    match last_dot(&units[..opening]) {
        Some(dot) => divide(alloc, units, opening, dot),
        None => Ok(None),
    }
}

/// The method that a word names: class, dot, method name, descriptor, of which the last dot before the first `(`
/// divides. None where the word is no such thing.
pub fn read_root(alloc: Global, word: &str) -> Result<Option<RootName>, NoMemory>
    ensures { IfOk result (λ root. MatchOption root (IsNoRoot word.now) (IsRoot word.now)) }
{
    let units = from_utf8(alloc, word)?;
    let Some(root) = root_of(alloc, units.units())? else {
        return Ok(None);
    };
    match parse_method(alloc, &root.descriptor) {
        Ok(_) => Ok(Some(root)),
        Err(DescriptorError::BadDescriptor(_)) => Ok(None),
        Err(DescriptorError::NoMemory) => Err(NoMemory),
    }
}
