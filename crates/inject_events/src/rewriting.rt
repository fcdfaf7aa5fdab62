//! The version of a method's Code (JVM Specification 4.7.3): its code with probes, its handlers, and its tables.

ghost use Rattle.std.specs.Prelude.{◌≡◌, ◌<◌, ◌≤◌, length, None, IfOk, nat_le};
ghost use Rattle.std.specs.List.{flat_map};
ghost use Rattle.std.specs.List.Sorted.{IsStrictlyIncreasing};
ghost use Rattle.const_pool.specs.ClassFile.{raw_bytes};
ghost use Rattle.inject_events.specs.Answers.{IsReadableCode, IsVersionAnswer};
ghost use Rattle.inject_events.specs.Probing.{laid_with};
ghost use Rattle.inject_events.specs.Rewriting.{instrs_in, code_around, code_cause, layout_cause, room_cause, is_too_large, size_cause, version_around, version_cause, version_of};
ghost use Rattle.inject_events.specs.Settings.{probes_in};

use crate::error::{Cause, NoVersion};
use crate::probes::{Probes, probes_in};
use crate::settings::Setting;
use crate::tables::{are_frames_full, version_tables};
use crate::versions::{Version, groups_of, no_version, version_handlers, want_of_memory};
use code_model::{Homes, Instr, Laid, decode, lay_out};
use const_pool::{CodeAttribute, Raw};
use jf_bytes::{NoMemory, Seq};
use jvm_model::Mark;
use std::alloc::Global;

/// The greatest length of an attribute's contents.
const MOST_BYTES: usize = 4_294_967_295;

/// How many bytes of a Code's contents are neither code nor handlers nor attributes.
const FIXED_BYTES: usize = 12;

/// How many bytes a handler has.
const HANDLER_BYTES: usize = 8;

/// How many bytes an attribute has in front of its contents.
const HEAD_BYTES: usize = 6;

/// The instructions of a code that can be read.
fn instrs_in(alloc: Global, code: &[u8]) -> Result<Seq<Instr>, NoMemory>
    requires { IsReadableCode code.now }
    ensures instrs { IfOk result (λ instrs. instrs ≡ instrs_in code.now) }
{
    match decode(alloc, code) {
        Ok(decoded) => Ok(decoded.instrs),
        Err(fault) => Err(want_of_memory(fault)),
    }
}

/// The code with these probes.
fn laid_with(alloc: Global, probes: &Probes, code: &[u8]) -> Result<Laid, NoVersion>
    requires { IsReadableCode code.now }
    ensures answer { IsVersionAnswer result (layout_cause probes.now (instrs_in code.now))
        (laid_with probes.now (instrs_in code.now)) }
    ensures rises { IfOk result (λ laid. IsStrictlyIncreasing laid.homes.from) }
    ensures short { IfOk result (λ laid. length laid.code ≤ 65535) }
{
    let instrs = instrs_in(alloc, code)?;
    let groups = groups_of(alloc, &probes.leave, instrs)?;
    match lay_out(alloc, &probes.entry, groups.as_slice(), &probes.unwind) {
        Ok(laid) => Ok(laid),
        Err(error) => Err(no_version(error)),
    }
}

/// Whether attributes have at most so many bytes.
pub(crate) fn raws_fit(raws: &[Raw], room: usize) -> bool
    ensures { result ≡ nat_le (length (flat_map raw_bytes raws.now)) room }
{
    let mut left = room;
    for raw in raws {
        if left < HEAD_BYTES {
            return false;
        }
        left -= HEAD_BYTES;
        if left < raw.bytes.len() {
            return false;
        }
        left -= raw.bytes.len();
    }
    true
}

/// Whether the contents of a Code attribute have more bytes than its length can say.
fn is_too_large(code: &CodeAttribute) -> bool
    requires code { length code.now.code ≤ 65535 }
    requires handlers { length code.now.handlers ≤ 65535 }
    ensures { result ≡ is_too_large code.now }
{
    let front = FIXED_BYTES + code.code.len() + HANDLER_BYTES * code.handlers.len();
    !raws_fit(code.attributes.as_slice(), MOST_BYTES - front)
}

/// The first limit of the class file format that a version would pass whatever its code is.
fn room_cause(
    alloc: Global,
    setting: &Setting,
    old: &CodeAttribute,
) -> Result<Option<Cause>, NoMemory>
    ensures cause { IfOk result (λ cause. cause ≡ room_cause setting.now old.now) }
    ensures stack { IfOk result (λ cause. cause ≡ None → old.now.max_stack < 65535) }
{
    if old.max_stack == 65535 {
        Ok(Some(Cause::Stack))
    } else if old.handlers.len() == 65535 {
        Ok(Some(Cause::Handlers))
    } else if are_frames_full(alloc, setting, old.attributes.as_slice())? {
        Ok(Some(Cause::Frames))
    } else {
        Ok(None)
    }
}

/// The Code around code that was laid out with these homes.
fn code_around(
    alloc: Global,
    setting: &Setting,
    old: &CodeAttribute,
    code: Seq<u8>,
    homes: &Homes,
) -> Result<CodeAttribute, NoMemory>
    requires rising { IsStrictlyIncreasing homes.now.from }
    requires stack { old.now.max_stack < 65535 }
    requires short { length old.now.code ≤ 65535 }
    ensures { IfOk result (λ new. new ≡ code_around setting.now old.now code homes.now) }
{
    let end = old.code.len() as u16;
    Ok(CodeAttribute {
        max_stack: (old.max_stack + 1).max(2),
        max_locals: old.max_locals,
        code,
        handlers: version_handlers(alloc, homes, old.handlers.as_slice(), end)?,
        attributes: version_tables(alloc, setting, homes, end, old.attributes.as_slice())?,
    })
}

/// The version around code that was laid out, where it can be spelled.
fn version_around(
    alloc: Global,
    setting: &Setting,
    old: &CodeAttribute,
    laid: Laid,
) -> Result<Version, NoVersion>
    requires rising { IsStrictlyIncreasing laid.homes.from }
    requires stack { old.now.max_stack < 65535 }
    requires handlers { length old.now.handlers < 65535 }
    requires short { length old.now.code ≤ 65535 }
    requires laid { length laid.code ≤ 65535 }
    ensures { IsVersionAnswer result (size_cause (version_around setting.now old.now laid).code)
        (version_around setting.now old.now laid) }
{
    let Laid { code, homes } = laid;
    let code = code_around(alloc, setting, old, code, &homes)?;
    if is_too_large(&code) {
        return Err(NoVersion::Limit(Cause::Length));
    }
    Ok(Version { code, homes })
}

/// The version of a Code whose tables have room for what is added.
fn version_with_room(
    alloc: Global,
    setting: &Setting,
    number: u32,
    mark: Mark,
    old: &CodeAttribute,
) -> Result<Version, NoVersion>
    requires readable { IsReadableCode old.now.code }
    requires stack { old.now.max_stack < 65535 }
    requires handlers { length old.now.handlers < 65535 }
    ensures { IsVersionAnswer result (code_cause setting.now number mark old.now)
        (version_of setting.now number mark old.now) }
{
    let probes = probes_in(&setting.tail, number, mark);
    match laid_with(alloc, &probes, old.code.as_slice()) {
        Ok(laid) => version_around(alloc, setting, old, laid),
        Err(error) => Err(error),
    }
}

/// The version of a method's Code, or the first limit of the class file format that it would pass.
pub(crate) fn version_of(
    alloc: Global,
    setting: &Setting,
    number: u32,
    mark: Mark,
    old: &CodeAttribute,
) -> Result<Version, NoVersion>
    requires readable { IsReadableCode old.now.code }
    requires handlers { length old.now.handlers ≤ 65535 }
    ensures { IsVersionAnswer result (version_cause setting.now number mark old.now)
        (version_of setting.now number mark old.now) }
{
    match room_cause(alloc, setting, old) {
        Ok(None) => version_with_room(alloc, setting, number, mark, old),
        Ok(Some(cause)) => Err(NoVersion::Limit(cause)),
        Err(NoMemory) => Err(NoVersion::NoMemory),
    }
}
