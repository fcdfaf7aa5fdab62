//! Whose probes rewritten code has: what stands at its entry tells.

ghost use Rattle.std.specs.Prelude.{◌≡◌, IfOk};
ghost use Rattle.const_pool.specs.Members.{reference_view};
ghost use Rattle.jvm_model.specs.Rewriting.StandsFor.{probe_kind, invoked_kind};
ghost use Rattle.prepared_lines.specs.Probes.{entry_mark, mark_of_kind};

use crate::members::{is_reference, method_at};
use code_model::{Arg, instr_at};
use const_pool::{ClassFile, MemberRef};
use jf_bytes::NoMemory;
use jvm_model::{EventKind, Mark};
use op_table::INVOKESTATIC;
use std::alloc::Global;

/// The class whose methods the probes invoke.
const PROBE_CLASS: &[u8] = b"jfluid/Probe";

/// Their descriptor.
const PROBE_DESCRIPTOR: &[u8] = b"(I)V";

/// Where the entry probe invokes: behind sipush, which pushes the method's number.
const INVOKED_AT: u16 = 3;

/// Which probe a method is.
fn probe_kind(reference: &MemberRef<'_>) -> Option<EventKind>
    ensures { result ≡ probe_kind (reference_view reference.now) }
{
    if is_reference(reference, PROBE_CLASS, b"root", PROBE_DESCRIPTOR) {
        Some(EventKind::Root)
    } else if is_reference(reference, PROBE_CLASS, b"enter", PROBE_DESCRIPTOR) {
        Some(EventKind::Enter)
    } else if is_reference(reference, PROBE_CLASS, b"leave", PROBE_DESCRIPTOR) {
        Some(EventKind::Leave)
    } else if is_reference(reference, PROBE_CLASS, b"unwind", PROBE_DESCRIPTOR) {
        Some(EventKind::Unwind)
    } else {
        None
    }
}

/// The kind of the probe that invokestatic of a pool entry invokes.
fn invoked_kind(image: &ClassFile, op: u8, arg: &Arg) -> Option<EventKind>
    ensures { result ≡ invoked_kind image.now op arg.now }
{
    let Arg::Pool(index) = arg else {
        return None;
    };
    if op != INVOKESTATIC {
        return None;
    }
    probe_kind(&method_at(&image.pool, *index)?)
}

/// Whose entry probe is of this kind.
fn mark_of_kind(kind: EventKind) -> Mark
    ensures { result ≡ mark_of_kind kind }
{
    match kind {
        EventKind::Root => Mark::Root,
        EventKind::Enter => Mark::Plain,
        EventKind::Leave | EventKind::Unwind => Mark::Off,
    }
}

/// Whose probes a code has: those of the mark whose probe stands at its entry.
pub fn entry_mark(alloc: Global, image: &ClassFile, code: &[u8]) -> Result<Mark, NoMemory>
    ensures { IfOk result (λ mark. mark ≡ entry_mark image.now code.now) }
{
    let Some(invoke) = instr_at(alloc, code, INVOKED_AT)? else {
        return Ok(Mark::Off);
    };
    match invoked_kind(image, invoke.op, &invoke.arg) {
        Some(kind) => Ok(mark_of_kind(kind)),
        None => Ok(Mark::Off),
    }
}
