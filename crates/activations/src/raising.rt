//! How a run breaks off, and the exceptions that the machine makes (JVM Specification 2.10).

ghost use Rattle.std.specs.Prelude.{◌≡◌, None, Some, IfOk, OnOk};
ghost use Rattle.activations.specs.Applied.{ended_unless, raising, run_ended};
ghost use Rattle.activations.specs.Settling.{own_of};

use jf_bytes::NoMemory;
use jvm_basic::Effect;
use jvm_model::{Ending, Exception};
use prepared_code::{Here, Originals, Parts};
use std::alloc::Global;

/// Ends the run at this offset of the method; the frame stays as it was.
pub fn break_off(parts: &mut Parts, method: u32, own: u16)
    ensures { parts.new ≡ run_ended method own parts.old }
{
    parts.ending = Some(Ending::Unverifiable(method, own));
}

/// Ends the run at this offset, unless the frame has gone on.
pub fn end_unless(parts: &mut Parts, method: u32, own: u16, effect: Effect)
    ensures { parts.new ≡ ended_unless method own effect parts.old }
{
    match effect {
        Effect::Next => {}
        Effect::Bad | Effect::Other | Effect::Throws(_) => break_off(parts, method, own),
    }
}

/// The offset of the instruction at which a frame stands; 0 where there is none.
pub fn own_of(alloc: Global, originals: &Originals, here: Here) -> Result<u16, NoMemory>
    ensures { IfOk result (λ own. own ≡ own_of originals.now.versions here) }
{
    let passage = originals.passage(alloc, here.version, here.place)?;
    match passage {
        Some(passage) => Ok(passage.own),
        None => Ok(0),
    }
}

/// Ends the run at the line at which the current frame stands.
pub fn break_at(
    alloc: Global,
    originals: &Originals,
    parts: &mut Parts,
    here: Here,
) -> Result<(), NoMemory>
    ensures state { OnOk result
        (parts.new ≡ run_ended here.method (own_of originals.now.versions here) parts.old) }
    ensures runtime { parts.new.runtime ≡ parts.old.runtime }
{
    let own = own_of(alloc, originals, here)?;
    break_off(parts, here.method, own);
    Ok(())
}

/// Throws an exception that the machine makes, without a message.
pub fn raise(parts: &mut Parts, exception: Exception) -> Result<(), NoMemory>
    ensures state { OnOk result
        (parts.new ≡ raising parts.old.runtime.world exception None parts.old) }
    ensures world { parts.new.runtime.world ≡ parts.old.runtime.world }
    ensures same_loaded { parts.new.runtime.shared.loaded ≡ parts.old.runtime.shared.loaded }
{
    let thrown = parts.runtime.make_exception(exception, 0)?;
    parts.thrown = Some(thrown);
    Ok(())
}

/// Throws an exception that the machine makes, with this message.
pub fn raise_with(parts: &mut Parts, exception: Exception, message: &[u16]) -> Result<(), NoMemory>
    ensures state { OnOk result
        (parts.new ≡ raising parts.old.runtime.world exception (Some message.now) parts.old) }
    ensures world { parts.new.runtime.world ≡ parts.old.runtime.world }
    ensures same_loaded { parts.new.runtime.shared.loaded ≡ parts.old.runtime.shared.loaded }
{
    let thrown = parts.runtime.make_exception_with(exception, message)?;
    parts.thrown = Some(thrown);
    Ok(())
}
