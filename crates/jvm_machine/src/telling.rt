//! What a probe has told.

ghost use Rattle.std.specs.Prelude.{◌≡◌};
ghost use Rattle.jvm_model.specs.Turns.Pauses.{begin_kind, told_at};
ghost use Rattle.jvm_model.specs.Turns.Told.{helds};
ghost use Rattle.prepared_code.specs.Initializations.{state_of};
ghost use Rattle.prepared_code.specs.Versions.{mark_of};

use jf_bytes::Stack;
use jvm_model::{Due, Event, EventKind, Mark};
use prepared_code::{Initialization, Originals, Parts, where_now};

/// The probe at the entry of a version with this mark.
fn begin_kind(mark: Mark) -> EventKind
    ensures { result ≡ begin_kind mark }
{
    match mark {
        Mark::Root => EventKind::Root,
        Mark::Plain | Mark::Off => EventKind::Enter,
    }
}

/// What is told where a step has stopped, of the current frame.
#[inline(always)]
pub fn event_told(
    clock: u64,
    due: Due,
    originals: &Originals,
    parts: &Parts,
    initializing: &Stack<Initialization>,
) -> Option<Event>
    ensures { let s = state_of initializing.now parts.now in let v = originals.now.versions in
        result ≡ told_at due clock (helds (mark_of v) s.stack) }
{
    let _used = initializing.peek(0);
    if let Due::Nothing = due {
        return None;
    }
    let here = where_now(&parts.frames)?;
    let kind = match due {
        Due::Nothing => return None,
        Due::Ends(kind) => kind,
        Due::Begins => begin_kind(originals.mark(here.version)),
    };
    Some(Event {
        kind,
        method: here.method,
        clock,
    })
}
