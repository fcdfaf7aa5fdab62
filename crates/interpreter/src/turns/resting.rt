//! Whether a step goes on in a state, and whether anything follows there by itself.

ghost use Rattle.std.specs.Prelude.{◌≡◌};
ghost use Rattle.jvm_model.specs.Running.Run.{is_ready};
ghost use Rattle.jvm_model.specs.Basis.SharedState.{phase_of};
ghost use Rattle.instructions.specs.Acts.{is_at_rest, goes_on_in};
ghost use Rattle.prepared_code.specs.Initializations.{is_executing};

use jf_bytes::Stack;
use jvm_model::Phase;
use prepared_code::{Initialization, Parts, initialization_on};
use symbolic_references::Runtime;

/// Whether no initialization stands on the current frame.
#[inline(always)]
fn is_executing(parts: &Parts, initializing: &Stack<Initialization>) -> bool
    ensures { result ≡ is_executing initializing.now parts.now }
{
    initialization_on(initializing, parts.frames.depth()).is_none()
}

/// Whether nothing follows by itself: the run has ended, or nothing is thrown, and there is a frame
/// with no initialization on it.
#[inline(always)]
pub fn is_at_rest(parts: &Parts, initializing: &Stack<Initialization>) -> bool
    ensures { result ≡ is_at_rest initializing.now parts.now }
{
    parts.ending.is_some()
        || (parts.thrown.is_none()
            && (parts.frames.depth() > 0 && is_executing(parts, initializing)))
}

/// Whether the run has not ended, and there is a frame with no initialization on it.
#[inline(always)]
pub fn goes_on(parts: &Parts, initializing: &Stack<Initialization>) -> bool
    ensures { result ≡ goes_on_in initializing.now parts.now }
{
    parts.ending.is_none() && (parts.frames.depth() > 0 && is_executing(parts, initializing))
}

/// Whether a class is initialized.
#[inline(always)]
pub fn is_ready(runtime: &Runtime, class: u32) -> bool
    ensures { result ≡ is_ready (phase_of runtime.now.shared class) }
{
    match runtime.phase(class) {
        Some(Phase::Ready) => true,
        Some(Phase::Fresh | Phase::Running | Phase::Erroneous) => false,
        None => false,
    }
}
