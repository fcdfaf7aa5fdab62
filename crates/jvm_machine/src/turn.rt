//! What one call of `step` came to.

use jf_bytes::Seq;
use jvm_model::Event;

/// What one call of `step` came to.
#[derive(Debug, Drop)]
pub enum Turn {
    /// The step is done, all its events were told, and the run goes on.
    Settled,
    /// A probe has told an event of the step, and the step goes on.
    Probe(Event),
    /// The step has loaded these classes, in order, and goes on. It is the first turn of the step.
    Loaded(Seq<u32>),
    /// The run has ended, in this step or before it.
    Ended,
    /// An earlier call ran out of memory: the machine does no more.
    Broken,
    /// Memory ran out in this call.
    NoMemory,
}
