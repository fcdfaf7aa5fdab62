//! The parts of a machine that move.

ghost use Rattle.std.specs.Prelude.{◌≡◌};
ghost use Rattle.prepared_code.specs.States.{here_of};

use frame_stack::Frames;
use jvm_model::Ending;
use symbolic_references::Runtime;

/// The frames of the live activations, what they share, and the rest of a run's state.
#[derive(Drop)]
pub struct Parts {
    pub frames: Frames,
    pub thrown: Option<u32>,
    pub begun: bool,
    pub runtime: Runtime,
    pub ending: Option<Ending>,
}

/// Where the current frame stands.
#[derive(Clone, Copy, Debug, PartialEq, Eq)]
pub struct Here {
    pub version: usize,
    pub method: u32,
    pub place: u16,
}

/// Where the current frame stands, if there is one.
#[inline(always)]
pub fn where_now(frames: &Frames) -> Option<Here>
    ensures { result ≡ here_of frames.now.frames }
{
    let (version, method) = frames.top()?;
    let place = frames.place()?;
    Some(Here {
        version,
        method,
        place,
    })
}
