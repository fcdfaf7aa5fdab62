//! Initializations of classes in hand (JVM Specification 5.5), beside the frames.

ghost use Rattle.std.specs.Prelude.{◌≡◌, suc, length, None, OnOk};
ghost use Rattle.jvm_model.specs.Running.Moves.{at_part};
ghost use Rattle.prepared_code.specs.Initializations.{TakesInitialization, initialization_on, state_of};

use crate::parts::Parts;
use jf_bytes::{NoMemory, Stack};
use jvm_model::Part;

/// The initialization of a class in hand: the class's position, the part that is done next, and on
/// how many frames it stands.
#[derive(Clone, Copy, Debug, PartialEq, Eq)]
pub struct Initialization {
    pub class: u32,
    pub part: Part,
    pub depth: u32,
}

/// The initialization on top of so many frames, if one stands there.
#[tactic(auto, unfolding(crate::specs::Initializations::initialization_on))]
#[inline(always)]
pub fn initialization_on(initializing: &Stack<Initialization>, depth: u32) -> Option<Initialization>
    ensures { result ≡ initialization_on depth initializing.now }
{
    let initialization = initializing.peek(0)?;
    if depth <= initialization.depth {
        Some(initialization)
    } else {
        None
    }
}

/// Puts the initialization of a class on the current frame: this part of its initialization is done
/// next.
pub fn put_initialization(
    parts: &Parts,
    initializing: &mut Stack<Initialization>,
    class: u32,
    part: Part,
) -> Result<(), NoMemory>
    ensures state { OnOk result
        (state_of initializing.new parts.now
        ≡ at_part (state_of initializing.old parts.now) class part) }
    ensures below { OnOk result
        (initialization_on (suc (length parts.now.frames.frames)) initializing.new ≡ None) }
{
    let depth = parts.frames.depth();
    initializing.push(Initialization { class, part, depth })?;
    Ok(())
}

/// Takes the initialization off that is on the current frame, if one is.
pub fn take_initialization(
    parts: &Parts,
    initializing: &mut Stack<Initialization>,
) -> Option<Initialization>
    ensures { TakesInitialization result parts.now initializing.old initializing.new }
{
    let initialization = initialization_on(initializing, parts.frames.depth())?;
    initializing.pop();
    Some(initialization)
}
