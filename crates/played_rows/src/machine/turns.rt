//! What came beside what a row says.

ghost use Rattle.std.specs.Prelude.{◌≡◌, ◌≢◌, true, false};

use class_shape::SwapError;
use jvm_machine::Turn;
use jvm_model::Ending;
use std::fmt;

/// What came in place of what a line says.
#[derive(Drop)]
pub enum Difference {
    /// Nothing is asked of the machine: it has made too many steps, or the line says too many or none, or says how many
    /// while a step is in hand.
    NotAsked,
    /// This turn, with its clock.
    Turned(Turn, u64),
    /// This answer of a redefinition.
    Redefined(Option<SwapError>),
    /// The class is not loaded, or the marks are not one for each method, or of one without Code.
    NotMarked,
    /// The class that bytes are to be tried on is not loaded.
    NotLoaded,
    /// The bytes have the shape of the class.
    NotRefused,
    /// The run has ended so, or not.
    Ended(Option<Ending>),
    /// The program has written other bytes.
    Printed,
    /// So many activations are live.
    Lives(u32),
}

impl fmt::Display for Difference {
    fn fmt<W: fmt::Write>(&self, f: &mut fmt::Formatter<W>) -> fmt::Result {
        match self {
            Difference::NotAsked => write!(
                f,
                "no steps are asked for: too many were made, these are too many or none, or one is in hand"
            ),
            Difference::Turned(turn, clock) => write!(f, "{turn:?} at {clock}"),
            Difference::Redefined(Some(error)) => write!(f, "the class is refused: {error}"),
            Difference::Redefined(None) => write!(f, "the class is redefined"),
            Difference::NotMarked => write!(f, "the class cannot have these marks"),
            Difference::NotLoaded => write!(f, "the class is not loaded"),
            Difference::NotRefused => write!(f, "the bytes are not refused"),
            Difference::Ended(Some(ending)) => write!(f, "the run has ended: {ending:?}"),
            Difference::Ended(None) => write!(f, "the run goes on"),
            Difference::Printed => write!(f, "the output is another one"),
            Difference::Lives(count) => write!(f, "{count} activations are live"),
        }
    }
}

/// Whether a turn that came is the wanted one.
pub fn is_same_turn(wanted: &Turn, came: &Turn) -> bool
    ensures same { result ≡ true → came.now ≡ wanted.now }
    ensures other { result ≡ false → came.now ≢ wanted.now }
{
    match wanted {
        Turn::Settled => matches!(came, Turn::Settled),
        Turn::Ended => matches!(came, Turn::Ended),
        Turn::Probe(event) => match came {
            Turn::Probe(other) => *event == *other,
            _ => false,
        },
        Turn::Loaded(classes) => match came {
            Turn::Loaded(others) => classes.as_slice() == others.as_slice(),
            _ => false,
        },
        Turn::Broken => matches!(came, Turn::Broken),
        Turn::NoMemory => matches!(came, Turn::NoMemory),
    }
}
