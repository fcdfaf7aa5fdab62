//! The room for the arguments of `main` (JVM Specification 5.2).

ghost use Rattle.std.specs.Prelude.{◌≡◌, nat_le};
ghost use Rattle.jvm_model.specs.Basis.SharedState.{arguments_fit, texts_cost};

use jf_bytes::Text16;
use jvm_model::Program;

/// How many slots the objects take that are there before the start.
const BEFORE: usize = 6;

/// Whether so many slots are enough for these texts.
fn texts_fit(args: &[Text16], room: usize) -> bool
    ensures { result ≡ nat_le (texts_cost args.now) room }
{
    let mut left = room;
    for arg in args {
        let units = arg.units().len();
        if units >= left {
            return false;
        }
        left -= units + 1;
    }
    true
}

/// Whether there is room for the array of the arguments of `main` and for their texts.
pub fn arguments_fit(program: &Program) -> bool
    ensures { result ≡ arguments_fit program.now }
{
    let args = program.args.as_slice();
    let Some(room) = (program.heap as usize).checked_sub(BEFORE + 1) else {
        return false;
    };
    args.len() <= room && texts_fit(args, room - args.len())
}
