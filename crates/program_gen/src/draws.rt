//! The generator of numbers.

ghost use Rattle.std.specs.Prelude.{◌≡◌, ◌<◌, ◌≤◌, ◌^◌};
ghost use Rattle.program_gen.specs.Draws.{next_state, number_of};
ghost use Rattle.program_gen.specs.Chains.{choices_from, state_behind, superclass_from, state_above};
ghost use Rattle.program_gen.specs.Fits.{FitsName};

use crate::rows::{Choices, ClassName};

/// The next draw, a number of 15 bits.
pub(crate) fn draw(state: &mut u64) -> u32
    requires { state.old < 2 ^ 32 }
    ensures next { state.new ≡ next_state state.old }
    ensures number { result ≡ number_of (next_state state.old) }
    ensures short { state.new < 2 ^ 31 }
    ensures within { result < 2 ^ 15 }
{
    *state = (*state * 1_103_515_245 + 12_345) % 2_147_483_648;
    (*state / 65_536) as u32
}

/// The superclass of a class: one with a smaller number, where there is one.
fn draw_superclass(state: &mut u64, number: u32) -> ClassName
    requires state { state.old < 2 ^ 32 }
    requires few { number < 200 }
    ensures name { result ≡ superclass_from state.old number }
    ensures next { state.new ≡ state_above state.old number }
    ensures narrow { state.new < 2 ^ 32 }
    ensures fits { FitsName result }
{
    if number == 0 {
        ClassName::Object
    } else {
        ClassName::Numbered(draw(state) % number)
    }
}

/// What is drawn for the class with this number, where there are `size`.
pub(crate) fn draw_choices(state: &mut u64, number: u32, size: u32) -> Choices
    requires state { state.old < 2 ^ 32 }
    requires some { 0 < size }
    requires most { size ≤ 200 }
    requires few { number < 200 }
    ensures choices { result ≡ choices_from state.old size number }
    ensures next { state.new ≡ state_behind state.old number }
    ensures narrow { state.new < 2 ^ 32 }
    ensures superclass { FitsName result.superclass }
    ensures left { result.left < 200 }
    ensures right { result.right < 200 }
{
    let superclass = draw_superclass(state, number);
    let left = draw(state) % size;
    let factor = draw(state) as u16;
    let addend = draw(state) as u16;
    let right = draw(state) % size;
    Choices {
        superclass,
        left,
        factor,
        addend,
        right,
    }
}
