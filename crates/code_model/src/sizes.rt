//! How many bytes instructions take where they stand (JVM Specification 6.5).

ghost use Rattle.std.specs.Prelude.{◌≡◌, ◌<◌, ◌^◌, All};
ghost use Rattle.std.specs.Int.{byte_len};
ghost use Rattle.code_model.specs.Widths.{width};
ghost use Rattle.code_model.specs.Operands.{slot_width, padding_len};
ghost use Rattle.code_model.specs.Layout.{operand_width, operand_len, width_of, size_at};
ghost use Rattle.code_model.specs.Layout.{place_of, group_end, end_from, source_end};
ghost use Rattle.code_model.specs.Groups.{EndsWithin};

use crate::instr::{Arg, Instr};
use crate::laying::Group;
use crate::operands::form_of;
use op_table::Form;

/// How many bytes the number of an operand has.
#[derive(Clone, Copy, Debug, PartialEq, Eq)]
pub(crate) enum NumberSize {
    One,
    Two,
    Four,
}

impl NumberSize {
    pub(crate) fn len(self) -> u32
        ensures { result ≡ byte_len (width self) }
    {
        match self {
            NumberSize::One => 1,
            NumberSize::Two => 2,
            NumberSize::Four => 4,
        }
    }
}

/// How many bytes a slot or an increment has.
fn slot_size(wide: bool) -> NumberSize
    ensures { width result ≡ slot_width wide }
{
    if wide {
        NumberSize::Two
    } else {
        NumberSize::One
    }
}

/// How many bytes the number of an operand has, by its form.
fn number_size(wide: bool, form: Form) -> NumberSize
    ensures { width result ≡ operand_width wide form }
{
    match form {
        Form::Byte | Form::PoolByte => NumberSize::One,
        Form::Local | Form::Inc => slot_size(wide),
        Form::JumpWide => NumberSize::Four,
        _ => NumberSize::Two,
    }
}

/// How many bytes the number of an instruction's operand has.
pub(crate) fn size_of_number(instr: &Instr) -> NumberSize
    ensures { width result ≡ width_of instr.now }
{
    number_size(instr.wide, form_of(instr.wide, instr.op))
}

/// How many zeros stand behind the opcode of a switch.
pub(crate) fn padding_len(place: u32) -> u32
    ensures { result ≡ padding_len place }
{
    3 - place % 4
}

/// How many bytes stand behind the opcode of an instruction at this place.
fn operand_len(size: NumberSize, arg: &Arg, place: u32) -> u32
    requires { operand_len place (width size) arg.now < 2 ^ 31 }
    ensures { result ≡ operand_len place (width size) arg.now }
{
    match arg {
        Arg::Plain => 0,
        Arg::Value(_) | Arg::Pool(_) | Arg::Local(_) | Arg::Target(_) => size.len(),
        Arg::Inc(_, _) => size.len() + size.len(),
        Arg::Table(_, _, targets) => padding_len(place) + 12 + 4 * targets.len() as u32,
        Arg::Lookup(_, keys, targets) => padding_len(place)
            + 8
            + 8 * keys.len().min(targets.len()) as u32,
        Arg::Interface(_, _, _) => 4,
        Arg::Multi(_, _) => 3,
        Arg::Array(_) => 1,
    }
}

/// How many bytes an instruction takes at this place.
#[tactic(auto, using(crate::proofs::Reading::Lengths::sizes))]
pub(crate) fn instr_len(instr: &Instr, place: u32) -> u32
    requires { size_at place instr.now < 2 ^ 31 }
    ensures { result ≡ size_at place instr.now }
{
    let opcode_len = if instr.wide { 2 } else { 1 };
    opcode_len + operand_len(size_of_number(instr), &instr.arg, place)
}

/// Where a group's instruction stands.
pub(crate) fn place_of(group: &Group, at: u32) -> u32
    requires { place_of at group.now < 2 ^ 31 }
    ensures { result ≡ place_of at group.now }
{
    at + group.before.len() as u32
}

/// Where a group ends.
pub(crate) fn group_end(group: &Group, at: u32) -> u32
    requires { group_end at group.now < 2 ^ 31 }
    ensures { result ≡ group_end at group.now }
{
    let place = place_of(group, at);
    place + instr_len(&group.instr, place)
}

/// Where groups end that follow one another from here on.
#[tactic(auto, using(crate::proofs::CodeLayouts::Walks::walk_bounds))]
pub(crate) fn end_of_groups(groups: &[Group], start: u32) -> u32
    requires { end_from start groups.now < 2 ^ 31 }
    ensures { result ≡ end_from start groups.now }
{
    let mut at = start;
    for group in groups {
        at = group_end(group, at);
    }
    at
}

/// Where the original code ends.
pub(crate) fn source_end(groups: &[Group]) -> u16
    requires { All EndsWithin groups.now }
    ensures { result ≡ source_end 0 groups.now }
{
    match groups.last() {
        Some(group) => group.instr.next_offset(),
        None => 0,
    }
}
