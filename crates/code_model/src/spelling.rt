//! The bytes of instructions (JVM Specification 6.5).

ghost use Rattle.std.specs.Prelude.{◌≡◌, ◌≤◌, ◌<◌, ◌+ℤ◌, ◌-ℤ◌, pos, true, None, length, IfOk};
ghost use Rattle.std.specs.Prelude.{IfSome, All, FitsSigned};
ghost use Rattle.std.specs.Int.{w32, byte_len};
ghost use Rattle.std.specs.List.Sorted.{IsStrictlyIncreasing};
ghost use Rattle.code_model.specs.declared.instr.Arg.TheVariants.{Target, Table};
ghost use Rattle.code_model.specs.Widths.{width};
ghost use Rattle.code_model.specs.Layout.{number_bytes, signed_bytes, padding, distance, home_of};
ghost use Rattle.code_model.specs.Layout.{opcode_bytes, width_of, groups_bytes, code_bytes};
ghost use Rattle.code_model.specs.Layout.{fits_branch, end_from, first_far_from};
ghost use Rattle.code_model.specs.Groups.{FitsNumber, FitsOperand, FitsInstr, FitsGroup};
ghost use Rattle.code_model.specs.Groups.{IsUnmovedAt};
ghost use Rattle.code_model.specs.Spelling.{Adds, home_with, target_put, targets_put, table_put};
ghost use Rattle.code_model.specs.Spelling.{pair_put, pairs_put, lookup_put, operand_put};
ghost use Rattle.code_model.specs.Spelling.{instr_put, laid_code};

use crate::homes::home_by;
use crate::instr::{Arg, Instr};
use crate::laying::{Group, Homes};
use crate::sizes::{NumberSize, group_end, padding_len, place_of, size_of_number};
use jf_bytes::{NoMemory, Seq};
use op_table::WIDE;
use std::alloc::Global;

/// Adds an unsigned number.
fn put_number(out: &mut Seq<u8>, size: NumberSize, n: u16) -> Result<(), NoMemory>
    requires { FitsNumber (width size) n }
    ensures { Adds result out.old out.new (number_bytes (width size) n) }
{
    match size {
        NumberSize::One => out.push(n as u8)?,
        NumberSize::Two => out.extend_from_slice(&n.to_be_bytes())?,
        NumberSize::Four => out.extend_from_slice(&u32::from(n).to_be_bytes())?,
    }
    Ok(())
}

/// Adds a signed number.
fn put_signed(out: &mut Seq<u8>, size: NumberSize, n: i32) -> Result<(), NoMemory>
    requires { FitsSigned (width size) n }
    ensures { Adds result out.old out.new (signed_bytes (width size) n) }
{
    match size {
        NumberSize::One => out.push((n as i8).cast_unsigned())?,
        NumberSize::Two => out.extend_from_slice(&(n as i16).cast_unsigned().to_be_bytes())?,
        NumberSize::Four => out.extend_from_slice(&n.cast_unsigned().to_be_bytes())?,
    }
    Ok(())
}

/// How far the home of a target lies behind a place.
fn distance(homes: Option<&Homes>, place: u16, target: u16) -> i32
    requires { IfSome homes (λ h. IsStrictlyIncreasing h.now.from) }
    ensures value { result ≡ distance place (home_with homes.entry target) }
    ensures fits { FitsSigned w32 (distance place (home_with homes.entry target)) }
{
    i32::from(home_by(homes, target)) - i32::from(place)
}

/// Adds the offset of a branch that stands at this place, in four bytes.
fn put_far_target(
    out: &mut Seq<u8>,
    homes: Option<&Homes>,
    place: u16,
    target: u16,
) -> Result<(), NoMemory>
    requires { IfSome homes (λ h. IsStrictlyIncreasing h.now.from) }
    ensures { Adds result out.old out.new (target_put homes.entry place w32 target) }
{
    put_signed(out, NumberSize::Four, distance(homes, place, target))
}

/// Adds the offset of a branch that stands at this place, in two bytes or four.
fn put_branch(
    out: &mut Seq<u8>,
    homes: Option<&Homes>,
    place: u16,
    size: NumberSize,
    target: u16,
) -> Result<(), NoMemory>
    requires homes { IfSome homes (λ h. IsStrictlyIncreasing h.now.from) }
    requires size { 2 ≤ byte_len (width size) }
    requires near { fits_branch (home_with homes) place (width size) (Target target) ≡ true }
    ensures { Adds result out.old out.new (target_put homes.entry place (width size) target) }
{
    put_signed(out, size, distance(homes, place, target))
}

/// Adds the zeros behind the opcode of a switch.
fn put_padding(out: &mut Seq<u8>, place: u16) -> Result<(), NoMemory>
    ensures { Adds result out.old out.new (padding place) }
{
    let zeros = [0, 0, 0];
    let len = padding_len(u32::from(place)) as usize;
    out.extend_from_slice(&zeros[..len])?;
    Ok(())
}

/// Adds the offsets of a tableswitch.
fn put_targets(
    out: &mut Seq<u8>,
    homes: Option<&Homes>,
    place: u16,
    targets: &[u16],
) -> Result<(), NoMemory>
    requires { IfSome homes (λ h. IsStrictlyIncreasing h.now.from) }
    ensures { Adds result out.old out.new (targets_put homes.entry place targets.now) }
{
    for target in targets {
        put_far_target(out, homes, place, *target)?;
    }
    Ok(())
}

/// The greatest key of a tableswitch with so many cases.
fn high_of(low: i32, cases: usize) -> i32
    requires { FitsSigned w32 ((low +ℤ pos cases) -ℤ pos 1) }
    ensures { result ≡ (low +ℤ pos cases) -ℤ pos 1 }
{
    (i64::from(low) + cases as i64 - 1) as i32
}

/// Adds the operands of a tableswitch.
fn put_table(
    out: &mut Seq<u8>,
    homes: Option<&Homes>,
    place: u16,
    default: u16,
    low: i32,
    targets: &[u16],
) -> Result<(), NoMemory>
    requires homes { IfSome homes (λ h. IsStrictlyIncreasing h.now.from) }
    requires fits { FitsOperand w32 (Table default low targets.now) }
    ensures { Adds result out.old out.new (table_put homes.entry place default low targets.now) }
{
    put_padding(out, place)?;
    put_far_target(out, homes, place, default)?;
    put_signed(out, NumberSize::Four, low)?;
    put_signed(out, NumberSize::Four, high_of(low, targets.len()))?;
    put_targets(out, homes, place, targets)?;
    Ok(())
}

/// Adds a pair of a lookupswitch.
fn put_pair(
    out: &mut Seq<u8>,
    homes: Option<&Homes>,
    place: u16,
    key: i32,
    target: u16,
) -> Result<(), NoMemory>
    requires { IfSome homes (λ h. IsStrictlyIncreasing h.now.from) }
    ensures { Adds result out.old out.new (pair_put homes.entry place key target) }
{
    put_signed(out, NumberSize::Four, key)?;
    put_far_target(out, homes, place, target)
}

/// Adds the pairs of a lookupswitch.
fn put_pairs(
    out: &mut Seq<u8>,
    homes: Option<&Homes>,
    place: u16,
    keys: &[i32],
    targets: &[u16],
) -> Result<(), NoMemory>
    requires homes { IfSome homes (λ h. IsStrictlyIncreasing h.now.from) }
    requires columns { length keys.now ≡ length targets.now }
    ensures { Adds result out.old out.new (pairs_put homes.entry place keys.now targets.now) }
{
    for (row, key) in keys.iter().enumerate() {
        put_pair(out, homes, place, *key, targets[row])?;
    }
    Ok(())
}

/// Adds the operands of a lookupswitch.
fn put_lookup(
    out: &mut Seq<u8>,
    homes: Option<&Homes>,
    place: u16,
    default: u16,
    keys: &[i32],
    targets: &[u16],
) -> Result<(), NoMemory>
    requires homes { IfSome homes (λ h. IsStrictlyIncreasing h.now.from) }
    requires columns { length keys.now ≡ length targets.now }
    requires few { length keys.now < 2147483648 }
    ensures { Adds result out.old out.new
        (lookup_put homes.entry place default keys.now targets.now) }
{
    put_padding(out, place)?;
    put_far_target(out, homes, place, default)?;
    put_signed(out, NumberSize::Four, keys.len() as i32)?;
    put_pairs(out, homes, place, keys, targets)?;
    Ok(())
}

/// Adds what stands behind the opcode of an instruction at this place.
fn put_operand(
    out: &mut Seq<u8>,
    homes: Option<&Homes>,
    place: u16,
    size: NumberSize,
    arg: &Arg,
) -> Result<(), NoMemory>
    requires homes { IfSome homes (λ h. IsStrictlyIncreasing h.now.from) }
    requires fits { FitsOperand (width size) arg.now }
    requires near { fits_branch (home_with homes) place (width size) arg.now ≡ true }
    ensures { Adds result out.old out.new (operand_put homes.entry place (width size) arg.now) }
{
    match arg {
        Arg::Plain => Ok(()),
        Arg::Value(n) => put_signed(out, size, *n),
        Arg::Pool(n) | Arg::Local(n) => put_number(out, size, *n),
        Arg::Inc(slot, n) => {
            put_number(out, size, *slot)?;
            put_signed(out, size, i32::from(*n))
        }
        Arg::Target(target) => put_branch(out, homes, place, size, *target),
        Arg::Table(default, low, targets) => put_table(
            out,
            homes,
            place,
            *default,
            *low,
            targets.as_slice(),
        ),
        Arg::Lookup(default, keys, targets) => put_lookup(
            out,
            homes,
            place,
            *default,
            keys.as_slice(),
            targets.as_slice(),
        ),
        Arg::Interface(index, count, last) => {
            put_number(out, NumberSize::Two, *index)?;
            out.push(*count)?;
            out.push(*last)?;
            Ok(())
        }
        Arg::Multi(index, dimensions) => {
            put_number(out, NumberSize::Two, *index)?;
            out.push(*dimensions)?;
            Ok(())
        }
        Arg::Array(kind) => {
            out.push(*kind)?;
            Ok(())
        }
    }
}

/// Adds an opcode, behind the prefix `wide` where it has that.
fn put_opcode(out: &mut Seq<u8>, wide: bool, op: u8) -> Result<(), NoMemory>
    ensures { Adds result out.old out.new (opcode_bytes wide op) }
{
    if wide {
        out.push(WIDE)?;
    }
    out.push(op)?;
    Ok(())
}

/// Adds an instruction that stands at this place.
fn put_instr(
    out: &mut Seq<u8>,
    homes: Option<&Homes>,
    place: u16,
    instr: &Instr,
) -> Result<(), NoMemory>
    requires homes { IfSome homes (λ h. IsStrictlyIncreasing h.now.from) }
    requires fits { FitsInstr instr.now }
    requires near { fits_branch (home_with homes) place (width_of instr.now) instr.now.arg ≡ true }
    ensures { Adds result out.old out.new (instr_put homes.entry place instr.now) }
{
    put_opcode(out, instr.wide, instr.op)?;
    put_operand(out, homes, place, size_of_number(instr), &instr.arg)
}

/// Adds the groups, each with what goes in front of its instruction, from this place on.
#[tactic(auto, using(crate::proofs::CodeLayouts::Walks::walk_bounds))]
fn put_groups(
    out: &mut Seq<u8>,
    homes: &Homes,
    groups: &[Group],
    start: u32,
) -> Result<(), NoMemory>
    requires homes { IsStrictlyIncreasing homes.now.from }
    requires fits { All FitsGroup groups.now }
    requires near { first_far_from (home_of homes.now) start groups.now ≡ None }
    requires short { end_from start groups.now ≤ 65535 }
    ensures { Adds result out.old out.new (groups_bytes (home_of homes.now) start groups.now) }
{
    let mut at = start;
    for group in groups {
        out.extend_from_slice(group.before.as_slice())?;
        put_instr(out, Some(homes), place_of(group, at) as u16, &group.instr)?;
        at = group_end(group, at);
    }
    Ok(())
}

/// The front, the groups and the back, one behind the other, `len` bytes in all.
#[tactic(auto, using(crate::proofs::CodeLayouts::Walks::walk_bounds))]
pub(crate) fn laid_code(
    alloc: Global,
    front: &[u8],
    groups: &[Group],
    back: &[u8],
    homes: &Homes,
    len: usize,
) -> Result<Seq<u8>, NoMemory>
    requires homes { IsStrictlyIncreasing homes.now.from }
    requires fits { All FitsGroup groups.now }
    requires near { first_far_from (home_of homes.now) (length front.now) groups.now ≡ None }
    requires short { end_from (length front.now) groups.now ≤ 65535 }
    ensures { IfOk result (λ code. code ≡ laid_code homes.now front.now groups.now back.now) }
{
    let mut code = Seq::with_capacity(alloc, len)?;
    code.extend_from_slice(front)?;
    put_groups(&mut code, homes, groups, front.len() as u32)?;
    code.extend_from_slice(back)?;
    Ok(code)
}

/// Adds instructions where they stand.
pub(crate) fn put_instrs(out: &mut Seq<u8>, instrs: &[Instr]) -> Result<(), NoMemory>
    requires fits { All FitsInstr instrs.now }
    requires near { All IsUnmovedAt instrs.now }
    ensures { Adds result out.old out.new (code_bytes instrs.now) }
{
    for instr in instrs {
        put_instr(out, None, instr.at, instr)?;
    }
    Ok(())
}
