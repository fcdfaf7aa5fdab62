//! Laying instructions out anew, with bytes in front of some of them (JVM Specification 4.7.3).

ghost use Rattle.std.specs.Prelude.{◌≡◌, ◌≤◌, ℕ, length, Err, None, IfOk};
ghost use Rattle.std.specs.List.Sorted.{IsStrictlyIncreasing};
ghost use Rattle.code_model.specs.Groups.{AreGroups, IsShort, AreLaidIn, IsTooLong, IsTooFar};
ghost use Rattle.code_model.specs.Offsets.{AreRising};
ghost use Rattle.code_model.specs.Layout.{width_of, home_of, end_from, laid_of};
ghost use Rattle.code_model.specs.Layout.{is_near, fits_branch, first_far_from, first_far};
ghost use Rattle.code_model.specs.declared.laying.LayError.TheVariants.{TooLong, Far};
ghost use Rattle.code_model.specs.declared.laying.LayError.TheVariants.{NoMemory as out_of_memory};

use crate::homes::homes_of;
use crate::instr::{Arg, Instr};
use crate::sizes::{end_of_groups, group_end, place_of, size_of_number};
use crate::spelling::laid_code;
use jf_bytes::{NoMemory, Seq};
use std::alloc::Global;
use thiserror::Error;

/// The greatest length of a code (JVM Specification 4.7.3).
const MOST_BYTES: u32 = 65535;

/// An original instruction, and the bytes that go in front of it.
#[derive(Debug, Drop)]
pub struct Group {
    pub before: Seq<u8>,
    pub instr: Instr,
}

/// Where each original offset comes to stand. `from` lists the original starts and then the code's end; `home` and
/// `place` have one entry for each: where the bytes in front of the instruction begin, and where it stands itself. At
/// the code's end the place is the home.
#[derive(Debug, Drop)]
pub struct Homes {
    pub from: Seq<u16>,
    pub home: Seq<u16>,
    pub place: Seq<u16>,
}

/// Code that was laid out.
#[derive(Debug, Drop)]
pub struct Laid {
    pub code: Seq<u8>,
    pub homes: Homes,
}

/// Why code cannot be laid out.
#[derive(Debug, Drop, Error)]
pub enum LayError {
    /// It would have this many bytes, which is more than 65535 (JVM Specification 4.7.3).
    #[error("too long")]
    TooLong(u32),
    /// The branch at this original offset is the first that would not fit into two bytes.
    #[error("a branch is too far")]
    Far(u16),
    #[error("no memory")]
    NoMemory,
}

impl From<NoMemory> for LayError {
    ghost from_gives = { λ _ e. e ≡ out_of_memory };

    fn from(_e: NoMemory) -> LayError {
        LayError::NoMemory
    }
}

/// Whether a distance fits into a branch offset of two bytes.
fn is_near(distance: i32) -> bool
    ensures { result ≡ is_near distance }
{
    -32768 <= distance && distance <= 32767
}

/// Whether a branch fits at this place.
fn fits_branch(homes: &Homes, place: u16, instr: &Instr) -> bool
    requires { IsStrictlyIncreasing homes.now.from }
    ensures { result ≡ fits_branch (home_of homes.now) place (width_of instr.now) instr.now.arg }
{
    match &instr.arg {
        Arg::Target(target) => size_of_number(instr).len() == 4
            || is_near(i32::from(homes.home_of(*target)) - i32::from(place)),
        _ => true,
    }
}

/// The original offset of the first branch of two bytes that does not fit.
#[tactic(auto, using(crate::proofs::CodeLayouts::Walks::walk_bounds))]
fn first_far(homes: &Homes, groups: &[Group], start: u32) -> Option<u16>
    requires homes { IsStrictlyIncreasing homes.now.from }
    requires short { end_from start groups.now ≤ 65535 }
    ensures { result ≡ first_far_from (home_of homes.now) start groups.now }
{
    let mut at = start;
    for group in groups {
        if !fits_branch(homes, place_of(group, at) as u16, &group.instr) {
            return Some(group.instr.at);
        }
        at = group_end(group, at);
    }
    None
}

/// Lays code out anew: the front, then for each group what goes in front of its instruction and the instruction itself,
/// then the back (JVM Specification 4.7.3). The instructions are those of one decoded code, in order. A target becomes
/// its home, and padding zero. What rewrites methods calls it, and carries offsets of the method's tables over by the
/// homes. To a user `TooLong` and `Far` mean that the method is too long to be profiled.
pub fn lay_out(alloc: Global, front: &[u8], groups: &[Group], back: &[u8]) -> Result<Laid, LayError>
    requires groups { AreGroups groups.now }
    requires prefix { IsShort front.now }
    requires back { IsShort back.now }
    ensures laid { IfOk result (λ laid. laid ≡ laid_of front.now groups.now back.now) }
    ensures moved { IfOk result (λ laid. AreLaidIn laid groups.now) }
    ensures rising { IfOk result (λ laid. AreRising laid.homes) }
    ensures short { IfOk result (λ laid. length laid.code ≤ 65535) }
    ensures near { IfOk result (λ laid. first_far front.now groups.now ≡ None) }
    ensures too_long { (len : ℕ) → result ≡ Err (TooLong len)
        → IsTooLong front.now groups.now back.now len }
    ensures far { (at : ℕ) → result ≡ Err (Far at) → IsTooFar front.now groups.now back.now at }
{
    let end = end_of_groups(groups, front.len() as u32);
    let len = end + back.len() as u32;
    if len > MOST_BYTES {
        return Err(LayError::TooLong(len));
    }
    let homes = homes_of(alloc, front, groups, end as u16)?;
    if let Some(at) = first_far(&homes, groups, front.len() as u32) {
        return Err(LayError::Far(at));
    }
    let code = laid_code(alloc, front, groups, back, &homes, len as usize)?;
    Ok(Laid { code, homes })
}
