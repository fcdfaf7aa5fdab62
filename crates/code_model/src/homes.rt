//! Where instructions come to stand when they are laid out anew.

ghost use Rattle.std.specs.Prelude.{◌≡◌, ◌≤◌, ◌<◌, ℕ, List, [], ◌∷◌, length, Some, slice_get};
ghost use Rattle.std.specs.Option.{option_and_then};
ghost use Rattle.std.specs.Prelude.{OnOk, IfOk, IfSome, All};
ghost use Rattle.std.specs.List.Sorted.{IsStrictlyIncreasing};
ghost use Rattle.code_model.specs.Layout.{spots_from, end_from, with_spots, homes_of, home_of};
ghost use Rattle.code_model.specs.Layout.{found_beside, home_in, place_in, starts_in};
ghost use Rattle.code_model.specs.Layout.{instruction_origin};
ghost use Rattle.code_model.specs.Offsets.{AreRising, IsRead, StaysInPlace, code_end};
ghost use Rattle.code_model.specs.Offsets.{own_spots, unmoved_homes};
ghost use Rattle.code_model.specs.Groups.{EndsWithin};
ghost use Rattle.code_model.specs.Spelling.{spot, home_with};

use crate::instr::{Code, Instr};
use crate::laying::{Group, Homes};
use crate::sizes::{group_end, place_of, source_end};
use jf_bytes::{NoMemory, Seq};
use std::alloc::Global;

/// No homes, with room for so many.
fn no_homes(alloc: Global, capacity: usize) -> Result<Homes, NoMemory>
    ensures { IfOk result (λ homes. homes ≡ record { from = []; home = []; place = [] }) }
{
    Ok(Homes {
        from: Seq::with_capacity(alloc, capacity)?,
        home: Seq::with_capacity(alloc, capacity)?,
        place: Seq::with_capacity(alloc, capacity)?,
    })
}

/// Adds a spot.
fn add_spot(homes: &mut Homes, from: u16, home: u16, place: u16) -> Result<(), NoMemory>
    ensures { OnOk result (homes.new ≡ with_spots homes.old (spot from home place ∷ [])) }
{
    homes.from.push(from)?;
    homes.home.push(home)?;
    homes.place.push(place)?;
    Ok(())
}

/// Adds the spots of groups that follow one another from here on.
#[tactic(auto, using(crate::proofs::CodeLayouts::Walks::walk_bounds))]
fn add_spots(homes: &mut Homes, groups: &[Group], start: u32) -> Result<(), NoMemory>
    requires { end_from start groups.now ≤ 65535 }
    ensures { OnOk result (homes.new ≡ with_spots homes.old (spots_from start groups.now)) }
{
    let mut at = start;
    for group in groups {
        add_spot(homes, group.instr.at, at as u16, place_of(group, at) as u16)?;
        at = group_end(group, at);
    }
    Ok(())
}

/// Where each original offset comes to stand behind a front. The groups end here.
#[tactic(auto, using(crate::proofs::CodeLayouts::Walks::walk_bounds))]
pub(crate) fn homes_of(
    alloc: Global,
    front: &[u8],
    groups: &[Group],
    end: u16,
) -> Result<Homes, NoMemory>
    requires ends { All EndsWithin groups.now }
    requires end { end ≡ end_from (length front.now) groups.now }
    ensures { IfOk result (λ homes. homes ≡ homes_of front.now groups.now) }
{
    let mut homes = no_homes(alloc, groups.len() + 1)?;
    add_spots(&mut homes, groups, front.len() as u32)?;
    add_spot(&mut homes, source_end(groups), end, end)?;
    Ok(homes)
}

/// Adds spots of instructions that stay where they are.
fn add_own_spots(homes: &mut Homes, instrs: &[Instr]) -> Result<(), NoMemory>
    ensures { OnOk result (homes.new ≡ with_spots homes.old (own_spots instrs.now)) }
{
    for instr in instrs {
        add_spot(homes, instr.at, instr.at, instr.at)?;
    }
    Ok(())
}

/// The homes of code that stays where it is.
fn own_homes(alloc: Global, code: &Code) -> Result<Homes, NoMemory>
    ensures { IfOk result (λ homes. homes ≡ unmoved_homes code.now) }
{
    let mut homes = no_homes(alloc, code.instrs.len())?;
    add_own_spots(&mut homes, code.instrs.as_slice())?;
    add_spot(&mut homes, code.len, code.len, code.len)?;
    Ok(homes)
}

/// Homes of code that stays where it is, as it does without probes: the start of each instruction and the code's end is
/// its own home and its own place. The code is one that `decode` gave.
pub fn homes_unmoved(alloc: Global, code: &Code) -> Result<Homes, NoMemory>
    requires { IsRead code.now }
    ensures homes { IfOk result (λ homes. homes ≡ unmoved_homes code.now) }
    ensures same { IfOk result (λ homes. StaysInPlace code.now homes) }
    ensures rising { IfOk result (λ homes. AreRising homes) }
{
    own_homes(alloc, code)
}

/// The index of a number among numbers that rise strictly. It is found by halves.
fn index_of(numbers: &[u16], wanted: u16) -> Option<usize>
    requires { IsStrictlyIncreasing numbers.now }
    ensures { (others : List ℕ) → found_beside numbers.now others wanted
        ≡ option_and_then (slice_get others) result }
{
    match numbers.binary_search(&wanted) {
        Ok(index) => Some(index),
        Err(_) => None,
    }
}

impl Homes {
    /// Where what goes in front of the instruction at an original offset begins. None where no instruction starts there
    /// and the code does not end there.
    pub fn home(&self, at: u16) -> Option<u16>
        requires { IsStrictlyIncreasing self.now.from }
        ensures { result ≡ home_in self.now at }
    {
        match index_of(self.from.as_slice(), at) {
            Some(index) => self.home.at(index),
            None => None,
        }
    }

    /// Where an original offset comes to stand: its home, or 0 where it has none.
    pub fn home_of(&self, at: u16) -> u16
        requires { IsStrictlyIncreasing self.now.from }
        ensures { result ≡ home_of self.now at }
    {
        self.home(at).unwrap_or(0)
    }

    /// The original start at this index, if it is not the code's end.
    fn start(&self, index: usize) -> Option<u16>
        ensures { result ≡ slice_get (starts_in self.now) index }
    {
        if index < self.from.len().saturating_sub(1) {
            self.from.at(index)
        } else {
            None
        }
    }

    /// The same as `origin`, known by its equation alone.
    fn origin_at(&self, place: u16) -> Option<u16>
        requires { IsStrictlyIncreasing self.now.place }
        ensures { result ≡ instruction_origin self.now place }
    {
        match index_of(self.place.as_slice(), place) {
            Some(index) => self.start(index),
            None => None,
        }
    }

    /// The original offset of the instruction that stands at a place. None at each offset between places, in front of
    /// them and where the code ends.
    pub fn origin(&self, place: u16) -> Option<u16>
        requires { AreRising self.now }
        ensures origin { result ≡ instruction_origin self.now place }
        ensures found { IfSome result (λ at. (place_in self.now at ≡ Some place)
            × (at < code_end self.now)) }
        ensures only { (at : ℕ) → place_in self.now at ≡ Some place → at < code_end self.now
            → result ≡ Some at }
    {
        self.origin_at(place)
    }
}

/// Where a target leads in code that is laid out with homes, or that stays as it was.
pub(crate) fn home_by(homes: Option<&Homes>, at: u16) -> u16
    requires { IfSome homes (λ h. IsStrictlyIncreasing h.now.from) }
    ensures { result ≡ home_with homes.entry at }
{
    match homes {
        Some(homes) => homes.home_of(at),
        None => at,
    }
}
