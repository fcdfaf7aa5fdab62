//! What was selected for receivers, kept for the whole program (JVM Specification 5.4.6): a site
//! with receivers of many kinds finds it in constant work.

ghost use Rattle.std.specs.Prelude.{◌≡◌, [], true, IfOk, IfSome};
ghost use Rattle.class_linker.specs.Linkers.{LinkerView};
ghost use Rattle.jvm_model.specs.declared.program.Program.{Program};
ghost use Rattle.member_selection.specs.Known.{IsKnown};
ghost use Rattle.member_selection.specs.Selections.{AreSelections, IsSelection, selection_for, site_for};

use crate::declared_member::DeclaredMember;
use crate::known::{Chosen, Found, Known, Site};
use jf_bytes::{NoMemory, Seq};
use jvm_model::SymbolicReference;
use std::alloc::Global;
use std::marker::Model;

/// How many slots a selection may stand in.
const NEAR: usize = 8;

/// How many slots there are at first.
const FIRST: usize = 16;

/// The kind that a method's class was named by, whether the method is an interface's, and what is
/// selected of it for receivers of the last kind.
#[derive(Clone, Copy, Debug, PartialEq, Eq)]
pub struct Selection {
    pub kind: u32,
    pub interface: bool,
    pub site: Site,
}

/// What was selected, each in one of the slots that its hash tells; at most half of all are taken,
/// so a look-up is constant work. Less may be kept than was selected.
#[derive(Drop)]
pub struct Selections {
    slots: Seq<Option<Selection>>,
    taken: usize,
}

impl Model for Selections {
    ghost use Rattle.member_selection.specs.Selections.{Slots};

    ghost Value = { Slots };

    ghost view = { λ s. s.slots };
}

// ---- where it stands

/// A hash of what it is selected for.
#[inline(always)]
fn hash_of(kind: u32, method: DeclaredMember, last: u32) -> usize {
    let mixed = last.wrapping_mul(31).wrapping_add(method.class);
    let mixed = mixed.wrapping_mul(31).wrapping_add(method.position as u32);
    mixed.wrapping_mul(31).wrapping_add(kind) as usize
}

/// The slot that stands so far behind its first one, where there are so many: a power of two.
#[inline(always)]
fn slot_at(hash: usize, behind: usize, count: usize) -> usize {
    hash.wrapping_add(behind) & count.wrapping_sub(1)
}

/// Whether it was selected for this.
#[inline(always)]
fn is_for(s: &Selection, kind: u32, interface: bool, method: DeclaredMember, last: u32) -> bool
    ensures last { result ≡ true → s.now.site.last ≡ last }
    ensures method { result ≡ true → s.now.site.method ≡ method }
    ensures kind { result ≡ true → s.now.kind ≡ kind }
    ensures interface { result ≡ true → s.now.interface ≡ interface }
{
    s.site.last == last && s.site.method == method && s.kind == kind && s.interface == interface
}

/// What a slot has that was selected for this.
#[inline(always)]
fn chosen_in(
    slots: &Seq<Option<Selection>>,
    at: usize,
    kind: u32,
    interface: bool,
    method: DeclaredMember,
    last: u32,
) -> Option<Chosen>
    ensures { (p : Program) → AreSelections p slots.now → IfSome result
        (λ c. IsSelection p (selection_for kind interface (site_for method last c))) }
{
    let Some(slot) = slots.at(at) else {
        return None;
    };
    let Some(s) = slot else {
        return None;
    };
    if is_for(&s, kind, interface, method, last) {
        Some(s.site.chosen)
    } else {
        None
    }
}

// ---- what is kept more

/// Whether a selection can stand in a slot: that is free, or has what was selected for the same.
fn can_stand(slots: &Seq<Option<Selection>>, at: usize, s: &Selection) -> bool {
    match slots.at(at) {
        Some(Some(old)) => is_for(&old, s.kind, s.interface, s.site.method, s.site.last),
        Some(None) => true,
        None => false,
    }
}

/// The first slot in which it can stand, or else the first of all.
fn slot_for(slots: &Seq<Option<Selection>>, s: &Selection) -> usize {
    let hash = hash_of(s.kind, s.site.method, s.site.last);
    for behind in 0..NEAR {
        let at = slot_at(hash, behind, slots.len());
        if can_stand(slots, at, s) {
            return at;
        }
    }
    slot_at(hash, 0, slots.len())
}

/// Puts a selection into its slot. Whether that was free.
#[tactic(auto, using(crate::proofs::SelectionLemmas::set_selection))]
fn put_selection(slots: &mut Seq<Option<Selection>>, s: Selection) -> bool
    ensures { (p : Program) → AreSelections p slots.old → IsSelection p s
        → AreSelections p slots.new }
{
    let at = slot_for(slots, &s);
    if at >= slots.len() {
        return false;
    }
    let free = slots.at(at) == Some(None);
    slots.set(at, Some(s));
    free
}

/// So many free slots.
fn free_slots(alloc: Global, count: usize) -> Result<Seq<Option<Selection>>, NoMemory>
    ensures { (p : Program) → IfOk result (AreSelections p) }
{
    let mut slots = Seq::new(alloc);
    for _ in 0..count {
        let Ok(()) = slots.push(None) else {
            return Err(NoMemory);
        };
    }
    Ok(slots)
}

/// Puts what another slot has into its slot.
fn put_from(wider: &mut Seq<Option<Selection>>, slots: &Seq<Option<Selection>>, at: usize)
    ensures { (p : Program) → AreSelections p slots.now → AreSelections p wider.old
        → AreSelections p wider.new }
{
    let Some(slot) = slots.at(at) else {
        return;
    };
    let Some(s) = slot else {
        return;
    };
    put_selection(wider, s);
}

/// Twice as many slots, with what is kept.
fn slots_widened(
    alloc: Global,
    slots: &Seq<Option<Selection>>,
) -> Result<Seq<Option<Selection>>, NoMemory>
    ensures { (p : Program) → AreSelections p slots.now → IfOk result (AreSelections p) }
{
    let mut wider = free_slots(alloc, slots.len().saturating_mul(2).max(FIRST))?;
    for at in 0..slots.len() {
        put_from(&mut wider, slots, at);
    }
    Ok(wider)
}

impl Selections {
    /// Nothing is kept.
    pub fn new(alloc: Global) -> Selections
        ensures { result ≡ [] }
    {
        Selections {
            slots: Seq::new(alloc),
            taken: 0,
        }
    }

    /// What is selected for receivers of the last kind, if it is kept.
    #[inline(always)]
    pub fn chosen(
        &self,
        kind: u32,
        interface: bool,
        method: DeclaredMember,
        last: u32,
    ) -> Option<Chosen>
        ensures { (p : Program) → AreSelections p self.now → IfSome result
            (λ c. IsSelection p (selection_for kind interface (site_for method last c))) }
    {
        let hash = hash_of(kind, method, last);
        for behind in 0..NEAR {
            let at = slot_at(hash, behind, self.slots.len());
            let found = chosen_in(&self.slots, at, kind, interface, method, last);
            if found.is_some() {
                return found;
            }
        }
        None
    }

    /// Makes more slots where half of them are taken.
    fn make_room(&mut self, alloc: Global) -> Result<(), NoMemory>
        ensures { (p : Program) → AreSelections p self.old → AreSelections p self.new }
    {
        if self.taken < self.slots.len() / 2 {
            return Ok(());
        }
        match slots_widened(alloc, &self.slots) {
            Ok(wider) => {
                self.slots = wider;
                Ok(())
            }
            Err(e) => Err(e),
        }
    }

    /// Keeps a selection. Where memory runs out it is not kept.
    fn put(&mut self, alloc: Global, s: Selection)
        ensures { (p : Program) → AreSelections p self.old → IsSelection p s
            → AreSelections p self.new }
    {
        if self.make_room(alloc).is_err() {
            return;
        }
        if put_selection(&mut self.slots, s) {
            self.taken = self.taken.wrapping_add(1);
        }
    }

    /// Keeps what an instruction's names came to, where that is of a receiver.
    pub fn keep(&mut self, alloc: Global, reference: &SymbolicReference, known: &Known)
        ensures { (l : LinkerView) → AreSelections l.program self.old
            → IsKnown l reference.now known.now → AreSelections l.program self.new }
    {
        let Found::Selected(site) = known.found else {
            return;
        };
        let kind = known.kind;
        match reference {
            SymbolicReference::Invokevirtual(_) => self.put(
                alloc,
                Selection {
                    kind,
                    interface: false,
                    site,
                },
            ),
            SymbolicReference::Invokeinterface(_) => self.put(
                alloc,
                Selection {
                    kind,
                    interface: true,
                    site,
                },
            ),
            _ => {}
        }
    }
}
