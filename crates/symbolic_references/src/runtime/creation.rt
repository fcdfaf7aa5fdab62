//! new (JVM Specification 2.3, 2.4, 5.5, 6.5), where the name was resolved.

ghost use Rattle.std.specs.Prelude.{◌≡◌, [], true, map, IfNone, IfOk, IfSome};
ghost use Rattle.heap_objects.specs.Heaps.{with_text};
ghost use Rattle.jvm_model.specs.Instructions.CreationRules.{allocates, has_no_instances, makes_instance};
ghost use Rattle.jvm_model.specs.Instructions.CreationRules.{zero_of};
ghost use Rattle.jvm_model.specs.Basis.SharedState.{class_of_kind};
ghost use Rattle.class_linker.specs.Linkers.{IsLoaded};
ghost use Rattle.member_selection.specs.Known.{IsClassFound, IsMade};
ghost use Rattle.member_selection.specs.Objects.{IsUsable};
ghost use Rattle.member_selection.specs.Resolved.{makes_new};
ghost use Rattle.member_selection.specs.Outcomes.{Asks, HaveOperands};
ghost use Rattle.symbolic_references.specs.Leaving.{Sets};
ghost use Rattle.symbolic_references.specs.Rules.{makes_fields, once_initialized};
ghost use Rattle.symbolic_references.specs.Runtimes.{linker_in};

use crate::runtime::Runtime;
use const_pool::Kind;
use frame_stack::Frames;
use heap_objects::{Datum, HeapError, Value};
use jf_bytes::{NoMemory, Seq};
use jvm_model::{Exception, Phase};
use member_selection::{AbruptCompletion, Found, Outcome, has_no_instances, is_text_class};
use std::alloc::Global;

/// The OutOfMemoryError that the machine makes before the start.
pub const RESERVED: u32 = 1;

/// What a field of this kind has at first.
fn zero_of(kind: Kind) -> Datum
    ensures { result ≡ zero_of kind }
{
    match kind {
        Kind::Long => Datum::Long(0),
        Kind::Ref => Datum::Ref(0),
        Kind::Int | Kind::Byte | Kind::Bool | Kind::Char | Kind::Short => Datum::Int(0),
        Kind::Float | Kind::Double => Datum::Int(0),
    }
}

/// What fields of these kinds have at first.
fn zeros(alloc: Global, kinds: &[Kind]) -> Result<Seq<Datum>, NoMemory>
    ensures { IfOk result (λ fields. fields ≡ map zero_of kinds.now) }
{
    let mut fields = Seq::with_capacity(alloc, kinds.len())?;
    for kind in kinds {
        fields.push(zero_of(*kind))?;
    }
    Ok(fields)
}

impl Runtime {
    /// An object without anything but its fields, where there is room for it.
    #[tactic(auto, using(member_selection::proofs::ObjectLemmas::objects_with))]
    fn make_fields(&mut self, frames: &Frames, kind: u32, class: u32) -> Result<Outcome, NoMemory>
        requires class { IsLoaded (linker_in self.old) class }
        requires usable { IsUsable (linker_in self.old) kind }
        ensures answer { Asks result
            (makes_fields self.old.world.program kind class self.old.shared) frames.now }
        ensures runtime { Sets result self.new
            (makes_fields self.old.world.program kind class self.old.shared) frames.now self.old }
        ensures world { self.new.world ≡ self.old.world }
        ensures same_loaded { self.new.shared.loaded ≡ self.old.shared.loaded }
        ensures enough { HaveOperands result frames.now }
    {
        let kinds = self.linker.layout(class);
        if !self.heap.has_room(1 + kinds.len()) {
            return Ok(Outcome::Abrupt(AbruptCompletion::Throws(RESERVED)));
        }
        let fields = zeros(self.alloc, kinds)?;
        match self.heap.instance(kind, fields.as_slice()) {
            Ok(number) => Ok(Outcome::Goes(0, Some(Value::Ref(number)))),
            // There is room.
            Err(HeapError::HeapFull) => unreachable!(),
            Err(HeapError::NoMemory) => Err(NoMemory),
        }
    }

    /// A text without units, where there is room for it.
    #[tactic(auto, using(member_selection::proofs::ObjectLemmas::objects_with))]
    fn make_text(&mut self, frames: &Frames, kind: u32) -> Result<Outcome, NoMemory>
        requires usable { IsUsable (linker_in self.old) kind }
        ensures answer { Asks result (allocates 1 (with_text kind []) 0 self.old.shared)
            frames.now }
        ensures runtime { Sets result self.new (allocates 1 (with_text kind []) 0 self.old.shared)
            frames.now self.old }
        ensures world { self.new.world ≡ self.old.world }
        ensures same_loaded { self.new.shared.loaded ≡ self.old.shared.loaded }
        ensures enough { HaveOperands result frames.now }
    {
        if !self.heap.has_room(1) {
            return Ok(Outcome::Abrupt(AbruptCompletion::Throws(RESERVED)));
        }
        match self.heap.text(kind, &[]) {
            Ok(number) => Ok(Outcome::Goes(0, Some(Value::Ref(number)))),
            // There is room.
            Err(HeapError::HeapFull) => unreachable!(),
            Err(HeapError::NoMemory) => Err(NoMemory),
        }
    }

    /// What `new` makes of a class that is looked up, which is kept: None where it has no
    /// instances, else whether they are texts.
    // Not inlined: it is done where nothing was found yet, and the way for what was found has to stay small.
    #[inline(never)]
    fn made_by_name(&self, kind: u32, class: u32, found: &mut Found) -> Option<bool>
        requires class { class ≡ class_of_kind self.now.world.program kind }
        requires found { IsClassFound found.old self.now.world.program kind }
        ensures none { IfNone result (has_no_instances self.now.world.program class ≡ true) }
        ensures some { IfSome result (IsMade self.now.world.program class) }
        ensures found { IsClassFound found.new self.now.world.program kind }
    {
        if has_no_instances(&self.linker, class) {
            return None;
        }
        let text = is_text_class(&self.linker, class);
        *found = Found::Made(text);
        Some(text)
    }

    /// The same where it is known.
    #[inline(always)]
    fn made_of(&self, kind: u32, class: u32, found: &mut Found) -> Option<bool>
        requires class { class ≡ class_of_kind self.now.world.program kind }
        requires found { IsClassFound found.old self.now.world.program kind }
        ensures none { IfNone result (has_no_instances self.now.world.program class ≡ true) }
        ensures some { IfSome result (IsMade self.now.world.program class) }
        ensures found { IsClassFound found.new self.now.world.program kind }
    {
        if let Found::Made(text) = *found {
            return Some(text);
        }
        self.made_by_name(kind, class, found)
    }

    /// An object of a class, where the class has instances; it is initialized, or is being.
    fn make_instance(
        &mut self,
        frames: &Frames,
        kind: u32,
        class: u32,
        found: &mut Found,
    ) -> Result<Outcome, NoMemory>
        requires class { IsLoaded (linker_in self.old) class }
        requires usable { IsUsable (linker_in self.old) kind }
        requires kind { class ≡ class_of_kind self.old.world.program kind }
        requires found { IsClassFound found.old self.old.world.program kind }
        ensures answer { Asks result
            (makes_instance self.old.world.program kind class self.old.shared) frames.now }
        ensures runtime { Sets result self.new
            (makes_instance self.old.world.program kind class self.old.shared) frames.now self.old }
        ensures found { IsClassFound found.new self.old.world.program kind }
        ensures world { self.new.world ≡ self.old.world }
        ensures same_loaded { self.new.shared.loaded ≡ self.old.shared.loaded }
        ensures enough { HaveOperands result frames.now }
    {
        match self.made_of(kind, class, found) {
            None => Ok(Outcome::Abrupt(AbruptCompletion::Raises(Exception::Instantiation, None))),
            Some(true) => self.make_text(frames, kind),
            Some(false) => self.make_fields(frames, kind, class),
        }
    }

    /// The same, once its class is initialized.
    fn make_initialized(
        &mut self,
        frames: &Frames,
        kind: u32,
        class: u32,
        found: &mut Found,
    ) -> Result<Outcome, NoMemory>
        requires class { IsLoaded (linker_in self.old) class }
        requires usable { IsUsable (linker_in self.old) kind }
        requires kind { class ≡ class_of_kind self.old.world.program kind }
        requires found { IsClassFound found.old self.old.world.program kind }
        ensures answer { let p = self.old.world.program in let s = self.old.shared in Asks result
            (once_initialized p class s (makes_instance p kind class s)) frames.now }
        ensures runtime { let p = self.old.world.program in let s = self.old.shared in
            Sets result self.new (once_initialized p class s (makes_instance p kind class s))
            frames.now self.old }
        ensures found { IsClassFound found.new self.old.world.program kind }
        ensures world { self.new.world ≡ self.old.world }
        ensures same_loaded { self.new.shared.loaded ≡ self.old.shared.loaded }
        ensures enough { HaveOperands result frames.now }
    {
        match self.phases.at(class as usize) {
            Some(Phase::Ready) => self.make_instance(frames, kind, class, found),
            Some(Phase::Running) => self.make_instance(frames, kind, class, found),
            Some(Phase::Fresh) => Ok(Outcome::Abrupt(AbruptCompletion::Initializes(class))),
            Some(Phase::Erroneous) => self.raise_unusable(frames, class),
            None => self.raise_unusable(frames, class),
        }
    }

    /// new. What is found of the class is kept, and taken where it is known.
    pub fn make_new(
        &mut self,
        frames: &Frames,
        kind: u32,
        found: &mut Found,
    ) -> Result<Outcome, NoMemory>
        requires usable { IsUsable (linker_in self.old) kind }
        requires found { IsClassFound found.old self.old.world.program kind }
        ensures answer { Asks result (makes_new self.old.world.program kind self.old.shared)
            frames.now }
        ensures runtime { Sets result self.new
            (makes_new self.old.world.program kind self.old.shared)
            frames.now self.old }
        ensures found { IsClassFound found.new self.old.world.program kind }
        ensures world { self.new.world ≡ self.old.world }
        ensures same_loaded { self.new.shared.loaded ≡ self.old.shared.loaded }
        ensures enough { HaveOperands result frames.now }
    {
        let class = self.linker.index().class_of_kind(kind);
        self.make_initialized(frames, kind, class, found)
    }
}
