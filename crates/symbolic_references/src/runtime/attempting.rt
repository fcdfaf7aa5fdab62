//! An attempt of an instruction that names a class or a member.

ghost use Rattle.std.specs.Prelude.{◌≡◌, is_some, true, IfOk, IfSome, IfNone, OnOk};
ghost use Rattle.frame_stack.specs.FrameLists.{top_operands};
ghost use Rattle.jvm_model.specs.Instructions.SymbolicReference.{resolves};
ghost use Rattle.jvm_model.specs.Instructions.ReferenceRules.{does_named};
ghost use Rattle.member_selection.specs.Attempts.{IsFound, attempts, is_loaded, loaded_for, with_more};
ghost use Rattle.member_selection.specs.Known.{IsKnown, LoadsNothing};
ghost use Rattle.member_selection.specs.Objects.{HasDimensions, HasLoadedCaller};
ghost use Rattle.member_selection.specs.Resolved.{skips};
ghost use Rattle.member_selection.specs.Answers.{asking_in_frame, done_on};
ghost use Rattle.member_selection.specs.Outcomes.{Asks, HasOperands, HaveOperands, outcome_by_rule, outcome_in_frame};
ghost use Rattle.symbolic_references.specs.Leaving.{Leaves};
ghost use Rattle.symbolic_references.specs.Runtimes.{after, linker_in, with_loaded};
ghost use Rattle.std.specs.Prelude.{drop, length};
ghost use Rattle.jvm_model.specs.Classes.Load.{load_of};
ghost use Rattle.jvm_model.specs.Instructions.SymbolicReference.{resolved_kind};
ghost use Rattle.member_selection.specs.Answers.{found_view};
ghost use Rattle.member_selection.specs.Objects.{IsResolved};

use crate::runtime::Runtime;
use frame_stack::Frames;
use heap_objects::Value;
use jf_bytes::{NoMemory, Text16};
use jvm_model::SymbolicReference;
use member_selection::{AbruptCompletion, Found, Known, Outcome, resolve, resolved_name, resolves};

/// checkcast and instanceof of null.
fn skip(frames: &Frames, reference: &SymbolicReference) -> Outcome
    ensures answer { outcome_in_frame result frames.now
        ≡ asking_in_frame (skips reference.now) frames.now }
    ensures enough { HasOperands result (top_operands frames.now.frames) }
{
    match reference {
        SymbolicReference::Instanceof(_) => Outcome::Goes(1, Some(Value::Int(0))),
        _ => Outcome::Goes(0, None),
    }
}

impl Runtime {
    /// Loads what the name stands for, and gives its kind, or what its fault raises. What was
    /// loaded before a fault stays loaded.
    pub fn resolve(&mut self, name: &Text16) -> Result<Result<u32, AbruptCompletion>, NoMemory>
        ensures found { IfOk result (λ r. found_view r
            ≡ resolved_kind self.old.world.program self.old.shared.loaded name.now) }
        ensures runtime { OnOk result (self.new ≡ with_loaded
            (load_of self.old.world.program self.old.shared.loaded name.now).loaded self.old) }
        ensures resolved { IfOk result
            (λ r. IfOk r (λ kind. IsResolved (linker_in self.new) name.now kind)) }
        ensures more { linker_in self.new ≡ with_more (linker_in self.old)
            (drop (length self.old.shared.loaded) self.new.shared.loaded) }
        ensures world { self.new.world ≡ self.old.world }
    {
        resolve(&mut self.linker, name)
    }

    /// How many classes are loaded.
    fn loaded_count(&self) -> usize
        ensures { result ≡ length self.now.shared.loaded }
    {
        self.linker.loaded().len()
    }

    /// What the name of an instruction comes to, where it resolves one.
    fn find(
        &mut self,
        frames: &Frames,
        reference: &SymbolicReference,
    ) -> Result<Option<Result<u32, AbruptCompletion>>, NoMemory>
        ensures found { IfOk result (λ found. IsFound (linker_in self.new) reference.now
            (top_operands frames.now.frames) found) }
        ensures runtime { OnOk result (self.new ≡ with_loaded
            (loaded_for self.old.world.program reference.now self.old.shared frames.now) self.old) }
        ensures loaded { OnOk result (self.new.shared.loaded
            ≡ loaded_for self.old.world.program reference.now self.old.shared frames.now) }
        ensures more { linker_in self.new ≡ with_more (linker_in self.old)
            (drop (length self.old.shared.loaded) self.new.shared.loaded) }
        ensures world { self.new.world ≡ self.old.world }
    {
        if !resolves(frames, reference) {
            return Ok(None);
        }
        let found = self.resolve(resolved_name(reference))?;
        Ok(Some(found))
    }

    /// What the instruction does, with what it names found, and what is known of it then.
    #[tactic(auto, using(crate::proofs::Again::known_found))]
    fn do_found(
        &mut self,
        frames: &Frames,
        reference: &SymbolicReference,
        found: Option<Result<u32, AbruptCompletion>>,
        learnt: &mut Option<Known>,
    ) -> Result<Outcome, NoMemory>
        requires found { IsFound (linker_in self.old) reference.now
            (top_operands frames.now.frames) found }
        requires loads { resolves reference.now (top_operands frames.now.frames) ≡ true →
            LoadsNothing (linker_in self.old) reference.now }
        requires caller { HasLoadedCaller (linker_in self.old) reference.now }
        requires dimensions { HasDimensions reference.now }
        ensures answer { Asks result
            (does_named self.old.world reference.now self.old.shared) frames.now }
        ensures runtime { Leaves result self.new
            (does_named self.old.world reference.now self.old.shared) frames.now self.old }
        ensures learnt { OnOk result (IfSome learnt.new
            (λ known. IsKnown (linker_in self.old) reference.now known)) }
        ensures world { self.new.world ≡ self.old.world }
        ensures same_loaded { self.new.shared.loaded ≡ self.old.shared.loaded }
        ensures enough { HaveOperands result frames.now }
    {
        *learnt = None;
        match found {
            None => Ok(skip(frames, reference)),
            Some(Err(completion)) => Ok(Outcome::Abrupt(completion)),
            Some(Ok(kind)) => {
                let mut found = Found::Nothing;
                let outcome = self.do_resolved(frames, reference, kind, &mut found)?;
                *learnt = Some(Known { kind, found });
                Ok(outcome)
            }
        }
    }

    /// Attempts an instruction that names a class or a member (JVM Specification 5.4.3, 6.5): loads
    /// what it names, and does what its rule says over what is loaded then. Nothing is done to the
    /// frame. The class in which an invokespecial stands has to be loaded. An Err says that memory
    /// ran out. What is learnt of the names serves the next attempt.
    pub fn attempt(
        &mut self,
        frames: &Frames,
        reference: &SymbolicReference,
        learnt: &mut Option<Known>,
    ) -> Result<Outcome, NoMemory>
        requires caller { HasLoadedCaller (linker_in self.old) reference.now }
        requires dimensions { HasDimensions reference.now }
        ensures answer { Asks result
            (attempts self.old.world reference.now self.old.shared frames.now) frames.now }
        ensures runtime { Leaves result self.new
            (attempts self.old.world reference.now self.old.shared frames.now) frames.now self.old }
        ensures learnt { OnOk result (IfSome learnt.new
            (λ known. IsKnown (linker_in self.new) reference.now known)) }
        ensures more { linker_in self.new ≡ with_more (linker_in self.old)
            (drop (length self.old.shared.loaded) self.new.shared.loaded) }
        ensures world { self.new.world ≡ self.old.world }
        ensures enough { HaveOperands result frames.now }
    {
        let found = self.find(frames, reference)?;
        self.do_found(frames, reference, found, learnt)
    }

    /// The same in two parts. Where the instruction loads classes, they are loaded, None is the
    /// answer, and nothing else is done: it is to be attempted again, and loads nothing then. Where
    /// it loads none it is attempted.
    pub fn attempt_loaded(
        &mut self,
        frames: &Frames,
        reference: &SymbolicReference,
        learnt: &mut Option<Known>,
    ) -> Result<Option<Outcome>, NoMemory>
        requires caller { HasLoadedCaller (linker_in self.old) reference.now }
        requires dimensions { HasDimensions reference.now }
        ensures some { IfOk result (λ a. is_some a
            ≡ is_loaded self.old.world reference.now self.old.shared frames.now) }
        ensures answer { let rule = attempts self.old.world reference.now self.old.shared frames.now
            in
            IfOk result (λ a. IfSome a
            (λ a. outcome_in_frame a frames.now ≡ outcome_by_rule rule frames.now)) }
        ensures runtime { let rule = attempts self.old.world reference.now self.old.shared
            frames.now in
            IfOk result (λ a. IfSome a (λ _. self.new
            ≡ after (done_on rule frames.now) self.old)) }
        ensures loads { let p = self.old.world.program in
            IfOk result (λ a. IfNone a (self.new
            ≡ with_loaded (loaded_for p reference.now self.old.shared frames.now) self.old)) }
        ensures learnt { OnOk result (IfSome learnt.new
            (λ known. IsKnown (linker_in self.new) reference.now known)) }
        ensures more { linker_in self.new ≡ with_more (linker_in self.old)
            (drop (length self.old.shared.loaded) self.new.shared.loaded) }
        ensures world { self.new.world ≡ self.old.world }
        ensures enough { IfOk result (λ a. IfSome a
            (λ a. HasOperands a (top_operands frames.now.frames))) }
    {
        let count = self.loaded_count();
        let found = self.find(frames, reference)?;
        if self.loaded_count() != count {
            *learnt = None;
            return Ok(None);
        }
        match self.do_found(frames, reference, found, learnt) {
            Ok(outcome) => Ok(Some(outcome)),
            Err(e) => Err(e),
        }
    }

    /// Attempts an instruction of whose names it is known what they come to: nothing is loaded, and
    /// no name is looked up that is known. What is known then serves the next attempt.
    #[tactic(auto, using(crate::proofs::Again::loaded_again, crate::proofs::Again::loads_none))]
    pub fn attempt_known(
        &mut self,
        frames: &Frames,
        reference: &SymbolicReference,
        known: &mut Known,
    ) -> Result<Outcome, NoMemory>
        requires known { IsKnown (linker_in self.old) reference.now known.old }
        requires caller { HasLoadedCaller (linker_in self.old) reference.now }
        requires dimensions { HasDimensions reference.now }
        ensures answer { Asks result
            (attempts self.old.world reference.now self.old.shared frames.now) frames.now }
        ensures runtime { Leaves result self.new
            (attempts self.old.world reference.now self.old.shared frames.now) frames.now self.old }
        ensures loaded { self.old.shared.loaded
            ≡ loaded_for self.old.world.program reference.now self.old.shared frames.now }
        ensures loads { is_loaded self.old.world reference.now self.old.shared frames.now ≡ true }
        ensures known { IsKnown (linker_in self.old) reference.now known.new }
        ensures world { self.new.world ≡ self.old.world }
        ensures same_loaded { self.new.shared.loaded ≡ self.old.shared.loaded }
        ensures enough { HaveOperands result frames.now }
    {
        if !resolves(frames, reference) {
            return Ok(skip(frames, reference));
        }
        let kind = known.kind;
        self.do_resolved(frames, reference, kind, &mut known.found)
    }
}
