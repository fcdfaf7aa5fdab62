//! What invocations come to before anything is changed (JVM Specification 5.4.3.3, 5.4.3.4, 5.4.6,
//! 6.5): the method that is selected, and how many operands are its arguments.

ghost use Rattle.std.specs.Prelude.{◌≡◌, ◌≤◌, false, true, length, IfOk, IfSome, Ok, Some};
ghost use Rattle.std.specs.Option.{option_map};
ghost use Rattle.frame_stack.specs.FrameLists.{top_operands};
ghost use Rattle.jvm_model.specs.Instructions.InvocationRules.{names_interface, selected_by};
ghost use Rattle.jvm_model.specs.Instructions.SymbolicReference.{is_below_kind};
ghost use Rattle.jvm_model.specs.declared.instruction.SymbolicReference.TheVariants.{Invokestatic};
ghost use Rattle.jvm_model.specs.Basis.Data.{Raises};
ghost use Rattle.jvm_model.specs.Basis.Programs.{name_at};
ghost use Rattle.jvm_model.specs.Basis.SharedState.{class_of_kind, no_class_definition};
ghost use Rattle.member_selection.specs.Callees.{HasCallee, chosen_place};
ghost use Rattle.member_selection.specs.Known.{IsFoundAs, IsSite, symbolic_reference_by};
ghost use Rattle.member_selection.specs.Members.{at_place};
ghost use Rattle.member_selection.specs.Objects.{IsResolved, IsUsable};
ghost use Rattle.member_selection.specs.Resolved.{method_found};
ghost use Rattle.member_selection.specs.Targets.{HasCaller, selecting_view, found_as, instance_target};
ghost use Rattle.member_selection.specs.Targets.{static_target, target_in, unready_by};
ghost use Rattle.member_selection.specs.Answers.{abrupt_view};
ghost use Rattle.symbolic_references.specs.Runtimes.{linker_in};

use crate::runtime::Runtime;
use const_pool::text_copy;
use frame_stack::Frames;
use jf_bytes::{NoMemory, Text16};
use jvm_model::{Exception, MethodName, Phase};
use member_selection::{
    AbruptCompletion, Chosen, DeclaredMember, Found, Selecting, Site, Target, argument_count,
    callee_of, method_found, names_interface, receiver_below, receiver_kind, selected_by,
};
use std::alloc::Global;

impl Runtime {
    /// What is selected for objects of a kind, which is kept.
    // Not inlined: it is for objects of another kind than the last, and the way for the last has to stay small.
    #[inline(never)]
    #[tactic(auto, using(member_selection::proofs::KnownLemmas::site_of))]
    fn select_anew(
        &self,
        by: Selecting<'_>,
        method: &MethodName,
        kind: u32,
        m: DeclaredMember,
        lower: u32,
        found: &mut Found,
    ) -> Option<Chosen>
        requires named { method_found self.now.world.program kind
            (names_interface (selecting_view by))
            false method.now ≡ Ok (at_place m) }
        requires below { is_below_kind self.now.world.program (Some lower) (Some kind) ≡ true }
        requires usable { IsUsable (linker_in self.now) lower }
        requires caller { HasCaller (linker_in self.now) (selecting_view by) }
        requires found { IsFoundAs found.old self.now.world.program kind
            (symbolic_reference_by (selecting_view by) method.now) }
        ensures chosen { let p = self.now.world.program in option_map chosen_place result
            ≡ selected_by p (selecting_view by.entry) (at_place m) (class_of_kind p lower) }
        ensures callee { IfSome result (HasCallee self.now.world.program) }
        ensures found { IsFoundAs found.new self.now.world.program kind
            (symbolic_reference_by (selecting_view by.entry) method.now) }
    {
        let place = selected_by(
            &self.linker,
            by,
            m,
            self.linker.index().class_of_kind(lower),
        )?;
        let callee = callee_of(&self.linker, &self.tables.numbers, place);
        let chosen = Chosen { place, callee };
        *found = Found::Selected(Site {
            method: m,
            last: lower,
            chosen,
        });
        Some(chosen)
    }

    /// The same where it is known for the objects of the last kind. invokespecial selects the same
    /// for those of every kind.
    #[inline(always)]
    fn select_again(
        &self,
        by: Selecting<'_>,
        method: &MethodName,
        kind: u32,
        site: Site,
        lower: u32,
        found: &mut Found,
    ) -> Option<Chosen>
        requires site { IsSite self.now.world.program kind (selecting_view by) method.now site }
        requires below { is_below_kind self.now.world.program (Some lower) (Some kind) ≡ true }
        requires usable { IsUsable (linker_in self.now) lower }
        requires caller { HasCaller (linker_in self.now) (selecting_view by) }
        requires found { IsFoundAs found.old self.now.world.program kind
            (symbolic_reference_by (selecting_view by) method.now) }
        ensures chosen { let p = self.now.world.program in option_map chosen_place result
            ≡ selected_by p (selecting_view by.entry) (at_place site.method)
            (class_of_kind p lower) }
        ensures callee { IfSome result (HasCallee self.now.world.program) }
        ensures found { IsFoundAs found.new self.now.world.program kind
            (symbolic_reference_by (selecting_view by.entry) method.now) }
    {
        if lower == site.last {
            return Some(site.chosen);
        }
        if let Selecting::Special(_, _) = by {
            return Some(site.chosen);
        }
        self.select_anew(by, method, kind, site.method, lower, found)
    }

    /// What an instruction other than invokestatic comes to, where the method and a selection are
    /// known.
    #[inline(always)]
    fn known_target(
        &self,
        frames: &Frames,
        by: Selecting<'_>,
        method: &MethodName,
        kind: u32,
        site: Site,
        found: &mut Found,
    ) -> Result<Target, AbruptCompletion>
        requires resolved { IsResolved (linker_in self.now) method.now.class kind }
        requires caller { HasCaller (linker_in self.now) (selecting_view by) }
        requires site { IsSite self.now.world.program kind (selecting_view by) method.now site }
        requires found { IsFoundAs found.old self.now.world.program kind
            (symbolic_reference_by (selecting_view by) method.now) }
        ensures target { let o = top_operands frames.now.frames in found_as (target_in o) result
            ≡ instance_target self.now.world.program kind (selecting_view by.entry) method.now
            self.now.shared.heap o }
        ensures within { IfOk result (λ t. t.count ≤ length (top_operands frames.now.frames)) }
        ensures callee { IfOk result (λ t. IfSome t.selected (HasCallee self.now.world.program)) }
        ensures found { IsFoundAs found.new self.now.world.program kind
            (symbolic_reference_by (selecting_view by.entry) method.now) }
    {
        let Some(count) = argument_count(true, method, frames) else {
            return Err(AbruptCompletion::Breaks);
        };
        let object = receiver_below(frames, count);
        let last = Some(site.last);
        match receiver_kind(&self.linker, &self.heap, by, method, kind, last, object) {
            Ok(lower) => Ok(Target {
                selected: self.select_again(by, method, kind, site, lower, found),
                count,
            }),
            Err(completion) => Err(completion),
        }
    }

    /// The same where the method is looked up.
    // Not inlined: it is done where nothing was found yet, and the way for what was found has to stay small.
    #[inline(never)]
    fn target_by_name(
        &self,
        frames: &Frames,
        by: Selecting<'_>,
        method: &MethodName,
        kind: u32,
        found: &mut Found,
    ) -> Result<Target, AbruptCompletion>
        requires resolved { IsResolved (linker_in self.now) method.now.class kind }
        requires caller { HasCaller (linker_in self.now) (selecting_view by) }
        requires found { IsFoundAs found.old self.now.world.program kind
            (symbolic_reference_by (selecting_view by) method.now) }
        ensures target { let o = top_operands frames.now.frames in found_as (target_in o) result
            ≡ instance_target self.now.world.program kind (selecting_view by.entry) method.now
            self.now.shared.heap o }
        ensures within { IfOk result (λ t. t.count ≤ length (top_operands frames.now.frames)) }
        ensures callee { IfOk result (λ t. IfSome t.selected (HasCallee self.now.world.program)) }
        ensures found { IsFoundAs found.new self.now.world.program kind
            (symbolic_reference_by (selecting_view by.entry) method.now) }
    {
        let m = match method_found(&self.linker, kind, names_interface(by), false, method) {
            Ok(m) => m,
            Err(completion) => return Err(completion),
        };
        let Some(count) = argument_count(true, method, frames) else {
            return Err(AbruptCompletion::Breaks);
        };
        let object = receiver_below(frames, count);
        match receiver_kind(&self.linker, &self.heap, by, method, kind, None, object) {
            Ok(lower) => Ok(Target {
                selected: self.select_anew(by, method, kind, m, lower, found),
                count,
            }),
            Err(completion) => Err(completion),
        }
    }

    /// What an instruction other than invokestatic comes to, where the class of the method's name
    /// was resolved to this kind. The method that is found is kept, with what is selected for the
    /// receiver's kind.
    #[tactic(auto, using(member_selection::proofs::KnownLemmas::of_site))]
    pub fn instance_target(
        &self,
        frames: &Frames,
        by: Selecting<'_>,
        method: &MethodName,
        kind: u32,
        found: &mut Found,
    ) -> Result<Target, AbruptCompletion>
        requires resolved { IsResolved (linker_in self.now) method.now.class kind }
        requires caller { HasCaller (linker_in self.now) (selecting_view by) }
        requires found { IsFoundAs found.old self.now.world.program kind
            (symbolic_reference_by (selecting_view by) method.now) }
        ensures target { let o = top_operands frames.now.frames in found_as (target_in o) result
            ≡ instance_target self.now.world.program kind (selecting_view by.entry) method.now
            self.now.shared.heap o }
        ensures within { IfOk result (λ t. t.count ≤ length (top_operands frames.now.frames)) }
        ensures callee { IfOk result (λ t. IfSome t.selected (HasCallee self.now.world.program)) }
        ensures found { IsFoundAs found.new self.now.world.program kind
            (symbolic_reference_by (selecting_view by.entry) method.now) }
    {
        if let Found::Selected(site) = *found {
            return self.known_target(frames, by, method, kind, site, found);
        }
        self.target_by_name(frames, by, method, kind, found)
    }

    /// The name of the class of this number. NoClassDefFoundError tells it of one that can not be
    /// used.
    pub fn class_name(&self, class: u32) -> Result<Option<Text16>, NoMemory>
        ensures { IfOk result (λ name. name ≡ name_at self.now.world.program class) }
    {
        match self.linker.index().name_at(class) {
            Some(name) => Ok(Some(text_copy(self.alloc, name)?)),
            None => Ok(None),
        }
    }

    /// NoClassDefFoundError, with the name of the class that can not be used.
    pub fn unusable(&self, class: u32) -> Result<AbruptCompletion, NoMemory>
        ensures { IfOk result (λ completion. abrupt_view completion
            ≡ Raises no_class_definition (name_at self.now.world.program class)) }
    {
        let message = self.class_name(class)?;
        Ok(AbruptCompletion::Raises(Exception::NoClassDefinition, message))
    }

    /// What is asked for where a class has to be initialized before, or can not be used (5.5).
    fn unready(
        &self,
        class: u32,
        phase: Option<Phase>,
    ) -> Result<Option<AbruptCompletion>, NoMemory>
        ensures { IfOk result (λ completion. option_map abrupt_view completion
            ≡ unready_by self.now.world.program class phase) }
    {
        match phase {
            Some(Phase::Ready) => Ok(None),
            Some(Phase::Running) => Ok(None),
            Some(Phase::Fresh) => Ok(Some(AbruptCompletion::Initializes(class))),
            Some(Phase::Erroneous) => Ok(Some(self.unusable(class)?)),
            None => Ok(Some(self.unusable(class)?)),
        }
    }

    /// The method that invokestatic names, as it is known or looked up.
    fn static_found(
        &self,
        method: &MethodName,
        kind: u32,
        found: &mut Found,
    ) -> Result<Chosen, AbruptCompletion>
        requires usable { IsUsable (linker_in self.now) kind }
        requires found { IsFoundAs found.old self.now.world.program kind (Invokestatic method.now) }
        ensures method { found_as chosen_place result
            ≡ method_found self.now.world.program kind false true method.now }
        ensures callee { IfOk result (HasCallee self.now.world.program) }
        ensures found { IsFoundAs found.new self.now.world.program kind (Invokestatic method.now) }
    {
        if let Found::Fixed(m) = *found {
            return Ok(m);
        }
        match method_found(&self.linker, kind, false, true, method) {
            Ok(place) => {
                let callee = callee_of(&self.linker, &self.tables.numbers, place);
                let m = Chosen { place, callee };
                *found = Found::Fixed(m);
                Ok(m)
            }
            Err(completion) => Err(completion),
        }
    }

    /// What invokestatic comes to, where the class of the method's name was resolved to this kind.
    /// The method that is found is kept.
    pub fn static_target(
        &self,
        frames: &Frames,
        method: &MethodName,
        kind: u32,
        found: &mut Found,
    ) -> Result<Result<Target, AbruptCompletion>, NoMemory>
        requires usable { IsUsable (linker_in self.now) kind }
        requires found { IsFoundAs found.old self.now.world.program kind (Invokestatic method.now) }
        ensures target { let o = top_operands frames.now.frames in
            IfOk result (λ t. found_as (target_in o) t
            ≡ static_target self.now.world.program kind method.now self.now.shared o) }
        ensures within { IfOk result (λ t.
            IfOk t (λ t. t.count ≤ length (top_operands frames.now.frames))) }
        ensures callee { IfOk result (λ t.
            IfOk t (λ t. IfSome t.selected (HasCallee self.now.world.program))) }
        ensures found { IsFoundAs found.new self.now.world.program kind (Invokestatic method.now) }
    {
        let m = match self.static_found(method, kind, found) {
            Ok(m) => m,
            Err(completion) => return Ok(Err(completion)),
        };
        let phase = self.phases.at(m.place.class as usize);
        if let Some(completion) = self.unready(m.place.class, phase)? {
            return Ok(Err(completion));
        }
        match argument_count(false, method, frames) {
            Some(count) => Ok(Ok(Target {
                selected: Some(m),
                count,
            })),
            None => Ok(Err(AbruptCompletion::Breaks)),
        }
    }
}
