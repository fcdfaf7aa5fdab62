//! Accesses of fields, and which methods are invoked, where it is known what their names came to.
//! Accesses are done only where they raise nothing; else nothing is done.

ghost use Rattle.std.specs.Prelude.{◌≡◌, ◌≤◌, ℕ, drop, length, true, IfSome, Ok, Some};
ghost use Rattle.const_pool.specs.References.{Reference};
ghost use Rattle.std.specs.Option.{option_map};
ghost use Rattle.jvm_basic.specs.Outcomes.{top_locals};
ghost use Rattle.jvm_model.specs.Instructions.InvocationRules.{invokes_selected};
ghost use Rattle.frame_stack.specs.FrameLists.{top_operands};
ghost use Rattle.jvm_model.specs.declared.instruction.SymbolicReference.TheVariants.{Getfield, Getstatic, Invokestatic, Putfield, Putstatic};
ghost use Rattle.member_selection.specs.Attempts.{attempts, loads_nothing};
ghost use Rattle.member_selection.specs.Callees.{HasCallee, chosen_place};
ghost use Rattle.member_selection.specs.Known.{IsFixed, IsFoundAs, IsKnown, IsSite, symbolic_reference_by};
ghost use Rattle.member_selection.specs.Objects.{IsResolved, IsUsable};
ghost use Rattle.symbolic_references.specs.Passing.{IfPassed, IsCall, IsInvoked, is_usable};
ghost use Rattle.jvm_model.specs.declared.program.Program.{Program};
ghost use Rattle.jvm_model.specs.Basis.SharedState.{phase_of};
ghost use Rattle.member_selection.specs.Resolved.{gets_instance, gets_static, puts_instance};
ghost use Rattle.member_selection.specs.Resolved.{puts_static};
ghost use Rattle.member_selection.specs.Resolved.{invokes_instance, invokes_static_method};
ghost use Rattle.member_selection.specs.Selections.{site_for};
ghost use Rattle.member_selection.specs.Targets.{data_in, instance_target, static_target};
ghost use Rattle.member_selection.specs.Targets.{selecting_view, target_in};
ghost use Rattle.member_selection.specs.Answers.{done_on};
ghost use Rattle.symbolic_references.specs.Runtimes.{linker_in};

use crate::invoked::{Call, Invoked, NativeCall};
use crate::runtime::Runtime;
use crate::runtime::fields::putting_of;
use crate::runtime::statics::field_held;
use class_index::held_by;
use frame_stack::Frames;
use jvm_model::{MemberName, MethodName, Phase, SymbolicReference};
use member_selection::{
    Callee, Chosen, Found, Known, Outcome, Selecting, Site, Target, argument_count, kind_of_object,
    pass_by, receiver_below,
};

impl Runtime {
    /// getfield.
    fn pass_getfield(
        &self,
        frames: &mut Frames,
        member: &MemberName,
        kind: u32,
        found: Found,
        next: u16,
    ) -> bool
        requires resolved { IsResolved (linker_in self.now) member.now.class kind }
        requires found { IsFoundAs found self.now.world.program kind (Getfield member.now) }
        ensures { let r = member.now in
            let d = done_on (gets_instance self.now.world.program kind r self.now.shared)
            frames.old in
            IfPassed result d next frames.old self.now frames.new self.now }
    {
        let Found::Field(field, slot, last) = found else {
            return false;
        };
        let outcome = self.read_known(frames, member, kind, field, slot, last);
        pass_by(frames, outcome, next)
    }

    /// putfield.
    fn pass_putfield(
        &mut self,
        frames: &mut Frames,
        member: &MemberName,
        kind: u32,
        found: Found,
        next: u16,
    ) -> bool
        requires resolved { IsResolved (linker_in self.old) member.now.class kind }
        requires found { IsFoundAs found self.old.world.program kind (Putfield member.now) }
        ensures passed { let r = member.now in
            let d = done_on (puts_instance self.old.world.program kind r self.old.shared)
            frames.old in
            IfPassed result d next frames.old self.old frames.new self.new }
        ensures world { self.new.world ≡ self.old.world }
        ensures same_loaded { self.new.shared.loaded ≡ self.old.shared.loaded }
    {
        let Found::Field(field, slot, last) = found else {
            return false;
        };
        let Some(putting) = putting_of(frames, held_by(member.descriptor().units())) else {
            return false;
        };
        let Ok(owner) = self.known_owner(member, kind, field, last, putting.object) else {
            return false;
        };
        if !pass_by(frames, Outcome::Goes(2, None), next) {
            return false;
        }
        self.put_at(owner, slot, putting.datum);
        true
    }

    /// getstatic.
    fn pass_getstatic(
        &self,
        frames: &mut Frames,
        member: &MemberName,
        kind: u32,
        found: Found,
        next: u16,
    ) -> bool
        requires found { IsFoundAs found self.now.world.program kind (Getstatic member.now) }
        ensures { let r = member.now in
            let d = done_on (gets_static self.now.world.program kind r self.now.shared)
            frames.old in
            IfPassed result d next frames.old self.now frames.new self.now }
    {
        let Found::Static(field) = found else {
            return false;
        };
        if !self.is_usable(field.class) {
            return false;
        }
        let outcome = self.push_static_field(frames, field);
        pass_by(frames, outcome, next)
    }

    /// putstatic.
    fn pass_putstatic(
        &mut self,
        frames: &mut Frames,
        member: &MemberName,
        kind: u32,
        found: Found,
        next: u16,
    ) -> bool
        requires found { IsFoundAs found self.old.world.program kind (Putstatic member.now) }
        ensures passed { let r = member.now in
            let d = done_on (puts_static self.old.world.program kind r self.old.shared)
            frames.old in
            IfPassed result d next frames.old self.old frames.new self.new }
        ensures world { self.new.world ≡ self.old.world }
        ensures same_loaded { self.new.shared.loaded ≡ self.old.shared.loaded }
    {
        let Found::Static(place) = found else {
            return false;
        };
        if !self.is_usable(place.class) {
            return false;
        }
        let Some(datum) = field_held(frames, held_by(member.descriptor().units())) else {
            return false;
        };
        if !pass_by(frames, Outcome::Goes(1, None), next) {
            return false;
        }
        self.put_static_at(place, datum);
        true
    }

    /// An access of a field by what its names came to. False, with nothing changed, where anything
    /// but that the frame goes on would come.
    #[tactic(auto, using(crate::proofs::Again::loads_none))]
    pub fn pass_field(
        &mut self,
        frames: &mut Frames,
        reference: &SymbolicReference,
        next: u16,
        known: &Known,
    ) -> bool
        requires known { IsKnown (linker_in self.old) reference.now known.now }
        ensures passed { let rule = attempts self.old.world reference.now self.old.shared frames.old
            in
            IfPassed result (done_on rule frames.old) next frames.old self.old frames.new self.new }
        ensures loads { let n = reference.now in loads_nothing self.old.world.program
            self.old.shared.loaded n (top_operands frames.old.frames) ≡ true }
        ensures world { self.new.world ≡ self.old.world }
        ensures same_loaded { self.new.shared.loaded ≡ self.old.shared.loaded }
    {
        let kind = known.kind;
        let found = known.found;
        match reference {
            SymbolicReference::Getfield(member) => {
                self.pass_getfield(frames, member, kind, found, next)
            }
            SymbolicReference::Putfield(member) => {
                self.pass_putfield(frames, member, kind, found, next)
            }
            SymbolicReference::Getstatic(member) => {
                self.pass_getstatic(frames, member, kind, found, next)
            }
            SymbolicReference::Putstatic(member) => {
                self.pass_putstatic(frames, member, kind, found, next)
            }
            _ => false,
        }
    }

    /// Whether a class is initialized, or is being.
    fn is_usable(&self, class: u32) -> bool
        ensures { result ≡ is_usable (phase_of self.now.shared class) }
    {
        match self.phases.at(class as usize) {
            Some(Phase::Ready) => true,
            Some(Phase::Running) => true,
            Some(Phase::Fresh) => false,
            Some(Phase::Erroneous) => false,
            None => false,
        }
    }

    /// What is invoked of a target, where that is known by a number.
    #[inline(always)]
    fn call_of(&self, frames: &Frames, target: Target) -> Option<Invoked>
        requires within { target.count ≤ length (top_operands frames.now.frames) }
        requires callee { IfSome target.selected (HasCallee self.now.world.program) }
        ensures { let w = self.now.world in
            let fs = frames.now.frames in let o = top_operands fs in
            let d = invokes_selected w (option_map chosen_place target.selected)
            (data_in target.count o) self.now.shared (top_locals fs) (drop target.count o) in
            IfSome result (λ c. IsInvoked w c d self.now.shared fs) }
    {
        let Some(m) = target.selected else {
            return None;
        };
        match m.callee {
            Callee::Code(method) => Some(Invoked::Code(Call {
                method,
                count: target.count,
            })),
            Callee::Native(number) => Some(Invoked::Native(NativeCall {
                number,
                count: target.count,
            })),
            Callee::Other => None,
        }
    }

    /// What a static method that was found is invoked on, where its class need not be initialized
    /// before.
    #[inline(always)]
    fn fixed_target(&self, frames: &Frames, method: &MethodName, m: Chosen) -> Option<Target>
        ensures target { (p : Program) (kind : ℕ) → IsFixed p kind method.now m
            → let o = top_operands frames.now.frames in
            IfSome result
            (λ t. Ok (target_in o t) ≡ static_target p kind method.now self.now.shared o) }
        ensures within { IfSome result (λ t. t.count ≤ length (top_operands frames.now.frames)) }
        ensures selected { IfSome result (λ t. t.selected ≡ Some m) }
    {
        if !self.is_usable(m.place.class) {
            return None;
        }
        match argument_count(false, method, frames) {
            Some(count) => Some(Target {
                selected: Some(m),
                count,
            }),
            None => None,
        }
    }

    /// invokestatic, where its method was found.
    #[inline(always)]
    fn static_call(
        &self,
        frames: &Frames,
        method: &MethodName,
        kind: u32,
        known: Found,
    ) -> Option<Invoked>
        requires found { IsFoundAs known self.now.world.program kind (Invokestatic method.now) }
        ensures { let w = self.now.world in
            let d = done_on (invokes_static_method w kind method.now self.now.shared) frames.now in
            IfSome result (λ c. IsInvoked w c d self.now.shared frames.now.frames) }
    {
        let Found::Fixed(m) = known else {
            return None;
        };
        match self.fixed_target(frames, method, m) {
            Some(target) => self.call_of(frames, target),
            None => None,
        }
    }

    /// What is selected for receivers of a kind, where it is kept. invokespecial selects the same
    /// for those of every kind.
    #[inline(always)]
    #[tactic(auto, using(member_selection::proofs::SelectionLemmas::if_kept, member_selection::proofs::SelectionLemmas::special_kept))]
    fn kept_for(&self, by: Selecting<'_>, kind: u32, site: Site, last: u32) -> Option<Chosen>
        requires usable { IsUsable (linker_in self.now) last }
        ensures { let p = self.now.world.program in let s = selecting_view by.entry in
            (r : Reference) →
            IsSite p kind s r site → IfSome result
            (λ c. IsSite p kind s r (site_for site.method last c)) }
    {
        if last == site.last {
            return Some(site.chosen);
        }
        match by {
            Selecting::Virtual => self.selections.chosen(kind, false, site.method, last),
            Selecting::OfInterface => self.selections.chosen(kind, true, site.method, last),
            Selecting::Special(_, _) => {
                if self.linker.subtype(last, kind) {
                    Some(site.chosen)
                } else {
                    None
                }
            }
        }
    }

    /// What is invoked of an instance method on the operands, where what is selected for the
    /// receiver is kept.
    #[inline(always)]
    fn kept_target(
        &self,
        frames: &Frames,
        by: Selecting<'_>,
        method: &MethodName,
        kind: u32,
        site: Site,
    ) -> Option<Target>
        requires resolved { IsResolved (linker_in self.now) method.now.class kind }
        requires site { IsSite self.now.world.program kind (selecting_view by) method.now site }
        ensures target { let o = top_operands frames.now.frames in
            let s = selecting_view by.entry in
            IfSome result (λ t. Ok (target_in o t)
            ≡ instance_target self.now.world.program kind s method.now self.now.shared.heap o) }
        ensures within { IfSome result (λ t. t.count ≤ length (top_operands frames.now.frames)) }
        ensures callee { IfSome result (λ t. IfSome t.selected (HasCallee self.now.world.program)) }
    {
        let Some(count) = argument_count(true, method, frames) else {
            return None;
        };
        let object = receiver_below(frames, count);
        if object == 0 {
            return None;
        }
        let Some(last) = kind_of_object(&self.linker, &self.heap, object) else {
            return None;
        };
        let Some(chosen) = self.kept_for(by, kind, site, last) else {
            return None;
        };
        Some(Target {
            selected: Some(chosen),
            count,
        })
    }

    /// The other three, where what is selected for the receiver is kept.
    fn instance_call(
        &self,
        frames: &Frames,
        by: Selecting<'_>,
        method: &MethodName,
        kind: u32,
        known: Found,
    ) -> Option<Invoked>
        requires resolved { IsResolved (linker_in self.now) method.now.class kind }
        requires found { IsFoundAs known self.now.world.program kind
            (symbolic_reference_by (selecting_view by) method.now) }
        ensures { let w = self.now.world in
            let r = method.now in
            let rule = invokes_instance w kind (selecting_view by.entry) r self.now.shared in
            IfSome result
            (λ c. IsInvoked w c (done_on rule frames.now) self.now.shared frames.now.frames) }
    {
        let Found::Selected(site) = known else {
            return None;
        };
        match self.kept_target(frames, by, method, kind, site) {
            Some(target) => self.call_of(frames, target),
            None => None,
        }
    }

    /// Which method an instruction invokes, by what its names came to and what was selected. None
    /// where it invokes none that is known by a number, or anything else would come, or where an
    /// attempt would learn more.
    #[inline(always)]
    #[tactic(auto, using(crate::proofs::Again::loads_none))]
    pub fn known_call(
        &self,
        frames: &Frames,
        reference: &SymbolicReference,
        known: &Known,
    ) -> Option<Invoked>
        requires known { IsKnown (linker_in self.now) reference.now known.now }
        ensures called { let w = self.now.world in
            let d = done_on (attempts w reference.now self.now.shared frames.now) frames.now in
            IfSome result (λ c. IsInvoked w c d self.now.shared frames.now.frames) }
        ensures loads { let n = reference.now in loads_nothing self.now.world.program
            self.now.shared.loaded n (top_operands frames.now.frames) ≡ true }
    {
        let kind = known.kind;
        match reference {
            SymbolicReference::Invokestatic(method) => {
                self.static_call(frames, method, kind, known.found)
            }
            SymbolicReference::Invokevirtual(method) => {
                let by = Selecting::Virtual;
                let found = known.found;
                self.instance_call(frames, by, method, kind, found)
            }
            SymbolicReference::Invokeinterface(method) => {
                let by = Selecting::OfInterface;
                let found = known.found;
                self.instance_call(frames, by, method, kind, found)
            }
            SymbolicReference::Invokespecial(caller, method, interface) => {
                let by = Selecting::Special(caller, *interface);
                let found = known.found;
                self.instance_call(frames, by, method, kind, found)
            }
            _ => None,
        }
    }

    /// The same, where that method has Code.
    pub fn known_code(
        &self,
        frames: &Frames,
        reference: &SymbolicReference,
        known: &Known,
    ) -> Option<Call>
        requires known { IsKnown (linker_in self.now) reference.now known.now }
        ensures called { let w = self.now.world in
            let d = done_on (attempts w reference.now self.now.shared frames.now) frames.now in
            IfSome result (λ c. IsCall c d self.now.shared frames.now.frames) }
        ensures loads { let n = reference.now in loads_nothing self.now.world.program
            self.now.shared.loaded n (top_operands frames.now.frames) ≡ true }
    {
        let Some(invoked) = self.known_call(frames, reference, known) else {
            return None;
        };
        match invoked {
            Invoked::Code(call) => Some(call),
            Invoked::Native(_) => None,
        }
    }
}
