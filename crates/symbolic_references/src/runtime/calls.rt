//! invokestatic, invokevirtual, invokeinterface and invokespecial (JVM Specification 5.4.3.3,
//! 5.4.3.4, 6.5), where the class of the method's name was resolved.

ghost use Rattle.std.specs.Prelude.{◌≡◌, ◌≤◌, Some, length, IfSome};
ghost use Rattle.std.specs.Option.{option_map};
ghost use Rattle.frame_stack.specs.FrameLists.{top_operands};
ghost use Rattle.jvm_model.specs.Instructions.InvocationRules.{invokes_native, invokes_selected};
ghost use Rattle.jvm_model.specs.declared.instruction.SymbolicReference.TheVariants.{Invokestatic};
ghost use Rattle.member_selection.specs.Callees.{HasCallee, chosen_place};
ghost use Rattle.member_selection.specs.Known.{IsFoundAs, symbolic_reference_by};
ghost use Rattle.member_selection.specs.Objects.{IsResolved};
ghost use Rattle.member_selection.specs.Members.{at_place};
ghost use Rattle.member_selection.specs.Resolved.{invokes_instance, invokes_static_method};
ghost use Rattle.member_selection.specs.Targets.{HasCaller, selecting_view};
ghost use Rattle.member_selection.specs.Outcomes.{Asks, HaveOperands};
ghost use Rattle.symbolic_references.specs.Leaving.{Leaves};
ghost use Rattle.symbolic_references.specs.Rules.{on_arguments};
ghost use Rattle.symbolic_references.specs.Runtimes.{linker_in};

use crate::runtime::Runtime;
use frame_stack::Frames;
use jf_bytes::NoMemory;
use jvm_model::{Exception, MethodName};
use member_selection::{
    AbruptCompletion, Callee, Chosen, DeclaredMember, Found, Outcome, Selecting,
};

impl Runtime {
    /// A native method: a user's class has none that could be linked.
    fn invoke_native(
        &mut self,
        frames: &Frames,
        m: DeclaredMember,
        count: u16,
    ) -> Result<Outcome, NoMemory>
        requires within { count ≤ length (top_operands frames.now.frames) }
        ensures answer { Asks result
            (on_arguments count (invokes_native self.old.world (at_place m)) self.old.shared)
            frames.now }
        ensures runtime { Leaves result self.new
            (on_arguments count (invokes_native self.old.world (at_place m)) self.old.shared)
            frames.now self.old }
        ensures world { self.new.world ≡ self.old.world }
        ensures same_loaded { self.new.shared.loaded ≡ self.old.shared.loaded }
        ensures enough { HaveOperands result frames.now }
    {
        if m.class < self.linker.index().user_count() {
            let raised = AbruptCompletion::Raises(Exception::UnsatisfiedLink, None);
            return Ok(Outcome::Abrupt(raised));
        }
        self.run_native(frames, m, count)
    }

    /// The method that was selected.
    fn invoke_found(
        &mut self,
        frames: &Frames,
        m: DeclaredMember,
        count: u16,
    ) -> Result<Outcome, NoMemory>
        requires within { count ≤ length (top_operands frames.now.frames) }
        ensures answer { Asks result
            (on_arguments count
            (invokes_selected self.old.world (Some (at_place m))) self.old.shared)
            frames.now }
        ensures runtime { Leaves result self.new
            (on_arguments count
            (invokes_selected self.old.world (Some (at_place m))) self.old.shared)
            frames.now self.old }
        ensures world { self.new.world ≡ self.old.world }
        ensures same_loaded { self.new.shared.loaded ≡ self.old.shared.loaded }
        ensures enough { HaveOperands result frames.now }
    {
        if self.linker.is_abstract(m.class, m.position) {
            return Ok(Outcome::Abrupt(AbruptCompletion::Raises(Exception::AbstractMethod, None)));
        }
        match self.tables.numbers.number(m.class, m.position) {
            Some(number) => Ok(Outcome::Invokes(number, count)),
            None => self.invoke_native(frames, m, count),
        }
    }

    /// The method that was selected, by what is invoked of it.
    fn invoke_chosen(&mut self, frames: &Frames, m: Chosen, count: u16) -> Result<Outcome, NoMemory>
        requires callee { HasCallee self.old.world.program m }
        requires within { count ≤ length (top_operands frames.now.frames) }
        ensures answer { Asks result
            (on_arguments count
            (invokes_selected self.old.world (Some (chosen_place m))) self.old.shared)
            frames.now }
        ensures runtime { Leaves result self.new
            (on_arguments count
            (invokes_selected self.old.world (Some (chosen_place m))) self.old.shared)
            frames.now self.old }
        ensures world { self.new.world ≡ self.old.world }
        ensures same_loaded { self.new.shared.loaded ≡ self.old.shared.loaded }
        ensures enough { HaveOperands result frames.now }
    {
        match m.callee {
            Callee::Code(number) => Ok(Outcome::Invokes(number, count)),
            Callee::Native(number) => self.run_numbered(frames, number, count),
            Callee::Other => self.invoke_found(frames, m.place, count),
        }
    }

    /// The method that was selected, if one was.
    fn invoke_selected(
        &mut self,
        frames: &Frames,
        selected: Option<Chosen>,
        count: u16,
    ) -> Result<Outcome, NoMemory>
        requires callee { IfSome selected (HasCallee self.old.world.program) }
        requires within { count ≤ length (top_operands frames.now.frames) }
        ensures answer { let m = option_map chosen_place selected in Asks result
            (on_arguments count (invokes_selected self.old.world m) self.old.shared)
            frames.now }
        ensures runtime { let m = option_map chosen_place selected in Leaves result self.new
            (on_arguments count (invokes_selected self.old.world m) self.old.shared)
            frames.now self.old }
        ensures world { self.new.world ≡ self.old.world }
        ensures same_loaded { self.new.shared.loaded ≡ self.old.shared.loaded }
        ensures enough { HaveOperands result frames.now }
    {
        match selected {
            Some(m) => self.invoke_chosen(frames, m, count),
            None => Ok(Outcome::Abrupt(AbruptCompletion::Raises(Exception::AbstractMethod, None))),
        }
    }

    /// An instance method, by one of the three instructions.
    pub fn invoke_instance(
        &mut self,
        frames: &Frames,
        by: Selecting<'_>,
        method: &MethodName,
        kind: u32,
        found: &mut Found,
    ) -> Result<Outcome, NoMemory>
        requires resolved { IsResolved (linker_in self.old) method.now.class kind }
        requires caller { HasCaller (linker_in self.old) (selecting_view by) }
        requires found { IsFoundAs found.old self.old.world.program kind
            (symbolic_reference_by (selecting_view by) method.now) }
        ensures answer { Asks result (invokes_instance self.old.world kind (selecting_view by.entry)
            method.now self.old.shared) frames.now }
        ensures runtime { Leaves result self.new
            (invokes_instance self.old.world kind (selecting_view by.entry)
            method.now self.old.shared) frames.now self.old }
        ensures world { self.new.world ≡ self.old.world }
        ensures same_loaded { self.new.shared.loaded ≡ self.old.shared.loaded }
        ensures enough { HaveOperands result frames.now }
        ensures found { IsFoundAs found.new self.old.world.program kind
            (symbolic_reference_by (selecting_view by.entry) method.now) }
    {
        match self.instance_target(frames, by, method, kind, found) {
            Ok(target) => self.invoke_selected(frames, target.selected, target.count),
            Err(completion) => Ok(Outcome::Abrupt(completion)),
        }
    }

    /// invokestatic.
    pub fn invoke_static(
        &mut self,
        frames: &Frames,
        method: &MethodName,
        kind: u32,
        found: &mut Found,
    ) -> Result<Outcome, NoMemory>
        requires resolved { IsResolved (linker_in self.old) method.now.class kind }
        requires found { IsFoundAs found.old self.old.world.program kind
            (Invokestatic method.now) }
        ensures answer { Asks result (invokes_static_method self.old.world kind method.now
            self.old.shared) frames.now }
        ensures runtime { Leaves result self.new
            (invokes_static_method self.old.world kind method.now
            self.old.shared) frames.now self.old }
        ensures world { self.new.world ≡ self.old.world }
        ensures same_loaded { self.new.shared.loaded ≡ self.old.shared.loaded }
        ensures enough { HaveOperands result frames.now }
        ensures found { IsFoundAs found.new self.old.world.program kind (Invokestatic method.now) }
    {
        match self.static_target(frames, method, kind, found)? {
            Ok(target) => self.invoke_selected(frames, target.selected, target.count),
            Err(completion) => Ok(Outcome::Abrupt(completion)),
        }
    }
}
