//! getstatic and putstatic (JVM Specification 5.4.3.2, 5.5, 6.5), where the class of the field's
//! name was resolved.

ghost use Rattle.std.specs.Prelude.{◌≡◌, IfOk};
ghost use Rattle.std.specs.Option.{option_map};
ghost use Rattle.frame_stack.specs.FrameLists.{top_operands};
ghost use Rattle.symbolic_references.specs.Held.{with_static_in};
ghost use Rattle.jvm_model.specs.Basis.Data.{Raises};
ghost use Rattle.jvm_model.specs.Instructions.FieldRules.{field_held};
ghost use Rattle.jvm_model.specs.Instructions.FieldRules.{pushes_static, static_field};
ghost use Rattle.jvm_model.specs.Instructions.LocalRules.{pushes};
ghost use Rattle.jvm_model.specs.declared.instruction.SymbolicReference.TheVariants.{Getstatic, Putstatic};
ghost use Rattle.jvm_model.specs.Basis.Programs.{name_at};
ghost use Rattle.jvm_model.specs.Basis.SharedState.{no_class_definition, static_at};
ghost use Rattle.jvm_model.specs.Basis.Values.{as_value};
ghost use Rattle.member_selection.specs.Known.{IsFoundAs};
ghost use Rattle.member_selection.specs.Members.{at_place};
ghost use Rattle.member_selection.specs.Objects.{IsUsable};
ghost use Rattle.member_selection.specs.Resolved.{gets_static, puts_static};
ghost use Rattle.member_selection.specs.Answers.{asking_in_frame, shared_by};
ghost use Rattle.member_selection.specs.Outcomes.{Asks, HasOperands, HaveOperands, outcome_by_rule, outcome_in_frame};
ghost use Rattle.symbolic_references.specs.Leaving.{Sets};
ghost use Rattle.symbolic_references.specs.Rules.{once_initialized, sets_held};
ghost use Rattle.symbolic_references.specs.Runtimes.{linker_in, with_shared};

use crate::held::field_narrowed;
use crate::runtime::Runtime;
use crate::static_fields::set_static;
use class_index::held_by;
use const_pool::Kind;
use frame_stack::Frames;
use heap_objects::Datum;
use jf_bytes::NoMemory;
use jvm_basic::value_of;
use jvm_model::{MemberName, Phase};
use member_selection::{AbruptCompletion, DeclaredMember, Found, Outcome, datum_of, field_found};

// ---- classes that are not initialized

// ---- getstatic

// ---- putstatic

/// The topmost operand as a field of this kind holds it.
pub fn field_held(frames: &Frames, kind: Kind) -> Option<Datum>
    ensures { result ≡ field_held kind (top_operands frames.now.frames) }
{
    let value = frames.peek(0)?;
    let datum = datum_of(kind, value)?;
    Some(field_narrowed(kind, datum))
}

impl Runtime {
    /// NoClassDefFoundError, with the name of a class that can not be used.
    pub fn raise_unusable(&self, frames: &Frames, class: u32) -> Result<Outcome, NoMemory>
        ensures answer { IfOk result (λ a. outcome_in_frame a frames.now
            ≡ Raises no_class_definition (name_at self.now.world.program class)) }
        ensures enough { HaveOperands result frames.now }
    {
        Ok(Outcome::Abrupt(self.unusable(class)?))
    }

    /// The value of a static field.
    fn static_at(&self, field: DeclaredMember) -> Option<Datum>
        ensures { result ≡ static_at self.now.shared (static_field (at_place field)) }
    {
        self.statics
            .get(field.class as usize)?
            .at(field.position as usize)
    }

    /// The value of a static field goes on top; its class is initialized, or is being.
    pub fn push_static_field(&self, frames: &Frames, field: DeclaredMember) -> Outcome
        ensures answer { outcome_in_frame result frames.now
            ≡ asking_in_frame (pushes (option_map as_value
            (static_at self.now.shared (static_field (at_place field))))) frames.now }
        ensures enough { HasOperands result (top_operands frames.now.frames) }
    {
        match self.static_at(field) {
            Some(datum) => Outcome::Goes(0, Some(value_of(datum))),
            None => Outcome::Abrupt(AbruptCompletion::Breaks),
        }
    }

    /// The same, once its class is initialized.
    fn push_static(&self, frames: &Frames, field: DeclaredMember) -> Result<Outcome, NoMemory>
        ensures answer { Asks result
            (pushes_static self.now.world.program (at_place field) self.now.shared) frames.now }
        ensures enough { HaveOperands result frames.now }
    {
        match self.phases.at(field.class as usize) {
            Some(Phase::Ready) => Ok(self.push_static_field(frames, field)),
            Some(Phase::Running) => Ok(self.push_static_field(frames, field)),
            Some(Phase::Fresh) => Ok(Outcome::Abrupt(AbruptCompletion::Initializes(field.class))),
            Some(Phase::Erroneous) => self.raise_unusable(frames, field.class),
            None => self.raise_unusable(frames, field.class),
        }
    }

    /// getstatic of a field that is looked up.
    // Not inlined: it is done where nothing was found yet, and the way for what was found has to stay small.
    #[inline(never)]
    fn get_static_by_name(
        &self,
        frames: &Frames,
        member: &MemberName,
        kind: u32,
        found: &mut Found,
    ) -> Result<Outcome, NoMemory>
        requires usable { IsUsable (linker_in self.now) kind }
        requires found { let n = Getstatic member.now in
            IsFoundAs found.old self.now.world.program kind n }
        ensures answer { Asks result
            (gets_static self.now.world.program kind member.now self.now.shared) frames.now }
        ensures found { let n = Getstatic member.now in
            IsFoundAs found.new self.now.world.program kind n }
        ensures enough { HaveOperands result frames.now }
    {
        match field_found(&self.linker, kind, true, member) {
            Ok(field) => {
                *found = Found::Static(field);
                self.push_static(frames, field)
            }
            Err(completion) => Ok(Outcome::Abrupt(completion)),
        }
    }

    /// getstatic. What is found of the field is kept, and taken where it is known.
    pub fn get_static(
        &self,
        frames: &Frames,
        member: &MemberName,
        kind: u32,
        found: &mut Found,
    ) -> Result<Outcome, NoMemory>
        requires usable { IsUsable (linker_in self.now) kind }
        requires found { let n = Getstatic member.now in
            IsFoundAs found.old self.now.world.program kind n }
        ensures answer { Asks result
            (gets_static self.now.world.program kind member.now self.now.shared) frames.now }
        ensures found { let n = Getstatic member.now in
            IsFoundAs found.new self.now.world.program kind n }
        ensures enough { HaveOperands result frames.now }
    {
        if let Found::Static(field) = *found {
            return self.push_static(frames, field);
        }
        self.get_static_by_name(frames, member, kind, found)
    }

    /// A static field gets a value, where there is such a field.
    pub fn put_static_at(&mut self, field: DeclaredMember, datum: Datum)
        ensures runtime { self.new ≡ with_shared (record self.old.shared {
          statics =
              with_static_in self.old.shared.statics field.class field.position datum;
        }) self.old }
        ensures world { self.new.world ≡ self.old.world }
        ensures same_loaded { self.new.shared.loaded ≡ self.old.shared.loaded }
    {
        let position = field.position as usize;
        set_static(self.alloc, &mut self.statics, field.class, position, datum);
    }

    /// The topmost operand goes into a static field of this kind; its class is initialized, or is
    /// being.
    fn set_static_field(&mut self, frames: &Frames, field: DeclaredMember, kind: Kind) -> Outcome
        ensures answer { outcome_in_frame result frames.now
            ≡ outcome_by_rule (sets_held (at_place field) kind self.old.shared) frames.now }
        ensures runtime { self.new ≡ with_shared
            (shared_by (sets_held (at_place field) kind self.old.shared) frames.now) self.old }
        ensures world { self.new.world ≡ self.old.world }
        ensures same_loaded { self.new.shared.loaded ≡ self.old.shared.loaded }
        ensures enough { HasOperands result (top_operands frames.now.frames) }
    {
        let Some(datum) = field_held(frames, kind) else {
            return Outcome::Abrupt(AbruptCompletion::Breaks);
        };
        self.put_static_at(field, datum);
        Outcome::Goes(1, None)
    }

    /// The same, once its class is initialized.
    fn put_static_field(
        &mut self,
        frames: &Frames,
        field: DeclaredMember,
        kind: Kind,
    ) -> Result<Outcome, NoMemory>
        ensures answer { let s = self.old.shared in Asks result
            (once_initialized self.old.world.program field.class s
            (sets_held (at_place field) kind s)) frames.now }
        ensures runtime { let s = self.old.shared in Sets result self.new
            (once_initialized self.old.world.program field.class s
            (sets_held (at_place field) kind s)) frames.now self.old }
        ensures world { self.new.world ≡ self.old.world }
        ensures same_loaded { self.new.shared.loaded ≡ self.old.shared.loaded }
        ensures enough { HaveOperands result frames.now }
    {
        match self.phases.at(field.class as usize) {
            Some(Phase::Ready) => Ok(self.set_static_field(frames, field, kind)),
            Some(Phase::Running) => Ok(self.set_static_field(frames, field, kind)),
            Some(Phase::Fresh) => Ok(Outcome::Abrupt(AbruptCompletion::Initializes(field.class))),
            Some(Phase::Erroneous) => self.raise_unusable(frames, field.class),
            None => self.raise_unusable(frames, field.class),
        }
    }

    /// putstatic of a field that is looked up.
    // Not inlined: it is done where nothing was found yet, and the way for what was found has to stay small.
    #[inline(never)]
    fn put_static_by_name(
        &mut self,
        frames: &Frames,
        member: &MemberName,
        kind: u32,
        found: &mut Found,
    ) -> Result<Outcome, NoMemory>
        requires usable { IsUsable (linker_in self.old) kind }
        requires found { let n = Putstatic member.now in
            IsFoundAs found.old self.old.world.program kind n }
        ensures answer { Asks result
            (puts_static self.old.world.program kind member.now self.old.shared) frames.now }
        ensures runtime { Sets result self.new
            (puts_static self.old.world.program kind member.now self.old.shared)
            frames.now self.old }
        ensures found { let n = Putstatic member.now in
            IsFoundAs found.new self.old.world.program kind n }
        ensures world { self.new.world ≡ self.old.world }
        ensures same_loaded { self.new.shared.loaded ≡ self.old.shared.loaded }
        ensures enough { HaveOperands result frames.now }
    {
        match field_found(&self.linker, kind, true, member) {
            Ok(field) => {
                *found = Found::Static(field);
                let held = held_by(member.descriptor().units());
                self.put_static_field(frames, field, held)
            }
            Err(completion) => Ok(Outcome::Abrupt(completion)),
        }
    }

    /// putstatic. What is found of the field is kept, and taken where it is known.
    pub fn put_static(
        &mut self,
        frames: &Frames,
        member: &MemberName,
        kind: u32,
        found: &mut Found,
    ) -> Result<Outcome, NoMemory>
        requires usable { IsUsable (linker_in self.old) kind }
        requires found { let n = Putstatic member.now in
            IsFoundAs found.old self.old.world.program kind n }
        ensures answer { Asks result
            (puts_static self.old.world.program kind member.now self.old.shared) frames.now }
        ensures runtime { Sets result self.new
            (puts_static self.old.world.program kind member.now self.old.shared)
            frames.now self.old }
        ensures found { let n = Putstatic member.now in
            IsFoundAs found.new self.old.world.program kind n }
        ensures world { self.new.world ≡ self.old.world }
        ensures same_loaded { self.new.shared.loaded ≡ self.old.shared.loaded }
        ensures enough { HaveOperands result frames.now }
    {
        if let Found::Static(field) = *found {
            let held = held_by(member.descriptor().units());
            return self.put_static_field(frames, field, held);
        }
        self.put_static_by_name(frames, member, kind, found)
    }
}
