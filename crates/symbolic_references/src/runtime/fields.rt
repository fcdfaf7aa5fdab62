//! getfield and putfield (JVM Specification 2.7, 5.4.3.2, 6.5), where the class of the field's name
//! was resolved.

ghost use Rattle.std.specs.Prelude.{◌≡◌, ◌==◌, count_by, false, is_some};
ghost use Rattle.std.specs.Prelude.{take, true, IfOk, IfSome, Ok, Some};
ghost use Rattle.std.specs.Option.{option_map};
ghost use Rattle.frame_stack.specs.FrameLists.{top_operands};
ghost use Rattle.heap_objects.specs.Heaps.{kind_at, slot_at, with_slot_at};
ghost use Rattle.jvm_model.specs.Instructions.FieldRules.{field_owner, fields_before};
ghost use Rattle.jvm_model.specs.Instructions.FieldRules.{putting_of, slot_of};
ghost use Rattle.jvm_model.specs.Classes.Kinds.{kind_named};
ghost use Rattle.jvm_model.specs.Instructions.LocalRules.{replaces};
ghost use Rattle.jvm_model.specs.Instructions.SymbolicReference.{extends};
ghost use Rattle.jvm_model.specs.declared.instruction.SymbolicReference.TheVariants.{Getfield, Putfield};
ghost use Rattle.jvm_model.specs.Basis.Values.{as_value};
ghost use Rattle.class_linker.specs.Linkers.{IsLoaded};
ghost use Rattle.symbolic_references.specs.Fields.{is_of_instances, owner_found};
ghost use Rattle.symbolic_references.specs.Fields.{putting_view, writes};
ghost use Rattle.member_selection.specs.Known.{IsFoundAs};
ghost use Rattle.member_selection.specs.Members.{at_place};
ghost use Rattle.member_selection.specs.Objects.{IsResolved, has_field_at};
ghost use Rattle.member_selection.specs.Resolved.{field_found, gets_instance, puts_instance};
ghost use Rattle.member_selection.specs.Answers.{asking_in_frame, shared_by};
ghost use Rattle.member_selection.specs.Outcomes.{Asks, HasOperands, HaveOperands, outcome_by_rule, outcome_in_frame};
ghost use Rattle.symbolic_references.specs.Leaving.{Sets};
ghost use Rattle.symbolic_references.specs.Rules.{gets_from, puts_to};
ghost use Rattle.symbolic_references.specs.Runtimes.{linker_in, with_shared};
ghost use Rattle.member_selection.specs.Answers.{found_view};

use crate::held::field_narrowed;
use crate::owners::{Owner, Putting};
use crate::runtime::Runtime;
use base_classes::STATIC;
use class_index::held_by;
use const_pool::{ClassFile, Kind, Member};
use frame_stack::Frames;
use heap_objects::{Datum, Heap, Value};
use jf_bytes::NoMemory;
use jvm_basic::{ref_of, value_of};
use jvm_model::{Exception, MemberName, has_flag};
use member_selection::{
    AbruptCompletion, DeclaredMember, Found, Outcome, datum_of, field_found, kind_of_object,
};

/// The first fields, as many as there are up to so many.
#[tactic(auto, using(std::proofs::lemmas::List::take_all))]
fn first_fields(fields: &[Member], count: u16) -> &[Member]
    ensures { result.now ≡ take count fields.now }
{
    match fields.get(..count as usize) {
        Some(first) => first,
        None => fields,
    }
}

/// Whether the objects of its class have the field.
fn is_of_instances(field: &Member) -> bool
    ensures { result ≡ is_of_instances field.now }
{
    !has_flag(field.access, STATIC)
}

/// How many of the fields are not static.
fn instance_count(fields: &[Member]) -> usize
    ensures { result ≡ count_by is_of_instances fields.now }
{
    let mut count = 0;
    for field in fields {
        if is_of_instances(field) {
            count += 1;
        }
    }
    count
}

/// How many instance fields a class has before this position.
fn fields_before(file: &ClassFile, position: u16) -> usize
    ensures { result ≡ fields_before file.now position }
{
    instance_count(first_fields(file.fields.as_slice(), position))
}

/// The topmost operand as a field of this kind holds it, above an object.
pub fn putting_of(frames: &Frames, kind: Kind) -> Option<Putting>
    ensures { option_map putting_view result ≡ putting_of kind (top_operands frames.now.frames) }
{
    let value = frames.peek(0)?;
    let Some(Value::Ref(object)) = frames.peek(1) else {
        return None;
    };
    let datum = field_narrowed(kind, datum_of(kind, value)?);
    Some(Putting { object, datum })
}

/// A value goes into a slot of an object, where there is such a slot.
pub fn put_slot(heap: &mut Heap, object: u32, slot: u32, datum: Datum)
    requires { (object == 0) ≡ false }
    ensures { heap.new ≡ with_slot_at object slot datum heap.old }
{
    heap.put(object, slot, datum);
}

impl Runtime {
    /// The slot of a field in the objects of a class that is the field's or inherits from it; None
    /// where it would not fit into a u32, which no class has memory for.
    fn slot_of(&self, lower: u32, field: DeclaredMember) -> Option<u32>
        requires loaded { IsLoaded (linker_in self.now) lower }
        requires extends { extends self.now.world.program lower field.class ≡ true }
        ensures { IfSome result (λ slot. slot ≡ slot_of self.now.world.program (at_place field)) }
    {
        let above = self.linker.slots_above(lower, field.class);
        let before = match self.linker.index().file(field.class) {
            Some(file) => fields_before(file, field.position),
            None => 0,
        };
        let slot = above.checked_add(before)?;
        if slot > u32::MAX as usize {
            return None;
        }
        Some(slot as u32)
    }

    /// The object with its kind and class, where it is of the kind that an instruction names and
    /// has the field.
    fn owner_of(&self, kind: u32, field: DeclaredMember, object: u32) -> Option<Owner>
        ensures has { is_some result
            ≡ has_field_at self.now.world.program (kind_at object self.now.shared.heap) kind
            field.class }
        ensures object { IfSome result (λ owner. owner.object ≡ object) }
        ensures own { IfSome result
            (λ owner. has_field_at self.now.world.program (Some owner.kind) kind field.class
            ≡ true) }
        ensures loaded { IfSome result (λ owner. IsLoaded (linker_in self.now) owner.class) }
        ensures extends { IfSome result
            (λ owner. extends self.now.world.program owner.class field.class ≡ true) }
    {
        let lower = kind_of_object(&self.linker, &self.heap, object)?;
        if !self.linker.subtype(lower, kind) {
            return None;
        }
        let class = self.linker.index().class_of_kind(lower);
        if self.linker.extends(class, field.class) {
            Some(Owner {
                object,
                kind: lower,
                class,
            })
        } else {
            None
        }
    }

    /// The object, unless it is null, or has not the field.
    #[tactic(auto, using(crate::proofs::Slots::has_field_named))]
    fn field_owner(
        &self,
        member: &MemberName,
        kind: u32,
        field: DeclaredMember,
        object: u32,
    ) -> Result<Owner, AbruptCompletion>
        requires named { kind_named self.now.world.program member.now.class ≡ Some kind }
        ensures owner { owner_found result ≡ field_owner self.now.world.program self.now.shared
            member.now (at_place field) object }
        ensures loaded { IfOk result (λ owner. IsLoaded (linker_in self.now) owner.class) }
        ensures extends { IfOk result
            (λ owner. extends self.now.world.program owner.class field.class ≡ true) }
        ensures object { IfOk result (λ owner. (owner.object == 0) ≡ false) }
        ensures own { IfOk result
            (λ owner. has_field_at self.now.world.program (Some owner.kind) kind field.class
            ≡ true) }
    {
        if object == 0 {
            return Err(AbruptCompletion::Raises(Exception::NullPointer, None));
        }
        match self.owner_of(kind, field, object) {
            Some(owner) => Ok(owner),
            None => Err(AbruptCompletion::Breaks),
        }
    }

    /// Whether an object has a field that the objects of the last kind have; mostly it is of that
    /// kind.
    #[inline(always)]
    fn has_field(&self, kind: u32, field: DeclaredMember, last: u32, object: u32) -> bool
        requires own { has_field_at self.now.world.program (Some last) kind field.class ≡ true }
        ensures { result ≡ has_field_at self.now.world.program (kind_at object self.now.shared.heap)
            kind field.class }
    {
        let Some(lower) = kind_of_object(&self.linker, &self.heap, object) else {
            return false;
        };
        if lower == last {
            return true;
        }
        self.linker.subtype(lower, kind)
            && self
                .linker
                .extends(self.linker.index().class_of_kind(lower), field.class)
    }

    /// The object, unless it is null, or has not the field; objects of the last kind have it.
    #[inline(always)]
    #[tactic(auto, using(crate::proofs::Slots::has_field_named))]
    pub fn known_owner(
        &self,
        member: &MemberName,
        kind: u32,
        field: DeclaredMember,
        last: u32,
        object: u32,
    ) -> Result<u32, AbruptCompletion>
        requires named { kind_named self.now.world.program member.now.class ≡ Some kind }
        requires own { has_field_at self.now.world.program (Some last) kind field.class ≡ true }
        ensures owner { found_view result ≡ field_owner self.now.world.program self.now.shared
            member.now (at_place field) object }
        ensures object { IfOk result (λ object. (object == 0) ≡ false) }
    {
        if object == 0 {
            return Err(AbruptCompletion::Raises(Exception::NullPointer, None));
        }
        if self.has_field(kind, field, last, object) {
            Ok(object)
        } else {
            Err(AbruptCompletion::Breaks)
        }
    }

    /// The value in a slot of an object takes the object's place.
    fn read_slot(&self, frames: &Frames, object: u32, slot: u32) -> Outcome
        ensures answer { outcome_in_frame result frames.now ≡ asking_in_frame
            (replaces 1 (option_map as_value (slot_at object slot self.now.shared.heap)))
            frames.now }
        ensures enough { HasOperands result (top_operands frames.now.frames) }
    {
        match self.heap.get(object, slot) {
            Some(datum) => Outcome::Goes(1, Some(value_of(datum))),
            None => Outcome::Abrupt(AbruptCompletion::Breaks),
        }
    }

    /// The value of the field of the object on top. The slot is kept, and the object's kind.
    fn read_field(
        &self,
        frames: &Frames,
        member: &MemberName,
        kind: u32,
        field: DeclaredMember,
        found: &mut Found,
    ) -> Result<Outcome, NoMemory>
        requires named { kind_named self.now.world.program member.now.class ≡ Some kind }
        requires field { field_found self.now.world.program kind false member.now
            ≡ Ok (at_place field) }
        requires found { let n = Getfield member.now in
            IsFoundAs found.old self.now.world.program kind n }
        ensures answer { Asks result
            (gets_from self.now.world.program member.now (at_place field) self.now.shared)
            frames.now }
        ensures found { let n = Getfield member.now in
            IsFoundAs found.new self.now.world.program kind n }
        ensures enough { HaveOperands result frames.now }
    {
        let Some(object) = ref_of(frames) else {
            return Ok(Outcome::Abrupt(AbruptCompletion::Breaks));
        };
        match self.field_owner(member, kind, field, object) {
            Ok(owner) => match self.slot_of(owner.class, field) {
                Some(slot) => {
                    *found = Found::Field(field, slot, owner.kind);
                    Ok(self.read_slot(frames, owner.object, slot))
                }
                None => Err(NoMemory),
            },
            Err(completion) => Ok(Outcome::Abrupt(completion)),
        }
    }

    /// The same where the field's slot is known, and a kind whose objects have it.
    #[inline(always)]
    pub fn read_known(
        &self,
        frames: &Frames,
        member: &MemberName,
        kind: u32,
        field: DeclaredMember,
        slot: u32,
        last: u32,
    ) -> Outcome
        requires named { kind_named self.now.world.program member.now.class ≡ Some kind }
        requires slot { slot ≡ slot_of self.now.world.program (at_place field) }
        requires own { has_field_at self.now.world.program (Some last) kind field.class ≡ true }
        ensures answer { outcome_in_frame result frames.now ≡ outcome_by_rule
            (gets_from self.now.world.program member.now (at_place field) self.now.shared)
            frames.now }
        ensures enough { HasOperands result (top_operands frames.now.frames) }
    {
        let Some(object) = ref_of(frames) else {
            return Outcome::Abrupt(AbruptCompletion::Breaks);
        };
        match self.known_owner(member, kind, field, last, object) {
            Ok(owner) => self.read_slot(frames, owner, slot),
            Err(completion) => Outcome::Abrupt(completion),
        }
    }

    /// getfield of a field that is looked up.
    // Not inlined: it is done where nothing was found yet, and the way for what was found has to stay small.
    #[inline(never)]
    fn get_field_by_name(
        &self,
        frames: &Frames,
        member: &MemberName,
        kind: u32,
        found: &mut Found,
    ) -> Result<Outcome, NoMemory>
        requires resolved { IsResolved (linker_in self.now) member.now.class kind }
        requires found { let n = Getfield member.now in
            IsFoundAs found.old self.now.world.program kind n }
        ensures answer { Asks result
            (gets_instance self.now.world.program kind member.now self.now.shared) frames.now }
        ensures found { let n = Getfield member.now in
            IsFoundAs found.new self.now.world.program kind n }
        ensures enough { HaveOperands result frames.now }
    {
        match field_found(&self.linker, kind, false, member) {
            Ok(field) => self.read_field(frames, member, kind, field, found),
            Err(completion) => Ok(Outcome::Abrupt(completion)),
        }
    }

    /// getfield. What is found of the field is kept, and taken where it is known.
    pub fn get_field(
        &self,
        frames: &Frames,
        member: &MemberName,
        kind: u32,
        found: &mut Found,
    ) -> Result<Outcome, NoMemory>
        requires resolved { IsResolved (linker_in self.now) member.now.class kind }
        requires found { let n = Getfield member.now in
            IsFoundAs found.old self.now.world.program kind n }
        ensures answer { Asks result
            (gets_instance self.now.world.program kind member.now self.now.shared) frames.now }
        ensures found { let n = Getfield member.now in
            IsFoundAs found.new self.now.world.program kind n }
        ensures enough { HaveOperands result frames.now }
    {
        if let Found::Field(field, slot, last) = *found {
            return Ok(self.read_known(frames, member, kind, field, slot, last));
        }
        self.get_field_by_name(frames, member, kind, found)
    }

    /// A value goes into a slot of an object, where there is such a slot.
    pub fn put_at(&mut self, object: u32, slot: u32, datum: Datum)
        requires object { (object == 0) ≡ false }
        ensures runtime { self.new ≡ with_shared (record self.old.shared {
          heap = with_slot_at object slot datum self.old.shared.heap;
        }) self.old }
        ensures world { self.new.world ≡ self.old.world }
        ensures same_loaded { self.new.shared.loaded ≡ self.old.shared.loaded }
    {
        put_slot(&mut self.heap, object, slot, datum);
    }

    /// A value goes into a slot of an object; both leave the operands.
    fn write_slot(&mut self, frames: &Frames, object: u32, slot: u32, datum: Datum) -> Outcome
        requires object { (object == 0) ≡ false }
        ensures answer { outcome_in_frame result frames.now
            ≡ outcome_by_rule (writes object slot datum self.old.shared) frames.now }
        ensures runtime { self.new ≡ with_shared
            (shared_by (writes object slot datum self.old.shared) frames.now) self.old }
        ensures world { self.new.world ≡ self.old.world }
        ensures same_loaded { self.new.shared.loaded ≡ self.old.shared.loaded }
        ensures enough { HasOperands result (top_operands frames.now.frames) }
    {
        self.put_at(object, slot, datum);
        Outcome::Goes(2, None)
    }

    /// The value goes into the field of the object below it. The slot is kept, and the object's
    /// kind.
    fn write_field(
        &mut self,
        frames: &Frames,
        member: &MemberName,
        kind: u32,
        field: DeclaredMember,
        found: &mut Found,
    ) -> Result<Outcome, NoMemory>
        requires named { kind_named self.old.world.program member.now.class ≡ Some kind }
        requires field { field_found self.old.world.program kind false member.now
            ≡ Ok (at_place field) }
        requires found { let n = Putfield member.now in
            IsFoundAs found.old self.old.world.program kind n }
        ensures answer { Asks result
            (puts_to self.old.world.program member.now (at_place field) self.old.shared)
            frames.now }
        ensures runtime { Sets result self.new
            (puts_to self.old.world.program member.now (at_place field) self.old.shared)
            frames.now self.old }
        ensures found { let n = Putfield member.now in
            IsFoundAs found.new self.old.world.program kind n }
        ensures world { self.new.world ≡ self.old.world }
        ensures same_loaded { self.new.shared.loaded ≡ self.old.shared.loaded }
        ensures enough { HaveOperands result frames.now }
    {
        let Some(putting) = putting_of(frames, held_by(member.descriptor().units())) else {
            return Ok(Outcome::Abrupt(AbruptCompletion::Breaks));
        };
        match self.field_owner(member, kind, field, putting.object) {
            Ok(owner) => match self.slot_of(owner.class, field) {
                Some(slot) => {
                    let datum = putting.datum;
                    *found = Found::Field(field, slot, owner.kind);
                    Ok(self.write_slot(frames, owner.object, slot, datum))
                }
                None => Err(NoMemory),
            },
            Err(completion) => Ok(Outcome::Abrupt(completion)),
        }
    }

    /// The same where the field's slot is known, and a kind whose objects have it.
    #[inline(always)]
    fn write_known(
        &mut self,
        frames: &Frames,
        member: &MemberName,
        kind: u32,
        field: DeclaredMember,
        slot: u32,
        last: u32,
    ) -> Result<Outcome, NoMemory>
        requires named { kind_named self.old.world.program member.now.class ≡ Some kind }
        requires slot { slot ≡ slot_of self.old.world.program (at_place field) }
        requires own { has_field_at self.old.world.program (Some last) kind field.class ≡ true }
        ensures answer { Asks result
            (puts_to self.old.world.program member.now (at_place field) self.old.shared)
            frames.now }
        ensures runtime { Sets result self.new
            (puts_to self.old.world.program member.now (at_place field) self.old.shared)
            frames.now self.old }
        ensures world { self.new.world ≡ self.old.world }
        ensures same_loaded { self.new.shared.loaded ≡ self.old.shared.loaded }
        ensures enough { HaveOperands result frames.now }
    {
        let Some(putting) = putting_of(frames, held_by(member.descriptor().units())) else {
            return Ok(Outcome::Abrupt(AbruptCompletion::Breaks));
        };
        match self.known_owner(member, kind, field, last, putting.object) {
            Ok(owner) => {
                let datum = putting.datum;
                Ok(self.write_slot(frames, owner, slot, datum))
            }
            Err(completion) => Ok(Outcome::Abrupt(completion)),
        }
    }

    /// putfield of a field that is looked up.
    // Not inlined: it is done where nothing was found yet, and the way for what was found has to stay small.
    #[inline(never)]
    fn put_field_by_name(
        &mut self,
        frames: &Frames,
        member: &MemberName,
        kind: u32,
        found: &mut Found,
    ) -> Result<Outcome, NoMemory>
        requires resolved { IsResolved (linker_in self.old) member.now.class kind }
        requires found { let n = Putfield member.now in
            IsFoundAs found.old self.old.world.program kind n }
        ensures answer { Asks result
            (puts_instance self.old.world.program kind member.now self.old.shared) frames.now }
        ensures runtime { Sets result self.new
            (puts_instance self.old.world.program kind member.now self.old.shared)
            frames.now self.old }
        ensures found { let n = Putfield member.now in
            IsFoundAs found.new self.old.world.program kind n }
        ensures world { self.new.world ≡ self.old.world }
        ensures same_loaded { self.new.shared.loaded ≡ self.old.shared.loaded }
        ensures enough { HaveOperands result frames.now }
    {
        match field_found(&self.linker, kind, false, member) {
            Ok(field) => self.write_field(frames, member, kind, field, found),
            Err(completion) => Ok(Outcome::Abrupt(completion)),
        }
    }

    /// putfield. What is found of the field is kept, and taken where it is known.
    pub fn put_field(
        &mut self,
        frames: &Frames,
        member: &MemberName,
        kind: u32,
        found: &mut Found,
    ) -> Result<Outcome, NoMemory>
        requires resolved { IsResolved (linker_in self.old) member.now.class kind }
        requires found { let n = Putfield member.now in
            IsFoundAs found.old self.old.world.program kind n }
        ensures answer { Asks result
            (puts_instance self.old.world.program kind member.now self.old.shared) frames.now }
        ensures runtime { Sets result self.new
            (puts_instance self.old.world.program kind member.now self.old.shared)
            frames.now self.old }
        ensures found { let n = Putfield member.now in
            IsFoundAs found.new self.old.world.program kind n }
        ensures world { self.new.world ≡ self.old.world }
        ensures same_loaded { self.new.shared.loaded ≡ self.old.shared.loaded }
        ensures enough { HaveOperands result frames.now }
    {
        if let Found::Field(field, slot, last) = *found {
            return self.write_known(frames, member, kind, field, slot, last);
        }
        self.put_field_by_name(frames, member, kind, found)
    }
}
