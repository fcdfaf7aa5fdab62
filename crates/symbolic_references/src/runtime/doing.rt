//! What an instruction that names a class or a member does, where the name was resolved.

ghost use Rattle.std.specs.Prelude.{◌≡◌};
ghost use Rattle.jvm_model.specs.Instructions.SymbolicReference.{resolved_name};
ghost use Rattle.member_selection.specs.Known.{IsFoundAs};
ghost use Rattle.member_selection.specs.Objects.{HasDimensions, HasLoadedCaller, IsResolved};
ghost use Rattle.member_selection.specs.Resolved.{does_resolved};
ghost use Rattle.member_selection.specs.Outcomes.{Asks, HaveOperands};
ghost use Rattle.symbolic_references.specs.Leaving.{Leaves};
ghost use Rattle.symbolic_references.specs.Runtimes.{linker_in};

use crate::runtime::Runtime;
use frame_stack::Frames;
use jf_bytes::NoMemory;
use jvm_model::SymbolicReference;
use member_selection::{Found, Outcome, Selecting};

impl Runtime {
    /// What the instruction does, with what it names resolved to this kind; of checkcast and
    /// instanceof where the operand is not null. What is found of a member is kept, and taken where
    /// it is known.
    #[tactic(auto, using(crate::proofs::Quiet::writes_new, crate::proofs::Quiet::writes_getfield, crate::proofs::Quiet::writes_putfield, crate::proofs::Quiet::writes_getstatic, crate::proofs::Quiet::writes_putstatic, crate::proofs::Quiet::writes_anewarray, crate::proofs::Quiet::writes_arrays, crate::proofs::Quiet::writes_class, crate::proofs::Quiet::shared_getfield, crate::proofs::Quiet::shared_getstatic, member_selection::proofs::KindLemmas::few_over, member_selection::proofs::KnownLemmas::class_found, member_selection::proofs::KnownLemmas::found_new, member_selection::proofs::KnownLemmas::found_checkcast, member_selection::proofs::KnownLemmas::found_instanceof))]
    pub fn do_resolved(
        &mut self,
        frames: &Frames,
        reference: &SymbolicReference,
        kind: u32,
        found: &mut Found,
    ) -> Result<Outcome, NoMemory>
        requires resolved { IsResolved (linker_in self.old) (resolved_name reference.now) kind }
        requires found { IsFoundAs found.old self.old.world.program kind reference.now }
        requires caller { HasLoadedCaller (linker_in self.old) reference.now }
        requires dimensions { HasDimensions reference.now }
        ensures answer { Asks result (does_resolved self.old.world kind
            reference.now self.old.shared) frames.now }
        ensures runtime { Leaves result self.new (does_resolved self.old.world kind
            reference.now self.old.shared) frames.now self.old }
        ensures found { IsFoundAs found.new self.old.world.program kind reference.now }
        ensures world { self.new.world ≡ self.old.world }
        ensures same_loaded { self.new.shared.loaded ≡ self.old.shared.loaded }
        ensures enough { HaveOperands result frames.now }
    {
        match reference {
            SymbolicReference::New(_) => self.make_new(frames, kind, found),
            SymbolicReference::Getfield(member) => self.get_field(frames, member, kind, found),
            SymbolicReference::Putfield(member) => self.put_field(frames, member, kind, found),
            SymbolicReference::Getstatic(member) => self.get_static(frames, member, kind, found),
            SymbolicReference::Putstatic(member) => self.put_static(frames, member, kind, found),
            SymbolicReference::Invokevirtual(method) => {
                self.invoke_instance(frames, Selecting::Virtual, method, kind, found)
            }
            SymbolicReference::Invokespecial(caller, method, interface) => self.invoke_instance(
                frames,
                Selecting::Special(caller, *interface),
                method,
                kind,
                found,
            ),
            SymbolicReference::Invokestatic(method) => {
                self.invoke_static(frames, method, kind, found)
            }
            SymbolicReference::Invokeinterface(method) => {
                self.invoke_instance(frames, Selecting::OfInterface, method, kind, found)
            }
            SymbolicReference::Checkcast(name) => Ok(self.cast(frames, name, kind, found)),
            SymbolicReference::Instanceof(name) => {
                Ok(self.tell_instance(frames, name, kind, found))
            }
            SymbolicReference::Anewarray(_) => self.make_array_of(frames, kind),
            SymbolicReference::Multianewarray(_, dimensions) => {
                self.make_arrays(frames, kind, *dimensions)
            }
            SymbolicReference::LdcClass(_) => self.push_class_object(frames, kind),
        }
    }
}
