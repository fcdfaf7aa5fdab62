//! What all activations of a run share, with the classes that it knows: one owner, whose methods
//! are the instructions.

ghost use Rattle.std.specs.Prelude.{◌≡◌, []};
ghost use Rattle.member_selection.specs.Known.{IsKnown};
ghost use Rattle.symbolic_references.specs.Natives.{HasBuiltIn};
ghost use Rattle.member_selection.specs.Numbers.{AreNumbers};
ghost use Rattle.member_selection.specs.Objects.{AreLoaded};
ghost use Rattle.symbolic_references.specs.ProgramFacts.{AreTablesOf, HasExceptions};
ghost use Rattle.symbolic_references.specs.Runtimes.{linker_in};

mod arguments;
mod arrays;
mod attempting;
mod calls;
mod casts;
mod class_objects;
mod constants;
mod creation;
mod doing;
mod fields;
mod multi_arrays;
mod natives;
mod objects;
mod passing;
mod program;
mod selecting;
mod statics;

use crate::program_tables::ProgramTables;
use class_linker::Linker;
pub use creation::RESERVED;
use heap_objects::{Datum, Heap};
use jf_bytes::Seq;
use jvm_model::{Phase, SymbolicReference};
use member_selection::{Known, MethodNumbers, Selections};
use native_effects::Made;
use std::alloc::Global;
use std::marker::Model;

/// The classes of a run and what tables tell of its program, its input, what all activations share,
/// what was selected for receivers, and what was written. A clause sees the world, what the
/// definitions call shared, and the output.
#[derive(Drop)]
pub struct Runtime {
    alloc: Global,
    linker: Linker,
    tables: ProgramTables,
    input: Seq<u8>,
    selections: Selections,
    phases: Seq<Phase>,
    statics: Seq<Seq<Datum>>,
    heap: Heap,
    made: Made,
    read: usize,
    output: Seq<u8>,
}

impl Model for Runtime {
    ghost use Rattle.symbolic_references.specs.Runtimes.{IsRuntime, RuntimeView};

    ghost Value = { RuntimeView };

    ghost view = { λ r. record {
      world = record { program = r.linker.program; input = r.input };
      shared = record {
        loaded = r.linker.loaded;
        phases = r.phases;
        statics = r.statics;
        heap = r.heap;
        made = r.made;
        read = r.read;
      };
      output = r.output;
    } };

    ghost invariant = { λ r. IsRuntime r.linker r.tables r.selections r.heap };
}

/// What all share at the start: how far the classes are initialized, their static fields, and the
/// objects that are there.
#[derive(Drop)]
pub struct Beginning {
    pub phases: Seq<Phase>,
    pub statics: Seq<Seq<Datum>>,
    pub heap: Heap,
    pub made: Made,
}

impl Runtime {
    /// A runtime of these parts: the tables are the program's, the built-in classes are loaded, and
    /// so is the class of each object.
    #[tactic(auto, using(member_selection::proofs::SelectionLemmas::no_selections))]
    pub fn new(
        alloc: Global,
        linker: Linker,
        tables: ProgramTables,
        input: Seq<u8>,
        beginning: Beginning,
    ) -> Runtime
        requires tables { AreTablesOf linker.program tables }
        requires built_in { HasBuiltIn linker }
        requires exceptions { HasExceptions linker }
        requires objects { AreLoaded linker beginning.heap }
        ensures world { result.world ≡ record { program = linker.program; input = input } }
        ensures shared { result.shared ≡ record {
          loaded = linker.loaded;
          phases = beginning.phases;
          statics = beginning.statics;
          heap = beginning.heap;
          made = beginning.made;
          read = 0;
        } }
        ensures output { result.output ≡ [] }
    {
        Runtime {
            alloc,
            linker,
            tables,
            input,
            selections: Selections::new(alloc),
            phases: beginning.phases,
            statics: beginning.statics,
            heap: beginning.heap,
            made: beginning.made,
            read: 0,
            output: Seq::new(alloc),
        }
    }

    /// Its linker.
    #[inline(always)]
    pub fn linker(&self) -> &Linker
        ensures { result.now ≡ linker_in self.now }
    {
        &self.linker
    }

    /// The numbers of the program's methods.
    pub fn numbers(&self) -> &MethodNumbers
        ensures { AreNumbers self.now.world.program result.now }
    {
        &self.tables.numbers
    }

    /// Its objects; the class of each is loaded.
    #[inline(always)]
    pub fn heap(&self) -> &Heap
        ensures heap { result.now ≡ self.now.shared.heap }
        ensures objects { AreLoaded (linker_in self.now) self.now.shared.heap }
    {
        &self.heap
    }

    /// What was written so far.
    pub fn output(&self) -> &[u8]
        ensures { result.now ≡ self.now.output }
    {
        self.output.as_slice()
    }

    /// Keeps what an instruction's names came to, where that is of a receiver.
    pub fn keep_selection(&mut self, reference: &SymbolicReference, known: &Known)
        requires { IsKnown (linker_in self.old) reference.now known.now }
        ensures { self.new ≡ self.old }
    {
        self.selections.keep(self.alloc, reference, known);
    }
}
