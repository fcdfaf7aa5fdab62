//! What is made of a prepared program before its start, and the load of its main class (JVM
//! Specification 5.2, 5.3).

ghost use Rattle.std.specs.Prelude.{◌≡◌, IfOk, OnOk};
ghost use Rattle.jvm_model.specs.Basis.SharedState.{built_in_from};
ghost use Rattle.jvm_model.specs.Classes.Load.{load_of};
ghost use Rattle.jvm_model.specs.Instructions.SymbolicReference.{resolved_kind};
ghost use Rattle.member_selection.specs.Answers.{found_view};
ghost use Rattle.symbolic_references.specs.ProgramFacts.{AreTablesOf};
ghost use Rattle.symbolic_references.specs.Runtimes.{with_loaded};
ghost use Rattle.prepared_code.specs.Originals.{AreNamesKnown};
ghost use Rattle.prepared_code.specs.Prepared.{main_name};

use crate::loading::{load_built_in, main_name};
use crate::originals::Originals;
use crate::preparing::tables_of;
use class_linker::Linker;
use jf_bytes::NoMemory;
use member_selection::AbruptCompletion;
use std::alloc::Global;
use symbolic_references::{ProgramTables, Runtime};

impl Originals {
    /// A linker for the program, with the built-in classes loaded.
    pub fn linker_before(&self, alloc: Global) -> Result<Linker, NoMemory>
        ensures program { IfOk result (λ l. l.program ≡ self.now.program) }
        ensures loaded { IfOk result
            (λ l. l.loaded ≡ built_in_from 0 self.now.program.classes) }
    {
        let mut linker = Linker::over(alloc, self.index.clone()?)?;
        load_built_in(alloc, &mut linker)?;
        Ok(linker)
    }

    /// What is asked of the program again and again, in tables.
    pub fn tables_before(&self, alloc: Global) -> Result<ProgramTables, NoMemory>
        ensures { IfOk result (AreTablesOf self.now.program) }
    {
        tables_of(alloc, self.index.as_ref())
    }

    /// Loads the main class by its name, with what it needs, and gives its kind, or what its fault
    /// raises. What was loaded before a fault stays loaded, and what is kept of names stays so.
    pub fn load_main(
        &self,
        alloc: Global,
        runtime: &mut Runtime,
    ) -> Result<Result<u32, AbruptCompletion>, NoMemory>
        requires known { AreNamesKnown self.now runtime.old }
        ensures found { let p = runtime.old.world.program in IfOk result
            (λ r. found_view r ≡ resolved_kind p runtime.old.shared.loaded (main_name p)) }
        ensures runtime { let p = runtime.old.world.program in OnOk result (runtime.new
            ≡ with_loaded (load_of p runtime.old.shared.loaded (main_name p)).loaded runtime.old) }
        ensures known { OnOk result (AreNamesKnown self.now runtime.new) }
        ensures world { runtime.new.world ≡ runtime.old.world }
    {
        let name = main_name(alloc, runtime.linker().index())?;
        runtime.resolve(&name)
    }
}
