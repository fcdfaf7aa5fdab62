//! Methods that are selected, and that are no more.

ghost use Rattle.std.specs.Prelude.{◌≡◌, OnErr, OnOk};
ghost use Rattle.jvm_model.specs.declared.program.Program.{Program};
ghost use Rattle.jvm_model.specs.Profiling.Revealed.{with_selected, without_selected};
ghost use Rattle.call_revelation.specs.Reveals.{IsRevelation, now_of};

use crate::reveal::Reveal;
use jf_bytes::NoMemory;
use std::alloc::Global;

impl Reveal {
    /// A method is selected.
    pub fn selected(&mut self, alloc: Global, method: u32) -> Result<(), NoMemory>
        ensures revelation { (p : Program) → IsRevelation p self.old → IsRevelation p self.new }
        ensures now { OnOk result (now_of self.new ≡ with_selected method (now_of self.old)) }
        ensures stays { OnErr result (now_of self.new ≡ now_of self.old) }
        ensures shown { self.new.shown ≡ self.old.shown }
    {
        self.stale.add(method)?;
        self.selected.select(alloc, method)?;
        Ok(())
    }

    /// A method is selected no more.
    pub fn deselected(&mut self, alloc: Global, method: u32) -> Result<(), NoMemory>
        ensures revelation { (p : Program) → IsRevelation p self.old → IsRevelation p self.new }
        ensures now { OnOk result (now_of self.new ≡ without_selected method (now_of self.old)) }
        ensures stays { OnErr result (now_of self.new ≡ now_of self.old) }
        ensures shown { self.new.shown ≡ self.old.shown }
    {
        self.stale.add(method)?;
        self.selected.deselect(alloc, method)?;
        Ok(())
    }
}
