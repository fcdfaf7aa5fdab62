//! The original code of a program, prepared: what stands at each offset is looked up once, and is
//! found by its offset from then on.

ghost use Rattle.std.specs.Prelude.{ℕ, [], ◌≡◌, ◌≢◌, Some, false, true};
ghost use Rattle.std.specs.Prelude.{IfOk, OnErr, OnOk};
ghost use Rattle.std.specs.Option.{option_copied, option_map, IfSome};
ghost use Rattle.jvm_model.specs.Basis.Families.{family_of};
ghost use Rattle.member_selection.specs.Numbers.{AreNumbers};
ghost use Rattle.symbolic_references.specs.Runtimes.{RuntimeView};
ghost use Rattle.prepared_code.specs.Tables.{Adds, AreAllCurrent, Releases, version_at};
ghost use Rattle.method_versions.specs.Tables.{is_superseded_in};
ghost use Rattle.prepared_code.specs.Cells.{cell_at};
ghost use Rattle.jvm_model.specs.Basis.Data.{World};
ghost use Rattle.prepared_code.specs.Originals.{AreNamesKnown, IsReady, setup_of};
ghost use Rattle.prepared_code.specs.Making.{passage_of};
ghost use Rattle.prepared_code.specs.Prepared.{FitsOriginals};
ghost use Rattle.prepared_code.specs.Entries.{original_versions};
ghost use Rattle.prepared_code.specs.Versions.{ArePrepared, current_of, first_of, mark_of};
ghost use Rattle.jvm_model.specs.declared.event.Mark.TheVariants.{Off};
ghost use Rattle.jvm_model.specs.declared.state.State.{State};
ghost use Rattle.jvm_model.specs.Soundness.Sound.{IsFit};
ghost use Rattle.prepared_code.specs.ClassVersions.{FitsImage, class_versions};
ghost use Rattle.jvm_model.specs.Codes.ProgramPlaces.{HasClosedCodes};
ghost use Rattle.prepared_code.specs.Standing.{AreMethodImages, IsPinned, IsRunOf, IsSetUp};
ghost use Rattle.prepared_code.specs.Versions.{line_at};

mod attempting;
mod beginning;

use crate::cells::Cells;
use crate::class_versions::class_versions;
use crate::passage::{Passage, passage_in};
use crate::preparing::{bare_versions, original_version};
use crate::versions::{
    Catching, Version, Versions, current_of, first_of, has_lines, is_current, line_at, mark_of,
    version_at,
};
use class_index::Index;
use code_model::Homes;
use const_pool::ClassFile;
use frame_stack::Frames;
use jf_bytes::{NoMemory, Seq};
use jvm_model::Mark;
use member_selection::{Known, MethodNumbers};
use prepared_lines::Line;
use std::alloc::Global;
use std::marker::Model;
use std::rc::Rc;

/// A program with the versions of its methods and what the names of its lines came to. The lines of
/// a method's original code are made when it is first run; a clause sees the versions with all
/// their lines, those that are kept beside them, and what is kept of names.
#[derive(Drop)]
pub struct Originals {
    index: Rc<Index>,
    versions: Versions,
    cells: Cells,
}

impl Model for Originals {
    ghost use Rattle.prepared_code.specs.Kept.{IsKept};
    ghost use Rattle.prepared_code.specs.Originals.{OriginalsView};
    ghost use Rattle.prepared_code.specs.Making.{with_lines};

    ghost Value = { OriginalsView };

    ghost view = { λ o. record {
      program = o.index.value;
      versions = with_lines o.index.value o.versions;
      kept = o.versions;
      rows = o.cells;
    } };

    ghost invariant = { λ o. IsKept o.index.value o.versions };
}

impl Originals {
    /// Prepares a program: its methods get their versions, still without lines.
    pub fn new(alloc: Global, index: Rc<Index>) -> Result<Originals, NoMemory>
        requires { FitsOriginals index.value }
        ensures program { IfOk result (λ o. o.program ≡ index.value) }
        ensures versions { IfOk result (λ o. o.versions ≡ original_versions index.value) }
        ensures set_up { IfOk result (λ o. (w : World) → w.program ≡ index.value
            → IsFit index.value → HasClosedCodes index.value → IsSetUp (setup_of w o)) }
        ensures rows { IfOk result (λ o. o.rows ≡ []) }
    {
        let versions = bare_versions(alloc, index.as_ref().program())?;
        let cells = Cells::new(alloc);
        Ok(Originals {
            index,
            versions,
            cells,
        })
    }

    /// The version with this number. None where its lines are still to be made.
    pub fn version(&self, version: usize) -> Option<&Version>
        ensures version { IfSome result
            (λ x. version_at self.now.versions version ≡ Some x.now) }
        ensures prepared { IfSome result (λ x. ArePrepared x.now) }
    {
        let held = version_at(&self.versions, version)?;
        if !held.prepared.has_lines {
            return None;
        }
        Some(held)
    }

    /// The line at a place of a version, by two look-ups. None where it is still to be made.
    #[inline(always)]
    pub fn line(&self, version: usize, place: u16) -> Option<&Line>
        ensures kept { option_copied result ≡ line_at self.now.kept version place }
        ensures line { IfSome result
            (λ l. line_at self.now.versions version place ≡ Some l.now) }
        ensures marked { mark_of self.now.versions version ≢ Off
            → option_copied result ≡ line_at self.now.versions version place }
        ensures family { IfSome result (λ l. l.now.family ≡ family_of l.now.instr.op) }
    {
        line_at(&self.versions, version, place)
    }

    /// Where the instruction at a place of a version stands, and where control goes on behind it.
    /// Lines that are still to be made are made for it.
    pub fn passage(
        &self,
        alloc: Global,
        version: usize,
        place: u16,
    ) -> Result<Option<Passage>, NoMemory>
        ensures { IfOk result (λ o. o
            ≡ option_map passage_of (line_at self.now.versions version place)) }
    {
        let Some(held) = version_at(&self.versions, version) else {
            return Ok(None);
        };
        if held.prepared.has_lines {
            return Ok(passage_in(held, place));
        }
        let made = original_version(alloc, self.index.as_ref().program(), held.method)?;
        Ok(passage_in(&made, place))
    }

    /// Makes the lines of a version, which is its method's original code.
    #[inline(never)]
    fn make_lines(&mut self, alloc: Global, version: usize) -> Result<(), NoMemory>
        ensures ready { OnOk result (IsReady self.new version) }
        ensures program { self.new.program ≡ self.old.program }
        ensures versions { self.new.versions ≡ self.old.versions }
        ensures known { (r : RuntimeView) → AreNamesKnown self.old r → AreNamesKnown self.new r }
    {
        let Some(held) = version_at(&self.versions, version) else {
            return Ok(());
        };
        if held.prepared.has_lines {
            return Ok(());
        }
        let made = original_version(alloc, self.index.as_ref().program(), held.method)?;
        self.versions.replace(version, made.prepared);
        Ok(())
    }

    /// Makes the lines of a version, where they are still to be made.
    #[inline(always)]
    pub fn prepare(&mut self, alloc: Global, version: usize) -> Result<(), NoMemory>
        ensures ready { OnOk result (IsReady self.new version) }
        ensures program { self.new.program ≡ self.old.program }
        ensures versions { self.new.versions ≡ self.old.versions }
        ensures known { (r : RuntimeView) → AreNamesKnown self.old r → AreNamesKnown self.new r }
    {
        if has_lines(&self.versions, version) {
            return Ok(());
        }
        self.make_lines(alloc, version)
    }

    /// The version in which a method begins.
    #[inline(always)]
    pub fn current(&self, method: u32) -> usize
        ensures { result ≡ current_of self.now.versions method }
    {
        current_of(&self.versions, method)
    }

    /// Where a version begins.
    #[inline(always)]
    pub fn first(&self, version: usize) -> u16
        ensures { result ≡ first_of self.now.versions version }
    {
        first_of(&self.versions, version)
    }

    /// Whose probes a version has.
    #[inline(always)]
    pub fn mark(&self, version: usize) -> Mark
        ensures { result ≡ mark_of self.now.versions version }
    {
        mark_of(&self.versions, version)
    }

    /// Whether a version is held, and its method begins in it.
    #[inline(always)]
    pub fn is_current(&self, version: usize) -> bool
        ensures { let v = self.now.versions in result ≡ true
            → is_superseded_in v.slots v.current version ≡ false }
    {
        is_current(&self.versions, version)
    }

    /// The handlers of a version.
    pub fn handlers(&self, version: usize) -> Option<&Seq<Catching>>
        ensures { option_copied result ≡ option_map (λ x. x.prepared.handlers)
            (version_at self.now.versions version) }
    {
        match version_at(&self.versions, version) {
            Some(version) => Some(&version.prepared.handlers),
            None => None,
        }
    }

    // ---- versions

    /// Adds the versions of a class's methods for an image of the class, in which they begin from
    /// then on: where homes tell of a method the version that it has in the image, with the probes
    /// that stand there, else its original code. Frames keep the versions that they run; a former
    /// version that none runs is dropped. After want of memory nothing has changed.
    pub fn install(
        &mut self,
        alloc: Global,
        numbers: &MethodNumbers,
        class: u32,
        image: &ClassFile,
        homes: &[Option<Homes>],
        frames: &Frames,
    ) -> Result<(), NoMemory>
        requires image { FitsImage image.now homes.now }
        requires numbers { AreNumbers self.old.program numbers.now }
        ensures ok { OnOk result (Adds frames.now.frames
            (class_versions self.old.program class image.now homes.now) self.old.versions
            self.new.versions) }
        ensures err { OnErr result (self.new.versions ≡ self.old.versions) }
        ensures program { self.new.program ≡ self.old.program }
        ensures known { (r : RuntimeView) → AreNamesKnown self.old r → AreNamesKnown self.new r }
        // The versions are of the program, and what stood for the run stands for it.
        ensures set_up { (w : World) → w.program ≡ self.old.program → OnOk result
            (AreMethodImages w.program class image.now homes.now
            → IsSetUp (setup_of w self.old) → IsSetUp (setup_of w self.new)) }
        ensures stands { (w : World) → w.program ≡ self.old.program → OnOk result
            (AreMethodImages w.program class image.now homes.now → (clock : ℕ) (s : State)
            → IsPinned frames.now.frames s.stack
            → IsRunOf (setup_of w self.old) clock s → IsRunOf (setup_of w self.new) clock s) }
    {
        let program = self.index.as_ref().program();
        let more = class_versions(alloc, program, numbers, class, image, homes)?;
        // A number may be given again.
        let none = Cells::new(alloc);
        self.cells = none;
        self.versions.add_all(more, frames)
    }

    /// Drops each superseded version that no frame runs.
    #[inline(always)]
    pub fn release(&mut self, frames: &Frames)
        ensures released { Releases frames.now.frames self.old.versions
            self.new.versions }
        ensures same { AreAllCurrent self.old.versions → self.new.versions ≡ self.old.versions }
        ensures program { self.new.program ≡ self.old.program }
        ensures known { (r : RuntimeView) → AreNamesKnown self.old r → AreNamesKnown self.new r }
    {
        self.versions.release(frames);
    }

    /// What is known of the names of the line at a place of a version.
    #[inline(always)]
    pub fn known(&self, version: usize, place: u16) -> Option<&Known>
        ensures { option_copied result ≡ cell_at self.now.rows version place }
    {
        self.cells.at(version, place)
    }
}
