//! The methods that are selected.

ghost use Rattle.std.specs.Prelude.{◌≡◌, ◌++◌, ◌∷◌, [], if◌then◌else◌, is_ok, IfOk, OnOk};
ghost use Rattle.jvm_model.specs.Classes.Load.{is_among};
ghost use Rattle.jvm_model.specs.Profiling.Points.{is_empty};
ghost use Rattle.jvm_model.specs.Profiling.Revealed.{without_method};

use jf_bytes::{NoMemory, Seq};
use possible_callees::{items_repeated, make_room, put};
use std::alloc::Global;
use std::marker::Model;

/// Methods, the one in front that was selected last, and for each method a flag. A clause sees their list.
#[derive(Drop)]
pub struct SelectedMethods {
    methods: Seq<u32>,
    flags: Seq<bool>,
}

impl Model for SelectedMethods {
    ghost use Rattle.std.specs.Prelude.{List, ℕ};
    ghost use Rattle.call_revelation.specs.Flags.{AreFlagged};

    ghost Value = { List ℕ };

    ghost view = { λ s. s.methods };

    ghost invariant = { λ s. AreFlagged s.flags s.methods };
}

/// Adds the others among these methods.
fn add_others(kept: &mut Seq<u32>, methods: &[u32], method: u32) -> Result<(), NoMemory>
    ensures { OnOk result (kept.new ≡ kept.old ++ without_method method methods.now) }
{
    for other in methods {
        if *other != method {
            kept.push(*other)?;
        }
    }
    Ok(())
}

/// These methods with this one in front, once.
fn with_one(alloc: Global, methods: &[u32], method: u32) -> Result<Seq<u32>, NoMemory>
    ensures { IfOk result (λ kept. kept ≡ method ∷ without_method method methods.now) }
{
    let mut kept = Seq::new(alloc);
    kept.push(method)?;
    add_others(&mut kept, methods, method)?;
    Ok(kept)
}

/// These methods without this one.
fn without_one(alloc: Global, methods: &[u32], method: u32) -> Result<Seq<u32>, NoMemory>
    ensures { IfOk result (λ kept. kept ≡ without_method method methods.now) }
{
    let mut kept = Seq::new(alloc);
    add_others(&mut kept, methods, method)?;
    Ok(kept)
}

impl SelectedMethods {
    /// No method, with the room for the flags of so many.
    pub fn new(alloc: Global, methods: usize) -> Result<SelectedMethods, NoMemory>
        ensures { IfOk result (λ selection. selection ≡ []) }
    {
        let flags = items_repeated(alloc, false, methods)?;
        Ok(SelectedMethods {
            methods: Seq::new(alloc),
            flags,
        })
    }

    /// Whether a method is one of them, by its flag.
    pub fn has(&self, method: u32) -> bool
        ensures { result ≡ is_among method self.now }
    {
        match self.flags.at(method as usize) {
            Some(flag) => flag,
            None => false,
        }
    }

    pub fn is_empty(&self) -> bool
        ensures { result ≡ is_empty self.now }
    {
        self.methods.is_empty()
    }

    /// A method is selected.
    pub fn select(&mut self, alloc: Global, method: u32) -> Result<(), NoMemory>
        ensures { self.new ≡ (if is_ok result then method ∷ without_method method self.old
            else self.old) }
    {
        let methods = with_one(alloc, self.methods.as_slice(), method)?;
        make_room(&mut self.flags, method as usize, false)?;
        self.methods = methods;
        self.flags.set(method as usize, true);
        Ok(())
    }

    /// A method is selected no more.
    pub fn deselect(&mut self, alloc: Global, method: u32) -> Result<(), NoMemory>
        ensures { self.new ≡ (if is_ok result then without_method method self.old else self.old) }
    {
        let methods = without_one(alloc, self.methods.as_slice(), method)?;
        self.methods = methods;
        put(&mut self.flags, method as usize, false);
        Ok(())
    }
}
