//! The instructions of methods that were entered, which are read once, and where they stand by the classes that they
//! name.

ghost use Rattle.std.specs.Prelude.{◌≡◌, ◌<◌, [], if◌then◌else◌, is_ok, is_some, length, replicate, true, IfOk, OnOk, None, ℕ};
ghost use Rattle.std.specs.List.{AllByRecursion};
ghost use Rattle.std.specs.Option.{option_copied};
ghost use Rattle.jvm_model.specs.Instructions.SymbolicReference.{resolved_name};
ghost use Rattle.jvm_model.specs.Basis.Programs.{class_named};
ghost use Rattle.jvm_model.specs.Profiling.Revelation.{is_named, symbolic_references_of};
ghost use Rattle.prepared_code.specs.Prepared.{HasShortCodes};
ghost use Rattle.possible_callees.specs.Tables.{list_at};
ghost use Rattle.call_revelation.specs.Books.{HasMore, IsBookOf, code_at, is_call, is_noted};
ghost use Rattle.call_revelation.specs.Books.{symbolic_reference_at, with_noted, with_use, with_uses};

use crate::uses::Use;
use class_linker::Linker;
use jf_bytes::{NoMemory, Seq};
use jvm_model::SymbolicReference;
use member_selection::resolved_name;
use possible_callees::{add_item, no_lists, symbolic_references_of};
use std::alloc::Global;

/// What was read of methods, by their numbers; and by the class that an instruction names all instructions that name
/// it, and those that select by their receiver's class. Where memory ran out there are more of them than were read.
#[derive(Drop)]
pub struct Book {
    pub codes: Seq<Option<Seq<SymbolicReference>>>,
    pub waiting: Vec<Seq<Use>>,
    pub calls: Vec<Seq<Use>>,
}

/// The class that an instruction names, where the program has one.
pub fn class_of(linker: &Linker, reference: &SymbolicReference) -> Option<u32>
    ensures { result ≡ class_named linker.now.program (resolved_name reference.now) }
{
    linker.index().class_named(resolved_name(reference).units())
}

/// Whether it names this class.
pub fn names(linker: &Linker, reference: &SymbolicReference, class: u32) -> bool
    ensures { result ≡ is_named linker.now.program class
        (resolved_name reference.now) }
{
    match class_of(linker, reference) {
        Some(found) => found == class,
        None => false,
    }
}

/// Whether an instruction selects by its receiver's class.
pub fn is_call(reference: &SymbolicReference) -> bool
    ensures { result ≡ is_call reference.now }
{
    match reference {
        SymbolicReference::Invokevirtual(_) => true,
        SymbolicReference::Invokeinterface(_) => true,
        _ => false,
    }
}

/// Whether an instruction is noted, where calls alone are: those that select by their receiver's class.
fn is_noted(calls: bool, reference: &SymbolicReference) -> bool
    ensures { result ≡ is_noted calls reference.now }
{
    !calls || is_call(reference)
}

/// Notes an instruction by the class that it names.
fn note_use(
    linker: &Linker,
    lists: &mut [Seq<Use>],
    reference: &SymbolicReference,
    u: Use,
) -> Result<(), NoMemory>
    ensures { lists.new ≡ (if is_ok result
        then with_use linker.now.program u reference.now lists.old else lists.old) }
{
    match class_of(linker, reference) {
        Some(class) => add_item(lists, class as usize, u),
        None => Ok(()),
    }
}

/// The same, where it is noted.
fn note_one(
    linker: &Linker,
    lists: &mut [Seq<Use>],
    calls: bool,
    reference: &SymbolicReference,
    u: Use,
) -> Result<(), NoMemory>
    ensures { lists.new ≡ (if is_ok result
        then with_noted linker.now.program calls u reference.now lists.old
        else lists.old) }
{
    if is_noted(calls, reference) {
        note_use(linker, lists, reference, u)
    } else {
        Ok(())
    }
}

/// Notes the instructions of a method, or its calls alone.
fn note_uses(
    linker: &Linker,
    lists: &mut [Seq<Use>],
    calls: bool,
    caller: u32,
    references: &[SymbolicReference],
) -> Result<(), NoMemory>
    ensures noted { OnOk result (lists.new ≡ with_uses linker.now.program calls caller 0
        references.now lists.old) }
    ensures more { HasMore lists.old lists.new }
{
    for (at, reference) in references.iter().enumerate() {
        note_one(linker, lists, calls, reference, Use { caller, at })?;
    }
    Ok(())
}

/// Nothing was read of so many methods.
fn no_codes(alloc: Global, methods: usize) -> Result<Seq<Option<Seq<SymbolicReference>>>, NoMemory>
    ensures { IfOk result (λ codes. codes ≡ replicate methods None) }
{
    let mut codes = Seq::with_capacity(alloc, methods)?;
    for _ in 0..methods {
        codes.push(None)?;
    }
    Ok(codes)
}

impl Book {
    /// Nothing was read.
    pub fn new(alloc: Global, methods: usize, classes: usize) -> Result<Book, NoMemory>
        ensures codes { IfOk result (λ b. b.codes ≡ replicate methods None) }
        ensures waiting { IfOk result (λ b. b.waiting.items ≡ replicate classes []) }
        ensures calls { IfOk result (λ b. b.calls.items ≡ replicate classes []) }
    {
        let codes = no_codes(alloc, methods)?;
        let waiting = no_lists(alloc, classes)?;
        let calls = no_lists(alloc, classes)?;
        Ok(Book {
            codes,
            waiting,
            calls,
        })
    }

    /// What was read of a method.
    pub fn references(&self, method: u32) -> Option<&Seq<SymbolicReference>>
        ensures { option_copied result ≡ code_at self.now.codes method }
    {
        self.codes.get(method as usize)?.as_ref()
    }

    /// What an instruction names.
    pub fn reference(&self, u: Use) -> Option<&SymbolicReference>
        ensures { option_copied result ≡ symbolic_reference_at self.now.codes u }
    {
        self.references(u.caller)?.get(u.at)
    }

    /// The instructions that name a class.
    pub fn waiting(&self, class: u32) -> &[Use]
        ensures { result.now ≡ list_at self.now.waiting.items class }
    {
        match self.waiting.get(class as usize) {
            Some(uses) => uses.as_slice(),
            None => &[],
        }
    }

    /// The calls that name a class.
    pub fn calls(&self, class: u32) -> &[Use]
        ensures { result.now ≡ list_at self.now.calls.items class }
    {
        match self.calls.get(class as usize) {
            Some(uses) => uses.as_slice(),
            None => &[],
        }
    }

    /// Reads a method, if it was not. What was read stays.
    pub fn read(&mut self, alloc: Global, linker: &Linker, method: u32) -> Result<(), NoMemory>
        requires book { IsBookOf linker.now.program self.old }
        requires method { method < length linker.now.program.methods }
        requires codes { AllByRecursion HasShortCodes linker.now.program.classes }
        ensures book { IsBookOf linker.now.program self.new }
        ensures has { OnOk result (is_some (code_at self.new.codes method) ≡ true) }
        ensures kept { (m : ℕ) → is_some (code_at self.old.codes m) ≡ true →
            is_some (code_at self.new.codes m) ≡ true }
    {
        if self.references(method).is_some() {
            return Ok(());
        }
        let references = symbolic_references_of(alloc, linker.program(), method)?;
        let named = references.as_slice();
        note_uses(linker, self.waiting.as_mut_slice(), false, method, named)?;
        note_uses(linker, self.calls.as_mut_slice(), true, method, named)?;
        self.codes.set(method as usize, Some(references));
        Ok(())
    }
}
