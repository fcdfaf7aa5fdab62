//! The targets of a method.

ghost use Rattle.std.specs.Prelude.{◌≡◌, ◌<◌, ◌+◌, ◌^◌, ℕ, [], filter, flat_map, true, IfOk, OnOk};
ghost use Rattle.std.specs.List.{AllByRecursion, range_with_len};
ghost use Rattle.jvm_model.specs.Basis.KindNumbers.{user_count};
ghost use Rattle.jvm_model.specs.Classes.Load.{is_among};
ghost use Rattle.jvm_model.specs.Basis.Programs.{methods_numbered};
ghost use Rattle.jvm_model.specs.Soundness.Sound.{HasClass, HasLoadedCaller, IsFit};
ghost use Rattle.jvm_model.specs.Profiling.Targets.{begun_by, targets};
ghost use Rattle.class_index.specs.Orders.{with_classes};
ghost use Rattle.class_linker.specs.Linkers.{IsLoaded};
ghost use Rattle.member_selection.specs.Numbers.{all_coded};
ghost use Rattle.prepared_code.specs.Prepared.{HasShortCodes};
ghost use Rattle.possible_callees.specs.Lineages.{AreKnown, IsLineage};
ghost use Rattle.possible_callees.specs.Tables.{Adds, IsRising};

use crate::begun::add_begun;
use crate::code_references::symbolic_references_of;
use crate::lineage::Lineage;
use class_index::Order;
use class_linker::Linker;
use jf_bytes::{NoMemory, Seq};
use jvm_model::SymbolicReference;
use member_selection::MethodNumbers;
use std::alloc::Global;

/// Classes more that are loaded.
fn add_classes(lineage: &mut Lineage, linker: &Linker, classes: &[u32]) -> Result<(), NoMemory>
    requires { AllByRecursion (IsLoaded linker.now) classes.now }
    ensures lineage { IsLineage linker.now.program lineage.old →
        IsLineage linker.now.program lineage.new }
    ensures loaded { OnOk result (lineage.new.loaded
        ≡ with_classes lineage.old.loaded classes.now) }
{
    for class in classes {
        lineage.add(*class, linker.supertypes(*class))?;
    }
    Ok(())
}

/// The classes that a linker has loaded.
fn lineage_of(alloc: Global, linker: &Linker) -> Result<Lineage, NoMemory>
    ensures lineage { IfOk result (λ v. IsLineage linker.now.program v) }
    ensures loaded { IfOk result (λ v. v.loaded ≡ with_classes [] linker.now.loaded) }
{
    let mut lineage = Lineage::new(alloc, linker.program().classes.len())?;
    let loaded = linker.loaded();
    add_classes(&mut lineage, linker, loaded)?;
    Ok(lineage)
}

/// What these instructions begin.
pub fn add_all_begun(
    alloc: Global,
    linker: &Linker,
    numbers: &MethodNumbers,
    lineage: &Lineage,
    references: &[SymbolicReference],
    found: &mut Order,
) -> Result<(), NoMemory>
    requires known { AreKnown linker.now numbers.now lineage.now }
    requires callers { AllByRecursion (λ n. HasLoadedCaller linker.now.program linker.now.loaded
        n) references.now }
    ensures { OnOk result (Adds found.old found.new
        (flat_map (begun_by linker.now.program lineage.now.loaded)
        references.now)) }
{
    for reference in references {
        add_begun(alloc, linker, numbers, lineage, reference, found)?;
    }
    Ok(())
}

/// A number that is above each of these.
fn bound_of(numbers: &[u32]) -> usize
    ensures above { (m : ℕ) → is_among m numbers.now ≡ true → m < result }
    ensures within { result < 2 ^ 32 + 1 }
{
    let mut bound = 0;
    for number in numbers {
        let above = *number as usize + 1;
        if bound < above {
            bound = above;
        }
    }
    bound
}

/// Those among these below a bound, in their order.
fn in_order(alloc: Global, found: &Order, bound: usize) -> Result<Seq<u32>, NoMemory>
    requires { bound < 2 ^ 32 + 1 }
    ensures { IfOk result (λ ms. ms
        ≡ filter (λ m. is_among m found.now) (range_with_len 0 bound)) }
{
    let mut all = Seq::new(alloc);
    for m in 0..bound {
        if found.has(m as u32) {
            all.push(m as u32)?;
        }
    }
    Ok(all)
}

/// What the original code of a method begins.
fn methods_gathered(alloc: Global, method: u32, linker: &Linker) -> Result<Order, NoMemory>
    requires numbered { linker.now.program.methods ≡ methods_numbered linker.now.program.classes }
    requires few { all_coded linker.now.program.classes < 2 ^ 32 }
    requires codes { AllByRecursion HasShortCodes linker.now.program.classes }
    requires fit { IsFit linker.now.program }
    requires root { IsLoaded linker.now (user_count linker.now.program) }
    requires class { HasClass linker.now.program linker.now.loaded method }
    ensures { IfOk result (λ found. (m : ℕ) → is_among m found
        ≡ is_among m (targets linker.now.program linker.now.loaded method)) }
{
    let numbers = MethodNumbers::new(alloc, linker.program())?;
    let lineage = lineage_of(alloc, linker)?;
    let references = symbolic_references_of(alloc, linker.program(), method)?;
    let mut found = Order::new(alloc);
    let references = references.as_slice();
    add_all_begun(alloc, linker, &numbers, &lineage, references, &mut found)?;
    Ok(found)
}

/// The numbers of all methods with Code that an instruction of a method's original code can begin over the classes that
/// are loaded, each once and in their order. The method's class is loaded, and java/lang/Object is. It goes through the
/// whole program once.
pub fn targets(alloc: Global, method: u32, linker: &Linker) -> Result<Seq<u32>, NoMemory>
    requires numbered { linker.now.program.methods ≡ methods_numbered linker.now.program.classes }
    requires few { all_coded linker.now.program.classes < 2 ^ 32 }
    requires codes { AllByRecursion HasShortCodes linker.now.program.classes }
    requires fit { IsFit linker.now.program }
    requires root { IsLoaded linker.now (user_count linker.now.program) }
    requires class { HasClass linker.now.program linker.now.loaded method }
    ensures rising { IfOk result (λ ms. IsRising ms) }
    ensures targets { IfOk result (λ ms. (m : ℕ) → is_among m ms
        ≡ is_among m (targets linker.now.program linker.now.loaded method)) }
{
    let found = methods_gathered(alloc, method, linker)?;
    let bound = bound_of(found.as_slice());
    let all = in_order(alloc, &found, bound)?;
    Ok(all)
}
