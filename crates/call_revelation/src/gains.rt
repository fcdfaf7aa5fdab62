//! What a call begins on a class that is loaded more.

ghost use Rattle.std.specs.Prelude.{true, OnOk};
ghost use Rattle.class_linker.specs.Linkers.{IsLoaded};
ghost use Rattle.jvm_model.specs.Profiling.Revelation.{gained_on};
ghost use Rattle.member_selection.specs.Numbers.{AreNumbers};
ghost use Rattle.possible_callees.specs.Lineages.{selecting};
ghost use Rattle.possible_callees.specs.Tables.{Adds};
ghost use Rattle.call_revelation.specs.Books.{called_by, called_on};

use crate::book::names;
use class_index::Order;
use class_linker::Linker;
use jf_bytes::NoMemory;
use jvm_model::{MemberName, SymbolicReference};
use member_selection::MethodNumbers;
use possible_callees::{add_number, method_found, selected_number};

/// What a call that names a class begins on a new one.
fn add_called_on(
    linker: &Linker,
    numbers: &MethodNumbers,
    interface: bool,
    new: u32,
    class: u32,
    member: &MemberName,
    found: &mut Order,
) -> Result<(), NoMemory>
    requires numbers { AreNumbers linker.now.program numbers.now }
    requires loaded { IsLoaded linker.now class }
    requires new { IsLoaded linker.now new }
    ensures { OnOk result (Adds found.old found.new (gained_on linker.now.program new class
        (selecting interface) member.now)) }
{
    if !linker.is_subtype(new, class) {
        return Ok(());
    }
    match method_found(linker, class, interface, false, member) {
        Some(m) => add_number(found, selected_number(linker, numbers, interface, m, new)),
        None => Ok(()),
    }
}

/// What an instruction that names a class begins on a new one, where it is a call.
fn add_called_reference(
    linker: &Linker,
    numbers: &MethodNumbers,
    new: u32,
    class: u32,
    reference: &SymbolicReference,
    found: &mut Order,
) -> Result<(), NoMemory>
    requires numbers { AreNumbers linker.now.program numbers.now }
    requires loaded { IsLoaded linker.now class }
    requires new { IsLoaded linker.now new }
    ensures { OnOk result (Adds found.old found.new
        (called_on linker.now.program new class reference.now)) }
{
    match reference {
        SymbolicReference::Invokevirtual(method) => {
            add_called_on(linker, numbers, false, new, class, method.member(), found)
        }
        SymbolicReference::Invokeinterface(method) => {
            add_called_on(linker, numbers, true, new, class, method.member(), found)
        }
        _ => Ok(()),
    }
}

/// What an instruction begins on a new class, where it is a call that names this class.
pub fn add_called(
    linker: &Linker,
    numbers: &MethodNumbers,
    new: u32,
    class: u32,
    reference: &SymbolicReference,
    found: &mut Order,
) -> Result<(), NoMemory>
    requires numbers { AreNumbers linker.now.program numbers.now }
    requires loaded { IsLoaded linker.now class }
    requires new { IsLoaded linker.now new }
    ensures { OnOk result (Adds found.old found.new
        (called_by linker.now.program new class reference.now)) }
{
    if names(linker, reference, class) {
        add_called_reference(linker, numbers, new, class, reference, found)
    } else {
        Ok(())
    }
}
