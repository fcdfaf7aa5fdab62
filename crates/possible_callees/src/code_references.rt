//! The instructions of original code that can begin methods, with the names that they give.

ghost use Rattle.std.specs.Prelude.{◌≡◌, ◌<◌, ◌^◌, length, IfOk};
ghost use Rattle.std.specs.List.{AllByRecursion};
ghost use Rattle.std.specs.Option.{option_and_then};
ghost use Rattle.code_model.specs.Instructions.{end_of};
ghost use Rattle.jvm_model.specs.Codes.Lines.{operation_of};
ghost use Rattle.prepared_code.specs.Prepared.{HasShortCode, HasShortCodes};
ghost use Rattle.possible_callees.specs.CodeReferences.{begins_by, references_in_code, member_references};
ghost use Rattle.jvm_model.specs.Profiling.Revelation.{symbolic_reference_in, symbolic_references_of};
ghost use Rattle.jvm_model.specs.Profiling.Targets.{operations_of};

use crate::tables::add_some;
use code_model::{Instr, instr_at};
use const_pool::{ClassFile, Member};
use jf_bytes::{NoMemory, Seq};
use jvm_model::{Operation, Program, SymbolicReference, code_of};
use prepared_lines::{Line, LocalAction, line_of};
use std::alloc::Global;

/// What names something and can begin a method.
fn beginning(operation: Operation<LocalAction>) -> Option<SymbolicReference>
    ensures { result ≡ begins_by operation }
{
    let Operation::Named(reference) = operation else {
        return None;
    };
    match reference {
        SymbolicReference::New(name) => Some(SymbolicReference::New(name)),
        SymbolicReference::Getstatic(field) => Some(SymbolicReference::Getstatic(field)),
        SymbolicReference::Putstatic(field) => Some(SymbolicReference::Putstatic(field)),
        SymbolicReference::Invokevirtual(method) => Some(SymbolicReference::Invokevirtual(method)),
        SymbolicReference::Invokespecial(caller, method, interface) => {
            Some(SymbolicReference::Invokespecial(caller, method, interface))
        }
        SymbolicReference::Invokestatic(method) => Some(SymbolicReference::Invokestatic(method)),
        SymbolicReference::Invokeinterface(method) => Some(SymbolicReference::Invokeinterface(
            method,
        )),
        _ => None,
    }
}

/// What a line names, where it can begin a method.
fn beginning_of(line: Line) -> Option<SymbolicReference>
    ensures { result ≡ begins_by line.operation }
{
    let Line { operation, .. } = line;
    beginning(operation)
}

/// What an instruction names, where it can begin a method.
fn symbolic_reference_of(
    alloc: Global,
    class: &ClassFile,
    instr: Instr,
) -> Result<Option<SymbolicReference>, NoMemory>
    requires { end_of instr < 2 ^ 16 }
    ensures { IfOk result (λ n. n
        ≡ option_and_then symbolic_reference_in (operation_of class.now instr)) }
{
    match line_of(alloc, class, instr)? {
        Some(line) => Ok(beginning_of(line)),
        None => Ok(None),
    }
}

/// What the instructions of a code name that can begin methods, in order.
fn references_in_code(
    alloc: Global,
    class: &ClassFile,
    code: &[u8],
) -> Result<Seq<SymbolicReference>, NoMemory>
    requires { length code.now < 2 ^ 16 }
    ensures { IfOk result (λ ns. ns ≡ references_in_code class.now code.now) }
{
    let mut references = Seq::new(alloc);
    let mut at = 0;
    let mut left = code.len();
    while left > 0 {
        let Some(instr) = instr_at(alloc, code, at)? else {
            return Ok(references);
        };
        at = instr.next_offset();
        left -= 1;
        let reference = symbolic_reference_of(alloc, class, instr)?;
        add_some(&mut references, reference)?;
    }
    Ok(references)
}

/// Those of a method.
fn member_references(
    alloc: Global,
    class: &ClassFile,
    member: &Member,
) -> Result<Seq<SymbolicReference>, NoMemory>
    requires { HasShortCode member.now }
    ensures { IfOk result (λ ns. ns ≡ member_references class.now member.now) }
{
    match code_of(member) {
        Some(code) => references_in_code(alloc, class, code.code.as_slice()),
        None => Ok(Seq::new(alloc)),
    }
}

/// What the original code of the method with this number names that can begin methods, in order.
pub fn symbolic_references_of(
    alloc: Global,
    program: &Program,
    method: u32,
) -> Result<Seq<SymbolicReference>, NoMemory>
    requires { AllByRecursion HasShortCodes program.now.classes }
    ensures { IfOk result (λ ns. ns
        ≡ symbolic_references_of (operations_of program.now method)) }
{
    let Some(place) = program.methods.at(method as usize) else {
        return Ok(Seq::new(alloc));
    };
    let Some(class) = program.classes.get(place.class as usize) else {
        return Ok(Seq::new(alloc));
    };
    match class.methods.get(place.position as usize) {
        Some(member) => member_references(alloc, class, member),
        None => Ok(Seq::new(alloc)),
    }
}
