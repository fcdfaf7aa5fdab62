//! Versions: the code of a method with its probes.

ghost use Rattle.std.specs.Prelude.{◌≡◌, [], map, IfOk, if◌then◌else◌};
ghost use Rattle.std.specs.List.Sorted.{IsStrictlyIncreasing};
ghost use Rattle.jvm_model.specs.Rewriting.Versions.{is_return_opcode, group_of, moved_handler, catch_all};
ghost use Rattle.inject_events.specs.Probing.{handlers_by, no_version};

use crate::error::{Cause, NoVersion};
use code_model::{CodeError, Group, Homes, Instr, LayError};
use const_pool::{CodeAttribute, Handler};
use jf_bytes::{NoMemory, Seq};
use op_table::row;
use std::alloc::Global;

/// Whether an instruction returns from its method (JVM Specification 6.5, ireturn to return).
fn is_return(op: u8) -> bool
    ensures { result ≡ is_return_opcode op }
{
    row(op).returns
}

/// What goes in front of an instruction.
fn before_of(alloc: Global, leave: &[u8], op: u8) -> Result<Seq<u8>, NoMemory>
    ensures { IfOk result (λ before. before ≡ (if is_return_opcode op then leave.now else [])) }
{
    if is_return(op) {
        Ok(Seq::from_slice(alloc, leave)?)
    } else {
        Ok(Seq::new(alloc))
    }
}

/// An instruction with what goes in front of it.
fn group_of(alloc: Global, leave: &[u8], instr: Instr) -> Result<Group, NoMemory>
    ensures { IfOk result (λ group. group ≡ group_of leave.now instr) }
{
    Ok(Group {
        before: before_of(alloc, leave, instr.op)?,
        instr,
    })
}

/// The instructions with what goes in front of them.
pub(crate) fn groups_of(
    alloc: Global,
    leave: &[u8],
    instrs: Seq<Instr>,
) -> Result<Seq<Group>, NoMemory>
    ensures { IfOk result (λ groups. groups ≡ map (group_of leave.now) instrs) }
{
    let mut groups = Seq::with_capacity(alloc, instrs.len())?;
    for instr in instrs.into_vec() {
        groups.push(group_of(alloc, leave, instr)?)?;
    }
    Ok(groups)
}

/// The only fault that a code can have which is one.
pub(crate) fn want_of_memory(_fault: CodeError) -> NoMemory
    requires { _fault ≡ CodeError.NoMemory }
{
    NoMemory
}

/// Why there is no version, where there is no layout.
pub(crate) fn no_version(error: LayError) -> NoVersion
    ensures { result ≡ no_version error }
{
    match error {
        LayError::TooLong(_) => NoVersion::Limit(Cause::Length),
        LayError::Far(_) => NoVersion::Limit(Cause::Branch),
        LayError::NoMemory => NoVersion::NoMemory,
    }
}

/// A handler by homes.
fn moved_handler(homes: &Homes, handler: Handler) -> Handler
    requires { IsStrictlyIncreasing homes.now.from }
    ensures { result ≡ moved_handler homes.now handler }
{
    Handler {
        start: homes.home_of(handler.start),
        end: homes.home_of(handler.end),
        handler: homes.home_of(handler.handler),
        catch_class: handler.catch_class,
    }
}

/// What takes whatever leaves the original code, which ends here.
fn catch_all(homes: &Homes, end: u16) -> Handler
    requires { IsStrictlyIncreasing homes.now.from }
    ensures { result ≡ catch_all homes.now end }
{
    let unwind = homes.home_of(end);
    Handler {
        start: homes.home_of(0),
        end: unwind,
        handler: unwind,
        catch_class: 0,
    }
}

/// The exception table of a version, of a code that ends here.
pub(crate) fn version_handlers(
    alloc: Global,
    homes: &Homes,
    handlers: &[Handler],
    end: u16,
) -> Result<Seq<Handler>, NoMemory>
    requires { IsStrictlyIncreasing homes.now.from }
    ensures { IfOk result (λ new. new ≡ handlers_by homes.now handlers.now end) }
{
    let mut moved = Seq::new(alloc);
    for handler in handlers {
        moved.push(moved_handler(homes, *handler))?;
    }
    moved.push(catch_all(homes, end))?;
    Ok(moved)
}

/// The Code attribute of a version, and where the original offsets come to stand.
#[derive(Debug, Drop)]
pub struct Version {
    pub code: CodeAttribute,
    pub homes: Homes,
}
