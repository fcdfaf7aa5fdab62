//! Bytes to instructions.

ghost use Rattle.std.specs.Prelude.{◌≡◌, ◌≢◌, ◌<◌, ◌≤◌, length, drop, IfOk, IfErr, OnOk};
ghost use Rattle.code_model.specs.declared.error.CodeError.{CodeError as Fault};
ghost use Rattle.code_model.specs.declared.instr.Code.{Code as Reading};
ghost use Rattle.code_model.specs.Reading.{Gives, read_instruction};
ghost use Rattle.code_model.specs.Instructions.{instruction_at, StandAsSpelled, ArePlaced};
ghost use Rattle.code_model.specs.Instructions.{IsReading, IsFirstFault, IsToldFault};
ghost use Rattle.code_model.specs.Instructions.{IsDecodedAs, IsRefusedAs};

use crate::error::CodeError;
use crate::instr::{Code, Instr};
use crate::operands::instr_of;
use jf_bytes::{NoMemory, Seq};
use std::alloc::Global;

/// The instruction that the bytes have at an offset, and the bytes behind it.
fn read_at(alloc: Global, bytes: &[u8], at: u16) -> Result<(Instr, &[u8]), CodeError>
    requires { at ≤ length bytes.now }
    ensures { Gives (λ x. (x.0, x.1.now)) result (read_instruction at (drop at bytes.now)) }
{
    let (_, rest) = bytes.split_at(at as usize);
    instr_of(alloc, at, rest)
}

/// Whether a fault is one of the bytes.
fn unless_no_memory(fault: CodeError) -> Result<(), NoMemory>
    ensures { OnOk result (fault ≢ CodeError.NoMemory) }
{
    match fault {
        CodeError::NoMemory => Err(NoMemory),
        CodeError::BadOpcode(_) | CodeError::Cut(_) | CodeError::BadSwitch(_) => Ok(()),
    }
}

/// The instruction that the bytes have at an offset, where they have a whole one there.
pub fn instr_at(alloc: Global, bytes: &[u8], at: u16) -> Result<Option<Instr>, NoMemory>
    ensures { IfOk result (λ found. found ≡ instruction_at bytes.now at) }
{
    if bytes.len() < at as usize {
        return Ok(None);
    }
    match read_at(alloc, bytes, at) {
        Ok(read) => Ok(Some(read.0)),
        Err(fault) => {
            unless_no_memory(fault)?;
            Ok(None)
        }
    }
}

/// The instructions that the bytes are, from offset 0 on (JVM Specification 4.9.1): each opcode of versions 45 to 50,
/// also behind wide. What admits or rewrites methods calls it. A refusal is the first fault from the left: the bytes
/// before its instruction are whole instructions. To a user it means that the class file has a faulty method.
pub fn decode(alloc: Global, bytes: &[u8]) -> Result<Code, CodeError>
    requires some { 0 < length bytes.now }
    requires short { length bytes.now ≤ 65535 }
    ensures found { IfOk result (λ code. IsReading bytes.now code) }
    ensures not_empty { IfOk result (λ code. 0 < length code.instrs) }
    ensures placed { IfOk result (λ code. ArePlaced bytes.now code.instrs) }
    ensures only { (code : Reading) → IsReading bytes.now code → IsDecodedAs result code }
    ensures refused { IfErr result (IsToldFault bytes.now) }
    ensures first_fault { (e : Fault) → IsFirstFault bytes.now e → IsRefusedAs result e }
    // Which instruction stands at an offset is said by the formats alone.
    ensures stands { StandAsSpelled bytes.now }
{
    let len = bytes.len() as u16;
    let mut instrs = Seq::new(alloc);
    let mut at = 0;
    while at < len {
        let (instr, rest) = match read_at(alloc, bytes, at) {
            Ok(read) => read,
            Err(fault) => return Err(fault),
        };
        at = len - rest.len() as u16;
        instrs.push(instr)?;
    }
    Ok(Code { instrs, len })
}
