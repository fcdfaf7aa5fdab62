//! Instructions to bytes.

ghost use Rattle.std.specs.Prelude.{◌≡◌, IfOk};
ghost use Rattle.code_model.specs.Groups.{IsEncodable};
ghost use Rattle.code_model.specs.Instructions.{IsReading};
ghost use Rattle.code_model.specs.Layout.{code_bytes};

use crate::instr::Code;
use crate::spelling::put_instrs;
use jf_bytes::{NoMemory, Seq};
use std::alloc::Global;

/// The bytes whose instructions are these (JVM Specification 4.7.3, 6.5), with zeros for padding: `decode` gives the
/// code back from them. The code is one that `decode` gave, and each of its targets is the start of one of its
/// instructions.
pub fn encode(alloc: Global, code: &Code) -> Result<Vec<u8>, NoMemory>
    requires { IsEncodable code.now }
    ensures read { IfOk result (λ bytes. IsReading bytes.items code.now) }
    ensures padded { IfOk result (λ bytes. bytes.items ≡ code_bytes code.now.instrs) }
{
    let mut bytes = Seq::with_capacity(alloc, code.len as usize)?;
    put_instrs(&mut bytes, code.instrs.as_slice())?;
    Ok(bytes.into_vec())
}
