//! Instructions with their operands.

use crate::sizes::instr_len;
use jf_bytes::Seq;

/// An instruction's operand, by its form. Targets are absolute offsets.
#[derive(Debug, Drop)]
pub enum Arg {
    /// No operand bytes.
    Plain,
    /// The constant of bipush and sipush, its sign extended.
    Value(i32),
    /// An index into the constant pool.
    Pool(u16),
    /// A local's slot.
    Local(u16),
    /// iinc: the slot, and what is added.
    Inc(u16, i16),
    /// Where a jump goes.
    Target(u16),
    /// tableswitch: the default's target, the low number, the targets.
    Table(u16, i32, Seq<u16>),
    /// lookupswitch: the default's target, the keys, their targets.
    Lookup(u16, Seq<i32>, Seq<u16>),
    /// invokeinterface: the index, and the two bytes after it.
    Interface(u16, u8, u8),
    /// multianewarray: the index, and the number of dimensions.
    Multi(u16, u8),
    /// newarray's code of the element type.
    Array(u8),
}

/// An instruction at its offset. `wide` says that it stands behind the prefix of that name.
#[derive(Debug, Drop)]
pub struct Instr {
    pub at: u16,
    pub op: u8,
    pub wide: bool,
    pub arg: Arg,
}

impl Instr {
    ghost use Rattle.std.specs.Prelude.{◌≡◌, ◌<◌, ◌^◌};
    ghost use Rattle.code_model.specs.Instructions.{end_of};

    /// The offset behind it, where the next instruction begins. An offset in a code is a u16 (JVM Specification 4.7.3).
    pub fn next_offset(&self) -> u16
        requires { end_of self.now < 2 ^ 16 }
        ensures { result ≡ end_of self.now }
    {
        let at = u32::from(self.at);
        (at + instr_len(self, at)) as u16
    }
}

/// The instructions of a code, in order, and the code's length in bytes.
#[derive(Debug, Drop)]
pub struct Code {
    pub instrs: Seq<Instr>,
    pub len: u16,
}
