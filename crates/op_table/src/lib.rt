//! The opcode table of the JVM (JVM Specification, SE 7, chapters 6 and 7): how each instruction's
//! operands lie, how long it is, and whether control goes on after it. Nothing here takes memory.
#![tactic(auto)]

ghost use Rattle.std.specs.Prelude.{◌≡◌, ◌↔◌, ◌<◌, IsTrue, false, Some, slice_get};
ghost use Rattle.op_table.specs.Opcodes.{row_of, wide_row_of};
ghost use Rattle.op_table.specs.Opcodes.{HasNoFixedSize, NeverGoesOn, IsReturn};

mod opcodes;
mod tables;

pub use opcodes::{
    AALOAD, AASTORE, ALOAD_0, ALOAD_1, ALOAD_2, ANEWARRAY, ARETURN, ARRAYLENGTH, ASTORE_1,
    ASTORE_2, ATHROW, BALOAD, BASTORE, BIPUSH, CALOAD, CASTORE, CHECKCAST, DRETURN, DUP, FRETURN,
    GETFIELD, GETSTATIC, IADD, IALOAD, IASTORE, ICONST_1, IFGT, IFNONNULL, ILOAD_1, ILOAD_2, IMUL,
    INSTANCEOF, INVOKEINTERFACE, INVOKESPECIAL, INVOKESTATIC, INVOKEVIRTUAL, IRETURN, ISUB, IXOR,
    LALOAD, LASTORE, LDC, LDC_W, LDC2_W, LRETURN, MONITORENTER, MONITOREXIT, MULTIANEWARRAY, NEW,
    NEWARRAY, PUTFIELD, PUTSTATIC, RETURN, SALOAD, SASTORE, SIPUSH, WIDE,
};
pub use tables::{OPS, WIDE_OPS};

/// How an instruction's operands lie after its opcode.
#[derive(Clone, Copy, Debug, PartialEq, Eq)]
pub enum Form {
    /// No operands.
    Plain,
    /// One signed byte, a value: `bipush`.
    Byte,
    /// Two bytes, a signed value: `sipush`.
    Short,
    /// One byte, an index into the constant pool: `ldc`.
    PoolByte,
    /// Two bytes, an index into the constant pool.
    Pool,
    /// The index of a local variable: one byte, or two after `wide`.
    Local,
    /// The index of a local variable and a signed value to add: one byte each, or two after `wide`.
    Inc,
    /// Two bytes, a signed branch offset.
    Jump,
    /// Four bytes, a signed branch offset.
    JumpWide,
    /// The operands of `tableswitch`.
    Table,
    /// The operands of `lookupswitch`.
    Lookup,
    /// Two bytes, an index into the constant pool, then a count and a zero: `invokeinterface`.
    Interface,
    /// Two bytes, an index into the constant pool, then the dimensions: `multianewarray`.
    Multi,
    /// One byte, the code of a primitive type: `newarray`.
    Array,
    /// Another instruction, with longer operands: `wide`.
    Wide,
    /// No instruction.
    Unknown,
}

/// What the table says of one opcode.
#[derive(Clone, Copy, Debug, PartialEq, Eq)]
pub struct OpRow {
    /// How the operands lie.
    pub form: Form,
    /// The instruction's length in bytes, its opcode counted, or 0 where the operands decide it or
    /// there is no instruction.
    pub size: u8,
    /// Whether the instruction takes or gives a `float` or a `double`.
    pub floating: bool,
    /// Whether control never goes on to the instruction after it.
    pub ends: bool,
    /// Whether the instruction returns from its method.
    pub returns: bool,
}

/// The row of an opcode.
pub fn row(op: u8) -> OpRow
    ensures value { result ≡ row_of op }
    ensures sizeless { (result.size ≡ 0) ↔ HasNoFixedSize result.form }
    ensures ending { IsTrue result.ends ↔ NeverGoesOn op }
    ensures returning { IsTrue result.returns ↔ IsReturn op }
{
    at(&OPS, op as usize)
}

/// The row of the instruction that has this opcode and follows `wide`.
pub fn wide_row(op: u8) -> OpRow
    ensures value { result ≡ wide_row_of op }
    ensures sizeless { (result.size ≡ 0) ↔ HasNoFixedSize result.form }
    ensures ending { IsTrue result.ends ↔ (op ≡ 169) }
    ensures staying { result.returns ≡ false }
{
    at(&WIDE_OPS, op as usize)
}

/// One row of a table.
pub fn at<const N: usize>(rows: &[OpRow; N], i: usize) -> OpRow
    requires { i < N }
    ensures { slice_get rows.now i ≡ Some result }
{
    rows[i]
}
