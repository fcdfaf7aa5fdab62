//! What an instruction does within its frame, by families (JVM Specification 2.11, 6.5): those of one family differ in
//! a constant, a kind or an operator.

use const_pool::Kind;
use heap_objects::Datum;

/// From two ints an int.
#[derive(Clone, Copy, Debug, PartialEq, Eq)]
pub enum IntOperator {
    Iadd,
    Isub,
    Imul,
    Ishl,
    Ishr,
    Iushr,
    Iand,
    Ior,
    Ixor,
}

/// From two longs a long.
#[derive(Clone, Copy)]
pub enum LongOperator {
    Ladd,
    Lsub,
    Lmul,
    Land,
    Lor,
    Lxor,
}

/// From two ints an int, or two longs a long, unless the second one is 0.
#[derive(Clone, Copy)]
pub enum Division {
    Quotient,
    Remainder,
}

/// From a long and an int, the distance, a long.
#[derive(Clone, Copy)]
pub enum LongShift {
    Lshl,
    Lshr,
    Lushr,
}

/// From an int a value.
#[derive(Clone, Copy)]
pub enum OfInt {
    Ineg,
    I2l,
    I2b,
    I2c,
    I2s,
}

/// From a long a value.
#[derive(Clone, Copy)]
pub enum OfLong {
    Lneg,
    L2i,
}

/// How two ints may compare.
#[derive(Clone, Copy)]
pub enum Comparison {
    Equal,
    NotEqual,
    Less,
    AtLeast,
    Greater,
    AtMost,
}

/// What a branch tests: an int against zero, two ints, whether two references are the same, whether one is null.
#[derive(Clone, Copy)]
pub enum Test {
    WithZero(Comparison),
    OfInts(Comparison),
    OfReferences(bool),
    IsNull(bool),
}

/// The stack instructions.
#[derive(Clone, Copy)]
pub enum StackInstruction {
    Pop,
    Pop2,
    Dup,
    DupX1,
    DupX2,
    Dup2,
    Dup2X1,
    Dup2X2,
    Swap,
}

/// A family, with what one instruction of it has of its own.
#[derive(Clone, Copy)]
pub enum Family {
    Nop,
    /// aconst_null, iconst, lconst
    Constant(Datum),
    /// ldc, ldc_w, ldc2_w: the constant that is given
    PoolConstant,
    /// bipush, sipush: the operand
    OperandConstant,
    /// iload, lload, aload
    Load(Kind),
    /// iload_0 to aload_3
    LoadFrom(Kind, u16),
    /// istore, lstore, astore
    Store(Kind),
    /// istore_0 to astore_3
    StoreTo(Kind, u16),
    /// pop to swap
    ManageStack(StackInstruction),
    BinaryOfInts(IntOperator),
    BinaryOfLongs(LongOperator),
    /// idiv, irem
    DivisionOfInts(Division),
    /// ldiv, lrem
    DivisionOfLongs(Division),
    ShiftOfLong(LongShift),
    /// ineg, i2l, i2b, i2c, i2s
    UnaryOfInt(OfInt),
    /// lneg, l2i
    UnaryOfLong(OfLong),
    Lcmp,
    Iinc,
    /// ifeq to if_acmpne, ifnull, ifnonnull
    Branch(Test),
    /// goto, goto_w
    Goto,
    /// jsr, jsr_w
    Jsr,
    Ret,
    /// tableswitch, lookupswitch
    Switch,
    /// ireturn, lreturn, areturn, return: the kind of the result, where there is one
    Return(Option<Kind>),
    /// It needs more than its frame, takes or gives a float or a double, or is no instruction.
    NotLocal,
}
