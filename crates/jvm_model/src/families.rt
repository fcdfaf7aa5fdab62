//! The families by opcode. A row reads `[mnemonic family]`, and `-` is an opcode that sees more than its frame, or
//! none.

ghost use Rattle.std.specs.Prelude.{◌≡◌, ◌<◌, Some, slice_get};
ghost use Rattle.jvm_model.specs.Basis.Families.{family_of};

use crate::family::Comparison::{AtLeast, AtMost, Equal, Greater, Less, NotEqual};
use crate::family::Division::{Quotient, Remainder};
use crate::family::Family;
use crate::family::Family::{
    BinaryOfInts, BinaryOfLongs, Branch, Constant, DivisionOfInts, DivisionOfLongs, Goto, Iinc,
    Jsr, Lcmp, Load, LoadFrom, ManageStack, Nop, NotLocal, OperandConstant, PoolConstant, Ret,
    Return, ShiftOfLong, Store, StoreTo, Switch, UnaryOfInt, UnaryOfLong,
};
use crate::family::IntOperator::{Iadd, Iand, Imul, Ior, Ishl, Ishr, Isub, Iushr, Ixor};
use crate::family::LongOperator::{Ladd, Land, Lmul, Lor, Lsub, Lxor};
use crate::family::LongShift::{Lshl, Lshr, Lushr};
use crate::family::OfInt::{I2b, I2c, I2l, I2s, Ineg};
use crate::family::OfLong::{L2i, Lneg};
use crate::family::StackInstruction::{Dup, Dup2, Dup2X1, Dup2X2, DupX1, DupX2, Pop, Pop2, Swap};
use crate::family::Test::{IsNull, OfInts, OfReferences, WithZero};
use const_pool::Kind;
use heap_objects::Datum::{Int, Long, Ref};

macro_rules! family_row {
    (-) => {
        NotLocal
    };
    ([$name:tt $family:expr]) => {
        $family
    };
}

macro_rules! family_rows {
    ($($row:tt)*) => {
        [$(family_row!($row)),*]
    };
}

/// The families by opcode (JVM Specification 6.5, 7).
const FAMILIES: [Family; 256] = family_rows![
    // 0 to 15
    [nop Nop] [aconst_null Constant(Ref(0))] [iconst_m1 Constant(Int(-1))]
    [iconst_0 Constant(Int(0))] [iconst_1 Constant(Int(1))] [iconst_2 Constant(Int(2))]
    [iconst_3 Constant(Int(3))] [iconst_4 Constant(Int(4))] [iconst_5 Constant(Int(5))]
    [lconst_0 Constant(Long(0))] [lconst_1 Constant(Long(1))] - - - - -
    // 16 to 31
    [bipush OperandConstant] [sipush OperandConstant] [ldc PoolConstant] [ldc_w PoolConstant] [ldc2_w PoolConstant]
    [iload Load(Kind::Int)] [lload Load(Kind::Long)] - - [aload Load(Kind::Ref)]
    [iload_0 LoadFrom(Kind::Int, 0)] [iload_1 LoadFrom(Kind::Int, 1)]
    [iload_2 LoadFrom(Kind::Int, 2)] [iload_3 LoadFrom(Kind::Int, 3)]
    [lload_0 LoadFrom(Kind::Long, 0)] [lload_1 LoadFrom(Kind::Long, 1)]
    // 32 to 47
    [lload_2 LoadFrom(Kind::Long, 2)] [lload_3 LoadFrom(Kind::Long, 3)] - - - - - - - -
    [aload_0 LoadFrom(Kind::Ref, 0)] [aload_1 LoadFrom(Kind::Ref, 1)]
    [aload_2 LoadFrom(Kind::Ref, 2)] [aload_3 LoadFrom(Kind::Ref, 3)] - -
    // 48 to 63
    - - - - - - [istore Store(Kind::Int)] [lstore Store(Kind::Long)] - - [astore Store(Kind::Ref)]
    [istore_0 StoreTo(Kind::Int, 0)] [istore_1 StoreTo(Kind::Int, 1)]
    [istore_2 StoreTo(Kind::Int, 2)] [istore_3 StoreTo(Kind::Int, 3)]
    [lstore_0 StoreTo(Kind::Long, 0)]
    // 64 to 79
    [lstore_1 StoreTo(Kind::Long, 1)] [lstore_2 StoreTo(Kind::Long, 2)]
    [lstore_3 StoreTo(Kind::Long, 3)] - - - - - - - - [astore_0 StoreTo(Kind::Ref, 0)]
    [astore_1 StoreTo(Kind::Ref, 1)] [astore_2 StoreTo(Kind::Ref, 2)]
    [astore_3 StoreTo(Kind::Ref, 3)] -
    // 80 to 95
    - - - - - - - [pop ManageStack(Pop)] [pop2 ManageStack(Pop2)] [dup ManageStack(Dup)] [dup_x1 ManageStack(DupX1)]
    [dup_x2 ManageStack(DupX2)] [dup2 ManageStack(Dup2)] [dup2_x1 ManageStack(Dup2X1)] [dup2_x2 ManageStack(Dup2X2)]
    [swap ManageStack(Swap)]
    // 96 to 111
    [iadd BinaryOfInts(Iadd)] [ladd BinaryOfLongs(Ladd)] - - [isub BinaryOfInts(Isub)]
    [lsub BinaryOfLongs(Lsub)] - - [imul BinaryOfInts(Imul)] [lmul BinaryOfLongs(Lmul)] - -
    [idiv DivisionOfInts(Quotient)] [ldiv DivisionOfLongs(Quotient)] - -
    // 112 to 127
    [irem DivisionOfInts(Remainder)] [lrem DivisionOfLongs(Remainder)] - - [ineg UnaryOfInt(Ineg)]
    [lneg UnaryOfLong(Lneg)] - - [ishl BinaryOfInts(Ishl)] [lshl ShiftOfLong(Lshl)]
    [ishr BinaryOfInts(Ishr)] [lshr ShiftOfLong(Lshr)] [iushr BinaryOfInts(Iushr)]
    [lushr ShiftOfLong(Lushr)] [iand BinaryOfInts(Iand)] [land BinaryOfLongs(Land)]
    // 128 to 143
    [ior BinaryOfInts(Ior)] [lor BinaryOfLongs(Lor)] [ixor BinaryOfInts(Ixor)]
    [lxor BinaryOfLongs(Lxor)] [iinc Iinc] [i2l UnaryOfInt(I2l)] - - [l2i UnaryOfLong(L2i)] - - - -
    - - -
    // 144 to 159
    - [i2b UnaryOfInt(I2b)] [i2c UnaryOfInt(I2c)] [i2s UnaryOfInt(I2s)] [lcmp Lcmp] - - - -
    [ifeq Branch(WithZero(Equal))] [ifne Branch(WithZero(NotEqual))] [iflt Branch(WithZero(Less))]
    [ifge Branch(WithZero(AtLeast))] [ifgt Branch(WithZero(Greater))]
    [ifle Branch(WithZero(AtMost))] [if_icmpeq Branch(OfInts(Equal))]
    // 160 to 175
    [if_icmpne Branch(OfInts(NotEqual))] [if_icmplt Branch(OfInts(Less))]
    [if_icmpge Branch(OfInts(AtLeast))] [if_icmpgt Branch(OfInts(Greater))]
    [if_icmple Branch(OfInts(AtMost))] [if_acmpeq Branch(OfReferences(true))]
    [if_acmpne Branch(OfReferences(false))] [goto Goto] [jsr Jsr] [ret Ret] [tableswitch Switch]
    [lookupswitch Switch] [ireturn Return(Some(Kind::Int))] [lreturn Return(Some(Kind::Long))] - -
    // 176 to 191
    [areturn Return(Some(Kind::Ref))] [return Return(None)] - - - - - - - - - - - - - -
    // 192 to 207
    - - - - - - [ifnull Branch(IsNull(true))] [ifnonnull Branch(IsNull(false))] [goto_w Goto]
    [jsr_w Jsr] - - - - - -
    // 208 to 223
    - - - - - - - - - - - - - - - -
    // 224 to 239
    - - - - - - - - - - - - - - - -
    // 240 to 255
    - - - - - - - - - - - - - - - -
];

/// The family of an opcode.
pub fn family_of(op: u8) -> Family
    ensures { result ≡ family_of op }
{
    at(&FAMILIES, op as usize)
}

/// One row of a table.
fn at<const N: usize>(rows: &[Family; N], place: usize) -> Family
    requires { place < N }
    ensures { slice_get rows.now place ≡ Some result }
{
    rows[place]
}
