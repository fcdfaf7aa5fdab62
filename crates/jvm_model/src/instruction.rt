//! Instructions as they are attempted, with the names that they give (JVM Specification 4.4, 6.5).

ghost use Rattle.std.specs.Prelude.{◌≡◌};
ghost use Rattle.jvm_model.specs.Basis.MemberNames.{descriptor_params, reference_to};

use crate::family::{
    Division, IntOperator, LongOperator, LongShift, OfInt, OfLong, StackInstruction, Test,
};
use const_pool::Kind;
use heap_objects::Datum;
use jf_bytes::{Seq, Text16};
use std::marker::Model;

/// A member as a class file names it: its class, its name and its descriptor (JVM Specification 4.4.2).
#[derive(Debug, Drop)]
pub struct MemberName {
    class: Text16,
    name: Text16,
    descriptor: Text16,
}

impl Model for MemberName {
    ghost use Rattle.const_pool.specs.References.{Reference};
    ghost use Rattle.jvm_model.specs.Basis.MemberNames.{reference_to};

    ghost Value = { Reference };

    ghost view = { λ m. reference_to m.class m.name m.descriptor };
}

/// A method as a class file names it, with the kinds of its parameters, which its descriptor tells; None where it is no
/// method's descriptor (4.3.3). A clause sees the names.
#[derive(Debug, Drop)]
pub struct MethodName {
    member: MemberName,
    params: Option<Seq<Kind>>,
}

impl Model for MethodName {
    ghost use Rattle.std.specs.Prelude.{◌≡◌};
    ghost use Rattle.const_pool.specs.References.{Reference};
    ghost use Rattle.jvm_model.specs.Basis.MemberNames.{descriptor_params};

    ghost Value = { Reference };

    ghost view = { λ m. m.member };

    ghost invariant = { λ m. m.params ≡ descriptor_params m.member.member.descriptor };
}

/// An instruction that names a class, a field or a method, with the names that it gives: what they refer to is looked
/// up in the program when it is executed. Of invokespecial there is the name of the class in which it stands, and
/// whether it names an interface's method; of multianewarray how many dimensions are given; LdcClass is ldc, ldc_w of a
/// Class.
#[derive(Debug, Drop)]
pub enum SymbolicReference {
    New(Text16),
    Getfield(MemberName),
    Putfield(MemberName),
    Getstatic(MemberName),
    Putstatic(MemberName),
    Invokevirtual(MethodName),
    Invokespecial(Text16, MethodName, bool),
    Invokestatic(MethodName),
    Invokeinterface(MethodName),
    Checkcast(Text16),
    Instanceof(Text16),
    Anewarray(Text16),
    Multianewarray(Text16, u8),
    LdcClass(Text16),
}

/// The numbers that a switch tells apart, in the order of the targets behind the default: so many from the lowest one
/// on, or these.
#[derive(Drop)]
pub enum Keys {
    Consecutive(i32, u32),
    Listed(Seq<i32>),
}

/// An instruction that sees nothing but the locals and operands of its frame, in families: those of one family differ
/// in a constant, a kind or an operator.
#[derive(Drop)]
pub enum Local {
    Nop,
    /// aconst_null, iconst, lconst, bipush, sipush, ldc of a number
    Constant(Datum),
    /// iload, lload, aload
    Load(Kind, u16),
    /// istore, lstore, astore
    Store(Kind, u16),
    /// pop, pop2, dup, .., swap: by the first form that fits
    ManageStack(StackInstruction),
    /// iadd, .., ixor: from two ints an int
    BinaryOfInts(IntOperator),
    /// ladd, .., lxor but for the shifts: from two longs a long
    BinaryOfLongs(LongOperator),
    /// idiv, irem
    DivisionOfInts(Division),
    /// ldiv, lrem
    DivisionOfLongs(Division),
    /// lshl, lshr, lushr: of a long by an int
    ShiftOfLong(LongShift),
    /// ineg, i2l, i2b, i2c, i2s
    UnaryOfInt(OfInt),
    /// lneg, l2i
    UnaryOfLong(OfLong),
    Lcmp,
    Iinc(u16, i32),
    /// ifeq, .., if_icmpeq, .., if_acmpeq, .., ifnull, ifnonnull
    Branch(Test),
    /// goto, goto_w
    Goto,
    /// tableswitch, lookupswitch
    Switch(Keys),
    /// jsr, jsr_w
    Jsr,
    Ret(u16),
    /// ireturn, lreturn, areturn, return
    Return(Option<Kind>),
}

/// An instruction as it is attempted. L tells what its frame does by itself, as `Local` does in the
/// definitions.
#[derive(Drop)]
pub enum Operation<L> {
    Within(L),
    Named(SymbolicReference),
    Athrow,
    /// monitorenter, monitorexit
    Monitor,
    /// newarray, of an array of this kind
    Newarray(u32),
    Arraylength,
    /// iaload, .., saload and iastore, .., sastore: baload and bastore are of bytes, and serve booleans too
    LoadElement(Kind),
    StoreElement(Kind),
    /// ldc, ldc_w of a String of these units
    LdcString(Text16),
}

impl MemberName {
    /// A member of this class.
    pub fn new(class: Text16, name: Text16, descriptor: Text16) -> MemberName
        ensures { result ≡ reference_to class name descriptor }
    {
        MemberName {
            class,
            name,
            descriptor,
        }
    }

    /// The name of its class.
    pub fn class(&self) -> &Text16
        ensures { result.now ≡ self.now.class }
    {
        &self.class
    }

    /// Its own name.
    pub fn name(&self) -> &Text16
        ensures { result.now ≡ self.now.member.name }
    {
        &self.name
    }

    /// Its descriptor.
    pub fn descriptor(&self) -> &Text16
        ensures { result.now ≡ self.now.member.descriptor }
    {
        &self.descriptor
    }
}

impl MethodName {
    /// The names, with the kinds that the descriptor tells.
    pub fn new(member: MemberName, params: Option<Seq<Kind>>) -> MethodName
        requires { params ≡ descriptor_params member.member.descriptor }
        ensures { result ≡ member }
    {
        MethodName { member, params }
    }

    /// The name of its class.
    pub fn class(&self) -> &Text16
        ensures { result.now ≡ self.now.class }
    {
        self.member.class()
    }

    /// Its class, its name and its descriptor.
    pub fn member(&self) -> &MemberName
        ensures { result.now ≡ self.now }
    {
        &self.member
    }

    /// The kinds of its parameters.
    pub fn params(&self) -> &Option<Seq<Kind>>
        ensures { result.now ≡ descriptor_params self.now.member.descriptor }
    {
        &self.params
    }
}
