//! What a generated class is, by names in place of indices (JVM Specification 4.1, 4.6, 4.7.3).

use jf_bytes::Seq;

/// A class that a generated program names.
#[derive(Clone, Copy, Debug, PartialEq, Eq)]
pub enum ClassName {
    /// java/lang/Object.
    Object,
    /// java/lang/System.
    System,
    /// java/io/PrintStream.
    PrintStream,
    /// The class with the entry.
    Main,
    /// One of the other classes of the program.
    Numbered(u32),
}

/// A member with its descriptor.
#[derive(Clone, Copy, Debug, PartialEq, Eq)]
pub enum MemberName {
    /// A constructor without parameters.
    Initializer,
    /// The method that a run begins with.
    Entry,
    /// The method that the numbered classes have, of two ints.
    Run,
    /// System.out.
    Out,
    /// PrintStream.println of an int.
    Println,
}

/// An instruction (6.5). The first number is its opcode.
#[derive(Clone, Copy, Debug, PartialEq, Eq)]
pub enum Instruction {
    /// It has no operand.
    Plain(u8),
    /// Behind it stands a byte.
    Byte(u8, u8),
    /// Behind it stands a number of two bytes.
    Short(u8, u16),
    /// Behind it stands the index of a class.
    OfClass(u8, ClassName),
    /// Behind it stands the index of a member of a class.
    OfMember(u8, ClassName, MemberName),
}

/// A method with its code.
#[derive(Debug, Drop)]
pub struct MethodRow {
    pub access: u16,
    pub name: MemberName,
    pub max_stack: u16,
    pub max_locals: u16,
    pub code: Seq<Instruction>,
}

/// A class.
#[derive(Debug, Drop)]
pub struct ClassRow {
    pub name: ClassName,
    pub superclass: ClassName,
    pub methods: Seq<MethodRow>,
}

/// What the draws decide of a class: above which it stands, of which class it makes the left and the right object, and
/// what the left one's argument is multiplied by and added to.
#[derive(Clone, Copy, Debug, PartialEq, Eq)]
pub struct Choices {
    pub superclass: ClassName,
    pub left: u32,
    pub factor: u16,
    pub addend: u16,
    pub right: u32,
}
