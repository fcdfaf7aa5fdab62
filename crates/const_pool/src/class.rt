//! The class file's structures (JVM Specification 4.1, 4.5 to 4.7).

use crate::pool::Pool;
use jf_bytes::Seq;

/// A class file (JVM Specification 4.1). The indices are into the constant pool.
#[derive(Debug, Drop)]
pub struct ClassFile {
    pub minor: u16,
    /// 45 to 50 in what a reader accepts.
    pub major: u16,
    pub pool: Pool,
    pub access: u16,
    pub this_class: u16,
    /// 0 in java/lang/Object alone.
    pub super_class: u16,
    pub interfaces: Seq<u16>,
    pub fields: Seq<Member>,
    pub methods: Seq<Member>,
    pub attributes: Seq<Attribute>,
}

/// A field or a method (JVM Specification 4.5, 4.6).
#[derive(Debug, Drop)]
pub struct Member {
    pub access: u16,
    pub name: u16,
    pub descriptor: u16,
    pub attributes: Seq<Attribute>,
}

/// An attribute that is kept as bytes: the index of its name, and its contents.
#[derive(Debug, Drop)]
pub struct Raw {
    pub name: u16,
    pub bytes: Seq<u8>,
}

/// An attribute (JVM Specification 4.7). The first number of `ConstantValue` and `Code` is the index of its name.
#[derive(Debug, Drop)]
pub enum Attribute {
    /// The index of a field's constant (4.7.2).
    ConstantValue(u16, u16),
    /// A method's code (4.7.3).
    Code(u16, CodeAttribute),
    Other(Raw),
}

/// The contents of a Code attribute (JVM Specification 4.7.3).
#[derive(Debug, Drop)]
pub struct CodeAttribute {
    pub max_stack: u16,
    pub max_locals: u16,
    pub code: Seq<u8>,
    pub handlers: Seq<Handler>,
    pub attributes: Seq<Raw>,
}

/// An entry of an exception table: `end` is exclusive, and a `catch_class` of 0 catches everything.
#[derive(Clone, Copy, Debug, PartialEq, Eq)]
pub struct Handler {
    pub start: u16,
    pub end: u16,
    pub handler: u16,
    pub catch_class: u16,
}
