//! The rows of the table of built-in classes: what a class file declares, by names in place of indices (JVM
//! Specification 4.1, 4.5 to 4.7).

/// A field or a method, as an instruction names it (4.4.2).
#[derive(Clone, Copy)]
pub(crate) struct MemberName {
    pub(crate) class: &'static str,
    pub(crate) name: &'static str,
    pub(crate) descriptor: &'static str,
}

/// An instruction of the twelve that the codes here have (6.5). A first number is its opcode.
#[derive(Clone, Copy)]
pub(crate) enum InstructionRow {
    /// It has no operand.
    Plain(u8),
    /// The offset to which it jumps.
    Jump(u8, u16),
    /// ldc of a string.
    LoadText(&'static str),
    OnMember(u8, MemberName),
}

/// A method's code (4.7.3), without handlers.
#[derive(Clone, Copy)]
pub(crate) struct CodeRow {
    pub(crate) max_stack: u16,
    pub(crate) max_locals: u16,
    pub(crate) instructions: &'static [InstructionRow],
}

/// A field or a method (4.5, 4.6).
#[derive(Clone, Copy)]
pub(crate) struct MemberRow {
    pub(crate) access: u16,
    pub(crate) name: &'static str,
    pub(crate) descriptor: &'static str,
    pub(crate) code: Option<&'static CodeRow>,
}

/// A class (4.1). java/lang/Object alone has no superclass.
#[derive(Clone, Copy)]
pub(crate) struct ClassRow {
    pub(crate) access: u16,
    pub(crate) name: &'static str,
    pub(crate) superclass: Option<&'static str>,
    pub(crate) interfaces: &'static [&'static str],
    pub(crate) fields: &'static [MemberRow],
    pub(crate) methods: &'static [MemberRow],
}
