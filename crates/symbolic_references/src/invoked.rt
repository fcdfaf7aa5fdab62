//! What is invoked.

/// A method that has Code, by its number, and how many operands are its arguments.
#[derive(Clone, Copy, Debug, PartialEq, Eq)]
pub struct Call {
    pub method: u32,
    pub count: u16,
}

/// A native method of a built-in class, by its number, and how many operands are its arguments.
#[derive(Clone, Copy, Debug, PartialEq, Eq)]
pub struct NativeCall {
    pub number: u16,
    pub count: u16,
}

/// What is invoked.
#[derive(Clone, Copy, Debug, PartialEq, Eq)]
pub enum Invoked {
    Code(Call),
    Native(NativeCall),
}
