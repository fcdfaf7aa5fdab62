//! Where a method stands.

/// The position of a method's class, and its own there.
#[derive(Clone, Copy, Debug, PartialEq, Eq)]
pub struct DeclaredMethod {
    pub class: u32,
    pub position: u16,
}
