//! Where instructions stand.

/// An instruction that can begin methods: the method in whose original code it stands, and its place among those of
/// that method.
#[derive(Clone, Copy, Debug, PartialEq, Eq)]
pub struct Use {
    pub caller: u32,
    pub at: usize,
}
