//! A node of the tree.

/// A calling context: the method that its path ends in, the node of the path before (none for an outermost path), how
/// many activations had the path, and how many steps they made.
#[derive(Clone, Copy, Debug, PartialEq, Eq)]
pub struct Node {
    pub method: u32,
    pub parent: Option<usize>,
    pub calls: u64,
    pub own: u64,
}
