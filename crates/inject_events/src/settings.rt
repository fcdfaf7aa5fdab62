//! What the versions of a class's methods have in common.

use const_pool::Tail;

/// The pool tail of the image, and whether a StackMapTable counts in this class: in major 50 alone (JVM Specification
/// 4.7.4).
#[derive(Debug, Drop)]
pub struct Setting {
    pub framed: bool,
    pub tail: Tail,
}

/// Which table an attribute of a Code is.
#[derive(Clone, Copy, Debug, PartialEq, Eq)]
pub enum Table {
    /// A LineNumberTable.
    Lines,
    /// A LocalVariableTable or a LocalVariableTypeTable.
    Variables,
    /// A StackMapTable that counts.
    Frames,
    Other,
}
