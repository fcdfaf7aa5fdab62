//! The frames of a StackMapTable (JVM Specification 4.7.4).

use jf_bytes::Seq;

/// What a local or an operand holds, for the verifier.
#[derive(Clone, Copy, Debug)]
pub enum VType {
    Top,
    Integer,
    Float,
    Double,
    Long,
    Null,
    /// The object of a constructor before it called another one.
    UninitThis,
    /// An object of the class with this index in the constant pool.
    Object(u16),
    /// What the `new` at this offset made, before its constructor was called.
    Uninit(u16),
}

/// What a frame says of locals and operands.
#[derive(Debug, Drop)]
pub enum FrameKind {
    /// The locals of the frame before, and no operands.
    Same,
    /// The locals of the frame before, and one operand.
    OneItem(VType),
    /// The locals of the frame before but for so many of the last, and no operands.
    Chop(u8),
    /// The locals of the frame before and then these, and no operands.
    Append(Seq<VType>),
    /// These locals, and these operands.
    Full(Seq<VType>, Seq<VType>),
}

/// A frame, and the offset of the instruction that it is for.
#[derive(Debug, Drop)]
pub struct Frame {
    pub at: u16,
    pub kind: FrameKind,
}

/// The frames of a method, in order.
#[derive(Debug, Drop)]
pub struct Frames {
    pub list: Seq<Frame>,
}
