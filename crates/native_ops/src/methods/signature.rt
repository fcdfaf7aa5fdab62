//! What arguments a native method takes.

/// What an argument has to be, beside the receiver.
#[derive(Clone, Copy)]
pub enum Parameter {
    Int,
    Long,
    /// Any reference.
    Reference,
    /// Null or an object of this kind.
    Exactly(u32),
    /// Null or an object of what has this kind.
    Below(u32),
    /// Null or an object whose class is this one or extends it.
    Extending(u32),
}

/// What the receiver has to be.
#[derive(Clone, Copy)]
pub enum Receiver {
    /// There is none: the method is static.
    Absent,
    /// Any object.
    Any,
    /// An object of this kind.
    Exactly(u32),
    /// An object whose class is this one or extends it.
    Extending(u32),
}

/// The types of the parameters.
#[derive(Clone, Copy)]
pub enum Parameters {
    Nothing,
    OneInt,
    OneLong,
    TwoInts,
    TwoLongs,
    OneObject,
    OneString,
    OneArray,
    /// An array of char and two ints.
    ArrayAndRange,
    /// Those of arraycopy.
    TwoArrays,
    StringAndInt,
    OneConstant,
    StringAndThrowable,
    OneThrowable,
}
