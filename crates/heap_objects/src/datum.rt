//! What fields, arrays, arguments of native methods and results hold.

/// A value outside of frames (JVM Specification 2.3, 2.4): a return address stays in its frame, so it is none.
#[derive(Clone, Copy, Debug, PartialEq, Eq)]
pub enum Datum {
    Int(i32),
    Long(i64),
    /// 0 is null. Another number is an object's, counted from 1 in order of allocation.
    Ref(u32),
}
