//! Values and the objects that references name (JVM Specification 2.3, 2.4, 2.7).
#![tactic(auto)]

mod array;
mod cells;
mod datum;
mod element;
mod error;
mod heap;
mod interned;
mod kept;
mod lists;
mod object;

pub use datum::Datum;
pub use element::{ElementType, element_of};
pub use error::HeapError;
pub use heap::Heap;
pub use kept::int_of;
pub use lists::put_last;

/// A value on the operand stack or in a local (JVM Specification 2.6.1, 2.6.2).
#[derive(Clone, Copy, Debug, PartialEq, Eq)]
pub enum Value {
    Int(i32),
    Long(i64),
    /// 0 is null. Another number is an object's, counted from 1 in order of allocation.
    Ref(u32),
    /// The return address of a subroutine: an offset in the code.
    Addr(u16),
}
