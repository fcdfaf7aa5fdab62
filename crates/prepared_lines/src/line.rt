//! What stands at an offset of original code.

use code_model::Instr;
use const_pool::Kind;
use heap_objects::Value;
use jvm_basic::Hot;
use jvm_model::{Family, Operation};

/// What a frame does by itself, as a line keeps it (JVM Specification 6.5).
#[derive(Clone, Copy)]
pub enum LocalAction {
    /// By the line's family and operand.
    Basic,
    /// Ends the activation, with a result of this kind where there is one.
    Return(Option<Kind>),
}

/// An instruction with its offset, its family, the number that an ldc pushes, the offset behind it,
/// and what it does, with the names that it gives; and the same as it is run, which stands first,
/// so that a step reads little of the rest.
#[derive(Drop)]
pub struct Line {
    pub hot: Hot,
    pub instr: Instr,
    pub family: Family,
    pub constant: Option<Value>,
    pub next: u16,
    pub operation: Operation<LocalAction>,
}
