//! What an instruction asks for.

use heap_objects::Value;
use jf_bytes::Text16;
use jvm_model::Exception;

/// What an instruction asks for in place of going on (2.10, 5.5): an exception that the machine
/// makes, with its message; that an object is thrown; that the class at this position is
/// initialized before; the end of the program with a status; or its end where the code is
/// unverifiable. The frame is as it was.
#[derive(Debug, Drop)]
pub enum AbruptCompletion {
    Raises(Exception, Option<Text16>),
    Throws(u32),
    Initializes(u32),
    Exits(i32),
    Breaks,
}

/// What an instruction asks for. Nothing is done to the frame yet.
#[derive(Debug, Drop)]
pub enum Outcome {
    /// The frame goes on behind the instruction, with a value, if there is one, in place of so many
    /// of the topmost operands.
    Goes(u16, Option<Value>),
    /// The method with this number is invoked with so many topmost operands as its arguments.
    Invokes(u32, u16),
    Abrupt(AbruptCompletion),
}
