//! What a native method answers.

use heap_objects::Datum;

/// What a call answers where memory was enough: a value or none, an exception that is thrown, told by its class's place
/// among the built-in classes, the end of the program with a status, or that the arguments do not fit.
#[derive(Clone, Copy)]
pub enum Answer {
    Value(Option<Datum>),
    Throws(u16),
    Exit(i32),
    Bad,
}

/// What a call of a native method answers.
#[derive(Clone, Copy, Debug, PartialEq, Eq)]
pub enum Native {
    /// It returned, with a value where its method has one.
    Value(Option<Datum>),
    /// An exception is to be thrown. Its class is told by its place among the built-in classes, counted from 0.
    Throws(u16),
    /// The program ends with this status.
    Exit(i32),
    /// An argument is missing, of another sort, or not of the parameter's class.
    Bad,
    /// There was not enough memory, and nothing was done.
    NoMemory,
}
