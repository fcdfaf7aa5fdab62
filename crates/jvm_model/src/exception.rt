//! The exceptions that the machine makes.

/// The class of an exception that the machine makes where an instruction raises it (JVM Specification 2.10): one that a
/// native method throws is of the built-in class at a place among them.
#[derive(Clone, Copy, Debug, PartialEq, Eq)]
pub enum Exception {
    AbstractMethod,
    Arithmetic,
    ArrayStore,
    ClassCast,
    ClassCircularity,
    IncompatibleClassChange,
    InInitializer,
    IndexOutside,
    Instantiation,
    NegativeArraySize,
    NoClassDefinition,
    NoSuchField,
    NoSuchMethod,
    NullPointer,
    StackOverflow,
    UnsatisfiedLink,
    BuiltIn(u16),
}
