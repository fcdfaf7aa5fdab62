//! The places of built-in classes that rules speak of, in the order of the table, where the kinds of
//! arrays begin, and the numbers of native methods.

/// How many built-in classes there are.
pub const BUILT_IN_CLASSES: u16 = 53;

pub const CLONEABLE: u16 = 1;

pub const CLASS: u16 = 6;

pub const STRING: u16 = 7;

pub const INTEGER: u16 = 14;

pub const LONG: u16 = 15;

pub const CHARACTER: u16 = 16;

pub const BOOLEAN: u16 = 17;

pub const ENUM: u16 = 19;

pub const THROWABLE: u16 = 20;

pub const CLONE_NOT_SUPPORTED_EXCEPTION: u16 = 24;

pub const ARITHMETIC_EXCEPTION: u16 = 27;

pub const ARRAY_STORE_EXCEPTION: u16 = 28;

pub const CLASS_CAST_EXCEPTION: u16 = 29;

pub const NEGATIVE_ARRAY_SIZE_EXCEPTION: u16 = 33;

pub const NULL_POINTER_EXCEPTION: u16 = 34;

pub const NUMBER_FORMAT_EXCEPTION: u16 = 36;

pub const ARRAY_INDEX_OUT_OF_BOUNDS_EXCEPTION: u16 = 37;

pub const STRING_INDEX_OUT_OF_BOUNDS_EXCEPTION: u16 = 38;

pub const NO_CLASS_DEF_FOUND_ERROR: u16 = 42;

pub const INCOMPATIBLE_CLASS_CHANGE_ERROR: u16 = 44;

pub const CLASS_CIRCULARITY_ERROR: u16 = 45;

pub const NO_SUCH_FIELD_ERROR: u16 = 49;

pub const NO_SUCH_METHOD_ERROR: u16 = 50;

pub const OUT_OF_MEMORY_ERROR: u16 = 51;

/// The kinds of the built-in classes are counted from here on, in the order of their places; below are those of
/// primitive types.
pub const FIRST_CLASS_KIND: u32 = 16;

/// The kinds of a program's own classes are counted from here on.
pub const FIRST_USER_KIND: u32 = 256;

/// The number from which on kinds are arrays': one dimension in a kind.
pub const FIRST_ARRAY: u32 = 16_777_216;

/// How many native methods there are.
pub const NATIVE_METHODS: u16 = 265;

/// The number of System.arraycopy.
pub const ARRAYCOPY: u16 = 79;
