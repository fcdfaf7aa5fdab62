//! What the native methods of each built-in class do.

pub mod boxes;
pub mod builders;
pub mod characters;
pub mod copying;
pub mod enums;
pub mod integers;
pub mod longs;
pub mod roots;
pub mod streams;
pub mod strings;
pub mod throwables;
