//! The native methods by number and by name, what they take, and a call of one.

pub mod calls;
pub mod fitting;
pub mod method;
pub mod rows;
pub mod signature;
