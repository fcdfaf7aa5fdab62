//! What comes before the first instruction (JVM Specification 5.2).

pub mod beginning;
pub mod first_objects;
pub mod starting;
