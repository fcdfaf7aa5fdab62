//! What rules read: arguments, objects, texts and places, and the classes of a run.

pub mod arguments;
pub mod kinds;
pub mod numbers;
pub mod parsing;
pub mod places;
pub mod printable;
pub mod reading;
pub mod shown;
pub mod texts;
