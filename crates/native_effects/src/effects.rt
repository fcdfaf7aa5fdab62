//! What becomes of the heap, of what is made once, of input and output, by what a rule asks.

pub mod answer;
pub mod carrying;
pub mod effect;
pub mod kept;
pub mod made;
pub mod making;
pub mod ports;
