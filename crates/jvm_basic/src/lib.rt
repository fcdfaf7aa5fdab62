//! What a frame does by itself: the instructions that see nothing but the locals and operands of their frame (JVM
//! Specification 2.11, 6.5). Nothing here takes memory.
#![tactic(auto)]

mod arithmetic;
mod branching;
mod effect;
mod hot;
mod instruction;
mod locals;
mod moving;
mod reading;
mod stack;

pub use arithmetic::calculate;
pub use branching::{branch_to, go_to_place};
pub use effect::Effect;
pub use hot::{Hot, hot_by};
pub use instruction::{basic, basic_by, value_of};
pub use locals::{increment_slot, load_from, store_int, store_to};
pub use moving::{
    drop_narrow, drop_one, drop_three, drop_two, exchange_two, go_on, put, replace, replace_two,
};
pub use reading::{int_of, recall, ref_of};
