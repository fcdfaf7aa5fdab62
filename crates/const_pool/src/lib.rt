//! The class file as a value (JVM Specification 4): its types, its constant pool with the tail of a rewritten class,
//! its descriptors, the names of the built-in classes, and what bytes spell it.
#![tactic(auto)]

mod class;
mod descriptor;
mod pool;
mod stages;
mod tail;

pub use class::{Attribute, ClassFile, CodeAttribute, Handler, Member, Raw};
pub use descriptor::{DescriptorError, Kind, Shape, parse_field, parse_method};
pub use pool::{Const, MemberRef, Pool, PoolError};
pub use tail::{Tail, TailError, append_tail, copy_pool, text_copy};
