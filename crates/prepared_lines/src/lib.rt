//! What one instruction is prepared to: its line, with what it does and the names that it gives; what
//! the pool, the members and the names of a program's classes say of it, and the room for a run's
//! arguments (JVM Specification 4.4, 4.6, 5.4.3, 6.5).
#![tactic(auto)]

mod arguments;
mod descriptor;
mod line;
mod lookup;
mod members;
mod probes;
mod resolving;
mod symbolic_reference;

pub use arguments::arguments_fit;
pub use descriptor::shape_of;
pub use line::{Line, LocalAction};
pub use lookup::{initializer_of, main_class};
pub use probes::entry_mark;
pub use resolving::line_of;
pub use symbolic_reference::class_in;
