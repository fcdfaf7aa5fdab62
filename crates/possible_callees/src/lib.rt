//! Which methods a method can begin by the classes that are loaded: the classes at or below a class,
//! what an instruction begins, and the targets of a method (JVM Specification 2.11.8, 5.4.3, 5.4.5,
//! 5.5, 6.5).
#![tactic(auto)]

mod begun;
mod code_references;
mod gathering;
mod growing;
mod lineage;
mod load_order;
mod lookup;
mod tables;

pub use begun::{add_begun, add_number};
pub use code_references::symbolic_references_of;
pub use gathering::{add_all_begun, targets};
pub use growing::add_more;
pub use lineage::{Lineage, direct_supertypes, note};
pub use load_order::LoadOrder;
pub use lookup::{method_found, selected_number};
pub use tables::{add_item, add_some, items_repeated, make_room, no_lists, put, put_list};
