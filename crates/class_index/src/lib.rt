//! The classes of a program by their names, and the members of each class by name and descriptor (JVM Specification
//! 5.3, 5.4.3): by tables that are made once.
#![tactic(auto)]

mod fields;
mod index;
mod meaning;
mod members;
mod names;
mod numbering;
mod order;
mod package;
mod table;
mod wanted;

pub use fields::{field_kind, held_by};
pub use index::Index;
pub use meaning::{Element, Meaning, is_array_name, meaning_of};
pub use members::{field_at, first_field, first_method, method_at};
pub use numbering::{base_of_class, class_of_base, class_of_kind, user_count};
pub use order::Order;
pub use package::in_same_package;
pub use wanted::Wanted;
