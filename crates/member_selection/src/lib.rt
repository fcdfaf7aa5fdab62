//! Resolution and selection (JVM Specification 5.4.3, 5.4.6), for programs of any number of
//! classes, over a linker, frames and the objects of a heap: what the name of a class, a field or a
//! method comes to, which method is selected for a receiver, what is invoked of it, and how the
//! frame goes on by what an instruction asks for.
#![tactic(auto)]

mod applying;
mod callees;
mod classes;
mod declared_member;
mod instances;
mod known;
mod members;
mod native_methods;
mod numbers;
mod outcome;
mod receivers;
mod resolution;
mod selections;
mod targets;
mod values;

pub use applying::{apply, pass_by};
pub use callees::callee_of;
pub use classes::{has_no_instances, is_text_class};
pub use declared_member::DeclaredMember;
pub use instances::{is_instance, kind_of_object};
pub use known::{Callee, Chosen, Found, Known, Site};
pub use members::{field_found, is_static_field};
pub use native_methods::native_at;
pub use numbers::MethodNumbers;
pub use outcome::{AbruptCompletion, Outcome};
pub use receivers::{argument_count, receiver_below};
pub use resolution::{resolve, resolved_name, resolves};
pub use selections::{Selection, Selections};
pub use targets::{Selecting, Target, method_found, names_interface, receiver_kind, selected_by};
pub use values::datum_of;
