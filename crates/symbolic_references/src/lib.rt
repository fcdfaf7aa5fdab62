//! The instructions that name classes, fields and methods, and ldc of a Class (JVM Specification
//! 5.4.3, 6.5), for programs of any number of classes: what each does to what is shared and to the
//! current frame, exactly by the definitions of jvm_model. So a native method of a built-in class
//! is done where it is invoked.
#![tactic(auto)]

mod held;
mod invoked;
mod named_classes;
mod owners;
mod program_tables;
mod runtime;
mod static_fields;

pub use invoked::{Call, Invoked, NativeCall};
pub use named_classes::{class_for, kind_for};
pub use program_tables::{Exceptions, Method, ProgramTables};
pub use runtime::{Beginning, RESERVED, Runtime};
