//! The built-in classes against lists that were made apart from them.

mod members;
mod numbers;
