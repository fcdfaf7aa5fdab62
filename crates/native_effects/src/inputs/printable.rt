//! What an argument is that a text is made of.

/// What is made a text of: an argument of this type.
#[derive(Clone, Copy)]
pub enum Printable {
    Boolean,
    Char,
    Int,
    Long,
    Text,
    Chars,
}
