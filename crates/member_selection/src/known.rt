//! What the names of an instruction came to, kept so that it is done again without a look-up (JVM
//! Specification 5.4.3).

use crate::declared_member::DeclaredMember;

/// What is invoked of a method: its code or what is native, each by its number, or what is looked
/// up again.
#[derive(Clone, Copy, Debug, PartialEq, Eq)]
pub enum Callee {
    Code(u32),
    Native(u16),
    Other,
}

/// A method that was found, and what is invoked of it.
#[derive(Clone, Copy, Debug, PartialEq, Eq)]
pub struct Chosen {
    pub place: DeclaredMember,
    pub callee: Callee,
}

/// A method that a name stands for, the kind of the last receiver, and the method that was selected
/// for it.
#[derive(Clone, Copy, Debug, PartialEq, Eq)]
pub struct Site {
    pub method: DeclaredMember,
    pub last: u32,
    pub chosen: Chosen,
}

/// What a member's name came to, where it was found. It says nothing of which classes are loaded.
#[derive(Clone, Copy, Debug, PartialEq, Eq)]
pub enum Found {
    /// Nothing that is kept: it is looked up again.
    Nothing,
    /// An instance field, its slot, and a kind whose objects have it: that of the object whose
    /// field it was last.
    Field(DeclaredMember, u32, u32),
    /// A static field.
    Static(DeclaredMember),
    /// A static method.
    Fixed(Chosen),
    /// An instance method.
    Selected(Site),
    /// The class that `new` names has instances; whether they are texts.
    Made(bool),
    /// A kind whose objects are of the named one: that of the last object that was.
    Below(u32),
}

/// The kind that the class's name stands for, and what the member's name came to.
#[derive(Clone, Copy, Debug, PartialEq, Eq)]
pub struct Known {
    pub kind: u32,
    pub found: Found,
}
