//! What is made at most once, with what it was made for.

/// The Class object of a kind.
#[derive(Clone, Copy)]
pub struct ClassObject {
    pub kind: u32,
    pub object: u32,
}

/// The object of a class that valueOf gives for a value, which has a place among those whose object is made once.
#[derive(Clone, Copy)]
pub struct BoxObject {
    pub kind: u32,
    pub place: u32,
    pub object: u32,
}
