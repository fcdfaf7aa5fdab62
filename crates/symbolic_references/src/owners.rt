//! Objects that have a field, and what the field is to hold.

use heap_objects::Datum;

/// An object that has a field, its kind and its class.
#[derive(Clone, Copy)]
pub struct Owner {
    pub object: u32,
    pub kind: u32,
    pub class: u32,
}

/// An object, and what its field is to hold.
#[derive(Clone, Copy)]
pub struct Putting {
    pub object: u32,
    pub datum: Datum,
}
