//! Objects.

ghost use Rattle.std.specs.Prelude.{◌≡◌, Some, IfSome, slice_get, is_ok};
ghost use Rattle.std.specs.Option.{option_map};
ghost use Rattle.heap_objects.specs.Changes.{changed_if};
ghost use Rattle.heap_objects.specs.Kinds.{element_of};

use crate::array::ArrayObject;
use crate::datum::Datum;
use crate::element::ElementType;
use jf_bytes::Seq;
use std::alloc::AllocError;

/// An object: an instance with its class and its fields, an array, or a text with its class and its UTF-16 units.
/// Classes are told by their kinds.
#[derive(Drop)]
pub enum Object {
    Instance(u32, Seq<Datum>),
    Array(ArrayObject),
    Text(u32, Seq<u16>),
}

impl Object {
    ghost use Rattle.heap_objects.specs.Objects.{kind_of, length_of, slots_of, units_of, kept_by};
    ghost use Rattle.heap_objects.specs.Objects.{has_slot, with_slot, has_unit, with_unit, with_units, with_more_units};

    /// The kind of its class, or of the array.
    pub fn kind(&self) -> u32
        ensures { result ≡ kind_of self.now }
    {
        match self {
            Object::Instance(kind, _) => *kind,
            Object::Array(array) => array.kind(),
            Object::Text(kind, _) => *kind,
        }
    }

    /// How many fields, elements or units it has.
    pub fn size(&self) -> usize
        ensures { result ≡ length_of self.now }
    {
        match self {
            Object::Instance(_, fields) => fields.len(),
            Object::Array(array) => array.len(),
            Object::Text(_, units) => units.len(),
        }
    }

    /// The value of a field or an element, where there is one. It is one that the slot keeps whole.
    pub fn get(&self, slot: usize) -> Option<Datum>
        ensures found { result ≡ slice_get (slots_of self.now) slot }
        ensures whole { IfSome result (λ v. kept_by self.now v ≡ v) }
    {
        match self {
            Object::Instance(_, fields) => fields.at(slot),
            Object::Array(array) => array.get(slot),
            Object::Text(_, _) => None,
        }
    }

    /// The int of an element of an array of ints.
    #[inline(always)]
    pub fn int(&self, slot: usize) -> Option<i32>
        ensures ints { IfSome result (λ _. element_of (kind_of self.now) ≡ ElementType.Int) }
        ensures found { IfSome result
            (λ n. slice_get (slots_of self.now) slot ≡ Some (Datum.Int n)) }
    {
        match self {
            Object::Instance(_, _) => None,
            Object::Array(array) => array.int(slot),
            Object::Text(_, _) => None,
        }
    }

    /// The reference of an element of an array of references.
    #[inline(always)]
    pub fn reference(&self, slot: usize) -> Option<u32>
        ensures references { IfSome result
            (λ _. element_of (kind_of self.now) ≡ ElementType.Reference) }
        ensures found { IfSome result
            (λ n. slice_get (slots_of self.now) slot ≡ Some (Datum.Ref n)) }
    {
        match self {
            Object::Instance(_, _) => None,
            Object::Array(array) => array.reference(slot),
            Object::Text(_, _) => None,
        }
    }

    /// The units of a text.
    pub fn units(&self) -> Option<&[u16]>
        ensures { option_map (λ u. u.now) result ≡ units_of self.now }
    {
        match self {
            Object::Instance(_, _) => None,
            Object::Array(_) => None,
            Object::Text(_, units) => Some(units.as_slice()),
        }
    }

    /// Puts a value into a field or an element. False, with nothing changed, where there is none.
    #[inline(always)]
    pub fn put(&mut self, slot: usize, value: Datum) -> bool
        ensures answer { result ≡ has_slot slot self.old }
        ensures object { self.new ≡ changed_if result (with_slot slot value) self.old }
    {
        match self {
            Object::Instance(_, fields) => {
                if slot >= fields.len() {
                    return false;
                }
                fields.set(slot, value);
                true
            }
            Object::Array(array) => {
                if slot >= array.len() {
                    return false;
                }
                array.put(slot, value);
                true
            }
            Object::Text(_, _) => false,
        }
    }

    /// Puts a unit at a place of a text. False, with nothing changed, where there is none.
    pub fn put_unit(&mut self, at: usize, unit: u16) -> bool
        ensures answer { result ≡ has_unit at self.old }
        ensures object { self.new ≡ changed_if result (with_unit at unit) self.old }
    {
        match self {
            Object::Instance(_, _) => false,
            Object::Array(_) => false,
            Object::Text(_, units) => {
                if at >= units.len() {
                    return false;
                }
                units.set(at, unit);
                true
            }
        }
    }

    /// Adds units at the end of a text. An Err changes nothing.
    pub fn append(&mut self, units: &[u16]) -> Result<(), AllocError>
        ensures { self.new ≡ changed_if (is_ok result) (with_more_units units.now) self.old }
    {
        match self {
            Object::Instance(_, _) => Ok(()),
            Object::Array(_) => Ok(()),
            Object::Text(_, old) => old.extend_from_slice(units),
        }
    }

    /// Gives a text other units.
    pub fn replace(&mut self, units: Seq<u16>)
        ensures { self.new ≡ with_units units self.old }
    {
        match self {
            Object::Instance(_, _) => {}
            Object::Array(_) => {}
            Object::Text(_, old) => *old = units,
        }
    }
}
