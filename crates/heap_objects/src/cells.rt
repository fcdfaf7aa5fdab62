//! The values of an array, each as narrow as its elements.

ghost use Rattle.std.specs.Prelude.{◌≡◌, ◌<◌, Some, IfOk, IfSome, length, slice_get, replicate};
ghost use Rattle.heap_objects.specs.Kept.{element_kept};
ghost use Rattle.heap_objects.specs.Cells.{bit_datum, data_in, data_with, element_in};

use crate::datum::Datum;
use crate::element::ElementType;
use crate::kept::{int_of, long_of, low_byte, low_char, low_short, lowest_bit, reference_of};
use std::alloc::{AllocError, Global};

/// The values of an array: a boolean takes a byte, as a byte does, a char and a short two, an int and a reference four,
/// a long eight.
#[derive(Drop)]
pub enum Cells {
    Booleans(Vec<bool>),
    Chars(Vec<u16>),
    Bytes(Vec<i8>),
    Shorts(Vec<i16>),
    Ints(Vec<i32>),
    Longs(Vec<i64>),
    References(Vec<u32>),
    Data(Vec<Datum>),
}

/// So many of one value.
fn cells_filled<T: Copy>(alloc: Global, value: T, len: usize) -> Result<Vec<T>, AllocError>
    ensures { IfOk result (λ v. v.items ≡ replicate len value) }
{
    let mut items = Vec::with_capacity(alloc, len)?;
    items.resize(len, value)?;
    Ok(items)
}

/// The item at a place, where there is one.
fn item<T: Copy>(items: &[T], place: usize) -> Option<T>
    ensures { result ≡ slice_get items.now place }
{
    items.get(place).copied()
}

/// A boolean as the int that stands for it: 1 for true, 0 for false (JVM Specification 2.3.4).
fn bit_datum(bit: bool) -> Datum
    ensures value { result ≡ bit_datum bit }
    ensures whole { element_kept ElementType.Boolean result ≡ result }
{
    Datum::Int(if bit { 1 } else { 0 })
}

impl Cells {
    /// So many elements, each with what it keeps of a value.
    pub fn make(
        alloc: Global,
        element: ElementType,
        zero: Datum,
        len: usize,
    ) -> Result<Cells, AllocError>
        ensures data { IfOk result (λ c. data_in c ≡ replicate len (element_kept element zero)) }
        ensures element { IfOk result (λ c. element_in c ≡ element) }
    {
        match element {
            ElementType::Boolean => Ok(Cells::Booleans(cells_filled(
                alloc,
                lowest_bit(int_of(zero)),
                len,
            )?)),
            ElementType::Char => Ok(Cells::Chars(cells_filled(
                alloc,
                low_char(int_of(zero)),
                len,
            )?)),
            ElementType::Byte => Ok(Cells::Bytes(cells_filled(
                alloc,
                low_byte(int_of(zero)),
                len,
            )?)),
            ElementType::Short => Ok(Cells::Shorts(cells_filled(
                alloc,
                low_short(int_of(zero)),
                len,
            )?)),
            ElementType::Int => Ok(Cells::Ints(cells_filled(alloc, int_of(zero), len)?)),
            ElementType::Long => Ok(Cells::Longs(cells_filled(alloc, long_of(zero), len)?)),
            ElementType::Reference => Ok(Cells::References(cells_filled(
                alloc,
                reference_of(zero),
                len,
            )?)),
            ElementType::Any => Ok(Cells::Data(cells_filled(alloc, zero, len)?)),
        }
    }

    /// How many elements there are.
    pub fn len(&self) -> usize
        ensures { result ≡ length (data_in self.now) }
    {
        match self {
            Cells::Booleans(v) => v.len(),
            Cells::Chars(v) => v.len(),
            Cells::Bytes(v) => v.len(),
            Cells::Shorts(v) => v.len(),
            Cells::Ints(v) => v.len(),
            Cells::Longs(v) => v.len(),
            Cells::References(v) => v.len(),
            Cells::Data(v) => v.len(),
        }
    }

    /// The value of an element, where there is one. It is one that the elements keep whole.
    pub fn get(&self, slot: usize) -> Option<Datum>
        ensures found { result ≡ slice_get (data_in self.now) slot }
        ensures whole { IfSome result (λ v. element_kept (element_in self.now) v ≡ v) }
    {
        match self {
            Cells::Booleans(v) => {
                let b = item(v, slot)?;
                Some(bit_datum(b))
            }
            Cells::Chars(v) => {
                let n = item(v, slot)?;
                Some(Datum::Int(i32::from(n)))
            }
            Cells::Bytes(v) => {
                let n = item(v, slot)?;
                Some(Datum::Int(i32::from(n)))
            }
            Cells::Shorts(v) => {
                let n = item(v, slot)?;
                Some(Datum::Int(i32::from(n)))
            }
            Cells::Ints(v) => {
                let n = item(v, slot)?;
                Some(Datum::Int(n))
            }
            Cells::Longs(v) => {
                let n = item(v, slot)?;
                Some(Datum::Long(n))
            }
            Cells::References(v) => {
                let object = item(v, slot)?;
                Some(Datum::Ref(object))
            }
            Cells::Data(v) => item(v, slot),
        }
    }

    /// The int of an element, where the elements are ints.
    #[inline(always)]
    pub fn int(&self, slot: usize) -> Option<i32>
        ensures ints { IfSome result (λ _. element_in self.now ≡ ElementType.Int) }
        ensures found { IfSome result
            (λ n. slice_get (data_in self.now) slot ≡ Some (Datum.Int n)) }
    {
        match self {
            Cells::Ints(v) => item(v, slot),
            _ => None,
        }
    }

    /// The reference of an element, where the elements are references.
    #[inline(always)]
    pub fn reference(&self, slot: usize) -> Option<u32>
        ensures references { IfSome result (λ _. element_in self.now ≡ ElementType.Reference) }
        ensures found { IfSome result
            (λ n. slice_get (data_in self.now) slot ≡ Some (Datum.Ref n)) }
    {
        match self {
            Cells::References(v) => item(v, slot),
            _ => None,
        }
    }

    /// Puts a value into an element, which keeps what its sort keeps.
    #[inline(always)]
    pub fn put(&mut self, slot: usize, value: Datum)
        requires { slot < length (data_in self.old) }
        ensures data { data_in self.new ≡ data_with slot value self.old }
        ensures element { element_in self.new ≡ element_in self.old }
    {
        match self {
            Cells::Booleans(v) => v[slot] = lowest_bit(int_of(value)),
            Cells::Chars(v) => v[slot] = low_char(int_of(value)),
            Cells::Bytes(v) => v[slot] = low_byte(int_of(value)),
            Cells::Shorts(v) => v[slot] = low_short(int_of(value)),
            Cells::Ints(v) => v[slot] = int_of(value),
            Cells::Longs(v) => v[slot] = long_of(value),
            Cells::References(v) => v[slot] = reference_of(value),
            Cells::Data(v) => v[slot] = value,
        }
    }
}
