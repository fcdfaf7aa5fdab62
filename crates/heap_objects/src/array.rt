//! Arrays.

ghost use Rattle.std.specs.Prelude.{◌≡◌, ◌<◌, Some, IfOk, IfSome, length, replicate, slice_get};
ghost use Rattle.heap_objects.specs.Kinds.{element_of};
ghost use Rattle.heap_objects.specs.Kept.{element_kept};
ghost use Rattle.heap_objects.specs.ArrayView.{with_element};

use crate::cells::Cells;
use crate::datum::Datum;
use crate::element::{ElementType, element_of};
use std::alloc::{AllocError, Global};
use std::marker::Model;

/// An array: its kind and its values, each as narrow as the kind asks. A clause sees the kind and the list of the
/// values.
#[derive(Drop)]
pub struct ArrayObject {
    kind: u32,
    cells: Cells,
}

impl Model for ArrayObject {
    ghost use Rattle.std.specs.Prelude.{◌≡◌};
    ghost use Rattle.heap_objects.specs.ArrayView.{ArrayView};
    ghost use Rattle.heap_objects.specs.Kinds.{element_of};
    ghost use Rattle.heap_objects.specs.Cells.{data_in, element_in};

    ghost Value = { ArrayView };

    ghost view = { λ a. record { kind = a.kind; items = data_in a.cells } };

    ghost invariant = { λ a. element_in a.cells ≡ element_of a.kind };
}

impl ArrayObject {
    /// An array whose elements all have what they keep of a value.
    pub fn make(
        alloc: Global,
        kind: u32,
        zero: Datum,
        len: usize,
    ) -> Result<ArrayObject, AllocError>
        ensures kind { IfOk result (λ a. a.kind ≡ kind) }
        ensures items { IfOk result
            (λ a. a.items ≡ replicate len (element_kept (element_of kind) zero)) }
    {
        let cells = Cells::make(alloc, element_of(kind), zero, len)?;
        Ok(ArrayObject { kind, cells })
    }

    /// Its kind.
    pub fn kind(&self) -> u32
        ensures { result ≡ self.now.kind }
    {
        self.kind
    }

    /// How many elements it has.
    pub fn len(&self) -> usize
        ensures { result ≡ length self.now.items }
    {
        self.cells.len()
    }

    /// The value of an element, where there is one. It is one that elements of the array's kind keep whole.
    pub fn get(&self, slot: usize) -> Option<Datum>
        ensures found { result ≡ slice_get self.now.items slot }
        ensures whole { IfSome result (λ v. element_kept (element_of self.now.kind) v ≡ v) }
    {
        self.cells.get(slot)
    }

    /// The int of an element of an array of ints.
    #[inline(always)]
    pub fn int(&self, slot: usize) -> Option<i32>
        ensures ints { IfSome result (λ _. element_of self.now.kind ≡ ElementType.Int) }
        ensures found { IfSome result (λ n. slice_get self.now.items slot ≡ Some (Datum.Int n)) }
    {
        self.cells.int(slot)
    }

    /// The reference of an element of an array of references.
    #[inline(always)]
    pub fn reference(&self, slot: usize) -> Option<u32>
        ensures references { IfSome result (λ _. element_of self.now.kind ≡ ElementType.Reference) }
        ensures found { IfSome result (λ n. slice_get self.now.items slot ≡ Some (Datum.Ref n)) }
    {
        self.cells.reference(slot)
    }

    /// Puts a value into an element, which keeps of it what elements of the array's kind keep.
    #[inline(always)]
    pub fn put(&mut self, slot: usize, value: Datum)
        requires { slot < length self.old.items }
        ensures { self.new ≡ with_element slot value self.old }
    {
        self.cells.put(slot, value);
    }
}
