//! The heap of a run.

ghost use Rattle.std.specs.Prelude.{◌≡◌, ◌<◌, ◌≤◌, ◌+◌, ◌^◌, Some, None, IfOk, IfSome};
ghost use Rattle.std.specs.Prelude.{length, is_ok, nat_le, if◌then◌else◌};
ghost use Rattle.std.specs.Option.{option_copied, option_map};
ghost use Rattle.heap_objects.specs.Kinds.{element_of};

use crate::array::ArrayObject;
use crate::datum::Datum;
use crate::element::ElementType;
use crate::error::HeapError;
use crate::interned::Interned;
use crate::lists::{append_at, item_at, put_at, put_last, put_unit_at, replace_at};
use crate::object::Object;
use jf_bytes::{NoMemory, Seq};
use std::alloc::Global;
use std::marker::Model;

/// The objects of a run, numbered from 1 in order of allocation (JVM Specification 2.5.3), how many slots were used,
/// and the texts that were interned. 0 is null, and no object's number. A clause sees the list of the objects. The
/// limit is the product's own: an instance takes one slot and one for each field, an array one and one for each
/// element, a text one and one for each unit, and none is given back.
#[derive(Drop)]
pub struct Heap {
    alloc: Global,
    limit: u32,
    used: u32,
    objects: Vec<Object>,
    interned: Interned,
}

impl Model for Heap {
    ghost use Rattle.heap_objects.specs.Heaps.{HeapView, IsSound};

    ghost Value = { HeapView };

    ghost view = { λ h. record {
      limit = h.limit;
      used = h.used;
      objects = h.objects.items;
      interned = h.interned;
    } };

    ghost invariant = { λ h. IsSound (record {
      limit = h.limit;
      used = h.used;
      objects = h.objects.items;
      interned = h.interned;
    }) };
}

/// How many slots are used with so many more, where the limit allows.
fn slots_charged(limit: u32, used: u32, asked: usize) -> Option<u32>
    requires { used ≤ limit }
    ensures { result ≡ (if nat_le (used + asked) limit then Some (used + asked) else None) }
{
    if asked > (limit - used) as usize {
        return None;
    }
    Some(used + asked as u32)
}

impl Heap {
    ghost use Rattle.heap_objects.specs.Changes.{changed_if};
    ghost use Rattle.heap_objects.specs.Objects.{cost_of, length_of, object_at};
    ghost use Rattle.heap_objects.specs.Interning.{number_of};
    ghost use Rattle.heap_objects.specs.Heaps.{IsSound, empty_heap, ExceedsLimit, IsFullExactly};
    ghost use Rattle.heap_objects.specs.Heaps.{slot_at, has_slot_at, kind_at, length_at, units_at};
    ghost use Rattle.heap_objects.specs.Heaps.{IsKeptBy, IsText, with_slot_at, has_unit_at, with_unit_at};
    ghost use Rattle.heap_objects.specs.Heaps.{next_number, with_object, with_instance};
    ghost use Rattle.heap_objects.specs.Heaps.{with_array, with_text};
    ghost use Rattle.heap_objects.specs.Heaps.{interned_number, with_interned, CannotIntern};
    ghost use Rattle.heap_objects.specs.Heaps.{with_units_added, with_units_replaced};
    ghost use Rattle.heap_objects.specs.Heaps.{GrowsPastLimit};

    /// A heap without objects, for so many slots. It takes no memory.
    pub fn new(alloc: Global, limit: u32) -> Heap
        ensures { result ≡ empty_heap limit }
    {
        Heap {
            alloc,
            limit,
            used: 0,
            objects: Vec::new(alloc),
            interned: Interned::new(alloc),
        }
    }

    /// How many slots were used.
    pub fn used(&self) -> u32
        ensures used { result ≡ self.now.used }
        ensures sound { IsSound self.now }
    {
        self.used
    }

    /// How many slots objects may take, all together.
    pub fn limit(&self) -> u32
        ensures { result ≡ self.now.limit }
    {
        self.limit
    }

    /// Whether there is room for so many slots more.
    pub fn has_room(&self, asked: usize) -> bool
        ensures { result ≡ nat_le (self.now.used + asked) self.now.limit }
    {
        slots_charged(self.limit, self.used, asked).is_some()
    }

    #[inline(always)]
    fn find(&self, object: u32) -> Option<&Object>
        ensures found { option_copied result ≡ object_at object self.now.objects }
        ensures fits { IfSome result (λ o. length_of o.now < 2 ^ 32) }
    {
        // Read so that the invariant is known, by which each length has 32 bits.
        let _limit = self.limit;
        if object == 0 {
            return None;
        }
        item_at(&self.objects, object as usize - 1)
    }

    /// The value of a field or an element, or None where there is no such object or slot. A text has no slots. The
    /// value is one that the slot keeps whole: that of an array is of its elements' sort and within their range.
    #[inline(always)]
    pub fn get(&self, object: u32, slot: u32) -> Option<Datum>
        ensures found { result ≡ slot_at object slot self.now }
        ensures whole { IfSome result (λ v. IsKeptBy object self.now v) }
    {
        self.find(object)?.get(slot as usize)
    }

    /// The int of an element of an array of ints.
    #[inline(always)]
    pub fn int_at(&self, object: u32, slot: u32) -> Option<i32>
        ensures ints { IfSome result
            (λ _. option_map element_of (kind_at object self.now) ≡ Some ElementType.Int) }
        ensures found { IfSome result (λ n. slot_at object slot self.now ≡ Some (Datum.Int n)) }
    {
        self.find(object)?.int(slot as usize)
    }

    /// The reference of an element of an array of references.
    #[inline(always)]
    pub fn reference_at(&self, object: u32, slot: u32) -> Option<u32>
        ensures references { IfSome result
            (λ _. option_map element_of (kind_at object self.now) ≡ Some ElementType.Reference) }
        ensures found { IfSome result (λ n. slot_at object slot self.now ≡ Some (Datum.Ref n)) }
    {
        self.find(object)?.reference(slot as usize)
    }

    /// The kind of an object, or None where there is none of this number.
    #[inline(always)]
    pub fn kind(&self, object: u32) -> Option<u32>
        ensures { result ≡ kind_at object self.now }
    {
        Some(self.find(object)?.kind())
    }

    /// How many fields, elements or units an object has, or None where there is none of this number.
    pub fn len(&self, object: u32) -> Option<u32>
        ensures { result ≡ length_at object self.now }
    {
        let size = self.find(object)?.size();
        Some(size as u32)
    }

    /// The units of a text, or None where the number is no text's.
    pub fn units(&self, object: u32) -> Option<&[u16]>
        ensures { option_map (λ u. u.now) result ≡ units_at object self.now }
    {
        self.find(object)?.units()
    }

    /// Adds an object that takes the heap to so many slots.
    #[tactic(auto, using(crate::proofs::HeapLemmas::length_within, crate::proofs::HeapLemmas::cost_more))]
    fn add(&mut self, object: Object, used: u32) -> Result<u32, NoMemory>
        requires cost { used ≡ self.old.used + cost_of object }
        requires within { used ≤ self.old.limit }
        ensures number { IfOk result (λ n. n ≡ next_number self.old) }
        ensures heap { self.new ≡ changed_if (is_ok result) (with_object object) self.old }
    {
        let number = self.objects.len() as u32 + 1;
        self.objects.push(object)?;
        self.used = used;
        Ok(number)
    }

    /// Makes an instance with these fields, and gives its number. Its class is told by its kind. An Err changes
    /// nothing.
    pub fn instance(&mut self, kind: u32, fields: &[Datum]) -> Result<u32, HeapError>
        ensures full { IsFullExactly result (ExceedsLimit (1 + length fields.now) self.old) }
        ensures number { IfOk result (λ n. n ≡ next_number self.old) }
        ensures heap { self.new
            ≡ changed_if (is_ok result) (with_instance kind fields.now) self.old }
    {
        let Some(used) = slots_charged(self.limit, self.used, 1 + fields.len()) else {
            return Err(HeapError::HeapFull);
        };
        let own = Seq::from_slice(self.alloc, fields)?;
        let number = self.add(Object::Instance(kind, own), used)?;
        Ok(number)
    }

    /// Makes an array of so many elements, each with what it keeps of `zero`, and gives its number. The zeros are
    /// written once. An Err changes nothing.
    pub fn array(&mut self, kind: u32, zero: Datum, len: u32) -> Result<u32, HeapError>
        ensures full { IsFullExactly result (ExceedsLimit (1 + len) self.old) }
        ensures number { IfOk result (λ n. n ≡ next_number self.old) }
        ensures heap { self.new ≡ changed_if (is_ok result) (with_array kind zero len) self.old }
    {
        let Some(used) = slots_charged(self.limit, self.used, 1 + len as usize) else {
            return Err(HeapError::HeapFull);
        };
        let array = ArrayObject::make(self.alloc, kind, zero, len as usize)?;
        let number = self.add(Object::Array(array), used)?;
        Ok(number)
    }

    /// Makes a text with these units, and gives its number. An Err changes nothing.
    pub fn text(&mut self, kind: u32, units: &[u16]) -> Result<u32, HeapError>
        ensures full { IsFullExactly result (ExceedsLimit (1 + length units.now) self.old) }
        ensures number { IfOk result (λ n. n ≡ next_number self.old) }
        ensures heap { self.new ≡ changed_if (is_ok result) (with_text kind units.now) self.old }
    {
        let Some(used) = slots_charged(self.limit, self.used, 1 + units.len()) else {
            return Err(HeapError::HeapFull);
        };
        let own = Seq::from_slice(self.alloc, units)?;
        let number = self.add(Object::Text(kind, own), used)?;
        Ok(number)
    }

    /// Makes a text of these units, which are not copied, and gives its number. An Err changes nothing.
    pub fn own_text(&mut self, kind: u32, units: Seq<u16>) -> Result<u32, HeapError>
        ensures full { IsFullExactly result (ExceedsLimit (1 + length units) self.old) }
        ensures number { IfOk result (λ n. n ≡ next_number self.old) }
        ensures heap { self.new ≡ changed_if (is_ok result) (with_text kind units) self.old }
    {
        let Some(used) = slots_charged(self.limit, self.used, 1 + units.len()) else {
            return Err(HeapError::HeapFull);
        };
        let number = self.add(Object::Text(kind, units), used)?;
        Ok(number)
    }

    /// Makes the text that these units are interned as, where none was interned yet.
    #[tactic(auto, using(crate::proofs::HeapLemmas::length_within, crate::proofs::HeapLemmas::cost_more))]
    fn intern_new(&mut self, kind: u32, units: &[u16]) -> Result<u32, HeapError>
        requires { number_of units.now self.old.interned ≡ None }
        ensures full { IsFullExactly result (ExceedsLimit (1 + length units.now) self.old) }
        ensures number { IfOk result (λ n. n ≡ next_number self.old) }
        ensures heap { self.new
            ≡ changed_if (is_ok result) (with_interned kind units.now) self.old }
    {
        let Some(used) = slots_charged(self.limit, self.used, 1 + units.len()) else {
            return Err(HeapError::HeapFull);
        };
        let own = Seq::from_slice(self.alloc, units)?;
        self.objects.reserve(1)?;
        let number = self.objects.len() as u32 + 1;
        self.interned.add(self.alloc, units, number)?;
        put_last(&mut self.objects, Object::Text(kind, own));
        self.used = used;
        Ok(number)
    }

    /// The number of the text that was made for equal units, or of the one that is made for these now (JVM
    /// Specification 5.1, string literals). `kind` is that of the class String. An Err changes nothing.
    pub fn intern(&mut self, kind: u32, units: &[u16]) -> Result<u32, HeapError>
        ensures full { IsFullExactly result (CannotIntern units.now self.old) }
        ensures number { IfOk result (λ n. n ≡ interned_number units.now self.old) }
        ensures heap { self.new
            ≡ changed_if (is_ok result) (with_interned kind units.now) self.old }
    {
        match self.interned.find(units) {
            Some(number) => Ok(number),
            None => self.intern_new(kind, units),
        }
    }

    /// Puts a value into a field or an element. False, with nothing changed, where there is no such object or slot. An
    /// array keeps of the value what its elements keep: of a boolean the lowest bit, of a byte, char or short the low
    /// bits.
    #[inline(always)]
    pub fn put(&mut self, object: u32, slot: u32, value: Datum) -> bool
        ensures answer { result ≡ has_slot_at object slot self.old }
        ensures heap { self.new ≡ changed_if result (with_slot_at object slot value) self.old }
    {
        if object == 0 {
            return false;
        }
        put_at(&mut self.objects, object as usize - 1, slot as usize, value)
    }

    /// Puts a unit at a place of a text. False, with nothing changed, where there is no such text or place.
    pub fn put_unit(&mut self, object: u32, at: u32, unit: u16) -> bool
        ensures answer { result ≡ has_unit_at object at self.old }
        ensures heap { self.new ≡ changed_if result (with_unit_at object at unit) self.old }
    {
        if object == 0 {
            return false;
        }
        put_unit_at(&mut self.objects, object as usize - 1, at as usize, unit)
    }

    /// Adds units at the end of a text, which takes a slot for each. An Err changes nothing.
    pub fn append(&mut self, object: u32, units: &[u16]) -> Result<(), HeapError>
        requires { IsText object self.old }
        ensures full { IsFullExactly result (ExceedsLimit (length units.now) self.old) }
        ensures heap { self.new
            ≡ changed_if (is_ok result) (with_units_added object units.now) self.old }
    {
        let Some(used) = slots_charged(self.limit, self.used, units.len()) else {
            return Err(HeapError::HeapFull);
        };
        append_at(&mut self.objects, object as usize - 1, units)?;
        self.used = used;
        Ok(())
    }

    /// Gives a text these units, which are not copied, in place of its own. It takes as many slots as it gets longer.
    /// An Err changes nothing.
    pub fn replace(&mut self, object: u32, units: Seq<u16>) -> Result<(), HeapError>
        requires { IsText object self.old }
        ensures full { IsFullExactly result (GrowsPastLimit object units self.old) }
        ensures heap { self.new
            ≡ changed_if (is_ok result) (with_units_replaced object units) self.old }
    {
        let before = self.len(object).unwrap_or(0) as usize;
        let grown = units.len().saturating_sub(before);
        let Some(used) = slots_charged(self.limit, self.used, grown) else {
            return Err(HeapError::HeapFull);
        };
        replace_at(&mut self.objects, object as usize - 1, units);
        self.used = used;
        Ok(())
    }
}
