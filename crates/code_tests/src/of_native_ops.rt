//! Native methods by hand: each with an ordinary argument or one at an edge, over the same objects.

ghost use Rattle.std.specs.Prelude.{◌≡◌};

use base_classes::native_of;
use heap_objects::{Datum, Heap, HeapError};
use jf_bytes::{Seq, Text16};
use native_effects::{Kinds, Made, Native};
use native_ops::{Invocation, call};
use std::alloc::Global;
use tables::{Row, boxes, builders, others, strings};
use text_coding::from_utf8;

mod tables;

/// No class but those that objects are of, and none above another.
struct Alone;

impl Kinds for Alone {
    ghost use Rattle.std.specs.Prelude.{None, false};

    ghost seen = { λ _. record {
      name = λ _. None;
      above = λ _. None;
      subtype = λ _ _. false;
    } };

    fn name(&self, _kind: u32) -> Option<&Text16> {
        None
    }

    fn above(&self, _kind: u32) -> Option<u32> {
        None
    }

    fn subtype(&self, _lower: u32, _upper: u32) -> bool {
        false
    }
}

fn text(alloc: Global, ascii: &str) -> Text16 {
    from_utf8(alloc, ascii).unwrap_or(Text16::new(Vec::new(alloc)))
}

/// Objects 1 to 3 are the Strings `abc`, `-12` and `TRUE`, and 4 is the StringBuilder `ab`.
fn make_texts(alloc: Global, heap: &mut Heap) -> Result<(), HeapError>
    ensures { heap.new.limit ≡ heap.old.limit }
{
    heap.text(23, text(alloc, "abc").units())?;
    heap.text(23, text(alloc, "-12").units())?;
    heap.text(23, text(alloc, "TRUE").units())?;
    heap.text(24, text(alloc, "ab").units())?;
    Ok(())
}

/// 5 is an array of three ints, and 6 one of two chars.
fn make_arrays(heap: &mut Heap) -> Result<(), HeapError>
    ensures { heap.new.limit ≡ heap.old.limit }
{
    heap.array(16_777_226, Datum::Int(7), 3)?;
    heap.array(16_777_221, Datum::Int(120), 2)?;
    Ok(())
}

/// 7 is an Integer, 8 a Long, 9 a Character, 10 a Boolean, 11 a Throwable, 12 an InputStream, 13 a PrintStream.
fn make_instances(heap: &mut Heap) -> Result<(), HeapError>
    ensures { heap.new.limit ≡ heap.old.limit }
{
    heap.instance(30, &[Datum::Int(5)])?;
    heap.instance(31, &[Datum::Long(-1)])?;
    heap.instance(32, &[Datum::Int(97)])?;
    heap.instance(33, &[Datum::Int(1)])?;
    heap.instance(36, &[Datum::Ref(1), Datum::Ref(0)])?;
    heap.instance(26, &[])?;
    heap.instance(27, &[])?;
    Ok(())
}

fn make_objects(alloc: Global, heap: &mut Heap) -> Result<(), HeapError>
    ensures { heap.new.limit ≡ heap.old.limit }
{
    make_texts(alloc, heap)?;
    make_arrays(heap)?;
    make_instances(heap)
}

/// What a call answers over an input of one byte, or None where there is no such method or no memory.
fn answer(alloc: Global, row: &Row, heap: &mut Heap, output: &mut Seq<u8>) -> Option<Native> {
    let native = native_of(
        &text(alloc, row.class),
        &text(alloc, row.name),
        &text(alloc, row.descriptor),
    )?;
    let mut made = Made::new(alloc);
    let mut read = 0;
    let invocation = Invocation {
        native,
        args: row.args,
        kinds: &Alone,
    };
    Some(call(
        alloc,
        &invocation,
        heap,
        &mut made,
        &[255],
        &mut read,
        output,
    ))
}

/// Whether a text has these units, in ASCII.
fn has_units(units: &[u16], ascii: &str) -> bool {
    let bytes = ascii.as_bytes();
    if units.len() != bytes.len() {
        return false;
    }
    for i in 0..units.len() {
        if units[i] != u16::from(bytes[i]) {
            return false;
        }
    }
    true
}

/// Whether the object that is answered is a text of these units, or, where none is, this was written.
fn shows(answer: &Native, heap: &Heap, output: &[u8], ascii: &str) -> bool {
    if let Native::Value(Some(Datum::Ref(object))) = answer {
        if let Some(units) = heap.units(*object) {
            return has_units(units, ascii);
        }
    }
    output == ascii.as_bytes()
}

/// Whether a row holds, in a heap of so many slots.
fn holds(alloc: Global, row: &Row, limit: u32) -> bool {
    let mut heap = Heap::new(alloc, limit);
    if make_objects(alloc, &mut heap).is_err() {
        return false;
    }
    let mut output = Seq::new(alloc);
    match answer(alloc, row, &mut heap, &mut output) {
        Some(given) => given == row.answer && shows(&given, &heap, output.as_slice(), row.text),
        None => false,
    }
}

/// The first row that does not hold.
fn first_false(alloc: Global, rows: &[Row], limit: u32) -> Option<usize> {
    for place in 0..rows.len() {
        if !holds(alloc, &rows[place], limit) {
            return Some(place);
        }
    }
    None
}

#[test]
fn strings_hold(rt: HostRuntime) {
    let failed = first_false(rt.alloc(), strings(), 1000);
    assert_eq!(&rt; failed, None);
}

#[test]
fn builders_hold(rt: HostRuntime) {
    let failed = first_false(rt.alloc(), builders(), 1000);
    assert_eq!(&rt; failed, None);
}

#[test]
fn boxes_hold(rt: HostRuntime) {
    let failed = first_false(rt.alloc(), boxes(), 1000);
    assert_eq!(&rt; failed, None);
}

#[test]
fn others_hold(rt: HostRuntime) {
    let failed = first_false(rt.alloc(), others(), 1000);
    assert_eq!(&rt; failed, None);
}
