//! The static fields of all classes (JVM Specification 2.5.3).

ghost use Rattle.std.specs.Prelude.{◌≡◌, slice_set};
ghost use Rattle.symbolic_references.specs.Held.{with_static_in};

use heap_objects::Datum;
use jf_bytes::Seq;
use std::alloc::Global;
use std::mem;

/// Writes an item; a position behind the last changes nothing.
fn set_item(items: &mut Seq<Datum>, position: usize, value: Datum)
    ensures { items.new ≡ slice_set items.old position value }
{
    if position < items.len() {
        items.set(position, value);
    }
}

/// Writes an item of a row.
fn set_in(rows: &mut [Seq<Datum>], class: usize, position: usize, value: Datum)
    ensures { rows.new ≡ with_static_in rows.old class position value }
{
    if class < rows.len() {
        set_item(&mut rows[class], position, value);
    }
}

/// Writes a static field, by the position of its class and its own there; where there is none
/// nothing changes. It takes no memory.
pub fn set_static(
    alloc: Global,
    statics: &mut Seq<Seq<Datum>>,
    class: u32,
    position: usize,
    value: Datum,
)
    ensures { statics.new ≡ with_static_in statics.old class position value }
{
    let mut rows = mem::replace(statics, Seq::new(alloc)).into_vec();
    set_in(&mut rows, class as usize, position, value);
    *statics = Seq::from_vec(rows);
}
