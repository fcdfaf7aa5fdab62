//! Places in load order, and the classes that stand there.

ghost use Rattle.std.specs.Prelude.{◌≡◌, ℕ, filter_map, slice_get, IfOk};
ghost use Rattle.jvm_model.specs.Classes.Load.{is_among};
ghost use Rattle.possible_callees.specs.Tables.{IsRising};

use jf_bytes::{NoMemory, Seq};
use possible_callees::add_some;
use std::alloc::Global;

/// Puts places in order, each once.
pub fn put_in_order(ranks: &mut Vec<usize>)
    ensures rising { IsRising ranks.new.items }
    ensures same { (rank : ℕ) → is_among rank ranks.new.items ≡ is_among rank ranks.old.items }
{
    ranks.sort_unstable();
    ranks.dedup();
}

/// The class at a place.
fn class_at(classes: &[u32], rank: usize) -> Option<u32>
    ensures { result ≡ slice_get classes.now rank }
{
    classes.get(rank).copied()
}

/// The classes at these places, where there are any.
pub fn classes_at(alloc: Global, classes: &[u32], ranks: &[usize]) -> Result<Seq<u32>, NoMemory>
    ensures { IfOk result (λ found. found ≡ filter_map (slice_get classes.now) ranks.now) }
{
    let mut found = Seq::new(alloc);
    for rank in ranks {
        add_some(&mut found, class_at(classes, *rank))?;
    }
    Ok(found)
}
