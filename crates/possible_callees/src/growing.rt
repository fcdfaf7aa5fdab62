//! Lists that grow: what a call that stops leaves begins with what there was.

ghost use Rattle.std.specs.Prelude.{◌≡◌, OnOk};
ghost use Rattle.class_index.specs.Orders.{with_classes};
ghost use Rattle.possible_callees.specs.Tables.{IsPrefix};

use class_index::Order;
use jf_bytes::NoMemory;

/// Adds these, each once.
pub fn add_more(order: &mut Order, items: &[u32]) -> Result<(), NoMemory>
    ensures added { OnOk result (order.new ≡ with_classes order.old items.now) }
    ensures prefix { IsPrefix order.old order.new }
{
    for item in items {
        order.add(*item)?;
    }
    Ok(())
}
