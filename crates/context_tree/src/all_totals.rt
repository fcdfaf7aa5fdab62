//! The totals of all nodes, in one pass.

ghost use Rattle.std.specs.Prelude.{◌≡◌, ◌+◌, ◌<◌, ◌^◌, length, map, slice_index, IfOk, IfSome};
ghost use Rattle.context_tree.specs.NodeTables.{numbers_gathered, sum_of};
ghost use Rattle.context_tree.specs.TreeViews.{profile_in, IsTree};
ghost use Rattle.context_tree.specs.Profiles.{totals_of};

use crate::node::Node;
use crate::table::NodeTable;
use jf_bytes::{NoMemory, Seq};
use std::alloc::Global;

/// A number of a list, or 0 past its end.
fn number_at(numbers: &Seq<u64>, index: usize) -> u64
    ensures { result ≡ slice_index numbers.now index }
{
    numbers.at(index).unwrap_or(0)
}

/// Adds a node's number to its parent's.
fn add_to_parent(numbers: &mut Seq<u64>, node: usize, parent: Option<usize>)
    requires within { IfSome parent (λ i. i < length numbers.old) }
    requires fits { IfSome parent (λ i. sum_of i node numbers.old < 2 ^ 64) }
    ensures { numbers.new ≡ numbers_gathered parent node numbers.old }
{
    let Some(parent) = parent else {
        return;
    };
    let sum = number_at(numbers, parent) + number_at(numbers, node);
    numbers.set(parent, sum);
}

/// The steps that were made in each node itself.
fn own_steps(alloc: Global, nodes: &[Node]) -> Result<Seq<u64>, NoMemory>
    ensures { IfOk result (λ own. own ≡ map (λ n. n.own) nodes.now) }
{
    let own: Vec<u64> = nodes.iter().map(|node| node.own).collect(alloc)?;
    Ok(Seq::from_vec(own))
}

impl NodeTable {
    /// The steps of each node's path and of all that go on from it. A child stands behind its parent, so one pass from
    /// the last node to the first sums them up.
    pub fn totals(&self, alloc: Global) -> Result<Seq<u64>, NoMemory>
        requires { IsTree self.now }
        ensures { IfOk result (λ totals. totals ≡ totals_of (profile_in self.now)) }
    {
        // Read so that it is known that the clock has 64 bits, and with it each sum.
        let _clock = self.clock;
        let mut totals = own_steps(alloc, self.nodes.as_slice())?;
        let mut number = self.nodes.len();
        while number > 0 {
            number -= 1;
            add_to_parent(&mut totals, number, self.parent(number));
        }
        Ok(totals)
    }
}
