//! The sums that stand in place of the tree.

ghost use Rattle.std.specs.Prelude.{◌≡◌, ◌++◌, OnOk, sum_by};
ghost use Rattle.profile_report.specs.Reports.{summary_text};
ghost use Rattle.context_tree.specs.declared.node.Node.{Node};

use crate::numbers::{push_number, push_sum};
use context_tree::{Node, Tree};
use jf_bytes::NoMemory;

/// All calls. A sum of numbers of 64 bits may need more of them.
fn sum_of_calls(nodes: &[Node]) -> u128
    ensures { result ≡ sum_by (λ (n : Node). n.calls) nodes.now }
{
    let mut sum = 0;
    for node in nodes {
        sum += u128::from(node.calls);
    }
    sum
}

/// All steps that nodes have of their own.
fn sum_of_own(nodes: &[Node]) -> u128
    ensures { result ≡ sum_by (λ (n : Node). n.own) nodes.now }
{
    let mut sum = 0;
    for node in nodes {
        sum += u128::from(node.own);
    }
    sum
}

/// Adds the number of nodes and their sums.
pub fn push_summary(out: &mut Vec<u8>, tree: &Tree) -> Result<(), NoMemory>
    ensures { OnOk result (out.new.items ≡ out.old.items ++ summary_text tree.now.contexts) }
{
    let nodes = tree.nodes();
    out.extend_from_slice(b"contexts ")?;
    push_number(out, nodes.len() as u64)?;
    out.extend_from_slice(b"\ncalls ")?;
    push_sum(out, sum_of_calls(nodes))?;
    out.extend_from_slice(b"\nown ")?;
    push_sum(out, sum_of_own(nodes))?;
    out.push(b'\n')?;
    Ok(())
}
