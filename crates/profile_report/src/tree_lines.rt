//! The tree's lines, depth first.

ghost use Rattle.std.specs.Prelude.{◌≡◌, ◌<◌, ◌+◌, ◌++◌, length, replicate, OnOk, IfSome};
ghost use Rattle.context_tree.specs.Profiles.{totals_of};
ghost use Rattle.profile_report.specs.Nodes.{node_text, tree_line, tree_lines};
ghost use Rattle.profile_report.specs.Reports.{Adds, counts_text, tree_text};

use crate::names::push_method;
use crate::numbers::push_number;
use context_tree::{Node, Tree};
use jf_bytes::NoMemory;
use jvm_model::Program;
use std::alloc::Global;

/// Adds two spaces for each level.
fn push_indent(out: &mut Vec<u8>, level: usize) -> Result<(), NoMemory>
    ensures { OnOk result (out.new.items ≡ out.old.items ++ replicate (level + level) 32) }
{
    for _ in 0..level {
        out.extend_from_slice(b"  ")?;
    }
    Ok(())
}

/// Adds three counts, each with a space behind it.
fn push_counts(out: &mut Vec<u8>, calls: u64, own: u64, total: u64) -> Result<(), NoMemory>
    ensures { OnOk result (out.new.items ≡ out.old.items ++ counts_text calls own total) }
{
    push_number(out, calls)?;
    out.push(b' ')?;
    push_number(out, own)?;
    out.push(b' ')?;
    push_number(out, total)?;
    out.push(b' ')?;
    Ok(())
}

/// Adds a node's line.
fn push_line(
    alloc: Global,
    out: &mut Vec<u8>,
    program: &Program,
    level: usize,
    node: Node,
    total: u64,
) -> Result<(), NoMemory>
    ensures { let text = node_text program.now level node total in
        OnOk result (out.new.items ≡ out.old.items ++ text) }
{
    push_indent(out, level)?;
    push_counts(out, node.calls, node.own, total)?;
    push_method(alloc, out, program, node.method)?;
    out.push(b'\n')?;
    Ok(())
}

/// Adds the line of the node with this number.
fn push_node(
    alloc: Global,
    out: &mut Vec<u8>,
    program: &Program,
    tree: &Tree,
    totals: &[u64],
    level: usize,
    number: usize,
) -> Result<(), NoMemory>
    requires within { number < length tree.now.contexts }
    requires totals { totals.now ≡ totals_of tree.now }
    ensures { let text = tree_line program.now tree.now level number in
        Adds result out.old.items out.new.items text }
{
    let node = tree.nodes()[number];
    push_line(alloc, out, program, level, node, totals[number])
}

/// Adds the lines of all nodes below one, each before those below it. The first are at this level.
fn push_below(
    alloc: Global,
    out: &mut Vec<u8>,
    program: &Program,
    tree: &Tree,
    totals: &[u64],
    level: usize,
    node: Option<usize>,
) -> Result<(), NoMemory>
    requires within { IfSome node (λ i. i < length tree.now.contexts) }
    requires totals { totals.now ≡ totals_of tree.now }
    ensures { Adds result out.old.items out.new.items (tree_lines program.now tree.now level node) }
{
    // No path is longer than there are nodes, and so no node is deeper.
    let count = tree.nodes().len();
    if level >= count {
        return Ok(());
    }
    let mut place = 0;
    while let Some(child) = tree.child(node, place) {
        push_node(alloc, out, program, tree, totals, level, child)?;
        push_below(alloc, out, program, tree, totals, level + 1, Some(child))?;
        place += 1;
    }
    Ok(())
}

/// Adds the tree: a line for each node, depth first.
pub fn push_tree(
    alloc: Global,
    out: &mut Vec<u8>,
    program: &Program,
    tree: &Tree,
) -> Result<(), NoMemory>
    ensures { let text = tree_text program.now tree.now.contexts in
        OnOk result (out.new.items ≡ out.old.items ++ text) }
{
    let totals = tree.totals(alloc)?;
    out.extend_from_slice(b"tree\n")?;
    push_below(alloc, out, program, tree, totals.as_slice(), 0, None)?;
    Ok(())
}
