//! The nodes of a tree with their children, the open node, and the last clock.

ghost use Rattle.std.specs.Prelude.{◌≡◌, ◌<◌, ◌≤◌, ◌+◌, ◌-◌, ◌^◌, Some, None, length, is_ok, slice_get, IfSome, if◌then◌else◌};
ghost use Rattle.context_tree.specs.NodeTables.{entries_of, numbers_in, child_by, parent_in, changed_at, node_called, node_stepped, calls_in, own_in, own_at, steps_given, with_node, with_child, table_grown, opened_in, closed_in, told_in};
ghost use Rattle.context_tree.specs.ChildLists.{Becomes};
ghost use Rattle.context_tree.specs.TreeViews.{total_at, IsTree};

use crate::children::{ChildLists, Children};
use crate::node::Node;
use jf_bytes::{NoMemory, Seq};
use jvm_model::{Event, EventKind};
use std::alloc::Global;

/// The nodes in order of first begin, the outermost paths, the children of each node, the node of the open path, and
/// the last clock.
#[derive(Drop)]
pub struct NodeTable {
    pub alloc: Global,
    pub nodes: Seq<Node>,
    pub outermost: Children,
    pub children: ChildLists,
    pub open: Option<usize>,
    pub clock: u64,
}

/// One call more of a node.
fn add_call(nodes: &mut Seq<Node>, number: usize)
    requires { calls_in nodes.old < 2 ^ 64 - 1 }
    ensures { nodes.new ≡ changed_at node_called number nodes.old }
{
    let Some(mut node) = nodes.at(number) else {
        return;
    };
    node.calls += 1;
    nodes.set(number, node);
}

/// So many steps more of a node.
fn add_steps(nodes: &mut Seq<Node>, number: usize, steps: u64)
    requires { own_in nodes.old + steps < 2 ^ 64 }
    ensures { nodes.new ≡ changed_at (node_stepped steps) number nodes.old }
{
    let Some(mut node) = nodes.at(number) else {
        return;
    };
    node.own += steps;
    nodes.set(number, node);
}

impl NodeTable {
    /// The node that a node goes on from.
    pub fn parent(&self, node: usize) -> Option<usize>
        ensures { result ≡ parent_in self.now.nodes (Some node) }
    {
        self.nodes.get(node).and_then(|n| n.parent)
    }

    /// The child of a node that goes on by this method.
    #[inline(always)]
    fn find(&self, node: Option<usize>, method: u32) -> Option<usize>
        ensures { result ≡ child_by node method self.now }
    {
        match node {
            None => self.outermost.find(method),
            Some(i) => self.children.find(i, method),
        }
    }

    /// The child of a node at a place.
    pub fn child(&self, node: Option<usize>, place: usize) -> Option<usize>
        ensures { result ≡ slice_get (numbers_in (entries_of node self.now)) place }
    {
        match node {
            None => self.outermost.at(place),
            Some(i) => self.children.at(i, place),
        }
    }

    /// The steps of a node's path and of all that go on from it.
    pub fn total(&self, node: usize) -> u64
        requires within { node < length self.now.nodes }
        requires tree { IsTree self.now }
        ensures { result ≡ total_at node self.now.nodes }
    {
        // Read so that it is known that the clock has 64 bits, and with it each sum, and that the nodes can be counted.
        let _clock = self.clock;
        let _count = self.nodes.len();
        let mut sum = self.own(node);
        let mut place = 0;
        while let Some(child) = self.child(Some(node), place) {
            sum += self.total(child);
            place += 1;
        }
        sum
    }

    /// The steps that were made in a node itself.
    fn own(&self, node: usize) -> u64
        ensures { result ≡ own_at node self.now.nodes }
    {
        match self.nodes.get(node) {
            Some(n) => n.own,
            None => 0,
        }
    }

    /// One node more, which is no child yet. An Err changes nothing.
    fn push_node(&mut self, parent: Option<usize>, method: u32) -> Result<(), NoMemory>
        ensures { self.new ≡ (if is_ok result then with_node parent method self.old else self.old) }
    {
        self.children.push_empty(self.alloc)?;
        let node = Node {
            method,
            parent,
            calls: 1,
            own: 0,
        };
        if self.nodes.push(node).is_err() {
            self.children.pop();
            return Err(NoMemory);
        }
        Ok(())
    }

    /// Adds a child of a node. An Err changes nothing.
    fn add_child(
        &mut self,
        parent: Option<usize>,
        method: u32,
        number: usize,
    ) -> Result<(), NoMemory>
        requires within { IfSome parent (λ i. i < length self.old.children) }
        requires absent { child_by parent method self.old ≡ None }
        ensures { Becomes result self.old self.new (with_child parent (method, number) self.old) }
    {
        match parent {
            None => self.outermost.add(method, number),
            Some(i) => self.children.add(i, method, number),
        }
    }

    /// The steps since the last clock were made in a node, or in none.
    pub fn give(&mut self, node: Option<usize>, clock: u64)
        requires order { self.old.clock ≤ clock }
        requires counted { own_in self.old.nodes ≤ self.old.clock }
        ensures { self.new ≡ steps_given node clock self.old }
    {
        if let Some(number) = node {
            add_steps(&mut self.nodes, number, clock - self.clock);
        }
        self.clock = clock;
    }

    /// One node more, which is a child. An Err changes nothing.
    // Not inlined: it is done once for each context, and an entry into one that is there has to stay small.
    #[inline(never)]
    fn grow(&mut self, parent: Option<usize>, method: u32) -> Result<(), NoMemory>
        requires within { IfSome parent (λ i. i < length self.old.children) }
        requires absent { child_by parent method self.old ≡ None }
        ensures { self.new
            ≡ (if is_ok result then table_grown parent method self.old else self.old) }
    {
        let number = self.nodes.len();
        self.push_node(parent, method)?;
        if self.add_child(parent, method, number).is_err() {
            self.nodes.truncate(number);
            self.children.pop();
            return Err(NoMemory);
        }
        Ok(())
    }

    /// A method's entry. An Err changes nothing.
    #[inline(always)]
    fn enter(&mut self, method: u32) -> Result<(), NoMemory>
        requires within { IfSome self.old.open (λ i. i < length self.old.children) }
        requires countable { calls_in self.old.nodes < 2 ^ 64 - 1 }
        ensures { self.new ≡ (if is_ok result then opened_in method self.old else self.old) }
    {
        match self.find(self.open, method) {
            Some(number) => {
                add_call(&mut self.nodes, number);
                self.open = Some(number);
                Ok(())
            }
            None => {
                let number = self.nodes.len();
                self.grow(self.open, method)?;
                self.open = Some(number);
                Ok(())
            }
        }
    }

    /// The end of the last open entry.
    fn close(&mut self)
        ensures { self.new ≡ closed_in self.old }
    {
        self.open = match self.open {
            Some(number) => self.parent(number),
            None => None,
        };
    }

    /// What an event says of the open path. An Err changes nothing.
    pub fn tell(&mut self, kind: EventKind, method: u32) -> Result<(), NoMemory>
        requires within { IfSome self.old.open (λ i. i < length self.old.children) }
        requires countable { calls_in self.old.nodes < 2 ^ 64 - 1 }
        ensures { self.new ≡ (if is_ok result then told_in kind method self.old else self.old) }
    {
        match kind {
            EventKind::Root => self.enter(method),
            EventKind::Enter => {
                if self.open.is_none() {
                    return Ok(());
                }
                self.enter(method)
            }
            EventKind::Leave | EventKind::Unwind => {
                self.close();
                Ok(())
            }
        }
    }
}
