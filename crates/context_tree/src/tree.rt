//! The tree: nodes in order of first begin, and a cursor at the open path.

ghost use Rattle.std.specs.Prelude.{ℕ, ◌≡◌, ◌<◌, ◌≤◌, ◌+◌, ◌-◌, ◌^◌, Some, length, OnOk, OnErr, IfOk, IfSome};
ghost use Rattle.jvm_model.specs.declared.event.Event.{Event as TheEvent};
ghost use Rattle.context_tree.specs.Profiles.{blank, event_taken, steps_credited, calls_of, nodes_of, child_at, path_of_node, total_of, totals_of};

use crate::children::{ChildLists, Children};
use crate::node::Node;
use crate::table::NodeTable;
use jf_bytes::{NoMemory, Seq};
use jvm_model::Event;
use std::alloc::Global;
use std::marker::Model;

/// A calling-context tree, built from events one by one. A clause sees its contexts in order of first begin, the open
/// path and the last clock; an event costs one look-up of a child at most.
#[derive(Drop)]
pub struct Tree {
    table: NodeTable,
}

impl Model for Tree {
    ghost use Rattle.context_tree.specs.Profiles.{Profile};
    ghost use Rattle.context_tree.specs.TreeViews.{profile_in, IsTree};

    ghost Value = { Profile };

    ghost view = { λ t. profile_in t.table };

    ghost invariant = { λ t. IsTree t.table };
}

impl Tree {
    /// An empty tree, outside every root, at clock 0. It takes no memory.
    pub fn new(alloc: Global) -> Tree
        ensures { result ≡ blank }
    {
        Tree {
            table: NodeTable {
                alloc,
                nodes: Seq::new(alloc),
                outermost: Children::new(alloc),
                children: ChildLists::new(alloc),
                open: None,
                clock: 0,
            },
        }
    }

    /// Takes the next event: the steps since the last clock are those of the open path, and then a path is opened or
    /// closed. An Err changes nothing.
    pub fn take(&mut self, event: &Event) -> Result<(), NoMemory>
        requires later { self.old.clock ≤ event.now.clock }
        requires countable { calls_of self.old < 2 ^ 64 - 1 }
        ensures ok { OnOk result (self.new ≡ event_taken self.old event.now) }
        ensures err { OnErr result (self.new ≡ self.old) }
        ensures clock { OnOk result (self.new.clock ≡ event.now.clock) }
        ensures calls { calls_of self.new ≤ calls_of self.old + 1 }
    {
        let before = self.table.open;
        self.table.tell(event.kind, event.method)?;
        self.table.give(before, event.clock);
        Ok(())
    }

    /// Gives the steps since the last clock to the open path. Credits add up, and one between two events changes
    /// nothing of what the tree is behind them.
    pub fn credit(&mut self, clock: u64)
        requires { self.old.clock ≤ clock }
        ensures credited { self.new ≡ steps_credited clock self.old }
        ensures adds { (later : ℕ) → clock ≤ later
            → steps_credited later self.new ≡ steps_credited later self.old }
        ensures unseen { (e : TheEvent) → clock ≤ e.clock → event_taken self.new e
            ≡ event_taken self.old e }
        ensures calls { calls_of self.new ≡ calls_of self.old }
    {
        let node = self.table.open;
        self.table.give(node, clock);
    }

    /// The nodes, in order of first begin.
    pub fn nodes(&self) -> &[Node]
        ensures nodes { result.now ≡ nodes_of self.now }
        ensures each { length result.now ≡ length self.now.contexts }
    {
        self.table.nodes.as_slice()
    }

    /// The number of the child at a place, counted from 0 in order of first begin, of a node or, for None, of the
    /// outermost paths. It is None exactly where there is no child at that place.
    pub fn child(&self, node: Option<usize>, place: usize) -> Option<usize>
        requires { IfSome node (λ i. i < length self.now.contexts) }
        ensures child { result ≡ child_at node place self.now.contexts }
        ensures within { IfSome result (λ child. child < length self.now.contexts) }
        ensures behind { IfSome result (λ child. IfSome node (λ parent. parent < child)) }
    {
        self.table.child(node, place)
    }

    /// The steps of a node's path and of all that go on from it.
    pub fn total(&self, node: usize) -> u64
        requires { node < length self.now.contexts }
        ensures { result ≡ total_of (path_of_node (Some node) self.now.contexts) self.now.contexts }
    {
        self.table.total(node)
    }

    /// The totals of all nodes, in the order of `nodes`, in one pass over them.
    pub fn totals(&self, alloc: Global) -> Result<Seq<u64>, NoMemory>
        ensures { IfOk result (λ totals. totals ≡ totals_of self.now) }
    {
        self.table.totals(alloc)
    }
}
