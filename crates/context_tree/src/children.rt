//! The children of nodes.

ghost use Rattle.std.specs.Prelude.{◌≡◌, ◌<◌, ◌++◌, ◌∷◌, [], None, Some, length, is_ok, slice_get, take, ◌-◌, if◌then◌else◌};
ghost use Rattle.std.specs.Option.{option_map};
ghost use Rattle.context_tree.specs.ChildLists.{Becomes, number_under, list_at, with_entry};

use indexmap::IndexMap;
use jf_bytes::NoMemory;
use std::alloc::Global;
use std::marker::Model;

/// The children of one node, or the outermost paths: the method of each with its number, in order of first begin.
#[derive(Drop)]
pub struct Children {
    entries: IndexMap<u32, usize>,
}

impl Model for Children {
    ghost use Rattle.std.specs.Prelude.{List, ℕ};

    ghost Value = { List (ℕ × ℕ) };

    ghost view = { λ c. c.entries.entries };
}

impl Children {
    /// No children. It takes no memory.
    pub fn new(alloc: Global) -> Children
        ensures { result ≡ [] }
    {
        Children {
            entries: IndexMap::new(alloc),
        }
    }

    /// The number of the child that goes on by this method, by hashing.
    // Not inlined: it is for more than four children, and the look at the first four has to stay small.
    #[inline(never)]
    fn look_up(&self, method: u32) -> Option<usize>
        ensures { result ≡ number_under method self.now }
    {
        self.entries.get(&method).copied()
    }

    /// The number of the child that goes on by this method. A few children are looked at one by one.
    #[inline(always)]
    pub fn find(&self, method: u32) -> Option<usize>
        ensures { result ≡ number_under method self.now }
    {
        let mut place = 0;
        while place < 4 {
            let (of, number) = self.entries.get_index(place)?;
            if *of == method {
                return Some(*number);
            }
            place += 1;
        }
        self.look_up(method)
    }

    /// The number of the child at a place.
    pub fn at(&self, place: usize) -> Option<usize>
        ensures { result ≡ option_map (λ e. e.1) (slice_get self.now place) }
    {
        let (_, number) = self.entries.get_index(place)?;
        Some(*number)
    }

    /// Adds a child at the end. An Err changes nothing.
    pub fn add(&mut self, method: u32, number: usize) -> Result<(), NoMemory>
        requires { number_under method self.old ≡ None }
        ensures { Becomes result self.old self.new (self.old ++ (method, number) ∷ []) }
    {
        self.entries.insert(method, number)?;
        Ok(())
    }
}

/// The children of each node, by its number.
#[derive(Drop)]
pub struct ChildLists {
    lists: Vec<Children>,
}

impl Model for ChildLists {
    ghost use Rattle.std.specs.Prelude.{List, ℕ};

    ghost Value = { List (List (ℕ × ℕ)) };

    ghost view = { λ c. c.lists.items };
}

impl ChildLists {
    /// No lists. It takes no memory.
    pub fn new(alloc: Global) -> ChildLists
        ensures { result ≡ [] }
    {
        ChildLists {
            lists: Vec::new(alloc),
        }
    }

    /// The number of a node's child that goes on by this method.
    #[inline(always)]
    pub fn find(&self, node: usize, method: u32) -> Option<usize>
        ensures { result ≡ number_under method (list_at node self.now) }
    {
        self.lists.get(node)?.find(method)
    }

    /// The number of a node's child at a place.
    pub fn at(&self, node: usize, place: usize) -> Option<usize>
        ensures { result ≡ option_map (λ e. e.1) (slice_get (list_at node self.now) place) }
    {
        self.lists.get(node)?.at(place)
    }

    /// An empty list for the next node. An Err changes nothing.
    pub fn push_empty(&mut self, alloc: Global) -> Result<(), NoMemory>
        ensures { self.new ≡ (if is_ok result then self.old ++ [] ∷ [] else self.old) }
    {
        self.lists.push(Children::new(alloc))?;
        Ok(())
    }

    /// Takes the list of the last node away.
    pub fn pop(&mut self)
        ensures { self.new ≡ take (length self.old - 1) self.old }
    {
        self.lists.pop();
    }

    /// Adds a child of a node at the end. An Err changes nothing.
    pub fn add(&mut self, node: usize, method: u32, number: usize) -> Result<(), NoMemory>
        requires within { node < length self.old }
        requires absent { number_under method (list_at node self.old) ≡ None }
        ensures { Becomes result self.old self.new (with_entry node (method, number) self.old) }
    {
        self.lists[node].add(method, number)
    }
}
