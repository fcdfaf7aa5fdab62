//! A stack that contracts see as a list with the top first.

ghost use Rattle.std.specs.Prelude.{◌≡◌, ◌∷◌, [], ◌==◌, length, reverse, is_ok, IfOk, IfErr, MatchOption, slice_get, if◌then◌else◌};
ghost use Rattle.std.specs.Option.{option_copied};

use std::alloc::{AllocError, AllocFailed, Global};
use std::marker::Model;

/// A stack of items. A clause sees the list of its items, the top first.
#[derive(Debug, Drop)]
pub struct Stack<T> {
    items: Vec<T>,
}

impl<T> Model for Stack<T> {
    ghost use Rattle.std.specs.Prelude.{List, reverse};

    ghost Value = { List T };

    ghost view = { λ s. reverse s.items.items };
}

impl<T> Stack<T> {
    /// An empty stack on the allocator. It allocates nothing.
    pub fn new(alloc: Global) -> Stack<T>
        ensures { result ≡ [] }
    {
        Stack {
            items: Vec::new(alloc),
        }
    }

    /// An empty stack with room for at least as many items.
    pub fn with_capacity(alloc: Global, capacity: usize) -> Result<Stack<T>, AllocError>
        ensures { IfOk result (λ a. a ≡ []) }
    {
        Ok(Stack {
            items: Vec::with_capacity(alloc, capacity)?,
        })
    }

    pub fn len(&self) -> usize
        ensures { result ≡ length self.now }
    {
        self.items.len()
    }

    pub fn is_empty(&self) -> bool
        ensures { result ≡ (length self.now == 0) }
    {
        self.items.is_empty()
    }

    /// Puts an item on top. An `Err` changes nothing and gives the item back.
    pub fn push(&mut self, value: T) -> Result<(), AllocFailed<T>>
        ensures items { self.new ≡ (if is_ok result then value ∷ self.old else self.old) }
        ensures returned { IfErr result (λ e. e.value ≡ value) }
    {
        self.items.push(value)
    }

    /// Takes the top item off, where there is one.
    pub fn pop(&mut self) -> Option<T>
        ensures { MatchOption result ((self.old ≡ []) × (self.new ≡ []))
            (λ x. self.old ≡ x ∷ self.new) }
    {
        self.items.pop()
    }

    /// The top item, where there is one.
    pub fn top(&self) -> Option<&T>
        ensures { option_copied result ≡ slice_get self.now 0 }
    {
        self.items.last()
    }
}

impl<T: Copy> Stack<T> {
    /// The item that has so many above it, copied out.
    pub fn peek(&self, above: usize) -> Option<T>
        ensures { result ≡ slice_get self.now above }
    {
        let below = self.items.len().checked_sub(above)?.checked_sub(1)?;
        self.items.get(below).copied()
    }
}
