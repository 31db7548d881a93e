//! Queues that reuse their memory from the start when they are empty.
ghost use Rattle.std.specs.Prelude.{◌≡◌, ◌<◌, ◌≤◌, ◌+◌, ◌++◌, ◌∷◌, [], drop, length, option_to_list, slice_get};
ghost use Rattle.std.specs.Prelude.{MatchResult, IfOk, IfNone};

use std::alloc::{AllocError, Global};
use std::marker::Model;

/// The initial room of a queue, in items. It lies beside the node's other data, so few queues ever move to other pages.
const FIRST_ROOM: usize = 32;

/// Items in order of arrival. An empty queue starts at its first place again, so it uses the same memory each time.
#[derive(Drop)]
pub struct Queue<T> {
    list: Vec<T>,
    /// How many items at the front of the list were taken.
    taken: usize,
}

impl<T> Model for Queue<T> {
    ghost use Rattle.std.specs.Prelude.{◌≤◌, drop, length};
    ghost use Rattle.tora_sim.specs.Nodes.{ItemList};

    ghost Value = { ItemList T };

    ghost view = { λ q. record { items = drop q.taken q.list.items } };

    ghost invariant = { λ q. q.taken ≤ length q.list.items };
}

impl<T: Copy + Drop> Queue<T> {
    /// An empty queue.
    ///
    /// # Errors
    /// Memory ran out.
    pub fn new(alloc: Global) -> Result<Queue<T>, AllocError>
        ensures { IfOk result (λ queue. queue.items ≡ []) }
    {
        let list = Vec::with_capacity(alloc, FIRST_ROOM)?;
        Ok(Queue { list, taken: 0 })
    }

    /// The number of items.
    #[inline(always)]
    pub fn len(&self) -> usize
        ensures { result ≡ length self.now.items }
    {
        self.list.len() - self.taken
    }

    /// The first item, which stays in the queue; `None` if there is none.
    pub fn first(&self) -> Option<T>
        ensures { result ≡ slice_get self.now.items 0 }
    {
        self.list.get(self.taken).copied()
    }

    /// Appends an item.
    ///
    /// # Errors
    /// Memory ran out. Nothing changes then.
    pub fn push(&mut self, item: T) -> Result<(), AllocError>
        ensures { MatchResult result (λ _. self.new.items ≡ self.old.items ++ item ∷ []) (λ _. self.new ≡ self.old) }
    {
        if self.list.len() == self.list.capacity() {
            self.list.drain(..self.taken);
            self.taken = 0;
        }
        self.list.reserve(1)?;
        self.list.push_reserved(item);
        Ok(())
    }

    /// Removes and returns the first item; `None` if there is none.
    #[inline(always)]
    pub fn pop(&mut self) -> Option<T>
        ensures items { self.old.items ≡ option_to_list result ++ self.new.items }
        ensures none { IfNone result (self.old.items ≡ []) }
    {
        let Some(item) = self.first() else {
            return None;
        };
        let_go(&mut self.list, &mut self.taken);
        Some(item)
    }

    /// Removes all items.
    pub fn clear(&mut self)
        ensures { self.new.items ≡ [] }
    {
        self.list.clear();
        self.taken = 0;
    }
}

/// Removes the first item that was not taken yet. If none is left, the list becomes empty.
#[inline(always)]
fn let_go<T: Drop>(list: &mut Vec<T>, taken: &mut usize)
    requires { taken.old < length list.old.items }
    ensures rest { drop taken.new list.new.items ≡ drop (taken.old + 1) list.old.items }
    ensures within { taken.new ≤ length list.new.items }
{
    *taken += 1;
    if *taken == list.len() {
        list.clear();
        *taken = 0;
    }
}
