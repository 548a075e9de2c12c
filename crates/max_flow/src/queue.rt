// The nodes that wait in a search by breadth, in two lists: one of a level, and one of what is known of the
// next. Nodes are taken from the first and put into the second, which comes in its place once all are
// taken. A ring would hold the same nodes, but takes more steps for each.

ghost use Rattle.std.specs.Prelude.{◌≡◌, ◌∷◌, ◌++◌, [], OnOk, MatchOption};

use std::alloc::{AllocError, Global};
use std::marker::Model;
use std::mem::swap;

/// Nodes that wait, the one that came first in front.
#[derive(Drop)]
pub struct Queue {
    first: Vec<u32>,
    // How many of the first list are taken.
    taken: usize,
    second: Vec<u32>,
}

impl Model for Queue {
    ghost use Rattle.std.specs.Prelude.{◌++◌, ℕ, List, drop};

    ghost Value = { List ℕ };

    ghost view = { λ a. drop a.taken a.first.items ++ a.second.items };
}

impl Queue {
    /// A queue in which none waits. It takes no memory.
    pub fn make(alloc: Global) -> Queue
        ensures { result ≡ [] }
    {
        Queue {
            first: Vec::new(alloc),
            taken: 0,
            second: Vec::new(alloc),
        }
    }

    /// Puts a node at the end. The one error is out of memory.
    #[inline(always)]
    pub fn push(&mut self, node: u32) -> Result<(), AllocError>
        ensures { OnOk result (self.new ≡ self.old ++ node ∷ []) }
    {
        // Mostly there is room, and then this saves a call.
        if self.second.len() == self.second.capacity() {
            self.second.reserve(1)?;
        }
        self.second.push_reserved(node);
        Ok(())
    }

    /// Takes the first node, if any waits.
    #[inline(always)]
    pub fn pop(&mut self) -> Option<u32>
        ensures { MatchOption result (self.old ≡ []) (λ node. self.old ≡ node ∷ self.new) }
    {
        if self.taken >= self.first.len() {
            if self.second.is_empty() {
                return None;
            }
            self.first.clear();
            swap(&mut self.first, &mut self.second);
            self.taken = 0;
        }
        let node = self.first[self.taken];
        self.taken += 1;
        Some(node)
    }
}
