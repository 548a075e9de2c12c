// A flow that comes of an excess: the arcs of the source are sent all that they can carry, and each node hands on
// what has come to it, downwards by a height that is at most its distance from the sink. A node from which nothing
// leads down is raised. What can't reach the sink goes back to the source in the same way. After Goldberg and
// Tarjan, "A new approach to the maximum-flow problem" (1988). The highest node comes first, heights are made exact
// now and then, and a level that is left empty cuts off what was raised from it, as in Cherkassky and Goldberg,
// "On implementing the push-relabel method for the maximum flow problem" (1997). Where paths are long it takes less
// than search trees, since what comes over many arcs goes on at once.
//
// Nothing is promised of what it finds, as nothing is of the trees.

use crate::packed::{Arc, PackedArcs, other_way};
use std::alloc::{AllocError, Global};
use std::collections::VecDeque;

// A node: what has come to it and not left it, and the place of the arc from which it goes on. `after` is the next
// node of its height that waits, or says that there is none or that it doesn't wait itself.
#[derive(Clone, Copy)]
struct Node {
    height: u32,
    excess: u32,
    current: u32,
    after: u32,
}

// The height of a node that can't reach the end. No node that waits is as high as there are nodes.
const TOP: u32 = u32::MAX - 1;

// What stands for no node, after the last one that waits and at a level where none does.
const NONE: u32 = u32::MAX;

// What stands after a node that doesn't wait.
const RESTS: u32 = u32::MAX - 1;

const EMPTY: Node = Node {
    height: 0,
    excess: 0,
    current: 0,
    after: RESTS,
};

// How many nodes have a height, and the first of those that wait.
#[derive(Clone, Copy)]
struct Level {
    count: u32,
    first: u32,
}

const CLEAR: Level = Level {
    count: 0,
    first: NONE,
};

// So many arcs are looked at for each node before heights are made exact again, and a raised node counts for as
// many as this.
const LOOKS: u64 = 20;

const RAISED: u64 = 12;

/// The tables of the search.
#[derive(Drop)]
pub struct Preflow {
    /// The arcs with what they can still carry.
    pub arcs: PackedArcs,
    nodes: Vec<Node>,
    levels: Vec<Level>,
    // The nodes whose arcs come next while heights are measured.
    queue: VecDeque<u32>,
    // No node that waits is higher.
    highest: u32,
    // The end from which excess comes, and the one to which it goes.
    from: u32,
    to: u32,
    // How many arcs were looked at since heights were exact, and before.
    since: u64,
    work: u64,
}

impl Preflow {
    /// Makes the tables for a network with these arcs.
    pub fn make(alloc: Global, arcs: PackedArcs) -> Result<Preflow, AllocError> {
        let nodes = vec![in alloc; EMPTY; arcs.nodes()]?;
        let levels = vec![in alloc; CLEAR; arcs.nodes()]?;
        let queue = VecDeque::with_capacity(alloc, arcs.nodes())?;
        Ok(Preflow {
            arcs,
            nodes,
            levels,
            queue,
            highest: 0,
            from: 0,
            to: 0,
            since: 0,
            work: 0,
        })
    }

    #[inline(always)]
    fn node(&self, number: u32) -> Node {
        match self.nodes.get(number as usize) {
            Some(entry) => *entry,
            None => EMPTY,
        }
    }

    #[inline(always)]
    fn set_node(&mut self, number: u32, value: Node) {
        if let Some(entry) = self.nodes.get_mut(number as usize) {
            *entry = value;
        }
    }

    // Puts a node that doesn't wait, and isn't an end, first among those of its height that do.
    #[inline(always)]
    fn wake(&mut self, number: u32) {
        let mut node = self.node(number);
        if node.after != RESTS || number == self.from || number == self.to {
            return;
        }
        if let Some(level) = self.levels.get_mut(node.height as usize) {
            node.after = level.first;
            level.first = number;
            self.highest = self.highest.max(node.height);
            self.set_node(number, node);
        }
    }

    // The highest node that waits. It waits no more. What stands for no node names none of the table.
    fn next_waiting(&mut self) -> Option<u32> {
        for height in (0..self.highest.wrapping_add(1)).rev() {
            let Some(level) = self.levels.get_mut(height as usize) else {
                continue;
            };
            let number = level.first;
            if let Some(node) = self.nodes.get_mut(number as usize) {
                level.first = node.after;
                node.after = RESTS;
                self.highest = height;
                return Some(number);
            }
        }
        None
    }

    // Counts a node more at a height.
    fn count(&mut self, height: u32) {
        if let Some(level) = self.levels.get_mut(height as usize) {
            level.count = level.count.wrapping_add(1);
        }
    }

    // Leaves all nodes at the top, where none waits, and all levels clear.
    fn lift_all(&mut self) {
        for node in self.nodes.as_mut_slice() {
            node.height = TOP;
            node.after = RESTS;
        }
        self.levels.as_mut_slice().fill(CLEAR);
        self.highest = 0;
        self.queue.clear();
    }

    // Gives a node its exact height, and lets it wait where it has an excess.
    fn settle(&mut self, number: u32, height: u32) {
        let mut node = self.node(number);
        node.height = height;
        node.current = self.arcs.places_of(number).start;
        self.set_node(number, node);
        self.count(height);
        let _ = self.queue.push_back(number);
        if node.excess > 0 {
            self.wake(number);
        }
    }

    // Settles the nodes from which an arc that can carry more leads to this one.
    fn settle_before(&mut self, number: u32) {
        let height = self.node(number).height.wrapping_add(1);
        for place in self.arcs.places_of(number) {
            let arc = self.arcs.at(place);
            let leads = self.arcs.room(other_way(arc.number)) > 0;
            if leads && arc.head != self.from && self.node(arc.head).height == TOP {
                self.settle(arc.head, height);
            }
        }
    }

    // Makes all heights exact: how many arcs lead from a node to the end.
    fn measure(&mut self) {
        self.lift_all();
        self.settle(self.to, 0);
        for _ in 0..self.nodes.len() {
            let Some(number) = self.queue.pop_front() else {
                break;
            };
            self.settle_before(number);
        }
        self.work = self.work.wrapping_add(self.since);
        self.since = 0;
    }

    // Hands on the excess of a node over its arcs from the current one on, by as much as each that leads down can
    // carry. Returns what is left.
    fn hand_on(&mut self, number: u32) -> u32 {
        let mut node = self.node(number);
        for place in node.current..self.arcs.places_of(number).end {
            self.since = self.since.wrapping_add(1);
            node.current = place;
            let arc = self.arcs.at(place);
            let amount = node.excess.min(self.arcs.room(arc.number));
            let mut next = self.node(arc.head);
            if amount > 0 && next.height.wrapping_add(1) == node.height {
                self.arcs.push(arc.number, amount);
                next.excess = next.excess.wrapping_add(amount);
                self.set_node(arc.head, next);
                self.wake(arc.head);
                node.excess = node.excess.wrapping_sub(amount);
            }
            if node.excess == 0 {
                break;
            }
        }
        self.set_node(number, node);
        node.excess
    }

    // Raises a node to the least height from which an arc leads down, or to the top if it leaves none at its height,
    // and lets it wait again.
    fn raise(&mut self, number: u32) {
        let mut node = self.node(number);
        let mut next = TOP;
        node.current = 0;
        for place in self.arcs.places_of(number) {
            let arc = self.arcs.at(place);
            let above = self.node(arc.head).height.wrapping_add(1);
            if above < next && self.arcs.room(arc.number) > 0 {
                next = above;
                node.current = place;
            }
        }
        self.since = self.since.wrapping_add(RAISED);
        if let Some(level) = self.levels.get_mut(node.height as usize) {
            level.count = level.count.wrapping_sub(1);
            if level.count == 0 {
                next = TOP;
            }
        }
        node.height = next;
        self.set_node(number, node);
        self.count(next);
        self.wake(number);
    }

    // Moves all excess that can get there to an end, over at most about `limit` arcs.
    fn drain(&mut self, from: u32, to: u32, limit: u64) {
        self.from = from;
        self.to = to;
        self.work = 0;
        let most = LOOKS.saturating_mul(self.nodes.len() as u64);
        self.measure();
        for _ in 0..limit {
            let Some(number) = self.next_waiting() else {
                return;
            };
            if self.hand_on(number) > 0 {
                self.raise(number);
            }
            if self.since > most {
                self.measure();
                if self.work > limit {
                    return;
                }
            }
        }
    }

    /// Sends flow from the source to the sink, over at most about `limit` arcs, and back again what can't get there.
    pub fn send(&mut self, source: u32, sink: u32, limit: u64) {
        // At first the arcs of the source carry all that they can.
        for place in self.arcs.places_of(source) {
            let arc = self.arcs.at(place);
            let amount = self.arcs.room(arc.number);
            if amount > 0 && arc.head != source {
                self.arcs.push(arc.number, amount);
                let mut node = self.node(arc.head);
                node.excess = node.excess.wrapping_add(amount);
                self.set_node(arc.head, node);
            }
        }
        self.drain(source, sink, limit);
        self.drain(sink, source, limit);
    }
}
