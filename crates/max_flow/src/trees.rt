// A flow that two search trees find, one from the source and one from the sink, after Boykov and
// Kolmogorov, "An experimental comparison of min-cut/max-flow algorithms for energy minimization in
// vision" (2004). On the networks of images it's many times as fast as level graphs.
//
// Nothing is promised of what it finds: `checking.rt` tells whether it's a flow, and level graphs go on
// from there. The search gives up once it has looked at more arcs than it may. An excess may go on then
// (`preflow.rt`).

use crate::packed::{Arc, PackedArcs, other_way, push_over};
use std::alloc::{AllocError, Global};
use std::collections::VecDeque;

// The tree that a node is in. The number of a tree is the bit to turn in the number of an arc that leaves one of its
// nodes, for the arc over which it grows. That of the other tree is the bit to turn in the number of an arc from a
// node to its parent, for the arc over which flow goes.
const SOURCE: u8 = 0;

const SINK: u8 = 1;

const NEITHER: u8 = 2;

// A node of a tree hangs on its parent, over the arc to it that has this number. How far it is from the end of its
// tree was true at its stamp. One that is farther than its number can say has the greatest distance.
#[derive(Clone, Copy)]
struct Node {
    parent: u32,
    number: u32,
    stamp: u32,
    distance: u16,
    tree: u8,
    active: bool,
}

// What stands in the place of a parent: for a node that hangs on none, for one whose arc can carry no more, so that
// it waits for another parent, and for an end of the network itself. The table of nodes is shorter than these.
const NOTHING: u32 = u32::MAX;

const LOST: u32 = u32::MAX - 1;

const END: u32 = u32::MAX - 2;

const LOOSE: Node = Node {
    parent: NOTHING,
    number: 0,
    stamp: 0,
    distance: 0,
    tree: NEITHER,
    active: false,
};

impl Node {
    // Hangs it on another node, over the arc to that with a number, at a distance that is true at a stamp.
    #[inline(always)]
    fn hang(&mut self, parent: u32, number: u32, distance: u16, stamp: u32) {
        self.parent = parent;
        self.number = number;
        self.distance = distance;
        self.stamp = stamp;
    }
}

// So many arcs of a node are looked at again after a path through it: what hangs on it may then hang nearer
// to the end of its tree.
const FEW: u32 = 16;

/// The tables of the search.
#[derive(Drop)]
pub struct Trees {
    /// The arcs with what they can still carry.
    pub arcs: PackedArcs,
    nodes: Vec<Node>,
    // Nodes from which a tree may grow.
    active: VecDeque<u32>,
    // Nodes that wait for a parent.
    lost: VecDeque<u32>,
    time: u32,
    // How many arcs the search has looked at.
    work: u64,
}

impl Trees {
    /// Makes the tables for a network with these arcs.
    pub fn make(alloc: Global, arcs: PackedArcs) -> Result<Trees, AllocError> {
        let nodes = vec![in alloc; LOOSE; arcs.nodes()]?;
        let active = VecDeque::with_capacity(alloc, nodes.len())?;
        let lost = VecDeque::with_capacity(alloc, nodes.len())?;
        Ok(Trees {
            arcs,
            nodes,
            active,
            lost,
            time: 0,
            work: 0,
        })
    }

    #[inline(always)]
    fn node(&self, node: u32) -> Node {
        match self.nodes.get(node as usize) {
            Some(entry) => *entry,
            None => LOOSE,
        }
    }

    // Counts arcs that were looked at.
    fn count(&mut self, looked: u32) {
        self.work = self.work.wrapping_add(u64::from(looked));
    }

    // Lets a tree grow from a node, over its arcs from a place on, or over all of them where few come before it. Returns
    // the place of the arc where the trees meet.
    fn grow(&mut self, number: u32, from: u32) -> Option<u32> {
        let node = self.node(number);
        let distance = node.distance.saturating_add(1);
        let outward = u32::from(node.tree);
        let mut places = self.arcs.places_of(number);
        if from > places.start.wrapping_add(FEW) {
            places.start = from;
        }
        let mut next = places.start;
        let mut meeting = None;
        for arc in self.arcs.over(&places) {
            let place = next;
            next = place.wrapping_add(1);
            if self.arcs.room(arc.number ^ outward) == 0 {
                continue;
            }
            let Some(other) = self.nodes.get_mut(arc.head as usize) else {
                continue;
            };
            if other.tree == node.tree {
                if other.stamp > node.stamp || other.distance <= distance {
                    continue;
                }
            } else if other.tree == NEITHER {
                other.tree = node.tree;
                if !other.active {
                    other.active = true;
                    let _ = self.active.push_back(arc.head);
                }
            } else {
                meeting = Some(place);
                break;
            }
            other.hang(number, other_way(arc.number), distance, node.stamp);
        }
        self.count(next.wrapping_sub(places.start));
        meeting
    }

    // The least that the arcs between a node and the end of its tree can carry, at most `most`, or 0 where the
    // node hangs on no end.
    fn least_room(&self, from: u32, tree: u8, most: u32) -> u32 {
        let inward = other_way(u32::from(tree));
        let mut least = most;
        let mut last = self.node(from);
        for _ in 0..self.nodes.len() {
            let Some(parent) = self.nodes.get(last.parent as usize) else {
                break;
            };
            least = least.min(self.arcs.room(last.number ^ inward));
            last = *parent;
        }
        if last.parent == END { least } else { 0 }
    }

    // Sends an amount over the arcs between a node and the end of its tree. Nodes whose arc can carry no
    // more lose their parent.
    fn push_along(&mut self, from: u32, tree: u8, amount: u32) {
        let inward = other_way(u32::from(tree));
        let nodes = self.nodes.as_mut_slice();
        let rooms = self.arcs.rooms.as_mut_slice();
        let mut last = from;
        let mut steps = 0u32;
        for _ in 0..nodes.len() {
            let Some(node) = nodes.get_mut(last as usize) else {
                break;
            };
            let parent = node.parent;
            if parent >= END {
                break;
            }
            if push_over(rooms, node.number ^ inward, amount) {
                node.parent = LOST;
                let _ = self.lost.push_front(last);
            }
            last = parent;
            steps = steps.wrapping_add(1);
        }
        self.count(steps);
    }

    // How far a node is from the end of its tree, or None where it hangs on none: as many steps as lead to a node
    // whose distance was noted at this time, and what was noted there, or to the end itself.
    fn distance(&mut self, from: u32) -> Option<u16> {
        let mut node = self.node(from);
        let mut steps = 0u32;
        for _ in 0..self.nodes.len() {
            if node.stamp == self.time || node.parent >= END {
                break;
            }
            node = self.node(node.parent);
            steps = steps.wrapping_add(1);
        }
        self.count(steps.wrapping_add(1));
        let noted = if node.stamp == self.time {
            node.distance
        } else if node.parent == END {
            1
        } else {
            return None;
        };
        let all = steps.wrapping_add(u32::from(noted));
        Some(all.min(u32::from(u16::MAX)) as u16)
    }

    // Notes the distances of the nodes from one to the first whose distance was noted at this time, or to the end.
    fn note_distances(&mut self, from: u32, distance: u16) {
        let time = self.time;
        let nodes = self.nodes.as_mut_slice();
        let mut left = distance;
        let mut last = from;
        for _ in 0..nodes.len() {
            let Some(node) = nodes.get_mut(last as usize) else {
                return;
            };
            if node.stamp == time {
                return;
            }
            node.distance = left;
            node.stamp = time;
            left = left.saturating_sub(1);
            last = node.parent;
        }
    }

    // The arc over which a node that lost its parent hangs nearest to the end of its tree, or the first over which
    // it hangs no farther from it than it did, and how far the node is that it enters.
    fn nearest_parent(&mut self, number: u32, tree: u8) -> Option<(Arc, u16)> {
        let inward = other_way(u32::from(tree));
        let mut best = None;
        let mut least = u16::MAX;
        let before = self.node(number).distance.max(2);
        let places = self.arcs.places_of(number);
        let mut next = places.start;
        for place in places.start..places.end {
            next = place.wrapping_add(1);
            let arc = self.arcs.at(place);
            if self.arcs.room(arc.number ^ inward) == 0 || self.node(arc.head).tree != tree {
                continue;
            }
            let Some(distance) = self.distance(arc.head) else {
                continue;
            };
            self.note_distances(arc.head, distance);
            if best.is_none() || distance < least {
                least = distance;
                best = Some((arc, distance));
            }
            if distance < before {
                break;
            }
        }
        self.count(next.wrapping_sub(places.start));
        best
    }

    // Takes a node out of its tree. What hangs on it loses its parent and waits for another, and its other neighbours
    // may grow.
    fn set_loose(&mut self, number: u32, tree: u8) {
        let inward = other_way(u32::from(tree));
        let places = self.arcs.places_of(number);
        self.count(places.end.saturating_sub(places.start));
        for place in places {
            let arc = self.arcs.at(place);
            let Some(other) = self.nodes.get_mut(arc.head as usize) else {
                continue;
            };
            if other.tree != tree {
                continue;
            }
            if !other.active && self.arcs.room(arc.number ^ inward) > 0 {
                other.active = true;
                let _ = self.active.push_back(arc.head);
            }
            if other.parent == number && other.number == other_way(arc.number) {
                other.parent = LOST;
                let _ = self.lost.push_back(arc.head);
            }
        }
        if let Some(entry) = self.nodes.get_mut(number as usize) {
            let active = entry.active;
            *entry = Node { active, ..LOOSE };
        }
    }

    // Finds parents for the nodes that lost theirs, or takes them out of their tree.
    fn adopt_all(&mut self, limit: u64) {
        for _ in 0..limit {
            let Some(number) = self.lost.pop_front() else {
                return;
            };
            let tree = self.node(number).tree;
            if let Some((arc, distance)) = self.nearest_parent(number, tree) {
                let time = self.time;
                if let Some(node) = self.nodes.get_mut(number as usize) {
                    node.hang(arc.head, arc.number, distance.saturating_add(1), time);
                }
            } else {
                self.set_loose(number, tree);
            }
        }
    }

    // The node from which the trees go on, and the place of the arc from which: where they stopped, while
    // the node is in a tree. If an arc before that place leads to a node that has left the tree since,
    // the node is active, and its turn comes again.
    fn next_node(&mut self, last: Option<(u32, u32)>) -> Option<(u32, u32)> {
        if let Some((number, _)) = last
            && self.node(number).tree != NEITHER
        {
            return last;
        }
        let number = self.active.pop_front()?;
        if let Some(entry) = self.nodes.get_mut(number as usize) {
            entry.active = false;
        }
        Some((number, 0))
    }

    // Sends flow over a node's arcs to the other tree, from the arc in a place on, until there is none or the path
    // from the node to the end of its own tree can carry no more. That path is sent all of it at once. Returns
    // the place of the last arc, or None where nothing could be sent.
    fn send_from(&mut self, number: u32, place: u32, limit: u64) -> Option<u32> {
        let tree = self.node(number).tree;
        let beyond = tree ^ 1;
        let outward = u32::from(tree);
        let most = self.least_room(number, tree, u32::MAX);
        let mut sent = 0u32;
        let mut last = place;
        for _ in 0..limit {
            self.time = self.time.wrapping_add(1);
            let left = most.wrapping_sub(sent);
            let arc = self.arcs.at(last);
            let meeting = arc.number ^ outward;
            let room = left.min(self.arcs.room(meeting));
            let amount = self.least_room(arc.head, beyond, room);
            self.arcs.push(meeting, amount);
            self.push_along(arc.head, beyond, amount);
            sent = sent.wrapping_add(amount);
            if amount == 0 || amount == left || self.work > limit {
                break;
            }
            self.adopt_all(limit);
            let Some(next) = self.grow(number, last) else {
                break;
            };
            last = next;
        }
        self.push_along(number, tree, sent);
        self.adopt_all(limit);
        if sent > 0 { Some(last) } else { None }
    }

    // Makes an end of the network the beginning of its tree.
    fn plant(&mut self, number: u32, tree: u8) {
        if let Some(entry) = self.nodes.get_mut(number as usize) {
            *entry = Node {
                parent: END,
                distance: 1,
                tree,
                active: true,
                ..LOOSE
            };
            let _ = self.active.push_back(number);
        }
    }

    /// Sends flow from the source to the sink, over at most about `limit` arcs: lets the trees grow and sends flow where
    /// they meet, until they are apart. Returns whether they are, so that no more can be sent.
    pub fn send(&mut self, source: u32, sink: u32, limit: u64) -> bool {
        self.plant(source, SOURCE);
        self.plant(sink, SINK);
        let mut last = None;
        for _ in 0..limit {
            if self.work > limit {
                return false;
            }
            let Some((number, from)) = self.next_node(last) else {
                return true;
            };
            last = None;
            self.work = self.work.wrapping_add(1);
            if self.node(number).tree == NEITHER {
                continue;
            }
            let Some(place) = self.grow(number, from) else {
                continue;
            };
            let Some(place) = self.send_from(number, place, limit) else {
                return false;
            };
            last = Some((number, place));
        }
        false
    }
}
