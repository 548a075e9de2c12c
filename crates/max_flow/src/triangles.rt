// A shorter network that can carry as much: triangles in the place of stars.
//
// A star is three pipes, one after another, that meet in a node, its middle: from a first node, to a
// second node, as much both ways, and to the sink. The old seams of a placement are stars (Kwatra et
// al. 2003). What a cut costs at a star depends on the sides of the two nodes alone, and it costs as
// much at a triangle: a pipe from the first node to the second, and one from each to the sink. The
// pipes of a node to the sink are made one, so that a network of seams is left with its cells.
//
// The middles have to be the last nodes, in the order of their pipes. Then no other pipe can meet
// them, a node's number tells whether it's one, and no table is needed for it.
//
// A flow of the shorter network is turned back into one of the stars: what leaves the two nodes
// goes through the middle. Nothing is promised of either, as nothing is of the search.

ghost use Rattle.std.specs.Prelude.{◌≡◌, ◌+◌, IfOk, length, vec_capacity, vec_len};
ghost use Rattle.max_flow.specs.Rooms.{HasRoomForPipes};

use crate::network::{Network, Pipe};
use crate::packed::PackedArcs;
use std::alloc::{AllocError, Global};

// A triangle that stands for a star: what its pipe can carry between its two nodes both ways, and
// what the pipes from each of them to the sink can.
#[derive(Clone, Copy)]
struct Triangle {
    ahead: u32,
    back: u32,
    from_first: u32,
    from_second: u32,
}

impl Triangle {
    // The triangle for a star with these legs. A leg counts for as much as the other two can carry.
    // A cut costs at the triangle what it costs at the star: `from_first` and `from_second`
    // together the leg to the sink, `ahead` and `from_first` that of the first node, `back` and
    // `from_second` that of the second.
    fn of_legs(first: u32, second: u32, down: u32) -> Triangle {
        let a = first.min(second.wrapping_add(down));
        let b = second.min(first.wrapping_add(down));
        let c = down.min(first.wrapping_add(second));
        let from_first = a.wrapping_add(c).wrapping_sub(b) / 2;
        let from_second = c.wrapping_sub(from_first);
        Triangle {
            ahead: a.wrapping_sub(from_first),
            back: b.wrapping_sub(from_second),
            from_first,
            from_second,
        }
    }
}

// Whether two pipes leave the node that another enters, the last of them to the sink.
fn meet(first: &Pipe, second: &Pipe, down: &Pipe, sink: u32) -> bool {
    let middle = first.to;
    second.from == middle && down.from == middle && down.to == sink
}

// The first middle, where so many pipes lie as those of a star do that the shorter network may have
// fewer pipes by a fifth or more. It takes no tables, so that networks of another kind lose little
// time.
fn first_middle(pipes: &[Pipe], sink: u32) -> Option<u32> {
    let mut found = None;
    let mut number = 0usize;
    let mut rest = pipes;
    'pipes: while let [first, after @ ..] = rest {
        rest = after;
        if let [second, down, beyond @ ..] = after
            && meet(first, second, down, sink)
        {
            found = found.or(Some(first.to));
            number = number.wrapping_add(1);
            rest = beyond;
        }
    }
    if number >= pipes.len() / 10 {
        found
    } else {
        None
    }
}

/// The stars of a network.
#[derive(Drop)]
pub struct Stars {
    // The first middle. The nodes before it are those of the shorter network.
    middle: u32,
    // What the triangles can send to the sink from each of these. `turn_back` counts in it what they
    // have to send.
    to_sink: Vec<u32>,
}

/// The shorter network of one with many stars: each pipe that's in no star, and for each star that
/// between its two nodes, in the order of the network, and then those to the sink in the order of
/// the nodes.
#[derive(Drop)]
pub struct Shorter {
    pipes: Vec<Pipe>,
    stars: Stars,
}

impl Stars {
    // Adds to what a node can send to the sink.
    fn add_to_sink(&mut self, node: u32, amount: u32) {
        if let Some(entry) = self.to_sink.get_mut(node as usize) {
            *entry = entry.wrapping_add(amount);
        }
    }

    // Takes from what a node has to send to the sink, at most so much. Returns how much that is.
    fn take(&mut self, node: u32, most: u32) -> u32 {
        let Some(entry) = self.to_sink.get_mut(node as usize) else {
            return 0;
        };
        let amount = most.min(*entry);
        *entry = entry.wrapping_sub(amount);
        amount
    }

    // Reads what the nodes send to the sink, from what is left for the arcs against the last pipes
    // of the shorter network. Returns how many pipes come before them.
    fn read_sent(&mut self, short: usize, backward: &[u32]) -> usize {
        let mut left = short;
        let sent = self.to_sink.as_mut_slice();
        for node in (0..sent.len()).rev() {
            if sent[node] > 0 {
                left = left.wrapping_sub(1);
                sent[node] = backward.get(left).copied().unwrap_or(0);
            }
        }
        left
    }

    // What a flow leaves for the arcs against the pipes of a star, where it leaves so much for the
    // arc against the pipe between the two nodes.
    fn left_at(&mut self, first: &Pipe, second: &Pipe, down: &Pipe, against: u32) -> [u32; 3] {
        let triangle = Triangle::of_legs(first.ahead, second.ahead, down.ahead);
        let across = against.wrapping_sub(triangle.back);
        let from_first = self.take(first.from, triangle.from_first);
        let from_second = self.take(second.to, triangle.from_second);
        let into = across.wrapping_add(from_first);
        [
            first.back.wrapping_add(into),
            second.back.wrapping_add(across.wrapping_sub(from_second)),
            down.back.wrapping_add(from_first.wrapping_add(from_second)),
        ]
    }

    /// Turns a flow of the shorter network into one of the network. `backward` begins with what it
    /// leaves for the arc against each of so many pipes of the shorter one, and then has it for
    /// each pipe of the network.
    pub fn turn_back(&mut self, pipes: &[Pipe], short: usize, backward: &mut [u32])
        requires { length backward.old ≡ length pipes.now }
    {
        let mut left = self.read_sent(short, backward);
        let mut index = pipes.len();
        'pipes: while index > 0 {
            index -= 1;
            left = left.wrapping_sub(1);
            let against = backward.get(left).copied().unwrap_or(0);
            if pipes[index].from < self.middle || index < 2 {
                backward[index] = against;
            } else {
                index -= 2;
                let [first, second, down] = self.left_at(
                    &pipes[index],
                    &pipes[index + 1],
                    &pipes[index + 2],
                    against,
                );
                backward[index] = first;
                backward[index + 1] = second;
                backward[index + 2] = down;
            }
        }
    }
}

impl Shorter {
    // Adds the triangle for a star, but for its pipes to the sink.
    fn add_star(&mut self, first: &Pipe, second: &Pipe, down: &Pipe)
        requires { HasRoomForPipes 1 self.old.pipes }
        ensures len { vec_len self.new.pipes ≡ vec_len self.old.pipes + 1 }
        ensures capacity { vec_capacity self.new.pipes ≡ vec_capacity self.old.pipes }
    {
        let triangle = Triangle::of_legs(first.ahead, second.ahead, down.ahead);
        self.stars.add_to_sink(first.from, triangle.from_first);
        self.stars.add_to_sink(second.to, triangle.from_second);
        self.pipes.push_reserved(Pipe {
            from: first.from,
            to: second.to,
            ahead: triangle.ahead,
            back: triangle.back,
        });
    }

    // Reads the pipes of a network. Returns whether all of them that meet a middle are stars in the
    // order of the middles.
    fn read(&mut self, pipes: &[Pipe], sink: u32) -> bool
        requires { HasRoomForPipes (length pipes.now) self.old.pipes }
    {
        let mut last = self.stars.middle.wrapping_sub(1);
        let mut rest = pipes;
        'pipes: while let [first, after @ ..] = rest {
            if first.from.max(first.to) < self.stars.middle {
                self.pipes.push_reserved(*first);
                rest = after;
                continue;
            }
            let [second, down, beyond @ ..] = after else {
                return false;
            };
            // All three have to be a star whose middle comes after the last one.
            if !meet(first, second, down, sink)
                || first.to <= last
                || first.from.max(second.to) >= self.stars.middle
                || first.ahead != first.back
                || second.ahead != second.back
            {
                return false;
            }
            self.add_star(first, second, down);
            last = first.to;
            rest = beyond;
        }
        true
    }

    // Makes the network shorter. Returns whether it has fewer pipes by a fifth or more.
    fn shorten(&mut self, pipes: &[Pipe], sink: u32) -> Result<bool, AllocError>
        requires { HasRoomForPipes (length pipes.now) self.old.pipes }
    {
        if !self.read(pipes, sink) {
            return Ok(false);
        }
        let mut node = 0u32;
        for amount in self.stars.to_sink.iter() {
            if *amount > 0 {
                self.pipes.push(Pipe {
                    from: node,
                    to: sink,
                    ahead: *amount,
                    back: 0,
                })?;
            }
            node = node.wrapping_add(1);
        }
        Ok(self.pipes.len() <= pipes.len() - pipes.len() / 5)
    }

    /// The shorter network of one, where it has fewer pipes by a fifth or more.
    pub fn find(alloc: Global, network: &Network) -> Result<Option<Shorter>, AllocError> {
        let pipes = network.pipes();
        let (source, sink) = (network.source(), network.sink());
        let Some(middle) = first_middle(pipes, sink) else {
            return Ok(None);
        };
        if source.max(sink) >= middle {
            return Ok(None);
        }
        let to_sink = vec![in alloc; 0u32; middle as usize]?;
        let mut shorter = Shorter {
            pipes: Vec::with_capacity(alloc, pipes.len())?,
            stars: Stars { middle, to_sink },
        };
        let is_short = shorter.shorten(pipes, sink)?;
        Ok(if is_short { Some(shorter) } else { None })
    }

    /// The arcs of the shorter network, with nothing flowing, and the stars. Its pipes are given
    /// back.
    pub fn pack(self, alloc: Global) -> Result<(PackedArcs, Stars), AllocError> {
        let arcs = PackedArcs::pack(alloc, self.stars.middle as usize, &self.pipes)?;
        Ok((arcs, self.stars))
    }
}
