// Worked examples of max_flow, and networks that another program solved.
use max_flow::{Network, Pipe, Solved, solve};
use std::alloc::{AllocError, Global};

// A pipe of a table: its two ends, and what it can carry ahead and back.
type Row = (u32, u32, u32, u32);

// How many nodes there are, the pipes, the flow of each, the value, and which nodes are on the source's side.
type Solution<'a> = (u32, &'a [Row], &'a [i32], u64, &'a [bool]);

const SOLUTIONS: &[Solution<'static>] = &[
    // A narrow second pipe.
    (
        3,
        &[(0, 2, 5, 0), (2, 1, 3, 0)],
        &[3, 3],
        3,
        &[true, false, true],
    ),
    // Two equal pipes.
    (
        3,
        &[(0, 2, 3, 0), (2, 1, 3, 0)],
        &[3, 3],
        3,
        &[true, false, false],
    ),
    // No pipes.
    (3, &[], &[], 0, &[true, false, false]),
    // Pipes beside one another.
    (
        2,
        &[(0, 1, 4, 7), (0, 1, 5, 0), (1, 0, 2, 6)],
        &[4, 5, -6],
        15,
        &[true, false],
    ),
    // Pipes from a node to itself.
    (
        3,
        &[
            (0, 0, 9, 9),
            (0, 2, 4, 0),
            (2, 2, 9, 0),
            (2, 1, 8, 0),
            (1, 1, 3, 3),
        ],
        &[0, 4, 0, 4, 0],
        4,
        &[true, false, false],
    ),
    // Nodes apart and capacities of 0.
    (
        5,
        &[(3, 4, 7, 7), (0, 2, 6, 0), (2, 1, 0, 0), (4, 1, 5, 5)],
        &[0, 0, 0, 0],
        0,
        &[true, false, true, false, false],
    ),
    // Back along pipes.
    (
        4,
        &[(2, 0, 0, 5), (3, 2, 9, 4), (1, 3, 2, 65536)],
        &[-4, -4, -4],
        4,
        &[true, false, true, false],
    ),
];

// The network with these pipes whose source is node 0 and whose sink is node 1. What can't be a pipe is left out.
fn network_of(alloc: Global, nodes: u32, pipes: &[Row]) -> Result<Network, AllocError> {
    if nodes < 2 || pipes.len() > 4096 {
        return Err(AllocError);
    }
    let mut network = Network::make(alloc, nodes, 0, 1, pipes.len())?;
    'pipes: for (from, to, ahead, back) in pipes {
        if *from < nodes && *to < nodes && *ahead <= 65536 && *back <= 65536 {
            network.add_pipe(Pipe {
                from: *from,
                to: *to,
                ahead: *ahead,
                back: *back,
            });
        }
    }
    Ok(network)
}

fn solved(alloc: Global, nodes: u32, pipes: &[Row]) -> Result<Solved, AllocError> {
    let network = network_of(alloc, nodes, pipes)?;
    solve(alloc, &network)
}

fn is_solution(alloc: Global, of: &Solution) -> Result<bool, AllocError> {
    let (nodes, pipes, flow, value, side) = *of;
    let solved = solved(alloc, nodes, pipes)?;
    let is_flow = solved.flow.as_slice() == flow && solved.value == value;
    Ok(is_flow && solved.source_side.as_slice() == side)
}

/// The number of the first network of the table, from 0, that is solved otherwise.
pub(crate) fn wrong_solution(alloc: Global) -> Result<Option<usize>, AllocError> {
    for (i, of) in SOLUTIONS.iter().enumerate() {
        if !is_solution(alloc, of)? {
            return Ok(Some(i));
        }
    }
    Ok(None)
}

// A square of cells: how many it has on each axis, the seed of its capacities, whether there are stars in it and how many
// nodes it has; and the value of a greatest flow, and how many nodes are on the source's side.
type Square = (u32, u64, bool, u32, u64, usize);

// The values and the sizes of the source sides are those that a solver by augmenting paths in Python found.
const SQUARES: &[Square] = &[
    (16, 2006, false, 258, 14459, 177),
    (12, 0, true, 410, 6574, 20),
    (12, 1, true, 410, 6120, 24),
    (12, 2, true, 410, 6357, 21),
];

// The next of a row of numbers that look random, below 2^31.
fn next(state: &mut u64) -> u32 {
    *state = state
        .wrapping_mul(6_364_136_223_846_793_005)
        .wrapping_add(1_442_695_040_888_963_407);
    (*state >> 33) as u32
}

// Adds what lies between two cells, as the next numbers of a row have it. Without stars this is a pipe. Else it is a
// star to both and to the sink whose legs a triangle fits, one with a leg that is wider than the others together or
// carries nothing, or a pipe alone. Returns the next middle node.
fn add_between(
    pipes: &mut Vec<Row>,
    state: &mut u64,
    ends: (u32, u32),
    stars: bool,
    middle: u32,
) -> Result<u32, AllocError> {
    let (from, to) = ends;
    if !stars {
        let ahead = next(state) % 3061;
        pipes.push((from, to, ahead, next(state) % 3061))?;
        return Ok(middle);
    }
    let (a, b) = (next(state) % 500, next(state) % 500);
    let kind = next(state) % 8;
    if kind == 0 {
        pipes.push((from, to, a, b))?;
        return Ok(middle);
    }
    let most = (a + b - a.abs_diff(b)).wrapping_add(1);
    let down = match kind {
        1 => 1500,
        2 => 0,
        _ => a
            .abs_diff(b)
            .wrapping_add(next(state).checked_rem(most).unwrap_or(0)),
    };
    let back = next(state) % 2;
    pipes.extend_from_slice(&[
        (from, middle, a, a),
        (middle, to, b, b),
        (middle, 1, down, back),
    ])?;
    Ok(middle.wrapping_add(1))
}

// Adds the pipes of a cell of a square, the source at the first column and the sink at the last. Returns the next middle
// node.
fn add_cell(
    pipes: &mut Vec<Row>,
    state: &mut u64,
    side: u32,
    cell: u32,
    stars: bool,
    middle: u32,
) -> Result<u32, AllocError> {
    let (x, y) = (cell % side.max(1), cell / side.max(1));
    let node = cell.wrapping_add(2);
    let mut middle = middle;
    if x == 0 {
        pipes.push((0, node, 65536, 0))?;
    }
    if x.wrapping_add(1) < side {
        middle = add_between(pipes, state, (node, node.wrapping_add(1)), stars, middle)?;
    }
    if y.wrapping_add(1) < side {
        middle = add_between(pipes, state, (node, node.wrapping_add(side)), stars, middle)?;
    }
    if x.wrapping_add(1) == side {
        let most = if stars { next(state) % 2000 } else { 65536 };
        pipes.push((node, 1, most, 0))?;
    }
    Ok(middle)
}

// The pipes of a square.
fn pipes_of(alloc: Global, side: u32, seed: u64, stars: bool) -> Result<Vec<Row>, AllocError> {
    let count = side.wrapping_mul(side);
    let mut middle = count.wrapping_add(2);
    let mut state = seed;
    let mut pipes = Vec::new(alloc);
    for cell in 0..count {
        middle = add_cell(&mut pipes, &mut state, side, cell, stars, middle)?;
    }
    Ok(pipes)
}

fn is_square(alloc: Global, square: &Square) -> Result<bool, AllocError> {
    let (side, seed, stars, nodes, value, count) = *square;
    let pipes = pipes_of(alloc, side, seed, stars)?;
    let solved = solved(alloc, nodes, &pipes)?;
    let inside = solved.source_side.as_slice().iter().filter(|it| **it);
    Ok(solved.value == value && inside.count() == count)
}

/// The number of the first square, from 0, that is solved otherwise.
pub(crate) fn wrong_square(alloc: Global) -> Result<Option<usize>, AllocError> {
    for (i, square) in SQUARES.iter().enumerate() {
        if !is_square(alloc, square)? {
            return Ok(Some(i));
        }
    }
    Ok(None)
}
