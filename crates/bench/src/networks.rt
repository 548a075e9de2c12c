// Networks that are hard for some solvers.
ghost use Rattle.std.specs.Prelude.{◌≡◌, ◌≤◌, ◌<◌, ◌+◌, ◌-◌, ◌*◌};
ghost use Rattle.bench.specs.declared.networks.TheConstants.{MOST_DRAWN, MOST_GIVERS, MOST_ROWS, MOST_RUNGS, MOST_STEPS, RAILS, WIDE};

use crate::samples::mixed;
use max_flow::{Network, Pipe, solve};
use std::alloc::{AllocError, Global};

// The most that a pipe carries.
const WIDE: u32 = 65_536;

// The most rows of a grid.
const MOST_ROWS: u32 = 1_000;

// The most rungs of a ladder.
const MOST_RUNGS: u32 = 100_000;

// The most steps of rails that lie side by side.
const MOST_STEPS: u32 = 100_000;

// The most nodes of a network that looks drawn, and the most pipes between them.
const MOST_DRAWN: u32 = 1_000_000;

// The most givers of a comb.
const MOST_GIVERS: u32 = 10_000;

// Adds a pipe that carries as much both ways.
fn join(network: &mut Network, from: u32, to: u32, most: u32)
    requires room { 1 ≤ network.old.spare }
    requires from { from < network.old.nodes }
    requires to { to < network.old.nodes }
    requires most { most ≤ WIDE }
    ensures nodes { network.new.nodes ≡ network.old.nodes }
    ensures room { network.new.spare + 1 ≡ network.old.spare }
{
    network.add_pipe(Pipe {
        from,
        to,
        ahead: most,
        back: most,
    });
}

// Solves a network so often. The number is the value of its flow.
fn solve_often(alloc: Global, network: &Network, times: u32) -> Result<u64, AllocError> {
    let mut number = 0u64;
    for _time in 0..times {
        number = solve(alloc, network)?.value;
    }
    Ok(number)
}

// The columns of a grid.
const COLUMNS: u32 = 128;

// Adds the pipes from a cell of a grid to the cells beside and below it. The source comes before
// the first column, and the sink after the last.
fn join_cell(network: &mut Network, rows: u32, cell: u32)
    requires cell { cell < rows * COLUMNS }
    requires rows { rows ≤ MOST_ROWS }
    requires room { 3 ≤ network.old.spare }
    requires nodes { network.old.nodes ≡ rows * COLUMNS + 2 }
    ensures nodes { network.new.nodes ≡ network.old.nodes }
    ensures room { network.old.spare ≤ network.new.spare + 3 }
{
    let node = cell + 2;
    if cell % COLUMNS == 0 {
        join(network, 0, node, WIDE);
    }
    if cell % COLUMNS + 1 == COLUMNS {
        join(network, node, 1, WIDE);
    } else if node + 1 < rows * COLUMNS + 2 {
        join(network, node, node + 1, mixed(node, 1) % 1000);
    }
    if node + COLUMNS < rows * COLUMNS + 2 {
        join(network, node, node + COLUMNS, mixed(node, 2) % 1000);
    }
}

/// Solves so often a grid of so many rows whose pipes look drawn.
pub fn solve_grids(alloc: Global, rows: u32, times: u32) -> Result<u64, AllocError>
    requires { rows ≤ MOST_ROWS }
{
    let cells = rows * COLUMNS;
    let mut network = Network::make(alloc, cells + 2, 0, 1, 3 * cells as usize)?;
    for cell in 0..cells {
        join_cell(&mut network, rows, cell);
    }
    solve_often(alloc, &network, times)
}

// Adds a rung: the pipe across, and those of both rails to the rung before.
fn join_rung(network: &mut Network, rung: u32)
    requires rung { rung ≤ MOST_RUNGS }
    requires room { 3 ≤ network.old.spare }
    requires nodes { 2 * rung + 4 ≤ network.old.nodes }
    ensures nodes { network.new.nodes ≡ network.old.nodes }
    ensures room { network.new.spare + 3 ≡ network.old.spare }
{
    let left = 2 * rung + 2;
    join(network, left - 2, left, WIDE);
    join(network, left, left + 1, 1);
    join(network, left + 1, left - 1, WIDE);
}

/// Solves a ladder so often: from the source one rail leads up, and the other down to the sink. Each rung carries 1, so
/// that each path is longer than the one before.
pub fn solve_ladders(alloc: Global, rungs: u32, times: u32) -> Result<u64, AllocError>
    requires { rungs ≤ MOST_RUNGS }
{
    let mut network = Network::make(alloc, 2 * rungs + 2, 0, 1, 3 * rungs as usize)?;
    for rung in 0..rungs {
        join_rung(&mut network, rung);
    }
    solve_often(alloc, &network, times)
}

// The rails of a long thin grid.
const RAILS: u32 = 4;

// Adds the pipes from a cell of a long thin grid to the cell of the next rail and to that of the next step. The
// source comes before the first step, and the sink after the last.
fn join_rail(network: &mut Network, steps: u32, cell: u32)
    requires cell { cell < steps * RAILS }
    requires steps { steps ≤ MOST_STEPS }
    requires room { 3 ≤ network.old.spare }
    requires nodes { network.old.nodes ≡ steps * RAILS + 2 }
    ensures nodes { network.new.nodes ≡ network.old.nodes }
    ensures room { network.old.spare ≤ network.new.spare + 3 }
{
    let node = cell + 2;
    if cell < RAILS {
        join(network, 0, node, WIDE);
    }
    if node + RAILS < steps * RAILS + 2 {
        join(network, node, node + RAILS, mixed(node, 4) % 1000);
    } else {
        join(network, node, 1, WIDE);
    }
    if node + 1 < steps * RAILS + 2 {
        join(network, node, node + 1, mixed(node, 5) % 1000);
    }
}

/// Solves so often a grid of a few rails and so many steps, whose pipes look drawn.
pub fn solve_thin_grids(alloc: Global, steps: u32, times: u32) -> Result<u64, AllocError>
    requires { steps ≤ MOST_STEPS }
{
    let cells = steps * RAILS;
    let mut network = Network::make(alloc, cells + 2, 0, 1, 3 * cells as usize)?;
    for cell in 0..cells {
        join_rail(&mut network, steps, cell);
    }
    solve_often(alloc, &network, times)
}

// Adds a pipe from the source to a node and one from a node to the sink, which look drawn.
fn join_ends(network: &mut Network, nodes: u32, pair: u32)
    requires some { 1 ≤ nodes }
    requires few { nodes ≤ MOST_DRAWN }
    requires room { 2 ≤ network.old.spare }
    requires nodes { network.old.nodes ≡ nodes + 2 }
    ensures nodes { network.new.nodes ≡ network.old.nodes }
    ensures room { network.new.spare + 2 ≡ network.old.spare }
{
    join(
        network,
        0,
        mixed(pair, 6) % nodes + 2,
        mixed(pair, 7) % 1000,
    );
    join(
        network,
        mixed(pair, 8) % nodes + 2,
        1,
        mixed(pair, 9) % 1000,
    );
}

/// Solves so often a network of so many pipes between nodes, a tenth as many from the source and as many to the sink, all
/// with ends and capacities that look drawn.
pub fn solve_drawn(alloc: Global, nodes: u32, pipes: u32, times: u32) -> Result<u64, AllocError>
    requires some { 1 ≤ nodes }
    requires few { nodes ≤ MOST_DRAWN }
    requires pipes { pipes ≤ MOST_DRAWN }
{
    let ends = pipes / 10;
    let room = (2 * ends + pipes) as usize;
    let mut network = Network::make(alloc, nodes + 2, 0, 1, room)?;
    for pair in 0..ends {
        join_ends(&mut network, nodes, pair);
    }
    for i in 0..pipes {
        let from = mixed(i, 10) % nodes + 2;
        let to = mixed(i, 11) % nodes + 2;
        join(&mut network, from, to, mixed(i, 12) % 1000);
    }
    solve_often(alloc, &network, times)
}

// How many takers each giver of a comb is joined to.
const LEGS: u32 = 200;

// Adds a pipe from the source to a giver of a comb, and one from its taker to the sink.
fn join_giver(network: &mut Network, givers: u32, giver: u32)
    requires giver { giver < givers }
    requires givers { givers ≤ MOST_GIVERS }
    requires room { 2 ≤ network.old.spare }
    requires nodes { network.old.nodes ≡ 2 * givers + 2 }
    ensures nodes { network.new.nodes ≡ network.old.nodes }
    ensures room { network.new.spare + 2 ≡ network.old.spare }
{
    join(network, 0, giver + 2, mixed(giver, 13) % 1000);
    join(network, givers + giver + 2, 1, mixed(giver, 14) % 1000);
}

/// Solves a comb so often: givers that the source joins, each joined to the takers from its own on, all of which join the
/// sink.
pub fn solve_combs(alloc: Global, givers: u32, times: u32) -> Result<u64, AllocError>
    requires some { 1 ≤ givers }
    requires few { givers ≤ MOST_GIVERS }
{
    let legs = givers * LEGS;
    let room = (2 * givers + legs) as usize;
    let mut network = Network::make(alloc, 2 * givers + 2, 0, 1, room)?;
    for giver in 0..givers {
        join_giver(&mut network, givers, giver);
    }
    for i in 0..legs {
        let giver = i % givers;
        let taker = (giver + i / givers) % givers;
        join(
            &mut network,
            giver + 2,
            givers + taker + 2,
            mixed(i, 15) % 1000,
        );
    }
    solve_often(alloc, &network, times)
}
