// Whether what a search left for the arcs is a flow: each pipe can carry its part, and as much leaves as
// enters at each node but the ends.

ghost use Rattle.std.specs.Prelude.{◌≡◌, ◌<◌, ◌≤◌, ◌^◌, ℕ, pos, ◌+ℤ◌, ◌-ℤ◌, ◌≤ℤ◌, All, IfSome, length};
ghost use Rattle.std.specs.Bool.{OnTrue};
ghost use Rattle.max_flow.specs.Networks.{IsPipeOf};
ghost use Rattle.max_flow.specs.Residual.{Carries};
ghost use Rattle.max_flow.specs.Checking.{AddsAt, AreExcesses, AreWithin, CountsPipe, IsBalancedBetween, excess_at};

use crate::network::Pipe;

// Adds an amount at a node.
fn add_at(excess: &mut [i64], node: usize, amount: i64)
    requires node { node < length excess.old }
    requires low { (pos 0 -ℤ pos (2 ^ 62)) ≤ℤ (excess_at excess.old node +ℤ amount) }
    requires high { (excess_at excess.old node +ℤ amount) ≤ℤ pos (2 ^ 62) }
    ensures { AddsAt node amount excess.old excess.new }
{
    excess[node] += amount;
}

// Counts what a pipe carries at its two ends. Returns whether it can carry as much.
fn count_pipe(pipe: &Pipe, against: u32, excess: &mut [i64]) -> bool
    requires pipe { IsPipeOf (length excess.old) pipe.now }
    requires room { AreWithin (2 ^ 61) excess.old }
    ensures { OnTrue result (CountsPipe pipe.now against excess.old excess.new) }
{
    if against > pipe.ahead + pipe.back {
        return false;
    }
    let flow = i64::from(against) - i64::from(pipe.back);
    add_at(excess, pipe.from as usize, flow);
    add_at(excess, pipe.to as usize, -flow);
    true
}

// Counts what leaves each node, less what enters it. Returns whether each pipe can carry its part.
fn count_pipes(pipes: &[Pipe], nodes: u32, backward: &[u32], excess: &mut [i64]) -> bool
    requires pipes { All (IsPipeOf nodes) pipes.now }
    requires limit { length pipes.now ≤ 2 ^ 32 }
    requires sized { length backward.now ≡ length pipes.now }
    requires nodes { length excess.old ≡ nodes }
    requires clear { (n : ℕ) → excess_at excess.old n ≡ pos 0 }
    ensures { OnTrue result (AreExcesses pipes.now backward.now excess.new) }
{
    let mut left = backward.len();
    'pipes: while left > 0 {
        left -= 1;
        if !count_pipe(&pipes[left], backward[left], excess) {
            return false;
        }
    }
    true
}

// Whether as much leaves as enters at each node but the two ends.
fn is_balanced(excess: &[i64], source: usize, sink: usize) -> bool
    ensures { OnTrue result (IsBalancedBetween source sink excess.now) }
{
    for n in 0..excess.len() {
        if n != source && n != sink && excess[n] != 0 {
            return false;
        }
    }
    true
}

/// The value of the flow that leaves so much for the arc against each pipe, or None where it isn't one.
/// `excess` is a table to count in, with a 0 for each node.
pub fn flow_left(
    pipes: &[Pipe],
    nodes: u32,
    source: u32,
    sink: u32,
    backward: &[u32],
    excess: &mut [i64],
) -> Option<u64>
    requires pipes { All (IsPipeOf nodes) pipes.now }
    requires limit { length pipes.now ≤ 2 ^ 32 }
    requires source { source < nodes }
    requires sized { length backward.now ≡ length pipes.now }
    requires nodes { length excess.old ≡ nodes }
    requires clear { (n : ℕ) → excess_at excess.old n ≡ pos 0 }
    ensures { IfSome result (Carries pipes.now source sink backward.now) }
{
    if !count_pipes(pipes, nodes, backward, excess)
        || !is_balanced(excess, source as usize, sink as usize)
    {
        return None;
    }
    let value = excess[source as usize];
    if value < 0 { None } else { Some(value as u64) }
}
