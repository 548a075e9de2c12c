// A way of least cost, read out of the tables.
ghost use Rattle.std.specs.Prelude.{◌≡◌, ◌≤◌, ◌<◌, ℕ, ◌*◌, IsSome, OnOk, length as length_of};
ghost use Rattle.loop_walk.specs.Tables.{IsLength, entry_at, table_count};
ghost use Rattle.loop_walk.specs.Products.{AddsWay, HoldsTables, IsStepTable, sum_through};

use crate::tables::{length_before, second_table, table_count, table_in};
use frame_distance::StepCosts;
use limits::MOST_LOOP_FRAMES;
use std::alloc::AllocError;

// The two halves of a way through frame v, added up.
fn sum_through(n: usize, left: &[u64], right: &[u64], i: usize, j: usize, v: usize) -> u64
    requires few { n ≤ MOST_LOOP_FRAMES }
    requires left { length_of left.now ≡ n * n }
    requires right { length_of right.now ≡ n * n }
    requires from { i < n }
    requires to { j < n }
    requires through { v < n }
    ensures { result ≡ sum_through n left.now right.now i j v }
{
    left[i * n + v].saturating_add(right[v * n + j])
}

// The smallest frame through which a way of least cost goes.
fn middle(n: usize, left: &[u64], right: &[u64], i: usize, j: usize) -> usize
    requires few { n ≤ MOST_LOOP_FRAMES }
    requires left { length_of left.now ≡ n * n }
    requires right { length_of right.now ≡ n * n }
    requires from { i < n }
    requires to { j < n }
    ensures below { result < n }
    ensures least { (v : ℕ) → v < n →
        sum_through n left.now right.now i j result ≤ sum_through n left.now right.now i j v }
    ensures first { (v : ℕ) → v < result →
        sum_through n left.now right.now i j result < sum_through n left.now right.now i j v }
{
    let mut best = 0;
    for v in 1..n {
        if sum_through(n, left, right, i, j, v) < sum_through(n, left, right, i, j, best) {
            best = v;
        }
    }
    best
}

/// Adds to a walk the frames between frame i and frame j on a way of so many steps, at the cost that
/// the tables say. It halves the way as the tables doubled it, at the smallest frame that serves.
pub fn add_way(
    costs: &StepCosts,
    steps: &[u64],
    tables: &[u64],
    length: u32,
    i: usize,
    j: usize,
    walk: &mut Vec<u16>,
) -> Result<(), AllocError>
    requires steps { IsStepTable costs.now steps.now }
    requires tables { HoldsTables costs.now length tables.now }
    requires length { IsLength length }
    requires from { i < costs.now.frames }
    requires to { j < costs.now.frames }
    requires there { IsSome (entry_at costs.now tables.now (table_count length) i j) }
    ensures { OnOk result (AddsWay costs.now length i j
        (entry_at costs.now tables.now (table_count length) i j) walk.old.items walk.new.items) }
{
    if length == 1 {
        return Ok(());
    }
    let n = costs.frames() as usize;
    let before = length_before(length);
    let t = table_count(before) as usize;
    let left = table_in(steps, tables, t);
    let right = table_in(steps, tables, second_table(length, t));
    let v = middle(n, left, right, i, j);
    add_way(costs, steps, tables, before, i, v, walk)?;
    walk.push(v as u16)?;
    add_way(costs, steps, tables, length - before, v, j, walk)
}
