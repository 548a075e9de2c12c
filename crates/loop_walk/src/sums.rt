// Entries of a record against their sums, a row at a time.
ghost use Rattle.std.specs.Prelude.{◌≡◌, ◌≤◌, ◌<◌, ℕ, ◌+◌, ◌*◌, IfNone, IfSome, IsTrue, ◌↔◌, length as length_of, slice_index};
ghost use Rattle.loop_walk.specs.Walks.{AtMost, sum_if_both};
ghost use Rattle.loop_walk.specs.Tables.{entry_at, table_entry, table_size};
ghost use Rattle.loop_walk.specs.Records.{IsFirstPlace};
ghost use Rattle.loop_walk.specs.Products.{AreAtMostFar, AreNearEntries, IsBelowNearSums, IsBelowProducts, IsNearRow, near_entry};
ghost use Rattle.loop_walk.specs.Rests.{AreRests};

use crate::product::{FAR, GREATEST_NUMBER, NONE};
use crate::rests::{GREATEST_ROW, fill_row_of_rests};
use frame_distance::StepCosts;
use limits::{LONGEST_LOOP, MOST_LOOP_FRAMES};

// Entry (i, j) of table number t + 1 for n frames.
fn stored_entry(tables: &[u64], n: usize, t: usize, i: usize, j: usize) -> Option<u64>
    requires few { n ≤ MOST_LOOP_FRAMES }
    requires number { t ≤ LONGEST_LOOP }
    requires enough { (t + 1) * (n * n) ≤ length_of tables.now }
    requires row { i < n }
    requires column { j < n }
    ensures { result ≡ table_entry (slice_index tables.now (t * (n * n) + (i * n + j))) }
{
    let number = tables[t * (n * n) + (i * n + j)];
    if number == NONE { None } else { Some(number) }
}

/// Entry (i, j) of table number t, where number 0 is that of the step costs.
pub fn entry_in(costs: &StepCosts, tables: &[u64], t: usize, i: u32, j: u32) -> Option<u64>
    requires number { t ≤ LONGEST_LOOP }
    requires enough { t * table_size costs.now ≤ length_of tables.now }
    requires row { i < costs.now.frames }
    requires column { j < costs.now.frames }
    ensures { result ≡ entry_at costs.now tables.now t i j }
{
    let n = costs.frames() as usize;
    if t == 0 {
        costs.step(i, j)
    } else {
        stored_entry(tables, n, t - 1, i as usize, j as usize)
    }
}

// An entry is at most a sum. A sum with a none is no bound, and none is above each other sum.
fn is_at_most(entry: Option<u64>, first: Option<u64>, second: Option<u64>) -> bool
    ensures { IsTrue result ↔ AtMost entry (sum_if_both first second) }
{
    let Some(first) = first else {
        return true;
    };
    let Some(second) = second else {
        return true;
    };
    let Some(entry) = entry else {
        return false;
    };
    entry.saturating_sub(first) <= second
}

// Entry (i, j) of table number t + 1 is at most each of its sums.
fn is_below_sums(costs: &StepCosts, tables: &[u64], t: usize, second: usize, i: u32, j: u32) -> bool
    requires number { t < LONGEST_LOOP }
    requires enough { (t + 1) * table_size costs.now ≤ length_of tables.now }
    requires second { second ≤ t }
    requires row { i < costs.now.frames }
    requires column { j < costs.now.frames }
    ensures { IsTrue result ↔ IsBelowProducts costs.now tables.now t second i j }
{
    let n = costs.frames();
    let entry = stored_entry(tables, n as usize, t, i as usize, j as usize);
    for v in 0..n {
        let first = entry_in(costs, tables, t, i, v);
        let other = entry_in(costs, tables, second, v, j);
        if !is_at_most(entry, first, other) {
            return false;
        }
    }
    true
}

// What an entry counts as in a sum that is made quickly. None is brought near, and a number that no
// table of least costs has is lowered, so that no sum of two numbers reaches none.
fn near_entry(entry: Option<u64>) -> u64
    ensures number { result ≡ near_entry entry }
    ensures near { result ≤ FAR }
{
    match entry {
        None => FAR,
        Some(number) => number.min(GREATEST_NUMBER),
    }
}

// Row i of table number t, as it counts in sums.
fn fill_near_row(costs: &StepCosts, tables: &[u64], t: usize, i: u32, nears: &mut [u64])
    requires number { t ≤ LONGEST_LOOP }
    requires enough { t * table_size costs.now ≤ length_of tables.now }
    requires row { i < costs.now.frames }
    requires nears { length_of nears.old ≡ costs.now.frames }
    ensures row { IsNearRow costs.now tables.now t i nears.new }
    ensures near { AreAtMostFar nears.new }
{
    for v in 0..costs.frames() {
        nears[v as usize] = near_entry(entry_in(costs, tables, t, i, v));
    }
}

/// Table number t, as its entries count in sums.
pub fn fill_near_table(costs: &StepCosts, tables: &[u64], t: usize, nears: &mut [u64])
    requires number { t ≤ LONGEST_LOOP }
    requires enough { t * table_size costs.now ≤ length_of tables.now }
    requires nears { length_of nears.old ≡ table_size costs.now }
    ensures entries { AreNearEntries costs.now tables.now t nears.new }
    ensures near { AreAtMostFar nears.new }
{
    let n = costs.frames() as usize;
    for v in 0..costs.frames() {
        let start = v as usize * n;
        fill_near_row(costs, tables, t, v, &mut nears[start..start + n]);
    }
}

// Entry (i, j) of table number t + 1 is at most each of its sums, where `sum` is at most each of them
// as entries count. Only an entry that is above it needs its sums one by one.
fn is_below(
    costs: &StepCosts,
    tables: &[u64],
    t: usize,
    second: usize,
    i: u32,
    j: u32,
    sum: u64,
) -> bool
    requires number { t < LONGEST_LOOP }
    requires enough { (t + 1) * table_size costs.now ≤ length_of tables.now }
    requires second { second ≤ t }
    requires row { i < costs.now.frames }
    requires column { j < costs.now.frames }
    requires sum { IsBelowNearSums costs.now tables.now t second i j sum }
    ensures { IsTrue result ↔ IsBelowProducts costs.now tables.now t second i j }
{
    let n = costs.frames() as usize;
    let number = tables[t * (n * n) + (i as usize * n + j as usize)];
    if number <= sum || FAR <= sum {
        return true;
    }
    is_below_sums(costs, tables, t, second, i, j)
}

/// The first column of row i where an entry of table number t + 1 is above one of its sums. `nears` is
/// the table of the second halves, as its entries count in sums, and `bases` and `rests` are what is taken
/// away from its rows and what is left. `quick` says whether these served so far.
pub fn broken_in_row(
    costs: &StepCosts,
    tables: &[u64],
    t: usize,
    second: usize,
    i: u32,
    nears: &[u64],
    bases: &[u64],
    rests: &[u32],
    quick: &mut bool,
) -> Option<u32>
    requires number { t < LONGEST_LOOP }
    requires enough { (t + 1) * table_size costs.now ≤ length_of tables.now }
    requires second { second ≤ t }
    requires row { i < costs.now.frames }
    requires nears { length_of nears.now ≡ table_size costs.now }
    requires entries { AreNearEntries costs.now tables.now second nears.now }
    requires near { AreAtMostFar nears.now }
    requires bases { length_of bases.now ≡ costs.now.frames }
    requires rests { length_of rests.now ≡ table_size costs.now }
    requires left { AreRests costs.now.frames nears.now bases.now rests.now }
    ensures hold { IfNone result ((j : ℕ) → j < costs.now.frames →
        IsBelowProducts costs.now tables.now t second i j) }
    ensures broken { IfSome result
        (IsFirstPlace costs.now.frames (IsBelowProducts costs.now tables.now t second i)) }
{
    let n = costs.frames() as usize;
    let mut firsts = [0u64; GREATEST_ROW];
    let mut sums = [0u64; GREATEST_ROW];
    fill_near_row(costs, tables, t, i, &mut firsts[..n]);
    fill_row_of_rests(n, &firsts[..n], nears, bases, rests, &mut sums[..n], quick);
    for j in 0..costs.frames() {
        if !is_below(costs, tables, t, second, i, j, sums[j as usize]) {
            return Some(j);
        }
    }
    None
}
