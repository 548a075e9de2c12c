// Rows of least sums in lanes of 32 bits. From each row its least number is taken away, and most of what is left
// fits such a lane. What doesn't is lowered to the greatest rest, and a sum that reaches that is made in 64 bits.
ghost use Rattle.std.specs.Prelude.{◌≡◌, ◌≤◌, ◌<◌, ℕ, ◌+◌, ◌*◌, min, IsTrue, length, slice_index};
ghost use Rattle.loop_walk.specs.Products.{AreAtMostFar, IsLeastOf, near_row_sum};
ghost use Rattle.loop_walk.specs.Rests.{AreBases, AreRaised, AreRests, AreRestsOfRow, AreSmallRests, IsBase, IsExactBelow, rest_of, rest_sum};

use crate::product::{FAR, fill_row};
use limits::MOST_LOOP_FRAMES;

/// The most entries of a row of a table.
pub const GREATEST_ROW: usize = MOST_LOOP_FRAMES as usize;

/// The greatest rest. No sum of two wraps, and a sum below it is exact.
pub const GREATEST_REST: u32 = (1 << 31) - 1;

/// The greatest number that is taken away from a row.
pub const GREATEST_BASE: u64 = 1 << 62;

// How many sums of a row may be made one by one. Where more aren't exact, lanes of 64 bits are quicker.
const MOST_SINGLE_SUMS: usize = 16;

// The least number of a row, where one is at most the greatest base.
fn base_of(numbers: &[u64]) -> u64
    ensures base { IsBase numbers.now result }
    ensures small { result ≤ GREATEST_BASE }
{
    let mut base = GREATEST_BASE;
    for k in 0..numbers.len() {
        base = base.min(numbers[k]);
    }
    base
}

// What is taken away from each row of a table.
fn fill_bases(n: usize, nears: &[u64], bases: &mut [u64])
    requires few { n ≤ MOST_LOOP_FRAMES }
    requires nears { length nears.now ≡ n * n }
    requires bases { length bases.old ≡ n }
    ensures { AreBases n nears.now bases.new }
{
    for v in 0..n {
        bases[v] = base_of(&nears[v * n..v * n + n]);
    }
}

// What is left of the numbers of a row.
fn fill_rests(base: u64, numbers: &[u64], rests: &mut [u32])
    requires base { IsBase numbers.now base }
    requires rests { length rests.old ≡ length numbers.now }
    ensures rests { AreRestsOfRow base numbers.now rests.new }
    ensures small { AreSmallRests rests.new }
{
    for k in 0..numbers.len() {
        rests[k] = (numbers[k] - base).min(u64::from(GREATEST_REST)) as u32;
    }
}

/// What is taken away from the rows of a table, and what is left of them.
pub fn fill_rest_table(n: usize, nears: &[u64], bases: &mut [u64], rests: &mut [u32])
    requires few { n ≤ MOST_LOOP_FRAMES }
    requires nears { length nears.now ≡ n * n }
    requires bases { length bases.old ≡ n }
    requires rests { length rests.old ≡ n * n }
    ensures { AreRests n nears.now bases.new rests.new }
{
    fill_bases(n, nears, bases);
    for v in 0..n {
        fill_rests(
            bases[v],
            &nears[v * n..v * n + n],
            &mut rests[v * n..v * n + n],
        );
    }
}

// Lowers each rest of a row to sums of two first halves with the second halves at its place.
fn lower_rests(sums: &mut [u32], first: u32, seconds: &[u32], other: u32, others: &[u32])
    requires seconds { length sums.old ≡ length seconds.now }
    requires others { length sums.old ≡ length others.now }
    requires first { first ≤ GREATEST_REST }
    requires other { other ≤ GREATEST_REST }
    requires small { AreSmallRests sums.old }
    requires small_seconds { AreSmallRests seconds.now }
    requires small_others { AreSmallRests others.now }
    ensures lowered { (j : ℕ) → j < length sums.old → slice_index sums.new j ≡
        min (slice_index sums.old j)
        (min (first + slice_index seconds.now j) (other + slice_index others.now j)) }
    ensures small { AreSmallRests sums.new }
{
    for j in 0..sums.len() {
        let sum = (first + seconds[j]).min(other + others[j]);
        sums[j] = sums[j].min(sum);
    }
}

// Lowers a row to the sums through frames v and w. There is nothing to do where both first halves are the
// greatest rest.
fn lower_rests_through(
    n: usize,
    v: usize,
    w: usize,
    firsts: &[u32],
    rests: &[u32],
    sums: &mut [u32],
)
    requires v { v < n }
    requires w { w < n }
    requires firsts { length firsts.now ≡ n }
    requires rests { length rests.now ≡ n * n }
    requires sums { length sums.old ≡ n }
    requires small_firsts { AreSmallRests firsts.now }
    requires small_rests { AreSmallRests rests.now }
    requires small { AreSmallRests sums.old }
    ensures lowered { (j : ℕ) → j < n → slice_index sums.new j ≡ min (slice_index sums.old j)
        (min (rest_sum n firsts.now rests.now j v) (rest_sum n firsts.now rests.now j w)) }
    ensures small { AreSmallRests sums.new }
{
    let first = firsts[v];
    let other = firsts[w];
    if first < GREATEST_REST || other < GREATEST_REST {
        let seconds = &rests[v * n..v * n + n];
        let others = &rests[w * n..w * n + n];
        lower_rests(sums, first, seconds, other, others);
    }
}

// Makes one row of a product of rests. A sum that reaches the greatest rest stops at it.
fn fill_rest_row(n: usize, firsts: &[u32], rests: &[u32], sums: &mut [u32])
    requires firsts { length firsts.now ≡ n }
    requires rests { length rests.now ≡ n * n }
    requires sums { length sums.old ≡ n }
    requires few { n ≤ MOST_LOOP_FRAMES }
    requires small_firsts { AreSmallRests firsts.now }
    requires small_rests { AreSmallRests rests.now }
    ensures { (j : ℕ) → j < n →
        IsLeastOf GREATEST_REST n (slice_index sums.new j) (rest_sum n firsts.now rests.now j) }
{
    sums.fill(GREATEST_REST);
    for h in 0..(n + 1) / 2 {
        let v = 2 * h;
        lower_rests_through(n, v, (v + 1).min(n - 1), firsts, rests, sums);
    }
}

// First halves, each with what was taken away from the row of its second halves.
fn raise(firsts: &[u64], bases: &[u64], raised: &mut [u64])
    requires bases { length bases.now ≡ length firsts.now }
    requires raised { length raised.old ≡ length firsts.now }
    requires small { (v : ℕ) → v < length bases.now → slice_index bases.now v ≤ GREATEST_BASE }
    ensures { AreRaised firsts.now bases.now raised.new }
{
    for v in 0..firsts.len() {
        raised[v] = firsts[v].min(FAR) + bases[v];
    }
}

// One sum of a row in 64 bits.
fn single_sum(n: usize, firsts: &[u64], nears: &[u64], j: usize) -> u64
    requires firsts { length firsts.now ≡ n }
    requires nears { length nears.now ≡ n * n }
    requires few { n ≤ MOST_LOOP_FRAMES }
    requires near { AreAtMostFar nears.now }
    requires column { j < n }
    ensures { IsLeastOf FAR n result (near_row_sum n firsts.now nears.now j) }
{
    let mut sum = FAR;
    for v in 0..n {
        sum = sum.min(firsts[v].min(FAR) + nears[v * n + j]);
    }
    sum
}

// One sum of a row, out of what is left of it.
fn sum_of(n: usize, firsts: &[u64], nears: &[u64], j: usize, base: u64, rest: u32) -> u64
    requires firsts { length firsts.now ≡ n }
    requires nears { length nears.now ≡ n * n }
    requires few { n ≤ MOST_LOOP_FRAMES }
    requires near { AreAtMostFar nears.now }
    requires column { j < n }
    requires base { base ≤ GREATEST_BASE }
    requires exact { IsExactBelow n firsts.now nears.now base j rest }
    ensures { IsLeastOf FAR n result (near_row_sum n firsts.now nears.now j) }
{
    if rest < GREATEST_REST {
        (base + u64::from(rest)).min(FAR)
    } else {
        single_sum(n, firsts, nears, j)
    }
}

// The sums of a row, out of what is left of them.
fn fill_sums(n: usize, firsts: &[u64], nears: &[u64], base: u64, rests: &[u32], sums: &mut [u64])
    requires firsts { length firsts.now ≡ n }
    requires nears { length nears.now ≡ n * n }
    requires few { n ≤ MOST_LOOP_FRAMES }
    requires near { AreAtMostFar nears.now }
    requires base { base ≤ GREATEST_BASE }
    requires rests { length rests.now ≡ n }
    requires sums { length sums.old ≡ n }
    requires exact { (j : ℕ) → j < n →
        IsExactBelow n firsts.now nears.now base j (slice_index rests.now j) }
    ensures { (j : ℕ) → j < n →
        IsLeastOf FAR n (slice_index sums.new j) (near_row_sum n firsts.now nears.now j) }
{
    for j in 0..n {
        sums[j] = sum_of(n, firsts, nears, j, base, rests[j]);
    }
}

// How many of these rests say no more than that they are great.
fn count_great(rests: &[u32]) -> usize {
    let mut count = 0;
    for k in 0..rests.len() {
        if rests[k] == GREATEST_REST {
            count += 1;
        }
    }
    count
}

// Makes one row of a product out of rests, unless too many of its sums have to be made one by one. The rows
// `raised`, `halves` and `lows` are written over.
fn fill_quickly(
    n: usize,
    firsts: &[u64],
    nears: &[u64],
    bases: &[u64],
    rests: &[u32],
    raised: &mut [u64],
    halves: &mut [u32],
    lows: &mut [u32],
    sums: &mut [u64],
) -> bool
    requires firsts { length firsts.now ≡ n }
    requires nears { length nears.now ≡ n * n }
    requires bases { length bases.now ≡ n }
    requires rests { length rests.now ≡ n * n }
    requires raised { length raised.old ≡ n }
    requires halves { length halves.old ≡ n }
    requires lows { length lows.old ≡ n }
    requires sums { length sums.old ≡ n }
    requires few { n ≤ MOST_LOOP_FRAMES }
    requires near { AreAtMostFar nears.now }
    requires left { AreRests n nears.now bases.now rests.now }
    ensures { IsTrue result → (j : ℕ) → j < n →
        IsLeastOf FAR n (slice_index sums.new j) (near_row_sum n firsts.now nears.now j) }
{
    raise(firsts, bases, raised);
    let base = base_of(raised);
    fill_rests(base, raised, halves);
    fill_rest_row(n, halves, rests, lows);
    if count_great(lows) > MOST_SINGLE_SUMS {
        return false;
    }
    fill_sums(n, firsts, nears, base, lows, sums);
    true
}

/// Makes one row of a product, with none brought near, out of what is left of the rows of the second table.
/// `quick` says whether that served so far: where a row has too many sums that don't fit, so have others.
pub fn fill_row_of_rests(
    n: usize,
    firsts: &[u64],
    nears: &[u64],
    bases: &[u64],
    rests: &[u32],
    sums: &mut [u64],
    quick: &mut bool,
)
    requires firsts { length firsts.now ≡ n }
    requires nears { length nears.now ≡ n * n }
    requires bases { length bases.now ≡ n }
    requires rests { length rests.now ≡ n * n }
    requires sums { length sums.old ≡ n }
    requires few { n ≤ MOST_LOOP_FRAMES }
    requires near { AreAtMostFar nears.now }
    requires left { AreRests n nears.now bases.now rests.now }
    ensures { (j : ℕ) → j < n →
        IsLeastOf FAR n (slice_index sums.new j) (near_row_sum n firsts.now nears.now j) }
{
    let mut raised = [0u64; GREATEST_ROW];
    let mut halves = [0u32; GREATEST_ROW];
    let mut lows = [0u32; GREATEST_ROW];
    if *quick {
        *quick = fill_quickly(
            n,
            firsts,
            nears,
            bases,
            rests,
            &mut raised[..n],
            &mut halves[..n],
            &mut lows[..n],
            sums,
        );
    }
    if !*quick {
        fill_row(n, firsts, nears, sums);
    }
}
