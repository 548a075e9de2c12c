// The table of the least sums of two tables of least costs.
ghost use Rattle.std.specs.Prelude.{◌≡◌, ◌≤◌, ◌<◌, ℕ, ◌+◌, ◌*◌, ◌^◌, min, length, slice_index};
ghost use Rattle.loop_walk.specs.Products.{AreAtMostFar, AreBroughtNear, AreRestored, AreSmall, IsLeastOf, IsNearProduct, IsProduct, near_row_sum};

use crate::rests::{GREATEST_ROW, fill_rest_table, fill_row_of_rests};
use limits::MOST_LOOP_FRAMES;

/// Stands for none. It is above each number, and a sum that doesn't fit stops at it.
pub const NONE: u64 = u64::MAX;

/// Stands for none while sums are made. It is above each sum of two numbers that are there, and a sum of two
/// of it doesn't wrap as a signed number either.
pub const FAR: u64 = 1 << 61;

/// The greatest number that is there.
pub const GREATEST_NUMBER: u64 = 1 << 58;

// The lesser of two numbers, compared as signed ones, for which the lanes have one step.
fn lesser(a: u64, b: u64) -> u64
    requires a { a < 2 ^ 63 }
    requires b { b < 2 ^ 63 }
    ensures { result ≡ min a b }
{
    if (a as i64) < (b as i64) { a } else { b }
}

// Lowers each number of a row to sums of two first halves with the second halves at its place.
fn lower(sums: &mut [u64], first: u64, seconds: &[u64], other: u64, others: &[u64])
    requires seconds { length sums.old ≡ length seconds.now }
    requires others { length sums.old ≡ length others.now }
    requires first { first ≤ FAR }
    requires other { other ≤ FAR }
    requires near { AreAtMostFar sums.old }
    requires near_seconds { AreAtMostFar seconds.now }
    requires near_others { AreAtMostFar others.now }
    ensures lowered { (j : ℕ) → j < length sums.old → slice_index sums.new j ≡
        min (slice_index sums.old j)
        (min (first + slice_index seconds.now j) (other + slice_index others.now j)) }
    ensures near { AreAtMostFar sums.new }
{
    for j in 0..sums.len() {
        let sum = lesser(first + seconds[j], other + others[j]);
        sums[j] = lesser(sums[j], sum);
    }
}

// Lowers a row to the sums through frames v and w. There is nothing to do where both first halves are none.
fn lower_through(n: usize, v: usize, w: usize, firsts: &[u64], nears: &[u64], sums: &mut [u64])
    requires v { v < n }
    requires w { w < n }
    requires firsts { length firsts.now ≡ n }
    requires nears { length nears.now ≡ n * n }
    requires sums { length sums.old ≡ n }
    requires near_nears { AreAtMostFar nears.now }
    requires near { AreAtMostFar sums.old }
    ensures lowered { (j : ℕ) → j < n → slice_index sums.new j ≡ min (slice_index sums.old j)
        (min (near_row_sum n firsts.now nears.now j v) (near_row_sum n firsts.now nears.now j w)) }
    ensures near { AreAtMostFar sums.new }
{
    let first = firsts[v].min(FAR);
    let other = firsts[w].min(FAR);
    if first < FAR || other < FAR {
        let seconds = &nears[v * n..v * n + n];
        let others = &nears[w * n..w * n + n];
        lower(sums, first, seconds, other, others);
    }
}

/// Makes one row of a product, with none brought near. The rows of the second table are read along
/// memory, two for two first halves, so that the inner loop runs in lanes.
pub fn fill_row(n: usize, firsts: &[u64], nears: &[u64], sums: &mut [u64])
    requires firsts { length firsts.now ≡ n }
    requires nears { length nears.now ≡ n * n }
    requires sums { length sums.old ≡ n }
    requires few { n ≤ MOST_LOOP_FRAMES }
    requires near { AreAtMostFar nears.now }
    ensures { (j : ℕ) → j < n →
        IsLeastOf FAR n (slice_index sums.new j) (near_row_sum n firsts.now nears.now j) }
{
    sums.fill(FAR);
    for h in 0..(n + 1) / 2 {
        let v = 2 * h;
        lower_through(n, v, (v + 1).min(n - 1), firsts, nears, sums);
    }
}

// Brings none near.
fn bring_near(numbers: &[u64], nears: &mut [u64])
    requires { length nears.old ≡ length numbers.now }
    ensures { AreBroughtNear numbers.now nears.new }
{
    for k in 0..nears.len() {
        nears[k] = numbers[k].min(FAR);
    }
}

// Makes none of what is far.
fn restore(numbers: &mut [u64])
    ensures { AreRestored numbers.old numbers.new }
{
    for k in 0..numbers.len() {
        if numbers[k] >= FAR {
            numbers[k] = NONE;
        }
    }
}

// Makes the table whose entry (i, j) is the least over all v of entry (i, v) of the one table and
// entry (v, j) of the other, added up, with none brought near. `rests` is written over.
fn fill_near(n: usize, left: &[u64], nears: &[u64], rests: &mut [u32], made: &mut [u64])
    requires few { n ≤ MOST_LOOP_FRAMES }
    requires left { length left.now ≡ n * n }
    requires nears { length nears.now ≡ n * n }
    requires rests { length rests.old ≡ n * n }
    requires made { length made.old ≡ n * n }
    requires near { AreAtMostFar nears.now }
    ensures { IsNearProduct n left.now nears.now made.new }
{
    let mut bases = [0u64; GREATEST_ROW];
    fill_rest_table(n, nears, &mut bases[..n], rests);
    let mut quick = true;
    for i in 0..n {
        fill_row_of_rests(
            n,
            &left[i * n..i * n + n],
            nears,
            &bases[..n],
            rests,
            &mut made[i * n..i * n + n],
            &mut quick,
        );
    }
}

/// Makes the table whose entry (i, j) is the least over all v of entry (i, v) of the one table and
/// entry (v, j) of the other, added up. `nears` and `rests` have room for one table each, and are written
/// over.
pub fn fill_product(
    n: usize,
    left: &[u64],
    right: &[u64],
    nears: &mut [u64],
    rests: &mut [u32],
    made: &mut [u64],
)
    requires few { n ≤ MOST_LOOP_FRAMES }
    requires left { length left.now ≡ n * n }
    requires right { length right.now ≡ n * n }
    requires nears { length nears.old ≡ n * n }
    requires rests { length rests.old ≡ n * n }
    requires made { length made.old ≡ n * n }
    requires small_left { AreSmall GREATEST_NUMBER left.now }
    requires small_right { AreSmall GREATEST_NUMBER right.now }
    ensures { IsProduct n left.now right.now made.new }
{
    bring_near(right, nears);
    fill_near(n, left, nears, rests, made);
    restore(made);
}
