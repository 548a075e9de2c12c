// Sums over a run of places or of entries at once, one a lane.
ghost use Rattle.std.specs.Prelude.{◌≡◌, ◌≤◌, ◌<◌, ◌+◌, ◌-◌, ◌*◌, ◌^◌, ℕ, length, replicate, slice_index, map};
ghost use Rattle.std.specs.Int.{bit_at, cast_signed, w16};
ghost use Rattle.search_squares.specs.Blocks.{square_of_difference};
ghost use Rattle.search_squares.specs.Bounds.{IsMarked};
ghost use Rattle.search_squares.specs.Lanes.{from_zero};

use crate::sums::LANES;
use std::simd::prelude::*;

// The numbers that the bits of lanes are where they are signed.
#[inline(always)]
fn as_signed(lanes: u16x32) -> i16x32
    ensures { result ≡ map (cast_signed w16) lanes }
{
    i16x32::from_le_bytes(lanes.to_le_bytes())
}

// The squares of lanes, read as signed numbers, by their high halves, in units of 2^16.
#[inline(always)]
fn high_squares(lanes: u16x32) -> u16x32
    ensures { (j : ℕ) → 2 ^ 16 * slice_index result j
        ≤ from_zero (slice_index lanes j) * from_zero (slice_index lanes j) }
{
    let wide = as_signed(lanes).cast::<i32>();
    ((wide * wide) >> i32x32::splat(16)).cast::<u16>()
}

/// The totals with one more block, in units of 2^16: the squared differences of a run of entries, one a
/// lane, from the block's sum, each difference taken so many times. A total that doesn't fit stays at the
/// greatest number.
#[inline(always)]
pub(crate) fn with_block(totals: u16x32, sum: u16, run: &[u16], factor: u16) -> u16x32
    requires { LANES ≤ length run.now }
    ensures { (j : ℕ) → j < LANES → 2 ^ 16 * slice_index result j
        ≤ 2 ^ 16 * slice_index totals j
        + factor * factor * square_of_difference sum (slice_index run.now j) }
{
    // Both go by the low 16 bits.
    let differences = u16x32::from_slice(run) - u16x32::splat(sum);
    let lanes = differences * u16x32::splat(factor);
    totals.saturating_add(high_squares(lanes))
}

/// Marks the lanes whose total is above a number: lane j by the bit of 2^j.
#[inline(always)]
pub(crate) fn marks(totals: u16x32, most: u16) -> u32
    ensures { (j : ℕ) → j < LANES → IsMarked result j → most < slice_index totals j }
{
    totals.simd_gt(u16x32::splat(most)).to_bitmask() as u32
}

// Totals so many times, one a lane, or less where that doesn't fit.
#[inline(always)]
fn taken(totals: u16x32, times: u32) -> u32x32
    ensures at_most { (j : ℕ) → slice_index result j ≤ times * slice_index totals j }
    ensures long { length result ≡ LANES }
{
    u32x32::splat(times) * totals.cast::<u32>()
}

/// Marks the lanes whose totals, each taken so many times, come to more than a number: lane j by the bit of 2^j.
#[inline(always)]
pub(crate) fn marks_of_terms(
    totals: u16x32,
    times: u32,
    others: u16x32,
    other_times: u32,
    most: u32,
) -> u32
    ensures { (j : ℕ) → j < LANES → IsMarked result j
        → most < times * slice_index totals j + other_times * slice_index others j }
{
    let sums = taken(totals, times) + taken(others, other_times);
    sums.simd_gt(u32x32::splat(most)).to_bitmask() as u32
}

/// Marks the lanes that one of two numbers marks.
#[inline(always)]
pub(crate) fn marks_of_both(some: u32, others: u32) -> u32
    ensures { (j : ℕ) → IsMarked result j → bit_at some j ≡ 0 → IsMarked others j }
{
    some | others
}

/// How many lanes from one on are marked, one after another.
pub(crate) fn marked_from(marks: u32, first: u32) -> u32
    ensures { (j : ℕ) → j < result → IsMarked marks (first + j) }
{
    if first >= LANES as u32 {
        return 0;
    }
    (u64::from(marks) >> first).trailing_ones()
}

/// How many of the first n lanes aren't marked. It only says when to stop, so nothing is promised.
#[inline(always)]
pub(crate) fn left_in(marks: u32, n: u32) -> u32
    requires { n ≤ LANES }
{
    let first = (1u64 << n).wrapping_sub(1);
    (first & !u64::from(marks)).count_ones()
}

/// The sums of nothing, one a lane.
#[inline(always)]
pub(crate) fn no_sums() -> u16x32
    ensures { result ≡ replicate LANES 0 }
{
    u16x32::splat(0)
}
