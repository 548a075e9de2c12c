// The flows of the pairs of a cell, and what leaves it.
ghost use Rattle.std.specs.Prelude.{◌≡◌, ◌+◌, ◌-◌, pos, ◌+ℤ◌, nat_lt, slice_index_or, if◌then◌else◌};
ghost use Rattle.cells.specs.Places.{IsSmall};
ghost use Rattle.boxes.specs.Pairs.{AreCounts, pair_number};
ghost use Rattle.boxes.specs.Walks.{IsWalkIn};
ghost use Rattle.cut_check.specs.Flows.{IsBetween, flow_into, leaving, leaving_along, minus_of, no_flow, pair_flow};
ghost use Rattle.cut_check.specs.Steps.{most_along, most_leaving, pairs_since_above, pairs_since_last};

use crate::record::Flow;
use boxes::{Counts, Walk};
use cells::{Axis, Size};

// Nothing flows.
const NO_FLOW: Flow = Flow { x: 0, y: 0 };

/// The flow of the pair of a number: past the end of the flows there is none.
pub fn flow_of(flows: &[Flow], number: u64) -> Flow
    ensures { result ≡ slice_index_or flows.now number no_flow }
{
    flows.get(number as usize).copied().unwrap_or(NO_FLOW)
}

/// The flow of a cell and the next one along an axis, by the number of their pair; none where there is no
/// next cell.
#[inline(always)]
pub fn flow_at(size: Size, flows: &[Flow], axis: Axis, at: Counts, number: u64) -> Flow
    requires counts { AreCounts size at.x at.y at.f }
    requires number { number ≡ pair_number size axis at.x at.y at.f }
    ensures { result ≡ pair_flow size flows.now axis at.x at.y at.f }
{
    if at.has_next(size, axis) {
        flow_of(flows, number)
    } else {
        NO_FLOW
    }
}

// How many pairs the cell before this one in its row is the first of.
fn pairs_since_last(size: Size, walk: Walk) -> u64
    requires inside { IsWalkIn size walk }
    ensures { result ≡ pairs_since_last size walk.at.y walk.at.f }
{
    let along_y = if walk.at.y + 1 < size.h { 1 } else { 0 };
    let along_f = if walk.at.f + 1 < size.f { 1 } else { 0 };
    1 + along_y + along_f
}

// How many the cells from the one above this cell up to the one before it are the first of.
fn pairs_since_above(size: Size, walk: Walk) -> u64
    requires inside { IsWalkIn size walk }
    ensures { result ≡ pairs_since_above size walk.at.x walk.at.y walk.at.f }
{
    let w = u64::from(size.w);
    let along_y = if walk.at.y + 1 < size.h {
        w
    } else {
        w - u64::from(walk.at.x)
    };
    let along_f = if walk.at.f + 1 < size.f { w } else { 0 };
    (w - 1) + along_y + along_f
}

// How many pairs along X the cell above this one is the first of.
fn one_along_x(size: Size, walk: Walk) -> u64
    requires inside { IsWalkIn size walk }
    ensures { result ≡ (if nat_lt (walk.at.x + 1) size.w then 1 else 0) }
{
    if walk.at.x + 1 < size.w { 1 } else { 0 }
}

// What comes to a cell from the one before it along X.
fn into_along_x(size: Size, flows: &[Flow], walk: Walk) -> i16
    requires inside { IsWalkIn size walk }
    ensures { result ≡ (flow_into size flows.now Axis.X walk.at.x walk.at.y walk.at.f).y }
{
    if walk.at.x > 0 {
        flow_of(flows, walk.before - pairs_since_last(size, walk)).y
    } else {
        0
    }
}

// The same along Y.
fn into_along_y(size: Size, flows: &[Flow], walk: Walk) -> i16
    requires small { IsSmall size }
    requires inside { IsWalkIn size walk }
    ensures { result ≡ (flow_into size flows.now Axis.Y walk.at.x walk.at.y walk.at.f).y }
{
    if walk.at.y > 0 {
        let above = walk.before - pairs_since_above(size, walk);
        flow_of(flows, above + one_along_x(size, walk)).y
    } else {
        0
    }
}

// What leaves a cell along X, and along Y.
fn leaving_along_x(size: Size, flows: &[Flow], walk: Walk) -> i32
    requires inside { IsWalkIn size walk }
    ensures is { result ≡ leaving_along size flows.now Axis.X walk.at.x walk.at.y walk.at.f }
    ensures near { IsBetween (minus_of most_along) (pos most_along) result }
{
    let out = flow_at(size, flows, Axis::X, walk.at, walk.before).x;
    i32::from(out) - i32::from(into_along_x(size, flows, walk))
}

fn leaving_along_y(size: Size, flows: &[Flow], walk: Walk) -> i32
    requires small { IsSmall size }
    requires inside { IsWalkIn size walk }
    ensures is { result ≡ leaving_along size flows.now Axis.Y walk.at.x walk.at.y walk.at.f }
    ensures near { IsBetween (minus_of most_along) (pos most_along) result }
{
    let number = walk.pair_number(size, Axis::Y);
    let out = flow_at(size, flows, Axis::Y, walk.at, number).x;
    i32::from(out) - i32::from(into_along_y(size, flows, walk))
}

// What comes to a cell from the one before it along F.
fn into_along_frames(size: Size, flows: &[Flow], walk: Walk) -> i16
    requires small { IsSmall size }
    requires inside { IsWalkIn size walk }
    ensures { result ≡ (flow_into size flows.now Axis.F walk.at.x walk.at.y walk.at.f).y }
{
    let at = walk.at;
    if at.f > 0 {
        let last = Counts { f: at.f - 1, ..at };
        flow_at(size, flows, Axis::F, last, last.pair_number(size, Axis::F)).y
    } else {
        0
    }
}

// A box of one frame has no pair along F.
fn leaving_along_frames(size: Size, flows: &[Flow], walk: Walk) -> i32
    requires small { IsSmall size }
    requires inside { IsWalkIn size walk }
    ensures is { result ≡ leaving_along size flows.now Axis.F walk.at.x walk.at.y walk.at.f }
    ensures near { IsBetween (minus_of most_along) (pos most_along) result }
{
    if size.f == 1 {
        return 0;
    }
    let number = walk.pair_number(size, Axis::F);
    let out = flow_at(size, flows, Axis::F, walk.at, number).x;
    i32::from(out) - i32::from(into_along_frames(size, flows, walk))
}

// The sum of three numbers, apart so that the check adds numbers alone.
fn sum_of(a: i32, b: i32, c: i32) -> i32
    requires a { IsBetween (minus_of most_along) (pos most_along) a }
    requires b { IsBetween (minus_of most_along) (pos most_along) b }
    requires c { IsBetween (minus_of most_along) (pos most_along) c }
    ensures is { result ≡ (a +ℤ b) +ℤ c }
    ensures near { IsBetween (minus_of most_leaving) (pos most_leaving) result }
{
    a + b + c
}

/// What leaves the cell that a walk has come to: to the next cells along the three axes, less what comes from
/// the ones before.
pub fn leaving(size: Size, flows: &[Flow], walk: Walk) -> i32
    requires small { IsSmall size }
    requires inside { IsWalkIn size walk }
    ensures is { result ≡ leaving size flows.now walk.at.x walk.at.y walk.at.f }
    ensures near { IsBetween (minus_of most_leaving) (pos most_leaving) result }
{
    sum_of(
        leaving_along_x(size, flows, walk),
        leaving_along_y(size, flows, walk),
        leaving_along_frames(size, flows, walk),
    )
}
