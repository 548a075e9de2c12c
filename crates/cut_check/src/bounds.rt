// Rule 4: the flow of each pair is within its bounds.
ghost use Rattle.std.specs.Prelude.{◌≡◌, ◌≤◌, ◌+◌, ◌*◌, ◌↔◌, IfNone, IfSome, IsTrue, List, Bool, pos};
ghost use Rattle.cells.specs.Distances.{distance};
ghost use Rattle.cells.specs.Neighbours.{unit_step};
ghost use Rattle.cells.specs.Places.{plus};
ghost use Rattle.cells.specs.Boxes.{cell_in};
ghost use Rattle.map_canvas.specs.Maps.{IsSource};
ghost use Rattle.boxes.specs.Pairs.{AreCounts, IsPair, pair_number};
ghost use Rattle.boxes.specs.Walks.{IsWalkIn, most_pairs};
ghost use Rattle.costs.specs.Costs.{most_of_pair, seam};
ghost use Rattle.cut_check.specs.Flows.{IsBetween, IsBetweenOld, IsBoundedOn, LeavesFirst, LeavesNone, LeavesSecond, minus_of};
ghost use Rattle.cut_check.specs.Records.{BoundsAll, IsFirstUnbounded, setting};
ghost use Rattle.cut_check.specs.Steps.{EachAxis, EachBefore, HoldsAlong, HoldsAt, IsFirstAxis, IsLaid, IsRow, IsStill, LiesOver};

use crate::flows::{flow_at, flow_of};
use crate::record::{CutRecord, Flow};
use crate::rows::cell_of_row;
use boxes::{Counts, Walk};
use cells::{At, Axis, Volume, cell_distance};
use costs::seam_of;
use map_canvas::{Map, Placement};

// A number between minus a cost and the cost.
fn is_within(cost: u32, z: i16) -> bool
    requires { cost ≤ most_of_pair }
    ensures { IsTrue result ↔ IsBetween (minus_of cost) (pos cost) z }
{
    let z = i32::from(z);
    let cost = cost as i32;
    -cost <= z && z <= cost
}

// A number between 0 and a cost.
fn is_up_to(cost: u32, z: i32) -> bool
    requires { cost ≤ most_of_pair }
    ensures { IsTrue result ↔ IsBetween (pos 0) (pos cost) z }
{
    0 <= z && z <= cost as i32
}

// A number between minus the cost of a pair of sources and the cost. A cost is the sum of two distances, and
// where the first of them is enough to tell, the second isn't computed.
fn is_within_seam(sample: &Volume, axis: Axis, a: At, b: At, z: i16) -> bool
    requires a { IsSource a }
    requires b { IsSource b }
    ensures { IsTrue result ↔ IsBetween (minus_of (seam (distance sample.now) axis a b))
        (pos (seam (distance sample.now) axis a b)) z }
{
    if z == 0 {
        return true;
    }
    let step = axis.unit();
    let near = cell_distance(sample, a, b.minus(step));
    if is_within(near, z) {
        return true;
    }
    is_within(near + cell_distance(sample, a.plus(step), b), z)
}

// The bounds of a pair with both cells filled. Where the old sources are next to one another, as the new ones
// are, the cost of the old and the new one is that of the new and the old one: a flow that all comes to the second
// cell is within both bounds then, or within neither. What doesn't come to it ends between the two.
fn is_between_old(
    sample: &Volume,
    axis: Axis,
    a: At,
    b: At,
    new_a: At,
    new_b: At,
    flow: Flow,
) -> bool
    requires a { IsSource a }
    requires b { IsSource b }
    requires new_a { IsSource new_a }
    requires new_b { IsSource new_b }
    requires next { new_b ≡ plus new_a (unit_step axis) }
    ensures { IsTrue result ↔ IsBetweenOld (seam (distance sample.now) axis a new_b)
        (seam (distance sample.now) axis new_a b) (seam (distance sample.now) axis a b) flow }
{
    if !is_within_seam(sample, axis, a, new_b, flow.x) {
        return false;
    }
    if flow.x == flow.y && a.plus(axis.unit()) == b {
        return true;
    }
    let old_old = seam_of(sample, axis, Some(a), Some(b));
    is_within_seam(sample, axis, new_a, b, flow.y)
        && is_up_to(old_old, i32::from(flow.x) - i32::from(flow.y))
}

// The bounds of a pair with the first cell filled alone.
fn leaves_first(old_new: u32, flow: Flow) -> bool
    requires { old_new ≤ most_of_pair }
    ensures { IsTrue result ↔ LeavesFirst old_new flow }
{
    is_up_to(old_new, i32::from(flow.x)) && flow.y == 0
}

// Those of a pair with the second cell filled alone.
fn leaves_second(new_old: u32, flow: Flow) -> bool
    requires { new_old ≤ most_of_pair }
    ensures { IsTrue result ↔ LeavesSecond new_old flow }
{
    flow.x == 0 && is_up_to(new_old, -i32::from(flow.y))
}

// Those of a pair with neither filled.
fn leaves_none(flow: Flow) -> bool
    ensures { IsTrue result ↔ LeavesNone flow }
{
    flow.x == 0 && flow.y == 0
}

// What a cell of the box has: its source before the placement, and its new one.
#[derive(Clone, Copy, Drop)]
struct Laid {
    old: Option<At>,
    new: At,
}

// What the cell of the box at some counts has.
#[tactic(auto, using(crate::proofs::Cells::holds_largest, crate::proofs::Cells::source_sum_fits))]
fn lay(map: &Map, sample: &Volume, placement: &Placement, at: Counts) -> Laid
    requires lies { LiesOver map.now sample.now placement.now }
    requires counts { AreCounts placement.now.rect.size at.x at.y at.f }
    ensures { IsLaid map.now placement.now at.x at.y at.f result }
{
    Laid {
        old: map.at(at.cell(&placement.rect)),
        new: placement.from.plus(at.place()),
    }
}

// The flow of the pair of a cell along an axis is within the bounds of the pair. Few pairs come to
// it, so it is kept out of the walk over all of them.
#[inline(never)]
fn is_bounded_at(
    map: &Map,
    sample: &Volume,
    placement: &Placement,
    axis: Axis,
    at: Counts,
    flow: Flow,
) -> bool
    requires lies { LiesOver map.now sample.now placement.now }
    requires pair { IsPair placement.now.rect.size axis at.x at.y at.f }
    ensures { IsTrue result ↔ IsBoundedOn (distance sample.now) map.now placement.now axis
        (cell_in placement.now.rect at.x at.y at.f)
        (plus (cell_in placement.now.rect at.x at.y at.f) (unit_step axis)) flow }
{
    let first = lay(map, sample, placement, at);
    let next = lay(
        map,
        sample,
        placement,
        at.next_along(placement.rect.size, axis),
    );
    match (first.old, next.old) {
        (Some(a), Some(b)) => is_between_old(sample, axis, a, b, first.new, next.new, flow),
        (Some(a), None) => leaves_first(seam_of(sample, axis, Some(a), Some(next.new)), flow),
        (None, Some(b)) => leaves_second(seam_of(sample, axis, Some(first.new), Some(b)), flow),
        (None, None) => leaves_none(flow),
    }
}

// The pair of a cell along an axis, if it has one, is within its bounds. Most pairs have no flow, which is
// within any bounds: for them no source is read.
#[inline(always)]
fn holds_along(
    map: &Map,
    sample: &Volume,
    cut: &CutRecord,
    axis: Axis,
    at: Counts,
    number: u64,
) -> bool
    requires lies { LiesOver map.now sample.now cut.now.placement }
    requires counts { AreCounts cut.now.placement.rect.size at.x at.y at.f }
    requires number { number ≡ pair_number cut.now.placement.rect.size axis at.x at.y at.f }
    ensures { IsTrue result ↔
        HoldsAlong (distance sample.now) map.now cut.now at.x at.y at.f axis }
{
    let size = cut.placement.rect.size;
    let flow = flow_at(size, cut.flows.as_slice(), axis, at, number);
    if leaves_none(flow) {
        return true;
    }
    if !at.has_next(size, axis) {
        return true;
    }
    is_bounded_at(map, sample, &cut.placement, axis, at, flow)
}

// Whether none of the pairs of a cell, which are three at most, has a flow. Where they are fewer, pairs of the
// next cells are looked at too.
fn is_still(flows: &[Flow], number: u64) -> bool
    requires { number ≤ most_pairs }
    ensures { IsTrue result → IsStill flows.now number }
{
    leaves_none(flow_of(flows, number))
        && leaves_none(flow_of(flows, number + 1))
        && leaves_none(flow_of(flows, number + 2))
}

// The first axis along which the pair of a cell isn't. Most cells have no flow at all.
fn first_axis(map: &Map, sample: &Volume, cut: &CutRecord, walk: Walk) -> Option<Axis>
    requires lies { LiesOver map.now sample.now cut.now.placement }
    requires inside { IsWalkIn cut.now.placement.rect.size walk }
    ensures hold { IfNone result (EachAxis
        (HoldsAlong (distance sample.now) map.now cut.now walk.at.x walk.at.y walk.at.f)) }
    ensures broken { IfSome result (IsFirstAxis
        (HoldsAlong (distance sample.now) map.now cut.now walk.at.x walk.at.y walk.at.f)) }
{
    if is_still(cut.flows.as_slice(), walk.before) {
        return None;
    }
    let size = cut.placement.rect.size;
    let number = walk.pair_number(size, Axis::X);
    if !holds_along(map, sample, cut, Axis::X, walk.at, number) {
        return Some(Axis::X);
    }
    let number = walk.pair_number(size, Axis::Y);
    if !holds_along(map, sample, cut, Axis::Y, walk.at, number) {
        return Some(Axis::Y);
    }
    // A box of one frame has no pair along F.
    if size.f == 1 {
        return None;
    }
    let number = walk.pair_number(size, Axis::F);
    if !holds_along(map, sample, cut, Axis::F, walk.at, number) {
        return Some(Axis::F);
    }
    None
}

// The number of the first pair of the cells of a row whose flow isn't within its bounds, where those of the rows
// before are.
fn first_of_row(map: &Map, sample: &Volume, cut: &CutRecord, row: u32) -> Option<u64>
    requires lies { LiesOver map.now sample.now cut.now.placement }
    requires row { IsRow cut.now.placement.rect.size row }
    requires before { EachBefore cut.now.placement.rect.size (cut.now.placement.rect.size.w * row)
        (HoldsAt (distance sample.now) map.now cut.now) }
    ensures hold { IfNone result (EachBefore cut.now.placement.rect.size
        (cut.now.placement.rect.size.w * row + cut.now.placement.rect.size.w)
        (HoldsAt (distance sample.now) map.now cut.now)) }
    ensures broken { (held : List Bool) →
        IfSome result (IsFirstUnbounded (setting map.now sample.now held) cut.now) }
{
    let size = cut.placement.rect.size;
    let w = size.w as usize;
    let start = w * row as usize;
    let mut before = cell_of_row(size, row, start).pairs_before(size);
    for i in start..start + w {
        let walk = Walk {
            at: cell_of_row(size, row, i),
            before,
        };
        if let Some(axis) = first_axis(map, sample, cut, walk) {
            return Some(walk.pair_number(size, axis));
        }
        before = walk.next(size).before;
    }
    None
}

/// Rule 4: the number of the first pair of the box whose flow isn't within its bounds.
pub fn first_unbounded(map: &Map, sample: &Volume, cut: &CutRecord) -> Option<u64>
    requires lies { LiesOver map.now sample.now cut.now.placement }
    ensures hold { (held : List Bool) → IfNone result
        (BoundsAll (setting map.now sample.now held) cut.now) }
    ensures broken { (held : List Bool) →
        IfSome result (IsFirstUnbounded (setting map.now sample.now held) cut.now) }
{
    let size = cut.placement.rect.size;
    for row in 0..size.h * size.f {
        if let Some(number) = first_of_row(map, sample, cut, row) {
            return Some(number);
        }
    }
    None
}
