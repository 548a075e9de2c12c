// The rules of what leaves the cells: nothing leaves a free cell, and what leaves the others is the value.
ghost use Rattle.std.specs.Prelude.{◌≡◌, ◌<◌, ◌+◌, ◌*◌, ◌↔◌, IfErr, IfOk, IfSome, IsSome, MatchResult, ℕ, ℤ, pos};
ghost use Rattle.cells.specs.Cells.{Cells};
ghost use Rattle.cells.specs.Places.{cell_count};
ghost use Rattle.boxes.specs.Sums.{signed_sum_box};
ghost use Rattle.map_canvas.specs.Choices.{box_cell};
ghost use Rattle.boxes.specs.Pairs.{at_index};
ghost use Rattle.boxes.specs.Walks.{IsWalkAt};
ghost use Rattle.costs.specs.Lawful.{StaysOld};
ghost use Rattle.cut_check.specs.Flows.{IsBetween, leaving, minus_of};
ghost use Rattle.cut_check.specs.Records.{BalancesAll, IsBalanced, IsFirstUnbalanced, IsPartWhere, setting};
ghost use Rattle.cut_check.specs.Steps.{ArePartsOfValue, IsRow, IsSummed, LiesIn, most_leaving, most_value};

use crate::flows::leaving;
use crate::record::CutRecord;
use crate::rows::cell_of_row;
use crate::rules::{box_cell, stays_old};
use boxes::Walk;
use map_canvas::Canvas;

// What leaves a cell, if it has to stay old, and 0 for another that is balanced; None where it isn't. Where
// nothing leaves it, nothing else is asked of it.
fn part_of(canvas: &Canvas, cut: &CutRecord, held: &[bool], i: usize, walk: Walk) -> Option<i32>
    requires lies { LiesIn canvas.now.map cut.now.placement }
    requires here { IsWalkAt cut.now.placement.rect.size i walk }
    requires below { i < cell_count cut.now.placement.rect.size }
    ensures balanced { (sample : Cells) →
        IsSome result ↔ IsBalanced (setting canvas.now.map sample held.now) cut.now i }
    ensures part { IfSome result (IsPartWhere
        (StaysOld canvas.now.map cut.now.placement held.now (box_cell cut.now.placement i))
        (at_index cut.now.placement.rect.size
        (leaving cut.now.placement.rect.size cut.now.flows) i)) }
    ensures near { IfSome result (IsBetween (minus_of most_leaving) (pos most_leaving)) }
{
    let out = leaving(cut.placement.rect.size, cut.flows.as_slice(), walk);
    if out == 0 {
        return Some(0);
    }
    let p = box_cell(canvas.map(), &cut.placement, i, walk.at);
    if stays_old(canvas, &cut.placement, held, i, walk.at, p) {
        Some(out)
    } else if canvas.is_filled(p) {
        None
    } else {
        Some(0)
    }
}

// The sum of what leaves the cells before a row that have to stay old, and those of the row.
fn add_row(
    canvas: &Canvas,
    cut: &CutRecord,
    held: &[bool],
    sum: i64,
    row: u32,
) -> Result<i64, usize>
    requires lies { LiesIn canvas.now.map cut.now.placement }
    requires row { IsRow cut.now.placement.rect.size row }
    requires summed { IsSummed canvas.now.map cut.now held.now
        (cut.now.placement.rect.size.w * row) sum }
    ensures summed { IfOk result (IsSummed canvas.now.map cut.now held.now
        (cut.now.placement.rect.size.w * row + cut.now.placement.rect.size.w)) }
    ensures broken { (sample : Cells) → IfErr result
        (IsFirstUnbalanced (setting canvas.now.map sample held.now) cut.now) }
{
    let size = cut.placement.rect.size;
    let w = size.w as usize;
    let start = w * row as usize;
    let mut before = cell_of_row(size, row, start).pairs_before(size);
    let mut sum = sum;
    for i in start..start + w {
        let walk = Walk {
            at: cell_of_row(size, row, i),
            before,
        };
        let Some(part) = part_of(canvas, cut, held, i, walk) else {
            return Err(i);
        };
        sum += i64::from(part);
        before = walk.next(size).before;
    }
    Ok(sum)
}

/// Rule 5: the index of the first free cell of the box that more leaves than comes to it, or less. Where there
/// is none, the value of the flow: the sum of what leaves the cells that have to stay old.
pub fn value_of(canvas: &Canvas, cut: &CutRecord, held: &[bool]) -> Result<i64, usize>
    requires lies { LiesIn canvas.now.map cut.now.placement }
    ensures balanced { (sample : Cells) →
        MatchResult result (λ value. BalancesAll (setting canvas.now.map sample held.now) cut.now)
        (IsFirstUnbalanced (setting canvas.now.map sample held.now) cut.now) }
    ensures value { (sample : Cells) (part : ℕ → ℕ → ℕ → ℤ) →
        ArePartsOfValue (setting canvas.now.map sample held.now) cut.now part →
        IfOk result (λ value. value ≡ signed_sum_box cut.now.placement.rect.size part) }
    ensures near { IfOk result (IsBetween (minus_of most_value) (pos most_value)) }
{
    let size = cut.placement.rect.size;
    let mut sum: i64 = 0;
    for row in 0..size.h * size.f {
        sum = add_row(canvas, cut, held, sum, row)?;
    }
    Ok(sum)
}
