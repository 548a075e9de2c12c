// The rules of the choice: each unfilled cell is new, and no cell that has to stay old.
ghost use Rattle.std.specs.Prelude.{◌≡◌, ◌<◌, ◌+◌, ◌*◌, ◌↔◌, IfNone, IfSome, IsTrue, None, slice_index_or, false, []};
ghost use Rattle.cells.specs.Cells.{Cells};
ghost use Rattle.cells.specs.Firsts.{Each};
ghost use Rattle.cells.specs.Places.{cell_count};
ghost use Rattle.map_canvas.specs.Choices.{box_cell};
ghost use Rattle.costs.specs.Lawful.{StaysOld};
ghost use Rattle.cut_check.specs.Records.{FillsAll, IsFirstNotOld, IsFirstUnfilled, LeavesAllOld, setting};
ghost use Rattle.cut_check.specs.Steps.{IsAt, IsRow, KeepsOld, LiesIn};

use crate::record::CutRecord;
use crate::rows::cell_of_row;
use boxes::Counts;
use cells::At;
use costs::is_kept_at;
use map_canvas::{Canvas, Map, Placement};

/// What a list of marks says of the cell at an index: past its end it says no.
pub fn is_marked(marks: &[bool], i: usize) -> bool
    ensures { result ≡ slice_index_or marks.now i false }
{
    marks.get(i).copied().unwrap_or(false)
}

/// The cell of a placement's box at an index in raster order.
pub fn box_cell(map: &Map, placement: &Placement, i: usize, at: Counts) -> At
    requires lies { LiesIn map.now placement.now }
    requires here { IsAt placement.now.rect.size i at }
    requires below { i < cell_count placement.now.rect.size }
    ensures { result ≡ box_cell placement.now i }
{
    at.cell(&placement.rect)
}

/// Whether the cell of a box at an index has to stay old.
pub fn stays_old(
    canvas: &Canvas,
    placement: &Placement,
    held: &[bool],
    i: usize,
    at: Counts,
    p: At,
) -> bool
    requires lies { LiesIn canvas.now.map placement.now }
    requires here { IsAt placement.now.rect.size i at }
    requires below { i < cell_count placement.now.rect.size }
    requires cell { p ≡ box_cell placement.now i }
    ensures { IsTrue result ↔ StaysOld canvas.now.map placement.now held.now p }
{
    is_marked(held, i) || is_kept_at(canvas, &placement.rect, at, p)
}

/// Rule 2: the index of the first unfilled cell of the box that isn't new.
pub fn first_unfilled(map: &Map, cut: &CutRecord) -> Option<usize>
    requires lies { LiesIn map.now cut.now.placement }
    ensures hold { (sample : Cells) → IfNone result (FillsAll (setting map.now sample []) cut.now) }
    ensures broken { (sample : Cells) → IfSome result
        (IsFirstUnfilled (setting map.now sample []) cut.now) }
{
    let size = cut.placement.rect.size;
    let choice = cut.choice.as_slice();
    let mut at = Counts::first();
    for i in 0..size.cells() {
        let p = box_cell(map, &cut.placement, i, at);
        if !is_marked(choice, i) && map.at(p).is_none() {
            return Some(i);
        }
        at = at.next(size);
    }
    None
}

// The index of the first cell of a row that has to stay old and is new, where no cell of the rows before is.
fn first_new_of_row(canvas: &Canvas, cut: &CutRecord, held: &[bool], row: u32) -> Option<usize>
    requires lies { LiesIn canvas.now.map cut.now.placement }
    requires row { IsRow cut.now.placement.rect.size row }
    requires before { Each (cut.now.placement.rect.size.w * row)
        (KeepsOld canvas.now.map cut.now held.now) }
    ensures hold { IfNone result (Each (cut.now.placement.rect.size.w * row
        + cut.now.placement.rect.size.w) (KeepsOld canvas.now.map cut.now held.now)) }
    ensures broken { (sample : Cells) → IfSome result
        (IsFirstNotOld (setting canvas.now.map sample held.now) cut.now) }
{
    let size = cut.placement.rect.size;
    let w = size.w as usize;
    let start = w * row as usize;
    let choice = cut.choice.as_slice();
    for i in start..start + w {
        let at = cell_of_row(size, row, i);
        let p = box_cell(canvas.map(), &cut.placement, i, at);
        if is_marked(choice, i) && stays_old(canvas, &cut.placement, held, i, at, p) {
            return Some(i);
        }
    }
    None
}

/// Rule 3: the index of the first cell of the box that has to stay old and is new.
pub fn first_new(canvas: &Canvas, cut: &CutRecord, held: &[bool]) -> Option<usize>
    requires lies { LiesIn canvas.now.map cut.now.placement }
    ensures hold { (sample : Cells) → IfNone result
        (LeavesAllOld (setting canvas.now.map sample held.now) cut.now) }
    ensures broken { (sample : Cells) → IfSome result
        (IsFirstNotOld (setting canvas.now.map sample held.now) cut.now) }
{
    let size = cut.placement.rect.size;
    for row in 0..size.h * size.f {
        if let Some(i) = first_new_of_row(canvas, cut, held, row) {
            return Some(i);
        }
    }
    None
}
