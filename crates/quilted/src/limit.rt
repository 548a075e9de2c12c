// The limit of a plan, counted before a block is picked.
ghost use Rattle.std.specs.Prelude.{◌≡◌, ◌≤◌, ◌<◌, ◌+◌, ◌*◌};
ghost use Rattle.cells.specs.Boxes.{HasCells};
ghost use Rattle.cells.specs.Places.{HasAxes, cell_count};
ghost use Rattle.boxes.specs.Spans.{SpanFits};
ghost use Rattle.block_strips.specs.Blocks.{block_len, block_on, box_of};
ghost use Rattle.quilted.specs.PlanLimit.{PlanIsFirstPast};

use block_strips::QuiltPlan;
use boxes::{Span, grid_on};
use cells::Size;
use limits::{GREATEST_AXIS, MOST_BOX_CELLS};

// Along an axis, the block that has the coordinate q.
fn block_on(output: u32, part: u32, plan: &QuiltPlan, q: u32) -> Span
    requires block { 1 ≤ plan.now.block }
    requires part { 1 ≤ part }
    requires output { output ≤ GREATEST_AXIS }
    requires q { q < output }
    ensures span { result ≡ block_on output part plan.now q }
    ensures fits { SpanFits output (block_len output part plan.now) q result }
{
    grid_on(output, plan.block.min(part.min(output)), plan.overlap, q)
}

// How many cells a block with these spans has.
fn block_cells(x: Span, y: Span) -> u64
    requires axes { (x.len ≤ GREATEST_AXIS) × (y.len ≤ GREATEST_AXIS) }
    ensures cells { result ≡ cell_count (box_of x y).size }
    ensures small { result ≤ GREATEST_AXIS * GREATEST_AXIS }
{
    u64::from(x.len) * u64::from(y.len)
}

// A cell by its column and its row.
#[derive(Clone, Copy, Drop)]
struct Cell {
    x: u32,
    y: u32,
}

// The first cell outside the blocks after one with these spans, which has the first cell outside those
// before it: the next one in its row, or the first one below its rows.
fn cell_after(output: Size, x: Span, y: Span, row: u32) -> Cell
    requires ends { (x.corner + x.len ≤ GREATEST_AXIS) × (y.corner + y.len ≤ GREATEST_AXIS) }
    ensures row { x.corner + x.len < output.w →
        (result.x ≡ x.corner + x.len) × (result.y ≡ row) }
    ensures below { output.w ≤ x.corner + x.len →
        (result.x ≡ 0) × (result.y ≡ y.corner + y.len) }
{
    let end = x.corner + x.len;
    if end < output.w {
        Cell { x: end, y: row }
    } else {
        Cell {
            x: 0,
            y: y.corner + y.len,
        }
    }
}

/// How many cells the blocks of a plan have, up to the first one with which they are more than
/// `limits::MOST_BOX_CELLS`; none where they never are. It depends on the sizes of the output and the sample
/// alone, takes no memory, and looks at each block once.
pub fn first_past(plan: &QuiltPlan, output: Size, sample: Size) -> Option<u64>
    requires block { 1 ≤ plan.now.block }
    requires output { HasAxes output }
    requires frame { output.f ≡ 1 }
    requires sample { HasCells sample }
    ensures { PlanIsFirstPast plan.now output sample result }
{
    let mut at = Cell { x: 0, y: 0 };
    let mut cells = 0;
    'counting: while at.y < output.h {
        let x = block_on(output.w, sample.w, plan, at.x);
        let y = block_on(output.h, sample.h, plan, at.y);
        cells += block_cells(x, y);
        if cells > MOST_BOX_CELLS {
            return Some(cells);
        }
        at = cell_after(output, x, y, at.y);
    }
    None
}
