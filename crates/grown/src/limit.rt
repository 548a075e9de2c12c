// The limit on the boxes of a plan, counted before a place is picked.
ghost use Rattle.std.specs.Prelude.{◌≡◌, ◌≤◌, ◌<◌, ◌*◌, Option};
ghost use Rattle.cells.specs.declared.place.At.{At};
ghost use Rattle.cells.specs.declared.place.Box3.{Box3};
ghost use Rattle.cells.specs.Places.{HasAxes, IsSmall, cell_count};
ghost use Rattle.boxes.specs.FirstBoxes.{IsFirstPast};
ghost use Rattle.boxes.specs.Spans.{SpanFits};
ghost use Rattle.patch_picks.specs.Fitting.{HasPatch};
ghost use Rattle.patch_picks.specs.Lists.{placed};
ghost use Rattle.grown.specs.BoxLimit.{PlanIsFirstPast};
ghost use Rattle.grown.specs.Counted.{AreBoxes, AreBoxesOf, HasLen, HasLens, span_on};

use crate::plan::GrowPlan;
use boxes::{Span, grid_on, patch_corner};
use cells::{Size, Volume};
use limits::{GREATEST_AXIS, MOST_BOX_CELLS};
use patch_picks::{Mode, window_size};

// How boxes lie along an axis.
#[derive(Clone, Copy, Drop)]
enum Kind {
    // As copies in a grid.
    Copies,
    // As patches, each so far before its cell as it may overlap.
    Patches,
}

// Boxes whose places sizes say.
#[derive(Clone, Copy, Drop)]
struct Boxes {
    kind: Kind,
    // the cells of each on each axis, of which those of a copy at an edge may lie outside
    len: Size,
    overlap: u32,
}

// Along an axis, the box for the coordinate q.
fn span_on(kind: Kind, output: u32, len: u32, overlap: u32, q: u32) -> Span
    requires len { HasLen kind output len }
    requires output { output ≤ GREATEST_AXIS }
    requires q { q < output }
    ensures span { result ≡ span_on kind output len overlap q }
    ensures fits { SpanFits output len q result }
{
    match kind {
        Kind::Copies => grid_on(output, len, overlap, q),
        Kind::Patches => Span {
            corner: patch_corner(output, len, overlap, q),
            len,
            from: 0,
        },
    }
}

// How many cells a box with these spans has.
fn span_cells(x: Span, y: Span, f: Span) -> u64
    requires columns { (1 ≤ x.len) × (x.len ≤ GREATEST_AXIS) }
    requires rows { (1 ≤ y.len) × (y.len ≤ GREATEST_AXIS) }
    requires frames { (1 ≤ f.len) × (f.len ≤ GREATEST_AXIS) }
    ensures cells { result ≡ cell_count (placed x y f).rect.size }
    ensures some { 1 ≤ result }
    ensures small { result ≤ GREATEST_AXIS * (GREATEST_AXIS * GREATEST_AXIS) }
{
    u64::from(x.len) * (u64::from(y.len) * u64::from(f.len))
}

// A cell by its column, row and frame.
#[derive(Clone, Copy, Drop)]
struct Cell {
    x: u32,
    y: u32,
    f: u32,
}

// The first cell outside the boxes after one with these ends, where `at` is the first cell outside those
// before it: the next one in its row, or the first one below its rows, or the first one after its frames.
fn cell_after(output: Size, at: Cell, end: Cell) -> Cell
    ensures row { end.x < output.w → (result.x ≡ end.x) × (result.y ≡ at.y) × (result.f ≡ at.f) }
    ensures below { output.w ≤ end.x → end.y < output.h →
        (result.x ≡ 0) × (result.y ≡ end.y) × (result.f ≡ at.f) }
    ensures after { output.w ≤ end.x → output.h ≤ end.y →
        (result.x ≡ 0) × (result.y ≡ 0) × (result.f ≡ end.f) }
{
    if end.x < output.w {
        return Cell { x: end.x, ..at };
    }
    if end.y < output.h {
        return Cell {
            x: 0,
            y: end.y,
            f: at.f,
        };
    }
    Cell {
        x: 0,
        y: 0,
        f: end.f,
    }
}

// How many cells boxes have, up to the first one with which they are more than the bound; none where they
// never are. It takes no memory, and looks at each box once.
fn count(boxes: &Boxes, output: Size) -> Option<u64>
    requires axes { HasAxes output }
    requires lens { HasLens boxes.now output }
    ensures { (box : At → Option Box3) → AreBoxes boxes.now output box
        → IsFirstPast box output result }
{
    let mut at = Cell { x: 0, y: 0, f: 0 };
    let mut cells = 0;
    'counting: while at.f < output.f {
        let x = span_on(boxes.kind, output.w, boxes.len.w, boxes.overlap, at.x);
        let y = span_on(boxes.kind, output.h, boxes.len.h, boxes.overlap, at.y);
        let f = span_on(boxes.kind, output.f, boxes.len.f, boxes.overlap, at.f);
        cells += span_cells(x, y, f);
        if cells > MOST_BOX_CELLS {
            return Some(cells);
        }
        let end = Cell {
            x: x.corner + x.len,
            y: y.corner + y.len,
            f: f.corner + f.len,
        };
        at = cell_after(output, at, end);
    }
    None
}

// The boxes of a plan: those of the grid's copies of part 1, or those of patches.
fn boxes_of(plan: &GrowPlan, sample: &Volume) -> Option<Boxes>
    requires small { IsSmall plan.now.size }
    requires patch { HasPatch plan.now.mode }
    ensures { AreBoxesOf plan.now sample.now result }
{
    match plan.mode {
        Mode::Grid { overlap } => Some(Boxes {
            kind: Kind::Copies,
            len: sample.sizes().at(1),
            overlap,
        }),
        Mode::Sub { side, overlap, .. } => Some(Boxes {
            kind: Kind::Patches,
            len: window_size(side, plan.size, sample),
            overlap,
        }),
        Mode::Random | Mode::Whole { .. } => None,
    }
}

/// How many cells the boxes of a plan's placements have, up to the first one with which they are more than
/// `limits::MOST_BOX_CELLS`; none where they never are, and in modes `Random` and `Whole`, where picks decide
/// about boxes. It depends on the sizes of the output and the sample's parts alone, takes no memory, and looks
/// at each box once.
pub fn first_past(plan: &GrowPlan, sample: &Volume) -> Option<u64>
    requires small { IsSmall plan.now.size }
    requires patch { HasPatch plan.now.mode }
    ensures { PlanIsFirstPast plan.now sample.now result }
{
    match boxes_of(plan, sample) {
        Some(boxes) => count(&boxes, plan.size),
        None => None,
    }
}
