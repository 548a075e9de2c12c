// The nodes of the cells of a placement's box.
ghost use Rattle.std.specs.Prelude.{◌≡◌, ◌<◌, ◌+◌, IfOk, IfSome, option_copied, length, false, slice_index_or, vec_capacity};
ghost use Rattle.cells.specs.Boxes.{HoldsBox};
ghost use Rattle.cells.specs.Places.{IsSmall, cell_count, raster_index};
ghost use Rattle.costs.specs.Lawful.{held_marks};
ghost use Rattle.boxes.specs.Pairs.{AreCounts};
ghost use Rattle.cut_graph.specs.Building.{AreCellNodes};

use crate::numbering::Numbering;
use crate::places::{SINK, SOURCE};
use boxes::Counts;
use costs::is_kept_at;
use limits::MOST_CELLS;
use map_canvas::{Canvas, Placement};
use std::alloc::{AllocError, Global};

// Whether the cell at an index is held.
fn is_marked(held: Option<&[bool]>, i: usize) -> bool
    requires { IfSome (option_copied held) (λ marks. i < length marks) }
    ensures { result ≡ slice_index_or (held_marks (option_copied held.entry)) i false }
{
    match held {
        Some(marks) => marks[i],
        None => false,
    }
}

// Gives the cell at an index its node, by what it is to a choice: unfilled, kept or held, or free.
fn give_at(
    cells: &mut Numbering,
    canvas: &Canvas,
    placement: &Placement,
    held: Option<&[bool]>,
    at: Counts,
    i: usize,
)
    requires inside { HoldsBox canvas.now.map.size
        placement.now.rect.corner placement.now.rect.size }
    requires counts { AreCounts placement.now.rect.size at.x at.y at.f }
    requires index { raster_index placement.now.rect.size at.x at.y at.f ≡ i }
    requires marks { IfSome (option_copied held) (λ marks. i < length marks) }
    requires few { i < MOST_CELLS }
    requires room { vec_capacity cells.old.nodes ≡ cell_count placement.now.rect.size }
    requires cells { AreCellNodes canvas.now.map placement.now
        (held_marks (option_copied held)) i cells.old }
    ensures cells { AreCellNodes canvas.now.map placement.now
        (held_marks (option_copied held.entry)) (i + 1) cells.new }
    ensures room { vec_capacity cells.new.nodes ≡ cell_count placement.now.rect.size }
{
    let _size = canvas.map().size();
    let p = at.cell(&placement.rect);
    if !canvas.is_filled(p) {
        cells.give(SINK);
    } else if is_marked(held, i) || is_kept_at(canvas, &placement.rect, at, p) {
        cells.give(SOURCE);
    } else {
        cells.give_own();
    }
}

// The nodes of all cells of the box, in raster order.
pub(crate) fn number_cells(
    alloc: Global,
    canvas: &Canvas,
    placement: &Placement,
    held: Option<&[bool]>,
) -> Result<Numbering, AllocError>
    requires small { IsSmall placement.now.rect.size }
    requires inside { HoldsBox canvas.now.map.size
        placement.now.rect.corner placement.now.rect.size }
    requires marks { IfSome (option_copied held)
        (λ marks. length marks ≡ cell_count placement.now.rect.size) }
    ensures { IfOk result (AreCellNodes canvas.now.map placement.now
        (held_marks (option_copied held.entry)) (cell_count placement.now.rect.size)) }
{
    let size = placement.rect.size;
    let mut cells = Numbering::begin(alloc, SINK + 1, size.cells())?;
    let mut at = Counts::first();
    for i in 0..size.cells() {
        give_at(&mut cells, canvas, placement, held, at, i);
        at = at.next(size);
    }
    Ok(cells)
}
