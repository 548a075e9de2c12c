// The seam nodes of the pairs of a placement's box.
ghost use Rattle.std.specs.Prelude.{◌≡◌, ◌≤◌, ◌<◌, ◌+◌, ℕ, length, IfOk, vec_capacity, vec_len};
ghost use Rattle.cells.specs.Places.{IsSmall, cell_count, raster_index};
ghost use Rattle.boxes.specs.Pairs.{AreCounts, has_next, one_if, pair_count, pair_number};
ghost use Rattle.cut_graph.specs.Building.{AreSeamNodes, both_filled};

use crate::numbering::Numbering;
use crate::places::{NO_SEAM, SINK};
use boxes::{Counts, pair_count, stride};
use cells::{Axis, Size};
use limits::MOST_CELLS;
use std::alloc::{AllocError, Global};

// Whether two cells are both filled, by their nodes.
fn are_filled(cells: &[u32], i: usize, j: usize) -> bool
    requires first { i < length cells.now }
    requires second { j < length cells.now }
    ensures { result ≡ both_filled cells.now i j }
{
    cells[i] != SINK && cells[j] != SINK
}

// Gives the pair of the cell at an index and the next one along an axis its node, where the box has it. A
// pair has a seam where both cells are filled.
fn give_along(seams: &mut Numbering, cells: &[u32], size: Size, axis: Axis, at: Counts, i: usize)
    requires small { IsSmall size }
    requires counts { AreCounts size at.x at.y at.f }
    requires index { raster_index size at.x at.y at.f ≡ i }
    requires cells { length cells.now ≡ cell_count size }
    requires few { seams.old.next < u32.MAX }
    requires number { vec_len seams.old.nodes ≡ pair_number size axis at.x at.y at.f }
    requires room { vec_capacity seams.old.nodes ≡ pair_count size }
    ensures seams { (first : ℕ) → 0 < first →
        AreSeamNodes cells.now size first (pair_number size axis at.x at.y at.f) seams.old →
        AreSeamNodes cells.now size first
        (pair_number size axis at.x at.y at.f + one_if
        (has_next size axis at.x at.y at.f)) seams.new }
    ensures next { seams.new.next ≤ seams.old.next + 1 }
    ensures number { vec_len seams.new.nodes ≡ pair_number size axis at.x at.y at.f +
        one_if (has_next size axis at.x at.y at.f) }
    ensures room { vec_capacity seams.new.nodes ≡ pair_count size }
{
    if at.has_next(size, axis) {
        if are_filled(cells, i, i + stride(size, axis)) {
            seams.give_own();
        } else {
            seams.give(NO_SEAM);
        }
    }
}

// The seam nodes of all pairs of a box, from a number on, in the order of the pairs, by the nodes of the cells.
pub(crate) fn number_seams(
    alloc: Global,
    cells: &[u32],
    size: Size,
    first: u32,
) -> Result<Numbering, AllocError>
    requires small { IsSmall size }
    requires cells { length cells.now ≡ cell_count size }
    requires first { (0 < first) × (first ≤ MOST_CELLS + 2) }
    ensures { IfOk result (AreSeamNodes cells.now size first (pair_count size)) }
{
    let mut seams = Numbering::begin(alloc, first, pair_count(size) as usize)?;
    let mut at = Counts::first();
    for i in 0..cells.len() {
        give_along(&mut seams, cells, size, Axis::X, at, i);
        give_along(&mut seams, cells, size, Axis::Y, at, i);
        give_along(&mut seams, cells, size, Axis::F, at, i);
        at = at.next(size);
    }
    Ok(seams)
}
