// Disjoint blocks of the filled cells of a box.
ghost use Rattle.std.specs.Prelude.{◌≡◌, ◌≤◌, ◌<◌, ◌+◌, ◌*◌, ◌/◌, ◌%◌, ◌^◌, ℕ, IfOk, IsTrue, OnOk, length, sum};
ghost use Rattle.cells.specs.Boxes.{HasCells, HoldsBox};
ghost use Rattle.cells.specs.Cells.{HasRun};
ghost use Rattle.cells.specs.Places.{cell_count, plus, spot};
ghost use Rattle.search_squares.specs.Blocks.{AreBoxBlocks, block_bytes, block_sum};
ghost use Rattle.search_squares.specs.Gathered.{MarkFilled, AreFree, AreGathered, HasBlockRoom, HasRows, HasShortRows, IsFreeBlock, IsTaken, rows_sum, sum_along};

use crate::rows::{byte_sum, entries_before, step_to};
use cells::{At, Box3, Size, Volume};
use limits::{GREATEST_AXIS, MOST_CHANNELS};
use map_canvas::Canvas;
use std::alloc::{AllocError, Global};

// The most blocks of a box, so that they never take much memory. Fewer bound the error as well, if by less.
pub(crate) const MOST_BLOCKS: usize = 1 << 16;

/// A block of filled cells.
#[derive(Clone, Copy, Drop)]
pub(crate) struct Block {
    // how many cells come before its first one, in raster order, in a box of the size that blocks are for
    pub(crate) entry: usize,
    // how far that cell is from the box's corner
    pub(crate) step: At,
    // the sum of its bytes
    pub(crate) sum: u16,
}

/// Disjoint blocks of the filled cells of one box. They serve all placements of the box, as long as
/// the canvas stays as it is.
#[derive(Drop)]
pub(crate) struct BoxBlocks {
    // the cells of a block on each side
    pub(crate) side: u32,
    // the size by which entries are counted
    pub(crate) size: Size,
    pub(crate) blocks: Vec<Block>,
}

// Whether each cell of one row of the box is filled, by the row's number through all frames.
fn add_filled_row(
    cells: &mut Vec<bool>,
    canvas: &Canvas,
    rect: &Box3,
    row: u32,
) -> Result<(), AllocError>
    requires inside { HoldsBox canvas.now.map.size rect.now.corner rect.now.size }
    requires some { HasCells rect.now.size }
    requires below { row < rect.now.size.h * rect.now.size.f }
    requires long { length cells.old.items ≡ rect.now.size.w * row }
    requires filled { MarkFilled canvas.now.map rect.now cells.old.items }
    ensures long { OnOk result (length cells.new.items ≡ rect.now.size.w * (row + 1)) }
    ensures filled { OnOk result (MarkFilled canvas.now.map rect.now cells.new.items) }
{
    // The map is taken for its contract only: it shows the prover that its size is small.
    let _map = canvas.map();
    let (y, f) = (row % rect.size.h, row / rect.size.h);
    for x in 0..rect.size.w {
        let at = rect.corner.plus(step_to(x, y, f));
        cells.push(canvas.is_filled(at))?;
    }
    Ok(())
}

/// Of each cell of the box, in raster order, whether it is filled.
pub(crate) fn filled_cells(
    alloc: Global,
    canvas: &Canvas,
    rect: &Box3,
) -> Result<Vec<bool>, AllocError>
    requires inside { HoldsBox canvas.now.map.size rect.now.corner rect.now.size }
    requires some { HasCells rect.now.size }
    ensures long { IfOk result (λ cells. length cells.items ≡ cell_count rect.now.size) }
    ensures filled { IfOk result (λ cells. MarkFilled canvas.now.map rect.now cells.items) }
{
    // The map is taken for its contract only: it shows the prover that its size is small.
    let _map = canvas.map();
    let mut cells = Vec::with_capacity(alloc, rect.size.cells())?;
    for row in 0..rect.size.h * rect.size.f {
        add_filled_row(&mut cells, canvas, rect, row)?;
    }
    Ok(cells)
}

// Whether a block from a cell of the box on, by its index, lies in the cell's frame.
fn has_room(size: Size, i: usize, side: u32) -> bool
    requires { HasCells size }
    ensures { IsTrue result → HasBlockRoom size i side }
{
    let (w, h) = (size.w as usize, size.h as usize);
    if i % w + side as usize > w {
        return false;
    }
    i / w % h + side as usize <= h
}

// Whether n cells from one on are free.
fn is_row_free(free: &[bool], start: usize, n: u32) -> bool
    requires { start + n ≤ length free.now }
    ensures { IsTrue result → AreFree free.now start n }
{
    for i in 0..n {
        if !free[start + i as usize] {
            return false;
        }
    }
    true
}

// Whether all cells of a block from a cell on are, in rows of w cells.
fn is_block_free(free: &[bool], start: usize, w: usize, side: u32) -> bool
    requires { HasRows (length free.now) start w side }
    ensures { IsTrue result → IsFreeBlock free.now start w side }
{
    for j in 0..side {
        if !is_row_free(free, start + w * j as usize, side) {
            return false;
        }
    }
    true
}

// Takes n cells from one on.
fn take_row(free: &mut [bool], start: usize, n: u32)
    requires room { start + n ≤ length free.old }
    requires free { AreFree free.old start n }
    ensures { IsTaken (start + n) (sum_along start n) free.old free.new }
{
    for i in 0..n {
        free[start + i as usize] = false;
    }
}

// Takes the cells of a block.
fn take_block(free: &mut [bool], start: usize, w: usize, side: u32)
    requires across { side ≤ w }
    requires rows { HasRows (length free.old) start w side }
    requires free { IsFreeBlock free.old start w side }
    ensures { IsTaken (start + w * side) (rows_sum start w side side) free.old free.new }
{
    for j in 0..side {
        take_row(free, start + w * j as usize, side);
    }
}

// The sum of the bytes of a block of the picture.
fn block_sum(picture: &Volume, at: At, side: u32) -> u16
    requires small { side ≤ GREATEST_AXIS }
    requires rows { (y : ℕ) → y < side → HasRun picture.now (plus at (spot 0 y 0)) side }
    requires few { 255 * block_bytes side picture.now.k < 2 ^ 16 }
    ensures { result ≡ block_sum picture.now side at }
{
    // Called for its contract only: it shows the prover that the picture is a volume.
    let _samples = picture.samples();
    let mut sum = 0;
    for y in 0..side {
        let row = picture.row(at.plus(step_to(0, y, 0)), side);
        sum += u32::from(byte_sum(row));
    }
    sum as u16
}

impl BoxBlocks {
    // Takes the block from a cell on, by its index, if there is one whose cells are all free.
    fn add_from(
        &mut self,
        free: &mut [bool],
        canvas: &Canvas,
        rect: &Box3,
        i: usize,
    ) -> Result<(), AllocError>
        requires inside { HoldsBox canvas.now.map.size rect.now.corner rect.now.size }
        requires some { HasCells rect.now.size }
        requires below { i < cell_count rect.now.size }
        requires few { 255 * block_bytes self.old.side canvas.now.picture.k < 2 ^ 16 }
        requires rows { HasShortRows self.old.size }
        requires gathered { AreGathered canvas.now rect.now self.old.side self.old.size
            self.old.blocks.items free.old }
        ensures gathered { OnOk result (AreGathered canvas.now rect.now self.new.side
            self.new.size self.new.blocks.items free.new) }
        ensures side { self.new.side ≡ self.old.side }
        ensures size { self.new.size ≡ self.old.size }
    {
        // Most cells are left here, before any division.
        if !free[i] || self.blocks.as_slice().len() >= MOST_BLOCKS {
            return Ok(());
        }
        if !has_room(rect.size, i, self.side) {
            return Ok(());
        }
        let w = rect.size.w as usize;
        if !is_block_free(free, i, w, self.side) {
            return Ok(());
        }
        let picture = canvas.picture();
        let step = rect.size.place_at(i);
        let sum = block_sum(picture, rect.corner.plus(step), self.side);
        let entry = entries_before(self.size, step);
        self.blocks.push(Block { entry, step, sum })?;
        take_block(free, i, w, self.side);
        Ok(())
    }

    /// Blocks of so many cells on each side, as they come in raster order, of the filled cells of a box with
    /// cells, which are marked. Their entries are counted in a box of the size given. They take 24 bytes a
    /// block, and a byte for each cell of the box while they are gathered. The one error is out of memory.
    pub(crate) fn gather_of(
        alloc: Global,
        canvas: &Canvas,
        rect: &Box3,
        side: u32,
        size: Size,
        filled: &[bool],
    ) -> Result<BoxBlocks, AllocError>
        requires inside { HoldsBox canvas.now.map.size rect.now.corner rect.now.size }
        requires cells { HasCells rect.now.size }
        requires some { 1 ≤ side }
        requires few { 255 * block_bytes side canvas.now.picture.k < 2 ^ 16 }
        requires rows { HasShortRows size }
        requires long { length filled.now ≡ cell_count rect.now.size }
        requires filled { MarkFilled canvas.now.map rect.now filled.now }
        ensures blocks { IfOk result (AreBoxBlocks canvas.now rect.now) }
        ensures side { IfOk result (λ blocks. blocks.side ≡ side) }
    {
        if side == 1 {
            return BoxBlocks::singles_of(alloc, canvas, rect, size, filled);
        }
        // Called for its contract only: it shows the prover that this is a canvas.
        let _picture = canvas.picture();
        let mut blocks = BoxBlocks {
            side,
            size,
            blocks: Vec::new(alloc),
        };
        let mut free = Vec::from_slice(alloc, filled)?;
        for i in 0..rect.size.cells() {
            blocks.add_from(&mut free, canvas, rect, i)?;
        }
        Ok(blocks)
    }
}
