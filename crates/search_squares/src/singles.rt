// The filled cells of a box, each a block by itself. There are more of these than of blocks of all other sizes, so
// that they are read off the rows of the picture, and nothing is tested but whether a cell is filled.
ghost use Rattle.std.specs.Prelude.{◌≡◌, ◌<◌, ◌+◌, ◌*◌, IfOk, OnOk, length};
ghost use Rattle.cells.specs.Boxes.{HasCells, HoldsBox};
ghost use Rattle.cells.specs.Places.{cell_count};
ghost use Rattle.search_squares.specs.Blocks.{AreBoxBlocks};
ghost use Rattle.search_squares.specs.Gathered.{AreSingles, HasShortRows, MarkFilled};

use crate::blocks::{Block, BoxBlocks, MOST_BLOCKS};
use crate::rows::{byte_sum, cell_of, entries_before, step_to};
use cells::{Box3, Size};
use map_canvas::Canvas;
use std::alloc::{AllocError, Global};

impl BoxBlocks {
    // The cells of one row of the box, by its number through all frames.
    fn add_row(
        &mut self,
        canvas: &Canvas,
        rect: &Box3,
        row: u32,
        filled: &[bool],
    ) -> Result<(), AllocError>
        requires inside { HoldsBox canvas.now.map.size rect.now.corner rect.now.size }
        requires some { HasCells rect.now.size }
        requires below { row < rect.now.size.h * rect.now.size.f }
        requires rows { HasShortRows self.old.size }
        requires long { length filled.now ≡ cell_count rect.now.size }
        requires singles { AreSingles canvas.now rect.now self.old.size filled.now
            (rect.now.size.w * row) self.old.blocks.items }
        ensures singles { OnOk result (AreSingles canvas.now rect.now self.new.size filled.now
            (rect.now.size.w * (row + 1)) self.new.blocks.items) }
        ensures side { self.new.side ≡ self.old.side }
        ensures size { self.new.size ≡ self.old.size }
    {
        let picture = canvas.picture();
        let k = picture.samples() as usize;
        let (y, f) = (row % rect.size.h, row / rect.size.h);
        let bytes = picture.row(rect.corner.plus(step_to(0, y, f)), rect.size.w);
        let first = rect.size.w as usize * row as usize;
        'cells: for x in 0..rect.size.w {
            if !filled[first + x as usize] || self.blocks.as_slice().len() >= MOST_BLOCKS {
                continue 'cells;
            }
            let step = step_to(x, y, f);
            let entry = entries_before(self.size, step);
            let sum = byte_sum(cell_of(bytes, k, x as usize));
            self.blocks.push(Block { entry, step, sum })?;
        }
        Ok(())
    }

    /// The filled cells of a box with cells, which are marked. Their entries are counted in a box of the size
    /// given. They take 24 bytes each. The one error is out of memory.
    pub(crate) fn singles_of(
        alloc: Global,
        canvas: &Canvas,
        rect: &Box3,
        size: Size,
        filled: &[bool],
    ) -> Result<BoxBlocks, AllocError>
        requires inside { HoldsBox canvas.now.map.size rect.now.corner rect.now.size }
        requires cells { HasCells rect.now.size }
        requires rows { HasShortRows size }
        requires long { length filled.now ≡ cell_count rect.now.size }
        requires filled { MarkFilled canvas.now.map rect.now filled.now }
        ensures blocks { IfOk result (AreBoxBlocks canvas.now rect.now) }
        ensures side { IfOk result (λ blocks. blocks.side ≡ 1) }
    {
        // Called for its contract only: it shows the prover that this is a canvas.
        let _picture = canvas.picture();
        let mut blocks = BoxBlocks {
            side: 1,
            size,
            blocks: Vec::new(alloc),
        };
        for row in 0..rect.size.h * rect.size.f {
            blocks.add_row(canvas, rect, row, filled)?;
        }
        Ok(blocks)
    }
}
