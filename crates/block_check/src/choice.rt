// The new cells of a block.
ghost use Rattle.std.specs.Prelude.{◌≡◌, ◌<◌, ◌≤◌, ◌+◌, IfOk, OnErr, OnOk, vec_capacity, vec_len};
ghost use Rattle.cells.specs.Places.{IsSmall};
ghost use Rattle.map_canvas.specs.Canvases.{IsCanvas, StandsOver};
ghost use Rattle.block_strips.specs.declared.side.Side.TheVariants.{Left, Top};
ghost use Rattle.block_check.specs.Blocks.{FillsBlock, IsFormedBlock, after_block, block_lets_new, lets_new, new_cells, strip_cols};
ghost use Rattle.block_check.specs.Records.{BlockStands};
ghost use Rattle.block_check.specs.Steps.{HasColumnIn, HasRowsOn, first_rows};

use crate::BlockRecord;
use crate::check::cols_on;
use block_strips::Side;
use cells::Volume;
use map_canvas::Canvas;
use std::alloc::{AllocError, Global};
use strip_boundary::BoundaryRecord;

// Whether a boundary lets the cell in a strip row and a strip column be new: a cell of its strip from its
// own column on, and every other cell.
fn lets_new(cols: u32, boundary: &Option<BoundaryRecord>, row: u32, col: u32) -> bool
    requires { HasColumnIn row boundary.now }
    ensures { result ≡ lets_new cols boundary.now row col }
{
    match boundary {
        Some(boundary) => cols <= col || u32::from(boundary.path.as_slice()[row as usize]) <= col,
        None => true,
    }
}

// Whether the cell of a block in a column and a row is new, where its strips have so many columns.
fn is_new(block: &BlockRecord, left: u32, top: u32, x: u32, y: u32) -> bool
    requires left { left ≡ strip_cols Left block.now }
    requires top { top ≡ strip_cols Top block.now }
    requires left_rows { HasRowsOn Left block.now.placement block.now.left }
    requires top_rows { HasRowsOn Top block.now.placement block.now.top }
    requires column { x < block.now.placement.rect.size.w }
    requires row { y < block.now.placement.rect.size.h }
    ensures { result ≡ block_lets_new block.now x y }
{
    lets_new(left, &block.left, y, x) && lets_new(top, &block.top, x, y)
}

// Puts of each cell of a row of a block whether it is new, where its strips have so many columns. There is room
// for all of them.
fn put_row(choice: &mut Vec<bool>, block: &BlockRecord, left: u32, top: u32, y: u32)
    requires left { left ≡ strip_cols Left block.now }
    requires top { top ≡ strip_cols Top block.now }
    requires left_rows { HasRowsOn Left block.now.placement block.now.left }
    requires top_rows { HasRowsOn Top block.now.placement block.now.top }
    requires row { y < block.now.placement.rect.size.h }
    requires before { choice.old.items ≡ first_rows block.now y }
    requires room { vec_len choice.old + block.now.placement.rect.size.w ≤ vec_capacity choice.old }
    ensures rows { choice.new.items ≡ first_rows block.now (y + 1) }
    ensures len { vec_len choice.new ≡ vec_len choice.old + block.now.placement.rect.size.w }
    ensures capacity { vec_capacity choice.new ≡ vec_capacity choice.old }
{
    for x in 0..block.placement.rect.size.w {
        choice.push_reserved(is_new(block, left, top, x, y));
    }
}

// Of each cell of a block, in raster order, whether it is new.
fn new_cells(alloc: Global, block: &BlockRecord) -> Result<Vec<bool>, AllocError>
    requires small { IsSmall block.now.placement.rect.size }
    requires formed { IsFormedBlock block.now }
    requires left { HasRowsOn Left block.now.placement block.now.left }
    requires top { HasRowsOn Top block.now.placement block.now.top }
    ensures { IfOk result (λ choice. choice.items ≡ new_cells block.now) }
{
    let placement = &block.placement;
    let left = cols_on(Side::Left, placement, &block.left);
    let top = cols_on(Side::Top, placement, &block.top);
    let mut choice = Vec::with_capacity(alloc, placement.rect.size.cells())?;
    for y in 0..placement.rect.size.h {
        put_row(&mut choice, block, left, top, y);
    }
    Ok(choice)
}

/// Puts in a block whose record stands over the canvas: those of its cells that each strip which has them calls
/// new. All others stay as they are. The one error is out of memory, and leaves the canvas as it was.
pub fn put_block(
    alloc: Global,
    canvas: &mut Canvas,
    sample: &Volume,
    block: &BlockRecord,
) -> Result<(), AllocError>
    requires over { StandsOver canvas.old sample.now }
    requires formed { IsFormedBlock block.now }
    requires stands { BlockStands canvas.old.map sample.now block.now }
    ensures map { OnOk result (canvas.new.map ≡ after_block canvas.old.map block.now) }
    ensures filled { OnOk result (FillsBlock canvas.old.map block.now canvas.new.map) }
    ensures over { StandsOver canvas.new sample.now }
    ensures canvas { IsCanvas canvas.new }
    ensures kept { OnErr result (canvas.new ≡ canvas.old) }
{
    // Called for their contracts only: they show the prover that these are a map and a volume.
    let _map = canvas.map();
    let _samples = sample.samples();
    let choice = new_cells(alloc, block)?;
    canvas.put_choice(sample, &block.placement, &choice);
    Ok(())
}
