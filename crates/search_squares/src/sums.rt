// The sums of the blocks of a box of the sample.
ghost use Rattle.std.specs.Prelude.{◌≡◌, ◌≤◌, ◌<◌, ◌+◌, ◌*◌, ◌^◌, ℕ, IfOk, OnOk, Some, drop, length, slice_index, take};
ghost use Rattle.cells.specs.Boxes.{HasCells};
ghost use Rattle.cells.specs.Cells.{Holds, IsVolume};
ghost use Rattle.cells.specs.Places.{DifferenceFits, IsInside, IsSmall, index_in, minus};
ghost use Rattle.search_squares.specs.Blocks.{block_bytes};
ghost use Rattle.search_squares.specs.Sums.{AreAdded, AreBlockSums, AreCellSums, ArePut, AreRows, IsCellSum, stepped_sum};

use crate::lanes::no_sums;
use crate::rows::{byte_sum, cell_of, step_to};
use boxes::has_cells;
use cells::{At, Box3, Size, Volume};
use std::alloc::{AllocError, Global};
use std::simd::prelude::*;

/// How many places are bounded at once.
pub const LANES: usize = 32;

/// The sums of the bytes of all blocks of so many cells on each side, of a box of the sample. They
/// serve all picks from it.
#[derive(Drop)]
pub(crate) struct BlockSums {
    pub(crate) rect: Box3,
    pub(crate) side: u32,
    // in raster order, and LANES more
    pub(crate) sums: Vec<u16>,
}

// The sums of the cells of one more row of the box.
fn add_cell_sums(
    sums: &mut Vec<u16>,
    sample: &Volume,
    rect: &Box3,
    y: u32,
    f: u32,
) -> Result<(), AllocError>
    requires volume { IsVolume sample.now }
    requires small { IsSmall rect.now.size }
    requires inside { Holds sample.now rect.now.corner rect.now.size }
    requires row { (y < rect.now.size.h) × (f < rect.now.size.f) }
    ensures { OnOk result (ArePut (IsCellSum sample.now rect.now y f) rect.now.size.w
        sums.old.items sums.new.items) }
{
    let k = sample.samples() as usize;
    let row = sample.row(rect.corner.plus(step_to(0, y, f)), rect.size.w);
    for x in 0..rect.size.w {
        sums.push(byte_sum(cell_of(row, k, x as usize)))?;
    }
    Ok(())
}

// A run of entries from one on, one a lane.
#[inline(always)]
fn run_at(entries: &[u16], first: usize) -> &[u16]
    requires { first + LANES ≤ length entries.now }
    ensures run { result.now ≡ take LANES (drop first entries.now) }
    ensures long { length result.now ≡ LANES }
{
    &entries[first..first + LANES]
}

// The sums of n entries each, one a lane: from an entry of a run on, each so many further than the one
// before.
fn stepped_sums(entries: &[u16], first: usize, step: usize, n: u32) -> u16x32
    requires inside { (j : ℕ) → j < n → first + step * j + LANES ≤ length entries.now }
    requires fits { (i : ℕ) → i < LANES → stepped_sum entries.now step n (first + i) < 2 ^ 16 }
    ensures sums { (i : ℕ) → i < LANES
        → slice_index result i ≡ stepped_sum entries.now step n (first + i) }
    ensures long { length result ≡ LANES }
{
    let mut sums = no_sums();
    for j in 0..n {
        let run = run_at(entries, first + step * j as usize);
        sums = sums.strict_add(u16x32::from_slice(run));
    }
    sums
}

// Makes of each entry, in its place, the sum of n entries: from it on, each so many further than
// the one before. No entry is written over before the sums that it is in are made, since those come
// no later. The last entries stay, from which no n runs can be read.
fn add_up(entries: &mut [u16], step: usize, n: u32)
    requires some { 1 ≤ n }
    requires reach { step * n < 2 ^ 32 }
    requires fits { (i : ℕ) → stepped_sum entries.old step n i < 2 ^ 16 }
    ensures { AreAdded step n entries.old entries.new }
{
    let reach = step * (n as usize - 1);
    let runs = entries.len().saturating_sub(reach) / LANES;
    for run in 0..runs {
        let first = LANES * run;
        let sums = stepped_sums(entries, first, step, n);
        sums.copy_to_slice(&mut entries[first..]);
    }
}

impl BlockSums {
    /// The sums of the cells of a box with cells inside the sample, each a block by itself, in raster order,
    /// and LANES entries of 0 after them. They take 2 bytes a cell, and no more while they are made. The one
    /// error is out of memory.
    pub(crate) fn of_cells(
        alloc: Global,
        sample: &Volume,
        rect: &Box3,
    ) -> Result<BlockSums, AllocError>
        requires inside { Holds sample.now rect.now.corner rect.now.size }
        requires some { HasCells rect.now.size }
        ensures sums { IfOk result (AreBlockSums sample.now) }
        ensures cells { IfOk result (λ sums. AreCellSums sample.now rect.now sums.sums.items) }
    {
        // Called for its contract only: it shows the prover that the sample is a volume.
        let _sample = sample.samples();
        let h = rect.size.h;
        let mut sums = Vec::with_capacity(alloc, rect.size.cells() + LANES)?;
        for row in 0..h * rect.size.f {
            add_cell_sums(&mut sums, sample, rect, row % h, row / h)?;
        }
        sums.extend_from_slice(&[0; LANES])?;
        Ok(BlockSums {
            rect: *rect,
            side: 1,
            sums,
        })
    }

    /// The sums of the blocks of a box inside the sample, of so many cells on each side: made of those
    /// of its cells, if it has any, in the place of a copy of those. They take 2 bytes a cell, and no more
    /// while they are made. The one error is out of memory.
    pub(crate) fn make(
        alloc: Global,
        sample: &Volume,
        rect: &Box3,
        side: u32,
        cells: &[u16],
    ) -> Result<BlockSums, AllocError>
        requires inside { Holds sample.now rect.now.corner rect.now.size }
        requires some { 1 ≤ side }
        requires few { 255 * block_bytes side sample.now.k < 2 ^ 16 }
        requires cells { HasCells rect.now.size → AreCellSums sample.now rect.now cells.now }
        ensures { IfOk result (AreBlockSums sample.now) }
    {
        if !has_cells(rect.size) {
            let none = vec![in alloc; 0u16; LANES]?;
            return Ok(BlockSums {
                rect: *rect,
                side,
                sums: none,
            });
        }
        // Called for its contract only: it shows the prover that the sample is a volume.
        let _sample = sample.samples();
        // First along the rows, then down the columns. A sum that runs past the end of a row or of a frame is
        // no block's.
        let mut sums = Vec::from_slice(alloc, cells)?;
        add_up(&mut sums, 1, side);
        add_up(&mut sums, rect.size.w as usize, side);
        Ok(BlockSums {
            rect: *rect,
            side,
            sums,
        })
    }

    /// The index of the entry of a place of the box.
    pub(crate) fn index_of(&self, at: At) -> usize
        requires small { IsSmall self.now.rect.size }
        requires fits { DifferenceFits at self.now.rect.corner }
        requires inside { IsInside self.now.rect.size (minus at self.now.rect.corner) }
        ensures { index_in self.now.rect.size (minus at self.now.rect.corner) ≡ Some result }
    {
        self.rect.size.index_of(at.minus(self.rect.corner)).unwrap()
    }

    /// The entries of a run of places, one a lane, from an entry on.
    #[inline(always)]
    pub(crate) fn run(&self, entry: usize) -> &[u16]
        requires { entry + LANES ≤ length self.now.sums.items }
        ensures run { result.now ≡ take LANES (drop entry self.now.sums.items) }
        ensures long { length result.now ≡ LANES }
    {
        run_at(&self.sums, entry)
    }
}
