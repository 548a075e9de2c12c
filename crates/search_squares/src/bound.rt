// Which of a run of places are above a limit.
ghost use Rattle.std.specs.Prelude.{◌≡◌, ◌≤◌, ◌<◌, ◌+◌, ◌*◌, ◌^◌, ℕ, IfSome, IsTrue, slice_index};
ghost use Rattle.cells.specs.Places.{raster_index, spot};
ghost use Rattle.search_squares.specs.Blocks.{AreBoxBlocks, HasEntry, block_bytes, blocks_difference};
ghost use Rattle.search_squares.specs.Bounds.{IsBoxIn, MayBeLaid, place_along};
ghost use Rattle.search_squares.specs.Gathered.{HasShortRows, IsCellStep};
ghost use Rattle.search_squares.specs.Sums.{AreBlockSums};

use crate::blocks::{Block, BoxBlocks};
use crate::lanes::{left_in, marks, no_sums, with_block};
use crate::rows::entries_before;
use crate::sums::{BlockSums, LANES};
use cells::{At, Box3, Size, Volume};
use map_canvas::Canvas;
use std::simd::prelude::*;

// After how many blocks, at the least, it is seen whether all places are above the limit. That takes as
// long as two or three blocks.
const LEAST_STRETCH: usize = 8;

// How often it is seen, about, where there are many blocks.
const STRETCHES: usize = 32;

// By how many bits differences are shifted up at most.
const MOST_UP: u32 = 8;

// How totals are compared with a limit. They are counted in units of 2^16, and have 16 bits a lane.
#[derive(Clone, Copy, Drop)]
pub(crate) struct Scale {
    // how many times differences are taken, so that few of their bits are lost
    pub(crate) factor: u16,
    // the most that a total may be where the error is at most the limit
    pub(crate) most: u16,
}

// The scale for a limit: the factor is a power of two by which the most still fits. By it no difference
// comes to more than 3/4 of 2^16, unless one does by itself: read as a signed number, each is 2^14 or
// more from 0 where it doesn't fit. One does by itself only in blocks of more than 192 bytes (8x8 cells with
// 4 samples, 6x6 with 6), between a nearly black one and a nearly white one. None where there isn't a
// factor, since no total would be above the most.
pub(crate) fn scale_of(side: u32, k: u32, limit: u64) -> Option<Scale>
    requires some { 1 ≤ k }
    requires few { 255 * block_bytes side k < 2 ^ 16 }
    ensures { IfSome result (λ scale. scale.factor * scale.factor * (block_bytes side k * limit)
        < 2 ^ 16 * (scale.most + 1)) }
{
    let cells = side * side;
    let bytes = cells * k;
    let bound = u64::from(bytes).saturating_mul(limit);
    let farthest = 255 * bytes;
    let up = (farthest + farthest / 3)
        .leading_zeros()
        .saturating_sub(16)
        .min(bound.leading_zeros().saturating_sub(32) / 2)
        .min(MOST_UP);
    let factor = 1u16 << up;
    let square = u64::from(factor) * u64::from(factor);
    let most = bound.saturating_mul(square) >> 16;
    if most > u64::from(u16::MAX) {
        return None;
    }
    let most = most as u16;
    Some(Scale { factor, most })
}

impl Block {
    // How many cells come before the block's first one in a box of a size: the block's own entry, where
    // that is counted by this size.
    #[inline(always)]
    fn entry_in(&self, size: Size, own: bool) -> usize
        requires rows { HasShortRows size }
        requires step { IsCellStep self.now.step }
        requires own { IsTrue own → HasEntry size self.now }
        ensures { (x y f : ℕ) → self.now.step ≡ spot x y f → result ≡ raster_index size x y f }
    {
        if own {
            return self.entry;
        }
        entries_before(size, self.step)
    }
}

impl BoxBlocks {
    // For each of the places a total that is at most how far the blocks are from those of the sample, in
    // units of 2^16 and by the factor squared. It stops where all of them are above the most. It is inlined
    // for the blocks' own entries and for others, so that the inner loop doesn't ask which they are.
    #[inline(always)]
    fn totals_by(
        &self,
        sums: &BlockSums,
        canvas: &Canvas,
        sample: &Volume,
        rect: &Box3,
        from: At,
        n: u32,
        scale: Scale,
        own: bool,
    ) -> u16x32
        requires blocks { AreBoxBlocks canvas.now rect.now self.now }
        requires sums { AreBlockSums sample.now sums.now }
        requires side { self.now.side ≡ sums.now.side }
        requires some { 1 ≤ n }
        requires few { n ≤ LANES }
        requires own { IsTrue own → self.now.size ≡ sums.now.rect.size }
        requires laid { MayBeLaid canvas.now sample.now rect.now from n }
        requires inside { (j : ℕ) → j < n
            → IsBoxIn sums.now.rect (place_along from j) rect.now.size }
        ensures { (j : ℕ) → j < n → 2 ^ 16 * slice_index result j ≤ scale.factor * scale.factor
            * blocks_difference self.now sample.now (place_along from j) }
    {
        let first = sums.index_of(from);
        let size = sums.rect.size;
        let blocks = self.blocks.as_slice();
        let stretch = (blocks.len() / STRETCHES).max(LEAST_STRETCH);
        let mut totals = no_sums();
        let mut done = 0;
        'stretches: while done < blocks.len() {
            let end = done.saturating_add(stretch).min(blocks.len());
            for i in done..end {
                let block = &blocks[i];
                let run = sums.run(first + block.entry_in(size, own));
                totals = with_block(totals, block.sum, run, scale.factor);
            }
            done = end;
            if done < blocks.len() && left_in(marks(totals, scale.most), n) == 0 {
                return totals;
            }
        }
        totals
    }

    /// The same, by the blocks' own entries where those are counted by the size of the sums' box.
    pub(crate) fn totals(
        &self,
        sums: &BlockSums,
        canvas: &Canvas,
        sample: &Volume,
        rect: &Box3,
        from: At,
        n: u32,
        scale: Scale,
    ) -> u16x32
        requires blocks { AreBoxBlocks canvas.now rect.now self.now }
        requires sums { AreBlockSums sample.now sums.now }
        requires side { self.now.side ≡ sums.now.side }
        requires some { 1 ≤ n }
        requires few { n ≤ LANES }
        requires laid { MayBeLaid canvas.now sample.now rect.now from n }
        requires inside { (j : ℕ) → j < n
            → IsBoxIn sums.now.rect (place_along from j) rect.now.size }
        ensures { (j : ℕ) → j < n → 2 ^ 16 * slice_index result j ≤ scale.factor * scale.factor
            * blocks_difference self.now sample.now (place_along from j) }
    {
        if self.size == sums.rect.size {
            return self.totals_by(sums, canvas, sample, rect, from, n, scale, true);
        }
        self.totals_by(sums, canvas, sample, rect, from, n, scale, false)
    }
}
