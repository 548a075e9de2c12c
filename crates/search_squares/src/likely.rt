// Likely places to lay a box from: of some rows of places, the one where its blocks come closest.
ghost use Rattle.std.specs.Prelude.{◌≤◌};
ghost use Rattle.cells.specs.Boxes.{HoldsBox};
ghost use Rattle.map_canvas.specs.Canvases.{StandsOver};
ghost use Rattle.search_squares.specs.Blocks.{AreBoxBlocks};
ghost use Rattle.search_squares.specs.Eliminations.{AreBoxLevels, AreSampleSums};
ghost use Rattle.search_squares.specs.Sums.{AreBlockSums};

use crate::blocks::BoxBlocks;
use crate::bound::Scale;
use crate::levels::{BoxLevels, LEVELS, SampleSums};
use crate::places::holds_run;
use crate::sums::{BlockSums, LANES};
use cells::{At, Box3, Size, Volume};
use map_canvas::Canvas;
use std::simd::prelude::*;

// Of how many rows of places one is searched, the middle one.
const ROWS: u32 = 32;

// How far a byte of a likely place may be from the box's, on average: totals of places that are farther
// come to the greatest number, so that those of close places have many bits.
const FAR: u64 = 16;

// How many places along one axis a box of so many cells can be laid from, in a part of so many.
fn places_on(part: u32, len: u32) -> u32 {
    part.saturating_add(1).saturating_sub(len)
}

// The places that a box can be laid from in a part.
fn room_in(part: Size, size: Size) -> Size {
    Size {
        w: places_on(part.w, size.w),
        h: places_on(part.h, size.h),
        f: places_on(part.f, size.f),
    }
}

// How many rows of places are searched.
fn rows_in(room: Size) -> u32 {
    room.h.saturating_mul(room.f).saturating_add(ROWS / 2 - 1) / ROWS
}

// The place so many cells further along X.
fn stepped(at: At, n: u32) -> At {
    At {
        x: at.x.wrapping_add(n.cast_signed()),
        y: at.y,
        f: at.f,
    }
}

impl BoxBlocks {
    // Of n places along X from one on, the first one of the least total, and that total, if it is less than
    // another. The box has to lie in that of the sums, laid from each.
    fn nearest_of(
        &self,
        sums: &BlockSums,
        canvas: &Canvas,
        sample: &Volume,
        rect: &Box3,
        from: At,
        n: u32,
        factor: u16,
        least: u16,
    ) -> Option<(u16, At)>
        requires over { StandsOver canvas.now sample.now }
        requires inside { HoldsBox canvas.now.map.size rect.now.corner rect.now.size }
        requires blocks { AreBoxBlocks canvas.now rect.now self.now }
        requires sums { AreBlockSums sample.now sums.now }
        requires few { n ≤ LANES }
    {
        // Called for its contract only: it shows the prover that the sample is a volume.
        let _sample = sample.samples();
        if n == 0 {
            return None;
        }
        if self.side != sums.side || !holds_run(&sums.rect, rect.size, from, n) {
            return None;
        }
        let scale = Scale {
            factor,
            most: least.saturating_sub(1),
        };
        let totals = self.totals(sums, canvas, sample, rect, from, n, scale);
        let total = totals.reduce_min();
        let lane = totals
            .simd_eq(u16x32::splat(total))
            .to_bitmask()
            .trailing_zeros();
        if total >= least || lane >= n {
            return None;
        }
        Some((total, stepped(from, lane)))
    }

    // The same of a row of so many places.
    fn nearest_in(
        &self,
        sums: &BlockSums,
        canvas: &Canvas,
        sample: &Volume,
        rect: &Box3,
        from: At,
        n: u32,
    ) -> Option<At>
        requires over { StandsOver canvas.now sample.now }
        requires inside { HoldsBox canvas.now.map.size rect.now.corner rect.now.size }
        requires blocks { AreBoxBlocks canvas.now rect.now self.now }
        requires sums { AreBlockSums sample.now sums.now }
    {
        let k = sample.samples();
        let bytes = self.side.saturating_mul(self.side).saturating_mul(k);
        let blocks = self.blocks.as_slice().len() as u64;
        let far = FAR
            .saturating_mul(u64::from(bytes))
            .saturating_mul(blocks.isqrt().saturating_add(1));
        // How many times differences are taken for the totals.
        let factor = (65536 / far.max(1)).clamp(1, 256) as u16;
        let width = n.min(LANES as u32);
        let mut least = u16::MAX;
        let mut nearest = None;
        'runs: for run in 0..n.div_ceil(LANES as u32) {
            // The last run of a row begins so far before its end as it is long.
            let x = run.saturating_mul(LANES as u32).min(n - width);
            let at = stepped(from, x);
            if let Some((total, place)) = self.nearest_of(
                sums, canvas, sample, rect, at, width, factor, least,
            ) {
                least = total;
                nearest = Some(place);
            }
        }
        nearest
    }
}

impl SampleSums {
    /// How many likely places a box of a size may have.
    pub fn likely(&self, size: Size) -> u32 {
        let mut count = 0u32;
        'levels: for i in 0..self.levels.len() {
            if i % LEVELS == 0 {
                count = count.saturating_add(rows_in(room_in(self.levels[i].rect.size, size)));
            }
        }
        count
    }

    // The index of the coarse level of the part that a row is in, and the number of the row in it: of the
    // rows of all parts that are searched, the one with this number.
    fn row_at(&self, size: Size, number: u32) -> Option<(usize, u32)> {
        let mut rest = number;
        'levels: for i in 0..self.levels.len() {
            if i % LEVELS == 0 {
                let rows = rows_in(room_in(self.levels[i].rect.size, size));
                if rest < rows {
                    return Some((i, rest));
                }
                rest -= rows;
            }
        }
        None
    }
}

impl BoxLevels {
    /// A likely place to lay the box from, by its number, counted from 0: of a row of places the one where the
    /// coarse blocks come closest. None where they come close nowhere. It only says what to try, so nothing is
    /// promised.
    pub fn likely(
        &self,
        sums: &SampleSums,
        canvas: &Canvas,
        sample: &Volume,
        rect: &Box3,
        number: u32,
    ) -> Option<At>
        requires over { StandsOver canvas.now sample.now }
        requires inside { HoldsBox canvas.now.map.size rect.now.corner rect.now.size }
        requires sums { AreSampleSums sample.now sums.now }
        requires levels { AreBoxLevels canvas.now rect.now self.now }
    {
        let blocks = self.levels.get(0)?;
        if blocks.blocks.is_empty() {
            return None;
        }
        let (i, row) = sums.row_at(rect.size, number)?;
        let part = sums.levels.get(i)?;
        let room = room_in(part.rect.size, rect.size);
        let row = row.saturating_mul(ROWS).saturating_add(ROWS / 2);
        // The first place of the row, which is counted through all frames.
        let corner = part.rect.corner;
        let h = room.h.max(1);
        let from = At {
            x: corner.x,
            y: corner.y.wrapping_add((row % h).cast_signed()),
            f: corner.f.wrapping_add((row / h).cast_signed()),
        };
        blocks.nearest_in(part, canvas, sample, rect, from, room.w)
    }
}
