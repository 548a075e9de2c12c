// Blocks of several sizes, of a whole sample and of one box of the output.
ghost use Rattle.std.specs.Prelude.{◌≡◌, ◌≤◌, ◌<◌, ◌*◌, ◌^◌, IfOk, IsTrue, OnErr, OnOk, length};
ghost use Rattle.cells.specs.Boxes.{HasCells, HoldsBox};
ghost use Rattle.cells.specs.Cells.{Cells};
ghost use Rattle.cells.specs.Places.{cell_count};
ghost use Rattle.map_canvas.specs.Canvases.{StandsOver};
ghost use Rattle.search_squares.specs.Blocks.{AreBoxBlocks, block_bytes};
ghost use Rattle.search_squares.specs.Bounds.{AreAbove};
ghost use Rattle.search_squares.specs.Eliminations.{AreBoxLevels, AreEliminated, AreSampleSums};
ghost use Rattle.search_squares.specs.Gathered.{HasShortRows, MarkFilled};
ghost use Rattle.search_squares.specs.Sums.{AreBlockSums, AreCellSums};

use crate::blocks::{BoxBlocks, filled_cells};
use crate::bound::scale_of;
use crate::eliminated::Eliminated;
use crate::lanes::{left_in, marks, marks_of_both};
use crate::pauses::Pauses;
use crate::places::{holds_run, places_to_end};
use crate::sums::{BlockSums, LANES};
use boxes::has_cells;
use cells::{At, Box3, Size, Volume};
use limits::{GREATEST_AXIS, MOST_CHANNELS};
use map_canvas::Canvas;
use std::alloc::{AllocError, Global};

/// How many sizes of blocks there are: the coarse level, the middle one, the fine one, and that of single
/// cells.
pub(crate) const LEVELS: usize = 4;

// The cells of a block of the middle level on each side.
const MIDDLE_SIDE: u32 = 4;

// The cells of a block of the fine level on each side.
const FINE_SIDE: u32 = 2;

// That of single cells, each of which is a block. Its sums are those of a cell's samples.
const SINGLE_SIDE: u32 = 1;

// The most bytes of a sample that has sums of all levels: a greater one has those of the coarse level and
// of single cells, which take half as much memory. Single cells serve boxes too small for any other block.
const MOST_BYTES_OF_ALL: usize = 1 << 22;

// The most places of a run for which each level isn't tried: that takes about as long as to sum up so
// many errors. The last run of a row often has a single place.
pub(crate) const FEW_PLACES: [u32; LEVELS] = [1, 3, 3, 16];

// The cells of a block of the coarse level on each side: not so many that the bytes of a block can
// add up to 2^16.
fn coarse_side(k: u32) -> u32
    requires { k ≤ MOST_CHANNELS }
    ensures some { 1 ≤ result }
    ensures few { 255 * block_bytes result k < 2 ^ 16 }
{
    if k <= 4 {
        return 8;
    }
    6
}

// The box that has sums of all levels, of that of a part: all of it, or no cell of it where the sample is
// too great.
fn box_of_all(sample: &Volume, part: &Box3) -> Box3
    ensures { HasCells result.size → result ≡ part.now }
{
    if sample.bytes().len() <= MOST_BYTES_OF_ALL {
        return *part;
    }
    Box3 {
        corner: part.corner,
        size: Size { w: 0, h: 0, f: 0 },
    }
}

/// The sums of the blocks of all parts of a sample, of several sizes. Made once, they serve all picks
/// from it.
#[derive(Drop)]
pub struct SampleSums {
    // those of the first part, from the coarse level on, then those of the next
    pub(crate) levels: Vec<BlockSums>,
}

impl SampleSums {
    /// No sums, by which no place is eliminated. It takes no memory.
    pub fn none(alloc: Global) -> SampleSums
        ensures { (sample : Cells) → AreSampleSums sample result }
    {
        SampleSums {
            levels: Vec::new(alloc),
        }
    }

    // The sums of the blocks of one size more, of one part, by those of its cells.
    fn add_level(
        &mut self,
        alloc: Global,
        sample: &Volume,
        rect: &Box3,
        side: u32,
        cells: &BlockSums,
    ) -> Result<(), AllocError>
        requires some { 1 ≤ side }
        requires few { 255 * block_bytes side sample.now.k < 2 ^ 16 }
        requires cells { HasCells rect.now.size
            → AreCellSums sample.now rect.now cells.now.sums.items }
        requires sums { AreSampleSums sample.now self.old }
        ensures { OnOk result (AreSampleSums sample.now self.new) }
    {
        if !sample.holds(rect) {
            return Ok(());
        }
        let sums = BlockSums::make(alloc, sample, rect, side, &cells.sums)?;
        self.levels.push(sums)?;
        Ok(())
    }

    // The sums of the blocks of all sizes, of one part: wider ones by those of its cells.
    fn add_part(&mut self, alloc: Global, sample: &Volume, rect: &Box3) -> Result<(), AllocError>
        requires sums { AreSampleSums sample.now self.old }
        ensures { OnOk result (AreSampleSums sample.now self.new) }
    {
        if !has_cells(rect.size) || !sample.holds(rect) {
            return Ok(());
        }
        let side = coarse_side(sample.samples());
        let all = box_of_all(sample, rect);
        let cells = BlockSums::of_cells(alloc, sample, rect)?;
        self.add_level(alloc, sample, rect, side, &cells)?;
        self.add_level(alloc, sample, &all, MIDDLE_SIDE, &cells)?;
        self.add_level(alloc, sample, &all, FINE_SIDE, &cells)?;
        self.levels.push(cells)?;
        Ok(())
    }

    /// The sums of all parts of a sample. They take 8 bytes a cell, or 4 where the sample has more than
    /// 2^22 bytes, and some more a part; and no more while they are made. The one error is out of
    /// memory.
    pub fn make(alloc: Global, sample: &Volume) -> Result<SampleSums, AllocError>
        ensures { IfOk result (AreSampleSums sample.now) }
    {
        let mut sums = SampleSums::none(alloc);
        let sizes = sample.sizes();
        for n in 0..sizes.len() {
            let size = sizes.at(n + 1);
            let corner = sizes.stock(n + 1, At { x: 0, y: 0, f: 0 });
            sums.add_part(alloc, sample, &Box3 { corner, size })?;
        }
        Ok(sums)
    }

    /// The same where a search goes by them, and else no sums, which take no memory.
    pub fn make_if(alloc: Global, sample: &Volume, wanted: bool) -> Result<SampleSums, AllocError>
        ensures sums { IfOk result (AreSampleSums sample.now) }
        ensures memory { OnErr result (IsTrue wanted) }
    {
        if wanted {
            SampleSums::make(alloc, sample)
        } else {
            Ok(SampleSums::none(alloc))
        }
    }
}

/// Disjoint blocks of the filled cells of one box, of several sizes. They serve all placements of the
/// box, as long as the canvas stays as it is.
#[derive(Drop)]
pub struct BoxLevels {
    // from the coarse level on
    pub(crate) levels: Vec<BoxBlocks>,
}

impl BoxLevels {
    // The blocks of one size more.
    fn add_level(
        &mut self,
        alloc: Global,
        canvas: &Canvas,
        rect: &Box3,
        side: u32,
        size: Size,
        filled: &[bool],
    ) -> Result<(), AllocError>
        requires inside { HoldsBox canvas.now.map.size rect.now.corner rect.now.size }
        requires cells { HasCells rect.now.size }
        requires some { 1 ≤ side }
        requires few { 255 * block_bytes side canvas.now.picture.k < 2 ^ 16 }
        requires rows { HasShortRows size }
        requires long { length filled.now ≡ cell_count rect.now.size }
        requires filled { MarkFilled canvas.now.map rect.now filled.now }
        requires levels { AreBoxLevels canvas.now rect.now self.old }
        ensures { OnOk result (AreBoxLevels canvas.now rect.now self.new) }
    {
        let mut blocks = BoxBlocks::gather_of(alloc, canvas, rect, side, size, filled)?;
        blocks.put_far_first();
        self.levels.push(blocks)?;
        Ok(())
    }

    // The blocks of all sizes.
    fn add_all(
        &mut self,
        alloc: Global,
        canvas: &Canvas,
        rect: &Box3,
        size: Size,
        filled: &[bool],
    ) -> Result<(), AllocError>
        requires inside { HoldsBox canvas.now.map.size rect.now.corner rect.now.size }
        requires cells { HasCells rect.now.size }
        requires rows { HasShortRows size }
        requires long { length filled.now ≡ cell_count rect.now.size }
        requires filled { MarkFilled canvas.now.map rect.now filled.now }
        requires levels { AreBoxLevels canvas.now rect.now self.old }
        ensures { OnOk result (AreBoxLevels canvas.now rect.now self.new) }
    {
        let side = coarse_side(canvas.picture().samples());
        self.add_level(alloc, canvas, rect, side, size, filled)?;
        self.add_level(alloc, canvas, rect, MIDDLE_SIDE, size, filled)?;
        self.add_level(alloc, canvas, rect, FINE_SIDE, size, filled)?;
        self.add_level(alloc, canvas, rect, SINGLE_SIDE, size, filled)
    }

    /// The blocks of the sizes that a sample's sums have; none where it has none. The one error is out
    /// of memory.
    pub fn gather(
        alloc: Global,
        canvas: &Canvas,
        rect: &Box3,
        sums: &SampleSums,
    ) -> Result<BoxLevels, AllocError>
        requires inside { HoldsBox canvas.now.map.size rect.now.corner rect.now.size }
        ensures { IfOk result (AreBoxLevels canvas.now rect.now) }
    {
        let mut levels = BoxLevels {
            levels: Vec::new(alloc),
        };
        let Some(first) = sums.levels.first() else {
            return Ok(levels);
        };
        let size = first.rect.size;
        if !has_cells(rect.size) || size.w > GREATEST_AXIS || size.h > GREATEST_AXIS {
            return Ok(levels);
        }
        let filled = filled_cells(alloc, canvas, rect)?;
        levels.add_all(alloc, canvas, rect, size, &filled)?;
        Ok(levels)
    }

    // Those that the blocks of one level eliminate, as far as they show it, by the sums of one part: place j by the
    // bit of 2^j. None where the box, laid from one of the places, isn't in that of the sums.
    fn level_marks(
        &self,
        level: usize,
        sums: &SampleSums,
        canvas: &Canvas,
        sample: &Volume,
        rect: &Box3,
        part: u32,
        from: At,
        n: u32,
        limit: u64,
    ) -> u32
        requires below { level < LEVELS }
        requires over { StandsOver canvas.now sample.now }
        requires inside { HoldsBox canvas.now.map.size rect.now.corner rect.now.size }
        requires sums { AreSampleSums sample.now sums.now }
        requires levels { AreBoxLevels canvas.now rect.now self.now }
        requires few { n ≤ LANES }
        ensures { AreAbove canvas.now sample.now rect.now from n limit result }
    {
        let Some(blocks) = self.levels.get(level) else {
            return 0;
        };
        let Some(sums) = sums.levels.get(LEVELS * part as usize + level) else {
            return 0;
        };
        if n == 0 || blocks.side != sums.side || !holds_run(&sums.rect, rect.size, from, n) {
            return 0;
        }
        let Some(scale) = scale_of(blocks.side, sample.samples(), limit) else {
            return 0;
        };
        let totals = blocks.totals(sums, canvas, sample, rect, from, n, scale);
        marks(totals, scale.most)
    }

    // Those that the blocks of one of the levels eliminate. A finer level is left out where the coarser ones
    // leave so few places that their errors are summed up sooner, and where it was of little use to the
    // runs before.
    fn marks(
        &self,
        sums: &SampleSums,
        canvas: &Canvas,
        sample: &Volume,
        rect: &Box3,
        part: u32,
        from: At,
        n: u32,
        limit: u64,
        pauses: &mut Pauses,
    ) -> u32
        requires over { StandsOver canvas.now sample.now }
        requires inside { HoldsBox canvas.now.map.size rect.now.corner rect.now.size }
        requires sums { AreSampleSums sample.now sums.now }
        requires levels { AreBoxLevels canvas.now rect.now self.now }
        requires few { n ≤ LANES }
        ensures { AreAbove canvas.now sample.now rect.now from n limit result }
    {
        if n <= FEW_PLACES[0] {
            return 0;
        }
        let mut marks = self.level_marks(0, sums, canvas, sample, rect, part, from, n, limit);
        'levels: for level in 1..LEVELS {
            let left = left_in(marks, n);
            if left <= FEW_PLACES[level] {
                return marks;
            }
            if pauses.leaves_out(level) {
                continue 'levels;
            }
            let more = self.level_marks(level, sums, canvas, sample, rect, part, from, n, limit);
            marks = marks_of_both(marks, more);
            pauses.count(level, left, left_in(marks, n));
        }
        marks
    }

    /// Of a run of places along X, from one on, those that the box can't be laid from with an error up
    /// to a limit. The run has no more places than the box may be laid from in the part with this
    /// number, counted from 0. The pauses are those of the runs before.
    pub fn eliminate(
        &self,
        sums: &SampleSums,
        canvas: &Canvas,
        sample: &Volume,
        rect: &Box3,
        part: u32,
        from: At,
        limit: u64,
        pauses: &mut Pauses,
    ) -> Eliminated
        requires over { StandsOver canvas.now sample.now }
        requires inside { HoldsBox canvas.now.map.size rect.now.corner rect.now.size }
        requires sums { AreSampleSums sample.now sums.now }
        requires levels { AreBoxLevels canvas.now rect.now self.now }
        ensures { AreEliminated canvas.now sample.now rect.now result }
    {
        let Some(coarse) = sums.levels.get(LEVELS * part as usize) else {
            return Eliminated::none();
        };
        let n = places_to_end(&coarse.rect, rect.size.w, from);
        if n == 0 {
            return Eliminated::none();
        }
        let above = self.marks(sums, canvas, sample, rect, part, from, n, limit, pauses);
        Eliminated {
            from,
            n,
            limit,
            above,
        }
    }
}
