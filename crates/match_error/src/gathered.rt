// The filled cells of a box as runs along X, gathered once for all placements of the box.
ghost use Rattle.std.specs.Prelude.{◌≡◌, ◌≤◌, ◌<◌, ◌+◌, ◌*◌, ◌^◌, ℕ, IfNone, IfOk, IfSome, IsTrue, OnOk, Some, length};
ghost use Rattle.cells.specs.Boxes.{HasCells, HoldsBox};
ghost use Rattle.cells.specs.Cells.{Holds, IsVolume, row_at};
ghost use Rattle.cells.specs.Places.{SumFits, plus, spot};
ghost use Rattle.map_canvas.specs.Canvases.{StandsOver};
ghost use Rattle.map_canvas.specs.Choices.{Fits};
ghost use Rattle.map_canvas.specs.Maps.{IsFilled};
ghost use Rattle.match_error.specs.Errors.{error_sum};
ghost use Rattle.match_error.specs.Runs.{AddsFrame, AddsRow, AddsRun, AreFilledRuns, AreRunsIn, IsFrontIndex, IsInRow, IsRunIn, run_error};

use crate::fronts::{cells_from, first_size, offset_in};
use crate::rows::step_to;
use cells::{At, Box3, Size, Volume};
use lane_kernels::ssd;
use limits::GREATEST_AXIS;
use map_canvas::{Canvas, Placement};
use std::alloc::{AllocError, Global};

/// A run of filled cells along X.
#[derive(Clone, Copy, Drop)]
struct FilledRun {
    // how far its first cell is from the box's corner
    step: At,
    // how many cells it has
    w: u32,
    // where its bytes begin
    start: usize,
    // how many cells later it begins than the box, in a part of the size that the runs are made for
    offset: usize,
}

/// The filled cells of a box, as runs along X with the bytes that are there. They serve all
/// placements of the box, as long as the canvas stays as it is.
#[derive(Drop)]
pub struct FilledRuns {
    // the size of a part whose rows and frames the offsets count
    part: Size,
    runs: Vec<FilledRun>,
    // of all runs, one after another
    bytes: Vec<u8>,
}

/// How many filled cells follow one another from a place on, along X, as far as so many.
pub(crate) fn filled_from(canvas: &Canvas, at: At, most: u32) -> u32
    requires few { most ≤ GREATEST_AXIS }
    requires fits { (j : ℕ) → j < most → SumFits at (spot j 0 0) }
    ensures most { result ≤ most }
    ensures filled { (j : ℕ) → j < result → IsFilled canvas.now.map (plus at (spot j 0 0)) }
    ensures end { result < most → IsFilled canvas.now.map (plus at (spot result 0 0)) → ⊥ }
{
    let mut n = 0;
    'filled: while n < most && canvas.is_filled(at.plus(step_to(n, 0, 0))) {
        n += 1;
    }
    n
}

impl FilledRuns {
    // One more run of n filled cells.
    fn add_run(
        &mut self,
        canvas: &Canvas,
        rect: &Box3,
        x: u32,
        y: u32,
        f: u32,
        n: u32,
    ) -> Result<(), AllocError>
        requires inside { HoldsBox canvas.now.map.size rect.now.corner rect.now.size }
        requires some { 1 ≤ n }
        requires row { IsInRow rect.now (x + n) y f }
        requires filled { (j : ℕ) → j < n
            → IsFilled canvas.now.map (plus rect.now.corner (spot (x + j) y f)) }
        requires runs { AreRunsIn canvas.now.picture.k rect.now self.old }
        ensures runs { OnOk result (AreRunsIn canvas.now.picture.k rect.now self.new) }
        ensures adds { OnOk result (AddsRun canvas.now rect.now x y f n self.old self.new) }
    {
        let picture = canvas.picture();
        let step = step_to(x, y, f);
        let offset = offset_in(self.part, x, y, f);
        let start = self.bytes.as_slice().len();
        let old = picture.row(rect.corner.plus(step), n);
        self.bytes.extend_from_slice(old)?;
        self.runs.push(FilledRun {
            step,
            w: n,
            start,
            offset,
        })?;
        Ok(())
    }

    // The runs of a row of the box.
    fn add_row(&mut self, canvas: &Canvas, rect: &Box3, y: u32, f: u32) -> Result<(), AllocError>
        requires inside { HoldsBox canvas.now.map.size rect.now.corner rect.now.size }
        requires row { IsInRow rect.now 0 y f }
        requires runs { AreRunsIn canvas.now.picture.k rect.now self.old }
        ensures runs { OnOk result (AreRunsIn canvas.now.picture.k rect.now self.new) }
        ensures adds { OnOk result (AddsRow canvas.now rect.now y f self.old self.new) }
    {
        // Called for its contract only: it shows the prover that this is a canvas.
        let _picture = canvas.picture();
        let w = rect.size.w;
        let mut x = 0;
        'cells: while x < w {
            let n = filled_from(canvas, rect.corner.plus(step_to(x, y, f)), w - x);
            if n > 0 {
                self.add_run(canvas, rect, x, y, f, n)?;
                x += n;
            } else {
                x += 1;
            }
        }
        Ok(())
    }

    // The runs of a frame of the box.
    fn add_frame(&mut self, canvas: &Canvas, rect: &Box3, f: u32) -> Result<(), AllocError>
        requires inside { HoldsBox canvas.now.map.size rect.now.corner rect.now.size }
        requires frame { f < rect.now.size.f }
        requires runs { AreRunsIn canvas.now.picture.k rect.now self.old }
        ensures runs { OnOk result (AreRunsIn canvas.now.picture.k rect.now self.new) }
        ensures adds { OnOk result (AddsFrame canvas.now rect.now f self.old self.new) }
    {
        for y in 0..rect.size.h {
            self.add_row(canvas, rect, y, f)?;
        }
        Ok(())
    }

    /// The filled cells of a box inside the output. They may be laid over any sample, and are laid
    /// quickest over the first part of this one.
    pub fn gather(
        alloc: Global,
        canvas: &Canvas,
        sample: &Volume,
        rect: &Box3,
    ) -> Result<FilledRuns, AllocError>
        requires inside { HoldsBox canvas.now.map.size rect.now.corner rect.now.size }
        ensures { IfOk result (AreFilledRuns canvas.now rect.now) }
    {
        let part = first_size(sample);
        let mut cells = FilledRuns {
            part,
            runs: Vec::new(alloc),
            bytes: Vec::new(alloc),
        };
        for f in 0..rect.size.f {
            cells.add_frame(canvas, rect, f)?;
        }
        Ok(cells)
    }

    // The index of a place of a sample's first part, where its rows and frames are as long as those that the
    // offsets count.
    #[tactic(auto, using(crate::proofs::Offsets::front_found))]
    fn front_index(&self, sample: &Volume, at: At) -> Option<usize>
        ensures { IfSome result (IsFrontIndex self.now.part sample.now at) }
    {
        let part = first_size(sample);
        if part.w == self.part.w && part.h == self.part.h {
            part.index_of(at)
        } else {
            None
        }
    }

    // The bytes that come to a run. A place costs more than an index, which a box has by its first cell.
    fn new_bytes<'a>(
        &self,
        run: &FilledRun,
        sample: &'a Volume,
        placement: &Placement,
        front: Option<usize>,
    ) -> &'a [u8]
        requires run { IsRunIn sample.now.k placement.now.rect self.now.part
            (length self.now.bytes.items) run.now }
        requires volume { IsVolume sample.now }
        requires some { HasCells placement.now.rect.size }
        requires sources { Holds sample.now placement.now.from placement.now.rect.size }
        requires front { IfSome front
            (IsFrontIndex self.now.part sample.now placement.now.from) }
        ensures bytes { result.now
            ≡ row_at sample.now (plus placement.now.from run.now.step) run.now.w }
        ensures len { length result.now ≡ sample.now.k * run.now.w }
    {
        match front {
            Some(i) => cells_from(sample, i + run.offset, run.w),
            None => sample.row(placement.from.plus(run.step), run.w),
        }
    }

    // The sum over a run.
    fn run_sum(
        &self,
        run: &FilledRun,
        sample: &Volume,
        placement: &Placement,
        front: Option<usize>,
    ) -> u64
        requires run { IsRunIn sample.now.k placement.now.rect self.now.part
            (length self.now.bytes.items) run.now }
        requires volume { IsVolume sample.now }
        requires some { HasCells placement.now.rect.size }
        requires sources { Holds sample.now placement.now.from placement.now.rect.size }
        requires front { IfSome front
            (IsFrontIndex self.now.part sample.now placement.now.from) }
        ensures sum { result
            ≡ run_error self.now.bytes.items sample.now placement.now.from run.now }
    {
        let new = self.new_bytes(run, sample, placement, front);
        ssd(&self.bytes[run.start..run.start + new.len()], new)
    }

    // Whether the bytes that come to a run are those that are there.
    fn is_same(
        &self,
        run: &FilledRun,
        sample: &Volume,
        placement: &Placement,
        front: Option<usize>,
    ) -> bool
        requires run { IsRunIn sample.now.k placement.now.rect self.now.part
            (length self.now.bytes.items) run.now }
        requires volume { IsVolume sample.now }
        requires some { HasCells placement.now.rect.size }
        requires sources { Holds sample.now placement.now.from placement.now.rect.size }
        requires front { IfSome front
            (IsFrontIndex self.now.part sample.now placement.now.from) }
        ensures same { IsTrue result → 0
            ≡ run_error self.now.bytes.items sample.now placement.now.from run.now }
    {
        let new = self.new_bytes(run, sample, placement, front);
        let old = &self.bytes[run.start..run.start + new.len()];
        old == new
    }

    // Whether a placement of the box puts there what is there already.
    fn is_exact(
        &self,
        canvas: &Canvas,
        sample: &Volume,
        placement: &Placement,
        front: Option<usize>,
    ) -> bool
        requires cells { AreFilledRuns canvas.now placement.now.rect self.now }
        requires over { StandsOver canvas.now sample.now }
        requires fits { Fits canvas.now.map.size sample.now placement.now }
        requires front { IfSome front
            (IsFrontIndex self.now.part sample.now placement.now.from) }
        ensures same { IsTrue result → 0 ≡ error_sum canvas.now.map sample.now placement.now }
    {
        // Called for their contracts only: they show the prover that these are a map and a volume.
        let _map = canvas.map();
        let _sample = sample.samples();
        'runs: for run in &self.runs {
            if !self.is_same(run, sample, placement, front) {
                return false;
            }
        }
        true
    }

    /// The sum of the overlap error of a placement of the box where it is at most a limit, else None. It
    /// stops after the run in which the sum passes the limit.
    pub fn error_sum_within(
        &self,
        canvas: &Canvas,
        sample: &Volume,
        placement: &Placement,
        limit: u64,
    ) -> Option<u64>
        requires cells { AreFilledRuns canvas.now placement.now.rect self.now }
        requires over { StandsOver canvas.now sample.now }
        requires fits { Fits canvas.now.map.size sample.now placement.now }
        ensures some { IfSome result (λ sum.
            sum ≡ error_sum canvas.now.map sample.now placement.now) }
        ensures most { IfSome result (λ sum. sum ≤ limit) }
        ensures small { IfSome result (λ sum. sum ≤ 2 ^ 48) }
        ensures bound { error_sum canvas.now.map sample.now placement.now ≤ 2 ^ 48 }
        ensures none { IfNone result (limit < error_sum canvas.now.map sample.now placement.now) }
    {
        // Called for their contracts only: they show the prover that these are a map and a volume.
        let _map = canvas.map();
        let _sample = sample.samples();
        let front = self.front_index(sample, placement.from);
        // Where only exact places are within the limit, there may be many: bytes are compared sooner than summed.
        if limit == 0 && self.is_exact(canvas, sample, placement, front) {
            return Some(0);
        }
        let mut sum: u64 = 0;
        'runs: for run in &self.runs {
            sum += self.run_sum(run, sample, placement, front);
            if sum > limit {
                return None;
            }
        }
        Some(sum)
    }
}
