// The overlap errors of the placements of one box.
ghost use Rattle.std.specs.Prelude.{◌≡◌, ◌≤◌, ◌<◌, ◌+◌, ◌*◌, ◌≤ℤ◌, pos, IfOk};
ghost use Rattle.cells.specs.Boxes.{HasCells, HoldsBox};
ghost use Rattle.map_canvas.specs.Canvases.{StandsOver};
ghost use Rattle.match_error.specs.Errors.{error_of};
ghost use Rattle.search_squares.specs.declared.joint.TheConstants.{MOST_TIMES};
ghost use Rattle.search_squares.specs.Eliminations.{AreEliminatedBy, AreSampleSums, error_from};

use crate::BoxErrors;
use cells::{At, Box3, Volume};
use limits::GREATEST_AXIS;
use map_canvas::{Canvas, Placement};
use match_error::{FilledRuns, filled_count};
use search_squares::{BoxLevels, Eliminated, Pauses, SampleSums, Term, eliminate_both};
use std::alloc::{AllocError, Global};

// How many cells of a box give likely places. After these come the places where blocks are close.
const HINTS: u32 = 16;

/// The filled cells of one box of a canvas, gathered for the overlap errors of its placements.
#[derive(Drop)]
pub struct Overlaps<'a> {
    pub(crate) canvas: &'a Canvas,
    pub(crate) sample: &'a Volume,
    pub(crate) sums: &'a SampleSums,
    pub(crate) rect: Box3,
    // how many cells of the box are filled
    pub(crate) count: u32,
    pub(crate) runs: FilledRuns,
    pub(crate) levels: BoxLevels,
}

// Four counts spread along an axis of so many cells, with the first and the last of them.
fn spread(len: u32, i: u32) -> i32
    requires len { (1 ≤ len) × (len ≤ GREATEST_AXIS) }
    requires few { i < 4 }
    ensures { (pos 0 ≤ℤ result) × (result ≤ℤ pos GREATEST_AXIS) }
{
    ((len - 1) * i / 3) as i32
}

impl Overlaps<'_> {
    ghost use Rattle.patch_place.specs.Overlaps.{AreOverlaps, IsOverlap};

    /// Gathers the filled cells of a box, for placements from all parts of the sample. The one error is
    /// out of memory.
    pub fn gather<'a>(
        alloc: Global,
        canvas: &'a Canvas,
        sample: &'a Volume,
        sums: &'a SampleSums,
        rect: &Box3,
    ) -> Result<Overlaps<'a>, AllocError>
        requires over { StandsOver canvas.now sample.now }
        requires sums { AreSampleSums sample.now sums.now }
        requires cells { HasCells rect.now.size }
        requires inside { HoldsBox canvas.now.map.size rect.now.corner rect.now.size }
        ensures ready { IfOk result AreOverlaps }
        ensures canvas { IfOk result (λ overlaps. overlaps.canvas.now ≡ canvas.now) }
        ensures sample { IfOk result (λ overlaps. overlaps.sample.now ≡ sample.now) }
        ensures sums { IfOk result (λ overlaps. overlaps.sums.now ≡ sums.now) }
        ensures rect { IfOk result (λ overlaps. overlaps.rect ≡ rect.now) }
    {
        let runs = FilledRuns::gather(alloc, canvas, sample, rect)?;
        let levels = BoxLevels::gather(alloc, canvas, rect, sums)?;
        Ok(Overlaps {
            canvas,
            sample,
            sums,
            rect: *rect,
            count: filled_count(canvas, rect),
            runs,
            levels,
        })
    }
}

impl Overlaps<'_> {
    ghost use Rattle.patch_place.specs.Overlaps.{AreOverlaps};

    /// Of the places along X from that of a placement on, in the part with this number, counted from 0, some
    /// from which the sum of the box and that of another box laid from there, each taken so many times, come to
    /// more than a limit. Both boxes go by the same sums. The pauses are those of the runs before.
    pub fn eliminate_both(
        &self,
        times: u32,
        other: &Overlaps<'_>,
        other_times: u32,
        from: At,
        part: u32,
        limit: u64,
        pauses: &mut Pauses,
    ) -> Eliminated
        requires ready { AreOverlaps self.now }
        requires other { AreOverlaps other.now }
        requires sums { AreSampleSums other.now.sample.now self.now.sums.now }
        requires some { (1 ≤ times) × (1 ≤ other_times) }
        requires few { (times ≤ MOST_TIMES) × (other_times ≤ MOST_TIMES) }
        ensures { AreEliminatedBy (λ at. times
            * error_from self.now.canvas.now self.now.sample.now self.now.rect at + other_times
            * error_from other.now.canvas.now other.now.sample.now other.now.rect at) result }
    {
        let one = Term {
            times,
            canvas: self.canvas,
            sample: self.sample,
            rect: self.rect,
            levels: &self.levels,
        };
        let second = Term {
            times: other_times,
            canvas: other.canvas,
            sample: other.sample,
            rect: other.rect,
            levels: &other.levels,
        };
        eliminate_both(&one, &second, self.sums, part, from, limit, pauses)
    }
}

impl BoxErrors for Overlaps<'_> {
    ghost use Rattle.patch_place.specs.Overlaps.{AreOverlaps, IsOverlap};

    ghost error = { λ o. error_of o.canvas.now.map o.sample.now };

    ghost IsReady = { AreOverlaps };

    ghost MayAsk = { IsOverlap };

    fn count(&self) -> u32 {
        // Called for their contracts only: they show the prover that these are a map and a volume.
        let _map = self.canvas.map();
        let _samples = self.sample.samples();
        self.count
    }

    #[inline(always)]
    fn sum_within(&self, placement: &Placement, limit: u64) -> Option<u64> {
        self.runs
            .error_sum_within(self.canvas, self.sample, placement, limit)
    }

    fn eliminate(
        &self,
        placement: &Placement,
        part: u32,
        limit: u64,
        pauses: &mut Pauses,
    ) -> Eliminated {
        let from = placement.from;
        self.levels.eliminate(
            self.sums,
            self.canvas,
            self.sample,
            &placement.rect,
            part,
            from,
            limit,
            pauses,
        )
    }

    fn hints(&self) -> u32 {
        self.sums.likely(self.rect.size).saturating_add(HINTS)
    }

    fn hint(&self, i: u32) -> Option<At> {
        if i >= HINTS {
            let number = i - HINTS;
            return self
                .levels
                .likely(self.sums, self.canvas, self.sample, &self.rect, number);
        }
        // The box goes on from there with what is at one of 16 cells of it, where that is filled. They are
        // spread over its rows and columns, in its first frame or, every other one, in its last.
        let map = self.canvas.map();
        let size = self.rect.size;
        let step = At {
            x: spread(size.w, i % 4),
            y: spread(size.h, i / 4),
            f: spread(size.f, (i + i / 4) % 2 * 3),
        };
        let source = map.at(self.rect.corner.plus(step))?;
        Some(source.minus(step))
    }
}
