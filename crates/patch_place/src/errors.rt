// The shortlist of a list of candidates, of which a draw picks an entry.
ghost use Rattle.std.specs.Prelude.{◌≡◌, ◌<◌, ◌+◌, ◌^◌, IfOk, IfSome, OnOk, Some, length, slice_get};
ghost use Rattle.cells.specs.Boxes.{HoldsBox};
ghost use Rattle.search_squares.specs.Eliminations.{AreSampleSums};
ghost use Rattle.map_canvas.specs.Canvases.{StandsOver};
ghost use Rattle.map_canvas.specs.Choices.{Fits};
ghost use Rattle.match_error.specs.Errors.{error_of};
ghost use Rattle.match_error.specs.Rows.{AreFilledRows};
ghost use Rattle.match_error.specs.Tables.{AreFilledCounts};
ghost use Rattle.offset_errors.specs.Errors.{AreErrors};
ghost use Rattle.patch_picks.specs.Lists.{IsWithin};
ghost use Rattle.patch_picks.specs.Picks.{AllFit, errors_on, listed_on};
ghost use Rattle.patch_place.specs.Tables.{IsMore, IsShortlistOf, IsSoundShortlist};

use crate::Overlaps;
use crate::offsets::PartErrors;
use crate::reach::around_of;
use crate::shortlist::Shortlist;
use crate::walk::box_shortlist;
use cells::{Box3, Volume};
use map_canvas::{Canvas, Placement};
use match_error::{Error, FilledCounts, FilledRows, error_sum_within, overlap_error};
use patch_picks::Candidates;
use search_squares::SampleSums;
use std::alloc::{AllocError, Global};

// How many candidates tell the mean error.
const SOME: u32 = 16;

// How many candidates there are for a canvas and a sample.
pub(crate) fn count_for(list: &Candidates, canvas: &Canvas, sample: &Volume) -> u32
    ensures { result ≡ length (listed_on canvas.now sample.now list.now) }
{
    list.count(canvas.map().size(), sample)
}

// One of them, which fits where all of them do.
pub(crate) fn entry_for(list: &Candidates, canvas: &Canvas, sample: &Volume, i: u32) -> Placement
    requires within { IsWithin list.now canvas.now.map.size }
    requires below { i < length (listed_on canvas.now sample.now list.now) }
    ensures at { slice_get (listed_on canvas.now sample.now list.now) i ≡ Some result }
    ensures fits { AllFit canvas.now sample.now list.now
        → Fits canvas.now.map.size sample.now result }
{
    list.entry(i, canvas.map().size(), sample)
}

impl Shortlist {
    // One more candidate, whose filled cells are counted by the sums. Its error is that of its offset where
    // these are summed, or is summed over the runs of many.
    fn add(
        &mut self,
        counts: &FilledCounts,
        rows: &FilledRows,
        errors: &PartErrors,
        canvas: &Canvas,
        sample: &Volume,
        placement: &Placement,
    ) -> Result<(), AllocError>
        requires over { StandsOver canvas.now sample.now }
        requires fits { Fits canvas.now.map.size sample.now placement.now }
        requires counts { AreFilledCounts canvas.now.map counts.now }
        requires rows { AreFilledRows canvas.now.map rows.now }
        requires errors { IfSome errors.now.errors (AreErrors canvas.now.map sample.now) }
        requires few { self.old.seen + 1 < 2 ^ 32 }
        requires sound { IsSoundShortlist self.old }
        ensures more { OnOk result (IsMore self.old self.new
            (error_of canvas.now.map sample.now placement.now)) }
        ensures sound { OnOk result (IsSoundShortlist self.new) }
        ensures tol { self.new.tol ≡ self.old.tol }
        ensures known { self.new.known ≡ self.old.known }
        ensures seen { OnOk result (self.new.seen ≡ self.old.seen + 1) }
    {
        let count = counts.count(canvas, &placement.rect);
        if count == 0 {
            self.skip();
            return Ok(());
        }
        if let Some(sum) = errors.sum(canvas, sample, placement) {
            return self.keep(&Error { sum, count });
        }
        match error_sum_within(Some(rows), canvas, sample, placement, self.limit_for(count)) {
            Some(sum) => self.keep(&Error { sum, count }),
            None => {
                self.skip();
                Ok(())
            }
        }
    }
}

// The mean error of a filled cell over some of the candidates; 0 where it isn't wanted.
fn mean_error(list: &Candidates, canvas: &Canvas, sample: &Volume, is_wanted: bool) -> u64
    requires over { StandsOver canvas.now sample.now }
    requires within { IsWithin list.now canvas.now.map.size }
    requires fit { AllFit canvas.now sample.now list.now }
{
    if !is_wanted {
        return 0;
    }
    let n = count_for(list, canvas, sample);
    let mut sum: u64 = 0;
    let mut cells: u64 = 1;
    let mut i = 0;
    'some: for _ in 0..SOME {
        if i < n {
            let error = overlap_error(canvas, sample, &entry_for(list, canvas, sample, i));
            sum = sum.saturating_add(error.sum);
            cells = cells.saturating_add(u64::from(error.count));
            i = i.saturating_add(n / SOME + 1);
        }
    }
    sum / cells.max(1)
}

// About how many squares the sum of a candidate takes, which ends once it is past the limit, where a cell
// differs by so much; 0 where it isn't wanted.
fn squares_for(
    short: &Shortlist,
    counts: &FilledCounts,
    mean: u64,
    canvas: &Canvas,
    at: &Placement,
    is_wanted: bool,
) -> u64
    requires sound { IsSoundShortlist short.now }
    requires counts { AreFilledCounts canvas.now.map counts.now }
    requires inside { HoldsBox canvas.now.map.size at.now.rect.corner at.now.rect.size }
{
    if !is_wanted {
        return 0;
    }
    let count = counts.count(canvas, &at.rect);
    if count == 0 {
        return 0;
    }
    (short.limit_for(count) / mean.max(1)).min(u64::from(count))
}

// The shortlist of all candidates, each with its own box.
fn placed_shortlist(
    alloc: Global,
    list: &Candidates,
    tol: u32,
    canvas: &Canvas,
    sample: &Volume,
) -> Result<Shortlist, AllocError>
    requires over { StandsOver canvas.now sample.now }
    requires within { IsWithin list.now canvas.now.map.size }
    requires fit { AllFit canvas.now sample.now list.now }
    ensures { IfOk result (IsShortlistOf tol (errors_on canvas.now sample.now list.now)) }
{
    let around = around_of(list, canvas.map().size(), sample);
    let counts = FilledCounts::make(alloc, canvas, &around.rect)?;
    let rows = FilledRows::gather(alloc, canvas, &around.rect)?;
    let filled = u64::from(counts.count(canvas, &around.rect));
    let mut errors = PartErrors::begin(&around, 0, canvas, sample);
    let mean = mean_error(list, canvas, sample, errors.may_pay(filled));
    let mut short = Shortlist::begun(alloc, tol, None, 0);
    'entries: for i in 0..count_for(list, canvas, sample) {
        let placement = entry_for(list, canvas, sample, i);
        let may_pay = errors.may_pay(filled);
        let squares = squares_for(&short, &counts, mean, canvas, &placement, may_pay);
        errors.come_to(alloc, &around, squares, canvas, sample, &placement)?;
        short.add(&counts, &rows, &errors, canvas, sample, &placement)?;
    }
    Ok(short)
}

// The shortlist of all candidates.
pub(crate) fn shortlist_of(
    alloc: Global,
    list: &Candidates,
    tol: u32,
    canvas: &Canvas,
    sample: &Volume,
    sums: &SampleSums,
) -> Result<Shortlist, AllocError>
    requires over { StandsOver canvas.now sample.now }
    requires sums { AreSampleSums sample.now sums.now }
    requires within { IsWithin list.now canvas.now.map.size }
    requires some { 0 < length (listed_on canvas.now sample.now list.now) }
    requires fit { AllFit canvas.now sample.now list.now }
    ensures { IfOk result (IsShortlistOf tol (errors_on canvas.now sample.now list.now)) }
{
    match list {
        Candidates::Fits { rect } => {
            let overlaps = Overlaps::gather(alloc, canvas, sample, sums, rect)?;
            box_shortlist(alloc, &overlaps, rect, tol, sample)
        }
        Candidates::One(_) | Candidates::Laid { .. } => {
            placed_shortlist(alloc, list, tol, canvas, sample)
        }
    }
}
