// The sums of the squared differences over the filled cells of a placement's box.
ghost use Rattle.std.specs.Prelude.{◌≡◌, ◌≤◌, ◌<◌, ◌+◌, ◌*◌, ◌^◌, IfNone, IfSome};
ghost use Rattle.cells.specs.Places.{IsSmall};
ghost use Rattle.map_canvas.specs.Canvases.{StandsOver};
ghost use Rattle.map_canvas.specs.Choices.{Fits, box_count};
ghost use Rattle.map_canvas.specs.CellErrors.{spot_error};
ghost use Rattle.match_error.specs.Errors.{error_of, error_sum, frame_error, most_frame_error, most_row_error, row_error};
ghost use Rattle.match_error.specs.LaidRows.{AreFronts, AreRowBytes};
ghost use Rattle.match_error.specs.Rows.{AreFilledRows, AreLaidRuns, IsInset, IsLaidRun, column_in, run_part};

use crate::bytes::squared_differences;
use crate::counts::filled_count;
use crate::filled_rows::{Inset, RowRun};
use crate::fronts::{Fronts, box_row, front_of};
use crate::rows::row_start;
use crate::{Error, FilledRows};
use cells::{Box3, Volume};
use lane_kernels::ssd_masked;
use map_canvas::{Canvas, Placement};

// Where a column comes to in a part of w columns of its row that begins at column x: one before it comes
// to its front, and one after it to its end.
fn column_in(x: u32, w: u32, column: u32) -> u32
    ensures { result ≡ column_in x w column }
{
    column.saturating_sub(x).min(w)
}

// The sum over those cells of a run of filled cells that a row of the box has, where the row begins at
// column x of the run's. These are the bytes of the row, and those that would come there.
fn run_sum(
    run: &RowRun,
    x: u32,
    canvas: &Canvas,
    sample: &Volume,
    placement: &Placement,
    y: u32,
    f: u32,
    old: &[u8],
    new: &[u8],
) -> u64
    requires run { IsLaidRun canvas.now.map placement.now.rect x y f run.now }
    requires bytes { AreRowBytes canvas.now sample.now placement.now y f old.now new.now }
    requires over { StandsOver canvas.now sample.now }
    requires fits { Fits canvas.now.map.size sample.now placement.now }
    requires counts { (y < placement.now.rect.size.h) × (f < placement.now.rect.size.f) }
    ensures { result ≡ run_part (λ i. spot_error canvas.now.map sample.now placement.now i y f)
        x placement.now.rect.size.w run.now }
{
    // Called for its contract only: it shows the prover that this is a canvas.
    let _picture = canvas.picture();
    let w = placement.rect.size.w;
    let first = column_in(x, w, run.first);
    let end = column_in(x, w, run.end);
    if first < end {
        let k = sample.samples();
        let start = (k * first) as usize;
        let stop = (k * end) as usize;
        return squared_differences(&old[start..stop], &new[start..stop]);
    }
    0
}

// The sum over a row of the box, which begins at column x of a row of runs. These are the bytes of the row,
// and those that would come there.
fn runs_sum(
    runs: &[RowRun],
    x: u32,
    canvas: &Canvas,
    sample: &Volume,
    placement: &Placement,
    y: u32,
    f: u32,
    old: &[u8],
    new: &[u8],
) -> u64
    requires runs { AreLaidRuns canvas.now.map placement.now.rect x y f runs.now }
    requires bytes { AreRowBytes canvas.now sample.now placement.now y f old.now new.now }
    requires over { StandsOver canvas.now sample.now }
    requires fits { Fits canvas.now.map.size sample.now placement.now }
    requires counts { (y < placement.now.rect.size.h) × (f < placement.now.rect.size.f) }
    ensures sum { result ≡ row_error canvas.now.map sample.now placement.now y f }
    ensures small { result ≤ most_row_error }
{
    // Called for their contracts only: they show the prover that these are a map and a volume.
    let _map = canvas.map();
    let _sample = sample.samples();
    let mut sum: u64 = 0;
    'runs: for run in runs {
        sum += run_sum(run, x, canvas, sample, placement, y, f, old, new);
    }
    sum
}

// The sum over a row of the box, which may lie in the box of rows of runs; else that of all its cells by their
// marks.
fn row_sum(
    rows: Option<&FilledRows>,
    inset: Inset,
    fronts: Fronts,
    canvas: &Canvas,
    sample: &Volume,
    placement: &Placement,
    y: u32,
    f: u32,
) -> u64
    requires filled { IfSome rows (λ rows. AreFilledRows canvas.now.map rows.now) }
    requires inset { IfSome rows (λ rows. IsInset rows.now.rect placement.now.rect inset) }
    requires fronts { AreFronts canvas.now sample.now placement.now fronts }
    requires over { StandsOver canvas.now sample.now }
    requires fits { Fits canvas.now.map.size sample.now placement.now }
    requires counts { (y < placement.now.rect.size.h) × (f < placement.now.rect.size.f) }
    ensures sum { result ≡ row_error canvas.now.map sample.now placement.now y f }
    ensures small { result ≤ most_row_error }
{
    if let Some(rows) = rows {
        let runs = rows.runs_of(canvas, &placement.rect, inset, y, f);
        let Box3 { corner, size } = placement.rect;
        let old = box_row(canvas.picture(), fronts.old, corner, size, y, f);
        let new = box_row(sample, fronts.new, placement.from, size, y, f);
        return runs_sum(runs, inset.x, canvas, sample, placement, y, f, old, new);
    }
    // Called for its contract only: it shows the prover that the sample is a volume.
    let _sample = sample.samples();
    let picture = canvas.picture();
    let at = row_start(placement.rect.corner, y, f);
    let from = row_start(placement.from, y, f);
    let w = placement.rect.size.w;
    let old = picture.row(at, w);
    let new = sample.row(from, w);
    let marks = canvas.filled_row(at, w);
    ssd_masked(old, new, marks)
}

// The sum over a frame of the box on top of that over the frames before it, where both are at most a
// limit together.
fn with_frame(
    rows: Option<&FilledRows>,
    inset: Inset,
    fronts: Fronts,
    canvas: &Canvas,
    sample: &Volume,
    placement: &Placement,
    f: u32,
    before: u64,
    limit: u64,
) -> Option<u64>
    requires filled { IfSome rows (λ rows. AreFilledRows canvas.now.map rows.now) }
    requires inset { IfSome rows (λ rows. IsInset rows.now.rect placement.now.rect inset) }
    requires fronts { AreFronts canvas.now sample.now placement.now fronts }
    requires over { StandsOver canvas.now sample.now }
    requires fits { Fits canvas.now.map.size sample.now placement.now }
    requires small { IsSmall placement.now.rect.size }
    requires count { f < placement.now.rect.size.f }
    requires before { before ≤ most_frame_error * f }
    requires so_far { before ≤ limit }
    ensures some { IfSome result (λ sum. sum ≡
        before + frame_error canvas.now.map sample.now placement.now f) }
    ensures most { IfSome result (λ sum. sum ≤ limit) }
    ensures small { IfSome result (λ sum. sum ≤ most_frame_error * (f + 1)) }
    ensures none { IfNone result (limit <
        before + frame_error canvas.now.map sample.now placement.now f) }
{
    let mut sum = before;
    for y in 0..placement.rect.size.h {
        sum += row_sum(rows, inset, fronts, canvas, sample, placement, y, f);
        if sum > limit {
            return None;
        }
    }
    Some(sum)
}

// The sum over the box where it is at most a limit, else None. The box may lie in the box of rows
// of runs.
fn box_sum_within(
    rows: Option<&FilledRows>,
    inset: Inset,
    canvas: &Canvas,
    sample: &Volume,
    placement: &Placement,
    limit: u64,
) -> Option<u64>
    requires filled { IfSome rows (λ rows. AreFilledRows canvas.now.map rows.now) }
    requires inset { IfSome rows (λ rows. IsInset rows.now.rect placement.now.rect inset) }
    requires over { StandsOver canvas.now sample.now }
    requires fits { Fits canvas.now.map.size sample.now placement.now }
    ensures some { IfSome result (λ sum. sum ≡ error_sum canvas.now.map sample.now placement.now) }
    ensures most { IfSome result (λ sum. sum ≤ limit) }
    ensures small { IfSome result (λ sum. sum ≤ 2 ^ 48) }
    ensures bound { error_sum canvas.now.map sample.now placement.now ≤ 2 ^ 48 }
    ensures none { IfNone result (limit < error_sum canvas.now.map sample.now placement.now) }
{
    // Called for their contracts only: they show the prover that these are a map and a volume.
    let _map = canvas.map();
    let _sample = sample.samples();
    let fronts = Fronts {
        old: front_of(canvas.picture(), placement.rect.corner),
        new: front_of(sample, placement.from),
    };
    let mut sum: u64 = 0;
    for f in 0..placement.rect.size.f {
        sum = with_frame(
            rows, inset, fronts, canvas, sample, placement, f, sum, limit,
        )?;
    }
    Some(sum)
}

/// The sum of the overlap error of a placement where it is at most a limit, else None. It stops after
/// the row in which the sum passes the limit. Where the placement's box lies in that of rows of runs, of
/// each row no other cells than those of its runs are looked at.
pub fn error_sum_within(
    rows: Option<&FilledRows>,
    canvas: &Canvas,
    sample: &Volume,
    placement: &Placement,
    limit: u64,
) -> Option<u64>
    requires filled { IfSome rows (λ rows. AreFilledRows canvas.now.map rows.now) }
    requires over { StandsOver canvas.now sample.now }
    requires fits { Fits canvas.now.map.size sample.now placement.now }
    ensures some { IfSome result (λ sum. sum ≡ error_sum canvas.now.map sample.now placement.now) }
    ensures most { IfSome result (λ sum. sum ≤ limit) }
    ensures small { IfSome result (λ sum. sum ≤ 2 ^ 48) }
    ensures bound { error_sum canvas.now.map sample.now placement.now ≤ 2 ^ 48 }
    ensures none { IfNone result (limit < error_sum canvas.now.map sample.now placement.now) }
{
    if let Some(rows) = rows {
        if let Some(inset) = rows.inset_of(&placement.rect) {
            return box_sum_within(Some(rows), inset, canvas, sample, placement, limit);
        }
    }
    let nowhere = Inset { x: 0, y: 0, f: 0 };
    box_sum_within(None, nowhere, canvas, sample, placement, limit)
}

/// The overlap error of a placement.
pub fn overlap_error(canvas: &Canvas, sample: &Volume, placement: &Placement) -> Error
    requires over { StandsOver canvas.now sample.now }
    requires fits { Fits canvas.now.map.size sample.now placement.now }
    ensures error { result ≡ error_of canvas.now.map sample.now placement.now }
    ensures small { result.sum ≤ 2 ^ 48 }
    ensures few { result.count ≤ box_count placement.now }
{
    Error {
        sum: error_sum_within(None, canvas, sample, placement, u64::MAX).unwrap(),
        count: filled_count(canvas, &placement.rect),
    }
}
