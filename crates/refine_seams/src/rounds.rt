// Rounds of refinement.
ghost use Rattle.std.specs.Prelude.{◌≤◌, IfOk, IfSome};
ghost use Rattle.map_canvas.specs.Canvases.{IsCanvas, StandsOver};
ghost use Rattle.map_canvas.specs.Maps.{IsFull};
ghost use Rattle.search_squares.specs.Eliminations.{AreSampleSums};
ghost use Rattle.patch_picks.specs.Fitting.{HasRoomInEach};
ghost use Rattle.least_choice.specs.Totals.{map_total};
ghost use Rattle.refine_seams.specs.Rounds.{IsRoundBox, SumsWindowsOf, Rounds};

use cells::{Box3, Volume};
use cost_windows::SeamTable;
use cut_check::CutRecord;
use graph_place::place;
use map_canvas::Canvas;
use patch_picks::{Candidates, Draws, window_size};
use patch_place::pick_with;
use search_squares::SampleSums;
use std::alloc::{AllocError, Global};

// The worst window; None where it costs nothing.
fn worst_box(canvas: &Canvas, sample: &Volume, side: u32, table: &SeamTable) -> Option<Box3>
    requires side { 1 ≤ side }
    requires table { SumsWindowsOf side canvas.now.map sample.now table.now }
    ensures worst { IsRoundBox side canvas.now.map sample.now result }
    ensures room { IfSome result (λ rect. HasRoomInEach sample.now rect.size) }
{
    let worst = table.worst();
    if worst.cost == 0 {
        return None;
    }
    Some(Box3 {
        corner: worst.corner,
        size: window_size(side, canvas.map().size(), sample),
    })
}

/// The sums of all windows by which the rounds of a side go: of the size that `window_size` gives. The one error is
/// out of memory.
pub fn round_windows(
    alloc: Global,
    canvas: &Canvas,
    sample: &Volume,
    side: u32,
) -> Result<SeamTable, AllocError>
    requires over { StandsOver canvas.now sample.now }
    requires side { 1 ≤ side }
    ensures { IfOk result (SumsWindowsOf side canvas.now.map sample.now) }
{
    let window = window_size(side, canvas.map().size(), sample);
    let table = SeamTable::make(alloc, canvas, sample, window)?;
    Ok(table)
}

/// One round of refinement: the window of a side whose seams cost the most is laid again. Among all places of
/// the sample where it fits one is picked by the next draw, within `tol` hundredths of the best, and put in
/// by a graph cut. The canvas is full, and the table has the sums of its windows of the size that
/// `window_size` gives, before and after. None where no window costs anything; nothing is changed then. The
/// one error is that there is no memory, also for the sums of the sample's blocks, which are made again in each
/// call; it changes nothing.
pub fn round(
    alloc: Global,
    canvas: &mut Canvas,
    sample: &Volume,
    side: u32,
    tol: u32,
    draws: &mut Draws,
    table: &mut SeamTable,
) -> Result<Option<CutRecord>, AllocError>
    requires over { StandsOver canvas.old sample.now }
    requires full { IsFull canvas.old.map }
    requires side { 1 ≤ side }
    requires table { SumsWindowsOf side canvas.old.map sample.now table.old }
    ensures made { Rounds side tol sample.now
        (record { canvas = canvas.old; draws = draws.old; table = table.old })
        (record { canvas = canvas.new; draws = draws.new; table = table.new }) result }
    ensures full { IsFull canvas.new.map }
    ensures lower { map_total sample.now canvas.new.map ≤ map_total sample.now canvas.old.map }
    ensures canvas { IsCanvas canvas.new }
{
    // Called for its contract only: it shows the prover that this is a map.
    let _map = canvas.map();
    let Some(_) = worst_box(canvas, sample, side, table) else {
        return Ok(None);
    };
    let sums = SampleSums::make(alloc, sample)?;
    round_with(alloc, canvas, sample, &sums, side, tol, draws, table)
}

/// The same round as `round`, of a sample whose sums of blocks are made.
pub fn round_with(
    alloc: Global,
    canvas: &mut Canvas,
    sample: &Volume,
    sums: &SampleSums,
    side: u32,
    tol: u32,
    draws: &mut Draws,
    table: &mut SeamTable,
) -> Result<Option<CutRecord>, AllocError>
    requires over { StandsOver canvas.old sample.now }
    requires sums { AreSampleSums sample.now sums.now }
    requires full { IsFull canvas.old.map }
    requires side { 1 ≤ side }
    requires table { SumsWindowsOf side canvas.old.map sample.now table.old }
    ensures made { Rounds side tol sample.now
        (record { canvas = canvas.old; draws = draws.old; table = table.old })
        (record { canvas = canvas.new; draws = draws.new; table = table.new }) result }
    ensures full { IsFull canvas.new.map }
    ensures lower { map_total sample.now canvas.new.map ≤ map_total sample.now canvas.old.map }
    ensures canvas { IsCanvas canvas.new }
{
    // Called for their contracts only: they show the prover that these are a map and a volume.
    let _map = canvas.map();
    let _samples = sample.samples();
    let Some(rect) = worst_box(canvas, sample, side, table) else {
        return Ok(None);
    };
    let number = draws.place();
    let list = Candidates::Fits { rect };
    let placement = pick_with(alloc, &list, Some(tol), canvas, sample, sums, draws)?;
    let Ok(cut) = place(alloc, canvas, sample, placement) else {
        draws.go_to(number);
        return Err(AllocError);
    };
    table.update(canvas, sample, &placement.rect);
    Ok(Some(cut))
}
