// Steps of growing: the next placement of a mode.
ghost use Rattle.std.specs.Prelude.{◌≡◌, All, IsSome, IsTrue, IfOk, OnErr, OnOk};
ghost use Rattle.cells.specs.Places.{IsInside};
ghost use Rattle.search_squares.specs.Eliminations.{AreSampleSums};
ghost use Rattle.map_canvas.specs.Canvases.{StandsOver};
ghost use Rattle.patch_picks.specs.Fitting.{FitsAndCovers, HasPatch};
ghost use Rattle.patch_picks.specs.Lists.{IsWithin};
ghost use Rattle.patch_picks.specs.Modes.{candidates};
ghost use Rattle.patch_picks.specs.Picks.{AllFit, HasEntries, listed_on};
ghost use Rattle.patch_picks.specs.Steps.{IsChosen, IsNext, draws_after, tolerance};

use crate::errors::entry_for;
use crate::pick_with;
use cells::{At, Volume};
use map_canvas::{Canvas, Placement};
use patch_picks::{Candidates, Draws, Mode};
use search_squares::SampleSums;
use std::alloc::{AllocError, Global};

// The candidates of a mode for the first unfilled cell.
fn candidates_for(mode: &Mode, q: At, canvas: &Canvas, sample: &Volume) -> Candidates
    requires patch { HasPatch mode.now }
    requires inside { IsInside canvas.now.map.size q }
    ensures listed { listed_on canvas.now sample.now result
        ≡ candidates mode.now canvas.now.map.size sample.now q }
    ensures within { IsWithin result canvas.now.map.size }
    ensures some { HasEntries canvas.now sample.now result }
    ensures over { All (FitsAndCovers canvas.now.map.size sample.now q)
        (listed_on canvas.now sample.now result) }
    ensures fit { AllFit canvas.now sample.now result }
{
    mode.candidates(q, canvas.map().size(), sample)
}

/// The next placement of a mode, for the first unfilled cell, which it covers; None where the canvas is
/// full. In the grid it's the one candidate, and no draw is taken. All other modes pick among their
/// candidates, by one draw: `Random` among all of them, `Whole` and `Sub` among those within their
/// tolerance of the best. The one error is that there is no memory, for `Sub` also for the sums of the
/// sample's blocks, which are made again in each call; no draw is taken then.
pub fn next_placement(
    alloc: Global,
    mode: &Mode,
    canvas: &Canvas,
    sample: &Volume,
    draws: &mut Draws,
) -> Result<Option<Placement>, AllocError>
    requires over { StandsOver canvas.now sample.now }
    requires patch { HasPatch mode.now }
    ensures { IsNext mode.now canvas.now.map sample.now draws.old draws.new result }
{
    let Some(_) = canvas.first_unfilled() else {
        return Ok(None);
    };
    // The picks of `Sub` alone go by these sums: it picks among the candidates of one box.
    let sums = SampleSums::make_if(alloc, sample, matches!(mode, Mode::Sub { .. }))?;
    next_placement_with(alloc, mode, canvas, sample, &sums, draws)
}

/// The same as `next_placement`, of a sample whose sums of blocks are made.
pub fn next_placement_with(
    alloc: Global,
    mode: &Mode,
    canvas: &Canvas,
    sample: &Volume,
    sums: &SampleSums,
    draws: &mut Draws,
) -> Result<Option<Placement>, AllocError>
    requires over { StandsOver canvas.now sample.now }
    requires sums { AreSampleSums sample.now sums.now }
    requires patch { HasPatch mode.now }
    ensures { IsNext mode.now canvas.now.map sample.now draws.old draws.new result }
{
    let Some(q) = canvas.first_unfilled() else {
        return Ok(None);
    };
    let list = candidates_for(mode, q, canvas, sample);
    if let Mode::Grid { .. } = mode {
        return Ok(Some(entry_for(&list, canvas, sample, 0)));
    }
    let placement = pick_with(alloc, &list, mode.tolerance(), canvas, sample, sums, draws)?;
    Ok(Some(placement))
}
