// Picks: one of the candidates that are about as good as the best, by a draw.
ghost use Rattle.std.specs.Prelude.{◌≡◌, ◌<◌, All, Contains, IfOk, IsSome, OnErr, OnOk, Some, length};
ghost use Rattle.cells.specs.Boxes.{HasCells};
ghost use Rattle.search_squares.specs.Eliminations.{AreSampleSums};
ghost use Rattle.map_canvas.specs.Canvases.{StandsOver};
ghost use Rattle.map_canvas.specs.Choices.{Fits};
ghost use Rattle.patch_place.specs.BoxErrors.{box_list};
ghost use Rattle.patch_picks.specs.Lists.{IsWithin};
ghost use Rattle.patch_picks.specs.Picks.{AllFit, HasEntries, IsPick, IsPickOn, listed_on};
ghost use Rattle.patch_picks.specs.Steps.{after_draw};

use crate::BoxErrors;
use crate::box_list::box_entry;
use crate::errors::{count_for, entry_for, shortlist_of};
use crate::walk::box_shortlist;
use cells::{Box3, Volume};
use map_canvas::{Canvas, Placement};
use patch_picks::{Candidates, Draws};
use search_squares::SampleSums;
use std::alloc::{AllocError, Global};

/// Picks one of the candidates that are about as good as the best, by the next draw: those whose error
/// per filled cell is at most that of the best and `tol` hundredths of it. All of them are where `tol` is
/// None, and where none of them covers a filled cell. It takes one draw, for a single candidate too, and
/// none where there isn't the memory for the errors and for the sums of the sample's blocks, which it
/// makes for the candidates of one box: that is the one error.
pub fn pick(
    alloc: Global,
    list: &Candidates,
    tol: Option<u32>,
    canvas: &Canvas,
    sample: &Volume,
    draws: &mut Draws,
) -> Result<Placement, AllocError>
    requires over { StandsOver canvas.now sample.now }
    requires within { IsWithin list.now canvas.now.map.size }
    requires some { HasEntries canvas.now sample.now list.now }
    requires fit { AllFit canvas.now sample.now list.now }
    ensures picked { IfOk result (IsPickOn canvas.now sample.now list.now tol draws.old) }
    ensures listed { IfOk result (Contains (listed_on canvas.now sample.now list.now)) }
    ensures fits { IfOk result (Fits canvas.now.map.size sample.now) }
    ensures next { OnOk result (draws.new ≡ after_draw draws.old) }
    ensures kept { OnErr result (draws.new ≡ draws.old) }
    ensures memory { OnErr result (IsSome tol) }
{
    // A pick goes by these sums where its candidates are those of one box, and their errors are summed.
    let go_by_sums = tol.is_some() && matches!(list, Candidates::Fits { .. });
    let sums = SampleSums::make_if(alloc, sample, go_by_sums)?;
    pick_with(alloc, list, tol, canvas, sample, &sums, draws)
}

/// The same pick as `pick`, of a sample whose sums of blocks are made: candidates of one box that they
/// eliminate are left out before their errors are summed.
pub fn pick_with(
    alloc: Global,
    list: &Candidates,
    tol: Option<u32>,
    canvas: &Canvas,
    sample: &Volume,
    sums: &SampleSums,
    draws: &mut Draws,
) -> Result<Placement, AllocError>
    requires over { StandsOver canvas.now sample.now }
    requires sums { AreSampleSums sample.now sums.now }
    requires within { IsWithin list.now canvas.now.map.size }
    requires some { HasEntries canvas.now sample.now list.now }
    requires fit { AllFit canvas.now sample.now list.now }
    ensures picked { IfOk result (IsPickOn canvas.now sample.now list.now tol draws.old) }
    ensures listed { IfOk result (Contains (listed_on canvas.now sample.now list.now)) }
    ensures fits { IfOk result (Fits canvas.now.map.size sample.now) }
    ensures next { OnOk result (draws.new ≡ after_draw draws.old) }
    ensures kept { OnErr result (draws.new ≡ draws.old) }
    ensures memory { OnErr result (IsSome tol) }
{
    let Some(tol) = tol else {
        let i = draws.below(count_for(list, canvas, sample));
        return Ok(entry_for(list, canvas, sample, i));
    };
    let short = shortlist_of(alloc, list, tol, canvas, sample, sums)?;
    let i = short.picked(draws);
    Ok(entry_for(list, canvas, sample, i))
}

/// Picks one of the placements of a box over all parts of a sample, by errors that the caller has. It is
/// one of those that are about as good as the best, by the next draw, as `pick` says. All of them are where
/// the count of the errors is 0. It takes one draw, and none where there isn't the memory: that is the one
/// error.
pub fn pick_by<E: BoxErrors>(
    alloc: Global,
    errors: &E,
    rect: &Box3,
    tol: u32,
    sample: &Volume,
    draws: &mut Draws,
) -> Result<Placement, AllocError>
    requires ready { E.IsReady errors.now }
    requires cells { HasCells rect.now.size }
    requires some { 0 < length (box_list rect.now sample.now) }
    requires asked { All (E.MayAsk errors.now) (box_list rect.now sample.now) }
    ensures picked { IfOk result (IsPick (E.error errors.now) (Some tol)
        (box_list rect.now sample.now) draws.old) }
    ensures listed { IfOk result (Contains (box_list rect.now sample.now)) }
    ensures asked { IfOk result (E.MayAsk errors.now) }
    ensures next { OnOk result (draws.new ≡ after_draw draws.old) }
    ensures kept { OnErr result (draws.new ≡ draws.old) }
{
    let short = box_shortlist(alloc, errors, rect, tol, sample)?;
    let i = short.picked(draws);
    Ok(box_entry(rect, sample, i))
}
