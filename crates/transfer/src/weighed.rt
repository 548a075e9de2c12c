// Picks by a target and by what is there.
ghost use Rattle.std.specs.Prelude.{◌≡◌, ◌≤◌, IfOk, OnErr, OnOk, Some};
ghost use Rattle.limits.specs.declared.bounds.TheConstants.{GREATEST_ALPHA};
ghost use Rattle.cells.specs.Boxes.{HasCells, HoldsBox};
ghost use Rattle.cells.specs.Cells.{IsOnePart};
ghost use Rattle.map_canvas.specs.Canvases.{StandsOver};
ghost use Rattle.map_canvas.specs.Choices.{Fits};
ghost use Rattle.patch_picks.specs.Lists.{fit_list, part_lists};
ghost use Rattle.patch_picks.specs.Picks.{IsPick};
ghost use Rattle.patch_picks.specs.Steps.{after_draw};
ghost use Rattle.block_strips.specs.Blocks.{FitsBlock};
ghost use Rattle.targets.specs.Joined.{IsTargetBox};
ghost use Rattle.transfer.specs.Search.{ServesTransfer};
ghost use Rattle.targets.specs.Targets.{IsTargetOf, by_target};
ghost use Rattle.transfer.specs.Weighing.{ArePicksFor, IsWeighingOf};

use crate::search::TargetSearch;
use crate::weighing::Weighing;
use cells::{Box3, Volume};
use map_canvas::{Canvas, Placement};
use patch_picks::{Draws, box_list_is_all_that_fit};
use patch_place::{Overlaps, pick_by};
use quilt::BlockPicks;
use std::alloc::{AllocError, Global};
use targets::{at_first, target_box};

/// Picks blocks by a target too: so many hundredths of a block's error are its overlap error, and the others are its
/// distance from the target.
#[derive(Drop)]
pub(crate) struct Weighed<'a> {
    /// The picture that is painted, of the output's size.
    pub(crate) target: &'a Volume,
    pub(crate) search: &'a TargetSearch,
    /// From 0 to 100.
    pub(crate) alpha: u32,
}

// The errors of a box of the canvas, which the target has as a canvas of its own.
fn weighing<'a>(
    alloc: Global,
    alpha: u32,
    target: &Volume,
    search: &'a TargetSearch,
    rect: &Box3,
    aim: &'a Canvas,
    canvas: &'a Canvas,
    sample: &'a Volume,
) -> Result<Weighing<'a>, AllocError>
    requires over { StandsOver canvas.now sample.now }
    requires alpha { alpha ≤ GREATEST_ALPHA }
    requires target { IsTargetOf canvas.now.map.size sample.now target.now }
    requires part { IsOnePart sample.now }
    requires search { ServesTransfer sample.now target.now search.now }
    requires some { HasCells rect.now.size }
    requires inside { HoldsBox canvas.now.map.size rect.now.corner rect.now.size }
    requires aim { IsTargetBox sample.now target.now search.now.joined rect.now aim.now }
    ensures { IfOk result (IsWeighingOf alpha target.now rect.now canvas.now sample.now) }
{
    let joined = &search.joined;
    let sums = &search.sums;
    // Called for their contracts only: they show the prover that these are volumes.
    let _sample = sample.samples();
    let _joined = joined.samples();
    let first = at_first(rect);
    let here = Overlaps::gather(alloc, canvas, sample, sums, rect)?;
    let there = Overlaps::gather(alloc, aim, joined, sums, &first)?;
    Ok(Weighing {
        alpha,
        first,
        here,
        there,
    })
}

// The placement of a box that the next draw picks, by the canvas and by the target's box as a canvas.
fn pick_weighed<'a>(
    alloc: Global,
    alpha: u32,
    target: &Volume,
    search: &'a TargetSearch,
    tol: u32,
    rect: &Box3,
    aim: &'a Canvas,
    canvas: &'a Canvas,
    sample: &'a Volume,
    draws: &mut Draws,
) -> Result<Placement, AllocError>
    requires over { StandsOver canvas.now sample.now }
    requires alpha { alpha ≤ GREATEST_ALPHA }
    requires target { IsTargetOf canvas.now.map.size sample.now target.now }
    requires part { IsOnePart sample.now }
    requires search { ServesTransfer sample.now target.now search.now }
    requires fits { FitsBlock canvas.now.map.size sample.now.size rect.now }
    requires aim { IsTargetBox sample.now target.now search.now.joined rect.now aim.now }
    ensures pick { IfOk result (IsPick (by_target alpha target.now sample.now canvas.now.map)
        (Some tol) (part_lists (fit_list rect.now) sample.now) draws.old) }
    ensures same { IfOk result (λ placement. placement.rect ≡ rect.now) }
    ensures fits { IfOk result (Fits canvas.now.map.size sample.now) }
    ensures next { OnOk result (draws.new ≡ after_draw draws.old) }
    ensures kept { OnErr result (draws.new ≡ draws.old) }
{
    box_list_is_all_that_fit(rect, canvas.map().size(), sample);
    let errors = weighing(alloc, alpha, target, search, rect, aim, canvas, sample)?;
    let placement = pick_by(alloc, &errors, rect, tol, sample, draws);
    drop(errors);
    placement
}

impl BlockPicks for Weighed<'_> {
    ghost rating = { λ picks sample. by_target picks.alpha picks.target.now sample };

    ghost AreReady = { ArePicksFor };

    fn pick(
        &self,
        alloc: Global,
        tol: u32,
        rect: &Box3,
        canvas: &Canvas,
        sample: &Volume,
        draws: &mut Draws,
    ) -> Result<Placement, AllocError> {
        let aim = target_box(alloc, sample, self.target, &self.search.joined, rect)?;
        let placement = pick_weighed(
            alloc,
            self.alpha,
            self.target,
            self.search,
            tol,
            rect,
            &aim,
            canvas,
            sample,
            draws,
        );
        drop(aim);
        placement
    }
}
