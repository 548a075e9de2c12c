// How the place of the sample is picked from which a block is laid.
ghost use Rattle.std.specs.Prelude.{◌≡◌, IfOk, OnErr, OnOk, Some};
ghost use Rattle.cells.specs.declared.place.Size.{Size};
ghost use Rattle.cells.specs.Cells.{Cells};
ghost use Rattle.map_canvas.specs.declared.canvas.Placement.{Placement};
ghost use Rattle.map_canvas.specs.Canvases.{StandsOver};
ghost use Rattle.map_canvas.specs.Choices.{Fits};
ghost use Rattle.map_canvas.specs.Maps.{SourceMap};
ghost use Rattle.match_error.specs.declared.error.Error.{Error};
ghost use Rattle.search_squares.specs.Eliminations.{AreSampleSums};
ghost use Rattle.patch_picks.specs.Lists.{fit_list, part_lists};
ghost use Rattle.patch_picks.specs.Picks.{IsPick};
ghost use Rattle.patch_picks.specs.Steps.{after_draw};
ghost use Rattle.block_strips.specs.Blocks.{FitsBlock};
ghost use Rattle.quilted.specs.Runs.{by_overlap};

use cells::{Box3, Volume};
use map_canvas::{Canvas, Placement};
use patch_picks::{Candidates, Draws, box_list_is_all_that_fit};
use patch_place::pick_with;
use search_squares::SampleSums;
use std::alloc::{AllocError, Global};

/// How the placements of a box are rated, and one of the best is picked.
pub trait BlockPicks {
    /// How a placement over a map is rated, for a sample.
    ghost rating: { Self → Cells → SourceMap → Placement → Error };

    /// What is asked for an output of a size and a sample.
    ghost AreReady: { Self → Size → Cells → Type 0 };

    /// The placement of a box that the next draw picks among all that fit, by their ratings. The one error is
    /// out of memory; the draws are as they were then.
    fn pick(
        &self,
        alloc: Global,
        tol: u32,
        rect: &Box3,
        canvas: &Canvas,
        sample: &Volume,
        draws: &mut Draws,
    ) -> Result<Placement, AllocError>
        requires over { StandsOver canvas.now sample.now }
        requires ready { AreReady self.now canvas.now.map.size sample.now }
        requires fits { FitsBlock canvas.now.map.size sample.now.size rect.now }
        ensures pick { IfOk result (IsPick (rating self.now sample.now canvas.now.map) (Some tol)
            (part_lists (fit_list rect.now) sample.now) draws.old) }
        ensures same { IfOk result (λ placement. placement.rect ≡ rect.now) }
        ensures fits { IfOk result (Fits canvas.now.map.size sample.now) }
        ensures next { OnOk result (draws.new ≡ after_draw draws.old) }
        ensures kept { OnErr result (draws.new ≡ draws.old) };
}

/// The sums of the sample's blocks, made once for all picks: placements are rated by their overlap errors.
impl BlockPicks for SampleSums {
    ghost rating = { λ sums sample. by_overlap sample };

    ghost AreReady = { λ sums size sample. AreSampleSums sample sums };

    fn pick(
        &self,
        alloc: Global,
        tol: u32,
        rect: &Box3,
        canvas: &Canvas,
        sample: &Volume,
        draws: &mut Draws,
    ) -> Result<Placement, AllocError> {
        box_list_is_all_that_fit(rect, canvas.map().size(), sample);
        let list = Candidates::Fits { rect: *rect };
        pick_with(alloc, &list, Some(tol), canvas, sample, self, draws)
    }
}
