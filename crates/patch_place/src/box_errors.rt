// Errors of the placements of one box.
ghost use Rattle.std.specs.Prelude.{◌≡◌, ◌≤◌, IfNone, IfSome, ◌<◌};
ghost use Rattle.map_canvas.specs.declared.canvas.Placement.{Placement};
ghost use Rattle.match_error.specs.declared.error.Error.{Error};
ghost use Rattle.search_squares.specs.Eliminations.{AreEliminatedBy};
ghost use Rattle.patch_place.specs.BoxErrors.{AreCounted, sum_from};

use cells::At;
use map_canvas::Placement;
use search_squares::{Eliminated, Pauses};

/// The errors of the placements of one box, and what spares a walk over them from summing up each.
pub trait BoxErrors {
    /// The error of a placement.
    ghost error: { Self → Placement → Error };

    /// What has to hold for any call.
    ghost IsReady: { Self → Type 0 };

    /// The placement is one of the box, and may be asked for.
    ghost MayAsk: { Self → Placement → Type 0 };

    /// By what the sums of all placements are divided; 0 where each of them is as good as another. No sum is
    /// above 2^56.
    fn count(&self) -> u32
        requires { IsReady self.now }
        ensures { AreCounted (error self.now) (MayAsk self.now) result };

    /// The sum of a placement where it is at most a limit, else None.
    fn sum_within(&self, placement: &Placement, limit: u64) -> Option<u64>
        requires ready { IsReady self.now }
        requires asked { MayAsk self.now placement.now }
        ensures some { IfSome result (λ sum. sum ≡ (error self.now placement.now).sum) }
        ensures most { IfSome result (λ sum. sum ≤ limit) }
        ensures none { IfNone result (limit < (error self.now placement.now).sum) };

    /// Of the places along X from that of a placement on, in the part with this number, counted from 0,
    /// some from which the sum of the box is above a limit. The pauses are those of the runs before.
    fn eliminate(
        &self,
        placement: &Placement,
        part: u32,
        limit: u64,
        pauses: &mut Pauses,
    ) -> Eliminated
        requires ready { IsReady self.now }
        requires asked { MayAsk self.now placement.now }
        ensures { AreEliminatedBy (sum_from (error self.now) placement.now.rect) result };

    /// How many likely places there may be. It only says what to try, so nothing is promised.
    fn hints(&self) -> u32;

    /// A likely place to lay the box from, by its number: one of the sample or another. The walk begins with
    /// the least of their sums. Where none is known, None.
    fn hint(&self, i: u32) -> Option<At>
        requires { IsReady self.now };
}
