// The errors of the placements of one box, weighed of two sums.
ghost use Rattle.std.specs.Prelude.{◌≡◌, ◌≤◌, ◌<◌, ◌*◌, ℕ, IfNone, IfSome};
ghost use Rattle.patch_place.specs.BoxErrors.{sum_from};
ghost use Rattle.patch_place.specs.Overlaps.{AreOverlaps, IsOverlap};
ghost use Rattle.match_error.specs.Errors.{error_of};
ghost use Rattle.search_squares.specs.Eliminations.{AreAtLeastTimes, AreEliminatedBy};
ghost use Rattle.transfer.specs.Weighing.{sum_over};
ghost use Rattle.cells.specs.declared.place.At.{At};

use cells::{At, Box3};
use map_canvas::Placement;
use patch_place::{BoxErrors, Overlaps};
use search_squares::{Eliminated, Pauses};

/// The filled cells of a box, and the box of the target as a canvas of its own, gathered for the errors of the
/// box's placements.
#[derive(Drop)]
pub(crate) struct Weighing<'a> {
    /// How many hundredths of an error are that over the filled cells.
    pub(crate) alpha: u32,
    /// The box where the target has it.
    pub(crate) first: Box3,
    pub(crate) here: Overlaps<'a>,
    pub(crate) there: Overlaps<'a>,
}

// The sum of a placement, taken so many times, where that is at most a limit, else None.
fn sum_times(overlaps: &Overlaps<'_>, n: u32, placement: &Placement, limit: u64) -> Option<u64>
    requires ready { AreOverlaps overlaps.now }
    requires asked { IsOverlap overlaps.now placement.now }
    ensures some { IfSome result (λ sum. sum ≡ n * sum_over overlaps.now placement.now) }
    ensures most { IfSome result (λ sum. sum ≤ limit) }
    ensures none { IfNone result (limit < n * sum_over overlaps.now placement.now) }
{
    if n == 0 {
        return Some(0);
    }
    let times = u64::from(n);
    let sum = overlaps.sum_within(placement, limit / times)?;
    Some(times * sum)
}

// Of the places along X from that of a placement on, some whose sums, taken so many times, are above a limit.
fn eliminate_times(
    overlaps: &Overlaps<'_>,
    n: u32,
    placement: &Placement,
    part: u32,
    limit: u64,
    pauses: &mut Pauses,
) -> Eliminated
    requires ready { AreOverlaps overlaps.now }
    requires asked { IsOverlap overlaps.now placement.now }
    ensures { (other : At → ℕ)
        → AreAtLeastTimes n
        (sum_from (error_of overlaps.now.canvas.now.map overlaps.now.sample.now)
        placement.now.rect) other
        → AreEliminatedBy other result }
{
    if n == 0 {
        return Eliminated::none();
    }
    overlaps
        .eliminate(placement, part, limit / u64::from(n), pauses)
        .times(n, limit)
}

impl BoxErrors for Weighing<'_> {
    ghost use Rattle.transfer.specs.Weighing.{IsWeighed, IsWeighing, weighed_error};

    ghost error = { weighed_error };

    ghost IsReady = { IsWeighing };

    ghost MayAsk = { IsWeighed };

    fn count(&self) -> u32 {
        1
    }

    fn sum_within(&self, placement: &Placement, limit: u64) -> Option<u64> {
        let aim = Placement {
            rect: self.first,
            from: placement.from,
        };
        let over = sum_times(&self.here, self.alpha, placement, limit)?;
        let away = sum_times(&self.there, 100 - self.alpha, &aim, limit - over)?;
        Some(over + away)
    }

    fn eliminate(
        &self,
        placement: &Placement,
        part: u32,
        limit: u64,
        pauses: &mut Pauses,
    ) -> Eliminated {
        let aim = Placement {
            rect: self.first,
            from: placement.from,
        };
        if self.alpha > 0 && self.alpha < 100 {
            let (away, over) = (100 - self.alpha, self.alpha);
            return self.there.eliminate_both(
                away,
                &self.here,
                over,
                placement.from,
                part,
                limit,
                pauses,
            );
        }
        let away = eliminate_times(&self.there, 100 - self.alpha, &aim, part, limit, pauses);
        let over = eliminate_times(&self.here, self.alpha, placement, part, limit, pauses);
        away.or(over)
    }

    fn hints(&self) -> u32 {
        self.here.hints()
    }

    fn hint(&self, i: u32) -> Option<At> {
        self.here.hint(i)
    }
}
