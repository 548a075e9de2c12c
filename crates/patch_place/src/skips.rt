// Candidates of a box that a walk leaves out.
ghost use Rattle.std.specs.Prelude.{◌≡◌, ◌<◌, ℕ};
ghost use Rattle.cells.specs.declared.place.At.{At};
ghost use Rattle.search_squares.specs.Bounds.{place_along};
ghost use Rattle.search_squares.specs.Eliminations.{AreEliminatedBy, IsEliminated};
ghost use Rattle.patch_place.specs.BoxErrors.{sum_from};

use crate::BoxErrors;
use cells::At;
use map_canvas::Placement;
use search_squares::{Eliminated, LANES, Pauses};

// The most runs that a walk passes over before it tries one again.
const MOST_PASSED: usize = 15;

// Of how many candidates that a run leaves nothing follows for the next run: the last run of a row may be
// as short.
const FEW_LEFT: usize = 8;

// When a walk tries to eliminate: where runs eliminate little, as in noise, most of them are passed
// over, so that a walk loses next to nothing by the trying. It only says what to try, so nothing is
// promised.
#[derive(Clone, Copy, Drop)]
struct Pace {
    // how many candidates of the run at hand were eliminated, and how many were left
    gone: usize,
    left: usize,
    // how many runs were passed over last
    passed: usize,
    // how many candidates are still to be passed over
    wait: usize,
}

impl Pace {
    // Counts so many candidates of the run at hand that were eliminated, or one that was left.
    fn count(&mut self, gone: u32) {
        if gone > 0 {
            self.gone = self.gone.saturating_add(gone as usize);
        } else {
            self.left = self.left.saturating_add(1);
        }
    }

    // Whether runs are passed over after the one at hand: where it left more than half of its places,
    // and more than a few; and each time in a row more of them.
    fn rests(&mut self) -> bool {
        let rests = self.left > self.gone && self.left > FEW_LEFT;
        if rests {
            self.passed = self
                .passed
                .saturating_mul(2)
                .saturating_add(1)
                .min(MOST_PASSED);
            self.wait = self.passed.saturating_mul(LANES);
        } else if self.gone > 0 {
            self.passed = 0;
        }
        self.gone = 0;
        self.left = 0;
        rests
    }
}

/// The run of places that a walk over one part is in, of which some are eliminated.
#[derive(Clone, Copy, Drop)]
pub(crate) struct Skips {
    // without a place while the walk passes over runs
    pub(crate) run: Eliminated,
    // whether another run may eliminate anything: not after one without a place
    serve: bool,
    pace: Pace,
    pauses: Pauses,
}

impl Skips {
    // Before the first place.
    pub(crate) fn none() -> Skips
        ensures { (sum : At → ℕ) → AreEliminatedBy sum result.run }
    {
        Skips {
            run: Eliminated::none(),
            serve: true,
            pace: Pace {
                gone: 0,
                left: 0,
                passed: 0,
                wait: 0,
            },
            pauses: Pauses::none(),
        }
    }

    // Goes on to a candidate in the part with this number: to the run from there on, where the last run
    // is passed and no run is passed over. Nothing is eliminated while each sum is within the limit.
    pub(crate) fn go_to<E: BoxErrors>(
        &mut self,
        errors: &E,
        placement: &Placement,
        part: u32,
        limit: u64,
    )
        requires ready { E.IsReady errors.now }
        requires asked { E.MayAsk errors.now placement.now }
        requires run { AreEliminatedBy (sum_from (E.error errors.now) placement.now.rect)
            self.old.run }
        ensures { AreEliminatedBy (sum_from (E.error errors.now) placement.now.rect)
            self.new.run }
    {
        if !self.serve || limit == u64::MAX {
            return;
        }
        if self.pace.wait > 0 {
            self.pace.wait -= 1;
            return;
        }
        if self.run.covers(placement.from) {
            return;
        }
        if self.pace.rests() {
            self.run = Eliminated::none();
            return;
        }
        self.run = errors.eliminate(placement, part, limit, &mut self.pauses);
        // A run without the place that it begins with eliminates nothing.
        self.serve = self.run.covers(placement.from);
    }

    // How many candidates from a place along X on are eliminated for a limit, one after another.
    pub(crate) fn count_from(&mut self, from: At, limit: u64) -> u32
        ensures run { self.new.run ≡ self.old.run }
        ensures gone { (j : ℕ) → j < result
            → IsEliminated self.old.run (place_along from j) limit }
    {
        let gone = self.run.count_from(from, limit);
        if self.run.covers(from) {
            self.pace.count(gone);
        }
        gone
    }
}
