// Which places of a run are left out.
ghost use Rattle.std.specs.Prelude.{◌≡◌, ◌≤◌, ◌<◌, ◌+◌, ◌↔◌, ℕ, IfSome, IsTrue};
ghost use Rattle.cells.specs.declared.place.At.{At};
ghost use Rattle.search_squares.specs.Bounds.{IsMarked, place_along};
ghost use Rattle.search_squares.specs.Eliminations.{AreAtLeastTimes, AreEliminatedBy, IsEliminated, IsInRun, run_box};

use crate::lanes::{marked_from, marks_of_both};
use crate::places::steps_past;
use cells::{At, Box3, Size};

/// Of a run of places along X, those whose sums are above a limit, as far as it is known: that a box can't
/// be laid from there with an error up to the limit.
#[derive(Clone, Copy, Drop)]
pub struct Eliminated {
    pub(crate) from: At,
    // how many places are in the run
    pub(crate) n: u32,
    pub(crate) limit: u64,
    // of each place, by the bit of 2 to the power of its number, whether its sum is above the limit
    pub(crate) above: u32,
}

impl Eliminated {
    /// A run without a place.
    pub fn none() -> Eliminated
        ensures { (sum : At → ℕ) → AreEliminatedBy sum result }
    {
        Eliminated {
            from: At { x: 0, y: 0, f: 0 },
            n: 0,
            limit: 0,
            above: 0,
        }
    }

    /// Whether a place is one of the run's.
    pub fn covers(&self, at: At) -> bool
        ensures { IsTrue result ↔ IsInRun self.now at }
    {
        let size = Size {
            w: self.n,
            h: 1,
            f: 1,
        };
        let corner = self.from;
        Box3 { corner, size }.contains(at)
    }

    /// How many places along X, from one on, are eliminated for a limit, which may be less than that of the
    /// run, one after another; none where the first of them isn't one of the run's.
    pub fn count_from(&self, at: At, limit: u64) -> u32
        ensures { (j : ℕ) → j < result → IsEliminated self.now (place_along at j) limit }
    {
        if limit > self.limit {
            return 0;
        }
        if !self.covers(at) {
            return 0;
        }
        let Some(first) = steps_past(self.from.x, at.x) else {
            return 0;
        };
        marked_from(self.above, first).min(self.n - first)
    }

    /// The same run for sums that are at least so many times as great, with a limit of theirs; one without
    /// a place where it can't be had, as the run's limit is less than that limit divided by the times.
    pub fn times(self, n: u32, limit: u64) -> Eliminated
        ensures { (sum other : At → ℕ) → AreAtLeastTimes n sum other → AreEliminatedBy sum self
            → AreEliminatedBy other result }
    {
        if n == 0 {
            return Eliminated::none();
        }
        if limit / u64::from(n) > self.limit {
            return Eliminated::none();
        }
        let mut run = self;
        run.limit = limit;
        run
    }

    /// The places that one of two runs from the same place on marks, as far as the shorter of them goes and
    /// with the lesser limit. It is one of the two where the other is without a place, or begins elsewhere.
    pub fn or(self, other: Eliminated) -> Eliminated
        ensures { (sum : At → ℕ) → AreEliminatedBy sum self → AreEliminatedBy sum other
            → AreEliminatedBy sum result }
    {
        if self.n == 0 {
            return other;
        }
        if other.n == 0 {
            return self;
        }
        if self.from == other.from {
            return Eliminated {
                from: self.from,
                n: self.n.min(other.n),
                limit: self.limit.min(other.limit),
                above: marks_of_both(self.above, other.above),
            };
        }
        self
    }
}
