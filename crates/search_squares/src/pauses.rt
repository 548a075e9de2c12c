// When a size of blocks is tried.
ghost use Rattle.std.specs.Prelude.{◌<◌};

use crate::levels::LEVELS;

// The most runs in a row that a level is left out for.
const MOST_RUNS: u32 = 15;

/// Which levels are left out for the next runs of a walk over places: one that eliminated less than half
/// of the places that it was tried for is left out for a run, and for more of them each time in a row. It
/// only says what to try, so nothing is promised.
#[derive(Clone, Copy, Drop)]
pub struct Pauses {
    // of each level, for how many runs it was left out last
    spells: [u32; LEVELS],
    // of each level, for how many runs it is still to be left out
    waits: [u32; LEVELS],
}

impl Pauses {
    /// Before the first run: no level is left out.
    pub fn none() -> Pauses {
        Pauses {
            spells: [0; LEVELS],
            waits: [0; LEVELS],
        }
    }

    // Whether a level is left out for a run, which is counted.
    pub(crate) fn leaves_out(&mut self, level: usize) -> bool
        requires { level < LEVELS }
    {
        if self.waits[level] == 0 {
            return false;
        }
        self.waits[level] -= 1;
        true
    }

    // Counts a run in which a level was tried for so many places, and left so many of them.
    pub(crate) fn count(&mut self, level: usize, tried: u32, left: u32)
        requires { level < LEVELS }
    {
        let idle = left > tried / 2;
        self.spells[level] = if idle {
            self.spells[level]
                .saturating_mul(2)
                .saturating_add(1)
                .min(MOST_RUNS)
        } else {
            0
        };
        self.waits[level] = self.spells[level];
    }
}
