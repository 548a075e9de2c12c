// Whole grown runs over small samples, and their records over one another.
ghost use Rattle.std.specs.Prelude.{All};
ghost use Rattle.cut_replay.specs.Replay.{IsFormed};

use crate::cases::{Case, Growth, Over, Record};
use crate::samples::{
    GREYS, SIX, Sample, Source, THREE, TWO_PARTS, canvas_over, has_sources, is_size, laid_at,
};
use crate::steps::has_patch;
use cells::{Size, Volume};
use costs::total;
use cut_check::{CutFault, CutRecord, Flow, KEEP_RULE};
use cut_replay::{Broken, replay_cuts};
use grow_run::grow_canvas;
use grown::{GrowPlan, Grown};
use patch_picks::Mode;
use std::alloc::{AllocError, Global};

const NONE: Flow = Flow { x: 0, y: 0 };

// A grid that overlaps by two.
const BY_GRID: GrowPlan = GrowPlan {
    size: SIX,
    mode: Mode::Grid { overlap: 2 },
    side: 4,
    tol: 10,
    rounds: 0,
    seed: 0,
};

const WITH_A_ROUND: GrowPlan = GrowPlan {
    size: SIX,
    mode: Mode::Grid { overlap: 2 },
    side: 4,
    tol: 10,
    rounds: 1,
    seed: 0,
};

const SIX_SOURCES: &[Source] = &[(0, 0), (1, 0), (2, 0), (1, 0), (2, 0), (3, 0)];

const LAID: Record<'static> = (0, &[true; 4], &[NONE; 3]);

const KEPT_FIRST: Record<'static> = (
    2,
    &[false, true, true, true],
    &[Flow { x: 120, y: 120 }, Flow { x: 120, y: 0 }, NONE],
);

const KEPT_LAST: Record<'static> = (
    0,
    &[true, true, true, false],
    &[NONE, NONE, Flow { x: 0, y: -120 }],
);

// A row of 10, 20, 30 and 40 is grown to six cells: the third cell is kept, and the fourth is new. A round lays the first
// window again, all of whose choices cost the same.
pub(crate) const FOUR_TO_SIX: &[Case<'static>] = &[
    (
        GREYS,
        SIX,
        &[],
        Over::Grown(BY_GRID, (SIX_SOURCES, 120, 2, 0, &[LAID, KEPT_FIRST])),
    ),
    (
        GREYS,
        SIX,
        &[],
        Over::Grown(
            WITH_A_ROUND,
            (SIX_SOURCES, 120, 3, 1, &[LAID, KEPT_FIRST, KEPT_LAST]),
        ),
    ),
];

const CELL: Sample<'static> = ((Size { w: 1, h: 1, f: 1 }, 3, &[7, 8, 9]), None);

const BY_CELLS: GrowPlan = GrowPlan {
    size: Size { w: 3, h: 2, f: 1 },
    mode: Mode::Grid { overlap: 0 },
    side: 32,
    tol: 10,
    rounds: 5,
    seed: 0,
};

const AT_RANDOM: GrowPlan = GrowPlan {
    size: Size { w: 3, h: 2, f: 1 },
    mode: Mode::Random,
    side: 32,
    tol: 10,
    rounds: 5,
    seed: 0,
};

const WHOLE: GrowPlan = GrowPlan {
    size: Size { w: 3, h: 2, f: 1 },
    mode: Mode::Whole { tol: 10 },
    side: 32,
    tol: 10,
    rounds: 5,
    seed: 0,
};

const BY_PATCHES: GrowPlan = GrowPlan {
    size: Size { w: 3, h: 2, f: 1 },
    mode: Mode::Sub {
        side: 32,
        overlap: 8,
        tol: 10,
    },
    side: 32,
    tol: 10,
    rounds: 5,
    seed: 0,
};

// Each mode lays the cells one by one. Each of the 7 pairs costs as much as two places outside, but no window
// of one cell costs anything, so that there is no round.
const OF_ONE_CELL: Growth<'static> = (&[(0, 0); 6], 10710, 6, 0, &[]);

pub(crate) const CELLS: &[Case<'static>] = &[
    (CELL, THREE, &[], Over::Grown(BY_CELLS, OF_ONE_CELL)),
    (CELL, THREE, &[], Over::Grown(AT_RANDOM, OF_ONE_CELL)),
    (CELL, THREE, &[], Over::Grown(WHOLE, OF_ONE_CELL)),
    (CELL, THREE, &[], Over::Grown(BY_PATCHES, OF_ONE_CELL)),
];

const OF_SEED_0: GrowPlan = GrowPlan {
    size: THREE,
    mode: Mode::Sub {
        side: 2,
        overlap: 1,
        tol: 0,
    },
    side: 2,
    tol: 0,
    rounds: 0,
    seed: 0,
};

const OF_THE_LAST_SEED: GrowPlan = GrowPlan {
    size: THREE,
    mode: Mode::Sub {
        side: 2,
        overlap: 1,
        tol: 0,
    },
    side: 2,
    tol: 0,
    rounds: 0,
    seed: u64::MAX,
};

// Over two parts the second patch is that of part 2, whatever the draws. The first draw of seed 0 is 0 of 2, and that of
// the last seed is 1 of 2. Where the first is of part 1, only the place past its end costs something.
pub(crate) const TWO_PATCHES: &[Case<'static>] = &[
    (
        TWO_PARTS,
        THREE,
        &[],
        Over::Grown(OF_SEED_0, (&[(0, 0), (1, 0), (1, 2)], 765, 2, 0, &[])),
    ),
    (
        TWO_PARTS,
        THREE,
        &[],
        Over::Grown(
            OF_THE_LAST_SEED,
            (&[(0, 2), (1, 2), (1, 2)], 795, 2, 0, &[]),
        ),
    ),
];

// Whether the records are these.
fn are_records(cuts: &[CutRecord], records: &[Record]) -> bool {
    for (i, (x, choice, flows)) in records.iter().enumerate() {
        if i >= cuts.len() || cuts[i].placement != laid_at(*x, 4) {
            return false;
        }
        if cuts[i].choice.as_slice() != *choice || cuts[i].flows.as_slice() != *flows {
            return false;
        }
    }
    cuts.len() == records.len()
}

// Whether the records over one another leave the same sources. Over the full map the first one isn't admissible, since its
// last cell is kept.
fn is_replayed(
    alloc: Global,
    sample: &Volume,
    cuts: &[CutRecord],
    sources: &[Source],
) -> Result<bool, AllocError>
    requires { All IsFormed cuts.now }
{
    let mut again = canvas_over(alloc, SIX, sample)?;
    let is_again = replay_cuts(&mut again, sample, cuts).is_ok() && has_sources(&again, sources);
    let fault = CutFault {
        kind: KEEP_RULE,
        place: 3,
    };
    Ok(is_again && replay_cuts(&mut again, sample, cuts) == Err(Broken { number: 0, fault }))
}

// Whether this is left of a run.
fn is_left(alloc: Global, run: &Grown, sample: &Volume, growth: &Growth) -> Result<bool, AllocError>
    requires { All IsFormed run.now.cuts }
{
    let (sources, cost, count, rounds, records) = *growth;
    let cuts = run.cuts.as_slice();
    let is_run = has_sources(&run.canvas, sources) && total(&run.canvas, sample) == cost;
    if !is_run || cuts.len() != count || run.rounds != rounds {
        return Ok(false);
    }
    if records.is_empty() {
        return Ok(true);
    }
    Ok(are_records(cuts, records) && is_replayed(alloc, sample, cuts, sources)?)
}

/// Whether this is left of the run of a plan.
pub(crate) fn is_grown(
    alloc: Global,
    plan: &GrowPlan,
    sample: &Volume,
    growth: &Growth,
) -> Result<bool, AllocError> {
    if !is_size(plan.size) || !has_patch(&plan.mode) || plan.side < 1 {
        return Ok(false);
    }
    let Ok(run) = grow_canvas(alloc, plan, sample) else {
        return Err(AllocError);
    };
    is_left(alloc, &run, sample, growth)
}
