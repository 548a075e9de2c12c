// Worked examples of patch_picks and patch_place: the lists of small samples and outputs, and picks over a row.
ghost use Rattle.std.specs.Prelude.{All};
ghost use Rattle.cells.specs.Places.{IsInside, IsSmall};
ghost use Rattle.map_canvas.specs.Canvases.{StandsOver};
ghost use Rattle.patch_picks.specs.Fitting.{FitsAndCovers, HasPatch};
ghost use Rattle.patch_picks.specs.Lists.{IsWithin};
ghost use Rattle.patch_picks.specs.Picks.{AllFit, HasEntries, listed_on};

use crate::cases::{Case, Entry, Over};
use crate::samples::{GREYS, SIX, Sample, Source, THREE, TWO_PARTS};
use crate::steps::{has_patch, step_at};
use cells::{At, Box3, Size, Volume};
use map_canvas::{Canvas, Placement};
use patch_picks::{Candidates, Draws, Mode};
use patch_place::pick;
use std::alloc::{AllocError, Global};

const OUTPUT: Size = Size { w: 5, h: 4, f: 1 };

const WHOLE: Mode = Mode::Whole { tol: 30 };

// Patches of two cells.
const PATCH: Mode = Mode::Sub {
    side: 2,
    overlap: 1,
    tol: 0,
};

const PICTURE: Sample<'static> = ((Size { w: 3, h: 2, f: 1 }, 1, &[]), None);

const AT_THE_FIRST: &[Entry] = &[
    ((0, 0, 0), (3, 2, 1), (0, 0, 0)),
    ((0, 0, 0), (2, 2, 1), (1, 0, 0)),
];

const AT_THE_LAST: &[Entry] = &[
    ((4, 3, 0), (1, 1, 1), (0, 0, 0)),
    ((3, 3, 0), (2, 1, 1), (0, 0, 0)),
];

// The whole sample is 3x2, so each of the cells (0, 0) and (1, 0) comes to q. Of a patch of 2x2 one begins at
// the first cell, one at the last and one at the right edge.
pub(crate) const OF_ONE_PART: &[Case<'static>] = &[
    (
        PICTURE,
        OUTPUT,
        &[],
        Over::Listed(Mode::Random, (0, 0), AT_THE_FIRST),
    ),
    (
        PICTURE,
        OUTPUT,
        &[],
        Over::Listed(WHOLE, (0, 0), AT_THE_FIRST),
    ),
    (
        PICTURE,
        OUTPUT,
        &[],
        Over::Listed(Mode::Random, (4, 3), AT_THE_LAST),
    ),
    (
        PICTURE,
        OUTPUT,
        &[],
        Over::Listed(WHOLE, (4, 3), AT_THE_LAST),
    ),
    (
        PICTURE,
        OUTPUT,
        &[],
        Over::Listed(
            PATCH,
            (0, 0),
            &[
                ((0, 0, 0), (2, 2, 1), (0, 0, 0)),
                ((0, 0, 0), (2, 2, 1), (1, 0, 0)),
            ],
        ),
    ),
    (
        PICTURE,
        OUTPUT,
        &[],
        Over::Listed(
            PATCH,
            (4, 3),
            &[
                ((3, 2, 0), (2, 2, 1), (0, 0, 0)),
                ((3, 2, 0), (2, 2, 1), (1, 0, 0)),
            ],
        ),
    ),
    (
        PICTURE,
        OUTPUT,
        &[],
        Over::Listed(
            PATCH,
            (4, 1),
            &[
                ((3, 0, 0), (2, 2, 1), (0, 0, 0)),
                ((3, 0, 0), (2, 2, 1), (1, 0, 0)),
            ],
        ),
    ),
];

const ROW: Sample<'static> = ((Size { w: 4, h: 1, f: 1 }, 1, &[]), None);

const SEVEN: Size = Size { w: 7, h: 1, f: 1 };

const BY_TWO: Mode = Mode::Grid { overlap: 2 };

const BY_ALL: Mode = Mode::Grid { overlap: 9 };

// Copies of a sample of 4x1 that overlap by two cells, in an output of 7x1. An overlap of all cells is one of
// all but one.
pub(crate) const OF_GRIDS: &[Case<'static>] = &[
    (
        ROW,
        SEVEN,
        &[],
        Over::Listed(BY_TWO, (0, 0), &[((0, 0, 0), (4, 1, 1), (0, 0, 0))]),
    ),
    (
        ROW,
        SEVEN,
        &[],
        Over::Listed(BY_TWO, (3, 0), &[((0, 0, 0), (4, 1, 1), (0, 0, 0))]),
    ),
    (
        ROW,
        SEVEN,
        &[],
        Over::Listed(BY_TWO, (4, 0), &[((2, 0, 0), (4, 1, 1), (0, 0, 0))]),
    ),
    (
        ROW,
        SEVEN,
        &[],
        Over::Listed(BY_TWO, (6, 0), &[((4, 0, 0), (3, 1, 1), (0, 0, 0))]),
    ),
    (
        ROW,
        SEVEN,
        &[],
        Over::Listed(BY_ALL, (5, 0), &[((2, 0, 0), (4, 1, 1), (0, 0, 0))]),
    ),
];

const PICTURES: Sample<'static> = (
    (Size { w: 3, h: 2, f: 1 }, 1, &[]),
    Some((Size { w: 2, h: 1, f: 1 }, 1, &[])),
);

const CLIPS: Sample<'static> = (
    (Size { w: 1, h: 1, f: 3 }, 1, &[]),
    Some((Size { w: 1, h: 1, f: 2 }, 1, &[])),
);

const WIDE: Box3 = Box3 {
    corner: At { x: 1, y: 1, f: 0 },
    size: Size { w: 3, h: 1, f: 1 },
};

const FRAMES: Box3 = Box3 {
    corner: At { x: 0, y: 0, f: 1 },
    size: Size { w: 1, h: 1, f: 2 },
};

pub(crate) const OF_TWO_PARTS: &[Case<'static>] = &[
    // Over parts of 3x2 and of 2x1, which is in frame 2. A patch is as large as both allow.
    (
        PICTURES,
        OUTPUT,
        &[],
        Over::Listed(
            Mode::Random,
            (0, 0),
            &[
                ((0, 0, 0), (3, 2, 1), (0, 0, 0)),
                ((0, 0, 0), (2, 2, 1), (1, 0, 0)),
                ((0, 0, 0), (2, 1, 1), (0, 0, 2)),
            ],
        ),
    ),
    (
        PICTURES,
        OUTPUT,
        &[],
        Over::Listed(
            Mode::Grid { overlap: 0 },
            (3, 0),
            &[((3, 0, 0), (2, 2, 1), (0, 0, 0))],
        ),
    ),
    (
        PICTURES,
        OUTPUT,
        &[],
        Over::Listed(
            PATCH,
            (0, 0),
            &[
                ((0, 0, 0), (2, 1, 1), (0, 0, 0)),
                ((0, 0, 0), (2, 1, 1), (1, 0, 0)),
                ((0, 0, 0), (2, 1, 1), (0, 1, 0)),
                ((0, 0, 0), (2, 1, 1), (1, 1, 0)),
                ((0, 0, 0), (2, 1, 1), (0, 0, 2)),
            ],
        ),
    ),
    // A box of 3x1 fits in the first part alone.
    (
        PICTURES,
        OUTPUT,
        &[],
        Over::Boxed(
            WIDE,
            &[
                ((1, 1, 0), (3, 1, 1), (0, 0, 0)),
                ((1, 1, 0), (3, 1, 1), (0, 1, 0)),
            ],
        ),
    ),
    (
        PICTURES,
        OUTPUT,
        &[],
        Over::Window(32, Size { w: 2, h: 1, f: 1 }),
    ),
    // A box of two frames in clips of three frames and of two, of which the second begins in frame 4.
    (
        CLIPS,
        Size { w: 1, h: 1, f: 4 },
        &[],
        Over::Boxed(
            FRAMES,
            &[
                ((0, 0, 1), (1, 1, 2), (0, 0, 0)),
                ((0, 0, 1), (1, 1, 2), (0, 0, 1)),
                ((0, 0, 1), (1, 1, 2), (0, 0, 4)),
            ],
        ),
    ),
];

fn placement_of(entry: &Entry) -> Placement {
    let (corner, size, from) = *entry;
    Placement {
        rect: Box3 {
            corner: At {
                x: corner.0,
                y: corner.1,
                f: corner.2,
            },
            size: Size {
                w: size.0,
                h: size.1,
                f: size.2,
            },
        },
        from: At {
            x: from.0,
            y: from.1,
            f: from.2,
        },
    }
}

/// Whether the candidates are these, in this order.
pub(crate) fn are_listed(
    list: &Candidates,
    output: Size,
    sample: &Volume,
    entries: &[Entry],
) -> bool
    requires output { IsSmall output }
    requires within { IsWithin list.now output }
{
    for (i, entry) in entries.iter().enumerate() {
        if i >= 99 {
            return false;
        }
        let n = i as u32;
        if n >= list.count(output, sample) || list.entry(n, output, sample) != placement_of(entry) {
            return false;
        }
    }
    list.count(output, sample) as usize == entries.len()
}

/// Whether those of a mode for a cell of a picture are these.
pub(crate) fn is_listed(
    canvas: &Canvas,
    sample: &Volume,
    mode: &Mode,
    q: (i32, i32),
    entries: &[Entry],
) -> bool {
    let output = canvas.map().size();
    let q = At {
        x: q.0,
        y: q.1,
        f: 0,
    };
    output.index_of(q).is_some()
        && are_listed(&mode.candidates(q, output, sample), output, sample, entries)
}

const ANY: Mode = Mode::Sub {
    side: 3,
    overlap: 2,
    tol: u32::MAX,
};

const EXACT: Mode = Mode::Sub {
    side: 3,
    overlap: 2,
    tol: 0,
};

const BELOW_TWICE: Mode = Mode::Sub {
    side: 3,
    overlap: 2,
    tol: 99,
};

const TWICE: Mode = Mode::Sub {
    side: 3,
    overlap: 2,
    tol: 100,
};

const ELEVEN_TIMES: Mode = Mode::Sub {
    side: 3,
    overlap: 2,
    tol: 1_000,
};

pub(crate) const PICKS: &[Case<'static>] = &[
    // The patches of three cells are 10, 20, 30 and 20, 30, 40. Beside 20 and 20 both have the sum 3 * 100, beside
    // 20 and 10 the sums 3 * 200 and 3 * 400, and beside 20 and 30 the second has the sum 0.
    (
        GREYS,
        SIX,
        &[1, 1],
        Over::Picks(EXACT, (0, 3), &[(0, 0), (1, 0)]),
    ),
    (GREYS, SIX, &[1, 0], Over::Picks(EXACT, (0, 3), &[(0, 0)])),
    (
        GREYS,
        SIX,
        &[1, 0],
        Over::Picks(BELOW_TWICE, (0, 3), &[(0, 0)]),
    ),
    (
        GREYS,
        SIX,
        &[1, 0],
        Over::Picks(TWICE, (0, 3), &[(0, 0), (1, 0)]),
    ),
    (
        GREYS,
        SIX,
        &[1, 0],
        Over::Picks(ANY, (0, 3), &[(0, 0), (1, 0)]),
    ),
    (
        GREYS,
        SIX,
        &[1, 2],
        Over::Picks(ELEVEN_TIMES, (0, 3), &[(1, 0)]),
    ),
    // Cells 0 and 1 of three are from the first part; the patch of the second one has 20 on cell 1 too.
    (
        TWO_PARTS,
        THREE,
        &[0, 1],
        Over::Picks(PATCH, (1, 2), &[(0, 2)]),
    ),
];

// The candidates of a mode for a cell.
fn candidates_for(mode: &Mode, q: At, canvas: &Canvas, sample: &Volume) -> Candidates
    requires patch { HasPatch mode.now }
    requires inside { IsInside canvas.now.map.size q }
    ensures within { IsWithin result canvas.now.map.size }
    ensures some { HasEntries canvas.now sample.now result }
    ensures over { All (FitsAndCovers canvas.now.map.size sample.now q)
        (listed_on canvas.now sample.now result) }
    ensures fit { AllFit canvas.now sample.now result }
{
    mode.candidates(q, canvas.map().size(), sample)
}

// What is picked of the candidates for the first unfilled cell by the draw of a number.
fn picked_at(
    alloc: Global,
    mode: &Mode,
    canvas: &Canvas,
    sample: &Volume,
    number: u64,
) -> Result<Option<Source>, AllocError>
    requires over { StandsOver canvas.now sample.now }
    requires patch { HasPatch mode.now }
{
    let Some(q) = canvas.first_unfilled() else {
        return Ok(None);
    };
    let list = candidates_for(mode, q, canvas, sample);
    let mut draws = Draws::from_seed(0);
    draws.go_to(number);
    let picked = pick(alloc, &list, mode.tolerance(), canvas, sample, &mut draws)?;
    Ok(Some((picked.from.x, picked.from.f)))
}

/// Whether the draws of 16 numbers pick these sources alone, each by the draw among as many. The step is that pick, in
/// this box.
pub(crate) fn are_picks(
    alloc: Global,
    mode: &Mode,
    canvas: &Canvas,
    sample: &Volume,
    rect: (i32, u32),
    eligible: &[Source],
) -> Result<bool, AllocError>
    requires { StandsOver canvas.now sample.now }
{
    if !has_patch(mode) || eligible.is_empty() || eligible.len() > 9 {
        return Ok(false);
    }
    for number in 0..16 {
        let mut draws = Draws::from_seed(0);
        draws.go_to(number);
        let (x, f) = eligible[draws.below(eligible.len() as u32) as usize];
        let step = step_at(alloc, mode, canvas, sample, number)?;
        let picked = picked_at(alloc, mode, canvas, sample, number)?;
        if step != (Some((rect.0, rect.1, x, f)), number.wrapping_add(1))
            || picked != Some((x, f))
        {
            return Ok(false);
        }
    }
    Ok(true)
}
