// Worked examples of graph_place and refine_seams: choices and flows over a row, and over boxes of two and three axes
// whose flows are forced; and a round over a full row.
ghost use Rattle.map_canvas.specs.Canvases.{StandsOver};

use crate::cases::{Case, Cut, Over};
use crate::samples::{FIRST, GREYS, SIX, Sample, fits};
use cells::{At, Box3, Size, Volume};
use costs::{are_marks, window};
use cut_check::Flow;
use graph_place::place_held;
use map_canvas::{Canvas, Placement};
use patch_picks::Draws;
use refine_seams::{round, round_windows};
use std::alloc::{AllocError, Global};

const NONE: Flow = Flow { x: 0, y: 0 };

const BOTH: Flow = Flow { x: 120, y: 120 };

const FIRST_FOUR: Box3 = Box3 {
    corner: FIRST,
    size: Size { w: 4, h: 1, f: 1 },
};

const LAST_FOUR: Box3 = Box3 {
    corner: At { x: 2, y: 0, f: 0 },
    size: Size { w: 4, h: 1, f: 1 },
};

const SECOND_HELD: Option<&[bool]> = Some(&[false, true, false, false]);

pub(crate) const ROWS: &[Case<'static>] = &[
    // A row that is empty at first.
    (
        GREYS,
        SIX,
        &[],
        Over::Cut((
            FIRST_FOUR,
            None,
            &[true, true, true, true],
            Some(NONE),
            &[NONE, NONE],
            0,
        )),
    ),
    // The first cell of the box is kept, and the second becomes new.
    (
        GREYS,
        SIX,
        &[0, 1, 2, 3],
        Over::Cut((
            LAST_FOUR,
            None,
            &[false, true, true, true],
            Some(BOTH),
            &[Flow { x: 120, y: 0 }, NONE],
            120,
        )),
    ),
    // All cells are filled, and the last of the box is kept.
    (
        GREYS,
        SIX,
        &[0, 1, 2, 1, 2, 3],
        Over::Cut((
            FIRST_FOUR,
            None,
            &[true, true, true, false],
            Some(NONE),
            &[NONE, Flow { x: 0, y: -120 }],
            120,
        )),
    ),
    // With its second cell held, two cells of the box stay old; what comes to the one goes on to the other.
    (
        GREYS,
        SIX,
        &[0, 1, 2, 3],
        Over::Cut((
            LAST_FOUR,
            SECOND_HELD,
            &[false, false, true, true],
            None,
            &[Flow { x: 825, y: 0 }, NONE],
            825,
        )),
    ),
    // A row of two copies that overlap by two cells. Its first window is laid again by one draw: nothing but the
    // sample's own place fits, and what it leaves costs no less.
    (GREYS, SIX, &[0, 1, 2, 1, 2, 3], Over::Round),
];

const PICTURE: Sample<'static> = (
    (Size { w: 3, h: 2, f: 1 }, 1, &[0, 10, 50, 30, 70, 100]),
    None,
);

const CLIP: Sample<'static> = (
    (
        Size { w: 2, h: 2, f: 2 },
        1,
        &[0, 10, 30, 70, 150, 200, 90, 255],
    ),
    None,
);

pub(crate) const FORCED: &[Case<'static>] = &[
    // A box of two rows with one kept cell: what leaves it along X and along Y.
    (
        PICTURE,
        Size { w: 3, h: 2, f: 1 },
        &[4, 2],
        Over::Cut((
            Box3 {
                corner: At { x: 1, y: 0, f: 0 },
                size: Size { w: 2, h: 2, f: 1 },
            },
            None,
            &[false, true, true, true],
            Some(Flow { x: 305, y: 0 }),
            &[Flow { x: 120, y: 0 }, NONE, NONE],
            425,
        )),
    ),
    // A box of two cells on each axis whose last cell is kept: what leaves it along F, Y and X, by the numbers 7,
    // 10 and 11 of these pairs.
    (
        CLIP,
        Size { w: 3, h: 2, f: 2 },
        &[-1, -1, -1, -1, -1, -1, -1, -1, -1, -1, 6, 0],
        Over::Cut((
            Box3 {
                corner: FIRST,
                size: Size { w: 2, h: 2, f: 2 },
            },
            None,
            &[true, true, true, true, true, true, true, false],
            Some(NONE),
            &[
                NONE,
                NONE,
                NONE,
                NONE,
                NONE,
                NONE,
                Flow { x: 0, y: -205 },
                NONE,
                NONE,
                Flow { x: 0, y: -215 },
                Flow { x: 0, y: -420 },
            ],
            840,
        )),
    ),
];

// Whether the first flow is this one, or as much comes as goes on; and the others are these.
fn are_flows(flows: &[Flow], first: Option<Flow>, others: &[Flow]) -> bool {
    if flows.is_empty() {
        return false;
    }
    let is_first = match first {
        Some(flow) => flows[0] == flow,
        None => flows[0].x == flows[0].y,
    };
    is_first && &flows[1..] == others
}

/// Whether a box that is laid is cut so.
pub(crate) fn is_cut(
    alloc: Global,
    canvas: &mut Canvas,
    sample: &Volume,
    cut: &Cut,
) -> Result<bool, AllocError>
    requires { StandsOver canvas.old sample.now }
{
    let (rect, held, choice, first, others, sum) = *cut;
    let placement = Placement { rect, from: FIRST };
    if !fits(canvas, sample, &placement) || !are_marks(canvas, &placement, held) {
        return Ok(false);
    }
    let found = place_held(alloc, canvas, sample, placement, held)?;
    let is_record = found.choice.as_slice() == choice
        && are_flows(found.flows.as_slice(), first, others);
    Ok(is_record && window(canvas, sample, &rect) == sum)
}

/// Whether a round over a full row makes the first three cells of its first window new, by one draw.
pub(crate) fn is_round(
    alloc: Global,
    canvas: &mut Canvas,
    sample: &Volume,
) -> Result<bool, AllocError>
    requires { StandsOver canvas.old sample.now }
{
    if canvas.first_unfilled().is_some() {
        return Ok(false);
    }
    let mut table = round_windows(alloc, canvas, sample, 4)?;
    let mut draws = Draws::from_seed(0);
    let cut = round(alloc, canvas, sample, 4, 10, &mut draws, &mut table)?;
    let choice = cut.map(|cut| cut.choice.as_slice() == [true, true, true, false].as_slice());
    Ok(choice == Some(true) && draws.place() == 1)
}
