// Worked examples of search_squares: which places blocks of 2x2 cells rule out, and which only single cells do.
ghost use Rattle.map_canvas.specs.Canvases.{StandsOver};

use crate::cases::{Case, Over};
use crate::samples::{FIRST, Sample, fits};
use cells::{At, Box3, Size, Volume};
use map_canvas::{Canvas, Placement};
use search_squares::{BoxLevels, Eliminated, Pauses, SampleSums};
use std::alloc::{AllocError, Global};

// A picture of 8x4 cells in which each cell is one more than that before it.
const RISING: Sample<'static> = (
    (
        Size { w: 8, h: 4, f: 1 },
        1,
        &[
            0, 1, 2, 3, 4, 5, 6, 7, 8, 9, 10, 11, 12, 13, 14, 15, 16, 17, 18, 19, 20, 21, 22, 23,
            24, 25, 26, 27, 28, 29, 30, 31,
        ],
    ),
    None,
);

// Its first four columns.
const COLUMNS: &[i32] = &[0, 1, 2, 3, 8, 9, 10, 11, 16, 17, 18, 19, 24, 25, 26, 27];

// A board of two colours of 20x2 cells, on which all blocks of 2x2 cells have the same sum.
const BOARD: Sample<'static> = (
    (
        Size { w: 20, h: 2, f: 1 },
        1,
        &[
            0, 100, 0, 100, 0, 100, 0, 100, 0, 100, 0, 100, 0, 100, 0, 100, 0, 100, 0, 100, 100, 0,
            100, 0, 100, 0, 100, 0, 100, 0, 100, 0, 100, 0, 100, 0, 100, 0, 100, 0,
        ],
    ),
    None,
);

const SQUARE: Size = Size { w: 4, h: 4, f: 1 };

// Over canvases of a sample's first cells. In the picture a place x columns on has the error 16 * x * x, and so have its
// blocks of 2x2 cells. On the board every other place has the colours the other way round, and the error 4 * 100 * 100.
pub(crate) const RULED_OUT: &[Case<'static>] = &[
    (
        RISING,
        SQUARE,
        COLUMNS,
        Over::RuledOut(64, 5, 64, &[0, 0, 0, 2, 1, 0, 0, 0]),
    ),
    (RISING, SQUARE, COLUMNS, Over::RuledOut(64, 5, 65, &[0; 8])),
    (
        BOARD,
        Size { w: 2, h: 2, f: 1 },
        &[0, 1, 20, 21],
        Over::RuledOut(
            30_000,
            19,
            30_000,
            &[0, 1, 0, 1, 0, 1, 0, 1, 0, 1, 0, 1, 0, 1, 0, 1, 0, 1, 0, 0],
        ),
    ),
];

// Whether the places of a row from its first one on are covered up to a column, and from each so many are ruled out.
fn are_gone(run: &Eliminated, covered: i32, limit: u64, gone: &[u32]) -> bool {
    for (x, count) in gone.iter().enumerate() {
        if x >= 99 {
            return false;
        }
        let at = At {
            x: x as i32,
            y: 0,
            f: 0,
        };
        if run.covers(at) != (at.x < covered) || run.count_from(at, limit) != *count {
            return false;
        }
    }
    true
}

/// Whether so many places are ruled out for a limit, of those that are searched for another one.
pub(crate) fn is_ruled_out(
    alloc: Global,
    canvas: &Canvas,
    sample: &Volume,
    searched: u64,
    covered: i32,
    limit: u64,
    gone: &[u32],
) -> Result<bool, AllocError>
    requires { StandsOver canvas.now sample.now }
{
    let size = canvas.map().size();
    let rect = Box3 {
        corner: FIRST,
        size,
    };
    if !fits(canvas, sample, &Placement { rect, from: FIRST }) {
        return Ok(false);
    }
    let sums = SampleSums::make(alloc, sample)?;
    let levels = BoxLevels::gather(alloc, canvas, &rect, &sums)?;
    let mut pauses = Pauses::none();
    let run = levels.eliminate(
        &sums,
        canvas,
        sample,
        &rect,
        0,
        FIRST,
        searched,
        &mut pauses,
    );
    Ok(are_gone(&run, covered, limit, gone))
}
