// The box around a cell in which the filled cells of all candidates that cover it are.
ghost use Rattle.std.specs.Prelude.{◌≤◌, ◌+◌};
ghost use Rattle.cells.specs.Boxes.{HoldsBox};
ghost use Rattle.cells.specs.Places.{IsSmall};

use boxes::count_of;
use cells::{At, Box3, Size, Volume};
use patch_picks::{Candidates, part_after, parts_of};

// A run of cells along one axis.
#[derive(Clone, Copy, Drop)]
struct Reach {
    corner: u32,
    len: u32,
}

// Along one axis, the cells of the output that any part of at most this size may have, where a cell of
// its first half comes to q.
fn reach_on(output: u32, part: u32, q: u32) -> Reach
    ensures { result.corner + result.len ≤ output }
{
    let corner = output.min(q.saturating_sub(part / 2));
    let end = output.min(q.saturating_add(part));
    Reach {
        corner,
        len: end.saturating_sub(corner),
    }
}

// On each axis the greatest of the parts of a sample.
fn greatest_part(sample: &Volume) -> Size {
    // Called for its contract only: it shows the prover that the sample is a volume.
    let _sample = sample.samples();
    let sizes = parts_of(sample);
    let mut greatest = part_after(&sizes, 0);
    'parts: for n in 1..sizes.len() {
        let part = part_after(&sizes, n);
        greatest = Size {
            w: greatest.w.max(part.w),
            h: greatest.h.max(part.h),
            f: greatest.f.max(part.f),
        };
    }
    greatest
}

/// Where all candidates are: the box of their filled cells, and the cell that comes to the first half of each.
#[derive(Clone, Copy, Drop)]
pub(crate) struct Around {
    pub(crate) rect: Box3,
    pub(crate) q: At,
}

/// Where all candidates of a list are. Where there is one candidate, sums and runs of its filled cells would
/// cost more than they save: the box has no cell.
pub(crate) fn around_of(list: &Candidates, output: Size, sample: &Volume) -> Around
    requires { IsSmall output }
    ensures { HoldsBox output result.rect.corner result.rect.size }
{
    match list {
        Candidates::Laid { q } => {
            // All cells that a part may have, a cell of whose first half comes to q.
            let part = greatest_part(sample);
            let x = reach_on(output.w, part.w, count_of(q.x));
            let y = reach_on(output.h, part.h, count_of(q.y));
            let f = reach_on(output.f, part.f, count_of(q.f));
            let corner = At {
                x: x.corner as i32,
                y: y.corner as i32,
                f: f.corner as i32,
            };
            let size = Size {
                w: x.len,
                h: y.len,
                f: f.len,
            };
            Around {
                rect: Box3 { corner, size },
                q: *q,
            }
        }
        Candidates::One(_) | Candidates::Fits { .. } => {
            let corner = At { x: 0, y: 0, f: 0 };
            let size = Size { w: 0, h: 0, f: 0 };
            Around {
                rect: Box3 { corner, size },
                q: corner,
            }
        }
    }
}
