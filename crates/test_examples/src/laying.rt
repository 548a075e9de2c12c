// Canvases over samples, and cells that are laid on them, for the worked examples.
ghost use Rattle.map_canvas.specs.Canvases.{StandsOver};

use crate::pictures::{Place, assert_fits, assert_small, at};
use cells::{At, Box3, Size, Volume};
use map_canvas::{Canvas, Placement};
use std::alloc::Global;
use std::process::Abort;

/// A cell, and the cell of the sample that it comes from.
pub(crate) type Laid = (Place, Place);

/// A canvas over a sample, with these cells.
pub(crate) fn canvas_with(
    rt: &impl Abort,
    alloc: Global,
    size: Size,
    sample: &Volume,
    cells: &[Laid],
) -> Canvas
    ensures { StandsOver result sample.now }
{
    assert_small(rt, size);
    let Ok(mut canvas) = Canvas::empty(alloc, size, sample.samples()) else {
        rt.abort()
    };
    'cells: for (p, from) in cells {
        put_choice(rt, &mut canvas, sample, at(*p), at(*from), (1, 1), &[true]);
    }
    canvas
}

/// Puts in a choice over a box of one frame.
pub(crate) fn put_choice(
    rt: &impl Abort,
    canvas: &mut Canvas,
    sample: &Volume,
    corner: At,
    from: At,
    size: (u32, u32),
    choice: &[bool],
)
    requires { StandsOver canvas.old sample.now }
    ensures { StandsOver canvas.new sample.now }
{
    let (w, h) = size;
    assert!(rt; (w <= 9) & (h <= 9));
    let size = Size { w, h, f: 1 };
    let rect = Box3 { corner, size };
    let placement = Placement { rect, from };
    assert_fits(rt, canvas.map().size(), sample, &placement);
    assert!(rt; choice.len() == w as usize * h as usize);
    canvas.put_choice(sample, &placement, choice);
}
