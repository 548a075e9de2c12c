// Worked examples of cyclic products, and of errors at all offsets.
ghost use Rattle.std.specs.Prelude.{◌≡◌};
ghost use Rattle.cells.specs.Places.{spot};
ghost use Rattle.map_canvas.specs.Canvases.{StandsOver};

use crate::cases::{Case, Over};
use crate::samples::{FIRST, GREYS, SIX, laid_at};
use cells::{Box3, Size, Volume};
use cyclic_products::Transform;
use map_canvas::Canvas;
use offset_errors::{Layout, OffsetErrors};
use std::alloc::{AllocError, Global};

/// Whether two lists of four numbers have the product that was worked out. What is wrong has the number 0.
pub(crate) fn wrong_product(alloc: Global) -> Result<Option<usize>, AllocError> {
    let transform = Transform::make(alloc, 2)?;
    let mut f = [1, 2, 3, 4];
    let mut g = [5, 6, 7, 8];
    transform.product(&mut f, &mut g);
    Ok(if f == [66, 68, 66, 60] { None } else { Some(0) })
}

// A row of six cells, of which four are the sample's.
pub(crate) const OFFSETS: &[Case<'static>] = &[(GREYS, SIX, &[0, 1, 2, 3], Over::Offsets)];

// A box along a row, from its first cell on.
fn along(w: u32) -> Box3
    ensures corner { result.corner ≡ spot 0 0 0 }
    ensures size { result.size ≡ record { w = w; h = 1; f = 1 } }
{
    Box3 {
        corner: FIRST,
        size: Size { w, h: 1, f: 1 },
    }
}

/// The sample that is laid from the third cell on differs in two cells, by 20 in each of their three samples. A box of
/// three of its cells leaves out one that both have. The layout isn't made for the sample that is laid from the fourth on.
pub(crate) fn are_sums(alloc: Global, canvas: &Canvas, sample: &Volume) -> Result<bool, AllocError>
    requires { StandsOver canvas.now sample.now }
{
    let (rect, part) = (along(6), along(4));
    if !sample.holds(&part) {
        return Ok(false);
    }
    let Some(layout) = Layout::make(rect.size, part.size, along(3).size, along(2).size) else {
        return Ok(false);
    };
    let errors = OffsetErrors::gather(alloc, canvas.map(), sample, &rect, &part, &layout)?;
    let is_apart = errors.sum(&laid_at(2, 3)).is_none() && errors.sum(&laid_at(3, 3)).is_none();
    Ok(is_apart && errors.sum(&laid_at(2, 4)) == Some(2400))
}
