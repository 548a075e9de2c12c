// Boxes by the index of their first cell, where they begin in the first part of a volume.
ghost use Rattle.std.specs.Prelude.{◌≡◌, ◌≤◌, ◌<◌, ◌+◌, ◌*◌, IfSome, Some, length};
ghost use Rattle.cells.specs.Boxes.{HasCells};
ghost use Rattle.cells.specs.Cells.{Holds, row_at, run_from};
ghost use Rattle.cells.specs.Places.{HasAxes, IsSmall, plus, raster_index, spot};
ghost use Rattle.match_error.specs.LaidRows.{AreFronts, IsFront};

use crate::rows::row_start;
use cells::{At, Size, Volume};
use limits::GREATEST_AXIS;
use map_canvas::{Canvas, Placement};

/// Where a box begins in the first part of a volume.
#[derive(Clone, Copy, Drop)]
pub(crate) struct Front {
    // the size of the part
    part: Size,
    // the index of the box's first cell
    index: usize,
}

/// How many cells three counts lead on, in a part of a size.
pub(crate) fn offset_in(part: Size, x: u32, y: u32, f: u32) -> usize
    requires axes { HasAxes part }
    requires counts { (x < GREATEST_AXIS) × (y < GREATEST_AXIS) × (f < GREATEST_AXIS) }
    ensures { result ≡ raster_index part x y f }
{
    x as usize + part.w as usize * (y as usize + part.h as usize * f as usize)
}

/// The size of a volume's first part.
pub(crate) fn first_size(sample: &Volume) -> Size
    ensures size { result ≡ sample.now.size }
    ensures small { IsSmall result }
{
    // Called for its contract only: it shows the prover that the sample is a volume.
    let _sample = sample.samples();
    sample.sizes().at(1)
}

/// The bytes of n cells of a volume from an index on.
pub(crate) fn cells_from(sample: &Volume, i: usize, n: u32) -> &[u8]
    requires { i + n ≤ length sample.now.cells }
    ensures bytes { result.now ≡ run_from sample.now.cells n (Some i) }
    ensures len { length result.now ≡ sample.now.k * n }
{
    let k = sample.samples() as usize;
    let bytes = sample.bytes();
    let start = k * i;
    let len = k * n as usize;
    &bytes[start..start + len]
}

/// Where a box with this corner begins; None where that isn't in the first part.
pub(crate) fn front_of(volume: &Volume, corner: At) -> Option<Front>
    ensures { IfSome result (IsFront volume.now corner) }
{
    let part = first_size(volume);
    let index = part.index_of(corner)?;
    Some(Front { part, index })
}

/// Where a placement's box begins: in the output, and in the sample.
#[derive(Clone, Copy, Drop)]
pub(crate) struct Fronts {
    pub(crate) old: Option<Front>,
    pub(crate) new: Option<Front>,
}

/// The bytes of a row of a box of this size. A place costs more than an index, which each row has by
/// that of the box's first cell.
pub(crate) fn box_row(
    volume: &Volume,
    front: Option<Front>,
    corner: At,
    size: Size,
    y: u32,
    f: u32,
) -> &[u8]
    requires some { HasCells size }
    requires held { Holds volume.now corner size }
    requires front { IfSome front (IsFront volume.now corner) }
    requires counts { (y < size.h) × (f < size.f) }
    ensures bytes { result.now ≡ row_at volume.now (plus corner (spot 0 y f)) size.w }
    ensures len { length result.now ≡ volume.now.k * size.w }
{
    // Called for its contract only: it shows the prover that this is a volume.
    let _samples = volume.samples();
    match front {
        Some(Front { part, index }) => {
            cells_from(volume, index + offset_in(part, 0, y, f), size.w)
        }
        None => volume.row(row_start(corner, y, f), size.w),
    }
}
