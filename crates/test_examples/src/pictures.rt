// Volumes of a few cells, places, and asserts of sizes and placements.
ghost use Rattle.std.specs.Prelude.{◌≡◌, IsTrue, [], List};
ghost use Rattle.cells.specs.Boxes.{AxisHolds, HoldsBox};
ghost use Rattle.cells.specs.Cells.{IsOnePart, count_of, volume_of};
ghost use Rattle.cells.specs.Places.{IsSmall, cell_count};
ghost use Rattle.map_canvas.specs.Choices.{Fits};

use crate::expect::expect_true;
use cells::{At, Box3, Size, Volume};
use limits::{GREATEST_AXIS, MOST_CELLS};
use map_canvas::Placement;
use std::alloc::Global;
use std::process::Abort;

/// A place by its column, its row and its frame.
pub type Place = (i32, i32, i32);

/// The place by its three numbers.
pub fn at(place: Place) -> At
    ensures { result ≡ record { x = place.0; y = place.1; f = place.2 } }
{
    At {
        x: place.0,
        y: place.1,
        f: place.2,
    }
}

/// Asserts that a size is that of a volume.
pub fn assert_small(rt: &impl Abort, size: Size)
    ensures { IsSmall size }
{
    assert!(rt; (1 <= size.w) & (1 <= size.h) & (1 <= size.f));
    assert!(rt; (size.w <= GREATEST_AXIS) & (size.h <= GREATEST_AXIS) & (size.f <= GREATEST_AXIS));
    assert!(rt; size.w as usize * (size.h as usize * size.f as usize) <= MOST_CELLS);
}

/// A volume of one part with these bytes, so many a cell.
pub fn volume_of(rt: &impl Abort, alloc: Global, size: Size, k: u32, bytes: &[u8]) -> Volume
    ensures volume { result ≡ volume_of size k bytes.now }
    ensures small { IsSmall size }
{
    assert_small(rt, size);
    assert!(rt; (1 <= k) & (k <= 3) & (bytes.len() == k as usize * size.cells()));
    let Ok(bytes) = Vec::from_slice(alloc, bytes) else {
        rt.abort()
    };
    Volume::from_bytes(size, k, bytes)
}

/// A picture of so many columns and rows, whose cells have these greys, three times each.
pub fn greys(rt: &impl Abort, alloc: Global, of: (u32, u32, &[u8])) -> Volume
    ensures one { IsOnePart result }
    ensures samples { result.k ≡ 3 }
    ensures size { result.size ≡ record { w = of.entry.0; h = of.entry.1; f = 1 } }
    ensures small { IsSmall result.size }
    ensures frame { result.size.f ≡ 1 }
{
    let mut bytes = Vec::new(alloc);
    for grey in of.2 {
        expect_true(rt, bytes.extend_from_slice(&[*grey; 3]).is_ok());
    }
    let (w, h, _) = of;
    volume_of(rt, alloc, Size { w, h, f: 1 }, 3, &bytes)
}

/// A run of cells lies within one axis.
pub fn holds_axis(n: u32, corner: i32, len: u32) -> bool
    ensures { IsTrue result → AxisHolds n corner len }
{
    corner >= 0 && len <= n && corner as u32 <= n - len
}

// Asserts that a box lies within a size.
fn assert_holds(rt: &impl Abort, size: Size, corner: At, inner: Size)
    ensures { HoldsBox size corner inner }
{
    assert!(rt; holds_axis(size.w, corner.x, inner.w));
    assert!(rt; holds_axis(size.h, corner.y, inner.h));
    assert!(rt; holds_axis(size.f, corner.f, inner.f));
}

/// Asserts that a placement fits into an output of a size.
pub fn assert_fits(rt: &impl Abort, output: Size, sample: &Volume, placement: &Placement)
    ensures { Fits output sample.now placement.now }
{
    let size = placement.rect.size;
    assert!(rt; (size.w > 0) & (size.h > 0) & (size.f > 0));
    assert_holds(rt, output, placement.rect.corner, size);
    let corner = placement.from;
    assert!(rt; sample.holds(&Box3 { corner, size }));
}
