// What an output has of a box that may lie anywhere.
ghost use Rattle.std.specs.Prelude.{◌≡◌, ◌≤◌, ◌<◌, ◌⊎◌, ◌+◌, ◌+ℤ◌, ℕ, pos, FitsSigned};
ghost use Rattle.std.specs.Int.{w32};
ghost use Rattle.costs.specs.Intersections.{IsIntersection, IsOff, IsOn};

use boxes::clipped;
use cells::{At, Box3, Size};

// Cells of a run that an axis has: how many of the run come before them, and how many they are.
#[derive(Clone, Copy, Drop)]
struct Taken {
    skipped: u32,
    taken: u32,
}

// The cells of a run that lie on an axis of n cells.
fn on_axis(n: u32, corner: i32, len: u32) -> Taken
    ensures room { result.skipped + result.taken ≤ len }
    ensures inside { (c : ℕ) → result.skipped ≤ c → c < result.skipped + result.taken →
        IsOn n (corner +ℤ pos c) }
    ensures outside { (c : ℕ) → c < len →
        (c < result.skipped) ⊎ (result.skipped + result.taken ≤ c) → IsOff n (corner +ℤ pos c) }
    ensures fits { FitsSigned w32 (corner +ℤ pos result.skipped) }
{
    let start = -i64::from(corner);
    let skipped = clipped(start, len);
    let end = clipped(start + i64::from(n), len);
    Taken {
        skipped,
        taken: end.saturating_sub(skipped),
    }
}

// The coordinate so many cells from a corner on.
fn from_corner(corner: i32, skipped: u32) -> i32
    requires { FitsSigned w32 (corner +ℤ pos skipped) }
    ensures { result ≡ corner +ℤ pos skipped }
{
    (i64::from(corner) + i64::from(skipped)) as i32
}

/// The cells of a box that a size has.
pub(crate) fn intersection(size: Size, rect: &Box3) -> Box3
    ensures { IsIntersection size rect.now result }
{
    let x = on_axis(size.w, rect.corner.x, rect.size.w);
    let y = on_axis(size.h, rect.corner.y, rect.size.h);
    let f = on_axis(size.f, rect.corner.f, rect.size.f);
    Box3 {
        corner: At {
            x: from_corner(rect.corner.x, x.skipped),
            y: from_corner(rect.corner.y, y.skipped),
            f: from_corner(rect.corner.f, f.skipped),
        },
        size: Size {
            w: x.taken,
            h: y.taken,
            f: f.taken,
        },
    }
}
