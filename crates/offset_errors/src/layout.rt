// How a box of the output and a part of the sample are laid out in lists of one length.
ghost use Rattle.std.specs.Prelude.{◌≡◌, ◌≤◌, ◌+◌, ◌*◌, IfSome};
ghost use Rattle.cells.specs.Places.{HasAxes, raster_index};
ghost use Rattle.offset_errors.specs.Errors.{IsEnough};
ghost use Rattle.offset_errors.specs.Padded.{HoldsOnAxis};

use cells::Size;
use cyclic_products::MOST_LEVELS;
use limits::GREATEST_AXIS;

/// How a box and a part are laid out in lists of 2^levels numbers.
#[derive(Clone, Copy, Drop)]
pub struct Layout {
    // both are padded to it
    pub(crate) pad: Size,
    // on each axis the part begins with the last of so many cells
    pub(crate) lead: Size,
    pub(crate) levels: u32,
}

/// The index of three counts in raster order.
pub(crate) fn index_at(size: Size, x: u32, y: u32, f: u32) -> u64
    requires size { (size.w ≤ 2 * GREATEST_AXIS) × (size.h ≤ 2 * GREATEST_AXIS) }
    requires counts { (x ≤ 2 * GREATEST_AXIS) × (y ≤ 2 * GREATEST_AXIS) × (f ≤ 2 * GREATEST_AXIS) }
    ensures { result ≡ raster_index size x y f }
{
    u64::from(x) + u64::from(size.w) * (u64::from(y) + u64::from(size.h) * u64::from(f))
}

// A lead of at least one cell of a box of b cells.
fn lead_along(b: u32, lead: u32) -> u32
    requires { 1 ≤ b }
    ensures { (1 ≤ result) × (result ≤ b) }
{
    lead.max(1).min(b)
}

// How many cells a padded axis has for a box of b cells and a part of s after its lead, which begins at the
// last cell of it or less than `span` cells before. What goes past its end comes to the cells before the part.
fn padded_along(b: u32, lead: u32, s: u32, span: u32) -> u32
    requires b { (1 ≤ b) × (b ≤ GREATEST_AXIS) }
    requires s { (1 ≤ s) × (s ≤ GREATEST_AXIS) }
    requires lead { (1 ≤ lead) × (lead ≤ b) }
    ensures holds { HoldsOnAxis result b lead s }
    ensures small { (1 ≤ result) × (result ≤ 2 * GREATEST_AXIS) }
{
    let apart = (b - lead).saturating_add(span).min(b + s - 1);
    b.max(lead + s - 1).max(apart)
}

impl Layout {
    /// The layout of a box and a part of these sizes. On each axis the part begins at the last of the first
    /// `lead` cells of the box, or less than `span` cells before; errors at other offsets needn't be known by
    /// it. None where no transform has so many numbers.
    pub fn make(rect: Size, part: Size, lead: Size, span: Size) -> Option<Layout>
        requires rect { HasAxes rect }
        requires part { HasAxes part }
        ensures { IfSome result (IsEnough rect part) }
    {
        let lead = Size {
            w: lead_along(rect.w, lead.w),
            h: lead_along(rect.h, lead.h),
            f: lead_along(rect.f, lead.f),
        };
        let pad = Size {
            w: padded_along(rect.w, lead.w, part.w, span.w),
            h: padded_along(rect.h, lead.h, part.h, span.h),
            f: padded_along(rect.f, lead.f, part.f, span.f),
        };
        // as many as come before the first cell past the last frame
        let cells = index_at(pad, 0, 0, pad.f);
        'levels: for levels in 1..MOST_LEVELS + 1 {
            if cells <= 1 << levels {
                return Some(Layout { pad, lead, levels });
            }
        }
        None
    }

    /// How many levels its transform has: it is of 2^levels numbers.
    pub fn levels(&self) -> u32
        ensures { result ≡ self.now.levels }
    {
        self.levels
    }
}
