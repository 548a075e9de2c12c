// Placements along one axis.
ghost use Rattle.std.specs.Prelude.{◌≡◌, ◌≤◌, ◌<◌};
ghost use Rattle.boxes.specs.Spans.{IsGridCorner, SpanFits, at_least_0, grid_on, grid_step, laid_on, patch_corner, patch_len};

use limits::GREATEST_AXIS;

/// The box of a placement along one axis: where it begins, how long it is, and which coordinate of
/// the sample's part comes to its beginning.
#[derive(Clone, Copy, Drop)]
pub struct Span {
    /// Its first coordinate in the output.
    pub corner: u32,
    /// How many cells it has.
    pub len: u32,
    /// The coordinate of the part that comes to the first one.
    pub from: u32,
}

/// A coordinate as a count; 0 before the first cell.
pub fn count_of(z: i32) -> u32
    ensures { result ≡ at_least_0 z }
{
    if z < 0 { 0 } else { z as u32 }
}

/// The whole part, laid so that its coordinate c comes to q, as far as it is inside the output.
pub fn laid_on(output: u32, part: u32, q: u32, c: u32) -> Span
    requires part { part ≤ GREATEST_AXIS }
    requires output { output ≤ GREATEST_AXIS }
    requires q { q < output }
    requires c { c ≤ part }
    ensures span { result ≡ laid_on output part q c }
    ensures corner { result.corner ≤ q }
    ensures from { result.from ≤ c }
{
    let corner = q.saturating_sub(c);
    Span {
        corner,
        len: output.min(q + part - c) - corner,
        from: c.saturating_sub(q),
    }
}

/// Along one axis, the copy in a grid that has the coordinate q: copies of `size` cells that overlap by
/// `overlap`, at most by all but one of their cells, the first of which begins at 0. What of it is inside the
/// output.
pub fn grid_on(output: u32, size: u32, overlap: u32, q: u32) -> Span
    requires size { (1 ≤ size) × (size ≤ GREATEST_AXIS) }
    requires output { output ≤ GREATEST_AXIS }
    requires q { q < output }
    ensures span { result ≡ grid_on output size overlap q }
    ensures corner { IsGridCorner size (grid_step size overlap) q result.corner }
    ensures fits { SpanFits output size q result }
{
    let overlap = overlap.min(size - 1);
    let step = size - overlap;
    let corner = q.saturating_sub(overlap) / step * step;
    Span {
        corner,
        len: size.min(output - corner),
        from: 0,
    }
}

/// The length of a patch whose side is asked for: so much of it as fits in the output and in the part.
pub fn patch_len(output: u32, part: u32, side: u32) -> u32
    ensures { result ≡ patch_len output part side }
{
    side.min(part.min(output))
}

/// Where a patch of a length begins, so that it has the coordinate q: as far before q as it may overlap, at most
/// by all but one of its cells, and no further on than where it ends with the output.
pub fn patch_corner(output: u32, len: u32, overlap: u32, q: u32) -> u32
    requires { len ≤ output }
    ensures { result ≡ patch_corner output len overlap q }
{
    let overlap = overlap.min(len.saturating_sub(1));
    q.saturating_sub(overlap).min(output - len)
}
