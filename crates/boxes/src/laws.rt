// What the definitions mean.
ghost use Rattle.std.specs.Prelude.{◌≤◌};
ghost use Rattle.boxes.specs.Spans.{IsGridCorner, grid_corner};

/// A law, with nothing to run: along an axis of this size, the grid's corner is the least multiple of the
/// step, counted from 0, that is greater than q less the size.
pub fn grid_corner_is_least(size: u32, step: u32, q: u32)
    requires step { (1 ≤ step) × (step ≤ size) }
    ensures { IsGridCorner size step q (grid_corner size step q) }
{}
