// Where the rows and the cells of a box are.
ghost use Rattle.std.specs.Prelude.{◌≡◌, ◌<◌};
ghost use Rattle.cells.specs.Places.{SumFits, plus, spot};

use cells::At;
use limits::GREATEST_AXIS;

/// The step from a box's corner to one of its cells.
pub(crate) fn step_to(x: u32, y: u32, f: u32) -> At
    requires { (x < GREATEST_AXIS) × (y < GREATEST_AXIS) × (f < GREATEST_AXIS) }
    ensures { result ≡ spot x y f }
{
    At {
        x: x as i32,
        y: y as i32,
        f: f as i32,
    }
}

/// The first place of a row of a box, by the counts of its row and frame from the box's corner.
pub(crate) fn row_start(corner: At, y: u32, f: u32) -> At
    requires counts { (y < GREATEST_AXIS) × (f < GREATEST_AXIS) }
    requires fits { SumFits corner (spot 0 y f) }
    ensures { result ≡ plus corner (spot 0 y f) }
{
    let step = At {
        x: 0,
        y: y as i32,
        f: f as i32,
    };
    corner.plus(step)
}
