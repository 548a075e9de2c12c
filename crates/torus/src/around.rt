// Coordinates and maps that go on past the edges of wrapped axes.
ghost use Rattle.std.specs.Prelude.{◌≡◌, ◌≤◌, ◌*◌, ◌+ℤ◌, ◌≤ℤ◌, pos};
ghost use Rattle.map_canvas.specs.Maps.{map_at};
ghost use Rattle.torus.specs.Wraps.{around_axis, map_around};

use cells::At;
use costs::Sources;
use job_words::Wrap;
use limits::GREATEST_AXIS;
use map_canvas::Map;

/// A coordinate up to one turn before or past an axis of n cells, taken back onto it where it is wrapped.
pub(crate) fn around_axis(wrapped: bool, n: u32, z: i32) -> i32
    requires { (pos 0 ≤ℤ (z +ℤ pos GREATEST_AXIS)) × (z ≤ℤ pos (2 * GREATEST_AXIS))
        × (n ≤ GREATEST_AXIS) }
    ensures { result ≡ around_axis wrapped n z }
{
    if !wrapped {
        z
    } else if z < 0 {
        z + n as i32
    } else if z as u32 >= n {
        z - n as i32
    } else {
        z
    }
}

/// A map that goes on past the edges of wrapped axes as it began.
#[derive(Drop)]
pub(crate) struct Around<'a> {
    pub(crate) map: &'a Map,
    pub(crate) wrap: Wrap,
}

impl Sources for Around<'_> {
    ghost source_at = { λ s. map_around s.wrap s.map.now.size (map_at s.map.now) };

    fn source(&self, p: At) -> Option<At> {
        let size = self.map.size();
        self.map.at(At {
            x: around_axis(self.wrap.x, size.w, p.x),
            y: around_axis(self.wrap.y, size.h, p.y),
            f: around_axis(self.wrap.f, size.f, p.f),
        })
    }
}
