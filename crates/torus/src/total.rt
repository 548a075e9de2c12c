// The torus total.
ghost use Rattle.std.specs.Prelude.{◌≡◌};
ghost use Rattle.cells.specs.Distances.{distance};
ghost use Rattle.job_words.specs.TileWords.{IsWide};
ghost use Rattle.map_canvas.specs.Maps.{map_at};
ghost use Rattle.torus.specs.Wraps.{torus_total_of};

use crate::around::Around;
use cells::{At, Box3, Volume};
use costs::pairs_of_box;
use job_words::Wrap;
use map_canvas::Canvas;

/// The sum of the costs over all neighbours of an output, those across the edges of its wrapped axes among
/// them. It takes no memory.
pub fn torus_total(canvas: &Canvas, sample: &Volume, wrap: &Wrap) -> u64
    requires { IsWide wrap.now canvas.now.map.size }
    ensures { result ≡ torus_total_of (distance sample.now) wrap.now canvas.now.map.size
        (map_at canvas.now.map) }
{
    let map = canvas.map();
    let rect = Box3 {
        corner: At { x: 0, y: 0, f: 0 },
        size: map.size(),
    };
    let around = Around { map, wrap: *wrap };
    pairs_of_box(&around, sample, &rect)
}
