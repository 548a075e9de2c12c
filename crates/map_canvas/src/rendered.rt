// Whether a picture has the bytes that a map names.
ghost use Rattle.std.specs.Prelude.{◌↔◌, IsTrue};
ghost use Rattle.map_canvas.specs.Canvases.{IsRendered, IsRenderedAt};

use crate::Map;
use cells::{At, Volume};

// Whether a cell is unfilled, or has the bytes of the sample cell that its map names.
fn is_rendered_at(map: &Map, picture: &Volume, sample: &Volume, p: At) -> bool
    ensures { IsTrue result ↔ IsRenderedAt map.now picture.now sample.now p }
{
    match map.at(p) {
        None => true,
        Some(from) => match sample.cell(from) {
            None => false,
            Some(cell) => picture.cell(p) == Some(cell),
        },
    }
}

/// Whether each filled cell has the bytes of the sample cell that its map names.
pub(crate) fn is_rendered(map: &Map, picture: &Volume, sample: &Volume) -> bool
    ensures { IsTrue result ↔ IsRendered map.now picture.now sample.now }
{
    let size = map.size();
    for i in 0..size.cells() {
        if !is_rendered_at(map, picture, sample, size.place_at(i)) {
            return false;
        }
    }
    true
}
