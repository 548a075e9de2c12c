// Whether a cell of a box has a filled neighbour outside it.
ghost use Rattle.std.specs.Prelude.{◌↔◌, IsTrue};
ghost use Rattle.map_canvas.specs.Maps.{IsFilled, IsMap};
ghost use Rattle.map_canvas.specs.Canvases.{IsFilledOutside, MeetsAlong, MeetsOutside};

use crate::Map;
use cells::{At, Axis, Box3};

// Whether a place is filled and outside a box.
fn is_filled_outside(map: &Map, rect: &Box3, p: At) -> bool
    ensures { IsTrue result ↔ IsFilledOutside map.now rect.now p }
{
    !rect.contains(p) && map.at(p).is_some()
}

// Whether one of the two neighbours of a filled cell along an axis is filled and outside a box.
fn meets_along(map: &Map, rect: &Box3, p: At, axis: Axis) -> bool
    requires map { IsMap map.now }
    requires filled { IsFilled map.now p }
    ensures { IsTrue result ↔ MeetsAlong map.now rect.now p axis }
{
    let step = axis.unit();
    is_filled_outside(map, rect, p.plus(step)) || is_filled_outside(map, rect, p.minus(step))
}

/// Whether a filled cell has a filled neighbour outside a box.
pub(crate) fn meets_outside(map: &Map, rect: &Box3, p: At) -> bool
    requires map { IsMap map.now }
    requires filled { IsFilled map.now p }
    ensures { IsTrue result ↔ MeetsOutside map.now rect.now p }
{
    meets_along(map, rect, p, Axis::X)
        || meets_along(map, rect, p, Axis::Y)
        || meets_along(map, rect, p, Axis::F)
}
