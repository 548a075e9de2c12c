// What says which source the cell at a place has.
ghost use Rattle.std.specs.Prelude.{◌≡◌, Option, IfSome};
ghost use Rattle.cells.specs.declared.place.At.{At};
ghost use Rattle.map_canvas.specs.Maps.{IsSource, map_at};
ghost use Rattle.costs.specs.Costs.{IsAsked, map_within};

use cells::{At, Box3};
use map_canvas::Map;

/// What says which source the cell at a place has.
pub trait Sources {
    ghost source_at: { Self → At → Option At };

    /// The source of the cell; none where it has none.
    fn source(&self, p: At) -> Option<At>
        requires { IsAsked p }
        ensures source { result ≡ source_at self.now p }
        ensures near { IfSome result IsSource };
}

impl Sources for Map {
    ghost source_at = { λ m. map_at m };

    fn source(&self, p: At) -> Option<At> {
        self.at(p)
    }
}

/// A map, as far as a box goes: a cell outside the box has no source.
#[derive(Drop)]
pub(crate) struct Within<'a> {
    /// The map.
    pub map: &'a Map,
    /// The box.
    pub rect: Box3,
}

impl Sources for Within<'_> {
    ghost source_at = { λ s. map_within s.rect (map_at s.map.now) };

    fn source(&self, p: At) -> Option<At> {
        if self.rect.contains(p) {
            self.map.at(p)
        } else {
            None
        }
    }
}
