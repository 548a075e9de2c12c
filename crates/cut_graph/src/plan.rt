// What the pipes of a placement are made from.
ghost use Rattle.std.specs.Prelude.{◌≡◌, ◌<◌, ◌+◌, length, Some};
ghost use Rattle.cells.specs.Boxes.{IsInBox, cell_in};
ghost use Rattle.cells.specs.Neighbours.{unit_step};
ghost use Rattle.cells.specs.Places.{index_in, plus, raster_index};
ghost use Rattle.boxes.specs.Pairs.{IsPair};
ghost use Rattle.boxes.specs.Raster.{stride};
ghost use Rattle.cut_graph.specs.Plans.{HasSources, IsCellAt, IsPlan};

use boxes::{Counts, stride};
use cells::{At, Axis, Volume};
use map_canvas::{Map, Placement};

// A placement over a map, with the nodes of its cells and pairs.
#[derive(Drop)]
pub(crate) struct Plan<'a> {
    pub map: &'a Map,
    pub sample: &'a Volume,
    pub placement: Placement,
    pub cells: &'a [u32],
    pub seams: &'a [u32],
}

// A cell of a pair: its source, if it is filled, the source that it would get, and its node.
#[derive(Clone, Copy, Drop)]
pub(crate) struct PairCell {
    pub before: Option<At>,
    pub after: At,
    pub node: u32,
}

impl Plan<'_> {
    // The cell at a place, at an index of the map and one of the box.
    fn cell(&self, p: At, k: usize, i: usize) -> PairCell
        requires plan { IsPlan self.now }
        requires inside { IsInBox self.now.placement.rect p }
        requires named { index_in self.now.map.now.size p ≡ Some k }
        requires below { i < length self.now.cells.now }
        ensures cell { IsCellAt self.now p i result }
        ensures sources { HasSources result }
    {
        PairCell {
            before: self.map.sources()[k].source(),
            after: self
                .placement
                .from
                .plus(p.minus(self.placement.rect.corner)),
            node: self.cells[i],
        }
    }

    // The cell at an index of the box and the next one along an axis, at another index.
    #[inline(always)]
    pub(crate) fn pair(&self, axis: Axis, at: Counts, i: usize, j: usize) -> (PairCell, PairCell)
        requires plan { IsPlan self.now }
        requires pair { IsPair self.now.placement.rect.size axis at.x at.y at.f }
        requires index { raster_index self.now.placement.rect.size at.x at.y at.f ≡ i }
        requires next { i + stride self.now.placement.rect.size axis ≡ j }
        ensures first { IsCellAt self.now
            (cell_in self.now.placement.rect at.x at.y at.f) i result.0 }
        ensures second { IsCellAt self.now
            (plus (cell_in self.now.placement.rect at.x at.y at.f) (unit_step axis)) j result.1 }
        ensures sources { HasSources result.0 × HasSources result.1 }
    {
        let size = self.map.size();
        let place = at.cell(&self.placement.rect);
        let k = size.index_of(place).unwrap();
        let first = self.cell(place, k, i);
        let next = place.plus(axis.unit());
        let second = self.cell(next, k + stride(size, axis), j);
        (first, second)
    }
}
