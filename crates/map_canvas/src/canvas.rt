// A map with its picture.
ghost use Rattle.std.specs.Prelude.{◌≡◌, ◌<◌, ◌≤◌, ◌+◌, ◌*◌, ◌%◌, ◌+ℤ◌, ◌≤ℤ◌, ◌↔◌, pos, length, slice_index_or, true, false, IfOk, IfSome, IsTrue, None};
ghost use Rattle.cells.specs.Places.{IsSmall, IsInside};
ghost use Rattle.cells.specs.Cells.{Cells, IsVolume, row_at};
ghost use Rattle.map_canvas.specs.Maps.{IsFilled, IsFull, IsMap, IsOver, first_unfilled, picture_of};
ghost use Rattle.map_canvas.specs.Runs.{AreNew, put_copies, with_run};
ghost use Rattle.map_canvas.specs.Canvases.{IsCanvas, IsFilledPrefix, IsKept, StandsOver, empty_canvas, filled_marks};
ghost use Rattle.map_canvas.specs.Choices.{Fits, IsAfter, box_cell, box_count, box_source, map_after};

use crate::Map;
use crate::kept::meets_outside;
use crate::map::filled_from;
use crate::rendered::is_rendered;
use crate::shown::{mark_bytes, shown_bytes};
use cells::{At, Box3, Size, Volume};
use limits::MOST_CHANNELS;
use std::alloc::{AllocError, Global};
use std::marker::Model;

/// A box of the output, and the sample place whose cell comes to the box's corner.
#[derive(Clone, Copy, Drop, PartialEq, Eq)]
pub struct Placement {
    /// The box of the output, in cells.
    pub rect: Box3,
    /// The place in the sample that comes to the box's corner.
    pub from: At,
}

/// A map and its picture, kept side by side: each filled cell of the picture has the bytes of the
/// sample cell that the map names.
#[derive(Drop)]
pub struct Canvas {
    map: Map,
    picture: Volume,
    // 1 for each sample of a filled cell, and 0 for each of an unfilled one
    marks: Volume,
    // how many cells, from the first in raster order on, are filled
    reached: usize,
}

impl Model for Canvas {
    ghost use Rattle.map_canvas.specs.Canvases.{CanvasState, IsCanvas, IsFilledPrefix, filled_marks};
    ghost use Rattle.std.specs.Prelude.{◌≡◌};

    ghost Value = { CanvasState };

    ghost view = { λ a. record { map = a.map; picture = a.picture } };

    ghost invariant = { λ a. IsCanvas (record { map = a.map; picture = a.picture })
        × IsFilledPrefix a.map a.reached × (a.marks ≡ filled_marks a.map a.picture.k) };
}

// How many cells a choice makes new, from one that it does on, as far as so many.
fn new_cells(choice: &[bool], start: usize, most: u32) -> u32
    requires first { slice_index_or choice.now start false ≡ true }
    requires some { 1 ≤ most }
    requires room { start + most ≤ length choice.now }
    ensures some { 1 ≤ result }
    ensures most { result ≤ most }
    ensures new { AreNew choice.now start result }
{
    let mut n = 1;
    'new: while n < most && choice[start + n as usize] {
        n += 1;
    }
    n
}

// Fills the new cells of a placement's box from one on, by its index, as far as they follow one another
// in its row. Gives how many they are.
fn fill_from(
    map: &mut Map,
    picture: &mut Volume,
    marks: &mut Volume,
    sample: &Volume,
    placement: &Placement,
    choice: &[bool],
    i: usize,
) -> u32
    requires canvas { IsCanvas (record { map = map.old; picture = picture.old }) }
    requires samples { picture.old.k ≡ sample.now.k }
    requires marks { marks.old ≡ filled_marks map.old picture.old.k }
    requires sample { IsVolume sample.now }
    requires fits { Fits map.old.size sample.now placement.now }
    requires choices { length choice.now ≡ box_count placement.now }
    requires below { i < box_count placement.now }
    requires first { slice_index_or choice.now i false ≡ true }
    ensures some { 1 ≤ result }
    ensures row { i % placement.now.rect.size.w + result ≤ placement.now.rect.size.w }
    ensures new { AreNew choice.now i result }
    ensures map { map.new
        ≡ with_run map.old (box_cell placement.now i) (box_source placement.now i) result }
    ensures picture { picture.new
        ≡ put_copies picture.old sample.now
        (box_cell placement.now i) (box_source placement.now i) result }
    ensures marks { marks.new ≡ filled_marks map.new picture.new.k }
{
    let step = placement.rect.size.place_at(i);
    let n = new_cells(choice, i, placement.rect.size.w - step.x as u32);
    let p = placement.rect.corner.plus(step);
    let from = placement.from.plus(step);
    picture.set_row(p, n, sample.row(from, n));
    marks.fill_row(p, n, 1);
    map.set_row(p, from, n);
    n
}

// Fills the new cells of a choice.
fn fill_choice(
    map: &mut Map,
    picture: &mut Volume,
    marks: &mut Volume,
    sample: &Volume,
    placement: &Placement,
    choice: &[bool],
)
    requires canvas { IsCanvas (record { map = map.old; picture = picture.old }) }
    requires stands { StandsOver (record { map = map.old; picture = picture.old }) sample.now }
    requires marks { marks.old ≡ filled_marks map.old picture.old.k }
    requires sample { IsVolume sample.now }
    requires fits { Fits map.old.size sample.now placement.now }
    requires choices { length choice.now ≡ box_count placement.now }
    ensures canvas { IsCanvas (record { map = map.new; picture = picture.new }) }
    ensures stands { StandsOver (record { map = map.new; picture = picture.new }) sample.now }
    ensures marks { marks.new ≡ filled_marks map.new picture.new.k }
    ensures after { IsAfter map.old placement.now choice.now map.new }
{
    let mut i = 0;
    'runs: while i < choice.len() {
        if choice[i] {
            i += fill_from(map, picture, marks, sample, placement, choice, i) as usize;
        } else {
            i += 1;
        }
    }
}

// The first unfilled cell of a map of which so many cells, from the first in raster order on, are filled.
fn unfilled_after(map: &Map, reached: usize) -> Option<At>
    requires { IsFilledPrefix map.now reached }
    ensures first { result ≡ first_unfilled map.now }
    ensures map { IsMap map.now }
{
    let size = map.size();
    if reached < size.cells() {
        Some(size.place_at(reached))
    } else {
        None
    }
}

impl Canvas {
    /// A canvas of that size with no cell filled, for cells of k samples. The one error is out of
    /// memory.
    pub fn empty(alloc: Global, size: Size, k: u32) -> Result<Canvas, AllocError>
        requires small { IsSmall size }
        requires samples { (1 ≤ k) × (k ≤ MOST_CHANNELS) }
        ensures empty { IfOk result (λ c. c ≡ empty_canvas size k) }
        ensures canvas { IfOk result IsCanvas }
        ensures stands { IfOk result (λ c. (sample : Cells) → sample.k ≡ k → StandsOver c sample) }
    {
        let map = Map::empty(alloc, size)?;
        let picture = Volume::make(alloc, size, k)?;
        let marks = Volume::make(alloc, size, k)?;
        Ok(Canvas {
            map,
            picture,
            marks,
            reached: 0,
        })
    }

    /// The canvas of a map over a sample: it keeps the map, and its picture has at each filled cell the
    /// sample's cell that the map names. The one error is out of memory.
    pub fn of_map(alloc: Global, map: Map, sample: &Volume) -> Result<Canvas, AllocError>
        requires { IsOver map sample.now }
        ensures map { IfOk result (λ c. c.map ≡ map) }
        ensures canvas { IfOk result IsCanvas }
        ensures stands { IfOk result (λ c. StandsOver c sample.now) }
    {
        let size = map.size();
        let k = sample.samples();
        let n = k as usize * size.cells();
        let shown = shown_bytes(alloc, map.sources(), sample, n)?;
        let marks = mark_bytes(alloc, map.sources(), k, n)?;
        let reached = filled_from(map.sources(), 0);
        Ok(Canvas {
            map,
            picture: Volume::from_bytes(size, k, shown),
            marks: Volume::from_bytes(size, k, marks),
            reached,
        })
    }

    /// The map, of the canvas's size.
    pub fn map(&self) -> &Map
        ensures map { result.now ≡ self.now.map }
        ensures canvas { IsCanvas self.now }
    {
        &self.map
    }

    /// The picture, of the canvas's size; the bytes of cells that aren't filled are free.
    pub fn picture(&self) -> &Volume
        ensures picture { result.now ≡ self.now.picture }
        ensures canvas { IsCanvas self.now }
        ensures full { (sample : Cells) → StandsOver self.now sample → IsFull self.now.map →
            result.now ≡ picture_of self.now.map sample }
    {
        &self.picture
    }

    /// Whether a cell has a source. A place outside has none.
    pub fn is_filled(&self, p: At) -> bool
        ensures { IsTrue result ↔ IsFilled self.now.map p }
    {
        self.map.at(p).is_some()
    }

    /// The first cell in raster order that isn't filled; None where all are.
    pub fn first_unfilled(&self) -> Option<At>
        ensures first { result ≡ first_unfilled self.now.map }
        ensures full { (result ≡ None) ↔ IsFull self.now.map }
        ensures inside { IfSome result (IsInside self.now.map.size) }
    {
        unfilled_after(&self.map, self.reached)
    }

    /// Whether a place is a filled cell of a box that has a filled neighbour outside the box. A choice
    /// over the box may not make such a cell new.
    pub fn is_kept(&self, rect: &Box3, p: At) -> bool
        ensures { IsTrue result ↔ IsKept self.now.map rect.now p }
    {
        rect.contains(p) && self.is_filled(p) && meets_outside(&self.map, rect, p)
    }

    /// The k*w marks of a run of w cells along X, from a place on; the whole run lies inside. A mark is
    /// 1 for each sample of a filled cell, and 0 for each of an unfilled one.
    pub fn filled_row(&self, at: At, w: u32) -> &[u8]
        requires inside { IsInside self.now.map.size at }
        requires room { (at.x +ℤ pos w) ≤ℤ pos self.now.map.size.w }
        ensures marks { result.now ≡ row_at (filled_marks self.now.map self.now.picture.k) at w }
        ensures len { length result.now ≡ self.now.picture.k * w }
    {
        self.marks.row(at, w)
    }

    /// Whether the canvas stands over a sample: cells of both have as many samples, and each filled cell
    /// has the bytes of the sample cell that the map names.
    pub fn render_equals(&self, sample: &Volume) -> bool
        ensures { IsTrue result ↔ StandsOver self.now sample.now }
    {
        self.picture.samples() == sample.samples() && is_rendered(&self.map, &self.picture, sample)
    }

    /// Puts in a choice over a placement. It has one entry for each cell of the box in raster order:
    /// true makes the cell a copy of its new source, false leaves it as it is.
    pub fn put_choice(&mut self, sample: &Volume, placement: &Placement, choice: &[bool])
        requires stands { StandsOver self.old sample.now }
        requires fits { Fits self.old.map.size sample.now placement.now }
        requires choices { length choice.now ≡ box_count placement.now }
        ensures map { self.new.map ≡ map_after self.old.map placement.now choice.now }
        ensures after { IsAfter self.old.map placement.now choice.now self.new.map }
        ensures stands { StandsOver self.new sample.now }
        ensures canvas { IsCanvas self.new }
    {
        // Called for its contract only: it shows the prover that the sample is a volume.
        let _samples = sample.samples();
        fill_choice(
            &mut self.map,
            &mut self.picture,
            &mut self.marks,
            sample,
            placement,
            choice,
        );
        self.reached = filled_from(self.map.sources(), self.reached);
    }
}
