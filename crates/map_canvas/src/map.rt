// A map from output cells to sample places.
ghost use Rattle.std.specs.Prelude.{◌≡◌, ◌<◌, ◌≤◌, ◌+◌, ◌+ℤ◌, ◌≤ℤ◌, ℕ, pos, length, IfOk, IfSome, Some, is_none};
ghost use Rattle.std.specs.List.{position_or_len};
ghost use Rattle.cells.specs.Places.{IsInside, IsSmall, plus, spot};
ghost use Rattle.cells.specs.Cells.{put_run};
ghost use Rattle.map_canvas.specs.Maps.{map_at, with_source, empty_map, IsMap, IsSource};
ghost use Rattle.map_canvas.specs.Runs.{source_run, with_run};

use crate::Entry;
use cells::{At, Size};
use std::alloc::{AllocError, Global};
use std::marker::Model;

/// The greatest coordinate of a source: past the last frame of a sample of 16 parts.
pub const GREATEST_COORDINATE: i32 = 131072;

/// For each of the w x h x f cells of an output, in raster order, nothing or a place of the sample.
#[derive(Drop)]
pub struct Map {
    size: Size,
    sources: Vec<Entry>,
}

impl Model for Map {
    ghost use Rattle.map_canvas.specs.Maps.{SourceMap, IsMap};

    ghost Value = { SourceMap };

    ghost view = { λ a. record { size = a.size; sources = a.sources.items } };

    ghost invariant = { λ a. IsMap (record { size = a.size; sources = a.sources.items }) };
}

/// How many entries, from the first on, are sources. The first `start` of them are known to be, and aren't
/// looked at again.
pub(crate) fn filled_from(sources: &[Entry], start: usize) -> usize
    requires { start ≤ position_or_len is_none sources.now }
    ensures { result ≡ position_or_len is_none sources.now }
{
    let mut reached = start;
    'filled: while reached < sources.len() && sources[reached].source().is_some() {
        reached += 1;
    }
    reached
}

// Names the places along X from a source on for so many cells, from an index on.
fn name_run(sources: &mut [Entry], start: usize, from: At, w: u32)
    requires room { start + w ≤ length sources.old }
    requires sources { (j : ℕ) → j < w → IsSource (plus from (spot j 0 0)) }
    ensures { sources.new ≡ put_run sources.old (Some start) (source_run from w) }
{
    for j in 0..w {
        let step = At {
            x: j as i32,
            y: 0,
            f: 0,
        };
        sources[start + j as usize] = Entry::new(Some(from.plus(step)));
    }
}

impl Map {
    /// The map of an output of that size with no source. The one error is out of memory.
    pub fn empty(alloc: Global, size: Size) -> Result<Map, AllocError>
        requires { IsSmall size }
        ensures { IfOk result (λ m. m ≡ empty_map size) }
    {
        let sources = vec![in alloc; Entry::new(None); size.cells()]?;
        Ok(Map { size, sources })
    }

    /// The map of an output of that size whose cells have these sources, in raster order. It keeps the
    /// list and takes no memory.
    pub fn from_sources(size: Size, sources: Vec<Entry>) -> Map
        requires { IsMap (record { size = size; sources = sources.items }) }
        ensures { result ≡ record { size = size; sources = sources.items } }
    {
        Map { size, sources }
    }

    /// The size of the output, in cells.
    pub fn size(&self) -> Size
        ensures size { result ≡ self.now.size }
        ensures map { IsMap self.now }
    {
        self.size
    }

    /// The source of a cell; None where it is unfilled or outside the output.
    pub fn at(&self, p: At) -> Option<At>
        ensures named { result ≡ map_at self.now p }
        ensures source { IfSome result IsSource }
    {
        let i = self.size.index_of(p)?;
        self.sources[i].source()
    }

    /// The sources of all cells, in raster order; None for each cell that is unfilled.
    pub fn sources(&self) -> &[Entry]
        ensures { result.now ≡ self.now.sources }
    {
        self.sources.as_slice()
    }

    /// Names a source for a cell, in place of the one that it has, if any.
    pub fn set(&mut self, p: At, from: At)
        requires inside { IsInside self.old.size p }
        requires source { IsSource from }
        ensures { self.new ≡ with_source self.old p from }
    {
        let i = self.size.index_of(p).unwrap();
        self.sources[i] = Entry::new(Some(from));
    }

    /// Names the places along X from a source on for a run of w cells along X, from a cell on; the whole
    /// run lies inside.
    pub(crate) fn set_row(&mut self, p: At, from: At, w: u32)
        requires inside { IsInside self.old.size p }
        requires room { (p.x +ℤ pos w) ≤ℤ pos self.old.size.w }
        requires sources { (j : ℕ) → j < w → IsSource (plus from (spot j 0 0)) }
        ensures { self.new ≡ with_run self.old p from w }
    {
        let i = self.size.index_of(p).unwrap();
        name_run(&mut self.sources, i, from, w);
    }
}
