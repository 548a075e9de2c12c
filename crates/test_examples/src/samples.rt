// Samples of a few cells, canvases over them, and placements.
ghost use Rattle.std.specs.Prelude.{◌≡◌, ◌≤◌, IfOk, IsTrue};
ghost use Rattle.cells.specs.Cells.{IsOnePart, count_of};
ghost use Rattle.cells.specs.Places.{IsSmall, cell_count};
ghost use Rattle.map_canvas.specs.Canvases.{StandsOver};
ghost use Rattle.map_canvas.specs.Choices.{Fits};

use cells::{At, Box3, Size, Volume};
use limits::GREATEST_AXIS;
use map_canvas::{Canvas, Placement};
use std::alloc::{AllocError, Global};

/// A part of a sample: its size, the samples of a cell, and its bytes. Where none are given, all are 0.
pub(crate) type Part<'a> = (Size, u32, &'a [u8]);

/// A sample of one part or of two.
pub(crate) type Sample<'a> = (Part<'a>, Option<Part<'a>>);

/// The first cell of an output or a sample.
pub(crate) const FIRST: At = At { x: 0, y: 0, f: 0 };

const TWO: Size = Size { w: 2, h: 1, f: 1 };

/// A row of three cells.
pub(crate) const THREE: Size = Size { w: 3, h: 1, f: 1 };

/// A row of four cells.
pub(crate) const FOUR: Size = Size { w: 4, h: 1, f: 1 };

/// A row of six cells.
pub(crate) const SIX: Size = Size { w: 6, h: 1, f: 1 };

/// Four cells of grey in a row: 10, 20, 30 and 40 in each of their three samples.
pub(crate) const GREYS: Sample<'static> = (
    (FOUR, 3, &[10, 10, 10, 20, 20, 20, 30, 30, 30, 40, 40, 40]),
    None,
);

const FIRST_PART: Part<'static> = (TWO, 3, &[10, 10, 10, 20, 20, 20]);

/// Two cells of grey in a row: 10 and 20.
pub(crate) const TWO_GREYS: Sample<'static> = (FIRST_PART, None);

/// Two parts of two cells in a row: 10 and 20, and 20 and 30. The second is in frame 2.
pub(crate) const TWO_PARTS: Sample<'static> = (
    FIRST_PART,
    Some((TWO, 3, &[20, 20, 20, 30, 30, 30])),
);

/// Whether a size is that of a volume of at most 4,096 cells.
pub(crate) fn is_size(size: Size) -> bool
    ensures small { IsTrue result → IsSmall size }
    ensures few { IsTrue result → cell_count size ≤ 4096 }
{
    1 <= size.w
        && size.w <= GREATEST_AXIS
        && 1 <= size.h
        && size.h <= GREATEST_AXIS
        && 1 <= size.f
        && size.f <= GREATEST_AXIS
        && size.w as usize * (size.h as usize * size.f as usize) <= 4096
}

/// Whether a sample has one part.
pub(crate) fn is_one_part(sample: &Volume) -> bool
    ensures { IsTrue result → IsOnePart sample.now }
{
    sample.sizes().len() == 1
}

// One part of a sample, where it has as many bytes as its size asks for.
fn part_of(alloc: Global, part: &Part) -> Result<Volume, AllocError>
    ensures one { IfOk result IsOnePart }
    ensures few { IfOk result (λ v. count_of v ≤ 4096) }
{
    let (size, k, bytes) = *part;
    if !is_size(size) || k < 1 || k > 3 {
        return Err(AllocError);
    }
    if bytes.is_empty() {
        return Volume::make(alloc, size, k);
    }
    if bytes.len() != k as usize * size.cells() {
        return Err(AllocError);
    }
    let bytes = Vec::from_slice(alloc, bytes)?;
    Ok(Volume::from_bytes(size, k, bytes))
}

// Adds a part to a sample of one.
fn add_part(alloc: Global, sample: &mut Volume, part: &Part) -> Result<(), AllocError>
    requires one { IsOnePart sample.old }
    requires few { count_of sample.old ≤ 4096 }
{
    let part = part_of(alloc, part)?;
    if part.samples() != sample.samples() {
        return Err(AllocError);
    }
    sample.add_part(&part)
}

/// The sample that is described so.
pub(crate) fn sample_of(alloc: Global, sample: &Sample) -> Result<Volume, AllocError> {
    let (first, second) = sample;
    let mut volume = part_of(alloc, first)?;
    if let Some(second) = second {
        add_part(alloc, &mut volume, second)?;
    }
    Ok(volume)
}

/// A canvas with no cell filled, over a sample.
pub(crate) fn canvas_over(alloc: Global, size: Size, sample: &Volume) -> Result<Canvas, AllocError>
    requires { IsSmall size }
    ensures { IfOk result (λ canvas. StandsOver canvas sample.now) }
{
    Canvas::empty(alloc, size, sample.samples())
}

/// Whether a placement fits.
pub(crate) fn fits(canvas: &Canvas, sample: &Volume, placement: &Placement) -> bool
    ensures { IsTrue result → Fits canvas.now.map.size sample.now placement.now }
{
    let size = placement.rect.size;
    if size.w < 1 || size.h < 1 || size.f < 1 {
        return false;
    }
    let sources = Box3 {
        corner: placement.from,
        size,
    };
    let inside = canvas.picture().holds(&placement.rect);
    let held = sample.holds(&sources);
    inside && held
}

/// Gives a cell its source, where there are both.
pub(crate) fn put(canvas: &mut Canvas, sample: &Volume, corner: At, from: At)
    requires { StandsOver canvas.old sample.now }
    ensures { StandsOver canvas.new sample.now }
{
    let size = Size { w: 1, h: 1, f: 1 };
    let rect = Box3 { corner, size };
    let placement = Placement { rect, from };
    if fits(canvas, sample, &placement) {
        canvas.put_choice(sample, &placement, &[true]);
    }
}

// The same by the numbers of both in raster order; a negative number is no source.
fn put_number(canvas: &mut Canvas, sample: &Volume, part: Size, i: usize, source: i32)
    requires stands { StandsOver canvas.old sample.now }
    requires part { IsSmall part }
    ensures { StandsOver canvas.new sample.now }
{
    let size = canvas.map().size();
    if i < size.cells() && source >= 0 && (source as usize) < part.cells() {
        put(
            canvas,
            sample,
            size.place_at(i),
            part.place_at(source as usize),
        );
    }
}

/// A canvas whose first cells, in raster order, have these cells of a sample's first part as sources, by their numbers in
/// raster order; a negative number is no source.
pub(crate) fn canvas_of(
    alloc: Global,
    size: Size,
    part: Size,
    sample: &Volume,
    sources: &[i32],
) -> Result<Canvas, AllocError>
    ensures { IfOk result (λ canvas. StandsOver canvas sample.now) }
{
    if !is_size(size) || !is_size(part) {
        return Err(AllocError);
    }
    let mut canvas = canvas_over(alloc, size, sample)?;
    'cells: for (i, source) in sources.iter().enumerate() {
        put_number(&mut canvas, sample, part, i, *source);
    }
    Ok(canvas)
}

/// So many cells of a row from a column on, with sources from the sample's first cell on.
pub(crate) fn laid_at(x: i32, w: u32) -> Placement {
    Placement {
        rect: Box3 {
            corner: At { x, y: 0, f: 0 },
            size: Size { w, h: 1, f: 1 },
        },
        from: FIRST,
    }
}

/// The column and the frame of a source.
pub(crate) type Source = (i32, i32);

/// In place of a source, where a cell is unfilled.
pub(crate) const UNFILLED: Source = (-1, -1);

/// Whether the first cells in raster order have these sources.
pub(crate) fn has_sources(canvas: &Canvas, sources: &[Source]) -> bool {
    let entries = canvas.map().sources();
    for (i, source) in sources.iter().enumerate() {
        let Some(entry) = entries.get(i) else {
            return false;
        };
        let found = entry.source().map(|from| (from.x, from.f));
        if found.unwrap_or(UNFILLED) != *source {
            return false;
        }
    }
    true
}
