// The steps of a merge.
ghost use Rattle.std.specs.Prelude.{◌≡◌, ◌≤◌, IfOk, IfSome, length};
ghost use Rattle.cells.specs.Cells.{sizes_of};
ghost use Rattle.map_canvas.specs.Canvases.{IsCanvas, StandsOver};
ghost use Rattle.map_canvas.specs.Choices.{Fits};
ghost use Rattle.map_canvas.specs.Maps.{IsFull, IsSource};
ghost use Rattle.photo_merge.specs.Merges.{AreOneSize, IsMerge, MergesNext, first_map, source_without, whole_from, without};

use crate::marks::{earlier_marks, mark_at};
use cells::{At, Box3, Size, Volume};
use graph_place::place_held;
use map_canvas::{Canvas, Entry, Map, Placement};
use std::alloc::{AllocError, Global};

// The map on which each cell comes from its own place of the first picture.
fn first_map(alloc: Global, pictures: &Volume) -> Result<Map, AllocError>
    requires { AreOneSize pictures.now }
    ensures { IfOk result (λ m. m ≡ first_map pictures.now) }
{
    // Called for their contracts only: they show the prover that the pictures are a volume.
    let _samples = pictures.samples();
    let size = pictures.sizes().at(1);
    let count = size.cells();
    let mut sources = Vec::with_capacity(alloc, count)?;
    for i in 0..count {
        // A place of the first picture is that of the volume.
        sources.push(Entry::new(Some(size.place_at(i))))?;
    }
    Ok(Map::from_sources(size, sources))
}

// The source of a cell, but none where it is marked with a number.
fn source_without(map: &Map, marks: &Volume, number: u32, p: At) -> Option<At>
    ensures without { result ≡ source_without map.now marks.now number p }
    ensures source { IfSome result IsSource }
{
    if mark_at(marks, p) == number {
        None
    } else {
        map.at(p)
    }
}

// A map without the cells that are marked with a number.
fn without(alloc: Global, map: &Map, marks: &Volume, number: u32) -> Result<Map, AllocError>
    ensures { IfOk result (λ m. m ≡ without map.now marks.now number) }
{
    let size = map.size();
    let count = size.cells();
    let mut sources = Vec::with_capacity(alloc, count)?;
    for i in 0..count {
        let source = source_without(map, marks, number, size.place_at(i));
        sources.push(Entry::new(source))?;
    }
    Ok(Map::from_sources(size, sources))
}

// The whole output, laid from the same place of a picture.
fn whole_from(pictures: &Volume, number: u32, size: Size) -> Placement
    requires one_size { AreOneSize pictures.now }
    requires size { size ≡ pictures.now.size }
    requires from { 1 ≤ number }
    requires to { number ≤ length (sizes_of pictures.now) }
    ensures placement { result ≡ whole_from pictures.now number size }
    ensures fits { Fits size pictures.now result }
{
    // Called for their contracts only: they show the prover that the pictures are a volume.
    let _samples = pictures.samples();
    let corner = At { x: 0, y: 0, f: 0 };
    Placement {
        rect: Box3 { corner, size },
        from: pictures.sizes().stock(number, corner),
    }
}

/// Lays one more picture, the one of a number from 2 on, over the whole output. The cells marked with it come
/// from it, and those marked with an earlier one stay as they are. Of all choices for the others, the one is
/// taken whose seams cost the least in all, and of those the one with the fewest cells that stay. The canvas is
/// given back before the network of the next one is made. The one error is out of memory.
pub fn merge_step(
    alloc: Global,
    canvas: Canvas,
    pictures: &Volume,
    marks: &Volume,
    number: u32,
) -> Result<Canvas, AllocError>
    requires one_size { AreOneSize pictures.now }
    requires size { canvas.map.size ≡ pictures.now.size }
    requires full { IsFull canvas.map }
    requires stands { StandsOver canvas pictures.now }
    requires from { 2 ≤ number }
    requires to { number ≤ length (sizes_of pictures.now) }
    ensures next { IfOk result (λ next.
        MergesNext pictures.now marks.now number canvas.map next.map) }
    ensures full { IfOk result (λ next. IsFull next.map) }
    ensures stands { IfOk result (λ next. StandsOver next pictures.now) }
    ensures canvas { IfOk result IsCanvas }
{
    let rest = without(alloc, canvas.map(), marks, number);
    drop(canvas);
    let map = rest?;
    let size = map.size();
    let held = earlier_marks(alloc, marks, size, number)?;
    let mut next = Canvas::of_map(alloc, map, pictures)?;
    let placement = whole_from(pictures, number, size);
    let placed = place_held(alloc, &mut next, pictures, placement, Some(&held));
    drop(held);
    match placed {
        Ok(_) => {}
        // Given to `drop`, the end of the canvas is proved once, by itself.
        Err(error) => {
            drop(next);
            return Err(error);
        }
    }
    Ok(next)
}

/// Merges pictures of one size: begins with the first, and lays one after another over it. The one error is out
/// of memory.
pub fn merge_canvas(alloc: Global, pictures: &Volume, marks: &Volume) -> Result<Canvas, AllocError>
    requires { AreOneSize pictures.now }
    ensures merge { IfOk result (λ merged. IsMerge pictures.now marks.now merged.map) }
    ensures full { IfOk result (λ merged. IsFull merged.map) }
    ensures stands { IfOk result (λ merged. StandsOver merged pictures.now) }
    ensures canvas { IfOk result IsCanvas }
{
    // Called for their contracts only: they show the prover that the pictures are a volume.
    let _samples = pictures.samples();
    let map = first_map(alloc, pictures)?;
    let mut canvas = Canvas::of_map(alloc, map, pictures)?;
    for number in 2..pictures.sizes().len() + 1 {
        canvas = merge_step(alloc, canvas, pictures, marks, number)?;
    }
    Ok(canvas)
}
