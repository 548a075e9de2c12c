// The lists of a box of the output and of a part of the sample.
ghost use Rattle.std.specs.Prelude.{◌≡◌, ◌≤◌, ◌<◌, ◌+◌, ℕ, IfOk, reverse};
ghost use Rattle.boxes.specs.Raster.{largest};
ghost use Rattle.boxes.specs.Walks.{IsAtIndex};
ghost use Rattle.cells.specs.Boxes.{HoldsBox};
ghost use Rattle.cells.specs.Places.{HasAxes, raster_index};
ghost use Rattle.map_canvas.specs.Maps.{IsOver};
ghost use Rattle.offset_errors.specs.Numbers.{box_number, part_number};
ghost use Rattle.offset_errors.specs.Offsets.{IsInSample, box_list, part_list};
ghost use Rattle.offset_errors.specs.Padded.{in_box, is_along, is_moved, moved};

use crate::entries::{output_entry, sample_entry};
use boxes::Counts;
use cells::{Box3, Size, Volume};
use map_canvas::Map;
use std::alloc::{AllocError, Global};

// The counts at the index before. A walk from the end needs no division for each index.
fn before(size: Size, at: Counts) -> Counts
    requires size { (1 ≤ size.w) × (1 ≤ size.h) }
    requires later { 1 ≤ raster_index size at.x at.y at.f }
    ensures { (i : ℕ) → IsAtIndex size (i + 1) at.x at.y at.f
        → IsAtIndex size i result.x result.y result.f }
{
    if at.x > 0 {
        Counts { x: at.x - 1, ..at }
    } else if at.y > 0 {
        Counts {
            x: size.w - 1,
            y: at.y - 1,
            f: at.f,
        }
    } else {
        Counts {
            x: size.w - 1,
            y: size.h - 1,
            f: at.f - 1,
        }
    }
}

// What the list of a box has at counts.
fn box_entry(map: &Map, sample: &Volume, rect: &Box3, j: u32, at: Counts) -> u64
    requires over { IsOver map.now sample.now }
    requires inside { HoldsBox largest rect.now.corner rect.now.size }
    requires below { j < sample.now.k + 2 }
    ensures { result ≡
        in_box rect.now.size (box_number map.now sample.now rect.now j) at.x at.y at.f }
{
    let size = rect.size;
    if at.x < size.w && (at.y < size.h && at.f < size.f) {
        output_entry(map, sample, at.cell(rect), j)
    } else {
        0
    }
}

/// Number j of each cell of a box, in a list from its end.
pub(crate) fn box_values(
    alloc: Global,
    map: &Map,
    sample: &Volume,
    rect: &Box3,
    pad: Size,
    j: u32,
    n: u32,
) -> Result<Vec<u64>, AllocError>
    requires over { IsOver map.now sample.now }
    requires inside { HoldsBox largest rect.now.corner rect.now.size }
    requires pad { (1 ≤ pad.w) × (1 ≤ pad.h) }
    requires below { j < sample.now.k + 2 }
    ensures { IfOk result (λ values. values.items ≡
        reverse (box_list n pad map.now sample.now rect.now j)) }
{
    let mut values = Vec::with_capacity(alloc, n as usize)?;
    // those at index n, past the last one
    let mut at = Counts {
        x: n % pad.w,
        y: n / pad.w % pad.h,
        f: n / pad.w / pad.h,
    };
    'cells: for i in 0..n {
        at = before(pad, at);
        values.push(box_entry(map, sample, rect, j, at))?;
    }
    Ok(values)
}

// Whether a count is of a cell of the part, which begins at the last cell of its lead.
fn is_along_axis(lead: u32, s: u32, x: u32) -> bool
    requires { 1 ≤ lead }
    ensures { result ≡ is_along lead s x }
{
    lead - 1 <= x && x - (lead - 1) < s
}

// Whether counts are of a cell of the part, after its lead.
fn is_in_part(lead: Size, part: Size, at: Counts) -> bool
    requires { HasAxes lead }
    ensures { result ≡ is_moved lead part at.x at.y at.f }
{
    is_along_axis(lead.w, part.w, at.x)
        && (is_along_axis(lead.h, part.h, at.y) && is_along_axis(lead.f, part.f, at.f))
}

// What the list of a part has at counts.
fn part_entry(sample: &Volume, lead: Size, part: &Box3, j: u32, at: Counts) -> u64
    requires lead { HasAxes lead }
    requires part { IsInSample sample.now part.now }
    requires below { j < sample.now.k + 2 }
    ensures { result ≡
        moved lead part.now.size (part_number sample.now part.now.corner j) at.x at.y at.f }
{
    if !is_in_part(lead, part.size, at) {
        return 0;
    }
    let own = Counts {
        x: at.x - (lead.w - 1),
        y: at.y - (lead.h - 1),
        f: at.f - (lead.f - 1),
    };
    sample_entry(sample, part.corner.plus(own.place()), j)
}

/// Number j of each cell of a part after its lead, in a list.
pub(crate) fn part_values(
    alloc: Global,
    sample: &Volume,
    lead: Size,
    part: &Box3,
    pad: Size,
    j: u32,
    n: u32,
) -> Result<Vec<u64>, AllocError>
    requires lead { HasAxes lead }
    requires part { IsInSample sample.now part.now }
    requires pad { (1 ≤ pad.w) × (1 ≤ pad.h) }
    requires below { j < sample.now.k + 2 }
    ensures { IfOk result (λ values. values.items ≡
        part_list n pad lead sample.now part.now j) }
{
    let rows = Size { f: n, ..pad };
    let mut values = Vec::with_capacity(alloc, n as usize)?;
    let mut at = Counts::first();
    'cells: for i in 0..n {
        values.push(part_entry(sample, lead, part, j, at))?;
        // The size has a frame for each index, so that the walk doesn't leave it.
        at = at.next(rows);
    }
    Ok(values)
}
