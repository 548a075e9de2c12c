// The marks of a merge.
ghost use Rattle.std.specs.Prelude.{◌≡◌, ◌↔◌, IfOk, IsTrue, length};
ghost use Rattle.cells.specs.Cells.{IsOnePart};
ghost use Rattle.cells.specs.Places.{IsSmall};
ghost use Rattle.photo_merge.specs.Marks.{IsFoundBad, IsMark, earlier_marks, is_earlier, mark_at};

use cells::{At, Size, Volume};
use std::alloc::{AllocError, Global};

// The mark of a place, the first byte of its cell: the number of a picture, or 0 where it is unmarked or
// outside.
pub(crate) fn mark_at(marks: &Volume, p: At) -> u32
    ensures { result ≡ mark_at marks.now p }
{
    match marks.cell(p) {
        Some(cell) => match cell.first() {
            Some(byte) => u32::from(*byte),
            None => 0,
        },
        None => 0,
    }
}

// Whether a cell of the marks marks none or one of so many pictures, and has no other byte.
fn is_mark(cell: &[u8], count: u32) -> bool
    requires { length cell.now ≡ 3 }
    ensures { IsTrue result ↔ IsMark count cell.now }
{
    u32::from(cell[0]) <= count && cell[1] == 0 && cell[2] == 0
}

/// The index, in raster order, of the first cell of the marks that can't be one of so many pictures: its first
/// byte is above their count, or another byte isn't 0. None where each can.
pub fn first_bad_mark(marks: &Volume, count: u32) -> Option<u32>
    requires one { IsOnePart marks.now }
    requires samples { marks.now.k ≡ 3 }
    ensures { IsFoundBad count marks.now result }
{
    let size = marks.size();
    for i in 0..size.cells() {
        if !is_mark(marks.cell(size.place_at(i)).unwrap(), count) {
            return Some(i as u32);
        }
    }
    None
}

// Whether a place is marked with a picture before the one of a number.
fn is_earlier(marks: &Volume, number: u32, p: At) -> bool
    ensures { result ≡ is_earlier number (mark_at marks.now p) }
{
    let mark = mark_at(marks, p);
    0 < mark && mark < number
}

// Of each cell of an output, in raster order, whether it is marked with a picture before the one of a number.
pub(crate) fn earlier_marks(
    alloc: Global,
    marks: &Volume,
    size: Size,
    number: u32,
) -> Result<Vec<bool>, AllocError>
    requires { IsSmall size }
    ensures { IfOk result (λ held. held.items ≡ earlier_marks marks.now size number) }
{
    let count = size.cells();
    let mut held = Vec::with_capacity(alloc, count)?;
    for i in 0..count {
        held.push(is_earlier(marks, number, size.place_at(i)))?;
    }
    Ok(held)
}
