// Merges.
ghost use Rattle.std.specs.Prelude.{IfOk};
ghost use Rattle.cells.specs.Places.{IsSmall};
ghost use Rattle.photo_merge.specs.Merges.{AreOneSize};

use crate::samples::{Texture, sample_of, sum_of};
use cells::{Size, Volume};
use photo_merge::merge_canvas;
use std::alloc::{AllocError, Global};

// How many rows at the top come from the first picture, and at the bottom from the second.
const ROWS: usize = 8;

// Marks of those rows.
fn marks_of(alloc: Global, side: u32) -> Result<Volume, AllocError>
    requires { IsSmall (record { w = side; h = side; f = 1 }) }
{
    let size = Size {
        w: side,
        h: side,
        f: 1,
    };
    let mut bytes = vec![in alloc; 0u8; 3 * size.cells()]?;
    let row = 3 * side as usize;
    for i in 0..bytes.len() {
        let from_end = (bytes.len() - i - 1) / row;
        if i % 3 == 0 && i / row < ROWS {
            bytes[i] = 1;
        } else if i % 3 == 0 && from_end < ROWS {
            bytes[i] = 2;
        }
    }
    Ok(Volume::from_bytes(size, 3, bytes))
}

// Two pictures of lumps.
fn two_pictures(alloc: Global, side: u32) -> Result<Volume, AllocError>
    requires { IsSmall (record { w = side; h = side; f = 1 }) }
    ensures { IfOk result AreOneSize }
{
    let mut pictures = sample_of(alloc, Texture::Lumps, side)?;
    let second = sample_of(alloc, Texture::OtherLumps, side)?;
    pictures.add_part(&second)?;
    Ok(pictures)
}

// Merges once. The number is of the merged picture's bytes.
fn merge_once(alloc: Global, pictures: &Volume, marks: &Volume) -> Result<u64, AllocError>
    requires { AreOneSize pictures.now }
{
    let merged = merge_canvas(alloc, pictures, marks)?;
    Ok(u64::from(sum_of(merged.picture().bytes())))
}

// Merges these pictures so often.
fn merge_pictures(
    alloc: Global,
    pictures: &Volume,
    side: u32,
    times: u32,
) -> Result<u64, AllocError>
    requires side { IsSmall (record { w = side; h = side; f = 1 }) }
    requires pictures { AreOneSize pictures.now }
{
    let marks = marks_of(alloc, side)?;
    let mut number = 0u64;
    for _time in 0..times {
        number = merge_once(alloc, pictures, &marks)?;
    }
    Ok(number)
}

/// Merges two pictures of lumps of a side so often, of which the first rows come from one and the last ones from the other. The
/// number is of the merged picture's bytes.
pub fn merge_often(alloc: Global, side: u32, times: u32) -> Result<u64, AllocError>
    requires { IsSmall (record { w = side; h = side; f = 1 }) }
{
    let pictures = two_pictures(alloc, side)?;
    merge_pictures(alloc, &pictures, side, times)
}
