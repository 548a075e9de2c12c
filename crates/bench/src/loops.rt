// Loops of a clip.
ghost use Rattle.std.specs.Prelude.{◌≤◌};
ghost use Rattle.limits.specs.declared.bounds.TheConstants.{MOST_LOOP_FRAMES, MOST_SAMPLE_CELLS};
ghost use Rattle.cells.specs.Cells.{IsOnePart};
ghost use Rattle.cells.specs.Places.{cell_count};
ghost use Rattle.loop_walk.specs.Tables.{IsLength};

use crate::samples::{Texture, mixed, volume_of};
use cells::{Size, Taps, Volume};
use frame_distance::{distances, filtered};
use loop_walk::{LoopRecord, least_loop};
use std::alloc::{AllocError, Global};

// A number of a loop's cost and its frames.
fn number_of(made: &LoopRecord) -> u64 {
    let mut number = made.cost;
    for frame in made.walk.as_slice() {
        number = number.wrapping_add(u64::from(mixed(u32::from(*frame), 7)));
    }
    number
}

// Finds the least loop of that length of a clip.
fn find_once(alloc: Global, clip: &Volume, length: u32) -> Result<u64, AllocError>
    requires part { IsOnePart clip.now }
    requires frames { clip.now.size.f ≤ MOST_LOOP_FRAMES }
    requires cells { cell_count clip.now.size ≤ MOST_SAMPLE_CELLS }
    requires length { IsLength length }
{
    let costs = filtered(alloc, &distances(alloc, clip)?, Taps::Four, 4)?;
    match least_loop(alloc, &costs, length) {
        Ok(made) => Ok(number_of(&made)),
        Err(_) => Err(AllocError),
    }
}

/// Finds the least loop of that length of a clip of so many frames of 32x32 cells, from the clip on, so often. The
/// number is of its cost and its frames.
pub fn least_loops(alloc: Global, frames: u32, length: u32, times: u32) -> Result<u64, AllocError>
    requires some { 1 ≤ frames }
    requires few { frames ≤ 256 }
    requires length { IsLength length }
{
    let size = Size {
        w: 32,
        h: 32,
        f: frames,
    };
    let clip = volume_of(alloc, Texture::Lumps, size)?;
    let mut number = 0u64;
    for _time in 0..times {
        number = find_once(alloc, &clip, length)?;
    }
    Ok(number)
}
