// Quilts and transfers.
ghost use Rattle.cells.specs.Places.{IsSmall};
ghost use Rattle.quilted.specs.Quilted.{CanBeQuilted};

use crate::samples::{Texture, sample_of, sum_of};
use block_strips::QuiltPlan;
use cells::{Size, Volume};
use quilt::quilt_canvas;
use quilted::QuiltRun;
use std::alloc::{AllocError, Global};
use transfer::transfer_canvas;

// Quilts once. The number is of the picture's bytes.
fn quilt_once(alloc: Global, asked: &QuiltRun, sample: &Volume) -> Result<u64, AllocError>
    requires { CanBeQuilted asked.now sample.now }
{
    match quilt_canvas(alloc, asked, sample) {
        Ok(quilted) => Ok(u64::from(sum_of(quilted.canvas.picture().bytes()))),
        Err(_) => Err(AllocError),
    }
}

/// Quilts a picture of that side so often, of blocks of 64x64 cells with overlaps of 16, from a sample of the same
/// side. The number is of the picture's bytes.
pub fn quilt_often(
    alloc: Global,
    texture: Texture,
    side: u32,
    times: u32,
) -> Result<u64, AllocError>
    requires { IsSmall (record { w = side; h = side; f = 1 }) }
{
    let sample = sample_of(alloc, texture, side)?;
    let asked = QuiltRun {
        size: Size {
            w: side,
            h: side,
            f: 1,
        },
        plan: QuiltPlan {
            block: 64,
            overlap: 16,
            tol: 10,
        },
        seed: 1,
    };
    let mut number = 0u64;
    for _time in 0..times {
        number = quilt_once(alloc, &asked, &sample)?;
    }
    Ok(number)
}

/// Paints a picture of lumps of a side so often, with blocks of 16x16 cells of other lumps of a side, at an alpha of 50. The
/// number is of the painted picture's bytes.
pub fn transfer_often(alloc: Global, from: u32, side: u32, times: u32) -> Result<u64, AllocError>
    requires from { IsSmall (record { w = from; h = from; f = 1 }) }
    requires side { IsSmall (record { w = side; h = side; f = 1 }) }
{
    let sample = sample_of(alloc, Texture::Lumps, from)?;
    let target = sample_of(alloc, Texture::OtherLumps, side)?;
    let asked = QuiltRun {
        size: target.size(),
        plan: QuiltPlan {
            block: 16,
            overlap: 5,
            tol: 10,
        },
        seed: 1,
    };
    let mut number = 0u64;
    for _time in 0..times {
        let Ok(painted) = transfer_canvas(alloc, &asked, 50, &target, &sample) else {
            return Err(AllocError);
        };
        number = u64::from(sum_of(painted.canvas.picture().bytes()));
    }
    Ok(number)
}
