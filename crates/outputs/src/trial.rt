// The sample of a trial, which is made of a number.
ghost use Rattle.std.specs.Prelude.{◌≡◌, ◌<◌, ◌+◌, ◌++◌, ◌∷◌, [], IfOk, OnOk, length};
ghost use Rattle.outputs.specs.TrialSamples.{ground, trial_byte, trial_bytes, trial_sample};

use cells::{Size, Volume};
use patch_picks::Draws;
use std::alloc::{AllocError, Global};

/// The size of a sample that is made of a number, in cells.
pub const SIZE: Size = Size { w: 64, h: 64, f: 1 };

/// The bytes of a cell.
const CELL_BYTES: u32 = 3;

/// The bytes of the sample.
const BYTES: u32 = 12288;

// What is under the draws at the cell of an index.
fn ground(i: u32) -> u8
    ensures ground { result ≡ ground i }
    ensures most { result < 97 }
{
    let squares = i % SIZE.w / 8 + i / SIZE.w / 8;
    if squares % 2 == 0 { 0 } else { 96 }
}

// Puts byte j after those before it.
fn add_byte(bytes: &mut Vec<u8>, draws: &mut Draws, j: u32) -> Result<(), AllocError>
    requires place { draws.old.place ≡ j }
    ensures byte { OnOk result
        (bytes.new.items ≡ bytes.old.items ++ trial_byte draws.old.seed j ∷ []) }
    ensures next { draws.new.place ≡ j + 1 }
    ensures seed { draws.new.seed ≡ draws.old.seed }
{
    let drawn = draws.below(64) as u8;
    bytes.push(ground(j / CELL_BYTES) + drawn)?;
    Ok(())
}

// The bytes of the sample of a number.
fn sample_bytes(alloc: Global, n: u32) -> Result<Vec<u8>, AllocError>
    ensures bytes { IfOk result (λ bytes. bytes.items ≡ trial_bytes n BYTES) }
    ensures whole { IfOk result (λ bytes. length bytes.items ≡ BYTES) }
{
    let mut draws = Draws::from_seed(u64::from(n));
    let mut bytes = Vec::new(alloc);
    for j in 0..BYTES {
        add_byte(&mut bytes, &mut draws, j)?;
    }
    Ok(bytes)
}

/// The sample of a number. The one error is out of memory.
pub fn trial_sample(alloc: Global, n: u32) -> Result<Volume, AllocError>
    ensures { IfOk result (λ sample. sample ≡ trial_sample n) }
{
    let bytes = sample_bytes(alloc, n)?;
    Ok(Volume::from_bytes(SIZE, CELL_BYTES, bytes))
}
