// The samples that a run works over.
ghost use Rattle.std.specs.Prelude.{◌≡◌, ◌≤◌, ◌*◌, Bool, true, IfOk, List, length};
ghost use Rattle.cells.specs.declared.place.Size.{Size};
ghost use Rattle.cells.specs.Cells.{Cells, IsVolume, count_of, sizes_of};
ghost use Rattle.limits.specs.declared.bounds.TheConstants.{MOST_CELLS, MOST_PARTS, MOST_SAMPLE_CELLS};
ghost use Rattle.turned.specs.declared.turn.TheConstants.{TURNS};
ghost use Rattle.sample_files.specs.Several.{AreSoundSamples, with_turns};
ghost use Rattle.sample_files.specs.Worked.{worked, worked_samples, worked_sizes};

use crate::several::Samples;
use std::alloc::{AllocError, Global};
use turned::turn_all;

/// The samples as they are, or all their turns in place of them, in the same form. With turns there are at most 2
/// samples, of at most 2^20 cells together. The one error is out of memory, and without turns there is none.
pub fn worked(alloc: Global, turns: bool, samples: Samples) -> Result<Samples, AllocError>
    requires sound { AreSoundSamples samples }
    requires few { turns ≡ true → TURNS * length (sizes_of samples.volume) ≤ MOST_PARTS }
    requires fits { with_turns turns (count_of samples.volume) ≤ MOST_SAMPLE_CELLS }
    ensures is { IfOk result (λ all. all ≡ worked_samples turns samples) }
    ensures sound { IfOk result AreSoundSamples }
{
    if !turns {
        return Ok(samples);
    }
    let Samples { form, volume } = samples;
    let volume = turn_all(alloc, &volume)?;
    Ok(Samples { form, volume })
}

/// The worked samples are a volume with the sizes of the turns, and those tell the sizes of the samples.
pub fn worked_is_told()
    ensures volume { (turns : Bool) (v : Cells) → IsVolume v →
        with_turns turns (length (sizes_of v)) ≤ MOST_PARTS →
        with_turns turns (count_of v) ≤ MOST_CELLS → IsVolume (worked turns v) }
    ensures sizes { (turns : Bool) (v : Cells) →
        sizes_of (worked turns v) ≡ worked_sizes turns (sizes_of v) }
    ensures tell { (turns : Bool) (sizes other : List Size) →
        worked_sizes turns sizes ≡ worked_sizes turns other → sizes ≡ other }
{}
