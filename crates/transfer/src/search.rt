// What the picks of a transfer go by.
ghost use Rattle.std.specs.Prelude.{◌≤◌, ◌+◌, IfOk};
ghost use Rattle.cells.specs.Cells.{count_of};
ghost use Rattle.limits.specs.declared.bounds.TheConstants.{MOST_CELLS};
ghost use Rattle.targets.specs.Joined.{CanBeJoined};
ghost use Rattle.transfer.specs.Search.{ServesTransfer};

use cells::Volume;
use search_squares::SampleSums;
use std::alloc::{AllocError, Global};
use targets::join_target;

/// What the picks of a transfer go by: the sample with the target as a further part, and the sums of the sample's
/// blocks. Made once, it serves all picks from the sample by the target.
#[derive(Drop)]
pub struct TargetSearch {
    pub(crate) joined: Volume,
    pub(crate) sums: SampleSums,
}

impl TargetSearch {
    /// That of a sample and a target, which have no more cells together than a volume may have. It takes a byte
    /// for each of their bytes, and what `SampleSums::make` takes. The one error is out of memory.
    pub fn make(alloc: Global, target: &Volume, sample: &Volume) -> Result<TargetSearch, AllocError>
        requires can { CanBeJoined sample.now target.now }
        requires room { count_of sample.now + count_of target.now ≤ MOST_CELLS }
        ensures { IfOk result (ServesTransfer sample.now target.now) }
    {
        let sums = SampleSums::make(alloc, sample)?;
        let joined = join_target(alloc, sample, target)?;
        Ok(TargetSearch { joined, sums })
    }
}
