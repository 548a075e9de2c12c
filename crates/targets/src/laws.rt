// What the definitions mean.
ghost use Rattle.targets.specs.Targets.{EligibleByError};

use cells::Volume;

/// A law, with nothing to run: by the rating of a transfer a candidate is eligible exactly where a hundred times its
/// error is at most 100 + tol times that of the best, whether the box has filled cells or none.
pub fn eligible_by_error(alpha: u32, target: &Volume, sample: &Volume)
    ensures { EligibleByError alpha target.now sample.now }
{}
