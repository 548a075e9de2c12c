// Boundaries and their records.
ghost use Rattle.std.specs.Prelude.{IfOk};
ghost use Rattle.strip_boundary.specs.Boundaries.{IsBoundary, IsLeastBoundary, IsFirstLeast};
ghost use Rattle.strip_boundary.specs.Records.{BoundaryStands, AreTightSums};

use crate::strip::Strip;
use crate::sums::running_sums;
use crate::trace::trace_back;
use items::Items;
use std::alloc::{AllocError, Global};

/// A boundary through a strip, and the sums that show that it is least.
#[derive(Drop)]
pub struct BoundaryRecord {
    /// One strip column per strip row: the first column of the new block in that row.
    pub path: Items<u16>,
    /// One sum per strip cell, row by row: the cost of the cheapest way from the first row to it.
    pub sums: Items<u32>,
}

/// A least boundary of a strip, with its sums.
///
/// Among equals it is the one whose columns, read from the last strip row to the first, are
/// lexicographically smallest. The method is that of Efros and Freeman: sums from the first row to
/// the last, then back along the least ones.
pub fn least_boundary(alloc: Global, strip: &Strip) -> Result<BoundaryRecord, AllocError>
    ensures boundary { IfOk result (λ made. IsBoundary strip.now made.path) }
    ensures least { IfOk result (λ made. IsLeastBoundary strip.now made.path) }
    ensures first { IfOk result (λ made. IsFirstLeast strip.now made.path) }
    ensures stands { IfOk result (λ made. BoundaryStands strip.now made) }
    ensures tight { IfOk result (λ made. AreTightSums strip.now made.sums) }
{
    traced_record(alloc, strip)
}

// The same record, made apart: so an edit of `least_boundary` is refused by what it breaks alone.
fn traced_record(alloc: Global, strip: &Strip) -> Result<BoundaryRecord, AllocError>
    ensures boundary { IfOk result (λ made. IsBoundary strip.now made.path) }
    ensures least { IfOk result (λ made. IsLeastBoundary strip.now made.path) }
    ensures first { IfOk result (λ made. IsFirstLeast strip.now made.path) }
    ensures stands { IfOk result (λ made. BoundaryStands strip.now made) }
    ensures tight { IfOk result (λ made. AreTightSums strip.now made.sums) }
{
    let sums = running_sums(alloc, strip)?;
    let path = trace_back(alloc, strip, sums.as_slice())?;
    Ok(BoundaryRecord {
        path: Items::from_vec(path),
        sums: Items::from_vec(sums),
    })
}
