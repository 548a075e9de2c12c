// The checker: whether a record of a walk stands.
ghost use Rattle.std.specs.Prelude.{◌≡◌, IfErr, OnOk, length as length_of};
ghost use Rattle.loop_walk.specs.Walks.{IsLeastWalk};
ghost use Rattle.loop_walk.specs.Tables.{IsLength, entry_count};
ghost use Rattle.loop_walk.specs.Records.{IsFirstLoopFault, WalkStands};

use crate::fault::LoopFault;
use crate::rules::{check_diagonal, check_tables, check_walk};
use frame_distance::StepCosts;

/// Whether the record of a walk stands: the walk is closed, each entry of its tables is at most each
/// of its sums, and the walk costs at most each diagonal entry of the last table. `table_count` says
/// how many tables the walk's length has.
pub fn check_loop(costs: &StepCosts, walk: &[u16], tables: &[u64]) -> Result<(), LoopFault>
    requires walk { IsLength (length_of walk.now) }
    requires tables { length_of tables.now ≡ entry_count costs.now (length_of walk.now) }
    ensures stands { OnOk result (WalkStands costs.now walk.now tables.now) }
    ensures least { OnOk result (IsLeastWalk costs.now (length_of walk.now) walk.now) }
    ensures fault { IfErr result (λ fault. IsFirstLoopFault costs.now walk.now tables.now fault) }
{
    let length = walk.len() as u32;
    let cost = check_walk(costs, walk)?;
    check_tables(costs, tables, length)?;
    check_diagonal(costs, tables, length, cost)
}
