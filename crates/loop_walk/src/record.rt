// The least closed walk of a length, and its record.
ghost use Rattle.std.specs.Prelude.{◌≡◌, ◌≤◌, ◌<◌, ℕ, ◌+◌, ◌*◌, Some, IfOk, IfErr, IsSome, length as length_of};
ghost use Rattle.loop_walk.specs.Walks.{BeginsFirst, HasNoWalk, IsLeastWalk, walk_cost};
ghost use Rattle.loop_walk.specs.FirstWalks.{IsFirstWalk};
ghost use Rattle.loop_walk.specs.Tables.{AreTightTables, IsLength, entry_at, table_count};
ghost use Rattle.loop_walk.specs.Records.{WalkStands};
ghost use Rattle.loop_walk.specs.Products.{AreFilled, FindsLeast, GoesRound, HoldsTables, IsStepTable, diagonal};

use crate::product::NONE;
use crate::tables::{fill_tables, step_table, table_count, table_in};
use crate::trace::add_way;
use frame_distance::StepCosts;
use items::Items;
use limits::MOST_LOOP_FRAMES;
use std::alloc::{AllocError, Global};
use thiserror::Error;

/// A closed walk, and the tables that show that it is least.
#[derive(Drop)]
pub struct LoopRecord {
    /// The frames in their order.
    pub walk: Items<u16>,
    /// Entry (i, j) of each table for n frames is number n*i + j of its numbers; 2^64 - 1 stands for
    /// none. The tables follow the binary digits of the length from the second digit on.
    pub tables: Items<u64>,
    /// What the walk costs.
    pub cost: u64,
}

/// Why there is no record.
#[derive(Clone, Copy, Debug, Drop, PartialEq, Eq, Error)]
pub enum LoopError {
    /// No closed walk has that length.
    #[error("no closed walk")]
    NoLoop,
    /// Memory ran out.
    #[error("no memory")]
    NoMemory,
}

impl From<AllocError> for LoopError {
    ghost use Rattle.std.specs.Prelude.{◌≡◌};
    ghost use Rattle.loop_walk.specs.declared.record.LoopError.TheVariants as error;

    ghost from_gives = { λ _ e. e ≡ error.NoMemory };

    fn from(_error: AllocError) -> LoopError {
        LoopError::NoMemory
    }
}

// The tables for a length.
fn made_tables(
    alloc: Global,
    costs: &StepCosts,
    steps: &[u64],
    length: u32,
) -> Result<Vec<u64>, AllocError>
    requires steps { IsStepTable costs.now steps.now }
    requires length { IsLength length }
    ensures { IfOk result (λ tables. AreFilled costs.now length tables.items) }
{
    let n = costs.frames() as usize;
    let mut tables = vec![in alloc; 0u64; table_count(length) as usize * (n * n)]?;
    let mut nears = vec![in alloc; 0u64; n * n]?;
    let mut rests = vec![in alloc; 0u32; n * n]?;
    fill_tables(costs, steps, length, &mut nears, &mut rests, &mut tables);
    Ok(tables)
}

// The smallest frame of which the table's diagonal has the least number.
fn first_frame(n: usize, table: &[u64]) -> usize
    requires some { 1 ≤ n }
    requires few { n ≤ MOST_LOOP_FRAMES }
    requires whole { length_of table.now ≡ n * n }
    ensures below { result < n }
    ensures least { (i : ℕ) → i < n → diagonal n table.now result ≤ diagonal n table.now i }
    ensures first { (i : ℕ) → i < result → diagonal n table.now result < diagonal n table.now i }
{
    let mut first = 0;
    for i in 1..n {
        if table[i * n + i] < table[first * n + first] {
            first = i;
        }
    }
    first
}

// A closed walk from a frame, at the cost that the tables say.
fn walk_from(
    alloc: Global,
    costs: &StepCosts,
    steps: &[u64],
    tables: &[u64],
    length: u32,
    first: usize,
) -> Result<Vec<u16>, AllocError>
    requires steps { IsStepTable costs.now steps.now }
    requires tables { HoldsTables costs.now length tables.now }
    requires length { IsLength length }
    requires first { first < costs.now.frames }
    requires there { IsSome (entry_at costs.now tables.now (table_count length) first first) }
    ensures { IfOk result (λ walk. GoesRound costs.now length tables.now first walk.items) }
{
    let _frames = costs.frames();
    let mut walk = Vec::with_capacity(alloc, length as usize)?;
    walk.push(first as u16)?;
    add_way(costs, steps, tables, length, first, first, &mut walk)?;
    Ok(walk)
}

// A least closed walk and its cost, out of the tables.
fn least_walk(
    alloc: Global,
    costs: &StepCosts,
    steps: &[u64],
    tables: &[u64],
    length: u32,
) -> Result<(Vec<u16>, u64), LoopError>
    requires steps { IsStepTable costs.now steps.now }
    requires tables { AreFilled costs.now length tables.now }
    requires length { IsLength length }
    ensures found { IfOk result (λ found.
        FindsLeast costs.now length tables.now found.0.items found.1) }
    ensures no_loop { IfErr result (λ error.
        error ≡ LoopError.NoLoop → HasNoWalk costs.now length) }
{
    let n = costs.frames() as usize;
    let last = table_in(steps, tables, table_count(length) as usize);
    let first = first_frame(n, last);
    let cost = last[first * n + first];
    if cost == NONE {
        return Err(LoopError::NoLoop);
    }
    let walk = walk_from(alloc, costs, steps, tables, length, first)?;
    Ok((walk, cost))
}

/// The closed walk of `length` frames that costs least, with its record. It begins at the smallest
/// frame that any least closed walk of that length visits. Of several such walks it is the one with
/// the smallest frame at the middle of the walk, then at those of its first half, then of its second
/// (specs/FirstWalks.antt).
pub fn least_loop(alloc: Global, costs: &StepCosts, length: u32) -> Result<LoopRecord, LoopError>
    requires { IsLength length }
    ensures least { IfOk result (λ made. IsLeastWalk costs.now length made.walk) }
    ensures first { IfOk result (λ made. BeginsFirst costs.now length made.walk) }
    ensures one { IfOk result (λ made. IsFirstWalk costs.now length made.walk) }
    ensures cost { IfOk result (λ made. walk_cost costs.now made.walk ≡ Some made.cost) }
    ensures tight { IfOk result (λ made. AreTightTables costs.now length made.tables) }
    ensures stands { IfOk result (λ made. WalkStands costs.now made.walk made.tables) }
    ensures no_loop { IfErr result (λ error.
        error ≡ LoopError.NoLoop → HasNoWalk costs.now length) }
{
    let steps = step_table(alloc, costs)?;
    let tables = made_tables(alloc, costs, &steps, length)?;
    let (walk, cost) = least_walk(alloc, costs, &steps, &tables, length)?;
    Ok(LoopRecord {
        walk: Items::from_vec(walk),
        tables: Items::from_vec(tables),
        cost,
    })
}
