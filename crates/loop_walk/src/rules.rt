// The rules of a record of a walk, one after another.
ghost use Rattle.std.specs.Prelude.{◌≡◌, ◌≤◌, ◌<◌, ℕ, ◌+◌, ◌*◌, ◌^◌, Some, IfErr, IfOk, IfNone, IfSome, IsTrue, ◌↔◌, OnOk, length as length_of, slice_index, slice_index_or};
ghost use Rattle.loop_walk.specs.Walks.{AtMost, steps_round, walk_cost};
ghost use Rattle.loop_walk.specs.Tables.{EntriesHold, IsLength, entry_count, table_lengths, table_size};
ghost use Rattle.loop_walk.specs.Records.{BreaksWalk, IsFirstPlace, PlaceHolds, PlacesHold};
ghost use Rattle.loop_walk.specs.Products.{AllowsCost, step_round_at};

use crate::fault::{DIAGONAL_RULE, LoopFault, TABLES_RULE, WALK_RULE};
use crate::rests::{GREATEST_ROW, fill_rest_table};
use crate::sums::{broken_in_row, entry_in, fill_near_table};
use crate::tables::{length_before, second_table, table_count};
use frame_distance::StepCosts;
use limits::{LONGEST_LOOP, MOST_LOOP_FRAMES};

// The most entries of a table.
const GREATEST_TABLE: usize = MOST_LOOP_FRAMES as usize * MOST_LOOP_FRAMES as usize;

// The step from the frame at a position to the next one, which is the first one after the last.
fn step_round(costs: &StepCosts, walk: &[u16], position: usize) -> Option<u64>
    requires { position < length_of walk.now }
    ensures cost { result ≡ step_round_at costs.now walk.now position }
    ensures below { IfSome result (λ cost. cost < 2 ^ 46) }
{
    let n = costs.frames();
    let from = u32::from(walk[position]);
    let to = if position + 1 < walk.len() {
        u32::from(walk[position + 1])
    } else {
        u32::from(walk[0])
    };
    if from < n && to < n {
        costs.step(from, to)
    } else {
        None
    }
}

/// Whether the walk is closed, and its cost where it is.
pub fn check_walk(costs: &StepCosts, walk: &[u16]) -> Result<u64, LoopFault>
    requires { length_of walk.now ≤ LONGEST_LOOP }
    ensures cost { IfOk result (λ cost. walk_cost costs.now walk.now ≡ Some cost) }
    ensures fault { IfErr result (λ fault. BreaksWalk costs.now walk.now fault) }
{
    let mut cost = 0;
    for position in 0..walk.len() {
        let Some(step) = step_round(costs, walk, position) else {
            return Err(LoopFault {
                kind: WALK_RULE,
                place: position as u64,
            });
        };
        cost += step;
    }
    Ok(cost)
}

// The first place in the last table for a length where an entry is above one of its sums. `nears` and
// `rests` have room for one table each or more, and are written over.
fn broken_entry(
    costs: &StepCosts,
    tables: &[u64],
    length: u32,
    t: usize,
    nears: &mut [u64],
    rests: &mut [u32],
) -> Option<usize>
    requires number { t < LONGEST_LOOP }
    requires last { slice_index (table_lengths length) t ≡ length }
    requires enough { (t + 1) * table_size costs.now ≤ length_of tables.now }
    requires before { PlacesHold costs.now length tables.now (t * table_size costs.now) }
    requires nears { table_size costs.now ≤ length_of nears.old }
    requires rests { table_size costs.now ≤ length_of rests.old }
    ensures hold { IfNone result
        (PlacesHold costs.now length tables.now ((t + 1) * table_size costs.now)) }
    ensures broken { IfSome result
        (IsFirstPlace ((t + 1) * table_size costs.now) (PlaceHolds costs.now length tables.now)) }
{
    let n = costs.frames();
    let m = n as usize;
    let second = second_table(length, t);
    let start = t * (m * m);
    let nears = &mut nears[..m * m];
    let rests = &mut rests[..m * m];
    let mut bases = [0u64; GREATEST_ROW];
    fill_near_table(costs, tables, second, nears);
    fill_rest_table(m, nears, &mut bases[..m], rests);
    let mut quick = true;
    for i in 0..n {
        match broken_in_row(
            costs,
            tables,
            t,
            second,
            i,
            nears,
            &bases[..m],
            rests,
            &mut quick,
        ) {
            Some(j) => return Some(start + (i as usize * m + j as usize)),
            None => {}
        }
    }
    None
}

// The first place in all tables for a length where an entry is above one of its sums. `nears` and `rests`
// have room for one table each or more, and are written over.
fn broken_place(
    costs: &StepCosts,
    tables: &[u64],
    length: u32,
    nears: &mut [u64],
    rests: &mut [u32],
) -> Option<usize>
    requires length { IsLength length }
    requires enough { entry_count costs.now length ≤ length_of tables.now }
    requires nears { table_size costs.now ≤ length_of nears.old }
    requires rests { table_size costs.now ≤ length_of rests.old }
    ensures hold { IfNone result
        (PlacesHold costs.now length tables.now (entry_count costs.now length)) }
    ensures broken { IfSome result
        (IsFirstPlace (entry_count costs.now length) (PlaceHolds costs.now length tables.now)) }
{
    if length == 1 {
        return None;
    }
    let before = length_before(length);
    let t = table_count(before) as usize;
    match broken_place(costs, tables, before, nears, rests) {
        Some(place) => Some(place),
        None => broken_entry(costs, tables, length, t, nears, rests),
    }
}

/// Whether each entry is at most each of its sums.
pub fn check_tables(costs: &StepCosts, tables: &[u64], length: u32) -> Result<(), LoopFault>
    requires length { IsLength length }
    requires enough { entry_count costs.now length ≤ length_of tables.now }
    ensures hold { OnOk result (EntriesHold costs.now length tables.now) }
    ensures fault { IfErr result (λ fault. (fault.kind ≡ TABLES_RULE) × IsFirstPlace
        (entry_count costs.now length) (PlaceHolds costs.now length tables.now) fault.place) }
{
    // Called for its contract only: it shows the prover how few frames there are.
    let _frames = costs.frames();
    let mut nears = [0u64; GREATEST_TABLE];
    let mut rests = [0u32; GREATEST_TABLE];
    match broken_place(costs, tables, length, &mut nears, &mut rests) {
        Some(place) => Err(LoopFault {
            kind: TABLES_RULE,
            place: place as u64,
        }),
        None => Ok(()),
    }
}

/// Whether the cost is at most each diagonal entry of the last table.
pub fn check_diagonal(
    costs: &StepCosts,
    tables: &[u64],
    length: u32,
    cost: u64,
) -> Result<(), LoopFault>
    requires length { IsLength length }
    requires enough { entry_count costs.now length ≤ length_of tables.now }
    ensures hold { OnOk result ((i : ℕ) → i < costs.now.frames →
        AllowsCost costs.now length tables.now cost i) }
    ensures fault { IfErr result (λ fault. (fault.kind ≡ DIAGONAL_RULE) × IsFirstPlace
        costs.now.frames (AllowsCost costs.now length tables.now cost) fault.place) }
{
    let t = table_count(length) as usize;
    for i in 0..costs.frames() {
        // None allows any cost.
        if let Some(least) = entry_in(costs, tables, t, i, i) {
            if cost > least {
                return Err(LoopFault {
                    kind: DIAGONAL_RULE,
                    place: u64::from(i),
                });
            }
        }
    }
    Ok(())
}
