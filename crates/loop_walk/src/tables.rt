// The tables along the binary digits of a length.
ghost use Rattle.std.specs.Prelude.{◌≡◌, ◌≤◌, ◌<◌, ◌*◌, ◌^◌, IfOk, length as length_of};
ghost use Rattle.loop_walk.specs.Tables.{IsLength, entry_count, length_before, second_table, table_count, table_size};
ghost use Rattle.loop_walk.specs.Products.{AreFilled, IsStepTable, step_numbers, table_in};

use crate::product::{NONE, fill_product};
use frame_distance::StepCosts;
use limits::LONGEST_LOOP;
use std::alloc::{AllocError, Global};

/// The length that the table for a length is made from.
pub fn length_before(length: u32) -> u32
    ensures { result ≡ length_before length }
{
    if length % 2 == 1 {
        length - 1
    } else {
        length / 2
    }
}

/// How many tables the record of a walk of that length has, each with an entry for each two frames.
pub fn table_count(length: u32) -> u32
    ensures count { result ≡ table_count length }
    ensures few { result ≤ length }
{
    if length <= 1 {
        0
    } else {
        table_count(length_before(length)) + 1
    }
}

/// Which table the second halves come from, where the first halves come from table t.
pub fn second_table(length: u32, t: usize) -> usize
    ensures { result ≡ second_table length t }
{
    if length % 2 == 1 { 0 } else { t }
}

/// The step costs as a table.
pub fn step_table(alloc: Global, costs: &StepCosts) -> Result<Vec<u64>, AllocError>
    ensures { IfOk result (λ table. IsStepTable costs.now table.items) }
{
    let n = costs.frames();
    let mut table = Vec::with_capacity(alloc, n as usize * n as usize)?;
    for k in 0..n * n {
        let step = costs.step(k / n, k % n);
        table.push(step.unwrap_or(NONE))?;
    }
    Ok(table)
}

/// Table number t of a length, where number 0 is that of the step costs.
pub fn table_in<'a>(steps: &'a [u64], tables: &'a [u64], t: usize) -> &'a [u64]
    requires few { length_of steps.now ≤ 2 ^ 16 }
    requires count { t ≤ LONGEST_LOOP }
    requires there { t * length_of steps.now ≤ length_of tables.now }
    ensures { result.now ≡ table_in steps.now tables.now t }
{
    if t == 0 {
        return steps;
    }
    let start = (t - 1) * steps.len();
    &tables[start..start + steps.len()]
}

/// Fills in the tables for a length, one after another. `nears` and `rests` have room for one table each, and are
/// written over.
pub fn fill_tables(
    costs: &StepCosts,
    steps: &[u64],
    length: u32,
    nears: &mut [u64],
    rests: &mut [u32],
    tables: &mut [u64],
)
    requires steps { IsStepTable costs.now steps.now }
    requires length { IsLength length }
    requires whole { length_of tables.old ≡ entry_count costs.now length }
    requires nears { length_of nears.old ≡ table_size costs.now }
    requires rests { length_of rests.old ≡ table_size costs.now }
    ensures { AreFilled costs.now length tables.new }
{
    if length == 1 {
        return;
    }
    let n = costs.frames() as usize;
    let before = length_before(length);
    let (earlier, last) = tables.split_at_mut(tables.len() - n * n);
    fill_tables(costs, steps, before, nears, rests, earlier);
    let t = table_count(before) as usize;
    let left = table_in(steps, earlier, t);
    let right = table_in(steps, earlier, second_table(length, t));
    fill_product(n, left, right, nears, rests, last);
}
