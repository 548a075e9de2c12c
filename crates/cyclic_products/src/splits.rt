// The way down and the way back, level by level, in place, modulo the prime.
ghost use Rattle.std.specs.Prelude.{◌≡◌, ◌≤◌, ◌+◌, ◌*◌, ◌^◌, length};
ghost use Rattle.cyclic_products.specs.Residues.{AreCongruent};
ghost use Rattle.cyclic_products.specs.Splits.{join_by, split_by};

use crate::fours::{join_four, split_four};
use crate::passes::{join_level, split_level};
use crate::residues::{HALF, LAST};

// Splits 2^levels numbers by the polynomials from number j on.
pub(crate) fn split(levels: u32, table: &[u64], j: usize, values: &mut [u64])
    requires whole { length values.old ≡ 2 ^ levels }
    requires table { (j + 1) * 2 ^ levels ≤ 2 * length table.now }
    ensures { AreCongruent LAST values.new (split_by LAST table.now levels j values.old) }
{
    if levels == 2 {
        split_four(table, j, values);
        return;
    }
    if levels == 0 {
        return;
    }
    let (low, high) = values.split_at_mut(values.len() / 2);
    split_level(table[j], low, high);
    split(levels - 1, table, 2 * j, low);
    split(levels - 1, table, 2 * j + 1, high);
}

// Joins what `split` makes of 2^levels numbers.
pub(crate) fn join(levels: u32, halves: &[u64], j: usize, values: &mut [u64])
    requires whole { length values.old ≡ 2 ^ levels }
    requires table { (j + 1) * 2 ^ levels ≤ 2 * length halves.now }
    ensures { AreCongruent LAST values.new (join_by LAST HALF halves.now levels j values.old) }
{
    if levels == 2 {
        join_four(halves, j, values);
        return;
    }
    if levels == 0 {
        return;
    }
    let (low, high) = values.split_at_mut(values.len() / 2);
    join(levels - 1, halves, 2 * j, low);
    join(levels - 1, halves, 2 * j + 1, high);
    join_level(halves[j], low, high);
}
