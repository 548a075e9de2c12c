// Both levels of four numbers at once: a half of all calls would be for fewer.
ghost use Rattle.std.specs.Prelude.{◌≡◌, ◌≤◌, ◌+◌, ◌*◌, length};
ghost use Rattle.cyclic_products.specs.Residues.{AreCongruent};
ghost use Rattle.cyclic_products.specs.Splits.{join_by, split_by};

use crate::passes::{join_pair, split_pair};
use crate::residues::{HALF, LAST};

// Splits four numbers by the polynomials from number j on.
pub(crate) fn split_four(table: &[u64], j: usize, values: &mut [u64])
    requires whole { length values.old ≡ 4 }
    requires table { (j + 1) * 4 ≤ 2 * length table.now }
    ensures { AreCongruent LAST values.new (split_by LAST table.now 2 j values.old) }
{
    let (a, c) = split_pair(table[j], values[0], values[2]);
    let (b, d) = split_pair(table[j], values[1], values[3]);
    let (w, x) = split_pair(table[2 * j], a, b);
    let (y, z) = split_pair(table[2 * j + 1], c, d);
    values[0] = w;
    values[1] = x;
    values[2] = y;
    values[3] = z;
}

// Joins what `split_four` makes of four numbers.
pub(crate) fn join_four(halves: &[u64], j: usize, values: &mut [u64])
    requires whole { length values.old ≡ 4 }
    requires table { (j + 1) * 4 ≤ 2 * length halves.now }
    ensures { AreCongruent LAST values.new (join_by LAST HALF halves.now 2 j values.old) }
{
    let (a, b) = join_pair(halves[2 * j], values[0], values[1]);
    let (c, d) = join_pair(halves[2 * j + 1], values[2], values[3]);
    let (w, y) = join_pair(halves[j], a, c);
    let (x, z) = join_pair(halves[j], b, d);
    values[0] = w;
    values[1] = x;
    values[2] = y;
    values[3] = z;
}
