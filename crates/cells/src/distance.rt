// How far the cells of two places are apart.
ghost use Rattle.std.specs.Prelude.{◌≡◌, ◌≤◌, ◌*◌, length};
ghost use Rattle.std.specs.Int.{abs_diff};
ghost use Rattle.cells.specs.Cells.{IsVolume};
ghost use Rattle.cells.specs.Distances.{IsPseudometric, difference, distance};

use crate::{At, Volume};

// How far two samples are apart.
#[inline(always)]
fn apart(a: u8, b: u8) -> u32
    ensures { result ≡ abs_diff a b }
{
    u32::from(a.abs_diff(b))
}

// The sum of the absolute differences of the samples of two cells.
fn difference(a: &[u8], b: &[u8]) -> u32
    requires { length a.now ≤ 6 }
    ensures { result ≡ difference a.now b.now }
{
    a.iter()
        .zip(b)
        .map(|(x, y)| u32::from(x.abs_diff(*y)))
        .sum()
}

// The same of two cells, without a loop where they have 1 or 3 samples, as those of most files have.
#[inline(always)]
fn difference_of_cells(a: &[u8], b: &[u8]) -> u32
    requires { length a.now ≤ 6 }
    ensures { result ≡ difference a.now b.now }
{
    match (a, b) {
        ([a], [b]) => apart(*a, *b),
        ([a0, a1, a2], [b0, b1, b2]) => apart(*a0, *b0) + apart(*a1, *b1) + apart(*a2, *b2),
        _ => difference(a, b),
    }
}

/// The distance of the cells at two places of a volume: the sum over their k samples of the absolute
/// differences where both places are inside, 255*k where exactly one is, and 0 where both are outside.
pub fn cell_distance(v: &Volume, a: At, b: At) -> u32
    ensures distance { result ≡ distance v.now a b }
    ensures bound { result ≤ 255 * v.now.k }
    ensures laws { IsPseudometric (distance v.now) }
    ensures volume { IsVolume v.now }
{
    let k = v.samples();
    match (v.cell(a), v.cell(b)) {
        (Some(a), Some(b)) => difference_of_cells(a, b),
        (None, None) => 0,
        _ => 255 * k,
    }
}
