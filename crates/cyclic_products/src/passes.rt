// Walks over two lists in step: each number becomes what an operation makes of the pair, modulo the prime.
ghost use Rattle.std.specs.Prelude.{◌≡◌, ◌*◌, ◌%◌, length, map};
ghost use Rattle.cyclic_products.specs.Residues.{AreCongruent, IsCongruent, mix, mixed, zip_with};

use crate::residues::{HALF, LAST, PRIME, half, minus, plus, reduced, times};

// x + a * y and x - a * y.
pub(crate) fn split_pair(a: u64, x: u64, y: u64) -> (u64, u64)
    ensures sum { IsCongruent LAST result.0 (mixed LAST 1 a x y) }
    ensures difference { IsCongruent LAST result.1 (mixed LAST 1 (LAST * a) x y) }
{
    let product = reduced(times(a, y));
    (plus(x, product), minus(x, product))
}

// A half of x + y, and (x - y) * b.
pub(crate) fn join_pair(b: u64, x: u64, y: u64) -> (u64, u64)
    ensures sum { IsCongruent LAST result.0 (mixed LAST HALF HALF x y) }
    ensures difference { IsCongruent LAST result.1 (mixed LAST b (LAST * b) x y) }
{
    let below = reduced(y);
    (half(plus(x, below)), times(b, minus(x, below)))
}

// One level of the way down: low + a * high and low - a * high.
pub(crate) fn split_level(a: u64, low: &mut [u64], high: &mut [u64])
    requires { length low.old ≡ length high.old }
    ensures sum { AreCongruent LAST low.new (mix LAST 1 a low.old high.old) }
    ensures difference { AreCongruent LAST high.new (mix LAST 1 (LAST * a) low.old high.old) }
{
    'pairs: for i in 0..low.len() {
        let (sum, difference) = split_pair(a, low[i], high[i]);
        low[i] = sum;
        high[i] = difference;
    }
}

// One level of the way back: the halves of low + high, and (low - high) * b.
pub(crate) fn join_level(b: u64, low: &mut [u64], high: &mut [u64])
    requires { length low.old ≡ length high.old }
    ensures sum { AreCongruent LAST low.new (mix LAST HALF HALF low.old high.old) }
    ensures difference { AreCongruent LAST high.new (mix LAST b (LAST * b) low.old high.old) }
{
    'pairs: for i in 0..low.len() {
        let (sum, difference) = join_pair(b, low[i], high[i]);
        low[i] = sum;
        high[i] = difference;
    }
}

// The products of two lists, number by number, in the place of the first.
pub(crate) fn multiply(f: &mut [u64], g: &[u64])
    requires { length g.now ≡ length f.old }
    ensures { AreCongruent LAST f.new (zip_with (λ x y. (x * y) % PRIME) f.old g.now) }
{
    'pairs: for i in 0..f.len() {
        f[i] = times(f[i], g[i]);
    }
}

// The sums of two lists, number by number, in the place of the first.
pub(crate) fn add(sums: &mut [u64], f: &[u64])
    requires { length f.now ≡ length sums.old }
    ensures { AreCongruent LAST sums.new (mix LAST 1 1 sums.old f.now) }
{
    'pairs: for i in 0..sums.len() {
        sums[i] = plus(sums[i], reduced(f[i]));
    }
}

// Brings each number below the prime.
pub(crate) fn reduce(values: &mut [u64])
    ensures { values.new ≡ map (λ x. x % PRIME) values.old }
{
    'numbers: for i in 0..values.len() {
        values[i] = reduced(values[i]);
    }
}
