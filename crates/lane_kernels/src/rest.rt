// The rows after their last whole short block, one pair of bytes at a time. Fewer than `SHORT` bytes
// are left, so that their sum fits a `u32`.
ghost use Rattle.std.specs.Prelude.{◌≡◌, ◌<◌, length};
ghost use Rattle.lane_kernels.specs.Sums.{squared_difference, masked_squared_difference, sum_of_absolute_differences, sum_of_squared_differences, masked_sum_of_squared_differences};

use crate::block::SHORT;

fn squared_difference(x: u8, y: u8) -> u32
    ensures { result ≡ squared_difference (x, y) }
{
    let difference = u32::from(x.abs_diff(y));
    difference * difference
}

fn masked_squared_difference(x: u8, y: u8, m: u8) -> u32
    ensures { result ≡ masked_squared_difference ((x, y), m) }
{
    if m == 0 { 0 } else { squared_difference(x, y) }
}

/// The sum of absolute differences of what is left of two rows.
pub(crate) fn sad_rest(a: &[u8], b: &[u8]) -> u32
    requires { length a.now < SHORT }
    ensures { result ≡ sum_of_absolute_differences a.now b.now }
{
    a.iter()
        .zip(b)
        .map(|(x, y)| u32::from(x.abs_diff(*y)))
        .sum()
}

/// The sum of squared differences of what is left of two rows.
pub(crate) fn ssd_rest(a: &[u8], b: &[u8]) -> u32
    requires { length a.now < SHORT }
    ensures { result ≡ sum_of_squared_differences a.now b.now }
{
    a.iter()
        .zip(b)
        .map(|(x, y)| squared_difference(*x, *y))
        .sum()
}

/// The sum of squared differences of what is left of two rows, over the bytes that the mask keeps.
pub(crate) fn ssd_masked_rest(a: &[u8], b: &[u8], mask: &[u8]) -> u32
    requires { length a.now < SHORT }
    ensures { result ≡ masked_sum_of_squared_differences a.now b.now mask.now }
{
    a.iter()
        .zip(b)
        .zip(mask)
        .map(|((x, y), m)| masked_squared_difference(*x, *y, *m))
        .sum()
}
