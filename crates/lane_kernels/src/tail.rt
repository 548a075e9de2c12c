// The tails of the rows, which are what is left after their last whole long block: short blocks, and
// what is left after those by the plain sums of `rest.rt`. A tail has fewer than `LANES` bytes, so that
// its sum fits a `u32`.
ghost use Rattle.std.specs.Prelude.{◌≡◌, ◌<◌, length};
ghost use Rattle.lane_kernels.specs.Sums.{sum_of_absolute_differences, sum_of_squared_differences, masked_sum_of_squared_differences};

use crate::block::{LANES, SHORT, sad_block, ssd_block, ssd_masked_block};
use crate::rest::{sad_rest, ssd_masked_rest, ssd_rest};

/// The sum of absolute differences of two tails.
pub(crate) fn sad_tail(a: &[u8], b: &[u8]) -> u32
    requires same_length { length a.now ≡ length b.now }
    requires few { length a.now < LANES }
    ensures { result ≡ sum_of_absolute_differences a.now b.now }
{
    let mut total = 0;
    let mut at = 0;
    'by_block: while a.len() - at >= SHORT {
        total += sad_block::<SHORT>(&a[at..], &b[at..]);
        at += SHORT;
    }
    total + sad_rest(&a[at..], &b[at..])
}

/// The sum of squared differences of two tails.
pub(crate) fn ssd_tail(a: &[u8], b: &[u8]) -> u32
    requires same_length { length a.now ≡ length b.now }
    requires few { length a.now < LANES }
    ensures { result ≡ sum_of_squared_differences a.now b.now }
{
    let mut total = 0;
    let mut at = 0;
    'by_block: while a.len() - at >= SHORT {
        total += ssd_block::<SHORT>(&a[at..], &b[at..]);
        at += SHORT;
    }
    total + ssd_rest(&a[at..], &b[at..])
}

/// The sum of squared differences of two tails, over the bytes that the mask keeps.
pub(crate) fn ssd_masked_tail(a: &[u8], b: &[u8], mask: &[u8]) -> u32
    requires same_length { length a.now ≡ length b.now }
    requires mask_length { length a.now ≡ length mask.now }
    requires few { length a.now < LANES }
    ensures { result ≡ masked_sum_of_squared_differences a.now b.now mask.now }
{
    let mut total = 0;
    let mut at = 0;
    'by_block: while a.len() - at >= SHORT {
        total += ssd_masked_block::<SHORT>(&a[at..], &b[at..], &mask[at..]);
        at += SHORT;
    }
    total + ssd_masked_rest(&a[at..], &b[at..], &mask[at..])
}
