//! Sums over rows of bytes that are compared in step: the sum of absolute differences, the sum of
//! squared differences, and the latter over the bytes that a mask keeps. Overlap errors and
//! distances of frames are made of them.
//!
//! The contract of each promises the plain sum, exactly, for every two rows of one length up to
//! 2^26: no sum wraps, and no byte is left out, whatever the length. `specs/Sums.antt` defines the
//! sums. None of the functions takes memory.
//!
//! The rows are read in long blocks of `LANES` bytes, one byte a lane (`block.rt`). What is left after
//! the last whole one, the rows' tail, is read in short blocks of `SHORT` bytes (`tail.rt`), and what
//! is left after those by a plain loop (`rest.rt`). A block's sum fits its lanes, and it and a tail's
//! sum fit a `u32`; the sums of the long blocks and of the tail are added up in a `u64`.
#![tactic(auto)]

ghost use Rattle.std.specs.Prelude.{◌≡◌, ◌≤◌, ◌*◌, ◌^◌, length};
ghost use Rattle.lane_kernels.specs.Sums.{sum_of_absolute_differences, sum_of_squared_differences, masked_sum_of_squared_differences};

mod block;
mod rest;
mod tail;

use block::{LANES, sad_block, ssd_block, ssd_masked_block};
use tail::{sad_tail, ssd_masked_tail, ssd_tail};

/// The sum of absolute differences of two rows, byte by byte.
pub fn sad(a: &[u8], b: &[u8]) -> u64
    requires same_length { length a.now ≡ length b.now }
    requires within_limit { length a.now ≤ 2 ^ 26 }
    ensures sum { result ≡ sum_of_absolute_differences a.now b.now }
    ensures bound { result ≤ 255 * length a.now }
{
    let mut total = 0;
    let mut at = 0;
    'by_block: while a.len() - at >= LANES {
        total += u64::from(sad_block::<LANES>(&a[at..], &b[at..]));
        at += LANES;
    }
    total + u64::from(sad_tail(&a[at..], &b[at..]))
}

/// The sum of squared differences of two rows, byte by byte.
pub fn ssd(a: &[u8], b: &[u8]) -> u64
    requires same_length { length a.now ≡ length b.now }
    requires within_limit { length a.now ≤ 2 ^ 26 }
    ensures sum { result ≡ sum_of_squared_differences a.now b.now }
    ensures bound { result ≤ 255 * 255 * length a.now }
{
    let mut total = 0;
    let mut at = 0;
    'by_block: while a.len() - at >= LANES {
        total += u64::from(ssd_block::<LANES>(&a[at..], &b[at..]));
        at += LANES;
    }
    total + u64::from(ssd_tail(&a[at..], &b[at..]))
}

/// The sum of squared differences over the bytes that the mask keeps. The mask has a byte for each
/// byte of the rows: 0 leaves that byte out, and any other value keeps it.
pub fn ssd_masked(a: &[u8], b: &[u8], mask: &[u8]) -> u64
    requires same_length { length a.now ≡ length b.now }
    requires mask_length { length a.now ≡ length mask.now }
    requires within_limit { length a.now ≤ 2 ^ 26 }
    ensures sum { result ≡ masked_sum_of_squared_differences a.now b.now mask.now }
    ensures bound { result ≤ 255 * 255 * length a.now }
{
    let mut total = 0;
    let mut at = 0;
    'by_block: while a.len() - at >= LANES {
        total += u64::from(ssd_masked_block::<LANES>(&a[at..], &b[at..], &mask[at..]));
        at += LANES;
    }
    total + u64::from(ssd_masked_tail(&a[at..], &b[at..], &mask[at..]))
}
