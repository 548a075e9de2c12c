// The sum of the squared differences of two runs of bytes.
ghost use Rattle.std.specs.Prelude.{◌≡◌, ◌≤◌, ◌-◌, ◌*◌, ◌^◌, drop, length};
ghost use Rattle.lane_kernels.specs.Sums.{sum_of_squared_differences};

use lane_kernels::{ssd, ssd_masked};

// How many bytes a block has: as many as the sums of `lane_kernels` take at once.
const BLOCK: usize = 32;

// A block of 0 and a block of 1: as many bytes as a block has, from number n on, end with n of 1.
const MARKS: [u8; 64] = [
    0, 0, 0, 0, 0, 0, 0, 0, 0, 0, 0, 0, 0, 0, 0, 0, 0, 0, 0, 0, 0, 0, 0, 0, 0, 0, 0, 0, 0, 0, 0, 0,
    1, 1, 1, 1, 1, 1, 1, 1, 1, 1, 1, 1, 1, 1, 1, 1, 1, 1, 1, 1, 1, 1, 1, 1, 1, 1, 1, 1, 1, 1, 1, 1,
];

/// The sum of the squared differences of two runs of bytes. Where they have a block or more, what is left
/// after the last whole block is summed as one more block that ends with them, in which the bytes that
/// were summed before are masked: the loops over fewer bytes would take longer.
pub(crate) fn squared_differences(old: &[u8], new: &[u8]) -> u64
    requires same_length { length old.now ≡ length new.now }
    requires within_limit { length old.now ≤ 2 ^ 26 }
    ensures { result ≡ sum_of_squared_differences old.now new.now }
{
    let len = old.len();
    if len < BLOCK {
        return ssd(old, new);
    }
    let rest = len % BLOCK;
    let whole = len - rest;
    let sum = ssd(&old[..whole], &new[..whole]);
    if rest == 0 {
        return sum;
    }
    let last = len - BLOCK;
    sum + ssd_masked(&old[last..], &new[last..], &MARKS[rest..rest + BLOCK])
}
