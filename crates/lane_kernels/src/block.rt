// One block of each row, N bytes at once in the lanes of vectors. Each function reads the first N bytes
// of the rows that it is given: `LANES` bytes are a long block, and `SHORT` bytes a short one.
ghost use Rattle.std.specs.Prelude.{◌≡◌, ◌≤◌, ◌*◌, ◌==◌, if◌then◌else◌, length, take, sum, sum_by};
ghost use Rattle.std.specs.Int.{abs_diff};
ghost use Rattle.std.specs.Simd.Lanes.{zip2};
ghost use Rattle.lane_kernels.specs.Sums.{sum_of_absolute_differences, sum_of_squared_differences, masked_sum_of_squared_differences};

use std::simd::prelude::*;

/// How many bytes a long block has.
pub(crate) const LANES: usize = 32;

/// How many bytes a short block has: few enough that a row of 8 cells of 3 bytes, as the overlap of a
/// patch mostly has, is whole short blocks.
pub(crate) const SHORT: usize = 8;

// The difference of two bytes is a byte: the larger less the smaller, with no wider lane.
#[inline(always)]
fn differences<const N: usize>(a: &[u8], b: &[u8]) -> Simd<u8, N>
    requires a_block { N ≤ length a.now }
    requires b_block { N ≤ length b.now }
    ensures { result ≡ zip2 abs_diff (take N a.now) (take N b.now) }
{
    Simd::<u8, N>::from_slice(a).abs_diff(Simd::<u8, N>::from_slice(b))
}

// A block of bytes adds up to 8,160 at most, which a lane of 16 bits holds.
#[inline(always)]
fn lane_sum<const N: usize>(lanes: Simd<u8, N>) -> u32
    requires { N ≤ LANES }
    ensures { result ≡ sum lanes.entry }
{
    u32::from(lanes.cast::<u16>().strict_reduce_sum())
}

// A block of squares adds up to 2,080,800 at most, which a lane of 32 bits holds.
#[inline(always)]
fn lane_square_sum<const N: usize>(lanes: Simd<u8, N>) -> u32
    requires { N ≤ LANES }
    ensures { result ≡ sum_by (λ lane. lane * lane) lanes.entry }
{
    let wide = lanes.cast::<u32>();
    wide.strict_mul(wide).strict_reduce_sum()
}

/// The sum of absolute differences of two blocks.
#[inline(always)]
pub(crate) fn sad_block<const N: usize>(a: &[u8], b: &[u8]) -> u32
    requires few { N ≤ LANES }
    requires a_block { N ≤ length a.now }
    requires b_block { N ≤ length b.now }
    ensures { result ≡ sum_of_absolute_differences (take N a.now) (take N b.now) }
{
    lane_sum(differences::<N>(a, b))
}

/// The sum of squared differences of two blocks.
#[inline(always)]
pub(crate) fn ssd_block<const N: usize>(a: &[u8], b: &[u8]) -> u32
    requires few { N ≤ LANES }
    requires a_block { N ≤ length a.now }
    requires b_block { N ≤ length b.now }
    ensures { result ≡ sum_of_squared_differences (take N a.now) (take N b.now) }
{
    lane_square_sum(differences::<N>(a, b))
}

/// The sum of squared differences of two blocks, over the bytes that the mask keeps.
#[inline(always)]
pub(crate) fn ssd_masked_block<const N: usize>(a: &[u8], b: &[u8], mask: &[u8]) -> u32
    requires few { N ≤ LANES }
    requires a_block { N ≤ length a.now }
    requires b_block { N ≤ length b.now }
    requires mask_block { N ≤ length mask.now }
    ensures { result ≡ masked_sum_of_squared_differences (take N a.now) (take N b.now)
        (take N mask.now) }
{
    let zero = Simd::<u8, N>::splat(0);
    let kept = Simd::<u8, N>::from_slice(mask)
        .simd_eq(zero)
        .select(zero, differences::<N>(a, b));
    lane_square_sum(kept)
}
