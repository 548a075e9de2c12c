// Numbers modulo the prime 2^64 - 2^32 + 1. Any `u64` stands for what it is modulo the prime, so that results
// need not be brought below it at each step.
ghost use Rattle.std.specs.Prelude.{◌≡◌, ◌≤◌, ◌+◌, ◌*◌, ◌%◌};

/// The prime that products are taken modulo: 2^64 - 2^32 + 1.
pub const PRIME: u64 = 0xffff_ffff_0000_0001;

/// The greatest number below the prime, which is -1 modulo it.
pub const LAST: u64 = 0xffff_ffff_0000_0000;

// A half of 1.
pub(crate) const HALF: u64 = 0x7fff_ffff_8000_0001;

// What 2^64 is modulo the prime: 2^32 - 1.
const CARRY: u64 = 0xffff_ffff;

// The number below the prime that x stands for.
pub(crate) fn reduced(x: u64) -> u64
    ensures { result ≡ x % PRIME }
{
    if x < PRIME { x } else { x - PRIME }
}

// x + y. As y is no greater than the prime, what a carry counts for fits in the sum.
pub(crate) fn plus(x: u64, y: u64) -> u64
    requires { y ≤ PRIME }
    ensures { result % PRIME ≡ (x + y) % PRIME }
{
    let sum = x.wrapping_add(y);
    if sum < x { sum + CARRY } else { sum }
}

// x - y.
pub(crate) fn minus(x: u64, y: u64) -> u64
    requires { y ≤ PRIME }
    ensures { result % PRIME ≡ (x + LAST * y) % PRIME }
{
    if x < y { x + (PRIME - y) } else { x - y }
}

// A half of x. If x is odd, it is that of x + PRIME.
pub(crate) fn half(x: u64) -> u64
    ensures { result % PRIME ≡ (HALF * x) % PRIME }
{
    if x % 2 == 0 { x / 2 } else { x / 2 + HALF }
}

// The product of two numbers. As 2^64 is 2^32 - 1 modulo the prime, and 2^96 is -1, the parts of its upper half
// count so.
pub(crate) fn times(x: u64, y: u64) -> u64
    ensures { result % PRIME ≡ (x * y) % PRIME }
{
    let product = u128::from(x) * u128::from(y);
    let low = (product % (1 << 64)) as u64;
    let high = (product / (1 << 64)) as u64;
    let middle = high % (1 << 32);
    let top = high / (1 << 32);
    plus(minus(low, top), middle * CARRY)
}
