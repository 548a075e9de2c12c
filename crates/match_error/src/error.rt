// Overlap errors, and how two of them compare.
ghost use Rattle.std.specs.Prelude.{◌≡◌, ◌≤◌, ◌^◌};
ghost use Rattle.match_error.specs.Errors.{is_within};

/// How far the cells of a placement are from what is there already.
#[derive(Clone, Copy, Drop)]
pub struct Error {
    /// The sum over the filled cells of the box, and the samples of each, of the squared differences.
    pub sum: u64,
    /// How many cells of the box are filled.
    pub count: u32,
}

/// Whether the error per filled cell of another placement is at most that of the best one and `tol`
/// hundredths of it.
pub fn within(tol: u32, best: &Error, other: &Error) -> bool
    requires counts { (1 ≤ best.now.count) × (1 ≤ other.now.count) }
    requires sums { (best.now.sum ≤ 2 ^ 56) × (other.now.sum ≤ 2 ^ 56) }
    ensures { result ≡ is_within tol best.now other.now }
{
    // The counts are multiplied over to the other side, so that no error is rounded.
    let least = u128::from(other.sum) * u128::from(best.count) * 100;
    let most = u128::from(best.sum) * u128::from(other.count) * (100 + u128::from(tol));
    least <= most
}
