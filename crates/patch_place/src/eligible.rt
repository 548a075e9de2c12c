// Errors per filled cell: which is the best, and which entries of a shortlist are about as good.
ghost use Rattle.std.specs.Prelude.{◌≡◌, ◌≤◌, ◌<◌, ◌^◌, ◌++◌, [], ◌∷◌, List, All, IfSome, length};
ghost use Rattle.std.specs.List.{count_by};
ghost use Rattle.match_error.specs.declared.error.Error.{Error};
ghost use Rattle.patch_place.specs.BoxErrors.{IsLow};
ghost use Rattle.patch_place.specs.Tables.{IsBestOf, IsFilledLow, IsLowEntry, IsNth, is_near};

use match_error::{Error, within};

/// A candidate that has filled cells: its error, and its index among all candidates.
#[derive(Clone, Copy, Drop)]
pub(crate) struct Entry {
    pub(crate) sum: u64,
    pub(crate) count: u32,
    pub(crate) index: u32,
}

/// The best of some errors and one more.
pub(crate) fn better(best: Option<Error>, error: &Error) -> Option<Error>
    requires best { IfSome best IsFilledLow }
    requires error { IsFilledLow error.now }
    ensures best { (errors : List Error) → IsBestOf errors best
        → IsBestOf (errors ++ error.now ∷ []) result }
    ensures low { IfSome result IsFilledLow }
{
    let Some(other) = best else {
        return Some(*error);
    };
    // Errors are compared per filled cell.
    let here = u128::from(error.sum) * u128::from(other.count);
    let there = u128::from(other.sum) * u128::from(error.count);
    if here < there {
        return Some(*error);
    }
    best
}

// Whether an entry is about as good as the best.
fn is_near(tol: u32, best: &Error, entry: &Entry) -> bool
    requires filled { 1 ≤ best.now.count }
    requires best { IsLow best.now }
    requires entry { IsLowEntry entry.now }
    ensures { result ≡ is_near tol best.now entry.now }
{
    let &Entry { sum, count, .. } = entry;
    count > 0 && within(tol, best, &Error { sum, count })
}

/// How many of some entries are about as good as the best.
pub(crate) fn near_count(entries: &[Entry], tol: u32, best: &Error) -> u32
    requires few { length entries.now < 2 ^ 32 }
    requires low { All IsLowEntry entries.now }
    requires filled { 1 ≤ best.now.count }
    requires best { IsLow best.now }
    ensures { result ≡ count_by (is_near tol best.now) entries.now }
{
    let mut n = 0;
    'entries: for entry in entries {
        if is_near(tol, best, entry) {
            n += 1;
        }
    }
    n
}

/// One of them, counted among them from 0.
pub(crate) fn nth_near(entries: &[Entry], tol: u32, best: &Error, nth: u32) -> Entry
    requires few { length entries.now < 2 ^ 32 }
    requires low { All IsLowEntry entries.now }
    requires filled { 1 ≤ best.now.count }
    requires best { IsLow best.now }
    requires below { nth < count_by (is_near tol best.now) entries.now }
    ensures { IsNth (is_near tol best.now) entries.now nth result }
{
    let mut before = 0;
    'entries: for entry in entries {
        if is_near(tol, best, entry) {
            if before == nth {
                return *entry;
            }
            before += 1;
        }
    }
    unreachable!()
}
