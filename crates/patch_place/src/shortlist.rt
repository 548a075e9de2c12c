// Shortlists: of many candidates those that may be eligible.
ghost use Rattle.std.specs.Prelude.{◌≡◌, ◌≤◌, ◌<◌, ◌+◌, ◌^◌, All, IfSome, List, None, OnOk, length};
ghost use Rattle.match_error.specs.declared.error.Error.{Error};
ghost use Rattle.patch_picks.specs.Steps.{after_draw};
ghost use Rattle.patch_place.specs.BoxErrors.{IsLow};
ghost use Rattle.patch_place.specs.Tables.{HasTable, IsFilledLow, IsLimitOf, IsMore, IsPast, IsPickOf, IsShortOf, IsShortlist, IsSoundShortlist, IsSumLimit, IsUnfilled};

use crate::eligible::{Entry, better, near_count, nth_near};
use match_error::Error;
use patch_picks::Draws;
use std::alloc::{AllocError, Global};

/// The candidates, of those seen so far, that may be eligible: one whose error is past the tolerance
/// of the best so far, or of a candidate whose error is known, never is, since the best only falls.
#[derive(Drop)]
pub(crate) struct Shortlist {
    // in their order, with their errors
    near: Vec<Entry>,
    // the best error so far; None where no candidate has a filled cell
    best: Option<Error>,
    // the error of one of the candidates, where it is known before they are seen
    known: Option<Error>,
    // how many candidates were seen
    seen: u32,
    tol: u32,
}

// The greatest sum over so many cells that is within the tolerance of the best.
fn limit_of(tol: u32, best: &Error, count: u32) -> u64
    requires filled { 1 ≤ best.now.count }
    requires low { IsLow best.now }
    ensures { IsSumLimit tol count result best.now }
{
    let most = u128::from(best.sum) * u128::from(count) * (100 + u128::from(tol));
    let limit = most / (u128::from(best.count) * 100);
    limit.min(u128::from(u64::MAX)) as u64
}

// The same of an error that may be there; any sum where it isn't.
fn limit_by(tol: u32, best: &Option<Error>, count: u32) -> u64
    requires low { IfSome best.now IsFilledLow }
    ensures sum { IfSome best.now (IsSumLimit tol count result) }
    ensures none { best.now ≡ None → 2 ^ 56 ≤ result }
{
    match best {
        Some(best) => limit_of(tol, best, count),
        None => u64::MAX,
    }
}

impl Shortlist {
    /// So many candidates, none of which has a filled cell. The error of one of those that come may be known.
    pub(crate) fn begun(alloc: Global, tol: u32, known: Option<Error>, seen: u32) -> Shortlist
        requires { IfSome known IsFilledLow }
        ensures short { (errors : List Error) → All IsUnfilled errors → length errors ≡ seen
            → IsShortlist result errors }
        ensures sound { IsSoundShortlist result }
        ensures tol { result.tol ≡ tol }
        ensures known { result.known ≡ known }
        ensures seen { result.seen ≡ seen }
    {
        Shortlist {
            near: Vec::new(alloc),
            best: None,
            known,
            seen,
            tol,
        }
    }

    /// One more candidate, which is never eligible.
    pub(crate) fn skip(&mut self)
        requires few { self.old.seen + 1 < 2 ^ 32 }
        requires sound { IsSoundShortlist self.old }
        ensures more { (error : Error) → IsPast self.old error → IsMore self.old self.new error }
        ensures sound { IsSoundShortlist self.new }
        ensures best { self.new.best ≡ self.old.best }
        ensures tol { self.new.tol ≡ self.old.tol }
        ensures known { self.new.known ≡ self.old.known }
        ensures seen { self.new.seen ≡ self.old.seen + 1 }
    {
        self.seen += 1;
    }

    /// So many more candidates, which are never eligible.
    pub(crate) fn pass(&mut self, n: u32)
        requires few { self.old.seen + n < 2 ^ 32 }
        requires sound { IsSoundShortlist self.old }
        ensures passed { self.new ≡ record self.old { seen = self.old.seen + n } }
        ensures sound { IsSoundShortlist self.new }
    {
        self.seen += n;
    }

    /// One more candidate, which has filled cells.
    pub(crate) fn keep(&mut self, error: &Error) -> Result<(), AllocError>
        requires few { self.old.seen + 1 < 2 ^ 32 }
        requires sound { IsSoundShortlist self.old }
        requires filled { 1 ≤ error.now.count }
        requires low { IsLow error.now }
        ensures more { OnOk result (IsMore self.old self.new error.now) }
        ensures sound { OnOk result (IsSoundShortlist self.new) }
        ensures tol { self.new.tol ≡ self.old.tol }
        ensures known { self.new.known ≡ self.old.known }
        ensures seen { OnOk result (self.new.seen ≡ self.old.seen + 1) }
    {
        self.near.push(Entry {
            sum: error.sum,
            count: error.count,
            index: self.seen,
        })?;
        self.best = better(self.best, error);
        self.seen += 1;
        Ok(())
    }

    /// What the sum over so many filled cells may be at most: a candidate with more is never eligible.
    pub(crate) fn limit_for(&self, count: u32) -> u64
        requires some { 1 ≤ count }
        requires sound { IsSoundShortlist self.now }
        ensures { IsLimitOf self.now count result }
    {
        let by_best = limit_by(self.tol, &self.best, count);
        let by_known = limit_by(self.tol, &self.known, count);
        if by_best < by_known {
            by_best
        } else {
            by_known
        }
    }

    /// The index that the next draw picks.
    pub(crate) fn picked(&self, draws: &mut Draws) -> u32
        requires some { 0 < self.now.seen }
        requires sound { IsSoundShortlist self.now }
        requires table { HasTable self.now }
        ensures picked { (table : List Error) → IsShortOf self.now table
            → IsPickOf self.now.tol table draws.old result }
        ensures next { draws.new ≡ after_draw draws.old }
    {
        match &self.best {
            None => draws.below(self.seen),
            Some(best) => {
                let nth = draws.below(near_count(&self.near, self.tol, best));
                nth_near(&self.near, self.tol, best, nth).index
            }
        }
    }
}
