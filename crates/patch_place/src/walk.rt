// The walk over the places that a box may be laid from.
ghost use Rattle.std.specs.Prelude.{◌≡◌, ◌≤◌, ◌<◌, ◌+◌, ◌^◌, map, All, IfOk, OnOk, length};
ghost use Rattle.cells.specs.Boxes.{HasCells};
ghost use Rattle.patch_place.specs.BoxErrors.{AreCounted, box_list};
ghost use Rattle.patch_picks.specs.Counts.{AreVolumeParts};
ghost use Rattle.patch_picks.specs.Lists.{fit_list, lists_from};
ghost use Rattle.patch_place.specs.Tables.{IsBoxDone, IsLimitOf, IsMore, IsSeenTo, IsShortlistOf, IsSoundShortlist};

use crate::BoxErrors;
use crate::box_list::box_count;
use crate::hints::least_hint;
use crate::shortlist::Shortlist;
use crate::skips::Skips;
use crate::spots::Spot;
use cells::{Box3, Sizes, Volume};
use map_canvas::Placement;
use match_error::Error;
use patch_picks::{frames_before, part_after, parts_of, place_count, room};
use std::alloc::{AllocError, Global};

impl Shortlist {
    // One more candidate of a box, whose sum is left unfinished where it passes the limit. Gives the limit
    // of the next one.
    fn add_one<E: BoxErrors>(
        &mut self,
        errors: &E,
        placement: &Placement,
        count: u32,
        limit: u64,
    ) -> Result<u64, AllocError>
        requires ready { E.IsReady errors.now }
        requires asked { E.MayAsk errors.now placement.now }
        requires counted { AreCounted (E.error errors.now) (E.MayAsk errors.now) count }
        requires filled { 1 ≤ count }
        requires limit { IsLimitOf self.old count limit }
        requires few { self.old.seen + 1 < 2 ^ 32 }
        requires sound { IsSoundShortlist self.old }
        ensures more { OnOk result (IsMore self.old self.new
            (E.error errors.now placement.now)) }
        ensures limit { IfOk result (IsLimitOf self.new count) }
        ensures sound { OnOk result (IsSoundShortlist self.new) }
        ensures tol { self.new.tol ≡ self.old.tol }
        ensures known { self.new.known ≡ self.old.known }
        ensures seen { OnOk result (self.new.seen ≡ self.old.seen + 1) }
    {
        match errors.sum_within(placement, limit) {
            Some(sum) => {
                self.keep(&Error { sum, count })?;
                Ok(self.limit_for(count))
            }
            None => {
                self.skip();
                Ok(limit)
            }
        }
    }

    // The candidates of a box from the part after the first n.
    fn add_part<E: BoxErrors>(
        &mut self,
        errors: &E,
        rect: &Box3,
        count: u32,
        sizes: &Sizes,
        n: u32,
    ) -> Result<(), AllocError>
        requires ready { E.IsReady errors.now }
        requires parts { AreVolumeParts sizes.now }
        requires below { n < length sizes.now }
        requires asked { All (E.MayAsk errors.now)
            (lists_from (fit_list rect.now) sizes.now 1 sizes.now) }
        requires counted { AreCounted (E.error errors.now) (E.MayAsk errors.now) count }
        requires filled { 1 ≤ count }
        requires sound { IsSoundShortlist self.old }
        requires so_far { IsBoxDone (E.error errors.now) rect.now sizes.now n self.old }
        requires seen { IsSeenTo rect.now sizes.now n self.old.seen }
        ensures done { OnOk result
            (IsBoxDone (E.error errors.now) rect.now sizes.now (n + 1) self.new) }
        ensures seen { OnOk result (IsSeenTo rect.now sizes.now (n + 1) self.new.seen) }
        ensures sound { OnOk result (IsSoundShortlist self.new) }
        ensures tol { self.new.tol ≡ self.old.tol }
        ensures known { self.new.known ≡ self.old.known }
    {
        let free = room(part_after(sizes, n), rect.size);
        let mut spot = Spot {
            x: 0,
            y: 0,
            f: frames_before(sizes, n),
        };
        let mut limit = self.limit_for(count);
        let mut skips = Skips::none();
        let all = place_count(free);
        let mut done = 0;
        'entries: while done < all {
            let placement = Placement {
                rect: *rect,
                from: spot.place(),
            };
            skips.go_to(errors, &placement, n, limit);
            let gone = skips.count_from(placement.from, limit).min(free.w - spot.x);
            if gone > 0 {
                self.pass(gone);
                spot = spot.after(free, gone);
                done += gone;
                continue 'entries;
            }
            limit = self.add_one(errors, &placement, count, limit)?;
            spot = spot.after(free, 1);
            done += 1;
        }
        Ok(())
    }
}

/// The shortlist of one box.
pub(crate) fn box_shortlist<E: BoxErrors>(
    alloc: Global,
    errors: &E,
    rect: &Box3,
    tol: u32,
    sample: &Volume,
) -> Result<Shortlist, AllocError>
    requires ready { E.IsReady errors.now }
    requires cells { HasCells rect.now.size }
    requires asked { All (E.MayAsk errors.now) (box_list rect.now sample.now) }
    ensures { IfOk result (IsShortlistOf tol
        (map (E.error errors.now) (box_list rect.now sample.now))) }
{
    let count = errors.count();
    if count == 0 {
        return Ok(Shortlist::begun(alloc, tol, None, box_count(rect, sample)));
    }
    let sizes = parts_of(sample);
    let known = least_hint(errors, rect, sample, count);
    let mut short = Shortlist::begun(alloc, tol, known, 0);
    'parts: for n in 0..sizes.len() {
        short.add_part(errors, rect, count, &sizes, n)?;
    }
    Ok(short)
}
