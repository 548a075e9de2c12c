// The least error of a few likely candidates of a box.
ghost use Rattle.std.specs.Prelude.{◌≤◌, map, All, Contains, IfSome};
ghost use Rattle.cells.specs.Boxes.{HasCells};
ghost use Rattle.patch_place.specs.BoxErrors.{AreCounted, box_list};
ghost use Rattle.patch_place.specs.Tables.{IsFilledLow};

use crate::BoxErrors;
use cells::{Box3, Volume};
use map_canvas::Placement;
use match_error::Error;

/// The least error of a few likely candidates of a box. None where none of these is a candidate.
pub(crate) fn least_hint<E: BoxErrors>(
    errors: &E,
    rect: &Box3,
    sample: &Volume,
    count: u32,
) -> Option<Error>
    requires ready { E.IsReady errors.now }
    requires cells { HasCells rect.now.size }
    requires asked { All (E.MayAsk errors.now) (box_list rect.now sample.now) }
    requires counted { AreCounted (E.error errors.now) (E.MayAsk errors.now) count }
    requires filled { 1 ≤ count }
    ensures listed { IfSome result
        (Contains (map (E.error errors.now) (box_list rect.now sample.now))) }
    ensures low { IfSome result IsFilledLow }
{
    let mut known = None;
    let mut limit = u64::MAX;
    'hints: for i in 0..errors.hints() {
        let Some(from) = errors.hint(i) else {
            continue 'hints;
        };
        let there = Box3 {
            corner: from,
            size: rect.size,
        };
        if !sample.holds(&there) {
            continue 'hints;
        }
        let placement = Placement { rect: *rect, from };
        let Some(sum) = errors.sum_within(&placement, limit) else {
            continue 'hints;
        };
        limit = sum;
        known = Some(Error { sum, count });
    }
    known
}
