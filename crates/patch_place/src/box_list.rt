// The placements of one box over all parts of a sample, by index.
ghost use Rattle.std.specs.Prelude.{◌≡◌, ◌<◌, Some, length, slice_get};
ghost use Rattle.patch_place.specs.BoxErrors.{box_list};

use cells::{Box3, Volume};
use map_canvas::Placement;
use patch_picks::{Candidates, part_after, parts_of};

// How many placements a box has over all parts of a sample.
pub(crate) fn box_count(rect: &Box3, sample: &Volume) -> u32
    ensures { result ≡ length (box_list rect.now sample.now) }
{
    let sizes = parts_of(sample);
    // They are as many in an output of any size.
    let output = part_after(&sizes, 0);
    Candidates::Fits { rect: *rect }.count(output, sample)
}

// The one at an index.
pub(crate) fn box_entry(rect: &Box3, sample: &Volume, i: u32) -> Placement
    requires { i < length (box_list rect.now sample.now) }
    ensures { slice_get (box_list rect.now sample.now) i ≡ Some result }
{
    let sizes = parts_of(sample);
    // It is the same in an output of any size.
    let output = part_after(&sizes, 0);
    Candidates::Fits { rect: *rect }.entry(i, output, sample)
}
