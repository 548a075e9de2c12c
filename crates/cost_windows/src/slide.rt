// Sums of runs of entries, in place: of each entry and those after it at equal steps.
ghost use Rattle.std.specs.Prelude.{◌≡◌, ◌≤◌, ℕ, ◌+◌, ◌*◌, length, slice_index};
ghost use Rattle.cells.specs.Places.{IsSmall, cell_count};
ghost use Rattle.boxes.specs.Sums.{sum_to};
ghost use Rattle.costs.specs.Costs.{most_of_pair};
ghost use Rattle.cost_windows.specs.Slides.{AreAtMost, IsLens, box_run, most_after_three, most_after_two};

use cells::Size;
use limits::MOST_CELLS;

// Adds to each entry all entries after it at multiples of a step.
fn add_after(buffer: &mut [u64], step: usize)
    requires step { 1 ≤ step }
    requires count { length buffer.old ≤ MOST_CELLS }
    requires small { AreAtMost most_after_two buffer.old }
    ensures sums { (j : ℕ) → slice_index buffer.new j ≡
        slice_index buffer.old j + slice_index buffer.new (j + step) }
{
    let mut j = buffer.len().saturating_sub(step);
    'entries: while j > 0 {
        j -= 1;
        buffer[j] += buffer[j + step];
    }
}

// Takes from each entry the one at a distance after it.
fn take_after(buffer: &mut [u64], distance: usize)
    requires falling { (j : ℕ) → slice_index buffer.old (j + distance) ≤ slice_index buffer.old j }
    ensures { (j : ℕ) → slice_index buffer.new j + slice_index buffer.old (j + distance) ≡
        slice_index buffer.old j }
{
    let end = buffer.len().saturating_sub(distance);
    for j in 0..end {
        buffer[j] -= buffer[j + distance];
    }
}

// Makes each entry the sum of a run of so many entries from it on, at equal steps. Past the end
// nothing is added.
fn sum_runs(buffer: &mut [u64], step: usize, len: u32)
    requires step { 1 ≤ step }
    requires step_small { step ≤ MOST_CELLS }
    requires count { length buffer.old ≤ MOST_CELLS }
    requires small { AreAtMost most_after_two buffer.old }
    ensures { (j : ℕ) → slice_index buffer.new j ≡
        sum_to len (λ t. slice_index buffer.old (j + step * t)) }
{
    if len != 1 {
        add_after(buffer, step);
        take_after(buffer, step * len as usize);
    }
}

// Makes each entry of a box, in raster order, the sum over the cells of a smaller box from it on.
pub(crate) fn sum_boxes(buffer: &mut [u64], size: Size, lens: Size)
    requires size { IsSmall size }
    requires lens { IsLens lens }
    requires count { length buffer.old ≡ cell_count size }
    requires small { AreAtMost most_of_pair buffer.old }
    ensures sums { (j : ℕ) → slice_index buffer.new j ≡ box_run size lens buffer.old j }
    ensures small { AreAtMost most_after_three buffer.new }
{
    let w = size.w as usize;
    sum_runs(buffer, 1, lens.w);
    sum_runs(buffer, w, lens.h);
    sum_runs(buffer, w * size.h as usize, lens.f);
}
