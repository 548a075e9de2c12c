// The errors of laid parts at all offsets at once, where these cost less than one sum for each candidate.
ghost use Rattle.std.specs.Prelude.{◌≡◌, ◌≤◌, ◌<◌, ◌^◌, IfOk, IfSome, None, OnOk, length};
ghost use Rattle.cells.specs.Boxes.{HasCells, HoldsBox};
ghost use Rattle.cells.specs.Cells.{sizes_of};
ghost use Rattle.cells.specs.Places.{HasAxes};
ghost use Rattle.map_canvas.specs.Canvases.{StandsOver};
ghost use Rattle.map_canvas.specs.Choices.{Fits};
ghost use Rattle.match_error.specs.Errors.{error_sum};
ghost use Rattle.offset_errors.specs.Errors.{AreErrors, IsEnough};

use crate::reach::Around;
use boxes::{count_of, has_cells};
use cells::{At, Box3, Size, Volume};
use map_canvas::{Canvas, Placement};
use offset_errors::{Layout, OffsetErrors};
use patch_picks::{frames_before, part_after, parts_of, place_count};
use std::alloc::{AllocError, Global};

// How many squares of single sums a number takes on each level of a transform, as measured.
const SQUARES_A_LEVEL: u64 = 80;

// Single sums are tried first, as many as take the transform's squares over this.
const TRIED: u64 = 8;

/// The errors of the part of the sample whose candidates come next, once they are summed at all offsets.
#[derive(Drop)]
pub(crate) struct PartErrors {
    // how many parts come before it
    part: u32,
    errors: Option<OffsetErrors>,
    // how many squares the transform is worth; the greatest number where there is none
    worth: u64,
    // how many squares single sums took so far, by an estimate
    taken: u64,
    // about how many candidates of the part are left
    left: u64,
}

// The first half of a part; of an odd number of cells, with the middle.
fn first_half(part: Size) -> Size
    requires { HasAxes part }
{
    Size {
        w: (part.w + 1) / 2,
        h: (part.h + 1) / 2,
        f: (part.f + 1) / 2,
    }
}

// How many cells the box has up to the one that comes to the first half of each candidate.
fn lead_of(around: &Around) -> Size {
    let corner = around.rect.corner;
    let q = around.q;
    Size {
        w: count_of(q.x)
            .saturating_sub(count_of(corner.x))
            .saturating_add(1),
        h: count_of(q.y)
            .saturating_sub(count_of(corner.y))
            .saturating_add(1),
        f: count_of(q.f)
            .saturating_sub(count_of(corner.f))
            .saturating_add(1),
    }
}

// How many of s cells of a part come to a box of b at most, where the part begins at the last of the box's
// first `lead` cells or less than `span` cells before.
fn met_along(b: u32, s: u32, lead: u32, span: u32) -> u32
    requires { 1 ≤ s }
    ensures { (1 ≤ result) × (result ≤ s) }
{
    b.saturating_sub(lead).saturating_add(span).max(1).min(s)
}

// The first cells of a part: all that come to the box.
fn met_part(around: &Around, part: Size) -> Size
    requires { HasAxes part }
    ensures axes { HasAxes result }
    ensures within { (result.w ≤ part.w) × (result.h ≤ part.h) × (result.f ≤ part.f) }
{
    let rect = around.rect.size;
    let lead = lead_of(around);
    let span = first_half(part);
    Size {
        w: met_along(rect.w, part.w, lead.w, span.w),
        h: met_along(rect.h, part.h, lead.h, span.h),
        f: met_along(rect.f, part.f, lead.f, span.f),
    }
}

// How the box and the first cells of a part are laid out, where a cell of the part's first half comes to one
// of the box. None where the box has no cell, or no transform is large enough.
fn layout_for(around: &Around, part: Size, met: Size) -> Option<Layout>
    requires rect { HasCells around.now.rect.size → HasAxes around.now.rect.size }
    requires part { HasAxes part }
    requires met { HasAxes met }
    ensures rect { IfSome result (λ layout. HasAxes around.now.rect.size) }
    ensures enough { IfSome result (IsEnough around.now.rect.size met) }
{
    if !has_cells(around.rect.size) {
        return None;
    }
    Layout::make(around.rect.size, met, lead_of(around), first_half(part))
}

// The errors of a part laid over a box of the output; None where no transform is large enough.
fn errors_of(
    alloc: Global,
    around: &Around,
    n: u32,
    canvas: &Canvas,
    sample: &Volume,
) -> Result<Option<OffsetErrors>, AllocError>
    requires over { StandsOver canvas.now sample.now }
    requires held { HoldsBox canvas.now.map.size around.now.rect.corner around.now.rect.size }
    requires below { n < length (sizes_of sample.now) }
    ensures { IfOk result (λ errors. IfSome errors (AreErrors canvas.now.map sample.now)) }
{
    // Called for their contracts only: they show the prover that these are a map and a volume.
    let map = canvas.map();
    let _sample = sample.samples();
    let rect = &around.rect;
    let sizes = parts_of(sample);
    let size = part_after(&sizes, n);
    let met = met_part(around, size);
    let Some(layout) = layout_for(around, size, met) else {
        return Ok(None);
    };
    let f = frames_before(&sizes, n) as i32;
    let part = Box3 {
        corner: At { x: 0, y: 0, f },
        size: met,
    };
    let errors = OffsetErrors::gather(alloc, map, sample, rect, &part, &layout)?;
    Ok(Some(errors))
}

// How many parts come before the one after this, where a placement is from that one or a later one.
fn next_part(sample: &Volume, part: u32, placement: &Placement) -> Option<u32>
    requires { part < length (sizes_of sample.now) }
    ensures { IfSome result (λ n. n < length (sizes_of sample.now)) }
{
    let sizes = parts_of(sample);
    let next = part + 1;
    if next < sizes.len() && frames_before(&sizes, next) <= count_of(placement.from.f) {
        Some(next)
    } else {
        None
    }
}

impl PartErrors {
    /// Those of the part after the first n, none yet.
    pub(crate) fn begin(around: &Around, n: u32, canvas: &Canvas, sample: &Volume) -> PartErrors
        requires held { HoldsBox canvas.now.map.size around.now.rect.corner around.now.rect.size }
        requires below { n < length (sizes_of sample.now) }
        ensures errors { result.errors ≡ None }
        ensures part { result.part ≡ n }
    {
        // Called for its contract only: it shows the prover that the map's size is small.
        let _map = canvas.map();
        let size = part_after(&parts_of(sample), n);
        let worth = match layout_for(around, size, met_part(around, size)) {
            Some(layout) => (SQUARES_A_LEVEL * u64::from(layout.levels())) << layout.levels(),
            None => u64::MAX,
        };
        PartErrors {
            part: n,
            errors: None,
            worth,
            taken: 0,
            // of a picture; a clip has half as many
            left: u64::from(place_count(size)) / 4,
        }
    }

    /// Whether the candidates that are left may take more than the transform, each over so many cells.
    pub(crate) fn may_pay(&self, cells: u64) -> bool {
        self.errors.is_none() && self.left.saturating_mul(cells) > self.worth
    }

    /// Comes to a candidate, whose single sum would take so many squares; 0 where that doesn't count. It goes
    /// on to the next part where the candidate is from a later one.
    pub(crate) fn come_to(
        &mut self,
        alloc: Global,
        around: &Around,
        squares: u64,
        canvas: &Canvas,
        sample: &Volume,
        placement: &Placement,
    ) -> Result<(), AllocError>
        requires over { StandsOver canvas.now sample.now }
        requires held { HoldsBox canvas.now.map.size around.now.rect.corner around.now.rect.size }
        requires errors { IfSome self.old.errors (AreErrors canvas.now.map sample.now) }
        requires part { self.old.part < length (sizes_of sample.now) }
        ensures sums { OnOk result (IfSome self.new.errors (AreErrors canvas.now.map sample.now)) }
        ensures part { OnOk result (self.new.part < length (sizes_of sample.now)) }
    {
        if let Some(next) = next_part(sample, self.part, placement) {
            *self = PartErrors::begin(around, next, canvas, sample);
        }
        if squares == 0 {
            return Ok(());
        }
        self.taken = self.taken.saturating_add(squares);
        self.left = self.left.saturating_sub(1);
        // The errors at all offsets are due where single sums were tried, and the rest of them would take more.
        if self.taken > self.worth / TRIED && self.may_pay(squares) {
            self.errors = errors_of(alloc, around, self.part, canvas, sample)?;
        }
        Ok(())
    }

    /// The error sum of a placement, where it is known.
    pub(crate) fn sum(&self, canvas: &Canvas, sample: &Volume, placement: &Placement) -> Option<u64>
        requires errors { IfSome self.now.errors (AreErrors canvas.now.map sample.now) }
        requires over { StandsOver canvas.now sample.now }
        requires fits { Fits canvas.now.map.size sample.now placement.now }
        ensures sum { IfSome result (λ n. n ≡ error_sum canvas.now.map sample.now placement.now) }
        ensures small { IfSome result (λ sum. sum ≤ 2 ^ 48) }
    {
        // Called for their contracts only: they show the prover that these are a map and a volume.
        let _map = canvas.map();
        let _sample = sample.samples();
        match &self.errors {
            Some(errors) => errors.sum(placement),
            None => None,
        }
    }
}
