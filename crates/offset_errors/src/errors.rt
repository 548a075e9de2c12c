// The overlap errors of a part of the sample at all its offsets.
ghost use Rattle.std.specs.Prelude.{◌≡◌, ◌≤◌, ◌<◌, ◌+◌, ◌*◌, ◌^◌, ◌+ℤ◌, ◌⊎◌, IfOk, IfSome, IsTrue, length, pos};
ghost use Rattle.boxes.specs.Raster.{largest};
ghost use Rattle.cells.specs.Boxes.{HoldsBox};
ghost use Rattle.cells.specs.Cells.{Cells, Holds};
ghost use Rattle.cells.specs.Places.{HasAxes, plus, spot};
ghost use Rattle.cyclic_products.specs.Products.{cyclic};
ghost use Rattle.cyclic_products.specs.Splits.{AreImages};
ghost use Rattle.cyclic_products.specs.declared.residues.TheConstants.{LAST};
ghost use Rattle.map_canvas.specs.Choices.{Fits};
ghost use Rattle.map_canvas.specs.Maps.{IsOver, SourceMap};
ghost use Rattle.match_error.specs.Errors.{error_sum};
ghost use Rattle.offset_errors.specs.Errors.{AreErrors, IsEnough, IsOffset, listed_product, listed_sums, sum_index};
ghost use Rattle.offset_errors.specs.Offsets.{IsInSample};

use crate::Layout;
use crate::layout::index_at;
use crate::lists::{box_values, part_values};
use boxes::Counts;
use cells::{At, Box3, Volume};
use cyclic_products::Transform;
use limits::GREATEST_AXIS;
use map_canvas::{Map, Placement};
use std::alloc::{AllocError, Global};
use std::marker::Model;

/// The overlap errors of a part of the sample, wherever it is laid over a box of the output.
#[derive(Drop)]
pub struct OffsetErrors {
    rect: Box3,
    part: Box3,
    layout: Layout,
    // at all offsets, in the order of a cyclic product
    sums: Vec<u64>,
}

impl Model for OffsetErrors {
    ghost use Rattle.cells.specs.Places.{HasAxes};
    ghost use Rattle.offset_errors.specs.Errors.{IsPadded, OffsetSums};

    ghost Value = { OffsetSums };

    ghost view = { λ a. record {
      rect = a.rect;
      part = a.part;
      layout = a.layout;
      sums = a.sums.items;
    } };

    ghost invariant = { λ a. HasAxes a.rect.size × HasAxes a.part.size × HasAxes a.layout.lead
        × IsPadded a.layout.pad };
}

// Puts the images of the cyclic product of two lists in the place of the first. Of the second its images
// are left.
fn multiply(transform: &Transform, f: &mut [u64], g: &mut [u64])
    requires f { length f.old ≡ 2 ^ transform.now.levels }
    requires g { length g.old ≡ 2 ^ transform.now.levels }
    ensures { AreImages LAST transform.now (cyclic f.old g.old) f.new }
{
    transform.split(f);
    transform.split(g);
    transform.multiply(f, g);
}

// The images of the product of the lists with number j.
fn product(
    alloc: Global,
    transform: &Transform,
    map: &Map,
    sample: &Volume,
    rect: &Box3,
    part: &Box3,
    layout: &Layout,
    j: u32,
) -> Result<Vec<u64>, AllocError>
    requires over { IsOver map.now sample.now }
    requires axes { HasAxes rect.now.size }
    requires inside { HoldsBox largest rect.now.corner rect.now.size }
    requires part { IsInSample sample.now part.now }
    requires levels { transform.now.levels ≡ layout.now.levels }
    requires enough { IsEnough rect.now.size part.now.size layout.now }
    requires below { j < sample.now.k + 2 }
    ensures size { IfOk result (λ images. length images.items ≡ 2 ^ layout.now.levels) }
    ensures images { IfOk result (λ images. AreImages LAST transform.now
        (listed_product layout.now map.now sample.now rect.now part.now j) images.items) }
{
    let n = 1 << layout.levels;
    let mut images = box_values(alloc, map, sample, rect, layout.pad, j, n)?;
    let mut others = part_values(alloc, sample, layout.lead, part, layout.pad, j, n)?;
    multiply(transform, &mut images, &mut others);
    Ok(images)
}

// The images of the sums of the products of all numbers.
fn summed_images(
    alloc: Global,
    transform: &Transform,
    map: &Map,
    sample: &Volume,
    rect: &Box3,
    part: &Box3,
    layout: &Layout,
) -> Result<Vec<u64>, AllocError>
    requires over { IsOver map.now sample.now }
    requires axes { HasAxes rect.now.size }
    requires inside { HoldsBox largest rect.now.corner rect.now.size }
    requires part { IsInSample sample.now part.now }
    requires levels { transform.now.levels ≡ layout.now.levels }
    requires enough { IsEnough rect.now.size part.now.size layout.now }
    ensures size { IfOk result (λ images. length images.items ≡ 2 ^ layout.now.levels) }
    ensures images { IfOk result (λ images. AreImages LAST transform.now
        (listed_sums layout.now map.now sample.now rect.now part.now (sample.now.k + 1))
        images.items) }
{
    let last = sample.samples() + 1;
    let mut images = product(alloc, transform, map, sample, rect, part, layout, 0)?;
    'numbers: for j in 0..last {
        let next = product(alloc, transform, map, sample, rect, part, layout, j + 1)?;
        transform.add(&mut images, &next);
    }
    Ok(images)
}

// How many cells after another a place comes along an axis; None where it comes before it.
fn count_after(place: i32, start: i32) -> Option<u32>
    ensures { IfSome result (λ count. place ≡ start +ℤ pos count) }
{
    let count = i64::from(place) - i64::from(start);
    if count < 0 { None } else { Some(count as u32) }
}

// How many cells after another a place comes on each axis; None where it comes before it on one.
fn counts_after(place: At, start: At) -> Option<Counts>
    ensures { IfSome result (λ counts. place ≡ plus start (spot counts.x counts.y counts.f)) }
{
    Some(Counts {
        x: count_after(place.x, start.x)?,
        y: count_after(place.y, start.y)?,
        f: count_after(place.f, start.f)?,
    })
}

// Whether one of two numbers is what it is compared with.
fn is_either(a: u32, b: u32, c: u32, d: u32) -> bool
    ensures { IsTrue result → (a ≡ b) ⊎ (c ≡ d) }
{
    a == b || c == d
}

// The offset along one axis of w cells of a part of s to a box of b, where a placement of len cells begins at
// cell t of the part and cell a of the box. None where it leaves out a cell that both have there, or where a
// cell of the box would meet one of the part by going round.
fn offset_on(w: u32, b: u32, lead: u32, s: u32, a: u32, t: u32, len: u32) -> Option<u32>
    requires rect { b ≤ GREATEST_AXIS }
    requires part { (lead ≤ GREATEST_AXIS) × (s ≤ GREATEST_AXIS) }
    requires axis { w ≤ 2 * GREATEST_AXIS }
    ensures { IfSome result (IsOffset w b lead s a t len) }
{
    if len == 0 || len > b || a > b - len || len > s || t > s - len {
        return None;
    }
    if lead + t <= a {
        return None;
    }
    let d = lead + t - a - 1;
    let begins = is_either(a, 0, t, 0);
    let ends = is_either(a + len, b, t + len, s);
    if begins && ends && d < w && b + d < w + lead {
        Some(d)
    } else {
        None
    }
}

// Which of n sums is that at the offset d.
fn sum_index(n: u64, d: u64) -> u64
    requires { 1 ≤ n }
    ensures { result ≡ sum_index n d }
{
    if d == 0 { n - 1 } else { d - 1 }
}

impl OffsetErrors {
    /// The overlap errors of the part `part` of the sample at all offsets of a layout to the box `rect` of
    /// the output. It takes 32 bytes for each number of its transform, of which 8 are kept; the one error is
    /// out of memory.
    pub fn gather(
        alloc: Global,
        map: &Map,
        sample: &Volume,
        rect: &Box3,
        part: &Box3,
        layout: &Layout,
    ) -> Result<OffsetErrors, AllocError>
        requires over { IsOver map.now sample.now }
        requires rect { HasAxes rect.now.size }
        requires inside { HoldsBox largest rect.now.corner rect.now.size }
        requires part { HasAxes part.now.size }
        requires held { Holds sample.now part.now.corner part.now.size }
        requires enough { IsEnough rect.now.size part.now.size layout.now }
        ensures { IfOk result (AreErrors map.now sample.now) }
    {
        // Called for their contracts only: they show the prover that these are a map and a volume.
        let _size = map.size();
        let _samples = sample.samples();
        let transform = Transform::make(alloc, layout.levels)?;
        let mut sums = summed_images(alloc, &transform, map, sample, rect, part, layout)?;
        transform.join(&mut sums);
        Ok(OffsetErrors {
            rect: *rect,
            part: *part,
            layout: *layout,
            sums,
        })
    }

    /// The error sum of a placement. None where its box leaves out a cell that the part and the box share, or
    /// where its offset is none of the layout's.
    pub fn sum(&self, placement: &Placement) -> Option<u64>
        ensures { (m : SourceMap) (sample : Cells) → AreErrors m sample self.now
            → Fits m.size sample placement.now
            → IfSome result (λ sum. sum ≡ error_sum m sample placement.now) }
    {
        let rect = &self.rect;
        let part = &self.part;
        let size = placement.rect.size;
        let a = counts_after(placement.rect.corner, rect.corner)?;
        let t = counts_after(placement.from, part.corner)?;
        let pad = self.layout.pad;
        let lead = self.layout.lead;
        let x = offset_on(pad.w, rect.size.w, lead.w, part.size.w, a.x, t.x, size.w)?;
        let y = offset_on(pad.h, rect.size.h, lead.h, part.size.h, a.y, t.y, size.h)?;
        let f = offset_on(pad.f, rect.size.f, lead.f, part.size.f, a.f, t.f, size.f)?;
        let n = self.sums.len() as u64;
        if n == 0 {
            return None;
        }
        let i = sum_index(n, index_at(pad, x, y, f));
        match self.sums.get(i as usize) {
            Some(sum) => Some(*sum),
            None => None,
        }
    }
}
