// Lists of placements, walked by index.
ghost use Rattle.std.specs.Prelude.{◌≡◌, ◌≤◌, ◌<◌, ◌+◌, ◌^◌, Some, length, slice_get};
ghost use Rattle.cells.specs.Cells.{sizes_of};
ghost use Rattle.cells.specs.Places.{IsNearAxis, IsSmall, cell_count, place_of};
ghost use Rattle.cells.specs.SizeLists.{frames_to_part};
ghost use Rattle.patch_picks.specs.Lists.{IsWithin, from_part, laid, listed, placed, room};
ghost use Rattle.patch_picks.specs.Counts.{AreVolumeParts, FitsCount, IsBelowSize, IsOverParts, all_entries, entries_in, steps_in};

use boxes::{Span, count_of, laid_on};
use cells::{At, Box3, Size, Sizes, Volume};
use map_canvas::Placement;

/// Placements that may be taken, in an order; no list of them is kept.
#[derive(Clone, Copy, Drop)]
pub enum Candidates {
    /// This one alone.
    One(Placement),
    /// A whole part of the sample, laid so that a cell of its first half on each axis comes to q: one for
    /// each such cell, in raster order, for part 1, part 2 and so on.
    Laid {
        /// The output cell that each of them covers.
        q: At,
    },
    /// One box, filled from each place of a part where it fits, in raster order, for part 1, part 2 and
    /// so on.
    Fits {
        /// The box of the output.
        rect: Box3,
    },
}

/// How many places a size has; an axis may be 0.
pub fn place_count(size: Size) -> u32
    requires { FitsCount size }
    ensures { result ≡ cell_count size }
{
    size.w * (size.h * size.f)
}

// The place at an index in raster order.
fn place_in(size: Size, i: u32) -> At
    requires fits { FitsCount size }
    requires below { i < cell_count size }
    ensures place { result ≡ place_of size i }
    ensures below { IsBelowSize size result }
{
    At {
        x: (i % size.w) as i32,
        y: (i / size.w % size.h) as i32,
        f: (i / size.w / size.h) as i32,
    }
}

/// How many places a box of this size may have in a part, on each axis; 0 where it is longer than the part.
pub fn room(part: Size, inner: Size) -> Size
    requires { IsSmall part }
    ensures room { result ≡ room part inner }
    ensures fits { FitsCount result }
{
    Size {
        w: (part.w + 1).saturating_sub(inner.w),
        h: (part.h + 1).saturating_sub(inner.h),
        f: (part.f + 1).saturating_sub(inner.f),
    }
}

// The placement with these spans along X, Y and F.
pub(crate) fn placed(x: Span, y: Span, f: Span) -> Placement
    requires x { (x.corner < 2 ^ 31) × (x.from < 2 ^ 31) }
    requires y { (y.corner < 2 ^ 31) × (y.from < 2 ^ 31) }
    requires f { (f.corner < 2 ^ 31) × (f.from < 2 ^ 31) }
    ensures { result ≡ placed x y f }
{
    let corner = At {
        x: x.corner as i32,
        y: y.corner as i32,
        f: f.corner as i32,
    };
    let size = Size {
        w: x.len,
        h: y.len,
        f: f.len,
    };
    let from = At {
        x: x.from as i32,
        y: y.from as i32,
        f: f.from as i32,
    };
    Placement {
        rect: Box3 { corner, size },
        from,
    }
}

// A whole part, laid so that its place c comes to q, as far as it is inside the output.
fn laid(output: Size, part: Size, q: At, c: At) -> Placement
    requires output { IsSmall output }
    requires part { IsSmall part }
    requires q { IsBelowSize output q }
    requires c { IsBelowSize part c }
    ensures laid { result ≡ laid output part q c }
    ensures near { IsNearAxis result.from.f }
{
    let x = laid_on(output.w, part.w, count_of(q.x), count_of(c.x));
    let y = laid_on(output.h, part.h, count_of(q.y), count_of(c.y));
    let f = laid_on(output.f, part.f, count_of(q.f), count_of(c.f));
    placed(x, y, f)
}

/// The sizes of the parts of a volume, at least one.
pub fn parts_of(sample: &Volume) -> Sizes
    ensures sizes { result ≡ sizes_of sample.now }
    ensures parts { AreVolumeParts result }
{
    // Called for its contract only: it shows the prover that the sample is a volume.
    let _sample = sample.samples();
    sample.sizes()
}

/// The size of the part after the first n.
pub fn part_after(sizes: &Sizes, n: u32) -> Size
    requires parts { AreVolumeParts sizes.now }
    requires below { n < length sizes.now }
    ensures size { slice_get sizes.now n ≡ Some result }
    ensures small { IsSmall result }
{
    sizes.at(n + 1)
}

/// How many frames of the joined volume the first n parts take, with the empty one after each.
pub fn frames_before(sizes: &Sizes, n: u32) -> u32
    requires parts { AreVolumeParts sizes.now }
    requires below { n < length sizes.now }
    ensures frames { result ≡ frames_to_part sizes.now n }
    ensures few { result ≤ 2 ^ 17 }
{
    let first = At { x: 0, y: 0, f: 0 };
    sizes.stock(n + 1, first).f as u32
}

// A placement from a place of the part after the first n, as one from the place of the joined volume.
fn in_stock(sizes: &Sizes, n: u32, placement: Placement) -> Placement
    requires parts { AreVolumeParts sizes.now }
    requires below { n < length sizes.now }
    requires near { IsNearAxis placement.from.f }
    ensures { result ≡ from_part sizes.now (n + 1) placement }
{
    let At { x, y, f } = placement.from;
    let f = f + frames_before(sizes, n) as i32;
    Placement {
        rect: placement.rect,
        from: At { x, y, f },
    }
}

impl Candidates {
    // The places of a part from which entries are made, as a size.
    fn steps_in(&self, part: Size) -> Size
        requires { IsSmall part }
        ensures steps { result ≡ steps_in self.now part }
        ensures fits { FitsCount result }
    {
        match self {
            Candidates::One(_) => Size { w: 1, h: 1, f: 1 },
            // The first half on each axis; of an odd number, with the middle.
            Candidates::Laid { .. } => Size {
                w: (part.w + 1) / 2,
                h: (part.h + 1) / 2,
                f: (part.f + 1) / 2,
            },
            Candidates::Fits { rect } => room(part, rect.size),
        }
    }

    // The entry of a part at an index.
    fn entry_in(&self, i: u32, output: Size, part: Size) -> Placement
        requires output { IsSmall output }
        requires part { IsSmall part }
        requires within { IsWithin self.now output }
        requires over { IsOverParts self.now }
        requires below { i < length (entries_in self.now output part) }
        ensures at { slice_get (entries_in self.now output part) i ≡ Some result }
        ensures near { IsNearAxis result.from.f }
    {
        let c = place_in(self.steps_in(part), i);
        match self {
            Candidates::One(placement) => *placement,
            Candidates::Laid { q } => laid(output, part, *q, c),
            Candidates::Fits { rect } => Placement {
                rect: *rect,
                from: c,
            },
        }
    }

    // How many entries all parts have.
    fn count_in_parts(&self, output: Size, sizes: &Sizes) -> u32
        requires parts { AreVolumeParts sizes.now }
        ensures { result ≡ length (all_entries self.now output sizes.now) }
    {
        let mut count = 0;
        'parts: for n in 0..sizes.len() {
            let part = part_after(sizes, n);
            count += place_count(self.steps_in(part));
        }
        count
    }

    /// How many there are, in an output of this size and of a sample.
    pub fn count(&self, output: Size, sample: &Volume) -> u32
        requires { IsSmall output }
        ensures { result ≡ length (listed self.now output sample.now) }
    {
        match self {
            Candidates::One(_) => 1,
            Candidates::Laid { .. } | Candidates::Fits { .. } => {
                self.count_in_parts(output, &parts_of(sample))
            }
        }
    }

    // The entry of all parts at an index.
    fn entry_in_parts(&self, i: u32, output: Size, sizes: &Sizes) -> Placement
        requires output { IsSmall output }
        requires parts { AreVolumeParts sizes.now }
        requires within { IsWithin self.now output }
        requires over { IsOverParts self.now }
        requires below { i < length (all_entries self.now output sizes.now) }
        ensures { slice_get (all_entries self.now output sizes.now) i ≡ Some result }
    {
        let mut after = i;
        'parts: for n in 0..sizes.len() {
            let part = part_after(sizes, n);
            let count = place_count(self.steps_in(part));
            if after < count {
                return in_stock(sizes, n, self.entry_in(after, output, part));
            }
            after -= count;
        }
        unreachable!()
    }

    /// The candidate at an index, counted from 0.
    pub fn entry(&self, i: u32, output: Size, sample: &Volume) -> Placement
        requires output { IsSmall output }
        requires below { i < length (listed self.now output sample.now) }
        requires within { IsWithin self.now output }
        ensures { slice_get (listed self.now output sample.now) i ≡ Some result }
    {
        match self {
            Candidates::One(placement) => *placement,
            Candidates::Laid { .. } | Candidates::Fits { .. } => {
                self.entry_in_parts(i, output, &parts_of(sample))
            }
        }
    }
}
