// The sizes of the parts of a volume, and the parts' places in it.
ghost use Rattle.std.specs.Prelude.{◌≡◌, ◌<◌, ◌≤◌, ◌+◌, ◌*◌, ◌-◌, ◌++◌, pos, ◌↔◌, IsTrue, length, [], ◌∷◌, Some, IsNone, IsSome, IfSome};
ghost use Rattle.cells.specs.declared.sizes.PartPlace.{PartPlace};
ghost use Rattle.cells.specs.declared.place.Size.{Size};
ghost use Rattle.cells.specs.Places.{HasAxes, IsInside, on_axis};
ghost use Rattle.cells.specs.SizeLists.{AreSizes, IsInPart, IsPartFound, IsPartPlace, frames_to_part, size_of_part, stock_place};

use crate::parts::{More, past};
use crate::place::sum_of;
use crate::{At, Size};
use limits::{GREATEST_AXIS, MOST_PARTS};
use std::marker::Model;

/// A place of one part of a volume.
#[derive(Clone, Copy, Drop, PartialEq, Eq)]
pub struct PartPlace {
    /// The number of the part, from 1.
    pub part: u32,
    /// The place in that part, counted from its own first cell.
    pub at: At,
}

/// The sizes of the 1 to 16 parts of a volume, in a fixed array.
#[derive(Drop)]
pub struct Sizes {
    pub(crate) first: Size,
    pub(crate) more: More,
}

impl Model for Sizes {
    ghost use Rattle.std.specs.Prelude.{List, ◌∷◌};
    ghost use Rattle.cells.specs.declared.place.Size.{Size};
    ghost use Rattle.cells.specs.SizeLists.{AreSizes};

    ghost Value = { List Size };

    ghost view = { λ a. a.first ∷ a.more };

    ghost invariant = { λ a. AreSizes (a.first ∷ a.more) };
}

// How many frames so many parts take, with the empty one after each.
fn frames_before(size: Size, more: &[Size], n: u32) -> i32
    requires sizes { AreSizes (size ∷ more.now) }
    requires parts { n ≤ length more.now }
    ensures frames { result ≡ pos (frames_to_part (size ∷ more.now) n) }
    ensures small { frames_to_part (size ∷ more.now) n ≤ (GREATEST_AXIS + 1) * n }
{
    if n == 0 {
        return 0;
    }
    let (next, more) = more.split_first().unwrap();
    size.f as i32 + 1 + frames_before(*next, more, n - 1)
}

impl Sizes {
    /// One size.
    pub fn one(size: Size) -> Sizes
        requires { HasAxes size }
        ensures { result ≡ size ∷ [] }
    {
        Sizes {
            first: size,
            more: More::none(),
        }
    }

    /// One more size after the others.
    pub fn add(&mut self, size: Size)
        requires axes { HasAxes size }
        requires few { length self.old < MOST_PARTS }
        ensures { self.new ≡ self.old ++ size ∷ [] }
    {
        self.more.push(size);
    }

    /// How many there are.
    pub fn len(&self) -> u32
        ensures len { result ≡ length self.now }
        ensures sizes { AreSizes self.now }
    {
        self.more.len() + 1
    }

    /// The size of a part, by its number from 1.
    pub fn at(&self, part: u32) -> Size
        requires from { 1 ≤ part }
        requires to { part ≤ length self.now }
        ensures size { Some result ≡ size_of_part self.now part }
        ensures axes { HasAxes result }
    {
        if part == 1 {
            return self.first;
        }
        self.more.as_slice()[part as usize - 2]
    }

    /// The place in the joined volume of a place of a part.
    pub fn stock(&self, part: u32, at: At) -> At
        requires from { 1 ≤ part }
        requires to { part ≤ length self.now }
        requires inside { IsInPart self.now part at }
        ensures { result ≡ stock_place self.now part at }
    {
        // The size is taken for its contract only: it shows the prover that the place is near.
        let _size = self.at(part);
        let before = frames_before(self.first, self.more.as_slice(), part - 1);
        At {
            x: at.x,
            y: at.y,
            f: sum_of(at.f, before),
        }
    }

    /// The part that has a place of the joined volume, and the place in that part; None exactly outside.
    pub fn part_of(&self, at: At) -> Option<PartPlace>
        ensures none { IsNone result → (there : PartPlace) → IsPartPlace self.now at there → ⊥ }
        ensures some { IfSome result (IsPartPlace self.now at) }
    {
        part_along(1, self.first, self.more.as_slice(), at)
    }
}

// Whether a coordinate is at least 0 and below an axis.
fn is_on_axis(len: u32, place: i32) -> bool
    ensures { IsTrue result ↔ IsSome (on_axis len place) }
{
    place >= 0 && (place as u32) < len
}

// Whether a place is inside a size, which may have more cells than a volume.
fn has(size: Size, at: At) -> bool
    ensures { IsTrue result ↔ IsInside size at }
{
    is_on_axis(size.w, at.x) && is_on_axis(size.h, at.y) && is_on_axis(size.f, at.f)
}

// The part that has a place, among parts of which the first has the number.
fn part_along(number: u32, size: Size, more: &[Size], at: At) -> Option<PartPlace>
    requires sizes { AreSizes (size ∷ more.now) }
    requires few { number + length more.now ≤ MOST_PARTS }
    ensures { IsPartFound number (size ∷ more.now) at result }
{
    if has(size, at) {
        return Some(PartPlace { part: number, at });
    }
    if at.f < 0 {
        return None;
    }
    let (next, more) = more.split_first()?;
    part_along(number + 1, *next, more, past(size, at))
}
