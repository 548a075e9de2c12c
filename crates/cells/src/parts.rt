// The sizes of the parts of a volume, and places along them.
ghost use Rattle.std.specs.Prelude.{◌≡◌, ◌<◌, ◌≤◌, ◌++◌, ◌↔◌, ◌≤ℤ◌, pos, length, [], ◌∷◌, IsTrue, IfSome};
ghost use Rattle.cells.specs.Places.{HasAxes};
ghost use Rattle.cells.specs.Parts.{AreParts, HoldsFrom, count_from, index_from, past};

use crate::{At, Box3, Size};
use std::marker::Model;

// The sizes of the parts after a volume's first: up to 15, in a fixed array.
#[derive(Drop)]
pub(crate) struct More {
    sizes: [Size; 15],
    count: u32,
}

impl Model for More {
    ghost use Rattle.std.specs.Prelude.{List, take, ◌≤◌};
    ghost use Rattle.cells.specs.declared.place.Size.{Size};

    ghost Value = { List Size };

    ghost view = { λ a. take a.count a.sizes };

    ghost invariant = { λ a. a.count ≤ 15 };
}

impl More {
    // No part.
    pub(crate) fn none() -> More
        ensures { result ≡ [] }
    {
        More {
            sizes: [Size { w: 1, h: 1, f: 1 }; 15],
            count: 0,
        }
    }

    // The sizes, from the first to the last.
    pub(crate) fn as_slice(&self) -> &[Size]
        ensures sizes { result.now ≡ self.now }
        ensures few { length result.now ≤ 15 }
    {
        &self.sizes[..self.count as usize]
    }

    // How many.
    pub(crate) fn len(&self) -> u32
        ensures { result ≡ length self.now }
    {
        self.as_slice().len() as u32
    }

    // One more size at the end.
    pub(crate) fn push(&mut self, size: Size)
        requires { length self.old < 15 }
        ensures { self.new ≡ self.old ++ size ∷ [] }
    {
        self.sizes[self.count as usize] = size;
        self.count += 1;
    }

    // The same sizes once more.
    pub(crate) fn copied(&self) -> More
        ensures { result ≡ self.now }
    {
        More {
            sizes: self.sizes,
            count: self.count,
        }
    }
}

// A place as the part after one of this size counts it.
pub(crate) fn past(size: Size, at: At) -> At
    requires axes { HasAxes size }
    requires from { pos 0 ≤ℤ at.f }
    ensures { result ≡ past size at }
{
    At {
        x: at.x,
        y: at.y,
        f: at.f - (size.f as i32 + 1),
    }
}

// The index of a place among the cells of a part and of those after it.
pub(crate) fn index_along(size: Size, more: &[Size], at: At) -> Option<usize>
    requires parts { AreParts size more.now }
    ensures index { result ≡ index_from size more.now at }
    ensures below { IfSome result (λ i. i < count_from size more.now) }
{
    if let Some(i) = size.index_of(at) {
        return Some(i);
    }
    if at.f < 0 {
        return None;
    }
    let (next, more) = more.split_first()?;
    let i = index_along(*next, more, past(size, at))?;
    Some(size.cells() + i)
}

// Whether a box lies inside a part of this size, or inside one of those after it.
pub(crate) fn lies_along(size: Size, more: &[Size], rect: &Box3) -> bool
    requires parts { AreParts size more.now }
    ensures { IsTrue result ↔ HoldsFrom size more.now rect.now.corner rect.now.size }
{
    if rect.lies_in(size) {
        return true;
    }
    if rect.corner.f < 0 {
        return false;
    }
    match more.split_first() {
        None => false,
        Some((next, more)) => {
            let there = Box3 {
                corner: past(size, rect.corner),
                size: rect.size,
            };
            lies_along(*next, more, &there)
        }
    }
}
