// What a map has for one cell, in 8 bytes.
ghost use Rattle.std.specs.Prelude.{◌≡◌, ◌↔◌, IfSome, IsSome, IsTrue, option_map};
ghost use Rattle.cells.specs.Neighbours.{unit_step};
ghost use Rattle.cells.specs.Places.{plus};
ghost use Rattle.map_canvas.specs.Maps.{IsSource};

use cells::{At, Axis};
use std::marker::Model;

// A coordinate of an entry is below this, so that it takes 20 bits.
const SPAN: u64 = 1_048_576;

/// What a map has for one cell: its source, or nothing. It takes 8 bytes.
#[derive(Clone, Copy, Drop, PartialEq, Eq)]
pub struct Entry {
    // 0 without a source, else the 20 bits of x, y and f, from the lowest on, and a 1 above them
    code: u64,
}

impl Model for Entry {
    ghost use Rattle.std.specs.Prelude.{Option};
    ghost use Rattle.cells.specs.declared.place.At.{At};

    ghost Value = { Option At };

    ghost use Rattle.map_canvas.specs.Entries.{IsCode, code_of, source_of};

    ghost view = { λ a. source_of a.code };

    ghost invariant = { λ a. IsCode a.code };

    ghost inverse = { λ source. record { code = code_of source } };
}

impl Entry {
    /// The entry of a cell with that source, or with none.
    pub fn new(source: Option<At>) -> Entry
        requires { IfSome source IsSource }
        ensures { result ≡ source }
    {
        let code = match source {
            Some(p) => p.x as u64 + SPAN * (p.y as u64 + SPAN * (p.f as u64 + SPAN)),
            None => 0,
        };
        Entry { code }
    }

    /// The source of the cell; None where it has none.
    pub fn source(self) -> Option<At>
        ensures { result ≡ self }
    {
        if self.code == 0 {
            return None;
        }
        Some(At {
            x: (self.code % SPAN) as i32,
            y: (self.code / SPAN % SPAN) as i32,
            f: (self.code / SPAN / SPAN % SPAN) as i32,
        })
    }

    /// Whether another cell's source is the next one along an axis after that of this one. It compares
    /// two numbers, and reads no source.
    pub fn is_followed(self, next: Entry, axis: Axis) -> bool
        requires { IfSome self IsSource }
        ensures { IsTrue result ↔
            (IsSome self × (next ≡ option_map (λ p. plus p (unit_step axis)) self)) }
    {
        let step = match axis {
            Axis::X => 1,
            Axis::Y => SPAN,
            Axis::F => SPAN * SPAN,
        };
        next.code == self.code + step
    }
}
