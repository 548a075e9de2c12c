// Turns of a frame, and where each moves a cell.
ghost use Rattle.std.specs.Prelude.{◌≡◌, ◌≤◌, ◌<◌, ◌≤ℤ◌, ◌<ℤ◌, ◌↔◌, ◌⊎◌, IsTrue, pos};
ghost use Rattle.cells.specs.Places.{HasAxes, IsInside};
ghost use Rattle.turned.specs.Turns.{from_end, mirror, quarters_from, quarters_to, quarters_size, turn_from, turn_size, turn_to};

use cells::{At, Size};
use limits::GREATEST_AXIS;

/// How many turns there are: a mirror or none, and then up to three quarter turns.
pub const TURNS: u32 = 8;

// How many quarter turns are one whole turn.
const QUARTERS: u32 = 4;

// The size after a turn.
pub(crate) fn turned_size(turn: u32, size: Size) -> Size
    ensures { result ≡ turn_size turn size }
{
    match turn % QUARTERS {
        0 => size,
        2 => size,
        _ => Size {
            w: size.h,
            h: size.w,
            f: size.f,
        },
    }
}

// Whether a turn moves each row to a row, from its first cell on: none, or one that exchanges top and bottom.
pub(crate) fn keeps_rows(turn: u32) -> bool
    requires { turn < TURNS }
    ensures { IsTrue result ↔ ((turn ≡ 0) ⊎ (turn ≡ 6)) }
{
    turn == 0 || turn == 6
}

// A coordinate counted from the other end of its axis.
fn from_end(n: u32, z: i32) -> i32
    requires axis { n ≤ GREATEST_AXIS }
    requires from { pos 0 ≤ℤ z }
    requires to { z <ℤ pos n }
    ensures { result ≡ from_end n z }
{
    n as i32 - 1 - z
}

// The cell that a mirror moves to a place, and the place to which it moves one.
fn mirror(size: Size, at: At) -> At
    requires axes { HasAxes size }
    requires inside { IsInside size at }
    ensures from { result ≡ mirror size at }
    ensures inside { IsInside size result }
{
    At {
        x: from_end(size.w, at.x),
        y: at.y,
        f: at.f,
    }
}

// The cell that so many quarter turns move to a place.
fn quarters_from(quarters: u32, size: Size, at: At) -> At
    requires few { quarters < 4 }
    requires axes { HasAxes size }
    requires inside { IsInside (quarters_size quarters size) at }
    ensures from { result ≡ quarters_from quarters size at }
    ensures inside { IsInside size result }
{
    match quarters {
        1 => At {
            x: at.y,
            y: from_end(size.h, at.x),
            f: at.f,
        },
        2 => At {
            x: from_end(size.w, at.x),
            y: from_end(size.h, at.y),
            f: at.f,
        },
        3 => At {
            x: from_end(size.w, at.y),
            y: at.x,
            f: at.f,
        },
        _ => at,
    }
}

// The place to which so many quarter turns move a cell.
fn quarters_to(quarters: u32, size: Size, at: At) -> At
    requires few { quarters < 4 }
    requires axes { HasAxes size }
    requires inside { IsInside size at }
    ensures to { result ≡ quarters_to quarters size at }
    ensures inside { IsInside (quarters_size quarters size) result }
{
    match quarters {
        1 => At {
            x: from_end(size.h, at.y),
            y: at.x,
            f: at.f,
        },
        2 => At {
            x: from_end(size.w, at.x),
            y: from_end(size.h, at.y),
            f: at.f,
        },
        3 => At {
            x: at.y,
            y: from_end(size.w, at.x),
            f: at.f,
        },
        _ => at,
    }
}

// The cell that a turn moves to a place.
pub(crate) fn turn_from(turn: u32, size: Size, at: At) -> At
    requires turn { turn < TURNS }
    requires axes { HasAxes size }
    requires inside { IsInside (turn_size turn size) at }
    ensures from { result ≡ turn_from turn size at }
    ensures inside { IsInside size result }
{
    let at = quarters_from(turn % QUARTERS, size, at);
    if turn < QUARTERS {
        at
    } else {
        mirror(size, at)
    }
}

// The place to which a turn moves a cell.
pub(crate) fn turn_to(turn: u32, size: Size, at: At) -> At
    requires turn { turn < TURNS }
    requires axes { HasAxes size }
    requires inside { IsInside size at }
    ensures to { result ≡ turn_to turn size at }
    ensures inside { IsInside (turn_size turn size) result }
{
    let at = if turn < QUARTERS {
        at
    } else {
        mirror(size, at)
    };
    quarters_to(turn % QUARTERS, size, at)
}
