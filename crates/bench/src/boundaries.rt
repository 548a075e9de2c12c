// Least boundaries of strips.
ghost use Rattle.std.specs.Prelude.{◌≤◌, ◌*◌};
ghost use Rattle.limits.specs.declared.bounds.TheConstants.{GREATEST_AXIS};

use crate::samples::mixed;
use std::alloc::{AllocError, Global};
use strip_boundary::{GREATEST_ERROR, Strip, least_boundary};

// A strip of errors that look drawn.
fn strip_of(alloc: Global, rows: u32, cols: u32) -> Result<Strip, AllocError>
    requires some_rows { 1 ≤ rows }
    requires most_rows { rows ≤ GREATEST_AXIS }
    requires some_cols { 1 ≤ cols }
    requires most_cols { cols ≤ GREATEST_AXIS }
{
    let mut errors = Vec::with_capacity(alloc, rows as usize * cols as usize)?;
    for i in 0..rows * cols {
        errors.push(mixed(i, 3) % (GREATEST_ERROR + 1))?;
    }
    Ok(Strip::from_vec(rows, cols, errors))
}

// A number of another one and these columns.
fn with_columns(mut number: u64, columns: &[u16]) -> u64 {
    for col in columns {
        number = number.wrapping_mul(31).wrapping_add(u64::from(*col));
    }
    number
}

/// Finds the least boundary of a strip of that size so often. The number is of its columns.
pub fn least_boundaries(alloc: Global, rows: u32, cols: u32, times: u32) -> Result<u64, AllocError>
    requires some_rows { 1 ≤ rows }
    requires most_rows { rows ≤ GREATEST_AXIS }
    requires some_cols { 1 ≤ cols }
    requires most_cols { cols ≤ GREATEST_AXIS }
{
    let strip = strip_of(alloc, rows, cols)?;
    let mut number = 0u64;
    for _time in 0..times {
        let made = least_boundary(alloc, &strip)?;
        number = with_columns(number, made.path.as_slice());
    }
    Ok(number)
}
