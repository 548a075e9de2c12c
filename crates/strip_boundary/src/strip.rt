// Strips: tables of errors.
ghost use Rattle.std.specs.Prelude.{◌≡◌, ℕ, ◌+◌, ◌*◌, ◌<◌, ◌≤◌, length, slice_index, IfOk};

use std::alloc::{AllocError, Global};
use std::marker::Model;

/// The greatest error of a cell: three samples, each of which differs by 255.
pub const GREATEST_ERROR: u32 = 195_075;

/// The overlap of a block with what is there before it: one error per cell, row by row.
///
/// An error is the sum of the squared differences of the three samples of two cells.
#[derive(Drop)]
pub struct Strip {
    rows: usize,
    cols: usize,
    errors: Vec<u32>,
}

impl Model for Strip {
    ghost use Rattle.strip_boundary.specs.Strips.{ErrorTable, IsStrip, table_of};

    ghost Value = { ErrorTable };

    ghost view = { λ a. table_of a.rows a.cols a.errors.items };

    ghost invariant = { λ a. IsStrip (table_of a.rows a.cols a.errors.items) };
}

impl Strip {
    ghost use Rattle.strip_boundary.specs.Strips.{IsStrip, error_at, at_cell, table_of};

    /// A strip of `rows` rows and `cols` columns, with its errors row by row. It copies them; the one
    /// error is out of memory.
    pub fn make(alloc: Global, rows: u32, cols: u32, errors: &[u32]) -> Result<Strip, AllocError>
        requires { IsStrip (table_of rows cols errors.now) }
        ensures { IfOk result (λ strip. strip ≡ table_of rows cols errors.now) }
    {
        Ok(Strip::from_vec(rows, cols, Vec::from_slice(alloc, errors)?))
    }

    /// A strip of `rows` rows and `cols` columns that keeps the errors that it is given, row by row.
    pub fn from_vec(rows: u32, cols: u32, errors: Vec<u32>) -> Strip
        requires { IsStrip (table_of rows cols errors.items) }
        ensures { result ≡ table_of rows cols errors.items }
    {
        Strip {
            rows: rows as usize,
            cols: cols as usize,
            errors,
        }
    }

    /// How many rows the strip has.
    pub(crate) fn rows(&self) -> usize
        ensures rows { result ≡ self.now.rows }
        ensures strip { IsStrip self.now }
    {
        self.rows
    }

    /// How many columns each row has.
    pub(crate) fn cols(&self) -> usize
        ensures cols { result ≡ self.now.cols }
        ensures strip { IsStrip self.now }
    {
        self.cols
    }

    /// The error of a cell.
    pub(crate) fn error(&self, row: usize, col: usize) -> u32
        requires row { row < self.now.rows }
        requires col { col < self.now.cols }
        ensures error { result ≡ error_at self.now row col }
        ensures greatest { result ≤ GREATEST_ERROR }
        ensures strip { IsStrip self.now }
    {
        self.errors[row * self.cols + col]
    }

    /// One row of a table that has a number per cell of the strip, row by row.
    pub(crate) fn row_of<'a>(&self, table: &'a [u32], row: usize) -> &'a [u32]
        requires { (row + 1) * self.now.cols ≤ length table.now }
        ensures cols { length result.now ≡ self.now.cols }
        ensures cells { (col : ℕ) → col < self.now.cols →
            slice_index result.now col ≡ at_cell self.now table.now row col }
    {
        let start = row * self.cols;
        &table[start..start + self.cols]
    }
}
