// A table of window sums.
ghost use Rattle.std.specs.Prelude.{◌≡◌, ℕ, Option, IfOk};
ghost use Rattle.cells.specs.declared.place.At.{At};
ghost use Rattle.cells.specs.Distances.{distance};
ghost use Rattle.map_canvas.specs.Canvases.{StandsOver};
ghost use Rattle.map_canvas.specs.Maps.{map_at};
ghost use Rattle.cost_windows.specs.Windows.{IsWorst, window_at};
ghost use Rattle.cost_windows.specs.Tables.{IsRight, IsRightBeside, IsWindow};

use crate::block::{Block, corners};
use crate::reach::refresh;
use crate::tops::{greatest_by_rows, refresh_tops};
use boxes::has_cells;
use cells::{At, Box3, Size, Volume};
use map_canvas::Canvas;
use std::alloc::{AllocError, Global};
use std::marker::Model;

/// A window and its sum.
#[derive(Clone, Copy, Drop)]
pub struct Worst {
    /// The corner of the window.
    pub corner: At,
    /// The sum of the costs over all neighbours that are both in the window.
    pub cost: u64,
}

/// The sums of all windows of one size that an output holds, and the memory in which they are found.
#[derive(Drop)]
pub struct SeamTable {
    output: Size,
    window: Size,
    sums: Vec<u64>,
    // The greatest sum of each row of corners.
    tops: Vec<u64>,
    scratch: Vec<u64>,
}

impl Model for SeamTable {
    ghost use Rattle.std.specs.Prelude.{◌≡◌};
    ghost use Rattle.std.specs.Prelude.{vec_len};
    ghost use Rattle.cells.specs.Places.{cell_count};
    ghost use Rattle.cost_windows.specs.Tables.{WindowSums, IsSumTable, corners};
    ghost use Rattle.cost_windows.specs.Tops.{AreTops};

    ghost Value = { WindowSums };

    ghost view = { λ a. record { output = a.output; window = a.window; sums = a.sums.items } };

    ghost invariant = { λ a. IsSumTable (record {
      output = a.output;
      window = a.window;
      sums = a.sums.items;
    }) × ((vec_len a.scratch ≡ cell_count a.output)
        × AreTops (corners a.output a.window) a.sums.items a.tops.items) };
}

impl SeamTable {
    /// The table of a canvas. It takes all memory that its updates need. The one error is out of memory.
    pub fn make(
        alloc: Global,
        canvas: &Canvas,
        sample: &Volume,
        window: Size,
    ) -> Result<SeamTable, AllocError>
        requires over { StandsOver canvas.now sample.now }
        requires window { IsWindow canvas.now.map.size window }
        ensures sizes { IfOk result (λ table. (table.output ≡ canvas.now.map.size)
            × (table.window ≡ window)) }
        ensures right { IfOk result (λ table.
            IsRight (distance sample.now) (map_at canvas.now.map) table) }
    {
        let map = canvas.map();
        let output = map.size();
        let corners = corners(output, window);
        let mut sums = vec![in alloc; 0u64; corners.cells()]?;
        let mut tops = vec![in alloc; 0u64; corners.h as usize * corners.f as usize]?;
        let mut scratch = vec![in alloc; 0u64; output.cells()]?;
        let block = Block::whole(corners);
        refresh(&mut sums, &mut scratch, map, sample, window, &block);
        refresh_tops(&sums, &mut tops, corners, &block);
        Ok(SeamTable {
            output,
            window,
            sums,
            tops,
            scratch,
        })
    }

    /// Makes the sums right after the canvas has changed inside a box, which may lie outside the output.
    pub fn update(&mut self, canvas: &Canvas, sample: &Volume, changed: &Box3)
        requires over { StandsOver canvas.now sample.now }
        requires size { canvas.now.map.size ≡ self.old.output }
        requires beside { IsRightBeside (distance sample.now)
            (map_at canvas.now.map) changed.now self.old }
        ensures sizes { (self.new.output ≡ self.old.output) × (self.new.window ≡ self.old.window) }
        ensures right { IsRight (distance sample.now) (map_at canvas.now.map) self.new }
    {
        let window = self.window;
        let size = corners(self.output, window);
        let block = Block::touched(size, window, changed);
        if has_cells(block.size()) {
            refresh(
                &mut self.sums,
                &mut self.scratch,
                canvas.map(),
                sample,
                window,
                &block,
            );
            refresh_tops(&self.sums, &mut self.tops, size, &block);
        }
    }

    /// The window of greatest sum, and of several the first in raster order of their corners.
    pub fn worst(&self) -> Worst
        ensures worst { (d : At → At → ℕ) (m : At → Option At) → IsRight d m self.now →
            IsWorst d self.now.output m self.now.window result.corner }
        ensures cost { (d : At → At → ℕ) (m : At → Option At) → IsRight d m self.now →
            result.cost ≡ window_at d self.now.window m result.corner }
    {
        let sums = self.sums.as_slice();
        let corners = corners(self.output, self.window);
        let i = greatest_by_rows(sums, self.tops.as_slice(), corners);
        Worst {
            corner: corners.place_at(i),
            cost: sums[i],
        }
    }
}
