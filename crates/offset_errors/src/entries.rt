// The numbers of cells.
ghost use Rattle.std.specs.Prelude.{◌≡◌, ◌≤◌, ◌<◌, ◌+◌, ◌-◌, ◌*◌, Some, length};
ghost use Rattle.cells.specs.Cells.{HasCell};
ghost use Rattle.map_canvas.specs.Maps.{IsOver, map_at, sample_cell};
ghost use Rattle.offset_errors.specs.Numbers.{new_number, source_number, squares};

use cells::{At, Volume};
use cyclic_products::PRIME;
use limits::MOST_CHANNELS;
use map_canvas::Map;

// The squares of the bytes of a cell.
fn squares_of(cell: &[u8]) -> u64
    requires { length cell.now ≤ MOST_CHANNELS }
    ensures { result ≡ squares cell.now }
{
    let mut sum = 0;
    'bytes: for i in 0..cell.len() {
        let byte = u64::from(cell[i]);
        sum += byte * byte;
    }
    sum
}

// The bytes of a place that has a cell.
fn cell_of(sample: &Volume, at: At) -> &[u8]
    requires { HasCell sample.now at }
    ensures bytes { result.now ≡ sample_cell sample.now (Some at) }
    ensures samples { length result.now ≡ sample.now.k }
    ensures few { sample.now.k ≤ MOST_CHANNELS }
{
    // Called for its contract only: it shows the prover that the sample is a volume.
    let _samples = sample.samples();
    sample.cell(at).unwrap()
}

/// Number j of a cell of the output.
pub(crate) fn output_entry(map: &Map, sample: &Volume, p: At, j: u32) -> u64
    requires over { IsOver map.now sample.now }
    requires below { j < sample.now.k + 2 }
    ensures { result ≡ source_number sample.now j (map_at map.now p) }
{
    let Some(from) = map.at(p) else {
        return 0;
    };
    let cell = cell_of(sample, from);
    match j {
        0 => squares_of(cell),
        1 => 1,
        // takes the product with the byte off twice, modulo the prime
        _ => PRIME - 2 * u64::from(cell[j as usize - 2]),
    }
}

/// Number j of the sample's cell at a place.
pub(crate) fn sample_entry(sample: &Volume, at: At, j: u32) -> u64
    requires cell { HasCell sample.now at }
    requires below { j < sample.now.k + 2 }
    ensures { result ≡ new_number (sample_cell sample.now (Some at)) j }
{
    let cell = cell_of(sample, at);
    match j {
        0 => 1,
        1 => squares_of(cell),
        _ => u64::from(cell[j as usize - 2]),
    }
}
