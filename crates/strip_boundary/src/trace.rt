// The way back through the running sums, from the last row to the first.
ghost use Rattle.std.specs.Prelude.{◌≡◌, ◌+◌, ◌*◌, ◌<◌, IfOk, length};
ghost use Rattle.strip_boundary.specs.Tables.{IsTracedFrom};

use crate::strip::Strip;
use crate::sums::{first_least, first_least_near};
use std::alloc::{AllocError, Global};

/// The column of each row, where every tie goes to the first column.
pub fn trace_back(alloc: Global, strip: &Strip, sums: &[u32]) -> Result<Vec<u16>, AllocError>
    requires { length sums.now ≡ strip.now.rows * strip.now.cols }
    ensures { IfOk result (λ path. IsTracedFrom strip.now sums.now path.items 0) }
{
    let mut path = vec![in alloc; 0u16; strip.rows()]?;
    trace_into(strip, sums, path.as_mut_slice());
    Ok(path)
}

/// Writes the column of each row, from the last row to the first.
fn trace_into(strip: &Strip, sums: &[u32], path: &mut [u16])
    requires sums { length sums.now ≡ strip.now.rows * strip.now.cols }
    requires rows { length path.old ≡ strip.now.rows }
    ensures { IsTracedFrom strip.now sums.now path.new 0 }
{
    let last = strip.rows() - 1;
    path[last] = first_least(strip.row_of(sums, last), 0, strip.cols()) as u16;
    for row in (0..last).rev() {
        let below = usize::from(path[row + 1]);
        path[row] = first_least_near(strip.row_of(sums, row), below) as u16;
    }
}
