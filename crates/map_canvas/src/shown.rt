// The bytes of the picture that a map gives over a sample, and of the marks of its filled cells.
ghost use Rattle.std.specs.Prelude.{◌≡◌, ◌++◌, IfOk, IfSome, OnOk, Option, map, replicate};
ghost use Rattle.std.specs.List.{concat};
ghost use Rattle.cells.specs.Cells.{HasCell};
ghost use Rattle.map_canvas.specs.Canvases.{mark_of};
ghost use Rattle.map_canvas.specs.Shown.{HaveCells, shown_cell};

use crate::Entry;
use cells::{At, Volume};
use std::alloc::{AllocError, Global};

// Adds a byte so many times.
fn add_times(bytes: &mut Vec<u8>, byte: u8, times: u32) -> Result<(), AllocError>
    ensures { OnOk result (bytes.new.items ≡ bytes.old.items ++ replicate times byte) }
{
    for _ in 0..times {
        bytes.push(byte)?;
    }
    Ok(())
}

// Adds the bytes of a cell: those of its source, or as many of 0 where it has none.
fn add_cell(bytes: &mut Vec<u8>, sample: &Volume, source: Option<At>) -> Result<(), AllocError>
    requires { IfSome source (HasCell sample.now) }
    ensures { OnOk result (bytes.new.items ≡ bytes.old.items ++ shown_cell sample.now source) }
{
    match source {
        Some(from) => bytes.extend_from_slice(sample.cell(from).unwrap()),
        None => add_times(bytes, 0, sample.samples()),
    }
}

/// The bytes of the cells of these sources, one after another: those of the sample's cells, and 0 for each
/// sample of a cell without a source. The list has room for `n` bytes from the start.
pub(crate) fn shown_bytes(
    alloc: Global,
    sources: &[Entry],
    sample: &Volume,
    n: usize,
) -> Result<Vec<u8>, AllocError>
    requires { HaveCells sample.now sources.now }
    ensures { IfOk result (λ bytes. bytes.items
        ≡ concat (map (shown_cell sample.now) sources.now)) }
{
    let mut bytes = Vec::with_capacity(alloc, n)?;
    for source in sources {
        add_cell(&mut bytes, sample, source.source())?;
    }
    Ok(bytes)
}

/// The marks of the cells of these sources, k for each: 1 where it has a source, and 0 where it has none.
/// The list has room for `n` bytes from the start.
pub(crate) fn mark_bytes(
    alloc: Global,
    sources: &[Entry],
    k: u32,
    n: usize,
) -> Result<Vec<u8>, AllocError>
    ensures { IfOk result (λ bytes. bytes.items ≡ concat (map (mark_of k) sources.now)) }
{
    let mut bytes = Vec::with_capacity(alloc, n)?;
    for source in sources {
        let mark = u8::from(source.source().is_some());
        add_times(&mut bytes, mark, k)?;
    }
    Ok(bytes)
}
