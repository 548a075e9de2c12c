// Reading the raster of a picture, straight into the volume's buffer.
ghost use Rattle.std.specs.Prelude.{◌≡◌, ◌≤◌, ◌<◌, ◌+◌, ◌*◌, ◌^◌, length, All, IfSome, IfNone, IfOk, OnOk, IsTrue, ◌↔◌, vec_len};
ghost use Rattle.shelf_traits.specs.Files.{OnlyReadsFile};
ghost use Rattle.cells.specs.Places.{IsSmall, cell_count};
ghost use Rattle.netpbm_p6.specs.Reading.{IsFirstAbove, IsMadeOf, FillsAs, RastersAs};

use cells::{Size, Volume};
use limits::MOST_HEADER_BYTES;
use shelf_traits::{FormFault, ReadError, Shelf};
use std::alloc::{AllocError, Global};

// No byte is above maxval. It looks at all of them, so that many can be compared at once.
fn is_within(bytes: &[u8], maxval: u8) -> bool
    ensures { IsTrue result ↔ All (λ b. b ≤ maxval) bytes.now }
{
    let mut greatest = 0u8;
    for byte in bytes {
        greatest = greatest.max(*byte);
    }
    greatest <= maxval
}

// Where the first byte above maxval is.
fn first_above(bytes: &[u8], maxval: u8) -> Option<usize>
    ensures none { IfNone result (All (λ b. b ≤ maxval) bytes.now) }
    ensures some { IfSome result (IsFirstAbove maxval bytes.now) }
{
    if maxval == u8::MAX || is_within(bytes, maxval) {
        return None;
    }
    bytes.iter().position(|byte| *byte > maxval)
}

// Fills a raster from a place of the file.
fn fill<S: Shelf>(
    shelf: &mut S,
    name: &str,
    start: u64,
    maxval: u8,
    raster: &mut [u8],
) -> Result<(), ReadError>
    requires { start + length raster.old < 2 ^ 64 }
    ensures fills { FillsAs name.now start maxval raster.new (S.state shelf.old)
        (S.state shelf.new) result }
    ensures samples { OnOk result (All (λ b. b ≤ maxval) raster.new) }
    ensures reads { OnlyReadsFile name.now (S.state shelf.old) (S.state shelf.new) }
{
    let count = shelf.get(name, start, raster)?;
    if let Some(i) = first_above(&raster[..count], maxval) {
        return Err(ReadError::Bad(FormFault::Sample(start + i as u64)));
    }
    if count < raster.len() {
        return Err(ReadError::Bad(FormFault::Form(start + count as u64)));
    }
    Ok(())
}

// A buffer for the cells of a size.
fn room_for(alloc: Global, size: Size) -> Result<Vec<u8>, AllocError>
    requires { IsSmall size }
    ensures { IfOk result (λ raster. vec_len raster ≡ 3 * cell_count size) }
{
    let count = size.w as usize * (size.h as usize * size.f as usize);
    vec![in alloc; 0u8; 3 * count]
}

/// Reads the raster of a picture of this size from a place of the file, to the file's end.
pub fn read_raster<S: Shelf>(
    alloc: Global,
    shelf: &mut S,
    name: &str,
    start: u64,
    maxval: u8,
    size: Size,
) -> Result<Volume, ReadError>
    requires small { IsSmall size }
    requires early { start ≤ MOST_HEADER_BYTES }
    ensures raster { RastersAs name.now start maxval size (S.state shelf.old)
        (S.state shelf.new) result }
    ensures made { IfOk result (IsMadeOf size maxval) }
    ensures reads { OnlyReadsFile name.now (S.state shelf.old) (S.state shelf.new) }
{
    let mut raster = room_for(alloc, size)?;
    fill(shelf, name, start, maxval, &mut raster)?;
    let end = start + raster.len() as u64;
    let mut next = [0u8; 1];
    if shelf.get(name, end, &mut next)? > 0 {
        return Err(ReadError::Bad(FormFault::Trailing(end)));
    }
    Ok(Volume::from_bytes(size, 3, raster))
}
