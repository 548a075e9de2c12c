// Reading a picture.
ghost use Rattle.std.specs.Prelude.{IfOk};
ghost use Rattle.shelf_traits.specs.Files.{OnlyReadsFile};
ghost use Rattle.netpbm_p6.specs.Pictures.{IsSound, ReadsAs};

use crate::Picture;
use crate::header::{read_header, within_limits};
use crate::raster::read_raster;
use shelf_traits::{ReadError, Shelf};
use std::alloc::Global;

/// Reads a picture from the named file, to the file's end.
///
/// The refusals, in their order of trial: `ReadFault`, wherever a read fails; `Bad(Form)` in the
/// header; `Limit Header` (65,536 bytes); `Bad(Depth)` for a maxval above 255; `Limit Axis` (4,096),
/// the width before the height; `Limit Cells` (2^23); and then in the order of the bytes `Bad(Sample)`
/// for a byte above maxval, `Bad(Form)` at the file's length where the raster is too short, and
/// `Bad(Trailing)` where a byte follows it. `NoMemory` may come at any place.
pub fn read_p6<S: Shelf>(alloc: Global, shelf: &mut S, name: &str) -> Result<Picture, ReadError>
    ensures answer { ReadsAs name.now (S.state shelf.old) (S.state shelf.new) result }
    ensures picture { IfOk result IsSound }
    ensures reads { OnlyReadsFile name.now (S.state shelf.old) (S.state shelf.new) }
{
    let header = read_header(shelf, name)?;
    let (size, maxval) = within_limits(&header)?;
    let volume = read_raster(alloc, shelf, name, header.length, maxval, size)?;
    // Called for its contract only: it shows the prover that the picture is a volume.
    let _k = volume.samples();
    Ok(Picture { maxval, volume })
}
