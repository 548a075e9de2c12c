// Writing a picture.
ghost use Rattle.std.specs.Prelude.{◌++◌, OnOk, OnErr, decimal};
ghost use Rattle.shelf_traits.specs.Files.{Changes, WritesRose, OnlyWritesFile, Appends, AppendsPart};
ghost use Rattle.shelf_traits.specs.Written.{HoldsText, HoldsPart};
ghost use Rattle.netpbm_p6.specs.Pictures.{IsPicture, p6_form};

use cells::Volume;
use itoa::Buffer;
use shelf_traits::{Failed, Shelf, WriteFault};

// Adds a number in decimal, and what ends it.
fn add_number<S: Shelf>(shelf: &mut S, name: &str, number: u32, end: &[u8]) -> Result<(), Failed>
    ensures added { OnOk result (Changes (S.state shelf.old) (S.state shelf.new)
        (Appends name.now (decimal number ++ end.now))) }
    ensures part { OnErr result (Changes (S.state shelf.old) (S.state shelf.new)
        (AppendsPart name.now (decimal number ++ end.now))) }
    ensures writes { OnlyWritesFile name.now (S.state shelf.old) (S.state shelf.new) }
    ensures failed { OnErr result (WritesRose name.now (S.state shelf.old) (S.state shelf.new)) }
{
    let mut buffer = Buffer::new();
    shelf.add(name, buffer.format(number).as_bytes())?;
    shelf.add(name, end)
}

/// Writes a picture of one frame, three samples a cell and no byte above maxval to the named file:
/// `P6`, LF, width, blank, height, LF, maxval, LF and the raster. It takes no memory.
pub fn write_p6<S: Shelf>(
    maxval: u8,
    volume: &Volume,
    shelf: &mut S,
    name: &str,
) -> Result<(), WriteFault>
    requires { IsPicture maxval volume.now }
    ensures ok { OnOk result (Changes (S.state shelf.old) (S.state shelf.new)
        (HoldsText name.now (p6_form maxval volume.now))) }
    ensures err { OnErr result (Changes (S.state shelf.old) (S.state shelf.new)
        (HoldsPart name.now (p6_form maxval volume.now))) }
    ensures writes { OnlyWritesFile name.now (S.state shelf.old) (S.state shelf.new) }
    ensures failed { OnErr result (WritesRose name.now (S.state shelf.old) (S.state shelf.new)) }
{
    let size = volume.size();
    shelf.begin(name)?;
    shelf.add(name, b"P6\n")?;
    add_number(shelf, name, size.w, b" ")?;
    add_number(shelf, name, size.h, b"\n")?;
    add_number(shelf, name, u32::from(maxval), b"\n")?;
    shelf.add(name, volume.bytes())?;
    Ok(())
}
