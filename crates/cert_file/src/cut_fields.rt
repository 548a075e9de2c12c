// The fields of a cut record, as they are read.
ghost use Rattle.std.specs.Prelude.{◌≡◌, ◌≤◌, ◌<◌, ◌+◌, ◌*◌, ◌^◌, IfOk, IfErr, OnOk};
ghost use Rattle.std.specs.Int.{w16};
ghost use Rattle.shelf_traits.specs.Files.{OnlyReadsFile};
ghost use Rattle.file_bytes.specs.Reading.{Follows};
ghost use Rattle.source_map.specs.MapFiles.{IsInSamples, IsShort};
ghost use Rattle.source_map.specs.Readings.{IsRefusal, ReadsFrom, field_read, number_read};
ghost use Rattle.cert_file.specs.CutReading.{IsBoxAfter, box_axis_rule, box_cells_rule, box_size_read, corner_rule, from_read, part_read};

use cells::{At, Size, Sizes};
use file_bytes::FileReader;
use limits::MOST_BOX_CELLS;
use shelf_traits::{FormFault, ReadError, Shelf, What};
use source_map::{Version, read_part, read_place};

// The refusal of a field at its place.
pub(crate) fn form<T>(at: u64) -> Result<T, ReadError>
    ensures { result ≡ Err (ReadError.Bad (FormFault.Form at)) }
{
    Err(ReadError::Bad(FormFault::Form(at)))
}

// The corner of a box, of three numbers.
fn corner_of(piece: [u8; 6], at: u64) -> Result<At, ReadError>
    ensures corner { result ≡ corner_rule at piece }
    ensures short { IfOk result IsShort }
    ensures refusal { IfErr result IsRefusal }
{
    let [a, b, c, d, e, f] = piece;
    Ok(At {
        x: i32::from(u16::from_be_bytes([a, b])),
        y: i32::from(u16::from_be_bytes([c, d])),
        f: i32::from(u16::from_be_bytes([e, f])),
    })
}

// The axis of a box, if it is at least 1.
fn lawful_box_axis(n: u16, at: u64) -> Result<u16, ReadError>
    ensures axis { result ≡ box_axis_rule at n }
    ensures some { IfOk result (λ n. 1 ≤ n) }
    ensures refusal { IfErr result IsRefusal }
{
    if n == 0 { form(at) } else { Ok(n) }
}

// The size of a box, if the cells of all boxes so far are few enough.
pub(crate) fn lawful_box(before: u64, w: u16, h: u16, f: u16) -> Result<Size, ReadError>
    requires w { 1 ≤ w }
    requires h { 1 ≤ h }
    requires f { 1 ≤ f }
    requires before { before ≤ MOST_BOX_CELLS }
    ensures size { result ≡ box_cells_rule before (record { w = w; h = h; f = f }) }
    ensures within { IfOk result (IsBoxAfter before) }
    ensures refusal { IfErr result IsRefusal }
{
    let number = before + u64::from(w) * (u64::from(h) * u64::from(f));
    if number <= MOST_BOX_CELLS {
        Ok(Size {
            w: u32::from(w),
            h: u32::from(h),
            f: u32::from(f),
        })
    } else {
        Err(ReadError::Limit {
            what: What::Records,
            number,
            bound: MOST_BOX_CELLS,
        })
    }
}

// Reads the corner of a box.
pub(crate) fn read_corner<S: Shelf>(
    file: &mut FileReader,
    shelf: &mut S,
    name: &str,
) -> Result<At, ReadError>
    requires follows { Follows name.now (S.state shelf.old) file.old }
    requires room { file.old.at < 2 ^ 62 }
    ensures answer { ReadsFrom ⊥ name.now file.old.at (S.state shelf.old) (S.state shelf.new)
        file.new (field_read 6 corner_rule) result }
    ensures short { IfOk result IsShort }
    ensures place { OnOk result (file.new.at ≡ file.old.at + 6) }
    ensures reads { OnlyReadsFile name.now (S.state shelf.old) (S.state shelf.new) }
{
    let at = file.place();
    let mut piece = [0; 6];
    match file.take(&mut piece, shelf, name) {
        Ok(()) => corner_of(piece, at),
        Err(error) => Err(error),
    }
}

// Reads an axis of a box.
pub(crate) fn read_box_axis<S: Shelf>(
    file: &mut FileReader,
    shelf: &mut S,
    name: &str,
) -> Result<u16, ReadError>
    requires follows { Follows name.now (S.state shelf.old) file.old }
    requires room { file.old.at + 2 < 2 ^ 63 }
    ensures answer { ReadsFrom ⊥ name.now file.old.at (S.state shelf.old) (S.state shelf.new)
        file.new (number_read w16 box_axis_rule) result }
    ensures some { IfOk result (λ n. 1 ≤ n) }
    ensures place { OnOk result (file.new.at ≡ file.old.at + 2) }
    ensures reads { OnlyReadsFile name.now (S.state shelf.old) (S.state shelf.new) }
{
    let at = file.place();
    match file.number(shelf, name) {
        Ok(n) => lawful_box_axis(n, at),
        Err(error) => Err(error),
    }
}

// Reads the size of a box, after boxes of so many cells.
pub(crate) fn read_box_size<S: Shelf>(
    file: &mut FileReader,
    before: u64,
    shelf: &mut S,
    name: &str,
) -> Result<Size, ReadError>
    requires follows { Follows name.now (S.state shelf.old) file.old }
    requires room { file.old.at < 2 ^ 62 }
    requires before { before ≤ MOST_BOX_CELLS }
    ensures answer { ReadsFrom ⊥ name.now file.old.at (S.state shelf.old) (S.state shelf.new)
        file.new (box_size_read before) result }
    ensures within { IfOk result (IsBoxAfter before) }
    ensures place { OnOk result (file.new.at ≡ file.old.at + 6) }
    ensures reads { OnlyReadsFile name.now (S.state shelf.old) (S.state shelf.new) }
{
    let w = read_box_axis(file, shelf, name)?;
    let h = read_box_axis(file, shelf, name)?;
    let f = read_box_axis(file, shelf, name)?;
    lawful_box(before, w, h, f)
}

// Reads the number of a sample, of so many; in version 1 it isn't written.
fn read_number<S: Shelf>(
    file: &mut FileReader,
    version: Version,
    count: u32,
    shelf: &mut S,
    name: &str,
) -> Result<u32, ReadError>
    requires follows { Follows name.now (S.state shelf.old) file.old }
    requires room { file.old.at + 2 < 2 ^ 63 }
    requires some { 1 ≤ count }
    ensures answer { ReadsFrom ⊥ name.now file.old.at (S.state shelf.old) (S.state shelf.new)
        file.new (part_read version count) result }
    ensures within { IfOk result (λ n. (1 ≤ n) × (n ≤ count)) }
    ensures place { OnOk result (file.new.at ≤ file.old.at + 2) }
    ensures reads { OnlyReadsFile name.now (S.state shelf.old) (S.state shelf.new) }
{
    match version {
        Version::One => Ok(1),
        Version::Two => read_part(file, count, shelf, name),
    }
}

// Reads where the new sources of a record begin.
pub(crate) fn read_from<S: Shelf>(
    file: &mut FileReader,
    version: Version,
    samples: &Sizes,
    shelf: &mut S,
    name: &str,
) -> Result<At, ReadError>
    requires follows { Follows name.now (S.state shelf.old) file.old }
    requires room { file.old.at < 2 ^ 62 }
    ensures answer { ReadsFrom ⊥ name.now file.old.at (S.state shelf.old) (S.state shelf.new)
        file.new (from_read version samples.now) result }
    ensures inside { IfOk result (IsInSamples samples.now) }
    ensures place { OnOk result (file.new.at ≤ file.old.at + 8) }
    ensures reads { OnlyReadsFile name.now (S.state shelf.old) (S.state shelf.new) }
{
    let part = read_number(file, version, samples.len(), shelf, name)?;
    let p = read_place(file, samples.at(part), shelf, name)?;
    Ok(samples.stock(part, p))
}
