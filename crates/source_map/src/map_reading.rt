// Reading the files of maps.
ghost use Rattle.std.specs.Prelude.{◌≡◌, ◌≤◌, ◌<◌, ◌+◌, ◌*◌, ◌^◌, IfOk, IfErr, IfSome, IsSomeAnd, OnOk};
ghost use Rattle.std.specs.Int.{w16, w32};
ghost use Rattle.shelf_traits.specs.Files.{OnlyReadsFile};
ghost use Rattle.cells.specs.Places.{HasAxes, IsInside, IsSmall, cell_count, spot};
ghost use Rattle.cells.specs.SizeLists.{AreSizes};
ghost use Rattle.file_bytes.specs.Reading.{Follows};
ghost use Rattle.map_canvas.specs.Maps.{IsSource};
ghost use Rattle.source_map.specs.MapFiles.{IsInSamples, IsMapFile, IsVersionOneMap, MapReadsAs, MapReadsBy, below_rule, body_read, cells_read, cells_rule, frames_read, place_read, same_rule, sample_read, source_read, version_one_map_read};
ghost use Rattle.source_map.specs.Readings.{IsRefusal, ReadsFrom, number_read};
ghost use Rattle.source_map.specs.Whole.{whole_read};

use crate::head::Version;
use crate::head_reading::{Start, form, read_axis, read_part, read_samples, read_start};
use crate::map_file::{MAGIC, MapFile};
use crate::source_reading::read_sources;
use cells::{At, Size, Sizes};
use file_bytes::{FileReader, make_room};
use items::Items;
use limits::MOST_MAP_CELLS;
use shelf_traits::{ReadError, Shelf, What};
use std::alloc::Global;

// The number, if it is that.
fn lawful_same(n: u32, wanted: u32, at: u64) -> Result<u32, ReadError>
    ensures rule { result ≡ same_rule wanted at n }
    ensures same { IfOk result (λ m. m ≡ wanted) }
    ensures refusal { IfErr result IsRefusal }
{
    if n == wanted { Ok(n) } else { form(at) }
}

// The number, if it is below a bound.
#[inline(always)]
fn lawful_below(n: u16, bound: u32, at: u64) -> Result<u16, ReadError>
    ensures rule { result ≡ below_rule bound at n }
    ensures below { IfOk result (λ n. n < bound) }
    ensures refusal { IfErr result IsRefusal }
{
    if u32::from(n) < bound {
        Ok(n)
    } else {
        form(at)
    }
}

/// Tries the limit on the cells of an output: `Limit Cells` comes above 2^20.
pub fn few_cells(size: Size) -> Result<(), ReadError>
    requires { HasAxes size }
    ensures rule { result ≡ cells_rule size }
    ensures small { OnOk result (IsSmall size) }
    ensures few { OnOk result (cell_count size ≤ MOST_MAP_CELLS) }
    ensures refusal { IfErr result IsRefusal }
{
    let cells = u64::from(size.w) * (u64::from(size.h) * u64::from(size.f));
    if cells <= MOST_MAP_CELLS {
        Ok(())
    } else {
        Err(ReadError::Limit {
            what: What::Cells,
            number: cells,
            bound: MOST_MAP_CELLS,
        })
    }
}

// Reads a number that has to be the same as another.
fn read_same<S: Shelf>(
    file: &mut FileReader,
    wanted: u32,
    shelf: &mut S,
    name: &str,
) -> Result<u32, ReadError>
    requires follows { Follows name.now (S.state shelf.old) file.old }
    requires room { file.old.at + 4 < 2 ^ 63 }
    ensures answer { ReadsFrom ⊥ name.now file.old.at (S.state shelf.old) (S.state shelf.new)
        file.new (number_read w32 (same_rule wanted)) result }
    ensures same { IfOk result (λ m. m ≡ wanted) }
    ensures place { OnOk result (file.new.at ≡ file.old.at + 4) }
    ensures reads { OnlyReadsFile name.now (S.state shelf.old) (S.state shelf.new) }
{
    let at = file.place();
    match file.number(shelf, name) {
        Ok(n) => lawful_same(n, wanted, at),
        Err(error) => Err(error),
    }
}

/// Reads a number below a bound, in 2 bytes. `Bad(Form)` comes at any other. It takes no memory.
#[inline(always)]
pub fn read_below<S: Shelf>(
    file: &mut FileReader,
    bound: u32,
    shelf: &mut S,
    name: &str,
) -> Result<u16, ReadError>
    requires follows { Follows name.now (S.state shelf.old) file.old }
    requires room { file.old.at + 2 < 2 ^ 63 }
    ensures answer { ReadsFrom ⊥ name.now file.old.at (S.state shelf.old) (S.state shelf.new)
        file.new (number_read w16 (below_rule bound)) result }
    ensures below { IfOk result (λ n. n < bound) }
    ensures place { OnOk result (file.new.at ≡ file.old.at + 2) }
    ensures reads { OnlyReadsFile name.now (S.state shelf.old) (S.state shelf.new) }
{
    let at = file.place();
    match file.number(shelf, name) {
        Ok(n) => lawful_below(n, bound, at),
        Err(error) => Err(error),
    }
}

// The place of three counts.
#[inline(always)]
pub(crate) fn place_at(x: u16, y: u16, f: u16) -> At
    ensures { result ≡ spot x y f }
{
    At {
        x: i32::from(x),
        y: i32::from(y),
        f: i32::from(f),
    }
}

/// Reads a place inside a size: x, y, f, 2 bytes each. `Bad(Form)` comes at the first that isn't below its
/// axis. It takes no memory.
#[inline(always)]
pub fn read_place<S: Shelf>(
    file: &mut FileReader,
    size: Size,
    shelf: &mut S,
    name: &str,
) -> Result<At, ReadError>
    requires follows { Follows name.now (S.state shelf.old) file.old }
    requires room { file.old.at + 6 < 2 ^ 63 }
    ensures answer { ReadsFrom ⊥ name.now file.old.at (S.state shelf.old)
        (S.state shelf.new) file.new (place_read size) result }
    ensures inside { IfOk result (IsInside size) }
    ensures place { OnOk result (file.new.at ≡ file.old.at + 6) }
    ensures reads { OnlyReadsFile name.now (S.state shelf.old) (S.state shelf.new) }
{
    let x = read_below(file, size.w, shelf, name)?;
    let y = read_below(file, size.h, shelf, name)?;
    let f = read_below(file, size.f, shelf, name)?;
    Ok(place_at(x, y, f))
}

// Reads the source of a cell.
pub(crate) fn read_source<S: Shelf>(
    file: &mut FileReader,
    version: Version,
    samples: &Sizes,
    shelf: &mut S,
    name: &str,
) -> Result<Option<At>, ReadError>
    requires follows { Follows name.now (S.state shelf.old) file.old }
    requires room { file.old.at + 8 < 2 ^ 63 }
    requires samples { AreSizes samples.now }
    ensures answer { ReadsFrom ⊥ name.now file.old.at (S.state shelf.old)
        (S.state shelf.new) file.new (source_read version samples.now) result }
    ensures source { IfOk result (λ source. IfSome source IsSource) }
    ensures inside { IfOk result (λ source. IsSomeAnd source (IsInSamples samples.now)) }
    ensures place { OnOk result (file.new.at ≤ file.old.at + 8) }
    ensures reads { OnlyReadsFile name.now (S.state shelf.old) (S.state shelf.new) }
{
    match version {
        Version::One => {
            let from = read_place(file, samples.at(1), shelf, name)?;
            Ok(Some(from))
        }
        Version::Two => {
            let part = read_part(file, samples.len(), shelf, name)?;
            let at = read_place(file, samples.at(part), shelf, name)?;
            Ok(Some(samples.stock(part, at)))
        }
    }
}

// Reads the sample's size of a frame map.
fn read_sample<S: Shelf>(
    file: &mut FileReader,
    output: Size,
    shelf: &mut S,
    name: &str,
) -> Result<Size, ReadError>
    requires follows { Follows name.now (S.state shelf.old) file.old }
    requires axes { HasAxes output }
    requires room { file.old.at + 12 < 2 ^ 63 }
    ensures answer { ReadsFrom ⊥ name.now file.old.at (S.state shelf.old)
        (S.state shelf.new) file.new (sample_read output) result }
    ensures axes { IfOk result HasAxes }
    ensures same { IfOk result (λ sample. (sample.w ≡ output.w) × (sample.h ≡ output.h)) }
    ensures place { OnOk result (file.new.at ≡ file.old.at + 12) }
    ensures reads { OnlyReadsFile name.now (S.state shelf.old) (S.state shelf.new) }
{
    let w = read_same(file, output.w, shelf, name)?;
    let h = read_same(file, output.h, shelf, name)?;
    let f = read_axis(file, shelf, name)?;
    Ok(Size { w, h, f })
}

// Reads what follows the output's size in a frame map.
fn read_frames<S: Shelf>(
    alloc: Global,
    file: &mut FileReader,
    size: Size,
    shelf: &mut S,
    name: &str,
) -> Result<MapFile, ReadError>
    requires follows { Follows name.now (S.state shelf.old) file.old }
    requires room { file.old.at ≤ 22 }
    requires axes { HasAxes size }
    ensures answer { ReadsFrom (Unit {0}) name.now file.old.at (S.state shelf.old)
        (S.state shelf.new) file.new (frames_read size) result }
    ensures lawful { IfOk result IsMapFile }
    ensures reads { OnlyReadsFile name.now (S.state shelf.old) (S.state shelf.new) }
{
    let sample = read_sample(file, size, shelf, name)?;
    let mut frames = Vec::new(alloc);
    for i in 0..size.f {
        make_room(&mut frames, (size.f - i) as usize)?;
        let frame = read_below(file, sample.f, shelf, name)?;
        frames.push_reserved(frame);
    }
    Ok(MapFile::Frames {
        size,
        sample,
        frames: Items::from_vec(frames),
    })
}

// Reads what follows the output's size in a cell map.
fn read_cells<S: Shelf>(
    alloc: Global,
    file: &mut FileReader,
    version: Version,
    size: Size,
    shelf: &mut S,
    name: &str,
) -> Result<MapFile, ReadError>
    requires follows { Follows name.now (S.state shelf.old) file.old }
    requires room { file.old.at ≤ 22 }
    requires axes { HasAxes size }
    ensures answer { ReadsFrom (Unit {0}) name.now file.old.at (S.state shelf.old)
        (S.state shelf.new) file.new (cells_read version size) result }
    ensures lawful { IfOk result IsMapFile }
    ensures version { IfOk result (λ value. version ≡ Version.One → IsVersionOneMap value) }
    ensures reads { OnlyReadsFile name.now (S.state shelf.old) (S.state shelf.new) }
{
    let samples = read_samples(file, version, shelf, name)?;
    few_cells(size)?;
    let map = read_sources(alloc, file, version, &samples, size, shelf, name)?;
    Ok(MapFile::Cells {
        map,
        samples,
        version,
    })
}

// Reads what follows the output's size.
fn read_body<S: Shelf>(
    alloc: Global,
    file: &mut FileReader,
    start: Start,
    shelf: &mut S,
    name: &str,
) -> Result<MapFile, ReadError>
    requires follows { Follows name.now (S.state shelf.old) file.old }
    requires room { file.old.at ≤ 22 }
    requires axes { HasAxes start.output }
    ensures answer { ReadsFrom (Unit {0}) name.now file.old.at (S.state shelf.old)
        (S.state shelf.new) file.new (body_read start) result }
    ensures lawful { IfOk result IsMapFile }
    ensures version { IfOk result (λ value. start.version ≡ Version.One → start.kind ≡ 0 →
        IsVersionOneMap value) }
    ensures reads { OnlyReadsFile name.now (S.state shelf.old) (S.state shelf.new) }
{
    if start.kind == 1 {
        read_frames(alloc, file, start.output, shelf, name)
    } else {
        read_cells(alloc, file, start.version, start.output, shelf, name)
    }
}

// Reads a file of a map to its end. So many versions are taken, and so many kinds of the first.
fn read_whole<S: Shelf>(
    alloc: Global,
    most: u8,
    shelf: &mut S,
    name: &str,
) -> Result<MapFile, ReadError>
    ensures answer { MapReadsBy (whole_read most) name.now
        (S.state shelf.old) (S.state shelf.new) result }
    ensures lawful { IfOk result IsMapFile }
    ensures version { most ≡ 1 → IfOk result IsVersionOneMap }
    ensures reads { OnlyReadsFile name.now (S.state shelf.old) (S.state shelf.new) }
{
    let mut file = FileReader::new();
    let start = read_start(&mut file, MAGIC, most, most, shelf, name)?;
    let value = read_body(alloc, &mut file, start, shelf, name)?;
    file.end(shelf, name)?;
    Ok(value)
}

/// Reads a map from the named file, of either kind and version, to the file's end. It takes memory as
/// the sources come.
///
/// The refusals, in the order of the fields: `Bad(Form)` at the file's length where the file ends within
/// a field, and else at the first byte of a field that has no valid value (the magic is one field, each
/// number is one); `Limit Axis` (4,096) for an axis of the output or of a sample; `Limit Cells` (2^20)
/// after the last sample size of a cell map; and `Bad(Form)` at the first byte that follows the last
/// field. `ReadFault` comes wherever a read fails, and `NoMemory` may come at any place.
pub fn read_map<S: Shelf>(alloc: Global, shelf: &mut S, name: &str) -> Result<MapFile, ReadError>
    ensures answer { MapReadsAs name.now (S.state shelf.old) (S.state shelf.new) result }
    ensures lawful { IfOk result IsMapFile }
    ensures reads { OnlyReadsFile name.now (S.state shelf.old) (S.state shelf.new) }
{
    read_whole(alloc, 2, shelf, name)
}

/// Reads a cell map of version 1 from the named file, to the file's end: as `read_map` does, but every
/// other version is `Bad(Form(8))`, whatever follows it, and every other kind `Bad(Form(9))`.
pub fn read_version_one_map<S: Shelf>(
    alloc: Global,
    shelf: &mut S,
    name: &str,
) -> Result<MapFile, ReadError>
    ensures answer { MapReadsBy version_one_map_read name.now
        (S.state shelf.old) (S.state shelf.new) result }
    ensures lawful { IfOk result IsMapFile }
    ensures version { IfOk result IsVersionOneMap }
    ensures reads { OnlyReadsFile name.now (S.state shelf.old) (S.state shelf.new) }
{
    read_whole(alloc, 1, shelf, name)
}
