// The file of a map over turned samples, read.
ghost use Rattle.std.specs.Prelude.{◌≡◌, ◌≤◌, ◌<◌, ◌+◌, ◌^◌, All, IfErr, IfOk, IsSomeAnd, OnOk, length};
ghost use Rattle.shelf_traits.specs.Files.{OnlyReadsFile};
ghost use Rattle.cells.specs.Places.{HasAxes, IsSmall};
ghost use Rattle.cells.specs.SizeLists.{AreSizes};
ghost use Rattle.file_bytes.specs.Reading.{Follows};
ghost use Rattle.map_canvas.specs.Maps.{IsMap};
ghost use Rattle.std.specs.Int.{w8};
ghost use Rattle.source_map.specs.MapFiles.{same_rule};
ghost use Rattle.source_map.specs.Readings.{IsRefusal, ReadsFrom, number_read};
ghost use Rattle.turned.specs.TurnedPlaces.{IsInTurned};
ghost use Rattle.turned_map.specs.TurnedFiles.{IsTurnedFile, TurnedReadsAs, turned_body_read, turned_sources_read, turned_start_read};

use crate::turned_file::{MAGIC, TURNED_KIND, TURNED_VERSION, TurnedFile};
use cells::{Size, Sizes};
use file_bytes::{FileReader, make_room};
use map_canvas::{Entry, Map};
use shelf_traits::{FormFault, ReadError, Shelf};
use source_map::{few_cells, read_below, read_magic, read_part, read_place, read_size, read_sizes};
use std::alloc::Global;
use turned::{MOST_TURNED, TURNS, Turned, turned_place, turned_sizes};

// The number, if it is that.
fn lawful_mark(n: u8, wanted: u8, at: u64) -> Result<u8, ReadError>
    ensures rule { result ≡ same_rule wanted at n }
    ensures refusal { IfErr result IsRefusal }
{
    if n == wanted {
        Ok(n)
    } else {
        Err(ReadError::Bad(FormFault::Form(at)))
    }
}

// Reads a version or a kind, of which one alone is taken.
fn read_mark<S: Shelf>(
    file: &mut FileReader,
    wanted: u8,
    shelf: &mut S,
    name: &str,
) -> Result<u8, ReadError>
    requires follows { Follows name.now (S.state shelf.old) file.old }
    requires room { file.old.at + 1 < 2 ^ 63 }
    ensures answer { ReadsFrom ⊥ name.now file.old.at (S.state shelf.old) (S.state shelf.new)
        file.new (number_read w8 (same_rule wanted)) result }
    ensures place { OnOk result (file.new.at ≡ file.old.at + 1) }
    ensures reads { OnlyReadsFile name.now (S.state shelf.old) (S.state shelf.new) }
{
    let at = file.place();
    match file.u8(shelf, name) {
        Ok(n) => lawful_mark(n, wanted, at),
        Err(error) => Err(error),
    }
}

// Reads what comes before the sizes of the samples, of which the output's size is kept.
fn read_start<S: Shelf>(file: &mut FileReader, shelf: &mut S, name: &str) -> Result<Size, ReadError>
    requires follows { Follows name.now (S.state shelf.old) file.old }
    requires room { file.old.at + 22 < 2 ^ 63 }
    ensures answer { ReadsFrom ⊥ name.now file.old.at (S.state shelf.old) (S.state shelf.new)
        file.new turned_start_read result }
    ensures axes { IfOk result HasAxes }
    ensures place { OnOk result (file.new.at ≡ file.old.at + 22) }
    ensures reads { OnlyReadsFile name.now (S.state shelf.old) (S.state shelf.new) }
{
    read_magic(file, MAGIC, shelf, name)?;
    let _version = read_mark(file, TURNED_VERSION, shelf, name)?;
    let _kind = read_mark(file, TURNED_KIND, shelf, name)?;
    read_size(file, shelf, name)
}

// Reads the sources of all cells of an output.
fn read_sources<S: Shelf>(
    alloc: Global,
    file: &mut FileReader,
    samples: &Sizes,
    size: Size,
    shelf: &mut S,
    name: &str,
) -> Result<Map, ReadError>
    requires follows { Follows name.now (S.state shelf.old) file.old }
    requires room { file.old.at ≤ 216 }
    requires few { length samples.now ≤ MOST_TURNED }
    requires are { AreSizes samples.now }
    requires small { IsSmall size }
    ensures answer { ReadsFrom (Unit {0}) name.now file.old.at (S.state shelf.old)
        (S.state shelf.new) file.new (turned_sources_read samples.now size) result }
    ensures map { IfOk result IsMap }
    ensures size { IfOk result (λ m. m.size ≡ size) }
    ensures inside { IfOk result (λ m.
        All (λ source. IsSomeAnd source (IsInTurned samples.now)) m.sources) }
    ensures reads { OnlyReadsFile name.now (S.state shelf.old) (S.state shelf.new) }
{
    let sizes = turned_sizes(samples);
    let count = size.cells();
    let mut sources = Vec::new(alloc);
    for i in 0..count {
        make_room(&mut sources, count - i)?;
        let sample = read_part(file, samples.len(), shelf, name)?;
        let turn = read_below(file, TURNS, shelf, name)?;
        let at = read_place(file, samples.at(sample), shelf, name)?;
        let there = Turned {
            sample,
            turn: u32::from(turn),
            at,
        };
        sources.push_reserved(Entry::new(Some(turned_place(samples, &sizes, there))));
    }
    Ok(Map::from_sources(size, sources))
}

// Reads what follows the output's size.
fn read_body<S: Shelf>(
    alloc: Global,
    file: &mut FileReader,
    output: Size,
    shelf: &mut S,
    name: &str,
) -> Result<TurnedFile, ReadError>
    requires follows { Follows name.now (S.state shelf.old) file.old }
    requires room { file.old.at ≤ 22 }
    requires axes { HasAxes output }
    ensures answer { ReadsFrom (Unit {0}) name.now file.old.at (S.state shelf.old)
        (S.state shelf.new) file.new (turned_body_read output) result }
    ensures lawful { IfOk result IsTurnedFile }
    ensures reads { OnlyReadsFile name.now (S.state shelf.old) (S.state shelf.new) }
{
    let count = read_part(file, MOST_TURNED, shelf, name)?;
    let samples = read_sizes(file, count, shelf, name)?;
    few_cells(output)?;
    let map = read_sources(alloc, file, &samples, output, shelf, name)?;
    Ok(TurnedFile { map, samples })
}

/// Reads a map over turned samples from the named file, to the file's end. It takes memory as the sources
/// come, which are given as places of the turned samples.
///
/// The refusals, in the order of the fields: `Bad(Form)` at the file's length where the file ends within
/// a field, and else at the first byte of a field that has no valid value (the magic is one field, each
/// number is one), so at 8 for another version than 2, at 9 for another kind than 2, and at the count of
/// samples where it isn't 1 or 2; `Limit Axis` (4,096) for an axis of the output or of a sample;
/// `Limit Cells` (2^20) after the last sample size; and `Bad(Form)` at the first byte that follows the last
/// field. `ReadFault` comes wherever a read fails, and `NoMemory` may come at any place.
pub fn read_turned_map<S: Shelf>(
    alloc: Global,
    shelf: &mut S,
    name: &str,
) -> Result<TurnedFile, ReadError>
    ensures answer { TurnedReadsAs name.now (S.state shelf.old) (S.state shelf.new) result }
    ensures lawful { IfOk result IsTurnedFile }
    ensures reads { OnlyReadsFile name.now (S.state shelf.old) (S.state shelf.new) }
{
    let mut file = FileReader::new();
    let output = read_start(&mut file, shelf, name)?;
    let value = read_body(alloc, &mut file, output, shelf, name)?;
    file.end(shelf, name)?;
    Ok(value)
}
