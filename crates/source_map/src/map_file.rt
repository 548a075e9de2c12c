// The files of maps, of all kinds and versions.
ghost use Rattle.std.specs.Prelude.{◌≡◌, ◌<◌, ◌^◌, Some, OnOk, OnErr};
ghost use Rattle.cells.specs.SizeLists.{IsPartPlace};
ghost use Rattle.shelf_traits.specs.Files.{Changes, WritesRose, OnlyWritesFile};
ghost use Rattle.shelf_traits.specs.Written.{HoldsText, HoldsPart};
ghost use Rattle.file_bytes.specs.Writing.{Puts};
ghost use Rattle.source_map.specs.Heads.{AreSamples};
ghost use Rattle.source_map.specs.MapFiles.{IsFrameMap, IsInSamples, IsShort, IsShortCoordinate, IsWritable, cell_map_form, coordinate_field, frame_map_form, numbered_field, part_from, place_field, source_field};

use crate::head::{Version, put_samples, put_size, put_start};
use cells::{At, PartPlace, Size, Sizes};
use file_bytes::FileWriter;
use items::Items;
use map_canvas::Map;
use shelf_traits::{Shelf, WriteFault};

// What a map file begins with.
pub(crate) const MAGIC: [u8; 8] = *b"WEAVEMAP";

/// What a map file stands for.
#[derive(Drop)]
pub enum MapFile {
    /// The source of each output cell.
    Cells {
        /// The map, whose sources are places of the joined samples.
        map: Map,
        /// The sizes of the samples.
        samples: Sizes,
        /// The version of the file.
        version: Version,
    },
    /// The source of each output frame: output frame i is the sample's frame `frames[i]`.
    Frames {
        /// The size of the output.
        size: Size,
        /// The size of the sample.
        sample: Size,
        /// A frame of the sample for each output frame.
        frames: Items<u16>,
    },
}

// A coordinate in the file's form.
fn coordinate_bytes(z: i32) -> [u8; 2]
    requires { IsShortCoordinate z }
    ensures { result ≡ coordinate_field z }
{
    (z as u16).to_be_bytes()
}

/// A place in the file's form: x, y, f, 2 bytes each.
pub fn place_bytes(p: At) -> [u8; 6]
    requires { IsShort p }
    ensures { result ≡ place_field p }
{
    let [a, b] = coordinate_bytes(p.x);
    let [c, d] = coordinate_bytes(p.y);
    let [e, f] = coordinate_bytes(p.f);
    [a, b, c, d, e, f]
}

// A place of a sample that is named by its number, in the file's form.
fn numbered_bytes(there: PartPlace) -> [u8; 8]
    requires short { IsShort there.at }
    requires number { there.part < 2 ^ 16 }
    ensures { result ≡ numbered_field there }
{
    let [a, b] = (there.part as u16).to_be_bytes();
    let [c, d, e, f, g, h] = place_bytes(there.at);
    [a, b, c, d, e, f, g, h]
}

// The sample that has a source, and the place in it. One sample has them all, and isn't asked.
fn place_of(samples: &Sizes, from: At) -> PartPlace
    requires { IsInSamples samples.now from }
    ensures part { IsPartPlace samples.now from result }
    ensures form { result ≡ part_from 1 samples.now from }
{
    if samples.len() == 1 {
        return PartPlace { part: 1, at: from };
    }
    samples.part_of(from).unwrap()
}

/// Puts a source: in version 1 its place in the one sample, in version 2 the number of its sample and its
/// place there. It takes no memory.
pub fn put_source<S: Shelf>(
    file: &mut FileWriter,
    from: At,
    samples: &Sizes,
    version: Version,
    shelf: &mut S,
    name: &str,
)
    requires samples { AreSamples version samples.now }
    requires inside { IsInSamples samples.now from }
    ensures { Puts name.now (source_field version samples.now (Some from)) (S.state shelf.old)
        (S.state shelf.new) file.old file.new }
{
    match version {
        Version::One => file.put(&place_bytes(from), shelf, name),
        Version::Two => file.put(&numbered_bytes(place_of(samples, from)), shelf, name),
    }
}

/// Writes the file of a full map of at most 2^20 cells, whose sources lie inside the samples: what
/// version and kind it is of, the sizes, and the source of each cell, 6 bytes a cell in version 1 and 8
/// in version 2. Version 1 has one sample. It takes no memory. After a `WriteFault` the shelf has
/// failed, and the file may be cut off anywhere.
pub fn write_cell_map<S: Shelf>(
    map: &Map,
    samples: &Sizes,
    version: Version,
    shelf: &mut S,
    name: &str,
) -> Result<(), WriteFault>
    requires { IsWritable map.now samples.now version }
    ensures ok { OnOk result (Changes (S.state shelf.old) (S.state shelf.new)
        (HoldsText name.now (cell_map_form map.now samples.now version))) }
    ensures err { OnErr result (Changes (S.state shelf.old) (S.state shelf.new)
        (HoldsPart name.now (cell_map_form map.now samples.now version))) }
    ensures writes { OnlyWritesFile name.now (S.state shelf.old) (S.state shelf.new) }
    ensures failed { OnErr result
        (WritesRose name.now (S.state shelf.old) (S.state shelf.new)) }
{
    let mut file = FileWriter::begin(shelf, name);
    put_start(&mut file, MAGIC, 0, version, map.size(), shelf, name);
    put_samples(&mut file, version, samples, shelf, name);
    for source in map.sources() {
        let from = source.source().unwrap();
        put_source(&mut file, from, samples, version, shelf, name);
    }
    file.finish(shelf, name)
}

/// Writes the file of a frame map, of version 1: the output has the sample's columns and rows, and each
/// entry is a frame of the sample, 2 bytes each. It takes no memory. After a `WriteFault` the shelf has
/// failed, and the file may be cut off anywhere.
pub fn write_frame_map<S: Shelf>(
    size: Size,
    sample: Size,
    frames: &[u16],
    shelf: &mut S,
    name: &str,
) -> Result<(), WriteFault>
    requires { IsFrameMap size sample frames.now }
    ensures ok { OnOk result (Changes (S.state shelf.old) (S.state shelf.new)
        (HoldsText name.now (frame_map_form size sample frames.now))) }
    ensures err { OnErr result (Changes (S.state shelf.old) (S.state shelf.new)
        (HoldsPart name.now (frame_map_form size sample frames.now))) }
    ensures writes { OnlyWritesFile name.now (S.state shelf.old) (S.state shelf.new) }
    ensures failed { OnErr result
        (WritesRose name.now (S.state shelf.old) (S.state shelf.new)) }
{
    let mut file = FileWriter::begin(shelf, name);
    put_start(&mut file, MAGIC, 1, Version::One, size, shelf, name);
    put_size(&mut file, sample, shelf, name);
    file.put_all(frames, shelf, name);
    file.finish(shelf, name)
}
