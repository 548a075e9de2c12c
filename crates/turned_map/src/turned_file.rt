// The file of a map over turned samples, written.
ghost use Rattle.std.specs.Prelude.{◌≡◌, OnErr, OnOk};
ghost use Rattle.cells.specs.SizeLists.{AreSizes};
ghost use Rattle.shelf_traits.specs.Files.{Changes, OnlyWritesFile, WritesRose};
ghost use Rattle.shelf_traits.specs.Written.{HoldsPart, HoldsText};
ghost use Rattle.turned_map.specs.TurnedFiles.{IsTurnedMap, turned_map_form};

use cells::Sizes;
use file_bytes::FileWriter;
use map_canvas::Map;
use shelf_traits::{Shelf, WriteFault};
use source_map::{Head, Version, place_bytes, put_head};
use turned::{turned_sizes, untouched_with};

/// The version of the file of a map over turned samples.
pub const TURNED_VERSION: u8 = 2;

/// The kind of the file of a map over turned samples.
pub const TURNED_KIND: u8 = 2;

// What a map file begins with.
pub(crate) const MAGIC: [u8; 8] = *b"WEAVEMAP";

/// What the file of a map over turned samples stands for.
#[derive(Drop)]
pub struct TurnedFile {
    /// The map, whose sources are places of the turned samples.
    pub map: Map,
    /// The sizes of the samples as they are before.
    pub samples: Sizes,
}

// The same sizes once more.
fn copy_of(samples: &Sizes) -> Sizes
    ensures sizes { result ≡ samples.now }
    ensures are { AreSizes result }
{
    let count = samples.len();
    let mut copy = Sizes::one(samples.at(1));
    for part in 1..count {
        copy.add(samples.at(part + 1));
    }
    copy
}

/// Writes the file of a full map of at most 2^20 cells, whose sources are places of the turned samples: a head
/// with the sizes of the 1 or 2 samples as they are before, and for each cell the number of its sample, the
/// turn, and its place in the sample, 10 bytes a cell. It takes no memory. After a `WriteFault` the shelf has
/// failed, and the file may be cut off anywhere.
pub fn write_turned_map<S: Shelf>(
    map: &Map,
    samples: &Sizes,
    shelf: &mut S,
    name: &str,
) -> Result<(), WriteFault>
    requires { IsTurnedMap map.now samples.now }
    ensures ok { OnOk result (Changes (S.state shelf.old) (S.state shelf.new)
        (HoldsText name.now (turned_map_form map.now samples.now))) }
    ensures err { OnErr result (Changes (S.state shelf.old) (S.state shelf.new)
        (HoldsPart name.now (turned_map_form map.now samples.now))) }
    ensures writes { OnlyWritesFile name.now (S.state shelf.old) (S.state shelf.new) }
    ensures failed { OnErr result
        (WritesRose name.now (S.state shelf.old) (S.state shelf.new)) }
{
    let head = Head {
        output: map.size(),
        samples: copy_of(samples),
        version: Version::Two,
    };
    let sizes = turned_sizes(samples);
    let mut file = FileWriter::begin(shelf, name);
    put_head(&mut file, MAGIC, TURNED_KIND, &head, shelf, name);
    for source in map.sources() {
        let there = untouched_with(samples, &sizes, source.source().unwrap());
        file.put_number(there.sample as u16, shelf, name);
        file.put_number(there.turn as u16, shelf, name);
        file.put(&place_bytes(there.at), shelf, name);
    }
    file.finish(shelf, name)
}
