// Reading the sources of the cells of a map.
ghost use Rattle.std.specs.Prelude.{◌≡◌, ◌≤◌, ◌+◌, ◌*◌, IfOk, IsSomeAnd, OnOk, All};
ghost use Rattle.shelf_traits.specs.Files.{OnlyReadsFile};
ghost use Rattle.cells.specs.Places.{IsSmall, cell_count};
ghost use Rattle.cells.specs.SizeLists.{AreSizes};
ghost use Rattle.file_bytes.specs.Reading.{Follows};
ghost use Rattle.map_canvas.specs.Maps.{IsMap};
ghost use Rattle.source_map.specs.MapFiles.{IsInSamples, sources_read};
ghost use Rattle.source_map.specs.Readings.{ReadsFrom};

use crate::head::Version;
use crate::map_reading::read_source;
use crate::waiting::take_sources;
use cells::{Size, Sizes};
use file_bytes::{FileReader, make_room};
use map_canvas::{Entry, Map};
use shelf_traits::{ReadError, Shelf};
use std::alloc::Global;

/// Reads the sources of all cells of an output. It takes memory as they come.
pub(crate) fn read_sources<S: Shelf>(
    alloc: Global,
    file: &mut FileReader,
    version: Version,
    samples: &Sizes,
    size: Size,
    shelf: &mut S,
    name: &str,
) -> Result<Map, ReadError>
    requires follows { Follows name.now (S.state shelf.old) file.old }
    requires room { file.old.at ≤ 216 }
    requires samples { AreSizes samples.now }
    requires small { IsSmall size }
    ensures answer { ReadsFrom (Unit {0}) name.now file.old.at (S.state shelf.old)
        (S.state shelf.new) file.new (sources_read version samples.now size) result }
    ensures map { IfOk result IsMap }
    ensures size { IfOk result (λ m. m.size ≡ size) }
    ensures inside { IfOk result (λ m.
        All (λ source. IsSomeAnd source (IsInSamples samples.now)) m.sources) }
    ensures place { OnOk result (file.new.at ≤ file.old.at + 8 * cell_count size) }
    ensures reads { OnlyReadsFile name.now (S.state shelf.old) (S.state shelf.new) }
{
    let count = size.cells();
    let mut sources = Vec::new(alloc);
    'reading: while sources.len() < count {
        let missing = count - sources.len();
        make_room(&mut sources, missing)?;
        if take_sources(file, version, samples, &mut sources, missing) > 0 {
            continue;
        }
        let source = read_source(file, version, samples, shelf, name)?;
        sources.push_reserved(Entry::new(source));
    }
    Ok(Map::from_sources(size, sources))
}
