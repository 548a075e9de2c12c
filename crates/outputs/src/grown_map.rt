// The map file of a run.
ghost use Rattle.std.specs.Prelude.{◌≡◌, [], ◌∷◌, OnErr, OnOk};
ghost use Rattle.shelf_traits.specs.Files.{Changes, OnlyWritesFile, WritesRose};
ghost use Rattle.shelf_traits.specs.Written.{HoldsPart, HoldsText};
ghost use Rattle.synth_report.specs.declared.fault.FileOf.TheVariants as part;
ghost use Rattle.command.specs.Writing.{file_text};
ghost use Rattle.outputs.specs.GrownMaps.{IsReadyMap, map_text, version_of};

use cells::Sizes;
use command::RunFiles;
use job_words::Name;
use shelf_traits::{Shelf, WriteFault};
use source_map::{Map, Version, write_cell_map};
use synth_report::FileOf;
use turned_map::write_turned_map;

/// The file of a full map, over samples of these sizes. With turns it names the samples' cells as they are
/// before any turn.
#[derive(Drop)]
pub struct GrownMap<'a> {
    pub name: &'a Name,
    /// Whether the sources are places of the volume of all turns.
    pub turns: bool,
    pub map: &'a Map,
    /// The sizes of the samples as they were read.
    pub samples: &'a Sizes,
}

/// One sample is written in version 1, and several are in version 2.
pub(crate) fn version_of(samples: &Sizes) -> Version
    ensures { result ≡ version_of samples.now }
{
    if samples.len() == 1 {
        Version::One
    } else {
        Version::Two
    }
}

// Writes the file of a map, with turns or without.
fn write_map<S: Shelf>(
    turns: bool,
    map: &Map,
    samples: &Sizes,
    shelf: &mut S,
    name: &str,
) -> Result<(), WriteFault>
    requires { IsReadyMap turns map.now samples.now }
    ensures ok { OnOk result (Changes (S.state shelf.old) (S.state shelf.new)
        (HoldsText name.now (map_text turns map.now samples.now))) }
    ensures err { OnErr result (Changes (S.state shelf.old) (S.state shelf.new)
        (HoldsPart name.now (map_text turns map.now samples.now))) }
    ensures writes { OnlyWritesFile name.now (S.state shelf.old) (S.state shelf.new) }
    ensures failed { OnErr result (WritesRose name.now (S.state shelf.old) (S.state shelf.new)) }
{
    if turns {
        write_turned_map(map, samples, shelf, name)
    } else {
        write_cell_map(map, samples, version_of(samples), shelf, name)
    }
}

impl RunFiles for GrownMap<'_> {
    ghost texts = { λ file.
        file_text part.Map file.name.now (map_text file.turns file.map.now file.samples.now) ∷ [] };

    ghost AreReady = { λ file. IsReadyMap file.turns file.map.now file.samples.now };

    fn write<S: Shelf>(&mut self, shelf: &mut S) -> Result<(), FileOf> {
        match write_map(
            self.turns,
            self.map,
            self.samples,
            shelf,
            self.name.as_text(),
        ) {
            Ok(()) => Ok(()),
            Err(WriteFault) => Err(FileOf::Map),
        }
    }
}
