// A map and cut records of version 1, as they are read.
ghost use Rattle.std.specs.Prelude.{◌≡◌, IfOk};
ghost use Rattle.shelf_traits.specs.Files.{OnlyReadsFile};
ghost use Rattle.source_map.specs.declared.map_file.MapFile.TheVariants.{Cells as CellMap};
ghost use Rattle.source_map.specs.MapFiles.{IsMapFile, IsVersionOneMap};
ghost use Rattle.cert_file.specs.declared.file.RecordFile.TheVariants.{Cuts};
ghost use Rattle.cert_file.specs.RecordFiles.{AreCuts, IsRecordFile};
ghost use Rattle.synth_report.specs.declared.fault.FileOf.TheVariants as part;
ghost use Rattle.command.specs.Faults.{ReadsPart};
ghost use Rattle.upgrade_command.specs.Upgrades.{AreFirstCuts, IsFirstMap, RefusesFirstCuts, RefusesFirstMap};

use cells::Sizes;
use cert_file::{CutRecord, Head, Items, RecordFile, read_version_one_cuts};
use command::read_fault;
use job_words::Name;
use shelf_traits::Shelf;
use source_map::{Map, MapFile, Version, read_version_one_map};
use std::alloc::Global;
use synth_report::{Fault, FileOf};

/// A map and a record of version 1, as they were read: they need not belong together.
#[derive(Drop)]
pub struct Pair {
    pub map: Map,
    /// The size of the map's one sample.
    pub samples: Sizes,
    /// The head of the record.
    pub head: Head,
    pub cuts: Items<CutRecord>,
}

/// Reads the map file.
pub(crate) fn read_first_map<S: Shelf>(
    alloc: Global,
    shelf: &mut S,
    name: &Name,
) -> Result<MapFile, Fault>
    ensures answer { ReadsPart IsFirstMap RefusesFirstMap part.Map name.now
        (S.state shelf.old) (S.state shelf.new) result }
    ensures lawful { IfOk result IsMapFile }
    ensures version { IfOk result IsVersionOneMap }
    ensures reads { OnlyReadsFile name.now (S.state shelf.old) (S.state shelf.new) }
{
    match read_version_one_map(alloc, shelf, name.as_text()) {
        Ok(map) => Ok(map),
        Err(error) => Err(read_fault(FileOf::Map, error)),
    }
}

/// Reads the record file.
pub(crate) fn read_first_cuts<S: Shelf>(
    alloc: Global,
    shelf: &mut S,
    name: &Name,
) -> Result<RecordFile, Fault>
    ensures answer { ReadsPart AreFirstCuts RefusesFirstCuts part.Record name.now
        (S.state shelf.old) (S.state shelf.new) result }
    ensures lawful { IfOk result IsRecordFile }
    ensures cuts { IfOk result AreCuts }
    ensures reads { OnlyReadsFile name.now (S.state shelf.old) (S.state shelf.new) }
{
    match read_version_one_cuts(alloc, shelf, name.as_text()) {
        Ok(record_file) => Ok(record_file),
        Err(error) => Err(read_fault(FileOf::Record, error)),
    }
}

/// The pair of a map file and a record file.
pub(crate) fn pair_of(map_file: MapFile, record_file: RecordFile) -> Pair
    requires version { IsVersionOneMap map_file }
    requires cuts { AreCuts record_file }
    ensures map { map_file ≡ CellMap result.map result.samples Version.One }
    ensures cuts { record_file ≡ Cuts result.head result.cuts }
{
    match (map_file, record_file) {
        (MapFile::Cells { map, samples, .. }, RecordFile::Cuts { head, cuts }) => Pair {
            map,
            samples,
            head,
            cuts,
        },
        _ => unreachable!(),
    }
}
