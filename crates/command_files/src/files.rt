// The files of maps and of cut records.
ghost use Rattle.std.specs.Prelude.{[], ◌∷◌};
ghost use Rattle.source_map.specs.MapFiles.{IsWritable, cell_map_form};
ghost use Rattle.cert_file.specs.RecordFiles.{AreCutsInForm, cuts_form};
ghost use Rattle.command.specs.Writing.{file_text};

use cells::Sizes;
use cert_file::{CutRecord, Head, write_cuts};
use command::RunFiles;
use job_words::Name;
use shelf_traits::{Shelf, WriteFault};
use source_map::{Map, Version, write_cell_map};
use synth_report::FileOf;

/// The file of a full map, over samples of these sizes.
#[derive(Drop)]
pub struct CellMapFile<'a> {
    /// Its part in the run.
    pub part: FileOf,
    pub name: &'a Name,
    pub map: &'a Map,
    pub samples: Sizes,
    pub version: Version,
}

/// The file of cut records.
#[derive(Drop)]
pub struct CutsFile<'a> {
    /// Its part in the run.
    pub part: FileOf,
    pub name: &'a Name,
    pub head: Head,
    pub cuts: &'a [CutRecord],
}

impl RunFiles for CellMapFile<'_> {
    ghost texts = { λ file.
        file_text file.part file.name.now (cell_map_form file.map.now file.samples file.version)
        ∷ [] };

    ghost AreReady = { λ file. IsWritable file.map.now file.samples file.version };

    fn write<S: Shelf>(&mut self, shelf: &mut S) -> Result<(), FileOf> {
        match write_cell_map(
            self.map,
            &self.samples,
            self.version,
            shelf,
            self.name.as_text(),
        ) {
            Ok(()) => Ok(()),
            Err(WriteFault) => Err(self.part),
        }
    }
}

impl RunFiles for CutsFile<'_> {
    ghost texts = { λ file.
        file_text file.part file.name.now (cuts_form file.head file.cuts.now) ∷ [] };

    ghost AreReady = { λ file. AreCutsInForm file.head file.cuts.now };

    fn write<S: Shelf>(&mut self, shelf: &mut S) -> Result<(), FileOf> {
        match write_cuts(&self.head, self.cuts, shelf, self.name.as_text()) {
            Ok(()) => Ok(()),
            Err(WriteFault) => Err(self.part),
        }
    }
}
