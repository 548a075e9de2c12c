// The record file of a quilt.
ghost use Rattle.std.specs.Prelude.{[], ◌∷◌};
ghost use Rattle.cert_file.specs.RecordFiles.{AreBlocksInForm, blocks_form};
ghost use Rattle.synth_report.specs.declared.fault.FileOf.TheVariants as part;
ghost use Rattle.command.specs.Writing.{file_text};

use block_check::BlockRecord;
use cert_file::{Head, write_blocks};
use command::RunFiles;
use job_words::Name;
use shelf_traits::{Shelf, WriteFault};
use synth_report::FileOf;

/// The record file of blocks, in the order in which they are laid.
#[derive(Drop)]
pub struct BlocksFile<'a> {
    pub name: &'a Name,
    pub head: Head,
    pub blocks: &'a [BlockRecord],
}

impl RunFiles for BlocksFile<'_> {
    ghost texts = { λ file.
        file_text part.Record file.name.now (blocks_form file.head file.blocks.now) ∷ [] };

    ghost AreReady = { λ file. AreBlocksInForm file.head file.blocks.now };

    fn write<S: Shelf>(&mut self, shelf: &mut S) -> Result<(), FileOf> {
        match write_blocks(&self.head, self.blocks, shelf, self.name.as_text()) {
            Ok(()) => Ok(()),
            Err(WriteFault) => Err(FileOf::Record),
        }
    }
}
