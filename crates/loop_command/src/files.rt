// The files that a loop writes.
ghost use Rattle.std.specs.Prelude.{◌<◌, [], ◌∷◌, OnErr, OnOk};
ghost use Rattle.shelf_traits.specs.Files.{Changes, OnlyWritesFile, WritesRose};
ghost use Rattle.shelf_traits.specs.Written.{HoldsPart, HoldsText};
ghost use Rattle.source_map.specs.MapFiles.{IsFrameMap, frame_map_form};
ghost use Rattle.cert_file.specs.RecordFiles.{walk_file_form};
ghost use Rattle.cert_file.specs.WalkForms.{IsWalkInForm};
ghost use Rattle.synth_report.specs.declared.fault.FileOf.TheVariants as part;
ghost use Rattle.command.specs.Writing.{file_text};
ghost use Rattle.loop_command.specs.LoopOuts.{CanWriteFrames, walked_clip};

use cells::{Size, Taps, Volume};
use cert_file::{Head, write_walk};
use command::RunFiles;
use job_words::Name;
use shelf_traits::{Shelf, WriteFault};
use source_map::write_frame_map;
use synth_report::FileOf;
use y4m_clip::ClipWriter;

/// The out file: frames of a sample along a walk, written one by one.
#[derive(Drop)]
pub struct LoopFile<'a> {
    pub name: &'a Name,
    pub writer: ClipWriter,
    pub sample: &'a Volume,
    pub walk: &'a [u16],
}

/// The map file: a frame map.
#[derive(Drop)]
pub struct FrameMapFile<'a> {
    pub name: &'a Name,
    pub size: Size,
    pub sample: Size,
    pub frames: &'a [u16],
}

/// The record file: a walk, with its filter and gap and its tables.
#[derive(Drop)]
pub struct WalkFile<'a> {
    pub name: &'a Name,
    pub head: Head,
    pub taps: Taps,
    pub gap: u32,
    pub walk: &'a [u16],
    pub tables: &'a [u64],
}

// Writes a clip: the stream line, and then the frames along a walk, each straight from the sample.
fn write_frames<S: Shelf>(
    writer: &mut ClipWriter,
    sample: &Volume,
    walk: &[u16],
    shelf: &mut S,
    name: &str,
) -> Result<(), WriteFault>
    requires { CanWriteFrames writer.old sample.now walk.now }
    ensures ok { OnOk result (Changes (S.state shelf.old) (S.state shelf.new)
        (HoldsText name.now (walked_clip writer.old sample.now walk.now))) }
    ensures err { OnErr result (Changes (S.state shelf.old) (S.state shelf.new)
        (HoldsPart name.now (walked_clip writer.old sample.now walk.now))) }
    ensures writes { OnlyWritesFile name.now (S.state shelf.old) (S.state shelf.new) }
    ensures failed { OnErr result (WritesRose name.now (S.state shelf.old) (S.state shelf.new)) }
{
    writer.start(shelf, name)?;
    for f in walk {
        writer.frame(sample, u32::from(*f), shelf, name)?;
    }
    Ok(())
}

impl RunFiles for LoopFile<'_> {
    ghost texts = { λ file.
        file_text part.Out file.name.now (walked_clip file.writer file.sample.now file.walk.now)
        ∷ [] };

    ghost AreReady = { λ file. CanWriteFrames file.writer file.sample.now file.walk.now };

    fn write<S: Shelf>(&mut self, shelf: &mut S) -> Result<(), FileOf> {
        match write_frames(
            &mut self.writer,
            self.sample,
            self.walk,
            shelf,
            self.name.as_text(),
        ) {
            Ok(()) => Ok(()),
            Err(WriteFault) => Err(FileOf::Out),
        }
    }
}

impl RunFiles for FrameMapFile<'_> {
    ghost texts = { λ file.
        file_text part.Map file.name.now (frame_map_form file.size file.sample file.frames.now)
        ∷ [] };

    ghost AreReady = { λ file. IsFrameMap file.size file.sample file.frames.now };

    fn write<S: Shelf>(&mut self, shelf: &mut S) -> Result<(), FileOf> {
        match write_frame_map(
            self.size,
            self.sample,
            self.frames,
            shelf,
            self.name.as_text(),
        ) {
            Ok(()) => Ok(()),
            Err(WriteFault) => Err(FileOf::Map),
        }
    }
}

impl RunFiles for WalkFile<'_> {
    ghost texts = { λ file.
        file_text part.Record file.name.now
        (walk_file_form file.head file.taps file.gap file.walk.now file.tables.now) ∷ [] };

    ghost AreReady = { λ file.
        IsWalkInForm file.head file.gap file.walk.now file.tables.now };

    fn write<S: Shelf>(&mut self, shelf: &mut S) -> Result<(), FileOf> {
        match write_walk(
            &self.head,
            self.taps,
            self.gap,
            self.walk,
            self.tables,
            shelf,
            self.name.as_text(),
        ) {
            Ok(()) => Ok(()),
            Err(WriteFault) => Err(FileOf::Record),
        }
    }
}
