// The out file.
ghost use Rattle.std.specs.Prelude.{◌≡◌, [], ◌∷◌, IfOk, OnErr, OnOk};
ghost use Rattle.cells.specs.Cells.{IsOnePart};
ghost use Rattle.cells.specs.Places.{HasAxes};
ghost use Rattle.shelf_traits.specs.Files.{Changes, OnlyWritesFile, WritesRose};
ghost use Rattle.shelf_traits.specs.Written.{HoldsPart, HoldsText};
ghost use Rattle.synth_report.specs.declared.fault.FileOf.TheVariants as part;
ghost use Rattle.command.specs.Writing.{file_text};
ghost use Rattle.y4m_clip.specs.Spaces.{samples_of};
ghost use Rattle.command_files.specs.Outs.{CanBeWriter, CanWrite, out_text, out_writer, whole_clip};

use cells::{Size, Volume};
use command::RunFiles;
use job_words::Name;
use netpbm_p6::write_p6;
use sample_files::Form;
use shelf_traits::{Shelf, WriteFault};
use std::alloc::{AllocError, Global};
use synth_report::FileOf;
use y4m_clip::ClipWriter;

/// What writes the out file, by its form.
#[derive(Drop)]
pub enum OutWriter {
    /// A P6 picture with this maxval.
    Picture { maxval: u8 },
    /// A clip, by a writer of its form and size.
    Clip { writer: ClipWriter },
}

/// The out file: a picture or a clip, and what writes it.
#[derive(Drop)]
pub struct OutFile<'a> {
    pub name: &'a Name,
    pub writer: OutWriter,
    pub picture: &'a Volume,
}

/// What writes an out file of a size in a form. The one error is out of memory.
pub fn writer_for(alloc: Global, form: &Form, size: Size) -> Result<OutWriter, AllocError>
    requires form { CanBeWriter form.now }
    requires axes { HasAxes size }
    ensures { IfOk result (λ writer. writer ≡ out_writer form.now size) }
{
    match form {
        Form::Picture { maxval } => Ok(OutWriter::Picture { maxval: *maxval }),
        Form::Clip { form } => Ok(OutWriter::Clip {
            writer: ClipWriter::make(alloc, form, size)?,
        }),
    }
}

// Writes a clip: the stream line, and then frame after frame.
fn write_clip<S: Shelf>(
    writer: &mut ClipWriter,
    volume: &Volume,
    shelf: &mut S,
    name: &str,
) -> Result<(), WriteFault>
    requires one { IsOnePart volume.now }
    requires width { volume.now.size.w ≡ writer.old.w }
    requires height { volume.now.size.h ≡ writer.old.h }
    requires samples { volume.now.k ≡ samples_of writer.old.kind }
    ensures ok { OnOk result (Changes (S.state shelf.old) (S.state shelf.new)
        (HoldsText name.now (whole_clip writer.old volume.now))) }
    ensures err { OnErr result (Changes (S.state shelf.old) (S.state shelf.new)
        (HoldsPart name.now (whole_clip writer.old volume.now))) }
    ensures writes { OnlyWritesFile name.now (S.state shelf.old) (S.state shelf.new) }
    ensures failed { OnErr result (WritesRose name.now (S.state shelf.old) (S.state shelf.new)) }
{
    writer.start(shelf, name)?;
    let frames = volume.size().f;
    for f in 0..frames {
        writer.frame(volume, f, shelf, name)?;
    }
    Ok(())
}

// Writes a volume by a writer that can write it.
fn write_out<S: Shelf>(
    writer: &mut OutWriter,
    volume: &Volume,
    shelf: &mut S,
    name: &str,
) -> Result<(), WriteFault>
    requires { CanWrite writer.old volume.now }
    ensures ok { OnOk result (Changes (S.state shelf.old) (S.state shelf.new)
        (HoldsText name.now (out_text writer.old volume.now))) }
    ensures err { OnErr result (Changes (S.state shelf.old) (S.state shelf.new)
        (HoldsPart name.now (out_text writer.old volume.now))) }
    ensures writes { OnlyWritesFile name.now (S.state shelf.old) (S.state shelf.new) }
    ensures failed { OnErr result (WritesRose name.now (S.state shelf.old) (S.state shelf.new)) }
{
    match writer {
        OutWriter::Picture { maxval } => write_p6(*maxval, volume, shelf, name),
        OutWriter::Clip { writer } => write_clip(writer, volume, shelf, name),
    }
}

impl RunFiles for OutFile<'_> {
    ghost texts = { λ file.
        file_text part.Out file.name.now (out_text file.writer file.picture.now) ∷ [] };

    ghost AreReady = { λ file. CanWrite file.writer file.picture.now };

    fn write<S: Shelf>(&mut self, shelf: &mut S) -> Result<(), FileOf> {
        match write_out(&mut self.writer, self.picture, shelf, self.name.as_text()) {
            Ok(()) => Ok(()),
            Err(WriteFault) => Err(FileOf::Out),
        }
    }
}
