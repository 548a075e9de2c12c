// Writing a clip, frame by frame.
ghost use Rattle.std.specs.Prelude.{◌≡◌, ◌<◌, ◌*◌, ◌++◌, length, decimal, IfOk, OnOk, OnErr};
ghost use Rattle.cells.specs.Places.{HasAxes};
ghost use Rattle.cells.specs.Cells.{IsOnePart};
ghost use Rattle.shelf_traits.specs.Files.{Changes, Appends, AppendsPart, OnlyWritesFile, WritesRose};
ghost use Rattle.shelf_traits.specs.Written.{HoldsText, HoldsPart};
ghost use Rattle.y4m_clip.specs.Spaces.{samples_of};
ghost use Rattle.y4m_clip.specs.Clips.{spaced};
ghost use Rattle.y4m_clip.specs.Writing.{IsForm, line_form, frame_form, writer_of};

use crate::form::{ClipForm, SpaceKind};
use crate::frames::room_for;
use crate::lay::lay_planes;
use cells::{Size, Volume};
use items::Items;
use itoa::Buffer;
use shelf_traits::{Shelf, WriteFault};
use std::alloc::{AllocError, Global};
use std::marker::Model;

/// Writes a clip, frame by frame. It holds the stream line, and room for the planes of one frame.
#[derive(Drop)]
pub struct ClipWriter {
    line: Vec<u8>,
    space: SpaceKind,
    w: u32,
    h: u32,
    planes: Vec<u8>,
}

impl Model for ClipWriter {
    ghost use Rattle.std.specs.Prelude.{◌≡◌, ◌*◌, length};
    ghost use Rattle.y4m_clip.specs.Spaces.{samples_of};
    ghost use Rattle.y4m_clip.specs.Writing.{Writer};

    ghost Value = { Writer };

    ghost view = { λ a. record { line = a.line.items; kind = a.space; w = a.w; h = a.h } };

    ghost invariant = { λ a. length a.planes.items ≡ samples_of a.space * (a.w * a.h) };
}

// Adds a number in decimal.
fn add_number(number: u32, line: &mut Vec<u8>) -> Result<(), AllocError>
    ensures { OnOk result (line.new.items ≡ line.old.items ++ decimal number) }
{
    let mut buffer = Buffer::new();
    line.extend_from_slice(buffer.format(number).as_bytes())
}

// Adds tags with one blank before each.
fn add_tags(tags: &[Items<u8>], line: &mut Vec<u8>) -> Result<(), AllocError>
    ensures { OnOk result (line.new.items ≡ line.old.items ++ spaced tags.now) }
{
    for tag in tags {
        line.push(b' ')?;
        line.extend_from_slice(tag.as_slice())?;
    }
    Ok(())
}

// The stream line of a form and a size.
fn line_of(alloc: Global, form: &ClipForm, size: Size) -> Result<Vec<u8>, AllocError>
    requires { HasAxes size }
    ensures { IfOk result (λ line. line.items ≡ line_form form.now size) }
{
    let mut line = Vec::new(alloc);
    line.extend_from_slice(b"YUV4MPEG2 W")?;
    add_number(form.space.cell_width() * size.w, &mut line)?;
    line.extend_from_slice(b" H")?;
    add_number(form.space.cell_height() * size.h, &mut line)?;
    add_tags(form.tags.as_slice(), &mut line)?;
    line.push(b'\n')?;
    Ok(line)
}

impl ClipWriter {
    /// A writer of frames of this form and size. The one error is out of memory.
    pub fn make(alloc: Global, form: &ClipForm, size: Size) -> Result<ClipWriter, AllocError>
        requires form { IsForm form.now }
        requires axes { HasAxes size }
        ensures { IfOk result (λ writer. writer ≡ writer_of form.now size) }
    {
        let line = line_of(alloc, form, size)?;
        let planes = room_for(alloc, form.space, size.w as usize * size.h as usize)?;
        Ok(ClipWriter {
            line,
            space: form.space,
            w: size.w,
            h: size.h,
            planes,
        })
    }

    /// Begins the named file with the stream line. It takes no memory.
    pub fn start<S: Shelf>(&mut self, shelf: &mut S, name: &str) -> Result<(), WriteFault>
        ensures ok { OnOk result (Changes (S.state shelf.old) (S.state shelf.new)
            (HoldsText name.now self.old.line)) }
        ensures err { OnErr result (Changes (S.state shelf.old) (S.state shelf.new)
            (HoldsPart name.now self.old.line)) }
        ensures same { self.new ≡ self.old }
        ensures writes { OnlyWritesFile name.now (S.state shelf.old) (S.state shelf.new) }
        ensures failed { OnErr result (WritesRose name.now (S.state shelf.old)
            (S.state shelf.new)) }
    {
        shelf.begin(name)?;
        shelf.add(name, &self.line)?;
        Ok(())
    }

    /// Adds frame f of a volume of one part, with the writer's width and height and as many samples a
    /// cell as its colour kind has. It takes no memory.
    pub fn frame<S: Shelf>(
        &mut self,
        from: &Volume,
        f: u32,
        shelf: &mut S,
        name: &str,
    ) -> Result<(), WriteFault>
        requires one { IsOnePart from.now }
        requires width { from.now.size.w ≡ self.old.w }
        requires height { from.now.size.h ≡ self.old.h }
        requires samples { from.now.k ≡ samples_of self.old.kind }
        requires frame { f < from.now.size.f }
        ensures ok { OnOk result (Changes (S.state shelf.old) (S.state shelf.new)
            (Appends name.now (frame_form self.old.kind from.now f))) }
        ensures err { OnErr result (Changes (S.state shelf.old) (S.state shelf.new)
            (AppendsPart name.now (frame_form self.old.kind from.now f))) }
        ensures same { self.new ≡ self.old }
        ensures writes { OnlyWritesFile name.now (S.state shelf.old) (S.state shelf.new) }
        ensures failed { OnErr result (WritesRose name.now (S.state shelf.old)
            (S.state shelf.new)) }
    {
        lay_planes(self.space, from, f, &mut self.planes);
        shelf.add(name, b"FRAME\n")?;
        shelf.add(name, &self.planes)?;
        Ok(())
    }
}
