// Reading a clip.
ghost use Rattle.std.specs.Prelude.{◌≤◌, IfOk};
ghost use Rattle.shelf_traits.specs.Files.{OnlyReadsFile};
ghost use Rattle.y4m_clip.specs.Refusals.{ReadsClipAs, IsSoundClip};

use crate::form::Clip;
use crate::frames::read_frames;
use crate::head::front_of;
use crate::line::read_line;
use cells::{Size, Volume};
use limits::MOST_CELLS;
use shelf_traits::{ReadError, Shelf};
use std::alloc::Global;

/// Reads a clip of at most `most` cells from the named file, to the file's end.
///
/// The refusals, in their order of trial: `ReadFault`, wherever a read fails; `Bad(Form)` in the stream
/// line; `Limit Header` for the stream line (4,096 bytes); `Bad(Space)` for a colour kind or an
/// interlacing that isn't read; `Bad(Cell)` for a width or height that isn't a whole number of cells;
/// `Limit Header` for the carried tags (4,000 bytes); `Limit Axis` (4,096), the width before the height;
/// `Limit Cells`, where one frame passes `most`; `Bad(NoFrames)`; and then in the order of the bytes
/// `Bad(Form)` in a frame, `Limit Header` for a frame line (4,096 bytes), and `Limit Axis` or
/// `Limit Cells` where a byte comes after the greatest number of frames. `NoMemory` may come at any
/// place.
pub fn read_clip<S: Shelf>(
    alloc: Global,
    shelf: &mut S,
    name: &str,
    most: u64,
) -> Result<Clip, ReadError>
    requires { most ≤ MOST_CELLS }
    ensures answer { ReadsClipAs most name.now (S.state shelf.old) (S.state shelf.new) result }
    ensures clip { IfOk result (IsSoundClip most) }
    ensures reads { OnlyReadsFile name.now (S.state shelf.old) (S.state shelf.new) }
{
    let line = read_line(alloc, shelf, name)?;
    let front = front_of(alloc, &line, most)?;
    drop(line);
    let filled = read_frames(alloc, shelf, name, &front, most)?;
    let size = Size {
        w: front.w,
        h: front.h,
        f: filled.count,
    };
    let volume = Volume::from_bytes(size, front.form.space.samples(), filled.bytes);
    Ok(Clip {
        form: front.form,
        volume,
    })
}
