// Reading the frames of a clip.
ghost use Rattle.std.specs.Prelude.{◌≡◌, ◌≤◌, ◌<◌, ◌+◌, ◌*◌, ◌^◌, length, IfOk, IfSome, IfNone, ◌≢◌};
ghost use Rattle.std.specs.List.{AllByRecursion};
ghost use Rattle.shelf_traits.specs.Files.{OnlyReadsFile};
ghost use Rattle.y4m_clip.specs.Frames.{IsFirstEnd, IsEarly, IsFrameScanned, frame_judged, FillsPlanesAs, ReadsFrameAs, grown_by};
ghost use Rattle.y4m_clip.specs.Clips.{frame_cells};
ghost use Rattle.y4m_clip.specs.Spaces.{samples_of};

use crate::head::Front;
use crate::line::{LINE_ROOM, matched, too_long};
use crate::planes::add_frame;
use limits::{MOST_CELLS, MOST_LINE_BYTES};
use shelf_traits::{FormFault, ReadError, Shelf};
use std::alloc::AllocError;

/// What the front of a frame is.
#[derive(Clone, Copy)]
pub enum FrameScan {
    /// No byte.
    Nothing,
    /// A frame line that goes on.
    Open,
    /// The byte at this index has no place in a frame line.
    Wrong(usize),
    /// A frame line of so many bytes.
    Whole(usize),
}

// Where the first LF is.
fn end_of(words: &[u8]) -> Option<usize>
    ensures none { IfNone result (AllByRecursion (λ b. b ≢ 10) words.now) }
    ensures some { IfSome result (IsFirstEnd words.now) }
{
    for (i, byte) in words.iter().enumerate() {
        if *byte == b'\n' {
            return Some(i);
        }
    }
    None
}

// Scans the front of a frame.
fn scan_frame(text: &[u8]) -> FrameScan
    ensures scanned { IsFrameScanned text.now result }
    ensures early { IsEarly result }
{
    let n = matched(text, b"FRAME");
    if n < 5 {
        return if n < text.len() {
            FrameScan::Wrong(n)
        } else if n == 0 {
            FrameScan::Nothing
        } else {
            FrameScan::Open
        };
    }
    if text.len() == 5 {
        return FrameScan::Open;
    }
    match text[5] {
        b'\n' => FrameScan::Whole(6),
        b' ' => match end_of(&text[6..]) {
            None => FrameScan::Open,
            Some(i) => FrameScan::Whole(7 + i),
        },
        _ => FrameScan::Wrong(5),
    }
}

// The length of the frame line at a place, or its refusal, where `count` bytes were scanned; None
// where the file ends.
fn judge(scan: FrameScan, at: u64, count: usize) -> Result<Option<usize>, ReadError>
    requires at { at < 2 ^ 62 }
    requires count { count < 2 ^ 62 }
    requires early { IsEarly scan }
    ensures judged { result ≡ frame_judged at count scan }
    ensures short { IfOk result (λ found. IfSome found (λ n. n ≤ MOST_LINE_BYTES)) }
{
    match scan {
        FrameScan::Nothing => Ok(None),
        FrameScan::Open => if count as u64 > MOST_LINE_BYTES {
            Err(too_long())
        } else {
            Err(ReadError::Bad(FormFault::Form(at + count as u64)))
        },
        FrameScan::Wrong(i) => Err(ReadError::Bad(FormFault::Form(at + i as u64))),
        FrameScan::Whole(n) => if n as u64 > MOST_LINE_BYTES {
            Err(too_long())
        } else {
            Ok(Some(n))
        },
    }
}

/// Fills the planes of a frame from a place of the file.
pub fn fill_planes<S: Shelf>(
    shelf: &mut S,
    name: &str,
    start: u64,
    planes: &mut [u8],
) -> Result<(), ReadError>
    requires { start + length planes.old < 2 ^ 63 }
    ensures fills { FillsPlanesAs name.now start planes.new (S.state shelf.old)
        (S.state shelf.new) result }
    ensures reads { OnlyReadsFile name.now (S.state shelf.old) (S.state shelf.new) }
{
    let count = shelf.get(name, start, planes)?;
    if count < planes.len() {
        return Err(ReadError::Bad(FormFault::Form(start + count as u64)));
    }
    Ok(())
}

/// Reads the frame at a place of the file, by its planes, and adds its cells. It gives the place after
/// the frame; None where the file ends.
pub fn read_frame<S: Shelf>(
    shelf: &mut S,
    name: &str,
    at: u64,
    front: &Front,
    planes: &mut Vec<u8>,
    cells: &mut Vec<u8>,
) -> Result<Option<u64>, ReadError>
    requires at { at < 2 ^ 61 }
    requires planes { length planes.old.items ≡
        samples_of front.now.form.space * (front.now.w * front.now.h) }
    requires few { front.now.w * front.now.h ≤ MOST_CELLS }
    ensures frame { ReadsFrameAs front.now.form.space front.now.w front.now.h name.now at
        planes.new.items (S.state shelf.old) (S.state shelf.new) result }
    ensures cells { IfOk result (λ next. cells.new.items ≡ grown_by cells.old.items
        (frame_cells front.now.form.space front.now.w front.now.h planes.new.items) next) }
    ensures next { IfOk result (λ found. IfSome found
        (λ next. next ≤ at + MOST_LINE_BYTES + length planes.new.items)) }
    ensures planes { length planes.new.items ≡
        samples_of front.now.form.space * (front.now.w * front.now.h) }
    ensures reads { OnlyReadsFile name.now (S.state shelf.old) (S.state shelf.new) }
{
    let mut buffer = [0u8; LINE_ROOM];
    let count = shelf.get(name, at, &mut buffer)?;
    let Some(length) = judge(scan_frame(&buffer[..count]), at, count)? else {
        return Ok(None);
    };
    let start = at + length as u64;
    fill_planes(shelf, name, start, planes)?;
    make_room(cells, planes.len())?;
    add_frame(
        front.form.space,
        front.w as usize,
        front.h as usize,
        planes,
        cells,
    )?;
    Ok(Some(start + planes.len() as u64))
}

// Makes room for a frame's cells: for an eighth more than there are, where that is more.
fn make_room(cells: &mut Vec<u8>, count: usize) -> Result<(), AllocError>
    ensures { cells.new.items ≡ cells.old.items }
{
    if cells.capacity() - cells.len() >= count {
        return Ok(());
    }
    cells.reserve_exact(count.max(cells.len() / 8))
}
