// Reading all frames of a clip.
ghost use Rattle.std.specs.Prelude.{◌≡◌, ◌≤◌, ◌<◌, ◌+◌, ◌*◌, ◌/◌, length, min, IfOk};
ghost use Rattle.shelf_traits.specs.Files.{OnlyReadsFile};
ghost use Rattle.y4m_clip.specs.Frames.{FramesAs, PassesFrames, finished, IsSoundFront, IsFilledSoFar};
ghost use Rattle.y4m_clip.specs.Clips.{most_frames};
ghost use Rattle.y4m_clip.specs.Spaces.{samples_of};

use crate::form::SpaceKind;
use crate::frame::read_frame;
use crate::head::Front;
use limits::{GREATEST_AXIS, MOST_CELLS, MOST_LINE_BYTES};
use shelf_traits::{FormFault, ReadError, Shelf, What};
use std::alloc::{AllocError, Global};

/// The bytes of the cells of some frames, and how many frames there are.
#[derive(Drop)]
pub struct Filled {
    pub bytes: Vec<u8>,
    pub count: u32,
}

// The greatest number of frames of w x h cells.
fn bound_of(w: u32, h: u32, most: u64) -> u64
    requires w { (1 ≤ w) × (w ≤ GREATEST_AXIS) }
    requires h { (1 ≤ h) × (h ≤ GREATEST_AXIS) }
    ensures { result ≡ most_frames w h most }
{
    u64::from(GREATEST_AXIS).min(most / (u64::from(w) * u64::from(h)))
}

// The refusal of a byte after so many frames.
fn past(w: u32, h: u32, most: u64, count: u64) -> ReadError
    requires cells { w * h ≤ MOST_CELLS }
    requires count { count ≤ GREATEST_AXIS }
    ensures { PassesFrames w h most count result }
{
    if count == u64::from(GREATEST_AXIS) {
        return ReadError::Limit {
            what: What::Axis,
            number: u64::from(GREATEST_AXIS) + 1,
            bound: u64::from(GREATEST_AXIS),
        };
    }
    ReadError::Limit {
        what: What::Cells,
        number: u64::from(w) * u64::from(h) * (count + 1),
        bound: most,
    }
}

/// A buffer for the planes of a frame of n cells.
pub fn room_for(alloc: Global, space: SpaceKind, n: usize) -> Result<Vec<u8>, AllocError>
    requires { n ≤ MOST_CELLS }
    ensures { IfOk result (λ planes. length planes.items ≡ samples_of space * n) }
{
    vec![in alloc; 0u8; space.samples() as usize * n]
}

/// Reads all frames of a clip, to the file's end.
pub fn read_frames<S: Shelf>(
    alloc: Global,
    shelf: &mut S,
    name: &str,
    front: &Front,
    most: u64,
) -> Result<Filled, ReadError>
    requires { IsSoundFront front.now most }
    ensures frames { FramesAs front.now.form.space front.now.w front.now.h front.now.start most
        name.now (S.state shelf.old) (S.state shelf.new) result }
    ensures filled { IfOk result (IsFilledSoFar front.now most) }
    ensures reads { OnlyReadsFile name.now (S.state shelf.old) (S.state shelf.new) }
{
    let n = front.w as usize * front.h as usize;
    let mut planes = room_for(alloc, front.form.space, n)?;
    let bound = bound_of(front.w, front.h, most);
    let mut bytes = Vec::new(alloc);
    let mut at = front.start;
    for count in 0..bound {
        match read_frame(shelf, name, at, front, &mut planes, &mut bytes)? {
            Some(next) => at = next,
            None => return finish(bytes, count as u32),
        }
    }
    let mut next = [0u8; 1];
    let more = shelf.get(name, at, &mut next)?;
    if more > 0 {
        return Err(past(front.w, front.h, most, bound));
    }
    Ok(Filled {
        bytes,
        count: bound as u32,
    })
}

// The cells of so many frames, after which the file ends.
fn finish(bytes: Vec<u8>, count: u32) -> Result<Filled, ReadError>
    ensures { result ≡ finished bytes count }
{
    if count == 0 {
        return Err(ReadError::Bad(FormFault::NoFrames));
    }
    Ok(Filled { bytes, count })
}
