// Clips, both ways. The files lie in memory.
ghost use Rattle.std.specs.Prelude.{IfOk};
ghost use Rattle.bench.specs.declared.clips.TheConstants.{MOST};
ghost use Rattle.y4m_clip.specs.Refusals.{IsSoundClip};

use crate::record_files::Way;
use crate::samples::mixed;
use shelf_core::SureShelf;
use std::alloc::{AllocError, Global};
use y4m_clip::{Clip, ClipWriter, read_clip};

// The most cells that a clip may have.
const MOST: u64 = 33554432;

// Adds a frame of so many bytes.
fn add_frame(f: u32, planes: u32, bytes: &mut Vec<u8>) -> Result<(), AllocError> {
    bytes.extend_from_slice(b"FRAME\n")?;
    for i in 0..planes {
        bytes.push((mixed(i, f) >> 24) as u8)?;
    }
    Ok(())
}

fn add_frames(frames: u32, planes: u32, bytes: &mut Vec<u8>) -> Result<(), AllocError> {
    for f in 0..frames {
        add_frame(f, planes, bytes)?;
    }
    Ok(())
}

fn clip_in(alloc: Global, shelf: &mut SureShelf) -> Result<Clip, AllocError>
    ensures { IfOk result (IsSoundClip MOST) }
{
    let Ok(clip) = read_clip(alloc, shelf, "clip", MOST) else {
        return Err(AllocError);
    };
    Ok(clip)
}

// Reads so often. The number counts the bytes of the cells.
fn read_often(alloc: Global, shelf: &mut SureShelf, times: u32) -> Result<u64, AllocError> {
    let mut number = 0u64;
    for _time in 0..times {
        let clip = clip_in(alloc, shelf)?;
        number = number.wrapping_add(clip.volume.bytes().len() as u64);
    }
    Ok(number)
}

// Writes a clip.
fn write(alloc: Global, clip: &Clip, shelf: &mut SureShelf) -> Result<(), AllocError>
    requires { IsSoundClip MOST clip.now }
{
    let size = clip.volume.size();
    let mut writer = ClipWriter::make(alloc, &clip.form, size)?;
    if writer.start(shelf, "out").is_err() {
        return Err(AllocError);
    }
    for f in 0..size.f {
        if writer.frame(&clip.volume, f, shelf, "out").is_err() {
            return Err(AllocError);
        }
    }
    Ok(())
}

fn write_all(
    alloc: Global,
    clip: &Clip,
    shelf: &mut SureShelf,
    times: u32,
) -> Result<(), AllocError>
    requires { IsSoundClip MOST clip.now }
{
    for _time in 0..times {
        write(alloc, clip, shelf)?;
    }
    Ok(())
}

// Reads once, and writes so often. The number is of the bytes written.
fn write_often(alloc: Global, shelf: &mut SureShelf, times: u32) -> Result<u64, AllocError> {
    let clip = clip_in(alloc, shelf)?;
    let written = write_all(alloc, &clip, shelf, times);
    drop(clip);
    written?;
    match shelf.file("out") {
        Some(bytes) => Ok(bytes.len() as u64),
        None => Ok(0),
    }
}

/// Reads or writes so often a clip of so many frames of so many bytes, with this stream line.
pub fn move_frames(
    alloc: Global,
    line: &[u8],
    frames: u32,
    planes: u32,
    way: &Way,
    times: u32,
) -> Result<u64, AllocError> {
    let mut bytes = Vec::from_slice(alloc, line)?;
    add_frames(frames, planes, &mut bytes)?;
    let room = bytes.len().saturating_mul(2).saturating_add(64);
    let mut shelf = SureShelf::make(alloc, room)?;
    shelf.put_file("clip", &bytes);
    drop(bytes);
    let number = match way {
        Way::Write => write_often(alloc, &mut shelf, times),
        _ => read_often(alloc, &mut shelf, times),
    };
    drop(shelf);
    number
}
