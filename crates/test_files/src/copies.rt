// Files that are read and written again, and calls that fail while they are.
ghost use Rattle.cert_file.specs.RecordFiles.{IsRecordFile};
ghost use Rattle.source_map.specs.MapFiles.{IsMapFile};
ghost use Rattle.y4m_clip.specs.Writing.{IsForm};

use crate::clips::TWO_CELLS;
use crate::expect::expect_none;
use crate::files::shelf_with;
use crate::map_files::{COPIES, FRAMES, NUMBERED, PLAIN};
use crate::pictures::FOUR_BY_ONE;
use crate::records;
use cells::{Size, Volume};
use cert_file::{RecordFile, read_record_file, write_blocks, write_cuts, write_walk};
use netpbm_p6::{read_p6, write_p6};
use shelf_core::ReadError::ReadFault;
use shelf_core::{Call, MemShelf, ReadError, WriteFault};
use source_map::{MapFile, read_map, write_cell_map, write_frame_map};
use std::alloc::{AllocError, Global};
use y4m_clip::{ClipForm, ClipWriter, SpaceKind, read_clip};

// How a file is copied.
#[derive(Drop)]
enum Kind {
    Picture,
    Clip,
    // A clip of other cells, in the form of the one that is read.
    OtherClip,
    Map,
    Record,
}

// Whether a clip that was read is written, frame by frame.
fn copy_clip(alloc: Global, shelf: &mut MemShelf) -> Result<bool, ReadError> {
    let clip = read_clip(alloc, shelf, "file", 64)?;
    let size = clip.volume.size();
    let mut writer = ClipWriter::make(alloc, &clip.form, size)?;
    let mut is_written = writer.start(shelf, "out").is_ok();
    for f in 0..size.f {
        is_written = is_written && writer.frame(&clip.volume, f, shelf, "out").is_ok();
    }
    Ok(is_written)
}

// Whether three cells of a row, the third as the first, are written in a form.
fn write_wider(alloc: Global, form: &ClipForm, shelf: &mut MemShelf) -> Result<bool, AllocError>
    requires { IsForm form.now }
{
    if form.space != SpaceKind::C420 {
        return Ok(false);
    }
    let cells = b"\x01\x02\x05\x06\x09\x0b\x03\x04\x07\x08\x0a\x0c\x01\x02\x05\x06\x09\x0b";
    let size = Size { w: 3, h: 1, f: 1 };
    let volume = Volume::from_bytes(size, 6, Vec::from_slice(alloc, cells)?);
    let mut writer = ClipWriter::make(alloc, form, size)?;
    let is_begun = writer.start(shelf, "out").is_ok();
    Ok(is_begun & writer.frame(&volume, 0, shelf, "out").is_ok())
}

fn write_map(file: &MapFile, shelf: &mut MemShelf) -> Result<(), WriteFault>
    requires { IsMapFile file.now }
{
    match file {
        MapFile::Cells {
            map,
            samples,
            version,
        } => write_cell_map(map, samples, *version, shelf, "out"),
        MapFile::Frames {
            size,
            sample,
            frames,
        } => write_frame_map(*size, *sample, frames.as_slice(), shelf, "out"),
    }
}

fn write_record(file: &RecordFile, shelf: &mut MemShelf) -> Result<(), WriteFault>
    requires { IsRecordFile file.now }
{
    match file {
        RecordFile::Cuts { head, cuts } => write_cuts(head, cuts.as_slice(), shelf, "out"),
        RecordFile::Blocks { head, blocks } => write_blocks(head, blocks.as_slice(), shelf, "out"),
        RecordFile::Walk {
            head,
            taps,
            gap,
            walk,
            tables,
        } => write_walk(
            head,
            *taps,
            *gap,
            walk.as_slice(),
            tables.as_slice(),
            shelf,
            "out",
        ),
    }
}

// Reads the file of a store and writes `out`: whether that is written whole, or why the file isn't
// read.
fn copy(alloc: Global, kind: &Kind, shelf: &mut MemShelf) -> Result<bool, ReadError> {
    match kind {
        Kind::Picture => {
            let picture = read_p6(alloc, shelf, "file")?;
            Ok(write_p6(picture.maxval, &picture.volume, shelf, "out").is_ok())
        }
        Kind::Clip => copy_clip(alloc, shelf),
        Kind::OtherClip => {
            let clip = read_clip(alloc, shelf, "file", 2)?;
            Ok(write_wider(alloc, &clip.form, shelf)?)
        }
        Kind::Map => {
            let file = read_map(alloc, shelf, "file")?;
            Ok(write_map(&file, shelf).is_ok())
        }
        Kind::Record => {
            let file = read_record_file(alloc, shelf, "file")?;
            Ok(write_record(&file, shelf).is_ok())
        }
    }
}

// A call that fails after so many others of its kind, and how many bytes of its piece it keeps.
type Failing = Option<(Call, u8, usize)>;

// How a file is copied, the file, a call that fails, what comes of it, and what is written then.
type Row<'a> = (Kind, &'a [u8], Failing, Result<bool, ReadError>, &'a [u8]);

const WRITTEN: Result<bool, ReadError> = Ok(true);

const FAILED: Result<bool, ReadError> = Ok(false);

const ROWS: &[Row<'static>] = &[
    (Kind::Picture, FOUR_BY_ONE, None, WRITTEN, FOUR_BY_ONE),
    (
        Kind::Picture,
        FOUR_BY_ONE,
        Some((Call::Add, 7, 2)),
        FAILED,
        b"P6\n4 1\n255\nab",
    ),
    (
        Kind::Picture,
        FOUR_BY_ONE,
        Some((Call::Get, 0, 0)),
        Err(ReadFault),
        b"",
    ),
    (
        Kind::Picture,
        FOUR_BY_ONE,
        Some((Call::Get, 1, 0)),
        Err(ReadFault),
        b"",
    ),
    (
        Kind::Picture,
        FOUR_BY_ONE,
        Some((Call::Get, 2, 0)),
        Err(ReadFault),
        b"",
    ),
    (Kind::Clip, TWO_CELLS, None, WRITTEN, TWO_CELLS),
    (
        Kind::Clip,
        b"YUV4MPEG2  H2 X Cmono  W2 X \nFRAME Ip\n0123FRAME\n4567",
        None,
        WRITTEN,
        b"YUV4MPEG2 W2 H2 X Cmono X\nFRAME\n0123FRAME\n4567",
    ),
    (
        Kind::Clip,
        b"YUV4MPEG2 W2 H2 C444\nFRAME\n0123abcdABCDFRAME\n4567efghEFGH",
        None,
        WRITTEN,
        b"YUV4MPEG2 W2 H2 C444\nFRAME\n0123abcdABCDFRAME\n4567efghEFGH",
    ),
    (
        Kind::Clip,
        b"YUV4MPEG2 W4 H2 C422\nFRAME\n01234567abcdABCD",
        None,
        WRITTEN,
        b"YUV4MPEG2 W4 H2 C422\nFRAME\n01234567abcdABCD",
    ),
    (
        Kind::Clip,
        b"YUV4MPEG2 W8 H2 C411 Ib\nFRAME\n0123456789abcdefwxyzWXYZ",
        None,
        WRITTEN,
        b"YUV4MPEG2 W8 H2 C411 Ib\nFRAME\n0123456789abcdefwxyzWXYZ",
    ),
    (
        Kind::Clip,
        b"YUV4MPEG2 W4 H4\nFRAME\n0123456789abcdefwxyzWXYZ",
        None,
        WRITTEN,
        b"YUV4MPEG2 W4 H4\nFRAME\n0123456789abcdefwxyzWXYZ",
    ),
    (
        Kind::Clip,
        b"YUV4MPEG2 H0002 W02\nFRAME\n0123aA",
        None,
        WRITTEN,
        b"YUV4MPEG2 W2 H2\nFRAME\n0123aA",
    ),
    (Kind::OtherClip, TWO_CELLS, None, WRITTEN, WIDER),
    (
        Kind::Clip,
        TWO_CELLS,
        Some((Call::Begin, 0, 0)),
        FAILED,
        b"",
    ),
    (
        Kind::Clip,
        TWO_CELLS,
        Some((Call::Add, 0, 3)),
        FAILED,
        b"YUV",
    ),
    (
        Kind::Clip,
        TWO_CELLS,
        Some((Call::Add, 1, 4)),
        FAILED,
        b"YUV4MPEG2 W4 H2 F25:1 Ip A1:1 C420jpeg XYSCSS=420JPEG\nFRAM",
    ),
    (
        Kind::Clip,
        TWO_CELLS,
        Some((Call::Add, 2, 7)),
        FAILED,
        b"YUV4MPEG2 W4 H2 F25:1 Ip A1:1 C420jpeg XYSCSS=420JPEG\nFRAME\n\x01\x02\x03\x04\x05\x06\x07",
    ),
    (Kind::Map, &COPIES, None, WRITTEN, &COPIES),
    (Kind::Map, &PLAIN, None, WRITTEN, &PLAIN),
    (Kind::Map, &NUMBERED, None, WRITTEN, &NUMBERED),
    (Kind::Map, &FRAMES, None, WRITTEN, &FRAMES),
    (Kind::Map, &COPIES, Some((Call::Begin, 0, 0)), FAILED, b""),
    (Kind::Map, &COPIES, Some((Call::Add, 0, 0)), FAILED, b""),
    (
        Kind::Map,
        &COPIES,
        Some((Call::Add, 0, 42)),
        FAILED,
        b"WEAVEMAP\x01\0\0\0\0\x03\0\0\0\x02\0\0\0\x01\0\0\0\x01\0\0\0\x01\0\0\0\x01\0\0\0\0\0\0\0\0",
    ),
    (Kind::Record, records::TWO, None, WRITTEN, records::TWO),
    (Kind::Record, records::THREE, None, WRITTEN, records::THREE),
    (
        Kind::Record,
        records::NUMBERED,
        None,
        WRITTEN,
        records::NUMBERED,
    ),
    (Kind::Record, records::WALK, None, WRITTEN, records::WALK),
    (
        Kind::Record,
        records::BLOCKS,
        None,
        WRITTEN,
        records::BLOCKS,
    ),
];

const WIDER: &[u8] =
    b"YUV4MPEG2 W6 H2 F25:1 Ip A1:1 C420jpeg XYSCSS=420JPEG\nFRAME\n\x01\x02\x03\x04\x01\x02\x05\x06\x07\x08\x05\x06\x09\x0a\x09\x0b\x0c\x0b";

// Whether the file of a store is copied as a row says.
fn leaves(alloc: Global, shelf: &mut MemShelf, row: &Row) -> Result<bool, AllocError> {
    let (kind, _, failing, answer, left) = row;
    if let Some((call, before, kept)) = failing {
        let name = match call {
            Call::Get => "file",
            Call::Begin | Call::Add => "out",
        };
        shelf.fail_at(*call, name, u32::from(*before) + 1, *kept)?;
    }
    let found = copy(alloc, kind, shelf);
    let faults = shelf.read_faults().wrapping_add(shelf.write_faults());
    let are_told = faults == u64::from(failing.is_some());
    let is_left = shelf.file("out").unwrap_or(b"") == *left;
    Ok((found == *answer) & is_left & are_told)
}

fn is_copied(alloc: Global, row: &Row) -> Result<bool, AllocError> {
    let mut shelf = shelf_with(alloc, row.1)?;
    leaves(alloc, &mut shelf, row)
}

// The number of the first row, from 0, whose file isn't copied so.
fn wrong_copy(alloc: Global) -> Result<Option<usize>, AllocError> {
    for (i, row) in ROWS.iter().enumerate() {
        if !is_copied(alloc, row)? {
            return Ok(Some(i));
        }
    }
    Ok(None)
}

#[test]
fn copies(rt: HostRuntime) {
    expect_none(&rt, wrong_copy(rt.alloc()));
}
