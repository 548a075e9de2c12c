// Files that are refused, read by every command that reads such files: they break their form or
// pass a limit, or are cut off at each byte. What each breaks is said with the name of the file,
// and every file stays as it was.
use crate::samples::{FOUR_FRAMES, ONE_GREY, TWO_CELLS};
use crate::tables::expect_no_pair;
use crate::{looped, quilting};
use std::alloc::{AllocError, Global};
use std::process::Abort;
use test_stage::{BEFORE, FOUR_CELLS, File, OVERLAP_MAP, OVERLAP_PICTURE, OVERLAP_RECORD, Stage};

// A command that reads a file: its words, its other files, the name of the file, and what lines
// call it.
#[derive(Clone, Copy, Drop)]
struct Reader<'a> {
    words: &'a str,
    others: &'a [File<'a>],
    name: &'a str,
    said: &'a str,
}

const QUILT: Reader<'static> = Reader {
    words: "quilt sample=s out=o map=m record=r width=6 height=1",
    others: &[("o", BEFORE), ("m", BEFORE), ("r", BEFORE)],
    name: "s",
    said: "sample",
};

// Every command that reads a picture.
const PICTURE_READERS: &[Reader<'static>] = &[
    Reader {
        words: "grow sample=s out=o map=m record=r width=6 height=1",
        ..QUILT
    },
    Reader {
        words: "grow sample=t sample2=s out=o map=m record=r width=6 height=1",
        others: &[("t", ONE_GREY), ("o", BEFORE), ("m", BEFORE), ("r", BEFORE)],
        said: "sample2",
        ..QUILT
    },
    QUILT,
    Reader {
        words: "transfer sample=s target=t out=o map=m record=r",
        others: &[("t", BEFORE), ("o", BEFORE), ("m", BEFORE), ("r", BEFORE)],
        ..QUILT
    },
    Reader {
        words: "transfer sample=t target=s out=o map=m record=r",
        others: &[("t", ONE_GREY), ("o", BEFORE), ("m", BEFORE), ("r", BEFORE)],
        said: "target",
        ..QUILT
    },
    Reader {
        words: "tile sample=s out=o map=m width=6 height=6",
        others: &[("o", BEFORE), ("m", BEFORE)],
        ..QUILT
    },
    Reader {
        words: "merge sample=t sample2=s marks=k out=o map=m",
        others: &[("t", ONE_GREY), ("k", BEFORE), ("o", BEFORE), ("m", BEFORE)],
        said: "sample2",
        ..QUILT
    },
    Reader {
        words: "merge sample=t sample2=u marks=s out=o map=m",
        others: &[
            ("t", ONE_GREY),
            ("u", ONE_GREY),
            ("o", BEFORE),
            ("m", BEFORE),
        ],
        said: "marks",
        ..QUILT
    },
    Reader {
        words: "check sample=s out=o map=m record=r",
        ..QUILT
    },
    Reader {
        words: "check sample=t out=s map=m record=r",
        others: &[("t", FOUR_CELLS), ("m", OVERLAP_MAP), ("r", OVERLAP_RECORD)],
        said: "out",
        ..QUILT
    },
];

const LOOP: Reader<'static> = Reader {
    words: "loop sample=s out=o map=m record=r length=2",
    ..QUILT
};

// Every command that reads a clip.
const CLIP_READERS: &[Reader<'static>] = &[
    LOOP,
    Reader {
        words: "grow sample=s out=o map=m record=r width=6 height=1 frames=2",
        ..LOOP
    },
    Reader {
        words: "grow sample=t sample2=s out=o map=m record=r width=6 height=1",
        others: &[
            ("t", TWO_CELLS),
            ("o", BEFORE),
            ("m", BEFORE),
            ("r", BEFORE),
        ],
        said: "sample2",
        ..LOOP
    },
    Reader {
        words: "tile sample=s out=o map=m width=6 height=6",
        others: &[("o", BEFORE), ("m", BEFORE)],
        ..LOOP
    },
    Reader {
        words: "check sample=s out=o map=m record=r",
        ..LOOP
    },
    Reader {
        words: "check sample=t out=s map=m record=r",
        others: &[("t", FOUR_FRAMES), ("m", BEFORE), ("r", BEFORE)],
        said: "out",
        ..LOOP
    },
];

// Every command that reads a map of cells, and every one that reads a record of cuts.
const MAP_READERS: &[Reader<'static>] = &[
    Reader {
        words: "check sample=s out=o map=m record=r",
        others: &[
            ("s", FOUR_CELLS),
            ("o", OVERLAP_PICTURE),
            ("r", OVERLAP_RECORD),
        ],
        name: "m",
        said: "map",
    },
    Reader {
        words: "upgrade map=m record=r newmap=n newrecord=q",
        others: &[("r", BEFORE), ("n", BEFORE), ("q", BEFORE)],
        name: "m",
        said: "map",
    },
];

const RECORD_READERS: &[Reader<'static>] = &[
    Reader {
        words: "check sample=s out=o map=m record=r",
        others: &[
            ("s", FOUR_CELLS),
            ("o", OVERLAP_PICTURE),
            ("m", OVERLAP_MAP),
        ],
        name: "r",
        said: "record",
    },
    Reader {
        words: "upgrade map=m record=r newmap=n newrecord=q",
        others: &[("m", OVERLAP_MAP), ("n", BEFORE), ("q", BEFORE)],
        name: "r",
        said: "record",
    },
];

// The check of a quilt, and those of a loop.
const BLOCK_READERS: &[Reader<'static>] = &[Reader {
    words: "check sample=s out=o map=m record=r",
    others: &[
        ("s", FOUR_CELLS),
        ("o", quilting::PICTURE),
        ("m", quilting::MAP),
    ],
    name: "r",
    said: "record",
}];

const FRAME_READERS: &[Reader<'static>] = &[Reader {
    words: "check sample=s out=o map=m record=r",
    others: &[
        ("s", FOUR_FRAMES),
        ("o", looped::TWO_FRAMES),
        ("r", looped::RECORD),
    ],
    name: "m",
    said: "map",
}];

const WALK_READERS: &[Reader<'static>] = &[Reader {
    words: "check sample=s out=o map=m record=r",
    others: &[
        ("s", FOUR_FRAMES),
        ("o", looped::TWO_FRAMES),
        ("m", looped::MAP),
    ],
    name: "r",
    said: "record",
}];

// Runs a command over a stage without a file, and says whether it ends with this status and this
// line, and leaves every file as it was.
fn ends_so_on(
    stage: &mut Stage,
    reader: &Reader,
    bytes: &[u8],
    status: u8,
    line: &str,
) -> Result<bool, AllocError> {
    stage.put_files(reader.others)?;
    stage.put_file(reader.name, bytes)?;
    let is_ended = stage.ends(reader.words, status, "", line)?;
    Ok(is_ended && stage.has_files(reader.others) && stage.has_file(reader.name, bytes))
}

fn ends_so(
    alloc: Global,
    reader: &Reader,
    bytes: &[u8],
    status: u8,
    line: &str,
) -> Result<bool, AllocError> {
    let mut stage = Stage::new(alloc);
    let found = ends_so_on(&mut stage, reader, bytes, status, line);
    drop(stage);
    found
}

// Whether a command that reads these bytes ends with this status and says why, and leaves every
// file as it was. Only the line of a form names the file.
fn is_refused(
    alloc: Global,
    reader: &Reader,
    bytes: &[u8],
    status: u8,
    why: &str,
) -> Result<bool, AllocError> {
    let (said, colon) = if status == 3 {
        (reader.said, ": ")
    } else {
        ("", "")
    };
    let line = format!(in alloc; "weave: {said}{colon}{why}\n")?;
    ends_so(alloc, reader, bytes, status, line.as_str())
}

// The number of the first command, from 0, that doesn't refuse these bytes so.
fn wrong_reader(
    alloc: Global,
    readers: &[Reader],
    bytes: &[u8],
    status: u8,
    why: &str,
) -> Result<Option<usize>, AllocError> {
    for (i, reader) in readers.iter().enumerate() {
        if !is_refused(alloc, reader, bytes, status, why)? {
            return Ok(Some(i));
        }
    }
    Ok(None)
}

// The numbers of the first file and the first command, from 0, that aren't as they are to be.
fn wrong_file(
    alloc: Global,
    readers: &[Reader],
    table: &[(&[u8], u8, &str)],
) -> Result<Option<(usize, usize)>, AllocError> {
    for (i, (bytes, status, why)) in table.iter().enumerate() {
        if let Some(j) = wrong_reader(alloc, readers, *bytes, *status, *why)? {
            return Ok(Some((i, j)));
        }
    }
    Ok(None)
}

// Bytes of a file that are others, by their places, where one at its end is added; and how it is
// refused.
type Changed<'a> = (&'a [(usize, u8)], u8, &'a str);

/// The file with other bytes, of which one at its end is added.
pub fn changed(alloc: Global, file: &[u8], bytes: &[(usize, u8)]) -> Result<Vec<u8>, AllocError> {
    let mut all = Vec::from_slice(alloc, file)?;
    for (at, byte) in bytes.iter() {
        match all.get_mut(*at) {
            Some(old) => *old = *byte,
            None => all.push(*byte)?,
        }
    }
    Ok(all)
}

// The number of the first command, from 0, that doesn't refuse a change so.
fn wrong_changed(
    alloc: Global,
    readers: &[Reader],
    file: &[u8],
    change: &Changed,
) -> Result<Option<usize>, AllocError> {
    let (bytes, status, why) = *change;
    let other = changed(alloc, file, bytes)?;
    wrong_reader(alloc, readers, &other, status, why)
}

// The numbers of the first change and the first command, from 0, that aren't as they are to be.
fn wrong_changing(
    alloc: Global,
    readers: &[Reader],
    file: &[u8],
    table: &[Changed],
) -> Result<Option<(usize, usize)>, AllocError> {
    for (i, change) in table.iter().enumerate() {
        if let Some(j) = wrong_changed(alloc, readers, file, change)? {
            return Ok(Some((i, j)));
        }
    }
    Ok(None)
}

const PICTURES: &[(&[u8], u8, &str)] = &[
    (b"", 3, "form at 0"),
    (b"P5\n1 1\n255\nabc", 3, "form at 1"),
    (b"P6\n0 1\n255\n", 3, "form at 4"),
    (b"P6\n1 1\n255#\nabc", 3, "form at 10"),
    (b"P6\n2 1\n255\nabcde", 3, "form at 16"),
    (b"P6\n2 1\n255\nabcdefg", 3, "trailing at 17"),
    (b"P6\n2 1\n65535\nabcdefabcdef", 3, "depth"),
    (b"P6\n1 1\n15\n\x0f\x10\x00", 3, "value at 11"),
    (
        b"P6\n99999999999999999999 1\n255\n",
        4,
        "limit axis 18446744073709551615 over 4096",
    ),
    (
        b"P6\n4096 4096\n255\n",
        4,
        "limit cells 16777216 over 8388608",
    ),
];

const CLIPS: &[(&[u8], u8, &str)] = &[
    (b"Y", 3, "form at 1"),
    (b"YUV4MPEG2 W4 W4\n", 3, "form at 13"),
    (b"YUV4MPEG2 W0 H1 Cmono\n", 3, "form at 12"),
    (b"YUV4MPEG2 W1 H1 Cmono", 3, "form at 21"),
    (b"YUV4MPEG2 W5 H2 C420jpeg\nFRAME\n", 3, "cell"),
    (b"YUV4MPEG2 W4 H2 C420p10\nFRAME\n", 3, "colour space"),
    (b"YUV4MPEG2 W1 H1 Im Cmono\nFRAME\n\x00", 3, "colour space"),
    (b"YUV4MPEG2 W4 H2 C420jpeg\n", 3, "no frames"),
    (b"YUV4MPEG2 W1 H1 Cmono\nFRAME", 3, "form at 27"),
    (b"YUV4MPEG2 W1 H1 Cmono\nFRAMEx\n\x00", 3, "form at 27"),
    (b"YUV4MPEG2 W1 H1 Cmono\nFRAME\n", 3, "form at 28"),
    (b"YUV4MPEG2 W1 H1 Cmono\nFRAME\n\x00x", 3, "form at 29"),
    (b"YUV4MPEG2 W1 H1 Cmono\nFRAME\n\x00F", 3, "form at 30"),
    (
        b"YUV4MPEG2 W99999999999999999999 H1 Cmono\nFRAME\n",
        4,
        "limit axis 18446744073709551615 over 4096",
    ),
    (b"YUV4MPEG2 W1 H8194 C420jpeg\nFRAME\n", 3, "cell"),
    (
        b"YUV4MPEG2 W2 H8194 C420jpeg\nFRAME\n",
        4,
        "limit axis 4097 over 4096",
    ),
];

// The output's size is at byte 10, the sample's at 22, and the sources from 34 on.
const MAPS: &[Changed<'static>] = &[
    (&[(0, b'w')], 3, "form at 0"),
    (&[(7, b'p')], 3, "form at 0"),
    (&[(8, 0)], 3, "form at 8"),
    (&[(8, 9)], 3, "form at 8"),
    (&[(9, 2)], 3, "form at 9"),
    (&[(13, 0)], 3, "form at 10"),
    (&[(25, 0)], 3, "form at 22"),
    (&[(35, 4)], 3, "form at 34"),
    (&[(67, 1)], 3, "form at 66"),
    (&[(13, 7)], 3, "form at 70"),
    (&[(13, 5)], 3, "form at 64"),
    (&[(70, 0)], 3, "form at 70"),
    (&[(12, 0x10), (13, 1)], 4, "limit axis 4097 over 4096"),
    (
        &[(12, 16), (13, 0), (16, 16), (17, 0), (20, 16), (21, 0)],
        4,
        "limit cells 68719476736 over 1048576",
    ),
];

// The count is at byte 34; the first record has its size at 44, its source at 50, its choice
// at 56 and flows from 57 on.
const RECORDS: &[Changed<'static>] = &[
    (&[(0, b'w')], 3, "form at 0"),
    (&[(8, 9)], 3, "form at 8"),
    (&[(9, 3)], 3, "form at 9"),
    (&[(13, 0)], 3, "form at 10"),
    (
        &[(34, 0xff), (35, 0xff), (36, 0xff), (37, 0xff)],
        3,
        "form at 100",
    ),
    (&[(37, 1)], 3, "form at 69"),
    (&[(37, 3)], 3, "form at 100"),
    (&[(45, 0)], 3, "form at 44"),
    (&[(51, 4)], 3, "form at 50"),
    (&[(53, 1)], 3, "form at 52"),
    (&[(56, 0xf1)], 3, "form at 56"),
    (&[(100, 0)], 3, "form at 100"),
    (&[(24, 0x10), (25, 1)], 4, "limit axis 4097 over 4096"),
    (
        &[
            (44, 0xff),
            (45, 0xff),
            (46, 0xff),
            (47, 0xff),
            (48, 0xff),
            (49, 0xff),
        ],
        4,
        "limit records 281462092005375 over 33554432",
    ),
];

#[test]
fn malformed_files(rt: HostRuntime) {
    let alloc = rt.alloc();
    expect_no_pair(&rt, wrong_file(alloc, PICTURE_READERS, PICTURES));
    expect_no_pair(&rt, wrong_file(alloc, CLIP_READERS, CLIPS));
    expect_no_pair(&rt, wrong_changing(alloc, MAP_READERS, OVERLAP_MAP, MAPS));
    expect_no_pair(
        &rt,
        wrong_changing(alloc, RECORD_READERS, OVERLAP_RECORD, RECORDS),
    );
}

// The number of the first command, from 0, that doesn't refuse so many first bytes of a file at
// their end. The stream line of the clip has 54 bytes: at its end there is no frame.
fn wrong_cut(
    alloc: Global,
    readers: &[Reader],
    file: &[u8],
    n: usize,
) -> Result<Option<usize>, AllocError> {
    let first = file.get(..n).unwrap_or(b"");
    if n == 54 && file == TWO_CELLS {
        return wrong_reader(alloc, readers, first, 3, "no frames");
    }
    let why = format!(in alloc; "form at {n}")?;
    wrong_reader(alloc, readers, first, 3, why.as_str())
}

// The first cut, and the number of the first command, from 0, that doesn't refuse it.
fn wrong_cutting(
    alloc: Global,
    readers: &[Reader],
    file: &[u8],
) -> Result<Option<(usize, usize)>, AllocError> {
    for n in 0..file.len() {
        if let Some(i) = wrong_cut(alloc, readers, file, n)? {
            return Ok(Some((n, i)));
        }
    }
    Ok(None)
}

fn expect_cut(rt: &impl Abort, alloc: Global, readers: &[Reader], file: &[u8]) {
    expect_no_pair(rt, wrong_cutting(alloc, readers, file));
}

#[test]
fn files_that_are_cut(rt: HostRuntime) {
    let alloc = rt.alloc();
    expect_cut(&rt, alloc, PICTURE_READERS, FOUR_CELLS);
    expect_cut(&rt, alloc, PICTURE_READERS, OVERLAP_PICTURE);
    expect_cut(&rt, alloc, CLIP_READERS, TWO_CELLS);
    expect_cut(&rt, alloc, MAP_READERS, OVERLAP_MAP);
    expect_cut(&rt, alloc, RECORD_READERS, OVERLAP_RECORD);
    expect_cut(&rt, alloc, BLOCK_READERS, quilting::RECORD);
    expect_cut(&rt, alloc, FRAME_READERS, looped::MAP);
    expect_cut(&rt, alloc, WALK_READERS, looped::RECORD);
}
