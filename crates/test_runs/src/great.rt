// Files of many bytes: the greatest outputs and pictures, which are written to the byte, and
// pictures and clips that pass a limit. What a seam between two tiles costs doesn't depend on
// their cells.
use crate::tables::expect_none;
use std::alloc::{AllocError, Global};
use test_stage::{BEFORE, FOUR_CELLS, File, Stage};

// A part of a file: bytes so many times; so many bytes of tiles of 64 x 64 cells, or of one tile,
// whose byte i is i mod 251; the sources of so many cells; the records of 256 tiles.
#[derive(Clone, Copy, Drop)]
enum Part<'a> {
    Times(&'a [u8], u32),
    Cells(u32, Tiles),
    Sources(u32, Tiles),
    Records,
}

// How long a row is, and a row of a tile, and how many rows a tile has.
type Tiles = (u32, u32, u32);

// The column and the row of a number.
fn place(i: u32, across: u32) -> (u32, u32) {
    let (x, y) = (i.checked_rem(across), i.checked_div(across));
    (x.unwrap_or(0), y.unwrap_or(0))
}

fn put_times(bytes: &mut Vec<u8>, piece: &[u8], times: u32) -> Result<(), AllocError> {
    for _ in 0..times {
        bytes.extend_from_slice(piece)?;
    }
    Ok(())
}

// No two cells near each other are alike.
fn put_cells(bytes: &mut Vec<u8>, count: u32, tiles: Tiles) -> Result<(), AllocError> {
    let (across, width, height) = tiles;
    for i in 0..count {
        let (x, y) = place(i, across);
        let row = place(y, height).0.wrapping_mul(width);
        let number = place(x, width).0.wrapping_add(row);
        let [_, _, _, byte] = place(number, 251).0.to_be_bytes();
        bytes.push(byte)?;
    }
    Ok(())
}

// Cell (x, y) comes from (x mod w, y mod h).
fn put_sources(bytes: &mut Vec<u8>, count: u32, tiles: Tiles) -> Result<(), AllocError> {
    let (across, width, height) = tiles;
    for i in 0..count {
        let (x, y) = place(i, across);
        let [_, _, a, b] = place(x, width).0.to_be_bytes();
        let [_, _, c, d] = place(y, height).0.to_be_bytes();
        bytes.extend_from_slice(&[a, b, c, d, 0, 0])?;
    }
    Ok(())
}

// Tiles in rows of 16: the place, the size, the first source, the choice and the flows of each.
// Every cell is new, and nothing flows.
fn put_records(bytes: &mut Vec<u8>) -> Result<(), AllocError> {
    for i in 0..256u32 {
        let (x, y) = place(i, 16);
        let [_, _, a, b] = x.wrapping_mul(64).to_be_bytes();
        let [_, _, c, d] = y.wrapping_mul(64).to_be_bytes();
        bytes.extend_from_slice(&[a, b, c, d, 0, 0, 0, 64, 0, 64, 0, 1, 0, 0, 0, 0, 0, 0])?;
        put_times(bytes, b"\xff", 64 * 64 / 8)?;
        put_times(bytes, b"\0\0\0\0", 2 * 63 * 64)?;
    }
    Ok(())
}

fn put_part(bytes: &mut Vec<u8>, part: &Part) -> Result<(), AllocError> {
    match *part {
        Part::Times(piece, times) => put_times(bytes, piece, times),
        Part::Cells(count, tiles) => put_cells(bytes, count, tiles),
        Part::Sources(count, tiles) => put_sources(bytes, count, tiles),
        Part::Records => put_records(bytes),
    }
}

// A file of these parts.
fn spelled(alloc: Global, parts: &[Part]) -> Result<Vec<u8>, AllocError> {
    let mut bytes = Vec::new(alloc);
    for part in parts.iter() {
        put_part(&mut bytes, part)?;
    }
    Ok(bytes)
}

// The name of a file and its parts.
type Parts<'a> = (&'a str, &'a [Part<'a>]);

// A run: its words, the files that it reads, how it ends, and the files that it writes; where it
// is refused, none.
#[derive(Clone, Copy, Drop)]
struct Great<'a> {
    words: &'a str,
    reads: &'a [Parts<'a>],
    status: u8,
    report: &'a str,
    line: &'a str,
    writes: &'a [Parts<'a>],
}

fn put_parts(alloc: Global, stage: &mut Stage, files: &[Parts]) -> Result<(), AllocError> {
    for (name, parts) in files.iter() {
        let bytes = spelled(alloc, *parts)?;
        stage.put_file(*name, &bytes)?;
    }
    Ok(())
}

fn has_parts(alloc: Global, stage: &Stage, files: &[Parts]) -> Result<bool, AllocError> {
    for (name, parts) in files.iter() {
        let bytes = spelled(alloc, *parts)?;
        if !stage.has_file(*name, &bytes) {
            return Ok(false);
        }
    }
    Ok(true)
}

// The files that a run may write, before it.
const OUTPUTS: &[File<'static>] = &[("o", BEFORE), ("m", BEFORE), ("r", BEFORE)];

// Whether a run over a stage without a file ends so and leaves these files. What it reads stays.
fn is_left_on(alloc: Global, stage: &mut Stage, of: &Great) -> Result<bool, AllocError> {
    stage.put_files(OUTPUTS)?;
    put_parts(alloc, stage, of.reads)?;
    let is_ended = stage.ends(of.words, of.status, of.report, of.line)?;
    let is_written = of.status == 0 || stage.has_files(OUTPUTS);
    Ok(
        is_ended
            && is_written
            && has_parts(alloc, stage, of.reads)?
            && has_parts(alloc, stage, of.writes)?,
    )
}

fn is_left(alloc: Global, of: &Great) -> Result<bool, AllocError> {
    let mut stage = Stage::new(alloc);
    let found = is_left_on(alloc, &mut stage, of);
    drop(stage);
    found
}

// The number of the first run, from 0, that ends otherwise or leaves other files.
fn wrong_great(alloc: Global, table: &[Great]) -> Result<Option<usize>, AllocError> {
    for (i, of) in table.iter().enumerate() {
        if !is_left(alloc, of)? {
            return Ok(Some(i));
        }
    }
    Ok(None)
}

// A picture of 64 x 64 cells, and 256 copies of it on 1024 x 1024 cells.
const TILE: Tiles = (192, 192, 64);

const TILED: Great<'static> = Great {
    words: "grow sample=s out=o map=m record=r width=1024 height=1024 place=grid overlap=0",
    reads: &[(
        "s",
        &[
            Part::Times(b"P6\n64 64\n255\n", 1),
            Part::Cells(3 * 64 * 64, TILE),
        ],
    )],
    status: 0,
    report: "grow 1024x1024x1\nplacements 256\nrounds 0\nseams 47001600\n",
    line: "",
    writes: &[
        (
            "o",
            &[
                Part::Times(b"P6\n1024 1024\n255\n", 1),
                Part::Cells(3 * 1024 * 1024, (3072, 192, 64)),
            ],
        ),
        (
            "m",
            &[
                Part::Times(
                    b"WEAVEMAP\x01\x00\
\x00\x00\x04\x00\x00\x00\x04\x00\x00\x00\x00\x01\
\x00\x00\x00\x40\x00\x00\x00\x40\x00\x00\x00\x01",
                    1,
                ),
                Part::Sources(1024 * 1024, (1024, 64, 64)),
            ],
        ),
        (
            "r",
            &[
                Part::Times(
                    b"WEAVEREC\x01\x00\
\x00\x00\x04\x00\x00\x00\x04\x00\x00\x00\x00\x01\
\x00\x00\x00\x40\x00\x00\x00\x40\x00\x00\x00\x01\
\x00\x00\x01\x00",
                    1,
                ),
                Part::Records,
            ],
        ),
    ],
};

// One copy of a picture of 640 x 480 cells with a comment.
const LARGE: Part<'static> = Part::Cells(3 * 640 * 480, (1920, 1920, 480));

const COPY: Parts<'static> = ("o", &[Part::Times(b"P6\n640 480\n255\n", 1), LARGE]);

const COPY_MAP: Parts<'static> = (
    "m",
    &[
        Part::Times(
            b"WEAVEMAP\x01\x00\
\x00\x00\x02\x80\x00\x00\x01\xe0\x00\x00\x00\x01\
\x00\x00\x02\x80\x00\x00\x01\xe0\x00\x00\x00\x01",
            1,
        ),
        Part::Sources(640 * 480, (640, 640, 480)),
    ],
);

const COPIED: Great<'static> = Great {
    words: "grow sample=s out=o map=m record=r width=640 height=480 place=grid overlap=0",
    reads: &[(
        "s",
        &[
            Part::Times(b"P6\n# made by a paint program\n640 480\n255\n", 1),
            LARGE,
        ],
    )],
    report: "grow 640x480x1\nplacements 1\nrounds 0\nseams 0\n",
    writes: &[
        COPY,
        COPY_MAP,
        (
            "r",
            &[
                Part::Times(
                    b"WEAVEREC\x01\x00\
\x00\x00\x02\x80\x00\x00\x01\xe0\x00\x00\x00\x01\
\x00\x00\x02\x80\x00\x00\x01\xe0\x00\x00\x00\x01\
\x00\x00\x00\x01\
\x00\x00\x00\x00\x00\x00\x02\x80\x01\xe0\x00\x01\x00\x00\x00\x00\x00\x00",
                    1,
                ),
                Part::Times(b"\xff", 640 * 480 / 8),
                Part::Times(b"\0\0\0\0", 639 * 480 + 479 * 640),
            ],
        ),
    ],
    ..TILED
};

// The same by one block.
const QUILTED: Great<'static> = Great {
    words: "quilt sample=s out=o map=m record=r width=640 height=480 block=640",
    report: "quilt 640x480x1\nblocks 1\nboundaries 0\ncost 0\n",
    writes: &[
        COPY,
        COPY_MAP,
        (
            "r",
            &[Part::Times(
                b"WEAVEREC\x01\x01\
\x00\x00\x02\x80\x00\x00\x01\xe0\x00\x00\x00\x01\
\x00\x00\x02\x80\x00\x00\x01\xe0\x00\x00\x00\x01\
\x00\x00\x00\x01\
\x00\x00\x00\x00\x02\x80\x01\xe0\x00\x00\x00\x00\x00",
                1,
            )],
        ),
    ],
    ..COPIED
};

const REFUSED: Great<'static> = Great {
    status: 4,
    report: "",
    writes: &[],
    ..TILED
};

// Black pictures. Two of these have more cells than are read.
const HALF: &[Part<'static>] = &[
    Part::Times(b"P6\n4096 2048\n255\n", 1),
    Part::Times(b"\0\0\0", 4096 * 2048),
];

// More cells than an output has, and the same with a bad mark in the last cell.
const BROAD: &[Part<'static>] = &[
    Part::Times(b"P6\n2048 1024\n255\n", 1),
    Part::Times(b"\0\0\0", 2048 * 1024),
];

const BADLY_MARKED: &[Part<'static>] = &[
    Part::Times(b"P6\n2048 1024\n255\n", 1),
    Part::Times(b"\0\0\0", 2048 * 1024 - 1),
    Part::Times(b"\0\0\x01", 1),
];

const TARGET: &[Part<'static>] = &[
    Part::Times(b"P6\n1025 1024\n200\n", 1),
    Part::Times(b"\0\0\0", 1025 * 1024),
];

const DARK: &[u8] = b"P6\n3 1\n200\n\x1e\x1e\x1e\x28\x28\x28\x0a\x0a\x0a";

// With their turns, the first and two of the third have as many cells as are read, and a row more
// is too much.
const TURNED: &[Part<'static>] = &[
    Part::Times(b"P6\n1024 1024\n255\n", 1),
    Part::Times(b"\0\0\0", 1024 * 1024),
];

const TURNED_AND_ROW: &[Part<'static>] = &[
    Part::Times(b"P6\n1024 1025\n255\n", 1),
    Part::Times(b"\0\0\0", 1024 * 1025),
];

const HALF_TURNED: &[Part<'static>] = &[
    Part::Times(b"P6\n1024 512\n255\n", 1),
    Part::Times(b"\0\0\0", 1024 * 512),
];

const HALF_TURNED_AND_ROW: &[Part<'static>] = &[
    Part::Times(b"P6\n1024 513\n255\n", 1),
    Part::Times(b"\0\0\0", 1024 * 513),
];

// The size of this output is refused after the samples.
const OVER_TURNS: &str = "grow sample=s out=o map=m record=r width=4096 height=4096 turns=all";

const OVER_TWO: &str =
    "grow sample=s sample2=t out=o map=m record=r width=4096 height=4096 turns=all";

const WRITTEN: &[Great<'static>] = &[TILED, COPIED, QUILTED];

const LIMITS: &[Great<'static>] = &[
    Great {
        words: "grow sample=s sample2=t out=o map=m record=r width=2 height=1 place=grid overlap=0",
        reads: &[("s", HALF), ("t", HALF)],
        line: "weave: limit cells 16777216 over 8388608\n",
        ..REFUSED
    },
    // Bad marks come before the bound of an output.
    Great {
        words: "merge sample=s sample2=t marks=k out=o map=m",
        reads: &[("s", BROAD), ("t", BROAD), ("k", BADLY_MARKED)],
        status: 3,
        line: "weave: marks: mark at 2097151\n",
        ..REFUSED
    },
    Great {
        words: "merge sample=s sample2=t marks=k out=o map=m",
        reads: &[("s", BROAD), ("t", BROAD), ("k", BROAD)],
        line: "weave: limit output 2097152 over 1048576\n",
        ..REFUSED
    },
    // So does the maxval of a target.
    Great {
        words: "transfer sample=s target=t out=o map=m record=r block=2 overlap=1 alpha=50 tol=0",
        reads: &[("s", &[Part::Times(FOUR_CELLS, 1)]), ("t", TARGET)],
        status: 3,
        line: "weave: target: unlike\n",
        ..REFUSED
    },
    Great {
        words: "transfer sample=s target=t out=o map=m record=r block=2 overlap=1 alpha=50 tol=0",
        reads: &[("s", &[Part::Times(DARK, 1)]), ("t", TARGET)],
        line: "weave: limit output 1049600 over 1048576\n",
        ..REFUSED
    },
    // Blocks that overlap by all but one of their columns and rows: there are so many that they
    // have more cells than a record.
    Great {
        words: "transfer sample=s target=t out=o map=m record=r block=100 overlap=99",
        reads: &[
            (
                "s",
                &[
                    Part::Times(b"P6\n100 100\n255\n", 1),
                    Part::Times(b"\0\0\0", 100 * 100),
                ],
            ),
            (
                "t",
                &[
                    Part::Times(b"P6\n200 200\n255\n", 1),
                    Part::Times(b"\0\0\0", 200 * 200),
                ],
            ),
        ],
        line: "weave: limit records 33560000 over 33554432\n",
        ..REFUSED
    },
];

// A frame too many, and a loop of too many cells; turns.
const MORE_LIMITS: &[Great<'static>] = &[
    Great {
        words: "loop sample=s out=o map=m record=r length=2",
        reads: &[(
            "s",
            &[
                Part::Times(b"YUV4MPEG2 W1 H1 Cmono\n", 1),
                Part::Times(b"FRAME\n\0", 257),
            ],
        )],
        line: "weave: limit frames 257 over 256\n",
        ..REFUSED
    },
    Great {
        words: "loop sample=s out=o map=m record=r length=4096",
        reads: &[(
            "s",
            &[
                Part::Times(b"YUV4MPEG2 W128 H65 Cmono\nFRAME\n", 1),
                Part::Times(b"\0", 128 * 65),
            ],
        )],
        line: "weave: limit loop 34078720 over 33554432\n",
        ..REFUSED
    },
    Great {
        words: OVER_TURNS,
        reads: &[("s", TURNED)],
        line: "weave: limit output 16777216 over 1048576\n",
        ..REFUSED
    },
    Great {
        words: OVER_TURNS,
        reads: &[("s", TURNED_AND_ROW)],
        line: "weave: limit cells 8396800 over 8388608\n",
        ..REFUSED
    },
    Great {
        words: OVER_TWO,
        reads: &[("s", HALF_TURNED), ("t", HALF_TURNED)],
        line: "weave: limit output 16777216 over 1048576\n",
        ..REFUSED
    },
    Great {
        words: OVER_TWO,
        reads: &[("s", HALF_TURNED), ("t", HALF_TURNED_AND_ROW)],
        line: "weave: limit cells 8396800 over 8388608\n",
        ..REFUSED
    },
];

#[test]
fn the_greatest_files(rt: HostRuntime) {
    expect_none(&rt, wrong_great(rt.alloc(), WRITTEN));
    expect_none(&rt, wrong_great(rt.alloc(), LIMITS));
    expect_none(&rt, wrong_great(rt.alloc(), MORE_LIMITS));
}
