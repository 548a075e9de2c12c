// Worked examples: the files of runs of cuts, of blocks and of a walk, and the same files with
// other bytes, as `check` judges them. docs/FORMATS.md has the rules.
use crate::expect::expect_none;
use crate::runs::{Files, Run, wrong_run};

// Four cells of grey in a row: 10, 20, 30 and 40. Six cells are grown of them.
const SAMPLE: &[u8] = b"P6\n4 1\n255\n\x0a\x0a\x0a\x14\x14\x14\x1e\x1e\x1e\x28\x28\x28";

// Cells 0, 1, 2, 1, 2 and 3 of the sample.
const OUT: &[u8] =
    b"P6\n6 1\n255\n\x0a\x0a\x0a\x14\x14\x14\x1e\x1e\x1e\x14\x14\x14\x1e\x1e\x1e\x28\x28\x28";

pub const MAP: &[u8; 70] =
    b"WEAVEMAP\x01\x00\0\0\0\x06\0\0\0\x01\0\0\0\x01\0\0\0\x04\0\0\0\x01\0\0\0\x01\
\0\0\0\0\0\0\0\x01\0\0\0\0\0\x02\0\0\0\0\0\x01\0\0\0\0\0\x02\0\0\0\0\0\x03\0\0\0\0";

// A box over cells 0 to 3, all new, and one over cells 2 to 5, of which cell 2 stays old.
pub const RECORD: &[u8; 100] =
    b"WEAVEREC\x01\x00\0\0\0\x06\0\0\0\x01\0\0\0\x01\0\0\0\x04\0\0\0\x01\0\0\0\x01\
\0\0\0\x02\
\0\0\0\0\0\0\0\x04\0\x01\0\x01\0\0\0\0\0\0\xf0\0\0\0\0\0\0\0\0\0\0\0\0\
\0\x02\0\0\0\0\0\x04\0\x01\0\x01\0\0\0\0\0\0\x70\0\x78\0\x78\0\x78\0\0\0\0\0\0";

const CHECK: &str = "check sample=s out=o map=m record=r";

const CUTS: Files<'static> = &[("s", SAMPLE), ("o", OUT), ("m", MAP), ("r", RECORD)];

const LESS_FLOW: &[(&str, usize, u8)] = &[("r", 89, 119), ("r", 91, 119), ("r", 93, 119)];

const CHECKED_CUTS: &[Run<'static>] = &[
    (CHECK, CUTS, &[], Ok("stands\n"), &[]),
    (
        CHECK,
        CUTS,
        LESS_FLOW,
        Ok("fails record 2 rule 6 place 0\n"),
        &[],
    ),
    // Cell 3 stays old, in all three files.
    (
        CHECK,
        CUTS,
        &[
            ("o", 20, 40),
            ("o", 21, 40),
            ("o", 22, 40),
            ("m", 53, 3),
            ("r", 87, 0x30),
        ],
        Ok("fails record 2 rule 6 place 0\n"),
        &[],
    ),
    (
        CHECK,
        CUTS,
        &[("o", 11, 11)],
        Ok("fails record 0 rule 17 place 0\n"),
        &[],
    ),
    (
        CHECK,
        CUTS,
        &[("o", 28, 41)],
        Ok("fails record 0 rule 17 place 5\n"),
        &[],
    ),
    (
        CHECK,
        CUTS,
        &[("o", 11, 11), ("m", 65, 2)],
        Ok("fails record 0 rule 16 place 5\n"),
        &[],
    ),
    (
        CHECK,
        CUTS,
        &[("m", 65, 2), ("r", 56, 0xe0)],
        Ok("fails record 1 rule 2 place 3\n"),
        &[],
    ),
    (
        CHECK,
        CUTS,
        &[("r", 25, 5), ("r", 56, 0xe0)],
        Ok("fails record 0 rule 15 place 0\n"),
        &[],
    ),
    (
        CHECK,
        CUTS,
        &[
            ("o", 9, b'4'),
            ("r", 89, 119),
            ("r", 91, 119),
            ("r", 93, 119),
        ],
        Ok("fails record 0 rule 15 place 0\n"),
        &[],
    ),
];

// Four cells of grey in a row: 10, 20, 30 and 60.
const QUILT_SAMPLE: &[u8] = b"P6\n4 1\n255\n\x0a\x0a\x0a\x14\x14\x14\x1e\x1e\x1e\x3c\x3c\x3c";

// Cells 0, 1, 0, 1, 2 and 3 of the sample.
const QUILT: &[u8] =
    b"P6\n6 1\n255\n\x0a\x0a\x0a\x14\x14\x14\x0a\x0a\x0a\x14\x14\x14\x1e\x1e\x1e\x3c\x3c\x3c";

const QUILT_MAP: &[u8] =
    b"WEAVEMAP\x01\x00\0\0\0\x06\0\0\0\x01\0\0\0\x01\0\0\0\x04\0\0\0\x01\0\0\0\x01\
\0\0\0\0\0\0\0\x01\0\0\0\0\0\0\0\0\0\0\0\x01\0\0\0\0\0\x02\0\0\0\0\0\x03\0\0\0\0";

// A block over cells 0 to 3, and one over cells 2 to 5. In their strip of two columns the errors
// are 1,200 and 4,800, and the boundary is in the first column.
const QUILT_RECORD: &[u8] =
    b"WEAVEREC\x01\x01\0\0\0\x06\0\0\0\x01\0\0\0\x01\0\0\0\x04\0\0\0\x01\0\0\0\x01\
\0\0\0\x02\
\0\0\0\0\0\x04\0\x01\0\0\0\0\0\
\0\x02\0\0\0\x04\0\x01\0\0\0\0\x01\0\x02\0\0\0\0\x04\xb0\0\0\x12\xc0";

// Clips of one frame, with the sizes of the sample and of the quilt.
const SAMPLE_CLIP: &[u8] = b"YUV4MPEG2 W4 H1 F25:1 C444\nFRAME\nabcdabcdabcd";

const QUILT_CLIP: &[u8] = b"YUV4MPEG2 W6 H1 F25:1 C444\nFRAME\nababcdababcdababcd";

// The bytes of the record that are the second block's corner, the column of its boundary, and the
// second sum.
const CORNER: usize = 52;

const COLUMN: usize = 67;

const SUM: usize = 75;

const QUILTED: Files<'static> = &[
    ("s", QUILT_SAMPLE),
    ("o", QUILT),
    ("m", QUILT_MAP),
    ("r", QUILT_RECORD),
];

const QUILTED_CLIPS: Files<'static> = &[
    ("s", SAMPLE_CLIP),
    ("o", QUILT_CLIP),
    ("m", QUILT_MAP),
    ("r", QUILT_RECORD),
];

const CHECKED_QUILTS: &[Run<'static>] = &[
    (CHECK, QUILTED, &[], Ok("stands\n"), &[]),
    (
        CHECK,
        QUILTED,
        &[("r", CORNER, 3)],
        Ok("fails record 2 rule 7 place 0\n"),
        &[],
    ),
    (
        CHECK,
        QUILTED,
        &[("r", CORNER, 1)],
        Ok("fails record 2 rule 8 place 2\n"),
        &[],
    ),
    (
        CHECK,
        QUILTED,
        &[("r", CORNER, 1), ("r", COLUMN, 2)],
        Ok("fails record 2 rule 8 place 2\n"),
        &[],
    ),
    (
        CHECK,
        QUILTED,
        &[("r", COLUMN, 2)],
        Ok("fails record 2 rule 9 place 0\n"),
        &[],
    ),
    (
        CHECK,
        QUILTED,
        &[("r", SUM, 0xc1)],
        Ok("fails record 2 rule 10 place 1\n"),
        &[],
    ),
    (
        CHECK,
        QUILTED,
        &[("r", COLUMN, 1)],
        Ok("fails record 2 rule 11 place 0\n"),
        &[],
    ),
    (
        CHECK,
        QUILTED_CLIPS,
        &[],
        Ok("fails record 0 rule 15 place 0\n"),
        &[],
    ),
];

// Three frames of one cell: 10, 20 and 11. The step from the second to the first costs 1.
const LOOP_SAMPLE: &[u8] = b"YUV4MPEG2 W1 H1 F25:1 Cmono\nFRAME\n\x0aFRAME\n\x14FRAME\n\x0b";

// Its first two frames.
const LOOP: &[u8] = b"YUV4MPEG2 W1 H1 F25:1 Cmono\nFRAME\n\x0aFRAME\n\x14";

const LOOP_MAP: &[u8] =
    b"WEAVEMAP\x01\x01\0\0\0\x01\0\0\0\x01\0\0\0\x02\0\0\0\x01\0\0\0\x01\0\0\0\x03\0\0\0\x01";

// The walk through these two frames, with the table for two steps: 1, 81, 0, then 82, 1, 81, then
// none.
const LOOP_RECORD: &[u8] =
    b"WEAVEREC\x01\x02\0\0\0\x01\0\0\0\x01\0\0\0\x02\0\0\0\x01\0\0\0\x01\0\0\0\x03\
\0\0\0\x02\0\0\x01\0\0\0\x01\
\0\0\0\0\0\0\0\x01\0\0\0\0\0\0\0\x51\0\0\0\0\0\0\0\0\
\0\0\0\0\0\0\0\x52\0\0\0\0\0\0\0\x01\0\0\0\0\0\0\0\x51\
\xff\xff\xff\xff\xff\xff\xff\xff\xff\xff\xff\xff\xff\xff\xff\xff\xff\xff\xff\xff\xff\xff\xff\xff";

// A clip of three frames, and a map that goes with it.
const LONGER: &[u8] = b"YUV4MPEG2 W1 H1 F25:1 Cmono\nFRAME\n\x0aFRAME\n\x14FRAME\n\x0a";

const LONGER_MAP: &[u8] =
    b"WEAVEMAP\x01\x01\0\0\0\x01\0\0\0\x01\0\0\0\x03\0\0\0\x01\0\0\0\x01\0\0\0\x03\0\0\0\x01\0\0";

// The bytes of the record that are the output's frames, the second frame of the walk, and the
// second and the fifth entry.
const FRAMES: usize = 21;

const FRAME: usize = 44;

const SECOND: usize = 60;

const FIFTH: usize = 84;

const LOOPED: Files<'static> = &[
    ("s", LOOP_SAMPLE),
    ("o", LOOP),
    ("m", LOOP_MAP),
    ("r", LOOP_RECORD),
];

const LONGER_LOOP: Files<'static> = &[
    ("s", LOOP_SAMPLE),
    ("o", LONGER),
    ("m", LONGER_MAP),
    ("r", LOOP_RECORD),
];

const CHECKED_LOOPS: &[Run<'static>] = &[
    (CHECK, LOOPED, &[], Ok("stands\n"), &[]),
    (
        CHECK,
        LOOPED,
        &[("r", FRAME, 2)],
        Ok("fails record 1 rule 12 place 1\n"),
        &[],
    ),
    (
        CHECK,
        LOOPED,
        &[("r", SECOND, 82)],
        Ok("fails record 1 rule 13 place 1\n"),
        &[],
    ),
    (
        CHECK,
        LOOPED,
        &[("r", FIFTH, 0)],
        Ok("fails record 1 rule 14 place 1\n"),
        &[],
    ),
    (
        CHECK,
        LOOPED,
        &[("m", 35, 1)],
        Ok("fails record 0 rule 16 place 0\n"),
        &[],
    ),
    (
        CHECK,
        LONGER_LOOP,
        &[("r", FRAMES, 3)],
        Ok("fails record 0 rule 15 place 0\n"),
        &[],
    ),
];

#[test]
fn first_broken_rules(rt: HostRuntime) {
    let alloc = rt.alloc();
    expect_none(&rt, wrong_run(alloc, CHECKED_CUTS));
    expect_none(&rt, wrong_run(alloc, CHECKED_QUILTS));
    expect_none(&rt, wrong_run(alloc, CHECKED_LOOPS));
}
