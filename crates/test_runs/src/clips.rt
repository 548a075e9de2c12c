// Clips that are grown and then checked, and one that can't be written. Clips that ffmpeg made,
// byte for byte those of examples/: each that is read is copied to the byte, tags and all, and the
// copy is accepted. Clips that are refused, each with its line.
use crate::samples::{TWO_CELLS, TWO_FRAMES};
use crate::tables::{Table, expect_table};
use test_stage::{BEFORE, Case, Failing, Long, Made, NO_CELL};

const COPIED: &str = "grow sample=s out=o map=m record=r width=2 height=1 place=grid overlap=0";

const MORE_TAGS: &[u8] = b"YUV4MPEG2 W4 H2 F25:1 Ip A1:1 C420jpeg XYSCSS=420JPEG X X\nFRAME\n\
\x01\x02\x03\x04\x05\x06\x07\x08\x09\x0a\x0b\x0c";

const COPY: Made<'static> = Made {
    words: COPIED,
    check: "check sample=s out=o map=m record=r",
    sample: TWO_CELLS,
    second: NO_CELL,
    report: "grow 2x1x1\nplacements 1\nrounds 0\nseams 0\n",
    picture: TWO_CELLS,
};

// The third of three cells is the first; the last two of four frames are the second of two.
const GROWN: &[Made<'static>] = &[
    Made {
        words: "grow sample=s out=o map=m record=r width=3 height=1 place=grid overlap=0",
        report: "grow 3x1x1\nplacements 2\nrounds 0\nseams 3060\n",
        picture: b"YUV4MPEG2 W6 H2 F25:1 Ip A1:1 C420jpeg XYSCSS=420JPEG\nFRAME\n\
\x01\x02\x03\x04\x01\x02\x05\x06\x07\x08\x05\x06\x09\x0a\x09\x0b\x0c\x0b",
        ..COPY
    },
    COPY,
    Made {
        words: "grow sample=s out=o map=m record=r width=1 height=1 frames=4 place=grid overlap=1",
        sample: TWO_FRAMES,
        report: "grow 1x1x4\nplacements 3\nrounds 0\nseams 530\n",
        picture: b"YUV4MPEG2 W1 H1 Cmono\nFRAME\n\x0aFRAME\n\x14FRAME\n\x14FRAME\n\x14",
        ..COPY
    },
    Made {
        sample: MORE_TAGS,
        picture: MORE_TAGS,
        ..COPY
    },
];

const FAILS: &[Case<'static>] = &[Case {
    words: COPIED,
    sample: TWO_CELLS,
    second: NO_CELL,
    failing: Failing::Begin("o"),
    status: 6,
    report: "",
    line: "weave: out: write fault\n",
    picture: BEFORE,
    map: BEFORE,
    record: BEFORE,
}];

// Gray, of odd width and height, in two frames.
const GRAY: &[u8] = b"YUV4MPEG2 W5 H3 F5:1 Ip A1:1 Cmono XCOLORRANGE=FULL\nFRAME\n\
\x00\x4c\x69\x1d\x1d\x00\xb3\x69\x1d\xe2\x4c\xd3\xa1\x59\x5a\
FRAME\n\
\x00\x4c\x69\x1d\x1d\x00\xb3\x69\x1d\xe2\x6a\xc3\xa7\x3b\x69";

// 4:2:0, in two frames.
const OF_420: &[u8] =
    b"YUV4MPEG2 W4 H4 F5:1 Ip A1:1 C420jpeg XYSCSS=420JPEG XCOLORRANGE=LIMITED\nFRAME\n\
\x10\x51\x91\xd2\x10\xaa\x6a\x29\x10\xaa\x6a\x29\x51\xb1\xaa\x4a\x80\x80\x69\xcf\x80\x80\x76\x80\
FRAME\n\
\x10\x51\x91\xd2\x10\xaa\x6a\x29\x10\xaa\x6a\x29\x6b\xa4\x90\x57\x80\x80\x67\xd1\x80\x80\x6c\x8b";

// The same with the chroma samples at the left of their pixels, and at the top left.
const LEFT: &[u8] =
    b"YUV4MPEG2 W4 H2 F5:1 Ip A1:1 C420mpeg2 XYSCSS=420MPEG2 XCOLORRANGE=LIMITED\nFRAME\n\
\x10\x51\x91\xd2\x51\xb1\xaa\x4a\x3f\xc1\xa5\x5b";

const TOP_LEFT: &[u8] =
    b"YUV4MPEG2 W4 H2 F5:1 Ip A1:1 C420paldv XYSCSS=420PALDV XCOLORRANGE=LIMITED\nFRAME\n\
\x10\x51\x91\xd2\x51\xb1\xaa\x4a\x3f\xc1\xa5\x5b";

// 4:2:2 and 4:1:1, of odd height.
const OF_422: &[u8] = b"YUV4MPEG2 W4 H3 F5:1 Ip A1:1 C422 XYSCSS=422 XCOLORRANGE=LIMITED\nFRAME\n\
\x10\x51\x91\xd2\x10\x51\x6a\xd2\x51\xb1\xaa\x4a\x6d\x23\x6d\x6d\x3f\xc1\xb8\x5a\xb8\xb8\xa5\x5b";

const OF_411: &[u8] = b"YUV4MPEG2 W8 H3 F5:1 Ip A1:1 C411 XYSCSS=411 XCOLORRANGE=LIMITED\nFRAME\n\
\x10\x51\x91\x29\xd2\x91\xaa\xeb\x10\x51\x91\x29\xd2\x91\xaa\xeb\x51\xb2\xb1\x97\xaa\x49\x4a\x64\
\x80\x5b\x80\x5b\x3c\xc4\x80\x51\x80\x51\x84\x7c";

// 4:4:4, of odd width and height.
const OF_444: &[u8] = b"YUV4MPEG2 W3 H3 F5:1 Ip A1:1 C444 XYSCSS=444 XCOLORRANGE=LIMITED\nFRAME\n\
\x10\x51\x91\x10\xaa\x6a\x51\x91\x29\x80\x5a\x36\x80\xa6\xca\x5a\x36\xf0\x80\xf0\x22\x80\x10\xde\
\xf0\x22\x6e";

// Interlaced.
const TOP_FIRST: &[u8] =
    b"YUV4MPEG2 W4 H4 F5:1 It A1:1 C420jpeg XYSCSS=420JPEG XCOLORRANGE=LIMITED\nFRAME\n\
\x10\x51\x91\xd2\x10\xaa\x6a\x29\x10\xaa\x6a\x29\x51\xb1\xaa\x4a\x80\x80\x69\xcf\x80\x80\x76\x80";

const BOTTOM_FIRST: &[u8] =
    b"YUV4MPEG2 W4 H4 F5:1 Ib A1:1 C420jpeg XYSCSS=420JPEG XCOLORRANGE=LIMITED\nFRAME\n\
\x10\x51\x91\xd2\x10\xaa\x6a\x29\x10\xaa\x6a\x29\x51\xb1\xaa\x4a\x80\x80\x69\xcf\x80\x80\x76\x80";

const OF_FFMPEG: Made<'static> = Made {
    words: "",
    check: "check sample=s out=o map=m record=r",
    sample: NO_CELL,
    second: NO_CELL,
    report: "",
    picture: NO_CELL,
};

const READ: &[Made<'static>] = &[
    Made {
        words: "grow sample=s out=o map=m record=r width=5 height=3 frames=2 place=grid overlap=0",
        sample: GRAY,
        report: "grow 5x3x2\nplacements 1\nrounds 0\nseams 0\n",
        picture: GRAY,
        ..OF_FFMPEG
    },
    Made {
        words: "grow sample=s out=o map=m record=r width=2 height=2 frames=2 place=grid overlap=0",
        sample: OF_420,
        report: "grow 2x2x2\nplacements 1\nrounds 0\nseams 0\n",
        picture: OF_420,
        ..OF_FFMPEG
    },
    Made {
        words: "grow sample=s out=o map=m record=r width=2 height=1 place=grid overlap=0",
        sample: LEFT,
        report: "grow 2x1x1\nplacements 1\nrounds 0\nseams 0\n",
        picture: LEFT,
        ..OF_FFMPEG
    },
    Made {
        words: "grow sample=s out=o map=m record=r width=2 height=1 place=grid overlap=0",
        sample: TOP_LEFT,
        report: "grow 2x1x1\nplacements 1\nrounds 0\nseams 0\n",
        picture: TOP_LEFT,
        ..OF_FFMPEG
    },
    Made {
        words: "grow sample=s out=o map=m record=r width=2 height=3 place=grid overlap=0",
        sample: OF_422,
        report: "grow 2x3x1\nplacements 1\nrounds 0\nseams 0\n",
        picture: OF_422,
        ..OF_FFMPEG
    },
    Made {
        words: "grow sample=s out=o map=m record=r width=2 height=3 place=grid overlap=0",
        sample: OF_411,
        report: "grow 2x3x1\nplacements 1\nrounds 0\nseams 0\n",
        picture: OF_411,
        ..OF_FFMPEG
    },
    Made {
        words: "grow sample=s out=o map=m record=r width=3 height=3 place=grid overlap=0",
        sample: OF_444,
        report: "grow 3x3x1\nplacements 1\nrounds 0\nseams 0\n",
        picture: OF_444,
        ..OF_FFMPEG
    },
    Made {
        words: "grow sample=s out=o map=m record=r width=2 height=2 place=grid overlap=0",
        sample: TOP_FIRST,
        report: "grow 2x2x1\nplacements 1\nrounds 0\nseams 0\n",
        picture: TOP_FIRST,
        ..OF_FFMPEG
    },
    Made {
        words: "grow sample=s out=o map=m record=r width=2 height=2 place=grid overlap=0",
        sample: BOTTOM_FIRST,
        report: "grow 2x2x1\nplacements 1\nrounds 0\nseams 0\n",
        picture: BOTTOM_FIRST,
        ..OF_FFMPEG
    },
];

const TWO_BY_TWO: &str = "grow sample=s out=o map=m record=r width=2 height=2 place=grid overlap=0";

// An odd height of 4:2:0, an odd width of 4:2:2, a width of 4:1:1 that isn't a multiple of four,
// more than 8 bits, and alpha.
const UNREAD: &[(&[u8], u8, &str)] = &[
    (
        b"YUV4MPEG2 W4 H3 F5:1 Ip A1:1 C420jpeg XYSCSS=420JPEG XCOLORRANGE=LIMITED\nFRAME\n\
\x10\x51\x91\xd2\x10\x51\x6a\xd2\x51\xb1\xaa\x4a\x6d\x23\x3f\xc1\xb8\x5a\xa5\x5b",
        3,
        "weave: sample: cell\n",
    ),
    (
        b"YUV4MPEG2 W5 H4 F5:1 Ip A1:1 C422 XYSCSS=422 XCOLORRANGE=LIMITED\nFRAME\n\
\x10\x51\x91\xd2\x29\x10\xaa\x6a\x29\xd2\x10\xaa\x6a\x29\xd2\x51\xc5\x9b\x5c\x5d\x6d\x23\xb8\x93\
\xdd\x48\x93\xdd\x35\x39\x9b\xa9\xb8\x5a\x77\x48\xa6\x89\x48\xa6\xc1\xb6\x32\xa4",
        3,
        "weave: sample: cell\n",
    ),
    (
        b"YUV4MPEG2 W6 H2 F5:1 Ip A1:1 C411 XYSCSS=411 XCOLORRANGE=LIMITED\nFRAME\n\
\x10\x51\x6a\x29\xd2\x6a\x51\xd2\x91\xaa\x29\x6a\x6d\x6d\x35\xdd\xb8\xb8\xc1\xa6",
        3,
        "weave: sample: cell\n",
    ),
    (
        b"YUV4MPEG2 W4 H4 F5:1 Ip A1:1 C420p10 XYSCSS=420P10 XCOLORRANGE=LIMITED\nFRAME\n\
\x40\x00\x46\x01\x42\x02\x48\x03\x40\x00\xa6\x02\xaa\x01\xa4\x00\x40\x00\xa6\x02\xaa\x01\xa4\x00\
\x46\x01\xc5\x02\xa6\x02\x27\x01\x00\x02\x00\x02\xa3\x01\x3d\x03\x00\x02\x00\x02\xda\x01\x02\x02",
        3,
        "weave: sample: colour space\n",
    ),
    (
        b"YUV4MPEG2 W4 H3 F5:1 Ip A1:1 Cmono10 XCOLORRANGE=FULL\nFRAME\n\
\x00\x00\x31\x01\x57\x02\x88\x03\x00\x00\x31\x01\xa5\x01\x88\x03\x31\x01\xef\x02\xcb\x02\x0d\x01",
        3,
        "weave: sample: colour space\n",
    ),
    (
        b"YUV4MPEG2 W3 H3 F5:1 Ip A1:1 C444alpha XYSCSS=444 XCOLORRANGE=LIMITED\nFRAME\n\
\x10\x51\x91\x10\xaa\x6a\x51\x91\x29\x80\x5a\x36\x80\xa6\xca\x5a\x36\xf0\x80\xf0\x22\x80\x10\xde\
\xf0\x22\x6e\xff\xff\xff\xff\xff\xff\xff\xff\xff",
        3,
        "weave: sample: colour space\n",
    ),
];

const THREE_CELLS: &str =
    "grow sample=s out=o map=m record=r width=3 height=1 place=grid overlap=0";

const REFUSED: &[(&[u8], u8, &str)] = &[
    (
        b"YUV4MPEG2 W5 H2 F25:1 Ip A1:1 C420jpeg\nFRAME\n",
        3,
        "weave: sample: cell\n",
    ),
    (
        b"YUV4MPEG2 W4 H2 F25:1 Ip A1:1 C420p10\nFRAME\n",
        3,
        "weave: sample: colour space\n",
    ),
    (
        b"YUV4MPEG2 W4 H2 F25:1 Ip A1:1 C420jpeg XYSCSS=420JPEG\n",
        3,
        "weave: sample: no frames\n",
    ),
    (b"YUV4MPEG2 W4 W4\n", 3, "weave: sample: form at 13\n"),
    (
        b"YUV4MPEG2 W4 H2 F25:1 Ip A1:1 C420jpeg XYSCSS=420JPEG\nFRAME\n\
\x01\x02\x03\x04\x05\x06\x07\x08\x09\x0a\x0b",
        3,
        "weave: sample: form at 71\n",
    ),
    (
        b"YUV4MPEG2 W4 H2 F25:1 Ip A1:1 C420jpeg XYSCSS=420JPEG\nFRAME\n\
\x01\x02\x03\x04\x05\x06\x07\x08\x09\x0a\x0b\x0cx",
        3,
        "weave: sample: form at 72\n",
    ),
    (
        b"YUV4MPEG2 W4 H2 F25:1 Ip A1:1 C420jpeg XYSCSS=420JPEG\nFRAME\n\
\x01\x02\x03\x04\x05\x06\x07\x08\x09\x0a\x0b\x0cF",
        3,
        "weave: sample: form at 73\n",
    ),
];

const ONE_WIDE: &str = "grow sample=s out=o map=m record=r width=1 height=1 place=grid overlap=0";

// A clip with a long word: what comes before it, how many bytes it has, and what follows; the
// status and the line.
const LONG_LINES: &[Long<'static>] = &[
    // A stream line of 4,096 bytes that goes on, and one of a byte more, whether it ends there or
    // not.
    (
        b"YUV4MPEG2 W1 H1 Cmono X",
        4073,
        b"",
        3,
        "weave: sample: form at 4096\n",
    ),
    (
        b"YUV4MPEG2 W1 H1 Cmono X",
        4074,
        b"",
        4,
        "weave: limit header 4097 over 4096\n",
    ),
    (
        b"YUV4MPEG2 W1 H1 Cmono X",
        4073,
        b"\nFRAME\n\x07",
        4,
        "weave: limit header 4097 over 4096\n",
    ),
    // Tags of 4,000 bytes, with the blanks before them, and of 4,001.
    (
        b"YUV4MPEG2 W1 H1 Cmono X",
        3992,
        b"\nFRAME\n",
        3,
        "weave: sample: form at 4022\n",
    ),
    (
        b"YUV4MPEG2 W1 H1 Cmono X",
        3993,
        b"\nFRAME\n\x07",
        4,
        "weave: limit header 4001 over 4000\n",
    ),
    // A frame line of 4,096 bytes, with its LF, and of more.
    (
        b"YUV4MPEG2 W1 H1 Cmono\nFRAME ",
        4089,
        b"\n",
        3,
        "weave: sample: form at 4118\n",
    ),
    (
        b"YUV4MPEG2 W1 H1 Cmono\nFRAME ",
        4090,
        b"",
        3,
        "weave: sample: form at 4118\n",
    ),
    (
        b"YUV4MPEG2 W1 H1 Cmono\nFRAME ",
        4090,
        b"\n\x07",
        4,
        "weave: limit header 4097 over 4096\n",
    ),
    // Digits of a width without end are one of more than 4,096 cells.
    (
        b"YUV4MPEG2 H1 Cmono W",
        4000,
        b"\nFRAME\n",
        4,
        "weave: limit axis 18446744073709551615 over 4096\n",
    ),
];

#[test]
fn clips(rt: HostRuntime) {
    expect_table(&rt, rt.alloc(), Table::Made(GROWN));
    expect_table(&rt, rt.alloc(), Table::Cases(FAILS));
    expect_table(&rt, rt.alloc(), Table::Made(READ));
    expect_table(&rt, rt.alloc(), Table::Samples(TWO_BY_TWO, UNREAD));
    expect_table(&rt, rt.alloc(), Table::Samples(THREE_CELLS, REFUSED));
    expect_table(&rt, rt.alloc(), Table::Long(ONE_WIDE, b'7', LONG_LINES));
}
