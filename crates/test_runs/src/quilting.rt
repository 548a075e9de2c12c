// Quilts of one block, of two and of four: what their files hold after each status, and that
// `check` accepts them. Words, samples and sizes that `quilt` refuses, each with its line.
use crate::tables::{Table, expect_table};
use test_stage::{BEFORE, Case, FOUR_CELLS, Failing, NO_CELL, ONE_CELL, Verdict};

// The sources have the columns 0, 1, 0, 1, 2, 3: both errors of the strip are 1200, and the
// boundary takes its first column.
pub const MAP: &[u8] = b"WEAVEMAP\x01\x00\
\x00\x00\x00\x06\x00\x00\x00\x01\x00\x00\x00\x01\
\x00\x00\x00\x04\x00\x00\x00\x01\x00\x00\x00\x01\
\x00\x00\x00\x00\x00\x00\x00\x01\x00\x00\x00\x00\x00\x00\x00\x00\x00\x00\
\x00\x01\x00\x00\x00\x00\x00\x02\x00\x00\x00\x00\x00\x03\x00\x00\x00\x00";

// The count is at byte 34, the first block at 38 and the second at 51: its source at 59, its flags
// at 63, the columns of its left strip at 64, its path at 66 and its sums from 68 on.
pub const RECORD: &[u8] = b"WEAVEREC\x01\x01\
\x00\x00\x00\x06\x00\x00\x00\x01\x00\x00\x00\x01\
\x00\x00\x00\x04\x00\x00\x00\x01\x00\x00\x00\x01\
\x00\x00\x00\x02\
\x00\x00\x00\x00\x00\x04\x00\x01\x00\x00\x00\x00\x00\
\x00\x02\x00\x00\x00\x04\x00\x01\x00\x00\x00\x00\x01\
\x00\x02\x00\x00\x00\x00\x04\xb0\x00\x00\x04\xb0";

pub const PICTURE: &[u8] = b"P6\n6 1\n255\n\
\x0a\x0a\x0a\x14\x14\x14\x0a\x0a\x0a\x14\x14\x14\x1e\x1e\x1e\x28\x28\x28";

const TWO: Case<'static> = Case {
    words: "quilt sample=s out=o map=m record=r width=6 height=1 block=4 overlap=2",
    sample: FOUR_CELLS,
    second: NO_CELL,
    failing: Failing::Nothing,
    status: 0,
    report: "quilt 6x1x1\nblocks 2\nboundaries 1\ncost 1200\n",
    line: "",
    picture: PICTURE,
    map: MAP,
    record: RECORD,
};

pub const STANDS: Verdict<'static> = Verdict {
    sample: FOUR_CELLS,
    picture: PICTURE,
    map: MAP,
    record: RECORD,
    bytes: &[],
    status: 0,
    report: "stands\n",
    line: "",
};

// Four blocks of 4 x 4 cells on 6 x 6 cells, which overlap by two: strips on the left, on the top,
// and on both sides. The numbers were found by trying each boundary.
const SQUARE_SAMPLE: &[u8] = b"P6\n4 4\n255\n\
\x6e\x6e\x6e\x5a\x5a\x5a\xe1\xe1\xe1\xaf\xaf\xaf\
\x1e\x1e\x1e\x64\x64\x64\xdc\xdc\xdc\x69\x69\x69\
\x64\x64\x64\x3c\x3c\x3c\x1e\x1e\x1e\xcd\xcd\xcd\
\x32\x32\x32\xeb\xeb\xeb\xe1\xe1\xe1\x64\x64\x64";

const SQUARE_PICTURE: &[u8] = b"P6\n6 6\n255\n\
\x6e\x6e\x6e\x5a\x5a\x5a\xe1\xe1\xe1\x5a\x5a\x5a\xe1\xe1\xe1\xaf\xaf\xaf\
\x1e\x1e\x1e\x64\x64\x64\xdc\xdc\xdc\x64\x64\x64\xdc\xdc\xdc\x69\x69\x69\
\x6e\x6e\x6e\x5a\x5a\x5a\x6e\x6e\x6e\xaf\xaf\xaf\x1e\x1e\x1e\xcd\xcd\xcd\
\x1e\x1e\x1e\x64\x64\x64\xdc\xdc\xdc\x64\x64\x64\xdc\xdc\xdc\x69\x69\x69\
\x64\x64\x64\x3c\x3c\x3c\x64\x64\x64\x3c\x3c\x3c\x1e\x1e\x1e\xcd\xcd\xcd\
\x32\x32\x32\xeb\xeb\xeb\xe1\xe1\xe1\xeb\xeb\xeb\xe1\xe1\xe1\x64\x64\x64";

const SQUARE_MAP: &[u8] = b"WEAVEMAP\x01\x00\
\x00\x00\x00\x06\x00\x00\x00\x06\x00\x00\x00\x01\
\x00\x00\x00\x04\x00\x00\x00\x04\x00\x00\x00\x01\
\x00\x00\x00\x00\x00\x00\x00\x01\x00\x00\x00\x00\x00\x02\x00\x00\x00\x00\
\x00\x01\x00\x00\x00\x00\x00\x02\x00\x00\x00\x00\x00\x03\x00\x00\x00\x00\
\x00\x00\x00\x01\x00\x00\x00\x01\x00\x01\x00\x00\x00\x02\x00\x01\x00\x00\
\x00\x01\x00\x01\x00\x00\x00\x02\x00\x01\x00\x00\x00\x03\x00\x01\x00\x00\
\x00\x00\x00\x00\x00\x00\x00\x01\x00\x00\x00\x00\x00\x00\x00\x00\x00\x00\
\x00\x03\x00\x00\x00\x00\x00\x02\x00\x02\x00\x00\x00\x03\x00\x02\x00\x00\
\x00\x00\x00\x01\x00\x00\x00\x01\x00\x01\x00\x00\x00\x02\x00\x01\x00\x00\
\x00\x01\x00\x01\x00\x00\x00\x02\x00\x01\x00\x00\x00\x03\x00\x01\x00\x00\
\x00\x00\x00\x02\x00\x00\x00\x01\x00\x02\x00\x00\x00\x00\x00\x02\x00\x00\
\x00\x01\x00\x02\x00\x00\x00\x02\x00\x02\x00\x00\x00\x03\x00\x02\x00\x00\
\x00\x00\x00\x03\x00\x00\x00\x01\x00\x03\x00\x00\x00\x02\x00\x03\x00\x00\
\x00\x01\x00\x03\x00\x00\x00\x02\x00\x03\x00\x00\x00\x03\x00\x03\x00\x00";

const SQUARE_RECORD: &[u8] = b"WEAVEREC\x01\x01\
\x00\x00\x00\x06\x00\x00\x00\x06\x00\x00\x00\x01\
\x00\x00\x00\x04\x00\x00\x00\x04\x00\x00\x00\x01\
\x00\x00\x00\x04\
\x00\x00\x00\x00\x00\x04\x00\x04\x00\x00\x00\x00\x00\
\x00\x02\x00\x00\x00\x04\x00\x04\x00\x00\x00\x00\x01\
\x00\x02\x00\x01\x00\x01\x00\x00\x00\x01\
\x00\x00\x9a\xfb\x00\x00\x54\xab\
\x00\x01\xfb\xb7\x00\x00\x54\xf6\
\x00\x00\x8e\x62\x00\x01\x4b\x59\
\x00\x01\xf5\x45\x00\x01\x63\xf5\
\x00\x00\x00\x02\x00\x04\x00\x04\x00\x00\x00\x00\x02\
\x00\x02\x00\x00\x00\x00\x00\x01\x00\x00\
\x00\x00\x01\x2c\x00\x00\x04\xb0\
\x00\x00\x0b\xb8\x00\x00\xd6\xbf\
\x00\x00\xc2\xd3\x00\x00\x0c\x03\
\x00\x00\xa6\xfe\x00\x00\xd2\x0f\
\x00\x02\x00\x02\x00\x04\x00\x04\x00\x00\x00\x00\x03\
\x00\x02\x00\x00\x00\x01\x00\x00\x00\x01\
\x00\x00\x01\x2c\x00\x00\x54\xab\
\x00\x01\xa8\x38\x00\x00\x01\x77\
\x00\x00\x3a\xe3\x00\x00\xf7\xda\
\x00\x01\xa1\xc6\x00\x01\x10\x76\
\x00\x02\x00\x00\x00\x01\x00\x01\x00\x01\
\x00\x00\x01\x2c\x00\x01\xa7\x0c\
\x00\x00\x55\xd7\x00\x00\x01\x77\
\x00\x01\xbf\x12\x00\x00\x01\xc2\
\x00\x00\x0c\x4e\x00\x00\x02\x0d";

const SQUARE: Case<'static> = Case {
    words: "quilt sample=s out=o map=m record=r width=6 height=6 block=4 overlap=2",
    sample: SQUARE_SAMPLE,
    second: NO_CELL,
    failing: Failing::Nothing,
    status: 0,
    report: "quilt 6x6x1\nblocks 4\nboundaries 4\ncost 204150\n",
    line: "",
    picture: SQUARE_PICTURE,
    map: SQUARE_MAP,
    record: SQUARE_RECORD,
};

pub const SQUARE_STANDS: Verdict<'static> = Verdict {
    sample: SQUARE_SAMPLE,
    picture: SQUARE_PICTURE,
    map: SQUARE_MAP,
    record: SQUARE_RECORD,
    bytes: &[],
    status: 0,
    report: "stands\n",
    line: "",
};

const ONE_MAP: &[u8] = b"WEAVEMAP\x01\x00\
\x00\x00\x00\x04\x00\x00\x00\x01\x00\x00\x00\x01\
\x00\x00\x00\x04\x00\x00\x00\x01\x00\x00\x00\x01\
\x00\x00\x00\x00\x00\x00\x00\x01\x00\x00\x00\x00\
\x00\x02\x00\x00\x00\x00\x00\x03\x00\x00\x00\x00";

const ONE_RECORD: &[u8] = b"WEAVEREC\x01\x01\
\x00\x00\x00\x04\x00\x00\x00\x01\x00\x00\x00\x01\
\x00\x00\x00\x04\x00\x00\x00\x01\x00\x00\x00\x01\
\x00\x00\x00\x01\
\x00\x00\x00\x00\x00\x04\x00\x01\x00\x00\x00\x00\x00";

// A block that is the whole output, which is the whole sample.
const ONE: Case<'static> = Case {
    words: "quilt sample=s out=o map=m record=r width=4 height=1 block=8",
    report: "quilt 4x1x1\nblocks 1\nboundaries 0\ncost 0\n",
    picture: FOUR_CELLS,
    map: ONE_MAP,
    record: ONE_RECORD,
    ..TWO
};

// The first two cells have the same bytes; the map names each.
const EQUAL_CELLS: &[u8] = b"P6\n4 1\n255\n\x0a\x0a\x0a\x0a\x0a\x0a\x1e\x1e\x1e\x28\x28\x28";

const QUILTED: &[Case<'static>] = &[
    ONE,
    Case {
        sample: EQUAL_CELLS,
        picture: EQUAL_CELLS,
        ..ONE
    },
    TWO,
    SQUARE,
    Case {
        words: "quilt seed=7 tol=0 overlap=2 block=4 height=1 width=6 record=r map=m out=o sample=s",
        ..TWO
    },
];

const ACCEPTED: &[Verdict<'static>] = &[
    Verdict {
        picture: FOUR_CELLS,
        map: ONE_MAP,
        record: ONE_RECORD,
        ..STANDS
    },
    STANDS,
    SQUARE_STANDS,
];

const FAILING: &[Case<'static>] = &[
    Case {
        failing: Failing::Get("s"),
        status: 5,
        report: "",
        line: "weave: sample: read fault\n",
        picture: BEFORE,
        map: BEFORE,
        record: BEFORE,
        ..TWO
    },
    Case {
        failing: Failing::Begin("o"),
        status: 6,
        report: "",
        line: "weave: out: write fault\n",
        picture: BEFORE,
        map: BEFORE,
        record: BEFORE,
        ..TWO
    },
    Case {
        failing: Failing::Add("m", 0),
        status: 6,
        report: "",
        line: "weave: map: write fault\n",
        map: b"",
        record: BEFORE,
        ..TWO
    },
    Case {
        failing: Failing::Add("r", 3),
        status: 6,
        report: "",
        line: "weave: record: write fault\n",
        record: b"WEA",
        ..TWO
    },
    Case {
        failing: Failing::Report(2),
        status: 6,
        report: "qu",
        line: "weave: report: write fault\n",
        ..TWO
    },
];

const WORDS: &[(&str, u8, &str)] = &[
    ("quilt", 2, "weave: missing key sample\n"),
    (
        "quilt sample=s out=o map=m record=r height=2",
        2,
        "weave: missing key width\n",
    ),
    ("quilt frames=2", 2, "weave: word 2: unknown key\n"),
    ("quilt sample2=t", 2, "weave: word 2: unknown key\n"),
    ("quilt place=grid", 2, "weave: word 2: unknown key\n"),
    ("quilt rounds=1", 2, "weave: word 2: unknown key\n"),
    ("quilt box=4", 2, "weave: word 2: unknown key\n"),
    ("quilt block=0", 2, "weave: word 2: out of range\n"),
    ("quilt block=4097", 2, "weave: word 2: out of range\n"),
    ("quilt overlap=4096", 2, "weave: word 2: out of range\n"),
    ("quilt tol=1001", 2, "weave: word 2: out of range\n"),
    ("quilt block=x", 2, "weave: word 2: bad value\n"),
    ("quilt block=4 block=4", 2, "weave: word 3: repeated key\n"),
    (
        "quilt map=a record=a",
        2,
        "weave: word 3: name already used\n",
    ),
    (
        "quilt sample=s out=o map=m record=r width=1025 height=1024",
        4,
        "weave: limit output 1049600 over 1048576\n",
    ),
];

const SAMPLES: &[(&[u8], u8, &str)] = &[
    (b"", 3, "weave: sample: form at 0\n"),
    (
        b"YUV4MPEG2 W1 H1 Cmono\nFRAME\n\x0a",
        3,
        "weave: sample: form at 0\n",
    ),
    (b"P6\n1 1\n255\n\x0a\x0a", 3, "weave: sample: form at 13\n"),
    (
        b"P6\n1 1\n255\n\x0a\x0a\x0a\x0a",
        3,
        "weave: sample: trailing at 14\n",
    ),
];

// A clip is no sample of a quilt.
const TRIED: &str = "quilt sample=s out=o map=m record=r width=3 height=2";

#[test]
fn quilts(rt: HostRuntime) {
    expect_table(&rt, rt.alloc(), Table::Cases(QUILTED));
    expect_table(&rt, rt.alloc(), Table::Verdicts(ACCEPTED));
    expect_table(&rt, rt.alloc(), Table::Cases(FAILING));
    expect_table(&rt, rt.alloc(), Table::Words(ONE_CELL, WORDS));
    expect_table(&rt, rt.alloc(), Table::Samples(TRIED, SAMPLES));
}
