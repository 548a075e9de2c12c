// Worked transfers: where each cell comes from, the boundaries, and how far the picture is from
// the target. Words, samples and targets that `transfer` refuses, in the order in which they are
// refused. No file is written.
use crate::tables::{Table, expect_table};
use test_stage::{BEFORE, Case, FOUR_CELLS, Failing, Verdict};

const PAIR: &[u8] = b"P6\n2 1\n255\n\x1e\x1e\x1e\x28\x28\x28";

const TRIPLE: &[u8] = b"P6\n3 1\n255\n\x1e\x1e\x1e\x28\x28\x28\x0a\x0a\x0a";

const PAIR_MAP: &[u8] = b"WEAVEMAP\x01\x00\
\x00\x00\x00\x02\x00\x00\x00\x01\x00\x00\x00\x01\
\x00\x00\x00\x04\x00\x00\x00\x01\x00\x00\x00\x01\
\x00\x02\x00\x00\x00\x00\x00\x03\x00\x00\x00\x00";

const PAIR_RECORD: &[u8] = b"WEAVEREC\x01\x01\
\x00\x00\x00\x02\x00\x00\x00\x01\x00\x00\x00\x01\
\x00\x00\x00\x04\x00\x00\x00\x01\x00\x00\x00\x01\
\x00\x00\x00\x01\
\x00\x00\x00\x00\x00\x02\x00\x01\x00\x02\x00\x00\x00";

const TRIPLE_PICTURE: &[u8] = b"P6\n3 1\n255\n\x1e\x1e\x1e\x1e\x1e\x1e\x28\x28\x28";

const TRIPLE_MAP: &[u8] = b"WEAVEMAP\x01\x00\
\x00\x00\x00\x03\x00\x00\x00\x01\x00\x00\x00\x01\
\x00\x00\x00\x04\x00\x00\x00\x01\x00\x00\x00\x01\
\x00\x02\x00\x00\x00\x00\x00\x02\x00\x00\x00\x00\x00\x03\x00\x00\x00\x00";

const TRIPLE_RECORD: &[u8] = b"WEAVEREC\x01\x01\
\x00\x00\x00\x03\x00\x00\x00\x01\x00\x00\x00\x01\
\x00\x00\x00\x04\x00\x00\x00\x01\x00\x00\x00\x01\
\x00\x00\x00\x02\
\x00\x00\x00\x00\x00\x02\x00\x01\x00\x02\x00\x00\x00\
\x00\x01\x00\x00\x00\x02\x00\x01\x00\x02\x00\x00\x01\
\x00\x01\x00\x00\x00\x00\x01\x2c";

const NINE: &[u8] = b"P6\n3 3\n255\n\
\x0a\x0a\x0a\x14\x14\x14\x1e\x1e\x1e\
\x28\x28\x28\x32\x32\x32\x3c\x3c\x3c\
\x46\x46\x46\x50\x50\x50\x5a\x5a\x5a";

const WANTED: &[u8] = b"P6\n3 3\n255\n\
\x5a\x5a\x5a\x14\x14\x14\x32\x32\x32\
\x28\x28\x28\x0a\x0a\x0a\x46\x46\x46\
\x1e\x1e\x1e\x3c\x3c\x3c\x50\x50\x50";

const PAINTED: &[u8] = b"P6\n3 3\n255\n\
\x14\x14\x14\x14\x14\x14\x1e\x1e\x1e\
\x14\x14\x14\x28\x28\x28\x32\x32\x32\
\x32\x32\x32\x46\x46\x46\x50\x50\x50";

const PAINTED_MAP: &[u8] = b"WEAVEMAP\x01\x00\
\x00\x00\x00\x03\x00\x00\x00\x03\x00\x00\x00\x01\
\x00\x00\x00\x03\x00\x00\x00\x03\x00\x00\x00\x01\
\x00\x01\x00\x00\x00\x00\x00\x01\x00\x00\x00\x00\x00\x02\x00\x00\x00\x00\
\x00\x01\x00\x00\x00\x00\x00\x00\x00\x01\x00\x00\x00\x01\x00\x01\x00\x00\
\x00\x01\x00\x01\x00\x00\x00\x00\x00\x02\x00\x00\x00\x01\x00\x02\x00\x00";

const PAINTED_RECORD: &[u8] = b"WEAVEREC\x01\x01\
\x00\x00\x00\x03\x00\x00\x00\x03\x00\x00\x00\x01\
\x00\x00\x00\x03\x00\x00\x00\x03\x00\x00\x00\x01\
\x00\x00\x00\x04\
\x00\x00\x00\x00\x00\x02\x00\x02\x00\x01\x00\x00\x00\
\x00\x01\x00\x00\x00\x02\x00\x02\x00\x01\x00\x00\x01\
\x00\x01\x00\x00\x00\x00\x00\x00\x01\x2c\x00\x00\x02\x58\
\x00\x00\x00\x01\x00\x02\x00\x02\x00\x01\x00\x00\x02\
\x00\x01\x00\x00\x00\x00\x00\x00\x0a\x8c\x00\x00\x0f\x3c\
\x00\x01\x00\x01\x00\x02\x00\x02\x00\x00\x00\x01\x03\
\x00\x01\x00\x00\x00\x00\x00\x00\x01\x2c\x00\x00\x02\x58\
\x00\x01\x00\x00\x00\x00\x00\x00\x01\x2c\x00\x00\x02\x58";

const DRAWN: &[u8] = b"P6\n3 3\n255\n\
\x32\x32\x32\x32\x32\x32\x3c\x3c\x3c\
\x14\x14\x14\x0a\x0a\x0a\x14\x14\x14\
\x32\x32\x32\x28\x28\x28\x32\x32\x32";

const DRAWN_MAP: &[u8] = b"WEAVEMAP\x01\x00\
\x00\x00\x00\x03\x00\x00\x00\x03\x00\x00\x00\x01\
\x00\x00\x00\x03\x00\x00\x00\x03\x00\x00\x00\x01\
\x00\x01\x00\x01\x00\x00\x00\x01\x00\x01\x00\x00\x00\x02\x00\x01\x00\x00\
\x00\x01\x00\x00\x00\x00\x00\x00\x00\x00\x00\x00\x00\x01\x00\x00\x00\x00\
\x00\x01\x00\x01\x00\x00\x00\x00\x00\x01\x00\x00\x00\x01\x00\x01\x00\x00";

const DRAWN_RECORD: &[u8] = b"WEAVEREC\x01\x01\
\x00\x00\x00\x03\x00\x00\x00\x03\x00\x00\x00\x01\
\x00\x00\x00\x03\x00\x00\x00\x03\x00\x00\x00\x01\
\x00\x00\x00\x04\
\x00\x00\x00\x00\x00\x02\x00\x02\x00\x01\x00\x01\x00\
\x00\x01\x00\x00\x00\x02\x00\x02\x00\x01\x00\x01\x01\
\x00\x01\x00\x00\x00\x00\x00\x00\x01\x2c\x00\x00\x02\x58\
\x00\x00\x00\x01\x00\x02\x00\x02\x00\x01\x00\x00\x02\
\x00\x01\x00\x00\x00\x00\x00\x00\x2a\x30\x00\x00\x47\x7c\
\x00\x01\x00\x01\x00\x02\x00\x02\x00\x00\x00\x00\x03\
\x00\x01\x00\x00\x00\x00\x00\x00\x04\xb0\x00\x00\x09\x60\
\x00\x01\x00\x00\x00\x00\x00\x00\x04\xb0\x00\x00\x3e\x1c";

// Two blocks, both from the third column: the first is the target's own, and the second is 3 * (10
// * 10 + 30 * 30) from it.
const TWO: Case<'static> = Case {
    words: "transfer sample=s target=t out=o map=m record=r block=2 overlap=1 alpha=50 tol=0",
    sample: FOUR_CELLS,
    second: TRIPLE,
    failing: Failing::Nothing,
    status: 0,
    report: "transfer 3x1x1\nblocks 2\nboundaries 1\ncost 300\nmatch 3000\n",
    line: "",
    picture: TRIPLE_PICTURE,
    map: TRIPLE_MAP,
    record: TRIPLE_RECORD,
};

// Four blocks, with strips on the left, on the top, and on both sides.
const FOUR: Case<'static> = Case {
    sample: NINE,
    second: WANTED,
    report: "transfer 3x3x1\nblocks 4\nboundaries 4\ncost 5700\nmatch 22500\n",
    picture: PAINTED,
    map: PAINTED_MAP,
    record: PAINTED_RECORD,
    ..TWO
};

// A target that is the sample. Its first two cells have the same bytes; the map names each.
const EQUAL_CELLS: &[u8] = b"P6\n4 1\n255\n\x0a\x0a\x0a\x0a\x0a\x0a\x1e\x1e\x1e\x28\x28\x28";

const EACH_MAP: &[u8] = b"WEAVEMAP\x01\x00\
\x00\x00\x00\x04\x00\x00\x00\x01\x00\x00\x00\x01\
\x00\x00\x00\x04\x00\x00\x00\x01\x00\x00\x00\x01\
\x00\x00\x00\x00\x00\x00\x00\x01\x00\x00\x00\x00\
\x00\x02\x00\x00\x00\x00\x00\x03\x00\x00\x00\x00";

const WHOLE_RECORD: &[u8] = b"WEAVEREC\x01\x01\
\x00\x00\x00\x04\x00\x00\x00\x01\x00\x00\x00\x01\
\x00\x00\x00\x04\x00\x00\x00\x01\x00\x00\x00\x01\
\x00\x00\x00\x01\
\x00\x00\x00\x00\x00\x04\x00\x01\x00\x00\x00\x00\x00";

const TRANSFERRED: &[Case<'static>] = &[
    Case {
        words: "transfer sample=s target=t out=o map=m record=r block=4 overlap=0 alpha=0 tol=0",
        sample: EQUAL_CELLS,
        second: EQUAL_CELLS,
        report: "transfer 4x1x1\nblocks 1\nboundaries 0\ncost 0\nmatch 0\n",
        picture: EQUAL_CELLS,
        map: EACH_MAP,
        record: WHOLE_RECORD,
        ..TWO
    },
    Case {
        words: "transfer sample=s target=t out=o map=m record=r block=2 overlap=0 alpha=0 tol=0",
        second: PAIR,
        report: "transfer 2x1x1\nblocks 1\nboundaries 0\ncost 0\nmatch 0\n",
        picture: PAIR,
        map: PAIR_MAP,
        record: PAIR_RECORD,
        ..TWO
    },
    TWO,
    FOUR,
    Case {
        words: "transfer tol=0 alpha=0 overlap=1 block=2 record=r map=m out=o target=t sample=s",
        ..FOUR
    },
    Case {
        words: "transfer sample=s target=t out=o map=m record=r block=2 overlap=1 alpha=100 tol=1000 seed=3",
        report: "transfer 3x3x1\nblocks 4\nboundaries 4\ncost 37200\nmatch 21600\n",
        picture: DRAWN,
        map: DRAWN_MAP,
        record: DRAWN_RECORD,
        ..FOUR
    },
];

const STANDS: Verdict<'static> = Verdict {
    sample: FOUR_CELLS,
    picture: PAIR,
    map: PAIR_MAP,
    record: PAIR_RECORD,
    bytes: &[],
    status: 0,
    report: "stands\n",
    line: "",
};

const ACCEPTED: &[Verdict<'static>] = &[
    STANDS,
    Verdict {
        picture: TRIPLE_PICTURE,
        map: TRIPLE_MAP,
        record: TRIPLE_RECORD,
        ..STANDS
    },
    Verdict {
        sample: NINE,
        picture: PAINTED,
        map: PAINTED_MAP,
        record: PAINTED_RECORD,
        ..STANDS
    },
    Verdict {
        sample: NINE,
        picture: DRAWN,
        map: DRAWN_MAP,
        record: DRAWN_RECORD,
        ..STANDS
    },
];

const WORDS: &[(&str, u8, &str)] = &[
    ("transfer sample=s out=o", 2, "weave: missing key target\n"),
    (
        "transfer sample=s target=s",
        2,
        "weave: word 3: name already used\n",
    ),
    ("transfer alpha=101", 2, "weave: word 2: out of range\n"),
    ("transfer alpha=-1", 2, "weave: word 2: bad value\n"),
    ("transfer width=3", 2, "weave: word 2: unknown key\n"),
    // The number 50; what is refused is the sample.
    (
        "transfer sample=x target=s out=o map=m record=r alpha=050",
        5,
        "weave: sample: read fault\n",
    ),
];

const REFUSED: Case<'static> = Case {
    status: 3,
    report: "",
    picture: BEFORE,
    map: BEFORE,
    record: BEFORE,
    ..TWO
};

const CLIP: &[u8] = b"YUV4MPEG2 W3 H1 Cmono\nFRAME\n\x1e\x28\x0a";

// Another maxval, and as many cells as are read at most.
const DARK: &[u8] = b"P6\n3 1\n200\n\x1e\x1e\x1e\x28\x28\x28\x0a\x0a\x0a";

const BROAD: &[u8] = b"P6\n4096 2049\n255\n";

const FILES: &[Case<'static>] = &[
    Case {
        sample: CLIP,
        line: "weave: sample: form at 0\n",
        ..REFUSED
    },
    Case {
        second: CLIP,
        line: "weave: target: form at 0\n",
        ..REFUSED
    },
    Case {
        second: DARK,
        line: "weave: target: unlike\n",
        ..REFUSED
    },
    Case {
        sample: DARK,
        line: "weave: target: unlike\n",
        ..REFUSED
    },
    // The sample is refused before the target is read, and a target that can't be read is refused
    // whatever its maxval.
    Case {
        sample: b"P6\n",
        second: CLIP,
        line: "weave: sample: form at 3\n",
        ..REFUSED
    },
    Case {
        failing: Failing::Get("s"),
        second: CLIP,
        status: 5,
        line: "weave: sample: read fault\n",
        ..REFUSED
    },
    Case {
        second: BROAD,
        status: 4,
        line: "weave: limit cells 8392704 over 8388608\n",
        ..REFUSED
    },
];

#[test]
fn targets_are_painted(rt: HostRuntime) {
    expect_table(&rt, rt.alloc(), Table::Cases(TRANSFERRED));
    expect_table(&rt, rt.alloc(), Table::Verdicts(ACCEPTED));
    expect_table(&rt, rt.alloc(), Table::Words(FOUR_CELLS, WORDS));
    expect_table(&rt, rt.alloc(), Table::Cases(FILES));
}
