// Runs over two samples: the files of version 2, the refusals of the second, and two clips.
use crate::samples::{TWO_CELLS, TWO_FRAMES};
use crate::tables::{Table, expect_table};
use test_stage::{BEFORE, Case, Failing, Made, ONE_CELL};

// The sizes of both samples, and for each cell its sample and the place in it. A grid has the
// first alone.
const MAP: &[u8] = b"WEAVEMAP\x02\x00\
\x00\x00\x00\x02\x00\x00\x00\x01\x00\x00\x00\x01\x00\x02\
\x00\x00\x00\x01\x00\x00\x00\x01\x00\x00\x00\x01\
\x00\x00\x00\x02\x00\x00\x00\x01\x00\x00\x00\x01\
\x00\x01\x00\x00\x00\x00\x00\x00\x00\x01\x00\x00\x00\x00\x00\x00";

const RECORD: &[u8] = b"WEAVEREC\x02\x00\
\x00\x00\x00\x02\x00\x00\x00\x01\x00\x00\x00\x01\x00\x02\
\x00\x00\x00\x01\x00\x00\x00\x01\x00\x00\x00\x01\
\x00\x00\x00\x02\x00\x00\x00\x01\x00\x00\x00\x01\
\x00\x00\x00\x02\
\x00\x00\x00\x00\x00\x00\x00\x01\x00\x01\x00\x01\x00\x01\x00\x00\x00\x00\x00\x00\x80\
\x00\x01\x00\x00\x00\x00\x00\x01\x00\x01\x00\x01\x00\x01\x00\x00\x00\x00\x00\x00\x80";

// A cell of grey 10, and two of grey 20 and 30.
const TWO_SAMPLES: Case<'static> = Case {
    words: "grow sample=s sample2=t out=o map=m record=r width=2 height=1 place=grid overlap=0",
    sample: b"P6\n1 1\n255\n\x0a\x0a\x0a",
    second: b"P6\n2 1\n255\n\x14\x14\x14\x1e\x1e\x1e",
    failing: Failing::Nothing,
    status: 0,
    report: "grow 2x1x1\nplacements 2\nrounds 0\nseams 1530\n",
    line: "",
    picture: b"P6\n2 1\n255\n\x0a\x0a\x0a\x0a\x0a\x0a",
    map: MAP,
    record: RECORD,
};

// Cells 0 and 1 are sample 1, and cell 2 is the second cell of sample 2.
const MIXED_MAP: &[u8] = b"WEAVEMAP\x02\x00\
\x00\x00\x00\x03\x00\x00\x00\x01\x00\x00\x00\x01\x00\x02\
\x00\x00\x00\x02\x00\x00\x00\x01\x00\x00\x00\x01\
\x00\x00\x00\x02\x00\x00\x00\x01\x00\x00\x00\x01\
\x00\x01\x00\x00\x00\x00\x00\x00\x00\x01\x00\x01\x00\x00\x00\x00\
\x00\x02\x00\x01\x00\x00\x00\x00";

// The second placement keeps its first cell. What lies beside it in sample 1 is outside: 765 flows
// out of it.
const MIXED_RECORD: &[u8] = b"WEAVEREC\x02\x00\
\x00\x00\x00\x03\x00\x00\x00\x01\x00\x00\x00\x01\x00\x02\
\x00\x00\x00\x02\x00\x00\x00\x01\x00\x00\x00\x01\
\x00\x00\x00\x02\x00\x00\x00\x01\x00\x00\x00\x01\
\x00\x00\x00\x02\
\x00\x00\x00\x00\x00\x00\x00\x02\x00\x01\x00\x01\x00\x01\x00\x00\x00\x00\x00\x00\xc0\
\x00\x00\x00\x00\
\x00\x01\x00\x00\x00\x00\x00\x02\x00\x01\x00\x01\x00\x02\x00\x00\x00\x00\x00\x00\x40\
\x02\xfd\x00\x00";

const MIXED_WORDS: &str =
    "grow sample=s sample2=t out=o map=m record=r width=3 height=1 box=2 overlap=1 tol=0";

const TEN_AND_20: &[u8] = b"P6\n2 1\n255\n\x0a\x0a\x0a\x14\x14\x14";

const TWENTY_AND_30: &[u8] = b"P6\n2 1\n255\n\x14\x14\x14\x1e\x1e\x1e";

const MIXED_REPORT: &str = "grow 3x1x1\nplacements 2\nrounds 0\nseams 765\n";

const MIXED_PICTURE: &[u8] = b"P6\n3 1\n255\n\x0a\x0a\x0a\x14\x14\x14\x1e\x1e\x1e";

// Two cells of grey 10 and 20, and two of grey 20 and 30. Draw 0 of seed 0 takes the first sample
// of two; the second patch is that of sample 2, whose first cell is what is there.
const MIXED: Case<'static> = Case {
    words: MIXED_WORDS,
    sample: TEN_AND_20,
    second: TWENTY_AND_30,
    report: MIXED_REPORT,
    picture: MIXED_PICTURE,
    map: MIXED_MAP,
    record: MIXED_RECORD,
    ..TWO_SAMPLES
};

const REFUSED: Case<'static> = Case {
    status: 3,
    report: "",
    picture: BEFORE,
    map: BEFORE,
    record: BEFORE,
    ..TWO_SAMPLES
};

const CASES: &[Case<'static>] = &[
    TWO_SAMPLES,
    MIXED,
    Case {
        second: b"P6\n1 1\n15\n\x0a\x0a\x0a",
        line: "weave: sample2: unlike\n",
        ..REFUSED
    },
    Case {
        second: b"P5",
        line: "weave: sample2: form at 1\n",
        ..REFUSED
    },
    // A clip beside a picture.
    Case {
        second: b"YUV4MPEG2 W1 H1 Cmono\nFRAME\n\x0a",
        line: "weave: sample2: unlike\n",
        ..REFUSED
    },
];

// The run, and the check of what it leaves.
const ACCEPTED: Made<'static> = Made {
    words: MIXED_WORDS,
    check: "check sample=s sample2=t out=o map=m record=r",
    sample: TEN_AND_20,
    second: TWENTY_AND_30,
    report: MIXED_REPORT,
    picture: MIXED_PICTURE,
};

const CLIP_WORDS: &str =
    "grow sample=s sample2=t out=o map=m record=r width=1 height=1 frames=2 place=grid overlap=0";

const OF_CLIPS: &[Made<'static>] = &[Made {
    words: CLIP_WORDS,
    check: "check sample=s sample2=t out=o map=m record=r",
    sample: TWO_FRAMES,
    second: b"YUV4MPEG2 W1 H1 F25:1 Cmono\nFRAME\n\x1e",
    report: "grow 1x1x2\nplacements 1\nrounds 0\nseams 0\n",
    picture: TWO_FRAMES,
}];

const UNLIKE: Case<'static> = Case {
    words: CLIP_WORDS,
    sample: TWO_FRAMES,
    second: ONE_CELL,
    failing: Failing::Nothing,
    status: 3,
    report: "",
    line: "weave: sample2: unlike\n",
    picture: BEFORE,
    map: BEFORE,
    record: BEFORE,
};

const UNLIKE_CLIPS: &[Case<'static>] = &[
    UNLIKE,
    Case {
        sample: ONE_CELL,
        second: TWO_FRAMES,
        ..UNLIKE
    },
    Case {
        second: TWO_CELLS,
        ..UNLIKE
    },
];

#[test]
fn two_samples(rt: HostRuntime) {
    expect_table(&rt, rt.alloc(), Table::Cases(CASES));
    expect_table(&rt, rt.alloc(), Table::Made(&[ACCEPTED]));
    expect_table(&rt, rt.alloc(), Table::Made(OF_CLIPS));
    expect_table(&rt, rt.alloc(), Table::Cases(UNLIKE_CLIPS));
}
