// The files of two copies of four cells, which overlap by two. They stand, as they are and as they
// are grown; in their forms they are said to break the first rule that they break. Files that
// aren't in their forms, that pass a limit or that can't be read.
use crate::tables::{Table, expect_table};
use test_stage::{
    FOUR_CELLS, Failing, File, Made, NO_CELL, OVERLAP_MAP, OVERLAP_PICTURE, OVERLAP_RECORD,
    OVERLAPPING, Run, Verdict,
};

const STANDS: Verdict<'static> = Verdict {
    sample: FOUR_CELLS,
    picture: OVERLAP_PICTURE,
    map: OVERLAP_MAP,
    record: OVERLAP_RECORD,
    bytes: &[],
    status: 0,
    report: "stands\n",
    line: "",
};

const BROKEN: Verdict<'static> = Verdict {
    status: 1,
    ..STANDS
};

const RECORDS: &[Verdict<'static>] = &[
    STANDS,
    // A source that passes the end of the sample.
    Verdict {
        bytes: &[("r", 82, 1)],
        report: "fails record 2 rule 1 place 0\n",
        ..BROKEN
    },
    // A cell without a source that isn't new, and a kept cell that is.
    Verdict {
        bytes: &[("r", 87, 0x60)],
        report: "fails record 2 rule 2 place 3\n",
        ..BROKEN
    },
    Verdict {
        bytes: &[("r", 87, 0xf0)],
        report: "fails record 2 rule 3 place 0\n",
        ..BROKEN
    },
    // Flows past their bounds.
    Verdict {
        bytes: &[("r", 88, 0x7f), ("r", 89, 0xff)],
        report: "fails record 2 rule 4 place 0\n",
        ..BROKEN
    },
    Verdict {
        bytes: &[("r", 95, 1)],
        report: "fails record 2 rule 4 place 1\n",
        ..BROKEN
    },
    // A free cell that more leaves than comes in.
    Verdict {
        bytes: &[("r", 93, 119)],
        report: "fails record 2 rule 5 place 1\n",
        ..BROKEN
    },
    // A flow of one less than the cost.
    Verdict {
        bytes: &[("r", 89, 119), ("r", 91, 119), ("r", 93, 119)],
        report: "fails record 2 rule 6 place 0\n",
        ..BROKEN
    },
    // The second cell of the overlap kept old, in all three files: that costs 825, and 120 flows.
    Verdict {
        bytes: &[
            ("r", 87, 0x30),
            ("m", 53, 3),
            ("o", 20, 40),
            ("o", 21, 40),
            ("o", 22, 40),
        ],
        report: "fails record 2 rule 6 place 0\n",
        ..BROKEN
    },
];

// The files of three copies of the four cells on 8 x 1 cells, each of which overlaps the one before
// it by two.
const THREE_COPIES: Verdict<'static> = Verdict {
    picture: b"P6\n8 1\n255\n\
\x0a\x0a\x0a\x14\x14\x14\x1e\x1e\x1e\x14\x14\x14\
\x1e\x1e\x1e\x14\x14\x14\x1e\x1e\x1e\x28\x28\x28",
    map: b"WEAVEMAP\x01\x00\
\x00\x00\x00\x08\x00\x00\x00\x01\x00\x00\x00\x01\
\x00\x00\x00\x04\x00\x00\x00\x01\x00\x00\x00\x01\
\x00\x00\x00\x00\x00\x00\x00\x01\x00\x00\x00\x00\x00\x02\x00\x00\x00\x00\x00\x01\x00\x00\x00\x00\
\x00\x02\x00\x00\x00\x00\x00\x01\x00\x00\x00\x00\x00\x02\x00\x00\x00\x00\x00\x03\x00\x00\x00\x00",
    record: b"WEAVEREC\x01\x00\
\x00\x00\x00\x08\x00\x00\x00\x01\x00\x00\x00\x01\
\x00\x00\x00\x04\x00\x00\x00\x01\x00\x00\x00\x01\
\x00\x00\x00\x03\
\x00\x00\x00\x00\x00\x00\x00\x04\x00\x01\x00\x01\x00\x00\x00\x00\x00\x00\xf0\
\x00\x00\x00\x00\x00\x00\x00\x00\x00\x00\x00\x00\
\x00\x02\x00\x00\x00\x00\x00\x04\x00\x01\x00\x01\x00\x00\x00\x00\x00\x00\x70\
\x00\x78\x00\x78\x00\x78\x00\x00\x00\x00\x00\x00\
\x00\x04\x00\x00\x00\x00\x00\x04\x00\x01\x00\x01\x00\x00\x00\x00\x00\x00\x70\
\x00\x78\x00\x78\x00\x78\x00\x00\x00\x00\x00\x00",
    ..STANDS
};

const LATER_RECORDS: &[Verdict<'static>] = &[
    THREE_COPIES,
    // Of the third copy a free cell that more leaves than comes in.
    Verdict {
        bytes: &[("r", 124, 119)],
        status: 1,
        report: "fails record 3 rule 5 place 1\n",
        ..THREE_COPIES
    },
];

const WHOLE_FILES: &[Verdict<'static>] = &[
    // A picture of 4 x 1 cells and nothing more.
    Verdict {
        picture: b"P6\n4 1\n255\n\x0a\x0a\x0a\x14\x14\x14\x1e\x1e\x1e\x28\x28\x28",
        report: "fails record 0 rule 15 place 0\n",
        ..BROKEN
    },
    // Another maxval.
    Verdict {
        bytes: &[("o", 9, b'4')],
        report: "fails record 0 rule 15 place 0\n",
        ..BROKEN
    },
    Verdict {
        bytes: &[("m", 65, 2)],
        report: "fails record 0 rule 16 place 5\n",
        ..BROKEN
    },
    Verdict {
        bytes: &[("o", 11, 11)],
        report: "fails record 0 rule 17 place 0\n",
        ..BROKEN
    },
    // Of several broken rules the first is reported: that of whole files before those of records,
    // those of the first record before those of the second, those of records before that of the
    // map, and that before that of the picture.
    Verdict {
        bytes: &[("o", 9, b'4'), ("r", 87, 0xf0)],
        report: "fails record 0 rule 15 place 0\n",
        ..BROKEN
    },
    Verdict {
        bytes: &[("r", 59, 1), ("r", 87, 0xf0)],
        report: "fails record 1 rule 4 place 0\n",
        ..BROKEN
    },
    Verdict {
        bytes: &[("r", 93, 119), ("m", 65, 2), ("o", 11, 11)],
        report: "fails record 2 rule 5 place 1\n",
        ..BROKEN
    },
    Verdict {
        bytes: &[("m", 65, 2), ("o", 11, 11)],
        report: "fails record 0 rule 16 place 5\n",
        ..BROKEN
    },
    // Of one record too: a pair past its bounds before a cell that isn't balanced.
    Verdict {
        bytes: &[("r", 88, 0x7f), ("r", 93, 119)],
        report: "fails record 2 rule 4 place 0\n",
        ..BROKEN
    },
];

const FORM: Verdict<'static> = Verdict {
    status: 3,
    report: "",
    ..STANDS
};

const LIMIT: Verdict<'static> = Verdict {
    status: 4,
    report: "",
    ..STANDS
};

const PICTURES_AND_MAPS: &[Verdict<'static>] = &[
    Verdict {
        bytes: &[("o", 7, b'0'), ("o", 8, b'0'), ("o", 9, b'9')],
        line: "weave: out: value at 11\n",
        ..FORM
    },
    // Of three files that break their forms the first is reported.
    Verdict {
        bytes: &[("o", 0, b'Q'), ("m", 0, 0), ("r", 0, 0)],
        line: "weave: out: form at 0\n",
        ..FORM
    },
    Verdict {
        bytes: &[("m", 8, 9)],
        line: "weave: map: form at 8\n",
        ..FORM
    },
    // The first source's column.
    Verdict {
        bytes: &[("m", 35, 4)],
        line: "weave: map: form at 34\n",
        ..FORM
    },
    // An output of 4096 cells on each axis.
    Verdict {
        bytes: &[
            ("m", 12, 0x10),
            ("m", 13, 0),
            ("m", 16, 0x10),
            ("m", 17, 0),
            ("m", 20, 0x10),
            ("m", 21, 0),
        ],
        line: "weave: limit cells 68719476736 over 1048576\n",
        ..LIMIT
    },
];

const BROKEN_RECORDS: &[Verdict<'static>] = &[
    // Kind 3.
    Verdict {
        bytes: &[("r", 9, 3)],
        line: "weave: record: form at 9\n",
        ..FORM
    },
    // The greatest count: the third record would begin at the end of the file.
    Verdict {
        bytes: &[
            ("r", 34, 0xff),
            ("r", 35, 0xff),
            ("r", 36, 0xff),
            ("r", 37, 0xff),
        ],
        line: "weave: record: form at 100\n",
        ..FORM
    },
    // A box without columns.
    Verdict {
        bytes: &[("r", 45, 0)],
        line: "weave: record: form at 44\n",
        ..FORM
    },
    // An unused bit of the choice.
    Verdict {
        bytes: &[("r", 56, 0xf1)],
        line: "weave: record: form at 56\n",
        ..FORM
    },
    // A box of 65,535 cells on each axis.
    Verdict {
        bytes: &[
            ("r", 44, 0xff),
            ("r", 45, 0xff),
            ("r", 46, 0xff),
            ("r", 47, 0xff),
            ("r", 48, 0xff),
            ("r", 49, 0xff),
        ],
        line: "weave: limit records 281462092005375 over 33554432\n",
        ..LIMIT
    },
];

const CHECK: &str = "check sample=s out=o map=m record=r";

const MADE: &[Made<'static>] = &[Made {
    words: OVERLAPPING,
    check: CHECK,
    sample: FOUR_CELLS,
    second: NO_CELL,
    report: "grow 6x1x1\nplacements 2\nrounds 0\nseams 120\n",
    picture: OVERLAP_PICTURE,
}];

const FILES: &[File<'static>] = &[
    ("s", FOUR_CELLS),
    ("o", OVERLAP_PICTURE),
    ("m", OVERLAP_MAP),
    ("r", OVERLAP_RECORD),
];

const UNREAD: Run<'static> = Run {
    words: CHECK,
    before: FILES,
    failing: Failing::Get("s"),
    status: 5,
    report: "",
    line: "weave: sample: read fault\n",
    after: FILES,
};

// Each file that can't be read, once those before it are in their forms; and a report of which two
// bytes are written.
const FAILING: &[Run<'static>] = &[
    UNREAD,
    Run {
        failing: Failing::Get("o"),
        line: "weave: out: read fault\n",
        ..UNREAD
    },
    Run {
        failing: Failing::Get("m"),
        line: "weave: map: read fault\n",
        ..UNREAD
    },
    Run {
        failing: Failing::Get("r"),
        line: "weave: record: read fault\n",
        ..UNREAD
    },
    Run {
        failing: Failing::Report(2),
        status: 6,
        report: "st",
        line: "weave: report: write fault\n",
        ..UNREAD
    },
];

#[test]
fn rules(rt: HostRuntime) {
    expect_table(&rt, rt.alloc(), Table::Verdicts(RECORDS));
    expect_table(&rt, rt.alloc(), Table::Verdicts(LATER_RECORDS));
    expect_table(&rt, rt.alloc(), Table::Verdicts(WHOLE_FILES));
    expect_table(&rt, rt.alloc(), Table::Verdicts(PICTURES_AND_MAPS));
    expect_table(&rt, rt.alloc(), Table::Verdicts(BROKEN_RECORDS));
    expect_table(&rt, rt.alloc(), Table::Made(MADE));
    expect_table(&rt, rt.alloc(), Table::Runs(FAILING));
}
