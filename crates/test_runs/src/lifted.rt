// Upgrades of the files of two copies of four cells, which overlap by two: what the files hold
// after each status, and what `check` says of a pair of version 2. Words and files that `upgrade`
// refuses, each with its line: every file is as before.
use crate::tables::{Table, expect_table};
use test_stage::{
    BEFORE, Case, FOUR_CELLS, Failing, NO_CELL, OVERLAP_MAP, OVERLAP_PICTURE, OVERLAP_RECORD,
    Verdict,
};

/// The count of samples, one size, and for each cell the number of its sample and its place there.
const MAP: &[u8] = b"WEAVEMAP\x02\x00\
\x00\x00\x00\x06\x00\x00\x00\x01\x00\x00\x00\x01\x00\x01\
\x00\x00\x00\x04\x00\x00\x00\x01\x00\x00\x00\x01\
\x00\x01\x00\x00\x00\x00\x00\x00\x00\x01\x00\x01\x00\x00\x00\x00\
\x00\x01\x00\x02\x00\x00\x00\x00\x00\x01\x00\x01\x00\x00\x00\x00\
\x00\x01\x00\x02\x00\x00\x00\x00\x00\x01\x00\x03\x00\x00\x00\x00";

/// The same head, and each source of a record with the number of its sample.
const RECORD: &[u8] = b"WEAVEREC\x02\x00\
\x00\x00\x00\x06\x00\x00\x00\x01\x00\x00\x00\x01\x00\x01\
\x00\x00\x00\x04\x00\x00\x00\x01\x00\x00\x00\x01\
\x00\x00\x00\x02\
\x00\x00\x00\x00\x00\x00\x00\x04\x00\x01\x00\x01\x00\x01\x00\x00\x00\x00\x00\x00\xf0\
\x00\x00\x00\x00\x00\x00\x00\x00\x00\x00\x00\x00\
\x00\x02\x00\x00\x00\x00\x00\x04\x00\x01\x00\x01\x00\x01\x00\x00\x00\x00\x00\x00\x70\
\x00\x78\x00\x78\x00\x78\x00\x00\x00\x00\x00\x00";

/// A record of one placement of one cell, and the same in version 2.
const OTHER_RECORD: &[u8] = b"WEAVEREC\x01\x00\
\x00\x00\x00\x01\x00\x00\x00\x01\x00\x00\x00\x01\
\x00\x00\x00\x01\x00\x00\x00\x01\x00\x00\x00\x01\
\x00\x00\x00\x01\
\x00\x00\x00\x00\x00\x00\x00\x01\x00\x01\x00\x01\x00\x00\x00\x00\x00\x00\x80";

const OTHER_LIFTED: &[u8] = b"WEAVEREC\x02\x00\
\x00\x00\x00\x01\x00\x00\x00\x01\x00\x00\x00\x01\x00\x01\
\x00\x00\x00\x01\x00\x00\x00\x01\x00\x00\x00\x01\
\x00\x00\x00\x01\
\x00\x00\x00\x00\x00\x00\x00\x01\x00\x01\x00\x01\x00\x01\x00\x00\x00\x00\x00\x00\x80";

/// A frame map, and records of a block and of a walk.
const FRAME_MAP: &[u8] = b"WEAVEMAP\x01\x01\
\x00\x00\x00\x01\x00\x00\x00\x01\x00\x00\x00\x01\
\x00\x00\x00\x01\x00\x00\x00\x01\x00\x00\x00\x04\
\x00\x00";

const BLOCK_RECORD: &[u8] = b"WEAVEREC\x01\x01\
\x00\x00\x00\x04\x00\x00\x00\x01\x00\x00\x00\x01\
\x00\x00\x00\x04\x00\x00\x00\x01\x00\x00\x00\x01\
\x00\x00\x00\x01\
\x00\x00\x00\x00\x00\x04\x00\x01\x00\x00\x00\x00\x00";

const WALK_RECORD: &[u8] = b"WEAVEREC\x01\x02\
\x00\x00\x00\x01\x00\x00\x00\x01\x00\x00\x00\x01\
\x00\x00\x00\x01\x00\x00\x00\x01\x00\x00\x00\x04\
\x00\x00\x00\x01\x00\x00\x01\
\x00\x00";

const LIFTED: Case<'static> = Case {
    words: "upgrade map=s record=t newmap=m newrecord=r",
    sample: OVERLAP_MAP,
    second: OVERLAP_RECORD,
    failing: Failing::Nothing,
    status: 0,
    report: "upgrade 6 2\n",
    line: "",
    picture: BEFORE,
    map: MAP,
    record: RECORD,
};

// Whether map and record belong together isn't asked.
const UPGRADES: &[Case<'static>] = &[
    LIFTED,
    Case {
        words: "upgrade newrecord=r newmap=m record=t map=s",
        ..LIFTED
    },
    Case {
        second: OTHER_RECORD,
        report: "upgrade 6 1\n",
        record: OTHER_LIFTED,
        ..LIFTED
    },
];

const NOTHING_WRITTEN: Case<'static> = Case {
    report: "",
    map: BEFORE,
    record: BEFORE,
    ..LIFTED
};

const FAILING: &[Case<'static>] = &[
    Case {
        failing: Failing::Get("s"),
        status: 5,
        line: "weave: map: read fault\n",
        ..NOTHING_WRITTEN
    },
    Case {
        failing: Failing::Get("t"),
        status: 5,
        line: "weave: record: read fault\n",
        ..NOTHING_WRITTEN
    },
    Case {
        failing: Failing::Begin("m"),
        status: 6,
        line: "weave: newmap: write fault\n",
        ..NOTHING_WRITTEN
    },
    Case {
        failing: Failing::Add("m", 1),
        status: 6,
        line: "weave: newmap: write fault\n",
        map: b"W",
        ..NOTHING_WRITTEN
    },
    Case {
        failing: Failing::Begin("r"),
        status: 6,
        line: "weave: newrecord: write fault\n",
        map: MAP,
        ..NOTHING_WRITTEN
    },
    Case {
        failing: Failing::Add("r", 0),
        status: 6,
        line: "weave: newrecord: write fault\n",
        map: MAP,
        record: b"",
        ..NOTHING_WRITTEN
    },
    Case {
        failing: Failing::Report(2),
        status: 6,
        report: "up",
        line: "weave: report: write fault\n",
        ..LIFTED
    },
];

const WORDS: &[(&str, u8, &str)] = &[
    ("upgrade", 2, "weave: missing key map\n"),
    (
        "upgrade newrecord=d newmap=c map=a",
        2,
        "weave: missing key record\n",
    ),
    (
        "upgrade newrecord=d record=b map=a",
        2,
        "weave: missing key newmap\n",
    ),
    (
        "upgrade newmap=c record=b map=a",
        2,
        "weave: missing key newrecord\n",
    ),
    ("upgrade sample=s", 2, "weave: word 2: unknown key\n"),
    ("upgrade out=o", 2, "weave: word 2: unknown key\n"),
    ("upgrade map=a map=b", 2, "weave: word 3: repeated key\n"),
    (
        "upgrade map=a newmap=a",
        2,
        "weave: word 3: name already used\n",
    ),
    ("upgrade newmap", 2, "weave: word 2: not key=value\n"),
    ("grow newmap=a", 2, "weave: word 2: unknown key\n"),
    ("check newrecord=a", 2, "weave: word 2: unknown key\n"),
];

const REFUSED: Case<'static> = Case {
    status: 3,
    report: "",
    map: BEFORE,
    record: BEFORE,
    ..LIFTED
};

// Files of version 2, and of other kinds; of two files the map comes first.
const OTHER_FILES: &[Case<'static>] = &[
    Case {
        sample: MAP,
        line: "weave: map: form at 8\n",
        ..REFUSED
    },
    Case {
        second: RECORD,
        line: "weave: record: form at 8\n",
        ..REFUSED
    },
    Case {
        sample: MAP,
        second: RECORD,
        line: "weave: map: form at 8\n",
        ..REFUSED
    },
    Case {
        sample: FRAME_MAP,
        line: "weave: map: form at 9\n",
        ..REFUSED
    },
    Case {
        second: BLOCK_RECORD,
        line: "weave: record: form at 9\n",
        ..REFUSED
    },
    Case {
        second: WALK_RECORD,
        line: "weave: record: form at 9\n",
        ..REFUSED
    },
];

// A version that there isn't, files that are cut off, and numbers that pass their limits.
const BROKEN_FILES: &[Case<'static>] = &[
    Case {
        sample: b"WEAVEMAP\x03\x00",
        line: "weave: map: form at 8\n",
        ..REFUSED
    },
    // Version 2 is refused before anything that follows it.
    Case {
        sample: b"WEAVEMAP\x02",
        line: "weave: map: form at 8\n",
        ..REFUSED
    },
    Case {
        sample: b"",
        line: "weave: map: form at 0\n",
        ..REFUSED
    },
    Case {
        sample: b"WEAVEMAP\x01",
        line: "weave: map: form at 9\n",
        ..REFUSED
    },
    Case {
        second: b"WEAVEREC\x01\x00\x00\x00",
        line: "weave: record: form at 12\n",
        ..REFUSED
    },
    Case {
        sample: b"WEAVEMAP\x01\x00\
\x00\x00\x10\x00\x00\x00\x10\x00\x00\x00\x10\x00\
\x00\x00\x00\x04\x00\x00\x00\x01\x00\x00\x00\x01",
        status: 4,
        line: "weave: limit cells 68719476736 over 1048576\n",
        ..REFUSED
    },
    Case {
        second: b"WEAVEREC\x01\x00\
\x00\x00\x00\x06\x00\x00\x00\x01\x00\x00\x00\x01\
\x00\x00\x00\x04\x00\x00\x00\x01\x00\x00\x00\x01\
\x00\x00\x00\x01\
\x00\x00\x00\x00\x00\x00\xff\xff\xff\xff\xff\xff",
        status: 4,
        line: "weave: limit records 281462092005375 over 33554432\n",
        ..REFUSED
    },
    Case {
        second: b"WEAVEREC\x01\x00\
\x00\x00\x10\x01\x00\x00\x00\x01\x00\x00\x00\x01",
        status: 4,
        line: "weave: limit axis 4097 over 4096\n",
        ..REFUSED
    },
];

const STANDS: Verdict<'static> = Verdict {
    sample: FOUR_CELLS,
    picture: OVERLAP_PICTURE,
    map: MAP,
    record: RECORD,
    bytes: &[],
    status: 0,
    report: "stands\n",
    line: "",
};

const BROKEN: Verdict<'static> = Verdict {
    status: 1,
    ..STANDS
};

const FORM: Verdict<'static> = Verdict {
    status: 3,
    report: "",
    ..STANDS
};

// The second record begins at byte 73: the number of its sample at 85, its column at 87, its choice
// at 93 and its flows from 94 on. One new file and one old go together.
const RULES: &[Verdict<'static>] = &[
    STANDS,
    Verdict {
        map: OVERLAP_MAP,
        ..STANDS
    },
    Verdict {
        record: OVERLAP_RECORD,
        ..STANDS
    },
    Verdict {
        bytes: &[("r", 95, 119), ("r", 97, 119), ("r", 99, 119)],
        report: "fails record 2 rule 6 place 0\n",
        ..BROKEN
    },
    Verdict {
        bytes: &[("r", 88, 1)],
        report: "fails record 2 rule 1 place 0\n",
        ..BROKEN
    },
    Verdict {
        bytes: &[("m", 79, 2)],
        report: "fails record 0 rule 16 place 5\n",
        ..BROKEN
    },
    Verdict {
        bytes: &[("o", 11, 11)],
        report: "fails record 0 rule 17 place 0\n",
        ..BROKEN
    },
];

// Counts and numbers of samples that there aren't.
const FORMS: &[Verdict<'static>] = &[
    Verdict {
        bytes: &[("m", 23, 0)],
        line: "weave: map: form at 22\n",
        ..FORM
    },
    Verdict {
        bytes: &[("m", 23, 17)],
        line: "weave: map: form at 22\n",
        ..FORM
    },
    Verdict {
        bytes: &[("m", 37, 0)],
        line: "weave: map: form at 36\n",
        ..FORM
    },
    Verdict {
        bytes: &[("m", 37, 2)],
        line: "weave: map: form at 36\n",
        ..FORM
    },
    Verdict {
        bytes: &[("m", 39, 4)],
        line: "weave: map: form at 38\n",
        ..FORM
    },
    Verdict {
        bytes: &[("r", 9, 1)],
        line: "weave: record: form at 9\n",
        ..FORM
    },
    Verdict {
        bytes: &[("r", 86, 2)],
        line: "weave: record: form at 85\n",
        ..FORM
    },
    Verdict {
        bytes: &[("r", 88, 4)],
        line: "weave: record: form at 87\n",
        ..FORM
    },
];

#[test]
fn files_are_lifted(rt: HostRuntime) {
    expect_table(&rt, rt.alloc(), Table::Cases(UPGRADES));
    expect_table(&rt, rt.alloc(), Table::Cases(FAILING));
    expect_table(&rt, rt.alloc(), Table::Words(NO_CELL, WORDS));
    expect_table(&rt, rt.alloc(), Table::Cases(OTHER_FILES));
    expect_table(&rt, rt.alloc(), Table::Cases(BROKEN_FILES));
    expect_table(&rt, rt.alloc(), Table::Verdicts(RULES));
    expect_table(&rt, rt.alloc(), Table::Verdicts(FORMS));
}
