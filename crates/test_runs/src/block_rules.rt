// Quilts with the first rule that they break, and block records that aren't in their forms or pass
// a limit.
use crate::quilting::{SQUARE_STANDS, STANDS};
use crate::tables::{Table, expect_table};
use test_stage::Verdict;

const BROKEN: Verdict<'static> = Verdict {
    status: 1,
    ..STANDS
};

const SQUARE_BROKEN: Verdict<'static> = Verdict {
    status: 1,
    ..SQUARE_STANDS
};

// The second block without a strip, and with a strip of three columns.
const NO_STRIP: &[u8] = b"WEAVEREC\x01\x01\
\x00\x00\x00\x06\x00\x00\x00\x01\x00\x00\x00\x01\
\x00\x00\x00\x04\x00\x00\x00\x01\x00\x00\x00\x01\
\x00\x00\x00\x02\
\x00\x00\x00\x00\x00\x04\x00\x01\x00\x00\x00\x00\x00\
\x00\x02\x00\x00\x00\x04\x00\x01\x00\x00\x00\x00\x00";

const WIDE_STRIP: &[u8] = b"WEAVEREC\x01\x01\
\x00\x00\x00\x06\x00\x00\x00\x01\x00\x00\x00\x01\
\x00\x00\x00\x04\x00\x00\x00\x01\x00\x00\x00\x01\
\x00\x00\x00\x02\
\x00\x00\x00\x00\x00\x04\x00\x01\x00\x00\x00\x00\x00\
\x00\x02\x00\x00\x00\x04\x00\x01\x00\x00\x00\x00\x01\
\x00\x03\x00\x00\x00\x00\x04\xb0\x00\x00\x04\xb0\x00\x00\x00\x00";

const BLOCKS: &[Verdict<'static>] = &[
    // A source that passes the end of the sample, and a block that passes that of the output.
    Verdict {
        bytes: &[("r", 60, 1)],
        report: "fails record 2 rule 7 place 0\n",
        ..BROKEN
    },
    Verdict {
        bytes: &[("r", 52, 3)],
        report: "fails record 2 rule 7 place 0\n",
        ..BROKEN
    },
    // A filled cell in no strip, and a cell of a strip that has no source.
    Verdict {
        record: NO_STRIP,
        report: "fails record 2 rule 8 place 0\n",
        ..BROKEN
    },
    Verdict {
        record: WIDE_STRIP,
        report: "fails record 2 rule 8 place 2\n",
        ..BROKEN
    },
    // A column past the strip.
    Verdict {
        bytes: &[("r", 67, 2)],
        report: "fails record 2 rule 9 place 0\n",
        ..BROKEN
    },
    // Sums of the first strip row that aren't its errors.
    Verdict {
        bytes: &[("r", 71, 0xb1)],
        report: "fails record 2 rule 10 place 0\n",
        ..BROKEN
    },
    Verdict {
        bytes: &[("r", 75, 0xaf)],
        report: "fails record 2 rule 10 place 1\n",
        ..BROKEN
    },
    // Of two broken rules the first is reported: a source past the end of the sample before a
    // column past the strip, that column before a sum, and a sum before a cost.
    Verdict {
        bytes: &[("r", 60, 1), ("r", 67, 2)],
        report: "fails record 2 rule 7 place 0\n",
        ..BROKEN
    },
    Verdict {
        bytes: &[("r", 67, 2), ("r", 71, 0xb1)],
        report: "fails record 2 rule 9 place 0\n",
        ..BROKEN
    },
    Verdict {
        bytes: &[("r", 75, 0xaf), ("m", 65, 2), ("o", 11, 11)],
        report: "fails record 2 rule 10 place 1\n",
        ..BROKEN
    },
    // The other column of equal errors: the boundary is least, and the map is another one.
    Verdict {
        bytes: &[("r", 67, 1)],
        report: "fails record 0 rule 16 place 2\n",
        ..BROKEN
    },
];

// The left strip of the second block has its path at byte 66 and its sums of a row at 74, 82, 90
// and 98; the top strip of the fourth has its path at 218 and its sums at 226, 234, 242 and 250.
const STRIPS: &[Verdict<'static>] = &[
    // Other columns, which cost more.
    Verdict {
        bytes: &[("r", 67, 0)],
        report: "fails record 2 rule 11 place 0\n",
        ..SQUARE_BROKEN
    },
    Verdict {
        bytes: &[("r", 219, 1)],
        report: "fails record 4 rule 11 place 0\n",
        ..SQUARE_BROKEN
    },
    // A column past the strip in the third row of it.
    Verdict {
        bytes: &[("r", 71, 2)],
        report: "fails record 2 rule 9 place 2\n",
        ..SQUARE_BROKEN
    },
    // Both strips of the fourth block are broken: the rules of the left one are all tried before
    // those of the top one.
    Verdict {
        bytes: &[("r", 177, 1), ("r", 219, 2)],
        report: "fails record 4 rule 11 place 0\n",
        ..SQUARE_BROKEN
    },
    // A sum of a later row that is too great by one.
    Verdict {
        bytes: &[("r", 89, 0xf7)],
        report: "fails record 2 rule 10 place 3\n",
        ..SQUARE_BROKEN
    },
    Verdict {
        bytes: &[("r", 257, 0x0e)],
        report: "fails record 4 rule 10 place 7\n",
        ..SQUARE_BROKEN
    },
];

const WHOLE_FILES: &[Verdict<'static>] = &[
    // A block record beside clips of the same sizes.
    Verdict {
        sample: b"YUV4MPEG2 W4 H1 Cmono\nFRAME\n\x0a\x14\x1e\x28",
        picture: b"YUV4MPEG2 W6 H1 Cmono\nFRAME\n\x0a\x14\x0a\x14\x1e\x28",
        report: "fails record 0 rule 15 place 0\n",
        ..BROKEN
    },
    Verdict {
        bytes: &[("o", 9, b'4')],
        report: "fails record 0 rule 15 place 0\n",
        ..BROKEN
    },
    Verdict {
        bytes: &[("m", 65, 2)],
        report: "fails record 0 rule 16 place 5\n",
        ..BROKEN
    },
    Verdict {
        bytes: &[("o", 14, 21)],
        report: "fails record 0 rule 17 place 1\n",
        ..BROKEN
    },
];

const FORM: Verdict<'static> = Verdict {
    status: 3,
    report: "",
    ..STANDS
};

const FORMS: &[Verdict<'static>] = &[
    Verdict {
        bytes: &[("r", 9, 3)],
        line: "weave: record: form at 9\n",
        ..FORM
    },
    // A third block that isn't there.
    Verdict {
        bytes: &[("r", 37, 3)],
        line: "weave: record: form at 76\n",
        ..FORM
    },
    // A block without columns, and one without rows.
    Verdict {
        bytes: &[("r", 56, 0)],
        line: "weave: record: form at 55\n",
        ..FORM
    },
    Verdict {
        bytes: &[("r", 58, 0)],
        line: "weave: record: form at 57\n",
        ..FORM
    },
    Verdict {
        bytes: &[("r", 63, 4)],
        line: "weave: record: form at 63\n",
        ..FORM
    },
    // A strip without columns, and one that is wider than its block.
    Verdict {
        bytes: &[("r", 65, 0)],
        line: "weave: record: form at 64\n",
        ..FORM
    },
    Verdict {
        bytes: &[("r", 65, 5)],
        line: "weave: record: form at 64\n",
        ..FORM
    },
    // A block of 65,535 cells on each axis, reported at the last number of its size.
    Verdict {
        bytes: &[
            ("r", 55, 0xff),
            ("r", 56, 0xff),
            ("r", 57, 0xff),
            ("r", 58, 0xff),
        ],
        status: 4,
        line: "weave: limit records 4294836229 over 33554432\n",
        ..FORM
    },
];

#[test]
fn rules(rt: HostRuntime) {
    expect_table(&rt, rt.alloc(), Table::Verdicts(BLOCKS));
    expect_table(&rt, rt.alloc(), Table::Verdicts(STRIPS));
    expect_table(&rt, rt.alloc(), Table::Verdicts(WHOLE_FILES));
    expect_table(&rt, rt.alloc(), Table::Verdicts(FORMS));
}
