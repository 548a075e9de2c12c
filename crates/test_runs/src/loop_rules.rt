// Loops with the first rule that they break, and frame maps and walk records that aren't in their
// forms or pass a limit.
use crate::looped::{ONE_MAP, ONE_PICTURE, ONE_RECORD, STANDS, THREE_FRAMES, TWO_FRAMES};
use crate::tables::{Table, expect_table};
use test_stage::Verdict;

const BROKEN: Verdict<'static> = Verdict {
    status: 1,
    ..STANDS
};

const WALKS: &[Verdict<'static>] = &[
    // No such frame, and a frame without a step to the first.
    Verdict {
        bytes: &[("r", 42, 9)],
        report: "fails record 1 rule 12 place 0\n",
        ..BROKEN
    },
    Verdict {
        bytes: &[("r", 44, 3)],
        report: "fails record 1 rule 12 place 1\n",
        ..BROKEN
    },
    // An entry above one of its sums, and one that is none where there is a sum.
    Verdict {
        bytes: &[("r", 60, 10)],
        report: "fails record 1 rule 13 place 1\n",
        ..BROKEN
    },
    Verdict {
        bytes: &[
            ("r", 77, 0xff),
            ("r", 78, 0xff),
            ("r", 79, 0xff),
            ("r", 80, 0xff),
            ("r", 81, 0xff),
            ("r", 82, 0xff),
            ("r", 83, 0xff),
            ("r", 84, 0xff),
        ],
        report: "fails record 1 rule 13 place 4\n",
        ..BROKEN
    },
    // A number where there is no sum stands, however great it is; above a sum it doesn't.
    Verdict {
        bytes: &[("r", 141, 0x80)],
        ..STANDS
    },
    Verdict {
        bytes: &[("r", 53, 0x80)],
        report: "fails record 1 rule 13 place 1\n",
        ..BROKEN
    },
    // The first frame twice, which costs 18.
    Verdict {
        bytes: &[("r", 44, 0)],
        report: "fails record 1 rule 14 place 0\n",
        ..BROKEN
    },
    // Another gap: no frame has a step but to the next.
    Verdict {
        bytes: &[("r", 40, 5)],
        report: "fails record 1 rule 12 place 1\n",
        ..BROKEN
    },
];

// Two frames, of which none has a step but to the next where jumps go three frames at least, and
// three frames, which have no filtered distance. No walk through them is closed, whatever the
// tables say.
const WITHOUT_A_LOOP: &[Verdict<'static>] = &[
    Verdict {
        sample: TWO_FRAMES,
        picture: TWO_FRAMES,
        map: b"WEAVEMAP\x01\x01\
\x00\x00\x00\x01\x00\x00\x00\x01\x00\x00\x00\x02\
\x00\x00\x00\x01\x00\x00\x00\x01\x00\x00\x00\x02\
\x00\x00\x00\x01",
        record: b"WEAVEREC\x01\x02\
\x00\x00\x00\x01\x00\x00\x00\x01\x00\x00\x00\x02\
\x00\x00\x00\x01\x00\x00\x00\x01\x00\x00\x00\x02\
\x00\x00\x00\x02\x00\x00\x03\
\x00\x00\x00\x01\
\xff\xff\xff\xff\xff\xff\xff\xff\xff\xff\xff\xff\xff\xff\xff\xff\
\xff\xff\xff\xff\xff\xff\xff\xff\xff\xff\xff\xff\xff\xff\xff\xff",
        report: "fails record 1 rule 12 place 1\n",
        ..BROKEN
    },
    Verdict {
        sample: THREE_FRAMES,
        picture: ONE_PICTURE,
        map: b"WEAVEMAP\x01\x01\
\x00\x00\x00\x01\x00\x00\x00\x01\x00\x00\x00\x01\
\x00\x00\x00\x01\x00\x00\x00\x01\x00\x00\x00\x03\
\x00\x00",
        record: b"WEAVEREC\x01\x02\
\x00\x00\x00\x01\x00\x00\x00\x01\x00\x00\x00\x01\
\x00\x00\x00\x01\x00\x00\x00\x01\x00\x00\x00\x03\
\x00\x00\x00\x01\x04\x00\x01\
\x00\x00",
        report: "fails record 1 rule 12 place 0\n",
        ..BROKEN
    },
    // The two steps of three frames that are there, and none from the last to the first.
    Verdict {
        sample: THREE_FRAMES,
        picture: THREE_FRAMES,
        map: b"WEAVEMAP\x01\x01\
\x00\x00\x00\x01\x00\x00\x00\x01\x00\x00\x00\x03\
\x00\x00\x00\x01\x00\x00\x00\x01\x00\x00\x00\x03\
\x00\x00\x00\x01\x00\x02",
        record: b"WEAVEREC\x01\x02\
\x00\x00\x00\x01\x00\x00\x00\x01\x00\x00\x00\x03\
\x00\x00\x00\x01\x00\x00\x00\x01\x00\x00\x00\x03\
\x00\x00\x00\x03\x04\x00\x01\
\x00\x00\x00\x01\x00\x02\
\x00\x00\x00\x00\x00\x00\x00\x00\x00\x00\x00\x00\x00\x00\x00\x00\
\x00\x00\x00\x00\x00\x00\x00\x00\x00\x00\x00\x00\x00\x00\x00\x00\
\x00\x00\x00\x00\x00\x00\x00\x00\x00\x00\x00\x00\x00\x00\x00\x00\
\x00\x00\x00\x00\x00\x00\x00\x00\x00\x00\x00\x00\x00\x00\x00\x00\
\x00\x00\x00\x00\x00\x00\x00\x00\x00\x00\x00\x00\x00\x00\x00\x00\
\x00\x00\x00\x00\x00\x00\x00\x00\x00\x00\x00\x00\x00\x00\x00\x00\
\x00\x00\x00\x00\x00\x00\x00\x00\x00\x00\x00\x00\x00\x00\x00\x00\
\x00\x00\x00\x00\x00\x00\x00\x00\x00\x00\x00\x00\x00\x00\x00\x00\
\x00\x00\x00\x00\x00\x00\x00\x00\x00\x00\x00\x00\x00\x00\x00\x00",
        report: "fails record 1 rule 12 place 2\n",
        ..BROKEN
    },
];

const WHOLE_FILES: &[Verdict<'static>] = &[
    // A walk of one frame beside an output of two.
    Verdict {
        record: b"WEAVEREC\x01\x02\
\x00\x00\x00\x01\x00\x00\x00\x01\x00\x00\x00\x02\
\x00\x00\x00\x01\x00\x00\x00\x01\x00\x00\x00\x04\
\x00\x00\x00\x01\x00\x00\x01\
\x00\x00",
        report: "fails record 0 rule 15 place 0\n",
        ..BROKEN
    },
    // The files of a loop of one frame, but the clip.
    Verdict {
        map: ONE_MAP,
        record: ONE_RECORD,
        report: "fails record 0 rule 15 place 0\n",
        ..BROKEN
    },
    // A frame map beside cuts, and a cell map beside a walk.
    Verdict {
        record: b"WEAVEREC\x01\x00\
\x00\x00\x00\x01\x00\x00\x00\x01\x00\x00\x00\x02\
\x00\x00\x00\x01\x00\x00\x00\x01\x00\x00\x00\x04\
\x00\x00\x00\x00",
        report: "fails record 0 rule 15 place 0\n",
        ..BROKEN
    },
    Verdict {
        map: b"WEAVEMAP\x01\x00\
\x00\x00\x00\x01\x00\x00\x00\x01\x00\x00\x00\x02\
\x00\x00\x00\x01\x00\x00\x00\x01\x00\x00\x00\x04\
\x00\x00\x00\x00\x00\x00\x00\x00\x00\x00\x00\x01",
        report: "fails record 0 rule 15 place 0\n",
        ..BROKEN
    },
    Verdict {
        bytes: &[("m", 37, 3)],
        report: "fails record 0 rule 16 place 1\n",
        ..BROKEN
    },
    Verdict {
        bytes: &[("o", 35, 7)],
        report: "fails record 0 rule 17 place 1\n",
        ..BROKEN
    },
];

const FORM: Verdict<'static> = Verdict {
    status: 3,
    report: "",
    ..STANDS
};

const LIMIT: Verdict<'static> = Verdict { status: 4, ..FORM };

const FORMS: &[Verdict<'static>] = &[
    // A source past the sample's frames, and a sample of another width than the output.
    Verdict {
        bytes: &[("m", 37, 4)],
        line: "weave: map: form at 36\n",
        ..FORM
    },
    Verdict {
        bytes: &[("m", 25, 2)],
        line: "weave: map: form at 22\n",
        ..FORM
    },
    // Length, taps and gap.
    Verdict {
        bytes: &[("r", 37, 0)],
        line: "weave: record: form at 34\n",
        ..FORM
    },
    Verdict {
        bytes: &[
            ("r", 34, 0xff),
            ("r", 35, 0xff),
            ("r", 36, 0xff),
            ("r", 37, 0xff),
        ],
        line: "weave: limit loop 4294967295 over 4096\n",
        ..LIMIT
    },
    Verdict {
        bytes: &[("r", 38, 3)],
        line: "weave: record: form at 38\n",
        ..FORM
    },
    Verdict {
        bytes: &[("r", 40, 0)],
        line: "weave: record: form at 39\n",
        ..FORM
    },
    Verdict {
        bytes: &[("r", 39, 1)],
        line: "weave: record: form at 39\n",
        ..FORM
    },
    // A sample of 257 frames.
    Verdict {
        bytes: &[("r", 32, 1), ("r", 33, 1)],
        line: "weave: limit frames 257 over 256\n",
        ..LIMIT
    },
];

#[test]
fn rules(rt: HostRuntime) {
    expect_table(&rt, rt.alloc(), Table::Verdicts(WALKS));
    expect_table(&rt, rt.alloc(), Table::Verdicts(WITHOUT_A_LOOP));
    expect_table(&rt, rt.alloc(), Table::Verdicts(WHOLE_FILES));
    expect_table(&rt, rt.alloc(), Table::Verdicts(FORMS));
}
