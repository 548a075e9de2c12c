// A clip of one cell in four frames, and its loops of one and of two frames: what their files hold
// after each status, and that `check` accepts them. Words and clips that `loop` refuses, and clips
// without a loop of the asked length.
use crate::samples::FOUR_FRAMES;
use crate::tables::{Table, expect_table, expect_true};
use std::alloc::{AllocError, Global};
use test_stage::{BEFORE, Case, Failing, Made, NO_CELL, ONE_CELL, Stage, Verdict};

/// Frames of 0 and 3, and of 0, 3 and 0.
pub const TWO_FRAMES: &[u8] = b"YUV4MPEG2 W1 H1 Cmono\nFRAME\n\x00FRAME\n\x03";

pub const THREE_FRAMES: &[u8] = b"YUV4MPEG2 W1 H1 Cmono\nFRAME\n\x00FRAME\n\x03FRAME\n\x00";

// The sizes of output and sample, and the frames of the walk.
pub const MAP: &[u8] = b"WEAVEMAP\x01\x01\
\x00\x00\x00\x01\x00\x00\x00\x01\x00\x00\x00\x02\
\x00\x00\x00\x01\x00\x00\x00\x01\x00\x00\x00\x04\
\x00\x00\x00\x01";

// A head of 34 bytes, the length, taps and gap at 38 and 39, the walk at 41, and from 45 on the
// table of two steps: the last frame has no step.
pub const RECORD: &[u8] = b"WEAVEREC\x01\x02\
\x00\x00\x00\x01\x00\x00\x00\x01\x00\x00\x00\x02\
\x00\x00\x00\x01\x00\x00\x00\x01\x00\x00\x00\x04\
\x00\x00\x00\x02\x00\x00\x01\
\x00\x00\x00\x01\
\x00\x00\x00\x00\x00\x00\x00\x00\x00\x00\x00\x00\x00\x00\x00\x09\
\x00\x00\x00\x00\x00\x00\x00\x00\x00\x00\x00\x00\x00\x00\x00\x09\
\x00\x00\x00\x00\x00\x00\x00\x09\x00\x00\x00\x00\x00\x00\x00\x00\
\x00\x00\x00\x00\x00\x00\x00\x09\x00\x00\x00\x00\x00\x00\x00\x00\
\x00\x00\x00\x00\x00\x00\x00\x00\x00\x00\x00\x00\x00\x00\x00\x09\
\x00\x00\x00\x00\x00\x00\x00\x00\x00\x00\x00\x00\x00\x00\x00\x09\
\xff\xff\xff\xff\xff\xff\xff\xff\xff\xff\xff\xff\xff\xff\xff\xff\
\xff\xff\xff\xff\xff\xff\xff\xff\xff\xff\xff\xff\xff\xff\xff\xff";

pub const TWO: Case<'static> = Case {
    words: "loop sample=s out=o map=m record=r length=2 taps=0 gap=1",
    sample: FOUR_FRAMES,
    second: NO_CELL,
    failing: Failing::Nothing,
    status: 0,
    report: "loop 2\nstart 0\ncost 0\n",
    line: "",
    picture: TWO_FRAMES,
    map: MAP,
    record: RECORD,
};

pub const ONE_PICTURE: &[u8] = b"YUV4MPEG2 W1 H1 Cmono\nFRAME\n\x00";

pub const ONE_MAP: &[u8] = b"WEAVEMAP\x01\x01\
\x00\x00\x00\x01\x00\x00\x00\x01\x00\x00\x00\x01\
\x00\x00\x00\x01\x00\x00\x00\x01\x00\x00\x00\x04\
\x00\x00";

pub const ONE_RECORD: &[u8] = b"WEAVEREC\x01\x02\
\x00\x00\x00\x01\x00\x00\x00\x01\x00\x00\x00\x01\
\x00\x00\x00\x01\x00\x00\x00\x01\x00\x00\x00\x04\
\x00\x00\x00\x01\x00\x00\x01\
\x00\x00";

// A loop of one frame has no table.
pub const ONE: Case<'static> = Case {
    words: "loop sample=s out=o map=m record=r length=1 taps=0 gap=1",
    report: "loop 1\nstart 0\ncost 9\n",
    picture: ONE_PICTURE,
    map: ONE_MAP,
    record: ONE_RECORD,
    ..TWO
};

pub const STANDS: Verdict<'static> = Verdict {
    sample: FOUR_FRAMES,
    picture: TWO_FRAMES,
    map: MAP,
    record: RECORD,
    bytes: &[],
    status: 0,
    report: "stands\n",
    line: "",
};

const LOOPED: &[Case<'static>] = &[ONE, TWO];

const ACCEPTED: &[Verdict<'static>] = &[
    Verdict {
        picture: ONE_PICTURE,
        map: ONE_MAP,
        record: ONE_RECORD,
        ..STANDS
    },
    STANDS,
];

// Filtered distances begin at later frames: with two taps frame 0 is on no least loop, with four
// neither is frame 1.
const FILTERED: &[Made<'static>] = &[
    Made {
        words: "loop sample=s out=o map=m record=r length=2 taps=2",
        check: "check sample=s out=o map=m record=r",
        sample: FOUR_FRAMES,
        second: NO_CELL,
        report: "loop 2\nstart 1\ncost 0\n",
        picture: b"YUV4MPEG2 W1 H1 Cmono\nFRAME\n\x03FRAME\n\x00",
    },
    Made {
        words: "loop length=2 record=r map=m out=o sample=s",
        check: "check sample=s out=o map=m record=r",
        sample: b"YUV4MPEG2 W1 H1 F25:1 Cmono X\nFRAME\n\x05FRAME\n\x09FRAME\n\x05FRAME\n\x09\
FRAME\n\x05FRAME\n\x09",
        second: NO_CELL,
        report: "loop 2\nstart 2\ncost 0\n",
        picture: b"YUV4MPEG2 W1 H1 F25:1 Cmono X\nFRAME\n\x05FRAME\n\x09",
    },
];

const NOTHING_WRITTEN: Case<'static> = Case {
    report: "",
    picture: BEFORE,
    map: BEFORE,
    record: BEFORE,
    ..TWO
};

const FAILING: &[Case<'static>] = &[
    Case {
        failing: Failing::Get("s"),
        status: 5,
        line: "weave: sample: read fault\n",
        ..NOTHING_WRITTEN
    },
    Case {
        failing: Failing::Begin("o"),
        status: 6,
        line: "weave: out: write fault\n",
        ..NOTHING_WRITTEN
    },
    Case {
        failing: Failing::Add("m", 1),
        status: 6,
        report: "",
        line: "weave: map: write fault\n",
        map: b"W",
        record: BEFORE,
        ..TWO
    },
    Case {
        failing: Failing::Begin("r"),
        status: 6,
        report: "",
        line: "weave: record: write fault\n",
        record: BEFORE,
        ..TWO
    },
    Case {
        failing: Failing::Report(2),
        status: 6,
        report: "lo",
        line: "weave: report: write fault\n",
        ..TWO
    },
];

const WORDS: &[(&str, u8, &str)] = &[
    ("loop", 2, "weave: missing key sample\n"),
    (
        "loop sample=s out=o map=m record=r",
        2,
        "weave: missing key length\n",
    ),
    ("loop length=0", 2, "weave: word 2: out of range\n"),
    ("loop length=4097", 2, "weave: word 2: out of range\n"),
    ("loop taps=3", 2, "weave: word 2: out of range\n"),
    ("loop taps=x", 2, "weave: word 2: bad value\n"),
    ("loop gap=0", 2, "weave: word 2: out of range\n"),
    ("loop gap=257", 2, "weave: word 2: out of range\n"),
    ("loop width=3", 2, "weave: word 2: unknown key\n"),
    ("loop seed=3", 2, "weave: word 2: unknown key\n"),
    ("loop sample2=t", 2, "weave: word 2: unknown key\n"),
    ("loop gap=1 gap=1", 2, "weave: word 3: repeated key\n"),
    ("loop out=a map=a", 2, "weave: word 3: name already used\n"),
    // A picture is no sample of a loop.
    (
        "loop sample=s out=o map=m record=r length=2",
        3,
        "weave: sample: form at 0\n",
    ),
];

const NO_LOOP: &[(&str, u8, &str)] = &[
    (
        "loop sample=s out=o map=m record=r length=2 taps=0 gap=3",
        8,
        "weave: no loop of length 2\n",
    ),
    (
        "loop sample=s out=o map=m record=r length=4096",
        8,
        "weave: no loop of length 4096\n",
    ),
];

const CLIPS: &[(&[u8], u8, &str)] = &[
    // With four taps no distance of three frames is defined.
    (THREE_FRAMES, 8, "weave: no loop of length 3\n"),
    (b"YUV4MPEG2 W1 H1 Cmono\n", 3, "weave: sample: no frames\n"),
    (
        b"YUV4MPEG2 W1 H1 Cmono\nFRAME\n",
        3,
        "weave: sample: form at 28\n",
    ),
    (b"", 3, "weave: sample: form at 0\n"),
];

const TRIED: &str = "loop sample=s out=o map=m record=r length=3";

#[test]
fn loops(rt: HostRuntime) {
    expect_table(&rt, rt.alloc(), Table::Cases(LOOPED));
    expect_table(&rt, rt.alloc(), Table::Verdicts(ACCEPTED));
    expect_table(&rt, rt.alloc(), Table::Made(FILTERED));
    expect_table(&rt, rt.alloc(), Table::Cases(FAILING));
    expect_table(&rt, rt.alloc(), Table::Words(ONE_CELL, WORDS));
    expect_table(&rt, rt.alloc(), Table::Words(TWO_FRAMES, NO_LOOP));
    expect_table(&rt, rt.alloc(), Table::Samples(TRIED, CLIPS));
}

// Several walks of three frames cost 9: which one is written is free, and it begins at frame 0.
fn is_found_on(stage: &mut Stage) -> Result<bool, AllocError> {
    stage.put_file("s", FOUR_FRAMES)?;
    let words = "loop sample=s out=o map=m record=r length=3 taps=0 gap=1";
    let is_reported = stage.reports(words, "loop 3\nstart 0\ncost 9\n")?;
    let map = stage.file("m").unwrap_or(b"");
    let begins = map.len() == 40 && map.get(34..36) == Some(b"\x00\x00".as_slice());
    let check = "check sample=s out=o map=m record=r";
    Ok(is_reported && begins && stage.reports(check, "stands\n")?)
}

fn is_found(alloc: Global) -> Result<bool, AllocError> {
    let mut stage = Stage::new(alloc);
    let found = is_found_on(&mut stage);
    drop(stage);
    found
}

#[test]
fn a_loop_of_three(rt: HostRuntime) {
    expect_true(&rt, is_found(rt.alloc()));
}
