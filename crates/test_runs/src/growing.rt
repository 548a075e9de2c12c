// Copies of one cell and of four: by each way to place them, that overlap, with a round after
// them, and by draws alone. What the files hold after a read or a write that failed, and runs over
// stores that never fail.
use crate::tables::{Table, expect_table, expect_true};
use shelf_core::{SureShelf, SureSink};
use std::alloc::{AllocError, Global};
use test_stage::{
    BEFORE, Case, FOUR_CELLS, Failing, File, Made, NO_CELL, ONE_CELL, OVERLAP_MAP, OVERLAP_PICTURE,
    OVERLAP_RECORD, OVERLAPPING, Run, SIX_CELLS, is_file, ran,
};

const PICTURE: &[u8] =
    b"P6\n3 2\n255\n\x07\x08\x09\x07\x08\x09\x07\x08\x09\x07\x08\x09\x07\x08\x09\x07\x08\x09";

// A head of 34 bytes, and six sources of 6 bytes.
const MAP: &[u8] = b"\x57\x45\x41\x56\x45\x4d\x41\x50\x01\x00\
\x00\x00\x00\x03\x00\x00\x00\x02\x00\x00\x00\x01\
\x00\x00\x00\x01\x00\x00\x00\x01\x00\x00\x00\x01\
\x00\x00\x00\x00\x00\x00\x00\x00\x00\x00\x00\x00\x00\x00\x00\x00\x00\x00\
\x00\x00\x00\x00\x00\x00\x00\x00\x00\x00\x00\x00\x00\x00\x00\x00\x00\x00";

// A head of 34 bytes, the count, and for each cell a record: its box, where its source begins, one
// bit and no flow.
const RECORD: &[u8] = b"WEAVEREC\x01\x00\
\x00\x00\x00\x03\x00\x00\x00\x02\x00\x00\x00\x01\
\x00\x00\x00\x01\x00\x00\x00\x01\x00\x00\x00\x01\
\x00\x00\x00\x06\
\x00\x00\x00\x00\x00\x00\x00\x01\x00\x01\x00\x01\x00\x00\x00\x00\x00\x00\x80\
\x00\x01\x00\x00\x00\x00\x00\x01\x00\x01\x00\x01\x00\x00\x00\x00\x00\x00\x80\
\x00\x02\x00\x00\x00\x00\x00\x01\x00\x01\x00\x01\x00\x00\x00\x00\x00\x00\x80\
\x00\x00\x00\x01\x00\x00\x00\x01\x00\x01\x00\x01\x00\x00\x00\x00\x00\x00\x80\
\x00\x01\x00\x01\x00\x00\x00\x01\x00\x01\x00\x01\x00\x00\x00\x00\x00\x00\x80\
\x00\x02\x00\x01\x00\x00\x00\x01\x00\x01\x00\x01\x00\x00\x00\x00\x00\x00\x80";

const SIX: Case<'static> = Case {
    words: SIX_CELLS,
    sample: ONE_CELL,
    second: NO_CELL,
    failing: Failing::Nothing,
    status: 0,
    report: "grow 3x2x1\nplacements 6\nrounds 0\nseams 10710\n",
    line: "",
    picture: PICTURE,
    map: MAP,
    record: RECORD,
};

// The first two cells have the same bytes; the map names each.
const EQUAL_CELLS: &[u8] = b"P6\n4 1\n255\n\x0a\x0a\x0a\x0a\x0a\x0a\x1e\x1e\x1e\x28\x28\x28";

const EACH_MAP: &[u8] = b"WEAVEMAP\x01\x00\
\x00\x00\x00\x04\x00\x00\x00\x01\x00\x00\x00\x01\
\x00\x00\x00\x04\x00\x00\x00\x01\x00\x00\x00\x01\
\x00\x00\x00\x00\x00\x00\x00\x01\x00\x00\x00\x00\
\x00\x02\x00\x00\x00\x00\x00\x03\x00\x00\x00\x00";

const EACH_RECORD: &[u8] = b"WEAVEREC\x01\x00\
\x00\x00\x00\x04\x00\x00\x00\x01\x00\x00\x00\x01\
\x00\x00\x00\x04\x00\x00\x00\x01\x00\x00\x00\x01\
\x00\x00\x00\x01\
\x00\x00\x00\x00\x00\x00\x00\x04\x00\x01\x00\x01\x00\x00\x00\x00\x00\x00\xf0\
\x00\x00\x00\x00\x00\x00\x00\x00\x00\x00\x00\x00";

const COPIES: &[Case<'static>] = &[
    SIX,
    Case {
        words: "grow sample=s out=o map=m record=r width=4 height=1 place=grid overlap=0",
        sample: EQUAL_CELLS,
        report: "grow 4x1x1\nplacements 1\nrounds 0\nseams 0\n",
        picture: EQUAL_CELLS,
        map: EACH_MAP,
        record: EACH_RECORD,
        ..SIX
    },
    Case {
        sample: b"P6\n# one cell\n1 1\n255\n\x07\x08\x09",
        ..SIX
    },
    Case {
        words: "grow height=2 width=3 place=random record=r map=m out=o sample=s",
        ..SIX
    },
    Case {
        words: "grow sample=s out=o map=m record=r width=3 height=2 place=whole seed=7",
        ..SIX
    },
    Case {
        words: "grow sample=s out=o map=m record=r width=3 height=2",
        ..SIX
    },
];

// After one round: the count is 3, and the third record lays the first window again.
const ROUND_RECORD: &[u8] = b"WEAVEREC\x01\x00\
\x00\x00\x00\x06\x00\x00\x00\x01\x00\x00\x00\x01\
\x00\x00\x00\x04\x00\x00\x00\x01\x00\x00\x00\x01\
\x00\x00\x00\x03\
\x00\x00\x00\x00\x00\x00\x00\x04\x00\x01\x00\x01\x00\x00\x00\x00\x00\x00\xf0\
\x00\x00\x00\x00\x00\x00\x00\x00\x00\x00\x00\x00\
\x00\x02\x00\x00\x00\x00\x00\x04\x00\x01\x00\x01\x00\x00\x00\x00\x00\x00\x70\
\x00\x78\x00\x78\x00\x78\x00\x00\x00\x00\x00\x00\
\x00\x00\x00\x00\x00\x00\x00\x04\x00\x01\x00\x01\x00\x00\x00\x00\x00\x00\xe0\
\x00\x00\x00\x00\x00\x00\x00\x00\x00\x00\xff\x88";

const TWO: Case<'static> = Case {
    words: OVERLAPPING,
    sample: FOUR_CELLS,
    second: NO_CELL,
    failing: Failing::Nothing,
    status: 0,
    report: "grow 6x1x1\nplacements 2\nrounds 0\nseams 120\n",
    line: "",
    picture: OVERLAP_PICTURE,
    map: OVERLAP_MAP,
    record: OVERLAP_RECORD,
};

const OVERLAPS: &[Case<'static>] = &[
    TWO,
    Case {
        words: "grow sample=s out=o map=m record=r width=6 height=1 place=grid overlap=2 box=4 rounds=1",
        report: "grow 6x1x1\nplacements 2\nrounds 1\nseams 120\n",
        record: ROUND_RECORD,
        ..TWO
    },
];

// Four cells of grey 10, 20, 30 and 40. Draw 0 of seed 0 is even: the first copy begins at cell 0.
// Draw 1 is odd: the second cell of the next copy comes to cell 4. So that copy begins at cell 3,
// which stays as it is, though a copy that begins at cell 4 would fit without a difference. Beside
// cell 3 in the sample there is nothing, 765; beside the second cell there is 10 in place of 40,
// three times.
const DRAWN: Made<'static> = Made {
    words: "grow sample=s out=o map=m record=r width=6 height=1 place=random",
    check: "check sample=s out=o map=m record=r",
    sample: FOUR_CELLS,
    second: NO_CELL,
    report: "grow 6x1x1\nplacements 2\nrounds 0\nseams 855\n",
    picture: b"P6\n6 1\n255\n\x0a\x0a\x0a\x14\x14\x14\x1e\x1e\x1e\x28\x28\x28\x14\x14\x14\x1e\x1e\x1e",
};

const NOTHING_WRITTEN: Case<'static> = Case {
    status: 6,
    report: "",
    picture: BEFORE,
    map: BEFORE,
    record: BEFORE,
    ..TWO
};

const MAP_FAILS: Case<'static> = Case {
    status: 6,
    report: "",
    line: "weave: map: write fault\n",
    map: BEFORE,
    record: BEFORE,
    ..TWO
};

const RECORD_FAILS: Case<'static> = Case {
    status: 6,
    report: "",
    line: "weave: record: write fault\n",
    record: BEFORE,
    ..TWO
};

const REPORT_FAILS: Case<'static> = Case {
    status: 6,
    line: "weave: report: write fault\n",
    ..TWO
};

const FAILING: &[Case<'static>] = &[
    Case {
        failing: Failing::Get("s"),
        status: 5,
        line: "weave: sample: read fault\n",
        ..NOTHING_WRITTEN
    },
    Case {
        failing: Failing::Begin("o"),
        line: "weave: out: write fault\n",
        ..NOTHING_WRITTEN
    },
    Case {
        failing: Failing::Begin("m"),
        ..MAP_FAILS
    },
    Case {
        failing: Failing::Add("m", 0),
        map: b"",
        ..MAP_FAILS
    },
    Case {
        failing: Failing::Add("m", 1),
        map: b"W",
        ..MAP_FAILS
    },
    Case {
        failing: Failing::Begin("r"),
        ..RECORD_FAILS
    },
    Case {
        failing: Failing::Add("r", 3),
        record: b"WEA",
        ..RECORD_FAILS
    },
    Case {
        failing: Failing::Report(0),
        report: "",
        ..REPORT_FAILS
    },
    Case {
        failing: Failing::Report(2),
        report: "gr",
        ..REPORT_FAILS
    },
];

const TWO_SAMPLES: &[File<'static>] = &[
    ("s", FOUR_CELLS),
    ("t", FOUR_CELLS),
    ("o", BEFORE),
    ("m", BEFORE),
    ("r", BEFORE),
];

const SECOND_FAILS: Run<'static> = Run {
    words: "grow sample=s sample2=t out=o map=m record=r width=6 height=1",
    before: TWO_SAMPLES,
    failing: Failing::Get("t"),
    status: 5,
    report: "",
    line: "weave: sample2: read fault\n",
    after: TWO_SAMPLES,
};

// The out file is begun, and holds what was kept of its first piece.
const OUT_FAILS: Run<'static> = Run {
    failing: Failing::Add("o", 0),
    status: 6,
    line: "weave: out: write fault\n",
    after: &[("o", b""), ("m", BEFORE), ("r", BEFORE)],
    ..SECOND_FAILS
};

const FAULTS: &[Run<'static>] = &[
    SECOND_FAILS,
    OUT_FAILS,
    Run {
        failing: Failing::Add("o", 1),
        after: &[("o", b"P"), ("m", BEFORE), ("r", BEFORE)],
        ..OUT_FAILS
    },
];

#[test]
fn copies(rt: HostRuntime) {
    expect_table(&rt, rt.alloc(), Table::Cases(COPIES));
    expect_table(&rt, rt.alloc(), Table::Cases(OVERLAPS));
    expect_table(&rt, rt.alloc(), Table::Made(&[DRAWN]));
    expect_table(&rt, rt.alloc(), Table::Cases(FAILING));
    expect_table(&rt, rt.alloc(), Table::Runs(FAULTS));
}

// What a run is to end with: its status, its report and its line.
type End<'a> = (u8, &'a [u8], &'a [u8]);

// Whether a run over these stores, which never fail, ends so.
fn ends_over(
    alloc: Global,
    words: &str,
    shelf: &mut SureShelf,
    out: &mut SureSink,
    err: &mut SureSink,
    end: End<'_>,
) -> Result<bool, AllocError> {
    let (status, report, line) = end;
    let ended = ran(alloc, words, shelf, out, err)?;
    Ok(ended == status && is_file(out.bytes(), report) && is_file(err.bytes(), line))
}

// The same with sinks of its own.
fn surely_ends(
    alloc: Global,
    words: &str,
    shelf: &mut SureShelf,
    end: End<'_>,
) -> Result<bool, AllocError> {
    let mut out = SureSink::make(alloc, 256)?;
    let mut err = SureSink::make(alloc, 256)?;
    ends_over(alloc, words, shelf, &mut out, &mut err, end)
}

// A sample that isn't there reads as empty, and nothing is written.
fn is_refused(alloc: Global, shelf: &mut SureShelf) -> Result<bool, AllocError> {
    let words = "grow sample=t out=o map=m record=r width=3 height=2";
    let is_ended = surely_ends(alloc, words, shelf, (3, b"", b"weave: sample: form at 0\n"))?;
    Ok(is_ended && shelf.file("o").is_none() && shelf.file("t").is_none())
}

// Then the sample is there, and what is grown is checked.
fn are_well(alloc: Global, shelf: &mut SureShelf) -> Result<bool, AllocError> {
    let is_refused = is_refused(alloc, shelf)?;
    shelf.put_file("s", FOUR_CELLS);
    let is_ended = surely_ends(alloc, OVERLAPPING, shelf, (0, TWO.report.as_bytes(), b""))?;
    let is_written = is_file(shelf.file("o"), OVERLAP_PICTURE)
        && is_file(shelf.file("m"), OVERLAP_MAP)
        && is_file(shelf.file("r"), OVERLAP_RECORD);
    let check = "check sample=s out=o map=m record=r";
    let is_standing = surely_ends(alloc, check, shelf, (0, b"stands\n", b""))?;
    Ok(is_refused && is_ended && is_written && is_standing)
}

fn are_surely_well(alloc: Global) -> Result<bool, AllocError> {
    let mut shelf = SureShelf::make(alloc, 4096)?;
    are_well(alloc, &mut shelf)
}

#[test]
fn stores_that_never_fail(rt: HostRuntime) {
    expect_true(&rt, are_surely_well(rt.alloc()));
}
