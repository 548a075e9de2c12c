// Each command, with each of its calls failing in turn.
use crate::samples::{FOUR_FRAMES, ONE_GREY, TWO_FRAMES, TWO_GREYS};
use crate::tables::expect_none;
use std::alloc::{AllocError, Global};
use test_stage::{
    BEFORE, FOUR_CELLS, Failing, ONE_CELL, ONE_TURNED, ONE_TURNED_MAP, ONE_TURNED_RECORD,
    OVERLAP_MAP, OVERLAP_PICTURE, OVERLAP_RECORD, OVERLAPPING, Stage, is_file,
};

// The most calls of a kind on one file that a run is to have.
const MOST_CALLS: u8 = 250;

// A file: its name, the line of a run that can't read or write it, and what it holds before.
type Named<'a> = (&'a str, &'a str, &'a [u8]);

// A run that ends well where nothing fails: its words; its files, those that it reads and then
// those that it writes, in their order; how many it reads; its status and its report.
#[derive(Clone, Copy, Drop)]
struct Trying<'a> {
    words: &'a str,
    files: &'a [Named<'a>],
    reads: usize,
    status: u8,
    report: &'a str,
}

// What fails in a run: the number of the file, the line that says it, and the call. The report
// comes after all files.
type Fault<'a> = (usize, &'a str, Failing<'a>);

// The status of a run over a stage without a file, in which a call fails after so many of its kind.
fn status_on(
    stage: &mut Stage,
    of: &Trying,
    failing: Failing,
    after: u8,
) -> Result<u8, AllocError> {
    for (name, _, bytes) in of.files.iter() {
        stage.put_file(*name, *bytes)?;
    }
    stage.fail(failing, after)?;
    stage.run(of.words)
}

// There are bytes, and they are the first of a text, of which so many pieces were written, and so
// many bytes of one more.
fn is_cut(found: Option<&[u8]>, text: &[u8], after: u8, kept: usize) -> bool {
    let Some(bytes) = found else { return false };
    let least = usize::from(after).saturating_add(kept);
    let is_first = after > 0 || bytes.len() == kept;
    text.starts_with(bytes) && bytes.len() >= least && is_first
}

// The files that are read are as before. Of those that are written, the ones before number `i` are
// as the whole run leaves them, the ones after it are as before, and that one is cut off where it
// was added to.
fn are_files_right(
    of: &Trying,
    whole: &Stage,
    left: &Stage,
    i: usize,
    failing: Failing,
    after: u8,
) -> bool {
    for (j, (name, _, bytes)) in of.files.iter().enumerate() {
        let found = left.file(*name);
        let text = whole.file(*name).unwrap_or(b"");
        let is_right = match failing {
            Failing::Add(_, kept) if j == i => is_cut(found, text, after, kept),
            _ if of.reads <= j && j < i => is_file(found, text),
            _ => is_file(found, *bytes),
        };
        if !is_right {
            return false;
        }
    }
    true
}

// All ended well.
fn is_well(of: &Trying, whole: &Stage, left: &Stage, status: u8) -> bool {
    status == of.status
        && left.has_said(of.report, "")
        && are_files_right(of, whole, left, of.files.len(), Failing::Nothing, 0)
}

// A call failed: that is said, with its status, and the files are as they are to be. Nothing is
// reported, or the report is cut off.
fn is_stopped(
    of: &Trying,
    whole: &Stage,
    left: &Stage,
    status: u8,
    fault: Fault,
    after: u8,
) -> bool {
    let (i, line, failing) = fault;
    let is_reported = match failing {
        Failing::Report(kept) => { is_cut(Some(left.report()), of.report.as_bytes(), after, kept) }
        _ => left.report().is_empty(),
    };
    let failed = if i < of.reads { 5u8 } else { 6 };
    status == failed
        && is_reported
        && left.line() == line.as_bytes()
        && are_files_right(of, whole, left, i, failing, after)
}

// What is found of a run over a stage without a file, of which a call fails: nothing yet where it
// fails as it is to, and else the answer. A file that is written is begun once.
fn found_on(
    stage: &mut Stage,
    of: &Trying,
    whole: &Stage,
    fault: Fault,
    after: u8,
) -> Result<Option<bool>, AllocError> {
    let (_, _, failing) = fault;
    let status = status_on(stage, of, failing, after)?;
    if stage.read_faults() == 0 && stage.write_faults() == 0 && stage.report_faults() == 0 {
        let are_enough = match failing {
            Failing::Begin(_) => after == 1,
            _ => after > 0,
        };
        return Ok(Some(are_enough && is_well(of, whole, stage, status)));
    }
    let is_stopped = is_stopped(of, whole, stage, status, fault, after);
    Ok(if is_stopped { None } else { Some(false) })
}

fn found_after(
    alloc: Global,
    of: &Trying,
    whole: &Stage,
    fault: Fault,
    after: u8,
) -> Result<Option<bool>, AllocError> {
    let mut stage = Stage::new(alloc);
    let found = found_on(&mut stage, of, whole, fault, after);
    drop(stage);
    found
}

// Each call of a kind fails in turn.
fn fails_in_turn(
    alloc: Global,
    of: &Trying,
    whole: &Stage,
    fault: Fault,
) -> Result<bool, AllocError> {
    for after in 0..MOST_CALLS {
        if let Some(is_well) = found_after(alloc, of, whole, fault, after)? {
            return Ok(is_well);
        }
    }
    Ok(false)
}

// The file of this number fails: each read of it, or its begin and each write of it.
fn file_fails(
    alloc: Global,
    of: &Trying,
    whole: &Stage,
    i: usize,
    file: &Named,
) -> Result<bool, AllocError> {
    let (name, line, _) = *file;
    if i < of.reads {
        return fails_in_turn(alloc, of, whole, (i, line, Failing::Get(name)));
    }
    Ok(
        fails_in_turn(alloc, of, whole, (i, line, Failing::Begin(name)))?
            && fails_in_turn(alloc, of, whole, (i, line, Failing::Add(name, 0)))?
            && fails_in_turn(alloc, of, whole, (i, line, Failing::Add(name, 1)))?,
    )
}

fn each_file_fails(alloc: Global, of: &Trying, whole: &Stage) -> Result<bool, AllocError> {
    for (i, file) in of.files.iter().enumerate() {
        if !file_fails(alloc, of, whole, i, file)? {
            return Ok(false);
        }
    }
    Ok(true)
}

// Whether a run over a stage without a file leaves what it is to leave, and does so with each call
// failing: each read, begin and write of each file, and each write of the report. A write that
// fails keeps nothing of its piece, or one byte.
fn fails_well_on(alloc: Global, whole: &mut Stage, of: &Trying) -> Result<bool, AllocError> {
    let status = status_on(whole, of, Failing::Nothing, 0)?;
    let (all, line) = (of.files.len(), "weave: report: write fault\n");
    Ok(
        is_well(of, whole, whole, status)
            && each_file_fails(alloc, of, whole)?
            && fails_in_turn(alloc, of, whole, (all, line, Failing::Report(0)))?
            && fails_in_turn(alloc, of, whole, (all, line, Failing::Report(1)))?,
    )
}

fn fails_well(alloc: Global, of: &Trying) -> Result<bool, AllocError> {
    let mut whole = Stage::new(alloc);
    let found = fails_well_on(alloc, &mut whole, of);
    drop(whole);
    found
}

// The number of the first run, from 0, that doesn't.
fn wrong_trying(alloc: Global, table: &[Trying]) -> Result<Option<usize>, AllocError> {
    for (i, of) in table.iter().enumerate() {
        if !fails_well(alloc, of)? {
            return Ok(Some(i));
        }
    }
    Ok(None)
}

const OUT: Named<'static> = ("o", "weave: out: write fault\n", BEFORE);

const MAP: Named<'static> = ("m", "weave: map: write fault\n", BEFORE);

const RECORD: Named<'static> = ("r", "weave: record: write fault\n", BEFORE);

const FOUR: Named<'static> = ("s", "weave: sample: read fault\n", FOUR_CELLS);

const FRAMES: Named<'static> = ("s", "weave: sample: read fault\n", FOUR_FRAMES);

const GROWN: Trying<'static> = Trying {
    words: OVERLAPPING,
    files: &[FOUR, OUT, MAP, RECORD],
    reads: 1,
    status: 0,
    report: "grow 6x1x1\nplacements 2\nrounds 0\nseams 120\n",
};

const TARGET: &[u8] = b"P6\n3 1\n255\n\x1e\x1e\x1e\x28\x28\x28\x0a\x0a\x0a";

const OTHER_CELLS: &[u8] = b"P6\n4 1\n255\n\x32\x32\x32\x19\x19\x19\x1e\x1e\x1e\x0a\x0a\x0a";

const MARKS: &[u8] = b"P6\n4 1\n255\n\x01\x00\x00\x00\x00\x00\x00\x00\x00\x02\x00\x00";

const CHECKED: Trying<'static> = Trying {
    words: "check sample=s out=o map=m record=r",
    files: &[
        FOUR,
        ("o", "weave: out: read fault\n", OVERLAP_PICTURE),
        ("m", "weave: map: read fault\n", OVERLAP_MAP),
        ("r", "weave: record: read fault\n", OVERLAP_RECORD),
    ],
    reads: 4,
    status: 0,
    report: "stands\n",
};

const GROWING: &[Trying<'static>] = &[
    GROWN,
    Trying {
        words: "grow sample=s sample2=t out=o map=m record=r width=2 height=1 place=grid overlap=0",
        files: &[
            ("s", "weave: sample: read fault\n", ONE_GREY),
            ("t", "weave: sample2: read fault\n", TWO_GREYS),
            OUT,
            MAP,
            RECORD,
        ],
        reads: 2,
        report: "grow 2x1x1\nplacements 2\nrounds 0\nseams 1530\n",
        ..GROWN
    },
    Trying {
        words: "grow sample=s out=o map=m record=r width=1 height=1 frames=4 place=grid overlap=1",
        files: &[
            ("s", "weave: sample: read fault\n", TWO_FRAMES),
            OUT,
            MAP,
            RECORD,
        ],
        report: "grow 1x1x4\nplacements 3\nrounds 0\nseams 530\n",
        ..GROWN
    },
    Trying {
        words: ONE_TURNED,
        files: &[
            ("s", "weave: sample: read fault\n", ONE_CELL),
            OUT,
            MAP,
            RECORD,
        ],
        report: "grow 1x1x1\nplacements 1\nrounds 0\nseams 0\n",
        ..GROWN
    },
];

const OTHER_PICTURES: &[Trying<'static>] = &[
    Trying {
        words: "quilt sample=s out=o map=m record=r width=6 height=1 block=4 overlap=2",
        report: "quilt 6x1x1\nblocks 2\nboundaries 1\ncost 1200\n",
        ..GROWN
    },
    Trying {
        words: "transfer sample=s target=t out=o map=m record=r block=2 overlap=1 tol=0",
        files: &[
            FOUR,
            ("t", "weave: target: read fault\n", TARGET),
            OUT,
            MAP,
            RECORD,
        ],
        reads: 2,
        report: "transfer 3x1x1\nblocks 2\nboundaries 1\ncost 300\nmatch 3000\n",
        ..GROWN
    },
    Trying {
        words: "loop sample=s out=o map=m record=r length=2 taps=0 gap=1",
        files: &[FRAMES, OUT, MAP, RECORD],
        report: "loop 2\nstart 0\ncost 0\n",
        ..GROWN
    },
    Trying {
        words: "merge sample=s sample2=t marks=k out=o map=m",
        files: &[
            FOUR,
            ("t", "weave: sample2: read fault\n", OTHER_CELLS),
            ("k", "weave: marks: read fault\n", MARKS),
            OUT,
            MAP,
        ],
        reads: 3,
        report: "merge 4x1x1\npictures 2\nseams 15\n",
        ..GROWN
    },
    Trying {
        words: "tile sample=s out=o map=m width=6 height=1 wrap=x box=4 overlap=2",
        files: &[FOUR, OUT, MAP],
        report: "tile 6x1x1\nplacements 2\nseams 1650\n",
        ..GROWN
    },
];

// `check` has files that stand, an out file that is the sample, and files over turns.
const OTHERS: &[Trying<'static>] = &[
    CHECKED,
    Trying {
        files: &[
            FOUR,
            ("o", "weave: out: read fault\n", FOUR_CELLS),
            ("m", "weave: map: read fault\n", OVERLAP_MAP),
            ("r", "weave: record: read fault\n", OVERLAP_RECORD),
        ],
        status: 1,
        report: "fails record 0 rule 15 place 0\n",
        ..CHECKED
    },
    Trying {
        words: "check sample=s out=o map=m record=r turns=all",
        files: &[
            ("s", "weave: sample: read fault\n", ONE_CELL),
            ("o", "weave: out: read fault\n", ONE_CELL),
            ("m", "weave: map: read fault\n", ONE_TURNED_MAP),
            ("r", "weave: record: read fault\n", ONE_TURNED_RECORD),
        ],
        ..CHECKED
    },
    Trying {
        words: "upgrade map=m record=r newmap=n newrecord=q",
        files: &[
            ("m", "weave: map: read fault\n", OVERLAP_MAP),
            ("r", "weave: record: read fault\n", OVERLAP_RECORD),
            ("n", "weave: newmap: write fault\n", BEFORE),
            ("q", "weave: newrecord: write fault\n", BEFORE),
        ],
        reads: 2,
        report: "upgrade 6 2\n",
        ..GROWN
    },
    Trying {
        words: "trial n=7 width=1 height=1 place=grid rounds=0",
        files: &[],
        reads: 0,
        report: "trial 7\nsample 64x64x1\ngrow 1x1x1\nplacements 1\nrounds 0\nseams 0\nrecord stands\n",
        ..GROWN
    },
];

// Larger files, which are read and written in several pieces, and what an upgrade of them reports:
// nothing where it isn't tried. Each of the 330 pairs of cells of two tiles beside each other
// costs 1530, and so does each of the 1344 below each other. Of 31 blocks in each of 22 rows all
// but the first have a boundary of cost 1200.
const LARGER: &[(Trying<'static>, &str)] = &[
    (
        Trying {
            words: "grow sample=s out=o map=m record=r width=64 height=22 place=grid overlap=0",
            report: "grow 64x22x1\nplacements 352\nrounds 0\nseams 2561220\n",
            ..GROWN
        },
        "upgrade 1408 352\n",
    ),
    (
        Trying {
            words: "quilt sample=s out=o map=m record=r width=64 height=22 block=4 overlap=2",
            report: "quilt 64x22x1\nblocks 682\nboundaries 660\ncost 792000\n",
            ..GROWN
        },
        "",
    ),
    (
        Trying {
            words: "loop sample=s out=o map=m record=r length=40 taps=0",
            files: &[FRAMES, OUT, MAP, RECORD],
            report: "loop 40\nstart 0\ncost 0\n",
            ..GROWN
        },
        "",
    ),
];

fn file_of<'a>(left: &'a Stage, name: &str) -> &'a [u8] {
    left.file(name).unwrap_or(b"")
}

// Whether a check of what a run left is as it is to be, with each read failing.
fn is_checked(alloc: Global, left: &Stage) -> Result<bool, AllocError> {
    let files = [
        ("s", "weave: sample: read fault\n", file_of(left, "s")),
        ("o", "weave: out: read fault\n", file_of(left, "o")),
        ("m", "weave: map: read fault\n", file_of(left, "m")),
        ("r", "weave: record: read fault\n", file_of(left, "r")),
    ];
    let of = Trying {
        words: "check sample=s out=o map=m record=r",
        files: &files,
        reads: 4,
        status: 0,
        report: "stands\n",
    };
    fails_well(alloc, &of)
}

// The same of an upgrade, which has this report.
fn is_lifted(alloc: Global, left: &Stage, report: &str) -> Result<bool, AllocError> {
    let files = [
        ("m", "weave: map: read fault\n", file_of(left, "m")),
        ("r", "weave: record: read fault\n", file_of(left, "r")),
        ("n", "weave: newmap: write fault\n", BEFORE),
        ("q", "weave: newrecord: write fault\n", BEFORE),
    ];
    let of = Trying {
        words: "upgrade map=m record=r newmap=n newrecord=q",
        files: &files,
        reads: 2,
        status: 0,
        report,
    };
    fails_well(alloc, &of)
}

fn are_larger_on(
    alloc: Global,
    stage: &mut Stage,
    of: &Trying,
    lifted: &str,
) -> Result<bool, AllocError> {
    Ok(
        fails_well_on(alloc, stage, of)?
            && is_checked(alloc, stage)?
            && (lifted.is_empty() || is_lifted(alloc, stage, lifted)?),
    )
}

fn are_larger(alloc: Global, of: &Trying, lifted: &str) -> Result<bool, AllocError> {
    let mut stage = Stage::new(alloc);
    let found = are_larger_on(alloc, &mut stage, of, lifted);
    drop(stage);
    found
}

// The number of the first larger run, from 0, that doesn't.
fn wrong_larger(alloc: Global, table: &[(Trying, &str)]) -> Result<Option<usize>, AllocError> {
    for (i, (of, lifted)) in table.iter().enumerate() {
        if !are_larger(alloc, of, *lifted)? {
            return Ok(Some(i));
        }
    }
    Ok(None)
}

#[test]
fn each_call_of_each_command(rt: HostRuntime) {
    expect_none(&rt, wrong_trying(rt.alloc(), GROWING));
    expect_none(&rt, wrong_trying(rt.alloc(), OTHER_PICTURES));
    expect_none(&rt, wrong_trying(rt.alloc(), OTHERS));
    expect_none(&rt, wrong_larger(rt.alloc(), LARGER));
}
