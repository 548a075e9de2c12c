// Lines that can't be written: with each write on `err` failing in turn every status stays.
use crate::samples::FOUR_FRAMES;
use crate::tables::expect_none;
use std::alloc::{AllocError, Global};
use std::process::Abort;
use test_stage::{FOUR_CELLS, Failing, File, OVERLAP_MAP, OVERLAP_PICTURE, OVERLAP_RECORD, Stage};

// The most writes of a line that are tried.
const MOST_CALLS: u8 = 50;

// A run that ends with a line: its words, the files before it, what fails after so many calls of
// its kind, its status and its line, of which the first piece has so many bytes at least.
#[derive(Clone, Copy, Drop)]
struct Refused<'a> {
    words: &'a str,
    files: &'a [File<'a>],
    failing: Failing<'a>,
    after: u8,
    status: u8,
    line: &'a str,
    piece: usize,
}

// What is found of a run over a stage without a file, of which a write of the line fails, after so
// many that go well, and keeps so many bytes of its piece: nothing yet where the status stays and
// the line is cut off, and else the answer.
fn found_on(
    stage: &mut Stage,
    of: &Refused,
    after: u8,
    kept: usize,
) -> Result<Option<bool>, AllocError> {
    stage.put_files(of.files)?;
    stage.fail(of.failing, of.after)?;
    stage.fail_line(after, kept)?;
    let status = stage.run(of.words)?;
    let (line, whole) = (stage.line(), of.line.as_bytes());
    let is_first = status == of.status && whole.starts_with(line);
    if stage.line_faults() == 0 {
        return Ok(Some(is_first && after > 0 && line == whole));
    }
    let is_cut = is_first && (after > 0 || line.len() == kept);
    Ok(if is_cut { None } else { Some(false) })
}

fn found_after(
    alloc: Global,
    of: &Refused,
    after: u8,
    kept: usize,
) -> Result<Option<bool>, AllocError> {
    let mut stage = Stage::new(alloc);
    let found = found_on(&mut stage, of, after, kept);
    drop(stage);
    found
}

// Whether the status stays and the line is cut off where each write of it fails in turn.
fn says_well(alloc: Global, of: &Refused, kept: usize) -> Result<bool, AllocError> {
    for after in 0..MOST_CALLS {
        if let Some(is_well) = found_after(alloc, of, after, kept)? {
            return Ok(is_well);
        }
    }
    Ok(false)
}

// The number of the first run, from 0, whose status doesn't stay. A write that fails keeps
// nothing, one byte, or the piece.
fn wrong_saying(alloc: Global, table: &[Refused]) -> Result<Option<usize>, AllocError> {
    for (i, of) in table.iter().enumerate() {
        let is_well = says_well(alloc, of, 0)?
            && says_well(alloc, of, 1)?
            && says_well(alloc, of, of.piece)?;
        if !is_well {
            return Ok(Some(i));
        }
    }
    Ok(None)
}

const GROWN: Refused<'static> = Refused {
    words: "grow sample=s out=o map=m record=r width=6 height=1",
    files: &[("s", FOUR_CELLS)],
    failing: Failing::Nothing,
    after: 0,
    status: 2,
    line: "",
    piece: 7,
};

const QUILTED: Refused<'static> = Refused {
    words: "quilt sample=s out=o map=m record=r width=6 height=1",
    ..GROWN
};

const TRANSFERRED: Refused<'static> = Refused {
    words: "transfer sample=s target=t out=o map=m record=r",
    files: &[("s", FOUR_CELLS), ("t", FOUR_CELLS)],
    ..GROWN
};

const TILED: Refused<'static> = Refused {
    words: "tile sample=s out=o map=m width=6 height=3",
    ..GROWN
};

const MERGED: Refused<'static> = Refused {
    words: "merge sample=s sample2=t marks=k out=o map=m",
    files: &[("s", FOUR_CELLS), ("t", FOUR_CELLS), ("k", NO_MARKS)],
    ..GROWN
};

const NO_MARKS: &[u8] = b"P6\n4 1\n255\n\x00\x00\x00\x00\x00\x00\x00\x00\x00\x00\x00\x00";

const BAD_MARKS: &[u8] = b"P6\n4 1\n255\n\x00\x00\x00\x03\x00\x00\x00\x00\x00\x00\x00\x00";

const LOOPED: Refused<'static> = Refused {
    words: "loop sample=s out=o map=m record=r length=2 taps=0",
    files: &[("s", FOUR_FRAMES)],
    ..GROWN
};

const CHECKED: Refused<'static> = Refused {
    words: "check sample=s out=o map=m record=r",
    files: &[
        ("s", FOUR_CELLS),
        ("o", OVERLAP_PICTURE),
        ("m", OVERLAP_MAP),
        ("r", OVERLAP_RECORD),
    ],
    ..GROWN
};

const UPGRADED: Refused<'static> = Refused {
    words: "upgrade map=m record=r newmap=n newrecord=q",
    files: &[("m", OVERLAP_MAP), ("r", OVERLAP_RECORD)],
    ..GROWN
};

const TRIED: Refused<'static> = Refused {
    words: "trial n=7 width=1 height=1 place=grid rounds=0",
    files: &[],
    ..GROWN
};

// The runs of each command.
const GROWING: &[Refused<'static>] = &[
    Refused {
        words: "grow sample",
        line: "weave: word 2: not key=value\n",
        piece: 12,
        ..GROWN
    },
    Refused {
        words: "grow width=0",
        line: "weave: word 2: out of range\n",
        ..GROWN
    },
    Refused {
        files: &[("s", b"P6\n0")],
        status: 3,
        line: "weave: sample: form at 4\n",
        ..GROWN
    },
    Refused {
        words: "grow sample=s out=o map=m record=r width=1025 height=1024",
        status: 4,
        line: "weave: limit output 1049600 over 1048576\n",
        ..GROWN
    },
    Refused {
        files: &[],
        status: 5,
        line: "weave: sample: read fault\n",
        ..GROWN
    },
    Refused {
        failing: Failing::Begin("m"),
        status: 6,
        line: "weave: map: write fault\n",
        ..GROWN
    },
    Refused {
        failing: Failing::Report(0),
        status: 6,
        line: "weave: report: write fault\n",
        ..GROWN
    },
];

const QUILTING: &[Refused<'static>] = &[
    Refused {
        words: "quilt",
        line: "weave: missing key sample\n",
        ..QUILTED
    },
    Refused {
        files: &[("s", FOUR_FRAMES)],
        status: 3,
        line: "weave: sample: form at 0\n",
        ..QUILTED
    },
    Refused {
        words: "quilt sample=s out=o map=m record=r width=1025 height=1024",
        status: 4,
        line: "weave: limit output 1049600 over 1048576\n",
        ..QUILTED
    },
    Refused {
        files: &[],
        status: 5,
        line: "weave: sample: read fault\n",
        ..QUILTED
    },
    Refused {
        failing: Failing::Add("o", 1),
        status: 6,
        line: "weave: out: write fault\n",
        ..QUILTED
    },
];

const TRANSFERRING: &[Refused<'static>] = &[
    Refused {
        words: "transfer sample=s",
        line: "weave: missing key target\n",
        ..TRANSFERRED
    },
    Refused {
        files: &[("s", FOUR_CELLS), ("t", b"P6\n1 1\n9\n\x09\x09\x09")],
        status: 3,
        line: "weave: target: unlike\n",
        ..TRANSFERRED
    },
    Refused {
        files: &[("s", FOUR_CELLS), ("t", b"P6\n4097 1\n255\n")],
        status: 4,
        line: "weave: limit axis 4097 over 4096\n",
        ..TRANSFERRED
    },
    Refused {
        files: &[("s", FOUR_CELLS)],
        status: 5,
        line: "weave: target: read fault\n",
        ..TRANSFERRED
    },
    Refused {
        failing: Failing::Begin("r"),
        status: 6,
        line: "weave: record: write fault\n",
        ..TRANSFERRED
    },
];

const TILING: &[Refused<'static>] = &[
    Refused {
        words: "tile sample=s out=o map=m width=6 height=1",
        line: "weave: wrapped axis y under 3\n",
        ..TILED
    },
    Refused {
        files: &[("s", b"P6\n1 1\n255\n")],
        status: 3,
        line: "weave: sample: form at 11\n",
        ..TILED
    },
    Refused {
        words: "tile sample=s out=o map=m width=1025 height=1024",
        status: 4,
        line: "weave: limit output 1049600 over 1048576\n",
        ..TILED
    },
    Refused {
        files: &[],
        status: 5,
        line: "weave: sample: read fault\n",
        ..TILED
    },
    Refused {
        failing: Failing::Add("m", 1),
        status: 6,
        line: "weave: map: write fault\n",
        ..TILED
    },
];

const MERGING: &[Refused<'static>] = &[
    Refused {
        words: "merge sample=s marks=k",
        line: "weave: missing key sample2\n",
        ..MERGED
    },
    Refused {
        files: &[("s", FOUR_CELLS), ("t", FOUR_CELLS), ("k", BAD_MARKS)],
        status: 3,
        line: "weave: marks: mark at 1\n",
        ..MERGED
    },
    Refused {
        files: &[("s", b"P6\n4096 4096\n255\n")],
        status: 4,
        line: "weave: limit cells 16777216 over 8388608\n",
        ..MERGED
    },
    Refused {
        files: &[("s", FOUR_CELLS), ("t", FOUR_CELLS)],
        status: 5,
        line: "weave: marks: read fault\n",
        ..MERGED
    },
    Refused {
        failing: Failing::Report(0),
        after: 1,
        status: 6,
        line: "weave: report: write fault\n",
        ..MERGED
    },
];

const LOOPING: &[Refused<'static>] = &[
    Refused {
        words: "loop taps=3",
        line: "weave: word 2: out of range\n",
        ..LOOPED
    },
    Refused {
        files: &[("s", b"YUV4MPEG2 W1 H1 Cmono\n")],
        status: 3,
        line: "weave: sample: no frames\n",
        ..LOOPED
    },
    Refused {
        files: &[("s", b"YUV4MPEG2 W4097 H1 Cmono\n")],
        status: 4,
        line: "weave: limit axis 4097 over 4096\n",
        ..LOOPED
    },
    Refused {
        files: &[],
        status: 5,
        line: "weave: sample: read fault\n",
        ..LOOPED
    },
    Refused {
        failing: Failing::Begin("r"),
        status: 6,
        line: "weave: record: write fault\n",
        ..LOOPED
    },
    Refused {
        words: "loop sample=s out=o map=m record=r length=2 gap=9",
        status: 8,
        line: "weave: no loop of length 2\n",
        ..LOOPED
    },
];

const CHECKING: &[Refused<'static>] = &[
    Refused {
        words: "check width=3",
        line: "weave: word 2: unknown key\n",
        ..CHECKED
    },
    Refused {
        files: &[("s", FOUR_CELLS), ("o", OVERLAP_PICTURE), ("m", b"WEAVE")],
        status: 3,
        line: "weave: map: form at 5\n",
        ..CHECKED
    },
    Refused {
        files: &[("s", FOUR_CELLS), ("o", b"P6\n4097 1\n255\n")],
        status: 4,
        line: "weave: limit axis 4097 over 4096\n",
        ..CHECKED
    },
    Refused {
        failing: Failing::Get("r"),
        status: 5,
        line: "weave: record: read fault\n",
        ..CHECKED
    },
    Refused {
        failing: Failing::Report(1),
        status: 6,
        line: "weave: report: write fault\n",
        ..CHECKED
    },
];

const UPGRADING: &[Refused<'static>] = &[
    Refused {
        words: "upgrade map=m newmap=m",
        line: "weave: word 3: name already used\n",
        ..UPGRADED
    },
    Refused {
        files: &[("m", b"WEAVEMAP\x02")],
        status: 3,
        line: "weave: map: form at 8\n",
        ..UPGRADED
    },
    Refused {
        files: &[("m", b"WEAVEMAP\x01\x00\x00\x00\x10\x01")],
        status: 4,
        line: "weave: limit axis 4097 over 4096\n",
        ..UPGRADED
    },
    Refused {
        files: &[("m", OVERLAP_MAP)],
        status: 5,
        line: "weave: record: read fault\n",
        ..UPGRADED
    },
    Refused {
        failing: Failing::Add("q", 0),
        status: 6,
        line: "weave: newrecord: write fault\n",
        ..UPGRADED
    },
];

const TRYING: &[Refused<'static>] = &[
    Refused {
        words: "trial n=x",
        line: "weave: word 2: bad value\n",
        ..TRIED
    },
    Refused {
        words: "trial n=7 width=1025 height=1024",
        status: 4,
        line: "weave: limit output 1049600 over 1048576\n",
        ..TRIED
    },
    Refused {
        failing: Failing::Report(0),
        status: 6,
        line: "weave: report: write fault\n",
        ..TRIED
    },
];

fn expect_said(rt: &impl Abort, alloc: Global, table: &[Refused]) {
    expect_none(rt, wrong_saying(alloc, table));
}

#[test]
fn lines_that_cant_be_written(rt: HostRuntime) {
    let alloc = rt.alloc();
    expect_said(&rt, alloc, GROWING);
    expect_said(&rt, alloc, QUILTING);
    expect_said(&rt, alloc, TRANSFERRING);
    expect_said(&rt, alloc, TILING);
    expect_said(&rt, alloc, MERGING);
    expect_said(&rt, alloc, LOOPING);
    expect_said(&rt, alloc, CHECKING);
    expect_said(&rt, alloc, UPGRADING);
    expect_said(&rt, alloc, TRYING);
}
