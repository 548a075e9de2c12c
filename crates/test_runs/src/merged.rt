// Merges: which picture each cell comes from, and what the seams cost; what the files hold after a
// call that fails; words, pictures and marks that are refused. No file is written, and none is
// read after a refusal.
use crate::tables::{Table, expect_table};
use std::alloc::{AllocError, Global};
use test_stage::{BEFORE, Failing, Run, leaves};

/// The words, the pictures `a`, `b` and `c`, the marks `k`, what fails, and what is expected
/// afterwards in the picture `o` and the map `m`.
#[derive(Clone, Copy, Drop)]
pub struct Merge<'a> {
    pub words: &'a str,
    pub first: &'a [u8],
    pub second: &'a [u8],
    pub third: &'a [u8],
    pub marks: &'a [u8],
    pub failing: Failing<'a>,
    pub status: u8,
    pub report: &'a str,
    pub line: &'a str,
    pub picture: &'a [u8],
    pub map: &'a [u8],
}

/// The number of the first run, from 0, that doesn't leave what it is to leave. Pictures and marks
/// stay.
pub fn wrong_merge(alloc: Global, table: &[Merge]) -> Result<Option<usize>, AllocError> {
    for (i, of) in table.iter().enumerate() {
        let (a, b, c, k) = (
            ("a", of.first),
            ("b", of.second),
            ("c", of.third),
            ("k", of.marks),
        );
        let run = Run {
            words: of.words,
            before: &[a, b, c, k, ("o", BEFORE), ("m", BEFORE)],
            failing: of.failing,
            status: of.status,
            report: of.report,
            line: of.line,
            after: &[a, b, c, k, ("o", of.picture), ("m", of.map)],
        };
        if !leaves(alloc, &run)? {
            return Ok(Some(i));
        }
    }
    Ok(None)
}

const FIRST: &[u8] = b"P6\n4 1\n255\n\
\x0a\x0a\x0a\x14\x14\x14\x1e\x1e\x1e\
\x28\x28\x28";

const SECOND: &[u8] = b"P6\n4 1\n255\n\
\x32\x32\x32\x19\x19\x19\x1e\x1e\x1e\
\x0a\x0a\x0a";

const MARKS: &[u8] = b"P6\n4 1\n255\n\
\x01\x00\x00\x00\x00\x00\x00\x00\x00\
\x02\x00\x00";

// Between the cells of grey 20 and 30, both pictures differ the least: by 5 on each of three
// channels in one of the cells.
const PICTURE: &[u8] = b"P6\n4 1\n255\n\
\x0a\x0a\x0a\x14\x14\x14\x1e\x1e\x1e\
\x0a\x0a\x0a";

const MAP: &[u8] = b"WEAVEMAP\x02\x00\
\x00\x00\x00\x04\x00\x00\x00\x01\x00\x00\x00\x01\
\x00\x02\
\x00\x00\x00\x04\x00\x00\x00\x01\x00\x00\x00\x01\
\x00\x00\x00\x04\x00\x00\x00\x01\x00\x00\x00\x01\
\x00\x01\x00\x00\x00\x00\x00\x00\
\x00\x01\x00\x01\x00\x00\x00\x00\
\x00\x02\x00\x02\x00\x00\x00\x00\
\x00\x02\x00\x03\x00\x00\x00\x00";

const TWO: Merge<'static> = Merge {
    words: "merge sample=a sample2=b marks=k out=o map=m",
    first: FIRST,
    second: SECOND,
    third: b"",
    marks: MARKS,
    failing: Failing::Nothing,
    status: 0,
    report: "merge 4x1x1\npictures 2\nseams 15\n",
    line: "",
    picture: PICTURE,
    map: MAP,
};

const SIX: &[u8] = b"P6\n3 2\n255\n\
\x0a\x0a\x0a\x14\x14\x14\x1e\x1e\x1e\
\x28\x28\x28\x32\x32\x32\x3c\x3c\x3c";

const SIX_MORE: &[u8] = b"P6\n3 2\n255\n\
\x0c\x0c\x0c\x50\x50\x50\x1f\x1f\x1f\
\x2d\x2d\x2d\x5a\x5a\x5a\x3d\x3d\x3d";

const SIX_LAST: &[u8] = b"P6\n3 2\n255\n\
\x09\x09\x09\x15\x15\x15\x46\x46\x46\
\x29\x29\x29\xc8\xc8\xc8\x3e\x3e\x3e";

const SIX_MARKS: &[u8] = b"P6\n3 2\n255\n\
\x01\x00\x00\x00\x00\x00\x02\x00\x00\
\x00\x00\x00\x03\x00\x00\x00\x00\x00";

const MARKED_PICTURE: &[u8] = b"P6\n3 2\n255\n\
\x0a\x0a\x0a\x15\x15\x15\x1f\x1f\x1f\
\x29\x29\x29\xc8\xc8\xc8\x3e\x3e\x3e";

const MARKED_MAP: &[u8] = b"WEAVEMAP\x02\x00\
\x00\x00\x00\x03\x00\x00\x00\x02\x00\x00\x00\x01\
\x00\x03\
\x00\x00\x00\x03\x00\x00\x00\x02\x00\x00\x00\x01\
\x00\x00\x00\x03\x00\x00\x00\x02\x00\x00\x00\x01\
\x00\x00\x00\x03\x00\x00\x00\x02\x00\x00\x00\x01\
\x00\x01\x00\x00\x00\x00\x00\x00\
\x00\x03\x00\x01\x00\x00\x00\x00\
\x00\x02\x00\x02\x00\x00\x00\x00\
\x00\x03\x00\x00\x00\x01\x00\x00\
\x00\x03\x00\x01\x00\x01\x00\x00\
\x00\x03\x00\x02\x00\x01\x00\x00";

const LAST_PICTURE: &[u8] = b"P6\n3 2\n255\n\
\x09\x09\x09\x15\x15\x15\x46\x46\x46\
\x29\x29\x29\xc8\xc8\xc8\x3e\x3e\x3e";

const LAST_MAP: &[u8] = b"WEAVEMAP\x02\x00\
\x00\x00\x00\x03\x00\x00\x00\x02\x00\x00\x00\x01\
\x00\x03\
\x00\x00\x00\x03\x00\x00\x00\x02\x00\x00\x00\x01\
\x00\x00\x00\x03\x00\x00\x00\x02\x00\x00\x00\x01\
\x00\x00\x00\x03\x00\x00\x00\x02\x00\x00\x00\x01\
\x00\x03\x00\x00\x00\x00\x00\x00\
\x00\x03\x00\x01\x00\x00\x00\x00\
\x00\x03\x00\x02\x00\x00\x00\x00\
\x00\x03\x00\x00\x00\x01\x00\x00\
\x00\x03\x00\x01\x00\x01\x00\x00\
\x00\x03\x00\x02\x00\x01\x00\x00";

const ROWS_PICTURE: &[u8] = b"P6\n3 2\n255\n\
\x0c\x0c\x0c\x50\x50\x50\x1f\x1f\x1f\
\x29\x29\x29\xc8\xc8\xc8\x3e\x3e\x3e";

const ROWS_MAP: &[u8] = b"WEAVEMAP\x02\x00\
\x00\x00\x00\x03\x00\x00\x00\x02\x00\x00\x00\x01\
\x00\x03\
\x00\x00\x00\x03\x00\x00\x00\x02\x00\x00\x00\x01\
\x00\x00\x00\x03\x00\x00\x00\x02\x00\x00\x00\x01\
\x00\x00\x00\x03\x00\x00\x00\x02\x00\x00\x00\x01\
\x00\x02\x00\x00\x00\x00\x00\x00\
\x00\x02\x00\x01\x00\x00\x00\x00\
\x00\x02\x00\x02\x00\x00\x00\x00\
\x00\x03\x00\x00\x00\x01\x00\x00\
\x00\x03\x00\x01\x00\x01\x00\x00\
\x00\x03\x00\x02\x00\x01\x00\x00";

const FIRST_ONE_PICTURE: &[u8] = b"P6\n3 2\n255\n\
\x0a\x0a\x0a\x14\x14\x14\x1e\x1e\x1e\
\x28\x28\x28\x32\x32\x32\x3c\x3c\x3c";

const FIRST_ONE_MAP: &[u8] = b"WEAVEMAP\x02\x00\
\x00\x00\x00\x03\x00\x00\x00\x02\x00\x00\x00\x01\
\x00\x03\
\x00\x00\x00\x03\x00\x00\x00\x02\x00\x00\x00\x01\
\x00\x00\x00\x03\x00\x00\x00\x02\x00\x00\x00\x01\
\x00\x00\x00\x03\x00\x00\x00\x02\x00\x00\x00\x01\
\x00\x01\x00\x00\x00\x00\x00\x00\
\x00\x01\x00\x01\x00\x00\x00\x00\
\x00\x01\x00\x02\x00\x00\x00\x00\
\x00\x01\x00\x00\x00\x01\x00\x00\
\x00\x01\x00\x01\x00\x01\x00\x00\
\x00\x01\x00\x02\x00\x01\x00\x00";

const NO_MARKS: &[u8] = b"P6\n3 2\n255\n\
\x00\x00\x00\x00\x00\x00\x00\x00\x00\
\x00\x00\x00\x00\x00\x00\x00\x00\x00";

const ROW_MARKS: &[u8] = b"P6\n3 2\n255\n\
\x02\x00\x00\x02\x00\x00\x02\x00\x00\
\x03\x00\x00\x03\x00\x00\x03\x00\x00";

const ALL_FIRST: &[u8] = b"P6\n3 2\n255\n\
\x01\x00\x00\x01\x00\x00\x01\x00\x00\
\x01\x00\x00\x01\x00\x00\x01\x00\x00";

const ALL_LAST: &[u8] = b"P6\n3 2\n255\n\
\x03\x00\x00\x03\x00\x00\x03\x00\x00\
\x03\x00\x00\x03\x00\x00\x03\x00\x00";

const THREE: Merge<'static> = Merge {
    words: "merge map=m sample3=c out=o sample=a marks=k sample2=b",
    first: SIX,
    second: SIX_MORE,
    third: SIX_LAST,
    marks: SIX_MARKS,
    report: "merge 3x2x1\npictures 3\nseams 426\n",
    picture: MARKED_PICTURE,
    map: MARKED_MAP,
    ..TWO
};

// Where nothing is marked, all of the last picture is taken, which costs nothing.
const MERGES: &[Merge<'static>] = &[
    TWO,
    THREE,
    Merge {
        marks: NO_MARKS,
        report: "merge 3x2x1\npictures 3\nseams 0\n",
        picture: LAST_PICTURE,
        map: LAST_MAP,
        ..THREE
    },
    Merge {
        marks: ROW_MARKS,
        report: "merge 3x2x1\npictures 3\nseams 648\n",
        picture: ROWS_PICTURE,
        map: ROWS_MAP,
        ..THREE
    },
    Merge {
        marks: ALL_FIRST,
        report: "merge 3x2x1\npictures 3\nseams 0\n",
        picture: FIRST_ONE_PICTURE,
        map: FIRST_ONE_MAP,
        ..THREE
    },
    Merge {
        marks: ALL_LAST,
        report: "merge 3x2x1\npictures 3\nseams 0\n",
        picture: LAST_PICTURE,
        map: LAST_MAP,
        ..THREE
    },
];

// The marks may have another maxval than the pictures.
const LOW_MARKS: &[u8] = b"P6\n4 1\n3\n\
\x01\x00\x00\x00\x00\x00\x00\x00\x00\
\x02\x00\x00";

const ONE: &[u8] = b"P6\n1 1\n255\n\x07\x07\x07";

const OTHER: &[u8] = b"P6\n1 1\n255\n\x09\x09\x09";

const FIRST_MARK: &[u8] = b"P6\n1 1\n1\n\x01\x00\x00";

const ONE_MAP: &[u8] = b"WEAVEMAP\x02\x00\
\x00\x00\x00\x01\x00\x00\x00\x01\x00\x00\x00\x01\
\x00\x02\
\x00\x00\x00\x01\x00\x00\x00\x01\x00\x00\x00\x01\
\x00\x00\x00\x01\x00\x00\x00\x01\x00\x00\x00\x01\
\x00\x01\x00\x00\x00\x00\x00\x00";

const SMALL: &[Merge<'static>] = &[
    Merge {
        marks: LOW_MARKS,
        ..TWO
    },
    Merge {
        first: ONE,
        second: OTHER,
        marks: FIRST_MARK,
        report: "merge 1x1x1\npictures 2\nseams 0\n",
        picture: ONE,
        map: ONE_MAP,
        ..TWO
    },
];

const NOTHING_WRITTEN: Merge<'static> = Merge {
    report: "",
    picture: BEFORE,
    map: BEFORE,
    ..TWO
};

const UNREAD: &[Merge<'static>] = &[
    Merge {
        failing: Failing::Get("a"),
        status: 5,
        line: "weave: sample: read fault\n",
        ..NOTHING_WRITTEN
    },
    Merge {
        failing: Failing::Get("b"),
        status: 5,
        line: "weave: sample2: read fault\n",
        ..NOTHING_WRITTEN
    },
    Merge {
        failing: Failing::Get("k"),
        status: 5,
        line: "weave: marks: read fault\n",
        ..NOTHING_WRITTEN
    },
];

// The picture is written first, then the map, and last the report.
const UNWRITTEN: &[Merge<'static>] = &[
    Merge {
        failing: Failing::Begin("o"),
        status: 6,
        line: "weave: out: write fault\n",
        ..NOTHING_WRITTEN
    },
    Merge {
        failing: Failing::Begin("m"),
        status: 6,
        line: "weave: map: write fault\n",
        report: "",
        map: BEFORE,
        ..TWO
    },
    Merge {
        failing: Failing::Add("m", 8),
        status: 6,
        line: "weave: map: write fault\n",
        report: "",
        map: b"WEAVEMAP",
        ..TWO
    },
    Merge {
        failing: Failing::Report(5),
        status: 6,
        line: "weave: report: write fault\n",
        report: "merge",
        ..TWO
    },
];

const REFUSED: Merge<'static> = Merge {
    status: 3,
    report: "",
    picture: BEFORE,
    map: BEFORE,
    ..TWO
};

const NARROW: &[u8] = b"P6\n3 1\n255\n\
\x0a\x0a\x0a\x14\x14\x14\x1e\x1e\x1e";

const DARK: &[u8] = b"P6\n4 1\n200\n\
\x0a\x0a\x0a\x14\x14\x14\x1e\x1e\x1e\
\x28\x28\x28";

const TALL: &[u8] = b"P6\n4 2\n255\n\
\x0a\x0a\x0a\x14\x14\x14\x1e\x1e\x1e\
\x28\x28\x28\x32\x32\x32\x19\x19\x19\
\x1e\x1e\x1e\x0a\x0a\x0a";

const CLIP: &[u8] = b"YUV4MPEG2 W4 H1 F5:1 Ip A0:0 Cmono\nFRAME\n\x0a\x14\x1e\x28";

const FIRST_ABOVE: &[u8] = b"P6\n4 1\n255\n\
\x03\x00\x00\x00\x00\x00\x00\x00\x00\
\x02\x00\x00";

const ABOVE: &[u8] = b"P6\n4 1\n255\n\
\x01\x00\x00\x00\x00\x00\x03\x00\x00\
\x04\x00\x00";

const SECOND_BYTE: &[u8] = b"P6\n4 1\n255\n\
\x01\x00\x00\x00\x01\x00\x00\x00\x01\
\x03\x00\x00";

const THIRD_BYTE: &[u8] = b"P6\n4 1\n255\n\
\x01\x00\x00\x02\x00\x00\x00\x00\x01\
\x03\x00\x00";

const NARROW_MARKS: &[u8] = b"P6\n3 1\n255\n\
\x03\x00\x00\x00\x00\x00\x00\x00\x00";

// A picture of another size or maxval, in each place; a clip as a picture or as marks.
const UNLIKE: &[Merge<'static>] = &[
    Merge {
        second: NARROW,
        line: "weave: sample2: unlike\n",
        ..REFUSED
    },
    Merge {
        second: TALL,
        line: "weave: sample2: unlike\n",
        ..REFUSED
    },
    Merge {
        second: DARK,
        line: "weave: sample2: unlike\n",
        ..REFUSED
    },
    Merge {
        words: "merge sample=a sample2=b sample3=c marks=k out=o map=m",
        third: DARK,
        line: "weave: sample3: unlike\n",
        ..REFUSED
    },
    Merge {
        words: "merge sample=a sample2=b sample3=c marks=k out=o map=m",
        third: TALL,
        line: "weave: sample3: unlike\n",
        ..REFUSED
    },
    Merge {
        words: "merge sample=a sample2=b sample3=c marks=k out=o map=m",
        second: NARROW,
        third: b"",
        line: "weave: sample2: unlike\n",
        ..REFUSED
    },
    Merge {
        first: CLIP,
        line: "weave: sample: form at 0\n",
        ..REFUSED
    },
    Merge {
        second: CLIP,
        line: "weave: sample2: form at 0\n",
        ..REFUSED
    },
    Merge {
        marks: CLIP,
        line: "weave: marks: form at 0\n",
        ..REFUSED
    },
];

// The first bad cell is named; the size of the marks is tried before.
const MARKED: &[Merge<'static>] = &[
    Merge {
        marks: NARROW_MARKS,
        line: "weave: marks: unlike\n",
        ..REFUSED
    },
    Merge {
        marks: FIRST_ABOVE,
        line: "weave: marks: mark at 0\n",
        ..REFUSED
    },
    Merge {
        marks: ABOVE,
        line: "weave: marks: mark at 2\n",
        ..REFUSED
    },
    Merge {
        marks: SECOND_BYTE,
        line: "weave: marks: mark at 1\n",
        ..REFUSED
    },
    Merge {
        marks: THIRD_BYTE,
        line: "weave: marks: mark at 2\n",
        ..REFUSED
    },
    Merge {
        second: NARROW,
        marks: ABOVE,
        line: "weave: sample2: unlike\n",
        ..REFUSED
    },
    Merge {
        marks: ABOVE,
        failing: Failing::Get("k"),
        status: 5,
        line: "weave: marks: read fault\n",
        ..REFUSED
    },
    Merge {
        second: NARROW,
        failing: Failing::Get("k"),
        line: "weave: sample2: unlike\n",
        ..REFUSED
    },
];

const WORDS: &[Merge<'static>] = &[
    Merge {
        words: "merge sample=a marks=k out=o map=m",
        status: 2,
        line: "weave: missing key sample2\n",
        ..REFUSED
    },
    Merge {
        words: "merge sample=a sample3=b marks=k out=o map=m",
        status: 2,
        line: "weave: missing key sample2\n",
        ..REFUSED
    },
    Merge {
        words: "merge sample=a sample2=b marks=b out=o map=m",
        status: 2,
        line: "weave: word 4: name already used\n",
        ..REFUSED
    },
    Merge {
        words: "merge sample=a sample2=b marks=k out=o map=m record=r",
        status: 2,
        line: "weave: word 7: unknown key\n",
        ..REFUSED
    },
];

#[test]
fn pictures_are_merged(rt: HostRuntime) {
    expect_table(&rt, rt.alloc(), Table::Merges(MERGES));
    expect_table(&rt, rt.alloc(), Table::Merges(SMALL));
    expect_table(&rt, rt.alloc(), Table::Merges(UNREAD));
    expect_table(&rt, rt.alloc(), Table::Merges(UNWRITTEN));
    expect_table(&rt, rt.alloc(), Table::Merges(UNLIKE));
    expect_table(&rt, rt.alloc(), Table::Merges(MARKED));
    expect_table(&rt, rt.alloc(), Table::Merges(WORDS));
}
