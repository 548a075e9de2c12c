// Runs of each command over stores that take no memory once they are made, so that every growth
// that is refused is one of the run's own.
use shelf_core::{SureShelf, SureSink};
use std::alloc::{AllocError, Global};
use test_stage::{File, ran};

/// A run: its words, the files before it, and its report.
pub type Sure<'a> = (&'a str, &'a [File<'a>], &'a str);

const GREYS: &[u8] = b"P6\n4 1\n255\n\x0a\x0a\x0a\x14\x14\x14\x1e\x1e\x1e\x28\x28\x28";

const FRAMES: &[u8] = b"YUV4MPEG2 W1 H1 Cmono\nFRAME\n\x00FRAME\n\x03FRAME\n\x00FRAME\n\x03";

const PICTURE: &[u8] = b"P6\n6 1\n255\n\
\x0a\x0a\x0a\x14\x14\x14\x1e\x1e\x1e\x14\x14\x14\x1e\x1e\x1e\x28\x28\x28";

const MAP: &[u8] = b"WEAVEMAP\x01\x00\
\x00\x00\x00\x06\x00\x00\x00\x01\x00\x00\x00\x01\
\x00\x00\x00\x04\x00\x00\x00\x01\x00\x00\x00\x01\
\x00\x00\x00\x00\x00\x00\x00\x01\x00\x00\x00\x00\x00\x02\x00\x00\x00\x00\
\x00\x01\x00\x00\x00\x00\x00\x02\x00\x00\x00\x00\x00\x03\x00\x00\x00\x00";

const RECORD: &[u8] = b"WEAVEREC\x01\x00\
\x00\x00\x00\x06\x00\x00\x00\x01\x00\x00\x00\x01\
\x00\x00\x00\x04\x00\x00\x00\x01\x00\x00\x00\x01\
\x00\x00\x00\x02\
\x00\x00\x00\x00\x00\x00\x00\x04\x00\x01\x00\x01\x00\x00\x00\x00\x00\x00\xf0\
\x00\x00\x00\x00\x00\x00\x00\x00\x00\x00\x00\x00\
\x00\x02\x00\x00\x00\x00\x00\x04\x00\x01\x00\x01\x00\x00\x00\x00\x00\x00\x70\
\x00\x78\x00\x78\x00\x78\x00\x00\x00\x00\x00\x00";

// One cell, and the map and the record of its copy with turns.
const ONE: &[u8] = b"P6\n1 1\n255\n\x07\x08\x09";

const TURNED_MAP: &[u8] = b"WEAVEMAP\x02\x02\
\x00\x00\x00\x01\x00\x00\x00\x01\x00\x00\x00\x01\x00\x01\
\x00\x00\x00\x01\x00\x00\x00\x01\x00\x00\x00\x01\
\x00\x01\x00\x00\x00\x00\x00\x00\x00\x00";

const TURNED_RECORD: &[u8] = b"WEAVEREC\x02\x00\
\x00\x00\x00\x01\x00\x00\x00\x01\x00\x00\x00\x01\x00\x08\
\x00\x00\x00\x01\x00\x00\x00\x01\x00\x00\x00\x01\
\x00\x00\x00\x01\x00\x00\x00\x01\x00\x00\x00\x01\
\x00\x00\x00\x01\x00\x00\x00\x01\x00\x00\x00\x01\
\x00\x00\x00\x01\x00\x00\x00\x01\x00\x00\x00\x01\
\x00\x00\x00\x01\x00\x00\x00\x01\x00\x00\x00\x01\
\x00\x00\x00\x01\x00\x00\x00\x01\x00\x00\x00\x01\
\x00\x00\x00\x01\x00\x00\x00\x01\x00\x00\x00\x01\
\x00\x00\x00\x01\x00\x00\x00\x01\x00\x00\x00\x01\
\x00\x00\x00\x01\
\x00\x00\x00\x00\x00\x00\x00\x01\x00\x01\x00\x01\x00\x01\x00\x00\x00\x00\x00\x00\x80";

const BEFORE: &[u8] = b"as before";

/// The runs, by their numbers.
pub const RUNS: &[Sure<'static>] = &[
    (
        "grow sample=s out=o map=m record=r width=6 height=1 place=grid overlap=2 box=4 rounds=1",
        &[("s", GREYS), ("o", BEFORE), ("m", BEFORE), ("r", BEFORE)],
        "grow 6x1x1\nplacements 2\nrounds 1\nseams 120\n",
    ),
    (
        "grow sample=s sample2=t out=o map=m record=r width=2 height=1 place=grid overlap=0",
        &[
            ("s", b"P6\n1 1\n255\n\x0a\x0a\x0a"),
            ("t", b"P6\n2 1\n255\n\x14\x14\x14\x1e\x1e\x1e"),
            ("o", BEFORE),
            ("m", BEFORE),
            ("r", BEFORE),
        ],
        "grow 2x1x1\nplacements 2\nrounds 0\nseams 1530\n",
    ),
    (
        "quilt sample=s out=o map=m record=r width=6 height=1 block=4 overlap=2",
        &[("s", GREYS), ("o", BEFORE), ("m", BEFORE), ("r", BEFORE)],
        "quilt 6x1x1\nblocks 2\nboundaries 1\ncost 1200\n",
    ),
    (
        "transfer sample=s target=t out=o map=m record=r block=2 overlap=1 tol=0",
        &[
            ("s", GREYS),
            ("t", b"P6\n3 1\n255\n\x1e\x1e\x1e\x28\x28\x28\x0a\x0a\x0a"),
            ("o", BEFORE),
            ("m", BEFORE),
            ("r", BEFORE),
        ],
        "transfer 3x1x1\nblocks 2\nboundaries 1\ncost 300\nmatch 3000\n",
    ),
    (
        "loop sample=s out=o map=m record=r length=2 taps=0",
        &[("s", FRAMES), ("o", BEFORE), ("m", BEFORE), ("r", BEFORE)],
        "loop 2\nstart 0\ncost 0\n",
    ),
    (
        "merge sample=s sample2=t marks=u out=o map=m",
        &[
            ("s", GREYS),
            (
                "t",
                b"P6\n4 1\n255\n\x32\x32\x32\x19\x19\x19\x1e\x1e\x1e\x0a\x0a\x0a",
            ),
            (
                "u",
                b"P6\n4 1\n2\n\x01\x00\x00\x00\x00\x00\x00\x00\x00\x02\x00\x00",
            ),
            ("o", BEFORE),
            ("m", BEFORE),
        ],
        "merge 4x1x1\npictures 2\nseams 15\n",
    ),
    (
        "check sample=s out=o map=m record=r",
        &[("s", GREYS), ("o", PICTURE), ("m", MAP), ("r", RECORD)],
        "stands\n",
    ),
    (
        "upgrade map=m record=r newmap=n newrecord=q",
        &[("m", MAP), ("r", RECORD), ("n", BEFORE), ("q", BEFORE)],
        "upgrade 6 2\n",
    ),
    (
        "tile sample=s out=o map=m width=6 height=1 wrap=x box=4 overlap=2",
        &[("s", GREYS), ("o", BEFORE), ("m", BEFORE)],
        "tile 6x1x1\nplacements 2\nseams 1650\n",
    ),
    (
        "grow sample=s out=o map=m record=r width=1 height=1 overlap=0 turns=all",
        &[("s", ONE), ("o", BEFORE), ("m", BEFORE), ("r", BEFORE)],
        "grow 1x1x1\nplacements 1\nrounds 0\nseams 0\n",
    ),
    (
        "check sample=s out=o map=m record=r turns=all",
        &[
            ("s", ONE),
            ("o", ONE),
            ("m", TURNED_MAP),
            ("r", TURNED_RECORD),
        ],
        "stands\n",
    ),
    (
        "trial n=7 width=64 height=64 place=grid rounds=0",
        &[("o", BEFORE)],
        "trial 7\nsample 64x64x1\ngrow 64x64x1\nplacements 1\nrounds 0\nseams 0\nrecord stands\n",
    ),
];

/// How a run over sure stores ended.
#[derive(Drop)]
pub enum Surely {
    /// As it is to end where there is memory.
    Well,
    /// Out of memory, and with every file as before.
    NoMemory,
    /// With another answer, or with other files.
    Wrong,
}

fn are_files(shelf: &SureShelf, files: &[File]) -> bool {
    for (name, bytes) in files.iter() {
        if shelf.file(*name) != Some(*bytes) {
            return false;
        }
    }
    true
}

fn is_text(sink: &SureSink, text: &str) -> bool {
    sink.bytes() == Some(text.as_bytes())
}

// How a run ended, by its status and what it left.
fn judged(
    status: u8,
    shelf: &SureShelf,
    out: &SureSink,
    err: &SureSink,
    files: &[File],
    report: &str,
) -> Surely {
    if (status == 0) & is_text(out, report) & is_text(err, "") {
        return Surely::Well;
    }
    let is_refused = (status == 7) & is_text(out, "") & is_text(err, "weave: no memory\n");
    if is_refused & are_files(shelf, files) {
        return Surely::NoMemory;
    }
    Surely::Wrong
}

// Does a run over these stores, which are empty.
fn ended_on(
    alloc: Global,
    run: &Sure,
    shelf: &mut SureShelf,
    out: &mut SureSink,
    err: &mut SureSink,
) -> Result<Surely, AllocError> {
    let (words, files, report) = *run;
    for (name, bytes) in files.iter() {
        shelf.put_file(*name, *bytes);
    }
    let status = ran(alloc, words, shelf, out, err)?;
    Ok(judged(status, shelf, out, err, files, report))
}

/// Does the run of a number. The one error is that there is no memory for its stores and its
/// words. (A table that is given is no part of the proof.)
pub fn end_of(alloc: Global, runs: &[Sure], number: usize) -> Result<Surely, AllocError> {
    let Some(run) = runs.get(number) else {
        return Ok(Surely::Wrong);
    };
    let mut out = SureSink::make(alloc, 256)?;
    let mut err = SureSink::make(alloc, 256)?;
    let mut shelf = SureShelf::make(alloc, 8192)?;
    let ended = ended_on(alloc, run, &mut shelf, &mut out, &mut err);
    drop(shelf);
    drop(err);
    drop(out);
    ended
}
