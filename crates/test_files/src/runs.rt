// Small runs over a store in memory, to the byte.
ghost use Rattle.job_words.specs.Jobs.{IsJob};

use crate::expect::expect_none;
use crate::standing::{MAP, RECORD};
use crate::words::words_of;
use check_command::check_files;
use job_words::{Job, Words, read_job};
use loop_command::loop_clip;
use quilt_command::quilt_picture;
use shelf_core::{FormFault, MemShelf, MemSink, What};
use std::alloc::{AllocError, Global};
use synth_report::{Fault, FileOf, Summary};
use upgrade_command::upgrade;

/// Names with the bytes of their files.
pub type Files<'a> = &'a [(&'a str, &'a [u8])];

/// A line of words, files, other bytes of them by their places, the report or the fault, and files
/// that are there afterwards or aren't.
pub type Run<'a> = (
    &'a str,
    Files<'a>,
    &'a [(&'a str, usize, u8)],
    Result<&'a str, Fault>,
    &'a [(&'a str, Option<&'a [u8]>)],
);

// Grey cells 10, 20, 30 and 40 in a row. Over 6 cells a second block overlaps two cells whose
// errors are both 1,200: the boundary is in column 0. The out file has the sample's maxval.
const GREYS: &[u8] = b"P6\n4 1\n60\n\x0a\x0a\x0a\x14\x14\x14\x1e\x1e\x1e\x28\x28\x28";

const GREY_QUILT: &[u8] =
    b"P6\n6 1\n60\n\x0a\x0a\x0a\x14\x14\x14\x0a\x0a\x0a\x14\x14\x14\x1e\x1e\x1e\x28\x28\x28";

const GREY_RECORD: &[u8; 76] =
    b"WEAVEREC\x01\x01\0\0\0\x06\0\0\0\x01\0\0\0\x01\0\0\0\x04\0\0\0\x01\0\0\0\x01\
    \0\0\0\x02\
    \0\0\0\0\0\x04\0\x01\0\0\0\0\0\
    \0\x02\0\0\0\x04\0\x01\0\0\0\0\x01\0\x02\0\0\0\0\x04\xb0\0\0\x04\xb0";

const NO_PICTURE: Fault = Fault::Form {
    file: FileOf::Sample,
    why: FormFault::Form(0),
};

const TOO_LARGE: Fault = Fault::Limit {
    what: What::Output,
    number: 1_049_600,
    bound: 1_048_576,
};

const QUILTS: &[Run<'static>] = &[
    (
        "quilt sample=s out=o map=m record=r width=6 height=1 block=4 overlap=2",
        &[("s", GREYS)],
        &[],
        Ok("quilt 6x1x1\nblocks 2\nboundaries 1\ncost 1200\n"),
        &[("o", Some(GREY_QUILT)), ("r", Some(GREY_RECORD))],
    ),
    // A clip isn't read, and an output of too many cells isn't begun.
    (
        "quilt sample=s out=o map=m record=r width=1 height=1",
        &[("s", b"YUV4MPEG2 W1 H1\n")],
        &[],
        Err(NO_PICTURE),
        &[("o", None)],
    ),
    (
        "quilt sample=s out=o map=m record=r width=1025 height=1024",
        &[("s", GREYS)],
        &[],
        Err(TOO_LARGE),
        &[("o", None)],
    ),
];

// Clips of one grey cell a frame: 0 and 3; then 0; then 3.
const TWO: &[u8] = b"YUV4MPEG2 W1 H1 F25:1 Cmono\nFRAME\n\x00FRAME\n\x03";

const THREE: &[u8] = b"YUV4MPEG2 W1 H1 F25:1 Cmono\nFRAME\n\x00FRAME\n\x03FRAME\n\x00";

const FOUR: &[u8] = b"YUV4MPEG2 W1 H1 F25:1 Cmono\nFRAME\n\x00FRAME\n\x03FRAME\n\x00FRAME\n\x03";

const PIXEL: &[u8] = b"P6\n1 1\n255\n\0\0\0";

// Frames 0 and 1, and the table of the least costs of two steps.
const TWO_MAP: &[u8] =
    b"WEAVEMAP\x01\x01\0\0\0\x01\0\0\0\x01\0\0\0\x02\0\0\0\x01\0\0\0\x01\0\0\0\x04\
\0\0\0\x01";

const TWO_RECORD: &[u8] =
    b"WEAVEREC\x01\x02\0\0\0\x01\0\0\0\x01\0\0\0\x02\0\0\0\x01\0\0\0\x01\0\0\0\x04\
\0\0\0\x02\0\0\x01\0\0\0\x01\
\0\0\0\0\0\0\0\0\0\0\0\0\0\0\0\x09\0\0\0\0\0\0\0\0\0\0\0\0\0\0\0\x09\
\0\0\0\0\0\0\0\x09\0\0\0\0\0\0\0\0\0\0\0\0\0\0\0\x09\0\0\0\0\0\0\0\0\
\0\0\0\0\0\0\0\0\0\0\0\0\0\0\0\x09\0\0\0\0\0\0\0\0\0\0\0\0\0\0\0\x09\
\xff\xff\xff\xff\xff\xff\xff\xff\xff\xff\xff\xff\xff\xff\xff\xff\
\xff\xff\xff\xff\xff\xff\xff\xff\xff\xff\xff\xff\xff\xff\xff\xff";

const LOOPS: &[Run<'static>] = &[
    (
        "loop sample=s out=o map=m record=r length=1 taps=0",
        &[("s", FOUR)],
        &[],
        Ok("loop 1\nstart 0\ncost 9\n"),
        &[],
    ),
    (
        "loop sample=s out=o map=m record=r length=2 taps=0",
        &[("s", FOUR)],
        &[],
        Ok("loop 2\nstart 0\ncost 0\n"),
        &[],
    ),
    (
        "loop sample=s out=o map=m record=r length=3 taps=0",
        &[("s", FOUR)],
        &[],
        Ok("loop 3\nstart 0\ncost 9\n"),
        &[],
    ),
    (
        "loop sample=s out=o map=m record=r length=2 taps=0 gap=3",
        &[("s", TWO)],
        &[],
        Err(Fault::NoLoop(2)),
        &[],
    ),
    (
        "loop sample=s out=o map=m record=r length=3",
        &[("s", THREE)],
        &[],
        Err(Fault::NoLoop(3)),
        &[],
    ),
    (
        "loop sample=s out=o map=m record=r length=1",
        &[("s", PIXEL)],
        &[],
        Err(NO_PICTURE),
        &[],
    ),
    (
        "loop sample=s out=o map=m record=r length=2 taps=0 gap=1",
        &[("s", FOUR)],
        &[],
        Ok("loop 2\nstart 0\ncost 0\n"),
        &[
            ("o", Some(TWO)),
            ("m", Some(TWO_MAP)),
            ("r", Some(TWO_RECORD)),
        ],
    ),
];

// The map of cells 0, 1, 2, 1, 2 and 3 of a sample, in version 2.
const NEW_MAP: &[u8; 84] =
    b"WEAVEMAP\x02\x00\0\0\0\x06\0\0\0\x01\0\0\0\x01\0\x01\0\0\0\x04\0\0\0\x01\0\0\0\x01\
    \0\x01\0\0\0\0\0\0\0\x01\0\x01\0\0\0\0\0\x01\0\x02\0\0\0\0\
    \0\x01\0\x01\0\0\0\0\0\x01\0\x02\0\0\0\0\0\x01\0\x03\0\0\0\0";

// Its records in version 2.
const NEW_RECORD: &[u8; 106] =
    b"WEAVEREC\x02\x00\0\0\0\x06\0\0\0\x01\0\0\0\x01\0\x01\0\0\0\x04\0\0\0\x01\0\0\0\x01\
    \0\0\0\x02\
    \0\0\0\0\0\0\0\x04\0\x01\0\x01\0\x01\0\0\0\0\0\0\xf0\0\0\0\0\0\0\0\0\0\0\0\0\
    \0\x02\0\0\0\0\0\x04\0\x01\0\x01\0\x01\0\0\0\0\0\0\x70\0\x78\0\x78\0\x78\0\0\0\0\0\0";

const UPGRADE: &str = "upgrade map=m record=r newmap=n newrecord=s";

// The file that is refused, and where.
const LATER_MAP: Fault = Fault::Form {
    file: FileOf::Map,
    why: FormFault::Form(8),
};

const FRAMES_MAP: Fault = Fault::Form {
    file: FileOf::Map,
    why: FormFault::Form(9),
};

const LATER_RECORD: Fault = Fault::Form {
    file: FileOf::Record,
    why: FormFault::Form(8),
};

const UPGRADES: &[Run<'static>] = &[
    (
        UPGRADE,
        &[("m", MAP), ("r", RECORD)],
        &[],
        Ok("upgrade 6 2\n"),
        &[("n", Some(NEW_MAP)), ("s", Some(NEW_RECORD))],
    ),
    (
        UPGRADE,
        &[("m", NEW_MAP), ("r", RECORD)],
        &[],
        Err(LATER_MAP),
        &[],
    ),
    (
        UPGRADE,
        &[("m", b"WEAVEMAP\x02\x07"), ("r", RECORD)],
        &[],
        Err(LATER_MAP),
        &[],
    ),
    (
        UPGRADE,
        &[("m", b"WEAVEMAP\x01\x01"), ("r", RECORD)],
        &[],
        Err(FRAMES_MAP),
        &[],
    ),
    (
        UPGRADE,
        &[("m", MAP), ("r", NEW_RECORD)],
        &[],
        Err(LATER_RECORD),
        &[],
    ),
];

// Some bytes of a file, with others at some places.
fn with_others(
    alloc: Global,
    name: &str,
    bytes: &[u8],
    others: &[(&str, usize, u8)],
) -> Result<Vec<u8>, AllocError> {
    let mut all = Vec::from_slice(alloc, bytes)?;
    for (of, at, byte) in others {
        if *of == name {
            if let Some(old) = all.get_mut(*at) {
                *old = *byte;
            }
        }
    }
    Ok(all)
}

fn put_files(alloc: Global, shelf: &mut MemShelf, run: &Run) -> Result<(), AllocError> {
    for (name, bytes) in run.1 {
        let bytes = with_others(alloc, name, *bytes, run.2)?;
        shelf.put_file(name, &bytes)?;
    }
    Ok(())
}

// What a job answers. Those of other commands than these four aren't run.
fn done(alloc: Global, job: &Job, shelf: &mut MemShelf, out: &mut MemSink) -> Result<Summary, Fault>
    requires { IsJob job.now }
{
    match job {
        Job::Quilt(job) => quilt_picture(alloc, job, shelf, out),
        Job::Loop(job) => loop_clip(alloc, job, shelf, out),
        Job::Upgrade(job) => upgrade(alloc, job, shelf, out),
        Job::Check(job) => check_files(alloc, job, shelf, out),
        _ => Err(Fault::NoMemory),
    }
}

// What words answer over a store. (The end of a job, spelled out in this function, would be long
// to prove: `drop` has it proved by itself.)
fn answer_to(
    alloc: Global,
    words: &Words,
    shelf: &mut MemShelf,
    out: &mut MemSink,
) -> Result<Summary, Fault> {
    match read_job(alloc, words) {
        Ok(job) => {
            let said = done(alloc, &job, shelf, out);
            drop(job);
            said
        }
        Err(fault) => Err(Fault::Words(fault)),
    }
}

// Whether files are as a run leaves them.
fn has_files(shelf: &MemShelf, left: &[(&str, Option<&[u8]>)]) -> bool {
    for (name, bytes) in left {
        if shelf.file(name) != *bytes {
            return false;
        }
    }
    true
}

// Whether a run over a store answers and leaves what it should.
fn goes_so(
    alloc: Global,
    run: &Run,
    shelf: &mut MemShelf,
    out: &mut MemSink,
) -> Result<bool, AllocError> {
    put_files(alloc, shelf, run)?;
    let words = words_of(alloc, run.0)?;
    let said = answer_to(alloc, &words, shelf, out);
    let is_answer = match (said, run.3) {
        (Ok(_), Ok(report)) => out.bytes() == report.as_bytes(),
        (Err(fault), Err(other)) => fault == other,
        _ => false,
    };
    Ok(is_answer && has_files(shelf, run.4))
}

// (A store is owned by a function that only lends it: each place where it ends is long to prove.)
fn is_right(alloc: Global, run: &Run) -> Result<bool, AllocError> {
    let mut shelf = MemShelf::new(alloc);
    let mut out = MemSink::new(alloc);
    goes_so(alloc, run, &mut shelf, &mut out)
}

/// The number of the first run, from 0, that goes otherwise.
pub fn wrong_run(alloc: Global, table: &[Run]) -> Result<Option<usize>, AllocError> {
    for (i, run) in table.iter().enumerate() {
        if !is_right(alloc, run)? {
            return Ok(Some(i));
        }
    }
    Ok(None)
}

#[test]
fn runs(rt: HostRuntime) {
    let alloc = rt.alloc();
    expect_none(&rt, wrong_run(alloc, QUILTS));
    expect_none(&rt, wrong_run(alloc, LOOPS));
    expect_none(&rt, wrong_run(alloc, UPGRADES));
}
