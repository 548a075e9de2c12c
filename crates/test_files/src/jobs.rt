// The words of all commands, by the call that reads any of them.
use crate::expect::expect_none;
use crate::words::words_of;
use cells::{Axis, Size};
use job_words::{Job, Key, Name, Names, Place, Taps, TilePlan, WordFault, read_job};
use std::alloc::Global;

fn read(alloc: Global, line: &str) -> Result<Job, WordFault> {
    let words = words_of(alloc, line)?;
    read_job(alloc, &words)
}

// Why words are refused, and lines of such words, one below another.
const REFUSED: &[(WordFault, &str)] = &[
    (
        WordFault::UnknownCommand,
        "\n\
        transfer |\n\
        grow |\n\
        tile |",
    ),
    (
        WordFault::Missing(Key::Sample),
        "transfer\n\
        merge\n\
        tile\n\
        grow\n\
        grow sample2=b",
    ),
    (
        WordFault::UnknownKey(2),
        "transfer turns=all\n\
        merge record=r\n\
        grow block=4\n\
        quilt turns=all\n\
        loop turns=none\n\
        trial turns=all\n\
        upgrade turns=all\n\
        tile turns=all\n\
        merge turns=all\n\
        grow sample1=a\n\
        grow sample02=a\n\
        grow sample17=a\n\
        grow Sample=a\n\
        grow größe=7\n\
        quilt sample2=b\n\
        quilt frames=1\n\
        upgrade sample=a\n\
        transfer width=7\n\
        transfer sample2=b\n\
        merge sample17=q\n\
        tile record=r\n\
        tile rounds=1\n\
        tile place=sub",
    ),
    (
        WordFault::Missing(Key::More(2)),
        "merge sample=a\n\
        grow sample=a sample3=c\n\
        merge sample3=c sample=a",
    ),
    (
        WordFault::BadWord(2),
        "grow sample\n\
        grow sample=\n\
        grow =x\n\
        grow turns=\n\
        grow sample width=0\n\
        transfer alpha=\n\
        tile wrap=\n\
        grow|",
    ),
    (
        WordFault::BadValue(2),
        "grow turns=yes\n\
        grow turns=ALL\n\
        check turns=1\n\
        grow place=best\n\
        grow height=+7\n\
        loop taps=two\n\
        transfer alpha=-1\n\
        transfer alpha=half\n\
        tile wrap=yx\n\
        tile wrap=none\n\
        tile wrap=X\n\
        grow|height=7 ",
    ),
    (
        WordFault::Repeated(3),
        "grow turns=all turns=none\n\
        grow width=7 width=8\n\
        grow width=7 width=x\n\
        transfer alpha=050 alpha=50\n\
        tile wrap=x wrap=y",
    ),
    (
        WordFault::OutOfRange(2),
        "grow width=0\n\
        grow width=4097\n\
        grow frames=4097\n\
        grow box=0\n\
        grow overlap=4096\n\
        grow tol=1001\n\
        grow rounds=1001\n\
        grow seed=18446744073709551616\n\
        grow width=0 sample\n\
        quilt block=4097\n\
        loop taps=3\n\
        loop gap=0\n\
        loop gap=257\n\
        transfer alpha=101\n\
        transfer alpha=0101\n\
        transfer block=0\n\
        transfer overlap=4096\n\
        tile box=4097",
    ),
    (
        WordFault::SameName(3),
        "grow out=a map=a\n\
        grow sample16=a sample2=a\n\
        upgrade newmap=m map=m\n\
        transfer target=a sample=a\n\
        transfer target=a out=a\n\
        transfer target=a map=a\n\
        transfer record=a target=a\n\
        merge sample2=a marks=a\n\
        merge marks=a out=a\n\
        tile out=a map=a",
    ),
    (
        WordFault::Missing(Key::Out),
        "grow sample=a sample2=b\n\
        grow record=d map=c sample=a width=1\n\
        transfer target=b sample=a\n\
        merge sample=a sample2=b marks=m\n\
        tile sample=a",
    ),
    (
        WordFault::Missing(Key::Height),
        "grow record=d map=c sample=a out=b width=1\n\
        tile sample=a out=o map=m width=2 wrap=x",
    ),
    (
        WordFault::Missing(Key::Length),
        "loop sample=a out=b map=c record=d",
    ),
    (
        WordFault::Missing(Key::NewMap),
        "upgrade newrecord=d map=a record=b",
    ),
    (WordFault::Missing(Key::Target), "transfer sample=a"),
    (
        WordFault::Missing(Key::Map),
        "transfer out=c target=b sample=a\n\
        merge sample=a sample2=b marks=m out=o\n\
        tile sample=a out=o",
    ),
    (
        WordFault::Missing(Key::Record),
        "transfer map=d out=c target=b sample=a",
    ),
    (
        WordFault::Missing(Key::More(3)),
        "merge sample4=d sample2=b sample=a",
    ),
    (WordFault::Missing(Key::Marks), "merge sample=a sample2=b"),
    (WordFault::Missing(Key::Width), "tile sample=a out=o map=m"),
    (
        WordFault::Narrow(Axis::X),
        "tile sample=a out=o map=m width=2 height=3\n\
        tile sample=a out=o map=m width=1 height=1 wrap=xyf",
    ),
    (
        WordFault::Narrow(Axis::Y),
        "tile sample=a out=o map=m width=3 height=2\n\
        tile sample=a out=o map=m width=2 height=1 wrap=y",
    ),
    (
        WordFault::Narrow(Axis::F),
        "tile sample=a out=o map=m width=9 height=9 wrap=f\n\
        tile frames=2 sample=a out=o map=m width=3 height=3 wrap=xyf",
    ),
    (
        WordFault::BadValue(5),
        "tile width=2 height=2 wrap=xy seed=-1",
    ),
    // Numbers of 400 digits.
    (WordFault::OutOfRange(2), NINES),
    (WordFault::OutOfRange(2), ZEROS),
];

const NINES: &str = "grow width=\
    99999999999999999999999999999999999999999999999999999999999999999999999999999999\
    99999999999999999999999999999999999999999999999999999999999999999999999999999999\
    99999999999999999999999999999999999999999999999999999999999999999999999999999999\
    99999999999999999999999999999999999999999999999999999999999999999999999999999999\
    99999999999999999999999999999999999999999999999999999999999999999999999999999999";

const ZEROS: &str = "grow width=\
    00000000000000000000000000000000000000000000000000000000000000000000000000000000\
    00000000000000000000000000000000000000000000000000000000000000000000000000000000\
    00000000000000000000000000000000000000000000000000000000000000000000000000000000\
    00000000000000000000000000000000000000000000000000000000000000000000000000000000\
    00000000000000000000000000000000000000000000000000000000000000000000000000000000";

// The number of the first of some lines, from 0, that isn't refused so.
fn wrong_line(alloc: Global, lines: &str, fault: WordFault) -> Option<usize> {
    for (i, line) in lines.split('\n').enumerate() {
        if read(alloc, line).err() != Some(fault) {
            return Some(i);
        }
    }
    None
}

// The number of the first row, from 0, times 100, plus that of its first line that isn't refused
// so.
fn wrong_words(alloc: Global) -> Option<usize> {
    for (i, (fault, lines)) in REFUSED.iter().enumerate() {
        if let Some(j) = wrong_line(alloc, lines, *fault) {
            return Some(i.wrapping_mul(100).wrapping_add(j));
        }
    }
    None
}

#[test]
fn refusals(rt: HostRuntime) {
    expect_none(&rt, Ok(wrong_words(rt.alloc())));
}

// Whether a job has these names, those of further samples last.
fn are_names(names: &[&Name], more: &[Name], texts: &[&str]) -> bool {
    for (i, text) in texts.iter().enumerate() {
        let name = match names.get(i) {
            Some(name) => Some(*name),
            None => more.get(i.wrapping_sub(names.len())),
        };
        match name {
            Some(name) if name.as_text() == *text => {}
            _ => return false,
        }
    }
    texts.len() == names.len().wrapping_add(more.len())
}

// A line of words, and what it asks for: the names of files, the numbers of the job in the order
// of `is_asked` and `is_other`, and the seed. The target of each transfer is `t`.
type Row<'a> = (&'a str, &'a [&'a str], &'a [u32], u64);

fn has_files(names: &Names, row: &Row) -> bool {
    let files = [&names.sample, &names.out, &names.map, &names.record_file];
    are_names(&files, names.more.as_slice(), row.1)
}

fn has_numbers(numbers: &[u32], seed: u64, row: &Row) -> bool {
    numbers == row.2 && seed == row.3
}

// Whether a job of one of three commands is what a row says.
fn is_other(job: &Job, row: &Row) -> bool {
    match job {
        Job::Merge(job) => {
            let files = [&job.sample, &job.marks, &job.out, &job.map];
            are_names(&files, job.more.as_slice(), row.1)
        }
        Job::Tile(job) => {
            let Size { w, h, f } = job.size;
            let TilePlan {
                wrap,
                side,
                overlap,
                tol,
            } = job.plan;
            let [x, y, z] = [u32::from(wrap.x), u32::from(wrap.y), u32::from(wrap.f)];
            let numbers = [w, h, f, x, y, z, side, overlap, tol];
            let files = [&job.sample, &job.out, &job.map];
            are_names(&files, &[], row.1) && has_numbers(&numbers, job.seed, row)
        }
        Job::Upgrade(job) => {
            let files = [
                &job.map,
                &job.record_file,
                &job.new_map,
                &job.new_record_file,
            ];
            are_names(&files, &[], row.1)
        }
        _ => false,
    }
}

// Whether a job is what a row says.
fn is_asked(job: &Job, row: &Row) -> bool {
    match job {
        Job::Grow(job) => {
            let Size { w, h, f } = job.size;
            let is_sub = u32::from(job.place == Place::Sub);
            let is_random = u32::from(job.place == Place::Random);
            let turns = u32::from(job.turns);
            let (side, overlap, tol) = (job.side, job.overlap, job.tol);
            let numbers = [
                w, h, f, is_sub, is_random, side, overlap, tol, job.rounds, turns,
            ];
            has_files(&job.names, row) && has_numbers(&numbers, job.seed, row)
        }
        Job::Quilt(job) => {
            let numbers = [job.w, job.h, job.block, job.overlap, job.tol];
            has_files(&job.names, row) && has_numbers(&numbers, job.seed, row)
        }
        Job::Loop(job) => {
            let numbers = [job.length, u32::from(job.taps == Taps::Four), job.gap];
            has_files(&job.names, row) && has_numbers(&numbers, 0, row)
        }
        Job::Check(job) => {
            has_files(&job.names, row) && has_numbers(&[u32::from(job.turns)], 0, row)
        }
        Job::Transfer(job) => {
            let numbers = [job.block, job.overlap, job.tol, job.alpha];
            let is_target = job.target.as_text() == "t";
            is_target && has_files(&job.names, row) && has_numbers(&numbers, job.seed, row)
        }
        _ => is_other(job, row),
    }
}

// Whether words are read as a job that has what a row says. (The end of a job, spelled out in this
// function, would be most of the proof of all tests: `drop` has it proved by itself.)
fn is_read(alloc: Global, row: &Row) -> bool {
    match read(alloc, row.0) {
        Ok(job) => {
            let is_asked = is_asked(&job, row);
            drop(job);
            is_asked
        }
        Err(_) => false,
    }
}

// With a height of 7 that has 399 zeros before it.
const DEFAULT_WORDS: &str = "grow width=4096 record=d height=\
    00000000000000000000000000000000000000000000000000000000000000000000000000000000\
    00000000000000000000000000000000000000000000000000000000000000000000000000000000\
    00000000000000000000000000000000000000000000000000000000000000000000000000000000\
    00000000000000000000000000000000000000000000000000000000000000000000000000000000\
    00000000000000000000000000000000000000000000000000000000000000000000000000000007 \
    map=größe=x sample=a out=place";

const ALL_KEYS: &str = "grow seed=18446744073709551615 rounds=1000 tol=01000 overlap=4095 box=4096 \
    place=random frames=3 height=1 width=2 record=r map=m out=o sample3=c sample=a \
    sample2=b turns=all";

const ALL_OF_TRANSFER: &str =
    "transfer seed=18446744073709551615 alpha=100 tol=1000 overlap=4095 block=4096 sample=s \
    target=t out=o map=m record=r";

const ALL_OF_TILE: &str =
    "tile seed=18446744073709551615 tol=1000 overlap=4095 box=4096 wrap=xyf frames=3 \
    height=4096 width=3 map=m out=o sample=a";

const FILES: &[&str] = &["a", "o", "m", "r"];

const THREE: &[&str] = &["a", "o", "m"];

const PAINTED: &[&str] = &["s", "o", "m", "r"];

const READ: &[Row<'static>] = &[
    (
        DEFAULT_WORDS,
        &["a", "place", "größe=x", "d"],
        &[4096, 7, 1, 1, 0, 32, 8, 10, 0, 0],
        0,
    ),
    (
        ALL_KEYS,
        &["a", "o", "m", "r", "b", "c"],
        &[2, 1, 3, 0, 1, 4096, 4095, 1000, 1000, 1],
        u64::MAX,
    ),
    ("check sample=a out=o map=m record=r", FILES, &[0], 0),
    (
        "check sample=a out=o map=m record=r turns=none",
        FILES,
        &[0],
        0,
    ),
    (
        "check turns=all sample=a out=o map=m record=r",
        FILES,
        &[1],
        0,
    ),
    (
        "quilt sample=a height=2 out=o map=m record=r width=3",
        FILES,
        &[3, 2, 32, 5, 10],
        0,
    ),
    (
        "loop sample=a out=o map=m record=r length=7",
        FILES,
        &[7, 1, 1],
        0,
    ),
    (
        "upgrade newrecord=d newmap=c record=b map=a",
        &["a", "b", "c", "d"],
        &[],
        0,
    ),
    (
        "tile sample=a out=o map=m width=3 height=3 seed=7",
        THREE,
        &[3, 3, 1, 1, 1, 0, 32, 8, 10],
        7,
    ),
    (
        "tile height=3 width=3 map=m out=o sample=a",
        THREE,
        &[3, 3, 1, 1, 1, 0, 32, 8, 10],
        0,
    ),
    (
        ALL_OF_TILE,
        THREE,
        &[3, 4096, 3, 1, 1, 1, 4096, 4095, 1000],
        u64::MAX,
    ),
    (
        "tile sample=a out=o map=m wrap=x width=3 height=1 frames=1",
        THREE,
        &[3, 1, 1, 1, 0, 0, 32, 8, 10],
        0,
    ),
    (
        "tile sample=a out=o map=m wrap=y width=1 height=3 frames=1",
        THREE,
        &[1, 3, 1, 0, 1, 0, 32, 8, 10],
        0,
    ),
    (
        "tile sample=a out=o map=m wrap=xy width=3 height=3 frames=1",
        THREE,
        &[3, 3, 1, 1, 1, 0, 32, 8, 10],
        0,
    ),
    (
        "tile sample=a out=o map=m wrap=f width=1 height=1 frames=3",
        THREE,
        &[1, 1, 3, 0, 0, 1, 32, 8, 10],
        0,
    ),
    (
        "transfer record=r map=m out=o target=t sample=s",
        PAINTED,
        &[32, 5, 10, 50],
        0,
    ),
    (
        "transfer sample=s target=t out=o map=m record=r block=1 overlap=0 tol=0 alpha=070",
        PAINTED,
        &[1, 0, 0, 70],
        0,
    ),
    (ALL_OF_TRANSFER, PAINTED, &[4096, 4095, 1000, 100], u64::MAX),
    (
        "merge map=m out=o marks=k sample2=b sample=a",
        &["a", "k", "o", "m", "b"],
        &[],
        0,
    ),
    (
        "merge sample4=d sample3=c map=m out=o marks=k sample2=b sample=a",
        &["a", "k", "o", "m", "b", "c", "d"],
        &[],
        0,
    ),
];

// The number of the first words, from 0, that aren't read so.
fn wrong_read(alloc: Global) -> Option<usize> {
    for (i, row) in READ.iter().enumerate() {
        if !is_read(alloc, row) {
            return Some(i);
        }
    }
    None
}

#[test]
fn jobs_that_words_ask_for(rt: HostRuntime) {
    expect_none(&rt, Ok(wrong_read(rt.alloc())));
}
