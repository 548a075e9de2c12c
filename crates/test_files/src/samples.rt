// Samples that are joined, turned or refused, and targets.
use crate::expect::expect_none;
use crate::words::words_of;
use cells::{At, Size};
use job_words::Name;
use limits::MOST_PARTS;
use sample_files::{Form, Samples, parts_within, read_samples, read_target};
use shelf_core::{FormFault, MemShelf, What};
use std::alloc::{AllocError, Global};
use synth_report::{Fault, FileOf};

// What is read: samples, samples with their turns, or a target beside a sample of maxval 15.
#[derive(Drop)]
enum Kind {
    Plain,
    Turned,
    Target,
}

// The maxval of pictures or the number of tags of clips; the size of a part, by its number; and a
// cell.
type Joined<'a> = (usize, u32, Size, At, &'a [u8]);

// The names of files, what is read, the files `s` and `t`, and why they are refused, or what three
// samples are once they are joined.
type Row<'a> = (
    &'a str,
    Kind,
    &'a [u8],
    &'a [u8],
    Result<Option<Joined<'a>>, Fault>,
);

const TWO_GREY: &[u8] = b"P6\n2 1\n255\n\x0a\x0a\x0a\x14\x14\x14";

const THREE_COLOURS: &[u8] = b"P6\n1 3\n255\n\x01\x02\x03\x04\x05\x06\x07\x08\x09";

const OF_MAXVAL_15: &[u8] = b"P6\n1 1\n15\n\x01\x02\x03";

const TWO_MONO: &[u8] = b"YUV4MPEG2 W2 H1 Cmono\nFRAME\n\x0a\x14FRAME\n\x1e\x28";

const MONO_WITH_TAGS: &[u8] = b"YUV4MPEG2 W1 H1 F25:1 Cmono\nFRAME\n\x32";

const MONO: &[u8] = b"YUV4MPEG2 W2 H1 Cmono\nFRAME\n\x0a\x14";

const OF_444: &[u8] = b"YUV4MPEG2 W1 H1 C444\nFRAME\n\x01\x02\x03";

const OF_422: &[u8] = b"YUV4MPEG2 W2 H1 C422\nFRAME\n\x01\x02\x03\x04";

const OF_411: &[u8] = b"YUV4MPEG2 W4 H1 C411\nFRAME\n\x01\x02\x03\x04\x05\x06";

const OF_420: &[u8] = b"YUV4MPEG2 W2 H2 C420\nFRAME\n\x01\x02\x03\x04\x05\x06";

const SIXTEEN: &str = "s s s s s s s s s s s s s s s s";

const SECOND: FileOf = FileOf::More(2);

const UNLIKE: Fault = Fault::Unlike(SECOND);

const NO_TURN: Fault = Fault::Form {
    file: FileOf::Sample,
    why: FormFault::Space,
};

const BROKEN: Fault = Fault::Form {
    file: SECOND,
    why: FormFault::Form(5),
};

const NO_PICTURE: Fault = Fault::Form {
    file: SECOND,
    why: FormFault::Form(2),
};

const NO_CLIP: Fault = Fault::Form {
    file: SECOND,
    why: FormFault::Form(1),
};

const NOTHING: Fault = Fault::Form {
    file: SECOND,
    why: FormFault::Form(0),
};

const CUT: Fault = Fault::Form {
    file: FileOf::Target,
    why: FormFault::Form(12),
};

const CLIP: Fault = Fault::Form {
    file: FileOf::Target,
    why: FormFault::Form(0),
};

const TOO_MANY: Fault = Fault::Limit {
    what: What::Parts,
    number: 24,
    bound: 16,
};

// Pictures of two cells, of three below one another, and of two; and clips of two frames, of one,
// and of two.
const ROWS: &[Row<'static>] = &[
    (
        "s t s",
        Kind::Plain,
        TWO_GREY,
        THREE_COLOURS,
        Ok(Some((
            255,
            2,
            Size { w: 1, h: 3, f: 1 },
            At { x: 0, y: 2, f: 2 },
            b"\x07\x08\x09",
        ))),
    ),
    (
        "s t s",
        Kind::Plain,
        TWO_GREY,
        THREE_COLOURS,
        Ok(Some((
            255,
            3,
            Size { w: 2, h: 1, f: 1 },
            At { x: 1, y: 0, f: 4 },
            b"\x14\x14\x14",
        ))),
    ),
    (
        "s t s",
        Kind::Plain,
        TWO_MONO,
        MONO_WITH_TAGS,
        Ok(Some((
            1,
            3,
            Size { w: 2, h: 1, f: 2 },
            At { x: 1, y: 0, f: 6 },
            b"\x28",
        ))),
    ),
    ("s t u", Kind::Plain, TWO_GREY, OF_MAXVAL_15, Err(UNLIKE)),
    ("s t u", Kind::Plain, OF_MAXVAL_15, TWO_GREY, Err(UNLIKE)),
    ("s t u", Kind::Plain, TWO_GREY, TWO_MONO, Err(UNLIKE)),
    ("s t u", Kind::Plain, OF_444, TWO_GREY, Err(UNLIKE)),
    ("s t u", Kind::Plain, OF_444, TWO_MONO, Err(UNLIKE)),
    ("s t u", Kind::Plain, TWO_GREY, b"P6\n1 x", Err(BROKEN)),
    ("s t u", Kind::Plain, TWO_MONO, b"Y", Err(NO_CLIP)),
    ("s t u", Kind::Plain, TWO_MONO, b"", Err(NOTHING)),
    (
        "s t u",
        Kind::Plain,
        TWO_GREY,
        TWO_GREY,
        Err(Fault::Read(FileOf::More(3))),
    ),
    // Two samples with turns and without.
    ("s t", Kind::Turned, TWO_GREY, TWO_GREY, Ok(None)),
    ("s t", Kind::Plain, TWO_GREY, TWO_GREY, Ok(None)),
    ("s t", Kind::Turned, MONO, MONO, Ok(None)),
    ("s t", Kind::Plain, MONO, MONO, Ok(None)),
    ("s t", Kind::Turned, OF_444, OF_444, Ok(None)),
    ("s t", Kind::Plain, OF_444, OF_444, Ok(None)),
    ("s t", Kind::Turned, OF_422, OF_422, Err(NO_TURN)),
    ("s t", Kind::Plain, OF_422, OF_422, Ok(None)),
    ("s t", Kind::Turned, OF_411, OF_411, Err(NO_TURN)),
    ("s t", Kind::Plain, OF_411, OF_411, Ok(None)),
    ("s t", Kind::Turned, OF_420, OF_420, Err(NO_TURN)),
    ("s t", Kind::Plain, OF_420, OF_420, Ok(None)),
    ("s t", Kind::Turned, OF_420, TWO_GREY, Err(NO_TURN)),
    ("s t", Kind::Plain, OF_420, TWO_GREY, Err(UNLIKE)),
    ("s t", Kind::Turned, OF_444, OF_420, Err(UNLIKE)),
    ("s t", Kind::Plain, OF_444, OF_420, Err(UNLIKE)),
    ("s t", Kind::Turned, OF_420, b"P6", Err(NO_TURN)),
    ("s t", Kind::Plain, OF_420, b"P6", Err(NO_PICTURE)),
    // As many parts as there may be, and too many.
    (SIXTEEN, Kind::Plain, TWO_GREY, b"", Ok(None)),
    ("s t s", Kind::Turned, TWO_GREY, TWO_GREY, Err(TOO_MANY)),
    (
        "t",
        Kind::Target,
        b"",
        b"P6\n1 1\n15\n\x01\x02\x03",
        Ok(None),
    ),
    (
        "t",
        Kind::Target,
        b"",
        b"P6\n1 2\n15\n\x01\x02\x03\x04\x05\x06",
        Ok(None),
    ),
    (
        "t",
        Kind::Target,
        b"",
        b"P6\n1 1\n16\n\x01\x02\x03",
        Err(Fault::Unlike(FileOf::Target)),
    ),
    ("t", Kind::Target, b"", b"P6\n1 1\n15\n\x01\x02", Err(CUT)),
    (
        "t",
        Kind::Target,
        b"",
        b"YUV4MPEG2 W1 H1 Cmono\nFRAME\n\x01",
        Err(CLIP),
    ),
];

// Reads samples, the first and more.
fn read_named(
    alloc: Global,
    shelf: &mut MemShelf,
    turns: bool,
    first: &Name,
    more: &[Name],
) -> Result<Samples, Fault> {
    if more.len() >= MOST_PARTS as usize {
        return Err(Fault::NoMemory);
    }
    parts_within(turns, more.len() + 1)?;
    read_samples(alloc, shelf, turns, first, more)
}

fn are_joined(samples: &Samples, joined: &Joined) -> bool {
    let (number, part, size, at, cell) = *joined;
    let found = match &samples.form {
        Form::Picture { maxval } => usize::from(*maxval),
        Form::Clip { form } => form.tags.as_slice().len(),
    };
    let sizes = samples.volume.sizes();
    let is_part = 1 <= part && part <= sizes.len() && sizes.at(part) == size;
    let is_cell = samples.volume.cell(at) == Some(cell);
    (found == number) & (sizes.len() == 3) & is_part & is_cell
}

// Whether samples are what a row says.
fn are_answered(samples: &Result<Samples, Fault>, want: &Result<Option<Joined>, Fault>) -> bool {
    match (samples, want) {
        (Ok(samples), Ok(Some(joined))) => are_joined(samples, joined),
        (Ok(_), Ok(None)) => true,
        (Err(fault), Err(other)) => *fault == *other,
        _ => false,
    }
}

// Whether the files of a store are read as a row says.
fn are_read(alloc: Global, shelf: &mut MemShelf, names: &[Name], row: &Row) -> bool {
    let [first, more @ ..] = names else {
        return false;
    };
    let turns = match row.1 {
        Kind::Plain => false,
        Kind::Turned => true,
        Kind::Target => return read_target(alloc, shelf, 15, first).err() == row.4.err(),
    };
    are_answered(&read_named(alloc, shelf, turns, first, more), &row.4)
}

// The same once the files are in the store.
fn are_put_and_read(alloc: Global, shelf: &mut MemShelf, row: &Row) -> Result<bool, AllocError> {
    shelf.put_file("s", row.2)?;
    shelf.put_file("t", row.3)?;
    let names = words_of(alloc, row.0)?;
    Ok(are_read(alloc, shelf, names.as_slice(), row))
}

fn is_right(alloc: Global, row: &Row) -> Result<bool, AllocError> {
    let mut shelf = MemShelf::new(alloc);
    are_put_and_read(alloc, &mut shelf, row)
}

// The number of the first row, from 0, whose files aren't read so.
fn wrong_row(alloc: Global) -> Result<Option<usize>, AllocError> {
    for (i, row) in ROWS.iter().enumerate() {
        if !is_right(alloc, row)? {
            return Ok(Some(i));
        }
    }
    Ok(None)
}

#[test]
fn samples(rt: HostRuntime) {
    expect_none(&rt, wrong_row(rt.alloc()));
}
