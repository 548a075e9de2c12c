// Worked examples of files of maps over turned samples: what was written by hand is read and written again, and what is cut,
// changed or longer is refused at its place.
use crate::expect::{expect_row, expect_true};
use crate::pictures::{Place, at};
use shelf_core::FormFault::Form;
use shelf_core::ReadError::{Bad, Limit};
use shelf_core::{Call, MemShelf, ReadError, What};
use source_map::read_map;
use std::alloc::Global;
use std::process::Abort;
use turned_map::{read_turned_map, write_turned_map};

// The map of one cell from a sample of one cell: sample 1, turn 0, place (0, 0, 0).
const ONE: [u8; 46] = [
    0x57, 0x45, 0x41, 0x56, 0x45, 0x4d, 0x41, 0x50, 2, 2, 0, 0, 0, 1, 0, 0, 0, 1, 0, 0, 0, 1, 0, 1,
    0, 0, 0, 1, 0, 0, 0, 1, 0, 0, 0, 1, 0, 1, 0, 0, 0, 0, 0, 0, 0, 0,
];

// The map of 3x2 cells over a sample of 2x2: its cells in columns 0 and 1, and in column 2 the mirrored sample's column 1,
// which are the cells (0, 0) and (0, 1) with turn 4.
const SIX: [u8; 96] = [
    0x57, 0x45, 0x41, 0x56, 0x45, 0x4d, 0x41, 0x50, 2, 2, 0, 0, 0, 3, 0, 0, 0, 2, 0, 0, 0, 1, 0, 1,
    0, 0, 0, 2, 0, 0, 0, 2, 0, 0, 0, 1, 0, 1, 0, 0, 0, 0, 0, 0, 0, 0, 0, 1, 0, 0, 0, 1, 0, 0, 0, 0,
    0, 1, 0, 4, 0, 0, 0, 0, 0, 0, 0, 1, 0, 0, 0, 0, 0, 1, 0, 0, 0, 1, 0, 0, 0, 1, 0, 1, 0, 0, 0, 1,
    0, 4, 0, 0, 0, 1, 0, 0,
];

// The map of 2x1 cells over samples of 1x1 and of 3x1x2: cell (2, 0, 1) of sample 2 with turn 7, and the one of sample 1
// with turn 3.
const TWO: [u8; 68] = [
    0x57, 0x45, 0x41, 0x56, 0x45, 0x4d, 0x41, 0x50, 2, 2, 0, 0, 0, 2, 0, 0, 0, 1, 0, 0, 0, 1, 0, 2,
    0, 0, 0, 1, 0, 0, 0, 1, 0, 0, 0, 1, 0, 0, 0, 3, 0, 0, 0, 1, 0, 0, 0, 2, 0, 2, 0, 7, 0, 2, 0, 0,
    0, 1, 0, 1, 0, 3, 0, 0, 0, 0, 0, 0,
];

const FILES: &[&[u8]] = &[&ONE, &SIX, &TWO];

// Puts a map in a store, reads it and writes what was read: its refusal, or else whether what was written is the same to the
// byte.
fn answer_in(alloc: Global, shelf: &mut MemShelf, bytes: &[u8]) -> Result<bool, ReadError> {
    if shelf.put_file("map", bytes).is_err() {
        return Ok(false);
    }
    let file = match read_turned_map(alloc, shelf, "map") {
        Ok(file) => file,
        Err(refusal) => return Err(refusal),
    };
    let is_written = write_turned_map(&file.map, &file.samples, shelf, "again").is_ok();
    Ok(is_written & (shelf.file("again") == Some(bytes)))
}

// The answer in a store of its own.
fn answer(alloc: Global, bytes: &[u8]) -> Result<bool, ReadError> {
    let mut shelf = MemShelf::new(alloc);
    answer_in(alloc, &mut shelf, bytes)
}

// Asserts that a map is refused where it is cut, and with a byte more at its end, and that it is read whole.
fn expect_lengths(rt: &impl Abort, alloc: Global, bytes: &[u8]) {
    let Ok(mut longer) = Vec::from_slice(alloc, bytes) else {
        rt.abort()
    };
    expect_true(rt, longer.push(0).is_ok());
    for n in 0..longer.len() {
        expect_row(
            rt,
            n,
            answer(alloc, &longer[..n]) == expected_of(n, bytes.len()),
        );
    }
    expect_true(
        rt,
        answer(alloc, &longer) == Err(Bad(Form(bytes.len() as u64))),
    );
}

// What is answered of the first bytes of a map of so many.
fn expected_of(n: usize, len: usize) -> Result<bool, ReadError> {
    if n == len {
        Ok(true)
    } else {
        Err(Bad(Form(n as u64)))
    }
}

#[test]
fn cut_and_longer_maps_are_refused(rt: HostRuntime) {
    for bytes in FILES.iter() {
        expect_lengths(&rt, rt.alloc(), *bytes);
    }
}

// A file, a cell of its map, and where the cell comes from in the turned samples. Sample 2 of the last has two frames, and
// its turns come after the eight of sample 1 with their empty frames.
const SOURCES: &[(&[u8], Place, Option<Place>)] = &[
    (&SIX, (0, 0, 0), Some((0, 0, 0))),
    (&SIX, (1, 0, 0), Some((1, 0, 0))),
    (&SIX, (2, 0, 0), Some((1, 0, 8))),
    (&SIX, (0, 1, 0), Some((0, 1, 0))),
    (&SIX, (1, 1, 0), Some((1, 1, 0))),
    (&SIX, (2, 1, 0), Some((1, 1, 8))),
    (&SIX, (3, 0, 0), None),
    (&SIX, (0, 2, 0), None),
    (&SIX, (0, 0, 1), None),
    (&TWO, (0, 0, 0), Some((0, 2, 38))),
    (&TWO, (1, 0, 0), Some((0, 0, 6))),
    (&TWO, (2, 0, 0), None),
    (&TWO, (0, 1, 0), None),
    (&TWO, (0, 0, 1), None),
];

// Whether a cell of a map comes from there.
fn is_source(rt: &impl Abort, alloc: Global, bytes: &[u8], p: Place, from: Option<Place>) -> bool {
    let mut shelf = MemShelf::new(alloc);
    expect_true(rt, shelf.put_file("map", bytes).is_ok());
    let Ok(file) = read_turned_map(alloc, &mut shelf, "map") else {
        rt.abort()
    };
    let source = file.map.at(at(p));
    match from {
        Some(from) => source == Some(at(from)),
        None => source.is_none(),
    }
}

#[test]
fn sources_are_places_of_the_turned_samples(rt: HostRuntime) {
    for (i, (bytes, p, from)) in SOURCES.iter().enumerate() {
        expect_row(&rt, i, is_source(&rt, rt.alloc(), *bytes, *p, *from));
    }
}

// A call that fails, on a file, and how many bytes it keeps of the map of one cell; what is answered, and how many writes have
// failed.
type Failing<'a> = (Call, &'a str, usize, Result<bool, ReadError>, u64);

const FAILING: &[Failing<'static>] = &[
    (Call::Begin, "again", 0, Ok(false), 1),
    (Call::Add, "again", 0, Ok(false), 1),
    (Call::Add, "again", 30, Ok(false), 1),
    (Call::Get, "map", 0, Err(ReadError::ReadFault), 0),
];

fn fails_well(rt: &impl Abort, alloc: Global, of: &Failing) -> bool {
    let (call, name, kept, answered, faults) = *of;
    let mut shelf = MemShelf::new(alloc);
    expect_true(rt, shelf.fail_at(call, name, 1, kept).is_ok());
    let found = answer_in(alloc, &mut shelf, &ONE);
    let left = shelf.file("again").unwrap_or(b"");
    (found == answered) & (shelf.write_faults() == faults) & (Some(left) == ONE.get(..kept))
}

#[test]
fn calls_that_fail(rt: HostRuntime) {
    for (i, of) in FAILING.iter().enumerate() {
        expect_row(&rt, i, fails_well(&rt, rt.alloc(), of));
    }
}

// The bytes with others from a place on.
fn changed(rt: &impl Abort, alloc: Global, bytes: &[u8], at: usize, new: &[u8]) -> Vec<u8> {
    let Ok(mut result) = Vec::from_slice(alloc, bytes) else {
        rt.abort()
    };
    for (old, byte) in result.iter_mut().skip(at).zip(new) {
        *old = *byte;
    }
    result
}

// A file, a place in it with the bytes put there, and the refusal.
type Change<'a> = (&'a [u8], usize, &'a [u8], ReadError);

const CHANGES: &[Change<'static>] = &[
    (&ONE, 7, b"Q", Bad(Form(0))),
    (&ONE, 8, &[1], Bad(Form(8))),
    (&ONE, 8, &[3], Bad(Form(8))),
    (&ONE, 9, &[0], Bad(Form(9))),
    (&ONE, 9, &[1], Bad(Form(9))),
    (&ONE, 9, &[3], Bad(Form(9))),
    (&SIX, 13, &[0], Bad(Form(10))),
    (
        &SIX,
        12,
        &[16, 1],
        Limit {
            what: What::Axis,
            number: 4097,
            bound: 4096,
        },
    ),
    (
        &SIX,
        12,
        &[16, 0, 0, 0, 16, 0, 0, 0, 16, 0],
        Limit {
            what: What::Cells,
            number: 68719476736,
            bound: 1048576,
        },
    ),
    (&SIX, 22, &[0, 0], Bad(Form(22))),
    (&SIX, 22, &[0, 3], Bad(Form(22))),
    (&SIX, 27, &[0], Bad(Form(24))),
    (
        &SIX,
        26,
        &[16, 1],
        Limit {
            what: What::Axis,
            number: 4097,
            bound: 4096,
        },
    ),
    (&SIX, 36, &[0, 0], Bad(Form(36))),
    (&SIX, 36, &[0, 2], Bad(Form(36))),
    (&TWO, 48, &[0, 3], Bad(Form(48))),
    (&SIX, 38, &[0, 8], Bad(Form(38))),
    (&SIX, 38, &[1, 0], Bad(Form(38))),
    (&SIX, 40, &[0, 2], Bad(Form(40))),
    (&SIX, 42, &[0, 2], Bad(Form(42))),
    (&SIX, 44, &[0, 1], Bad(Form(44))),
    (&TWO, 52, &[0, 3], Bad(Form(52))),
];

#[test]
fn changed_maps_are_refused(rt: HostRuntime) {
    for (i, (bytes, at, new, refused)) in CHANGES.iter().enumerate() {
        let other = changed(&rt, rt.alloc(), *bytes, *at, *new);
        expect_row(&rt, i, answer(rt.alloc(), &other) == Err(*refused));
    }
}

// Asserts that with each other value of a byte the map is refused, or is the spelling of what is read.
fn expect_values(rt: &impl Abort, alloc: Global, bytes: &[u8], at: usize) {
    for value in 0..=255u8 {
        let other = changed(rt, alloc, bytes, at, &[value]);
        expect_row(rt, at, answer(alloc, &other) != Ok(false));
    }
}

fn expect_bytes(rt: &impl Abort, alloc: Global, bytes: &[u8]) {
    for at in 0..bytes.len() {
        expect_values(rt, alloc, bytes, at);
    }
}

#[test]
fn other_bytes_are_refused_or_spelled(rt: HostRuntime) {
    for bytes in FILES.iter() {
        expect_bytes(&rt, rt.alloc(), *bytes);
    }
}

// Whether the reader of maps refuses the kind of a file.
fn is_other_kind(rt: &impl Abort, alloc: Global, bytes: &[u8]) -> bool {
    let mut shelf = MemShelf::new(alloc);
    expect_true(rt, shelf.put_file("map", bytes).is_ok());
    read_map(alloc, &mut shelf, "map").err() == Some(Bad(Form(9)))
}

#[test]
fn a_reader_of_maps_refuses_the_kind(rt: HostRuntime) {
    for (i, bytes) in FILES.iter().enumerate() {
        expect_row(&rt, i, is_other_kind(&rt, rt.alloc(), *bytes));
    }
}
