// What no clause says: that the calls succeed while there is memory, and that the clauses mean
// what the worked rows say.
use crate::expect::{expect_none, expect_true};
use shelf_core::{Call, MemShelf, MemSink, Shelf, Sink, SureShelf, SureSink};
use std::alloc::{AllocError, Global};

// A call on a name with a piece, and whether it goes well.
type Row<'a> = (Call, &'a str, &'a [u8], bool);

// The file ends with the bytes, from its second one on.
fn reads<S: Shelf>(shelf: &mut S, name: &str, bytes: &[u8]) -> bool {
    let mut into = [0; 4];
    match shelf.get(name, 1, &mut into) {
        Ok(n) => n == bytes.len() && into.starts_with(bytes),
        Err(_) => false,
    }
}

// Each call answers as its row says. A read finds the piece at the end of the file.
fn answers<S: Shelf>(shelf: &mut S, rows: &[Row]) -> bool {
    for (call, name, piece, well) in rows {
        let went = match call {
            Call::Get => reads(shelf, name, *piece),
            Call::Begin => shelf.begin(name).is_ok(),
            Call::Add => shelf.add(name, *piece).is_ok(),
        };
        if went != *well {
            return false;
        }
    }
    true
}

// Calls on `f` that are listed to fail after so many others of their kind, with how many bytes
// they keep; calls; what `f` and `g` hold then; and how many reads and writes have failed. At
// first `f` holds "abcdef".
#[derive(Drop)]
struct Case<'a> {
    listed: &'a [(Call, u8, usize)],
    rows: &'a [Row<'a>],
    f: &'a [u8],
    g: &'a [u8],
    faults: (u64, u64),
}

const HELD: &[Row<'static>] = &[
    (Call::Get, "f", b"bcde", true),
    (Call::Get, "g", b"", false),
    (Call::Begin, "g", b"", true),
    (Call::Get, "g", b"", true),
    (Call::Add, "g", b"xy", true),
    (Call::Add, "g", b"z", true),
    (Call::Get, "g", b"yz", true),
    (Call::Add, "h", b"new", true),
    (Call::Get, "h", b"ew", true),
    (Call::Begin, "f", b"", true),
];

const FAILING: &[Row<'static>] = &[
    (Call::Add, "f", b"ab", true),
    (Call::Add, "g", b"ab", true),
    (Call::Add, "f", b"cd", false),
    (Call::Get, "f", b"b", false),
    (Call::Add, "g", b"cd", true),
    (Call::Begin, "f", b"", false),
];

const CASES: &[Case<'static>] = &[
    Case {
        listed: &[],
        rows: HELD,
        f: b"",
        g: b"xyz",
        faults: (1, 0),
    },
    // Of two listings of the second add, the earlier one holds.
    Case {
        listed: &[
            (Call::Add, 1, 0),
            (Call::Add, 1, 2),
            (Call::Get, 0, 1),
            (Call::Begin, 0, 1),
        ],
        rows: FAILING,
        f: b"abcdefab",
        g: b"abcd",
        faults: (1, 2),
    },
    Case {
        listed: &[
            (Call::Add, 1, 1),
            (Call::Add, 1, 2),
            (Call::Get, 0, 1),
            (Call::Begin, 0, 1),
        ],
        rows: FAILING,
        f: b"abcdefabc",
        g: b"abcd",
        faults: (1, 2),
    },
    Case {
        listed: &[
            (Call::Add, 1, 9),
            (Call::Add, 1, 2),
            (Call::Get, 0, 1),
            (Call::Begin, 0, 1),
        ],
        rows: FAILING,
        f: b"abcdefabcd",
        g: b"abcd",
        faults: (1, 2),
    },
];

fn goes_so(shelf: &mut MemShelf, case: &Case) -> Result<bool, AllocError> {
    shelf.put_file("f", b"abcdefgh")?;
    shelf.put_file("f", b"abcdef")?;
    for (call, before, kept) in case.listed {
        shelf.fail_at(*call, "f", u32::from(*before) + 1, *kept)?;
    }
    let went = answers(shelf, case.rows);
    let (read, written) = case.faults;
    let are_told = (shelf.read_faults() == read) & (shelf.write_faults() == written);
    let are_files = (shelf.file("f") == Some(case.f)) & (shelf.file("g") == Some(case.g));
    Ok(went & are_told & are_files & shelf.file("k").is_none())
}

// (A store is owned by a function that only lends it: each place where it ends is long to prove.)
fn is_right(alloc: Global, case: &Case) -> Result<bool, AllocError> {
    let mut shelf = MemShelf::new(alloc);
    goes_so(&mut shelf, case)
}

// The number of the first case, from 0, that goes otherwise.
fn wrong_case(alloc: Global) -> Result<Option<usize>, AllocError> {
    for (i, case) in CASES.iter().enumerate() {
        if !is_right(alloc, case)? {
            return Ok(Some(i));
        }
    }
    Ok(None)
}

// Whether the second of three writes fails alone, and these bytes are left.
fn sink_fails(alloc: Global, kept: usize, bytes: &[u8]) -> Result<bool, AllocError> {
    let mut sink = MemSink::new(alloc);
    sink.fail_at(2, kept)?;
    sink.fail_at(2, 2)?;
    let first = sink.add(b"ab").is_ok();
    let second = sink.add(b"cd").is_ok();
    let third = sink.add(b"ef").is_ok();
    let is_told = first & !second & third & (sink.faults() == 1);
    Ok(is_told & (sink.bytes() == bytes))
}

#[test]
fn stores_hold_files_and_listed_calls_fail(rt: HostRuntime) {
    let alloc = rt.alloc();
    expect_none(&rt, wrong_case(alloc));
    expect_true(&rt, sink_fails(alloc, 0, b"abef"));
    expect_true(&rt, sink_fails(alloc, 1, b"abcef"));
    expect_true(&rt, sink_fails(alloc, 9, b"abcdef"));
}

// The greatest size is 10: "f" with four bytes, "g" with three, and a file with no name.
const SURE: &[Row<'static>] = &[
    (Call::Get, "f", b"", true),
    (Call::Add, "f", b"wxyz", true),
    (Call::Add, "g", b"12", true),
    (Call::Begin, "f", b"", true),
    (Call::Add, "f", b"abcd", true),
    (Call::Begin, "", b"", true),
    (Call::Add, "", b"0", true),
    (Call::Add, "g", b"3", true),
    (Call::Begin, "", b"", true),
];

// Whether a store with this room tells these bytes.
fn shelf_tells(
    alloc: Global,
    room: usize,
    f: Option<&[u8]>,
    g: Option<&[u8]>,
) -> Result<bool, AllocError> {
    let mut shelf = SureShelf::make(alloc, room)?;
    shelf.put_file("g", b"4321");
    shelf.put_file("g", b"");
    let went = answers(&mut shelf, SURE);
    let are_files = (shelf.file("f") == f) & (shelf.file("g") == g) & shelf.file("k").is_none();
    Ok(went & are_files)
}

fn sink_tells(alloc: Global, room: usize, bytes: Option<&[u8]>) -> Result<bool, AllocError> {
    let mut sink = SureSink::make(alloc, room)?;
    let first = sink.add(b"ab").is_ok();
    let second = sink.add(b"cd").is_ok();
    Ok(first & second & (sink.bytes() == bytes))
}

#[test]
fn sure_stores_tell_what_fits(rt: HostRuntime) {
    let alloc = rt.alloc();
    expect_true(&rt, shelf_tells(alloc, 9, None, None));
    expect_true(&rt, shelf_tells(alloc, 10, Some(b"abcd"), Some(b"123")));
    expect_true(&rt, sink_tells(alloc, 3, None));
    expect_true(&rt, sink_tells(alloc, 4, Some(b"abcd")));
}
