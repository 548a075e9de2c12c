// That the shelf keeps to the files that it opened.
use crate::disk::{Row, Step, wrong_step};
use crate::tables::expect_none;

const OPENED: &[Row<'static>] = &[
    // One that it began gets another name.
    ("m", Step::Begin),
    ("m", Step::Add(b"abc")),
    ("m", Step::Rename("renamed")),
    ("m", Step::Add(b"def")),
    // One loses its bytes, and then is removed.
    ("m", Step::Begin),
    ("m", Step::Add(b"abc")),
    ("m", Step::Put(b"")),
    ("m", Step::Add(b"def")),
    ("m", Step::Holds(b"\0\0\0def")),
    ("m", Step::Remove),
    ("m", Step::Add(b"ghi")),
    ("m", Step::IsGone),
    ("renamed", Step::Holds(b"abcdef")),
    // Another file takes the name of one that it reads.
    ("s", Step::Put(b"abcdef")),
    ("other", Step::Put(b"ABCDEF")),
    ("s", Step::Get(0, 3, b"abc")),
    ("other", Step::Rename("s")),
    ("s", Step::Get(2, 9, b"cdef")),
];

#[test]
fn goes_on_in_the_files_that_it_opened(rt: HostRuntime) {
    expect_none(&rt, wrong_step(&rt, "opened", OPENED));
}

// A system may give a file the number of one that is gone.
const REMOVED: &[Row<'static>] = &[
    ("s", Step::Put(b"abc")),
    ("t", Step::Put(b"abc")),
    ("s", Step::Get(0, 9, b"abc")),
    ("t", Step::Get(0, 9, b"abc")),
    ("s", Step::Remove),
    ("o", Step::Begin),
    ("m", Step::Begin),
    ("o", Step::Remove),
    ("r", Step::Begin),
];

#[test]
fn begins_a_file_in_the_place_of_a_removed_one(rt: HostRuntime) {
    expect_none(&rt, wrong_step(&rt, "removed", REMOVED));
}
