// What is said of an output that is grown from a sample of a number. No file is read or written.
use crate::tables::{Table, expect_table, expect_true};
use std::alloc::{AllocError, Global};
use test_stage::{BEFORE, Case, Failing, NO_CELL, ONE_CELL, Stage};

const BEGINNING: &[u8] =
    b"trial 1\nsample 64x64x1\ngrow 256x256x1\nplacements 121\nrounds 5\nseams ";

const LONG_BEGINNING: &[u8] =
    b"trial 1\nsample 64x64x1\ngrow 256x256x1\nplacements 121\nrounds 200\nseams ";

const END: &[u8] = b"\nrecord stands\n";

// Runs a trial, and says whether it ends with status 0 and without a line, and its report begins
// and ends as given.
fn is_well(stage: &mut Stage, words: &str, beginning: &[u8]) -> Result<bool, AllocError> {
    let status = stage.run(words)?;
    let text = stage.report();
    let are_ends = text.starts_with(beginning) && text.ends_with(END);
    Ok(status == 0 && stage.line().is_empty() && are_ends)
}

// Whether both lines of words have one report, which begins and ends as given, each on a stage of
// its own.
fn is_one_report_on(
    one: &mut Stage,
    other: &mut Stage,
    first: &str,
    second: &str,
    beginning: &[u8],
) -> Result<bool, AllocError> {
    let are_well = is_well(one, first, beginning)? && is_well(other, second, beginning)?;
    Ok(are_well && one.report() == other.report())
}

fn is_one_report(
    alloc: Global,
    first: &str,
    second: &str,
    beginning: &[u8],
) -> Result<bool, AllocError> {
    let mut one = Stage::new(alloc);
    let mut other = Stage::new(alloc);
    let found = is_one_report_on(&mut one, &mut other, first, second, beginning);
    drop(one);
    drop(other);
    found
}

const REFUSED: &[(&str, u8, &str)] = &[
    ("trial", 2, "weave: missing key n\n"),
    ("trial n=4294967296", 2, "weave: word 2: out of range\n"),
    ("trial n=1 sample=s", 2, "weave: word 3: unknown key\n"),
    ("trial n=1 frames=1", 2, "weave: word 3: unknown key\n"),
    (
        "trial n=1 width=1025 height=1024",
        4,
        "weave: limit output 1049600 over 1048576\n",
    ),
];

// The sample alone fills a small output by one copy; its seams are none.
const SMALL: Case<'static> = Case {
    words: "trial n=7 width=64 height=64 place=grid rounds=0",
    sample: NO_CELL,
    second: NO_CELL,
    failing: Failing::Nothing,
    status: 0,
    report: "trial 7\nsample 64x64x1\ngrow 64x64x1\nplacements 1\nrounds 0\nseams 0\nrecord stands\n",
    line: "",
    picture: BEFORE,
    map: BEFORE,
    record: BEFORE,
};

const WRITTEN: &[Case<'static>] = &[
    SMALL,
    Case {
        failing: Failing::Report(3),
        status: 6,
        report: "tri",
        line: "weave: report: write fault\n",
        ..SMALL
    },
];

#[test]
fn the_trial_of_number_1_is_the_same_text_twice(rt: HostRuntime) {
    let words = "trial seed=0 rounds=5 n=1 place=sub box=32 overlap=8 tol=10 width=256 height=256";
    let (longer, other) = ("trial n=1 rounds=200", "trial rounds=200 n=1");
    expect_true(
        &rt,
        is_one_report(rt.alloc(), "trial n=1", words, BEGINNING),
    );
    expect_true(
        &rt,
        is_one_report(rt.alloc(), longer, other, LONG_BEGINNING),
    );
}

#[test]
fn other_trials(rt: HostRuntime) {
    expect_table(&rt, rt.alloc(), Table::Words(ONE_CELL, REFUSED));
    expect_table(&rt, rt.alloc(), Table::Cases(WRITTEN));
}
