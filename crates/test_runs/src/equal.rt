// Maps that name another cell than the records leave, with equal bytes: the picture is the map's,
// and `check` refuses the map.
use crate::hostile::changed;
use crate::samples::FOUR_FRAMES;
use crate::tables::expect_none;
use std::alloc::{AllocError, Global};
use test_stage::Stage;

// Two cells of grey 10.
const TWO_ALIKE: &[u8] = b"P6\n2 1\n255\n\x0a\x0a\x0a\x0a\x0a\x0a";

// The words of a run, its sample, a byte of the map that it leaves and another value of it, and
// what `check` then finds.
type Row<'a> = (&'a str, &'a [u8], usize, u8, &'a str);

const TABLE: &[Row<'static>] = &[
    (
        "grow sample=s out=o map=m record=r width=2 height=1 place=grid overlap=0",
        TWO_ALIKE,
        41,
        0,
        "fails record 0 rule 16 place 1\n",
    ),
    (
        "quilt sample=s out=o map=m record=r width=2 height=1 block=2",
        TWO_ALIKE,
        35,
        1,
        "fails record 0 rule 16 place 0\n",
    ),
    (
        "loop sample=s out=o map=m record=r length=2 taps=0",
        FOUR_FRAMES,
        35,
        2,
        "fails record 0 rule 16 place 0\n",
    ),
];

// Gives the byte of the map another value.
fn change_map(alloc: Global, stage: &mut Stage, at: usize, byte: u8) -> Result<(), AllocError> {
    let map = changed(alloc, stage.file("m").unwrap_or(b""), &[(at, byte)])?;
    stage.put_file("m", &map)
}

// Runs the words over a stage without a file, and checks what they leave before and after the
// change.
fn is_found_on(alloc: Global, stage: &mut Stage, row: &Row) -> Result<bool, AllocError> {
    let (words, sample, at, byte, report) = *row;
    let check = "check sample=s out=o map=m record=r";
    stage.put_file("s", sample)?;
    let status = stage.run(words)?;
    let stood = stage.reports(check, "stands\n")?;
    change_map(alloc, stage, at, byte)?;
    stage.clear();
    Ok(status == 0 && stood && stage.ends(check, 1, report, "")?)
}

fn is_found(alloc: Global, row: &Row) -> Result<bool, AllocError> {
    let mut stage = Stage::new(alloc);
    let found = is_found_on(alloc, &mut stage, row);
    drop(stage);
    found
}

// The number of the first row, from 0, of which `check` finds something else.
fn wrong_row(alloc: Global) -> Result<Option<usize>, AllocError> {
    for (i, row) in TABLE.iter().enumerate() {
        if !is_found(alloc, row)? {
            return Ok(Some(i));
        }
    }
    Ok(None)
}

#[test]
fn other_cells_with_equal_bytes(rt: HostRuntime) {
    expect_none(&rt, wrong_row(rt.alloc()));
}
