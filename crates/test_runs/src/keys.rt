// Rows in which the value of one key decides: two rows of a table differ in that key alone, and in
// their reports. A run that ignored the key would report the same in both. The numbers are those of
// plain programs (checks/plain_grow.c, plain_transfer.c, random_tiles.py, random_merges.py), and
// checks/keys_decide.py lists the keys of which no row decides.
use crate::samples::{CUBE, NINE_CELLS};
use crate::tables::expect_none;
use std::alloc::{AllocError, Global};
use test_stage::{File, Stage};

// Nine cells of grey 90, 20, 50, then 40, 10, 70, then 30, 60, 80.
const OTHER_NINE: &[u8] = b"P6\n3 3\n255\n\
\x5a\x5a\x5a\x14\x14\x14\x32\x32\x32\
\x28\x28\x28\x0a\x0a\x0a\x46\x46\x46\
\x1e\x1e\x1e\x3c\x3c\x3c\x50\x50\x50";

// Four cells of grey each, and marks over them: the third picture has the fourth cell, or none.
const FOUR_A: &[u8] = b"P6\n4 1\n255\n\x28\x28\x28\x46\x46\x46\x5a\x5a\x5a\x14\x14\x14";

const FOUR_B: &[u8] = b"P6\n4 1\n255\n\x5a\x5a\x5a\x0a\x0a\x0a\x46\x46\x46\x0a\x0a\x0a";

const FOUR_C: &[u8] = b"P6\n4 1\n255\n\x5a\x5a\x5a\x0a\x0a\x0a\x5a\x5a\x5a\x46\x46\x46";

const LATER_MARKS: &[u8] = b"P6\n4 1\n255\n\x03\x00\x00\x03\x00\x00\x00\x00\x00\x02\x00\x00";

const NO_MARKS: &[u8] = b"P6\n4 1\n255\n\x00\x00\x00\x00\x00\x00\x00\x00\x00\x00\x00\x00";

// Marks of which the first picture has the first cell, and the second the last.
const EARLY_MARKS: &[u8] = b"P6\n4 1\n255\n\x01\x00\x00\x00\x00\x00\x00\x00\x00\x02\x00\x00";

// Nine cells, and four, that are like none of the others.
const THIRD_NINE: &[u8] = b"P6\n3 3\n255\n\
\x0c\x0c\x0c\xc8\xc8\xc8\x1f\x1f\x1f\
\x5a\x5a\x5a\x2c\x2c\x2c\xa0\xa0\xa0\
\x07\x07\x07\x78\x78\x78\x42\x42\x42";

const FOUR_F: &[u8] = b"P6\n4 1\n255\n\x0a\x0a\x0a\x3c\x3c\x3c\x14\x14\x14\x50\x50\x50";

// Eight frames of one cell: 0, 1, 3, 6, 60, 62, 67, 75.
const EIGHT_FRAMES: &[u8] = b"YUV4MPEG2 W1 H1 Cmono\nFRAME\n\x00FRAME\n\x01FRAME\n\x03FRAME\n\x06\
FRAME\n\x3cFRAME\n\x3eFRAME\n\x43FRAME\n\x4b";

const FILES: &[File<'static>] = &[
    ("s", NINE_CELLS),
    ("t", OTHER_NINE),
    ("c", CUBE),
    ("a", FOUR_A),
    ("b", FOUR_B),
    ("d", FOUR_C),
    ("k", LATER_MARKS),
    ("l", NO_MARKS),
    ("n", EARLY_MARKS),
    ("u", THIRD_NINE),
    ("f", FOUR_F),
    ("e", EIGHT_FRAMES),
];

// The number of the first row, from 0, whose words don't end with status 0 and its report.
fn wrong_report_on(stage: &mut Stage, rows: &[(&str, &str)]) -> Result<Option<usize>, AllocError> {
    stage.put_files(FILES)?;
    for (i, (words, report)) in rows.iter().enumerate() {
        if !stage.reports(*words, *report)? {
            return Ok(Some(i));
        }
    }
    Ok(None)
}

fn wrong_report(alloc: Global, rows: &[(&str, &str)]) -> Result<Option<usize>, AllocError> {
    let mut stage = Stage::new(alloc);
    let found = wrong_report_on(&mut stage, rows);
    drop(stage);
    found
}

const GROWN: &[(&str, &str)] = &[
    (
        "grow sample=s out=o map=m record=r width=6 height=5 box=2 overlap=1",
        "grow 6x5x1\nplacements 20\nrounds 0\nseams 28140\n",
    ),
    (
        "grow sample=t out=o map=m record=r width=6 height=5 box=2 overlap=1",
        "grow 6x5x1\nplacements 20\nrounds 0\nseams 18390\n",
    ),
    (
        "grow sample=s sample2=t out=o map=m record=r width=6 height=5 box=2 overlap=1",
        "grow 6x5x1\nplacements 20\nrounds 0\nseams 27015\n",
    ),
    (
        "grow sample=s out=o map=m record=r width=5 height=5 box=2 overlap=1",
        "grow 5x5x1\nplacements 16\nrounds 0\nseams 21480\n",
    ),
    (
        "grow sample=s out=o map=m record=r width=6 height=4 box=2 overlap=1",
        "grow 6x4x1\nplacements 15\nrounds 0\nseams 19950\n",
    ),
    (
        "grow sample=s out=o map=m record=r width=6 height=5 box=3 overlap=1",
        "grow 6x5x1\nplacements 6\nrounds 0\nseams 11145\n",
    ),
    (
        "grow sample=s out=o map=m record=r width=6 height=5 box=2 overlap=0",
        "grow 6x5x1\nplacements 9\nrounds 0\nseams 17700\n",
    ),
    (
        "grow sample=s out=o map=m record=r width=6 height=5 box=2 overlap=1 tol=300",
        "grow 6x5x1\nplacements 20\nrounds 0\nseams 27435\n",
    ),
    (
        "grow sample=s out=o map=m record=r width=6 height=5 box=2 overlap=1 rounds=3",
        "grow 6x5x1\nplacements 20\nrounds 3\nseams 28140\n",
    ),
    (
        "grow sample=s out=o map=m record=r width=6 height=5 box=2 overlap=1 seed=1",
        "grow 6x5x1\nplacements 20\nrounds 0\nseams 29820\n",
    ),
    (
        "grow sample=s out=o map=m record=r width=6 height=5 box=2 overlap=1 turns=all",
        "grow 6x5x1\nplacements 20\nrounds 0\nseams 18720\n",
    ),
    (
        "grow sample=s out=o map=m record=r width=6 height=5 place=grid box=2 overlap=1",
        "grow 6x5x1\nplacements 6\nrounds 0\nseams 14970\n",
    ),
    (
        "grow sample=s out=o map=m record=r width=6 height=5 place=grid box=2 overlap=2",
        "grow 6x5x1\nplacements 12\nrounds 0\nseams 5250\n",
    ),
    (
        "grow sample=s out=o map=m record=r width=6 height=5 place=random box=2 overlap=1",
        "grow 6x5x1\nplacements 7\nrounds 0\nseams 22095\n",
    ),
    (
        "grow sample=s out=o map=m record=r width=6 height=5 place=random box=2 overlap=1 seed=6",
        "grow 6x5x1\nplacements 7\nrounds 0\nseams 23490\n",
    ),
    (
        "grow sample=s out=o map=m record=r width=6 height=5 place=whole box=2 overlap=1",
        "grow 6x5x1\nplacements 9\nrounds 0\nseams 23700\n",
    ),
    (
        "grow sample=s out=o map=m record=r width=6 height=5 place=whole box=2 overlap=1 tol=300",
        "grow 6x5x1\nplacements 8\nrounds 0\nseams 22530\n",
    ),
    (
        "grow sample=s out=o map=m record=r width=6 height=5 place=whole box=2 overlap=1 seed=1",
        "grow 6x5x1\nplacements 8\nrounds 0\nseams 21030\n",
    ),
    (
        "grow sample=c out=o map=m record=r width=4 height=4 box=2 overlap=1",
        "grow 4x4x1\nplacements 9\nrounds 0\nseams 3265\n",
    ),
    (
        "grow sample=c out=o map=m record=r width=4 height=4 frames=4 box=2 overlap=1",
        "grow 4x4x4\nplacements 27\nrounds 0\nseams 16216\n",
    ),
];

const QUILTED: &[(&str, &str)] = &[
    (
        "quilt sample=s out=o map=m record=r width=6 height=5 block=2 overlap=1",
        "quilt 6x5x1\nblocks 20\nboundaries 31\ncost 149700\n",
    ),
    (
        "quilt sample=t out=o map=m record=r width=6 height=5 block=2 overlap=1",
        "quilt 6x5x1\nblocks 20\nboundaries 31\ncost 96600\n",
    ),
    (
        "quilt sample=s out=o map=m record=r width=5 height=5 block=2 overlap=1",
        "quilt 5x5x1\nblocks 16\nboundaries 24\ncost 108000\n",
    ),
    (
        "quilt sample=s out=o map=m record=r width=6 height=4 block=2 overlap=1",
        "quilt 6x4x1\nblocks 15\nboundaries 22\ncost 107700\n",
    ),
    (
        "quilt sample=s out=o map=m record=r width=6 height=5 block=3 overlap=1",
        "quilt 6x5x1\nblocks 6\nboundaries 7\ncost 130500\n",
    ),
    (
        "quilt sample=s out=o map=m record=r width=6 height=5 block=2 overlap=0",
        "quilt 6x5x1\nblocks 9\nboundaries 0\ncost 0\n",
    ),
    (
        "quilt sample=s out=o map=m record=r width=6 height=5 block=2 overlap=1 tol=300",
        "quilt 6x5x1\nblocks 20\nboundaries 31\ncost 306900\n",
    ),
    (
        "quilt sample=s out=o map=m record=r width=6 height=5 block=2 overlap=1 seed=1",
        "quilt 6x5x1\nblocks 20\nboundaries 31\ncost 155700\n",
    ),
];

const PAINTED: &[(&str, &str)] = &[
    (
        "transfer sample=s target=t out=o map=m record=r block=2 overlap=1 tol=0",
        "transfer 3x3x1\nblocks 4\nboundaries 4\ncost 11400\nmatch 19800\n",
    ),
    (
        "transfer sample=u target=t out=o map=m record=r block=2 overlap=1 tol=0",
        "transfer 3x3x1\nblocks 4\nboundaries 4\ncost 74229\nmatch 63051\n",
    ),
    (
        "transfer sample=s target=u out=o map=m record=r block=2 overlap=1 tol=0",
        "transfer 3x3x1\nblocks 4\nboundaries 4\ncost 18900\nmatch 110058\n",
    ),
    (
        "transfer sample=s target=t out=o map=m record=r block=3 overlap=1 tol=0",
        "transfer 3x3x1\nblocks 1\nboundaries 0\ncost 0\nmatch 39000\n",
    ),
    (
        "transfer sample=s target=t out=o map=m record=r block=2 overlap=0 tol=0",
        "transfer 3x3x1\nblocks 4\nboundaries 0\ncost 0\nmatch 29100\n",
    ),
    (
        "transfer sample=s target=t out=o map=m record=r block=2 overlap=1 tol=300",
        "transfer 3x3x1\nblocks 4\nboundaries 4\ncost 78600\nmatch 19200\n",
    ),
    (
        "transfer sample=s target=t out=o map=m record=r block=2 overlap=1 tol=300 seed=1",
        "transfer 3x3x1\nblocks 4\nboundaries 4\ncost 33000\nmatch 41700\n",
    ),
    (
        "transfer sample=s target=t out=o map=m record=r block=2 overlap=1 tol=0 alpha=65",
        "transfer 3x3x1\nblocks 4\nboundaries 4\ncost 11400\nmatch 19800\n",
    ),
    (
        "transfer sample=s target=t out=o map=m record=r block=2 overlap=1 tol=0 alpha=70",
        "transfer 3x3x1\nblocks 4\nboundaries 4\ncost 900\nmatch 40200\n",
    ),
];

const LOOPED: &[(&str, &str)] = &[
    (
        "loop sample=e out=o map=m record=r length=3 taps=0",
        "loop 3\nstart 0\ncost 3\n",
    ),
    (
        "loop sample=c out=o map=m record=r length=3 taps=0",
        "loop 3\nstart 0\ncost 167150\n",
    ),
    (
        "loop sample=e out=o map=m record=r length=4 taps=0",
        "loop 4\nstart 0\ncost 4\n",
    ),
    (
        "loop sample=e out=o map=m record=r length=3 taps=2",
        "loop 3\nstart 1\ncost 15\n",
    ),
    (
        "loop sample=e out=o map=m record=r length=3 taps=0 gap=3",
        "loop 3\nstart 0\ncost 36\n",
    ),
];

const TILED: &[(&str, &str)] = &[
    (
        "tile sample=s out=o map=m width=5 height=4 box=2 overlap=1",
        "tile 5x4x1\nplacements 12\nseams 24525\n",
    ),
    (
        "tile sample=t out=o map=m width=5 height=4 box=2 overlap=1",
        "tile 5x4x1\nplacements 12\nseams 18015\n",
    ),
    (
        "tile sample=s out=o map=m width=4 height=4 box=2 overlap=1",
        "tile 4x4x1\nplacements 9\nseams 18600\n",
    ),
    (
        "tile sample=s out=o map=m width=5 height=5 box=2 overlap=1",
        "tile 5x5x1\nplacements 16\nseams 32040\n",
    ),
    (
        "tile sample=s out=o map=m width=5 height=4 wrap=x box=2 overlap=1",
        "tile 5x4x1\nplacements 12\nseams 19920\n",
    ),
    (
        "tile sample=s out=o map=m width=5 height=4 box=3 overlap=1",
        "tile 5x4x1\nplacements 4\nseams 18810\n",
    ),
    (
        "tile sample=s out=o map=m width=5 height=4 box=2 overlap=0",
        "tile 5x4x1\nplacements 6\nseams 19050\n",
    ),
    (
        "tile sample=s out=o map=m width=5 height=4 box=2 overlap=1 tol=300",
        "tile 5x4x1\nplacements 12\nseams 23820\n",
    ),
    (
        "tile sample=s out=o map=m width=5 height=4 box=2 overlap=1 seed=1",
        "tile 5x4x1\nplacements 12\nseams 26295\n",
    ),
    (
        "tile sample=c out=o map=m width=4 height=4 box=2 overlap=1",
        "tile 4x4x1\nplacements 9\nseams 5737\n",
    ),
    (
        "tile sample=c out=o map=m width=4 height=4 frames=3 box=2 overlap=1",
        "tile 4x4x3\nplacements 18\nseams 20609\n",
    ),
];

const MERGED: &[(&str, &str)] = &[
    (
        "merge sample=a sample2=b sample3=d marks=k out=o map=m",
        "merge 4x1x1\npictures 3\nseams 60\n",
    ),
    (
        "merge sample=f sample2=b sample3=d marks=n out=o map=m",
        "merge 4x1x1\npictures 3\nseams 300\n",
    ),
    (
        "merge sample=a sample2=b sample3=d marks=n out=o map=m",
        "merge 4x1x1\npictures 3\nseams 90\n",
    ),
    (
        "merge sample=a sample2=f sample3=d marks=k out=o map=m",
        "merge 4x1x1\npictures 3\nseams 240\n",
    ),
    (
        "merge sample=a sample2=b sample3=f marks=k out=o map=m",
        "merge 4x1x1\npictures 3\nseams 300\n",
    ),
    (
        "merge sample=a sample2=b sample3=d marks=l out=o map=m",
        "merge 4x1x1\npictures 3\nseams 0\n",
    ),
];

const TRIED: &[(&str, &str)] = &[
    (
        "trial n=1 width=80 height=72",
        "trial 1\nsample 64x64x1\ngrow 80x72x1\nplacements 9\nrounds 5\nseams 20300\nrecord stands\n",
    ),
    (
        "trial n=2 width=80 height=72",
        "trial 2\nsample 64x64x1\ngrow 80x72x1\nplacements 9\nrounds 5\nseams 29057\nrecord stands\n",
    ),
    (
        "trial n=1 width=72 height=72",
        "trial 1\nsample 64x64x1\ngrow 72x72x1\nplacements 9\nrounds 5\nseams 26755\nrecord stands\n",
    ),
    (
        "trial n=1 width=80 height=80",
        "trial 1\nsample 64x64x1\ngrow 80x80x1\nplacements 9\nrounds 5\nseams 25333\nrecord stands\n",
    ),
    (
        "trial n=1 width=80 height=72 place=random",
        "trial 1\nsample 64x64x1\ngrow 80x72x1\nplacements 5\nrounds 5\nseams 48047\nrecord stands\n",
    ),
    (
        "trial n=1 width=80 height=72 box=24",
        "trial 1\nsample 64x64x1\ngrow 80x72x1\nplacements 20\nrounds 5\nseams 27473\nrecord stands\n",
    ),
    (
        "trial n=1 width=80 height=72 overlap=4",
        "trial 1\nsample 64x64x1\ngrow 80x72x1\nplacements 9\nrounds 5\nseams 21402\nrecord stands\n",
    ),
    (
        "trial n=1 width=80 height=72 tol=300",
        "trial 1\nsample 64x64x1\ngrow 80x72x1\nplacements 9\nrounds 5\nseams 43234\nrecord stands\n",
    ),
    (
        "trial n=1 width=80 height=72 rounds=2",
        "trial 1\nsample 64x64x1\ngrow 80x72x1\nplacements 9\nrounds 2\nseams 20300\nrecord stands\n",
    ),
    (
        "trial n=1 width=80 height=72 seed=1",
        "trial 1\nsample 64x64x1\ngrow 80x72x1\nplacements 9\nrounds 5\nseams 22870\nrecord stands\n",
    ),
];

#[test]
fn each_key_decides(rt: HostRuntime) {
    expect_none(&rt, wrong_report(rt.alloc(), GROWN));
    expect_none(&rt, wrong_report(rt.alloc(), QUILTED));
    expect_none(&rt, wrong_report(rt.alloc(), PAINTED));
    expect_none(&rt, wrong_report(rt.alloc(), LOOPED));
    expect_none(&rt, wrong_report(rt.alloc(), TILED));
    expect_none(&rt, wrong_report(rt.alloc(), MERGED));
    expect_none(&rt, wrong_report(rt.alloc(), TRIED));
}
