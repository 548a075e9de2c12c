// Valid files of all kinds, made by runs.
use crate::files::NAMES;
use std::alloc::{AllocError, Global};
use test_stage::Stage;

/// A run that ended well: its words, the words that check it, the files after it, and how many
/// there are, which have the first of the names.
#[derive(Drop)]
pub struct World {
    pub words: &'static str,
    pub check: &'static str,
    pub stage: Stage,
    pub count: usize,
}

// How many files there are where nothing is upgraded: the samples, the marks, and what is written.
const FEW_FILES: usize = 6;

const CHECK: &str = "check sample=s out=o map=m record=r";

const CHECK_BOTH: &str = "check sample=s sample2=t out=o map=m record=r";

const CHECK_TURNS: &str = "check sample=s out=o map=m record=r turns=all";

const CHECK_BOTH_TURNS: &str = "check sample=s sample2=t out=o map=m record=r turns=all";

const FOUR_GREYS: &[u8] = b"P6\n4 1\n255\n\x0a\x0a\x0a\x14\x14\x14\x1e\x1e\x1e\x28\x28\x28";

const FOUR_MORE: &[u8] = b"P6\n4 1\n255\n\x32\x32\x32\x19\x19\x19\x1e\x1e\x1e\x0a\x0a\x0a";

// Marks of four cells.
const MARKS: &[u8] = b"P6\n4 1\n2\n\x01\x00\x00\x00\x00\x00\x00\x00\x00\x02\x00\x00";

const NINE_CELLS: &[u8] = b"P6\n# nine\n3 3\n200\n\
\x01\x02\x03\x40\x50\x60\xc8\x00\xc8\x10\x10\x10\x80\x7f\x7e\x01\x02\x03\
\x33\x99\x66\xc8\xc8\xc8\x00\x00\x00";

const SIXTEEN_CELLS: &[u8] = b"P6 4 4 255\n\
\x6e\x6e\x6e\x5a\x5a\x5a\xe1\xe1\xe1\xaf\xaf\xaf\x1e\x1e\x1e\x64\x64\x64\xdc\xdc\xdc\x69\x69\x69\
\x64\x64\x64\x3c\x3c\x3c\x1e\x1e\x1e\xcd\xcd\xcd\x32\x32\x32\xeb\xeb\xeb\xe1\xe1\xe1\x64\x64\x64";

const MONO: &[u8] = b"YUV4MPEG2 W2 H2 F25:1 Cmono\nFRAME\n\x00\x10\x20\x30FRAME\n\x01\x11\x21\x31\
FRAME x\n\x02\x12\x22\x32";

const PLANES: &[u8] = b"YUV4MPEG2 W4 H2 F25:1 Ip A1:1 C420jpeg XYSCSS=420JPEG\nFRAME\n\
\x01\x02\x03\x04\x05\x06\x07\x08\x09\x0a\x0b\x0cFRAME\n\x11\x12\x13\x14\x15\x16\x17\x18\x19\x1a\x1b\x1c";

const FULL_PLANES: &[u8] = b"YUV4MPEG2 W2 H1 C444\nFRAME\n\x01\x02\x03\x04\x05\x06";

const FOUR_FRAMES: &[u8] = b"YUV4MPEG2 W1 H1 Cmono\nFRAME\n\x00FRAME\n\x03FRAME\n\x00FRAME\n\x03";

const SIX_FRAMES: &[u8] =
    b"YUV4MPEG2 W1 H1 F25:1 Cmono X\nFRAME\n\x05FRAME\n\x09FRAME\n\x05FRAME\n\x09\
FRAME\n\x05FRAME\n\x09";

/// The words of a run, those of its check, and its samples.
pub type Made<'a> = (&'a str, &'a str, &'a [u8], &'a [u8]);

/// Runs of all commands; the files of growths of one sample are upgraded to version 2 too.
pub const MADE: &[Made<'static>] = &[
    (
        "grow sample=s out=o map=m record=r width=6 height=1 place=grid overlap=2 box=4 rounds=1",
        CHECK,
        FOUR_GREYS,
        NINE_CELLS,
    ),
    (
        "grow sample=s out=o map=m record=r width=5 height=4 box=2 overlap=1 rounds=2 seed=3 tol=50",
        CHECK,
        NINE_CELLS,
        FOUR_GREYS,
    ),
    (
        "grow sample=s sample2=t out=o map=m record=r width=5 height=3 place=whole rounds=1 box=3",
        CHECK_BOTH,
        FOUR_GREYS,
        SIXTEEN_CELLS,
    ),
    (
        "grow sample=s out=o map=m record=r width=3 height=2 frames=4 box=2 overlap=1 rounds=1",
        CHECK,
        MONO,
        FULL_PLANES,
    ),
    (
        "grow sample=s out=o map=m record=r width=3 height=2 frames=2 place=random seed=9",
        CHECK,
        PLANES,
        MONO,
    ),
    (
        "grow sample=s sample2=t out=o map=m record=r width=3 height=2 place=sub box=2",
        CHECK_BOTH,
        FULL_PLANES,
        FULL_PLANES,
    ),
    (
        "grow sample=s sample2=t out=o map=m record=r width=5 height=1 place=random",
        CHECK_BOTH,
        FOUR_GREYS,
        FOUR_MORE,
    ),
    (
        "grow sample=s out=o map=m record=r width=5 height=4 box=2 overlap=1 rounds=2 turns=all",
        CHECK_TURNS,
        NINE_CELLS,
        FOUR_GREYS,
    ),
    (
        "grow sample=s sample2=t out=o map=m record=r width=2 height=2 frames=3 box=2 turns=all",
        CHECK_BOTH_TURNS,
        MONO,
        FOUR_FRAMES,
    ),
    (
        "quilt sample=s out=o map=m record=r width=6 height=5 block=3 overlap=1",
        CHECK,
        SIXTEEN_CELLS,
        NINE_CELLS,
    ),
    (
        "quilt sample=s out=o map=m record=r width=7 height=1 block=4 overlap=2 tol=0 seed=5",
        CHECK,
        FOUR_GREYS,
        PLANES,
    ),
    (
        "transfer sample=s target=t out=o map=m record=r block=3 overlap=1",
        CHECK,
        SIXTEEN_CELLS,
        FOUR_GREYS,
    ),
    (
        "transfer sample=s target=t out=o map=m record=r block=2 overlap=1 tol=50 alpha=90 seed=7",
        CHECK,
        FOUR_MORE,
        SIXTEEN_CELLS,
    ),
    (
        "loop sample=s out=o map=m record=r length=3 taps=0 gap=1",
        CHECK,
        FOUR_FRAMES,
        SIXTEEN_CELLS,
    ),
    (
        "loop sample=s out=o map=m record=r length=6 taps=4",
        CHECK,
        SIX_FRAMES,
        FOUR_FRAMES,
    ),
    (
        "loop sample=s out=o map=m record=r length=5 taps=2 gap=2",
        CHECK,
        SIX_FRAMES,
        FOUR_GREYS,
    ),
];

const UPGRADE: &str = "upgrade map=m record=r newmap=n newrecord=q";

impl World {
    // Runs both lines over these samples, and says whether `check` finds that the files stand.
    fn make(&mut self, sample: &[u8], second: &[u8]) -> Result<bool, AllocError> {
        let put = self.stage.put_file("s", sample);
        let put = put.and(self.stage.put_file("t", second));
        put.and(self.stage.put_file("u", MARKS))?;
        self.stage.run(self.words)?;
        if self.stage.run(UPGRADE)? == 0 {
            self.count = NAMES.len();
        }
        Ok(self.stage.run(self.check)? == 0)
    }
}

/// Adds the worlds of a table, and says whether `check` finds that the files of all stand.
pub fn add_worlds(
    alloc: Global,
    worlds: &mut Vec<World>,
    table: &[Made<'static>],
) -> Result<bool, AllocError> {
    let mut all_stand = true;
    for (words, check, sample, second) in table {
        worlds.push(World {
            words: *words,
            check: *check,
            stage: Stage::new(alloc),
            count: FEW_FILES,
        })?;
        if let Some(world) = worlds.last_mut() {
            all_stand &= world.make(*sample, *second)?;
        }
    }
    Ok(all_stand)
}
