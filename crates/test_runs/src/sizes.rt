// Runs of the sizes that users have, where a table or a network that grows too fast would show: outputs
// and maps by their lengths and sums, records by their lengths, since the flows of cuts are free. Those
// of quilts, transfers and of mode whole are those of plain programs to the byte (checks/plain_grow.c,
// plain_transfer.c), and the verifier accepts all that have a record.
use crate::tables::expect_none;
use std::alloc::{AllocError, Global};
use test_stage::Stage;

// A picture of so many columns and rows, or a clip of one sample a cell with so many frames, which
// begins with a number. Or marks: the first column is of the first picture, and the last of the second.
#[derive(Clone, Copy, Drop)]
enum Made<'a> {
    Picture(&'a str, u32, u32),
    Clip(&'a str, u32, u32),
    Marks(&'a str),
}

// A file's name, its length, and its sum where that is asked for.
type Written<'a> = (&'a str, usize, Option<u64>);

// A line of words, the files that it reads, its report, and the files that it writes.
#[derive(Clone, Copy, Drop)]
struct Sized<'a> {
    words: &'a str,
    read: &'a [(&'a str, Made<'a>)],
    report: &'a str,
    written: &'a [Written<'a>],
}

// The next number of a linear congruential generator (Numerical Recipes).
fn next(number: u32) -> u32 {
    number.wrapping_mul(1_664_525).wrapping_add(1_013_904_223)
}

// Adds a texture of rows of so many cells: a pattern of squares, with some noise.
fn put_texture(
    bytes: &mut Vec<u8>,
    width: u32,
    height: u32,
    channels: u32,
    salt: u32,
) -> Result<(), AllocError> {
    let mut number = salt;
    for y in 0..height {
        for x in 0..width {
            for c in 0..channels {
                number = next(number);
                let square = (x ^ y).wrapping_mul(5).wrapping_add(c.wrapping_mul(40));
                let [_, _, _, byte] = square.wrapping_add(number >> 27).to_be_bytes();
                bytes.push(byte)?;
            }
        }
    }
    Ok(())
}

// Adds marks of 256x256 cells.
fn put_marks(bytes: &mut Vec<u8>) -> Result<(), AllocError> {
    for _ in 0..256u32 {
        bytes.extend_from_slice(&[1, 0, 0])?;
        for _ in 0..254u32 {
            bytes.extend_from_slice(&[0, 0, 0])?;
        }
        bytes.extend_from_slice(&[2, 0, 0])?;
    }
    Ok(())
}

// Adds frames of 8x8 cells.
fn put_frames(bytes: &mut Vec<u8>, frames: u32, salt: u32) -> Result<(), AllocError> {
    for f in 0..frames {
        bytes.extend_from_slice(b"FRAME\n")?;
        let moved = f.wrapping_mul(f).wrapping_mul(7);
        put_texture(bytes, 8, 8, 1, salt.wrapping_add(moved))?;
    }
    Ok(())
}

fn put_made(bytes: &mut Vec<u8>, made: Made) -> Result<(), AllocError> {
    match made {
        Made::Picture(head, side, salt) => {
            bytes.extend_from_slice(head.as_bytes())?;
            put_texture(bytes, side, side, 3, salt)
        }
        Made::Clip(head, frames, salt) => {
            bytes.extend_from_slice(head.as_bytes())?;
            put_frames(bytes, frames, salt)
        }
        Made::Marks(head) => {
            bytes.extend_from_slice(head.as_bytes())?;
            put_marks(bytes)
        }
    }
}

// The bytes as digits of a number to the base 31, modulo 2^64.
fn sum_of(bytes: &[u8]) -> u64 {
    let mut sum = 0u64;
    for byte in bytes {
        sum = sum.wrapping_mul(31).wrapping_add(u64::from(*byte));
    }
    sum
}

// Whether a file is there, with its length and sum.
fn is_written(stage: &Stage, of: Written) -> bool {
    let (name, length, sum) = of;
    let Some(bytes) = stage.file(name) else {
        return false;
    };
    let is_sum = match sum {
        Some(sum) => sum_of(bytes) == sum,
        None => true,
    };
    (bytes.len() == length) & is_sum
}

fn put_read(alloc: Global, stage: &mut Stage, name: &str, made: Made) -> Result<(), AllocError> {
    let mut bytes = Vec::new(alloc);
    let put = put_made(&mut bytes, made).and(stage.put_file(name, &bytes));
    drop(bytes);
    put
}

// Runs a row over a stage without a file, and says whether all is as it is to be.
fn is_left_on(alloc: Global, stage: &mut Stage, of: &Sized) -> Result<bool, AllocError> {
    for (name, made) in of.read.iter() {
        put_read(alloc, stage, *name, *made)?;
    }
    if !stage.reports(of.words, of.report)? {
        return Ok(false);
    }
    Ok(of.written.iter().all(|written| is_written(stage, *written)))
}

fn is_left(alloc: Global, of: &Sized) -> Result<bool, AllocError> {
    let mut stage = Stage::new(alloc);
    let found = is_left_on(alloc, &mut stage, of);
    drop(stage);
    found
}

// The number of the first row, from 0, that isn't as it is to be.
fn wrong_sized(alloc: Global, rows: &[Sized]) -> Result<Option<usize>, AllocError> {
    for (i, row) in rows.iter().enumerate() {
        if !is_left(alloc, row)? {
            return Ok(Some(i));
        }
    }
    Ok(None)
}

const SMALL: (&str, Made<'static>) = ("s", Made::Picture("P6\n64 64\n255\n", 64, 3));

const SIZES: &[Sized<'static>] = &[
    Sized {
        words: "merge sample=a sample2=b marks=k out=o map=m",
        read: &[
            ("a", Made::Picture("P6\n256 256\n255\n", 256, 1)),
            ("b", Made::Picture("P6\n256 256\n255\n", 256, 2)),
            ("k", Made::Marks("P6\n256 256\n255\n")),
        ],
        report: "merge 256x256x1\npictures 2\nseams 16911\n",
        written: &[
            ("o", 196_623, Some(16_434_249_599_788_899_360)),
            ("m", 524_336, Some(15_021_328_172_940_280_845)),
        ],
    },
    Sized {
        words: "transfer sample=s target=t out=o map=m record=r block=16",
        read: &[SMALL, ("t", Made::Picture("P6\n128 128\n255\n", 128, 4))],
        report: "transfer 128x128x1\nblocks 144\nboundaries 264\ncost 10970811\nmatch 174726555\n",
        written: &[
            ("o", 49_167, Some(10_302_560_648_963_174_890)),
            ("m", 98_338, Some(16_906_817_711_492_772_859)),
            ("r", 91_010, Some(5_353_021_866_115_625_451)),
        ],
    },
    Sized {
        words: "tile sample=s out=o map=m width=128 height=128",
        read: &[SMALL],
        report: "tile 128x128x1\nplacements 25\nseams 393800\n",
        written: &[
            ("o", 49_167, Some(4_698_827_438_097_109_863)),
            ("m", 98_338, Some(10_645_850_022_461_482_873)),
        ],
    },
    Sized {
        words: "loop sample=c out=o map=m record=r length=120",
        read: &[("c", Made::Clip("YUV4MPEG2 W8 H8 F25:1 Cmono\n", 200, 5))],
        report: "loop 120\nstart 23\ncost 72743\n",
        written: &[
            ("o", 8_428, Some(13_594_136_365_520_443_263)),
            ("m", 274, Some(6_756_023_791_036_649_350)),
            ("r", 2_880_281, Some(7_857_733_113_636_592_219)),
        ],
    },
    Sized {
        words: "grow sample=s out=o map=m record=r width=128 height=128 place=whole",
        read: &[SMALL],
        report: "grow 128x128x1\nplacements 12\nrounds 0\nseams 169150\n",
        written: &[
            ("o", 49_167, Some(4_174_222_674_037_385_747)),
            ("m", 98_338, Some(11_378_218_862_554_438_370)),
            ("r", 287_427, None),
        ],
    },
    Sized {
        words: "grow sample=s out=o map=m record=r width=96 height=96 turns=all",
        read: &[SMALL],
        report: "grow 96x96x1\nplacements 16\nrounds 0\nseams 87403\n",
        written: &[
            ("o", 27_661, Some(2_611_895_176_912_972_092)),
            ("m", 92_196, Some(1_052_085_410_411_103_515)),
            ("r", 129_468, None),
        ],
    },
    Sized {
        words: "quilt sample=s out=o map=m record=r width=128 height=128",
        read: &[SMALL],
        report: "quilt 128x128x1\nblocks 25\nboundaries 40\ncost 6247125\n",
        written: &[
            ("o", 49_167, Some(7_782_497_168_379_703_004)),
            ("m", 98_338, Some(9_341_503_898_785_487_465)),
            ("r", 26_491, Some(17_684_001_513_649_891_924)),
        ],
    },
];

#[test]
fn runs_of_real_sizes(rt: HostRuntime) {
    expect_none(&rt, wrong_sized(rt.alloc(), SIZES));
}
