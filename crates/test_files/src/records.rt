// Worked examples of records: files to the byte, the numbers of some, and changes of them with
// their refusals.
use crate::answers::Answered;
use crate::files::File::Changed;
use shelf_core::FormFault::Form;
use shelf_core::ReadError::{Bad, Limit};
use shelf_core::What;

// Two records, of 100 bytes: output 6 x 1 x 1, sample 4 x 1 x 1; a box of 4 x 1 x 1 cells at the
// output's first cell and one at its third, from the sample's first cell; choices and flows: all
// new, and all but the first new.
pub const TWO: &[u8; 100] =
    b"WEAVEREC\x01\x00\0\0\0\x06\0\0\0\x01\0\0\0\x01\0\0\0\x04\0\0\0\x01\0\0\0\x01\
    \0\0\0\x02\
    \0\0\0\0\0\0\0\x04\0\x01\0\x01\0\0\0\0\0\0\xf0\0\0\0\0\0\0\0\0\0\0\0\0\
    \0\x02\0\0\0\0\0\x04\0\x01\0\x01\0\0\0\0\0\0\x70\0\x78\0\x78\0\x78\0\0\0\0\0\0";

// The same and a third one, whose cells are new but the last.
pub const THREE: &[u8; 131] =
    b"WEAVEREC\x01\x00\0\0\0\x06\0\0\0\x01\0\0\0\x01\0\0\0\x04\0\0\0\x01\0\0\0\x01\
    \0\0\0\x03\
    \0\0\0\0\0\0\0\x04\0\x01\0\x01\0\0\0\0\0\0\xf0\0\0\0\0\0\0\0\0\0\0\0\0\
    \0\x02\0\0\0\0\0\x04\0\x01\0\x01\0\0\0\0\0\0\x70\0\x78\0\x78\0\x78\0\0\0\0\0\0\
    \0\0\0\0\0\0\0\x04\0\x01\0\x01\0\0\0\0\0\0\xe0\0\0\0\0\0\0\0\0\0\0\xff\x88";

// The two records in version 2, with one sample.
pub const NUMBERED: &[u8; 106] =
    b"WEAVEREC\x02\x00\0\0\0\x06\0\0\0\x01\0\0\0\x01\0\x01\0\0\0\x04\0\0\0\x01\0\0\0\x01\
    \0\0\0\x02\
    \0\0\0\0\0\0\0\x04\0\x01\0\x01\0\x01\0\0\0\0\0\0\xf0\0\0\0\0\0\0\0\0\0\0\0\0\
    \0\x02\0\0\0\0\0\x04\0\x01\0\x01\0\x01\0\0\0\0\0\0\x70\0\x78\0\x78\0\x78\0\0\0\0\0\0";

// One record, at the output's third cell, whose cells are new but the last.
pub const ONE: &[u8; 69] =
    b"WEAVEREC\x01\x00\0\0\0\x06\0\0\0\x01\0\0\0\x01\0\0\0\x04\0\0\0\x01\0\0\0\x01\
    \0\0\0\x01\
    \0\x02\0\0\0\0\0\x04\0\x01\0\x01\0\0\0\0\0\0\xe0\0\0\0\0\0\0\0\0\0\0\xff\x88";

pub const ONE_NUMBERS: &[i128] = &[
    1, 0, 6, 1, 1, 4, 1, 1, 1, 2, 0, 0, 4, 1, 1, 0, 0, 0, 0b1110, 0, 0, 0, 0, 0, -120,
];

// The file of a walk of 3 frames over a sample of 1 x 1 x 2: its tables are those for the lengths
// 2 and 3.
pub const WALK: &[u8; 111] =
    b"WEAVEREC\x01\x02\0\0\0\x01\0\0\0\x01\0\0\0\x03\0\0\0\x01\0\0\0\x01\0\0\0\x02\
    \0\0\0\x03\x02\x01\0\0\0\0\x01\0\x01\
    \0\0\0\0\0\0\0\x0a\0\0\0\0\0\0\0\x05\xff\xff\xff\xff\xff\xff\xff\xff\0\0\0\0\0\0\0\x0a\
    \0\0\0\0\0\0\0\x0f\0\0\0\0\0\0\0\x0a\0\0\0\0\0\0\0\x14\x01\x02\x03\x04\x05\x06\x07\x08";

pub const WALK_NUMBERS: &[i128] = &[
    1,
    2,
    1,
    1,
    3,
    1,
    1,
    2,
    3,
    2,
    256,
    0,
    1,
    1,
    10,
    5,
    18446744073709551615,
    10,
    15,
    10,
    20,
    72623859790382856,
];

// The file of two blocks over a sample of 4 x 1 x 1: one of 2 x 2 cells without boundaries, and
// one of 2 x 3 cells with a left strip of 2 columns and a top strip of 3.
pub const BLOCKS: &[u8; 126] =
    b"WEAVEREC\x01\x01\0\0\0\x06\0\0\0\x05\0\0\0\x01\0\0\0\x04\0\0\0\x01\0\0\0\x01\
    \0\0\0\x02\
    \0\0\0\0\0\x02\0\x02\0\0\0\0\0\
    \0\x01\x01\x02\0\x02\0\x03\x01\x03\0\x02\x03\
    \0\x02\0\0\0\x01\x01\x02\
    \0\0\0\x01\0\0\0\x02\0\0\0\x03\0\0\0\x04\0\0\0\x05\0\0\0\x06\
    \0\x03\0\x02\0\x03\
    \0\0\0\x07\0\0\0\x08\0\0\0\x09\0\0\0\x0a\0\0\0\x0b\xff\xff\xff\xff";

pub const BLOCKS_NUMBERS: &[i128] = &[
    1, 1, 6, 5, 1, 4, 1, 1, 2, 0, 0, 2, 2, 0, 0, 0, 1, 258, 2, 3, 259, 2, 3, 2, 0, 1, 258, 1, 2, 3,
    4, 5, 6, 3, 2, 3, 7, 8, 9, 10, 11, 4294967295,
];

/// Records with other bytes from a place on, and why they are refused, or that they are read.
pub const CHANGES: &[Answered<'static>] = &[
    (Changed(TWO, 34, b"\xff\xff\xff\xff"), Some(Bad(Form(100)))),
    (Changed(TWO, 34, b"\0\0\0\x01"), Some(Bad(Form(69)))),
    (Changed(TWO, 8, b"\x03"), Some(Bad(Form(8)))),
    (Changed(TWO, 9, b"\x03"), Some(Bad(Form(9)))),
    (Changed(TWO, 44, b"\0\0"), Some(Bad(Form(44)))),
    (
        Changed(TWO, 44, b"\xff\xff\xff\xff\xff\xff"),
        Some(Limit {
            what: What::Records,
            number: 281462092005375,
            bound: 33554432,
        }),
    ),
    (Changed(TWO, 50, b"\0\x04"), Some(Bad(Form(50)))),
    (Changed(TWO, 56, b"\xf1"), Some(Bad(Form(56)))),
    // 4 cells and 8,190 x 4,097.
    (
        Changed(TWO, 75, b"\x1f\xfe\x10\x01\0\x01"),
        Some(Limit {
            what: What::Records,
            number: 33554434,
            bound: 33554432,
        }),
    ),
    (Changed(TWO, 0, b""), None),
    (Changed(WALK, 9, b"\x03"), Some(Bad(Form(9)))),
    (Changed(WALK, 8, b"\x02"), Some(Bad(Form(9)))),
    (
        Changed(WALK, 30, b"\0\0\x01\x01\0\0\0\0"),
        Some(Limit {
            what: What::Frames,
            number: 257,
            bound: 256,
        }),
    ),
    (Changed(WALK, 34, b"\0\0\0\0"), Some(Bad(Form(34)))),
    (
        Changed(WALK, 34, b"\0\0\x10\x01"),
        Some(Limit {
            what: What::Loop,
            number: 4097,
            bound: 4096,
        }),
    ),
    (Changed(WALK, 34, b"\0\0\0\x02"), Some(Bad(Form(77)))),
    (Changed(WALK, 34, b"\0\0\0\x04"), Some(Bad(Form(111)))),
    (Changed(WALK, 38, b"\x03"), Some(Bad(Form(38)))),
    (Changed(WALK, 39, b"\0\0"), Some(Bad(Form(39)))),
    (Changed(WALK, 39, b"\x01\x01"), Some(Bad(Form(39)))),
    (Changed(WALK, 0, b""), None),
    (Changed(BLOCKS, 8, b"\x02"), Some(Bad(Form(9)))),
    (
        Changed(BLOCKS, 34, b"\xff\xff\xff\xff"),
        Some(Bad(Form(126))),
    ),
    (Changed(BLOCKS, 34, b"\0\0\0\x01"), Some(Bad(Form(51)))),
    (
        Changed(BLOCKS, 42, b"\xff\xff\xff\xff"),
        Some(Limit {
            what: What::Records,
            number: 4294836225,
            bound: 33554432,
        }),
    ),
    (Changed(BLOCKS, 55, b"\0\0"), Some(Bad(Form(55)))),
    (Changed(BLOCKS, 57, b"\0\0"), Some(Bad(Form(57)))),
    // 4 cells and 8,190 x 4,097.
    (
        Changed(BLOCKS, 55, b"\x1f\xfe\x10\x01"),
        Some(Limit {
            what: What::Records,
            number: 33554434,
            bound: 33554432,
        }),
    ),
    (Changed(BLOCKS, 63, b"\x04"), Some(Bad(Form(63)))),
    (Changed(BLOCKS, 63, b"\0"), Some(Bad(Form(64)))),
    (Changed(BLOCKS, 63, b"\x01"), Some(Bad(Form(96)))),
    (Changed(BLOCKS, 63, b"\x02"), Some(Bad(Form(86)))),
    (Changed(BLOCKS, 64, b"\0\0"), Some(Bad(Form(64)))),
    (Changed(BLOCKS, 64, b"\0\x03"), Some(Bad(Form(64)))),
    (Changed(BLOCKS, 96, b"\0\0"), Some(Bad(Form(96)))),
    (Changed(BLOCKS, 96, b"\0\x04"), Some(Bad(Form(96)))),
    (Changed(BLOCKS, 0, b""), None),
];
