// Worked examples of clips: the bytes of a file and the answer, spelled from the grammar by hand.
use crate::answers::Answered;
use crate::files::File::Whole;
use shelf_core::FormFault::{Cell, Form, NoFrames, Space};
use shelf_core::ReadError::{Bad, Limit};
use shelf_core::What;

/// A clip of two cells, whose stream line has 54 bytes.
pub const TWO_CELLS: &[u8] =
    b"YUV4MPEG2 W4 H2 F25:1 Ip A1:1 C420jpeg XYSCSS=420JPEG\nFRAME\n\x01\x02\x03\x04\x05\x06\x07\x08\x09\x0a\x0b\x0c";

/// What is in it: the colour kind, five tags, 6 bytes a cell, one part, its size and its bytes.
pub const TWO_NUMBERS: &[i128] = &[420, 5, 6, 1, 2, 1, 1, 1, 2, 5, 6, 9, 11, 3, 4, 7, 8, 10, 12];

/// Files, and why they are refused, or that they are read.
pub const ANSWERS: &[Answered<'static>] = &[
    (Whole(b"YUV4MPEG2 W5 H2\nFRAME\n"), Some(Bad(Cell))),
    (Whole(b"YUV4MPEG2 W4 H2 C420p10\n"), Some(Bad(Space))),
    (Whole(b"YUV4MPEG2 W4 H2 Im\n"), Some(Bad(Space))),
    (Whole(b"YUV4MPEG2 W4 H2\n"), Some(Bad(NoFrames))),
    (Whole(b"YUV4MPEG2 W4 W4\n"), Some(Bad(Form(13)))),
    (Whole(b"YUV4MPEG2 W4 H0 \n"), Some(Bad(Form(15)))),
    (Whole(b"YUV4MPEG2 W4 H2x\n"), Some(Bad(Form(15)))),
    (Whole(b"YUV4MPEG2 W4\n"), Some(Bad(Form(12)))),
    (Whole(b"YUV4MPEG2\n"), Some(Bad(Form(9)))),
    (Whole(b"YUV4MPEG3"), Some(Bad(Form(8)))),
    (Whole(b"YUV4MPEG2 W4 H2 I I\n"), Some(Bad(Form(18)))),
    (Whole(b""), Some(Bad(Form(0)))),
    (
        Whole(b"YUV4MPEG2 W99999999999999999999 H1 Cmono\n"),
        Some(Limit {
            what: What::Axis,
            number: 18446744073709551615,
            bound: 4096,
        }),
    ),
    (
        Whole(b"YUV4MPEG2 W1 H99999999999999999998 C420\n"),
        Some(Bad(Cell)),
    ),
    (
        Whole(b"YUV4MPEG2 W8 H99999999999999999998 C420\n"),
        Some(Limit {
            what: What::Axis,
            number: 9223372036854775807,
            bound: 4096,
        }),
    ),
    (
        Whole(b"YUV4MPEG2 W5 H2 Cmono\n"),
        Some(Limit {
            what: What::Cells,
            number: 10,
            bound: 8,
        }),
    ),
    (
        Whole(b"YUV4MPEG2 H1 W1 Cmono X\nFRAMED"),
        Some(Bad(Form(29))),
    ),
    (
        Whole(b"YUV4MPEG2 H1 W1 Cmono X\nFRAME Ip\nAfRAME"),
        Some(Bad(Form(34))),
    ),
    (Whole(b"YUV4MPEG2 H1 W1 Cmono  \nFRAME \nA"), None),
    (
        Whole(b"YUV4MPEG2 W2 H2 C444 X X\nFRAME\n0123abcdABCD"),
        None,
    ),
    (
        Whole(b"YUV4MPEG2 W4 H2 C422\nFRAME\n01234567abcdABCD"),
        None,
    ),
    (Whole(b"YUV4MPEG2 W4 H2 C411\nFRAME\n01234567abAB"), None),
    (Whole(b"YUV4MPEG2 W4 H2\nFRAME\n01234567abAB"), None),
    (
        Whole(b"YUV4MPEG2 W2 H2 Cmono\nFRAME\n0123FRAME\n4567x"),
        Some(Limit {
            what: What::Cells,
            number: 12,
            bound: 8,
        }),
    ),
];
