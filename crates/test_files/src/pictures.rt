// Worked examples of pictures: the bytes of a file and the answer, spelled from the grammar by
// hand.
use crate::answers::Answered;
use crate::files::File::{Long, Whole};
use shelf_core::FormFault::{Depth, Form, Sample, Trailing};
use shelf_core::ReadError::{Bad, Limit};
use shelf_core::What;

pub const FOUR_BY_ONE: &[u8] = b"P6\n4 1\n255\nabcdefghijkl";

/// That picture, spelled otherwise, and what is in it: the maxval, 3 bytes a cell, one part, its
/// size and its bytes.
pub const FOUR_WITH_COMMENT: &[u8] = b"P6 # four cells\n 4 01\n0255\rabcdefghijkl";

pub const FOUR_NUMBERS: &[i128] = &[
    255, 3, 1, 4, 1, 1, 97, 98, 99, 100, 101, 102, 103, 104, 105, 106, 107, 108,
];

/// Files, and why they are refused, or that they are read.
pub const ANSWERS: &[Answered<'static>] = &[
    (Whole(b"P6\n2 1\n255\nabcdef"), None),
    (Whole(b"P6\n2 1\n255\nabcde"), Some(Bad(Form(16)))),
    (Whole(b"P6\n2 1\n255\nabcdefg"), Some(Bad(Trailing(17)))),
    (Whole(b"P6\n2 1\n65535\nabcdefabcdef"), Some(Bad(Depth))),
    (Whole(b"P6\n1 1\n15\n\x0f\x10\x00"), Some(Bad(Sample(11)))),
    (Whole(b"P6\n1 1\n15\n\x0f\x0e\x0f"), None),
    (Whole(b"P6\n1 1\n15\n\x10"), Some(Bad(Sample(10)))),
    (
        Whole(b"P6\n1 1\n15\n\x0f\x00\x00\x10"),
        Some(Bad(Trailing(13))),
    ),
    (Whole(b""), Some(Bad(Form(0)))),
    (Whole(b"P5\n1 1\n255\nabc"), Some(Bad(Form(1)))),
    (Whole(b"P62 1 255 abcdef"), Some(Bad(Form(2)))),
    (Whole(b"P6\n0 1\n255\n"), Some(Bad(Form(4)))),
    (Whole(b"P6\n1 0#"), Some(Bad(Form(6)))),
    (Whole(b"P6\n1 1\n0\nabc"), Some(Bad(Form(8)))),
    (
        Whole(b"P6\n0001 01 0000000000000000000000000255\nabc"),
        None,
    ),
    (Whole(b"P6 \t\r\n1\t1\r255 abc"), None),
    (Whole(b"P6 1 1 255#x\nabc"), Some(Bad(Form(10)))),
    (Whole(b"P6# a\n1# b\r1# c\n255\nabc"), None),
    (Whole(b"P6 # a\n#\n 1 # b\n 1 # 7\n # c\n255\nabc"), None),
    (Whole(b"P6 1# no end"), Some(Bad(Form(12)))),
    (Whole(b"P6 1 1 255"), Some(Bad(Form(10)))),
    (Whole(b"P6 1x1"), Some(Bad(Form(4)))),
    (Whole(b"P6 1 1 255\n"), Some(Bad(Form(11)))),
    (
        Whole(b"P6 99999999999999999999 1 255\n"),
        Some(Limit {
            what: What::Axis,
            number: 18446744073709551615,
            bound: 4096,
        }),
    ),
    (
        Whole(b"P6 18446744073709551615 1 255\n"),
        Some(Limit {
            what: What::Axis,
            number: 18446744073709551615,
            bound: 4096,
        }),
    ),
    (
        Whole(b"P6 1 99999999999999999999999999 255\n"),
        Some(Limit {
            what: What::Axis,
            number: 18446744073709551615,
            bound: 4096,
        }),
    ),
    (
        Whole(b"P6 4097 5000 255\n"),
        Some(Limit {
            what: What::Axis,
            number: 4097,
            bound: 4096,
        }),
    ),
    (
        Whole(b"P6 4096 5000 255\n"),
        Some(Limit {
            what: What::Axis,
            number: 5000,
            bound: 4096,
        }),
    ),
    (
        Whole(b"P6 4096 4096 255\n"),
        Some(Limit {
            what: What::Cells,
            number: 16777216,
            bound: 8388608,
        }),
    ),
    (
        Whole(b"P6 4096 2049 1\n"),
        Some(Limit {
            what: What::Cells,
            number: 8392704,
            bound: 8388608,
        }),
    ),
    (Whole(b"P6 4096 2048 1\n"), Some(Bad(Form(15)))),
    (Whole(b"P6 4097 1 256\n"), Some(Bad(Depth))),
    (Whole(b"P6 4097 1 256"), Some(Bad(Form(13)))),
    (Whole(b"P6 1 1 99999999999999999999\n"), Some(Bad(Depth))),
    (Whole(b"P6 1 1 256\nabc"), Some(Bad(Depth))),
    (Whole(b"P6 1 1 1\n\x00\x01\x01"), None),
    (Whole(b"P6 1 1 1\n\x00\x01\x02"), Some(Bad(Sample(11)))),
    (Whole(b"Y"), Some(Bad(Form(0)))),
    // As ppmmake, ImageMagick (with a comment, and with 16 bits) and ffmpeg write them.
    (
        Whole(
            b"P6\n3 2\n255\n\xff\x80\x10\xff\x80\x10\xff\x80\x10\xff\x80\x10\xff\x80\x10\xff\x80\x10",
        ),
        None,
    ),
    (
        Whole(
            b"P6\n#made by a paint program\n5 4\n255\n\xff\x00\x00\xff\x00\x00\xff\x00\x00\xff\x00\x00\xff\x00\x00\xaa\x00U\xaa\x00U\xaa\x00U\xaa\x00U\xaa\x00UU\x00\xaaU\x00\xaaU\x00\xaaU\x00\xaaU\x00\xaa\x00\x00\xff\x00\x00\xff\x00\x00\xff\x00\x00\xff\x00\x00\xff",
        ),
        None,
    ),
    (
        Whole(
            b"P6\n3 2\n65535\n\xff\xff\x00\x00\x00\x00\xff\xff\x00\x00\x00\x00\xff\xff\x00\x00\x00\x00\x00\x00\x00\x00\xff\xff\x00\x00\x00\x00\xff\xff\x00\x00\x00\x00\xff\xff",
        ),
        Some(Bad(Depth)),
    ),
    (
        Whole(
            b"P6\n4 2\n255\n?\x7f\xc0?\x7f\xc0?\x7f\xc0?\x7f\xc0?\x7f\xc0?\x7f\xc0?\x7f\xc0?\x7f\xc0",
        ),
        None,
    ),
    // A header that goes on through a comment.
    (Long(b"P6\n#", 65532, b'a', b""), Some(Bad(Form(65536)))),
    (
        Long(b"P6\n#", 65533, b'a', b""),
        Some(Limit {
            what: What::Header,
            number: 65537,
            bound: 65536,
        }),
    ),
    (
        Long(b"P6\n#", 65532, b'a', b"\n1 1 255 abc"),
        Some(Limit {
            what: What::Header,
            number: 65537,
            bound: 65536,
        }),
    ),
    (
        Long(b"P6\n#", 65521, b'a', b"\n1 1 255 \n abc"),
        Some(Bad(Trailing(65537))),
    ),
    (Long(b"P6\n#", 65523, b'a', b"\n1 1 255 abc"), None),
    (
        Long(b"P6\n#", 65524, b'a', b"\n1 1 255 abc"),
        Some(Limit {
            what: What::Header,
            number: 65537,
            bound: 65536,
        }),
    ),
    (
        Long(b"P6\n#", 65524, b'a', b"\n1 1 255#abc"),
        Some(Bad(Form(65536))),
    ),
];
