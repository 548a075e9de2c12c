// Worked examples of maps: files to the byte, and changes of them with their refusals.
use crate::answers::Answered;
use crate::files::File::Changed;
use shelf_core::FormFault::Form;
use shelf_core::ReadError::{Bad, Limit};
use shelf_core::What;

// The map of six cells in a row from cells 0, 1, 2, 1, 2 and 3 of one sample of four, in version
// 1.
pub const PLAIN: [u8; 70] = [
    0x57, 0x45, 0x41, 0x56, 0x45, 0x4d, 0x41, 0x50, 1, 0, 0, 0, 0, 6, 0, 0, 0, 1, 0, 0, 0, 1, 0, 0,
    0, 4, 0, 0, 0, 1, 0, 0, 0, 1, 0, 0, 0, 0, 0, 0, 0, 1, 0, 0, 0, 0, 0, 2, 0, 0, 0, 0, 0, 1, 0, 0,
    0, 0, 0, 2, 0, 0, 0, 0, 0, 3, 0, 0, 0, 0,
];

// The map of 3 x 2 cells, all of one cell.
pub const COPIES: [u8; 70] = [
    0x57, 0x45, 0x41, 0x56, 0x45, 0x4d, 0x41, 0x50, 1, 0, 0, 0, 0, 3, 0, 0, 0, 2, 0, 0, 0, 1, 0, 0,
    0, 1, 0, 0, 0, 1, 0, 0, 0, 1, 0, 0, 0, 0, 0, 0, 0, 0, 0, 0, 0, 0, 0, 0, 0, 0, 0, 0, 0, 0, 0, 0,
    0, 0, 0, 0, 0, 0, 0, 0, 0, 0, 0, 0, 0, 0,
];

// That of `PLAIN` in version 2.
pub const NUMBERED: [u8; 84] = [
    0x57, 0x45, 0x41, 0x56, 0x45, 0x4d, 0x41, 0x50, 2, 0, 0, 0, 0, 6, 0, 0, 0, 1, 0, 0, 0, 1, 0, 1,
    0, 0, 0, 4, 0, 0, 0, 1, 0, 0, 0, 1, 0, 1, 0, 0, 0, 0, 0, 0, 0, 1, 0, 1, 0, 0, 0, 0, 0, 1, 0, 2,
    0, 0, 0, 0, 0, 1, 0, 1, 0, 0, 0, 0, 0, 1, 0, 2, 0, 0, 0, 0, 0, 1, 0, 3, 0, 0, 0, 0,
];

// The frames 1, 0 and 1 of a sample of two.
pub const FRAMES: [u8; 40] = [
    0x57, 0x45, 0x41, 0x56, 0x45, 0x4d, 0x41, 0x50, 1, 1, 0, 0, 0, 2, 0, 0, 0, 1, 0, 0, 0, 3, 0, 0,
    0, 2, 0, 0, 0, 1, 0, 0, 0, 2, 0, 1, 0, 0, 0, 1,
];

/// Maps with other bytes from a place on, and why they are refused.
pub const CHANGES: &[Answered<'static>] = &[
    (Changed(&PLAIN, 7, b"Q"), Some(Bad(Form(0)))),
    (Changed(&PLAIN, 8, &[9]), Some(Bad(Form(8)))),
    (Changed(&PLAIN, 9, &[2]), Some(Bad(Form(9)))),
    (Changed(&NUMBERED, 9, &[1]), Some(Bad(Form(9)))),
    (Changed(&PLAIN, 20, &[0, 0]), Some(Bad(Form(18)))),
    (
        Changed(&PLAIN, 12, &[16, 1]),
        Some(Limit {
            what: What::Axis,
            number: 4097,
            bound: 4096,
        }),
    ),
    (
        Changed(&PLAIN, 12, &[16, 0, 0, 0, 16, 0, 0, 0, 16, 0]),
        Some(Limit {
            what: What::Cells,
            number: 68719476736,
            bound: 1048576,
        }),
    ),
    (Changed(&PLAIN, 34, &[0, 4]), Some(Bad(Form(34)))),
    (Changed(&NUMBERED, 22, &[0, 17]), Some(Bad(Form(22)))),
    (Changed(&NUMBERED, 36, &[0, 2]), Some(Bad(Form(36)))),
    (Changed(&FRAMES, 22, &[0, 1, 0, 2]), Some(Bad(Form(22)))),
    (Changed(&FRAMES, 36, &[0, 2]), Some(Bad(Form(36)))),
];
