// Which marks are bad.
use crate::expect::expect_row;
use crate::pictures::volume_of;
use cells::Size;
use photo_merge::first_bad_mark;

// Two rows of two cells, how many pictures there are, and the first bad cell.
const MARKS: &[([u8; 12], u32, Option<u32>)] = &[
    ([0; 12], 2, None),
    ([2, 0, 0, 1, 0, 0, 0, 0, 0, 2, 0, 0], 2, None),
    ([2, 0, 0, 1, 0, 0, 3, 0, 0, 3, 0, 0], 2, Some(2)),
    ([2, 0, 0, 1, 0, 0, 3, 0, 0, 3, 0, 0], 3, None),
    ([0, 0, 0, 0, 1, 0, 9, 0, 0, 0, 0, 0], 2, Some(1)),
    ([0, 0, 1, 0, 1, 0, 9, 0, 0, 0, 0, 0], 2, Some(0)),
    ([16, 0, 0, 0, 0, 0, 0, 0, 0, 17, 0, 0], 16, Some(3)),
    ([255, 0, 0, 0, 0, 0, 0, 0, 0, 0, 0, 0], 16, Some(0)),
];

const SQUARE: Size = Size { w: 2, h: 2, f: 1 };

#[test]
fn first_bad_marks(rt: HostRuntime) {
    for (i, (bytes, count, bad)) in MARKS.iter().enumerate() {
        let marks = volume_of(&rt, rt.alloc(), SQUARE, 3, bytes);
        expect_row(&rt, i, first_bad_mark(&marks, *count) == *bad);
    }
}
