// The lines of each status.

// Every line begins so.
const NAME: &[u8] = b"weave: ";

/// A status, how a line of it goes on, and how it ends.
pub type Ending<'a> = (u8, &'a [u8], &'a [u8]);

/// The lines of all statuses.
pub const LINES: &[Ending<'static>] = &[
    (2, b"no command\n", b""),
    (2, b"unknown command\n", b""),
    (2, b"word ", b""),
    (2, b"missing key ", b""),
    (2, b"wrapped axis ", b""),
    (3, b"sample", b""),
    (3, b"target: ", b""),
    (3, b"out: ", b""),
    (3, b"map: ", b""),
    (3, b"record: ", b""),
    (3, b"marks: ", b""),
    (4, b"limit ", b""),
    (5, b"", b": read fault\n"),
    (6, b"", b": write fault\n"),
    (7, b"no memory\n", b""),
    (8, b"no loop of length ", b""),
];

/// Whether the bytes are one line, and it goes with the status. (A table that is given is no part of
/// the proof.)
pub fn is_line_of(lines: &[Ending], status: u8, bytes: &[u8]) -> bool {
    let Some(text) = bytes.strip_prefix(NAME) else {
        return false;
    };
    let Some((last, front)) = text.split_last() else {
        return false;
    };
    let is_one_line = (*last == b'\n') & !front.contains(&b'\n');
    if !is_one_line | ((status == 3) & text.ends_with(b" fault\n")) {
        return false;
    }
    for (of, first, end) in lines {
        if (*of == status) & text.starts_with(*first) & text.ends_with(*end) {
            return true;
        }
    }
    false
}
