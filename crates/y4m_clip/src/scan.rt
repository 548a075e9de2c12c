// The scanner of a stream line after its magic: a machine of small steps, one for each byte.
ghost use Rattle.std.specs.Prelude.{◌≡◌, length};
ghost use Rattle.y4m_clip.specs.Scanning.{line_kind, with_letter, may_follow, line_ended, tag_entered, in_number, line_step, IsLineScanned, IsSoundLine};

/// What a byte is in a stream line.
#[derive(Clone, Copy)]
pub enum LineKind {
    Blank,
    LineEnd,
    /// Any byte but blank and LF.
    Ink,
}

/// Which of the letters that may occur once at most have occurred.
#[derive(Clone, Copy)]
pub struct Letters {
    pub w: bool,
    pub h: bool,
    pub f: bool,
    pub i: bool,
    pub a: bool,
    pub c: bool,
}

/// A place in a stream line, with the letters of the tags before it.
#[derive(Clone, Copy)]
pub enum LineScan {
    /// After the magic.
    Magic,
    /// After a blank.
    Gap(Letters),
    /// In a tag other than W and H.
    Value(Letters),
    /// In the number of W or H, of which some digit isn't 0 or none is yet.
    Number(Letters, bool),
    /// After the line.
    Whole,
}

/// What the scanner made of a text.
#[derive(Clone, Copy)]
pub enum ScannedLine {
    /// More is to come.
    Open,
    /// The byte at this index has no place in a stream line.
    Broken(usize),
    /// The line ends after so many bytes.
    Ended(usize),
}

pub fn classify(byte: u8) -> LineKind
    ensures { result ≡ line_kind byte }
{
    match byte {
        b' ' => LineKind::Blank,
        b'\n' => LineKind::LineEnd,
        _ => LineKind::Ink,
    }
}

// No letter.
const NO_LETTERS: Letters = Letters {
    w: false,
    h: false,
    f: false,
    i: false,
    a: false,
    c: false,
};

impl Letters {
    // One more tag has come.
    fn with(self, letter: u8) -> Letters
        ensures { result ≡ with_letter self letter }
    {
        Letters {
            w: letter == b'W' || self.w,
            h: letter == b'H' || self.h,
            f: letter == b'F' || self.f,
            i: letter == b'I' || self.i,
            a: letter == b'A' || self.a,
            c: letter == b'C' || self.c,
        }
    }

    // The next tag may have this letter.
    fn allow(self, letter: u8) -> bool
        ensures { result ≡ may_follow self letter }
    {
        !((letter == b'W' && self.w)
            || (letter == b'H' && self.h)
            || (letter == b'F' && self.f)
            || (letter == b'I' && self.i)
            || (letter == b'A' && self.a)
            || (letter == b'C' && self.c))
    }
}

// LF.
fn end(letters: Letters) -> Option<LineScan>
    ensures { result ≡ line_ended letters }
{
    if letters.w && letters.h {
        Some(LineScan::Whole)
    } else {
        None
    }
}

// The letter of a tag.
fn enter(letters: Letters, letter: u8) -> Option<LineScan>
    ensures { result ≡ tag_entered letters letter }
{
    if !letters.allow(letter) {
        return None;
    }
    let letters = letters.with(letter);
    if letter == b'W' || letter == b'H' {
        Some(LineScan::Number(letters, false))
    } else {
        Some(LineScan::Value(letters))
    }
}

// A byte of a number.
fn number(letters: Letters, positive: bool, byte: u8, kind: LineKind) -> Option<LineScan>
    ensures { result ≡ in_number letters positive byte kind }
{
    match kind {
        LineKind::Blank => if positive {
            Some(LineScan::Gap(letters))
        } else {
            None
        },
        LineKind::LineEnd => if positive { end(letters) } else { None },
        LineKind::Ink => if byte >= b'0' && byte <= b'9' {
            Some(LineScan::Number(letters, positive || byte > b'0'))
        } else {
            None
        },
    }
}

// One byte; None where it has no place there.
fn step(scan: LineScan, byte: u8) -> Option<LineScan>
    ensures { result ≡ line_step scan byte }
{
    match scan {
        LineScan::Magic => if byte == b' ' {
            Some(LineScan::Gap(NO_LETTERS))
        } else {
            None
        },
        LineScan::Gap(letters) => match classify(byte) {
            LineKind::Blank => Some(scan),
            LineKind::LineEnd => end(letters),
            LineKind::Ink => enter(letters, byte),
        },
        LineScan::Value(letters) => match classify(byte) {
            LineKind::Blank => Some(LineScan::Gap(letters)),
            LineKind::LineEnd => end(letters),
            LineKind::Ink => Some(scan),
        },
        LineScan::Number(letters, positive) => number(letters, positive, byte, classify(byte)),
        LineScan::Whole => None,
    }
}

/// Scans what comes after the magic.
pub fn scan_line(text: &[u8]) -> ScannedLine
    ensures scanned { IsLineScanned text.now result }
    ensures sound { IsSoundLine (length text.now) result }
{
    let mut scan = LineScan::Magic;
    for (i, byte) in text.iter().enumerate() {
        match step(scan, *byte) {
            None => return ScannedLine::Broken(i),
            Some(next) => match next {
                LineScan::Whole => return ScannedLine::Ended(i + 1),
                _ => scan = next,
            },
        }
    }
    ScannedLine::Open
}
