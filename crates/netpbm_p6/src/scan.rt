// The scanner of a header: a machine of small steps, one for each byte.
ghost use Rattle.std.specs.Prelude.{◌≡◌, length, IfSome};
ghost use Rattle.shelf_traits.specs.Decimals.{capped};
ghost use Rattle.netpbm_p6.specs.Scanning.{kind_of, opened, ended, after_digit, step_of, IsOpenScan, HasPositiveNumbers, IsScanned, IsSoundScanned};

/// What a byte is in a header.
#[derive(Clone, Copy)]
pub enum ByteKind {
    /// A blank or a TAB.
    Blank,
    /// CR or LF.
    LineEnd,
    /// `#`.
    Hash,
    /// A decimal digit.
    Digit,
    /// Any other byte.
    Other,
}

/// The numbers that were read: none, the width, or width and height.
#[derive(Clone, Copy)]
pub enum Numbers {
    Nothing,
    Width(u64),
    Both(u64, u64),
}

/// A place in a header. Numbers stand as far as a u64 goes.
#[derive(Clone, Copy)]
pub enum Scan {
    /// Before everything.
    Start,
    /// After the `P`.
    Letter,
    /// After the magic.
    Magic,
    /// In a separator, after a whole item.
    Between(Numbers),
    /// In a comment.
    Comment(Numbers),
    /// In a number, with its value so far.
    Digits(Numbers, u64),
    /// After the header: width, height and maxval.
    Whole(u64, u64, u64),
}

/// The numbers of a header, as far as a u64 goes, and its length in bytes.
#[derive(Clone, Copy)]
pub struct Header {
    pub width: u64,
    pub height: u64,
    pub maxval: u64,
    pub length: u64,
}

/// What the scanner made of a piece.
#[derive(Clone, Copy)]
pub enum Scanned {
    /// More is to come.
    Open(Scan),
    /// The byte at this index of the piece, or the end of the file there, has no place in a header.
    Broken(usize),
    /// The header ends in the piece, after `length` of its bytes.
    Ended(Header),
}

fn classify(byte: u8) -> ByteKind
    ensures { result ≡ kind_of byte }
{
    match byte {
        b' ' | b'\t' => ByteKind::Blank,
        b'\r' | b'\n' => ByteKind::LineEnd,
        b'#' => ByteKind::Hash,
        b'0'..=b'9' => ByteKind::Digit,
        _ => ByteKind::Other,
    }
}

// A byte that may begin a separator.
fn open(numbers: Numbers, kind: ByteKind) -> Option<Scan>
    ensures { result ≡ opened numbers kind }
{
    match kind {
        ByteKind::Blank | ByteKind::LineEnd => Some(Scan::Between(numbers)),
        ByteKind::Hash => Some(Scan::Comment(numbers)),
        ByteKind::Digit | ByteKind::Other => None,
    }
}

// A byte after a number of at least 1.
fn end(numbers: Numbers, number: u64, kind: ByteKind) -> Option<Scan>
    ensures { result ≡ ended numbers number kind }
{
    match numbers {
        Numbers::Nothing => open(Numbers::Width(number), kind),
        Numbers::Width(width) => open(Numbers::Both(width, number), kind),
        // The byte is to end the header.
        Numbers::Both(width, height) => match kind {
            ByteKind::Blank | ByteKind::LineEnd => Some(Scan::Whole(width, height, number)),
            _ => None,
        },
    }
}

// A byte after a digit.
fn count(numbers: Numbers, number: u64, byte: u8, kind: ByteKind) -> Option<Scan>
    ensures { result ≡ after_digit capped numbers number byte kind }
{
    match kind {
        ByteKind::Digit => {
            let digit = u64::from(byte.saturating_sub(b'0'));
            Some(Scan::Digits(numbers, number.saturating_mul(10).saturating_add(digit)))
        }
        _ => if number == 0 {
            None
        } else {
            end(numbers, number, kind)
        },
    }
}

// One byte; None where it has no place there.
fn step(scan: Scan, byte: u8) -> Option<Scan>
    requires { IsOpenScan scan }
    ensures step { result ≡ step_of capped scan byte }
    ensures sound { IfSome result HasPositiveNumbers }
{
    match scan {
        Scan::Start => if byte == b'P' {
            Some(Scan::Letter)
        } else {
            None
        },
        Scan::Letter => if byte == b'6' {
            Some(Scan::Magic)
        } else {
            None
        },
        Scan::Magic => open(Numbers::Nothing, classify(byte)),
        Scan::Between(numbers) => match classify(byte) {
            ByteKind::Digit => Some(Scan::Digits(numbers, u64::from(byte.saturating_sub(b'0')))),
            kind => open(numbers, kind),
        },
        Scan::Comment(numbers) => match classify(byte) {
            ByteKind::LineEnd => Some(Scan::Between(numbers)),
            _ => Some(Scan::Comment(numbers)),
        },
        Scan::Digits(numbers, number) => count(numbers, number, byte, classify(byte)),
        Scan::Whole(..) => None,
    }
}

/// Scans a piece of a header, from an open place on.
pub fn scan_piece(start: Scan, piece: &[u8]) -> Scanned
    requires { IsOpenScan start }
    ensures scanned { IsScanned start piece.now result }
    ensures sound { IsSoundScanned (length piece.now) result }
{
    let mut scan = start;
    for (i, byte) in piece.iter().enumerate() {
        match step(scan, *byte) {
            None => return Scanned::Broken(i),
            Some(next) => match next {
                Scan::Whole(width, height, maxval) => {
                    return Scanned::Ended(Header {
                        width,
                        height,
                        maxval,
                        length: i as u64 + 1,
                    });
                }
                _ => scan = next,
            },
        }
    }
    Scanned::Open(scan)
}
