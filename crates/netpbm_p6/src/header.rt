// Reading the header of a picture, and its limits.
ghost use Rattle.std.specs.Prelude.{◌≡◌, ◌<◌, length, drop, IfOk, OnErr};
ghost use Rattle.shelf_traits.specs.Files.{InFile, OnlyReadsFile, ReadsRose};
ghost use Rattle.netpbm_p6.specs.Scanning.{IsOpenScan, IsSoundScanned, IsSoundHeader};
ghost use Rattle.netpbm_p6.specs.Reading.{ScansOn, cut_at, past_of, HeadsAs, IsAllowed};

use crate::scan::{Header, Scan, Scanned, scan_piece};
use cells::Size;
use limits::{GREATEST_AXIS, MOST_HEADER_BYTES, MOST_SAMPLE_CELLS};
use shelf_traits::{Failed, FormFault, ReadError, Shelf, What};

/// How many bytes of a header are read at once, and how often for a header of `MOST_HEADER_BYTES`.
const PIECE: usize = 4096;

const PIECES: u64 = 16;

// A header that is still open where the file ends, after `count` bytes of a piece, breaks off there.
fn cut_off(scanned: Scanned, count: usize, room: usize) -> Scanned
    ensures { result ≡ cut_at count room scanned }
{
    match scanned {
        Scanned::Open(_) if count < room => Scanned::Broken(count),
        _ => scanned,
    }
}

// Scans the bytes of a file from a place on, as far as the buffer goes.
fn scan_at<S: Shelf>(
    shelf: &mut S,
    name: &str,
    at: u64,
    scan: Scan,
    buffer: &mut [u8],
) -> Result<Scanned, Failed>
    requires { IsOpenScan scan }
    ensures scanned { IfOk result (λ scanned.
        InFile name.now (S.state shelf.old) (S.state shelf.new) (λ bytes.
        ScansOn (drop at bytes) scan (length buffer.old) scanned)) }
    ensures sound { IfOk result (IsSoundScanned (length buffer.old)) }
    ensures reads { OnlyReadsFile name.now (S.state shelf.old) (S.state shelf.new) }
    ensures failed { OnErr result (ReadsRose name.now (S.state shelf.old) (S.state shelf.new)) }
{
    let count = shelf.get(name, at, buffer)?;
    let scanned = scan_piece(scan, &buffer[..count]);
    Ok(cut_off(scanned, count, buffer.len()))
}

// The refusal of a header of more than `MOST_HEADER_BYTES` bytes, by what the scanner makes of the
// byte past them.
fn past(scanned: Scanned) -> ReadError
    ensures { result ≡ past_of scanned }
{
    match scanned {
        Scanned::Broken(_) => ReadError::Bad(FormFault::Form(MOST_HEADER_BYTES)),
        _ => ReadError::Limit {
            what: What::Header,
            number: MOST_HEADER_BYTES + 1,
            bound: MOST_HEADER_BYTES,
        },
    }
}

/// Reads the header of the named file, in pieces.
pub fn read_header<S: Shelf>(shelf: &mut S, name: &str) -> Result<Header, ReadError>
    ensures header { HeadsAs name.now (S.state shelf.old) (S.state shelf.new) result }
    ensures sound { IfOk result (IsSoundHeader MOST_HEADER_BYTES) }
    ensures reads { OnlyReadsFile name.now (S.state shelf.old) (S.state shelf.new) }
{
    let mut buffer = [0u8; PIECE];
    let mut scan = Scan::Start;
    for piece in 0..PIECES {
        let at = piece * PIECE as u64;
        match scan_at(shelf, name, at, scan, &mut buffer)? {
            Scanned::Broken(i) => return Err(ReadError::Bad(FormFault::Form(at + i as u64))),
            Scanned::Ended(header) => {
                return Ok(Header {
                    length: at + header.length,
                    ..header
                });
            }
            Scanned::Open(next) => scan = next,
        }
    }
    let mut next = [0u8; 1];
    let scanned = scan_at(shelf, name, MOST_HEADER_BYTES, scan, &mut next)?;
    Err(past(scanned))
}

/// The size and the maxval of a header within the limits: the depth is tried first, then the width,
/// the height and the number of cells.
pub fn within_limits(header: &Header) -> Result<(Size, u8), ReadError>
    ensures { IsAllowed header.now result }
{
    if header.maxval > 255 {
        return Err(ReadError::Bad(FormFault::Depth));
    }
    if header.width > u64::from(GREATEST_AXIS) {
        return Err(axis_passed(header.width));
    }
    if header.height > u64::from(GREATEST_AXIS) {
        return Err(axis_passed(header.height));
    }
    let number = header.width * header.height;
    if number > MOST_SAMPLE_CELLS {
        return Err(ReadError::Limit {
            what: What::Cells,
            number,
            bound: MOST_SAMPLE_CELLS,
        });
    }
    let size = Size {
        w: header.width as u32,
        h: header.height as u32,
        f: 1,
    };
    Ok((size, header.maxval as u8))
}

fn axis_passed(number: u64) -> ReadError
    ensures { result ≡ ReadError.Limit What.Axis number GREATEST_AXIS }
{
    ReadError::Limit {
        what: What::Axis,
        number,
        bound: u64::from(GREATEST_AXIS),
    }
}
