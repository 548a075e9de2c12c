// Reading and writing whole pieces. A call that a signal broke off is tried again.
ghost use Rattle.std.specs.Prelude.{◌≡◌, ◌≤◌, ◌<◌, take, length, IfOk, OnOk, OnErr};
ghost use Rattle.std.specs.Io.KnownBytes.{Appends, Consumes, IsAtEnd, Keeps};

use shelf_traits::Failed;
use std::io::{self, ErrorKind, Read, Write};

/// One read, of as many bytes as there are at once: they are the next ones, and none only at the end.
pub fn read_some<R: Read>(reader: &mut R, into: &mut [u8]) -> io::Result<usize>
    ensures within { IfOk result (λ n. n ≤ length into.old) }
    ensures bytes { IfOk result (λ n.
        Consumes (R.remaining reader.old) (R.remaining reader.new) (take n into.new)) }
    ensures end { IfOk result (λ n.
        n ≡ 0 → 0 < length into.old → IsAtEnd (R.remaining reader.new)) }
    ensures kept { OnErr result (Keeps (R.remaining reader.old) (R.remaining reader.new)) }
{
    for _ in 0..u64::MAX {
        match reader.read(into) {
            Err(error) if error.kind() == ErrorKind::Interrupted => {}
            read => return read,
        }
    }
    Err(io::Error::from(ErrorKind::Interrupted))
}

/// Reads until the buffer is full or the reader ends: what was read are its next bytes, and it is at
/// its end where the buffer isn't full.
pub fn read_full<R: Read>(reader: &mut R, into: &mut [u8]) -> io::Result<usize>
    ensures within { IfOk result (λ n. n ≤ length into.old) }
    ensures bytes { IfOk result (λ n.
        Consumes (R.remaining reader.old) (R.remaining reader.new) (take n into.new)) }
    ensures full { IfOk result (λ n. n < length into.old → IsAtEnd (R.remaining reader.new)) }
{
    let mut n = 0;
    'parts: while n < into.len() {
        let more = read_some(reader, &mut into[n..])?;
        if more == 0 {
            return Ok(n);
        }
        n += more;
    }
    Ok(n)
}

/// Writes a whole piece. A write that takes nothing of a piece that isn't empty is a fault.
pub fn write_all_of<W: Write>(writer: &mut W, piece: &[u8]) -> Result<(), Failed>
    ensures { OnOk result (Appends (W.contents writer.old) (W.contents writer.new) piece.now) }
{
    match writer.write_all(piece) {
        Ok(()) => Ok(()),
        Err(_) => Err(Failed),
    }
}
