// Reads from a place of an open file.
ghost use Rattle.std.specs.Prelude.{◌≡◌, ◌≤◌, ◌<◌, ◌+◌, ℕ, List, Option, length, IfOk, OnOk};
ghost use Rattle.byte_streams.specs.Places.{IsAt, KnownReads, ReadsSome};

use crate::pieces::read_some;
use std::fs::File;
use std::io::{self, Seek, SeekFrom};

/// An open file that is read, from one place or another.
pub trait InputFile {
    /// All its bytes, where they are known. A call leaves them as they are.
    ghost bytes: { Self → Option (List ℕ) };

    /// The place of the byte that is read next, counted from 0.
    ghost place: { Self → ℕ };

    /// One read, of as many bytes as there are at once; none only at the end.
    fn read_some(&mut self, into: &mut [u8]) -> io::Result<usize>
        ensures within { IfOk result (λ n. n ≤ length into.old) }
        ensures read { IfOk result (λ n. ReadsSome (bytes self.old) (place self.old) into.new n) }
        ensures moved { IfOk result (λ n.
            IsAt (bytes self.old) (place self.new) (place self.old + n)) }
        ensures kept { bytes self.new ≡ bytes self.old };

    /// Goes to a place, from which it is read next. It may be past the end.
    fn go_to(&mut self, at: u64) -> io::Result<()>
        ensures moved { OnOk result (IsAt (bytes self.old) (place self.new) at) }
        ensures kept { bytes self.new ≡ bytes self.old };
}

/// Reads from where the file is until the buffer is full or the file ends.
pub(crate) fn read_on<F: InputFile>(file: &mut F, into: &mut [u8]) -> io::Result<usize>
    ensures within { IfOk result (λ n. n ≤ length into.old) }
    ensures read { IfOk result (λ n. KnownReads (F.bytes file.old) (F.place file.old) into.new n) }
    ensures moved { IfOk result (λ n.
        IsAt (F.bytes file.old) (F.place file.new) (F.place file.old + n)) }
    ensures kept { F.bytes file.new ≡ F.bytes file.old }
{
    let mut n = 0;
    'parts: while n < into.len() {
        let more = file.read_some(&mut into[n..])?;
        if more == 0 {
            return Ok(n);
        }
        n += more;
    }
    Ok(n)
}

/// Reads from a place on until the buffer is full or the file ends.
pub fn read_at<F: InputFile>(file: &mut F, at: u64, into: &mut [u8]) -> io::Result<usize>
    ensures within { IfOk result (λ n. n ≤ length into.old) }
    ensures read { IfOk result (λ n. KnownReads (F.bytes file.old) at into.new n) }
    ensures kept { F.bytes file.new ≡ F.bytes file.old }
{
    file.go_to(at)?;
    read_on(file, into)
}

// The system tells no bytes.
impl InputFile for File {
    ghost use Rattle.std.specs.Prelude.{None};

    ghost bytes = { λ _. None };

    ghost place = { λ _. 0 };

    fn read_some(&mut self, into: &mut [u8]) -> io::Result<usize> {
        read_some(self, into)
    }

    fn go_to(&mut self, at: u64) -> io::Result<()> {
        self.seek(SeekFrom::Start(at))?;
        Ok(())
    }
}
