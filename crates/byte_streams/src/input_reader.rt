// A file that is read from any place, be it a pipe that can't go back.
ghost use Rattle.std.specs.Prelude.{◌≡◌, ◌≤◌, ◌<◌, ◌+◌, ◌^◌, ℕ, List, length, Some, IfOk, OnOk};
ghost use Rattle.byte_streams.specs.Places.{KnownReads};
ghost use Rattle.byte_streams.specs.Readers.{FileFollows, HasRead, KeptOf};

use crate::input::{InputFile, read_on};
use crate::last_bytes::LastBytes;
use shelf_traits::Failed;
use std::alloc::{AllocError, Global};
use std::marker::Model;

/// A file that is read from any place. It is read on from where it has been read to, and of what was
/// read the last `KEPT` bytes are kept, so that a pipe can be read again from a little before.
#[derive(Drop)]
pub struct InputReader<F: InputFile + Drop, const KEPT: usize> {
    file: Option<F>,
    // how many bytes of the file come before the next one, if that is known
    place: Option<u64>,
    last: LastBytes<KEPT>,
}

// A clause sees whether a file is open, and its bytes, where they are known.
impl<F: InputFile + Drop, const KEPT: usize> Model for InputReader<F, KEPT> {
    ghost use Rattle.std.specs.Prelude.{ℕ, List, Option};
    ghost use Rattle.std.specs.Option.{option_map};
    ghost use Rattle.byte_streams.specs.Readers.{Follows};

    ghost Value = { Option (Option (List ℕ)) };

    ghost view = { λ a. option_map F.bytes a.file };

    ghost invariant = { λ a. Follows F.bytes F.place a.file a.place a.last };
}

// Goes to a place, unless the file stands there. What is kept ends at that place then.
fn stand_at<F: InputFile, const KEPT: usize>(
    file: &mut F,
    place: Option<u64>,
    last: &mut LastBytes<KEPT>,
    at: u64,
) -> Result<(), Failed>
    requires { FileFollows (F.bytes file.old) (F.place file.old) place last.old }
    ensures stands { OnOk result
        (FileFollows (F.bytes file.new) (F.place file.new) (Some at) last.new) }
    ensures kept { F.bytes file.new ≡ F.bytes file.old }
{
    if place == Some(at) {
        return Ok(());
    }
    last.clear();
    let Ok(()) = file.go_to(at) else {
        return Err(Failed);
    };
    Ok(())
}

// Reads from a place on, and keeps the end of what was read.
fn read_from<F: InputFile, const KEPT: usize>(
    file: &mut F,
    place: &mut Option<u64>,
    last: &mut LastBytes<KEPT>,
    at: u64,
    into: &mut [u8],
) -> Result<usize, Failed>
    requires { FileFollows (F.bytes file.old) (F.place file.old) place.old last.old }
    ensures within { IfOk result (λ n. n ≤ length into.old) }
    ensures read { IfOk result (λ n. KnownReads (F.bytes file.old) at into.new n) }
    ensures kept { F.bytes file.new ≡ F.bytes file.old }
    ensures follows { FileFollows (F.bytes file.new) (F.place file.new) place.new last.new }
{
    let stood = place.take();
    stand_at(file, stood, last, at)?;
    let Ok(n) = read_on(file, into) else {
        return Err(Failed);
    };
    last.keep_end(&into[..n]);
    *place = at.checked_add(n as u64);
    Ok(n)
}

// Copies what is kept of the bytes from a place on, where that place is among them.
fn copy_back<const KEPT: usize>(
    last: &LastBytes<KEPT>,
    place: Option<u64>,
    at: u64,
    into: &mut [u8],
) -> usize
    ensures within { result ≤ length into.old }
    ensures fits { at + result < 2 ^ 64 }
    ensures read { (xs : List ℕ) → KeptOf xs place last.now → HasRead xs at into.new result }
{
    match place {
        Some(place) => last.copy_kept(place.saturating_sub(at), into),
        None => 0,
    }
}

// Reads from a place on: first what is kept, then the file.
fn read_file<F: InputFile, const KEPT: usize>(
    file: &mut F,
    place: &mut Option<u64>,
    last: &mut LastBytes<KEPT>,
    at: u64,
    into: &mut [u8],
) -> Result<usize, Failed>
    requires { FileFollows (F.bytes file.old) (F.place file.old) place.old last.old }
    ensures within { IfOk result (λ n. n ≤ length into.old) }
    ensures read { IfOk result (λ n. KnownReads (F.bytes file.old) at into.new n) }
    ensures kept { F.bytes file.new ≡ F.bytes file.old }
    ensures follows { FileFollows (F.bytes file.new) (F.place file.new) place.new last.new }
{
    let n = copy_back(last, *place, at, into);
    if n == into.len() {
        return Ok(n);
    }
    let more = read_from(file, place, last, at + n as u64, &mut into[n..])?;
    Ok(n + more)
}

impl<F: InputFile + Drop, const KEPT: usize> InputReader<F, KEPT> {
    ghost use Rattle.std.specs.Prelude.{◌≡◌, ◌≤◌, ◌↔◌, None, Some, IsTrue, IsSome, length, IfOk, OnOk};
    ghost use Rattle.byte_streams.specs.Places.{IsAt, KnownReads};
    ghost use Rattle.byte_streams.specs.Readers.{open_bytes};

    /// No file is open. It takes the memory for what is kept; the one error is out of memory.
    pub fn none(alloc: Global) -> Result<Self, AllocError>
        ensures { IfOk result (λ reader. reader ≡ None) }
    {
        Ok(InputReader {
            file: None,
            place: None,
            last: LastBytes::none(alloc)?,
        })
    }

    /// Whether a file is open.
    pub fn is_open(&self) -> bool
        ensures { IsTrue result ↔ IsSome self.now }
    {
        self.file.is_some()
    }

    /// Takes a file that was just opened in place of the one before, of which nothing is kept.
    pub fn open(&mut self, file: F)
        requires { IsAt (F.bytes file) (F.place file) 0 }
        ensures { self.new ≡ Some (F.bytes file) }
    {
        self.last.clear();
        self.place = Some(0);
        self.file = Some(file);
    }

    /// Closes the file.
    pub fn close(&mut self)
        ensures { self.new ≡ None }
    {
        self.file = None;
    }

    /// Reads the bytes of the file from a place on, as many as the buffer and the file have, and gives
    /// their number. After `Failed` it may be read again: the file stays open.
    pub fn read(&mut self, at: u64, into: &mut [u8]) -> Result<usize, Failed>
        ensures within { IfOk result (λ n. n ≤ length into.old) }
        ensures read { IfOk result (λ n. KnownReads (open_bytes self.old) at into.new n) }
        ensures open { OnOk result (IsSome self.old) }
        ensures kept { self.new ≡ self.old }
    {
        let Some(file) = &mut self.file else {
            return Err(Failed);
        };
        read_file(file, &mut self.place, &mut self.last, at, into)
    }
}
