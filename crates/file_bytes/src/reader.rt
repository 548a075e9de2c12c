// Reading a file through one buffer.
ghost use Rattle.std.specs.Prelude.{◌≡◌, ◌≤◌, ◌<◌, ◌+◌, ◌*◌, ◌^◌, ◌++◌, [], ◌∷◌, length, take, drop, ◌/◌, min, max, IsTrue, ◌↔◌, OnOk, OnErr, IfOk, IfErr, true, false, vec_len, vec_capacity};
ghost use Rattle.shelf_traits.specs.Files.{OnlyReadsFile, ReadsRose};
ghost use Rattle.std.specs.List.{flat_map};
ghost use Rattle.file_bytes.specs.declared.reader.TheConstants.{LEAST_ROOM};
ghost use Rattle.file_bytes.specs.Reading.{Follows, Stops, StopsInList, StopsShort, Took, after_serving};

use crate::field::Field;
use shelf_traits::{Failed, FormFault, ReadError, Shelf};
use std::alloc::{AllocError, Global};
use std::marker::Model;

// How many bytes are asked for at a time.
const ROOM: usize = 8192;

// The least number of items that a list takes memory for.
const LEAST_ROOM: usize = 1024;

/// A file that is being read from its first byte on. Each byte is asked for once.
///
/// Each call takes the same shelf and name. No call takes memory but those that give a list, which take
/// it as bytes come.
#[derive(Drop)]
pub struct FileReader {
    buffer: [u8; ROOM],
    start: usize,
    end: usize,
    at: u64,
    ended: bool,
}

impl Model for FileReader {
    ghost use Rattle.std.specs.Prelude.{take, drop, ◌-◌, ◌≤◌};
    ghost use Rattle.file_bytes.specs.Reading.{Reading};
    ghost use Rattle.file_bytes.specs.declared.reader.TheConstants.{ROOM};

    ghost Value = { Reading };

    ghost view = { λ a. record {
      at = a.at;
      waiting = take (a.end - a.start) (drop a.start a.buffer);
      ended = a.ended;
    } };

    ghost invariant = { λ a. (a.start ≤ a.end) × (a.end ≤ ROOM) };
}

/// Makes room for one more item of a list that is read. Where there is none, it takes room for an eighth
/// more than there are, but for no more than are missing: a list takes memory as its items come.
pub fn make_room<T>(items: &mut Vec<T>, missing: usize) -> Result<(), AllocError>
    ensures items { items.new.items ≡ items.old.items }
    ensures kept { vec_len items.old < vec_capacity items.old →
        vec_capacity items.new ≡ vec_capacity items.old }
    ensures grown { OnOk result (vec_capacity items.old ≤ vec_len items.old →
        vec_capacity items.new ≡
        vec_len items.old + min (max (vec_len items.old / 8) LEAST_ROOM) missing) }
    ensures full { OnErr result (vec_capacity items.old ≤ vec_len items.old) }
{
    if items.len() < items.capacity() {
        return Ok(());
    }
    items.reserve_exact((items.len() / 8).max(LEAST_ROOM).min(missing))
}

impl FileReader {
    /// A reader at the first byte of a file, of which nothing has been asked for.
    pub fn new() -> FileReader
        ensures { result ≡ record { at = 0; waiting = []; ended = false } }
    {
        FileReader {
            buffer: [0; ROOM],
            start: 0,
            end: 0,
            at: 0,
            ended: false,
        }
    }

    /// The place of the next byte, from 0.
    pub fn place(&self) -> u64
        ensures { result ≡ self.now.at }
    {
        self.at
    }

    /// The bytes that wait: those from the place on that were asked for, and have not been read.
    pub fn waiting(&self) -> &[u8]
        ensures { result.now ≡ self.now.waiting }
    {
        &self.buffer[self.start..self.end]
    }

    /// Goes past so many of the bytes that wait.
    pub fn skip(&mut self, n: usize)
        requires waits { n ≤ length self.old.waiting }
        requires room { self.old.at + n < 2 ^ 63 }
        ensures { self.new ≡ after_serving self.old n }
    {
        self.start += n;
        self.at += n as u64;
    }

    // Copies what waits, as far as there is room for it, and tells how much that is.
    fn serve(&mut self, into: &mut [u8]) -> usize
        requires { self.old.at + length into.old < 2 ^ 63 }
        ensures count { result ≡ min (length self.old.waiting) (length into.old) }
        ensures into { into.new ≡ take result self.old.waiting ++ drop result into.old }
        ensures left { self.new ≡ after_serving self.old result }
    {
        let n = (self.end - self.start).min(into.len());
        into[..n].copy_from_slice(&self.buffer[self.start..self.start + n]);
        self.start += n;
        self.at += n as u64;
        n
    }

    // Whether no byte waits.
    fn is_empty(&self) -> bool
        ensures { IsTrue result ↔ (self.now.waiting ≡ []) }
    {
        self.start == self.end
    }

    // Asks for bytes where none wait; the file may have ended.
    fn look<S: Shelf>(&mut self, shelf: &mut S, name: &str) -> Result<(), Failed>
        requires { Follows name.now (S.state shelf.old) self.old }
        ensures follows { OnOk result (Follows name.now (S.state shelf.new) self.new) }
        ensures at { OnOk result (self.new.at ≡ self.old.at) }
        ensures ended { OnOk result (self.new.waiting ≡ [] → self.new.ended ≡ true) }
        ensures reads { OnlyReadsFile name.now (S.state shelf.old) (S.state shelf.new) }
        ensures failed { OnErr result (ReadsRose name.now (S.state shelf.old) (S.state shelf.new)) }
    {
        if !self.is_empty() || self.ended {
            return Ok(());
        }
        let count = shelf.get(name, self.at, &mut self.buffer)?;
        self.start = 0;
        self.end = count;
        self.ended = count < ROOM;
        Ok(())
    }

    // Reads as many bytes as the buffer has, asking for more as often as it takes.
    #[inline(never)]
    fn fill<S: Shelf>(
        &mut self,
        into: &mut [u8],
        shelf: &mut S,
        name: &str,
    ) -> Result<(), ReadError>
        requires follows { Follows name.now (S.state shelf.old) self.old }
        requires room { self.old.at + length into.old < 2 ^ 63 }
        ensures took { OnOk result (Took name.now self.old.at into.new
            (S.state shelf.new) self.new) }
        ensures stops { IfErr result (StopsShort name.now (self.old.at + length into.old)
            (S.state shelf.old) (S.state shelf.new)) }
        ensures reads { OnlyReadsFile name.now (S.state shelf.old) (S.state shelf.new) }
    {
        let mut filled = 0;
        'filling: while filled < into.len() {
            self.look(shelf, name)?;
            if self.is_empty() {
                return Err(ReadError::Bad(FormFault::Form(self.at)));
            }
            filled += self.serve(&mut into[filled..]);
        }
        Ok(())
    }

    /// Reads as many bytes as the buffer has. Where the file ends before, it answers `Form` at the
    /// file's length.
    #[inline(always)]
    pub fn take<S: Shelf>(
        &mut self,
        into: &mut [u8],
        shelf: &mut S,
        name: &str,
    ) -> Result<(), ReadError>
        requires follows { Follows name.now (S.state shelf.old) self.old }
        requires room { self.old.at + length into.old < 2 ^ 63 }
        ensures took { OnOk result (Took name.now self.old.at into.new
            (S.state shelf.new) self.new) }
        ensures stops { IfErr result (StopsShort name.now (self.old.at + length into.old)
            (S.state shelf.old) (S.state shelf.new)) }
        ensures reads { OnlyReadsFile name.now (S.state shelf.old) (S.state shelf.new) }
    {
        // Most pieces are short and wait whole.
        if into.len() <= self.end - self.start {
            self.serve(into);
            return Ok(());
        }
        self.fill(into, shelf, name)
    }

    /// Reads a byte.
    pub fn u8<S: Shelf>(&mut self, shelf: &mut S, name: &str) -> Result<u8, ReadError>
        requires follows { Follows name.now (S.state shelf.old) self.old }
        requires room { self.old.at + 1 < 2 ^ 63 }
        ensures took { IfOk result (λ n.
            Took name.now self.old.at (n ∷ []) (S.state shelf.new) self.new) }
        ensures stops { IfErr result
            (StopsShort name.now (self.old.at + 1) (S.state shelf.old) (S.state shelf.new)) }
        ensures reads { OnlyReadsFile name.now (S.state shelf.old) (S.state shelf.new) }
    {
        let mut field = [0; 1];
        match self.take(&mut field, shelf, name) {
            Ok(()) => Ok(field[0]),
            Err(error) => Err(error),
        }
    }

    /// Reads a number of 2, 4 or 8 bytes.
    pub fn number<T: Field, S: Shelf>(&mut self, shelf: &mut S, name: &str) -> Result<T, ReadError>
        requires follows { Follows name.now (S.state shelf.old) self.old }
        requires room { self.old.at + T.WIDTH < 2 ^ 63 }
        ensures took { IfOk result (λ n.
            Took name.now self.old.at (T.field n) (S.state shelf.new) self.new) }
        ensures stops { IfErr result
            (StopsShort name.now (self.old.at + T.WIDTH) (S.state shelf.old) (S.state shelf.new)) }
        ensures reads { OnlyReadsFile name.now (S.state shelf.old) (S.state shelf.new) }
    {
        let mut field = [0; 8];
        match self.take(&mut field[..T::WIDTH], shelf, name) {
            Ok(()) => Ok(T::of(&field[..T::WIDTH])),
            Err(error) => Err(error),
        }
    }

    /// Whether the file ends here. A byte that is here is answered by `Form` at its place.
    pub fn end<S: Shelf>(&mut self, shelf: &mut S, name: &str) -> Result<(), ReadError>
        requires { Follows name.now (S.state shelf.old) self.old }
        ensures stops { Stops name.now self.old.at (S.state shelf.old) (S.state shelf.new) result }
        ensures reads { OnlyReadsFile name.now (S.state shelf.old) (S.state shelf.new) }
    {
        self.look(shelf, name)?;
        if !self.is_empty() {
            return Err(ReadError::Bad(FormFault::Form(self.at)));
        }
        Ok(())
    }

    /// Reads so many numbers of 2, 4 or 8 bytes. It takes memory as they come.
    pub fn list<T: Field, S: Shelf>(
        &mut self,
        alloc: Global,
        count: usize,
        shelf: &mut S,
        name: &str,
    ) -> Result<Vec<T>, ReadError>
        requires follows { Follows name.now (S.state shelf.old) self.old }
        requires room { self.old.at + T.WIDTH * count < 2 ^ 63 }
        ensures count { IfOk result (λ list. vec_len list ≡ count) }
        ensures took { IfOk result (λ list.
            Took name.now self.old.at (flat_map T.field list.items) (S.state shelf.new) self.new) }
        ensures stops { IfErr result (StopsInList name.now (self.old.at + T.WIDTH * count)
            (S.state shelf.old) (S.state shelf.new)) }
        ensures reads { OnlyReadsFile name.now (S.state shelf.old) (S.state shelf.new) }
    {
        let mut numbers = Vec::new(alloc);
        for i in 0..count {
            make_room(&mut numbers, count - i)?;
            let number = self.number(shelf, name)?;
            numbers.push_reserved(number);
        }
        Ok(numbers)
    }
}
