// Writing a file through one buffer.
ghost use Rattle.std.specs.Prelude.{◌≡◌, ◌≤◌, ◌<◌, ◌+◌, ◌++◌, [], List, ℕ, length, OnOk, OnErr};
ghost use Rattle.std.specs.List.{flat_map};
ghost use Rattle.shelf_traits.specs.Files.{ShelfState, Changes, OnlyWritesFile, Rose};
ghost use Rattle.shelf_traits.specs.Written.{HoldsText, HoldsPart};
ghost use Rattle.file_bytes.specs.Writing.{HasPut, Keeps, Puts, pending};

use crate::field::Field;
use shelf_traits::{Shelf, WriteFault};
use std::marker::Model;

// How many bytes may wait.
const ROOM: usize = 8192;

/// A file that is being written, piece by piece. Short pieces wait in a buffer, so that the shelf is
/// called seldom. After a write that failed no more calls are made, and `finish` tells of it.
///
/// Each call takes the same shelf and name. No call takes memory.
#[derive(Drop)]
pub struct FileWriter {
    buffer: [u8; ROOM],
    len: usize,
    failed: bool,
}

impl Model for FileWriter {
    ghost use Rattle.std.specs.Prelude.{take, ◌≤◌};
    ghost use Rattle.file_bytes.specs.Writing.{Pending};
    ghost use Rattle.file_bytes.specs.declared.writer.TheConstants.{ROOM};

    ghost Value = { Pending };

    ghost view = { λ a. record { waiting = take a.len a.buffer; failed = a.failed } };

    ghost invariant = { λ a. a.len ≤ ROOM };
}

// Adds a piece that waits to the file, unless a write has failed before. It tells whether one has.
fn pass<S: Shelf>(failed: bool, piece: &[u8], shelf: &mut S, name: &str) -> bool
    ensures { Keeps name.now (S.state shelf.old) (S.state shelf.new)
        (pending piece.now failed) (pending [] result) }
{
    if failed {
        return true;
    }
    match shelf.add(name, piece) {
        Ok(()) => false,
        Err(_) => true,
    }
}

impl FileWriter {
    /// Begins the named file: it becomes present and empty.
    pub fn begin<S: Shelf>(shelf: &mut S, name: &str) -> FileWriter
        ensures { HasPut name.now [] (S.state shelf.old) (S.state shelf.new) result }
    {
        let failed = shelf.begin(name).is_err();
        FileWriter {
            buffer: [0; ROOM],
            len: 0,
            failed,
        }
    }

    // Adds what waits to the file.
    fn flush<S: Shelf>(&mut self, shelf: &mut S, name: &str)
        ensures put { Keeps name.now (S.state shelf.old) (S.state shelf.new) self.old self.new }
        ensures empty { self.new.waiting ≡ [] }
    {
        self.failed = pass(self.failed, &self.buffer[..self.len], shelf, name);
        self.len = 0;
    }

    // Lets a piece wait for which there is room.
    fn keep(&mut self, piece: &[u8])
        requires { length self.old.waiting + length piece.now ≤ ROOM }
        ensures { self.new ≡ pending (self.old.waiting ++ piece.now) self.old.failed }
    {
        // Added up first, so that the length isn't loaded again after the bytes are written.
        let end = self.len + piece.len();
        self.buffer[self.len..end].copy_from_slice(piece);
        self.len = end;
    }

    // Puts a piece for which what waits leaves too little room.
    #[inline(never)]
    fn put_past<S: Shelf>(&mut self, piece: &[u8], shelf: &mut S, name: &str)
        ensures { Puts name.now piece.now (S.state shelf.old)
            (S.state shelf.new) self.old self.new }
    {
        self.flush(shelf, name);
        if piece.len() <= ROOM {
            self.keep(piece);
        } else {
            self.failed = pass(self.failed, piece, shelf, name);
        }
    }

    /// Puts a piece of any length.
    pub fn put<S: Shelf>(&mut self, piece: &[u8], shelf: &mut S, name: &str)
        ensures { Puts name.now piece.now (S.state shelf.old)
            (S.state shelf.new) self.old self.new }
    {
        // Most pieces are short and find room.
        if piece.len() <= ROOM - self.len {
            self.keep(piece);
        } else {
            self.put_past(piece, shelf, name);
        }
    }

    // Puts a number for which what waits leaves too little room.
    #[inline(never)]
    fn put_number_past<T: Field, S: Shelf>(&mut self, number: T, shelf: &mut S, name: &str)
        ensures { Puts name.now (T.field number) (S.state shelf.old) (S.state shelf.new)
            self.old self.new }
    {
        let mut field = [0; 8];
        number.fill(&mut field[..T::WIDTH]);
        self.put_past(&field[..T::WIDTH], shelf, name);
    }

    /// Puts a number as 2, 4 or 8 bytes.
    pub fn put_number<T: Field, S: Shelf>(&mut self, number: T, shelf: &mut S, name: &str)
        ensures { Puts name.now (T.field number) (S.state shelf.old) (S.state shelf.new)
            self.old self.new }
    {
        // The rare case has a field of its own, so that this one needs no memory.
        if T::WIDTH <= ROOM - self.len {
            let mut field = [0; 8];
            number.fill(&mut field[..T::WIDTH]);
            self.keep(&field[..T::WIDTH]);
        } else {
            self.put_number_past(number, shelf, name);
        }
    }

    /// Puts numbers, one after another, each as [`FileWriter::put_number`] does.
    pub fn put_all<T: Field, S: Shelf>(&mut self, numbers: &[T], shelf: &mut S, name: &str)
        ensures { Puts name.now (flat_map T.field numbers.now) (S.state shelf.old)
            (S.state shelf.new) self.old self.new }
    {
        for number in numbers {
            self.put_number(*number, shelf, name);
        }
    }

    /// Ends the writing: what waits goes to the file. The error is the first write that failed.
    pub fn finish<S: Shelf>(mut self, shelf: &mut S, name: &str) -> Result<(), WriteFault>
        ensures ok { (was : ShelfState) (text : List ℕ) →
            HasPut name.now text was (S.state shelf.old) self →
            OnOk result (Changes was (S.state shelf.new) (HoldsText name.now text)) }
        ensures err { (was : ShelfState) (text : List ℕ) →
            HasPut name.now text was (S.state shelf.old) self →
            OnErr result (Changes was (S.state shelf.new) (HoldsPart name.now text)) }
        ensures writes { (was : ShelfState) (text : List ℕ) →
            HasPut name.now text was (S.state shelf.old) self →
            OnlyWritesFile name.now was (S.state shelf.new) }
        ensures failed { (was : ShelfState) (text : List ℕ) →
            HasPut name.now text was (S.state shelf.old) self →
            OnErr result (Rose (was.writes name.now) ((S.state shelf.new).writes name.now)) }
    {
        self.flush(shelf, name);
        if self.failed { Err(WriteFault) } else { Ok(()) }
    }
}
