// A shelf in memory that never fails.
ghost use Rattle.std.specs.Prelude.{◌≡◌, ◌≤◌, ◌<◌, ◌++◌, [], Some, None, IfOk, IsOk, IfSome, IfNone, OnOk, nat_le, length, option_copied, option_and_then};
ghost use Rattle.std.specs.Bool.{OnTrue};
ghost use Rattle.std.specs.FinMap as map;
ghost use Rattle.shelf_traits.specs.Files.{Told, Changes, Reads, OnlyReadsFile, OnlyWritesFile, content_of, Begins, Appends};
ghost use Rattle.shelf_core.specs.Entries.{map_of};
ghost use Rattle.shelf_core.specs.SureStates.{sure_shelf_state, size_of, after_write, told_content, kept_bytes, written_over, Opens, HasNamesOnce};

use crate::pieces::copy_out;
use crate::tape::Tape;
use shelf_traits::{Failed, Shelf};
use std::alloc::{AllocError, Global};
use std::marker::Model;

/// Files in memory that is taken when the shelf is made. It never fails and takes no memory
/// afterwards; from the first write on that doesn't fit in the room it tells nothing.
#[derive(Drop)]
pub struct SureShelf {
    tape: Tape,
    told: bool,
}

impl Model for SureShelf {
    ghost use Rattle.std.specs.Prelude.{Some, None, if◌then◌else◌};
    ghost use Rattle.shelf_core.specs.Entries.{map_of};
    ghost use Rattle.shelf_core.specs.SureStates.{SureShelfState, HasNamesOnce};
    ghost use Rattle.shelf_core.specs.Codes.{sure_shelf_code};

    ghost Value = { SureShelfState };

    ghost coded = { sure_shelf_code };

    ghost view = { λ s. record {
      room = s.tape.room;
      files =
          (if s.told then Some (map_of s.tape.files) else None);
    } };

    ghost invariant = { λ s. HasNamesOnce s.tape.files };
}

// Makes a file present, with its bytes or with none, and says where it is; None where its name
// has no room.
fn open(tape: &mut Tape, name: &[u8], keeps: bool) -> Option<usize>
    requires { HasNamesOnce tape.old.files }
    ensures room { tape.new.room ≡ tape.old.room }
    ensures sized { HasNamesOnce tape.new.files }
    ensures opened { IfSome result (λ i. Opens tape.old.files tape.new.files name.now keeps i) }
    ensures passed { IfNone result (tape.old.room <
        size_of (map.insert (map_of tape.old.files) name.now [])) }
{
    match tape.find(name) {
        Some(i) => {
            if !keeps {
                tape.clear(i);
            }
            Some(i)
        }
        None => {
            if name.len() > tape.free() {
                return None;
            }
            Some(tape.push(name))
        }
    }
}

// Puts a piece after what is kept of a file, where the files then fit, and says whether they do.
fn store(tape: &mut Tape, name: &[u8], keeps: bool, piece: &[u8]) -> bool
    requires { HasNamesOnce tape.old.files }
    ensures room { tape.new.room ≡ tape.old.room }
    ensures sized { HasNamesOnce tape.new.files }
    ensures fits { result ≡ nat_le (size_of
        (written_over tape.old.files name.now keeps piece.now)) tape.old.room }
    ensures stored { OnTrue result (map_of tape.new.files ≡
        written_over tape.old.files name.now keeps piece.now) }
{
    let Some(i) = open(tape, name, keeps) else {
        return false;
    };
    if piece.len() > tape.free() {
        return false;
    }
    tape.append(i, piece);
    true
}

impl SureShelf {
    /// No file, and memory for so many bytes of names and files.
    pub fn make(alloc: Global, room: usize) -> Result<SureShelf, AllocError>
        ensures { IfOk result (λ shelf. shelf ≡ record { room = room; files = Some map.empty }) }
    {
        let tape = Tape::make(alloc, room)?;
        Ok(SureShelf { tape, told: true })
    }

    /// Sets the named file to the bytes and leaves the others. Where the files then don't fit in
    /// the room, the shelf tells nothing from then on.
    pub fn put_file(&mut self, name: &str, bytes: &[u8])
        ensures { self.new ≡ after_write self.old (λ files. map.insert files name.now bytes.now) }
    {
        self.write(name.as_bytes(), false, bytes);
    }

    /// The bytes of the named file; None where there is no such file, and after a write that
    /// didn't fit.
    pub fn file(&self, name: &str) -> Option<&[u8]>
        ensures { option_copied result ≡
            option_and_then (λ files. map.get files name.now) self.now.files }
    {
        if !self.told {
            return None;
        }
        let i = self.tape.find(name.as_bytes())?;
        Some(self.tape.content(i))
    }

    // Puts a piece after what is kept of a file, as far as the room goes.
    fn write(&mut self, name: &[u8], keeps: bool, piece: &[u8])
        ensures after { self.new ≡ after_write self.old
            (λ files. map.insert files name.now
            (kept_bytes keeps (content_of files name.now) ++ piece.now)) }
        ensures told { Told self.old.files self.new.files
            (λ was now. now ≡ map.insert was name.now
            (kept_bytes keeps (content_of was name.now) ++ piece.now)) }
    {
        if self.told && !store(&mut self.tape, name, keeps, piece) {
            self.told = false;
        }
    }
}

impl Shelf for SureShelf {
    ghost state = { sure_shelf_state };

    fn get(&mut self, name: &str, at: u64, into: &mut [u8]) -> Result<usize, Failed>
        ensures within { IfOk result (λ n. n ≤ length into.old) }
        ensures read { IfOk result (λ n.
            Changes (sure_shelf_state self.old) (sure_shelf_state self.new)
            (λ was now. Reads (content_of was name.now) at into.new n)) }
        ensures reads { OnlyReadsFile name.now (sure_shelf_state self.old)
            (sure_shelf_state self.new) }
        ensures sure { IsOk result }
        ensures same { self.new ≡ self.old }
        ensures told { IfOk result (λ n. Reads (told_content self.old name.now) at into.new n) }
    {
        let bytes = self.file(name).unwrap_or(&[]);
        Ok(copy_out(bytes, at, into))
    }

    fn begin(&mut self, name: &str) -> Result<(), Failed>
        ensures begun { OnOk result (Changes (sure_shelf_state self.old) (sure_shelf_state self.new)
            (Begins name.now)) }
        ensures writes { OnlyWritesFile name.now (sure_shelf_state self.old)
            (sure_shelf_state self.new) }
        ensures sure { IsOk result }
        ensures after { self.new ≡ after_write self.old (λ files. map.insert files name.now []) }
    {
        self.write(name.as_bytes(), false, &[]);
        Ok(())
    }

    fn add(&mut self, name: &str, piece: &[u8]) -> Result<(), Failed>
        ensures added { OnOk result (Changes (sure_shelf_state self.old) (sure_shelf_state self.new)
            (Appends name.now piece.now)) }
        ensures writes { OnlyWritesFile name.now (sure_shelf_state self.old)
            (sure_shelf_state self.new) }
        ensures sure { IsOk result }
        ensures after { self.new ≡ after_write self.old
            (λ files. map.insert files name.now (content_of files name.now ++ piece.now)) }
    {
        self.write(name.as_bytes(), true, piece);
        Ok(())
    }
}
