// A shelf in memory, which always tells its files.
ghost use Rattle.std.specs.Prelude.{◌≡◌, ◌≤◌, ◌++◌, ◌∷◌, [], ◌↔◌, Some, IfOk, OnOk, OnErr, IsErr, IsSome, option_copied, position, length};
ghost use Rattle.std.specs.FinMap as map;
ghost use Rattle.shelf_traits.specs.Files.{Changes, Rose, Reads, AsksFor, OnlyReadsFile, OnlyWritesFile, content_of, Begins, BeginsPart, Appends, AppendsPart};
ghost use Rattle.shelf_core.specs.Listings.{due, one_more};
ghost use Rattle.shelf_core.specs.MemStates.{mem_shelf_state, well, unread, unwritten, FailsToGet, KeptBy};
ghost use Rattle.shelf_core.specs.Entries.{files_of, is_named};

use crate::bytes::Bytes;
use crate::calls::Calls;
use crate::listing::{Call, Listing, Listings, raised};
use crate::pieces::{copy_out, front_of};
use shelf_traits::{Failed, Shelf};
use std::alloc::{AllocError, Global};
use std::marker::Model;

/// One file.
#[derive(Drop)]
pub struct MemFile {
    pub name: Bytes,
    pub bytes: Bytes,
}

/// Files in memory, with one count of faults of each kind for all names. Calls can be listed to
/// fail. A `get` of a missing name, a listed call and a refused growth fail, and no other call. It keeps
/// the name of each call; where there is no memory for one, it tells none from then on.
#[derive(Drop)]
pub struct MemShelf {
    alloc: Global,
    files: Vec<MemFile>,
    listings: Listings,
    read_faults: u64,
    write_faults: u64,
    calls: Calls,
}

impl Model for MemShelf {
    ghost use Rattle.shelf_core.specs.MemStates.{MemShelfState};
    ghost use Rattle.shelf_core.specs.Codes.{mem_shelf_code};

    ghost Value = { MemShelfState };

    ghost coded = { mem_shelf_code };

    ghost use Rattle.shelf_core.specs.Entries.{files_of};

    ghost view = { λ a. record {
      files = files_of a.files.items;
      listings = a.listings;
      reads = a.read_faults;
      writes = a.write_faults;
      asked = a.calls;
    } };
}

// Where the file of a name is.
fn place_of(files: &[MemFile], name: &[u8]) -> Option<usize>
    ensures { result ≡ position (is_named name.now) files.now }
{
    files.iter().position(|f| f.name.as_slice() == name)
}

// The bytes of a name.
fn content<'a>(files: &'a [MemFile], name: &[u8]) -> Option<&'a [u8]>
    ensures { option_copied result ≡ map.get (files_of files.now) name.now }
{
    let i = place_of(files, name)?;
    Some(files[i].bytes.as_slice())
}

// Puts bytes in the place of those of a name, or after all.
fn put(alloc: Global, files: &mut Vec<MemFile>, name: &[u8], bytes: Bytes) -> Result<(), AllocError>
    ensures ok { OnOk result (files_of files.new.items ≡
        map.insert (files_of files.old.items) name.now bytes) }
    ensures err { OnErr result (files_of files.new.items ≡ files_of files.old.items) }
{
    match place_of(files, name) {
        Some(i) => {
            files[i].bytes = bytes;
            Ok(())
        }
        None => {
            let name = Bytes::copy(alloc, name)?;
            files.push(MemFile { name, bytes })?;
            Ok(())
        }
    }
}

// Puts a piece after the bytes of a name, which are none where it is missing.
fn extend(
    alloc: Global,
    files: &mut Vec<MemFile>,
    name: &[u8],
    piece: &[u8],
) -> Result<(), AllocError>
    ensures ok { OnOk result (files_of files.new.items ≡
        map.insert (files_of files.old.items) name.now
        (content_of (files_of files.old.items) name.now ++ piece.now)) }
    ensures err { OnErr result (files_of files.new.items ≡ files_of files.old.items) }
{
    match place_of(files, name) {
        Some(i) => files[i].bytes.extend(piece),
        None => {
            let name = Bytes::copy(alloc, name)?;
            let bytes = Bytes::copy(alloc, piece)?;
            files.push(MemFile { name, bytes })?;
            Ok(())
        }
    }
}

impl MemShelf {
    /// No file, no listing and no fault.
    pub fn new(alloc: Global) -> MemShelf
        ensures { result ≡
            record { files = map.empty; listings = []; reads = 0; writes = 0; asked = Some [] } }
    {
        MemShelf {
            alloc,
            files: Vec::new(alloc),
            listings: Listings::new(alloc),
            read_faults: 0,
            write_faults: 0,
            calls: Calls::new(alloc),
        }
    }

    /// Sets the named file to the bytes and leaves the others. It is no call of the shelf: no
    /// listing counts it.
    pub fn put_file(&mut self, name: &str, bytes: &[u8]) -> Result<(), AllocError>
        ensures ok { OnOk result (self.new ≡
            record self.old { files = map.insert self.old.files name.now bytes.now }) }
        ensures err { OnErr result (self.new ≡ self.old) }
    {
        let bytes = Bytes::copy(self.alloc, bytes)?;
        put(self.alloc, &mut self.files, name.as_bytes(), bytes)
    }

    /// Lists that the `nth` call of that kind on that name from now on fails, counted from 1. An
    /// `add` that fails so appends the first `kept` bytes of its piece; the other kinds ignore
    /// `kept`. Where two listings name one call, the earlier one's `kept` holds.
    pub fn fail_at(
        &mut self,
        call: Call,
        name: &str,
        nth: u32,
        kept: usize,
    ) -> Result<(), AllocError>
        requires { 1 ≤ nth }
        ensures ok { OnOk result (self.new ≡
            record self.old {
              listings = self.old.listings
                  ++ (record { call = call; name = name.now; nth = nth; kept = kept }) ∷ [];
            }) }
        ensures err { OnErr result (self.new ≡ self.old) }
    {
        let name = Bytes::copy(self.alloc, name.as_bytes())?;
        self.listings.push(Listing {
            call,
            name,
            nth,
            kept,
        })
    }

    /// The bytes of the named file; None where there is no such file.
    pub fn file(&self, name: &str) -> Option<&[u8]>
        ensures { option_copied result ≡ map.get self.now.files name.now }
    {
        content(&self.files, name.as_bytes())
    }

    /// How many reads have failed.
    pub fn read_faults(&self) -> u64
        ensures { result ≡ self.now.reads }
    {
        self.read_faults
    }

    /// How many writes have failed.
    pub fn write_faults(&self) -> u64
        ensures { result ≡ self.now.writes }
    {
        self.write_faults
    }

    // One more write has failed.
    fn fail_write(&mut self) -> Failed
        ensures one { self.new ≡ record self.old { writes = one_more self.old.writes } }
        ensures rose { Rose self.old.writes self.new.writes }
        ensures no_less { self.old.writes ≤ self.new.writes }
    {
        self.write_faults = raised(self.write_faults);
        Failed
    }
}

impl Shelf for MemShelf {
    ghost state = { mem_shelf_state };

    fn get(&mut self, name: &str, at: u64, into: &mut [u8]) -> Result<usize, Failed>
        ensures within { IfOk result (λ n. n ≤ length into.old) }
        ensures read { IfOk result (λ n.
            Changes (mem_shelf_state self.old) (mem_shelf_state self.new)
            (λ was now. Reads (content_of was name.now) at into.new n)) }
        ensures reads { OnlyReadsFile name.now (mem_shelf_state self.old)
            (mem_shelf_state self.new) }
        ensures asked { AsksFor name.now (mem_shelf_state self.old) (mem_shelf_state self.new) }
        ensures failed { OnErr result (Rose self.old.reads self.new.reads) }
        ensures fails { IsErr result ↔ FailsToGet name.now self.old }
        ensures ok { OnOk result (self.new ≡
            well Call.Get name.now self.old self.old.files self.new.asked) }
        ensures err { OnErr result (self.new ≡ unread name.now self.old self.new.asked) }
    {
        self.calls.note(self.alloc, name.as_bytes());
        if self.listings.pass(Call::Get, name.as_bytes()).is_none()
            && let Some(bytes) = content(&self.files, name.as_bytes())
        {
            return Ok(copy_out(bytes, at, into));
        }
        self.read_faults = raised(self.read_faults);
        Err(Failed)
    }

    fn begin(&mut self, name: &str) -> Result<(), Failed>
        ensures begun { OnOk result (Changes (mem_shelf_state self.old) (mem_shelf_state self.new)
            (Begins name.now)) }
        ensures part { OnErr result (Changes (mem_shelf_state self.old) (mem_shelf_state self.new)
            (BeginsPart name.now)) }
        ensures writes { OnlyWritesFile name.now (mem_shelf_state self.old)
            (mem_shelf_state self.new) }
        ensures asked { AsksFor name.now (mem_shelf_state self.old) (mem_shelf_state self.new) }
        ensures failed { OnErr result (Rose self.old.writes self.new.writes) }
        ensures listed { IsSome (due Call.Begin name.now self.old.listings) → IsErr result }
        ensures ok { OnOk result (self.new ≡
            well Call.Begin name.now self.old (map.insert self.old.files name.now [])
            self.new.asked) }
        ensures err { OnErr result (self.new ≡
            unwritten Call.Begin name.now self.old self.old.files self.new.asked) }
    {
        self.calls.note(self.alloc, name.as_bytes());
        let listed = self.listings.pass(Call::Begin, name.as_bytes());
        if listed.is_none()
            && let Ok(()) = put(
                self.alloc,
                &mut self.files,
                name.as_bytes(),
                Bytes::new(self.alloc),
            )
        {
            return Ok(());
        }
        Err(self.fail_write())
    }

    fn add(&mut self, name: &str, piece: &[u8]) -> Result<(), Failed>
        ensures added { OnOk result (Changes (mem_shelf_state self.old) (mem_shelf_state self.new)
            (Appends name.now piece.now)) }
        ensures part { OnErr result (Changes (mem_shelf_state self.old) (mem_shelf_state self.new)
            (AppendsPart name.now piece.now)) }
        ensures writes { OnlyWritesFile name.now (mem_shelf_state self.old)
            (mem_shelf_state self.new) }
        ensures asked { AsksFor name.now (mem_shelf_state self.old) (mem_shelf_state self.new) }
        ensures failed { OnErr result (Rose self.old.writes self.new.writes) }
        ensures listed { IsSome (due Call.Add name.now self.old.listings) → IsErr result }
        ensures ok { OnOk result (self.new ≡
            well Call.Add name.now self.old
            (map.insert self.old.files name.now
            (content_of self.old.files name.now ++ piece.now)) self.new.asked) }
        ensures kept { OnErr result (KeptBy
            (due Call.Add name.now self.old.listings)
            self.old.files name.now piece.now self.new.files) }
        ensures err { OnErr result (self.new ≡
            unwritten Call.Add name.now self.old self.new.files self.new.asked) }
    {
        self.calls.note(self.alloc, name.as_bytes());
        if let Some(kept) = self.listings.pass(Call::Add, name.as_bytes()) {
            let _ = extend(
                self.alloc,
                &mut self.files,
                name.as_bytes(),
                front_of(piece, kept),
            );
            return Err(self.fail_write());
        }
        let Ok(()) = extend(self.alloc, &mut self.files, name.as_bytes(), piece) else {
            return Err(self.fail_write());
        };
        Ok(())
    }
}
