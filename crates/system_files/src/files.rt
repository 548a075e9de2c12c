// One file that is read and one that is written, each kept open from call to call.
ghost use Rattle.std.specs.Prelude.{◌≡◌, ◌≤◌, true, length, string_bytes, IfOk, OnOk};
ghost use Rattle.system_calls.specs.Calls.{OpensOnly};
ghost use Rattle.system_files.specs.Nodes.{Adds, IsBegun};

use crate::nodes::Known;
use byte_streams::{InputReader, OutputWriter};
use shelf_traits::Failed;
use std::alloc::{AllocError, Global};
use std::fs::{File, Metadata};
use system_calls::System;

// The most bytes of a path that the system takes.
const PATH_BYTES: usize = 4096;

// How many of the bytes that were read last are kept. A reader of a header goes back by no more.
const KEPT_BYTES: usize = 16384;

// Keeps a name. Its memory was taken for the longest one that the system takes.
fn keep_name(kept: &mut String, name: &str) -> Result<(), Failed>
    ensures { OnOk result (string_bytes kept.new ≡ name.now) }
{
    kept.clear();
    match kept.push_str(name) {
        Ok(()) => Ok(()),
        Err(_) => Err(Failed),
    }
}

/// The file that was read last. It is read on from where it has been read to, so that it may be a pipe.
#[derive(Drop)]
pub struct Source {
    name: String,
    reader: InputReader<File, KEPT_BYTES>,
}

impl Source {
    /// No file.
    pub fn none(alloc: Global) -> Result<Source, AllocError> {
        let name = String::with_capacity(alloc, PATH_BYTES)?;
        let reader = InputReader::none(alloc)?;
        Ok(Source { name, reader })
    }

    // Opens another file.
    fn open(&mut self, system: &mut System, name: &str, known: &mut Known) -> Result<(), Failed>
        ensures { OpensOnly name.now system.old system.new }
    {
        let Ok(file) = system.open_to_read(name) else {
            return Err(Failed);
        };
        let Ok(metadata) = file.metadata() else {
            return Err(Failed);
        };
        let Ok(_) = known.add(&file, &metadata) else {
            return Err(Failed);
        };
        self.reader.close();
        keep_name(&mut self.name, name)?;
        self.reader.open(file);
        Ok(())
    }

    /// Reads from a place on until the buffer is full or the file ends. A file that it opens is known
    /// from then on.
    pub fn read(
        &mut self,
        system: &mut System,
        name: &str,
        at: u64,
        into: &mut [u8],
        known: &mut Known,
    ) -> Result<usize, Failed>
        ensures opens { OpensOnly name.now system.old system.new }
        ensures within { IfOk result (λ n. n ≤ length into.old) }
    {
        if !self.reader.is_open() || self.name.as_str() != name {
            self.open(system, name, known)?;
        }
        self.reader.read(at, into)
    }
}

/// The file that was begun last.
#[derive(Drop)]
pub struct Target {
    name: String,
    writer: OutputWriter<File>,
}

impl Target {
    /// No file.
    pub fn none(alloc: Global) -> Result<Target, AllocError> {
        let name = String::with_capacity(alloc, PATH_BYTES)?;
        let writer = OutputWriter::none();
        Ok(Target { name, writer })
    }

    /// Ends the file: the system brings what was written of a regular one onto the disk, and its answer
    /// is given. The file is closed, whatever that is.
    pub fn end(&mut self) -> Result<(), Failed> {
        let stored = self.writer.store();
        self.writer.close();
        stored
    }

    // Takes an open file with its metadata as the one begun: it drops all bytes, unless the file was known.
    fn take(
        &mut self,
        name: &str,
        file: File,
        metadata: &Metadata,
        known: &mut Known,
    ) -> Result<(), Failed>
        ensures { OnOk result (Adds metadata.now true known.old known.new) }
    {
        let Ok(true) = known.add(&file, metadata) else {
            return Err(Failed);
        };
        keep_name(&mut self.name, name)?;
        self.writer.begin(file, metadata.is_file())
    }

    /// Ends the file before. Then it makes a file present and empty, and keeps it open; it is known from
    /// then on. A file that is known is refused and stays as it is, by whatever name it is reached. Whether
    /// it is known is asked of what was opened, before a byte of that is dropped: a name that is given to
    /// another file meanwhile changes nothing. Where a standard stream may be any file, one that is there
    /// already is refused.
    pub fn begin(
        &mut self,
        system: &mut System,
        name: &str,
        known: &mut Known,
    ) -> Result<(), Failed>
        ensures opens { OpensOnly name.now system.old system.new }
        ensures begun { OnOk result (IsBegun known.old known.new) }
    {
        self.end()?;
        let opened = if known.is_unsure() {
            system.make(name)
        } else {
            system.open_to_write(name)
        };
        let Ok(file) = opened else {
            return Err(Failed);
        };
        let Ok(metadata) = file.metadata() else {
            return Err(Failed);
        };
        self.take(name, file, &metadata, known)
    }

    // Opens a file that wasn't begun, to go on behind its bytes.
    fn go_on(&mut self, system: &mut System, name: &str) -> Result<(), Failed>
        ensures { OpensOnly name.now system.old system.new }
    {
        self.end()?;
        let Ok(file) = system.open_to_append(name) else {
            return Err(Failed);
        };
        let Ok(metadata) = file.metadata() else {
            return Err(Failed);
        };
        keep_name(&mut self.name, name)?;
        self.writer.go_on(file, metadata.is_file());
        Ok(())
    }

    /// Writes a piece after the bytes of a file.
    pub fn add(&mut self, system: &mut System, name: &str, piece: &[u8]) -> Result<(), Failed>
        ensures { OpensOnly name.now system.old system.new }
    {
        if !self.writer.is_open() || self.name.as_str() != name {
            self.go_on(system, name)?;
        }
        self.writer.add(piece)
    }
}
