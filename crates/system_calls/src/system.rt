// Opening files by their names.
ghost use Rattle.std.specs.Prelude.{◌≡◌, [], ◌∷◌, is_ok};
ghost use Rattle.system_calls.specs.Calls.{Held, Opened, OpensOnly};
ghost use Rattle.system_calls.specs.declared.call.Opening.TheVariants as opening;

use crate::call::{Call, Opening};
use crate::record::Record;
use std::fs::{self, File, Metadata, OpenOptions};
use std::io;
use std::marker::Model;

// What is there to be read on most systems, and on each.
const NULL_DEVICE: &str = "/dev/null";

const ROOT: &str = "/";

/// The files of the system by their names, with a record of each one that it was asked to open. Whoever
/// has a `System`, and no `HostRuntime`, can open a file through it alone.
#[derive(Drop)]
pub struct System {
    rt: HostRuntime,
    opens: Record,
}

impl Model for System {
    ghost use Rattle.std.specs.Prelude.{List};
    ghost use Rattle.system_calls.specs.Calls.{Noted};

    ghost Value = { List Noted };

    ghost view = { λ system. system.opens.calls };
}

impl System {
    /// The files of the system. None has been opened.
    pub fn new(rt: HostRuntime) -> System
        ensures { result ≡ [] }
    {
        System {
            rt,
            opens: Record::new(),
        }
    }

    // Opens a file by its name, and notes that.
    fn open(&mut self, opening: Opening, name: &str) -> io::Result<File>
        ensures noted { self.new ≡ Opened opening name.now (is_ok result) ∷ self.old }
        ensures only { OpensOnly name.now self.old self.new }
    {
        let mut options = OpenOptions::new();
        match opening {
            Opening::Read => options.read(true),
            Opening::Write => options.write(true).create(true),
            Opening::New => options.write(true).create_new(true),
            Opening::Append => options.append(true).create(true),
        };
        let file = options.open(&self.rt, name);
        let answered = file.is_ok();
        self.opens.note(&Call::Open {
            opening,
            name,
            answered,
        });
        file
    }

    /// Opens a file to read it.
    pub fn open_to_read(&mut self, name: &str) -> io::Result<File>
        ensures noted { self.new ≡ Opened opening.Read name.now (is_ok result) ∷ self.old }
        ensures only { OpensOnly name.now self.old self.new }
    {
        self.open(Opening::Read, name)
    }

    /// Opens a file to write it from its first byte on, with the bytes that it has. One that isn't there
    /// is made.
    pub fn open_to_write(&mut self, name: &str) -> io::Result<File>
        ensures noted { self.new ≡ Opened opening.Write name.now (is_ok result) ∷ self.old }
        ensures only { OpensOnly name.now self.old self.new }
    {
        self.open(Opening::Write, name)
    }

    /// Makes a file that isn't there, to write it. One that is there is an error.
    pub fn make(&mut self, name: &str) -> io::Result<File>
        ensures noted { self.new ≡ Opened opening.New name.now (is_ok result) ∷ self.old }
        ensures only { OpensOnly name.now self.old self.new }
    {
        self.open(Opening::New, name)
    }

    /// Opens a file to write after its bytes. One that isn't there is made.
    pub fn open_to_append(&mut self, name: &str) -> io::Result<File>
        ensures noted { self.new ≡ Opened opening.Append name.now (is_ok result) ∷ self.old }
        ensures only { OpensOnly name.now self.old self.new }
    {
        self.open(Opening::Append, name)
    }

    /// Opens the null device, or where that isn't there the root folder, to be read. It takes the lowest
    /// number that is free, so that no other file gets this.
    pub fn hold(&mut self) -> io::Result<File>
        ensures { self.new ≡ Held (is_ok result) ∷ self.old }
    {
        let file = match fs::open(&self.rt, NULL_DEVICE) {
            Ok(file) => Ok(file),
            Err(_) => fs::open(&self.rt, ROOT),
        };
        let answered = file.is_ok();
        self.opens.note(&Call::Hold { answered });
        file
    }

    /// What the system tells of a file by its name. It opens none.
    pub fn metadata(&self, name: &str) -> io::Result<Metadata> {
        fs::metadata(&self.rt, name)
    }
}
