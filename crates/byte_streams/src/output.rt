// What can be done to an open file beside writing it.
ghost use Rattle.std.specs.Prelude.{◌≡◌, ℕ, List, Option, OnOk};
ghost use Rattle.std.specs.Io.KnownBytes.{Keeps};
ghost use Rattle.byte_streams.specs.Writers.{IsEmpty};

use std::fs::File;
use std::io::{self, Write};

/// An open file that is written.
pub trait OutputFile: Write {
    /// The bytes that the system has answered to be on the disk, where they are known.
    ghost stored: { Self → Option (List ℕ) };

    /// Drops all its bytes.
    fn drop_bytes(&mut self) -> io::Result<()>
        ensures { OnOk result (IsEmpty (Self.contents self.new)) };

    /// Asks the system to bring all that was written onto the disk, and gives its answer.
    fn store(&mut self) -> io::Result<()>
        ensures kept { Keeps (Self.contents self.old) (Self.contents self.new) }
        ensures stored { OnOk result (stored self.new ≡ Self.contents self.new) };
}

// The system tells no bytes.
impl OutputFile for File {
    ghost use Rattle.std.specs.Prelude.{None};

    ghost stored = { λ _. None };

    fn drop_bytes(&mut self) -> io::Result<()> {
        self.set_len(0)
    }

    fn store(&mut self) -> io::Result<()> {
        self.sync_all()
    }
}
