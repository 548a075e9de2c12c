// A file that is written byte by byte.
use byte_streams::OutputFile;
use std::io::{self, ErrorKind, Write};

/// A file in memory that takes one byte at each write.
#[derive(Drop)]
pub struct SlowOutput {
    bytes: Vec<u8>,
    // how many of them are on the disk
    stored: usize,
}

impl SlowOutput {
    ghost use Rattle.std.specs.Prelude.{◌≡◌};

    /// A file of these bytes, none of which is on the disk.
    pub fn new(bytes: Vec<u8>) -> SlowOutput
        ensures { result.bytes ≡ bytes }
    {
        SlowOutput { bytes, stored: 0 }
    }

    /// Its bytes.
    pub fn into_bytes(self) -> Vec<u8>
        ensures { result ≡ self.bytes }
    {
        self.bytes
    }
}

impl Write for SlowOutput {
    ghost use Rattle.std.specs.Prelude.{Some};

    ghost contents = { λ file. Some file.bytes.items };

    fn write(&mut self, piece: &[u8]) -> io::Result<usize> {
        let Some(&byte) = piece.first() else {
            return Ok(0);
        };
        let Ok(()) = self.bytes.push(byte) else {
            return Err(io::Error::from(ErrorKind::OutOfMemory));
        };
        Ok(1)
    }

    fn flush(&mut self) -> io::Result<()> {
        Ok(())
    }
}

impl OutputFile for SlowOutput {
    ghost use Rattle.std.specs.Prelude.{Some, take};

    ghost stored = { λ file. Some (take file.stored file.bytes.items) };

    fn drop_bytes(&mut self) -> io::Result<()> {
        self.bytes.truncate(0);
        Ok(())
    }

    fn store(&mut self) -> io::Result<()> {
        self.stored = self.bytes.len();
        Ok(())
    }
}
