// A file that is read byte by byte.
use byte_streams::InputFile;
use std::io::{self, Read};

/// A file in memory that gives one byte at each read.
#[derive(Drop)]
pub struct SlowInput {
    bytes: Vec<u8>,
    place: u64,
}

impl SlowInput {
    ghost use Rattle.std.specs.Prelude.{◌≡◌, ◌≤◌, ◌+◌, length};
    ghost use Rattle.byte_streams.specs.Places.{ReadsPart};

    /// A file of these bytes, at its first one.
    pub fn new(bytes: Vec<u8>) -> SlowInput
        ensures bytes { result.bytes ≡ bytes }
        ensures place { result.place ≡ 0 }
    {
        SlowInput { bytes, place: 0 }
    }

    // The next byte, if there is one and room for it.
    fn next_byte(&mut self, into: &mut [u8]) -> usize
        ensures bytes { self.new.bytes ≡ self.old.bytes }
        ensures place { self.new.place ≡ self.old.place + result }
        ensures within { result ≤ length into.old }
        ensures read { ReadsPart self.old.bytes.items self.old.place into.new result }
    {
        let place = self.place as usize;
        if into.is_empty() || place >= self.bytes.len() {
            return 0;
        }
        into[..1].copy_from_slice(&self.bytes.as_slice()[place..place + 1]);
        self.place += 1;
        1
    }
}

impl InputFile for SlowInput {
    ghost use Rattle.std.specs.Prelude.{Some};

    ghost bytes = { λ file. Some file.bytes.items };

    ghost place = { λ file. file.place };

    fn read_some(&mut self, into: &mut [u8]) -> io::Result<usize> {
        Ok(self.next_byte(into))
    }

    fn go_to(&mut self, at: u64) -> io::Result<()> {
        self.place = at;
        Ok(())
    }
}

impl Read for SlowInput {
    ghost use Rattle.std.specs.Prelude.{Some, drop};

    ghost remaining = { λ file. Some (drop file.place file.bytes.items) };

    fn read(&mut self, into: &mut [u8]) -> io::Result<usize> {
        Ok(self.next_byte(into))
    }
}
