// A file that is written piece by piece.
use crate::output::OutputFile;
use crate::pieces::write_all_of;
use shelf_traits::Failed;
use std::marker::Model;

/// A file that is written piece by piece, and ended with the system's answer. A file that isn't regular,
/// as a pipe or a device, has no bytes to drop and none that could be brought onto a disk.
#[derive(Drop)]
pub struct OutputWriter<F: OutputFile + Drop> {
    file: Option<F>,
    is_regular: bool,
}

// A clause sees the open file: its bytes, those on the disk, and whether it is regular.
impl<F: OutputFile + Drop> Model for OutputWriter<F> {
    ghost use Rattle.std.specs.Prelude.{Option};
    ghost use Rattle.std.specs.Option.{option_map};
    ghost use Rattle.byte_streams.specs.Writers.{OpenOutput};

    ghost Value = { Option OpenOutput };

    ghost view = { λ a. option_map
        (λ f. record { contents = F.contents f; stored = F.stored f; regular = a.is_regular }) a.file };
}

impl<F: OutputFile + Drop> OutputWriter<F> {
    ghost use Rattle.std.specs.Prelude.{◌≡◌, ◌↔◌, None, Some, true, false, IsTrue, IsSome, OnOk};
    ghost use Rattle.std.specs.Io.KnownBytes.{Appends, Keeps};
    ghost use Rattle.byte_streams.specs.Writers.{IsEmpty, IsStored, kind_of, open_contents};

    /// No file is open.
    pub fn none() -> Self
        ensures { result ≡ None }
    {
        OutputWriter {
            file: None,
            is_regular: false,
        }
    }

    /// Whether a file is open.
    pub fn is_open(&self) -> bool
        ensures { IsTrue result ↔ IsSome self.now }
    {
        self.file.is_some()
    }

    /// Takes an open file in place of the one before, and drops its bytes if it is a regular one. After
    /// `Failed` none is open.
    pub fn begin(&mut self, mut file: F, is_regular: bool) -> Result<(), Failed>
        ensures kind { OnOk result (kind_of self.new ≡ Some is_regular) }
        ensures empty { OnOk result (is_regular ≡ true → IsEmpty (open_contents self.new)) }
        ensures other { OnOk result (is_regular ≡ false → open_contents self.new ≡ F.contents file) }
    {
        self.file = None;
        if is_regular {
            let Ok(()) = file.drop_bytes() else {
                return Err(Failed);
            };
        }
        self.is_regular = is_regular;
        self.file = Some(file);
        Ok(())
    }

    /// Goes on in an open file, the bytes of which stay, in place of the one before.
    pub fn go_on(&mut self, file: F, is_regular: bool)
        ensures kind { kind_of self.new ≡ Some is_regular }
        ensures contents { open_contents self.new ≡ F.contents file }
    {
        self.is_regular = is_regular;
        self.file = Some(file);
    }

    /// Writes a piece after what was written. It fails where no file is open.
    pub fn add(&mut self, piece: &[u8]) -> Result<(), Failed>
        ensures open { OnOk result (IsSome self.old) }
        ensures added { OnOk result
            (Appends (open_contents self.old) (open_contents self.new) piece.now) }
        ensures kind { kind_of self.new ≡ kind_of self.old }
    {
        let Some(file) = &mut self.file else {
            return Err(Failed);
        };
        write_all_of(file, piece)
    }

    /// Has the system bring the bytes of a regular file onto the disk, with its answer. No open file is
    /// nothing to do.
    pub fn store(&mut self) -> Result<(), Failed>
        ensures stored { OnOk result (IsStored self.new) }
        ensures kept { Keeps (open_contents self.old) (open_contents self.new) }
        ensures kind { kind_of self.new ≡ kind_of self.old }
    {
        let Some(file) = &mut self.file else {
            return Ok(());
        };
        if !self.is_regular {
            return Ok(());
        }
        match file.store() {
            Ok(()) => Ok(()),
            Err(_) => Err(Failed),
        }
    }

    /// Closes the file. What the system answers to that is lost.
    pub fn close(&mut self)
        ensures { self.new ≡ None }
    {
        self.file = None;
    }
}
