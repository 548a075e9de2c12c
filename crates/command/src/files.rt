// The files of a run, written one after another.
ghost use Rattle.std.specs.Prelude.{List, ◌++◌};
ghost use Rattle.shelf_traits.specs.Files.{OnlyWrites};
ghost use Rattle.command.specs.Writing.{FileText, WritesFiles, text_names};

use shelf_traits::Shelf;
use synth_report::FileOf;

/// The files that a command writes, with the texts that it made.
pub trait RunFiles {
    /// Each file with its text, in the order of writing.
    ghost texts: { Self → List FileText };

    /// The writers of the files can write them.
    ghost AreReady: { Self → Type 0 };

    /// Writes the files. It ends at the first that can't be written whole, and gives its part.
    fn write<S: Shelf>(&mut self, shelf: &mut S) -> Result<(), FileOf>
        requires { AreReady self.old }
        ensures wrote { WritesFiles (texts self.old)
            (S.state shelf.old) (S.state shelf.new) result }
        ensures writes { OnlyWrites (text_names (texts self.old))
            (S.state shelf.old) (S.state shelf.new) };
}

/// Some files, and then others.
#[derive(Drop)]
pub struct Then<A, B>(pub A, pub B);

impl<A: RunFiles, B: RunFiles> RunFiles for Then<A, B> {
    ghost texts = { λ files. A.texts files.0 ++ B.texts files.1 };

    ghost AreReady = { λ files. A.AreReady files.0 × B.AreReady files.1 };

    fn write<S: Shelf>(&mut self, shelf: &mut S) -> Result<(), FileOf> {
        self.0.write(shelf)?;
        self.1.write(shelf)
    }
}
