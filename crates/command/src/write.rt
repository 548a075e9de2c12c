// The second half of a command: its files are written, and then its report.
ghost use Rattle.std.specs.Prelude.{[]};
ghost use Rattle.shelf_traits.specs.Files.{OnlyWrites, ShelfState};
ghost use Rattle.command.specs.Writing.{WritesRun, text_names};

use crate::files::RunFiles;
use shelf_traits::{Shelf, Sink};
use synth_report::{Fault, FileOf, Summary, report};

/// Writes the files of a run in their order, and then its report. A file that can't be written whole
/// ends it, and nothing is reported then. It takes no memory.
pub fn write_run<F: RunFiles, S: Shelf, O: Sink>(
    files: &mut F,
    summary: Summary,
    shelf: &mut S,
    out: &mut O,
) -> Result<Summary, Fault>
    requires { F.AreReady files.old }
    ensures wrote { WritesRun (F.texts files.old) summary
        (S.state shelf.old) (S.state shelf.new) (O.state out.old) (O.state out.new) result }
    ensures writes { OnlyWrites (text_names (F.texts files.old))
        (S.state shelf.old) (S.state shelf.new) }
{
    match files.write(shelf) {
        Ok(()) => {}
        Err(part) => return Err(Fault::Write(part)),
    }
    report_run(summary, out)
}

/// Reports a run that writes no file. It takes no memory.
pub fn report_run<O: Sink>(summary: Summary, out: &mut O) -> Result<Summary, Fault>
    // Whatever the shelf holds, nothing of it changes.
    ensures { (shelf : ShelfState) →
        WritesRun [] summary shelf shelf (O.state out.old) (O.state out.new) result }
{
    match report(&summary, out) {
        Ok(()) => Ok(summary),
        Err(_) => Err(Fault::Write(FileOf::Report)),
    }
}
