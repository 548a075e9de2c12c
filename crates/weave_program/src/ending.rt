// How the program ends after a run.
ghost use Rattle.std.specs.Prelude.{◌≡◌, IfErr, IfOk};
ghost use Rattle.weave_program.specs.Endings.{Ends, EndsBefore, last_of, last_output};

use job_words::Words;
use shelf_traits::Sink;
use synth_report::{Fault, FileOf, say_fault, status};
use system_files::{Output, RealShelf, Start};

/// A run that has ended: its status, and shelf and sinks with the records of its calls.
#[derive(Drop)]
pub struct Ran<S: Start, E: Sink + Drop> {
    pub status: u8,
    pub shelf: RealShelf<S>,
    pub out: Output<S>,
    pub err: E,
    /// The last file that the command writes, where it writes any.
    pub last: FileOf,
}

// The last file that a command writes.
fn last_of(command: &str) -> FileOf
    ensures { result ≡ last_of command.now }
{
    match command {
        "tile" => FileOf::Map,
        "merge" => FileOf::Map,
        "upgrade" => FileOf::NewRecord,
        _ => FileOf::Record,
    }
}

/// The last file that the command of these words writes. `check` and `trial` write none.
pub fn last_output(words: &Words) -> FileOf
    ensures { result ≡ last_output words.now }
{
    match words.as_slice().first() {
        Some(command) => last_of(command.as_text()),
        None => FileOf::Record,
    }
}

/// The status that the program ends with. After status 0 the system brings the last file onto the disk.
/// Where it can't, the status is 6, and the line of that file's write fault is said; else it is that of the
/// run. Where there was no run it is that of the fault, and its line is said.
pub fn status_of<S: Start, E: Sink + Drop>(answer: &mut Result<Ran<S, E>, Fault>, err: &mut E) -> u8
    ensures ran { IfOk answer.old (λ ran. Ends ran.status ran.last
        (E.state err.old) (E.state err.new) result) }
    ensures unmade { IfErr answer.old (λ fault. EndsBefore fault
        (E.state err.old) (E.state err.new) result) }
{
    let fault = match answer {
        Ok(ran) => {
            if ran.status != 0 {
                return ran.status;
            }
            if ran.shelf.finish().is_ok() {
                return ran.status;
            }
            Fault::Write(ran.last)
        }
        Err(fault) => *fault,
    };
    let _ = say_fault(&fault, err);
    status(&fault)
}
