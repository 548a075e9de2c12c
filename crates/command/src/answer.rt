// The end of a run: what is said of its answer, and its status.
ghost use Rattle.std.specs.Prelude.{◌≡◌};
ghost use Rattle.command.specs.Faults.{fault_of_read};
ghost use Rattle.command.specs.Outcomes.{SaysAnswer, answer_status};

use shelf_traits::{ReadError, Sink};
use synth_report::{Fault, FileOf, Summary, say_fault, status};

/// The fault of a file that wasn't read.
pub fn read_fault(part: FileOf, error: ReadError) -> Fault
    ensures { result ≡ fault_of_read part error }
{
    match error {
        ReadError::ReadFault => Fault::Read(part),
        ReadError::Bad(why) => Fault::Form { file: part, why },
        ReadError::Limit {
            what,
            number,
            bound,
        } => Fault::Limit {
            what,
            number,
            bound,
        },
        ReadError::NoMemory => Fault::NoMemory,
    }
}

// Says the line of a fault.
fn say<E: Sink>(answer: &Result<Summary, Fault>, err: &mut E)
    ensures { SaysAnswer answer.now (E.state err.old) (E.state err.new) }
{
    if let Err(fault) = answer {
        let _ = say_fault(fault, err);
    }
}

// The status of an answer: 1 where files fail, 0 where all else is done, or that of the fault.
fn status_of(answer: &Result<Summary, Fault>) -> u8
    ensures { result ≡ answer_status answer.now }
{
    match answer {
        Ok(Summary::Fails { .. }) => 1,
        Ok(_) => 0,
        Err(fault) => status(fault),
    }
}

/// Ends a run: says the line of the fault, if there is one, and gives the status. That `err` fails
/// changes no status.
pub fn finish<E: Sink>(answer: &Result<Summary, Fault>, err: &mut E) -> u8
    ensures said { SaysAnswer answer.now (E.state err.old) (E.state err.new) }
    ensures status { result ≡ answer_status answer.now }
{
    say(answer, err);
    status_of(answer)
}
