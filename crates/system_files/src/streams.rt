// The standard output and the standard error as sinks, each with a record of its calls.
ghost use Rattle.std.specs.Prelude.{◌≡◌, []};
ghost use Rattle.system_files.specs.Replays.{AreAskedFor, sink_of};

use crate::start::Start;
use byte_streams::write_all_of;
use shelf_traits::{Failed, Sink};
use std::fs::File;
use std::io::{self, Stderr, Stdout};
use std::marker::{Model, PhantomData};
use system_calls::{Call, Record, System};

/// The standard output. A clause sees its calls.
#[derive(Drop)]
pub struct Output<S: Start> {
    stream: Stdout,
    start: PhantomData<S>,
    calls: Record,
}

impl<S: Start> Model for Output<S> {
    ghost use Rattle.std.specs.Prelude.{List};
    ghost use Rattle.system_calls.specs.Calls.{Noted};

    ghost Value = { List Noted };

    ghost view = { λ sink. sink.calls.calls };
}

impl<S: Start> Output<S> {
    /// The standard output, with no call.
    pub fn new(stream: Stdout) -> Output<S>
        ensures { result ≡ [] }
    {
        Output {
            stream,
            start: PhantomData,
            calls: Record::new(),
        }
    }
}

impl<S: Start> Sink for Output<S> {
    ghost state = { λ sink. sink_of S.left_out sink };

    fn add(&mut self, piece: &[u8]) -> Result<(), Failed> {
        let answer = write_all_of(&mut self.stream, piece);
        let done = answer.is_ok();
        self.calls.note(&Call::Say { piece, done });
        answer
    }
}

/// The standard error. A clause sees its calls.
#[derive(Drop)]
pub struct ErrorOutput<S: Start> {
    stream: Stderr,
    start: PhantomData<S>,
    calls: Record,
}

impl<S: Start> Model for ErrorOutput<S> {
    ghost use Rattle.std.specs.Prelude.{List};
    ghost use Rattle.system_calls.specs.Calls.{Noted};

    ghost Value = { List Noted };

    ghost view = { λ sink. sink.calls.calls };
}

impl<S: Start> ErrorOutput<S> {
    /// The standard error, with no call.
    pub fn new(stream: Stderr) -> ErrorOutput<S>
        ensures { result ≡ [] }
    {
        ErrorOutput {
            stream,
            start: PhantomData,
            calls: Record::new(),
        }
    }
}

impl<S: Start> Sink for ErrorOutput<S> {
    ghost state = { λ sink. sink_of S.left_err sink };

    fn add(&mut self, piece: &[u8]) -> Result<(), Failed> {
        let answer = write_all_of(&mut self.stream, piece);
        let done = answer.is_ok();
        self.calls.note(&Call::Say { piece, done });
        answer
    }
}

/// Takes the numbers of the standard streams that are closed, until what it gives is dropped. The next file
/// that is opened would get such a number, and what is said would be written into it. A file that holds a
/// number is open to be read alone, so that a write of what is said fails.
pub fn hold_streams(system: &mut System) -> io::Result<[File; 3]>
    ensures { AreAskedFor system.old [] → AreAskedFor system.new [] }
{
    let first = system.hold()?;
    let second = system.hold()?;
    let third = system.hold()?;
    Ok([first, second, third])
}
