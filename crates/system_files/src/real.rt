// The files of the system as a shelf, with a record of its calls.
ghost use Rattle.std.specs.Prelude.{◌≡◌, [], IfOk};
ghost use Rattle.system_files.specs.Replays.{AreAskedFor, shelf_of};

use crate::files::{Source, Target};
use crate::nodes::Known;
use crate::start::Start;
use shelf_traits::{Failed, Shelf};
use std::alloc::{AllocError, Global};
use std::marker::{Model, PhantomData};
use system_calls::{Call, Record, System};

/// The files of the system, by their paths. The file that was read last and the one that was begun last
/// stay open, so that each is read and written as it was when it was opened, whatever becomes of its name.
/// No file is begun that was read or begun before, or that is the standard output or error, be it by
/// another name: so what is written can't replace a sample, another output or the report.
///
/// A clause sees its calls, and the files that were opened for them (`Traffic` in specs/Replays.antt).
#[derive(Drop)]
pub struct RealShelf<S: Start> {
    system: System,
    start: PhantomData<S>,
    source: Source,
    target: Target,
    known: Known,
    calls: Record,
}

impl<S: Start> Model for RealShelf<S> {
    ghost use Rattle.system_files.specs.Replays.{AreAskedFor, Traffic};

    ghost Value = { Traffic };

    ghost view = { λ shelf. record { calls = shelf.calls.calls; opens = shelf.system } };

    ghost invariant = { λ shelf. AreAskedFor shelf.system shelf.calls.calls };
}

impl<S: Start> RealShelf<S> {
    /// The files of the system, with no call. It takes all the memory that reading and writing them needs;
    /// the one error is out of memory.
    pub fn new(system: System, alloc: Global) -> Result<RealShelf<S>, AllocError>
        requires { AreAskedFor system [] }
        ensures calls { IfOk result (λ shelf. shelf.calls ≡ []) }
        ensures opens { IfOk result (λ shelf. shelf.opens ≡ system) }
    {
        let target = Target::none(alloc)?;
        let known = Known::new(&system, alloc)?;
        let source = Source::none(alloc)?;
        Ok(RealShelf {
            system,
            start: PhantomData,
            source,
            target,
            known,
            calls: Record::new(),
        })
    }

    /// Ends the file that was begun last, after the last piece of it: the system brings what was written of
    /// a regular file onto the disk, and its answer is given. It is no call of a shelf, and opens no file.
    pub fn finish(&mut self) -> Result<(), Failed>
        ensures { self.new ≡ self.old }
    {
        self.target.end()
    }

    /// Each file that was opened was asked for, by its name. (Nothing happens.)
    pub fn opens_what_is_asked(&self)
        ensures { AreAskedFor self.now.opens self.now.calls }
    {
        let _calls = &self.calls;
    }
}

impl<S: Start> Shelf for RealShelf<S> {
    ghost state = { λ shelf. shelf_of S.files S.left shelf.calls };

    fn get(&mut self, name: &str, place: u64, into: &mut [u8]) -> Result<usize, Failed> {
        let asked = into.len();
        match self
            .source
            .read(&mut self.system, name, place, into, &mut self.known)
        {
            Ok(n) => {
                self.calls.note(&Call::Read {
                    name,
                    place,
                    asked,
                    bytes: &into[..n],
                    done: true,
                });
                Ok(n)
            }
            Err(failed) => {
                self.calls.note(&Call::Read {
                    name,
                    place,
                    asked,
                    bytes: &[],
                    done: false,
                });
                Err(failed)
            }
        }
    }

    fn begin(&mut self, name: &str) -> Result<(), Failed> {
        let answer = self.target.begin(&mut self.system, name, &mut self.known);
        let done = answer.is_ok();
        self.calls.note(&Call::Begin { name, done });
        answer
    }

    fn add(&mut self, name: &str, piece: &[u8]) -> Result<(), Failed> {
        let answer = self.target.add(&mut self.system, name, piece);
        let done = answer.is_ok();
        self.calls.note(&Call::Add { name, piece, done });
        answer
    }
}
