// Why a run ends without its result.
ghost use Rattle.std.specs.Prelude.{◌≡◌};
ghost use Rattle.synth_report.specs.declared.fault.Fault.TheVariants as of;
ghost use Rattle.synth_report.specs.Texts.{file_stem, file_number, status_of};

use job_words::WordFault;
use shelf_traits::{FormFault, What};
use std::alloc::AllocError;

/// A file of a run, by its part in it. `Report` is the sink that the report is written to.
#[derive(Clone, Copy, Drop, PartialEq, Eq)]
pub enum FileOf {
    Sample,
    /// A further sample, by its number from 2 to 16.
    More(u8),
    /// The picture that a transfer paints.
    Target,
    /// The marks of a merge.
    Marks,
    Out,
    Map,
    /// The record.
    Record,
    /// The map that an upgrade writes.
    NewMap,
    /// The record that an upgrade writes.
    NewRecord,
    Report,
}

impl FileOf {
    // The file as a line names it, up to the number of a further sample.
    pub(crate) fn stem(self) -> &'static str
        ensures { result.now ≡ file_stem self }
    {
        match self {
            FileOf::Sample | FileOf::More(_) => "sample",
            FileOf::Target => "target",
            FileOf::Marks => "marks",
            FileOf::Out => "out",
            FileOf::Map => "map",
            FileOf::Record => "record",
            FileOf::NewMap => "newmap",
            FileOf::NewRecord => "newrecord",
            FileOf::Report => "report",
        }
    }

    // The number of a further sample.
    pub(crate) fn number(self) -> Option<u8>
        ensures { result ≡ file_number self }
    {
        match self {
            FileOf::More(number) => Some(number),
            _ => None,
        }
    }
}

/// Why a run ends without its result.
#[derive(Clone, Copy, Drop, PartialEq, Eq)]
pub enum Fault {
    /// The words ask for no job.
    Words(WordFault),
    /// A file's bytes break its form.
    Form { file: FileOf, why: FormFault },
    /// A file doesn't go with the first sample: another form, maxval, colour kind or size.
    Unlike(FileOf),
    /// The cell of the marks at this raster index marks no picture.
    Mark(u32),
    /// A number passes its bound.
    Limit { what: What, number: u64, bound: u64 },
    /// A file can't be read.
    Read(FileOf),
    /// A file can't be written whole.
    Write(FileOf),
    /// Out of memory.
    NoMemory,
    /// The sample has no loop of this length.
    NoLoop(u32),
}

impl From<WordFault> for Fault {
    ghost from_gives = { λ fault e. e ≡ of.Words fault };

    fn from(fault: WordFault) -> Self {
        Fault::Words(fault)
    }
}

impl From<AllocError> for Fault {
    ghost from_gives = { λ _ e. e ≡ of.NoMemory };

    fn from(_: AllocError) -> Self {
        Fault::NoMemory
    }
}

/// The status that a run with this fault ends with: 2 for words, 3 for a form, 4 for a limit, 5 for a
/// read and 6 for a write that failed, 7 where memory ran out, 8 where there is no loop.
pub fn status(fault: &Fault) -> u8
    ensures { result ≡ status_of fault.now }
{
    match fault {
        Fault::Words(WordFault::NoMemory) | Fault::NoMemory => 7,
        Fault::Words(_) => 2,
        Fault::Form { .. } | Fault::Unlike(_) | Fault::Mark(_) => 3,
        Fault::Limit { .. } => 4,
        Fault::Read(_) => 5,
        Fault::Write(_) => 6,
        Fault::NoLoop(_) => 8,
    }
}
