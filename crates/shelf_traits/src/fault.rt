// The answers that readers and writers of files share.
ghost use Rattle.std.specs.Prelude.{◌≡◌};
ghost use Rattle.shelf_traits.specs.declared.fault.ReadError.TheVariants as read;

use crate::Failed;
use std::alloc::AllocError;
use thiserror::Error;

/// What is counted against a limit.
#[derive(Clone, Copy, Debug, Drop, PartialEq, Eq)]
pub enum What {
    /// Cells on one axis of a file or a job.
    Axis,
    /// Cells of a file.
    Cells,
    /// Bytes of a header.
    Header,
    /// Frames of a sample, or asked of a picture.
    Frames,
    /// Cells of an output.
    Output,
    /// Cells per frame times the length of a loop, or the length in a walk record.
    Loop,
    /// Cells of all boxes of one run or record file.
    Records,
    /// Parts of a sample, turned ones counted apart.
    Parts,
}

/// How a file's bytes break its form. Places count bytes from 0.
#[derive(Clone, Copy, Debug, Drop, PartialEq, Eq)]
pub enum FormFault {
    /// The byte at this place, or the end of the file there, has no place in the form.
    Form(u64),
    /// Samples of more than 8 bits.
    Depth,
    /// A colour space or an interlacing that isn't read.
    Space,
    /// A width or height that isn't a whole number of cells.
    Cell,
    /// A clip with no frame.
    NoFrames,
    /// The byte at this place is above the file's greatest sample value.
    Sample(u64),
    /// The byte at this place comes after the end of the form.
    Trailing(u64),
}

/// Why a file wasn't read.
#[derive(Clone, Copy, Debug, Drop, PartialEq, Eq, Error)]
pub enum ReadError {
    /// The outside failed.
    #[error("read fault")]
    ReadFault,
    /// The bytes break the form.
    #[error("not in the form")]
    Bad(FormFault),
    /// A number passes its bound.
    #[error("over a limit")]
    Limit { what: What, number: u64, bound: u64 },
    /// Out of memory.
    #[error("no memory")]
    NoMemory,
}

impl From<AllocError> for ReadError {
    ghost from_gives = { λ _ e. e ≡ read.NoMemory };

    fn from(_: AllocError) -> Self {
        ReadError::NoMemory
    }
}

impl From<Failed> for ReadError {
    ghost from_gives = { λ _ e. e ≡ read.ReadFault };

    fn from(_: Failed) -> Self {
        ReadError::ReadFault
    }
}

/// A file wasn't written whole, because the outside failed.
#[derive(Clone, Copy, Debug, Drop, PartialEq, Eq, Error)]
#[error("write fault")]
pub struct WriteFault;

impl From<Failed> for WriteFault {
    fn from(_: Failed) -> Self {
        WriteFault
    }
}
