// Jobs, and why words ask for none.
ghost use Rattle.std.specs.Prelude.{◌≡◌};
ghost use Rattle.job_words.specs.declared.job.WordFault.TheVariants as word;

use crate::check::CheckJob;
use crate::grow::GrowJob;
use crate::keys::Key;
use crate::loop_words::LoopJob;
use crate::merge::MergeJob;
use crate::name::{Name, Names16};
use crate::quilt::QuiltJob;
use crate::tile::TileJob;
use crate::transfer::TransferJob;
use crate::trial::TrialJob;
use crate::upgrade::UpgradeJob;
use cells::Axis;
use std::alloc::AllocError;

/// The files of a run.
#[derive(Drop)]
pub struct Names {
    /// The first sample.
    pub sample: Name,
    /// The further samples.
    pub more: Names16,
    /// The picture or clip.
    pub out: Name,
    /// The map.
    pub map: Name,
    /// The record, by which the result can be checked.
    pub record_file: Name,
}

/// What a run is to do.
#[derive(Drop)]
pub enum Job {
    Grow(GrowJob),
    Quilt(QuiltJob),
    Loop(LoopJob),
    Check(CheckJob),
    Trial(TrialJob),
    Upgrade(UpgradeJob),
    Tile(TileJob),
    Merge(MergeJob),
    Transfer(TransferJob),
}

/// Why words ask for no job. Words are counted from 1; the command is number 1.
#[derive(Clone, Copy, Drop, PartialEq, Eq)]
pub enum WordFault {
    /// There is no word.
    NoCommand,
    /// The first word is no command.
    UnknownCommand,
    /// The word is no key, `=` and value.
    BadWord(u32),
    /// The command has no such key.
    UnknownKey(u32),
    /// An earlier word has the same key.
    Repeated(u32),
    /// No word has this key, and one has to.
    Missing(Key),
    /// The value is none of the key's kind.
    BadValue(u32),
    /// The number isn't in the key's range.
    OutOfRange(u32),
    /// An earlier word has the same file name.
    SameName(u32),
    /// Out of memory.
    NoMemory,
    /// The output has too few cells on an axis on which its edges are to meet.
    Narrow(Axis),
}

impl From<AllocError> for WordFault {
    ghost from_gives = { λ _ e. e ≡ word.NoMemory };

    fn from(_: AllocError) -> Self {
        WordFault::NoMemory
    }
}
