// The table of the keys of a command: the kind of each value, and what holds where no word sets it.
ghost use Rattle.std.specs.Prelude.{◌≡◌, map, position};
ghost use Rattle.job_words.specs.Texts.{same_text};
ghost use Rattle.job_words.specs.Tables.{texts_of};

use crate::keys::Key;

/// Lists of texts, of which a value is one.
#[derive(Clone, Copy, Drop)]
pub enum Texts {
    /// How the places of patches are chosen.
    Places,
    /// The axes on which an output's edges meet.
    Wraps,
    /// Whether the samples are turned.
    Turns,
}

impl Texts {
    fn all(self) -> &'static [&'static str]
        ensures { map (λ text. text.now) result.now ≡ texts_of self }
    {
        match self {
            Texts::Places => &["grid", "random", "whole", "sub"],
            Texts::Wraps => &["x", "y", "xy", "f", "xyf"],
            Texts::Turns => &["none", "all"],
        }
    }

    /// The position of a text in its list, from 0.
    pub fn position(self, text: &str) -> Option<usize>
        ensures { result ≡ position (same_text text.now) (texts_of self) }
    {
        position_of(self.all(), text)
    }
}

// The position of the first of some texts that is this one.
fn position_of(texts: &[&str], text: &str) -> Option<usize>
    ensures { result ≡ position (λ each. same_text text.now each.now) texts.now }
{
    texts.iter().position(|each| text == *each)
}

/// What follows the `=` of a key.
#[derive(Clone, Copy, Drop)]
pub enum Kind {
    FileName,
    /// A number between two bounds, both included.
    Within { least: u64, most: u64 },
    /// One of three numbers. Any other number is out of range.
    Among(u64, u64, u64),
    /// One of the texts of a list.
    OneOf(Texts),
}

/// A value that is no file name.
#[derive(Clone, Copy, Drop)]
pub enum Choice {
    Number(u64),
    /// The text at this position of its list, from 0.
    Nth(usize),
}

/// When a word has to set a key.
#[derive(Clone, Copy, Drop)]
pub enum Need {
    Always,
    /// Never: without a word the key has this value.
    Default(Choice),
    /// Exactly where a word sets a further sample of a greater number.
    BelowAnother,
}

/// A key of a command.
#[derive(Clone, Copy, Drop)]
pub struct Row {
    pub key: Key,
    pub kind: Kind,
    pub need: Need,
}

// The row of a key that a word has to set to the name of a file.
macro_rules! file_row {
    ($key:ident) => {
        Row {
            key: Key::$key,
            kind: Kind::FileName,
            need: Need::Always,
        }
    };
}

// The row of the key of a further sample.
macro_rules! sample_row {
    ($number:literal) => {
        Row {
            key: Key::More($number),
            kind: Kind::FileName,
            need: Need::BelowAnother,
        }
    };
}

// The row of a key with a number, both bounds included. Without a word it has the default, if one is
// given.
macro_rules! number_row {
    ($key:ident, $least:expr, $most:expr) => {
        Row {
            key: Key::$key,
            kind: Kind::Within {
                least: $least,
                most: $most,
            },
            need: Need::Always,
        }
    };
    ($key:ident, $least:expr, $most:expr, $default:expr) => {
        Row {
            key: Key::$key,
            kind: Kind::Within {
                least: $least,
                most: $most,
            },
            need: Need::Default(Choice::Number($default)),
        }
    };
}

// The row of the key that says how the places of patches are chosen: without a word by fitting patches.
macro_rules! place_row {
    () => {
        Row {
            key: Key::Place,
            kind: Kind::OneOf(Texts::Places),
            need: Need::Default(Choice::Nth(3)),
        }
    };
}

// The row of the key that says whether samples are turned: without a word they aren't.
macro_rules! turns_row {
    () => {
        Row {
            key: Key::Turns,
            kind: Kind::OneOf(Texts::Turns),
            need: Need::Default(Choice::Nth(0)),
        }
    };
}

// The rows of keys that several commands have: each key has one range, and mostly one default.

macro_rules! side_row {
    () => {
        number_row!(Side, 1, limits::GREATEST_AXIS as u64, 32)
    };
}

macro_rules! block_row {
    () => {
        number_row!(Block, 1, limits::GREATEST_AXIS as u64, 32)
    };
}

macro_rules! overlap_row {
    ($default:literal) => {
        number_row!(Overlap, 0, limits::GREATEST_OVERLAP as u64, $default)
    };
}

macro_rules! tol_row {
    () => {
        number_row!(Tol, 0, limits::GREATEST_TOLERANCE as u64, 10)
    };
}

macro_rules! rounds_row {
    ($default:literal) => {
        number_row!(Rounds, 0, limits::MOST_ROUNDS as u64, $default)
    };
}

macro_rules! seed_row {
    () => {
        number_row!(Seed, 0, limits::GREATEST_SEED, 0)
    };
}

// The rows of the files of a run over one sample, and then others.
macro_rules! with_one_sample {
    ($($row:expr),* $(,)?) => {
        [
            file_row!(Sample),
            file_row!(Out),
            file_row!(Map),
            file_row!(Record),
            $($row),*
        ]
    };
}

// The rows of the files of a run over samples, and then others.
macro_rules! with_files {
    ($($row:expr),* $(,)?) => {
        [
            file_row!(Sample),
            sample_row!(2),
            sample_row!(3),
            sample_row!(4),
            sample_row!(5),
            sample_row!(6),
            sample_row!(7),
            sample_row!(8),
            sample_row!(9),
            sample_row!(10),
            sample_row!(11),
            sample_row!(12),
            sample_row!(13),
            sample_row!(14),
            sample_row!(15),
            sample_row!(16),
            file_row!(Out),
            file_row!(Map),
            file_row!(Record),
            $($row),*
        ]
    };
}

pub(crate) use block_row;
pub(crate) use file_row;
pub(crate) use number_row;
pub(crate) use overlap_row;
pub(crate) use place_row;
pub(crate) use rounds_row;
pub(crate) use sample_row;
pub(crate) use seed_row;
pub(crate) use side_row;
pub(crate) use tol_row;
pub(crate) use turns_row;
pub(crate) use with_files;
pub(crate) use with_one_sample;
