// The keys of all commands.
ghost use Rattle.std.specs.Prelude.{◌≡◌, ◌++◌, decimal};
ghost use Rattle.job_words.specs.Keys.{key_stem, key_number, key_text};
ghost use Rattle.job_words.specs.Texts.{same_text};

use itoa::Buffer;

/// The keys of all commands, in the order in which missing ones are looked for.
#[derive(Clone, Copy, Drop, PartialEq, Eq)]
pub enum Key {
    Sample,
    /// The key `sample` with a number, from 2 to 16.
    More(u8),
    Target,
    Marks,
    Out,
    Map,
    /// The key `record`.
    Record,
    NewMap,
    /// The key `newrecord`.
    NewRecord,
    Width,
    Height,
    Length,
    N,
    Frames,
    Place,
    /// The key `box`.
    Side,
    Block,
    Overlap,
    Tol,
    Alpha,
    Rounds,
    Seed,
    Taps,
    Gap,
    Wrap,
    Turns,
}

impl Key {
    /// The key as a word spells it, up to the number of a further sample.
    pub fn stem(self) -> &'static str
        ensures { result.now ≡ key_stem self }
    {
        match self {
            Key::Sample | Key::More(_) => "sample",
            Key::Target => "target",
            Key::Marks => "marks",
            Key::Out => "out",
            Key::Map => "map",
            Key::Record => "record",
            Key::NewMap => "newmap",
            Key::NewRecord => "newrecord",
            Key::Width => "width",
            Key::Height => "height",
            Key::Length => "length",
            Key::N => "n",
            Key::Frames => "frames",
            Key::Place => "place",
            Key::Side => "box",
            Key::Block => "block",
            Key::Overlap => "overlap",
            Key::Tol => "tol",
            Key::Alpha => "alpha",
            Key::Rounds => "rounds",
            Key::Seed => "seed",
            Key::Taps => "taps",
            Key::Gap => "gap",
            Key::Wrap => "wrap",
            Key::Turns => "turns",
        }
    }

    /// The number that ends the key of a further sample.
    pub fn number(self) -> Option<u8>
        ensures { result ≡ key_number self }
    {
        match self {
            Key::More(number) => Some(number),
            _ => None,
        }
    }

    // Whether a word spells the key as this text.
    pub(crate) fn has_text(self, text: &str) -> bool
        ensures { result ≡ same_text (key_text self) text.now }
    {
        match self.number() {
            Some(number) => is_numbered(self.stem(), number, text),
            None => self.stem() == text,
        }
    }
}

// The text is a stem, and then the number in decimal.
fn is_numbered(stem: &str, number: u8, text: &str) -> bool
    ensures { result ≡ same_text (stem.now ++ decimal number) text.now }
{
    let mut buffer = Buffer::new();
    match text.as_bytes().strip_prefix(stem.as_bytes()) {
        Some(rest) => rest == buffer.format(number).as_bytes(),
        None => false,
    }
}
