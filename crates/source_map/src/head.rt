// The head of map and record files.
ghost use Rattle.std.specs.Prelude.{◌≡◌};
ghost use Rattle.file_bytes.specs.Writing.{Puts};
ghost use Rattle.source_map.specs.Heads.{IsHead, head_form, size_field, sizes_field, start_form, version_number};

use cells::{Size, Sizes};
use file_bytes::FileWriter;
use shelf_traits::Shelf;

/// The version of a map or record file.
#[derive(Clone, Copy, Drop, PartialEq, Eq)]
pub enum Version {
    /// Over one sample.
    One,
    /// Over 1 to 16 samples, of which each source names one.
    Two,
}

/// What map and record files begin with.
#[derive(Drop)]
pub struct Head {
    /// The size of the output, in cells.
    pub output: Size,
    /// The sizes of the samples, in cells.
    pub samples: Sizes,
    /// The version of the file.
    pub version: Version,
}

impl Version {
    // Its number in a file.
    fn number(self) -> u8
        ensures { result ≡ version_number self }
    {
        match self {
            Version::One => 1,
            Version::Two => 2,
        }
    }
}

// Puts a size.
pub(crate) fn put_size<S: Shelf>(file: &mut FileWriter, size: Size, shelf: &mut S, name: &str)
    ensures { Puts name.now (size_field size) (S.state shelf.old) (S.state shelf.new)
        file.old file.new }
{
    file.put_number(size.w, shelf, name);
    file.put_number(size.h, shelf, name);
    file.put_number(size.f, shelf, name);
}

// Puts what comes before the sizes of the samples.
pub(crate) fn put_start<S: Shelf>(
    file: &mut FileWriter,
    magic: [u8; 8],
    kind: u8,
    version: Version,
    output: Size,
    shelf: &mut S,
    name: &str,
)
    ensures { Puts name.now (start_form magic kind version output) (S.state shelf.old)
        (S.state shelf.new) file.old file.new }
{
    file.put(&magic, shelf, name);
    file.put(&[version.number(), kind], shelf, name);
    put_size(file, output, shelf, name);
}

// Puts the sizes of the samples, and before them how many they are where the version tells it.
pub(crate) fn put_samples<S: Shelf>(
    file: &mut FileWriter,
    version: Version,
    samples: &Sizes,
    shelf: &mut S,
    name: &str,
)
    ensures { Puts name.now (sizes_field version samples.now) (S.state shelf.old)
        (S.state shelf.new) file.old file.new }
{
    let count = samples.len();
    match version {
        Version::One => {}
        Version::Two => file.put_number(count as u16, shelf, name),
    }
    for part in 0..count {
        put_size(file, samples.at(part + 1), shelf, name);
    }
}

/// Puts a head: the magic, the version and the kind, a byte each, the output's size, and the size of the
/// one sample; in version 2 the count of the samples and their sizes. It takes no memory.
pub fn put_head<S: Shelf>(
    file: &mut FileWriter,
    magic: [u8; 8],
    kind: u8,
    head: &Head,
    shelf: &mut S,
    name: &str,
)
    requires { IsHead head.now }
    ensures { Puts name.now (head_form magic kind head.now) (S.state shelf.old)
        (S.state shelf.new) file.old file.new }
{
    put_start(file, magic, kind, head.version, head.output, shelf, name);
    put_samples(file, head.version, &head.samples, shelf, name);
}
