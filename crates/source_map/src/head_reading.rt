// Reading the head of map and record files.
ghost use Rattle.std.specs.Prelude.{◌≡◌, ◌≤◌, ◌<◌, ◌+◌, ◌^◌, IfOk, IfErr, OnOk, length, ◌*◌};
ghost use Rattle.std.specs.Int.{w8, w16, w32};
ghost use Rattle.shelf_traits.specs.Files.{OnlyReadsFile};
ghost use Rattle.cells.specs.Places.{HasAxes};
ghost use Rattle.cells.specs.SizeLists.{AreSizes};
ghost use Rattle.file_bytes.specs.Reading.{Follows};
ghost use Rattle.source_map.specs.Heads.{AreSamples, IsHead, IsKind, IsVersion, axis_rule, head_read, kind_rule, magic_rule, size_read, sizes_read, start_read, version_rule};
ghost use Rattle.source_map.specs.MapFiles.{part_rule};
ghost use Rattle.source_map.specs.Readings.{IsRefusal, ReadsFrom, field_read, list_read, number_read};

use crate::head::{Head, Version};
use cells::{Size, Sizes};
use file_bytes::FileReader;
use limits::{GREATEST_AXIS, MOST_PARTS};
use shelf_traits::{FormFault, ReadError, Shelf, What};

// What comes before the sizes of the samples.
#[derive(Clone, Copy, Drop)]
pub struct Start {
    pub version: Version,
    pub kind: u8,
    pub output: Size,
}

// The refusal of a field at its place.
pub(crate) fn form<T>(at: u64) -> Result<T, ReadError>
    ensures { result ≡ Err (ReadError.Bad (FormFault.Form at)) }
{
    Err(ReadError::Bad(FormFault::Form(at)))
}

// The magic, if it is that.
fn lawful_magic(piece: [u8; 8], magic: [u8; 8], at: u64) -> Result<(), ReadError>
    ensures magic { result ≡ magic_rule magic at piece }
    ensures refusal { IfErr result IsRefusal }
{
    if piece == magic { Ok(()) } else { form(at) }
}

// The version of a number, if it is one of so many.
fn lawful_version(n: u8, versions: u8, at: u64) -> Result<Version, ReadError>
    ensures rule { result ≡ version_rule versions at n }
    ensures version { IfOk result (IsVersion versions) }
    ensures refusal { IfErr result IsRefusal }
{
    if n > versions {
        form(at)
    } else if n == 1 {
        Ok(Version::One)
    } else if n == 2 {
        Ok(Version::Two)
    } else {
        form(at)
    }
}

// The kind, if files of the version have it.
fn lawful_kind(n: u8, kinds: u8, version: Version, at: u64) -> Result<u8, ReadError>
    ensures rule { result ≡ kind_rule kinds version at n }
    ensures kind { IfOk result (IsKind kinds version) }
    ensures refusal { IfErr result IsRefusal }
{
    match version {
        Version::One if n < kinds => Ok(n),
        Version::Two if n == 0 => Ok(n),
        _ => form(at),
    }
}

// The axis, if it is from 1 to the greatest.
fn lawful_axis(n: u32, at: u64) -> Result<u32, ReadError>
    ensures axis { result ≡ axis_rule at n }
    ensures within { IfOk result (λ n. (1 ≤ n) × (n ≤ GREATEST_AXIS)) }
    ensures refusal { IfErr result IsRefusal }
{
    if n == 0 {
        form(at)
    } else if n <= GREATEST_AXIS {
        Ok(n)
    } else {
        Err(ReadError::Limit {
            what: What::Axis,
            number: u64::from(n),
            bound: u64::from(GREATEST_AXIS),
        })
    }
}

// The number, if it is from 1 to another.
fn lawful_part(n: u16, count: u32, at: u64) -> Result<u32, ReadError>
    ensures rule { result ≡ part_rule count at n }
    ensures within { IfOk result (λ n. (1 ≤ n) × (n ≤ count)) }
    ensures refusal { IfErr result IsRefusal }
{
    if n == 0 || u32::from(n) > count {
        form(at)
    } else {
        Ok(u32::from(n))
    }
}

/// Reads the 8 bytes with which a file begins. `Bad(Form)` comes at any others. It takes no memory.
pub fn read_magic<S: Shelf>(
    file: &mut FileReader,
    magic: [u8; 8],
    shelf: &mut S,
    name: &str,
) -> Result<(), ReadError>
    requires follows { Follows name.now (S.state shelf.old) file.old }
    requires room { file.old.at + 8 < 2 ^ 63 }
    ensures answer { ReadsFrom ⊥ name.now file.old.at (S.state shelf.old) (S.state shelf.new)
        file.new (field_read 8 (magic_rule magic)) result }
    ensures place { OnOk result (file.new.at ≡ file.old.at + 8) }
    ensures reads { OnlyReadsFile name.now (S.state shelf.old) (S.state shelf.new) }
{
    let at = file.place();
    let mut piece = [0; 8];
    match file.take(&mut piece, shelf, name) {
        Ok(()) => lawful_magic(piece, magic, at),
        Err(error) => Err(error),
    }
}

// Reads the version.
fn read_version<S: Shelf>(
    file: &mut FileReader,
    versions: u8,
    shelf: &mut S,
    name: &str,
) -> Result<Version, ReadError>
    requires follows { Follows name.now (S.state shelf.old) file.old }
    requires room { file.old.at + 1 < 2 ^ 63 }
    ensures answer { ReadsFrom ⊥ name.now file.old.at (S.state shelf.old) (S.state shelf.new)
        file.new (number_read w8 (version_rule versions)) result }
    ensures version { IfOk result (IsVersion versions) }
    ensures place { OnOk result (file.new.at ≡ file.old.at + 1) }
    ensures reads { OnlyReadsFile name.now (S.state shelf.old) (S.state shelf.new) }
{
    let at = file.place();
    match file.u8(shelf, name) {
        Ok(n) => lawful_version(n, versions, at),
        Err(error) => Err(error),
    }
}

// Reads the kind.
fn read_kind<S: Shelf>(
    file: &mut FileReader,
    kinds: u8,
    version: Version,
    shelf: &mut S,
    name: &str,
) -> Result<u8, ReadError>
    requires follows { Follows name.now (S.state shelf.old) file.old }
    requires room { file.old.at + 1 < 2 ^ 63 }
    ensures answer { ReadsFrom ⊥ name.now file.old.at (S.state shelf.old) (S.state shelf.new)
        file.new (number_read w8 (kind_rule kinds version)) result }
    ensures kind { IfOk result (IsKind kinds version) }
    ensures place { OnOk result (file.new.at ≡ file.old.at + 1) }
    ensures reads { OnlyReadsFile name.now (S.state shelf.old) (S.state shelf.new) }
{
    let at = file.place();
    match file.u8(shelf, name) {
        Ok(n) => lawful_kind(n, kinds, version, at),
        Err(error) => Err(error),
    }
}

// Reads an axis.
pub(crate) fn read_axis<S: Shelf>(
    file: &mut FileReader,
    shelf: &mut S,
    name: &str,
) -> Result<u32, ReadError>
    requires follows { Follows name.now (S.state shelf.old) file.old }
    requires room { file.old.at + 4 < 2 ^ 63 }
    ensures answer { ReadsFrom ⊥ name.now file.old.at (S.state shelf.old) (S.state shelf.new)
        file.new (number_read w32 axis_rule) result }
    ensures within { IfOk result (λ n. (1 ≤ n) × (n ≤ GREATEST_AXIS)) }
    ensures place { OnOk result (file.new.at ≡ file.old.at + 4) }
    ensures reads { OnlyReadsFile name.now (S.state shelf.old) (S.state shelf.new) }
{
    let at = file.place();
    match file.number(shelf, name) {
        Ok(n) => lawful_axis(n, at),
        Err(error) => Err(error),
    }
}

/// Reads a number from 1 to `count`, as that of a sample, in 2 bytes. `Bad(Form)` comes at any other. It
/// takes no memory.
pub fn read_part<S: Shelf>(
    file: &mut FileReader,
    count: u32,
    shelf: &mut S,
    name: &str,
) -> Result<u32, ReadError>
    requires follows { Follows name.now (S.state shelf.old) file.old }
    requires room { file.old.at + 2 < 2 ^ 63 }
    ensures answer { ReadsFrom ⊥ name.now file.old.at (S.state shelf.old) (S.state shelf.new)
        file.new (number_read w16 (part_rule count)) result }
    ensures within { IfOk result (λ n. (1 ≤ n) × (n ≤ count)) }
    ensures place { OnOk result (file.new.at ≡ file.old.at + 2) }
    ensures reads { OnlyReadsFile name.now (S.state shelf.old) (S.state shelf.new) }
{
    let at = file.place();
    match file.number(shelf, name) {
        Ok(n) => lawful_part(n, count, at),
        Err(error) => Err(error),
    }
}

/// Reads a size: w, h, f, 4 bytes each. `Bad(Form)` comes at an axis that is 0 or within which the file ends,
/// and `Limit Axis` for one above 4,096. It takes no memory.
pub fn read_size<S: Shelf>(
    file: &mut FileReader,
    shelf: &mut S,
    name: &str,
) -> Result<Size, ReadError>
    requires follows { Follows name.now (S.state shelf.old) file.old }
    requires room { file.old.at + 12 < 2 ^ 63 }
    ensures answer { ReadsFrom ⊥ name.now file.old.at (S.state shelf.old) (S.state shelf.new)
        file.new size_read result }
    ensures axes { IfOk result HasAxes }
    ensures place { OnOk result (file.new.at ≡ file.old.at + 12) }
    ensures reads { OnlyReadsFile name.now (S.state shelf.old) (S.state shelf.new) }
{
    let w = read_axis(file, shelf, name)?;
    let h = read_axis(file, shelf, name)?;
    let f = read_axis(file, shelf, name)?;
    Ok(Size { w, h, f })
}

// Reads what comes before the sizes of the samples.
pub(crate) fn read_start<S: Shelf>(
    file: &mut FileReader,
    magic: [u8; 8],
    versions: u8,
    kinds: u8,
    shelf: &mut S,
    name: &str,
) -> Result<Start, ReadError>
    requires follows { Follows name.now (S.state shelf.old) file.old }
    requires room { file.old.at + 22 < 2 ^ 63 }
    ensures answer { ReadsFrom ⊥ name.now file.old.at (S.state shelf.old) (S.state shelf.new)
        file.new (start_read magic versions kinds) result }
    ensures axes { IfOk result (λ start. HasAxes start.output) }
    ensures version { IfOk result (λ start. IsVersion versions start.version) }
    ensures kind { IfOk result (λ start. IsKind kinds start.version start.kind) }
    ensures place { OnOk result (file.new.at ≡ file.old.at + 22) }
    ensures reads { OnlyReadsFile name.now (S.state shelf.old) (S.state shelf.new) }
{
    read_magic(file, magic, shelf, name)?;
    let version = read_version(file, versions, shelf, name)?;
    let kind = read_kind(file, kinds, version, shelf, name)?;
    let output = read_size(file, shelf, name)?;
    Ok(Start {
        version,
        kind,
        output,
    })
}

/// Reads the sizes of so many samples, one after another. The refusals are those of [`read_size`]. It takes
/// no memory.
pub fn read_sizes<S: Shelf>(
    file: &mut FileReader,
    count: u32,
    shelf: &mut S,
    name: &str,
) -> Result<Sizes, ReadError>
    requires follows { Follows name.now (S.state shelf.old) file.old }
    requires room { file.old.at + 192 < 2 ^ 63 }
    requires some { 1 ≤ count }
    requires few { count ≤ MOST_PARTS }
    ensures answer { ReadsFrom ⊥ name.now file.old.at (S.state shelf.old) (S.state shelf.new)
        file.new (list_read size_read count) result }
    ensures count { IfOk result (λ sizes. length sizes ≡ count) }
    ensures sizes { IfOk result AreSizes }
    ensures place { OnOk result (file.new.at ≡ file.old.at + 12 * count) }
    ensures reads { OnlyReadsFile name.now (S.state shelf.old) (S.state shelf.new) }
{
    let mut sizes = Sizes::one(read_size(file, shelf, name)?);
    for i in 1..count {
        sizes.add(read_size(file, shelf, name)?);
    }
    // The count is taken for its contract only: it shows the prover that they are sizes.
    let _count = sizes.len();
    Ok(sizes)
}

// Reads the sizes of the samples.
pub(crate) fn read_samples<S: Shelf>(
    file: &mut FileReader,
    version: Version,
    shelf: &mut S,
    name: &str,
) -> Result<Sizes, ReadError>
    requires follows { Follows name.now (S.state shelf.old) file.old }
    requires room { file.old.at + 194 < 2 ^ 63 }
    ensures answer { ReadsFrom ⊥ name.now file.old.at (S.state shelf.old) (S.state shelf.new)
        file.new (sizes_read version) result }
    ensures samples { IfOk result (AreSamples version) }
    ensures place { OnOk result (file.new.at ≤ file.old.at + 194) }
    ensures reads { OnlyReadsFile name.now (S.state shelf.old) (S.state shelf.new) }
{
    match version {
        Version::One => read_sizes(file, 1, shelf, name),
        Version::Two => {
            let count = read_part(file, MOST_PARTS, shelf, name)?;
            read_sizes(file, count, shelf, name)
        }
    }
}

/// Reads a head and its kind from the first byte of a file on. The versions are 1 to `versions`. In version
/// 1 the kinds are those below `kinds`, and in version 2 kind 0 alone. It takes no memory.
///
/// The refusals, in the order of the fields: `Bad(Form)` at the file's length where the file ends within
/// a field, and else at the first byte of a field that has no valid value (the magic is one field, each
/// number is one); `Limit Axis` for an axis above 4,096.
pub fn read_head<S: Shelf>(
    file: &mut FileReader,
    magic: [u8; 8],
    versions: u8,
    kinds: u8,
    shelf: &mut S,
    name: &str,
) -> Result<(Head, u8), ReadError>
    requires follows { Follows name.now (S.state shelf.old) file.old }
    requires start { file.old.at ≡ 0 }
    ensures answer { ReadsFrom ⊥ name.now file.old.at (S.state shelf.old) (S.state shelf.new)
        file.new (head_read magic versions kinds) result }
    ensures head { IfOk result (λ found. IsHead found.0) }
    ensures kind { IfOk result (λ found. IsKind kinds found.0.version found.1) }
    ensures place { OnOk result (file.new.at ≤ 216) }
    ensures reads { OnlyReadsFile name.now (S.state shelf.old) (S.state shelf.new) }
{
    let start = read_start(file, magic, versions, kinds, shelf, name)?;
    let samples = read_samples(file, start.version, shelf, name)?;
    let head = Head {
        output: start.output,
        samples,
        version: start.version,
    };
    Ok((head, start.kind))
}
