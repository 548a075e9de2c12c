// Whole record files.
ghost use Rattle.std.specs.Prelude.{◌≡◌, ◌≤◌, ◌<◌, ◌+◌, ◌^◌, IfOk, OnOk, OnErr};
ghost use Rattle.std.specs.Int.{w32};
ghost use Rattle.shelf_traits.specs.Files.{Changes, OnlyReadsFile, OnlyWritesFile, WritesRose};
ghost use Rattle.shelf_traits.specs.Written.{HoldsPart, HoldsText};
ghost use Rattle.file_bytes.specs.Reading.{Follows};
ghost use Rattle.source_map.specs.Heads.{IsHead, IsKind, head_read};
ghost use Rattle.source_map.specs.Readings.{ReadsFrom, number_read};
ghost use Rattle.cert_file.specs.declared.file.RecordFile.TheVariants.{Cuts};
ghost use Rattle.cert_file.specs.RecordFiles.{AreCuts, AreCutsInForm, AreCutsInLimits, IsRecordFile, IsRecordFileOf, ReadsRecordFile, ReadsRecordFileBy, cuts_form, kinds, record_magic, version_one_cuts_read, versions};
ghost use Rattle.cert_file.specs.Rules.{any_rule};

use crate::blocks::read_blocks_file;
use crate::cut_reading::read_cuts_file;
use crate::cuts::put_cut;
use crate::walks::read_walk_file;
use block_check::BlockRecord;
use cells::Taps;
use cut_check::CutRecord;
use file_bytes::{FileReader, FileWriter};
use items::Items;
use shelf_traits::{ReadError, Shelf, WriteFault};
use source_map::{Head, put_head, read_head};
use std::alloc::Global;

// What each record file begins with.
pub(crate) const MAGIC: [u8; 8] = *b"WEAVEREC";

/// The kind of a file of cut records, as its head has it.
pub const CUTS: u8 = 0;

/// The kind of a file of block records.
pub const BLOCKS: u8 = 1;

// The kind of a file of a walk record.
pub(crate) const WALK: u8 = 2;

// How many versions there are.
const VERSIONS: u8 = 2;

// How many kinds there are.
const KINDS: u8 = 3;

/// What a record file holds.
#[derive(Drop)]
pub enum RecordFile {
    /// The records of placements and rounds, in their order.
    Cuts {
        head: Head,
        cuts: Items<CutRecord>,
    },
    /// The records of a quilt's blocks, in their order.
    Blocks {
        head: Head,
        blocks: Items<BlockRecord>,
    },
    /// The walk of a loop, with the filter and the gap of its step costs, and its tables.
    Walk {
        head: Head,
        taps: Taps,
        gap: u32,
        walk: Items<u16>,
        tables: Items<u64>,
    },
}

/// Writes the file of cut records, in the version of the head: the head, how many there are, and of each
/// record corner and size of its box, where its new sources begin (in version 2 with the number of the
/// sample), its choice, eight cells a byte, and its flows, 4 bytes a pair. It takes no memory. After a
/// `WriteFault` the shelf has failed, and the file may be cut off anywhere.
pub fn write_cuts<S: Shelf>(
    head: &Head,
    cuts: &[CutRecord],
    shelf: &mut S,
    name: &str,
) -> Result<(), WriteFault>
    requires { AreCutsInForm head.now cuts.now }
    ensures ok { OnOk result (Changes (S.state shelf.old) (S.state shelf.new)
        (HoldsText name.now (cuts_form head.now cuts.now))) }
    ensures err { OnErr result (Changes (S.state shelf.old) (S.state shelf.new)
        (HoldsPart name.now (cuts_form head.now cuts.now))) }
    ensures writes { OnlyWritesFile name.now (S.state shelf.old) (S.state shelf.new) }
    ensures failed { OnErr result (WritesRose name.now (S.state shelf.old) (S.state shelf.new)) }
    ensures again { AreCutsInLimits head.now cuts.now →
        IsRecordFileOf (cuts_form head.now cuts.now) (Cuts head.now cuts.now) }
{
    let mut file = FileWriter::begin(shelf, name);
    put_head(&mut file, MAGIC, CUTS, head, shelf, name);
    file.put_number(cuts.len() as u32, shelf, name);
    for cut in cuts {
        put_cut(&mut file, head.version, &head.samples, cut, shelf, name);
    }
    file.finish(shelf, name)
}

/// Reads how many records there are, after the head of a file of cut records or of block records.
pub fn read_count<S: Shelf>(
    file: &mut FileReader,
    shelf: &mut S,
    name: &str,
) -> Result<u32, ReadError>
    requires follows { Follows name.now (S.state shelf.old) file.old }
    requires room { file.old.at < 2 ^ 31 }
    ensures answer { ReadsFrom ⊥ name.now file.old.at (S.state shelf.old) (S.state shelf.new)
        file.new (number_read w32 any_rule) result }
    ensures place { OnOk result (file.new.at ≡ file.old.at + 4) }
    ensures reads { OnlyReadsFile name.now (S.state shelf.old) (S.state shelf.new) }
{
    let n: u32 = file.number(shelf, name)?;
    Ok(n)
}

/// Reads the head of a record file, and the number of its kind, from the first byte on. A caller that
/// needs each record only as it comes reads on by `read_count` and then `read_cut` or `read_block`, or by
/// `read_walk_file`, and is refused what `read_record_file` refuses. It takes no memory.
pub fn read_record_head<S: Shelf>(
    file: &mut FileReader,
    shelf: &mut S,
    name: &str,
) -> Result<(Head, u8), ReadError>
    requires follows { Follows name.now (S.state shelf.old) file.old }
    requires start { file.old.at ≡ 0 }
    ensures answer { ReadsFrom ⊥ name.now file.old.at (S.state shelf.old) (S.state shelf.new)
        file.new (head_read record_magic versions kinds) result }
    ensures head { IfOk result (λ found. IsHead found.0) }
    ensures kind { IfOk result (λ found. IsKind kinds found.0.version found.1) }
    ensures place { OnOk result (file.new.at ≤ 216) }
    ensures reads { OnlyReadsFile name.now (S.state shelf.old) (S.state shelf.new) }
{
    read_head(file, MAGIC, VERSIONS, KINDS, shelf, name)
}

/// Reads a record file, to its end.
///
/// The refusals, in the order of the fields: `Bad(Form)` at the file's length where the file ends within
/// a field, else at the first byte of a field that has no valid value, with the choice of a record as one
/// field, in which no unused bit is set; `Limit Axis` (4,096) at a size of the head; `Limit Records` (2^25
/// cells of all boxes so far) after the size of a box or a block; for a walk `Limit Frames` (256 of the
/// sample) after the head, and `Limit Loop` (4,096) after its length. A byte after the last field is
/// `Bad(Form)` at its place. `ReadFault` comes wherever a read fails, and `NoMemory` may come at any place:
/// memory is taken as bytes come, never by a count in the file.
pub fn read_record_file<S: Shelf>(
    alloc: Global,
    shelf: &mut S,
    name: &str,
) -> Result<RecordFile, ReadError>
    ensures answer { ReadsRecordFile name.now (S.state shelf.old) (S.state shelf.new) result }
    ensures form { IfOk result IsRecordFile }
    ensures reads { OnlyReadsFile name.now (S.state shelf.old) (S.state shelf.new) }
{
    let mut file = FileReader::new();
    match read_record_head(&mut file, shelf, name) {
        Ok((head, kind)) => {
            if kind == CUTS {
                read_cuts_file(alloc, &mut file, head, shelf, name)
            } else if kind == BLOCKS {
                read_blocks_file(alloc, &mut file, head, shelf, name)
            } else {
                read_walk_file(alloc, &mut file, head, shelf, name)
            }
        }
        Err(error) => Err(error),
    }
}

/// Reads a file of cut records of version 1, to its end: as `read_record_file` does, but every other
/// version is `Bad(Form(8))`, whatever follows it, and every other kind `Bad(Form(9))`.
pub fn read_version_one_cuts<S: Shelf>(
    alloc: Global,
    shelf: &mut S,
    name: &str,
) -> Result<RecordFile, ReadError>
    ensures answer { ReadsRecordFileBy version_one_cuts_read name.now
        (S.state shelf.old) (S.state shelf.new) result }
    ensures form { IfOk result IsRecordFile }
    ensures cuts { IfOk result AreCuts }
    ensures reads { OnlyReadsFile name.now (S.state shelf.old) (S.state shelf.new) }
{
    let mut file = FileReader::new();
    match read_head(&mut file, MAGIC, 1, 1, shelf, name) {
        Ok((head, _)) => read_cuts_file(alloc, &mut file, head, shelf, name),
        Err(error) => Err(error),
    }
}
